//! The middle of a step of one record: a copy of the record's state, which small parts change one after another, each by
//! exactly the part of the rules whose name it has.
#![tactic(auto)]

pub mod draft;
pub mod parts;
mod wants;
