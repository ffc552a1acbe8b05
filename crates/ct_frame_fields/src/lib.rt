//! Whether the fields of a frame keep their rules, exactly.
#![tactic(auto)]

pub mod fields;
