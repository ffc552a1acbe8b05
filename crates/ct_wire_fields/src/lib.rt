//! A frame field by field: what comes next, what a field must keep, and what has been read.
#![tactic(auto)]

mod address;
pub mod check;
pub mod draft;
mod header;
pub mod place;
pub mod reading;
mod record;
mod table;
pub mod version;
