//! Plans for what comes of records: messages of records and of commits, vacuums.
//!
//! What comes of messages of records and of commits at a node, as plans.
//!
//! What comes of a vacuum of a database at a node, as a plan.
#![tactic(auto)]

pub mod databases;
pub mod messages;
pub mod vacuums;
mod walk;
