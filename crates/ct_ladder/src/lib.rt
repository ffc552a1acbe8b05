//! The ladder of a scenario: its run as a picture that knows which message came when.
#![tactic(auto)]

pub mod drawing;
pub mod rung;
