//! What a member plans where a round installs: its databases from the rows of all members, its placement, and what it gives up.
#![tactic(auto)]

pub mod databases;
pub mod installing;
pub mod rows;
