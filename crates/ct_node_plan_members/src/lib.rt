//! Plans of a member of a round: it freezes and tells what it has where the round begins, and is thawed where it ends.
#![tactic(auto)]

pub mod commits;
pub mod freezing;
pub mod thawing;
