//! What stands of rounds and takeover runs at a node: as a member of a round, as a leader, as a holder of addresses.
//!
//! Rounds of recovery: where a member stands in them, and the leader of one.
//!
//! Takeover runs: a run as its leader sees it, and the addresses that a node holds.
//!
//! What a node leads: the leader of a round, what it pushes, and the takeover runs once the round is completed.
#![tactic(auto)]

pub mod holder;
pub mod laws;
pub mod lead;
pub mod leader;
pub mod member;
pub mod run;
pub mod runs;
