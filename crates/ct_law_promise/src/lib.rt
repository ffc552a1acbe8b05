//! The promise of every run.
//!
//! The law of persistent databases through every list of steps, with that of records: each step of the cluster keeps both.
//!
//! The law of addresses through every list of steps, with that of records: whatever step is taken, what holds of addresses is
//! kept, and its labels need no more.
//!
//! What a round makes of the copies of its members, in every run: a choice that the definition of a birth allows, in which nothing
//! that was seen is lost and nothing that was vacuumed returns.
//!
//! The promise of every run: of records, of persistent databases and of addresses together, through every list of steps; whole,
//! and phrase by phrase.
#![tactic(auto)]

pub mod address_laws;
pub mod database_laws;
pub mod laws;
pub mod merge_laws;
pub mod phrases;
