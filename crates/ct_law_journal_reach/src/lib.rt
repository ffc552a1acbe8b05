//! How far a schedule of the first entries of journals can reach: whoever makes the next entry of any node, as long as one may be
//! made, reaches the greatest number of entries of each, and a schedule of all of them where there is one.
//!
//! `specs/Counts` is what reaches so far, `specs/Making` which entry may be made next and by which steps, `laws` the laws. ct_journal_join_any
//! stands on them, which is for callers of the library.
#![tactic(auto)]

pub mod laws;
pub mod worked;
