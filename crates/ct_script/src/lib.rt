//! Plans, the scripts of their nodes, and how far a node is in its script.
//!
//! Plans: what the clients of each node ask, one after the other, and when its nodes lead a recovery. A plan is
//! `crate::plan::Plan`.
//!
//! How far a node is in its script.
//!
//! Of a script of two calls the second may be taken once the first is answered:
//!
//! ```
//! let mut cue = Cue::first(&[]);
//! cue.follow(&Event::Client { call: 1, op }, &[]);
//! assert!(rt; cue.next(&script).is_none());
//! ```
#![tactic(auto)]

pub mod cue;
pub mod generated;
pub mod plan;
pub mod scripts;
