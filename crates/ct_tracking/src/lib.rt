//! Who may have a copy of a record, who has not acknowledged, and how records are taken out.
//!
//! Which nodes are missing an acknowledgement, and which other nodes may hold a copy for reading and how those copies
//! are called back.
//!
//! Taking keys out of a database: the two phases for one key, and the keys that may be taken out.
#![tactic(auto)]

pub mod awaited;
pub mod candidates;
pub mod tracking;
pub mod vacuum;
