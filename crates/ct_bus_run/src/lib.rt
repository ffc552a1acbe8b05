//! The exchange that a seed makes, and its text.
//!
//! ```
//! let wanted = BusWanted { nodes: 2, messages: 5, seed: 1 };
//! let end = bus(alloc, &wanted, &handlers, &mut out, &mut troupe);
//! ```
#![tactic(auto)]

pub mod generated;
pub mod running;
pub mod text;
