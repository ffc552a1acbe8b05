//! Chains: the records of a node cut into parts by their hash, and a plan cut into one plan for each of them.
//!
//! A key of a volatile database has one of so many chains:
//!
//! ```
//! let chain = chain_of(&config, 2, &op);
//! ```
//!
//! A plan is cut into columns, each of which is a plan of its own:
//!
//! ```
//! let columns = cut(alloc, &plan, 2)?;
//! ```
#![tactic(auto)]

pub mod chain;
pub mod cut;
pub mod laws;
