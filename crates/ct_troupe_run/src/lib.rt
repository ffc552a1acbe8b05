//! What a troupe's journals say, as the text of one run.
//!
//! A plan that was played is told as the run of a schedule of its journals:
//!
//! ```
//! let lines = run_text(alloc, &table, &plan, troupe.journals())?;
//! ```
//!
//! The command that plays the plan of a seed:
//!
//! ```
//! let end = cluster(alloc, &table, &wanted, &mut out, &mut troupe);
//! ```
//!
//! The command that cuts the plan of a seed into chains: each column is played by itself, and the text of its run is written.
//!
//! ```
//! let end = chains(alloc, &table, &wanted, &mut out, &mut troupe);
//! ```
#![tactic(auto)]

pub mod chains;
pub mod columns;
pub mod running;
pub mod text;
