//! Whoever plays a plan, each node by itself, or the plans of columns; and troupes that play in turns.
//!
//! Troupes: whoever plays a plan, each node by itself, and tells the journals of the nodes.
//!
//! A troupe that has one of two play, as the plan wants it.
//!
//! ```
//! let mut both = Both::new(threads, loopback);
//! both.play(alloc, &table, &plan)?;
//! let journals = both.journals();
//! ```
//!
//! A plan is played on one thread, with its nodes in turn.
//!
//! ```
//! let mut turns = Turns::new(alloc);
//! turns.play(alloc, &table, &plan)?;
//! let journals = turns.journals();
//! ```
//!
//! Columns: the plans of the chains, each played by itself. Whoever plays columns tells the journals of each; one thread plays one
//! column after the other.
//!
//! ```
//! let mut columns = ColumnTurns::new(alloc);
//! columns.play_all(alloc, &table, plans.as_slice())?;
//! let journals = columns.column(0);
//! ```
#![tactic(auto)]

pub mod both;
pub mod column_turns;
pub mod columns;
pub mod laws;
mod stage;
pub mod troupe;
pub mod turns;
