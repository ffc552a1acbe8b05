//! What nodes make of the messages that they post to each other: handlers of numbered services, and the exchange of what each
//! node has for each.
//!
//! ```
//! let mut handlers = Handlers::new(alloc);
//! handlers.add_rule(alloc, 0, Rule::Arg)?;
//! let mut turns = BusTurns::new();
//! let answered = turns.exchange(alloc, &scripts, &handlers)?;
//! ```
#![tactic(auto)]

mod entry;
pub mod handled;
pub mod handlers;
pub mod own;
pub mod scripts;
pub mod troupe;
pub mod turns;
