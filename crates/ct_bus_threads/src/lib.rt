//! An exchange over a bus, with a thread for each node.
//!
//! ```
//! let mut threads = BusThreads::new(rt, gates);
//! let answered = threads.exchange(alloc, &scripts, &handlers)?;
//! ```
#![tactic(auto)]

pub mod exchange;
pub mod gate;
mod rounds;
mod seats;
mod settled;
mod side;
pub mod threads;
mod turns;
pub mod work;
