//! The state of one node: its phase and members, its databases, the addresses that it holds, and what it leads. One record
//! of it is read, changed and put back alone. The middle of a step: a copy of the node that the parts of the rules change,
//! and what is done, in order.
#![tactic(auto)]

pub mod kinds;
pub mod locks;
pub mod members;
pub mod node;
pub mod outs;
pub mod phases;
pub mod placing;
pub mod restart;
pub mod turn;
