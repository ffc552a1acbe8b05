//! A step of a node as a plan: what it changes and does, as it is planned before anything changes.
//!
//! Messages to several nodes, behind what is done before.
#![tactic(auto)]

pub mod change;
pub mod handed;
pub mod plans;
pub mod posts;
pub mod record;
pub mod still;
