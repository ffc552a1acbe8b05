//! What a node keeps of its records is in form: so rounds leave it, and every step.
//!
//! Rounds of recovery leave a node in form, and what is sent in them keeps its rules: laws of the definitions.
//!
//! Every step leaves a node in form, and every message that it sends keeps its rules: the law of a whole node.
#![tactic(auto)]

pub mod round_laws;
pub mod step_laws;
