//! The program's word `lcp2`: nodes and addresses line by line, and their placement.
//!
//! Nodes and addresses that are told line by line, and the text of their placement.
//!
//! Reads what is said of nodes and addresses, and prints their placement.
#![tactic(auto)]

pub mod laws;
pub mod line;
pub mod placer;
pub mod placing;
pub mod print;
pub mod text;
