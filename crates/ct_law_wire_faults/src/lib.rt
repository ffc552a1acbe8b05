//! Laws of frames as bytes: where the first field stands that breaks its rule, and where the bytes end too early.
#![tactic(auto)]

pub mod faults;
