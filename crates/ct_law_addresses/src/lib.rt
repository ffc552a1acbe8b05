//! The law of addresses, rule by rule.
//!
//! Where addresses are in every run: each step keeps what holds of placements, and the registers accept its labels.
//!
//! What takeover runs and rounds do to addresses: the facts of addresses hold after each rule, and its labels need no more.
//!
//! What rounds, stops and retries do to addresses: the facts of addresses hold after each, and its labels need no more.
#![tactic(auto)]
