//! The rules of one node: its state, what a client is refused, and what comes of every event, as definitions.
//!
//! They stand in `specs/`: `Node` is the state, `Turn` the middle of a step, `Records` how the rule of one record is put
//! into a node, and then `Clients`, `Databases`, `Rounds`, `Takeovers`, `Retries` and `Steps`. What follows for all of them
//! is said by ct_law_rules_node.
#![tactic(auto)]
