//! One record in one generation. Its nodes may do whatever the rules allow them, in any order, and any message that was
//! sent about it may come late, often or never: all that their clients are told is one register's, and step by step there
//! are marks that say which of its versions each RSN stands for.
//!
//! The law of one record: its world and its facts.
//!
//! What the law of one record speaks of, as definitions in `specs/`: its world, the events of a schedule, what is told, and
//! its RSN marks.
//!
//! For the law of one record: the small rule, over the few things that the facts speak of; the invariant over a ghost, with the
//! marks; and that single changes of a node, and of its copy, keep the facts.
//!
//! The law of one record: each rule and each event keeps its facts.
//!
//! The invariant of one record is kept by each part of the rules: what is sent and told, what the holder does (it locks,
//! writes, gives, hands out copies for reading and calls them in), and a copy for reading that is taken or called in; and
//! what each change makes of the marks.
//!
//! The invariant of one record is kept, in the rules as the law sees them, by every client's call, every message, every
//! vacuum, a node that stops, and a floor that other records raise. Grants and revocations are in ct_law_change.
//!
//! The law of one record: what its rules do with waiting calls, and that its small rules are the rules of ct_rules.
//!
//! What a rule of a record does with the call that waits: it keeps what that asks, and answers it at most once. So what a
//! node tells by the log of open calls is what it tells by the call that waits.
//!
//! The rules of one record as its law sees them do what the rules of ct_rules do: part by part, and for each message and
//! event.
#![tactic(auto)]

pub mod laws;
