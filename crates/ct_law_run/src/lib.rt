//! The law of every run, for records.
//!
//! Every turn of a node that is not present, and every message of a round at any node, keep the invariant of every run.
//!
//! The law of records through every list of steps: each turn that a node may take keeps the invariant of every run, and so does
//! each step of the cluster.
//!
//! What holds of the cluster over all its generations: of each line, of each node, and of every message of a round.
//!
//! What holds of the cluster over all its generations goes on holding through the steps that no node takes: a stop and a
//! start, a drop and a mark of who is able, a ticket and the lock that is given back.
//!
//! The law of every run: freezes, and what a leader does.
//!
//! What a Freeze, and what a node does that freezes, makes of registers, worlds and nodes.
//!
//! What a leader does keeps the invariant of every run: its round begins, its acknowledgements and replies come, but for the last
//! reply, and it asks again.
//!
//! What clients of a node that freezes do keeps the invariant of every run: stores, unlocks, reads, and calls that are refused.
//!
//! The law of every run: lines are born, and installed.
//!
//! The last reply of a round: its line is born, and every node lives on.
//!
//! Every Push keeps the invariant of every run: a node that is frozen for its generation installs it.
//!
//! What holds of the cluster over all its generations goes on holding through the turns of nodes that are present: clients'
//! calls, messages of records, vacuums, retries, thaws, commits and takeovers.
#![tactic(auto)]

pub mod laws;
