//! What every step of a cluster does and owes, and who made the calls that wait.
//!
//! Who made each call that waits at a node, and what it asked: whatever comes, every call that waits is one that was made.
//!
//! What every step of the cluster does: which node takes a turn or stops, and what of locks, rounds and senders its labels and messages tell.
//!
//! Every step of the cluster that is taken: what it owes a law that speaks of nodes, labels and messages.
#![tactic(auto)]
