//! Links between nodes: of threads in one program, and of TCP streams.
//!
//! What stands between the threads of a cluster: the boxes that carry messages from node to node, and the book of the
//! recovery lock, each a value of one thread, and each behind a lock that threads share.
//!
//! The link of a node over streams that do not block, as TCP's are: one stream for each other node, and a queue for what
//! the node sends to itself.
//!
//! A mesh: each of so many nodes has streams over this machine to all others.
#![tactic(auto)]

pub mod book;
pub mod boxes;
pub mod hub;
mod lanes;
pub mod link;
pub mod mesh;
pub mod seats;
