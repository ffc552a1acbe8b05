//! Plain values: bytes, keys, names, addresses and lists; what a cluster is made of, what clients ask and are answered.
//!
//! Plain bytes: keys, values, names and addresses, the hash, lists of nodes, and lists as contracts see them.
//!
//! Plain values: what a cluster is made of, what clients ask and what they are answered.
//!
//! The map of virtual node numbers, which tells for each key the node that knows where its record is.
#![tactic(auto)]

pub mod address;
pub mod boxed;
pub mod client;
pub mod config;
pub mod copies;
pub mod hash;
pub mod items;
pub mod key;
pub mod map;
pub mod memory;
pub mod name;
pub mod nodes;
mod same;
pub mod value;
