//! Frames over a link: cut into pieces, sent, and read again.
//!
//! Frames as the pieces that a link carries: into which pieces a frame is cut, and which bytes the pieces of a node are.
//!
//! Frames are sent over a link, piece by piece.
//!
//! Pieces of bytes are read as the frames that they make, for each sender apart.
#![tactic(auto)]

pub mod arrived;
pub mod fault;
pub mod parcel_laws;
pub mod readers;
pub mod send;
pub mod stream_laws;
