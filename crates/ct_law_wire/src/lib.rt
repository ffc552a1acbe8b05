//! Laws of frames as bytes: spelling and reading are inverse to each other.
//!
//! Laws of frames as bytes: what is spelled is read as its frame, and the frames of a stream do not depend on its
//! pieces.
//!
//! Laws of frames as bytes: what is read is spelled.
#![tactic(auto)]

pub mod alone;
pub mod pieces;
pub mod spelling;
