//! Frames as bytes: the layout that nodes hand each other over a link, whole and in pieces.
#![tactic(auto)]

mod body;
pub mod cursor;
pub mod decode;
pub mod decoder;
pub mod encode;
mod fresh;
mod put;
mod rows;
mod whole;
