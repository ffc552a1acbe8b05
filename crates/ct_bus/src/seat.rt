//! A node's place at a bus: where it posts, and where it takes.
ghost use Rattle.std.specs.Prelude.{◌≡◌};

use crate::ends::{PostEnd, TakeEnd};

/// Where a node posts, to each node by its number. Its end to itself is never used.
#[derive(Drop)]
pub struct SendSeat {
    pub(crate) me: u32,
    pub(crate) ends: Vec<PostEnd>,
}

/// Where a node takes what was posted to it, from each node by its number. Its end from itself is never used.
#[derive(Drop)]
pub struct ReceiveSeat {
    pub(crate) me: u32,
    pub(crate) ends: Vec<TakeEnd>,
}
