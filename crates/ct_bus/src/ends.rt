//! The two ends of one pair's queue.
ghost use Rattle.std.specs.Prelude.{◌≡◌, true, false, [], length};
ghost use Rattle.crossbeam_queue.specs.Passes.{view};
ghost use Rattle.ct_bus.specs.Relay.{log};

use crate::message::{Log, Message};
use crossbeam_queue::Pass;

/// Where a node posts to one other node.
#[derive(Drop)]
pub struct PostEnd {
    /// How many messages were posted here.
    pub(crate) count: u64,
    pub(crate) pass: Pass<Message, Log>,
    pub(crate) ghost empty_handed: { pass.me.1 ≡ [] },
    ghost posts: { view pass ≡ log true false (view pass).posted [] },
    ghost counted: { count ≡ length (view pass).posted },
}

/// Where a node takes what one other node posts.
#[derive(Drop)]
pub struct TakeEnd {
    /// The other node.
    pub(crate) sender: u32,
    pub(crate) pass: Pass<Message, Log>,
    pub(crate) ghost empty_handed: { pass.me.1 ≡ [] },
    ghost takes: { view pass ≡ log false true [] (view pass).taken },
}
