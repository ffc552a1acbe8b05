//! Pieces of bytes between nodes.
ghost use Rattle.std.specs.Prelude.{◌≡◌, ◌≤◌, ◌∷◌, [], ℕ, Bool, List, Option, is_ok, IsTrue};
ghost use Rattle.ct_outside.specs.Links.{Parcel, Pieces, Looks, Receives, Sends, is_end, is_failure};
ghost use Rattle.ct_outside.specs.Told.{Lists, RisesWhere, Told};

use crate::fault::LinkFault;
use std::marker::Model;

/// A piece of bytes, and the node that it goes to or comes from.
#[derive(Debug, Drop)]
pub struct Piece {
    pub node: u32,
    pub bytes: Vec<u8>,
}

impl Model for Piece {
    ghost use Rattle.ct_outside.specs.Links.{Parcel, parcel};

    ghost Value = { Parcel };

    ghost view = { λ a. parcel a.node a.bytes.items };
}

/// What a link answers to a look.
#[derive(Debug, Drop)]
pub enum Received {
    Piece { sender: u32, bytes: Vec<u8> },
    Nothing,
    /// Nothing will come any more.
    Closed,
}

/// One node's way to the others. None of its counts ever falls.
pub trait Link {
    /// The pieces that wait and those that were sent, where the link tells them.
    ghost pieces: { Self → Option Pieces };

    /// How often it has failed.
    ghost faults: { Self → ℕ };

    /// How often it has answered that nothing will come any more.
    ghost endings: { Self → ℕ };

    /// How often it has answered a look.
    ghost looks: { Self → ℕ };

    /// Whether it might wait at each of its looks so far, in order, where the link lists that.
    ghost permissions: { Self → Option (List Bool) };

    /// Sends a piece to a node. A refusal sends nothing.
    fn send(&mut self, to: u32, bytes: &[u8]) -> Result<(), LinkFault>
        ensures pieces { Told (pieces self.old) (pieces self.new) (Sends result to bytes.now) }
        ensures cause { RisesWhere (is_failure result) (faults self.old) (faults self.new) }
        ensures endings { endings self.old ≤ endings self.new }
        ensures looks { looks self.new ≡ looks self.old }
        ensures permissions { permissions self.new ≡ permissions self.old };

    /// Looks for the first piece that waits. The link may wait for one where it has permission, and only there it may
    /// answer that nothing will come any more.
    fn receive(&mut self, may_wait: bool) -> Result<Received, LinkFault>
        ensures pieces { Told (pieces self.old) (pieces self.new) (Receives result) }
        ensures cause { RisesWhere (is_failure result) (faults self.old) (faults self.new) }
        ensures ended { RisesWhere (is_end result) (endings self.old) (endings self.new) }
        ensures permitted { IsTrue (is_end result) → IsTrue may_wait }
        ensures looked { Looks (is_ok result) (looks self.old) (looks self.new) }
        ensures permissions { Lists (may_wait ∷ []) (permissions self.old) (permissions self.new) };
}
