//! What pieces are together.
ghost use Rattle.ct_wire_link.specs.Laws.{FrontsJoin, PiecesJoin};

/// The pieces of frames that go to a node, joined, are the spellings of the frames that go to it, one after the other. The
/// pieces at the front of others are joined to a front of what the others are joined to.
pub fn pieces_join()
    ensures frames { PiecesJoin }
    ensures fronts { FrontsJoin }
{}
