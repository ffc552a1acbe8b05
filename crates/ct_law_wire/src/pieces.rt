//! A stream of frames in pieces.
ghost use Rattle.ct_law_wire.specs.InPieces.{EndOfTwo, FramesOfTwo};

/// Bytes that are read in two pieces lead to the end of the whole, and complete its frames.
pub fn pieces_are_the_whole()
    ensures end { EndOfTwo }
    ensures frames { FramesOfTwo }
{}
