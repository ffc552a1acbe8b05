//! What is read.
ghost use Rattle.ct_law_wire.specs.Alone.{ReadsSpellingsAlone, StreamsAreSpellings};

/// A frame and a length are read exactly where the bytes begin with a spelling of that frame, of that length, in a
/// version of the layout.
pub fn reads_spellings_alone()
    ensures { ReadsSpellingsAlone }
{}

/// A stream completes these frames exactly where it is their spellings, one after the other, and then a rest that
/// completes none.
pub fn streams_are_spellings()
    ensures { StreamsAreSpellings }
{}
