//! Why no frame is read.
ghost use Rattle.ct_law_wire_faults.specs.Faults.{CoversAll, DecodesByFields, MalformedAtTheFirst, ReadWhereAllKeep, ShortWhereItEnds, SpelledWhereAllKeep, StreamBreaksByFields, StreamWaitsByFields, Apart};
ghost use Rattle.ct_law_wire_faults.specs.Fronts.{FrontsAreShort, MalformedStays};
ghost use Rattle.ct_law_wire_faults.specs.Offsets.{FaultIsFirst, FaultsAreNamed, OffsetsCount};

/// A call of `decode` answers what the fields say, in their order, or that memory ran out.
pub fn decodes_by_fields()
    ensures read { ReadWhereAllKeep }
    ensures short { ShortWhereItEnds }
    ensures malformed { MalformedAtTheFirst }
    ensures answer { DecodesByFields }
{}

/// All bytes begin with a spelling, or are short, or are malformed at one offset, and are never two of these.
pub fn one_of_three()
    ensures covers { CoversAll }
    ensures apart { Apart }
    ensures spelled { SpelledWhereAllKeep }
{}

/// Behind its frames a stream waits exactly where its rest is short, and fails exactly where that is malformed.
pub fn streams_by_fields()
    ensures waits { StreamWaitsByFields }
    ensures breaks { StreamBreaksByFields }
{}

/// An offset counts the bytes before it. A fault is named by where its number, key, value or address begins, or its row,
/// and the bytes before that break no rule.
pub fn offsets()
    ensures counted { OffsetsCount }
    ensures named { FaultsAreNamed }
    ensures first { FaultIsFirst }
{}

/// What is malformed stays so, at the same offset, whatever comes behind it, and the first bytes of a spelling are short
/// as long as it is not all there.
pub fn bytes_come()
    ensures stays { MalformedStays }
    ensures short { FrontsAreShort }
{}
