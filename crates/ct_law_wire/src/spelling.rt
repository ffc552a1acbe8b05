//! Spellings of frames.
ghost use Rattle.ct_law_wire.specs.Grammar.{ReadsWhatIsSpelled, SpellsApart, WritesSpellings};

/// What the encoder answers is a spelling in the newest version, where keys, values and addresses are in range.
pub fn writes_spellings()
    ensures { WritesSpellings }
{}

/// What is spelled in a version of the layout is read as its frame, with its length, whatever follows it.
pub fn reads_what_is_spelled()
    ensures { ReadsWhatIsSpelled }
{}

/// No two frames share a spelling, and a spelling is no front of another.
pub fn spells_apart()
    ensures { SpellsApart }
{}
