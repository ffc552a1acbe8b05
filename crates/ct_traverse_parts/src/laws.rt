//! What a traverse keeps of each key.
ghost use Rattle.ct_traverse_parts.specs.Kept.{KeptIsUnbeaten, EntryIsAbove};
ghost use Rattle.ct_traverse_parts.specs.Rows.{RowsAreExact};

/// Of all rows that came for a key, in both passes and in whatever order, the one that is kept is beaten by none, and it is known
/// whether an entry was among them; of a key for which none came nothing is kept.
pub fn the_kept_row_is_beaten_by_none()
    ensures { KeptIsUnbeaten }
{}

/// No row has a greater RSN than the one that is kept; where that is an entry's, all copies have smaller ones.
pub fn a_kept_entry_is_above_copies()
    ensures { EntryIsAbove }
{}

/// Of all copies of a database that a member answers with the row of a key is that of its copy, and of all entries that of its entry.
pub fn rows_are_exact()
    ensures { RowsAreExact }
{}
