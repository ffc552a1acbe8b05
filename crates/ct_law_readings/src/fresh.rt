//! What is fresh was read. A value is fresh where no reading of before some moment can be older than it: the newest copy of that
//! moment is, and so is an entry that came after all copies of it.
ghost use Rattle.ct_law_readings.specs.Fresh.{FreshCopyWasRead, FreshEntryWasRead, RecordIsFound};
ghost use Rattle.ct_law_readings.specs.Greatest.{GreatestCopyWasRead, GreatestEntryWasRead};
ghost use Rattle.ct_law_readings.specs.Moments.{MomentsComeOn};

/// While no step removes the record: a copy of the newest RSN of some moment, or of a newer one, has a value that was the record's
/// reading at that moment or later.
pub fn a_fresh_copy_was_read()
    ensures { FreshCopyWasRead }
{}

/// So has an entry whose least RSN is above all marks of that moment.
pub fn a_fresh_entry_was_read()
    ensures { FreshEntryWasRead }
{}

/// And one of both there is: who looks for the record where it is at some moment, and later at its entry, finds a copy of the
/// newest RSN of that moment, or of a newer one, or an entry whose least RSN is above all marks of that moment.
pub fn a_record_is_found()
    ensures { RecordIsFound }
{}

/// Steps may remove the record in between, and it may be made anew. Of copies that are seen at some moments and of the entry at the end
/// a copy that none of them is above was the reading at one of the moments, where it was looked for where it was at the first.
pub fn the_greatest_copy_was_read()
    ensures { GreatestCopyWasRead }
{}

/// So was the entry, where it is above every copy that was seen.
pub fn the_greatest_entry_was_read()
    ensures { GreatestEntryWasRead }
{}

/// The moments of a record of a line that was born, in every run, come one of the other as these laws ask of them.
pub fn moments_of_a_run_come_on()
    ensures { MomentsComeOn }
{}
