//! Journals that are worked out by the definitions.
ghost use Rattle.ct_journal.specs.Worked.{TwoWrites};

/// Two nodes with a write each: both journals are runs, they are in order, and they have a schedule.
pub fn two_writes()
    ensures { TwoWrites }
{}
