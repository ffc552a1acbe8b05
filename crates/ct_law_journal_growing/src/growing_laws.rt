//! What follows where journals grow entry by entry.
ghost use Rattle.ct_law_journal_growing.specs.GrowingLaws.{AllArrives, BeginsToGrow, CountsGrown, GoesOn, GrowsInOrder};

/// Each entry that may come next, at the end of its journal, may stand at the end of the list of all entries.
pub fn goes_on()
    ensures begins { BeginsToGrow }
    ensures goes_on { GoesOn }
{}

/// Journals that have grown so are in order; and once no message waits, all have arrived.
pub fn grows_in_order()
    ensures in_order { GrowsInOrder }
    ensures arrives { AllArrives }
    ensures counts { CountsGrown }
{}
