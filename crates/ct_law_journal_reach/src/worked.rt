//! Journals that are worked out by the definitions.
ghost use Rattle.ct_law_journal_reach.specs.Worked.{NoneIsReached};

/// A message comes to node 0 that no node sends: both journals are runs, no schedule makes any entry of them, and they have none.
pub fn none_is_reached()
    ensures { NoneIsReached }
{}
