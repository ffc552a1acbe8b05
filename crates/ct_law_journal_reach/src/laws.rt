//! How far a schedule of the first entries of journals can reach.
ghost use Rattle.ct_law_journal_reach.specs.Laws.{AllIsScheduled, HeldIsGreatest, InOrderHaveOwnTickets, InOrderIsNeverStuck, LessIsStuck, NoneIsMade, OneMore};

/// No steps have made no entry. Once steps have made the first entries of journals that are runs, the next entry of any node is
/// made by the steps for it, where it may be made: the cluster takes each of them.
pub fn one_more()
    ensures none { NoneIsMade }
    ensures more { OneMore }
{}

/// Once no next entry of any node may be made, no schedule of first entries of the journals makes more of any of them.
pub fn held_is_greatest()
    ensures { HeldIsGreatest }
{}

/// Where the steps that were made have made all entries, they are a schedule of the journals; and where the greatest counts are
/// less than those of all entries, the journals have no schedule.
pub fn whole_or_stuck()
    ensures whole { AllIsScheduled }
    ensures stuck { LessIsStuck }
{}

/// Of journals that are runs and are in order, the greatest counts are those of all entries; and no ticket stands in two of them.
pub fn in_order_is_never_stuck()
    ensures counts { InOrderIsNeverStuck }
    ensures tickets { InOrderHaveOwnTickets }
{}
