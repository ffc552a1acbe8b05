//! What follows of journals in order.
ghost use Rattle.ct_journal.specs.Going.{AnyWayEnds, MayStandLater};

/// What may stand next may still stand once entries of other nodes are put.
pub fn may_stand_later()
    ensures { MayStandLater }
{}

/// Whoever puts whatever may stand ends with all entries, where any list has them all.
pub fn any_way_ends()
    ensures { AnyWayEnds }
{}
