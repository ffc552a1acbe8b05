//! What follows where client calls have other numbers.
ghost use Rattle.ct_law_journal_numbers.specs.Laws.{AgreesRenumbered, ComesRenumbered, HoldsNoOther, JournalsRenumbered, OpensRenumbered, OpensWithoutCalls, RunsRenumbered, SendsRenumbered, StepsRenumbered};

/// Where all calls that a node holds have other numbers, which rise strictly as the old ones do, and that of the event too, the
/// step is the same, under these numbers; and the event may come where the other may.
pub fn steps_renumbered()
    ensures steps { StepsRenumbered }
    ensures comes { ComesRenumbered }
{}

/// A node at its opening is the same under all numbers; only the numbers of calls that a node holds matter; and messages have none.
pub fn holds_few_numbers()
    ensures opening { OpensRenumbered }
    ensures agree { AgreesRenumbered }
    ensures sends { SendsRenumbered }
{}

/// A node holds no calls at its opening, and after a step none but those that it held, and that of the event.
pub fn holds_no_other()
    ensures opening { OpensWithoutCalls }
    ensures step { HoldsNoOther }
{}

/// Entries that are a run are one under other numbers of calls, which rise strictly as the old ones do and are below 2^62; and
/// so is a journal.
pub fn runs_renumbered()
    ensures run { RunsRenumbered }
    ensures journal { JournalsRenumbered }
{}
