//! Small runs that are legal, and what the registers show then.
ghost use Rattle.ct_register_worked.specs.Marked.{ThreeAreMarks, CopiesHaveMarks, EntriesHaveMarks, MarksGoOn, MarksDoNotGoBack};
ghost use Rattle.ct_register_worked.specs.Runs.{LockMoves, ReadersSee, FunctionsAnswer, VacuumForgets, StopEndsLocks, RefusalsChangeNothing, CommitIsRead, AnsweredUnderLock, LockMovesAfterAnswer, AnotherIsRefused, UnsureIsOpen, TicketsCount, RoundKeeps, RoundEmpties, RoundMayLose, UnsureMayBeLost, UnsureMayBeKept, AcknowledgedOnceInstalled, UnsureBeforeInstalled, UnsureWithoutMember, AcknowledgedAsTakenOver, AddressesArePlaced};

/// A lock moves with what was stored under it; a read sees all versions; a function answers its rule's value; a vacuum forgets;
/// a stop ends locks; refusals change nothing.
pub fn records()
    ensures lock_moves { LockMoves }
    ensures readers_see { ReadersSee }
    ensures functions_answer { FunctionsAnswer }
    ensures vacuum_forgets { VacuumForgets }
    ensures stop_ends_locks { StopEndsLocks }
    ensures refusals_change_nothing { RefusalsChangeNothing }
{}

/// A commit may be read before it is acknowledged, and must be after that. It is answered to who has kept the lock, which
/// moves after that. While it waits another is refused. One that is unsure is seen by the members that are not missing.
pub fn commits()
    ensures commit_is_read { CommitIsRead }
    ensures answered_under_lock { AnsweredUnderLock }
    ensures lock_moves_after_answer { LockMovesAfterAnswer }
    ensures another_is_refused { AnotherIsRefused }
    ensures unsure_is_open { UnsureIsOpen }
{}

/// Tickets are counted, and a stop frees the recovery lock.
pub fn tickets()
    ensures { TicketsCount }
{}

/// A round may take over what was written, but for empty values. It may lose what nobody saw who is there. A commit is
/// acknowledged once every member of its line has installed it, also if one has left for a line that took the commit over;
/// while a member lacks it, it is unsure and that one is missing.
pub fn rounds()
    ensures round_keeps { RoundKeeps }
    ensures round_empties { RoundEmpties }
    ensures round_may_lose { RoundMayLose }
    ensures unsure_may_be_lost { UnsureMayBeLost }
    ensures unsure_may_be_kept { UnsureMayBeKept }
    ensures acknowledged_once_installed { AcknowledgedOnceInstalled }
    ensures unsure_before_installed { UnsureBeforeInstalled }
    ensures unsure_without_member { UnsureWithoutMember }
    ensures acknowledged_as_taken_over { AcknowledgedAsTakenOver }
{}

/// Addresses are placed by a push and by a takeover run, and taken by those to whom they are assigned.
pub fn addresses()
    ensures { AddressesArePlaced }
{}

/// Marks, what copies and entries have by them, how they go on, and how they do not.
pub fn marks()
    ensures three_are_marks { ThreeAreMarks }
    ensures copies_have_marks { CopiesHaveMarks }
    ensures entries_have_marks { EntriesHaveMarks }
    ensures marks_go_on { MarksGoOn }
    ensures marks_do_not_go_back { MarksDoNotGoBack }
{}
