//! Small runs that are not legal.
ghost use Rattle.ct_register_worked.specs.Refused.{SecondLock, OldRead, ReadUnderLock, WriteUnderLock, StoreOfNoOwner, UnlockOfNoOwner, WrongAnswer, VacuumOfValue, ReadAfterStop, VacuumedUnderLock, EndedUnlocked, WrongLength, TooLongUnderLock, WriteKeptEmpty, LockAnsweredAgain, AnsweredAfterRefusal, AnsweredAfterStop, CommitUnlocked, CommitBesideAnother, WrongNumber, AcknowledgedTwice, CommitOfAnother, AnsweredWithoutLock, AnsweredAfterOldRead, UnsureOfNobody, UnsureOfOwn, UnsureOfNoMember, UnsureTwice, UnsureAnew, RefusedAfterBegin, AcknowledgedWithoutMember, AcknowledgedBeforeInstalled, OldReadAfterCommit, OldReadOfOwn, OldReadAfterRead, RoundForgets, RoundForgetsCommit, RoundOfAnother, RoundOfOtherMembers, RoundFromNowhere, RoundFromNothing, PersistentParentTooOld, SecondRound, InstalledByAnother, InstalledUnborn, InstalledTwice, InstalledUnderLock, ThawedTooEarly, TicketWhileHeld, TicketLeftOut, YieldedByAnother, TookUnassigned, TookWhileHeld, WrongTake, TakeOfNoRun, PushedAnew, PushedUnborn};

/// A second lock; a read of an old value, or while another node owns the record, or at a node in no line; a write while a
/// node owns the record; a store or an unlock of no owner; a wrong answer of a function, a refusal of its value with a wrong
/// length, or one under a lock; a vacuum of a value or under a lock; the end of a lock that is not held.
pub fn records()
    ensures second_lock { SecondLock }
    ensures old_read { OldRead }
    ensures read_under_lock { ReadUnderLock }
    ensures write_under_lock { WriteUnderLock }
    ensures store_of_no_owner { StoreOfNoOwner }
    ensures unlock_of_no_owner { UnlockOfNoOwner }
    ensures wrong_answer { WrongAnswer }
    ensures vacuum_of_value { VacuumOfValue }
    ensures read_after_stop { ReadAfterStop }
    ensures vacuumed_under_lock { VacuumedUnderLock }
    ensures ended_unlocked { EndedUnlocked }
    ensures wrong_length { WrongLength }
    ensures too_long_under_lock { TooLongUnderLock }
{}

/// Of two wrong clusters: one keeps a write that has to wait with the empty value, which is read after its answer; and in one
/// an unlock answers the finished lock call once more. And an answer after a refusal, or to a call that ended with its node.
pub fn calls()
    ensures write_kept_empty { WriteKeptEmpty }
    ensures lock_answered_again { LockAnsweredAgain }
    ensures answered_after_refusal { AnsweredAfterRefusal }
    ensures answered_after_stop { AnsweredAfterStop }
{}

/// A commit without the database's lock, or beside one that is not acknowledged; an answer with a wrong number, or a second
/// one, or of another node's commit, or once another node has the lock, also if that has read the old pair meanwhile; an
/// unsure one though nobody is missing, or that names its own node, no member or a node twice; a refusal of a commit that
/// began; an acknowledgment though a member left for a line without the commit, or has not installed the line; a read
/// without what is acknowledged, or one's own, or read before.
pub fn commits()
    ensures commit_unlocked { CommitUnlocked }
    ensures commit_beside_another { CommitBesideAnother }
    ensures wrong_number { WrongNumber }
    ensures acknowledged_twice { AcknowledgedTwice }
    ensures commit_of_another { CommitOfAnother }
    ensures answered_without_lock { AnsweredWithoutLock }
    ensures answered_after_old_read { AnsweredAfterOldRead }
    ensures unsure_of_nobody { UnsureOfNobody }
    ensures unsure_of_own { UnsureOfOwn }
    ensures unsure_of_no_member { UnsureOfNoMember }
    ensures unsure_twice { UnsureTwice }
    ensures unsure_anew { UnsureAnew }
    ensures refused_after_begin { RefusedAfterBegin }
    ensures acknowledged_without_member { AcknowledgedWithoutMember }
    ensures acknowledged_before_installed { AcknowledgedBeforeInstalled }
    ensures old_read_after_commit { OldReadAfterCommit }
    ensures old_read_of_own { OldReadOfOwn }
    ensures old_read_after_read { OldReadAfterRead }
{}

/// A round that forgets what a member has read, or a commit that was acknowledged; one of another node or other members
/// than the ticket's, or from no line though a member is in one, or from one that nobody had, or from a persistent line older
/// than a member's; a second birth or installation of a line; an installation by no member, of a line that was not born, or at
/// an owner; a thaw before all have installed.
pub fn rounds()
    ensures round_forgets { RoundForgets }
    ensures round_forgets_commit { RoundForgetsCommit }
    ensures round_of_another { RoundOfAnother }
    ensures round_of_other_members { RoundOfOtherMembers }
    ensures round_from_nowhere { RoundFromNowhere }
    ensures round_from_nothing { RoundFromNothing }
    ensures persistent_parent_too_old { PersistentParentTooOld }
    ensures second_round { SecondRound }
    ensures installed_by_another { InstalledByAnother }
    ensures installed_unborn { InstalledUnborn }
    ensures installed_twice { InstalledTwice }
    ensures installed_under_lock { InstalledUnderLock }
    ensures thawed_too_early { ThawedTooEarly }
{}

/// A ticket while another node holds the recovery lock, one that leaves a number out, and a yield of no holder.
pub fn tickets()
    ensures ticket_while_held { TicketWhileHeld }
    ensures ticket_left_out { TicketLeftOut }
    ensures yielded_by_another { YieldedByAnother }
{}

/// An address that is taken though no take assigns it, or while another node of the line holds it; a take that is not what
/// LCP2 answers, or of no run; a second push that assigns otherwise, and one of a line that was not born.
pub fn addresses()
    ensures took_unassigned { TookUnassigned }
    ensures took_while_held { TookWhileHeld }
    ensures wrong_take { WrongTake }
    ensures take_of_no_run { TakeOfNoRun }
    ensures pushed_anew { PushedAnew }
    ensures pushed_unborn { PushedUnborn }
{}
