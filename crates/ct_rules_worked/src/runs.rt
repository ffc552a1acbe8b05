//! Runs that are worked out by the definitions: each shows what its name says, message by message.
ghost use Rattle.ct_rules_worked.specs.Migrations.{LockOnOneNode, FirstLock, RecordMoves, RepeatedPass, LostPass, Functions};
ghost use Rattle.ct_rules_worked.specs.Readers.{CopyForReading, CopiesAreCalledIn, LateGrant, WriteCallsCopiesIn};
ghost use Rattle.ct_rules_worked.specs.Vacuums.{VacuumThenRecreate, GiveAfterVacuum, VacuumAsksAgain, LockEndsVacuum};
ghost use Rattle.ct_rules_worked.specs.Recoveries.{RoundEndsVacuum, DifferentBases, BrokenOffRound, RestartedNode, SurvivingMaster, MasterBeforeReader};
ghost use Rattle.ct_rules_worked.specs.Commits.{CommitUnderLock, DisjointRounds, FreezeDuringCommit};
ghost use Rattle.ct_rules_worked.specs.Addresses.{Takeover, Failback, Session};
ghost use Rattle.ct_rules_worked.specs.Rounds.{CallWaitsAcrossARound, FreezeClearsAKey, RoundLowersTheFloor};
ghost use Rattle.ct_rules_worked.specs.Refusals.{RefusedCalls, RefusedSteps};

/// On one node a client locks, stores, unlocks and reads.
pub fn lock_on_one_node()
    ensures { LockOnOneNode }
{}

/// A lock at a node that is not the location master is answered after four messages.
pub fn first_lock()
    ensures { FirstLock }
{}

/// A record moves from the node that locked it to the next one that wants it, under the next RSN.
pub fn record_moves()
    ensures { RecordMoves }
{}

/// A pass that comes again changes nothing, and a record that nobody wishes for any more is refused.
pub fn repeated_pass()
    ensures { RepeatedPass }
{}

/// A pass that is lost is sent again once the call is.
pub fn lost_pass()
    ensures { LostPass }
{}

/// A function that no table has is refused, and one that a table has is applied.
pub fn functions()
    ensures { Functions }
{}

/// A read is answered by a copy, and the next one at once.
pub fn copy_for_reading()
    ensures { CopyForReading }
{}

/// A lock waits until every copy for reading is called in; a reader then asks anew.
pub fn copies_are_called_in()
    ensures { CopiesAreCalledIn }
{}

/// A grant that comes after the revocation it raced with is ignored.
pub fn late_grant()
    ensures { LateGrant }
{}

/// A deleted record is vacuumed in two phases, and can be locked anew.
pub fn vacuum_then_recreate()
    ensures { VacuumThenRecreate }
{}

/// Messages of before a vacuum that come again do not bring the old record back.
pub fn give_after_vacuum()
    ensures { GiveAfterVacuum }
{}

/// A vacuum that runs asks those again that are missing, and ends once.
pub fn vacuum_asks_again()
    ensures { VacuumAsksAgain }
{}

/// A lock of the record ends its vacuum.
pub fn lock_ends_vacuum()
    ensures { LockEndsVacuum }
{}

/// A stop and a round break a vacuum off, and nothing that was deleted returns.
pub fn round_ends_vacuum()
    ensures { RoundEndsVacuum }
{}

/// A round of members of different generations takes the records of the newest one.
pub fn different_bases()
    ensures { DifferentBases }
{}

/// A round that is broken off by the stop of its leader is followed by another one.
pub fn broken_off_round()
    ensures { BrokenOffRound }
{}

/// A node that stopped and started takes no part in the round that it promised.
pub fn restarted_node()
    ensures { RestartedNode }
{}

/// A member that was data master stays so after a round.
pub fn surviving_master()
    ensures { SurvivingMaster }
{}

/// A copy at its own data master is taken before a copy for reading of the same RSN.
pub fn master_before_reader()
    ensures { MasterBeforeReader }
{}

/// A commit is made under the lock of its database.
pub fn commit_under_lock()
    ensures { CommitUnderLock }
{}

/// Of databases that two disjoint rounds changed, the one of the newer generation is taken.
pub fn disjoint_rounds()
    ensures { DisjointRounds }
{}

/// A commit that a freeze meets is unsure, and its lock ends.
pub fn freeze_during_commit()
    ensures { FreezeDuringCommit }
{}

/// Addresses are placed and taken after a round.
pub fn takeover()
    ensures { Takeover }
{}

/// An address leaves a node that is not able; once that is able again, another one moves to it.
pub fn failback()
    ensures { Failback }
{}

/// A session with a round, a takeover, a commit, a write and reads.
pub fn session()
    ensures { Session }
{}

/// A write beside a copy for reading is made once that is called in, and who reads afterwards reads it.
pub fn write_calls_copies_in()
    ensures { WriteCallsCopiesIn }
{}

/// A call that waits when a round begins, in the queue of a location master that has an entry, is answered after it.
pub fn call_waits_across_a_round()
    ensures { CallWaitsAcrossARound }
{}

/// A freeze leaves the copy of a record, and neither its entry nor its queue.
pub fn freeze_clears_a_key()
    ensures { FreezeClearsAKey }
{}

/// A vacuum raises the floor, and a round lowers it again: the record is made anew under the RSN 0.
pub fn round_lowers_the_floor()
    ensures { RoundLowersTheFloor }
{}

/// A client is refused by the first reason that holds, and a call that waits ends with its node.
pub fn refused_calls()
    ensures { RefusedCalls }
{}

/// Of each kind of step the refusals, in their order: the first that holds is told.
pub fn refused_steps()
    ensures { RefusedSteps }
{}
