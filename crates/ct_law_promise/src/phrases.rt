//! What is promised of every run, phrase by phrase.
ghost use Rattle.ct_law_promise.specs.Holders.{OneHolder};
ghost use Rattle.ct_law_generation.specs.Law.{PromiseOfCalls};
ghost use Rattle.ct_law_promise.specs.Merges.{NothingSeenIsLost, NothingVacuumedReturns};
ghost use Rattle.ct_law_promise.specs.Phrases.{AcknowledgedStays, CommitsKeepLocks, CommitsNotRefused, CommitsOneByOne, EachAnswerFits, EachTakeIsPlaced, HeldAsLastTold, MembersAgree, NewestVersion, OneLockOwner, OneValue, ReadsAreAcknowledged};

use crate::address_laws::held_by_one;
use crate::merge_laws::{loses_nothing_seen, returns_nothing_vacuumed};
use ct_law_generation::call_laws::keeps_calls_of_runs;

/// Each call is answered at most once: no answer is to a call that is not open. And the calls that wait are exactly the open
/// ones, so none is forgotten.
pub fn each_call_is_answered_once()
    ensures { PromiseOfCalls }
{
    keeps_calls_of_runs()
}

/// Each answer is one to the operation that its client asked: the registers accept it so, and no answer of another form.
#[tactic(auto, using(crate::proofs::Told::answers_fit))]
pub fn each_answer_fits_what_was_asked()
    ensures { EachAnswerFits }
{}

/// A record has one lock owner: no two running nodes of one generation have locked it.
#[tactic(auto, using(crate::proofs::Newest::one_lock_owner))]
pub fn a_record_has_one_lock_owner()
    ensures { OneLockOwner }
{}

/// What may be read is the newest version: the copies of data masters and those for reading have the value that the register
/// of their generation reads.
#[tactic(auto, using(crate::proofs::Newest::newest_version))]
pub fn what_is_read_is_the_newest_version()
    ensures { NewestVersion }
{}

/// So all copies that may be read in one generation have one value.
#[tactic(auto, using(crate::proofs::Newest::one_value))]
pub fn copies_have_one_value()
    ensures { OneValue }
{}

/// A recovery loses nothing of a record that a member with the newest installed state had seen.
pub fn nothing_seen_is_lost()
    ensures { NothingSeenIsLost }
{
    loses_nothing_seen()
}

/// Nothing that was vacuumed in the parent of a generation returns in it.
pub fn nothing_vacuumed_returns()
    ensures { NothingVacuumedReturns }
{
    returns_nothing_vacuumed()
}

/// Members agree: nodes that have the persistent databases of one generation have each as that began, and after the first ones of one list
/// of commits; so right after an installation they have what the generation began with, and under the same number the same pairs.
#[tactic(auto, using(crate::proofs::Stays::members_agree))]
pub fn members_agree()
    ensures { MembersAgree }
{}

/// What was acknowledged stays: each node that has the persistent databases of the generation in which a commit was acknowledged, or of one
/// that took over from it, step by step, has this commit and later ones, in their order, whether the node runs or not.
#[tactic(auto, using(crate::proofs::Stays::acknowledged_stays))]
pub fn acknowledged_commits_stay()
    ensures { AcknowledgedStays }
{}

/// Commits of a database come under its lock, and one at a time: each begins once all before it are acknowledged.
#[tactic(auto, using(crate::proofs::Stays::one_by_one))]
pub fn commits_come_one_by_one()
    ensures { CommitsOneByOne }
{}

/// A commit keeps its lock until it is answered: no lock is given up under which a commit of its node waits.
#[tactic(auto, using(crate::proofs::Keeping::commits_keep_locks))]
pub fn a_commit_keeps_its_lock()
    ensures { CommitsKeepLocks }
{}

/// A commit that began is not refused, but answered as committed or as unsure, or it ends with its node: while it waits, a commit of its
/// database is refused at its node for nothing but that.
#[tactic(auto, using(crate::proofs::Told::commits_not_refused))]
pub fn a_commit_that_began_is_not_refused()
    ensures { CommitsNotRefused }
{}

/// A read of a persistent database is at least as new as the last acknowledged commit of its generation.
#[tactic(auto, using(crate::proofs::Stays::reads_acknowledged))]
pub fn a_read_has_what_was_acknowledged()
    ensures { ReadsAreAcknowledged }
{}

/// An address is held in a generation by one running node at most.
pub fn an_address_has_one_holder()
    ensures { OneHolder }
{
    held_by_one()
}

/// A running node holds an address only where what the run told last of its generation's addresses assigns it to the node: the last take, or
/// the push before any.
#[tactic(auto, using(crate::proofs::Told::held_as_told))]
pub fn an_address_is_held_where_assigned()
    ensures { HeldAsLastTold }
{}

/// Each take assigns what LCP2 makes of the placement that its run began with, over the configured addresses and the members that were able.
#[tactic(auto, using(crate::proofs::Told::takes_placed))]
pub fn each_take_assigns_what_lcp2_makes()
    ensures { EachTakeIsPlaced }
{}
