//! What holds of the last reply of every round, in every run.
ghost use Rattle.ct_law_promise.specs.Merges.{MergesAsBorn, NothingSeenIsLost, NothingVacuumedReturns};
ghost use Rattle.ct_law_promise.specs.Small.{LastReplyIsThere};

/// What the leader pushes at the last reply of a round is a choice that the definition of a birth allows: the parent is the
/// greatest base, each record's row stands for so many first versions of the parent, and no member had seen more of them.
pub fn merges_as_born()
    ensures { MergesAsBorn }
{}

/// Of a record that a member with the newest installed state had seen nothing is lost, and only what none of them had seen may be.
pub fn loses_nothing_seen()
    ensures { NothingSeenIsLost }
{}

/// Nothing that was vacuumed in the parent returns.
pub fn returns_nothing_vacuumed()
    ensures { NothingVacuumedReturns }
{}

/// These laws speak of something: a small run comes to a last reply, and what is made of it has a row for what was written.
#[tactic(auto, using(crate::proofs::Small::last_reply_is_there))]
pub fn last_reply_is_there()
    ensures { LastReplyIsThere }
{}
