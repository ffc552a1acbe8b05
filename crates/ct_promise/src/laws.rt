//! What follows from what among the statements, and that they speak of something. The laws of one generation are shown in
//! ct_law_generation, and with them what is promised of its records. The promise of every run and the law of marks are not
//! shown.
ghost use Rattle.ct_promise.specs.Laws.{OpeningIsMarked, PromiseFollows, OneGenerationFollows, RowsFollow};
ghost use Rattle.ct_promise.specs.Small.{RowsAreThere};

/// At the opening nothing is marked, and that holds.
#[tactic(auto, using(crate::proofs::Opened::opening_is_marked))]
pub fn opening_is_marked()
    ensures { OpeningIsMarked }
{}

/// A small run comes to a cluster of which the promise from rows speaks, and there are registers for it: a record is written,
/// a lock waits, and both members of a round have installed it.
#[tactic(auto, using(crate::proofs::Reached::rows_are_there))]
pub fn rows_are_there()
    ensures { RowsAreThere }
{}

/// The promise of every run follows from the law of marks, which is not shown.
#[tactic(auto, using(crate::proofs::Follows::promise_follows))]
pub fn promise_follows()
    ensures { PromiseFollows }
{}

/// What is promised of records in the first generation follows from its law step by step, which ct_law_generation shows.
#[tactic(auto, using(crate::proofs::Follows::one_generation_follows))]
pub fn one_generation_follows()
    ensures { OneGenerationFollows }
{}

/// So it does in a generation that began with rows, whose law ct_law_generation shows, too.
pub fn rows_follow()
    ensures { RowsFollow }
{}
