//! What holds of the records of one generation through every list of its steps: client calls, deliveries, losses, repeats,
//! retries, vacuums, takeovers, changes of who is able to hold addresses, and returns of the recovery lock, in every
//! order.
ghost use Rattle.ct_promise.specs.Generation.{PromiseOfOneGeneration};
ghost use Rattle.ct_promise.specs.Born.{PromiseFromRows};
ghost use Rattle.ct_promise.specs.Kept.{LawOfOneGeneration, LawFromRows};

/// From the opening, where nothing is marked: step by step there are registers that accept what the step told of records, and
/// marks that go on. The cluster stands for these registers, its copies and entries have the values that the marks say, and
/// nothing is lost of what a node has seen. No answer is unasked, and the calls that wait are exactly the open ones.
pub fn keeps_marks()
    ensures { LawOfOneGeneration }
{}

/// So it is from a cluster on that has installed a generation with rows, whatever calls wait in it.
pub fn keeps_marks_of_rows()
    ensures { LawFromRows }
{}

/// From the opening, the registers accept all that a run of one generation tells of records, and its last cluster stands for
/// them and for the calls that are open.
#[tactic(auto, using(crate::proofs::Lawful::promise_of_one_generation))]
pub fn keeps_records()
    ensures { PromiseOfOneGeneration }
{}

/// So it is from a cluster on that has installed a generation with rows.
pub fn keeps_records_of_rows()
    ensures { PromiseFromRows }
{}
