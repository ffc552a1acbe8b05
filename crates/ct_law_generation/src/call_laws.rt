//! What holds of the calls of every run.
ghost use Rattle.ct_law_generation.specs.Law.{LawOfCalls, PromiseOfCalls, OnceIsEnough, CallsFromRows};

/// Step by step no answer is unasked, and the calls that wait are exactly the open ones, each at its node and with what its
/// client asked.
#[tactic(auto, using(crate::proofs::CallsRun::law_of_calls))]
pub fn keeps_calls()
    ensures { LawOfCalls }
{}

/// So of a whole run: it tells no unasked answer, and the calls that wait at its end are exactly the open ones.
pub fn keeps_calls_of_runs()
    ensures { PromiseOfCalls }
{}

/// A second answer to a call is unasked, and so is one to another call that is not open.
#[tactic(auto, using(crate::proofs::Once::once_is_enough))]
pub fn once_is_enough()
    ensures { OnceIsEnough }
{}

/// So it is from a cluster on that has installed a generation with rows, whose log begins with the calls that wait there.
pub fn keeps_calls_of_rows()
    ensures { CallsFromRows }
{}
