//! What holds of every cluster through every list of steps: client calls, deliveries, losses, repeats, retries, vacuums, recoveries in any
//! number, stops, starts and takeovers, in every order.
ghost use Rattle.ct_promise.specs.Promises.{Promise};
ghost use Rattle.ct_promise.specs.Marked.{LawOfMarks};

/// From the opening, where nothing is marked: step by step there are registers that accept all that the step told, and that the cluster
/// stands for, and marks that hold of them and go on in every line. No answer is unasked, and the calls that wait are exactly the open
/// ones.
pub fn keeps_marks()
    ensures { LawOfMarks }
{}

/// The registers accept all that a run tells, and its last cluster stands for them and for the calls that are open.
pub fn keeps_promise()
    ensures { Promise }
{}
