//! What holds of the records of volatile and read-only databases through every list of steps: client calls, deliveries, losses,
//! repeats, retries, vacuums, recoveries in any number, stops, starts and takeovers, in every order.
ghost use Rattle.ct_law_run.specs.Records.{LawOfRecords, PromiseOfRecords};

/// From the opening, where nothing is marked: step by step there are registers that accept what the step told of records and of
/// generations, and that the cluster stands for in its records and in the generations of its nodes, and marks that hold of them and
/// go on in every line. No answer is unasked, and the calls that wait are exactly the open ones.
pub fn keeps_marks()
    ensures { LawOfRecords }
{}

/// The registers accept all that a run tells of records and of generations, and its last cluster stands for them and for the
/// calls that are open.
pub fn keeps_records()
    ensures { PromiseOfRecords }
{}
