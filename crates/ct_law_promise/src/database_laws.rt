//! What holds of records and of persistent databases through every list of steps: client calls, deliveries, losses, repeats, retries,
//! vacuums, recoveries in any number, stops, starts and takeovers, in every order.
ghost use Rattle.ct_law_promise.specs.Databases.{LawOfDatabases, PromiseOfDatabases};

/// From the opening, where nothing is marked: step by step there are registers that accept all that the step told but what it told of
/// addresses, and that the cluster stands for in its records, its generations and its persistent databases, and marks that hold of them
/// and go on in every line. No answer is unasked, and the calls that wait are exactly the open ones.
pub fn keeps_marks()
    ensures { LawOfDatabases }
{}

/// The registers accept all that a run tells but what it tells of addresses, and its last cluster stands for them in all but addresses,
/// and for the calls that are open.
pub fn keeps_databases()
    ensures { PromiseOfDatabases }
{}
