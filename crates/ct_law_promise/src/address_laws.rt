//! What holds of records, of generations and of addresses through every list of steps: client calls, deliveries, losses, repeats,
//! retries, vacuums, recoveries in any number, stops, starts, takeovers and changes of who is able, in every order.
ghost use Rattle.ct_law_promise.specs.Addresses.{LawOfAddresses, PromiseOfAddresses};
ghost use Rattle.ct_law_promise.specs.Holders.{OneHolder, HeldWhereAssigned};

/// From the opening, where nothing is marked: step by step there are registers that accept all that the step told but of persistent
/// databases. The cluster stands for them in its records, in the generations of its nodes and in the addresses that they hold, and
/// marks hold of them and go on in every line. No answer is unasked, and the calls that wait are exactly the open ones.
pub fn keeps_addresses()
    ensures { LawOfAddresses }
{}

/// The registers accept all that a run tells but of persistent databases, and its last cluster stands for those of records, of
/// generations and of addresses, and for the calls that are open.
pub fn stands_in_addresses()
    ensures { PromiseOfAddresses }
{}

/// In every run no two running nodes of one generation hold the same address.
pub fn held_by_one()
    ensures { OneHolder }
{}

/// In every run a running node holds an address only where a push or a take of its generation, which the run told, assigns it to the
/// node. What a take assigns is what LCP2 makes of the placement before it: that the registers see to.
pub fn held_where_assigned()
    ensures { HeldWhereAssigned }
{}
