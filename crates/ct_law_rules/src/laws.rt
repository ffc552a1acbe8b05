//! What follows for the rules of every record.
ghost use Rattle.ct_law_rules.specs.Laws.{GrowsAlone, KeepsCallsLow, KeepsForm, KeepsTracking, ReadsNoNames, StartsInForm, StartsWithLowCalls};
ghost use Rattle.ct_law_rules.specs.Sent.{SendsSound};

/// A state in which nothing is kept is in form at every place.
pub fn starts_in_form()
    ensures form { StartsInForm }
    ensures calls { StartsWithLowCalls }
{}

/// A state in form stays in form: whatever may come to it leaves it so, with all its numbers below 2^62, unless a number
/// would reach that. The calls of its lock and of its wish keep numbers below 2^62 besides.
pub fn keeps_form()
    ensures form { KeepsForm }
    ensures calls { KeepsCallsLow }
{}

/// Whatever comes, the next request number and the floor do not fall, what is spent stays spent, and what the node did
/// before stays before what it does now.
pub fn grows_alone()
    ensures { GrowsAlone }
{}

/// Only a holder tracks nodes, and none while a vacuum runs: whatever comes, this stays so.
pub fn keeps_tracking()
    ensures { KeepsTracking }
{}

/// What comes of a message at a record does not depend on the database and the key that the message names.
pub fn reads_no_names()
    ensures { ReadsNoNames }
{}

/// What a node sends about a record keeps the rules of its fields, where the state was in form, what came kept them too,
/// and all that waits is of nodes. This stays so.
pub fn sends_sound()
    ensures { SendsSound }
{}
