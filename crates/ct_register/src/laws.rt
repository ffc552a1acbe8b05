//! What follows of the registers alone.
ghost use Rattle.ct_register.specs.Descent.{AcknowledgedIsTakenOver};
ghost use Rattle.ct_register.specs.Laws.{GoOnInOneWay};
ghost use Rattle.ct_register.specs.Formed.{LegalIsFormed};
ghost use Rattle.ct_register.specs.Stands.{OpeningRecordsStand, OpeningStands};

/// A label leaves no choice, unless it is of a birth or of a read of a persistent database.
#[tactic(auto, using(crate::proofs::Ways::one_way))]
pub fn go_on_in_one_way()
    ensures { GoOnInOneWay }
{}

/// After every legal trace, who owns a record is in its line; lines, tickets and nodes are in order; and of each database at
/// most one commit is not acknowledged.
#[tactic(auto, using(crate::proofs::Formed::legal_is_formed))]
pub fn legal_is_formed()
    ensures { LegalIsFormed }
{}

/// After every legal trace a line that took over from another, step by step, has all that was acknowledged there, whether it was born
/// before that or after it.
#[tactic(auto, using(crate::proofs::Descent::acknowledged_taken))]
pub fn acknowledged_is_taken_over()
    ensures { AcknowledgedIsTakenOver }
{}

/// At the opening the cluster stands for the registers of records.
#[tactic(auto, using(crate::proofs::Opened::opening_records_stand))]
pub fn opening_records_stand()
    ensures { OpeningRecordsStand }
{}

/// At the opening the cluster stands for the registers, of records, of persistent databases and of addresses.
pub fn opening_stands()
    ensures { OpeningStands }
{}
