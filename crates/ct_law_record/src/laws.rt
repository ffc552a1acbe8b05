//! What every schedule of one record leads to: its labels, in which each answer has what its client asked by the log of open
//! calls, are accepted by one register, one after the other; the calls that wait are exactly the open ones; the nodes stand
//! for that register; nothing that a node has seen is lost; and of any nodes the copy of the greatest RSN has all that
//! these have seen. And step by step the record has marks: RSNs ascend and places never fall, each copy and the location
//! master's entry have the value of their mark's place, and no mark changes but the last one, until a vacuum, which leaves none.
ghost use Rattle.ct_law_record.specs.Calls.{OpensAsOneRegister, BeginsAsOneRegister, IsBornAsOneRegister};
ghost use Rattle.ct_law_record.specs.Marked.{OpensWithMarks, BeginsWithMarks, IsBornWithMarks};

/// From the opening, where nothing is kept.
#[tactic(auto, using(crate::proofs::Births::proved))]
pub fn opens_as_one_register()
    ensures { OpensAsOneRegister }
{}

/// In a generation that begins without the record, but with calls that wait for it.
#[tactic(auto, using(crate::proofs::Births::proved_bare))]
pub fn begins_as_one_register()
    ensures { BeginsAsOneRegister }
{}

/// In a generation that begins with a row for the record, whatever calls wait for it.
pub fn is_born_as_one_register()
    ensures { IsBornAsOneRegister }
{}

/// From the opening, step by step and with marks.
#[tactic(auto, using(crate::proofs::MarkedLaw::opens))]
pub fn opens_with_marks()
    ensures { OpensWithMarks }
{}

/// In a generation that begins without the record, step by step and with marks.
#[tactic(auto, using(crate::proofs::MarkedLaw::begins))]
pub fn begins_with_marks()
    ensures { BeginsWithMarks }
{}

/// In a generation that begins with a row for the record, step by step and with marks.
pub fn is_born_with_marks()
    ensures { IsBornWithMarks }
{}
