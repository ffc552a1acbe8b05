//! What holds of the traverses of every cluster through every list of moves: steps of every kind, begins of traverses, and messages of
//! theirs that come, are lost or come again, in every order.
ghost use Rattle.ct_law_traverse.specs.Small.{AnswerIsThere};
ghost use Rattle.ct_law_traverse.specs.Snapshot.{StillIsTheLine};
ghost use Rattle.ct_law_traverse.specs.Told.{LawOfTraverses};

/// From the opening: step by step there are registers and marks as the law of readings has them, and each traverse that is answered
/// shows by ascending key values that are not empty. Each was the reading of its key, in the traverse's line and database, at some moment
/// from the traverse's begin to its answer; and each key that is not shown had the empty reading at such a moment. That a traverse is
/// ever answered is not promised.
pub fn traverses_tell_readings()
    ensures { LawOfTraverses }
{}

/// So where no reading of the database changed in all these moments the answer is exactly the keys that have a reading, each with it.
pub fn a_still_traverse_is_the_line()
    ensures { StillIsTheLine }
{}

/// That law speaks of something: in a small list of moves a node writes a value, another one begins a traverse, each message of it
/// comes, and the value is shown.
pub fn an_answer_is_there()
    ensures { AnswerIsThere }
{}
