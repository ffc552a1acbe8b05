//! What follows of lines that are told.
ghost use Rattle.ct_schedule_text.specs.Laws.{LinesAreThoseOfTheRun};

/// Where journals are runs and are in order, the lines that are told of their entries are those that the run of their schedule
/// prints, and count its messages; and where no call is open at their end, none is open at the end of the run.
pub fn lines_are_those_of_the_run()
    ensures { LinesAreThoseOfTheRun }
{}
