//! What the ladder of a scenario tells of its play.
ghost use Rattle.ct_ladder_play.specs.Told as told;

/// A ladder's rows show the lines of the run that a play of the scenario prints, each exactly once and in order, and so the lines of
/// the scenario where they are shown.
pub fn ladders_tell_plays()
    ensures { told.LaddersTellPlays }
{}

/// Where a scenario has no ladder, the line that is told is the first that a play refuses, or the one that the input ends in.
pub fn ladders_are_refused()
    ensures { told.LaddersAreRefused }
{}
