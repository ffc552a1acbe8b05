//! What holds of the versions of every record through every list of steps.
ghost use Rattle.ct_law_readings.specs.Readings.{LawOfReadings};
ghost use Rattle.ct_law_readings.specs.Small.{VersionsAreThere};

/// From the opening: step by step there are registers and marks as the law of marks has them, and of each record of a line that
/// was born before the step its versions stay, or one is added; where the step removes the record, none is left. So each reading that
/// a record had was its reading in the cluster before or behind some step.
pub fn a_step_adds_one_version_at_most()
    ensures { LawOfReadings }
{}

/// That law speaks of something: in a small run two steps add a version each, and a later one removes the record.
pub fn versions_are_there()
    ensures { VersionsAreThere }
{}
