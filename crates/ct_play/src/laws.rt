//! What a scenario's run is.
ghost use Rattle.ct_play.specs.Play as play;

/// After every list of bytes the steps that were taken are a run of the cluster, from the opening of its configuration, and
/// what they printed is what that run prints.
pub fn runs_are_runs()
    ensures { play.RunsAreRuns }
{}

/// So are all moves, those of traverses too: they lead from the opening to the cluster and its traverses, and what was printed
/// is what they print and tell.
pub fn runs_are_moves()
    ensures { play.RunsAreMoves }
{}
