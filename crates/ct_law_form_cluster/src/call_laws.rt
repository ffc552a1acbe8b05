//! What is asked of the number of a client's call can be met by who counts the calls.
ghost use Rattle.ct_law_form_cluster.specs.Laws.{CallsStayBelow, CallsStayBelowMore, NoneWaitsAfterStop, NoneWaitsAtOpening};

/// The calls that wait have numbers below one that is above that of each call that came: so it stays, whatever comes, and below
/// every greater number; at the opening and after a stop none waits.
pub fn calls_stay_below()
    ensures step { CallsStayBelow }
    ensures more { CallsStayBelowMore }
    ensures opening { NoneWaitsAtOpening }
    ensures stop { NoneWaitsAfterStop }
{}
