//! What arrives of the pieces of all senders.
ghost use Rattle.ct_wire_link.specs.Following.{AllArrive, BrokenBreaks, FirstArrive, FirstLead, FirstStay, FollowsFirst, FollowsNext, WholeArrive};

/// The frames that arrive from a sender are those of all bytes of its pieces, joined, whatever pieces of others come between, up
/// to the first that breaks a rule. So it is before the first piece, and each call keeps it.
pub fn arrivals_follow()
    ensures first { FollowsFirst }
    ensures next { FollowsNext }
{}

/// Where the bytes of a sender have broken no rule, all frames that they complete have arrived. They have broken one at an offset
/// exactly where the bytes of its pieces, joined, break it there.
pub fn whole_frames_arrive()
    ensures whole { WholeArrive }
    ensures broken { BrokenBreaks }
{}

/// What arrived of a sender are the first frames of those that all bytes of its pieces, joined, complete. They still are where
/// more pieces have come, and so are those of them that arrived first. Where the bytes have broken no rule, they are all.
pub fn first_frames_arrive()
    ensures first { FirstArrive }
    ensures stay { FirstStay }
    ensures lead { FirstLead }
    ensures all { AllArrive }
{}
