//! What follows where nodes follow their scripts.
ghost use Rattle.ct_law_journal_growing.specs.CueLaws.{CallsMayCome, CallsRunOut, EndsScripted, FollowsCalls, FollowsFirst, FollowsOn, FollowsRising};

/// A call whose number is greater than those of all calls in a node's journal may come to the node; one from 2^62 on is refused.
pub fn calls_may_come()
    ensures come { CallsMayCome }
    ensures run_out { CallsRunOut }
{}

/// A node follows its script, item by item.
pub fn follows_on()
    ensures first { FollowsFirst }
    ensures on { FollowsOn }
    ensures calls { FollowsCalls }
{}

/// A node that has followed its script as far as it can has a journal by the script, and the numbers of its calls rise.
pub fn ends_scripted()
    ensures scripted { EndsScripted }
    ensures rising { FollowsRising }
{}
