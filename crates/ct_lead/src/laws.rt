//! What follows of takeover runs.
ghost use Rattle.ct_lead.specs.Laws.{SharesOwn};

/// Of a placement in order, a node's share has exactly the addresses that are assigned to it.
pub fn shares_own()
    ensures { SharesOwn }
{}
