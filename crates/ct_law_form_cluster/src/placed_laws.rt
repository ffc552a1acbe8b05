//! What a node's placement is of, in every state of it.
ghost use Rattle.ct_law_form_cluster.specs.Placed.{OpensPlaced, RestartsPlaced, StaysPlaced};

/// At the opening the placement is of the addresses of the configuration.
pub fn opens_placed()
    ensures { OpensPlaced }
{}

/// So it is after a stop.
pub fn restarts_placed()
    ensures { RestartsPlaced }
{}

/// So it stays, whatever comes.
pub fn stays_placed()
    ensures { StaysPlaced }
{}
