//! A cluster is in form at the opening and after every step; so whatever a step gives to a node may come to it.
ghost use Rattle.ct_law_form_cluster.specs.Form.{ClusterOpensInForm, ClusterStaysInForm, EventsMayCome};

/// At the opening.
pub fn opens_in_form()
    ensures { ClusterOpensInForm }
{}

/// After a step of which what is asked holds.
pub fn stays_in_form()
    ensures { ClusterStaysInForm }
{}

/// What a step gives to a node may come to it: a client's call, a message that was sent, a round and a takeover.
pub fn events_may_come()
    ensures { EventsMayCome }
{}
