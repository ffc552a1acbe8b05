//! A record's state names nodes of one kind alone, and its messages go to these.
ghost use Rattle.ct_law_rules_node.specs.Named.{NamesKept, ResendsNamed};

/// Where the node, the location master, who sends and whom messages name are nodes of some kind, a record's state that names
/// no others names no others after every event, and each message of the step goes to one of them.
pub fn names_kept()
    ensures { NamesKept }
{}

/// So it is of the Call and of the Revoke of a retry, each by itself.
pub fn resends_named()
    ensures { ResendsNamed }
{}
