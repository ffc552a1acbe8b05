//! What follows of journals in order that are runs.
ghost use Rattle.ct_law_journal_schedule.specs.Laws.{InOrderIsScheduled};

/// Where each node has one journal, each journal is a run of its node, and the journals are in order, the steps that are made of
/// that order are a schedule of them: each step is taken by the cluster, and they give each node exactly the entries of its
/// journal, apart from the numbers of client calls.
pub fn in_order_is_scheduled()
    ensures { InOrderIsScheduled }
{}
