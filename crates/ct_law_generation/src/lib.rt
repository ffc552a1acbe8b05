//! The law of a generation through all steps.
//!
//! Every step of the cluster in a generation leads the worlds of all records on, and what it tells is of records of the line.
//!
//! The records of one generation, through all steps of the cluster but stops, starts and recoveries. What a step does at a
//! record is a schedule of the world of that record alone, so the law of one record holds of each: what nodes tell of records
//! is accepted by registers, the cluster stands for these, and step by step there are marks that say which of a record's
//! versions each RSN stands for. So it is from the opening, and from a cluster that has installed a generation with rows.
//!
//! The law of a generation at one node.
//!
//! What a cluster shows of each record of a generation: the world of the record, and what the cluster's labels tell of it.
//! Where the register of each record accepts what is told of it, the registers accept all labels; and in the middle of a
//! node's step, a step at one record is one event in the world of that record, and raised numbers in every other.
//!
//! A node of a generation, from step to step: it stays present in it, it is known who made each call that waits, each record
//! is in form, what it sends is sound, what it tells is of the line, and the world of every record follows a step at one of
//! them.
//!
//! The cluster of a generation, from step to step: messages of records, client calls of records and vacuums lead the worlds of
//! all records on. The opening is such a cluster.
//!
//! The law of a generation beside its records, and over all calls that wait.
//!
//! What a node does beside the records of its generation: commits, rounds, takeover runs, and the recovery lock given back.
//!
//! What goes over all calls of a node that wait: a Retry, and a Thaw. The world of every record follows.
//!
//! The law of a generation: who has a record's entry, and who removes a record.
//!
//! A record is removed by its location master alone, which has no entry of it then: so it is of every rule, every event of a
//! node and every step of the cluster.
//!
//! Only the location master of a record has an entry of it: every rule, every event of a node and every step of the cluster
//! leave it so, and so it is at the beginnings.
//!
//! The law of a generation at its birth, and the account of its open calls at a node.
//!
//! A cluster that has installed a generation with rows: the world of each record and its register are as the law of one record
//! begins, and what holds of such a cluster from step to step holds of it.
//!
//! At one node: through every turn the calls that wait are exactly the open ones, each at the place that its operation names.
//!
//! No call is forgotten, answered twice, or answered as another one: through every list of steps of the cluster, rounds, stops
//! and starts included, the calls that wait are exactly the open ones of the run's log.
#![tactic(auto)]

pub mod call_laws;
pub mod laws;
