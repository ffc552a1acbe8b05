//! The law of persistent databases.
//!
//! What a step keeps of persistent databases: the facts that hold in every run, where it changes none of them, or one.
//!
//! Commits of persistent databases, from their beginning to their acknowledgement or to a freeze: the facts that hold in every
//! run stay so.
//!
//! The law of persistent databases over one step.
//!
//! Persistent databases in rounds, over stops and tickets, and in reads: the facts that hold in every run stay so.
//!
//! Steps that leave persistent databases as they are: those of records, and all of rounds and of addresses but a freeze, an
//! installation and a birth.
//!
//! Every step keeps what holds of persistent databases, and all that it tells of them is accepted.
//!
//! What the law of persistent databases takes from the laws of records and rounds.
//!
//! What the law of persistent databases takes from the laws of rounds and of records, shown of every cluster that lives: lines, replies
//! and leaders, and who owns the locks.
//!
//! The registers of records, and those of databases and addresses beside them, as one: what the registers of records accept needs no
//! more of records and of rounds in registers that are like them.
//!
//! A lock whose node froze or stopped under it is nobody's any more: its node has the record for ever in that line, and gives it to none.
#![tactic(auto)]
