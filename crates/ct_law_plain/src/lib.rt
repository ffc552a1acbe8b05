//! What rules and events leave as it was.
//!
//! What a rule of records leaves as it was: the round, the databases' contents and commits, and the addresses of a node; and
//! that the lock of a commit that waits is there as long as it waits.
//!
//! What every event but a Freeze that is followed leaves of a node: its promise, and that it is present; it ends no lock, and all that
//! is sent is sent by it.
#![tactic(auto)]
