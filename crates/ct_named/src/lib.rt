//! Which step a line or a command is, where it names a database: `named::named_step` and `named::command_step` make it, and
//! `named::number_in_step` the number by which it tells of the database.
#![tactic(auto)]

pub mod named;
