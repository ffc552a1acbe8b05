//! A traverse of a whole cluster: what all members of a generation have of a database, asked for while clients go on.
#![tactic(auto)]

pub mod walker;
