//! The wish of one record: what each part of a step leaves of it.
#![tactic(auto)]
