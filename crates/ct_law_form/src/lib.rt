//! What a node keeps of its records is in form: so each rule of records leaves it.
//!
//! What a node keeps of its records is in form, whatever comes: laws of the definitions.
//!
//! What comes to the records and the commits of a node leaves it in form, and what it sends keeps its rules: laws of the
//! definitions.
#![tactic(auto)]

pub mod form_laws;
pub mod record_laws;
