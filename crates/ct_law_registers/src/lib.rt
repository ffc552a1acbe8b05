//! How registers go on, part by part, and what every step keeps of databases and addresses.
//!
//! How the registers go on after a label, once what is left open is chosen; and that a label is accepted where what it needs
//! of records, of databases, of addresses and of rounds holds, each part by itself.
//!
//! What persistent databases and addresses are in every run: the facts that every step keeps.
#![tactic(auto)]
