//! Traverses of a cluster, call by call, against what the rules print in worked cases. Where memory was wanting a call had
//! changed nothing, and comes again.
#![tactic(auto)]

#[cfg(test)]
mod calls;
#[cfg(test)]
mod playing;
#[cfg(test)]
mod worked;
