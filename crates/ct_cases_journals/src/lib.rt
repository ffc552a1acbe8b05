//! Scripts, journals and their joins, against the answers that are wanted.
#![tactic(auto)]

#[cfg(test)]
mod cue;
#[cfg(test)]
mod join;
#[cfg(test)]
mod joined;
#[cfg(test)]
mod node;
#[cfg(test)]
mod order;
#[cfg(test)]
mod plan;
