//! The small machines, against what the rules give in worked cases.
#![tactic(auto)]

#[cfg(test)]
mod cluster;
#[cfg(test)]
mod deleg;
#[cfg(test)]
mod lcp2;
#[cfg(test)]
mod merge;
#[cfg(test)]
mod persist;
#[cfg(test)]
mod round;
#[cfg(test)]
mod rules;
#[cfg(test)]
mod takeover;
#[cfg(test)]
mod vacuum;
