//! Nodes that post to each other: by a bus, call by call, and in whole exchanges on one thread and in many.
#![tactic(auto)]

#[cfg(test)]
mod exchanges;
#[cfg(test)]
mod gates;
#[cfg(test)]
mod handling;
#[cfg(test)]
mod messages;
#[cfg(test)]
mod pair;
#[cfg(test)]
mod posting;
