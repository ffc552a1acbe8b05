//! Boxes, sockets, and frames over a link, against the answers that are wanted.
#![tactic(auto)]

#[cfg(test)]
mod hub;
#[cfg(test)]
mod mesh;
#[cfg(test)]
mod receiving;
#[cfg(test)]
mod sending;
#[cfg(test)]
mod tcp;
