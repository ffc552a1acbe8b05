//! Nodes that play, and columns of nodes: in turns, in threads and through gates, over sockets, and the texts of what they played;
//! chains of calls.
#![tactic(auto)]

#[cfg(test)]
mod both;
#[cfg(test)]
mod calls;
#[cfg(test)]
mod gates;
#[cfg(test)]
mod loopback;
#[cfg(test)]
mod plans;
#[cfg(test)]
mod plays;
#[cfg(test)]
mod texts;
#[cfg(test)]
mod threaded;
#[cfg(test)]
mod threads;
#[cfg(test)]
mod turns;
