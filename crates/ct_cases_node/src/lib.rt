//! Steps of one node, row by row: what comes to it, and what it does then. The rows are from worked scenarios, and nothing
//! in them was computed by the node's code.
//!
//! Each test plays the rows of one node from the opening. Where a step is refused for want of memory it is taken again, and
//! the row and all rows behind it must still be as they are told: so with any one allocation refused, each test ends in want
//! of memory or as ever.
#![tactic(auto)]

#[cfg(test)]
mod addresses;
#[cfg(test)]
mod commits;
#[cfg(test)]
mod copies;
#[cfg(test)]
mod feeding;
#[cfg(test)]
mod locks;
#[cfg(test)]
mod made;
#[cfg(test)]
mod refusals;
#[cfg(test)]
mod rounds;
#[cfg(test)]
mod rows;
#[cfg(test)]
mod showing;
#[cfg(test)]
mod unchanged;
#[cfg(test)]
mod vacuums;
