//! What an entry waits for before it may stand in the list.

/// What an entry waits for.
#[derive(Clone, Copy, Debug, PartialEq, Eq)]
pub enum Demand {
    /// Nothing.
    Free,
    /// So many entries of a node stand.
    Entries { node: u32, count: usize },
    /// The ticket is the one after the last.
    Ticket(u64),
    /// It never may.
    Never,
}
