//! What the merges answer.
use ct_frame::frame::{Assigned, PTable, TableRow};
use ct_values::items::Items;

/// The records of a round: the generation from which they come, or 0, and one copy of each, by database and key.
#[derive(Debug, Drop, PartialEq, Eq)]
pub struct Merged {
    pub parent: u64,
    pub table: Items<TableRow>,
}

/// The persistent databases of a round: the generation from which they come, or 0, and the databases by their places.
#[derive(Debug, Drop, PartialEq, Eq)]
pub struct PMerged {
    pub parent: u64,
    pub ptables: Items<PTable>,
}

/// All that a round hands out.
#[derive(Debug, Drop, PartialEq, Eq)]
pub struct MergedAll {
    pub table: Merged,
    pub ptables: PMerged,
    pub assigned: Items<Assigned>,
}
