//! What stands in one row of a ladder.
use ct_picture::row::Row;
use ct_picture::shape::Tip;
use ct_values::items::Items;

/// What became of a message, told by its number.
#[derive(Clone, Copy)]
pub enum Fate {
    Still,
    /// It came to its receiver for the first time.
    Came { number: u64 },
    /// It came once more.
    CameAgain { number: u64 },
    /// It was dropped, or came where nobody takes it.
    Lost { number: u64 },
}

/// What a row of a ladder shows.
#[derive(Drop)]
pub enum Shown {
    Nothing,
    /// A line of the run.
    Told(Row),
    /// A line of the scenario.
    Said(Items<u8>),
}

/// A row of a ladder.
#[derive(Drop)]
pub struct Rung {
    pub fate: Fate,
    pub shown: Shown,
}

/// How a message ended, and in which row.
#[derive(Clone, Copy)]
pub struct Ending {
    pub at: u32,
    pub tip: Tip,
}

/// How many lines a run has, and how many messages came.
#[derive(Clone, Copy)]
pub struct Counts {
    pub lines: u64,
    pub came: u64,
}
