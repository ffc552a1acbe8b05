//! A picture as a tree: what stands behind, and for each row one element with a title. Lengths are in pixels, and count
//! from the upper left corner.
use crate::row::Look;
use ct_values::items::Items;

/// Where words stand at their place.
#[derive(Clone, Copy)]
pub enum Hand {
    /// They begin there.
    Start,
    /// It is their middle.
    Middle,
    /// They begin there, and are bold: a line of a scenario.
    Said,
}

/// How an arrow ends.
#[derive(Clone, Copy)]
pub enum Tip {
    Head,
    /// It is dashed, and has a head.
    Again,
    Cross,
    Open,
}

#[derive(Drop)]
pub enum Shape {
    Arrow {
        x1: u64,
        y1: u64,
        x2: u64,
        y2: u64,
        look: Look,
        tip: Tip,
    },
    /// An arrow that comes back to its lifeline.
    Turn {
        x: u64,
        y1: u64,
        far: u64,
        y2: u64,
        look: Look,
        tip: Tip,
    },
    Dot {
        x: u64,
        y: u64,
    },
    /// A lifeline, broken where the node is down.
    Life {
        x: u64,
        y1: u64,
        y2: u64,
        runs: bool,
    },
    /// What is behind a lifeline in a generation, with a number from 0 to 5 for its colour.
    Band {
        x: u64,
        y: u64,
        width: u64,
        height: u64,
        hue: u64,
    },
    Words {
        x: u64,
        y: u64,
        hand: Hand,
        words: Items<u8>,
    },
}

/// A row.
#[derive(Drop)]
pub struct Group {
    pub title: Items<u8>,
    pub shapes: Items<Shape>,
}

#[derive(Drop)]
pub struct Picture {
    pub width: u64,
    pub height: u64,
    pub back: Items<Shape>,
    pub rows: Items<Group>,
}

/// A lifeline from the row where it became what it is.
#[derive(Clone, Copy)]
pub struct Lane {
    pub begun: u64,
    pub runs: bool,
    /// 0 where the node has none.
    pub generation: u64,
}
