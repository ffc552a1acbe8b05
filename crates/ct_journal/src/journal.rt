//! What a node was given and did, entry by entry.
use ct_frame::event::{Event, Out};
use ct_values::items::Items;

/// One step of a node: what came to it, and what it did then, in order.
#[derive(Debug, PartialEq, Eq)]
pub struct JournalEntry {
    pub event: Event,
    pub outs: Items<Out>,
}

impl Drop for JournalEntry {
    /// All that it holds is let go.
    fn drop(self) {
        let JournalEntry { event: _, outs: _ } = self;
    }
}

/// The steps of one node, in order.
#[derive(Debug, PartialEq, Eq)]
pub struct Journal {
    pub node: u32,
    pub entries: Items<JournalEntry>,
}

impl Drop for Journal {
    /// All that it holds is let go.
    fn drop(self) {
        let Journal {
            node: _,
            entries: _,
        } = self;
    }
}
