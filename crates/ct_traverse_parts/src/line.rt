//! What a traverse prints, why a call is refused, and what waits to be answered.
ghost use Rattle.std.specs.Prelude.{◌≡◌};

use ct_values::client::Pair;
use ct_values::items::Items;
use ct_values::memory::NoMemory;
use thiserror::Error;

/// What members are asked for: first all their copies of the database, then all their entries.
#[derive(Clone, Copy, Debug, Drop, PartialEq, Eq)]
pub enum Pass {
    Copies,
    Entries,
}

/// One line that a traverse prints. Its messages have numbers of their own, from 1, and so have traverses.
#[derive(Debug, PartialEq, Eq)]
pub enum TLine {
    /// The traverse's node asks a member.
    Asked {
        number: u64,
        sender: u32,
        receiver: u32,
        generation: u64,
        traverse: u64,
        pass: Pass,
    },
    /// A member answers with so many rows.
    Rows {
        number: u64,
        sender: u32,
        receiver: u32,
        generation: u64,
        traverse: u64,
        pass: Pass,
        count: u64,
    },
    /// The message of this number found nobody to take it.
    TLost(u64),
    /// The traverse of this number ends without an answer: its node is in its generation no more.
    Ended(u64),
    /// The answer of a traverse: keys and values, by key.
    Shown(Items<Pair>),
}

impl Drop for TLine {
    /// All that it holds is let go.
    fn drop(self) {
        match self {
            TLine::Asked {
                number: _,
                sender: _,
                receiver: _,
                generation: _,
                traverse: _,
                pass: _,
            } => {}
            TLine::Rows {
                number: _,
                sender: _,
                receiver: _,
                generation: _,
                traverse: _,
                pass: _,
                count: _,
            } => {}
            TLine::TLost(_) => {}
            TLine::Ended(_) => {}
            TLine::Shown(_) => {}
        }
    }
}

/// A traverse that has neither ended nor was answered.
#[derive(Clone, Copy, Debug, Drop, PartialEq, Eq)]
pub struct TPending {
    pub traverse: u64,
    pub node: u32,
    pub db: u32,
}

/// Why a call of traverses is refused. Nothing is changed then.
#[derive(Debug, Drop, PartialEq, Eq, Error)]
pub enum TFault {
    #[error("no node {0}")]
    NoSuchNode(u32),
    #[error("node {0} is down")]
    NodeDown(u32),
    #[error("no database {0}")]
    NoSuchDb(u32),
    #[error("node {0} serves no clients")]
    NotServing(u32),
    /// No message of this number waits or, where it is to come again, was delivered.
    #[error("no such message {0} of a traverse")]
    NoSuchMessage(u64),
    /// A number would reach 2^62.
    #[error("a number would reach its limit")]
    Exhausted,
    #[error("want of memory")]
    NoMemory,
}

impl From<NoMemory> for TFault {
    ghost use Rattle.ct_traverse_parts.specs.declared.line.TFault.TheVariants.{NoMemory as Want};

    ghost from_gives = { λ _ e. e ≡ Want };

    fn from(_e: NoMemory) -> TFault {
        TFault::NoMemory
    }
}
