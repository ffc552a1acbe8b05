//! A scenario, and why bytes are none.

use ct_lines::line::{LineKind, ScenarioLine};
use ct_values::items::Items;
use thiserror::Error;

/// The lines of a scenario, in order.
#[derive(Drop)]
pub struct Scenario {
    pub lines: Items<ScenarioLine>,
}

/// Why bytes are no scenario.
#[derive(Clone, Copy, Debug, PartialEq, Eq, Error)]
pub enum LineFault {
    /// The first line that is refused, counted from 1, and why.
    #[error("line {line} is refused")]
    At { line: u64, kind: LineKind },
    /// This answer alone needs no cause.
    #[error("want of memory")]
    NoMemory,
}
