//! The lines of a run, one after the other.
ghost use Rattle.std.specs.Prelude.{◌≡◌, ◌≤◌, ◌<◌, ◌++◌, ◌∷◌, [], map, length, IfOk, OnOk};
ghost use Rattle.ct_picture.specs.Reading.{ReadsRun, run_from, run_in, run_of};

use crate::row::{Row, cut, row_of, word_at};
use ct_values::memory::NoMemory;
use std::alloc::Global;
use thiserror::Error;

/// Why a run is not read.
#[derive(Clone, Copy, Debug, PartialEq, Eq, Error)]
pub enum RunFault {
    /// The first line that has no reading, or that the input ends in, counted from 1.
    #[error("line {0}")]
    Line(u64),
    #[error("want of memory")]
    NoMemory,
}

impl From<NoMemory> for RunFault {
    ghost use Rattle.ct_picture.specs.declared.reading.RunFault.TheVariants.{NoMemory as Want};

    ghost from_gives = { λ _ e. e ≡ Want };

    fn from(_e: NoMemory) -> RunFault {
        RunFault::NoMemory
    }
}

fn add(rows: &mut Vec<Row>, row: Row) -> Result<(), NoMemory>
    ensures { OnOk result (rows.new.items ≡ rows.old.items ++ row ∷ []) }
{
    rows.push(row)?;
    Ok(())
}

/// The rows of the lines, and nothing behind them.
#[tactic(auto, using(crate::proofs::Runs::next_row, crate::proofs::Runs::no_row))]
fn read_lines(alloc: Global, lines: &[&[u8]], rest: &[u8]) -> Result<Vec<Row>, RunFault>
    requires { length lines.now ≤ 1099511627776 }
    ensures { ReadsRun result (run_from 1 (map (λ l. l.now) lines.now) rest.now) }
{
    let mut rows = Vec::new(alloc);
    let mut number = 1u64;
    for line in lines {
        match row_of(alloc, line)? {
            Some(row) => add(&mut rows, row)?,
            None => return Err(RunFault::Line(number)),
        }
        number += 1;
    }
    if !rest.is_empty() {
        return Err(RunFault::Line(number));
    }
    Ok(rows)
}

/// The run of parts, all of which but the last are lines.
#[tactic(auto, using(crate::proofs::Runs::fewer_lines))]
fn read_parts(alloc: Global, parts: &[&[u8]]) -> Result<Vec<Row>, RunFault>
    requires { length parts.now ≤ 1099511627776 }
    ensures { ReadsRun result (run_in (map (λ l. l.now) parts.now)) }
{
    let n = parts.len().saturating_sub(1);
    read_lines(alloc, &parts[..n], word_at(parts, n))
}

/// The run that the bytes are.
#[tactic(auto, using(crate::proofs::Runs::few_parts, crate::proofs::Runs::few_rows))]
pub fn read_run(alloc: Global, bytes: &[u8]) -> Result<Vec<Row>, RunFault>
    requires { length bytes.now < 1099511627776 }
    ensures run { ReadsRun result (run_of bytes.now) }
    ensures few { IfOk result (λ v. length v.items ≤ 1099511627776) }
{
    let parts = cut(alloc, bytes, b'\n')?;
    read_parts(alloc, &parts)
}
