//! The texts of columns, one after the other.
ghost use Rattle.std.specs.Prelude.{◌≡◌, ◌≤◌, ◌+◌, All, IfOk, IfSome, length};
ghost use Rattle.ct_call.specs.Shown.{rules_of};
ghost use Rattle.ct_outside.specs.Causes.{HasWriteCause};
ghost use Rattle.ct_script.specs.Sound.{IsSound};
ghost use Rattle.ct_troupe.specs.Played.{ArePlayed};
ghost use Rattle.ct_troupe.specs.Columns.{ArePlayedIn};
ghost use Rattle.ct_troupe_run.specs.Columns as columns;

use crate::text::{count_entries, run_text};
use ct_call::table::CallTable;
use ct_journal::journal::Journal;
use ct_outside::fault::SinkFault;
use ct_outside::sink::{Sink, write_all};
use ct_schedule_text::telling::Lines;
use ct_script::plan::Plan;
use ct_text::words::{push, push_number};
pub use ct_troupe::columns::Columns;
use ct_values::memory::NoMemory;
use std::alloc::Global;

/// How many entries some columns have, and how many messages their nodes sent.
#[derive(Clone, Copy, Debug, PartialEq, Eq)]
pub struct Counts {
    pub entries: u64,
    pub frames: u64,
}

impl Counts {
    /// Both together; none where a number would be above 2^64 - 1.
    fn with(self, more: Counts) -> Option<Counts>
        ensures { IfSome result (λ c. c ≡ record { entries = self.entries + more.entries; frames = self.frames + more.frames }) }
    {
        Some(Counts {
            entries: self.entries.checked_add(more.entries)?,
            frames: self.frames.checked_add(more.frames)?,
        })
    }
}

/// The text of a column, from its lines.
fn column_text(alloc: Global, number: u32, lines: &[u8]) -> Result<Vec<u8>, NoMemory>
    ensures { IfOk result (λ v. v.items ≡ columns.column_text number lines.now) }
{
    let mut text = Vec::new(alloc);
    push_number(&mut text, b"column ", u64::from(number))?;
    push(&mut text, b"\n")?;
    push(&mut text, lines)?;
    Ok(text)
}

/// The text of a column, with its number, and what is counted of it.
#[tactic(auto, using(crate::proofs::Telling::is_column, crate::proofs::Told::in_order_of))]
fn told_column(
    alloc: Global,
    table: &CallTable,
    plan: &Plan,
    number: u32,
    journals: &[Journal],
) -> Result<(Vec<u8>, Counts), NoMemory>
    requires sound { IsSound plan.now }
    requires played { ArePlayed (rules_of table.now) plan.now journals.now }
    ensures { IfOk result (λ v. columns.IsTold (rules_of table.now) plan.now number journals.now v.0.items v.1) }
{
    let Lines { text: lines, sent } = run_text(alloc, table, plan, journals)?;
    let text = column_text(alloc, number, lines.as_slice())?;
    let counts = Counts {
        entries: count_entries(journals),
        frames: sent,
    };
    Ok((text, counts))
}

/// Writes the text of a column.
#[tactic(auto, using(crate::proofs::Telling::all_written, crate::proofs::Telling::part_written, crate::proofs::Telling::none_written))]
fn write_column<K: Sink>(
    alloc: Global,
    table: &CallTable,
    plan: &Plan,
    number: u32,
    journals: &[Journal],
    out: &mut K,
) -> Result<Counts, SinkFault>
    requires sound { IsSound plan.now }
    requires played { ArePlayed (rules_of table.now) plan.now journals.now }
    ensures writes { columns.WritesColumn (rules_of table.now) plan.now number journals.now result (K.held out.old) (K.held out.new) }
    ensures cause { HasWriteCause (K.faults out.old) (K.faults out.new) result }
{
    let (text, counts) = match told_column(alloc, table, plan, number, journals) {
        Ok(told) => told,
        Err(_) => return Err(SinkFault::NoMemory),
    };
    match write_all(out, text.as_slice()) {
        Ok(()) => Ok(counts),
        Err(fault) => Err(fault),
    }
}

/// Writes the texts of all columns, one after the other: each is written before that of the next is made. What is counted of all.
/// `NoMemory` also where a number would be above 2^64 - 1.
#[tactic(auto, using(crate::proofs::Telling::fronts_first, crate::proofs::Telling::fronts_more, crate::proofs::Telling::fronts_failed, crate::proofs::Telling::fronts_stop, crate::proofs::Telling::fronts_end))]
pub fn write_columns<K: Sink, T: Columns>(
    alloc: Global,
    table: &CallTable,
    plans: &[Plan],
    troupe: &T,
    out: &mut K,
) -> Result<Counts, SinkFault>
    requires few { length plans.now ≤ 8 }
    requires sound { All IsSound plans.now }
    requires played { ArePlayedIn (rules_of table.now) plans.now (T.told_in troupe.now) }
    ensures writes { columns.WritesColumns (rules_of table.now) plans.now (T.told_in troupe.now) result (K.held out.old) (K.held out.new) }
    ensures cause { HasWriteCause (K.faults out.old) (K.faults out.new) result }
{
    let mut counts = Counts {
        entries: 0,
        frames: 0,
    };
    for (place, plan) in plans.iter().enumerate() {
        let number = place as u32;
        let journals = troupe.column(number);
        let more = match write_column(alloc, table, plan, number, journals, out) {
            Ok(more) => more,
            Err(fault) => return Err(fault),
        };
        match counts.with(more) {
            Some(all) => counts = all,
            None => return Err(SinkFault::NoMemory),
        }
    }
    Ok(counts)
}
