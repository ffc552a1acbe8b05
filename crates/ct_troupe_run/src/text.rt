//! The text of a run that journals tell.
ghost use Rattle.std.specs.Prelude.{◌≡◌, ◌<◌, ◌^◌, length, IfOk, MatchOption};
ghost use Rattle.ct_call.specs.Rules.{Rules};
ghost use Rattle.ct_call.specs.Shown.{rules_of};
ghost use Rattle.ct_journal.specs.Order as order;
ghost use Rattle.ct_script.specs.Sound.{IsSound};
ghost use Rattle.ct_troupe.specs.Played.{ArePlayed};
ghost use Rattle.ct_troupe_run.specs.Text as text;

use ct_call::table::CallTable;
use ct_journal::journal::Journal;
use ct_journal_join::join::{InOrderFault, join_in_order};
use ct_journal_order::counts::Tally;
use ct_journal_order::order::order_of;
use ct_schedule_text::schedule::text_of_steps;
use ct_schedule_text::telling::{Lines, lines_of};
use ct_script::plan::Plan;
use ct_values::memory::NoMemory;
use std::alloc::Global;

/// How many entries the journals have.
#[tactic(auto, using(crate::proofs::Told::counted))]
pub fn count_entries(journals: &[Journal]) -> u64
    requires { order.AreInOrder journals.now }
    ensures { result ≡ length (order.all_entries journals.now) }
{
    let tally = Tally::of(journals);
    tally.all.saturating_sub(tally.sent)
}

/// The text of the run of a schedule of the journals that a plan left, told from their entries alone, and how many messages it sent.
/// None only where that does not tell all, or a number would reach 2^62.
#[tactic(auto, using(crate::proofs::Told::lines_told, crate::proofs::Told::in_no_order, crate::proofs::Told::untold_in_order))]
fn told_lines(alloc: Global, plan: &Plan, journals: &[Journal]) -> Result<Option<Lines>, NoMemory>
    requires sound { IsSound plan.now }
    requires few { length journals.now < 2 ^ 32 }
    ensures { IfOk result (λ o. MatchOption o (text.AreUntoldInOrder journals.now) (λ v. (rules : Rules) → ArePlayed rules plan.now journals.now → text.IsRunText rules plan.now journals.now v.text.items v.sent)) }
{
    let Some(order) = order_of(alloc, journals)? else {
        return Ok(None);
    };
    match lines_of(alloc, &plan.config, journals, order.as_slice())? {
        Some(lines) => Ok(Some(lines)),
        None => Ok(None),
    }
}

/// The text of the run of a schedule of the journals that a plan left, as a cluster plays it, and how many messages it sent.
#[tactic(auto, using(crate::proofs::Told::steps_told, crate::proofs::Told::few_journals, crate::proofs::Told::not_refused))]
fn played_lines(
    alloc: Global,
    table: &CallTable,
    plan: &Plan,
    journals: &[Journal],
) -> Result<Lines, NoMemory>
    requires sound { IsSound plan.now }
    requires played { ArePlayed (rules_of table.now) plan.now journals.now }
    ensures { IfOk result (λ v. text.IsRunText (rules_of table.now) plan.now journals.now v.text.items v.sent) }
{
    let steps = match join_in_order(alloc, journals) {
        Ok(steps) => steps,
        Err(InOrderFault::NotInOrder) => unreachable!(),
        Err(InOrderFault::NoMemory) => return Err(NoMemory),
    };
    text_of_steps(alloc, table, &plan.config, steps.as_slice())
}

/// The text of the run of a schedule of the journals that a plan left: its lines, and a line for each client call that waits at its
/// end; and how many messages it sent.
#[tactic(auto, using(crate::proofs::Told::few_journals))]
pub fn run_text(
    alloc: Global,
    table: &CallTable,
    plan: &Plan,
    journals: &[Journal],
) -> Result<Lines, NoMemory>
    requires sound { IsSound plan.now }
    requires played { ArePlayed (rules_of table.now) plan.now journals.now }
    ensures { IfOk result (λ v. text.IsRunText (rules_of table.now) plan.now journals.now v.text.items v.sent) }
{
    match told_lines(alloc, plan, journals)? {
        Some(lines) => Ok(lines),
        None => played_lines(alloc, table, plan, journals),
    }
}
