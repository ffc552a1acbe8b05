//! From the numbers of a plan to the text of what its nodes did.
ghost use Rattle.std.specs.Prelude.{◌≡◌, ◌≤◌, IfOk};
ghost use Rattle.ct_call.specs.Shown.{rules_of};
ghost use Rattle.ct_journal.specs.Order.{AreInOrder};
ghost use Rattle.ct_outside.specs.Causes.{Rose};
ghost use Rattle.ct_script.specs.Sound.{IsSound};
ghost use Rattle.ct_troupe.specs.Played.{ArePlayed};
ghost use Rattle.ct_troupe_run.specs.Running as running;
ghost use Rattle.ct_troupe_run.specs.declared.running.End.TheVariants as ended;

use crate::text::{count_entries, run_text};
use ct_call::table::CallTable;
use ct_journal::journal::Journal;
use ct_outside::fault::SinkFault;
use ct_outside::sink::{Sink, write_all};
use ct_schedule_text::schedule::{Summary, push_summary};
use ct_schedule_text::telling::Lines;
use ct_script::plan::Plan;
use ct_script::scripts::cluster_plan;
use ct_troupe::troupe::PlayFault;
pub use ct_troupe::troupe::Troupe;
use ct_values::memory::NoMemory;
use std::alloc::Global;

/// What is to be played: the plan of so many nodes, 1 to 8, with so many words of a generator each, 1 to 1,000, which the seed
/// starts; and whether its nodes talk over sockets.
#[derive(Clone, Copy, Debug, PartialEq, Eq)]
pub struct Wanted {
    pub nodes: u32,
    pub calls: u32,
    pub seed: u64,
    pub net: bool,
}

/// How a cluster ends.
#[derive(Clone, Copy, Debug, PartialEq, Eq)]
pub enum End {
    /// The text of a schedule of its journals is written.
    Done,
    /// The troupe failed, and nothing is written.
    LinkFault,
    WriteFault,
    NoMemory,
}

/// The plan that is wanted.
fn plan_of(alloc: Global, wanted: &Wanted) -> Result<Plan, NoMemory>
    requires { running.HasPlanRange wanted.now }
    ensures exact { IfOk result (λ p. p ≡ running.plan_of wanted.now) }
    ensures sound { IfOk result IsSound }
{
    let mut plan = cluster_plan(alloc, wanted.nodes, wanted.calls, wanted.seed)?;
    plan.net = wanted.net;
    Ok(plan)
}

/// What is told of the journals beside their schedule.
fn summary_of(wanted: &Wanted, journals: &[Journal]) -> Summary
    requires { AreInOrder journals.now }
    ensures { result ≡ running.summary_of wanted.now journals.now }
{
    Summary {
        net: wanted.net,
        calls: wanted.calls,
        entries: count_entries(journals),
    }
}

/// The text of a schedule of the journals that a plan left.
#[tactic(auto, using(crate::proofs::Played::schedule_told, crate::proofs::Told::in_order_of))]
fn text_of(
    alloc: Global,
    table: &CallTable,
    wanted: &Wanted,
    plan: &Plan,
    journals: &[Journal],
) -> Result<Vec<u8>, NoMemory>
    requires plan { plan.now ≡ running.plan_of wanted.now }
    requires sound { IsSound plan.now }
    requires played { ArePlayed (rules_of table.now) plan.now journals.now }
    ensures { IfOk result (λ text. running.IsScheduleText (rules_of table.now) wanted.now journals.now text.items) }
{
    let Lines { mut text, sent } = run_text(alloc, table, plan, journals)?;
    let summary = summary_of(wanted, journals);
    push_summary(&mut text, plan.config.nodes, &summary, sent)?;
    Ok(text)
}

/// Writes a text, which ends the run.
pub fn write_text<K: Sink>(text: &[u8], out: &mut K) -> End
    ensures writes { running.Writes result text.now (K.held out.old) (K.held out.new) }
    ensures later { K.faults out.old ≤ K.faults out.new }
    ensures failed { result ≡ ended.WriteFault → Rose (K.faults out.old) (K.faults out.new) }
{
    match write_all(out, text) {
        Ok(()) => End::Done,
        Err(SinkFault::Failed) => End::WriteFault,
        Err(SinkFault::NoMemory) => End::NoMemory,
    }
}

/// The troupe plays the plan that is wanted. Its journals are joined to one schedule, and the text of that is written to out.
#[tactic(auto, using(crate::proofs::Played::unwritten, crate::proofs::Played::written, crate::proofs::Played::no_run_cause))]
pub fn cluster<K: Sink, T: Troupe>(
    alloc: Global,
    table: &CallTable,
    wanted: &Wanted,
    out: &mut K,
    troupe: &mut T,
) -> End
    requires range { running.HasPlanRange wanted.now }
    requires ready { T.ready troupe.old }
    ensures runs { running.Runs (rules_of table.now) wanted.now result (T.told troupe.new) (K.held out.old) (K.held out.new) }
    ensures cause { running.HasRunCause result (T.faults troupe.old) (T.faults troupe.new) (K.faults out.old) (K.faults out.new) }
{
    let plan = match plan_of(alloc, wanted) {
        Ok(plan) => plan,
        Err(_) => return End::NoMemory,
    };
    match troupe.play(alloc, table, &plan) {
        Ok(()) => {}
        Err(PlayFault::Link) => return End::LinkFault,
        Err(PlayFault::NoMemory) => return End::NoMemory,
    }
    match text_of(alloc, table, wanted, &plan, troupe.journals()) {
        Ok(text) => write_text(text.as_slice(), out),
        Err(_) => End::NoMemory,
    }
}
