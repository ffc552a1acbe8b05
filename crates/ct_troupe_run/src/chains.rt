//! From the numbers of a plan that is cut to the text of what the nodes of its columns did.
ghost use Rattle.std.specs.Prelude.{◌≡◌, ◌≤◌, All, IfOk, length};
ghost use Rattle.ct_call.specs.Shown.{rules_of};
ghost use Rattle.ct_outside.specs.Causes.{HasWriteCause};
ghost use Rattle.ct_script.specs.Sound.{IsSound};
ghost use Rattle.ct_troupe.specs.Columns.{ArePlayedIn};
ghost use Rattle.ct_troupe_run.specs.Running.{HasRunCause};
ghost use Rattle.ct_troupe_run.specs.Chains as chains;

use crate::columns::{Counts, write_columns};
use crate::running::End;
use ct_call::table::CallTable;
use ct_chain::cut::cut;
use ct_outside::fault::SinkFault;
use ct_outside::sink::{Sink, write_all};
use ct_script::plan::Plan;
use ct_script::scripts::cluster_plan;
use ct_text::words::{push, push_number};
use ct_troupe::columns::Columns;
use ct_troupe::troupe::PlayFault;
use ct_values::memory::NoMemory;
use std::alloc::Global;

/// What is to be played: the plan of so many nodes, 1 to 8, with so many words of a generator each, 1 to 1,000, which the seed
/// starts, cut into so many chains, 1 to 8.
#[derive(Clone, Copy, Debug, PartialEq, Eq)]
pub struct CutWanted {
    pub nodes: u32,
    pub chains: u32,
    pub calls: u32,
    pub seed: u64,
}

/// The plans of the columns.
fn plans_of(alloc: Global, wanted: &CutWanted) -> Result<Vec<Plan>, NoMemory>
    requires { chains.HasCutRange wanted.now }
    ensures exact { IfOk result (λ v. v.items ≡ chains.plans_of wanted.now) }
    ensures sound { IfOk result (λ v. All IsSound v.items) }
{
    let whole = cluster_plan(alloc, wanted.nodes, wanted.calls, wanted.seed)?;
    cut(alloc, &whole, wanted.chains)
}

/// The line that counts.
fn summary(alloc: Global, wanted: &CutWanted, counts: Counts) -> Result<Vec<u8>, NoMemory>
    ensures { IfOk result (λ v. v.items ≡ chains.chains_summary wanted.now counts) }
{
    let mut text = Vec::new(alloc);
    push_number(&mut text, b"chains ", u64::from(wanted.nodes))?;
    push_number(&mut text, b" ", u64::from(wanted.chains))?;
    push_number(&mut text, b" ", u64::from(wanted.calls))?;
    push_number(&mut text, b" entries ", counts.entries)?;
    push_number(&mut text, b" frames ", counts.frames)?;
    push(&mut text, b"\n")?;
    Ok(text)
}

/// Writes the texts of the columns, and then the line that counts.
#[tactic(auto, using(crate::proofs::Ending::columns_failed, crate::proofs::Ending::columns_alone, crate::proofs::Ending::summary_failed, crate::proofs::Ending::all_written))]
fn write_chains<K: Sink, T: Columns>(
    alloc: Global,
    table: &CallTable,
    wanted: &CutWanted,
    plans: &[Plan],
    troupe: &T,
    out: &mut K,
) -> Result<(), SinkFault>
    requires few { length plans.now ≤ 8 }
    requires sound { All IsSound plans.now }
    requires played { ArePlayedIn (rules_of table.now) plans.now (T.told_in troupe.now) }
    ensures writes { chains.WritesChains (rules_of table.now) wanted.now plans.now (T.told_in troupe.now) result (K.held out.old) (K.held out.new) }
    ensures cause { HasWriteCause (K.faults out.old) (K.faults out.new) result }
{
    let counts = match write_columns(alloc, table, plans, troupe, out) {
        Ok(counts) => counts,
        Err(fault) => return Err(fault),
    };
    let line = match summary(alloc, wanted, counts) {
        Ok(line) => line,
        Err(_) => return Err(SinkFault::NoMemory),
    };
    write_all(out, line.as_slice())
}

/// The columns of the plan that is wanted are played. The journals of each are joined to one schedule, and the texts of these are
/// written, each before the next is joined; last a line that counts.
#[tactic(auto, using(crate::proofs::Ending::few_plans, crate::proofs::Ending::unwritten, crate::proofs::Ending::written, crate::proofs::Played::no_run_cause))]
pub fn chains<K: Sink, T: Columns>(
    alloc: Global,
    table: &CallTable,
    wanted: &CutWanted,
    out: &mut K,
    troupe: &mut T,
) -> End
    requires range { chains.HasCutRange wanted.now }
    requires ready { T.columns_ready troupe.old }
    ensures runs { chains.RunsColumns (rules_of table.now) wanted.now result (T.told_in troupe.new) (K.held out.old) (K.held out.new) }
    ensures cause { HasRunCause result (T.column_faults troupe.old) (T.column_faults troupe.new) (K.faults out.old) (K.faults out.new) }
{
    let plans = match plans_of(alloc, wanted) {
        Ok(plans) => plans,
        Err(_) => return End::NoMemory,
    };
    match troupe.play_all(alloc, table, plans.as_slice()) {
        Ok(()) => {}
        Err(PlayFault::Link) => return End::LinkFault,
        Err(PlayFault::NoMemory) => return End::NoMemory,
    }
    match write_chains(alloc, table, wanted, plans.as_slice(), troupe, out) {
        Ok(()) => End::Done,
        Err(SinkFault::Failed) => End::WriteFault,
        Err(SinkFault::NoMemory) => End::NoMemory,
    }
}
