//! A plan, cut by chains.
ghost use Rattle.std.specs.Prelude.{◌≡◌, ◌≤◌, All, IfOk, map};
ghost use Rattle.std.specs.List.{filter};
ghost use Rattle.ct_rules_cluster.specs.Cluster.{numbers};
ghost use Rattle.ct_script.specs.Sound.{IsSound};
ghost use Rattle.ct_chain.specs.Cut.{cut, cut_one, cut_script, in_chain};

use crate::chain::chain_of;
use ct_script::plan::{Plan, PlanItem};
use ct_values::config::Config;
use ct_values::items::Items;
use ct_values::memory::NoMemory;
use std::alloc::Global;

/// Does the item stand in the column of this number?
#[tactic(auto, unfolding(crate::specs::Cut::in_chain))]
fn in_chain(config: &Config, chains: u32, number: u32, item: &PlanItem) -> bool
    requires some { 1 ≤ chains }
    requires few { chains ≤ 8 }
    ensures { result ≡ in_chain config.now chains number item.now }
{
    match item {
        PlanItem::Call(op) => chain_of(config, chains, op) == number,
        PlanItem::Round(_) => true,
    }
}

/// What stands of a script in the column of this number.
fn cut_script(
    alloc: Global,
    config: &Config,
    chains: u32,
    number: u32,
    script: &[PlanItem],
) -> Result<Items<PlanItem>, NoMemory>
    requires some { 1 ≤ chains }
    requires few { chains ≤ 8 }
    ensures { IfOk result (λ items. items ≡ cut_script config.now chains number script.now) }
{
    let mut items = Items::empty(alloc);
    for item in script {
        if in_chain(config, chains, number, item) {
            items.push(item.copy()?)?;
        }
    }
    Ok(items)
}

/// What stands of each of these scripts in the column of this number.
fn cut_scripts(
    alloc: Global,
    config: &Config,
    chains: u32,
    number: u32,
    scripts: &[Items<PlanItem>],
) -> Result<Items<Items<PlanItem>>, NoMemory>
    requires some { 1 ≤ chains }
    requires few { chains ≤ 8 }
    ensures { IfOk result (λ all. all ≡ map (cut_script config.now chains number) scripts.now) }
{
    let mut all = Items::empty(alloc);
    for script in scripts {
        all.push(cut_script(alloc, config, chains, number, script.as_slice())?)?;
    }
    Ok(all)
}

/// The plan of one column.
fn cut_one(alloc: Global, plan: &Plan, chains: u32, number: u32) -> Result<Plan, NoMemory>
    requires some { 1 ≤ chains }
    requires few { chains ≤ 8 }
    ensures { IfOk result (λ p. p ≡ cut_one plan.now chains number) }
{
    Ok(Plan {
        config: plan.config.copy()?,
        scripts: cut_scripts(alloc, &plan.config, chains, number, plan.scripts.as_slice())?,
        net: plan.net,
    })
}

/// The plans of the columns, 1 to 8 of them, by their numbers from 0 on. Each has the nodes and the databases of the whole plan, of
/// each node's calls those of its chain, in their order, and every round at its place among them.
#[tactic(auto, using(crate::proofs::Cutting::cut_more), unfolding(ct_rules_cluster::specs::Cluster::numbers))]
pub fn cut(alloc: Global, plan: &Plan, chains: u32) -> Result<Vec<Plan>, NoMemory>
    requires some { 1 ≤ chains }
    requires few { chains ≤ 8 }
    requires sound { IsSound plan.now }
    ensures exact { IfOk result (λ v. v.items ≡ cut plan.now chains) }
    ensures sound { IfOk result (λ v. All IsSound v.items) }
{
    let mut columns = Vec::new(alloc);
    for number in 0..chains {
        columns.push(cut_one(alloc, plan, chains, number)?)?;
    }
    Ok(columns)
}
