//! Plans of clients that write the same record, and what their journals say; and plans that are cut into columns.
ghost use Rattle.std.specs.Prelude.{◌≡◌, ◌≤◌, All, IfOk, length};
ghost use Rattle.std.specs.List.{list_all};
ghost use Rattle.ct_script.specs.Sound.{IsSound};
ghost use Rattle.ct_cases_troupes.specs.Plain as plain;

use ct_chain::cut::cut;
use ct_frame::event::Out;
use ct_journal::journal::Journal;
use ct_script::plan::{Plan, PlanItem};
use ct_script::scripts::cluster_plan;
use ct_values::client::{Answer, ClientOp};
use ct_values::config::{Config, DbDecl, DbKind};
use ct_values::items::Items;
use ct_values::key::Key;
use ct_values::name::DbName;
use ct_values::value::Value;
use std::alloc::Global;
use std::test::Fail;

// Is the item a call that may come?
#[tactic(auto, unfolding(crate::specs::Plain::is_asked, ct_rules_node::specs::Coming::is_allowed_op))]
fn is_asked(item: &PlanItem) -> bool
    ensures { result ≡ plain.is_asked item.now }
{
    match item {
        PlanItem::Call(ClientOp::Commit { writes, .. }) => 0 < writes.len() && writes.len() < 17,
        PlanItem::Call(_) => true,
        PlanItem::Round(_) => false,
    }
}

// Are they all?
fn all_asked(script: &[PlanItem]) -> bool
    ensures { result ≡ list_all plain.is_asked script.now }
{
    script.iter().all(|item| is_asked(item))
}

// Are all items such calls, 4,096 at most?
#[tactic(auto, unfolding(crate::specs::Plain::asks_only))]
fn asks_only(script: &[PlanItem]) -> bool
    ensures { result ≡ plain.asks_only script.now }
{
    if script.len() > 4096 {
        return false;
    }
    all_asked(script)
}

// So for each script?
fn all_ask_only(scripts: &[Items<PlanItem>]) -> bool
    ensures { result ≡ list_all plain.asks_only scripts.now }
{
    scripts.iter().all(|script| asks_only(script.as_slice()))
}

// A plan of these scripts, one a node, with the databases `g_lock` and `t`, which is volatile.
pub fn plan(alloc: Global, scripts: Vec<Items<PlanItem>>) -> Result<Plan, Fail>
    ensures { IfOk result IsSound }
{
    let mut dbs = Vec::new(alloc);
    dbs.push(DbDecl {
        name: DbName::new(alloc, b"t")?,
        kind: DbKind::Volatile,
    })?;
    if !all_ask_only(scripts.as_slice()) || scripts.len() > 16 {
        return Err(Fail::new("no scripts of calls"));
    }
    let config = Config::new(alloc, scripts.len() as u32, dbs, Vec::new(alloc))?;
    Ok(Plan {
        config,
        scripts: Items::new(scripts),
        net: false,
    })
}

pub fn write(alloc: Global, key: &[u8], value: &[u8]) -> Result<PlanItem, Fail> {
    Ok(PlanItem::Call(ClientOp::Write {
        db: 1,
        key: Key::new(alloc, key)?,
        value: Value::new(alloc, value)?,
    }))
}

// A client that writes this value into record `b` so many times.
fn writer(alloc: Global, value: &[u8], times: usize) -> Result<Items<PlanItem>, Fail> {
    let mut script = Vec::new(alloc);
    for _ in 0..times {
        script.push(write(alloc, b"b", value)?)?;
    }
    Ok(Items::new(script))
}

// Two nodes, of which each client writes the same record so many times.
pub fn two_writers(alloc: Global, times: usize) -> Result<Plan, Fail>
    ensures { IfOk result IsSound }
{
    let mut scripts = Vec::new(alloc);
    scripts.push(writer(alloc, b"x", times)?)?;
    scripts.push(writer(alloc, b"y", times)?)?;
    plan(alloc, scripts)
}

// How many calls the script asks.
pub fn count_calls(script: &[PlanItem]) -> usize {
    let mut count: usize = 0;
    for item in script {
        if let PlanItem::Call(_) = item {
            count = count.saturating_add(1);
        }
    }
    count
}

// How often this is answered in the journal.
pub fn count_answers(journal: &Journal, wanted: &Answer) -> usize {
    let mut count: usize = 0;
    for entry in journal.entries.as_slice() {
        for out in entry.outs.as_slice() {
            if let Out::Answer { answer, .. } = out {
                if answer == wanted {
                    count = count.saturating_add(1);
                }
            }
        }
    }
    count
}

// The plan of so many nodes with 40 words each, cut into two columns.
pub fn two_columns(alloc: Global, nodes: u32) -> Result<Vec<Plan>, Fail>
    ensures few { IfOk result (λ v. length v.items ≤ 8) }
    ensures sound { IfOk result (λ v. All IsSound v.items) }
{
    if nodes == 0 || nodes > 8 {
        return Err(Fail::new("so many nodes have no plan"));
    }
    let whole = cluster_plan(alloc, nodes, 40, 3)?;
    let plans = cut(alloc, &whole, 2)?;
    if plans.len() > 8 {
        return Err(Fail::new("too many columns"));
    }
    Ok(plans)
}

// The same, of which the first column alone is to be played.
pub fn one_column(alloc: Global, nodes: u32) -> Result<Vec<Plan>, Fail>
    ensures few { IfOk result (λ v. length v.items ≤ 8) }
    ensures sound { IfOk result (λ v. All IsSound v.items) }
{
    if nodes == 0 || nodes > 8 {
        return Err(Fail::new("so many nodes have no plan"));
    }
    let whole = cluster_plan(alloc, nodes, 40, 3)?;
    let plans = cut(alloc, &whole, 1)?;
    if plans.len() > 8 {
        return Err(Fail::new("too many columns"));
    }
    Ok(plans)
}
