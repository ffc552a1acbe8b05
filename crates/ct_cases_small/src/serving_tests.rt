//! A node alone serves over a link in memory, with ample memory.
ghost use Rattle.std.specs.Prelude.{◌≡◌, ◌∷◌, [], true, IfOk};
ghost use Rattle.std.specs.List.{list_all};
ghost use Rattle.ct_call.specs.Rules.{Rules};
ghost use Rattle.ct_actor.specs.Journalled as journalled;
ghost use Rattle.ct_law_form.specs.Whole.{HasLimits};
ghost use Rattle.ct_script.specs.Sound.{may_be_told};
ghost use Rattle.ct_cases_small.specs.Alone.{MayBeToldAlone};

use ct_actor::node::Node;
use ct_actor_serving::fault::{ServeFault, Served};
use ct_actor_serving::serve::serve;
use ct_call::table::CallTable;
use ct_outside::gate::OpenGate;
use ct_outside::listing::{ListingGate, ListingLink};
use ct_outside::memory_link::MemLink;
use ct_outside::memory_lock::MemLock;
use ct_script::plan::PlanItem;
use ct_values::client::ClientOp;
use ct_values::config::{Config, DbDecl, DbKind};
use ct_values::items::Items;
use ct_values::key::Key;
use ct_values::name::DbName;
use ct_values::value::Value;
use std::alloc::Global;
use std::test::Fail;

/// One node with the databases `g_lock` and `t`, which is volatile.
fn config(alloc: Global) -> Result<Config, Fail>
    ensures limits { IfOk result HasLimits }
    ensures one { IfOk result (λ c. c.nodes ≡ 1) }
{
    let mut dbs = Vec::new(alloc);
    dbs.push(DbDecl {
        name: DbName::new(alloc, b"t")?,
        kind: DbKind::Volatile,
    })?;
    Ok(Config::new(alloc, 1, dbs, Vec::new(alloc))?)
}

/// The client writes, and then reads.
#[tactic(auto, unfolding(ct_script::specs::Sound::may_be_told, ct_rules_node::specs::Coming::is_allowed_op))]
fn script(alloc: Global) -> Result<Vec<PlanItem>, Fail>
    ensures told { IfOk result (λ v. MayBeToldAlone v.items) }
{
    let mut items = Vec::new(alloc);
    items.push(PlanItem::Call(ClientOp::Write {
        db: 1,
        key: Key::new(alloc, b"k")?,
        value: Value::new(alloc, b"v")?,
    }))?;
    items.push(PlanItem::Call(ClientOp::Read {
        db: 1,
        key: Key::new(alloc, b"k")?,
    }))?;
    Ok(items)
}

/// A round of the node alone.
#[tactic(auto, using(crate::proofs::RoundsTold::round_told))]
fn round(alloc: Global) -> Result<PlanItem, Fail>
    ensures { IfOk result (λ item. MayBeToldAlone (item ∷ [])) }
{
    Ok(PlanItem::Round(Items::new(Vec::from_slice(alloc, &[0])?)))
}

/// The node leads so many rounds.
#[tactic(auto, using(crate::proofs::RoundsTold::none_told, crate::proofs::RoundsTold::one_more_told))]
fn rounds(alloc: Global, count: usize) -> Result<Vec<PlanItem>, Fail>
    ensures told { IfOk result (λ v. MayBeToldAlone v.items) }
{
    let mut items = Vec::new(alloc);
    'rounds: for _ in 0..count {
        items.push(round(alloc)?)?;
    }
    Ok(items)
}

/// The node of this cluster, at its opening.
fn node(alloc: Global, config: &Config) -> Result<Node, Fail>
    requires limits { HasLimits config.now }
    requires one { config.now.nodes ≡ 1 }
    ensures opening { IfOk result (λ x. x ≡ journalled.at_opening 0 config.now) }
    ensures run { IfOk result (λ x. (rules : Rules) → journalled.IsRunBy rules x) }
{
    let node = Node::new(alloc, 0, config)?;
    Ok(node)
}

/// What the node answers that serves for so many turns over a link of which this call fails.
fn serve_alone(
    alloc: Global,
    node: &mut Node,
    script: &[PlanItem],
    turns: u64,
    fails: u64,
) -> Result<Result<Served, ServeFault>, Fail>
    requires run { (rules : Rules) → journalled.IsRunBy rules node.old }
    requires told { list_all (may_be_told node.old.core.config node.old.core.pnn) script.now ≡ true }
{
    let table = CallTable::new(alloc);
    let mut link = MemLink::new(alloc, Vec::new(alloc), Vec::from_slice(alloc, &[fails])?);
    let mut lock = MemLock::new();
    let mut gate = OpenGate;
    let served = serve(
        alloc, node, &table, script, &mut link, &mut lock, &mut gate, turns,
    );
    Ok(served)
}

/// Is it the answer that is wanted, and has the journal so many entries?
fn is_as_wanted(
    served: Result<Served, ServeFault>,
    node: &Node,
    want: Result<Served, ServeFault>,
    entries: usize,
) -> bool {
    served == want && node.entries().len() == entries
}

/// Does the node of this cluster, alone, serve as is wanted?
fn serves_so(
    alloc: Global,
    config: &Config,
    script: &[PlanItem],
    turns: u64,
    fails: u64,
    want: Result<Served, ServeFault>,
    entries: usize,
) -> Result<bool, Fail>
    requires limits { HasLimits config.now }
    requires one { config.now.nodes ≡ 1 }
    requires told { MayBeToldAlone script.now }
{
    let mut node = node(alloc, config)?;
    let served = serve_alone(alloc, &mut node, script, turns, fails)?;
    Ok(is_as_wanted(served, &node, want, entries))
}

// How many turns the node has, which call of its link fails, what it answers, and how many entries its journal has.
const TABLE: [(u64, u64, Result<Served, ServeFault>, usize); 3] = [
    (0, 9, Ok(Served::Budget), 2),
    (2, 9, Ok(Served::Budget), 2),
    (3, 9, Ok(Served::Closed), 2),
];

#[test]
fn a_node_serves(rt: HostRuntime) -> Result<(), Fail> {
    let alloc = rt.alloc();
    let config = config(alloc)?;
    let script = script(alloc)?;
    for (turns, fails, want, entries) in TABLE {
        assert!(rt;
            serves_so(
                alloc,
                &config,
                script.as_slice(),
                turns,
                fails,
                want,
                entries
            )?
        );
    }
    Ok(())
}

// The node looks, takes a round and sends its one frame, and so on: each call in turn fails, a look or a send. Each round that
// was taken before has its entry, also the one whose frame is not sent.
#[test]
fn each_call_of_a_link_fails(rt: HostRuntime) -> Result<(), Fail> {
    let alloc = rt.alloc();
    let config = config(alloc)?;
    let script = rounds(alloc, 10)?;
    for fails in 1..=20u64 {
        let entries = fails as usize / 2;
        let want = Err(ServeFault::Link);
        assert!(rt;
            serves_so(alloc, &config, script.as_slice(), 11, fails, want, entries)?,
            "call {fails}"
        );
    }
    Ok(())
}

/// Are the looks of a node that serves for so many turns listed with these permissions, and its passes with these numbers?
fn serve_listed(
    alloc: Global,
    node: &mut Node,
    script: &[PlanItem],
    turns: u64,
    permissions: &[bool],
    passes: &[(u32, u64)],
) -> bool
    requires run { (rules : Rules) → journalled.IsRunBy rules node.old }
    requires told { list_all (may_be_told node.old.core.config node.old.core.pnn) script.now ≡ true }
{
    let table = CallTable::new(alloc);
    let quiet = MemLink::new(alloc, Vec::new(alloc), Vec::new(alloc));
    let mut link = ListingLink::new(alloc, quiet);
    let mut lock = MemLock::new();
    let mut gate = ListingGate::new(alloc);
    let served = serve(
        alloc, node, &table, script, &mut link, &mut lock, &mut gate, turns,
    );
    match (link.permissions(), gate.passes()) {
        (Some(looks), Some(passed)) => served.is_ok() && looks == permissions && passed == passes,
        _ => false,
    }
}

/// Is this listed of the node of this cluster, alone?
fn lists_so(
    alloc: Global,
    config: &Config,
    script: &[PlanItem],
    turns: u64,
    permissions: &[bool],
    passes: &[(u32, u64)],
) -> Result<bool, Fail>
    requires limits { HasLimits config.now }
    requires one { config.now.nodes ≡ 1 }
    requires told { MayBeToldAlone script.now }
{
    let mut node = node(alloc, config)?;
    Ok(serve_listed(alloc, &mut node, script, turns, permissions, passes))
}

// The node takes its two calls, and then it waits.
#[test]
fn looks_and_passes_are_listed(rt: HostRuntime) -> Result<(), Fail> {
    let alloc = rt.alloc();
    let config = config(alloc)?;
    let script = script(alloc)?;
    let waits = [false, false, true];
    let passes = [(0, 0), (0, 1), (0, 2)];
    assert!(rt; lists_so(alloc, &config, script.as_slice(), 4, &waits, &passes)?);
    Ok(())
}
