//! A node by itself, with ample memory.
ghost use Rattle.std.specs.Prelude.{◌≡◌, ◌<◌, IfOk};
ghost use Rattle.ct_law_form.specs.Whole.{HasLimits};

use ct_actor::node::Node;
use ct_call::table::CallTable;
use ct_frame::event::{Event, Out};
use ct_values::client::{Answer, ClientOp};
use ct_values::config::{Config, DbDecl, DbKind};
use ct_values::key::Key;
use ct_values::name::DbName;
use ct_values::value::Value;
use std::alloc::Global;
use std::test::Fail;

/// One node with the databases `g_lock` and `t`, which is volatile.
fn config(alloc: Global) -> Result<Config, Fail>
    ensures limits { IfOk result HasLimits }
    ensures one { IfOk result (λ c. c.nodes ≡ 1) }
{
    let mut dbs = Vec::new(alloc);
    dbs.push(DbDecl {
        name: DbName::new(alloc, b"t")?,
        kind: DbKind::Volatile,
    })?;
    Ok(Config::new(alloc, 1, dbs, Vec::new(alloc))?)
}

#[test]
#[tactic(auto, unfolding(ct_rules_node::specs::Coming::may_come))]
fn what_a_node_does_stands_in_its_journal(rt: HostRuntime) -> Result<(), Fail> {
    let alloc = rt.alloc();
    let table = CallTable::new(alloc);
    let mut node = Node::new(alloc, 0, &config(alloc)?)?;
    assert!(rt; node.last_outs().is_empty());
    node.feed(&table, Event::Retry)?;
    let journal = node.into_journal();
    assert!(rt; journal.node == 0 && journal.entries.len() == 1);
    Ok(())
}
