//! A schedule with ample memory: two writes of one record by two nodes, told by the worked rules.
ghost use Rattle.std.specs.Prelude.{◌≡◌, true, IfOk};
ghost use Rattle.std.specs.List.{list_all};
ghost use Rattle.ct_rules_cluster.specs.Faults.{is_allowed};

use ct_call::table::CallTable;
use ct_rules_cluster::step::Step;
use ct_schedule_text::schedule::{Summary, schedule_text};
use ct_values::client::ClientOp;
use ct_values::config::{Config, DbDecl, DbKind};
use ct_values::key::Key;
use ct_values::name::DbName;
use ct_values::value::Value;
use std::alloc::Global;
use std::test::Fail;

#[tactic(auto, unfolding(ct_rules_cluster::specs::Faults::is_allowed, ct_rules_node::specs::Coming::is_allowed_op))]
fn write(alloc: Global, node: u32, value: &[u8]) -> Result<Step, Fail>
    ensures { IfOk result (λ s. is_allowed s ≡ true) }
{
    Ok(Step::Client {
        node,
        op: ClientOp::Write {
            db: 1,
            key: Key::new(alloc, b"b")?,
            value: Value::new(alloc, value)?,
        },
    })
}

#[tactic(auto, unfolding(ct_rules_cluster::specs::Faults::is_allowed))]
fn deliver(number: u64) -> Step
    ensures { is_allowed result ≡ true }
{
    Step::Deliver(number)
}

fn two_steps(alloc: Global) -> Result<Vec<Step>, Fail>
    ensures { IfOk result (λ v. list_all is_allowed v.items ≡ true) }
{
    let mut steps = Vec::new(alloc);
    steps.push(write(alloc, 0, b"x")?)?;
    steps.push(write(alloc, 1, b"y")?)?;
    Ok(steps)
}

fn all_steps(alloc: Global) -> Result<Vec<Step>, Fail>
    ensures { IfOk result (λ v. list_all is_allowed v.items ≡ true) }
{
    let mut steps = Vec::new(alloc);
    steps.push(write(alloc, 0, b"x")?)?;
    steps.push(write(alloc, 1, b"y")?)?;
    steps.push(deliver(1))?;
    steps.push(deliver(2))?;
    steps.push(deliver(3))?;
    steps.push(deliver(4))?;
    Ok(steps)
}

/// The database `t`, which is volatile.
fn dbs(alloc: Global) -> Result<Vec<DbDecl>, Fail> {
    let mut dbs = Vec::new(alloc);
    let name = DbName::new(alloc, b"t")?;
    dbs.push(DbDecl {
        name,
        kind: DbKind::Volatile,
    })?;
    Ok(dbs)
}

/// Is this the text of the steps, at two nodes?
fn is_text(alloc: Global, steps: &[Step], wanted: &[u8]) -> Result<bool, Fail>
    requires { list_all is_allowed steps.now ≡ true }
{
    let dbs = dbs(alloc)?;
    let Ok(config) = Config::new(alloc, 2, dbs, Vec::new(alloc)) else {
        return Err(Fail::new("no configuration"));
    };
    let table = CallTable::new(alloc);
    let summary = Summary {
        net: false,
        calls: 1,
        entries: 6,
    };
    Ok(schedule_text(alloc, &table, &config, steps, &summary)?.as_slice() == wanted)
}

#[test]
fn the_second_write_waits(rt: HostRuntime) -> Result<(), Fail> {
    let alloc = rt.alloc();
    let steps = two_steps(alloc)?;
    assert!(rt;
        is_text(
            alloc,
            steps.as_slice(),
            b"answer 1 written\nframe 1 1 0 1 call t b 1 lock\npending 2 1 write t b\ncluster 2 1 entries 6 frames 1\n"
        )?
    );
    Ok(())
}

#[test]
fn both_writes_are_answered(rt: HostRuntime) -> Result<(), Fail> {
    let alloc = rt.alloc();
    let steps = all_steps(alloc)?;
    assert!(rt;
        is_text(
            alloc,
            steps.as_slice(),
            b"answer 1 written\nframe 1 1 0 1 call t b 1 lock\nframe 2 0 0 1 recall t b 0 1 1 lock\nframe 3 0 0 1 give t b 0 x\nframe 4 0 1 1 pass t b 1 0 x\nanswer 2 written\ncluster 2 1 entries 6 frames 4\n"
        )?
    );
    Ok(())
}
