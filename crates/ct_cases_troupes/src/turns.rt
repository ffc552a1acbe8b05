//! Plans of one node and of two, with ample memory.
use crate::plans::{count_answers, plan, two_writers, write};
use ct_call::table::CallTable;
use ct_script::plan::PlanItem;
use ct_troupe::troupe::Troupe;
use ct_troupe::turns::Turns;
use ct_values::client::{Answer, ClientOp};
use ct_values::items::Items;
use ct_values::key::Key;
use ct_values::value::Value;
use std::alloc::Global;
use std::test::Fail;

fn read(alloc: Global, key: &[u8]) -> Result<PlanItem, Fail> {
    Ok(PlanItem::Call(ClientOp::Read {
        db: 1,
        key: Key::new(alloc, key)?,
    }))
}

#[test]
fn one_node_writes_and_reads(rt: HostRuntime) -> Result<(), Fail> {
    let alloc = rt.alloc();
    let table = CallTable::new(alloc);
    let mut script = Vec::new(alloc);
    script.push(write(alloc, b"k", b"v")?)?;
    script.push(read(alloc, b"k")?)?;
    let mut scripts = Vec::new(alloc);
    scripts.push(Items::new(script))?;
    let plan = plan(alloc, scripts)?;
    let mut turns = Turns::new(alloc);
    assert!(rt; turns.journals().is_empty());
    turns.play(alloc, &table, &plan)?;
    let journals = turns.journals();
    assert!(rt; journals.len() == 1);
    assert!(rt; journals[0].entries.len() == 2);
    assert!(rt; count_answers(&journals[0], &Answer::Written) == 1);
    assert!(rt; count_answers(&journals[0], &Answer::Read(Value::new(alloc, b"v")?)) == 1);
    Ok(())
}

#[test]
fn two_nodes_write_the_same_record(rt: HostRuntime) -> Result<(), Fail> {
    let alloc = rt.alloc();
    let table = CallTable::new(alloc);
    let plan = two_writers(alloc, 1)?;
    let mut turns = Turns::new(alloc);
    turns.play(alloc, &table, &plan)?;
    let journals = turns.journals();
    assert!(rt; journals.len() == 2);
    assert!(rt; count_answers(&journals[0], &Answer::Written) == 1);
    assert!(rt; count_answers(&journals[1], &Answer::Written) == 1);
    Ok(())
}
