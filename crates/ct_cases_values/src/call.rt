//! A table of call functions, against values from outside.
ghost use Rattle.std.specs.Prelude.{◌≡◌, ◌++◌, IfOk, take};
ghost use Rattle.ct_call.specs.Rules.{Arg, Join, Old};
ghost use Rattle.ct_call.specs.Seen.{seen};

use ct_call::fault::{AddFault, CallFault};
use ct_call::own::Call;
use ct_call::rule::Rule;
use ct_call::table::CallTable;
use ct_values::memory::NoMemory;
use ct_values::value::Value;
use std::alloc::Global;
use std::test::Fail;

/// The old value and the argument.
fn joined(alloc: Global, old: &Value, arg: &Value) -> Result<Vec<u8>, NoMemory>
    ensures { IfOk result (λ v. v.items ≡ old.now ++ arg.now) }
{
    let mut bytes = Vec::from_slice(alloc, old.bytes())?;
    bytes.extend_from_slice(arg.bytes())?;
    Ok(bytes)
}

/// One of the values.
fn same(alloc: Global, value: &Value) -> Result<Vec<u8>, NoMemory>
    ensures { IfOk result (λ v. v.items ≡ value.now) }
{
    Ok(Vec::from_slice(alloc, value.bytes())?)
}

/// The first bytes of the old value and the argument.
fn cut(alloc: Global, old: &Value, arg: &Value) -> Result<Vec<u8>, NoMemory>
    ensures { IfOk result (λ v. v.items ≡ take 4 (old.now ++ arg.now)) }
{
    let mut bytes = joined(alloc, old, arg)?;
    bytes.truncate(4);
    Ok(bytes)
}

fn both_in_turn(alloc: Global) -> Result<Rule, Fail>
    ensures { IfOk result (λ r. seen r ≡ Join Old Arg) }
{
    Ok(Rule::Join(Box::new(alloc, Rule::Old)?, Box::new(alloc, Rule::Arg)?))
}

fn is_answer(answer: Result<Value, CallFault>, wanted: Result<&[u8], CallFault>) -> bool {
    match answer {
        Ok(value) => wanted == Ok(value.bytes()),
        Err(fault) => wanted == Err(fault),
    }
}

/// Does a call give these bytes, or this fault?
fn gives(
    alloc: Global,
    table: &CallTable,
    id: u32,
    old: &[u8],
    arg: &[u8],
    wanted: Result<&[u8], CallFault>,
) -> Result<bool, Fail> {
    let old = Value::new(alloc, old)?;
    let arg = Value::new(alloc, arg)?;
    Ok(is_answer(table.apply(id, &old, &arg), wanted))
}

/// Two threads may have it.
fn may_be_shared<T: Send + Sync>(_table: &T) {}

fn knows(table: &CallTable) -> [bool; 6] {
    [
        table.knows(0),
        table.knows(1),
        table.knows(2),
        table.knows(3),
        table.knows(4),
        table.knows(9),
    ]
}

fn has_second(table: &CallTable) -> bool {
    matches!(table.rule_of(2), Some(Rule::Arg))
}

fn has_front(table: &CallTable) -> bool {
    matches!(table.rule_of(9), Some(Rule::Cut(4, _)))
}

#[test]
fn four_functions(rt: HostRuntime) -> Result<(), Fail> {
    let alloc = rt.alloc();
    let mut table = CallTable::new(alloc);
    may_be_shared(&table);
    assert!(rt; !table.knows(0) && !table.knows(1) && table.rule_of(1).is_none());
    let both: Call = Box::new(alloc, move |old: &Value, arg: &Value| {
        joined(alloc, old, arg)
    })?;
    assert!(rt; table.add(1, both_in_turn(alloc)?, both) == Ok(()));
    let second: Call = Box::new(alloc, move |_old: &Value, arg: &Value| same(alloc, arg))?;
    assert!(rt; table.add(2, Rule::Arg, second) == Ok(()));
    let first: Call = Box::new(alloc, move |old: &Value, _arg: &Value| same(alloc, old))?;
    assert!(rt; table.add(3, Rule::Old, first) == Ok(()));
    let front: Call = Box::new(alloc, move |old: &Value, arg: &Value| cut(alloc, old, arg))?;
    let rule = Rule::Cut(4, Box::new(alloc, both_in_turn(alloc)?)?).copy(alloc)?;
    assert!(rt; table.add(9, rule, front) == Ok(()));
    let again: Call = Box::new(alloc, move |old: &Value, _arg: &Value| same(alloc, old))?;
    assert!(rt; table.add(2, Rule::Old, again) == Err(AddFault::Repeated(2)));
    assert!(rt; knows(&table) == [false, true, true, true, false, true]);
    assert!(rt; has_second(&table) && has_front(&table));
    let full = [97u8; 1024];
    for (id, old, arg, wanted) in [
        (
            1u32,
            b"ab".as_slice(),
            b"xyz".as_slice(),
            Ok(b"abxyz".as_slice()),
        ),
        (2, b"ab", b"xyz", Ok(b"xyz")),
        (3, b"ab", b"xyz", Ok(b"ab")),
        (9, b"ab", b"xyz", Ok(b"abxy")),
        (9, b"a", b"", Ok(b"a")),
        (1, b"", b"", Ok(b"")),
        (4, b"ab", b"xyz", Err(CallFault::NoSuchCall)),
        (0, &full, b"xyz", Err(CallFault::NoSuchCall)),
        (1, &full, b"", Ok(&full)),
        (1, &full[..1000], &full[..24], Ok(&full)),
        (1, &full, b"x", Err(CallFault::TooLong(1025))),
        (1, &full, &full, Err(CallFault::TooLong(2048))),
        (2, &full, b"y", Ok(b"y")),
        (9, &full, &full, Ok(b"aaaa")),
    ] {
        assert!(rt; gives(alloc, &table, id, old, arg, wanted)?);
    }
    Ok(())
}
