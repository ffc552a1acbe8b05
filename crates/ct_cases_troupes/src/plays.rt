//! Plays of two columns, of one, and of none, with ample memory.
ghost use Rattle.std.specs.Prelude.{◌≤◌, All, IsErr, length};
ghost use Rattle.ct_script.specs.Sound.{IsSound};

use crate::plans::{one_column, two_columns};
use ct_call::own::Call;
use ct_call::rule::Rule;
use ct_call::table::CallTable;
use ct_outside::gate::OpenGate;
use ct_script::plan::Plan;
use ct_troupe::both::Both;
use ct_troupe::column_turns::ColumnTurns;
use ct_troupe::columns::Columns;
use ct_troupe::troupe::Troupe;
use ct_troupe_threads::column::open_columns;
use ct_troupe_threads::column_threads::ColumnThreads;
use ct_troupe_threads::loopback::Loopback;
use ct_troupe_threads::threads::Threads;
use ct_values::memory::NoMemory;
use ct_values::value::Value;
use std::alloc::Global;
use std::test::Fail;

// How many journals each of the first three columns has.
fn counts<T: Columns>(troupe: &T) -> [usize; 3] {
    [
        troupe.column(0).len(),
        troupe.column(1).len(),
        troupe.column(2).len(),
    ]
}

// How many each has once these were played. None where it was refused.
fn played<T: Columns>(
    alloc: Global,
    table: &CallTable,
    plans: &[Plan],
    troupe: &mut T,
) -> Option<[usize; 3]>
    requires few { length plans.now ≤ 8 }
    requires sound { All IsSound plans.now }
    requires ready { T.columns_ready troupe.old }
{
    troupe.play_all(alloc, table, plans).ok()?;
    Some(counts(troupe))
}

// Never answers.
fn wanting(_old: &Value, _arg: &Value) -> Result<Vec<u8>, NoMemory>
    ensures { IsErr result }
{
    Err(NoMemory)
}

// The function of the plans, which wants memory at each of its calls.
fn wanting_table(alloc: Global) -> Result<CallTable, Fail> {
    let mut table = CallTable::new(alloc);
    let f: Call = Box::new(
        alloc,
        move |old: &Value, arg: &Value| -> Result<Vec<u8>, NoMemory>
            ensures { IsErr result }
        { wanting(old, arg) },
    )?;
    if table.add(1, Rule::Arg, f).is_err() {
        return Err(Fail::new("the function is not added"));
    }
    Ok(table)
}

#[test]
fn in_turn(rt: HostRuntime) -> Result<(), Fail> {
    let alloc = rt.alloc();
    let (table, wanting) = (CallTable::new(alloc), wanting_table(alloc)?);
    let (two, one) = (two_columns(alloc, 2)?, one_column(alloc, 2)?);
    let mut troupe = ColumnTurns::new(alloc);
    assert_eq!(rt; counts(&troupe), [0, 0, 0]);
    assert_eq!(rt;
        played(alloc, &table, two.as_slice(), &mut troupe),
        Some([2, 2, 0])
    );
    assert_eq!(rt;
        played(alloc, &table, one.as_slice(), &mut troupe),
        Some([2, 0, 0])
    );
    assert_eq!(rt; played(alloc, &wanting, two.as_slice(), &mut troupe), None);
    assert_eq!(rt; counts(&troupe), [0, 0, 0]);
    assert_eq!(rt; played(alloc, &table, &[], &mut troupe), Some([0, 0, 0]));
    Ok(())
}

#[test]
fn side_by_side(rt: HostRuntime) -> Result<(), Fail> {
    let alloc = rt.alloc();
    let (table, wanting) = (CallTable::new(alloc), wanting_table(alloc)?);
    let (two, one) = (two_columns(alloc, 2)?, one_column(alloc, 2)?);
    let gates: Vec<OpenGate> = Vec::new(alloc);
    let both = Both::new(Threads::new(&rt, alloc, gates), Loopback::new(&rt, alloc));
    let mut troupe = ColumnThreads::new(&rt, both, open_columns(alloc)?);
    assert_eq!(rt; counts(&troupe), [0, 0, 0]);
    assert_eq!(rt;
        played(alloc, &table, two.as_slice(), &mut troupe),
        Some([2, 2, 0])
    );
    assert_eq!(rt;
        played(alloc, &table, one.as_slice(), &mut troupe),
        Some([2, 0, 0])
    );
    assert_eq!(rt; played(alloc, &wanting, two.as_slice(), &mut troupe), None);
    assert_eq!(rt; counts(&troupe), [0, 0, 0]);
    assert_eq!(rt; troupe.journals().len(), 0);
    Ok(())
}
