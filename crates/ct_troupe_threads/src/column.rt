//! One column, which is played in threads.
ghost use Rattle.std.specs.Prelude.{◌≡◌, [], IfOk, Ok, length};
ghost use Rattle.std.specs.Thread.{IsSync};
ghost use Rattle.ct_call.specs.Shown.{rules_of};
ghost use Rattle.ct_script.specs.Sound.{IsSound};
ghost use Rattle.ct_troupe_threads.specs.Sides.{IsColumnOf};

use crate::gate::ThreadGate;
use crate::last_play::LastPlay;
use ct_call::table::CallTable;
use ct_outside::gate::OpenGate;
use ct_script::plan::Plan;
use ct_values::memory::NoMemory;
use std::alloc::Global;
use std::sync::Wait;
use std::thread::Threads;

/// The gates of one column's nodes, the journals of its last play, and how that ended.
#[derive(Drop)]
pub struct Column<G> {
    pub gates: Vec<G>,
    pub last: LastPlay,
    pub ended: Result<(), NoMemory>,
}

impl<G: Drop> Column<G> {
    /// No plan was played. Node n of the column is to pass the gate at place n, or an open gate where there is none. It takes no
    /// memory.
    pub fn new(alloc: Global, gates: Vec<G>) -> Column<G>
        ensures gates { result.gates ≡ gates }
        ensures last { result.last ≡ [] }
        ensures ended { result.ended ≡ Ok tt }
    {
        Column {
            gates,
            last: LastPlay::none(alloc),
            ended: Ok(()),
        }
    }
}

/// Eight columns that have not played, all of whose nodes pass open gates.
pub fn open_columns(alloc: Global) -> Result<Vec<Column<OpenGate>>, NoMemory>
    ensures { IfOk result (λ v. length v.items ≡ 8) }
{
    let mut columns = Vec::new(alloc);
    for i in 0..8u32 {
        let _ = i;
        columns.push(Column::new(alloc, Vec::new(alloc)))?;
    }
    Ok(columns)
}

/// The column plays the plan, with one thread a node.
pub fn play_column<R: Threads + Wait + Sync, G: ThreadGate>(
    rt: &R,
    alloc: Global,
    table: &CallTable,
    plan: &Plan,
    column: &mut Column<G>,
)
    requires sound { IsSound plan.now }
    requires shared { IsSync R.row }
    ensures { IsColumnOf (rules_of table.now) plan.now column.new }
{
    column.last.forget(alloc);
    let left = G::play_through(rt, alloc, table, plan, column.gates.as_mut_slice());
    column.ended = column.last.keep(alloc, table, plan, left);
}
