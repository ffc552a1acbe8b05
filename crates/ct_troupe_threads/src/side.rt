//! Columns, side by side.
ghost use Rattle.std.specs.Prelude.{◌≡◌, All, length};
ghost use Rattle.std.specs.Thread.{IsSync};
ghost use Rattle.ct_call.specs.Shown.{rules_of};
ghost use Rattle.ct_script.specs.Sound.{IsSound};
ghost use Rattle.ct_troupe_threads.specs.Sides as sides;

use crate::column::{Column, play_column};
use crate::gate::ThreadGate;
use ct_call::table::CallTable;
use ct_script::plan::Plan;
use std::alloc::Global;
use std::sync::Wait;
use std::thread;
use std::thread::Threads;

/// The column of this place plays the plan of its place, where there is one.
fn play_at<R: Threads + Wait + Sync, G: ThreadGate>(
    rt: &R,
    alloc: Global,
    table: &CallTable,
    plans: &[Plan],
    place: usize,
    column: &mut Column<G>,
)
    requires sound { All IsSound plans.now }
    requires shared { IsSync R.row }
    ensures { sides.PlaysAt (rules_of table.now) plans.now place column.new }
{
    if let Some(plan) = plans.get(place) {
        play_column(rt, alloc, table, plan, column);
    }
}

/// Plays each plan in the column of its place: each column in a thread of its own, and in it each node in one. The columns beyond
/// the plans do nothing.
pub fn play_side_by_side<R: Threads + Wait + Sync, G: ThreadGate>(
    rt: &R,
    alloc: Global,
    table: &CallTable,
    plans: &[Plan],
    columns: &mut [Column<G>],
)
    requires sound { All IsSound plans.now }
    requires shared { IsSync R.row }
    ensures len { length columns.new ≡ length columns.old }
    ensures each { sides.AreColumnsOf (rules_of table.now) plans.now columns.new }
{
    let count = columns.len();
    if count == 0 {
        return;
    }
    thread::for_each_mut(
        rt,
        columns,
        count,
        &|i: usize, column: &mut Column<G>|
            requires { IsSync R.row × All IsSound plans.now }
            ensures { sides.PlaysAt (rules_of table.entry.now) plans.entry.now i column.exit.now }
        { play_at(rt, alloc, table, plans, i, column) },
    );
}
