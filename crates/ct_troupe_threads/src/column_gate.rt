//! Gates through which columns are played.
ghost use Rattle.std.specs.Prelude.{◌≡◌, All, length};
ghost use Rattle.std.specs.Thread.{IsSync};
ghost use Rattle.ct_call.specs.Shown.{rules_of};
ghost use Rattle.ct_script.specs.Sound.{IsSound};
ghost use Rattle.ct_troupe_threads.specs.Sides.{AreColumnsOf};

use crate::column::Column;
use crate::gate::ThreadGate;
use crate::side::play_side_by_side;
use ct_call::table::CallTable;
use ct_outside::gate::OpenGate;
use ct_script::plan::Plan;
use std::alloc::Global;
use std::sync::Wait;
use std::thread::Threads;

/// A gate that nodes of columns may pass. A bound on a type that a trait is implemented for is not told in other threads, so each type
/// of gate says by itself that columns are played through it: by `play_side_by_side`.
pub trait ColumnGate: ThreadGate {
    /// Plays each plan in the column of its place, each column in a thread of its own, and in it each node in one. Node n of a column
    /// passes its gate n.
    fn play_columns<R: Threads + Wait + Sync>(
        rt: &R,
        alloc: Global,
        table: &CallTable,
        plans: &[Plan],
        columns: &mut [Column<Self>],
    )
        requires sound { All IsSound plans.now }
        requires shared { IsSync R.row }
        ensures len { length columns.new ≡ length columns.old }
        ensures each { AreColumnsOf (rules_of table.now) plans.now columns.new };
}

impl ColumnGate for OpenGate {
    fn play_columns<R: Threads + Wait + Sync>(
        rt: &R,
        alloc: Global,
        table: &CallTable,
        plans: &[Plan],
        columns: &mut [Column<Self>],
    ) {
        play_side_by_side(rt, alloc, table, plans, columns)
    }
}
