//! Gates that nodes pass in threads.
ghost use Rattle.std.specs.Prelude.{IfOk, IfSome};
ghost use Rattle.std.specs.Thread.{IsSync};
ghost use Rattle.ct_call.specs.Shown.{rules_of};
ghost use Rattle.ct_script.specs.Sound.{IsSound};
ghost use Rattle.ct_troupe_threads.specs.Threaded.{AreSettled};
ghost use Rattle.ct_troupe.specs.Played.{ArePlayed};

use crate::threaded::play_in_threads;
use ct_call::table::CallTable;
use ct_journal::journal::Journal;
use ct_outside::gate::{Gate, OpenGate};
use ct_script::plan::Plan;
use ct_values::memory::NoMemory;
use std::alloc::Global;
use std::marker::Send;
use std::sync::Wait;
use std::thread::Threads;

/// A gate that may be passed in any thread. A bound on a type that a trait is implemented for is not told in other threads, so
/// each type of gate says by itself that plans are played through it: by `play_in_threads`.
pub trait ThreadGate: Gate + Send {
    /// Plays the plan with one thread a node. Node n passes the gate at place n, or an open gate where there is none. The
    /// journals, or none where what the threads did is no play.
    fn play_through<R: Threads + Wait + Sync>(
        rt: &R,
        alloc: Global,
        table: &CallTable,
        plan: &Plan,
        gates: &mut [Self],
    ) -> Result<Option<Vec<Journal>>, NoMemory>
        requires sound { IsSound plan.now }
        requires shared { IsSync R.row }
        ensures played { IfOk result (λ o. IfSome o (λ v. ArePlayed (rules_of table.now) plan.now v.items)) }
        ensures settled { IfOk result (λ o. IfSome o (λ v. AreSettled v.items)) };
}

impl ThreadGate for OpenGate {
    fn play_through<R: Threads + Wait + Sync>(
        rt: &R,
        alloc: Global,
        table: &CallTable,
        plan: &Plan,
        gates: &mut [Self],
    ) -> Result<Option<Vec<Journal>>, NoMemory> {
        play_in_threads(rt, alloc, table, plan, gates)
    }
}
