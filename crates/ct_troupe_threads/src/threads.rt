//! A troupe of threads.
ghost use Rattle.std.specs.Prelude.{◌≡◌, []};
ghost use Rattle.std.specs.Thread.{IsSync};
ghost use Rattle.ct_troupe.specs.Stages.{AllHaveArrived};

use crate::gate::ThreadGate;
use crate::last_play::LastPlay;
use ct_call::table::CallTable;
use ct_journal::journal::Journal;
use ct_script::plan::Plan;
use ct_troupe::troupe::{PlayFault, Troupe};
use ct_values::memory::NoMemory;
use std::alloc::Global;
use std::marker::Model;
use std::sync::Wait;
use std::thread::Threads as Spawns;

/// Plays plans with one thread a node. Node n passes the gate at place n, or an open gate where there is none. Where what the
/// threads did is no play of the plan, it is played again on one thread, with the nodes in turn.
#[derive(Drop)]
pub struct Threads<R, G> {
    rt: R,
    gates: Vec<G>,
    last: LastPlay,
}

impl<R, G> Model for Threads<R, G> {
    ghost use Rattle.std.specs.Prelude.{List};
    ghost use Rattle.ct_journal.specs.declared.journal.Journal.{Journal as Told};

    ghost Value = { List Told };

    ghost view = { λ a. a.last };
}

impl<R: Drop, G: Drop> Threads<R, G> {
    /// No plan was played. It takes no memory.
    pub fn new(rt: R, alloc: Global, gates: Vec<G>) -> Threads<R, G>
        ensures { result ≡ [] }
    {
        Threads {
            rt,
            gates,
            last: LastPlay::none(alloc),
        }
    }

    /// Where none of its journals has 1,000,000 entries, each message that was sent has arrived.
    pub fn all_have_arrived(&self)
        ensures { AllHaveArrived self.now }
    {
        self.last.all_have_arrived();
    }
}

impl<R: Spawns + Wait + Sync, G: ThreadGate> Troupe for Threads<R, G> {
    ghost told = { λ t. t };

    ghost faults = { λ _. 0 };

    /// The threads share the runtime.
    ghost ready = { λ _. IsSync R.row };

    /// Only want of memory refuses it, as `Turns` has it.
    fn play(&mut self, alloc: Global, table: &CallTable, plan: &Plan) -> Result<(), PlayFault> {
        self.last.forget(alloc);
        let left = G::play_through(&self.rt, alloc, table, plan, self.gates.as_mut_slice());
        match self.last.keep(alloc, table, plan, left) {
            Ok(()) => Ok(()),
            Err(NoMemory) => Err(PlayFault::NoMemory),
        }
    }

    fn journals(&self) -> &[Journal] {
        self.last.journals()
    }
}
