//! A troupe of threads over a bus.
ghost use Rattle.std.specs.Prelude.{◌≡◌};
ghost use Rattle.std.specs.Thread.{IsSync};

use crate::gate::BusGate;
use ct_bus::message::Message;
use ct_bus_exchange::handled::Handled;
use ct_bus_exchange::handlers::Handlers;
use ct_bus_exchange::troupe::BusTroupe;
use ct_values::items::Items;
use ct_values::memory::NoMemory;
use std::alloc::Global;
use std::sync::Wait;
use std::thread::Threads;

/// Exchanges over a bus, with one thread a node. Node n passes the gate at place n, or an open gate where there is none, before
/// each of its rounds. Its count stops at 2^64 - 1.
#[derive(Drop)]
pub struct BusThreads<R, G> {
    rt: R,
    gates: Vec<G>,
    exchanges: u64,
}

impl<R, G> BusThreads<R, G> {
    /// Nothing was exchanged. It takes no memory.
    pub fn new(rt: R, gates: Vec<G>) -> BusThreads<R, G>
        ensures { result.exchanges ≡ 0 }
    {
        BusThreads {
            rt,
            gates,
            exchanges: 0,
        }
    }
}

impl<R: Threads + Wait + Sync, G: BusGate> BusTroupe for BusThreads<R, G> {
    ghost exchanges = { λ t. t.exchanges };

    /// The threads share the runtime.
    ghost ready = { λ _. IsSync R.row };

    fn exchange(
        &mut self,
        alloc: Global,
        scripts: &[Items<Items<Message>>],
        handlers: &Handlers,
    ) -> Result<Vec<Items<Items<Handled>>>, NoMemory> {
        match G::exchange_through(
            &self.rt,
            alloc,
            scripts,
            handlers,
            self.gates.as_mut_slice(),
        ) {
            Ok(all) => {
                self.exchanges = self.exchanges.saturating_add(1);
                Ok(all)
            }
            Err(NoMemory) => Err(NoMemory),
        }
    }
}
