//! Gates that nodes pass in threads.
ghost use Rattle.std.specs.Prelude.{◌≡◌, IfOk};
ghost use Rattle.std.specs.Thread.{IsSync};
ghost use Rattle.ct_bus_exchange.specs.Exchange.{AreScripts, exchanged};
ghost use Rattle.ct_bus_exchange.specs.Shown.{handled_by};

use crate::exchange::exchange_in_threads;
use ct_bus::message::Message;
use ct_bus_exchange::handled::Handled;
use ct_bus_exchange::handlers::Handlers;
use ct_outside::gate::{Gate, OpenGate};
use ct_values::items::Items;
use ct_values::memory::NoMemory;
use std::alloc::Global;
use std::marker::Send;
use std::sync::Wait;
use std::thread::Threads;

/// A gate that may be passed in any thread. A bound on a type that a trait is implemented for is not told in other threads, so
/// each type of gate says by itself that messages are exchanged through it: by `exchange_in_threads`.
pub trait BusGate: Gate + Send {
    /// Exchanges with one thread a node. Node n passes the gate at place n, or an open gate where there is none.
    fn exchange_through<R: Threads + Wait + Sync>(
        rt: &R,
        alloc: Global,
        scripts: &[Items<Items<Message>>],
        handlers: &Handlers,
        gates: &mut [Self],
    ) -> Result<Vec<Items<Items<Handled>>>, NoMemory>
        requires scripts { AreScripts scripts.now }
        requires shared { IsSync R.row }
        ensures { IfOk result (λ v. v.items ≡ exchanged (handled_by handlers.now) scripts.now) };
}

impl BusGate for OpenGate {
    fn exchange_through<R: Threads + Wait + Sync>(
        rt: &R,
        alloc: Global,
        scripts: &[Items<Items<Message>>],
        handlers: &Handlers,
        gates: &mut [Self],
    ) -> Result<Vec<Items<Items<Handled>>>, NoMemory> {
        exchange_in_threads(rt, alloc, scripts, handlers, gates)
    }
}
