//! An exchange over a bus.
ghost use Rattle.std.specs.Prelude.{◌≡◌, IfOk};
ghost use Rattle.ct_bus_exchange.specs.Exchange.{AreScripts, exchanged};
ghost use Rattle.ct_bus_exchange.specs.Shown.{handled_by};

use crate::seats::seated;
use crate::settled::{Parts, take_apart};
use crate::side::serve_all;
use ct_bus::bus::Bus;
use ct_bus::message::Message;
use ct_bus::opening::Opened;
use ct_bus_exchange::handled::Handled;
use ct_bus_exchange::handlers::Handlers;
use ct_outside::gate::Gate;
use ct_values::items::Items;
use ct_values::memory::NoMemory;
use std::alloc::Global;
use std::sync::{Mutex, Wait};
use std::thread::Threads;

/// The exchange behind the gates. All memory but that of answers is made before a thread starts.
fn exchange_behind<R: Threads + Wait + Sync, G: Gate + Send>(
    rt: &R,
    alloc: Global,
    scripts: &[Items<Items<Message>>],
    handlers: &Handlers,
    gates: &[Mutex<&mut G>],
) -> Result<Vec<Items<Items<Handled>>>, NoMemory>
    requires { AreScripts scripts.now }
    ensures { IfOk result (λ v. v.items ≡ exchanged (handled_by handlers.now) scripts.now) }
{
    let Opened {
        bus,
        senders,
        receivers,
    } = Bus::new(rt, alloc, scripts.len() as u32)?;
    let mut works = seated(alloc, scripts, senders, receivers)?;
    serve_all(rt, alloc, &bus, handlers, gates, works.as_mut_slice());
    let Parts {
        senders,
        receivers,
        done,
    } = take_apart(alloc, works)?;
    bus.settle_up(senders, receivers);
    Ok(done)
}

/// Exchanges with one thread a node, each from its seats at one bus. Node n passes the gate at place n, or an open gate where there
/// is none, before each of its rounds. A node that wants memory posts and takes on, and says so at the end.
pub fn exchange_in_threads<R: Threads + Wait + Sync, G: Gate + Send>(
    rt: &R,
    alloc: Global,
    scripts: &[Items<Items<Message>>],
    handlers: &Handlers,
    gates: &mut [G],
) -> Result<Vec<Items<Items<Handled>>>, NoMemory>
    requires { AreScripts scripts.now }
    ensures { IfOk result (λ v. v.items ≡ exchanged (handled_by handlers.now) scripts.now) }
{
    let mut locked = Vec::new(alloc);
    let each = gates.iter_mut();
    for gate in each {
        locked.push(Mutex::new(gate))?;
    }
    exchange_behind(rt, alloc, scripts, handlers, locked.as_slice())
}
