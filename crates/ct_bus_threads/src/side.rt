//! One node, which serves in a thread of its own.
ghost use Rattle.std.specs.Prelude.{◌≡◌, ◌≤◌, ◌<◌, ℕ, false, true, length, map, IfSome, slice_index_or};
ghost use Rattle.std.specs.List.{list_all, All};
ghost use Rattle.ct_bus.specs.Seats.{taken_by};
ghost use Rattle.ct_bus_exchange.specs.Handling.{handled};
ghost use Rattle.ct_bus_exchange.specs.Shown.{handled_by};
ghost use Rattle.ct_bus_threads.specs.Works.{HasServed, IsSound, fixed, is_done};

use crate::rounds::serve;
use crate::work::Work;
use ct_bus::bus::Bus;
use ct_bus_exchange::handled::Handled;
use ct_bus_exchange::handlers::Handlers;
use ct_outside::gate::{Gate, OpenGate};
use ct_values::items::Items;
use std::alloc::Global;
use std::sync::{Mutex, Wait};
use std::thread;
use std::thread::Threads;

/// What the node handled of each, where all that came was kept.
fn answers(alloc: Global, handlers: &Handlers, work: &Work) -> Option<Items<Items<Handled>>>
    requires { work.now.lost ≡ false → map (λ t. t.got.items) work.now.all.items ≡ taken_by work.now.receive }
    ensures { IfSome result (λ v. v ≡ map (λ ms. map (handled (handled_by handlers.now)) ms) (taken_by work.now.receive)) }
{
    if work.lost {
        return None;
    }
    let mut all = Items::empty(alloc);
    let todos = work.all.as_slice();
    for todo in todos {
        let handled = handlers.handle_all(todo.got.as_slice()).ok()?;
        all.push(handled).ok()?;
    }
    Some(all)
}

/// The node serves, and passes its own gate before each round, or an open one where there is none for it.
fn serve_gated<R: Wait, W: Wait, G: Gate>(
    rt: &W,
    bus: &Bus<R>,
    gates: &[Mutex<&mut G>],
    work: &mut Work,
)
    requires sound { IsSound bus.now work.old }
    requires few { length bus.now ≤ 8 }
    ensures fixed { fixed work.new ≡ fixed work.old }
    ensures sound { IsSound bus.now work.new }
    ensures done { list_all is_done work.new.all.items ≡ true }
{
    match gates.get(work.node as usize) {
        Some(gate) => {
            let mut gate = gate.lock(rt);
            serve(rt, bus, work, &mut **gate)
        }
        None => serve(rt, bus, work, &mut OpenGate),
    }
}

/// The node serves, and then it handles what came.
fn serve_node<R: Wait, W: Wait, G: Gate>(
    rt: &W,
    alloc: Global,
    bus: &Bus<R>,
    handlers: &Handlers,
    gates: &[Mutex<&mut G>],
    work: &mut Work,
)
    requires sound { IsSound bus.now work.old }
    requires few { length bus.now ≤ 8 }
    ensures { HasServed (handled_by handlers.now) bus.now (fixed work.old) work.new }
{
    serve_gated(rt, bus, gates, work);
    work.done = answers(alloc, handlers, work);
}

/// Each node serves in a thread of its own.
pub fn serve_all<R: Threads + Wait + Sync, G: Gate + Send>(
    rt: &R,
    alloc: Global,
    bus: &Bus<&R>,
    handlers: &Handlers,
    gates: &[Mutex<&mut G>],
    works: &mut [Work],
)
    requires sound { All (λ w. IsSound bus.now w) works.old }
    requires few { length bus.now ≤ 8 }
    ensures len { length works.new ≡ length works.old }
    ensures each { (i : ℕ) (d : _) → i < length works.old → HasServed (handled_by handlers.now) bus.now (fixed (slice_index_or works.old i d)) (slice_index_or works.new i d) }
{
    let count = works.len();
    if count == 0 {
        return;
    }
    thread::for_each_mut(
        rt,
        works,
        count,
        &|_: usize, work: &mut Work|
            requires { IsSound bus.now work.now × (length bus.now ≤ 8) }
            ensures { HasServed (handled_by handlers.entry.now) bus.entry.now (fixed work.entry.now) work.exit.now }
        { serve_node(rt, alloc, bus, handlers, gates, work) },
    );
}
