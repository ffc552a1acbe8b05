//! The rounds of a node: in each it posts to each other node, and takes of each.
ghost use Rattle.std.specs.Prelude.{◌≡◌, ◌≤◌, ◌<◌, ◌^◌, true, length};
ghost use Rattle.std.specs.List.{list_all};
ghost use Rattle.ct_bus_threads.specs.Works.{IsSound, fixed, is_done};

use crate::turns::{post_turn, take_turn};
use crate::work::{Todo, Work};
use ct_bus::bus::Bus;
use ct_outside::gate::Gate;
use std::sync::Wait;
use std::thread;

/// Is all posted, and has as much come as is wanted?
fn is_done(todo: &Todo) -> bool
    ensures { result ≡ is_done todo.now }
{
    todo.held.is_none() && todo.rest.len() == 0 && todo.came >= todo.wanted
}

fn are_done(all: &[Todo]) -> bool
    ensures { result ≡ list_all is_done all.now }
{
    all.iter().all(|todo| is_done(todo))
}

/// Did the node post or take anything?
fn round<R: Wait>(bus: &Bus<R>, work: &mut Work) -> bool
    requires sound { IsSound bus.now work.old }
    requires few { length bus.now ≤ 8 }
    ensures fixed { fixed work.new ≡ fixed work.old }
    ensures sound { IsSound bus.now work.new }
{
    let mut moved = false;
    let nodes = work.all.len() as u32;
    for other in 0..nodes {
        if other != work.node {
            let posted = post_turn(bus, work, other);
            let taken = take_turn(bus, work, other);
            if posted || taken {
                moved = true;
            }
        }
    }
    moved
}

/// The node posts and takes in rounds, and passes its gate before each, until all is posted and as much has come as is wanted. After
/// a round without either it lets another thread go first.
pub(crate) fn serve<R: Wait, W: Wait, G: Gate>(rt: &W, bus: &Bus<R>, work: &mut Work, gate: &mut G)
    requires sound { IsSound bus.now work.old }
    requires few { length bus.now ≤ 8 }
    ensures fixed { fixed work.new ≡ fixed work.old }
    ensures sound { IsSound bus.now work.new }
    ensures done { list_all is_done work.new.all.items ≡ true }
{
    let mut turn = 0u64;
    for _ in rt.forever() {
        if are_done(work.all.as_slice()) {
            break;
        }
        gate.pass(work.node, turn);
        turn = turn.saturating_add(1);
        if !round(bus, work) {
            thread::yield_now();
        }
    }
}
