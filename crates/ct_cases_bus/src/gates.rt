//! Gates that say which node goes on.
ghost use Rattle.std.specs.Prelude.{None};

use crate::handling::three_services;
use crate::messages::{between, messages};
use ct_bus_threads::exchange::exchange_in_threads;
use ct_outside::gate::Gate;
use ct_values::items::Items;
use std::sync::atomic::{AtomicU64, Ordering};
use std::test::Fail;
use std::thread;

// How often a node looks whether it may go on.
const LOOKS: u32 = 10_000_000;

// Has the count come so far, before all looks are had?
fn comes_to(count: &AtomicU64, wanted: u64) -> bool {
    for _ in 0..LOOKS {
        if count.load(Ordering::SeqCst) >= wanted {
            return true;
        }
        thread::yield_now();
    }
    false
}

// Keeps a node inside its first pass until both nodes have entered theirs, and counts those that met.
#[derive(Drop)]
struct Meeting<'a> {
    entered: &'a AtomicU64,
    met: &'a AtomicU64,
}

impl<'a> Gate for Meeting<'a> {
    ghost passes = { λ _. None };

    fn pass(&mut self, _node: u32, turn: u64) {
        if turn > 0 {
            return;
        }
        self.entered.fetch_add(1, Ordering::SeqCst);
        if comes_to(self.entered, 2) {
            self.met.fetch_add(1, Ordering::SeqCst);
        }
    }
}

// One thread cannot get two nodes through this gate.
#[test]
fn nodes_meet(rt: HostRuntime) -> Result<(), Fail> {
    let alloc = rt.alloc();
    let handlers = three_services(alloc)?;
    let scripts = between(
        alloc,
        messages(alloc, 0, b"a", 5)?,
        messages(alloc, 0, b"b", 5)?,
    )?;
    let (entered, met) = (AtomicU64::new(0), AtomicU64::new(0));
    let mut gates = [
        Meeting {
            entered: &entered,
            met: &met,
        },
        Meeting {
            entered: &entered,
            met: &met,
        },
    ];
    let all = exchange_in_threads(&rt, alloc, scripts.as_slice(), &handlers, &mut gates)?;
    assert_eq!(rt; met.load(Ordering::SeqCst), 2);
    assert_eq!(rt; all.len(), 2);
    Ok(())
}

// Keeps node 1 inside its first pass until node 0 has passed 1,000 times.
#[derive(Drop)]
struct Held<'a> {
    passed: &'a AtomicU64,
    freed: &'a AtomicU64,
}

impl<'a> Gate for Held<'a> {
    ghost passes = { λ _. None };

    fn pass(&mut self, node: u32, turn: u64) {
        if node == 0 {
            self.passed.fetch_add(1, Ordering::SeqCst);
            return;
        }
        if turn == 0 && comes_to(self.passed, 1000) {
            self.freed.fetch_add(1, Ordering::SeqCst);
        }
    }
}

// Node 0 has one message more than there are places, so it cannot end before node 1 takes one.
#[test]
fn messages_go_through_64_places(rt: HostRuntime) -> Result<(), Fail> {
    let alloc = rt.alloc();
    let handlers = three_services(alloc)?;
    let scripts = between(alloc, messages(alloc, 0, b"a", 65)?, Items::empty(alloc))?;
    let (passed, freed) = (AtomicU64::new(0), AtomicU64::new(0));
    let mut gates = [
        Held {
            passed: &passed,
            freed: &freed,
        },
        Held {
            passed: &passed,
            freed: &freed,
        },
    ];
    let all = exchange_in_threads(&rt, alloc, scripts.as_slice(), &handlers, &mut gates)?;
    assert_eq!(rt; freed.load(Ordering::SeqCst), 1);
    let Some(row) = all.as_slice().get(1) else {
        return Err(Fail::new("no row of node 1"));
    };
    assert_eq!(rt; row.len(), 2);
    Ok(())
}
