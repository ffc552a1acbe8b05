//! Plans that are played in threads, with ample memory.
ghost use Rattle.std.specs.Prelude.{None};

use crate::plans::count_calls;
use ct_call::table::CallTable;
use ct_frame::event::{Event, Out};
use ct_journal::journal::Journal;
use ct_outside::gate::{Gate, OpenGate};
use ct_script::scripts::cluster_plan;
use ct_troupe_threads::threaded::play_in_threads;
use std::sync::atomic::{AtomicU64, Ordering};
use std::test::Fail;
use std::thread;

// How often a node looks whether the others have come.
const LOOKS: u32 = 10_000_000;

// Keeps a node inside its first pass until so many nodes have entered theirs, and counts those that met.
#[derive(Drop)]
struct Meeting<'a> {
    nodes: u64,
    entered: &'a AtomicU64,
    met: &'a AtomicU64,
}

impl<'a> Gate for Meeting<'a> {
    ghost passes = { λ _. None };

    fn pass(&mut self, _node: u32, turn: u64) {
        if turn > 0 {
            return;
        }
        self.entered.fetch_add(1, Ordering::SeqCst);
        for _ in 0..LOOKS {
            if self.entered.load(Ordering::SeqCst) >= self.nodes {
                self.met.fetch_add(1, Ordering::SeqCst);
                return;
            }
            thread::yield_now();
        }
    }
}

// One thread cannot get two nodes through this gate, and gates that no node passes count none.
#[test]
fn nodes_meet(rt: HostRuntime) -> Result<(), Fail> {
    let alloc = rt.alloc();
    let table = CallTable::new(alloc);
    let plan = cluster_plan(alloc, 2, 4, 1)?;
    let entered = AtomicU64::new(0);
    let met = AtomicU64::new(0);
    let mut gates = Vec::new(alloc);
    for _ in 0..2u32 {
        gates.push(Meeting {
            nodes: 2,
            entered: &entered,
            met: &met,
        })?;
    }
    let played = play_in_threads(&rt, alloc, &table, &plan, gates.as_mut_slice())?;
    assert_eq!(rt; met.load(Ordering::SeqCst), 2);
    assert!(rt; played.is_some());
    Ok(())
}

// How many calls came, and how many answers were given.
fn count(journal: &Journal) -> (usize, usize) {
    let mut calls: usize = 0;
    let mut answers: usize = 0;
    for entry in journal.entries.as_slice() {
        if let Event::Client { .. } = entry.event {
            calls = calls.saturating_add(1);
        }
        for out in entry.outs.as_slice() {
            if let Out::Answer { .. } = out {
                answers = answers.saturating_add(1);
            }
        }
    }
    (calls, answers)
}

#[test]
fn each_call_is_answered(rt: HostRuntime) -> Result<(), Fail> {
    let alloc = rt.alloc();
    let table = CallTable::new(alloc);
    for (nodes, calls, seed) in [(1, 20, 1), (2, 20, 2), (4, 12, 3)] {
        let plan = cluster_plan(alloc, nodes, calls, seed)?;
        let mut gates: [OpenGate; 1] = [OpenGate];
        let played = play_in_threads(&rt, alloc, &table, &plan, &mut gates)?;
        let Some(journals) = played else {
            return Err(Fail::new("to be played again"));
        };
        assert_eq!(rt; journals.len(), plan.scripts.len());
        for (journal, script) in journals.iter().zip(plan.scripts.as_slice()) {
            let asked = count_calls(script.as_slice());
            assert_eq!(rt;
                count(journal),
                (asked, asked),
                "{nodes} nodes, node {}",
                journal.node
            );
        }
    }
    Ok(())
}
