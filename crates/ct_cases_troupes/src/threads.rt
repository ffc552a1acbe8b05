//! Plans are played, and played again, with ample memory; and gates say which of two nodes comes first.
ghost use Rattle.std.specs.Prelude.{None};

use crate::plans::{count_answers, count_calls, two_writers};
use ct_call::table::CallTable;
use ct_frame::event::Event;
use ct_journal::journal::Journal;
use ct_outside::gate::{Gate, OpenGate};
use ct_script::plan::Plan;
use ct_script::scripts::cluster_plan;
use ct_troupe::troupe::Troupe;
use ct_troupe_threads::gate::ThreadGate;
use ct_troupe_threads::threaded::play_in_threads;
use ct_troupe_threads::threads::Threads;
use ct_values::client::Answer;
use ct_values::memory::NoMemory;
use std::alloc::Global;
use std::sync::atomic::{AtomicU64, Ordering};
use std::sync::{Arc, Wait};
use std::test::Fail;
use std::thread;
use std::thread::Threads as Spawns;

// How many calls came.
fn count_asked(journal: &Journal) -> usize {
    let mut count: usize = 0;
    for entry in journal.entries.as_slice() {
        if let Event::Client { .. } = entry.event {
            count = count.saturating_add(1);
        }
    }
    count
}

// Does the journal begin with a message that arrived? None where it is empty.
fn begins_with_arrival(journal: &Journal) -> Option<bool> {
    let entry = journal.entries.as_slice().first()?;
    match entry.event {
        Event::Arrive(_) => Some(true),
        _ => Some(false),
    }
}

// How often a node looks whether the other has come.
const LOOKS: u32 = 10_000_000;

// Keeps one node inside its first pass until the other has entered its second.
#[derive(Drop)]
struct Turnstile {
    held: u32,
    second: Arc<AtomicU64, Global>,
    late: Arc<AtomicU64, Global>,
}

impl Gate for Turnstile {
    ghost passes = { λ _. None };

    fn pass(&mut self, node: u32, turn: u64) {
        if node != self.held {
            if turn == 1 {
                self.second.store(1, Ordering::SeqCst);
            }
            return;
        }
        if turn > 0 {
            return;
        }
        for _ in 0..LOOKS {
            if self.second.load(Ordering::SeqCst) == 1 {
                return;
            }
            thread::yield_now();
        }
        self.late.store(1, Ordering::SeqCst);
    }
}

impl ThreadGate for Turnstile {
    fn play_through<R: Spawns + Wait + Sync>(
        rt: &R,
        alloc: Global,
        table: &CallTable,
        plan: &Plan,
        gates: &mut [Self],
    ) -> Result<Option<Vec<Journal>>, NoMemory> {
        play_in_threads(rt, alloc, table, plan, gates)
    }
}

#[test]
fn each_call_comes(rt: HostRuntime) -> Result<(), Fail> {
    let alloc = rt.alloc();
    let table = CallTable::new(alloc);
    let plan = cluster_plan(alloc, 2, 20, 2)?;
    let gates: Vec<OpenGate> = Vec::new(alloc);
    let mut threads = Threads::new(&rt, alloc, gates);
    assert!(rt; threads.journals().is_empty());
    for _ in 0..2u32 {
        threads.play(alloc, &table, &plan)?;
        let journals = threads.journals();
        assert_eq!(rt; journals.len(), 2);
        for (journal, script) in journals.iter().zip(plan.scripts.as_slice()) {
            assert_eq!(rt; count_asked(journal), count_calls(script.as_slice()));
        }
    }
    Ok(())
}

// Which node is held, how often each client writes, and whether a message is the first that comes to node 0. With the nodes in
// turn it is always its own call.
const TABLE: [(u32, usize, bool); 4] = [
    (0, 1, true),
    (1, 1, false),
    (0, 100, true),
    (1, 100, false),
];

#[test]
fn gates_say_who_comes_first(rt: HostRuntime) -> Result<(), Fail> {
    let alloc = rt.alloc();
    let table = CallTable::new(alloc);
    for (held, times, arrival) in TABLE {
        let plan = two_writers(alloc, times)?;
        let second = Arc::new(alloc, AtomicU64::new(0))?;
        let late = Arc::new(alloc, AtomicU64::new(0))?;
        let mut gates = Vec::new(alloc);
        for _ in 0..2u32 {
            let gate = Turnstile {
                held,
                second: Arc::try_clone(&second)?,
                late: Arc::try_clone(&late)?,
            };
            gates.push(gate)?;
        }
        let mut threads = Threads::new(&rt, alloc, gates);
        threads.play(alloc, &table, &plan)?;
        assert_eq!(rt;
            late.load(Ordering::SeqCst),
            0,
            "node {held} was held too long"
        );
        let journals = threads.journals();
        assert_eq!(rt; journals.len(), 2);
        assert_eq!(rt;
            begins_with_arrival(&journals[0]),
            Some(arrival),
            "node {held} was held, {times} writes"
        );
        for journal in journals {
            assert_eq!(rt; count_answers(journal, &Answer::Written), times);
        }
    }
    Ok(())
}
