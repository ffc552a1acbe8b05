//! Gates of columns.
ghost use Rattle.std.specs.Prelude.{None};

use crate::plans::two_columns;
use ct_call::table::CallTable;
use ct_journal::journal::Journal;
use ct_outside::gate::Gate;
use ct_script::plan::Plan;
use ct_troupe::both::Both;
use ct_troupe::columns::Columns;
use ct_troupe_threads::column::Column;
use ct_troupe_threads::column_gate::ColumnGate;
use ct_troupe_threads::column_threads::ColumnThreads;
use ct_troupe_threads::gate::ThreadGate;
use ct_troupe_threads::loopback::Loopback;
use ct_troupe_threads::side::play_side_by_side;
use ct_troupe_threads::threaded::play_in_threads;
use ct_troupe_threads::threads::Threads;
use ct_values::memory::NoMemory;
use std::alloc::Global;
use std::sync::atomic::{AtomicU64, Ordering};
use std::sync::{Arc, Wait};
use std::test::Fail;
use std::thread;
use std::thread::Threads as Spawns;

// How often a node looks whether the other has come.
const LOOKS: u32 = 10_000_000;

// Keeps a node inside its first pass until so many have entered theirs, and counts those that met. It counts the passes of its own
// node, and those of any other.
#[derive(Drop)]
struct Watch {
    node: u32,
    nodes: u64,
    entered: Arc<AtomicU64, Global>,
    met: Arc<AtomicU64, Global>,
    own: Arc<AtomicU64, Global>,
    other: Arc<AtomicU64, Global>,
}

impl Gate for Watch {
    ghost passes = { λ _. None };

    fn pass(&mut self, node: u32, turn: u64) {
        if node == self.node {
            self.own.fetch_add(1, Ordering::SeqCst);
        } else {
            self.other.fetch_add(1, Ordering::SeqCst);
        }
        if turn > 0 {
            return;
        }
        self.entered.fetch_add(1, Ordering::SeqCst);
        for _ in 0..LOOKS {
            if self.entered.load(Ordering::SeqCst) >= self.nodes {
                self.met.fetch_add(1, Ordering::SeqCst);
                return;
            }
            thread::yield_now();
        }
    }
}

impl ThreadGate for Watch {
    fn play_through<R: Spawns + Wait + Sync>(
        rt: &R,
        alloc: Global,
        table: &CallTable,
        plan: &Plan,
        gates: &mut [Self],
    ) -> Result<Option<Vec<Journal>>, NoMemory> {
        play_in_threads(rt, alloc, table, plan, gates)
    }
}

impl ColumnGate for Watch {
    fn play_columns<R: Spawns + Wait + Sync>(
        rt: &R,
        alloc: Global,
        table: &CallTable,
        plans: &[Plan],
        columns: &mut [Column<Self>],
    ) {
        play_side_by_side(rt, alloc, table, plans, columns)
    }
}

// What the gates of all columns count.
#[derive(Drop)]
struct Counts {
    entered: Arc<AtomicU64, Global>,
    met: Arc<AtomicU64, Global>,
    // Of each column and node, by the column and then the node.
    own: Vec<Arc<AtomicU64, Global>>,
    other: Arc<AtomicU64, Global>,
}

impl Counts {
    fn new(alloc: Global) -> Result<Counts, Fail> {
        Ok(Counts {
            entered: Arc::new(alloc, AtomicU64::new(0))?,
            met: Arc::new(alloc, AtomicU64::new(0))?,
            own: Vec::new(alloc),
            other: Arc::new(alloc, AtomicU64::new(0))?,
        })
    }

    // The gate of one more node, which waits until so many have come.
    fn gate(&mut self, alloc: Global, node: u32, nodes: u64) -> Result<Watch, Fail> {
        let own = Arc::new(alloc, AtomicU64::new(0))?;
        self.own.push(Arc::try_clone(&own)?)?;
        Ok(Watch {
            node,
            nodes,
            entered: Arc::try_clone(&self.entered)?,
            met: Arc::try_clone(&self.met)?,
            own,
            other: Arc::try_clone(&self.other)?,
        })
    }

    // The gates of a column of so many nodes, of two such columns.
    fn gates(&mut self, alloc: Global, nodes: u32) -> Result<Vec<Watch>, Fail> {
        let mut gates = Vec::new(alloc);
        for node in 0..nodes {
            gates.push(self.gate(alloc, node, u64::from(nodes) * 2)?)?;
        }
        Ok(gates)
    }

    // Eight columns, of which the first two have gates for so many nodes.
    fn columns(&mut self, alloc: Global, nodes: u32) -> Result<Vec<Column<Watch>>, Fail> {
        let mut columns = Vec::new(alloc);
        for number in 0..8u32 {
            let gates = self.gates(alloc, if number < 2 { nodes } else { 0 })?;
            columns.push(Column::new(alloc, gates))?;
        }
        Ok(columns)
    }

    // Was each gate passed, and by its own node alone?
    fn are_passed(&self) -> bool {
        self.other.load(Ordering::SeqCst) == 0
            && self
                .own
                .iter()
                .all(|passes| passes.load(Ordering::SeqCst) > 0)
    }
}

#[test]
fn columns_meet(rt: HostRuntime) -> Result<(), Fail> {
    let alloc = rt.alloc();
    let table = CallTable::new(alloc);
    for nodes in [1u32, 2] {
        let plans = two_columns(alloc, nodes)?;
        let mut counts = Counts::new(alloc)?;
        let columns = counts.columns(alloc, nodes)?;
        if columns.len() != 8 {
            return Err(Fail::new("eight columns"));
        }
        let gates: Vec<Watch> = Vec::new(alloc);
        let both = Both::new(Threads::new(&rt, alloc, gates), Loopback::new(&rt, alloc));
        let mut troupe = ColumnThreads::new(&rt, both, columns);
        assert!(rt; troupe.play_all(alloc, &table, plans.as_slice()).is_ok());
        assert_eq!(rt; counts.met.load(Ordering::SeqCst), u64::from(nodes) * 2);
        assert_eq!(rt; counts.own.len(), nodes as usize * 2);
        assert!(rt; counts.are_passed());
        assert_eq!(rt; troupe.column(1).len(), nodes as usize);
    }
    Ok(())
}
