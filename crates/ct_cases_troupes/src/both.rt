//! Who is to play.
ghost use Rattle.std.specs.Prelude.{[], IfOk};
ghost use Rattle.ct_script.specs.Sound.{IsSound};

use ct_call::table::CallTable;
use ct_journal::journal::Journal;
use ct_script::plan::Plan;
use ct_script::scripts::cluster_plan;
use ct_troupe::both::Both;
use ct_troupe::troupe::{PlayFault, Troupe};
use std::alloc::Global;
use std::cell::Cell;
use std::test::Fail;

// Plays nothing, and says that it was to play.
#[derive(Drop)]
struct Idle<'a> {
    plays: &'a Cell<u32>,
}

impl<'a> Troupe for Idle<'a> {
    ghost told = { λ _. [] };

    ghost faults = { λ _. 0 };

    ghost ready = { λ _. Unit {0} };

    fn play(&mut self, _alloc: Global, _table: &CallTable, _plan: &Plan) -> Result<(), PlayFault> {
        self.plays.set(self.plays.get().saturating_add(1));
        Err(PlayFault::NoMemory)
    }

    fn journals(&self) -> &[Journal] {
        &[]
    }
}

// A plan whose nodes are to talk over sockets, or not.
fn plan_over(alloc: Global, net: bool) -> Result<Plan, Fail>
    ensures { IfOk result IsSound }
{
    let mut plan = cluster_plan(alloc, 2, 1, 1)?;
    plan.net = net;
    Ok(plan)
}

// Whether nodes are to talk over sockets, and how often each of the two was to play then.
const TABLE: [(bool, u32, u32); 3] = [(false, 1, 0), (true, 1, 1), (true, 1, 2)];

#[test]
fn the_plan_says_who_plays(rt: HostRuntime) -> Result<(), Fail> {
    let alloc = rt.alloc();
    let table = CallTable::new(alloc);
    let (threads, loopback) = (Cell::new(0), Cell::new(0));
    let mut both = Both::new(Idle { plays: &threads }, Idle { plays: &loopback });
    assert!(rt; both.journals().is_empty());
    for (net, by_threads, by_loopback) in TABLE {
        let plan = plan_over(alloc, net)?;
        assert!(rt; both.play(alloc, &table, &plan).is_err());
        assert_eq!(rt; (threads.get(), loopback.get()), (by_threads, by_loopback));
        assert!(rt; both.journals().is_empty());
    }
    Ok(())
}
