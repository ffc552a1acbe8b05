//! A troupe of nodes that are joined by TCP.
ghost use Rattle.std.specs.Prelude.{◌≡◌, [], Err};
ghost use Rattle.std.specs.Thread.{IsSync};
ghost use Rattle.ct_outside.specs.Told.{RisesWhere};
ghost use Rattle.ct_call.specs.Shown.{rules_of};
ghost use Rattle.ct_links.specs.Streams.{more_where};
ghost use Rattle.ct_script.specs.Sound.{IsSound};
ghost use Rattle.ct_troupe.specs.Played as played;
ghost use Rattle.ct_troupe_threads.specs.Meshed.{AllHadTurns};

use crate::meshed::{NodeEnds, join_nodes, play_over_streams};
use ct_call::table::CallTable;
use ct_journal::journal::Journal;
use ct_links::link::LinkTally;
use ct_script::plan::Plan;
use ct_troupe::troupe::{PlayFault, Troupe};
use ct_values::items::Items;
use std::alloc::Global;
use std::net::{Net, TcpListener, TcpStream};
use std::sync::Wait;
use std::thread::Threads as Spawns;

/// How many turns a node has.
pub const TURNS: u64 = 1_000_000;

/// Plays plans with one thread a node, where the nodes are joined by TCP over this machine. Each node has `TURNS` turns, and all
/// streams stay open until each has had them. Its count of faults stops at 2^64 - 1.
#[derive(Drop)]
pub struct Loopback<R> {
    rt: R,
    journals: Items<Journal>,
    tallies: Items<LinkTally>,
    faults: u64,
}

impl<R> Loopback<R> {
    /// No plan was played. It takes no memory.
    pub fn new(rt: R, alloc: Global) -> Loopback<R>
        ensures journals { result.journals ≡ [] }
        ensures tallies { result.tallies ≡ [] }
        ensures faults { result.faults ≡ 0 }
    {
        Loopback {
            rt,
            journals: Items::empty(alloc),
            tallies: Items::empty(alloc),
            faults: 0,
        }
    }

    /// What the link of each node answered in the last play, in the order of the nodes: none before the first play, and after one
    /// that was refused.
    pub fn tallies(&self) -> &[LinkTally]
        ensures { result.now ≡ self.now.tallies }
    {
        self.tallies.as_slice()
    }

    /// Counts the fault of a play, where it is `Link`, and hands it on.
    fn refused(&mut self, fault: PlayFault) -> PlayFault
        ensures same { result ≡ fault }
        ensures journals { self.new.journals ≡ self.old.journals }
        ensures tallies { self.new.tallies ≡ self.old.tallies }
        ensures cause { RisesWhere (played.is_link_fault (Err result)) self.old.faults self.new.faults }
        ensures counts { self.new.faults ≡ more_where (played.is_link_fault (Err fault)) self.old.faults }
    {
        if let PlayFault::Link = fault {
            self.faults = self.faults.saturating_add(1);
        }
        fault
    }
}

impl<R: Spawns + Wait + Sync + Net<Listener = TcpListener, Stream = TcpStream>> Troupe
    for Loopback<R> {
    ghost told = { λ t. t.journals };

    ghost faults = { λ t. t.faults };

    /// The threads share the runtime.
    ghost ready = { λ _. IsSync R.row };

    /// `Link` is answered where the system would not join the nodes, where a node could not serve to its end, and where the
    /// journals are not in order. It is counted. Else each node had all its turns, or its link answered the end.
    fn play(&mut self, alloc: Global, table: &CallTable, plan: &Plan) -> Result<(), PlayFault>
        requires sound { IsSound plan.now }
        requires ready { IsSync R.row }
        ensures played { played.HasPlayed (rules_of table.now) plan.now result self.new.journals }
        ensures cause { RisesWhere (played.is_link_fault result) self.old.faults self.new.faults }
        ensures turns { AllHadTurns plan.now result self.new.tallies }
    {
        self.journals = Items::empty(alloc);
        self.tallies = Items::empty(alloc);
        let streams = match join_nodes(&self.rt, alloc, plan) {
            Ok(streams) => streams,
            Err(fault) => return Err(self.refused(fault)),
        };
        match play_over_streams(&self.rt, alloc, table, plan, streams.as_slice()) {
            Ok(NodeEnds { journals, tallies }) => {
                self.journals = Items::new(journals);
                self.tallies = Items::new(tallies);
                Ok(())
            }
            Err(fault) => Err(self.refused(fault)),
        }
    }

    fn journals(&self) -> &[Journal] {
        self.journals.as_slice()
    }
}
