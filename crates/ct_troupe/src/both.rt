//! Two troupes as one.
ghost use Rattle.std.specs.Prelude.{◌≡◌, ◌+◌};
ghost use Rattle.ct_troupe.specs.Both as both;
ghost use Rattle.ct_troupe.specs.declared.both.Last.{Last as Played};
ghost use Rattle.ct_troupe.specs.declared.both.Last.TheVariants as last;
ghost use Rattle.ct_call.specs.Shown.{rules_of};
ghost use Rattle.ct_outside.specs.Told.{RisesWhere};
ghost use Rattle.ct_script.specs.Sound.{IsSound};
ghost use Rattle.ct_troupe.specs.Played as played;

use crate::troupe::{PlayFault, Troupe};
use ct_call::table::CallTable;
use ct_journal::journal::Journal;
use ct_script::plan::Plan;
use std::alloc::Global;

/// Who played last.
#[derive(Clone, Copy, Debug, PartialEq, Eq)]
pub enum Last {
    Nobody,
    Threads,
    Loopback,
}

/// Has `loopback` play the plans whose nodes are to talk over sockets, and `threads` all others.
#[derive(Drop)]
pub struct Both<T, L> {
    threads: T,
    loopback: L,
    last: Last,
}

impl<T: Drop, L: Drop> Both<T, L> {
    /// No plan was played, whatever the two have played before.
    pub fn new(threads: T, loopback: L) -> Both<T, L>
        ensures { result ≡ record { threads = threads; loopback = loopback; last = last.Nobody } }
    {
        Both {
            threads,
            loopback,
            last: Last::Nobody,
        }
    }
}

impl<T: Troupe, L: Troupe> Troupe for Both<T, L> {
    /// Those of whoever played last.
    ghost told = { λ b. both.journals_by b.last (T.told b.threads) (L.told b.loopback) };

    /// Those of both.
    ghost faults = { λ b. T.faults b.threads + L.faults b.loopback };

    /// What both ask.
    ghost ready = { λ b. T.ready b.threads × L.ready b.loopback };

    /// The other troupe stays as it was.
    #[tactic(auto, using(crate::proofs::Counting::rises_before, crate::proofs::Counting::rises_behind))]
    fn play(&mut self, alloc: Global, table: &CallTable, plan: &Plan) -> Result<(), PlayFault>
        requires sound { IsSound plan.now }
        requires ready { T.ready self.old.threads × L.ready self.old.loopback }
        ensures played { played.HasPlayed (rules_of table.now) plan.now result (both.journals_by self.new.last (T.told self.new.threads) (L.told self.new.loopback)) }
        ensures cause { RisesWhere (played.is_link_fault result) (T.faults self.old.threads + L.faults self.old.loopback) (T.faults self.new.threads + L.faults self.new.loopback) }
        ensures last { self.new.last ≡ both.player_of plan.now.net }
        ensures aside { both.StaysAside plan.now.net self.old.threads self.new.threads self.old.loopback self.new.loopback }
    {
        if plan.net {
            self.last = Last::Loopback;
            self.loopback.play(alloc, table, plan)
        } else {
            self.last = Last::Threads;
            self.threads.play(alloc, table, plan)
        }
    }

    fn journals(&self) -> &[Journal] {
        match self.last {
            Last::Nobody => &[],
            Last::Threads => self.threads.journals(),
            Last::Loopback => self.loopback.journals(),
        }
    }
}
