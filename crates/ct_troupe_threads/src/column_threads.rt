//! A troupe of columns in threads.
ghost use Rattle.std.specs.Prelude.{◌≡◌, ◌≤◌, false, All, length};
ghost use Rattle.std.specs.List.{list_all};
ghost use Rattle.std.specs.Thread.{IsSync};
ghost use Rattle.ct_call.specs.Shown.{rules_of};
ghost use Rattle.ct_outside.specs.Told.{RisesWhere};
ghost use Rattle.ct_script.specs.Sound.{IsSound};
ghost use Rattle.ct_troupe.specs.Both.{journals_by};
ghost use Rattle.ct_troupe.specs.Played as played;
ghost use Rattle.ct_troupe.specs.Stages.{AllHaveArrived};
ghost use Rattle.ct_troupe.specs.Columns.{HavePlayed};
ghost use Rattle.ct_troupe_threads.specs.Sides as sides;

use crate::column::Column;
use crate::column_gate::ColumnGate;
use crate::gate::ThreadGate;
use crate::loopback::Loopback;
use crate::threads::Threads;
use ct_call::table::CallTable;
use ct_journal::journal::Journal;
use ct_script::plan::Plan;
pub use ct_troupe::both::Both;
pub use ct_troupe::columns::Columns;
pub use ct_troupe::troupe::{PlayFault, Troupe};
use std::alloc::Global;
use std::net::{Net, TcpListener, TcpStream};
use std::sync::Wait;
use std::thread::Threads as Spawns;

/// Plays columns side by side, each in a thread of its own, and in it each of its nodes in one: node n of a column passes its gate n.
/// They are played so whether or not the nodes of a plan are to talk over sockets. A single plan it hands on to `both`.
#[derive(Drop)]
pub struct ColumnThreads<R, G> {
    rt: R,
    both: Both<Threads<R, G>, Loopback<R>>,
    columns: Vec<Column<G>>,
    /// How many of the first columns have journals.
    played: usize,
    ghost eight: { length columns.items ≡ 8 },
}

impl<R: Drop, G: Drop> ColumnThreads<R, G> {
    /// No columns were played, whatever the eight have played before. It takes no memory.
    pub fn new(
        rt: R,
        both: Both<Threads<R, G>, Loopback<R>>,
        columns: Vec<Column<G>>,
    ) -> ColumnThreads<R, G>
        requires { length columns.items ≡ 8 }
        ensures both { result.both ≡ both }
        ensures columns { result.columns ≡ columns }
        ensures played { result.played ≡ 0 }
    {
        ColumnThreads {
            rt,
            both,
            columns,
            played: 0,
        }
    }
}

/// Have the last plays of these columns all come to their end?
fn have_ended<G>(columns: &[Column<G>]) -> bool
    ensures { result ≡ list_all sides.has_ended columns.now }
{
    columns.iter().all(|column| column.ended.is_ok())
}

impl<R, G> ColumnThreads<R, G> {
    /// Where none of the column's journals has 1,000,000 entries, each message that was sent in it has arrived.
    #[tactic(auto, using(ct_troupe::proofs::Ending::none_left), unfolding(crate::specs::Sides::journals_in, crate::specs::Sides::or_no_journals))]
    pub fn all_have_arrived(&self, number: u32)
        ensures { AllHaveArrived (sides.journals_in self.now.columns.items self.now.played number) }
    {
        if (number as usize) < self.played {
            if let Some(column) = self.columns.get(number as usize) {
                column.last.all_have_arrived();
            }
        }
    }
}

impl<
    R: Spawns + Wait + Sync + Net<Listener = TcpListener, Stream = TcpStream>,
    G: ThreadGate,
> Troupe for ColumnThreads<R, G> {
    /// Those of `both`.
    ghost told = { λ t. journals_by t.both.last t.both.threads t.both.loopback.journals };

    /// Those of `both`, of which the threads never fail.
    ghost faults = { λ t. t.both.loopback.faults };

    ghost ready = { λ _. IsSync R.row };

    /// As `both` does. The columns stay as they are. It never fails where the nodes are not to talk over sockets, but for want of
    /// memory.
    fn play(&mut self, alloc: Global, table: &CallTable, plan: &Plan) -> Result<(), PlayFault>
        requires sound { IsSound plan.now }
        requires ready { IsSync R.row }
        ensures played { played.HasPlayed (rules_of table.now) plan.now result (journals_by self.new.both.last self.new.both.threads self.new.both.loopback.journals) }
        ensures cause { RisesWhere (played.is_link_fault result) self.old.both.loopback.faults self.new.both.loopback.faults }
        ensures faultless { plan.now.net ≡ false → self.new.both.loopback.faults ≡ self.old.both.loopback.faults }
        ensures columns { sides.journals_in self.new.columns.items self.new.played ≡ sides.journals_in self.old.columns.items self.old.played }
    {
        self.both.play(alloc, table, plan)
    }

    fn journals(&self) -> &[Journal] {
        self.both.journals()
    }
}

impl<R: Spawns + Wait + Sync, G: ColumnGate> Columns for ColumnThreads<R, G> {
    ghost told_in = { λ t. sides.journals_in t.columns.items t.played };

    /// None of the columns fails: where what its threads did is no play of its plan, it is played again.
    ghost column_faults = { λ _. 0 };

    /// The threads share the runtime.
    ghost columns_ready = { λ _. IsSync R.row };

    /// Only want of memory refuses it, which is told after all threads have ended. `both` stays as it is.
    #[tactic(auto, using(crate::proofs::Ending::are_played, crate::proofs::Ending::none_played))]
    fn play_all(
        &mut self,
        alloc: Global,
        table: &CallTable,
        plans: &[Plan],
    ) -> Result<(), PlayFault>
        requires few { length plans.now ≤ 8 }
        requires sound { All IsSound plans.now }
        requires ready { IsSync R.row }
        ensures played { HavePlayed (rules_of table.now) plans.now result (sides.journals_in self.new.columns.items self.new.played) }
        ensures cause { RisesWhere (played.is_link_fault result) 0 0 }
        ensures both { self.new.both ≡ self.old.both }
    {
        self.played = 0;
        G::play_columns(&self.rt, alloc, table, plans, self.columns.as_mut_slice());
        if !have_ended(&self.columns[..plans.len()]) {
            return Err(PlayFault::NoMemory);
        }
        self.played = plans.len();
        Ok(())
    }

    #[tactic(auto, unfolding(crate::specs::Sides::journals_in, crate::specs::Sides::or_no_journals))]
    fn column(&self, number: u32) -> &[Journal] {
        if (number as usize) < self.played {
            match self.columns.get(number as usize) {
                Some(column) => column.last.journals(),
                None => &[],
            }
        } else {
            &[]
        }
    }
}

/// A play of columns in threads never fails for another reason than want of memory.
pub fn columns_never_fail<R: Spawns + Wait + Sync, G: ColumnGate>(threads: &ColumnThreads<R, G>)
    ensures { ⟦<ColumnThreads<R, G> as Columns>⟧.column_faults threads.now ≡ 0 }
{}
