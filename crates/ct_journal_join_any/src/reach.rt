//! How far steps are made: they make entries of journals one by one, as long as one may be made.
ghost use Rattle.std.specs.Prelude.{◌≡◌, ◌<◌, ◌≤◌, ◌^◌, ℕ, Some, None, true, false, length, IfOk, OnOk, MatchOption};
ghost use Rattle.ct_call.specs.Rules.{Rules};
ghost use Rattle.ct_call.specs.Shown.{rules_of};
ghost use Rattle.ct_journal.specs.Order.{entries_of};
ghost use Rattle.ct_law_journal_reach.specs.Counts as counts;
ghost use Rattle.ct_law_journal_reach.specs.Laws.{NoneMayGo};
ghost use Rattle.ct_law_journal_reach.specs.Making as making;
ghost use Rattle.ct_rules_config.specs.Configured.{IsConfig};
ghost use Rattle.ct_journal_join_any.specs.Going.{GoesWith};
ghost use Rattle.ct_journal_join_any.specs.Reaching as reaching;

use crate::going::number_to_go;
use crate::making::{steps_to_go, take_all};
use ct_call::table::CallTable;
use ct_frame::event::Event;
use ct_journal::journal::{Journal, JournalEntry};
use ct_rules_cluster::step::Step;
use ct_values::config::Config;
use ct_values::memory::NoMemory;
use ct_world::world::World;
use std::alloc::Global;

/// For each pair of nodes, the number behind that of the last message that came from the one to the other: there a search for the
/// next one begins.
#[derive(Drop)]
struct Hints {
    nodes: usize,
    numbers: Vec<u64>,
}

impl Hints {
    /// For so many nodes.
    fn new(alloc: Global, nodes: usize) -> Result<Hints, NoMemory> {
        Ok(Hints {
            nodes,
            numbers: Vec::from_elem(alloc, 1, nodes.saturating_mul(nodes))?,
        })
    }

    /// Where the number for two nodes stands.
    fn place(&self, sender: u32, receiver: u32) -> usize {
        let row = (sender as usize).saturating_mul(self.nodes);
        row.saturating_add(receiver as usize)
    }

    /// Where a search for a message begins; for another event it is no matter.
    fn hint(&self, node: u32, event: &Event) -> u64 {
        let Event::Arrive(frame) = event else {
            return 1;
        };
        match self.numbers.get(self.place(frame.sender, node)) {
            Some(number) => *number,
            None => 1,
        }
    }

    /// An event has come to the node, with the message of this number.
    fn note(&mut self, node: u32, event: &Event, number: u64) {
        let Event::Arrive(frame) = event else {
            return;
        };
        let place = self.place(frame.sender, node);
        if place < self.numbers.len() {
            self.numbers[place] = number.saturating_add(1);
        }
    }
}

/// How far steps are made: the cluster after them, the steps, and how many entries of each journal they make.
#[derive(Drop)]
pub struct Reach {
    pub(crate) world: World,
    pub(crate) steps: Vec<Step>,
    pub(crate) taken: Vec<u64>,
    hints: Hints,
    alloc: Global,
}

/// How many entries of a node are made.
#[tactic(auto, unfolding(ct_law_journal_reach::specs::Counts::count_at, ct_rules_node::specs::Node::or_zero))]
fn count_at(taken: &[u64], node: u32) -> u64
    ensures { result ≡ counts.count_at taken.now node }
{
    match taken.get(node as usize) {
        Some(count) => *count,
        None => 0,
    }
}

/// The entries of a node, and none where there is none.
#[tactic(auto, unfolding(ct_journal::specs::Order::entries_of, ct_journal::specs::Order::or_no_entries))]
fn entries_of(journals: &[Journal], node: u32) -> &[JournalEntry]
    ensures { result.now ≡ entries_of journals.now node }
{
    match journals.get(node as usize) {
        Some(journal) => journal.entries.as_slice(),
        None => &[],
    }
}

impl Reach {
    /// No steps are made, of journals of so many nodes.
    #[tactic(auto, using(crate::proofs::Reached::none_made))]
    pub fn new(alloc: Global, config: &Config, journals: &[Journal]) -> Result<Reach, NoMemory>
        requires { IsConfig config.now }
        ensures same { IfOk result (λ r. r.world.config ≡ config.now) }
        ensures made { IfOk result (λ r. (rules : Rules) → making.HasMade r.world.config rules journals.now r.steps.items r.world.cluster r.taken.items) }
    {
        Ok(Reach {
            world: World::new(alloc, config)?,
            steps: Vec::new(alloc),
            taken: Vec::from_elem(alloc, 0, journals.len())?,
            hints: Hints::new(alloc, journals.len())?,
            alloc,
        })
    }

    /// The next entry of a node.
    #[tactic(auto, unfolding(ct_law_journal_reach::specs::Counts::entry_after))]
    fn next_entry<'a>(&self, journals: &'a [Journal], node: u32) -> Option<&'a JournalEntry>
        ensures { MatchOption result (counts.entry_after journals.now self.now.taken.items node ≡ None) (λ x. counts.entry_after journals.now self.now.taken.items node ≡ Some x.now) }
    {
        let count = count_at(self.taken.as_slice(), node);
        entries_of(journals, node).get(count as usize)
    }

    /// The number with which the next entry of a node, which has this event, may be made; none where it may not.
    fn number_to_go(
        &self,
        table: &CallTable,
        journals: &[Journal],
        node: u32,
        event: &Event,
    ) -> Option<u64>
        requires { reaching.HasReached (rules_of table.now) journals.now self.now }
        ensures { GoesWith self.now.world.config journals.now self.now.world.cluster self.now.taken.items node event.now result }
    {
        let count = count_at(self.taken.as_slice(), node);
        let past = &entries_of(journals, node)[..count as usize];
        number_to_go(&self.world, past, node, event, self.hints.hint(node, event))
    }

    /// Makes the next entry of a node, which may be made with this number.
    fn make(
        &mut self,
        table: &CallTable,
        journals: &[Journal],
        node: u32,
        entry: &JournalEntry,
        number: u64,
    ) -> Result<(), NoMemory>
        requires reached { reaching.HasReached (rules_of table.now) journals.now self.old }
        requires next { counts.entry_after journals.now self.old.taken.items node ≡ Some entry.now }
        requires may { making.MayGo self.old.world.config journals.now self.old.world.cluster self.old.taken.items node entry.now.event number }
        ensures { OnOk result (reaching.ReachesOn (rules_of table.now) journals.now self.old self.new) }
    {
        let mut steps = steps_to_go(self.alloc, &self.world, node, &entry.event, number)?;
        take_all(&mut self.world, table, steps.as_slice())?;
        self.steps.append(&mut steps)?;
        let count = count_at(self.taken.as_slice(), node);
        self.taken[node as usize] = count + 1;
        self.hints.note(node, &entry.event, number);
        Ok(())
    }

    /// Makes the next entry of a node, where it may be made. Was it made? Where not, nothing is changed.
    fn make_next(
        &mut self,
        table: &CallTable,
        journals: &[Journal],
        node: u32,
    ) -> Result<bool, NoMemory>
        requires { reaching.HasReached (rules_of table.now) journals.now self.old }
        ensures { IfOk result (λ some. reaching.Reaches (rules_of table.now) journals.now (reaching.IsHeldAt journals.now self.old node) some self.old self.new) }
    {
        let Some(entry) = self.next_entry(journals, node) else {
            return Ok(false);
        };
        let Some(number) = self.number_to_go(table, journals, node, &entry.event) else {
            return Ok(false);
        };
        self.make(table, journals, node, entry, number)?;
        Ok(true)
    }

    /// Makes entries of a node as long as the next one may be made. Was one made? Where not, nothing is changed.
    fn make_node(
        &mut self,
        table: &CallTable,
        journals: &[Journal],
        node: u32,
    ) -> Result<bool, NoMemory>
        requires { reaching.HasReached (rules_of table.now) journals.now self.old }
        ensures { IfOk result (λ some. reaching.Reaches (rules_of table.now) journals.now (reaching.IsHeldAt journals.now self.old node) some self.old self.new) }
    {
        let some = self.make_next(table, journals, node)?;
        let mut more = some;
        while more {
            more = self.make_next(table, journals, node)?;
        }
        Ok(some)
    }

    /// Makes entries of one node after the other, of each as long as the next one may be made. Was one made? Where not, nothing is
    /// changed, and no next entry may be made.
    fn make_round(&mut self, table: &CallTable, journals: &[Journal]) -> Result<bool, NoMemory>
        requires { reaching.HasReached (rules_of table.now) journals.now self.old }
        ensures { IfOk result (λ some. reaching.Reaches (rules_of table.now) journals.now (NoneMayGo self.old.world.config journals.now self.old.world.cluster self.old.taken.items) some self.old self.new) }
    {
        let nodes = self.world.config().nodes;
        let mut some = false;
        for node in 0..nodes {
            let more = self.make_node(table, journals, node)?;
            some = some || more;
        }
        Ok(some)
    }

    /// Makes entries until no next one may be made.
    pub fn make_all(&mut self, table: &CallTable, journals: &[Journal]) -> Result<(), NoMemory>
        requires { reaching.HasReached (rules_of table.now) journals.now self.old }
        ensures reached { OnOk result (reaching.HasReached (rules_of table.now) journals.now self.new) }
        ensures same { OnOk result (self.new.world.config ≡ self.old.world.config) }
        ensures held { OnOk result (NoneMayGo self.new.world.config journals.now self.new.world.cluster self.new.taken.items) }
    {
        let mut some = true;
        while some {
            some = self.make_round(table, journals)?;
        }
        Ok(())
    }

    /// Are all entries made?
    pub fn has_all(&self, journals: &[Journal]) -> bool
        requires size { length self.now.taken.items ≡ length journals.now }
        requires few { length journals.now < 2 ^ 32 }
        requires within { (n : ℕ) → counts.count_at self.now.taken.items n ≤ length (entries_of journals.now n) }
        ensures all { result ≡ true → counts.AreAll journals.now self.now.taken.items }
        ensures less { result ≡ false → (n : ℕ) × (counts.count_at self.now.taken.items n < length (entries_of journals.now n)) }
    {
        for node in 0..journals.len() {
            let entries = entries_of(journals, node as u32);
            if count_at(self.taken.as_slice(), node as u32) < entries.len() as u64 {
                return false;
            }
        }
        true
    }
}
