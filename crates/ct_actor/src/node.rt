//! One node and its journal.
ghost use Rattle.std.specs.Prelude.{◌≡◌, ◌<◌, ◌∷◌, ◌++◌, [], true, IfErr, IfOk, OnErr, OnOk, vec_capacity, vec_len};
ghost use Rattle.std.specs.List.{list_all};
ghost use Rattle.ct_call.specs.Rules.{Rules};
ghost use Rattle.ct_call.specs.Shown.{rules_of};
ghost use Rattle.ct_actor.specs.Journalled as journalled;
ghost use Rattle.ct_law_form.specs.Whole.{HasLimits, is_sound_out};
ghost use Rattle.ct_rules_node.specs.Coming.{may_come};
ghost use Rattle.ct_rules_node.specs.Steps.{stepped};

use ct_call::table::CallTable;
use ct_core::machine::Core;
use ct_frame::event::{Event, Out};
use ct_journal::journal::{Journal, JournalEntry};
use ct_node_state::turn::CoreFault;
use ct_values::config::Config;
use ct_values::items::Items;
use ct_values::memory::NoMemory;
use std::alloc::Global;
use std::marker::Model;

/// A node with its journal. It is run by the rules of a table where its entries are a run by these rules, from the opening
/// of its node to the state that its core is in.
pub struct Node {
    core: Core,
    entries: Vec<JournalEntry>,
}

impl Drop for Node {
    /// All that it holds is let go.
    fn drop(self) {
        let Node {
            core: _,
            entries: _,
        } = self;
    }
}

impl Model for Node {
    ghost use Rattle.ct_actor.specs.Journalled.{Journalled};

    ghost Value = { Journalled };

    ghost view = { λ n. record { core = n.core; entries = n.entries.items } };
}

impl Node {
    /// The node of this number at the opening of a cluster, with no entry. It is run by every table.
    #[tactic(auto, using(crate::proofs::Running::starts_run))]
    pub fn new(alloc: Global, pnn: u32, config: &Config) -> Result<Node, NoMemory>
        requires node { pnn < config.now.nodes }
        requires limits { HasLimits config.now }
        ensures at_opening { IfOk result (λ x. x ≡ journalled.at_opening pnn config.now) }
        ensures run { IfOk result (λ x. (rules : Rules) → journalled.IsRunBy rules x) }
    {
        match Core::new(alloc, pnn, config) {
            Ok(core) => Ok(Node {
                core,
                entries: Vec::new(alloc),
            }),
            Err(NoMemory) => Err(NoMemory),
        }
    }

    /// Gives the node an event that may come to it. The journal has one entry more: this event, and what the node then does.
    /// A step that is refused changes nothing. A node that is run by the table still is.
    #[tactic(auto, using(crate::proofs::Running::step_runs, crate::proofs::Running::put_all))]
    pub fn feed(&mut self, table: &CallTable, event: Event) -> Result<(), CoreFault>
        requires { may_come self.old.core.config self.old.core.pnn self.old.core.node event ≡ true }
        ensures fed { journalled.IsFed result event (stepped self.old.core.config (rules_of table.now) self.old.core.pnn event self.old.core.node) self.old self.new }
        ensures run { journalled.IsRunBy (rules_of table.now) self.old → journalled.IsRunBy (rules_of table.now) self.new }
        ensures sound { OnOk result (list_all (is_sound_out self.old.core.config self.old.core.pnn) (journalled.last_outs self.new.entries) ≡ true) }
    {
        if self.entries.reserve(1).is_err() {
            return Err(CoreFault::NoMemory);
        }
        let mut outs = self.core.step(table, &event)?;
        // A journal grows long, and most steps do one thing.
        outs.shrink_to_fit();
        self.entries.push_reserved(JournalEntry {
            event,
            outs: Items::new(outs),
        });
        Ok(())
    }

    /// The node as it is now.
    pub fn core(&self) -> &Core
        ensures { result.now ≡ self.now.core }
    {
        &self.core
    }

    /// What it was given and did, in order.
    pub fn entries(&self) -> &[JournalEntry]
        ensures { result.now ≡ self.now.entries }
    {
        self.entries.as_slice()
    }

    /// What it did last. A node without an entry did nothing.
    pub fn last_outs(&self) -> &[Out]
        ensures { result.now ≡ journalled.last_outs self.now.entries }
    {
        match self.entries.as_slice().last() {
            Some(entry) => entry.outs.as_slice(),
            None => &[],
        }
    }

    /// Its journal. The node ends.
    pub fn into_journal(self) -> Journal
        ensures { result ≡ record { node = self.core.pnn; entries = self.entries } }
    {
        let node = self.core.pnn();
        let Node { core: _, entries } = self;
        Journal {
            node,
            entries: Items::new(entries),
        }
    }
}
