//! What a node has and knows. No call but those of lists takes memory.
ghost use Rattle.std.specs.Prelude.{◌≡◌, ◌++◌, IfOk, OnOk, None, Some, if◌then◌else◌, map, option_copied};
ghost use Rattle.std.specs.Map.Iter.{deref_pair};
ghost use Rattle.ct_values.specs.Address.{same_address};
ghost use Rattle.ct_rules_cluster.specs.Cluster.{pending_in};
ghost use Rattle.ct_rules_cluster.specs.Faults.{leads};
ghost use Rattle.ct_lead.specs.Member.{told_in};
ghost use Rattle.ct_node_view.specs.Had.{copies_of, entries_of};
ghost use Rattle.ct_rules_node.specs.Node.{db_at, is_persistent, is_serving, kind_at, state_at};
ghost use Rattle.ct_rules_node.specs.Numbered.{by_number};
ghost use Rattle.ct_rules_node.specs.Rounds.{rows_of};
ghost use Rattle.ct_rules_node.specs.Takeovers.{has_address};

use crate::machine::Core;
use ct_frame::frame::{Assigned, TableRow};
use ct_frame::header::RecCopy;
use ct_frame::round::Phase;
use ct_node_state::kinds::{is_persistent, kind_at};
use ct_node_state::phases::is_serving;
use ct_node_view::pending::{add_pending, pending};
use ct_node_view::{entries, rows};
use ct_persist::store::PStore;
use ct_rules_cluster::step::PendingCall;
use ct_values::address::Address;
use ct_values::config::Config;
use ct_values::key::Key;
use ct_values::memory::NoMemory;

fn is_same(a: Address, b: Address) -> bool
    ensures { result ≡ same_address a b }
{
    a == b
}

impl Core {
    /// Its number.
    pub fn pnn(&self) -> u32
        ensures { result ≡ self.now.pnn }
    {
        self.pnn
    }

    /// The configuration.
    pub fn config(&self) -> &Config
        ensures { result.now ≡ self.now.config }
    {
        &self.config
    }

    /// Its generation, or 0 for none.
    pub fn generation(&self) -> u64
        ensures { result ≡ self.now.node.generation }
    {
        self.node.member.generation()
    }

    /// Its phase, with the generation that it is of.
    pub fn phase(&self) -> Phase
        ensures { result ≡ told_in self.now.node.phase self.now.node.generation }
    {
        self.node.member.phase()
    }

    /// Does it serve clients?
    pub fn serving(&self) -> bool
        ensures { result ≡ is_serving self.now.node.phase }
    {
        is_serving(self.node.member)
    }

    /// Does it lead its own generation, with the round completed?
    #[tactic(auto, using(crate::proofs::Leading::leads_so))]
    pub fn leads(&self) -> bool
        ensures { result ≡ leads self.now.node.generation self.now.node.lead }
    {
        self.node
            .lead
            .is_completed_in(self.node.member.generation())
    }

    /// The members of its generation, ascending.
    pub fn members(&self) -> &[u32]
        ensures { result.now ≡ self.now.node.members }
    {
        self.node.members.as_slice()
    }

    /// Who pushed what it installed last.
    pub fn leader(&self) -> Option<u32>
        ensures { result ≡ self.now.node.leader }
    {
        self.node.leader
    }

    /// Where it knows each address to be.
    pub fn placement(&self) -> &[Assigned]
        ensures { result.now ≡ self.now.node.placement }
    {
        self.node.placement.as_slice()
    }

    /// Does it hold the address?
    #[tactic(auto, unfolding(ct_rules_node::specs::Takeovers::has_address))]
    pub fn holds_address(&self, address: Address) -> bool
        ensures { result ≡ has_address self.now.node.held address }
    {
        self.node.holder.held().iter().any(|a| is_same(address, *a))
    }

    /// Its copy of a record, where it has one.
    #[tactic(auto, unfolding(ct_rules_node::specs::Node::or_nothing))]
    pub fn copy_of(&self, db: u32, key: &Key) -> Option<&RecCopy>
        ensures { option_copied result ≡ (state_at db key.now self.now.node).copy }
    {
        match self.node.record(db, key) {
            Some(state) => match &state.copy {
                Some(copy) => Some(copy),
                None => None,
            },
            None => None,
        }
    }

    /// What it has of a persistent database. Any other number has nothing.
    #[tactic(auto, using(crate::proofs::Everyone::no_store), unfolding(ct_rules_node::specs::Node::db_at, ct_rules_node::specs::Node::or_untouched))]
    pub fn pstore(&self, db: u32) -> Option<&PStore>
        ensures { option_copied result ≡ (if is_persistent (kind_at self.now.config db) then Some (db_at db self.now.node).store else None) }
    {
        let Some(database) = self.node.database(db) else {
            return None;
        };
        if is_persistent(kind_at(&self.config, db)) {
            Some(database.store())
        } else {
            None
        }
    }

    /// Its copies of the records of a database, by key. A number that is no database has none.
    pub fn copies(&self, db: u32) -> Result<Vec<(&Key, &RecCopy)>, NoMemory>
        ensures { IfOk result (λ copies. map deref_pair copies.items ≡ copies_of (db_at db self.now.node).records) }
    {
        entries::copies(db, &self.node)
    }

    /// A row for each of its copies of the records of a database, by key, as it tells them in a round.
    pub fn rows(&self, db: u32) -> Result<Vec<TableRow>, NoMemory>
        ensures { IfOk result (λ rows. rows.items ≡ rows_of self.now.pnn db (db_at db self.now.node).records) }
    {
        rows::rows(self.pnn, db, &self.node)
    }

    /// A row for each of its entries in a database, by key: the least RSN and the value, and no data master.
    pub fn entries(&self, db: u32) -> Result<Vec<TableRow>, NoMemory>
        ensures { IfOk result (λ rows. rows.items ≡ entries_of db (db_at db self.now.node).records) }
    {
        entries::entries(db, &self.node)
    }
    /// Puts the client calls that wait here behind these, by record: those of a database by key, and then its commit.
    #[tactic(auto, using(crate::proofs::Few::few_dbs))]
    pub fn add_pending(&self, calls: &mut Vec<PendingCall>) -> Result<(), NoMemory>
        ensures { OnOk result (calls.new.items ≡ calls.old.items ++ pending_in self.now.pnn 0 self.now.node.dbs) }
    {
        add_pending(calls, self.pnn, &self.node)
    }

    /// The client calls that wait here, by number.
    #[tactic(auto, using(crate::proofs::Few::few_dbs))]
    pub fn pending(&self) -> Result<Vec<PendingCall>, NoMemory>
        ensures { IfOk result (λ v. v.items ≡ by_number (λ x. x.call) (pending_in self.now.pnn 0 self.now.node.dbs)) }
    {
        pending(self.pnn, &self.node)
    }
}
