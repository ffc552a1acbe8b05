//! The middle of a vacuum.
ghost use Rattle.std.specs.Prelude.{◌≡◌, ◌++◌, ◌∷◌, [], ◌<◌, ◌^◌, true, IfOk, OnOk, length};
ghost use Rattle.std.specs.List.Sorted.{IsStrictlyIncreasing};
ghost use Rattle.ct_values.specs.Words.{others};
ghost use Rattle.ct_node_database.specs.Noted.{is_deleted};
ghost use Rattle.ct_rules.specs.State.{rsn_of};
ghost use Rattle.ct_rules_node.specs.Node.{db_at, or_nothing, state_at};
ghost use Rattle.ct_rules_node.specs.Records.{acted, place_of, view};
ghost use Rattle.ct_node_plan.specs.Handed.{Goes};
ghost use Rattle.ct_node_plan_records.specs.Keys.{is_deleted_at, vacuum_key};
ghost use Rattle.ct_node_plan_records.specs.Walked.{IsMiddle, after_key, node_so_far, so_far};

use ct_frame::event::Out;
use ct_frame::header::{NONE, RecCopy};
use ct_node_plan::change::Left;
use ct_node_plan::handed::{CoreFault, Node, outs_of};
use ct_record::moves;
use ct_record_parts::draft::Draft;
use ct_rules::event::Place;
use ct_values::config::Config;
use ct_values::items::Items;
use ct_values::key::Key;
use ct_values::memory::NoMemory;

/// What a vacuum left of the records so far, in order, with the node's next request number and the floor of the database,
/// and what it did.
#[derive(Drop)]
pub struct Walk {
    pub next: u64,
    pub floor: u64,
    pub left: Items<Left>,
    pub outs: Items<Out>,
}

/// Has a copy that was not given away the empty value?
#[tactic(auto, unfolding(ct_node_database::specs::Noted::is_deleted))]
fn is_deleted(copy: &Option<RecCopy>) -> bool
    ensures { result ≡ is_deleted copy.now }
{
    match copy {
        Some(copy) => copy.header.dmaster != NONE && copy.value.bytes().is_empty(),
        None => false,
    }
}

/// Is the record of this key a deleted one?
#[tactic(auto, unfolding(ct_rules_node::specs::Node::or_nothing, ct_node_database::specs::Noted::is_deleted))]
fn is_deleted_at(node: &Node, db: u32, key: &Key) -> bool
    ensures { result ≡ is_deleted_at db node.now key.now }
{
    match node.record(db, key) {
        Some(state) => is_deleted(&state.copy),
        None => false,
    }
}

/// This is left after all else.
fn add(left: &mut Items<Left>, one: Left) -> Result<(), NoMemory>
    ensures { OnOk result (left.new ≡ left.old ++ one ∷ []) }
{
    left.push(one)?;
    Ok(())
}

impl Walk {
    /// It begins.
    pub fn begins(db: u32, node: &Node) -> Walk
        ensures { result ≡ record { next = node.now.next; floor = (db_at db node.now).floor; left = []; outs = [] } }
    {
        Walk {
            next: node.next,
            floor: node.floor_at(db),
            left: Items::empty(node.alloc),
            outs: Items::empty(node.alloc),
        }
    }

    /// Where a record is looked at then.
    #[tactic(auto, using(crate::proofs::Left::members_left), unfolding(ct_rules_node::specs::Records::place_of))]
    fn place_of(
        &self,
        config: &Config,
        me: u32,
        db: u32,
        key: &Key,
        node: &Node,
    ) -> Result<Place, NoMemory>
        requires { IsMiddle db node.now self.now }
        ensures { IfOk result (λ p. p ≡ place_of config.now me db key.now (node_so_far db node.now self.now)) }
    {
        let mut at = node.place_of(config, me, db, key)?;
        at.floor = self.floor;
        Ok(at)
    }

    /// What the rule of a record that was not looked at yet sees then, as a draft of it.
    #[tactic(auto, unfolding(ct_rules_node::specs::Records::view))]
    fn view(&self, db: u32, key: &Key, node: &Node) -> Result<Draft, NoMemory>
        requires middle { IsMiddle db node.now self.now }
        requires same { state_at db key.now (node_so_far db node.now self.now) ≡ state_at db key.now node.now }
        ensures { IfOk result (λ d. d ≡ view db key.now (node_so_far db node.now self.now)) }
    {
        let mut draft = node.view(db, key)?;
        draft.next = self.next;
        draft.floor = self.floor;
        Ok(draft)
    }

    /// The rule of a deleted record left this.
    #[tactic(auto, unfolding(ct_rules_node::specs::Records::acted))]
    fn acted(
        &mut self,
        me: u32,
        db: u32,
        key: Key,
        draft: Draft,
        node: &Node,
    ) -> Result<(), CoreFault>
        requires there { db < length node.now.dbs }
        requires middle { IsMiddle db node.now self.old }
        requires deleted { is_deleted_at db (node_so_far db node.now self.old) key ≡ true }
        ensures step { Goes result (acted me db key draft (so_far db node.now self.old)) (so_far db node.now self.new) }
        ensures middle { OnOk result (IsMiddle db node.now self.new) }
    {
        if draft.spent {
            return Err(CoreFault::Exhausted);
        }
        let Draft {
            alloc,
            state,
            next,
            floor,
            acts,
            ..
        } = draft;
        let outs = outs_of(alloc, node.member.generation(), me, db, &key, acts)?;
        self.outs.append(&mut outs.into_vec())?;
        let one = Left {
            key,
            state,
            next,
            floor,
        };
        add(&mut self.left, one)?;
        self.next = next;
        self.floor = floor;
        Ok(())
    }

    /// A deleted record is looked at.
    #[tactic(auto, unfolding(crate::specs::Keys::vacuum_key, ct_rules_node::specs::Records::at_record))]
    fn vacuum_deleted(
        &mut self,
        config: &Config,
        me: u32,
        db: u32,
        asked: &[u32],
        key: Key,
        node: &Node,
    ) -> Result<(), CoreFault>
        requires there { db < length node.now.dbs }
        requires middle { IsMiddle db node.now self.old }
        requires same { state_at db key (node_so_far db node.now self.old) ≡ state_at db key node.now }
        requires deleted { is_deleted_at db node.now key ≡ true }
        requires others { asked.now ≡ others me node.now.members }
        requires ascending { IsStrictlyIncreasing asked.now }
        requires in_limit { rsn_of (state_at db key node.now).copy < 2 ^ 62 }
        ensures step { Goes result (vacuum_key config.now me db key (so_far db node.now self.old)) (so_far db node.now self.new) }
        ensures middle { OnOk result (IsMiddle db node.now self.new) }
    {
        let at = self.place_of(config, me, db, &key, node)?;
        let mut draft = self.view(db, &key, node)?;
        moves::vacuum(&mut draft, &at, asked)?;
        self.acted(me, db, key, draft, node)
    }

    /// A record is looked at that was not yet.
    pub fn vacuum_key(
        &mut self,
        config: &Config,
        me: u32,
        db: u32,
        asked: &[u32],
        key: Key,
        node: &Node,
    ) -> Result<(), CoreFault>
        requires there { db < length node.now.dbs }
        requires middle { IsMiddle db node.now self.old }
        requires same { state_at db key (node_so_far db node.now self.old) ≡ state_at db key node.now }
        requires others { asked.now ≡ others me node.now.members }
        requires ascending { IsStrictlyIncreasing asked.now }
        requires in_limit { rsn_of (state_at db key node.now).copy < 2 ^ 62 }
        ensures step { Goes result (after_key config.now me db key node.now (so_far db node.now self.old)) (so_far db node.now self.new) }
        ensures middle { OnOk result (IsMiddle db node.now self.new) }
    {
        if !is_deleted_at(node, db, &key) {
            return Ok(());
        }
        self.vacuum_deleted(config, me, db, asked, key, node)
    }
}
