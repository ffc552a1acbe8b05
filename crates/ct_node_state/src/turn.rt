//! The middle of a step.
ghost use Rattle.std.specs.Prelude.{◌≡◌, ◌<◌, OnOk, length};
ghost use Rattle.ct_rules_node.specs.Clients.{frozen_if_unlocked};
ghost use Rattle.ct_rules_node.specs.Node as state;
ghost use Rattle.ct_rules_node.specs.Records.{acted};
ghost use Rattle.ct_rules_node.specs.Rounds.{releases};
ghost use Rattle.ct_rules_node.specs.Turn.{answers, begins, does, notes, posts, posts_all};
ghost use Rattle.ct_node_state.specs.Goes.{Goes};

use crate::locks::any_locked;
use crate::node::Node;
use crate::outs::outs_of;
use ct_frame::event::{Note, Out};
use ct_frame::frame::{Frame, Msg};
use ct_record_parts::draft::Draft;
use ct_values::address::Address;
use ct_values::client::Answer;
use ct_values::items::Items;
use ct_values::key::Key;
use ct_values::memory::NoMemory;
use std::marker::Model;
use thiserror::Error;

/// Why a step of a node is refused.
#[derive(Clone, Copy, Debug, PartialEq, Eq, Error)]
pub enum CoreFault {
    /// A number would reach 2^62.
    #[error("a number would reach 2^62")]
    Exhausted,
    #[error("want of memory")]
    NoMemory,
}

impl From<NoMemory> for CoreFault {
    ghost use Rattle.ct_node_state.specs.declared.turn.CoreFault.TheVariants.{NoMemory as Want};

    ghost from_gives = { λ _ e. e ≡ Want };

    fn from(_e: NoMemory) -> CoreFault {
        CoreFault::NoMemory
    }
}

/// The middle of a step: the node, which the parts of the rules change, and what it does, in order. No number of the step
/// has reached 2^62: where one does, the step is refused at once.
#[derive(Drop)]
pub struct Turn {
    pub node: Node,
    pub outs: Items<Out>,
}

impl Model for Turn {
    ghost use Rattle.std.specs.Prelude.{false};
    ghost use Rattle.ct_rules_node.specs.Turn as turn;

    ghost Value = { turn.Turn };

    ghost view = { λ t. record { node = t.node; outs = t.outs; spent = false } };
}

impl Turn {
    /// A step begins with this node.
    pub fn begins(node: Node) -> Turn
        ensures { result ≡ begins node }
    {
        let outs = Items::empty(node.alloc);
        Turn { node, outs }
    }

    /// The node does this after all else.
    #[tactic(auto, unfolding(ct_rules_node::specs::Turn::does))]
    pub fn does(&mut self, out: Out) -> Result<(), NoMemory>
        ensures { OnOk result (self.new ≡ does out self.old) }
    {
        self.outs.push(out)?;
        Ok(())
    }

    /// A client's call is answered.
    #[tactic(auto, unfolding(ct_rules_node::specs::Turn::answers))]
    pub fn answers(&mut self, call: u64, answer: Answer) -> Result<(), NoMemory>
        ensures { OnOk result (self.new ≡ answers call answer self.old) }
    {
        self.does(Out::Answer { call, answer })
    }

    /// The node notes something.
    #[tactic(auto, unfolding(ct_rules_node::specs::Turn::notes))]
    pub fn notes(&mut self, note: Note) -> Result<(), NoMemory>
        ensures { OnOk result (self.new ≡ notes note self.old) }
    {
        self.does(Out::Note(note))
    }

    /// Released is noted for each of these addresses.
    #[tactic(auto, unfolding(ct_rules_node::specs::Rounds::releases))]
    pub fn releases(&mut self, addresses: &[Address]) -> Result<(), NoMemory>
        ensures { OnOk result (self.new ≡ releases addresses.now self.old) }
    {
        for address in addresses {
            self.notes(Note::Released(*address))?;
        }
        Ok(())
    }

    /// A message of a generation is sent by this node.
    #[tactic(auto, unfolding(ct_rules_node::specs::Turn::posts))]
    pub fn posts(
        &mut self,
        generation: u64,
        me: u32,
        receiver: u32,
        msg: Msg,
    ) -> Result<(), NoMemory>
        ensures { OnOk result (self.new ≡ posts generation me receiver msg self.old) }
    {
        self.does(Out::Send(Frame {
            generation,
            sender: me,
            receiver,
            msg,
        }))
    }

    /// The same message is sent to several nodes, in order.
    #[tactic(auto, unfolding(ct_rules_node::specs::Turn::posts_all))]
    pub fn posts_all(
        &mut self,
        generation: u64,
        me: u32,
        nodes: &[u32],
        msg: &Msg,
    ) -> Result<(), NoMemory>
        ensures { OnOk result (self.new ≡ posts_all generation me nodes.now msg.now self.old) }
    {
        for node in nodes {
            self.posts(generation, me, *node, msg.copy()?)?;
        }
        Ok(())
    }

    /// The step after the rule of a record: the node is changed, and what was done about the record comes after all else.
    #[tactic(auto, unfolding(ct_rules_node::specs::Records::acted, ct_rules_node::specs::Records::put_back))]
    pub fn acted(&mut self, me: u32, db: u32, key: &Key, draft: Draft) -> Result<(), CoreFault>
        requires { db < length self.old.node.dbs }
        ensures { Goes result (acted me db key.now draft self.old) self.new }
    {
        if draft.spent {
            return Err(CoreFault::Exhausted);
        }
        let Draft {
            alloc,
            state,
            next,
            floor,
            acts,
            ..
        } = draft;
        let outs = outs_of(alloc, self.node.member.generation(), me, db, key, acts)?;
        self.outs.append(&mut outs.into_vec())?;
        self.node.put_back(db, key.copy()?, state, next, floor)?;
        Ok(())
    }

    /// A Freezing node without locks is Frozen, and the round's leader gets a FreezeAck.
    #[tactic(auto, unfolding(ct_rules_node::specs::Clients::frozen_if_unlocked, ct_rules_node::specs::Turn::with_phase))]
    pub fn frozen_if_unlocked(
        &mut self,
        me: u32,
        generation: u64,
        leader: u32,
    ) -> Result<(), NoMemory>
        requires { self.old.node.phase ≡ state.Freezing generation leader }
        ensures { OnOk result (self.new ≡ frozen_if_unlocked me generation leader self.old) }
    {
        if any_locked(self.node.dbs.as_slice())? {
            return Ok(());
        }
        self.node.member.locks_gone();
        self.posts(generation, me, leader, Msg::FreezeAck)
    }
}
