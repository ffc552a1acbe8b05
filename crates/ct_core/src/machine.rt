//! One node, and its steps.
ghost use Rattle.std.specs.Prelude.{◌≡◌, ◌<◌, true, IfOk, OnErr, OnOk};
ghost use Rattle.std.specs.List.{list_all};
ghost use Rattle.ct_call.specs.Shown.{rules_of};
ghost use Rattle.ct_rules_cluster.specs.Cluster.{everyone};
ghost use Rattle.ct_core.specs.Core.{IsChangeOf, IsPlanOf, PlansStep, Steps};
ghost use Rattle.ct_frame.specs.declared.event.Event.TheVariants as events;
ghost use Rattle.ct_law_form.specs.Whole.{HasLimits, is_sound_out};
ghost use Rattle.ct_node_plan.specs.Changes.{changed_by};
ghost use Rattle.ct_rules_node.specs.Coming.{may_come};
ghost use Rattle.ct_rules_node.specs.Node.{opening, restarted};
ghost use Rattle.ct_rules_node.specs.Steps.{stepped};

use crate::events::{arrival, happens};
use crate::opening::everyone;
use ct_call::table::CallTable;
use ct_frame::event::{Event, Out};
use ct_frame::frame::Frame;
use ct_lead::holder::Holder;
use ct_lead::lead::Lead;
use ct_lead::member::Member;
use ct_node_commit::commit::commit;
use ct_node_plan::change::{Change, Planned};
use ct_node_state::members::Members;
use ct_node_state::node::Node;
use ct_node_state::turn::CoreFault;
use ct_values::config::Config;
use ct_values::copies::Duplicate;
use ct_values::items::Items;
use ct_values::memory::NoMemory;
use std::alloc::Global;
use std::marker::Model;
use std::mem;

/// One node, with its number and its configuration.
pub struct Core {
    pub(crate) pnn: u32,
    pub(crate) config: Config,
    pub(crate) node: Node,
}

impl Drop for Core {
    /// All that it holds is let go.
    fn drop(self) {
        let Core {
            pnn: _,
            config: _,
            node: _,
        } = self;
    }
}

impl Model for Core {
    ghost use Rattle.ct_core.specs.Core as machine;

    ghost Value = { machine.Core };

    ghost view = { λ c. record { pnn = c.pnn; config = c.config; node = c.node } };

    ghost invariant = { λ c. machine.CoreInForm (record { pnn = c.pnn; config = c.config; node = c.node }) };
}

/// A node that stands for one that is being changed. It takes no memory.
fn blank(alloc: Global) -> Node {
    Node {
        alloc,
        member: Member::new(0),
        pbase: 0,
        members: Members::none(alloc),
        leader: None,
        dbs: Items::empty(alloc),
        placement: Items::empty(alloc),
        holder: Holder::new(alloc),
        next: 1,
        lead: Lead::nothing(alloc),
    }
}

impl Core {
    /// The node of this number at the opening of a cluster: it serves in generation 1 of all nodes, and nothing is kept of
    /// any key.
    #[tactic(auto, using(crate::proofs::Everyone::everyone_ascends, crate::proofs::Everyone::someone, crate::proofs::Everyone::opens))]
    pub fn new(alloc: Global, pnn: u32, config: &Config) -> Result<Core, NoMemory>
        requires node { pnn < config.now.nodes }
        requires limits { HasLimits config.now }
        ensures { IfOk result (λ x. x ≡ record { pnn = pnn; config = config.now; node = opening config.now (everyone config.now) }) }
    {
        let members = everyone(alloc, config)?;
        let node = Node::opening(alloc, config, &members)?;
        let config = config.copy()?;
        Ok(Core { pnn, config, node })
    }

    /// What comes of an event, as a plan: what it changes and what it does. Nothing is changed yet.
    #[tactic(auto, using(crate::proofs::Plans::plans_step, crate::proofs::Plans::plan_of, crate::proofs::Plans::plan_sound))]
    pub fn plan(&self, table: &CallTable, event: &Event) -> Result<Planned, CoreFault>
        requires { may_come self.now.config self.now.pnn self.now.node event.now ≡ true }
        ensures plan { PlansStep result (stepped self.now.config (rules_of table.now) self.now.pnn event.now self.now.node) self.now.node }
        ensures of_this { IfOk result (λ p. IsPlanOf self.now p) }
        ensures sound { IfOk result (λ p. list_all (is_sound_out self.now.config self.now.pnn) p.outs ≡ true) }
    {
        happens(&self.config, table, self.pnn, event, &self.node)
    }

    /// What comes of a message that arrives, as a plan: what `plan` tells of its arrival, but the message is lent.
    #[tactic(auto, using(crate::proofs::Plans::plans_step, crate::proofs::Plans::plan_of, crate::proofs::Plans::plan_sound))]
    pub fn plan_arrival(&self, table: &CallTable, frame: &Frame) -> Result<Planned, CoreFault>
        requires { may_come self.now.config self.now.pnn self.now.node (events.Arrive frame.now) ≡ true }
        ensures plan { PlansStep result (stepped self.now.config (rules_of table.now) self.now.pnn (events.Arrive frame.now) self.now.node) self.now.node }
        ensures of_this { IfOk result (λ p. IsPlanOf self.now p) }
        ensures sound { IfOk result (λ p. list_all (is_sound_out self.now.config self.now.pnn) p.outs ≡ true) }
    {
        arrival(&self.config, table, self.pnn, frame, &self.node)
    }

    /// Changes the node as it was planned. The plan is of the node as it stands. Without memory nothing changes.
    #[tactic(auto, using(crate::proofs::Plans::can_change, crate::proofs::Plans::stays_in_form, crate::proofs::Plans::stays_unchanged))]
    pub fn commit(&mut self, change: Change) -> Result<(), NoMemory>
        requires { IsChangeOf self.old change }
        ensures ok { OnOk result (self.new ≡ record self.old { node = changed_by change self.old.node }) }
        ensures err { OnErr result (self.new ≡ self.old) }
    {
        commit(&mut self.node, change)?;
        Ok(())
    }

    /// What comes of an event: the node changes, and what it does is answered, in order. An event that is dropped answers
    /// nothing. Each message that the node sends keeps the rules of its fields, names this node as its sender, and goes to a
    /// node of the configuration. A step that is refused changes nothing.
    pub fn step(&mut self, table: &CallTable, event: &Event) -> Result<Vec<Out>, CoreFault>
        requires { may_come self.old.config self.old.pnn self.old.node event.now ≡ true }
        ensures step { Steps (λ outs. outs.items) result (stepped self.old.config (rules_of table.now) self.old.pnn event.now self.old.node) self.old self.new }
        ensures sound { IfOk result (λ outs. list_all (is_sound_out self.old.config self.old.pnn) outs.items ≡ true) }
    {
        let Planned { change, outs } = self.plan(table, event)?;
        match self.commit(change) {
            Ok(()) => Ok(outs.into_vec()),
            Err(NoMemory) => Err(CoreFault::NoMemory),
        }
    }

    /// What a stop leaves of the node: its number, the configuration, the promise, the persistent databases and their base.
    /// It takes no memory.
    #[tactic(auto, using(crate::proofs::Everyone::placed_so, crate::proofs::Everyone::restarts))]
    pub fn restart(&mut self)
        ensures { self.new ≡ record self.old { node = restarted self.old.config self.old.node } }
    {
        let blank = blank(self.node.alloc);
        let node = mem::replace(&mut self.node, blank);
        self.node = node.restarted(&self.config);
    }

    /// A copy that equals it.
    pub fn copy(&self) -> Result<Core, NoMemory>
        ensures { IfOk result (λ x. x ≡ self.now) }
    {
        Ok(Core {
            pnn: self.pnn,
            config: self.config.copy()?,
            node: self.node.copy()?,
        })
    }
}

impl Duplicate for Core {
    fn duplicate(&self) -> Result<Core, NoMemory> {
        self.copy()
    }
}
