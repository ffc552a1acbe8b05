//! Why a step is refused, apart from a number that would reach its limit. No call takes memory.
ghost use Rattle.std.specs.Prelude.{◌≡◌, ◌∷◌, nat_lt, [], MatchOption, slice_get};
ghost use Rattle.ct_rules_cluster.specs.Cluster as cluster;
ghost use Rattle.ct_rules_cluster.specs.Faults as rule;
ghost use Rattle.ct_rules_cluster.specs.declared.step.Step.TheVariants as step;
ghost use Rattle.ct_rules_node.specs.Node.{is_serving};
ghost use Rattle.ct_rules_node.specs.Refusals.{first_of};

use crate::world::World;
use ct_core::machine::Core;
use ct_lead::runs::is_among;
use ct_node_state::kinds::{is_persistent, kind_at};
use ct_rules_cluster::step::{Step, StepFault};

/// Is the node's mark there and set?
#[tactic(auto, unfolding(ct_rules_cluster::specs::Cluster::is_true))]
pub(crate) fn is_marked(marks: &[bool], node: u32) -> bool
    ensures { result ≡ cluster.is_true (slice_get marks.now node) }
{
    match marks.get(node as usize) {
        Some(mark) => *mark,
        None => false,
    }
}

impl World {
    /// There is no node of this number.
    #[tactic(auto, unfolding(ct_rules_cluster::specs::Faults::no_such_node, ct_rules_node::specs::Refusals::refused_if))]
    fn no_such_node(&self, node: u32) -> Option<StepFault>
        ensures { result ≡ rule.no_such_node self.now.config node }
    {
        if node < self.parts.config.nodes {
            return None;
        }
        Some(StepFault::NoSuchNode(node))
    }

    /// Is it the number of a node?
    fn is_node(&self, node: u32) -> bool
        ensures { result ≡ nat_lt node self.now.config.nodes }
    {
        node < self.parts.config.nodes
    }

    /// The first of these numbers that is no node's.
    #[tactic(auto, unfolding(ct_rules_cluster::specs::Faults::no_such_nodes))]
    fn no_such_nodes(&self, nodes: &[u32]) -> Option<StepFault>
        ensures { result ≡ rule.no_such_nodes self.now.config nodes.now }
    {
        for node in nodes {
            if !self.is_node(*node) {
                return Some(StepFault::NoSuchNode(*node));
            }
        }
        None
    }

    /// Does the node run?
    #[tactic(auto, unfolding(ct_rules_cluster::specs::Cluster::is_up))]
    pub fn is_up(&self, node: u32) -> bool
        ensures { result ≡ cluster.is_up node self.now.cluster }
    {
        is_marked(self.parts.running.as_slice(), node)
    }

    /// The node does not run.
    #[tactic(auto, unfolding(ct_rules_cluster::specs::Faults::node_down, ct_rules_node::specs::Refusals::refused_if))]
    fn node_down(&self, node: u32) -> Option<StepFault>
        ensures { result ≡ rule.node_down self.now.cluster node }
    {
        if self.is_up(node) {
            return None;
        }
        Some(StepFault::NodeDown(node))
    }

    /// The node runs.
    #[tactic(auto, unfolding(ct_rules_cluster::specs::Faults::node_up, ct_rules_node::specs::Refusals::refused_if))]
    fn node_up(&self, node: u32) -> Option<StepFault>
        ensures { result ≡ rule.node_up self.now.cluster node }
    {
        if self.is_up(node) {
            return Some(StepFault::NodeUp(node));
        }
        None
    }

    /// No database has this number.
    #[tactic(auto, unfolding(ct_rules_cluster::specs::Faults::no_such_db, ct_rules_node::specs::Refusals::refused_if))]
    fn no_such_db(&self, db: u32) -> Option<StepFault>
        ensures { result ≡ rule.no_such_db self.now.config db }
    {
        if kind_at(&self.parts.config, db).is_some() {
            return None;
        }
        Some(StepFault::NoSuchDb(db))
    }

    /// A persistent database is not vacuumed.
    #[tactic(auto, unfolding(ct_rules_cluster::specs::Faults::wrong_kind, ct_rules_node::specs::Refusals::refused_if))]
    fn wrong_kind(&self, db: u32) -> Option<StepFault>
        ensures { result ≡ rule.wrong_kind self.now.config db }
    {
        if is_persistent(kind_at(&self.parts.config, db)) {
            return Some(StepFault::WrongKind(db));
        }
        None
    }

    /// The node of this number, where there is one.
    #[tactic(auto, using(crate::proofs::Cores::core_there, crate::proofs::Cores::core_gone), unfolding(ct_rules_cluster::specs::Cluster::node_at, ct_rules_cluster::specs::Cluster::or_absent))]
    pub(crate) fn core(&self, node: u32) -> Option<&Core>
        ensures { MatchOption result (cluster.node_at node self.now.cluster ≡ cluster.absent) (λ x. cluster.node_at node self.now.cluster ≡ x.now.node) }
    {
        self.parts.cores.as_slice().get(node as usize)
    }

    /// Does the node serve?
    #[tactic(auto, unfolding(ct_rules_cluster::specs::Cluster::absent, ct_rules_node::specs::Node::is_serving))]
    fn serves(&self, node: u32) -> bool
        ensures { result ≡ is_serving (cluster.node_at node self.now.cluster).phase }
    {
        match self.core(node) {
            Some(core) => core.serving(),
            None => false,
        }
    }

    /// Does the node lead its generation with the round completed?
    #[tactic(auto, unfolding(ct_rules_cluster::specs::Cluster::absent, ct_rules_cluster::specs::Faults::leads))]
    fn leads(&self, node: u32) -> bool
        ensures { result ≡ rule.leads (cluster.node_at node self.now.cluster).generation (cluster.node_at node self.now.cluster).lead }
    {
        match self.core(node) {
            Some(core) => core.leads(),
            None => false,
        }
    }

    /// The node does not serve.
    #[tactic(auto, unfolding(ct_rules_cluster::specs::Faults::not_serving, ct_rules_node::specs::Refusals::refused_if))]
    fn not_serving(&self, node: u32) -> Option<StepFault>
        ensures { result ≡ rule.not_serving self.now.cluster node }
    {
        if self.serves(node) {
            return None;
        }
        Some(StepFault::NotServing(node))
    }

    /// The node does not lead its generation with the round completed.
    #[tactic(auto, unfolding(ct_rules_cluster::specs::Faults::not_leader, ct_rules_node::specs::Refusals::refused_if))]
    fn not_leader(&self, node: u32) -> Option<StepFault>
        ensures { result ≡ rule.not_leader self.now.cluster node }
    {
        if self.leads(node) {
            return None;
        }
        Some(StepFault::NotLeader(node))
    }

    /// Another node holds the recovery lock.
    #[tactic(auto, unfolding(ct_rules_cluster::specs::Faults::lock_held, ct_rules_node::specs::Refusals::refused_if))]
    fn lock_held(&self, node: u32) -> Option<StepFault>
        ensures { result ≡ rule.lock_held node self.now.cluster.holder }
    {
        match self.parts.books.holder {
            Some(holder) => if holder == node {
                None
            } else {
                Some(StepFault::LockHeld(holder))
            },
            None => None,
        }
    }

    /// The node does not hold the recovery lock.
    #[tactic(auto, unfolding(ct_rules_cluster::specs::Faults::not_holder, ct_rules_node::specs::Refusals::refused_if, ct_values::specs::Words::is_this_node))]
    fn not_holder(&self, node: u32) -> Option<StepFault>
        ensures { result ≡ rule.not_holder self.now.cluster node }
    {
        if self.parts.books.holder == Some(node) {
            return None;
        }
        Some(StepFault::NotHolder(self.parts.books.holder))
    }

    /// Does the message of this number wait?
    fn waits(&self, number: u64) -> bool
        ensures { result ≡ cluster.is_waiting (cluster.sent_at number self.now.cluster) }
    {
        self.parts.mail.is_waiting(number)
    }

    /// Was the message of this number delivered?
    fn was_delivered(&self, number: u64) -> bool
        ensures { result ≡ cluster.is_delivered (cluster.sent_at number self.now.cluster) }
    {
        self.parts.mail.is_delivered(number)
    }

    /// No message of this number waits.
    #[tactic(auto, unfolding(ct_rules_cluster::specs::Faults::not_waiting, ct_rules_node::specs::Refusals::refused_if))]
    fn not_waiting(&self, number: u64) -> Option<StepFault>
        ensures { result ≡ rule.not_waiting self.now.cluster number }
    {
        if self.waits(number) {
            return None;
        }
        Some(StepFault::NoSuchFrame(number))
    }

    /// No message of this number was delivered.
    #[tactic(auto, unfolding(ct_rules_cluster::specs::Faults::not_delivered, ct_rules_node::specs::Refusals::refused_if))]
    fn not_delivered(&self, number: u64) -> Option<StepFault>
        ensures { result ≡ rule.not_delivered self.now.cluster number }
    {
        if self.was_delivered(number) {
            return None;
        }
        Some(StepFault::NoSuchFrame(number))
    }

    /// There is no node of this number, or it does not run.
    #[tactic(auto, unfolding(ct_rules_cluster::specs::Faults::fault_of, ct_rules_node::specs::Refusals::first_of))]
    fn not_up(&self, node: u32) -> Option<StepFault>
        ensures { result ≡ first_of (rule.no_such_node self.now.config node ∷ rule.node_down self.now.cluster node ∷ []) }
    {
        match self.no_such_node(node) {
            Some(fault) => Some(fault),
            None => self.node_down(node),
        }
    }

    /// A vacuum is refused so.
    #[tactic(auto, unfolding(ct_rules_cluster::specs::Faults::fault_of, ct_rules_node::specs::Refusals::first_of))]
    fn no_vacuum(&self, node: u32, db: u32) -> Option<StepFault>
        ensures { result ≡ rule.fault_of self.now.config self.now.cluster (step.Vacuum node db) }
    {
        if let Some(fault) = self.not_up(node) {
            return Some(fault);
        }
        if let Some(fault) = self.no_such_db(db) {
            return Some(fault);
        }
        if let Some(fault) = self.wrong_kind(db) {
            return Some(fault);
        }
        self.not_serving(node)
    }

    /// A recovery is refused so.
    #[tactic(auto, unfolding(ct_rules_cluster::specs::Faults::fault_of, ct_rules_node::specs::Refusals::first_of, ct_rules_cluster::specs::Faults::no_such_nodes, ct_rules_cluster::specs::Faults::not_member, ct_rules_cluster::specs::Faults::no_such_node, ct_rules_node::specs::Refusals::refused_if))]
    fn no_recovery(&self, node: u32, members: &[u32]) -> Option<StepFault>
        ensures { result ≡ rule.fault_of self.now.config self.now.cluster (step.Recover node members.now) }
    {
        if let Some(fault) = self.no_such_node(node) {
            return Some(fault);
        }
        if let Some(fault) = self.no_such_nodes(members) {
            return Some(fault);
        }
        if let Some(fault) = self.node_down(node) {
            return Some(fault);
        }
        if !is_among(node, members) {
            return Some(StepFault::NotMember(node));
        }
        self.lock_held(node)
    }

    /// A takeover is refused so.
    #[tactic(auto, unfolding(ct_rules_cluster::specs::Faults::fault_of, ct_rules_node::specs::Refusals::first_of))]
    fn no_takeover(&self, node: u32) -> Option<StepFault>
        ensures { result ≡ rule.fault_of self.now.config self.now.cluster (step.Takeover node) }
    {
        if let Some(fault) = self.not_up(node) {
            return Some(fault);
        }
        if let Some(fault) = self.not_serving(node) {
            return Some(fault);
        }
        self.not_leader(node)
    }

    /// A start is refused so.
    #[tactic(auto, unfolding(ct_rules_cluster::specs::Faults::fault_of, ct_rules_node::specs::Refusals::first_of))]
    fn no_start(&self, node: u32) -> Option<StepFault>
        ensures { result ≡ rule.fault_of self.now.config self.now.cluster (step.Start node) }
    {
        match self.no_such_node(node) {
            Some(fault) => Some(fault),
            None => self.node_up(node),
        }
    }

    /// The recovery lock is not given back, for this.
    #[tactic(auto, unfolding(ct_rules_cluster::specs::Faults::fault_of, ct_rules_node::specs::Refusals::first_of))]
    fn no_yield(&self, node: u32) -> Option<StepFault>
        ensures { result ≡ rule.fault_of self.now.config self.now.cluster (step.Yield node) }
    {
        match self.not_up(node) {
            Some(fault) => Some(fault),
            None => self.not_holder(node),
        }
    }

    /// Why a step is refused: the first that holds, in order.
    #[tactic(auto, unfolding(ct_rules_cluster::specs::Faults::fault_of, ct_rules_node::specs::Refusals::first_of))]
    pub fn fault(&self, step: &Step) -> Option<StepFault>
        ensures { result ≡ rule.fault_of self.now.config self.now.cluster step.now }
    {
        match step {
            Step::Client { node, .. } => self.not_up(*node),
            Step::Deliver(number) | Step::Drop(number) => self.not_waiting(*number),
            Step::Repeat(number) => self.not_delivered(*number),
            Step::Retry(node) | Step::Stop(node) => self.not_up(*node),
            Step::Vacuum { node, db } => self.no_vacuum(*node, *db),
            Step::Recover { node, members } => self.no_recovery(*node, members.as_slice()),
            Step::Yield(node) => self.no_yield(*node),
            Step::Start(node) => self.no_start(*node),
            Step::Takeover(node) => self.no_takeover(*node),
            Step::Able { node, .. } => self.no_such_node(*node),
        }
    }
}
