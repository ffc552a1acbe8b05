//! The cluster.
ghost use Rattle.std.specs.Prelude.{◌≡◌, true, IfOk, MatchOption, None, Some, map, replicate};
ghost use Rattle.ct_rules_cluster.specs.Cluster as cluster;
ghost use Rattle.ct_call.specs.Shown.{rules_of};
ghost use Rattle.ct_rules_cluster.specs.Cluster.{Sent, numbers, pending, pending_from, sent_at};
ghost use Rattle.ct_rules_cluster.specs.Faults.{is_allowed};
ghost use Rattle.ct_rules_cluster.specs.Steps.{applied};
ghost use Rattle.ct_mail.specs.Mail.{next_waiting};
ghost use Rattle.ct_law_form.specs.Whole.{HasLimits};
ghost use Rattle.ct_rules_config.specs.Configured.{IsConfig};
ghost use Rattle.ct_rules_node.specs.Numbered.{by_number};
ghost use Rattle.ct_world.specs.World.{Applies, AreNumbered, opened, states_of};

use crate::parts::{Books, Parts};
use ct_call::table::CallTable;
pub use ct_core::machine::Core;
use ct_frame::frame::Frame;
use ct_mail::mail::Mail;
use ct_node_view::pending::by_number;
use ct_rules_cluster::step::{Line, PendingCall, Step, StepFault};
use ct_values::config::Config;
use ct_values::items::Items;
use ct_values::memory::NoMemory;
use std::alloc::Global;
use std::marker::Model;

/// Every node of a configuration, running or not, every message that was sent, who holds the recovery lock, and the numbers
/// that were given to tickets and calls.
pub struct World {
    pub(crate) parts: Parts,
}

impl Drop for World {
    /// All that it holds is let go.
    fn drop(self) {
        let World { parts: _ } = self;
    }
}

impl Model for World {
    ghost use Rattle.ct_rules_cluster.specs.Cluster as cluster;
    ghost use Rattle.ct_world.specs.World as world;

    ghost Value = { cluster.World };

    ghost view = { λ w. world.world_of w.parts };

    ghost invariant = { λ w. world.PartsInForm w.parts };
}

/// So many marks that are set.
#[tactic(auto, using(std::proofs::lemmas::Grind::replicate_next))]
fn marks(alloc: Global, nodes: u32) -> Result<Items<bool>, NoMemory>
    ensures { IfOk result (λ marks. marks ≡ replicate nodes true) }
{
    let mut marks = Items::empty(alloc);
    for _node in 0..nodes {
        marks.push(true)?;
    }
    Ok(marks)
}

/// All nodes of a configuration, each at the opening.
#[tactic(auto, using(crate::proofs::Opened::opened_more), unfolding(ct_rules_cluster::specs::Cluster::numbers))]
fn opened(alloc: Global, config: &Config) -> Result<Items<Core>, NoMemory>
    requires { HasLimits config.now }
    ensures { IfOk result (λ cores. cores ≡ map (opened config.now) (numbers 0 config.now.nodes)) }
{
    let mut cores = Items::empty(alloc);
    for node in 0..config.nodes {
        cores.push(Core::new(alloc, node, config)?)?;
    }
    Ok(cores)
}

/// The client calls that wait at these nodes, by number.
fn pending_at(alloc: Global, cores: &[Core]) -> Result<Vec<PendingCall>, NoMemory>
    requires { AreNumbered cores.now }
    ensures { IfOk result (λ calls. calls.items ≡ by_number (λ x. x.call) (pending_from 0 (states_of cores.now))) }
{
    let mut calls = Vec::new(alloc);
    for core in cores {
        core.add_pending(&mut calls)?;
    }
    by_number(&mut calls)?;
    Ok(calls)
}

impl World {
    /// All nodes run and are able, the recovery lock is free, and ticket 1 is the last one.
    #[tactic(auto, using(crate::proofs::Opened::has_limits, crate::proofs::Opened::is_opening))]
    pub fn new(alloc: Global, config: &Config) -> Result<World, NoMemory>
        requires { IsConfig config.now }
        ensures { IfOk result (λ w. w ≡ record { config = config.now; cluster = cluster.opening config.now }) }
    {
        let books = Books {
            holder: None,
            ticket: 1,
            calls: 0,
        };
        Ok(World {
            parts: Parts {
                alloc,
                config: config.copy()?,
                cores: opened(alloc, config)?,
                running: marks(alloc, config.nodes)?,
                able: marks(alloc, config.nodes)?,
                mail: Mail::new(alloc),
                books,
            },
        })
    }

    /// The configuration.
    pub fn config(&self) -> &Config
        ensures { result.now ≡ self.now.config }
    {
        &self.parts.config
    }

    /// For each node, whether it runs.
    pub fn running(&self) -> &[bool]
        ensures { result.now ≡ self.now.cluster.running }
    {
        self.parts.running.as_slice()
    }

    /// The least number of a message that waits. It takes no memory, and searches nothing.
    pub fn next_waiting(&self) -> Option<u64>
        ensures { result ≡ next_waiting self.now.cluster.sent }
    {
        self.parts.mail.next_waiting()
    }

    /// For each node, whether it is marked as able.
    pub fn able(&self) -> &[bool]
        ensures { result.now ≡ self.now.cluster.able }
    {
        self.parts.able.as_slice()
    }

    /// The last ticket of the recovery lock.
    pub fn ticket(&self) -> u64
        ensures { result ≡ self.now.cluster.ticket }
    {
        self.parts.books.ticket
    }

    /// The node that holds the recovery lock.
    pub fn holder(&self) -> Option<u32>
        ensures { result ≡ self.now.cluster.holder }
    {
        self.parts.books.holder
    }

    /// The message of this number, where one was sent.
    pub fn message(&self, number: u64) -> Option<&Frame>
        ensures { MatchOption result (sent_at number self.now.cluster ≡ None) (λ f. (s : Sent) × (sent_at number self.now.cluster ≡ Some s) × (s.frame ≡ f.now)) }
    {
        self.parts.mail.frame(number)
    }

    /// The client calls that wait at all nodes, by number.
    #[tactic(auto, using(crate::proofs::Pending::are_numbered), unfolding(ct_rules_cluster::specs::Cluster::pending))]
    pub fn pending(&self) -> Result<Vec<PendingCall>, NoMemory>
        ensures { IfOk result (λ calls. calls.items ≡ pending self.now.cluster) }
    {
        pending_at(self.parts.alloc, self.parts.cores.as_slice())
    }

    /// Takes one step, and answers what it prints. A step that is refused changes nothing, and want of memory neither.
    #[tactic(auto, using(crate::proofs::Kept::is_refused, crate::proofs::Kept::not_refused, crate::proofs::Kept::stays))]
    pub fn apply(&mut self, table: &CallTable, step: &Step) -> Result<Vec<Line>, StepFault>
        requires { is_allowed step.now ≡ true }
        ensures { Applies (λ lines. lines.items) result (applied self.old.config (rules_of table.now) self.old.cluster step.now) self.old self.new }
    {
        if let Some(fault) = self.fault(step) {
            return Err(fault);
        }
        self.parts.take(table, step)
    }
}
