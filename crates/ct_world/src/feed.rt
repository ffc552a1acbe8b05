//! An event is given to a node.
ghost use Rattle.std.specs.Prelude.{◌≡◌, ◌<◌, ◌++◌, ◌&&◌, ◌^◌, [], true, OnOk, OnErr, Some, length, map, nat_lt, slice_get, slice_set};
ghost use Rattle.ct_call.specs.Shown.{rules_of};
ghost use Rattle.ct_rules_cluster.specs.Cluster as cluster;
ghost use Rattle.ct_rules_cluster.specs.Steps.{fed};
ghost use Rattle.ct_frame.specs.declared.event.Event.TheVariants as events;
ghost use Rattle.ct_core.specs.Core as core;
ghost use Rattle.ct_mail.specs.Mail.{posted};
ghost use Rattle.ct_node_plan.specs.Changes.{changed_by};
ghost use Rattle.ct_rules_node.specs.Coming.{may_come};
ghost use Rattle.ct_rules_node.specs.Steps.{stepped};
ghost use Rattle.ct_world.specs.Feeding as feeding;
ghost use Rattle.ct_world.specs.World as world;

use crate::lines::told;
use crate::parts::{Books, Parts, Told};
use ct_call::table::CallTable;
use ct_core::machine::Core;
use ct_frame::event::Event;
use ct_frame::frame::Frame;
use ct_frame::header::LIMIT;
use ct_node_plan::change::{Change, Planned};
use ct_node_state::turn::CoreFault;
use ct_rules_cluster::step::{Line, StepFault};
use ct_values::items::Items;
use ct_values::memory::NoMemory;

/// What comes of an event at the node of this number, as a plan.
fn plan_at(
    cores: &[Core],
    table: &CallTable,
    node: u32,
    event: &Event,
) -> Result<Planned, StepFault>
    requires there { node < length cores.now }
    requires coming { (x : core.Core) → slice_get cores.now node ≡ Some x → may_come x.config x.pnn x.node event.now ≡ true }
    ensures { (x : core.Core) → slice_get cores.now node ≡ Some x → feeding.PlansAt result (stepped x.config (rules_of table.now) x.pnn event.now x.node) x }
{
    match cores[node as usize].plan(table, event) {
        Ok(planned) => Ok(planned),
        Err(CoreFault::Exhausted) => Err(StepFault::Exhausted),
        Err(CoreFault::NoMemory) => Err(StepFault::NoMemory),
    }
}

/// What comes of a message that arrives at its receiver, as a plan. The message is lent.
fn arrival_at(cores: &[Core], table: &CallTable, frame: &Frame) -> Result<Planned, StepFault>
    requires there { frame.now.receiver < length cores.now }
    requires coming { (x : core.Core) → slice_get cores.now frame.now.receiver ≡ Some x → may_come x.config x.pnn x.node (events.Arrive frame.now) ≡ true }
    ensures { (x : core.Core) → slice_get cores.now frame.now.receiver ≡ Some x → feeding.PlansAt result (stepped x.config (rules_of table.now) x.pnn (events.Arrive frame.now) x.node) x }
{
    match cores[frame.receiver as usize].plan_arrival(table, frame) {
        Ok(planned) => Ok(planned),
        Err(CoreFault::Exhausted) => Err(StepFault::Exhausted),
        Err(CoreFault::NoMemory) => Err(StepFault::NoMemory),
    }
}

/// The node of this number changes as it was planned. Without memory nothing changes.
#[tactic(auto, using(ct_node_state::proofs::Lists::same_item))]
fn commit_at(cores: &mut Items<Core>, node: u32, change: Change) -> Result<(), NoMemory>
    requires there { node < length cores.old }
    requires planned { (x : core.Core) → slice_get cores.old node ≡ Some x → core.IsChangeOf x change }
    ensures ok { OnOk result ((x : core.Core) → slice_get cores.old node ≡ Some x → cores.new ≡ slice_set cores.old node (record x { node = changed_by change x.node })) }
    ensures err { OnErr result (cores.new ≡ cores.old) }
{
    cores.get_mut(node as usize).commit(change)
}

/// Do the ticket and the calls stay below their limit?
fn are_counted(books: Books) -> bool
    ensures { result ≡ (nat_lt books.ticket (2 ^ 62) && nat_lt books.calls (2 ^ 62)) }
{
    books.ticket < LIMIT && books.calls < LIMIT
}

impl Parts {
    /// The node of this number changes as it was planned, and these messages are sent. Without memory nothing changes.
    fn settle(&mut self, node: u32, change: Change, frames: Items<Frame>) -> Result<(), NoMemory>
        requires there { node < length self.old.cores }
        requires planned { (x : core.Core) → slice_get self.old.cores node ≡ Some x → core.IsChangeOf x change }
        ensures ok { OnOk result ((x : core.Core) → slice_get self.old.cores node ≡ Some x → self.new ≡ record self.old { cores = slice_set self.old.cores node (record x { node = changed_by change x.node }); mail = self.old.mail ++ map posted frames }) }
        ensures err { OnErr result (self.new ≡ self.old) }
    {
        let count = self.mail.len();
        if let Err(NoMemory) = self.mail.post(self.alloc, frames) {
            drop(change);
            return Err(NoMemory);
        }
        if let Err(NoMemory) = commit_at(&mut self.cores, node, change) {
            self.mail.truncate(count);
            return Err(NoMemory);
        }
        Ok(())
    }

    /// What was planned of the node of this number is carried out, and the books become these. The step's own lines come
    /// first. It is refused where the ticket or the calls reach their limit, and then nothing is changed.
    fn carry_out(
        &mut self,
        node: u32,
        planned: Planned,
        own: Vec<Line>,
        books: Books,
    ) -> Result<Vec<Line>, StepFault>
        requires sent { length self.old.mail < 2 ^ 62 }
        requires seats { world.AreSeated self.old.config self.old.cores }
        requires there { node < length self.old.cores }
        requires planned { (x : core.Core) → slice_get self.old.cores node ≡ Some x → core.IsPlanOf x planned }
        ensures step { feeding.CarriesOut (λ lines. lines.items) result node planned own.items books self.old self.new }
        ensures seats { world.AreSeated self.new.config self.new.cores }
    {
        if !are_counted(books) {
            drop(planned);
            return Err(StepFault::Exhausted);
        }
        let first = self.mail.len() as u64 + 1;
        let Planned { change, outs } = planned;
        let told = match told(self.alloc, node, first, own, outs) {
            Ok(told) => told,
            Err(fault) => {
                drop(change);
                return Err(fault);
            }
        };
        let Told { lines, frames } = told;
        self.settle(node, change, frames)?;
        self.books = books;
        Ok(lines)
    }

    /// An event that may come is given to the node of this number, and the books become these. The step's own lines come
    /// first. A step that is refused changes nothing.
    pub(crate) fn feed(
        &mut self,
        table: &CallTable,
        node: u32,
        event: &Event,
        own: Vec<Line>,
        books: Books,
    ) -> Result<Vec<Line>, StepFault>
        requires form { world.PartsInForm self.old }
        requires there { node < self.old.config.nodes }
        requires coming { may_come self.old.config node (cluster.node_at node (world.cluster_of self.old)) event.now ≡ true }
        ensures step { world.Applies (λ lines. lines.items) result (fed self.old.config (rules_of table.now) node event.now own.items (feeding.booked books (world.cluster_of self.old))) (world.world_of self.old) (world.world_of self.new) }
        ensures seats { world.AreSeated self.new.config self.new.cores }
    {
        let planned = plan_at(self.cores.as_slice(), table, node, event)?;
        self.carry_out(node, planned, own, books)
    }

    /// The message of this number arrives at its receiver, where it was sent. It is lent, and stays where it lies. A step that
    /// is refused changes nothing.
    pub(crate) fn arrive(&mut self, table: &CallTable, number: u64) -> Result<Vec<Line>, StepFault>
        requires { world.PartsInForm self.old }
        ensures step { (s : cluster.Sent) → cluster.sent_at number (world.cluster_of self.old) ≡ Some s → world.Applies (λ lines. lines.items) result (fed self.old.config (rules_of table.now) s.frame.receiver (events.Arrive s.frame) [] (world.cluster_of self.old)) (world.world_of self.old) (world.world_of self.new) }
        ensures seats { world.AreSeated self.new.config self.new.cores }
    {
        let Some(frame) = self.mail.frame(number) else {
            return Ok(Vec::new(self.alloc));
        };
        let receiver = frame.receiver;
        let planned = arrival_at(self.cores.as_slice(), table, frame)?;
        let own = Vec::new(self.alloc);
        self.carry_out(receiver, planned, own, self.books)
    }
}
