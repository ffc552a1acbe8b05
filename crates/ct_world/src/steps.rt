//! Every step that is not refused at once.
ghost use Rattle.std.specs.Prelude.{◌≡◌, ◌<◌, true, false, IfOk, Some, length, slice_get, slice_set};
ghost use Rattle.ct_call.specs.Rules.{Rules};
ghost use Rattle.ct_call.specs.Shown.{rules_of};
ghost use Rattle.ct_rules_cluster.specs.Cluster as cluster;
ghost use Rattle.ct_rules_cluster.specs.Steps.{without_holder};
ghost use Rattle.ct_rules_cluster.specs.declared.step.Step.TheVariants as step;
ghost use Rattle.ct_core.specs.Core as machine;
ghost use Rattle.ct_rules_node.specs.Node.{restarted};
ghost use Rattle.ct_rules_node.specs.Numbered.{by_number};
ghost use Rattle.ct_world.specs.Feeding.{MayTake, Takes};
ghost use Rattle.ct_world.specs.World.{AreSeated, cluster_of};

use crate::faults::is_marked;
use crate::lines::{able_nodes, one, stopped};
use crate::parts::Parts;
use ct_call::table::CallTable;
use ct_core::machine::Core;
use ct_frame::event::Event;
use ct_rules_cluster::step::{Line, PendingCall, Step, StepFault};
use ct_values::client::ClientOp;
use ct_values::copies::Duplicate;
use ct_values::items::Items;
use ct_values::memory::NoMemory;

/// A node has this mark.
fn mark(marks: &mut Items<bool>, node: u32, mark: bool)
    requires { node < length marks.old }
    ensures { marks.new ≡ slice_set marks.old node mark }
{
    *marks.get_mut(node as usize) = mark;
}

/// The client calls that wait at the node of this number, by number.
fn pending_at(cores: &[Core], node: u32) -> Result<Vec<PendingCall>, NoMemory>
    requires { node < length cores.now }
    ensures { IfOk result (λ calls. (x : machine.Core) → slice_get cores.now node ≡ Some x → calls.items ≡ by_number (λ y. y.call) (cluster.pending_in x.pnn 0 x.node.dbs)) }
{
    cores[node as usize].pending()
}

/// The node of this number is as a stop leaves it.
fn restart_at(cores: &mut Items<Core>, node: u32)
    requires { node < length cores.old }
    ensures { (x : machine.Core) → slice_get cores.old node ≡ Some x → cores.new ≡ slice_set cores.old node (record x { node = restarted x.config x.node }) }
{
    cores.get_mut(node as usize).restart();
}

/// The recovery lock is free where this node held it.
#[tactic(auto, unfolding(ct_rules_cluster::specs::Steps::without_holder, ct_values::specs::Words::is_this_node))]
fn without_holder(node: u32, holder: Option<u32>) -> Option<u32>
    ensures { result ≡ without_holder node holder }
{
    if holder == Some(node) { None } else { holder }
}

impl Parts {
    /// A client asks a node, and its call gets the next number.
    fn client(
        &mut self,
        table: &CallTable,
        node: u32,
        op: &ClientOp,
    ) -> Result<Vec<Line>, StepFault>
        requires { MayTake (step.Client node op.now) self.old }
        ensures step { Takes (λ lines. lines.items) result (rules_of table.now) (step.Client node op.now) self.old self.new }
        ensures seats { AreSeated self.new.config self.new.cores }
    {
        let mut books = self.books;
        books.calls += 1;
        let call = books.calls;
        let op = op.copy()?;
        let own = Vec::new(self.alloc);
        let event = Event::Client { call, op };
        let answer = self.feed(table, node, &event, own, books);
        drop(event);
        answer
    }

    /// A message that waits comes to its receiver, which runs.
    fn hand_over(&mut self, table: &CallTable, number: u64) -> Result<Vec<Line>, StepFault>
        requires may { MayTake (step.Deliver number) self.old }
        requires at { (s : cluster.Sent) × (cluster.sent_at number (cluster_of self.old) ≡ Some s) × (cluster.is_up s.frame.receiver (cluster_of self.old) ≡ true) }
        ensures step { Takes (λ lines. lines.items) result (rules_of table.now) (step.Deliver number) self.old self.new }
        ensures seats { AreSeated self.new.config self.new.cores }
    {
        let lines = self.arrive(table, number)?;
        self.mail.deliver(number);
        Ok(lines)
    }

    /// A message that waits is dropped, since its receiver is down.
    fn lose(&mut self, number: u64, receiver: u32) -> Result<Vec<Line>, StepFault>
        requires may { MayTake (step.Deliver number) self.old }
        requires at { (s : cluster.Sent) × (cluster.sent_at number (cluster_of self.old) ≡ Some s) × (s.frame.receiver ≡ receiver) }
        requires down { cluster.is_up receiver (cluster_of self.old) ≡ false }
        ensures step { (rules : Rules) → Takes (λ lines. lines.items) result rules (step.Deliver number) self.old self.new }
        ensures seats { AreSeated self.new.config self.new.cores }
    {
        let lines = one(self.alloc, Line::Lost(number))?;
        self.mail.drop(number);
        Ok(lines)
    }

    /// A message that waits comes to its receiver, and is dropped where that is down.
    fn deliver(&mut self, table: &CallTable, number: u64) -> Result<Vec<Line>, StepFault>
        requires { MayTake (step.Deliver number) self.old }
        ensures step { Takes (λ lines. lines.items) result (rules_of table.now) (step.Deliver number) self.old self.new }
        ensures seats { AreSeated self.new.config self.new.cores }
    {
        let Some(frame) = self.mail.frame(number) else {
            return Ok(Vec::new(self.alloc));
        };
        let receiver = frame.receiver;
        if is_marked(self.running.as_slice(), receiver) {
            return self.hand_over(table, number);
        }
        self.lose(number, receiver)
    }

    /// A message that waits is lost.
    fn drop(&mut self, number: u64) -> Result<Vec<Line>, StepFault>
        requires { MayTake (step.Drop number) self.old }
        ensures step { (rules : Rules) → Takes (λ lines. lines.items) result rules (step.Drop number) self.old self.new }
        ensures seats { AreSeated self.new.config self.new.cores }
    {
        self.mail.drop(number);
        Ok(Vec::new(self.alloc))
    }

    /// A message that was delivered comes again, and is lost where its receiver is down.
    fn repeat(&mut self, table: &CallTable, number: u64) -> Result<Vec<Line>, StepFault>
        requires { MayTake (step.Repeat number) self.old }
        ensures step { Takes (λ lines. lines.items) result (rules_of table.now) (step.Repeat number) self.old self.new }
        ensures seats { AreSeated self.new.config self.new.cores }
    {
        let Some(frame) = self.mail.frame(number) else {
            return Ok(Vec::new(self.alloc));
        };
        let receiver = frame.receiver;
        if is_marked(self.running.as_slice(), receiver) {
            return self.arrive(table, number);
        }
        Ok(one(self.alloc, Line::Lost(number))?)
    }

    /// A node sends again what was not answered.
    fn retry(&mut self, table: &CallTable, node: u32) -> Result<Vec<Line>, StepFault>
        requires { MayTake (step.Retry node) self.old }
        ensures step { Takes (λ lines. lines.items) result (rules_of table.now) (step.Retry node) self.old self.new }
        ensures seats { AreSeated self.new.config self.new.cores }
    {
        let own = Vec::new(self.alloc);
        let books = self.books;
        let event = Event::Retry;
        let answer = self.feed(table, node, &event, own, books);
        drop(event);
        answer
    }

    /// A node vacuums a database.
    fn vacuum(&mut self, table: &CallTable, node: u32, db: u32) -> Result<Vec<Line>, StepFault>
        requires { MayTake (step.Vacuum node db) self.old }
        ensures step { Takes (λ lines. lines.items) result (rules_of table.now) (step.Vacuum node db) self.old self.new }
        ensures seats { AreSeated self.new.config self.new.cores }
    {
        let own = Vec::new(self.alloc);
        let books = self.books;
        let event = Event::Vacuum { db };
        let answer = self.feed(table, node, &event, own, books);
        drop(event);
        answer
    }

    /// A node takes the recovery lock, with the next ticket, and begins a round.
    fn recover(
        &mut self,
        table: &CallTable,
        node: u32,
        members: &Items<u32>,
    ) -> Result<Vec<Line>, StepFault>
        requires { MayTake (step.Recover node members.now) self.old }
        ensures step { Takes (λ lines. lines.items) result (rules_of table.now) (step.Recover node members.now) self.old self.new }
        ensures seats { AreSeated self.new.config self.new.cores }
    {
        let mut books = self.books;
        books.holder = Some(node);
        books.ticket += 1;
        let ticket = books.ticket;
        let members = members.duplicate()?;
        let own = one(self.alloc, Line::Ticket { ticket, node })?;
        let event = Event::BeginRound { ticket, members };
        let answer = self.feed(table, node, &event, own, books);
        drop(event);
        answer
    }

    /// A node gives the recovery lock back.
    fn give_back(&mut self, node: u32) -> Result<Vec<Line>, StepFault>
        requires { MayTake (step.Yield node) self.old }
        ensures step { (rules : Rules) → Takes (λ lines. lines.items) result rules (step.Yield node) self.old self.new }
        ensures seats { AreSeated self.new.config self.new.cores }
    {
        let lines = one(self.alloc, Line::Yielded(node))?;
        self.books.holder = None;
        Ok(lines)
    }

    /// A node stops: the calls that wait there are gone, and its recovery lock is free.
    fn stop(&mut self, node: u32) -> Result<Vec<Line>, StepFault>
        requires { MayTake (step.Stop node) self.old }
        ensures step { (rules : Rules) → Takes (λ lines. lines.items) result rules (step.Stop node) self.old self.new }
        ensures seats { AreSeated self.new.config self.new.cores }
    {
        let calls = pending_at(self.cores.as_slice(), node)?;
        let lines = stopped(self.alloc, node, calls)?;
        restart_at(&mut self.cores, node);
        mark(&mut self.running, node, false);
        self.books.holder = without_holder(node, self.books.holder);
        Ok(lines)
    }

    /// A node runs again.
    fn start(&mut self, node: u32) -> Result<Vec<Line>, StepFault>
        requires { MayTake (step.Start node) self.old }
        ensures step { (rules : Rules) → Takes (λ lines. lines.items) result rules (step.Start node) self.old self.new }
        ensures seats { AreSeated self.new.config self.new.cores }
    {
        let lines = one(self.alloc, Line::Started(node))?;
        mark(&mut self.running, node, true);
        Ok(lines)
    }

    /// A node places the addresses anew.
    fn takeover(&mut self, table: &CallTable, node: u32) -> Result<Vec<Line>, StepFault>
        requires { MayTake (step.Takeover node) self.old }
        ensures step { Takes (λ lines. lines.items) result (rules_of table.now) (step.Takeover node) self.old self.new }
        ensures seats { AreSeated self.new.config self.new.cores }
    {
        let able = able_nodes(self.alloc, self.able.as_slice(), self.config.nodes)?;
        let own = Vec::new(self.alloc);
        let books = self.books;
        let event = Event::BeginTakeover { able };
        let answer = self.feed(table, node, &event, own, books);
        drop(event);
        answer
    }

    /// A node is marked as able to hold addresses, or as not able.
    fn set_able(&mut self, node: u32, able: bool) -> Result<Vec<Line>, StepFault>
        requires { MayTake (step.Able node able) self.old }
        ensures step { (rules : Rules) → Takes (λ lines. lines.items) result rules (step.Able node able) self.old self.new }
        ensures seats { AreSeated self.new.config self.new.cores }
    {
        mark(&mut self.able, node, able);
        Ok(Vec::new(self.alloc))
    }

    /// Takes a step that is not refused at once. Where it is refused all the same, or memory is wanting, nothing changes.
    pub(crate) fn take(&mut self, table: &CallTable, step: &Step) -> Result<Vec<Line>, StepFault>
        requires { MayTake step.now self.old }
        ensures step { Takes (λ lines. lines.items) result (rules_of table.now) step.now self.old self.new }
        ensures seats { AreSeated self.new.config self.new.cores }
    {
        match step {
            Step::Client { node, op } => self.client(table, *node, op),
            Step::Deliver(number) => self.deliver(table, *number),
            Step::Drop(number) => self.drop(*number),
            Step::Repeat(number) => self.repeat(table, *number),
            Step::Retry(node) => self.retry(table, *node),
            Step::Vacuum { node, db } => self.vacuum(table, *node, *db),
            Step::Recover { node, members } => self.recover(table, *node, members),
            Step::Yield(node) => self.give_back(*node),
            Step::Stop(node) => self.stop(*node),
            Step::Start(node) => self.start(*node),
            Step::Takeover(node) => self.takeover(table, *node),
            Step::Able { node, able } => self.set_able(*node, *able),
        }
    }
}
