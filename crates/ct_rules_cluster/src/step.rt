//! The steps of a cluster, what they print, and why one is refused.
ghost use Rattle.std.specs.Prelude.{◌≡◌, IfOk};

use ct_frame::event::Note;
use ct_frame::frame::Frame;
use ct_values::client::{Answer, ClientOp};
use ct_values::copies::Duplicate;
use ct_values::items::Items;
use ct_values::memory::NoMemory;
use thiserror::Error;

/// One step of a cluster. Messages are named by their numbers, in the order in which they were sent, from 1.
#[derive(Debug, PartialEq, Eq)]
pub enum Step {
    /// A client asks its node.
    Client { node: u32, op: ClientOp },
    /// A message that waits comes to its receiver.
    Deliver(u64),
    /// A message that waits is lost.
    Drop(u64),
    /// A message that was delivered comes again.
    Repeat(u64),
    /// A node sends again what was not answered.
    Retry(u32),
    /// A node vacuums a database.
    Vacuum { node: u32, db: u32 },
    /// A node takes the recovery lock and begins a round of these members, which ascend.
    Recover { node: u32, members: Items<u32> },
    /// A node gives the recovery lock back.
    Yield(u32),
    Stop(u32),
    Start(u32),
    /// A node places the addresses anew.
    Takeover(u32),
    /// A node is marked as able to hold addresses, or as not able.
    Able { node: u32, able: bool },
}

impl Drop for Step {
    /// All that it holds is let go.
    fn drop(self) {
        match self {
            Step::Client { node: _, op: _ } => {}
            Step::Deliver(_) => {}
            Step::Drop(_) => {}
            Step::Repeat(_) => {}
            Step::Retry(_) => {}
            Step::Vacuum { node: _, db: _ } => {}
            Step::Recover {
                node: _,
                members: _,
            } => {}
            Step::Yield(_) => {}
            Step::Stop(_) => {}
            Step::Start(_) => {}
            Step::Takeover(_) => {}
            Step::Able { node: _, able: _ } => {}
        }
    }
}

impl Step {
    /// A copy that equals it.
    pub fn copy(&self) -> Result<Step, NoMemory>
        ensures { IfOk result (λ x. x ≡ self.now) }
    {
        match self {
            Step::Client { node, op } => Ok(Step::Client {
                node: *node,
                op: op.copy()?,
            }),
            Step::Deliver(number) => Ok(Step::Deliver(*number)),
            Step::Drop(number) => Ok(Step::Drop(*number)),
            Step::Repeat(number) => Ok(Step::Repeat(*number)),
            Step::Retry(node) => Ok(Step::Retry(*node)),
            Step::Vacuum { node, db } => Ok(Step::Vacuum {
                node: *node,
                db: *db,
            }),
            Step::Recover { node, members } => Ok(Step::Recover {
                node: *node,
                members: members.duplicate()?,
            }),
            Step::Yield(node) => Ok(Step::Yield(*node)),
            Step::Stop(node) => Ok(Step::Stop(*node)),
            Step::Start(node) => Ok(Step::Start(*node)),
            Step::Takeover(node) => Ok(Step::Takeover(*node)),
            Step::Able { node, able } => Ok(Step::Able {
                node: *node,
                able: *able,
            }),
        }
    }
}

impl Duplicate for Step {
    fn duplicate(&self) -> Result<Step, NoMemory> {
        self.copy()
    }
}

/// One line that a step prints.
#[derive(Debug, PartialEq, Eq)]
pub enum Line {
    /// The message of this number was sent.
    Sent { number: u64, frame: Frame },
    /// The client call of this number is answered.
    Answered { call: u64, answer: Answer },
    Noted { node: u32, note: Note },
    /// The recovery lock was given to the node, with this ticket.
    Ticket { ticket: u64, node: u32 },
    Yielded(u32),
    Stopped(u32),
    Started(u32),
    /// The client call of this number ended with its node.
    Gone(u64),
    /// The message of this number came to a node that is down.
    Lost(u64),
}

impl Drop for Line {
    /// All that it holds is let go.
    fn drop(self) {
        match self {
            Line::Sent {
                number: _,
                frame: _,
            } => {}
            Line::Answered { call: _, answer: _ } => {}
            Line::Noted { node: _, note: _ } => {}
            Line::Ticket { ticket: _, node: _ } => {}
            Line::Yielded(_) => {}
            Line::Stopped(_) => {}
            Line::Started(_) => {}
            Line::Gone(_) => {}
            Line::Lost(_) => {}
        }
    }
}

impl Line {
    /// A copy that equals it.
    pub fn copy(&self) -> Result<Line, NoMemory>
        ensures { IfOk result (λ x. x ≡ self.now) }
    {
        match self {
            Line::Sent { number, frame } => Ok(Line::Sent {
                number: *number,
                frame: frame.copy()?,
            }),
            Line::Answered { call, answer } => Ok(Line::Answered {
                call: *call,
                answer: answer.copy()?,
            }),
            Line::Noted { node, note } => Ok(Line::Noted {
                node: *node,
                note: note.copy()?,
            }),
            Line::Ticket { ticket, node } => Ok(Line::Ticket {
                ticket: *ticket,
                node: *node,
            }),
            Line::Yielded(node) => Ok(Line::Yielded(*node)),
            Line::Stopped(node) => Ok(Line::Stopped(*node)),
            Line::Started(node) => Ok(Line::Started(*node)),
            Line::Gone(call) => Ok(Line::Gone(*call)),
            Line::Lost(number) => Ok(Line::Lost(*number)),
        }
    }
}

impl Duplicate for Line {
    fn duplicate(&self) -> Result<Line, NoMemory> {
        self.copy()
    }
}

/// Why a step is refused. Each comes before those below it, but `NoMemory` may come before any.
#[derive(Debug, Drop, PartialEq, Eq, Error)]
pub enum StepFault {
    /// There is no node of that number. It is the first one that the step names and that is not there.
    #[error("no node {0}")]
    NoSuchNode(u32),
    #[error("node {0} is down")]
    NodeDown(u32),
    #[error("node {0} runs")]
    NodeUp(u32),
    /// No database has this number.
    #[error("no database {0}")]
    NoSuchDb(u32),
    /// A persistent database is not vacuumed.
    #[error("database {0} is persistent")]
    WrongKind(u32),
    #[error("node {0} serves no clients")]
    NotServing(u32),
    /// The node does not lead its generation, or the round that it leads is not completed.
    #[error("node {0} does not lead its generation")]
    NotLeader(u32),
    /// No message of this number waits or, where it is to come again, was delivered.
    #[error("no such message {0}")]
    NoSuchFrame(u64),
    /// The node is no member of the round that it is to lead.
    #[error("node {0} is no member")]
    NotMember(u32),
    /// This other node holds the recovery lock.
    #[error("node {0} holds the recovery lock")]
    LockHeld(u32),
    /// The node does not hold the recovery lock, but this one does, or none.
    #[error("the node does not hold the recovery lock")]
    NotHolder(Option<u32>),
    /// A number would reach 2^62.
    #[error("a number would reach its limit")]
    Exhausted,
    #[error("want of memory")]
    NoMemory,
}

impl From<NoMemory> for StepFault {
    ghost use Rattle.ct_rules_cluster.specs.declared.step.StepFault.TheVariants.{NoMemory as Want};

    ghost from_gives = { λ _ e. e ≡ Want };

    fn from(_e: NoMemory) -> StepFault {
        StepFault::NoMemory
    }
}

/// A client call that waits for its answer.
#[derive(Debug, PartialEq, Eq)]
pub struct PendingCall {
    pub call: u64,
    pub node: u32,
    pub op: ClientOp,
    /// The number of the commit, or 0 where the call is none.
    pub seq: u64,
}

impl Drop for PendingCall {
    /// All that it holds is let go.
    fn drop(self) {
        let PendingCall {
            call: _,
            node: _,
            op: _,
            seq: _,
        } = self;
    }
}

impl PendingCall {
    /// A copy that equals it.
    pub fn copy(&self) -> Result<PendingCall, NoMemory>
        ensures { IfOk result (λ x. x ≡ self.now) }
    {
        Ok(PendingCall {
            call: self.call,
            node: self.node,
            op: self.op.copy()?,
            seq: self.seq,
        })
    }
}

impl Duplicate for PendingCall {
    fn duplicate(&self) -> Result<PendingCall, NoMemory> {
        self.copy()
    }
}
