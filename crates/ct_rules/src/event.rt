//! What comes to one record, and what the node does about it.
ghost use Rattle.std.specs.Prelude.{◌≡◌, IfOk};

use ct_frame::frame::Msg;
use ct_values::client::{Answer, ClientOp};
use ct_values::copies::Duplicate;
use ct_values::items::Items;
use ct_values::key::Key;
use ct_values::memory::NoMemory;
use ct_values::value::Value;

/// Where a record is looked at.
#[derive(Debug, Drop, PartialEq, Eq)]
pub struct Place {
    /// The node.
    pub me: u32,
    /// The record's location master.
    pub lmaster: u32,
    pub db: u32,
    pub key: Key,
    /// The RSN that a record gets here that is made anew.
    pub floor: u64,
    /// Whether the database hands out read-only copies.
    pub readonly: bool,
}

impl Place {
    /// A copy that equals it.
    pub fn copy(&self) -> Result<Place, NoMemory>
        ensures { IfOk result (λ x. x ≡ self.now) }
    {
        Ok(Place {
            me: self.me,
            lmaster: self.lmaster,
            db: self.db,
            key: self.key.copy()?,
            floor: self.floor,
            readonly: self.readonly,
        })
    }
}

impl Duplicate for Place {
    fn duplicate(&self) -> Result<Place, NoMemory> {
        self.copy()
    }
}

/// What comes to a record.
#[derive(Debug, Drop, PartialEq, Eq)]
pub enum MoveEvent {
    /// A client call wants the record: a lock, a read, a write or a function.
    Want { call: u64, op: ClientOp },
    /// The client that holds the lock writes a value.
    Store { call: u64, value: Value },
    /// The client that holds the lock gives it back.
    Unlock { call: u64 },
    /// A message comes.
    Arrive { sender: u32, msg: Msg },
    /// The database is vacuumed. The list has all other members.
    Vacuum { others: Items<u32> },
    /// What was not answered is sent again.
    Resend,
}

impl MoveEvent {
    /// A copy that equals it.
    pub fn copy(&self) -> Result<MoveEvent, NoMemory>
        ensures { IfOk result (λ x. x ≡ self.now) }
    {
        match self {
            MoveEvent::Want { call, op } => Ok(MoveEvent::Want {
                call: *call,
                op: op.copy()?,
            }),
            MoveEvent::Store { call, value } => Ok(MoveEvent::Store {
                call: *call,
                value: value.copy()?,
            }),
            MoveEvent::Unlock { call } => Ok(MoveEvent::Unlock { call: *call }),
            MoveEvent::Arrive { sender, msg } => Ok(MoveEvent::Arrive {
                sender: *sender,
                msg: msg.copy()?,
            }),
            MoveEvent::Vacuum { others } => Ok(MoveEvent::Vacuum {
                others: others.duplicate()?,
            }),
            MoveEvent::Resend => Ok(MoveEvent::Resend),
        }
    }
}

impl Duplicate for MoveEvent {
    fn duplicate(&self) -> Result<MoveEvent, NoMemory> {
        self.copy()
    }
}

/// What the node does about a record.
#[derive(Debug, Drop, PartialEq, Eq)]
pub enum Act {
    /// It sends a message.
    Send { receiver: u32, msg: Msg },
    /// It answers a client call.
    Answer { call: u64, answer: Answer },
    /// The record is vacuumed, and a record that is made anew in this database gets this RSN from now on.
    Finished { floor: u64 },
}

impl Act {
    /// A copy that equals it.
    pub fn copy(&self) -> Result<Act, NoMemory>
        ensures { IfOk result (λ x. x ≡ self.now) }
    {
        match self {
            Act::Send { receiver, msg } => Ok(Act::Send {
                receiver: *receiver,
                msg: msg.copy()?,
            }),
            Act::Answer { call, answer } => Ok(Act::Answer {
                call: *call,
                answer: answer.copy()?,
            }),
            Act::Finished { floor } => Ok(Act::Finished { floor: *floor }),
        }
    }
}

impl Duplicate for Act {
    fn duplicate(&self) -> Result<Act, NoMemory> {
        self.copy()
    }
}
