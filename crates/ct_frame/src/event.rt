//! What comes to a node, and what it does then.
ghost use Rattle.std.specs.Prelude.{◌≡◌, IfOk};

use crate::frame::Frame;
use ct_values::address::Address;
use ct_values::client::{Answer, ClientOp};
use ct_values::copies::Duplicate;
use ct_values::items::Items;
use ct_values::key::Key;
use ct_values::memory::NoMemory;

/// What comes to a node.
#[derive(Debug, PartialEq, Eq)]
pub enum Event {
    /// A client asks, under this number.
    Client { call: u64, op: ClientOp },
    /// A message arrives.
    Arrive(Frame),
    /// It is time to send again what was not answered.
    Retry,
    /// It is time to remove the deleted records of a database.
    Vacuum { db: u32 },
    /// This node is to lead a recovery of these members, in the generation of this ticket.
    BeginRound { ticket: u64, members: Items<u32> },
    /// This node is to place the addresses anew over these nodes.
    BeginTakeover { able: Items<u32> },
}

impl Drop for Event {
    /// All that it holds is let go.
    fn drop(self) {
        match self {
            Event::Client { call: _, op: _ } => {}
            Event::Arrive(_) => {}
            Event::Retry => {}
            Event::Vacuum { db: _ } => {}
            Event::BeginRound {
                ticket: _,
                members: _,
            } => {}
            Event::BeginTakeover { able: _ } => {}
        }
    }
}

impl Event {
    /// A copy that equals it.
    pub fn copy(&self) -> Result<Event, NoMemory>
        ensures { IfOk result (λ x. x ≡ self.now) }
    {
        match self {
            Event::Client { call, op } => Ok(Event::Client {
                call: *call,
                op: op.copy()?,
            }),
            Event::Arrive(frame) => Ok(Event::Arrive(frame.copy()?)),
            Event::Retry => Ok(Event::Retry),
            Event::Vacuum { db } => Ok(Event::Vacuum { db: *db }),
            Event::BeginRound { ticket, members } => Ok(Event::BeginRound {
                ticket: *ticket,
                members: members.duplicate()?,
            }),
            Event::BeginTakeover { able } => Ok(Event::BeginTakeover {
                able: able.duplicate()?,
            }),
        }
    }
}

impl Duplicate for Event {
    fn duplicate(&self) -> Result<Event, NoMemory> {
        self.copy()
    }
}

/// What a node tells beside its messages and answers.
#[derive(Debug, PartialEq, Eq)]
pub enum Note {
    /// A deleted record was removed on all nodes.
    Vacuumed {
        db: u32,
        key: Key,
    },
    /// A lock ended without its client.
    Ended {
        db: u32,
        key: Key,
    },
    /// The leader merged what the members hold. The parents are the generations from which the volatile and the persistent
    /// databases come, or 0.
    Round {
        generation: u64,
        members: Items<u32>,
        vparent: u64,
        pparent: u64,
    },
    /// This generation is installed.
    Installed(u64),
    /// Clients are served in this generation.
    Thawed(u64),
    /// An address was given up.
    Released(Address),
    /// An address was taken.
    Took(Address),
}

impl Drop for Note {
    /// All that it holds is let go.
    fn drop(self) {
        match self {
            Note::Vacuumed { db: _, key: _ } => {}
            Note::Ended { db: _, key: _ } => {}
            Note::Round {
                generation: _,
                members: _,
                vparent: _,
                pparent: _,
            } => {}
            Note::Installed(_) => {}
            Note::Thawed(_) => {}
            Note::Released(_) => {}
            Note::Took(_) => {}
        }
    }
}

impl Note {
    /// A copy that equals it.
    pub fn copy(&self) -> Result<Note, NoMemory>
        ensures { IfOk result (λ x. x ≡ self.now) }
    {
        match self {
            Note::Vacuumed { db, key } => Ok(Note::Vacuumed {
                db: *db,
                key: key.copy()?,
            }),
            Note::Ended { db, key } => Ok(Note::Ended {
                db: *db,
                key: key.copy()?,
            }),
            Note::Round {
                generation,
                members,
                vparent,
                pparent,
            } => Ok(Note::Round {
                generation: *generation,
                members: members.duplicate()?,
                vparent: *vparent,
                pparent: *pparent,
            }),
            Note::Installed(generation) => Ok(Note::Installed(*generation)),
            Note::Thawed(generation) => Ok(Note::Thawed(*generation)),
            Note::Released(address) => Ok(Note::Released(*address)),
            Note::Took(address) => Ok(Note::Took(*address)),
        }
    }
}

impl Duplicate for Note {
    fn duplicate(&self) -> Result<Note, NoMemory> {
        self.copy()
    }
}

/// What a node does.
#[derive(Debug, Drop, PartialEq, Eq)]
pub enum Out {
    /// It sends a message.
    Send(Frame),
    /// It answers the client call of this number.
    Answer { call: u64, answer: Answer },
    Note(Note),
}

impl Out {
    /// A copy that equals it.
    pub fn copy(&self) -> Result<Out, NoMemory>
        ensures { IfOk result (λ x. x ≡ self.now) }
    {
        match self {
            Out::Send(frame) => Ok(Out::Send(frame.copy()?)),
            Out::Answer { call, answer } => Ok(Out::Answer {
                call: *call,
                answer: answer.copy()?,
            }),
            Out::Note(note) => Ok(Out::Note(note.copy()?)),
        }
    }
}

impl Duplicate for Out {
    fn duplicate(&self) -> Result<Out, NoMemory> {
        self.copy()
    }
}
