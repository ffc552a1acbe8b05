//! What a node posts to another one.
ghost use Rattle.std.specs.Prelude.{◌≡◌, IfOk};

use ct_values::copies::Duplicate;
use ct_values::memory::NoMemory;
use ct_values::value::Value;
use std::collections::LinkedList;

/// What a node posts to another one: for the service of this number; its place, from 0, among all that was posted from the
/// one to the other; and its body.
#[derive(Debug, Drop)]
pub struct Message {
    pub srvid: u64,
    pub place: u64,
    pub body: Value,
}

impl Message {
    /// A copy that equals it.
    pub fn copy(&self) -> Result<Message, NoMemory>
        ensures { IfOk result (λ m. m ≡ self.now) }
    {
        Ok(Message {
            srvid: self.srvid,
            place: self.place,
            body: self.body.copy()?,
        })
    }
}

impl Duplicate for Message {
    fn duplicate(&self) -> Result<Message, NoMemory> {
        self.copy()
    }
}

/// What an end of a queue may do, and what went through it so far. It stands in proofs alone: no value of it is made.
pub struct Log {
    pub posts: bool,
    pub takes: bool,
    pub posted: LinkedList<Message>,
    pub taken: LinkedList<Message>,
}
