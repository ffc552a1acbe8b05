//! What clients ask of a node, and what they are answered.
ghost use Rattle.std.specs.Prelude.{◌≡◌, IfOk};

use crate::copies::Duplicate;
use crate::items::Items;
use crate::key::Key;
use crate::memory::NoMemory;
use crate::value::Value;

/// A key and the value that it is to have.
#[derive(Debug, PartialEq, Eq)]
pub struct Pair {
    pub key: Key,
    pub value: Value,
}

impl Drop for Pair {
    /// All that it holds is let go.
    fn drop(self) {
        let Pair { key: _, value: _ } = self;
    }
}

impl Pair {
    /// A copy that equals it.
    pub fn copy(&self) -> Result<Pair, NoMemory>
        ensures { IfOk result (λ x. x ≡ self.now) }
    {
        Ok(Pair {
            key: self.key.copy()?,
            value: self.value.copy()?,
        })
    }

    /// Its key, and its value.
    pub fn into_parts(self) -> (Key, Value)
        ensures { result ≡ (self.key, self.value) }
    {
        let Pair { key, value } = self;
        (key, value)
    }
}

impl Duplicate for Pair {
    fn duplicate(&self) -> Result<Pair, NoMemory> {
        self.copy()
    }
}

/// What a client asks of a node. `db` is the place of a database in the configuration, counted from 0.
#[derive(Debug, PartialEq, Eq)]
pub enum ClientOp {
    /// Take the lock of a record, and learn its value.
    Lock {
        db: u32,
        key: Key,
    },
    /// Learn the value of a record without its lock.
    Read {
        db: u32,
        key: Key,
    },
    /// Write a value to a record in one step, with no lock held before.
    Write {
        db: u32,
        key: Key,
        value: Value,
    },
    /// Change a record by one of the functions that every node has, in one step.
    Apply {
        db: u32,
        key: Key,
        function: u32,
        arg: Value,
    },
    /// Write a value under the lock of a record, which the node holds.
    Store {
        db: u32,
        key: Key,
        value: Value,
    },
    /// Give the lock of a record back.
    Unlock {
        db: u32,
        key: Key,
    },
    /// Write all of these records of a persistent database, or none.
    Commit {
        db: u32,
        writes: Items<Pair>,
    },
}

impl Drop for ClientOp {
    /// All that it holds is let go.
    fn drop(self) {
        match self {
            ClientOp::Lock { db: _, key: _ } => {}
            ClientOp::Read { db: _, key: _ } => {}
            ClientOp::Write {
                db: _,
                key: _,
                value: _,
            } => {}
            ClientOp::Apply {
                db: _,
                key: _,
                function: _,
                arg: _,
            } => {}
            ClientOp::Store {
                db: _,
                key: _,
                value: _,
            } => {}
            ClientOp::Unlock { db: _, key: _ } => {}
            ClientOp::Commit { db: _, writes: _ } => {}
        }
    }
}

impl ClientOp {
    /// A copy that equals it.
    pub fn copy(&self) -> Result<ClientOp, NoMemory>
        ensures { IfOk result (λ x. x ≡ self.now) }
    {
        match self {
            ClientOp::Lock { db, key } => Ok(ClientOp::Lock {
                db: *db,
                key: key.copy()?,
            }),
            ClientOp::Read { db, key } => Ok(ClientOp::Read {
                db: *db,
                key: key.copy()?,
            }),
            ClientOp::Write { db, key, value } => Ok(ClientOp::Write {
                db: *db,
                key: key.copy()?,
                value: value.copy()?,
            }),
            ClientOp::Apply {
                db,
                key,
                function,
                arg,
            } => Ok(ClientOp::Apply {
                db: *db,
                key: key.copy()?,
                function: *function,
                arg: arg.copy()?,
            }),
            ClientOp::Store { db, key, value } => Ok(ClientOp::Store {
                db: *db,
                key: key.copy()?,
                value: value.copy()?,
            }),
            ClientOp::Unlock { db, key } => Ok(ClientOp::Unlock {
                db: *db,
                key: key.copy()?,
            }),
            ClientOp::Commit { db, writes } => Ok(ClientOp::Commit {
                db: *db,
                writes: writes.duplicate()?,
            }),
        }
    }
}

impl Duplicate for ClientOp {
    fn duplicate(&self) -> Result<ClientOp, NoMemory> {
        self.copy()
    }
}

/// Why a node refuses what a client asks.
#[derive(Clone, Copy, Debug, PartialEq, Eq)]
pub enum Why {
    /// No database has this place.
    NoSuchDb,
    /// The database is not of a kind that takes this request.
    WrongKind,
    /// The node serves no clients now.
    NotServing,
    /// This earlier call on the record waits for its answer.
    CallPending(u64),
    /// An earlier commit waits for its answer.
    CommitPending,
    /// The lock is held already.
    AlreadyLocked,
    /// The lock is not held.
    NotLocked,
    /// No call has this number.
    NoSuchCall,
    /// There is no room for one more.
    Full,
    /// The value would have this many bytes, which is too many.
    TooLong(u64),
}

impl Why {
    /// A copy that equals it.
    pub fn copy(&self) -> Result<Why, NoMemory>
        ensures { result ≡ Ok self.now }
    {
        Ok(*self)
    }
}

impl Duplicate for Why {
    fn duplicate(&self) -> Result<Why, NoMemory> {
        self.copy()
    }
}

/// What a node answers to a client.
#[derive(Debug, PartialEq, Eq)]
pub enum Answer {
    /// The lock is held, and the record has this value.
    Locked(Value),
    /// The record has this value.
    Read(Value),
    Written,
    /// The record has this value, which the function gave.
    Applied(Value),
    Stored,
    Unlocked,
    /// All the writes stand, as the database's commit of this number.
    Committed(u64),
    /// The commit of number `seq` stands on some nodes and may be lost: `missing` did not take it.
    Unsure { seq: u64, missing: Items<u32> },
    Refused(Why),
}

impl Drop for Answer {
    /// All that it holds is let go.
    fn drop(self) {
        match self {
            Answer::Locked(_) => {}
            Answer::Read(_) => {}
            Answer::Written => {}
            Answer::Applied(_) => {}
            Answer::Stored => {}
            Answer::Unlocked => {}
            Answer::Committed(_) => {}
            Answer::Unsure { seq: _, missing: _ } => {}
            Answer::Refused(_) => {}
        }
    }
}

impl Answer {
    /// A copy that equals it.
    pub fn copy(&self) -> Result<Answer, NoMemory>
        ensures { IfOk result (λ x. x ≡ self.now) }
    {
        match self {
            Answer::Locked(value) => Ok(Answer::Locked(value.copy()?)),
            Answer::Read(value) => Ok(Answer::Read(value.copy()?)),
            Answer::Written => Ok(Answer::Written),
            Answer::Applied(value) => Ok(Answer::Applied(value.copy()?)),
            Answer::Stored => Ok(Answer::Stored),
            Answer::Unlocked => Ok(Answer::Unlocked),
            Answer::Committed(seq) => Ok(Answer::Committed(*seq)),
            Answer::Unsure { seq, missing } => Ok(Answer::Unsure {
                seq: *seq,
                missing: missing.duplicate()?,
            }),
            Answer::Refused(why) => Ok(Answer::Refused(*why)),
        }
    }
}

impl Duplicate for Answer {
    fn duplicate(&self) -> Result<Answer, NoMemory> {
        self.copy()
    }
}
