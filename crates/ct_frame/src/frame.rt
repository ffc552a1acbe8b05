//! Messages between nodes.
ghost use Rattle.std.specs.Prelude.{◌≡◌, IfOk};

use ct_values::address::Address;
use ct_values::boxed::BoxedItems;
use ct_values::client::Pair;
use ct_values::copies::Duplicate;
use ct_values::items::Items;
use ct_values::key::Key;
use ct_values::memory::NoMemory;
use ct_values::value::Value;

/// What a request for a record is for.
#[derive(Clone, Copy, Debug, PartialEq, Eq)]
pub enum CallKind {
    /// To take its lock, and so to become its data master.
    Lock,
    /// To read it, for which a read-only copy is enough.
    Read,
}

impl CallKind {
    /// A copy that equals it.
    pub fn copy(&self) -> Result<CallKind, NoMemory>
        ensures { result ≡ Ok self.now }
    {
        Ok(*self)
    }
}

impl Duplicate for CallKind {
    fn duplicate(&self) -> Result<CallKind, NoMemory> {
        self.copy()
    }
}

/// A copy of a record, as a recovery moves it.
#[derive(Debug, PartialEq, Eq)]
pub struct TableRow {
    pub db: u32,
    pub key: Key,
    pub rsn: u64,
    pub value: Value,
    /// The node that is data master of the record, where that is known.
    pub master: Option<u32>,
}

impl Drop for TableRow {
    /// All that it holds is let go.
    fn drop(self) {
        let TableRow {
            db: _,
            key: _,
            rsn: _,
            value: _,
            master: _,
        } = self;
    }
}

impl TableRow {
    /// A copy that equals it.
    pub fn copy(&self) -> Result<TableRow, NoMemory>
        ensures { IfOk result (λ x. x ≡ self.now) }
    {
        Ok(TableRow {
            db: self.db,
            key: self.key.copy()?,
            rsn: self.rsn,
            value: self.value.copy()?,
            master: self.master,
        })
    }
}

impl Duplicate for TableRow {
    fn duplicate(&self) -> Result<TableRow, NoMemory> {
        self.copy()
    }
}

/// The whole of a persistent database: its sequence number, and its pairs in ascending order of their keys.
#[derive(Debug, PartialEq, Eq)]
pub struct PTable {
    pub db: u32,
    pub seq: u64,
    pub pairs: Items<Pair>,
}

impl Drop for PTable {
    /// All that it holds is let go.
    fn drop(self) {
        let PTable {
            db: _,
            seq: _,
            pairs: _,
        } = self;
    }
}

impl PTable {
    /// A copy that equals it.
    pub fn copy(&self) -> Result<PTable, NoMemory>
        ensures { IfOk result (λ x. x ≡ self.now) }
    {
        Ok(PTable {
            db: self.db,
            seq: self.seq,
            pairs: self.pairs.duplicate()?,
        })
    }
}

impl Duplicate for PTable {
    fn duplicate(&self) -> Result<PTable, NoMemory> {
        self.copy()
    }
}

/// An address and the node that is to hold it, if one can.
#[derive(Debug, Drop, PartialEq, Eq)]
pub struct Assigned {
    pub address: Address,
    pub node: Option<u32>,
}

impl Assigned {
    /// A copy that equals it. It takes no memory.
    pub fn copy(&self) -> Result<Assigned, NoMemory>
        ensures { result ≡ Ok self.now }
    {
        Ok(Assigned {
            address: self.address,
            node: self.node,
        })
    }
}

impl Duplicate for Assigned {
    fn duplicate(&self) -> Result<Assigned, NoMemory> {
        self.copy()
    }
}

/// What one node tells another. `db` is the place of a database in the configuration, counted from 0, and `request` the
/// number that the node that wants the record gave its request.
#[derive(Debug, PartialEq, Eq)]
pub enum Msg {
    /// Asks the location master for a record.
    Call {
        db: u32,
        key: Key,
        request: u64,
        kind: CallKind,
    },
    /// Asks the data master for a record on behalf of `node`, if its copy has RSN `least` or above.
    Recall {
        db: u32,
        key: Key,
        least: u64,
        node: u32,
        request: u64,
        kind: CallKind,
    },
    /// Gives a record back to its location master.
    Give {
        db: u32,
        key: Key,
        rsn: u64,
        value: Value,
    },
    /// Hands a record to its next data master.
    Pass {
        db: u32,
        key: Key,
        request: u64,
        rsn: u64,
        value: Value,
    },
    /// Says that a record that was passed was not taken.
    Refuse {
        db: u32,
        key: Key,
        request: u64,
        rsn: u64,
    },
    /// Hands out a read-only copy.
    Grant {
        db: u32,
        key: Key,
        request: u64,
        rsn: u64,
        value: Value,
    },
    /// Tells the location master that the data master served the request of `node`.
    Done {
        db: u32,
        key: Key,
        node: u32,
        request: u64,
    },
    /// Calls a read-only copy in.
    Revoke {
        db: u32,
        key: Key,
        rsn: u64,
    },
    /// Says that the read-only copy is gone.
    RevokeAck {
        db: u32,
        key: Key,
        rsn: u64,
    },
    /// The first phase of a vacuum: keep the empty value under this RSN.
    VStore {
        db: u32,
        key: Key,
        rsn: u64,
    },
    VStored {
        db: u32,
        key: Key,
        rsn: u64,
    },
    /// The second phase of a vacuum: forget copies up to this RSN.
    VDelete {
        db: u32,
        key: Key,
        rsn: u64,
    },
    VDeleted {
        db: u32,
        key: Key,
        rsn: u64,
    },
    /// A recovery begins, with these members.
    Freeze {
        members: Items<u32>,
    },
    FreezeAck,
    /// Asks for all that a member holds.
    Pull,
    /// All that a member holds, and the generations from which its volatile and its persistent databases come.
    PullReply {
        vbase: u64,
        pbase: u64,
        table: BoxedItems<TableRow>,
        ptables: BoxedItems<PTable>,
        addresses: BoxedItems<Address>,
    },
    /// All that every member is to hold.
    Push {
        members: BoxedItems<u32>,
        table: BoxedItems<TableRow>,
        ptables: BoxedItems<PTable>,
        assigned: BoxedItems<Assigned>,
    },
    PushAck,
    /// The recovery is over.
    Thaw,
    /// Stores the writes of the commit of number `seq`.
    PUpdate {
        db: u32,
        seq: u64,
        writes: Items<Pair>,
    },
    PAck {
        db: u32,
        seq: u64,
    },
    /// Has a node give up all addresses but these, in the takeover run of number `run`.
    Release {
        run: u64,
        keep: Items<Address>,
    },
    ReleaseAck {
        run: u64,
    },
    /// Says which node is to hold each address.
    Take {
        run: u64,
        assigned: Items<Assigned>,
    },
}

impl Drop for Msg {
    /// All that it holds is let go.
    fn drop(self) {
        match self {
            Msg::Call {
                db: _,
                key: _,
                request: _,
                kind: _,
            } => {}
            Msg::Recall {
                db: _,
                key: _,
                least: _,
                node: _,
                request: _,
                kind: _,
            } => {}
            Msg::Give {
                db: _,
                key: _,
                rsn: _,
                value: _,
            } => {}
            Msg::Pass {
                db: _,
                key: _,
                request: _,
                rsn: _,
                value: _,
            } => {}
            Msg::Refuse {
                db: _,
                key: _,
                request: _,
                rsn: _,
            } => {}
            Msg::Grant {
                db: _,
                key: _,
                request: _,
                rsn: _,
                value: _,
            } => {}
            Msg::Done {
                db: _,
                key: _,
                node: _,
                request: _,
            } => {}
            Msg::Revoke {
                db: _,
                key: _,
                rsn: _,
            } => {}
            Msg::RevokeAck {
                db: _,
                key: _,
                rsn: _,
            } => {}
            Msg::VStore {
                db: _,
                key: _,
                rsn: _,
            } => {}
            Msg::VStored {
                db: _,
                key: _,
                rsn: _,
            } => {}
            Msg::VDelete {
                db: _,
                key: _,
                rsn: _,
            } => {}
            Msg::VDeleted {
                db: _,
                key: _,
                rsn: _,
            } => {}
            Msg::Freeze { members: _ } => {}
            Msg::FreezeAck => {}
            Msg::Pull => {}
            Msg::PullReply {
                vbase: _,
                pbase: _,
                table: _,
                ptables: _,
                addresses: _,
            } => {}
            Msg::Push {
                members: _,
                table: _,
                ptables: _,
                assigned: _,
            } => {}
            Msg::PushAck => {}
            Msg::Thaw => {}
            Msg::PUpdate {
                db: _,
                seq: _,
                writes: _,
            } => {}
            Msg::PAck { db: _, seq: _ } => {}
            Msg::Release { run: _, keep: _ } => {}
            Msg::ReleaseAck { run: _ } => {}
            Msg::Take {
                run: _,
                assigned: _,
            } => {}
        }
    }
}

impl Msg {
    /// A copy that equals it.
    pub fn copy(&self) -> Result<Msg, NoMemory>
        ensures { IfOk result (λ x. x ≡ self.now) }
    {
        match self {
            Msg::Call {
                db,
                key,
                request,
                kind,
            } => Ok(Msg::Call {
                db: *db,
                key: key.copy()?,
                request: *request,
                kind: *kind,
            }),
            Msg::Recall {
                db,
                key,
                least,
                node,
                request,
                kind,
            } => Ok(Msg::Recall {
                db: *db,
                key: key.copy()?,
                least: *least,
                node: *node,
                request: *request,
                kind: *kind,
            }),
            Msg::Give {
                db,
                key,
                rsn,
                value,
            } => Ok(Msg::Give {
                db: *db,
                key: key.copy()?,
                rsn: *rsn,
                value: value.copy()?,
            }),
            Msg::Pass {
                db,
                key,
                request,
                rsn,
                value,
            } => Ok(Msg::Pass {
                db: *db,
                key: key.copy()?,
                request: *request,
                rsn: *rsn,
                value: value.copy()?,
            }),
            Msg::Refuse {
                db,
                key,
                request,
                rsn,
            } => Ok(Msg::Refuse {
                db: *db,
                key: key.copy()?,
                request: *request,
                rsn: *rsn,
            }),
            Msg::Grant {
                db,
                key,
                request,
                rsn,
                value,
            } => Ok(Msg::Grant {
                db: *db,
                key: key.copy()?,
                request: *request,
                rsn: *rsn,
                value: value.copy()?,
            }),
            Msg::Done {
                db,
                key,
                node,
                request,
            } => Ok(Msg::Done {
                db: *db,
                key: key.copy()?,
                node: *node,
                request: *request,
            }),
            Msg::Revoke { db, key, rsn } => Ok(Msg::Revoke {
                db: *db,
                key: key.copy()?,
                rsn: *rsn,
            }),
            Msg::RevokeAck { db, key, rsn } => Ok(Msg::RevokeAck {
                db: *db,
                key: key.copy()?,
                rsn: *rsn,
            }),
            Msg::VStore { db, key, rsn } => Ok(Msg::VStore {
                db: *db,
                key: key.copy()?,
                rsn: *rsn,
            }),
            Msg::VStored { db, key, rsn } => Ok(Msg::VStored {
                db: *db,
                key: key.copy()?,
                rsn: *rsn,
            }),
            Msg::VDelete { db, key, rsn } => Ok(Msg::VDelete {
                db: *db,
                key: key.copy()?,
                rsn: *rsn,
            }),
            Msg::VDeleted { db, key, rsn } => Ok(Msg::VDeleted {
                db: *db,
                key: key.copy()?,
                rsn: *rsn,
            }),
            Msg::Freeze { members } => Ok(Msg::Freeze {
                members: members.duplicate()?,
            }),
            Msg::FreezeAck => Ok(Msg::FreezeAck),
            Msg::Pull => Ok(Msg::Pull),
            Msg::PullReply {
                vbase,
                pbase,
                table,
                ptables,
                addresses,
            } => Ok(Msg::PullReply {
                vbase: *vbase,
                pbase: *pbase,
                table: table.duplicate()?,
                ptables: ptables.duplicate()?,
                addresses: addresses.duplicate()?,
            }),
            Msg::Push {
                members,
                table,
                ptables,
                assigned,
            } => Ok(Msg::Push {
                members: members.duplicate()?,
                table: table.duplicate()?,
                ptables: ptables.duplicate()?,
                assigned: assigned.duplicate()?,
            }),
            Msg::PushAck => Ok(Msg::PushAck),
            Msg::Thaw => Ok(Msg::Thaw),
            Msg::PUpdate { db, seq, writes } => Ok(Msg::PUpdate {
                db: *db,
                seq: *seq,
                writes: writes.duplicate()?,
            }),
            Msg::PAck { db, seq } => Ok(Msg::PAck { db: *db, seq: *seq }),
            Msg::Release { run, keep } => Ok(Msg::Release {
                run: *run,
                keep: keep.duplicate()?,
            }),
            Msg::ReleaseAck { run } => Ok(Msg::ReleaseAck { run: *run }),
            Msg::Take { run, assigned } => Ok(Msg::Take {
                run: *run,
                assigned: assigned.duplicate()?,
            }),
        }
    }
}

impl Duplicate for Msg {
    fn duplicate(&self) -> Result<Msg, NoMemory> {
        self.copy()
    }
}

/// A message on its way. One of another generation than its receiver's is dropped, but for those that begin a recovery.
#[derive(Debug, PartialEq, Eq)]
pub struct Frame {
    pub generation: u64,
    pub sender: u32,
    pub receiver: u32,
    pub msg: Msg,
}

impl Drop for Frame {
    /// All that it holds is let go.
    fn drop(self) {
        let Frame {
            generation: _,
            sender: _,
            receiver: _,
            msg: _,
        } = self;
    }
}

impl Frame {
    /// A copy that equals it.
    pub fn copy(&self) -> Result<Frame, NoMemory>
        ensures { IfOk result (λ x. x ≡ self.now) }
    {
        Ok(Frame {
            generation: self.generation,
            sender: self.sender,
            receiver: self.receiver,
            msg: self.msg.copy()?,
        })
    }
}

impl Duplicate for Frame {
    fn duplicate(&self) -> Result<Frame, NoMemory> {
        self.copy()
    }
}
