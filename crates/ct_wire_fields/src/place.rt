//! Which field of a frame comes next.

use ct_values::address::Address;
use ct_values::key::Key;
use ct_values::value::Value;

/// What a frame is for. Its number on the wire is its place here, counted from 1.
#[derive(Clone, Copy, Debug, PartialEq, Eq)]
pub enum Operation {
    Call,
    Recall,
    Give,
    Pass,
    Refuse,
    Grant,
    Done,
    Revoke,
    RevokeAck,
    VStore,
    VStored,
    VDelete,
    VDeleted,
    Freeze,
    FreezeAck,
    Pull,
    PullReply,
    Push,
    PushAck,
    Thaw,
    PUpdate,
    PAck,
    Release,
    ReleaseAck,
    Take,
}

/// A field that is a number. `left` counts the items of a list that are still to come, this one among them.
#[derive(Debug, Drop)]
pub enum NumberPlace {
    Length,
    Magic,
    Version,
    Generation,
    Operation,
    Receiver,
    Sender,
    Request,
    Db,
    Kind { key: Key },
    Least { key: Key },
    Node { key: Key },
    Rsn { key: Key },
    NodeCount,
    NodeItem { left: u64 },
    VolatileBase,
    PersistentBase,
    RowCount,
    RowDb { left: u64 },
    RowRsn { left: u64, key: Key },
    RowMaster { left: u64, key: Key, value: Value },
    PTableCount,
    PTableDb { left: u64 },
    PTableSeq { left: u64 },
    PairCount { left: u64 },
    AddressCount,
    AssignedCount,
    AssignedNode { left: u64, address: Address },
    Seq,
    WriteCount,
    Run,
}

/// A field that is a key or a value: its length, and then its bytes. `start` is the offset of the item's first byte,
/// and `more` counts the pairs of a persistent database that are still to come.
#[derive(Debug, Drop)]
pub enum TextPlace {
    Key,
    Value { key: Key },
    RowKey { left: u64, start: u64 },
    RowValue { left: u64, key: Key },
    PairKey { left: u64, more: u64 },
    PairValue { left: u64, more: u64, key: Key },
    WriteKey { left: u64 },
    WriteValue { left: u64, key: Key },
}

/// A field that is an address.
#[derive(Clone, Copy, Debug, PartialEq, Eq)]
pub enum AddressPlace {
    /// One of the addresses that a node holds or keeps.
    Held { left: u64 },
    /// One that is given to a node.
    Assigned { left: u64 },
}

/// The field that comes next.
#[derive(Debug, Drop)]
pub enum Place {
    Number(NumberPlace),
    Text(TextPlace),
    Address(AddressPlace),
}
