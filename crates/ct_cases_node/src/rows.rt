//! What a row tells.
use ct_frame::frame::CallKind;
use ct_values::client::Why;
use ct_values::config::DbKind;

/// A cluster: how many nodes, its databases from place 1 on, and its addresses, which are of IPv4.
#[derive(Clone, Copy)]
pub(crate) struct Made {
    pub(crate) nodes: u32,
    pub(crate) dbs: &'static [(&'static str, DbKind)],
    pub(crate) addresses: &'static [u32],
}

/// A pair of a persistent database: its key and its value.
pub(crate) type Written = (&'static str, &'static str);

/// A row of a recovery: the database, the key, the RSN, the value and the data master.
pub(crate) type Told = (u32, &'static str, u64, &'static str, Option<u32>);

/// A persistent database in a recovery: its place, its sequence number and its pairs.
pub(crate) type Stored = (u32, u64, &'static [Written]);

/// What a client asks. First come the database and the key.
#[derive(Clone, Copy)]
pub(crate) enum Asks {
    Lock(u32, &'static str),
    Read(u32, &'static str),
    Write(u32, &'static str, &'static str),
    /// The function and the argument.
    Apply(u32, &'static str, u32, &'static str),
    Store(u32, &'static str, &'static str),
    Unlock(u32, &'static str),
    Commit(u32, &'static [Written]),
}

/// What a message says. First come the database and the key, where it is of a record; the other fields are in the order of
/// the message's own.
#[derive(Clone, Copy)]
pub(crate) enum Says {
    Call(u32, &'static str, u64, CallKind),
    Recall(u32, &'static str, u64, u32, u64, CallKind),
    Give(u32, &'static str, u64, &'static str),
    Pass(u32, &'static str, u64, u64, &'static str),
    Refuse(u32, &'static str, u64, u64),
    Grant(u32, &'static str, u64, u64, &'static str),
    Done(u32, &'static str, u32, u64),
    Revoke(u32, &'static str, u64),
    RevokeAck(u32, &'static str, u64),
    VStore(u32, &'static str, u64),
    VStored(u32, &'static str, u64),
    VDelete(u32, &'static str, u64),
    VDeleted(u32, &'static str, u64),
    Freeze(&'static [u32]),
    FreezeAck,
    Pull,
    PullReply(u64, u64, &'static [Told], &'static [Stored], &'static [u32]),
    Push(&'static [u32], &'static [Told], &'static [Stored], &'static [(u32, u32)]),
    PushAck,
    Thaw,
    PUpdate(u32, u64, &'static [Written]),
    PAck(u32, u64),
    Release(u64, &'static [u32]),
    ReleaseAck(u64),
    Take(u64, &'static [(u32, u32)]),
}

/// What comes to a node.
#[derive(Clone, Copy)]
pub(crate) enum Comes {
    /// The number of the call, and what is asked.
    Client(u64, Asks),
    /// The generation and the sender of a message, and what it says.
    Arrive(u64, u32, Says),
    Retry,
    Vacuum(u32),
    BeginRound(u64, &'static [u32]),
    BeginTakeover(&'static [u32]),
    /// The node stops and starts again.
    Restart,
}

/// What a client is answered.
#[derive(Clone, Copy)]
pub(crate) enum Gives {
    Locked(&'static str),
    Read(&'static str),
    Written,
    Applied(&'static str),
    Stored,
    Unlocked,
    Committed(u64),
    Unsure(u64, &'static [u32]),
    Refused(Why),
}

/// What a node does.
#[derive(Clone, Copy)]
pub(crate) enum Does {
    /// The generation and the receiver of a message, and what it says.
    Send(u64, u32, Says),
    Answer(u64, Gives),
    Vacuumed(u32, &'static str),
    Ended(u32, &'static str),
    Round(u64, &'static [u32], u64, u64),
    Installed(u64),
    Thawed(u64),
    Released(u32),
    Took(u32),
}

/// What comes to a node, and what it does then.
pub(crate) type Row = (Comes, &'static [Does]);

/// A copy of a record: the key, the RSN, the data master, the flags and the value.
pub(crate) type Copied = (&'static str, u64, u32, u8, &'static str);

/// A call that waits: its number, what is asked, and the sequence number of a commit.
pub(crate) type Waits = (u64, Asks, u64);

/// How an event is fed to a node.
#[derive(Clone, Copy)]
pub(crate) enum Way {
    /// By a step.
    Step,
    /// By a plan that is then kept. For want of memory nothing changes.
    Plan,
}

/// What a node shows of a database, and which calls wait at the node.
#[derive(Clone, Copy)]
pub(crate) struct Shown {
    pub(crate) db: u32,
    pub(crate) copies: &'static [Copied],
    pub(crate) rows: &'static [Told],
    pub(crate) entries: &'static [Told],
    pub(crate) waiting: &'static [Waits],
}
