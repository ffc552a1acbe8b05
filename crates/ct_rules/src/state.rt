//! What a node keeps of one record.
ghost use Rattle.std.specs.Prelude.{◌≡◌, IfOk};
ghost use Rattle.ct_rules.specs.State.{is_blank, nothing_kept};

use ct_frame::frame::CallKind;
use ct_frame::header::RecCopy;
use ct_tracking::tracking::Tracking;
use ct_tracking::vacuum::Vacuum;
use ct_values::client::ClientOp;
use ct_values::copies::Duplicate;
use ct_values::items::Items;
use ct_values::memory::NoMemory;
use ct_values::value::Value;
use std::alloc::Global;

/// What the location master knows of a record: the node that has it or is sent it, the least RSN that it has there, the
/// number of the request that it was sent for, or 0, and the value that was sent.
#[derive(Debug, PartialEq, Eq)]
pub struct Entry {
    pub holder: u32,
    pub least: u64,
    pub request: u64,
    pub value: Value,
}

impl Drop for Entry {
    /// All that it holds is let go.
    fn drop(self) {
        let Entry {
            holder: _,
            least: _,
            request: _,
            value: _,
        } = self;
    }
}

impl Entry {
    /// A copy that equals it.
    pub fn copy(&self) -> Result<Entry, NoMemory>
        ensures { IfOk result (λ x. x ≡ self.now) }
    {
        Ok(Entry {
            holder: self.holder,
            least: self.least,
            request: self.request,
            value: self.value.copy()?,
        })
    }
}

impl Duplicate for Entry {
    fn duplicate(&self) -> Result<Entry, NoMemory> {
        self.copy()
    }
}

/// A request that waits at the location master for the record.
#[derive(Clone, Copy, Debug, PartialEq, Eq)]
pub struct Waiter {
    pub node: u32,
    pub request: u64,
    pub kind: CallKind,
}

impl Waiter {
    /// A copy that equals it.
    pub fn copy(&self) -> Result<Waiter, NoMemory>
        ensures { result ≡ Ok self.now }
    {
        Ok(*self)
    }
}

impl Duplicate for Waiter {
    fn duplicate(&self) -> Result<Waiter, NoMemory> {
        self.copy()
    }
}

/// A recall that waits at a node until this has the record and is free to serve it.
#[derive(Clone, Copy, Debug, PartialEq, Eq)]
pub struct RecallNote {
    /// The least RSN of the copy that is asked for.
    pub least: u64,
    /// The node that wants the record, the number of its request, and its kind.
    pub node: u32,
    pub request: u64,
    pub kind: CallKind,
}

impl RecallNote {
    /// A copy that equals it.
    pub fn copy(&self) -> Result<RecallNote, NoMemory>
        ensures { result ≡ Ok self.now }
    {
        Ok(*self)
    }
}

impl Duplicate for RecallNote {
    fn duplicate(&self) -> Result<RecallNote, NoMemory> {
        self.copy()
    }
}

/// A client call that waits for the record.
#[derive(Debug, PartialEq, Eq)]
pub struct Wish {
    /// The number of the client call.
    pub call: u64,
    /// The number under which the location master was asked, or 0 where the node has the record and waits for the end
    /// of a revocation.
    pub request: u64,
    pub op: ClientOp,
}

impl Drop for Wish {
    /// All that it holds is let go.
    fn drop(self) {
        let Wish {
            call: _,
            request: _,
            op: _,
        } = self;
    }
}

impl Wish {
    /// A copy that equals it.
    pub fn copy(&self) -> Result<Wish, NoMemory>
        ensures { IfOk result (λ x. x ≡ self.now) }
    {
        Ok(Wish {
            call: self.call,
            request: self.request,
            op: self.op.copy()?,
        })
    }
}

impl Duplicate for Wish {
    fn duplicate(&self) -> Result<Wish, NoMemory> {
        self.copy()
    }
}

/// All that a node keeps of one record.
#[derive(Debug)]
pub struct RecState {
    /// Its copy, if it has one.
    pub copy: Option<RecCopy>,
    /// At the location master: what it knows of the record, once it was asked for it.
    pub entry: Option<Entry>,
    /// At the location master: the requests that wait, the oldest first.
    pub queue: Items<Waiter>,
    /// The recalls that wait, the oldest first.
    pub waiting: Items<RecallNote>,
    /// At the data master: the nodes that may have a read-only copy, and the revocation of these copies.
    pub tracking: Tracking,
    /// At the location master: the vacuum of the record, where one runs.
    pub vacuum: Option<Vacuum>,
    /// The client call that locked the record, while it is locked here.
    pub locked: Option<u64>,
    /// The client call that waits for the record, if one does.
    pub wish: Option<Wish>,
}

impl Drop for RecState {
    /// All that it holds is let go.
    fn drop(self) {
        let RecState {
            copy: _,
            entry: _,
            queue: _,
            waiting: _,
            tracking: _,
            vacuum: _,
            locked: _,
            wish: _,
        } = self;
    }
}

impl RecState {
    /// Nothing is kept. It takes no memory.
    pub fn new(alloc: Global) -> RecState
        ensures { result ≡ nothing_kept }
    {
        RecState {
            copy: None,
            entry: None,
            queue: Items::new(Vec::new(alloc)),
            waiting: Items::new(Vec::new(alloc)),
            tracking: Tracking::new(alloc),
            vacuum: None,
            locked: None,
            wish: None,
        }
    }

    /// A copy that equals it.
    pub fn copy(&self) -> Result<RecState, NoMemory>
        ensures { IfOk result (λ x. x ≡ self.now) }
    {
        Ok(RecState {
            copy: self.copy.duplicate()?,
            entry: self.entry.duplicate()?,
            queue: self.queue.duplicate()?,
            waiting: self.waiting.duplicate()?,
            tracking: self.tracking.copy()?,
            vacuum: self.vacuum.duplicate()?,
            locked: self.locked,
            wish: self.wish.duplicate()?,
        })
    }

    /// Whether nothing is kept: no copy, entry, queue, waiting recall, wish, lock or vacuum. Then the state is removed.
    pub fn blank(&self) -> bool
        ensures { result ≡ is_blank self.now }
    {
        self.copy.is_none()
            && self.entry.is_none()
            && self.queue.as_slice().is_empty()
            && self.waiting.as_slice().is_empty()
            && self.wish.is_none()
            && self.locked.is_none()
            && self.vacuum.is_none()
    }
}

impl Duplicate for RecState {
    fn duplicate(&self) -> Result<RecState, NoMemory> {
        self.copy()
    }
}
