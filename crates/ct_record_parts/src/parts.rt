//! The parts that the rules are made of.
ghost use Rattle.std.specs.Prelude.{◌≡◌, ◌+◌, ◌<◌, ◌≤◌, ◌^◌, length, drop, [], None, Some, true, false, IfOk, OnOk, Result};
ghost use Rattle.ct_call.specs.Shown.{rules_of};
ghost use Rattle.ct_call.specs.Table.{applied};
ghost use Rattle.ct_rules.specs.Parts.{opened, end_vacuum, applies, satisfy, revoke, give, read_here, delegate, grant, yield_record, drained, satisfy_own, raise, end_revocation, next, keep};
ghost use Rattle.ct_rules.specs.Messages.{satisfy_wish};
ghost use Rattle.ct_rules.specs.State.{value_of, rsn_of, is_wished, kind_of, is_read_kind, same_kind};

use crate::draft::Draft;
use ct_call::fault::CallFault;
use ct_call::table::CallTable;
use ct_frame::frame::{CallKind, Msg};
use ct_frame::header::{BEING_REVOKED, HAS_DELEGATIONS, Header, NONE, RecCopy};
use ct_rules::event::Place;
use ct_rules::state::{Entry, RecallNote};
use ct_values::client::{Answer, ClientOp, Why};
use ct_values::copies::Duplicate;
use ct_values::items::Items;
use ct_values::memory::NoMemory;
use ct_values::value::Value;

/// The kind of a wish: `Read` for a read of a read-only database, and else `Lock`.
#[tactic(auto, unfolding(ct_rules::specs::State::kind_of))]
pub fn kind_of(at: &Place, op: &ClientOp) -> CallKind
    ensures { result ≡ kind_of at.now.readonly op.now }
{
    match op {
        ClientOp::Read { .. } if at.readonly => CallKind::Read,
        _ => CallKind::Lock,
    }
}

/// Is it the kind `Read`?
#[tactic(auto, unfolding(ct_rules::specs::State::is_read_kind))]
pub fn is_read_kind(kind: CallKind) -> bool
    ensures { result ≡ is_read_kind kind }
{
    match kind {
        CallKind::Read => true,
        CallKind::Lock => false,
    }
}

/// Are the kinds the same?
#[tactic(auto, unfolding(ct_rules::specs::State::same_kind))]
pub fn same_kind(a: CallKind, b: CallKind) -> bool
    ensures { result ≡ same_kind a b }
{
    match (a, b) {
        (CallKind::Lock, CallKind::Lock) | (CallKind::Read, CallKind::Read) => true,
        (CallKind::Lock, CallKind::Read) | (CallKind::Read, CallKind::Lock) => false,
    }
}

impl Draft {
    /// Where there is no entry the record is made, under the floor's RSN.
    #[tactic(auto, unfolding(ct_rules::specs::Parts::opened, ct_rules::specs::Parts::open_of, ct_rules::specs::Parts::keeps))]
    pub fn opened(&mut self, at: &Place)
        ensures opened { self.new ≡ opened at.now self.old }
        ensures next { self.new.next ≡ self.old.next }
    {
        if self.state.as_ref().entry.is_some() {
            return;
        }
        self.set_entry(Entry {
            holder: at.lmaster,
            least: self.floor,
            request: 0,
            value: Value::empty(self.alloc),
        });
        self.set_copy(RecCopy {
            header: Header {
                rsn: self.floor,
                dmaster: at.lmaster,
                flags: 0,
            },
            value: Value::empty(self.alloc),
        });
    }

    /// A vacuum of the record ends.
    #[tactic(auto, unfolding(ct_rules::specs::Parts::end_vacuum, ct_rules::specs::Parts::keeps))]
    pub fn end_vacuum(&mut self)
        ensures ended { self.new ≡ end_vacuum self.old }
        ensures next { self.new.next ≡ self.old.next }
        ensures tracking { self.new.state.tracking ≡ self.old.state.tracking }
    {
        self.state.as_mut().vacuum = None;
    }

    /// What a function answers to the value and an argument.
    fn applied(
        &self,
        table: &CallTable,
        function: u32,
        arg: &Value,
    ) -> Result<Result<Value, CallFault>, NoMemory>
        ensures { IfOk result (λ a. applied function (value_of self.now.state.copy) arg.now (rules_of table.now) ≡ a) }
    {
        let old = self.value()?;
        match table.apply(function, &old, arg) {
            Ok(value) => Ok(Ok(value)),
            Err(CallFault::TooLong(length)) => Ok(Err(CallFault::TooLong(length))),
            Err(CallFault::NoSuchCall) => Ok(Err(CallFault::NoSuchCall)),
            Err(CallFault::NoMemory) => Err(NoMemory),
        }
    }

    /// What a function answered is set and told.
    #[tactic(auto, unfolding(ct_rules::specs::Parts::applies, ct_rules::specs::Parts::keeps))]
    fn applies(&mut self, call: u64, answer: Result<Value, CallFault>) -> Result<(), NoMemory>
        ensures { OnOk result (self.new ≡ applies call self.old answer) }
    {
        match answer {
            Ok(value) => {
                let told = value.copy()?;
                self.set_value(value);
                self.reply(call, Answer::Applied(told))
            }
            Err(CallFault::TooLong(length)) => self.reply(
                call,
                Answer::Refused(Why::TooLong(length)),
            ),
            Err(CallFault::NoSuchCall) => self.reply(call, Answer::Refused(Why::NoSuchCall)),
            Err(CallFault::NoMemory) => Err(NoMemory),
        }
    }

    /// What a call asks is done at the holder, and answered.
    #[tactic(auto, unfolding(ct_rules::specs::Parts::satisfy, ct_rules::specs::Parts::keeps))]
    pub fn satisfy(&mut self, table: &CallTable, call: u64, op: &ClientOp) -> Result<(), NoMemory>
        ensures { OnOk result (self.new ≡ satisfy (rules_of table.now) call op.now self.old) }
    {
        match op {
            ClientOp::Lock { .. } => {
                self.state.as_mut().locked = Some(call);
                let value = self.value()?;
                self.reply(call, Answer::Locked(value))
            }
            ClientOp::Read { .. } => {
                let value = self.value()?;
                self.reply(call, Answer::Read(value))
            }
            ClientOp::Write { value, .. } => {
                self.set_value(value.copy()?);
                self.reply(call, Answer::Written)
            }
            ClientOp::Apply { function, arg, .. } => {
                let answer = self.applied(table, *function, arg)?;
                self.applies(call, answer)
            }
            _ => Ok(()),
        }
    }

    /// All copies for reading are called in.
    #[tactic(auto, unfolding(ct_rules::specs::Parts::revoke, ct_rules::specs::Parts::keeps, ct_rules::specs::State::with_flags))]
    pub(crate) fn revoke(&mut self, at: &Place) -> Result<(), NoMemory>
        requires quiet { self.old.state.tracking.revoking ≡ None }
        requires tracked { ¬ (self.old.state.tracking.tracked ≡ []) }
        ensures { OnOk result (self.new ≡ revoke at.now self.old) }
    {
        let rsn = self.rsn();
        let msg = Msg::Revoke {
            db: at.db,
            key: at.key.copy()?,
            rsn,
        };
        let nodes = Vec::from_slice(self.alloc, self.state.as_ref().tracking.tracked())?;
        if let Some(copy) = &mut self.state.as_mut().copy {
            copy.header.flags = HAS_DELEGATIONS | BEING_REVOKED;
        }
        self.state.as_mut().tracking.begin(rsn)?;
        self.send_all(nodes.as_slice(), &msg)
    }

    /// The record goes back to its location master.
    #[tactic(auto, unfolding(ct_rules::specs::Parts::give, ct_rules::specs::Parts::keeps, ct_rules::specs::State::given))]
    pub fn give(&mut self, at: &Place) -> Result<(), NoMemory>
        ensures { OnOk result (self.new ≡ give at.now self.old) }
    {
        let msg = Msg::Give {
            db: at.db,
            key: at.key.copy()?,
            rsn: self.rsn(),
            value: self.value()?,
        };
        if let Some(copy) = &mut self.state.as_mut().copy {
            copy.header.dmaster = NONE;
            copy.header.flags = 0;
        }
        self.state.as_mut().waiting = Items::empty(self.alloc);
        self.send(at.lmaster, msg)
    }

    /// Has the wish this request and this kind?
    #[tactic(auto, unfolding(ct_rules::specs::State::is_wished))]
    pub fn is_wished(&self, at: &Place, request: u64, kind: CallKind) -> bool
        ensures { result ≡ is_wished at.now.readonly request kind self.now.state.wish }
    {
        match &self.state.as_ref().wish {
            Some(wish) => wish.request == request && same_kind(kind_of(at, &wish.op), kind),
            None => false,
        }
    }

    /// A recall of kind `Read` for this node: a wish with its request is answered.
    #[tactic(auto, unfolding(ct_rules::specs::Parts::read_here, ct_rules::specs::Parts::keeps))]
    fn read_here(&mut self, at: &Place, request: u64) -> Result<(), NoMemory>
        ensures { OnOk result (self.new ≡ read_here at.now request self.old self.old.state.wish) }
    {
        let Some(wish) = &self.state.as_ref().wish else {
            return Ok(());
        };
        let call = wish.call;
        if !self.is_wished(at, request, CallKind::Read) {
            return Ok(());
        }
        let value = self.value()?;
        self.clear_wish();
        self.reply(call, Answer::Read(value))
    }

    /// A recall of kind `Read` for another node: it is tracked and gets a Grant.
    #[tactic(auto, unfolding(ct_rules::specs::Parts::delegate, ct_rules::specs::Parts::keeps, ct_rules::specs::State::with_flags))]
    fn delegate(&mut self, at: &Place, node: u32, request: u64) -> Result<(), NoMemory>
        requires { self.old.state.tracking.revoking ≡ None }
        ensures { OnOk result (self.new ≡ delegate at.now node request self.old) }
    {
        let msg = Msg::Grant {
            db: at.db,
            key: at.key.copy()?,
            request,
            rsn: self.rsn(),
            value: self.value()?,
        };
        if let Some(copy) = &mut self.state.as_mut().copy {
            copy.header.flags = HAS_DELEGATIONS;
        }
        self.state.as_mut().tracking.add(node)?;
        self.send(node, msg)
    }

    /// A recall of kind `Read`: the copy or the answer, and then Done.
    #[tactic(auto, unfolding(ct_rules::specs::Parts::grant))]
    pub fn grant(&mut self, at: &Place, node: u32, request: u64) -> Result<(), NoMemory>
        requires { self.old.state.tracking.revoking ≡ None }
        ensures { OnOk result (self.new ≡ grant at.now node request self.old) }
    {
        if node == at.me {
            self.read_here(at, request)?;
        } else {
            self.delegate(at, node, request)?;
        }
        let msg = Msg::Done {
            db: at.db,
            key: at.key.copy()?,
            node,
            request,
        };
        self.send(at.lmaster, msg)
    }

    /// A recall of kind `Lock`, the first that waits: the copies for reading are called in while nodes are tracked, and
    /// else the record is given.
    #[tactic(auto, unfolding(ct_rules::specs::Parts::yield_record))]
    pub fn yield_record(&mut self, at: &Place) -> Result<(), NoMemory>
        requires { self.old.state.tracking.revoking ≡ None }
        ensures { OnOk result (self.new ≡ yield_record at.now self.old) }
    {
        if self.state.as_ref().tracking.tracked().is_empty() {
            self.give(at)
        } else {
            self.revoke(at)
        }
    }

    /// The recalls from this place on wait.
    #[tactic(auto, using(std::proofs::lemmas::List::take_rest))]
    fn set_waiting(&mut self, notes: &[RecallNote], from: usize) -> Result<(), NoMemory>
        requires { from ≤ length notes.now }
        ensures { OnOk result (self.new ≡ record self.old { state = record self.old.state { waiting = drop from notes.now } }) }
    {
        self.state.as_mut().waiting = Items::new(Vec::from_slice(self.alloc, &notes[from..])?);
        Ok(())
    }

    /// The recalls from this place on wait, and the first of them is of kind `Lock`: a vacuum ends and the record is
    /// yielded.
    #[tactic(auto, unfolding(ct_rules::specs::Parts::end_vacuum, ct_rules::specs::Parts::keeps))]
    fn yield_to(&mut self, at: &Place, notes: &[RecallNote], from: usize) -> Result<(), NoMemory>
        requires in_range { from ≤ length notes.now }
        requires quiet { self.old.state.tracking.revoking ≡ None }
        ensures { OnOk result (self.new ≡ yield_record at.now (record self.old { state = record self.old.state { waiting = drop from notes.now; vacuum = None } })) }
    {
        self.set_waiting(notes, from)?;
        self.end_vacuum();
        self.yield_record(at)
    }

    /// While the node is free the recalls that wait are handled, in order, and a vacuum ends.
    #[tactic(auto, using(crate::proofs::Drains::drain_stays, crate::proofs::Drains::drain_yields, crate::proofs::Drains::drain_grants, crate::proofs::Drains::drain_ends), unfolding(ct_rules::specs::Parts::drained, ct_rules::specs::Parts::end_vacuum, ct_rules::specs::Parts::keeps))]
    pub fn drained(&mut self, at: &Place) -> Result<(), NoMemory>
        ensures { OnOk result (self.new ≡ drained at.now self.old) }
    {
        let waiting = self.state.as_ref().waiting.duplicate()?;
        let notes = waiting.as_slice();
        for i in 0..notes.len() {
            let note = notes[i];
            if !self.is_free(at) {
                return self.set_waiting(notes, i);
            }
            if !is_read_kind(note.kind) {
                return self.yield_to(at, notes, i);
            }
            self.end_vacuum();
            self.grant(at, note.node, note.request)?;
        }
        self.set_waiting(notes, notes.len())
    }

    /// The wish is cleared and satisfied.
    #[tactic(auto, unfolding(ct_rules::specs::Messages::satisfy_wish, ct_rules::specs::Parts::keeps))]
    pub fn satisfy_wish(&mut self, table: &CallTable) -> Result<(), NoMemory>
        ensures { OnOk result (self.new ≡ satisfy_wish (rules_of table.now) self.old self.old.state.wish) }
    {
        match self.state.as_mut().wish.take() {
            Some(wish) => self.satisfy(table, wish.call, &wish.op),
            None => Ok(()),
        }
    }

    /// A wish without a request is cleared and satisfied.
    #[tactic(auto, unfolding(ct_rules::specs::Parts::satisfy_own, ct_rules::specs::Messages::satisfy_wish, ct_rules::specs::Parts::keeps))]
    fn satisfy_own(&mut self, table: &CallTable) -> Result<(), NoMemory>
        ensures { OnOk result (self.new ≡ satisfy_own (rules_of table.now) self.old self.old.state.wish) }
    {
        match &self.state.as_ref().wish {
            Some(wish) if wish.request == 0 => self.satisfy_wish(table),
            _ => Ok(()),
        }
    }

    /// The next RSN, no flags, nothing tracked.
    #[tactic(auto, unfolding(ct_rules::specs::Parts::raise, ct_rules::specs::Parts::keeps, ct_rules::specs::State::with_flags, ct_rules::specs::State::risen, ct_rules::specs::State::rsn_of))]
    fn raise(&mut self)
        requires { rsn_of self.old.state.copy < 2 ^ 62 }
        ensures { self.new ≡ raise self.old }
    {
        let rsn = self.rsn() + 1;
        if let Some(copy) = &mut self.state.as_mut().copy {
            copy.header.rsn = rsn;
            copy.header.flags = 0;
        }
        self.state.as_mut().tracking.clear();
        self.reaches(rsn);
    }

    /// A revocation ends: the next RSN, then the own wish, then what waits.
    #[tactic(auto, unfolding(ct_rules::specs::Parts::end_revocation, ct_rules::specs::Parts::raise, ct_rules::specs::Parts::reaches, ct_rules::specs::Parts::keeps))]
    pub fn end_revocation(&mut self, at: &Place, table: &CallTable) -> Result<(), NoMemory>
        requires { rsn_of self.old.state.copy < 2 ^ 62 }
        ensures { OnOk result (self.new ≡ end_revocation at.now (rules_of table.now) self.old) }
    {
        self.raise();
        self.satisfy_own(table)?;
        self.drained(at)
    }

    /// The holder is asked for the record in the name of the head.
    #[tactic(auto, unfolding(ct_rules::specs::Parts::next, ct_rules::specs::Parts::next_of))]
    pub fn next(&mut self, at: &Place) -> Result<(), NoMemory>
        ensures { OnOk result (self.new ≡ next at.now self.old) }
    {
        let (Some(entry), Some(first)) = (
            &self.state.as_ref().entry,
            self.state.as_ref().queue.as_slice().first(),
        ) else {
            return Ok(());
        };
        let holder = entry.holder;
        let msg = Msg::Recall {
            db: at.db,
            key: at.key.copy()?,
            least: entry.least,
            node: first.node,
            request: first.request,
            kind: first.kind,
        };
        self.send(holder, msg)
    }

    /// The location master has the record itself.
    #[tactic(auto, unfolding(ct_rules::specs::Parts::keep, ct_rules::specs::Parts::keeps))]
    pub fn keep(&mut self, at: &Place, rsn: u64, value: &Value) -> Result<(), NoMemory>
        ensures { OnOk result (self.new ≡ keep at.now rsn value.now self.old) }
    {
        self.set_entry(Entry {
            holder: at.lmaster,
            least: rsn,
            request: 0,
            value: value.copy()?,
        });
        self.set_copy(RecCopy {
            header: Header {
                rsn,
                dmaster: at.lmaster,
                flags: 0,
            },
            value: value.copy()?,
        });
        self.reaches(rsn);
        self.next(at)
    }
}
