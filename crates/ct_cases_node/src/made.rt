//! What a row tells, as values.
ghost use Rattle.ct_law_form.specs.Whole.{HasLimits};
ghost use Rattle.std.specs.Prelude.{IfOk};

use crate::rows::{Asks, Comes, Copied, Does, Gives, Made, Says, Stored, Told, Waits, Written};
use ct_call::rule::Rule;
use ct_call::table::CallTable;
use ct_frame::event::{Event, Note, Out};
use ct_frame::frame::{Assigned, Frame, Msg, PTable, TableRow};
use ct_frame::header::{Header, RecCopy};
use ct_rules_cluster::step::PendingCall;
use ct_values::address::Address;
use ct_values::boxed::BoxedItems;
use ct_values::client::{Answer, ClientOp, Pair};
use ct_values::config::{Config, DbDecl};
use ct_values::items::Items;
use ct_values::key::Key;
use ct_values::name::DbName;
use ct_values::value::Value;
use std::alloc::Global;
use std::test::Fail;

fn key(alloc: Global, text: &str) -> Result<Key, Fail> {
    Ok(Key::new(alloc, text.as_bytes())?)
}

fn value(alloc: Global, text: &str) -> Result<Value, Fail> {
    Ok(Value::new(alloc, text.as_bytes())?)
}

fn writes(alloc: Global, pairs: &[Written]) -> Result<Items<Pair>, Fail> {
    let mut all = Items::empty(alloc);
    for (at, text) in pairs {
        all.push(Pair {
            key: key(alloc, *at)?,
            value: value(alloc, *text)?,
        })?;
    }
    Ok(all)
}

fn numbers(alloc: Global, list: &[u32]) -> Result<Items<u32>, Fail> {
    Ok(Items::new(Vec::from_slice(alloc, list)?))
}

fn addresses(alloc: Global, list: &[u32]) -> Result<Vec<Address>, Fail> {
    let mut all = Vec::new(alloc);
    for number in list {
        all.push(Address::V4(*number))?;
    }
    Ok(all)
}

fn assigned(alloc: Global, list: &[(u32, u32)]) -> Result<Items<Assigned>, Fail> {
    let mut all = Items::empty(alloc);
    for (number, node) in list {
        all.push(Assigned {
            address: Address::V4(*number),
            node: Some(*node),
        })?;
    }
    Ok(all)
}

pub(crate) fn told(alloc: Global, rows: &[Told]) -> Result<Items<TableRow>, Fail> {
    let mut all = Items::empty(alloc);
    for (db, at, rsn, text, master) in rows {
        all.push(TableRow {
            db: *db,
            key: key(alloc, *at)?,
            rsn: *rsn,
            value: value(alloc, *text)?,
            master: *master,
        })?;
    }
    Ok(all)
}

fn stored(alloc: Global, tables: &[Stored]) -> Result<Items<PTable>, Fail> {
    let mut all = Items::empty(alloc);
    for (db, seq, pairs) in tables {
        all.push(PTable {
            db: *db,
            seq: *seq,
            pairs: writes(alloc, *pairs)?,
        })?;
    }
    Ok(all)
}

/// The configuration of a cluster.
#[tactic(auto, using(ct_law_form::proofs::Limits::has_limits))]
pub(crate) fn config(alloc: Global, made: Made) -> Result<Config, Fail>
    ensures { IfOk result HasLimits }
{
    let mut dbs = Vec::new(alloc);
    for (name, kind) in made.dbs {
        dbs.push(DbDecl {
            name: DbName::new(alloc, name.as_bytes())?,
            kind: *kind,
        })?;
    }
    Ok(Config::new(alloc, made.nodes, dbs, addresses(alloc, made.addresses)?)?)
}

/// Function 1 appends its argument, 2 puts it in place of the value, and 3 changes nothing.
pub(crate) fn functions(alloc: Global) -> Result<CallTable, Fail> {
    let mut table = CallTable::new(alloc);
    let appends = Rule::Join(Box::new(alloc, Rule::Old)?, Box::new(alloc, Rule::Arg)?);
    table.add_rule(alloc, 1, appends)?;
    table.add_rule(alloc, 2, Rule::Arg)?;
    table.add_rule(alloc, 3, Rule::Old)?;
    Ok(table)
}

fn op(alloc: Global, asks: Asks) -> Result<ClientOp, Fail> {
    match asks {
        Asks::Lock(db, at) => Ok(ClientOp::Lock {
            db,
            key: key(alloc, at)?,
        }),
        Asks::Read(db, at) => Ok(ClientOp::Read {
            db,
            key: key(alloc, at)?,
        }),
        Asks::Write(db, at, text) => Ok(ClientOp::Write {
            db,
            key: key(alloc, at)?,
            value: value(alloc, text)?,
        }),
        Asks::Apply(db, at, function, text) => Ok(ClientOp::Apply {
            db,
            key: key(alloc, at)?,
            function,
            arg: value(alloc, text)?,
        }),
        Asks::Store(db, at, text) => Ok(ClientOp::Store {
            db,
            key: key(alloc, at)?,
            value: value(alloc, text)?,
        }),
        Asks::Unlock(db, at) => Ok(ClientOp::Unlock {
            db,
            key: key(alloc, at)?,
        }),
        Asks::Commit(db, pairs) => Ok(ClientOp::Commit {
            db,
            writes: writes(alloc, pairs)?,
        }),
    }
}

/// What a message of a record that moves says.
fn moves(alloc: Global, says: Says) -> Result<Option<Msg>, Fail> {
    match says {
        Says::Call(db, at, request, kind) => Ok(Some(Msg::Call {
            db,
            key: key(alloc, at)?,
            request,
            kind,
        })),
        Says::Recall(db, at, least, node, request, kind) => Ok(Some(Msg::Recall {
            db,
            key: key(alloc, at)?,
            least,
            node,
            request,
            kind,
        })),
        Says::Give(db, at, rsn, text) => Ok(Some(Msg::Give {
            db,
            key: key(alloc, at)?,
            rsn,
            value: value(alloc, text)?,
        })),
        Says::Pass(db, at, request, rsn, text) => Ok(Some(Msg::Pass {
            db,
            key: key(alloc, at)?,
            request,
            rsn,
            value: value(alloc, text)?,
        })),
        Says::Refuse(db, at, request, rsn) => Ok(Some(Msg::Refuse {
            db,
            key: key(alloc, at)?,
            request,
            rsn,
        })),
        _ => Ok(None),
    }
}

/// What a message of read-only copies or of a vacuum says.
fn copies(alloc: Global, says: Says) -> Result<Option<Msg>, Fail> {
    match says {
        Says::Grant(db, at, request, rsn, text) => Ok(Some(Msg::Grant {
            db,
            key: key(alloc, at)?,
            request,
            rsn,
            value: value(alloc, text)?,
        })),
        Says::Done(db, at, node, request) => Ok(Some(Msg::Done {
            db,
            key: key(alloc, at)?,
            node,
            request,
        })),
        Says::Revoke(db, at, rsn) => Ok(Some(Msg::Revoke {
            db,
            key: key(alloc, at)?,
            rsn,
        })),
        Says::RevokeAck(db, at, rsn) => Ok(Some(Msg::RevokeAck {
            db,
            key: key(alloc, at)?,
            rsn,
        })),
        Says::VStore(db, at, rsn) => Ok(Some(Msg::VStore {
            db,
            key: key(alloc, at)?,
            rsn,
        })),
        Says::VStored(db, at, rsn) => Ok(Some(Msg::VStored {
            db,
            key: key(alloc, at)?,
            rsn,
        })),
        Says::VDelete(db, at, rsn) => Ok(Some(Msg::VDelete {
            db,
            key: key(alloc, at)?,
            rsn,
        })),
        Says::VDeleted(db, at, rsn) => Ok(Some(Msg::VDeleted {
            db,
            key: key(alloc, at)?,
            rsn,
        })),
        _ => Ok(None),
    }
}

/// What a message of a round says.
fn recovers(alloc: Global, says: Says) -> Result<Option<Msg>, Fail> {
    match says {
        Says::Freeze(members) => Ok(Some(Msg::Freeze {
            members: numbers(alloc, members)?,
        })),
        Says::FreezeAck => Ok(Some(Msg::FreezeAck)),
        Says::Pull => Ok(Some(Msg::Pull)),
        Says::PullReply(vbase, pbase, table, ptables, held) => Ok(Some(Msg::PullReply {
            vbase,
            pbase,
            table: BoxedItems::new(told(alloc, table)?)?,
            ptables: BoxedItems::new(stored(alloc, ptables)?)?,
            addresses: BoxedItems::new(Items::new(addresses(alloc, held)?))?,
        })),
        Says::Push(members, table, ptables, places) => Ok(Some(Msg::Push {
            members: BoxedItems::new(numbers(alloc, members)?)?,
            table: BoxedItems::new(told(alloc, table)?)?,
            ptables: BoxedItems::new(stored(alloc, ptables)?)?,
            assigned: BoxedItems::new(assigned(alloc, places)?)?,
        })),
        Says::PushAck => Ok(Some(Msg::PushAck)),
        Says::Thaw => Ok(Some(Msg::Thaw)),
        _ => Ok(None),
    }
}

/// What a message of a commit or of a takeover says.
fn spreads(alloc: Global, says: Says) -> Result<Option<Msg>, Fail> {
    match says {
        Says::PUpdate(db, seq, pairs) => Ok(Some(Msg::PUpdate {
            db,
            seq,
            writes: writes(alloc, pairs)?,
        })),
        Says::PAck(db, seq) => Ok(Some(Msg::PAck { db, seq })),
        Says::Release(run, keep) => Ok(Some(Msg::Release {
            run,
            keep: Items::new(addresses(alloc, keep)?),
        })),
        Says::ReleaseAck(run) => Ok(Some(Msg::ReleaseAck { run })),
        Says::Take(run, places) => Ok(Some(Msg::Take {
            run,
            assigned: assigned(alloc, places)?,
        })),
        _ => Ok(None),
    }
}

fn msg(alloc: Global, says: Says) -> Result<Msg, Fail> {
    if let Some(msg) = moves(alloc, says)? {
        return Ok(msg);
    }
    if let Some(msg) = copies(alloc, says)? {
        return Ok(msg);
    }
    if let Some(msg) = recovers(alloc, says)? {
        return Ok(msg);
    }
    match spreads(alloc, says)? {
        Some(msg) => Ok(msg),
        None => Err(Fail::new("a message of no kind")),
    }
}

/// What comes to node `me`. Nothing where it stops and starts.
pub(crate) fn event(alloc: Global, me: u32, comes: Comes) -> Result<Option<Event>, Fail> {
    match comes {
        Comes::Client(call, asks) => Ok(Some(Event::Client {
            call,
            op: op(alloc, asks)?,
        })),
        Comes::Arrive(generation, sender, says) => Ok(Some(Event::Arrive(Frame {
            generation,
            sender,
            receiver: me,
            msg: msg(alloc, says)?,
        }))),
        Comes::Retry => Ok(Some(Event::Retry)),
        Comes::Vacuum(db) => Ok(Some(Event::Vacuum { db })),
        Comes::BeginRound(ticket, members) => Ok(Some(Event::BeginRound {
            ticket,
            members: numbers(alloc, members)?,
        })),
        Comes::BeginTakeover(able) => Ok(Some(Event::BeginTakeover {
            able: numbers(alloc, able)?,
        })),
        Comes::Restart => Ok(None),
    }
}

fn answer(alloc: Global, gives: Gives) -> Result<Answer, Fail> {
    match gives {
        Gives::Locked(text) => Ok(Answer::Locked(value(alloc, text)?)),
        Gives::Read(text) => Ok(Answer::Read(value(alloc, text)?)),
        Gives::Written => Ok(Answer::Written),
        Gives::Applied(text) => Ok(Answer::Applied(value(alloc, text)?)),
        Gives::Stored => Ok(Answer::Stored),
        Gives::Unlocked => Ok(Answer::Unlocked),
        Gives::Committed(seq) => Ok(Answer::Committed(seq)),
        Gives::Unsure(seq, missing) => Ok(Answer::Unsure {
            seq,
            missing: numbers(alloc, missing)?,
        }),
        Gives::Refused(why) => Ok(Answer::Refused(why)),
    }
}

fn out(alloc: Global, me: u32, does: Does) -> Result<Out, Fail> {
    match does {
        Does::Send(generation, receiver, says) => Ok(Out::Send(Frame {
            generation,
            sender: me,
            receiver,
            msg: msg(alloc, says)?,
        })),
        Does::Answer(call, gives) => Ok(Out::Answer {
            call,
            answer: answer(alloc, gives)?,
        }),
        Does::Vacuumed(db, at) => Ok(Out::Note(Note::Vacuumed {
            db,
            key: key(alloc, at)?,
        })),
        Does::Ended(db, at) => Ok(Out::Note(Note::Ended {
            db,
            key: key(alloc, at)?,
        })),
        Does::Round(generation, members, vparent, pparent) => Ok(Out::Note(Note::Round {
            generation,
            members: numbers(alloc, members)?,
            vparent,
            pparent,
        })),
        Does::Installed(generation) => Ok(Out::Note(Note::Installed(generation))),
        Does::Thawed(generation) => Ok(Out::Note(Note::Thawed(generation))),
        Does::Released(number) => Ok(Out::Note(Note::Released(Address::V4(number)))),
        Does::Took(number) => Ok(Out::Note(Note::Took(Address::V4(number)))),
    }
}

/// What node `me` is to do.
pub(crate) fn outs(alloc: Global, me: u32, all: &[Does]) -> Result<Vec<Out>, Fail> {
    let mut outs = Vec::new(alloc);
    for does in all {
        outs.push(out(alloc, me, *does)?)?;
    }
    Ok(outs)
}

/// Copies of records.
pub(crate) fn copied(alloc: Global, all: &[Copied]) -> Result<Vec<(Key, RecCopy)>, Fail> {
    let mut copies = Vec::new(alloc);
    for (at, rsn, dmaster, flags, text) in all {
        let header = Header {
            rsn: *rsn,
            dmaster: *dmaster,
            flags: *flags,
        };
        let value = value(alloc, *text)?;
        copies.push((key(alloc, *at)?, RecCopy { header, value }))?;
    }
    Ok(copies)
}

/// Calls that wait at node `me`.
pub(crate) fn waiting(alloc: Global, me: u32, all: &[Waits]) -> Result<Vec<PendingCall>, Fail> {
    let mut calls = Vec::new(alloc);
    for (call, asks, seq) in all {
        calls.push(PendingCall {
            call: *call,
            node: me,
            op: op(alloc, *asks)?,
            seq: *seq,
        })?;
    }
    Ok(calls)
}
