//! Texts with ample memory.
use ct_frame::event::Note;
use ct_frame::frame::{Assigned, CallKind, Frame, Msg, PTable, TableRow};
use ct_rules_cluster::step::{Line, PendingCall};
use ct_text::line::{line_text, pending_text};
use ct_traverse_parts::line::{Pass, TLine, TPending};
use ct_traverse_parts::text::{pending_traverse_text, push_traverse};
use ct_values::address::Address;
use ct_values::boxed::BoxedItems;
use ct_values::client::{Answer, ClientOp, Pair, Why};
use ct_values::config::{Config, DbDecl, DbKind};
use ct_values::items::Items;
use ct_values::key::Key;
use ct_values::name::DbName;
use ct_values::value::Value;
use std::alloc::Global;
use std::test::Fail;

fn add_db(alloc: Global, dbs: &mut Vec<DbDecl>, name: &[u8], kind: DbKind) -> Result<(), Fail> {
    let name = DbName::new(alloc, name)?;
    dbs.push(DbDecl { name, kind })?;
    Ok(())
}

/// Three nodes with the databases `g_lock`, `t` and `b`.
fn config(alloc: Global) -> Result<Config, Fail> {
    let mut dbs = Vec::new(alloc);
    add_db(alloc, &mut dbs, b"t", DbKind::Volatile)?;
    add_db(alloc, &mut dbs, b"b", DbKind::Persistent)?;
    Ok(Config::new(alloc, 3, dbs, Vec::new(alloc))?)
}

fn a_key(alloc: Global) -> Result<Key, Fail> {
    Ok(Key::new(alloc, b"a=")?)
}

fn pair(alloc: Global) -> Result<Pair, Fail> {
    let key = a_key(alloc)?;
    let value = Value::new(alloc, b"v")?;
    Ok(Pair { key, value })
}

fn one_pair(alloc: Global) -> Result<Items<Pair>, Fail> {
    let mut pairs = Items::empty(alloc);
    pairs.push(pair(alloc)?)?;
    Ok(pairs)
}

fn two_pairs(alloc: Global) -> Result<Items<Pair>, Fail> {
    let mut pairs = one_pair(alloc)?;
    pairs.push(pair(alloc)?)?;
    Ok(pairs)
}

fn is_text(alloc: Global, line: &Line, wanted: &[u8]) -> Result<bool, Fail> {
    let config = config(alloc)?;
    let text = line_text(alloc, line, &config)?;
    Ok(text.as_slice() == wanted)
}

/// Is the line printed so? It is let go.
fn is_printed(alloc: Global, line: Line, wanted: &[u8]) -> Result<bool, Fail> {
    let same = is_text(alloc, &line, wanted);
    drop(line);
    same
}

/// Is the message printed so that node 0 sends to node 2 in generation 5 as number 7?
fn is_sent(alloc: Global, msg: Msg, wanted: &[u8]) -> Result<bool, Fail> {
    let frame = Frame {
        generation: 5,
        sender: 0,
        receiver: 2,
        msg,
    };
    is_printed(alloc, Line::Sent { number: 7, frame }, wanted)
}

#[test]
fn calls(rt: HostRuntime) -> Result<(), Fail> {
    let alloc = rt.alloc();
    let key = a_key(alloc)?;
    let msg = Msg::Call {
        db: 1,
        key,
        request: 1,
        kind: CallKind::Read,
    };
    assert!(rt; is_sent(alloc, msg, b"frame 7 0 2 5 call t a%3d 1 read\n")?);
    let key = a_key(alloc)?;
    let msg = Msg::Recall {
        db: 1,
        key,
        least: 3,
        node: 2,
        request: 4,
        kind: CallKind::Lock,
    };
    assert!(rt; is_sent(alloc, msg, b"frame 7 0 2 5 recall t a%3d 3 2 4 lock\n")?);
    let key = a_key(alloc)?;
    let msg = Msg::Refuse {
        db: 1,
        key,
        request: 1,
        rsn: 2,
    };
    assert!(rt; is_sent(alloc, msg, b"frame 7 0 2 5 refuse t a%3d 1 2\n")?);
    let key = a_key(alloc)?;
    let msg = Msg::Done {
        db: 1,
        key,
        node: 0,
        request: 9,
    };
    assert!(rt; is_sent(alloc, msg, b"frame 7 0 2 5 done t a%3d 0 9\n")?);
    Ok(())
}

#[test]
fn values(rt: HostRuntime) -> Result<(), Fail> {
    let alloc = rt.alloc();
    let key = a_key(alloc)?;
    let value = Value::new(alloc, b"")?;
    let msg = Msg::Give {
        db: 1,
        key,
        rsn: 6,
        value,
    };
    assert!(rt; is_sent(alloc, msg, b"frame 7 0 2 5 give t a%3d 6 -\n")?);
    let key = a_key(alloc)?;
    let value = Value::new(alloc, b"x")?;
    let msg = Msg::Pass {
        db: 1,
        key,
        request: 1,
        rsn: 8,
        value,
    };
    assert!(rt; is_sent(alloc, msg, b"frame 7 0 2 5 pass t a%3d 1 8 x\n")?);
    let key = a_key(alloc)?;
    let value = Value::new(alloc, b"-")?;
    let msg = Msg::Grant {
        db: 1,
        key,
        request: 1,
        rsn: 0,
        value,
    };
    assert!(rt; is_sent(alloc, msg, b"frame 7 0 2 5 grant t a%3d 1 0 %2d\n")?);
    Ok(())
}

#[test]
fn revocations(rt: HostRuntime) -> Result<(), Fail> {
    let alloc = rt.alloc();
    let key = a_key(alloc)?;
    let msg = Msg::Revoke { db: 1, key, rsn: 1 };
    assert!(rt; is_sent(alloc, msg, b"frame 7 0 2 5 revoke t a%3d 1\n")?);
    let key = a_key(alloc)?;
    let msg = Msg::RevokeAck { db: 1, key, rsn: 2 };
    assert!(rt; is_sent(alloc, msg, b"frame 7 0 2 5 revokeack t a%3d 2\n")?);
    Ok(())
}

#[test]
fn vacuums(rt: HostRuntime) -> Result<(), Fail> {
    let alloc = rt.alloc();
    let key = a_key(alloc)?;
    let msg = Msg::VStore { db: 1, key, rsn: 3 };
    assert!(rt; is_sent(alloc, msg, b"frame 7 0 2 5 vstore t a%3d 3\n")?);
    let key = a_key(alloc)?;
    let msg = Msg::VStored { db: 1, key, rsn: 4 };
    assert!(rt; is_sent(alloc, msg, b"frame 7 0 2 5 vstored t a%3d 4\n")?);
    let key = a_key(alloc)?;
    let msg = Msg::VDelete { db: 1, key, rsn: 5 };
    assert!(rt; is_sent(alloc, msg, b"frame 7 0 2 5 vdelete t a%3d 5\n")?);
    let key = a_key(alloc)?;
    let msg = Msg::VDeleted { db: 1, key, rsn: 6 };
    assert!(rt; is_sent(alloc, msg, b"frame 7 0 2 5 vdeleted t a%3d 6\n")?);
    Ok(())
}

#[test]
fn rounds(rt: HostRuntime) -> Result<(), Fail> {
    let alloc = rt.alloc();
    let members = Items::new(Vec::from_array(alloc, [0, 2])?);
    assert!(rt;
        is_sent(
            alloc,
            Msg::Freeze { members },
            b"frame 7 0 2 5 freeze 0,2\n"
        )?
    );
    assert!(rt; is_sent(alloc, Msg::FreezeAck, b"frame 7 0 2 5 freezeack\n")?);
    assert!(rt; is_sent(alloc, Msg::Pull, b"frame 7 0 2 5 pull\n")?);
    assert!(rt;
        is_sent(
            alloc,
            a_reply(alloc)?,
            b"frame 7 0 2 5 pullreply 1 2 0 3 0\n"
        )?
    );
    assert!(rt; is_sent(alloc, a_push(alloc)?, b"frame 7 0 2 5 push 2 1 0 2\n")?);
    assert!(rt; is_sent(alloc, Msg::PushAck, b"frame 7 0 2 5 pushack\n")?);
    assert!(rt; is_sent(alloc, Msg::Thaw, b"frame 7 0 2 5 thaw\n")?);
    Ok(())
}

fn add_ptable(list: &mut Items<PTable>, db: u32, seq: u64, pairs: Items<Pair>) -> Result<(), Fail> {
    list.push(PTable { db, seq, pairs })?;
    Ok(())
}

fn two_ptables(alloc: Global) -> Result<Items<PTable>, Fail> {
    let mut ptables = Items::empty(alloc);
    add_ptable(&mut ptables, 2, 3, two_pairs(alloc)?)?;
    add_ptable(&mut ptables, 3, 1, one_pair(alloc)?)?;
    Ok(ptables)
}

fn a_reply(alloc: Global) -> Result<Msg, Fail> {
    let table = BoxedItems::new(Items::empty(alloc))?;
    let ptables = BoxedItems::new(two_ptables(alloc)?)?;
    let addresses = BoxedItems::new(Items::empty(alloc))?;
    Ok(Msg::PullReply {
        vbase: 1,
        pbase: 2,
        table,
        ptables,
        addresses,
    })
}

fn one_row(alloc: Global) -> Result<Items<TableRow>, Fail> {
    let key = a_key(alloc)?;
    let value = Value::new(alloc, b"v")?;
    let mut table = Items::empty(alloc);
    table.push(TableRow {
        db: 1,
        key,
        rsn: 1,
        value,
        master: None,
    })?;
    Ok(table)
}

/// Two addresses, at these nodes.
fn assigned(
    alloc: Global,
    first: Option<u32>,
    second: Option<u32>,
) -> Result<Items<Assigned>, Fail> {
    Ok(Items::new(Vec::from_array(
        alloc,
        [
            Assigned {
                address: Address::V4(0x0a000001),
                node: first,
            },
            Assigned {
                address: Address::V4(0x0a000002),
                node: second,
            },
        ],
    )?))
}

fn a_push(alloc: Global) -> Result<Msg, Fail> {
    let members = BoxedItems::new(Items::new(Vec::from_array(alloc, [2])?))?;
    let table = BoxedItems::new(one_row(alloc)?)?;
    let ptables = BoxedItems::new(Items::empty(alloc))?;
    let assigned = BoxedItems::new(assigned(alloc, None, Some(2))?)?;
    Ok(Msg::Push {
        members,
        table,
        ptables,
        assigned,
    })
}

#[test]
fn commits(rt: HostRuntime) -> Result<(), Fail> {
    let alloc = rt.alloc();
    let (db, seq) = (2, 4);
    let writes = one_pair(alloc)?;
    assert!(rt;
        is_sent(
            alloc,
            Msg::PUpdate { db, seq, writes },
            b"frame 7 0 2 5 pupdate b 4 1\n"
        )?
    );
    assert!(rt; is_sent(alloc, Msg::PAck { db, seq }, b"frame 7 0 2 5 pack b 4\n")?);
    Ok(())
}

#[test]
fn takeovers(rt: HostRuntime) -> Result<(), Fail> {
    let alloc = rt.alloc();
    let run = 2;
    let keep = Items::empty(alloc);
    assert!(rt;
        is_sent(
            alloc,
            Msg::Release { run, keep },
            b"frame 7 0 2 5 release 2 -\n"
        )?
    );
    let addresses = [Address::V4(0x0a000001), Address::V4(0x0a000002)];
    let keep = Items::new(Vec::from_array(alloc, addresses)?);
    assert!(rt;
        is_sent(
            alloc,
            Msg::Release { run, keep },
            b"frame 7 0 2 5 release 2 10.0.0.1,10.0.0.2\n"
        )?
    );
    assert!(rt;
        is_sent(
            alloc,
            Msg::ReleaseAck { run: 3 },
            b"frame 7 0 2 5 releaseack 3\n"
        )?
    );
    let assigned = assigned(alloc, Some(0), None)?;
    assert!(rt;
        is_sent(
            alloc,
            Msg::Take { run, assigned },
            b"frame 7 0 2 5 take 2 10.0.0.1=0,10.0.0.2=-1\n"
        )?
    );
    Ok(())
}

fn is_answered(alloc: Global, call: u64, answer: Answer, wanted: &[u8]) -> Result<bool, Fail> {
    is_printed(alloc, Line::Answered { call, answer }, wanted)
}

#[test]
fn answers(rt: HostRuntime) -> Result<(), Fail> {
    let alloc = rt.alloc();
    let missing = Items::new(Vec::from_array(alloc, [1, 2])?);
    let unsure = Answer::Unsure { seq: 1, missing };
    assert!(rt; is_answered(alloc, 2, unsure, b"answer 2 unsure 1 1,2\n")?);
    let refused = Answer::Refused(Why::CallPending(2));
    assert!(rt; is_answered(alloc, 3, refused, b"answer 3 refused call-pending 2\n")?);
    let locked = Answer::Locked(Value::new(alloc, b"")?);
    assert!(rt; is_answered(alloc, 4, locked, b"answer 4 locked -\n")?);
    Ok(())
}

/// Is the note of node 1 printed so?
fn is_noted(alloc: Global, note: Note, wanted: &[u8]) -> Result<bool, Fail> {
    is_printed(alloc, Line::Noted { node: 1, note }, wanted)
}

#[test]
fn notes_of_records(rt: HostRuntime) -> Result<(), Fail> {
    let alloc = rt.alloc();
    let vacuumed = Note::Vacuumed {
        db: 1,
        key: a_key(alloc)?,
    };
    assert!(rt; is_noted(alloc, vacuumed, b"vacuumed 1 t a%3d\n")?);
    let ended = Note::Ended {
        db: 0,
        key: a_key(alloc)?,
    };
    assert!(rt; is_noted(alloc, ended, b"ended 1 g_lock a%3d\n")?);
    Ok(())
}

#[test]
fn notes_of_rounds(rt: HostRuntime) -> Result<(), Fail> {
    let alloc = rt.alloc();
    let members = Items::new(Vec::from_array(alloc, [0, 2])?);
    let round = Note::Round {
        generation: 2,
        members,
        vparent: 1,
        pparent: 0,
    };
    assert!(rt; is_noted(alloc, round, b"round 2 0,2 1 0\n")?);
    assert!(rt; is_noted(alloc, Note::Installed(2), b"installed 1 2\n")?);
    assert!(rt; is_noted(alloc, Note::Thawed(2), b"thawed 1 2\n")?);
    let released = Note::Released(Address::V4(0x0a000001));
    assert!(rt; is_noted(alloc, released, b"released 1 10.0.0.1\n")?);
    assert!(rt; is_noted(alloc, Note::Took(Address::V6(1)), b"took 1 ::1\n")?);
    Ok(())
}

#[test]
fn steps(rt: HostRuntime) -> Result<(), Fail> {
    let alloc = rt.alloc();
    assert!(rt; is_printed(alloc, Line::Ticket { ticket: 2, node: 0 }, b"ticket 2 0\n")?);
    assert!(rt; is_printed(alloc, Line::Yielded(0), b"yielded 0\n")?);
    assert!(rt; is_printed(alloc, Line::Stopped(1), b"stopped 1\n")?);
    assert!(rt; is_printed(alloc, Line::Started(1), b"started 1\n")?);
    assert!(rt; is_printed(alloc, Line::Gone(4), b"answer 4 stopped\n")?);
    assert!(rt; is_printed(alloc, Line::Lost(13), b"lost 13\n")?);
    Ok(())
}

fn is_pending_text(alloc: Global, call: &PendingCall, wanted: &[u8]) -> Result<bool, Fail> {
    let config = config(alloc)?;
    let text = pending_text(alloc, call, &config)?;
    Ok(text.as_slice() == wanted)
}

/// Is the call that waits printed so? It is let go.
fn is_pending(alloc: Global, call: PendingCall, wanted: &[u8]) -> Result<bool, Fail> {
    let same = is_pending_text(alloc, &call, wanted);
    drop(call);
    same
}

fn a_read(alloc: Global) -> Result<PendingCall, Fail> {
    let key = a_key(alloc)?;
    Ok(PendingCall {
        call: 4,
        node: 0,
        op: ClientOp::Read { db: 1, key },
        seq: 0,
    })
}

fn a_commit(alloc: Global) -> Result<PendingCall, Fail> {
    let writes = one_pair(alloc)?;
    Ok(PendingCall {
        call: 6,
        node: 2,
        op: ClientOp::Commit { db: 2, writes },
        seq: 5,
    })
}

#[test]
fn calls_that_wait(rt: HostRuntime) -> Result<(), Fail> {
    let alloc = rt.alloc();
    assert!(rt; is_pending(alloc, a_read(alloc)?, b"pending 4 0 read t a%3d\n")?);
    assert!(rt; is_pending(alloc, a_commit(alloc)?, b"pending 6 2 commit b 5\n")?);
    Ok(())
}

fn is_traverse_text(alloc: Global, line: &TLine, wanted: &[u8]) -> Result<bool, Fail> {
    let mut text = Vec::new(alloc);
    push_traverse(&mut text, line)?;
    Ok(text.as_slice() == wanted)
}

/// Is the line of traverses printed so? It is let go.
fn is_traverse(alloc: Global, line: TLine, wanted: &[u8]) -> Result<bool, Fail> {
    let same = is_traverse_text(alloc, &line, wanted);
    drop(line);
    same
}

#[test]
fn lines_of_traverses(rt: HostRuntime) -> Result<(), Fail> {
    let alloc = rt.alloc();
    let asked = TLine::Asked {
        number: 1,
        sender: 0,
        receiver: 2,
        generation: 3,
        traverse: 4,
        pass: Pass::Copies,
    };
    assert!(rt; is_traverse(alloc, asked, b"tframe 1 0 2 3 ask 4 copies\n")?);
    let rows = TLine::Rows {
        number: 2,
        sender: 2,
        receiver: 0,
        generation: 3,
        traverse: 4,
        pass: Pass::Entries,
        count: 5,
    };
    assert!(rt; is_traverse(alloc, rows, b"tframe 2 2 0 3 rows 4 entries 5\n")?);
    assert!(rt; is_traverse(alloc, TLine::TLost(2), b"tlost 2\n")?);
    assert!(rt; is_traverse(alloc, TLine::Ended(4), b"traverse 4 ended\n")?);
    Ok(())
}

#[test]
fn answers_of_traverses(rt: HostRuntime) -> Result<(), Fail> {
    let alloc = rt.alloc();
    let none = TLine::Shown(Items::empty(alloc));
    assert!(rt; is_traverse(alloc, none, b"Dumped 0 records\n")?);
    let one = TLine::Shown(one_pair(alloc)?);
    assert!(rt; is_traverse(alloc, one, b"key=a%3d data=v\nDumped 1 records\n")?);
    Ok(())
}

fn is_waiting(alloc: Global, traverse: TPending, wanted: &[u8]) -> Result<bool, Fail> {
    let config = config(alloc)?;
    Ok(pending_traverse_text(alloc, &traverse, &config)?.as_slice() == wanted)
}

#[test]
fn traverses_that_wait(rt: HostRuntime) -> Result<(), Fail> {
    let waiting = TPending {
        traverse: 4,
        node: 2,
        db: 1,
    };
    assert!(rt; is_waiting(rt.alloc(), waiting, b"pending-traverse 4 2 t\n")?);
    Ok(())
}
