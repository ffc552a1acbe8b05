use ct_frame::event::{Event, Note, Out};
use ct_frame::frame::{Assigned, CallKind, Frame, Msg, PTable, TableRow};
use ct_frame::header::{BEING_REVOKED, HAS_DELEGATIONS, Header, NONE, RecCopy};
use ct_frame::round::{Phase, Pull, PushBody, Stage};
use ct_script::plan::{Plan, PlanItem};
use ct_values::address::Address;
use ct_values::boxed::BoxedItems;
use ct_values::client::{Answer, ClientOp, Pair, Why};
use ct_values::config::{Config, ConfigFault, DbDecl, DbKind};
use ct_values::copies::Duplicate;
use ct_values::items::Items;
use ct_values::key::Key;
use ct_values::name::DbName;
use ct_values::value::Value;
use std::alloc::Global;
use std::test::Fail;

/// Is its copy equal to it? It is let go.
fn is_copied<T: Duplicate + PartialEq + Drop>(source: T) -> Result<bool, Fail> {
    Ok(source.duplicate()? == source)
}

fn a_key(alloc: Global) -> Result<Key, Fail> {
    Ok(Key::new(alloc, b"k")?.copy()?)
}

fn a_value(alloc: Global) -> Result<Value, Fail> {
    Ok(Value::new(alloc, b"v")?.copy()?)
}

fn call_is_copied(alloc: Global) -> Result<bool, Fail> {
    let key = a_key(alloc)?;
    is_copied(Msg::Call {
        db: 1,
        key,
        request: 3,
        kind: CallKind::Read,
    })
}

fn recall_is_copied(alloc: Global) -> Result<bool, Fail> {
    let key = a_key(alloc)?;
    is_copied(Msg::Recall {
        db: 1,
        key,
        least: 4,
        node: 2,
        request: 3,
        kind: CallKind::Read,
    })
}

fn refuse_is_copied(alloc: Global) -> Result<bool, Fail> {
    let key = a_key(alloc)?;
    is_copied(Msg::Refuse {
        db: 1,
        key,
        request: 3,
        rsn: 4,
    })
}

fn done_is_copied(alloc: Global) -> Result<bool, Fail> {
    let key = a_key(alloc)?;
    is_copied(Msg::Done {
        db: 1,
        key,
        node: 2,
        request: 3,
    })
}

#[test]
fn copies_of_calls(rt: HostRuntime) -> Result<(), Fail> {
    assert!(rt; call_is_copied(rt.alloc())?);
    assert!(rt; recall_is_copied(rt.alloc())?);
    assert!(rt; refuse_is_copied(rt.alloc())?);
    assert!(rt; done_is_copied(rt.alloc())?);
    Ok(())
}

fn give_is_copied(alloc: Global) -> Result<bool, Fail> {
    let key = a_key(alloc)?;
    let value = a_value(alloc)?;
    is_copied(Msg::Give {
        db: 1,
        key,
        rsn: 4,
        value,
    })
}

fn pass_is_copied(alloc: Global) -> Result<bool, Fail> {
    let key = a_key(alloc)?;
    let value = a_value(alloc)?;
    is_copied(Msg::Pass {
        db: 1,
        key,
        request: 3,
        rsn: 4,
        value,
    })
}

fn grant_is_copied(alloc: Global) -> Result<bool, Fail> {
    let key = a_key(alloc)?;
    let value = a_value(alloc)?;
    is_copied(Msg::Grant {
        db: 1,
        key,
        request: 3,
        rsn: 4,
        value,
    })
}

#[test]
fn copies_of_values(rt: HostRuntime) -> Result<(), Fail> {
    assert!(rt; give_is_copied(rt.alloc())?);
    assert!(rt; pass_is_copied(rt.alloc())?);
    assert!(rt; grant_is_copied(rt.alloc())?);
    Ok(())
}

fn revoke_is_copied(alloc: Global) -> Result<bool, Fail> {
    let key = a_key(alloc)?;
    is_copied(Msg::Revoke { db: 1, key, rsn: 4 })
}

fn revokeack_is_copied(alloc: Global) -> Result<bool, Fail> {
    let key = a_key(alloc)?;
    is_copied(Msg::RevokeAck { db: 1, key, rsn: 4 })
}

fn vstore_is_copied(alloc: Global) -> Result<bool, Fail> {
    let key = a_key(alloc)?;
    is_copied(Msg::VStore { db: 1, key, rsn: 4 })
}

fn vstored_is_copied(alloc: Global) -> Result<bool, Fail> {
    let key = a_key(alloc)?;
    is_copied(Msg::VStored { db: 1, key, rsn: 4 })
}

fn vdelete_is_copied(alloc: Global) -> Result<bool, Fail> {
    let key = a_key(alloc)?;
    is_copied(Msg::VDelete { db: 1, key, rsn: 4 })
}

fn vdeleted_is_copied(alloc: Global) -> Result<bool, Fail> {
    let key = a_key(alloc)?;
    is_copied(Msg::VDeleted { db: 1, key, rsn: 4 })
}

#[test]
fn copies_of_revocations(rt: HostRuntime) -> Result<(), Fail> {
    assert!(rt; revoke_is_copied(rt.alloc())?);
    assert!(rt; revokeack_is_copied(rt.alloc())?);
    Ok(())
}

#[test]
fn copies_of_vacuums(rt: HostRuntime) -> Result<(), Fail> {
    assert!(rt; vstore_is_copied(rt.alloc())?);
    assert!(rt; vstored_is_copied(rt.alloc())?);
    assert!(rt; vdelete_is_copied(rt.alloc())?);
    assert!(rt; vdeleted_is_copied(rt.alloc())?);
    Ok(())
}

#[test]
fn copies_of_short_messages(rt: HostRuntime) -> Result<(), Fail> {
    assert!(rt; is_copied(Msg::FreezeAck)?);
    assert!(rt; is_copied(Msg::Pull)?);
    assert!(rt; is_copied(Msg::PushAck)?);
    assert!(rt; is_copied(Msg::Thaw)?);
    assert!(rt; is_copied(Msg::PAck { db: 1, seq: 5 })?);
    assert!(rt; is_copied(Msg::ReleaseAck { run: 6 })?);
    assert!(rt; is_copied(a_frame())?);
    Ok(())
}

fn one_pair(alloc: Global) -> Result<Items<Pair>, Fail> {
    let key = a_key(alloc)?;
    let value = a_value(alloc)?;
    let mut list = Items::empty(alloc);
    list.push(Pair { key, value })?;
    Ok(list)
}

fn one_row(alloc: Global) -> Result<Items<TableRow>, Fail> {
    let key = a_key(alloc)?;
    let value = a_value(alloc)?;
    let mut list = Items::empty(alloc);
    list.push(TableRow {
        db: 1,
        key,
        rsn: 4,
        value,
        master: Some(2),
    })?;
    Ok(list)
}

fn one_ptable(alloc: Global) -> Result<Items<PTable>, Fail> {
    let pairs = one_pair(alloc)?;
    let mut list = Items::empty(alloc);
    list.push(PTable {
        db: 1,
        seq: 5,
        pairs,
    })?;
    Ok(list)
}

fn two_assigned(alloc: Global) -> Result<Items<Assigned>, Fail> {
    let address = Address::V6(1);
    let list = vec![in alloc;
        Assigned {
            address,
            node: None
        },
        Assigned {
            address,
            node: Some(2)
        },
    ]?;
    Ok(Items::new(list))
}

fn two_nodes(alloc: Global) -> Result<Items<u32>, Fail> {
    Ok(Items::new(vec![in alloc; 0, 2]?))
}

fn two_addresses(alloc: Global) -> Result<Items<Address>, Fail> {
    let list = Items::new(vec![in alloc; Address::V4(9), Address::V6(1)]?);
    Ok(list.duplicate()?)
}

fn a_reply(alloc: Global) -> Result<Msg, Fail> {
    let table = one_row(alloc)?;
    let ptables = one_ptable(alloc)?;
    let addresses = two_addresses(alloc)?;
    Ok(Msg::PullReply {
        vbase: 1,
        pbase: 2,
        table: BoxedItems::new(table)?,
        ptables: BoxedItems::new(ptables)?,
        addresses: BoxedItems::new(addresses)?,
    })
}

fn a_push(alloc: Global) -> Result<Msg, Fail> {
    let members = two_nodes(alloc)?;
    let table = one_row(alloc)?;
    let ptables = one_ptable(alloc)?;
    let assigned = two_assigned(alloc)?;
    Ok(Msg::Push {
        members: BoxedItems::new(members)?,
        table: BoxedItems::new(table)?,
        ptables: BoxedItems::new(ptables)?,
        assigned: BoxedItems::new(assigned)?,
    })
}

fn freeze_is_copied(alloc: Global) -> Result<bool, Fail> {
    let members = two_nodes(alloc)?;
    is_copied(Msg::Freeze { members })
}

fn update_is_copied(alloc: Global) -> Result<bool, Fail> {
    let writes = one_pair(alloc)?;
    is_copied(Msg::PUpdate {
        db: 1,
        seq: 5,
        writes,
    })
}

fn release_is_copied(alloc: Global) -> Result<bool, Fail> {
    let keep = two_addresses(alloc)?;
    is_copied(Msg::Release { run: 6, keep })
}

fn take_is_copied(alloc: Global) -> Result<bool, Fail> {
    let assigned = two_assigned(alloc)?;
    is_copied(Msg::Take { run: 6, assigned })
}

fn reply_is_copied(alloc: Global) -> Result<bool, Fail> {
    is_copied(a_reply(alloc)?)
}

fn push_is_copied(alloc: Global) -> Result<bool, Fail> {
    is_copied(a_push(alloc)?)
}

#[test]
fn copies_of_lists(rt: HostRuntime) -> Result<(), Fail> {
    assert!(rt; freeze_is_copied(rt.alloc())?);
    assert!(rt; update_is_copied(rt.alloc())?);
    assert!(rt; release_is_copied(rt.alloc())?);
    assert!(rt; take_is_copied(rt.alloc())?);
    Ok(())
}

#[test]
fn copies_of_tables(rt: HostRuntime) -> Result<(), Fail> {
    assert!(rt; reply_is_copied(rt.alloc())?);
    assert!(rt; push_is_copied(rt.alloc())?);
    Ok(())
}

fn a_pull(alloc: Global) -> Result<Pull, Fail> {
    let table = one_row(alloc)?;
    let ptables = one_ptable(alloc)?;
    let addresses = Items::new(vec![in alloc; Address::V4(9)]?);
    Ok(Pull {
        node: 2,
        vbase: 1,
        pbase: 2,
        table,
        ptables,
        addresses,
    })
}

fn a_push_body(alloc: Global) -> Result<PushBody, Fail> {
    let members = two_nodes(alloc)?;
    let table = one_row(alloc)?;
    let ptables = one_ptable(alloc)?;
    let assigned = two_assigned(alloc)?;
    Ok(PushBody {
        members,
        table,
        ptables,
        assigned,
        vparent: 1,
        pparent: 2,
    })
}

fn pull_is_copied(alloc: Global) -> Result<bool, Fail> {
    is_copied(a_pull(alloc)?)
}

fn push_body_is_copied(alloc: Global) -> Result<bool, Fail> {
    is_copied(a_push_body(alloc)?)
}

#[test]
fn copies_of_rounds(rt: HostRuntime) -> Result<(), Fail> {
    assert!(rt; pull_is_copied(rt.alloc())?);
    assert!(rt; push_body_is_copied(rt.alloc())?);
    assert!(rt; is_copied(CallKind::Read)?);
    Ok(())
}

#[test]
fn copies_of_phases(rt: HostRuntime) -> Result<(), Fail> {
    for phase in [
        Phase::Idle,
        Phase::Serving(1),
        Phase::Freezing(2),
        Phase::Frozen(3),
        Phase::Installed(4),
    ] {
        assert!(rt; is_copied(phase)?);
    }
    for stage in [
        Stage::Freezing,
        Stage::Pulling,
        Stage::Installing,
        Stage::Completed,
    ] {
        assert!(rt; is_copied(stage)?);
    }
    Ok(())
}

const EARLIER: Header = Header {
    rsn: 4,
    dmaster: NONE,
    flags: HAS_DELEGATIONS + BEING_REVOKED,
};

const LATER: Header = Header {
    rsn: 5,
    dmaster: 0,
    flags: 0,
};

#[test]
fn headers(rt: HostRuntime) -> Result<(), Fail> {
    for (first, second, want) in [
        (LATER, EARLIER, true),
        (EARLIER, LATER, false),
        (EARLIER, EARLIER, false),
    ] {
        assert!(rt; first.newer(&second) == want);
    }
    assert!(rt; is_copied(EARLIER)?);
    let value = a_value(rt.alloc())?;
    assert!(rt;
        is_copied(RecCopy {
            header: EARLIER,
            value,
        })?
    );
    Ok(())
}

fn a_frame() -> Frame {
    Frame {
        generation: 2,
        sender: 1,
        receiver: 0,
        msg: Msg::Thaw,
    }
}

fn read_is_copied(alloc: Global) -> Result<bool, Fail> {
    let key = a_key(alloc)?;
    let op = ClientOp::Read { db: 1, key };
    is_copied(Event::Client { call: 7, op })
}

fn round_is_copied(alloc: Global) -> Result<bool, Fail> {
    let members = two_nodes(alloc)?;
    is_copied(Event::BeginRound { ticket: 2, members })
}

fn takeover_is_copied(alloc: Global) -> Result<bool, Fail> {
    let able = two_nodes(alloc)?;
    is_copied(Event::BeginTakeover { able })
}

#[test]
fn copies_of_events(rt: HostRuntime) -> Result<(), Fail> {
    assert!(rt; read_is_copied(rt.alloc())?);
    assert!(rt; round_is_copied(rt.alloc())?);
    assert!(rt; takeover_is_copied(rt.alloc())?);
    Ok(())
}

#[test]
fn copies_of_short_events(rt: HostRuntime) -> Result<(), Fail> {
    assert!(rt; is_copied(Event::Arrive(a_frame()))?);
    assert!(rt; is_copied(Event::Retry)?);
    assert!(rt; is_copied(Event::Vacuum { db: 1 })?);
    Ok(())
}

#[test]
fn copies_of_outs(rt: HostRuntime) -> Result<(), Fail> {
    assert!(rt; is_copied(Out::Send(a_frame()))?);
    let answer = Answer::Stored;
    assert!(rt; is_copied(Out::Answer { call: 7, answer })?);
    assert!(rt; is_copied(Out::Note(Note::Thawed(2)))?);
    Ok(())
}

fn vacuumed_is_copied(alloc: Global) -> Result<bool, Fail> {
    let key = a_key(alloc)?;
    is_copied(Note::Vacuumed { db: 1, key })
}

fn ended_is_copied(alloc: Global) -> Result<bool, Fail> {
    let key = a_key(alloc)?;
    is_copied(Note::Ended { db: 1, key })
}

fn round_note_is_copied(alloc: Global) -> Result<bool, Fail> {
    let members = two_nodes(alloc)?;
    is_copied(Note::Round {
        generation: 3,
        members,
        vparent: 1,
        pparent: 2,
    })
}

#[test]
fn copies_of_notes(rt: HostRuntime) -> Result<(), Fail> {
    assert!(rt; vacuumed_is_copied(rt.alloc())?);
    assert!(rt; ended_is_copied(rt.alloc())?);
    assert!(rt; round_note_is_copied(rt.alloc())?);
    Ok(())
}

#[test]
fn copies_of_short_notes(rt: HostRuntime) -> Result<(), Fail> {
    assert!(rt; is_copied(Note::Installed(2))?);
    assert!(rt; is_copied(Note::Thawed(2))?);
    assert!(rt; is_copied(Note::Released(Address::V4(9)))?);
    assert!(rt; is_copied(Note::Took(Address::V6(1)))?);
    Ok(())
}

fn a_script(alloc: Global) -> Result<Items<PlanItem>, Fail> {
    let mut script = Items::empty(alloc);
    let key = a_key(alloc)?;
    script.push(PlanItem::Call(ClientOp::Lock { db: 1, key }))?;
    let members = two_nodes(alloc)?;
    script.push(PlanItem::Round(members))?;
    Ok(script)
}

fn some_scripts(alloc: Global) -> Result<Items<Items<PlanItem>>, Fail> {
    let mut scripts = Items::empty(alloc);
    scripts.push(a_script(alloc)?)?;
    Ok(scripts)
}

fn a_plan(alloc: Global) -> Result<Plan, Fail> {
    let config = Config::new(alloc, 1, Vec::new(alloc), Vec::new(alloc))?;
    let scripts = some_scripts(alloc)?;
    Ok(Plan {
        config,
        scripts,
        net: true,
    })
}

#[test]
fn copies_of_plans(rt: HostRuntime) -> Result<(), Fail> {
    let plan = a_plan(rt.alloc())?;
    assert!(rt; is_copied(plan)?);
    Ok(())
}
