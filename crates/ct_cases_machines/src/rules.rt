use ct_frame::frame::{CallKind, Msg};
use ct_rules::event::{Act, MoveEvent, Place};
use ct_rules::state::{Entry, RecState, RecallNote, Waiter, Wish};
use ct_values::client::{Answer, ClientOp};
use ct_values::copies::Duplicate;
use ct_values::items::Items;
use ct_values::key::Key;
use ct_values::value::Value;
use std::test::Fail;

/// Is its copy equal to it? It is let go.
fn is_copied<T: Duplicate + PartialEq>(source: T) -> Result<bool, Fail> {
    Ok(source.duplicate()? == source)
}

#[test]
fn copies_of_parts(rt: HostRuntime) -> Result<(), Fail> {
    let value = Value::new(rt.alloc(), b"v")?;
    assert!(rt;
        is_copied(Entry {
            holder: 1,
            least: 2,
            request: 3,
            value,
        })?
    );
    let key = Key::new(rt.alloc(), b"k")?;
    let op = ClientOp::Lock { db: 1, key };
    assert!(rt;
        is_copied(Wish {
            call: 4,
            request: 5,
            op,
        })?
    );
    let key = Key::new(rt.alloc(), b"k")?;
    assert!(rt;
        is_copied(Place {
            me: 0,
            lmaster: 1,
            db: 2,
            key,
            floor: 3,
            readonly: true,
        })?
    );
    Ok(())
}

#[test]
fn copies_of_events(rt: HostRuntime) -> Result<(), Fail> {
    let others = Items::new(Vec::from_array(rt.alloc(), [0, 2])?);
    assert!(rt; is_copied(MoveEvent::Vacuum { others })?);
    let key = Key::new(rt.alloc(), b"k")?;
    let msg = Msg::Revoke { db: 1, key, rsn: 6 };
    assert!(rt; is_copied(MoveEvent::Arrive { sender: 1, msg })?);
    let answer = Answer::Read(Value::new(rt.alloc(), b"v")?);
    assert!(rt; is_copied(Act::Answer { call: 3, answer })?);
    Ok(())
}

/// Is its copy locked so?
fn is_copied_locked(state: &RecState, call: u64) -> Result<bool, Fail> {
    let copied = state.copy()?;
    let same = copied.locked == Some(call);
    drop(copied);
    Ok(same)
}

fn is_kept(state: &mut RecState) -> Result<bool, Fail> {
    let blank = state.blank();
    state.locked = Some(7);
    Ok(blank && !state.blank() && is_copied_locked(state, 7)?)
}

#[test]
fn what_is_kept(rt: HostRuntime) -> Result<(), Fail> {
    let mut state = RecState::new(rt.alloc());
    let is_kept = is_kept(&mut state);
    drop(state);
    assert!(rt; is_kept?);
    Ok(())
}

#[test]
fn copies_of_what_waits(rt: HostRuntime) -> Result<(), Fail> {
    let kind = CallKind::Read;
    let waiter = Waiter {
        node: 2,
        request: 5,
        kind,
    };
    let recall = RecallNote {
        least: 1,
        node: 2,
        request: 5,
        kind,
    };
    assert!(rt; is_copied(waiter)?);
    assert!(rt; is_copied(recall)?);
    Ok(())
}
