//! A record at its location master, with ample memory.
ghost use Rattle.std.specs.Prelude.{OnOk};
ghost use Rattle.ct_law_rules.specs.Form as form;

use ct_call::table::CallTable;
use ct_frame::frame::{CallKind, Msg};
use ct_frame::header::{Header, RecCopy};
use ct_record::machine::{Act, Entry, MoveEvent, Place, RecState, Waiter, step};
use ct_values::client::{Answer, ClientOp};
use ct_values::items::Items;
use ct_values::key::Key;
use ct_values::value::Value;
use std::alloc::Global;
use std::test::Fail;

/// One step. The event is let go.
fn take(
    alloc: Global,
    state: &mut RecState,
    at: &Place,
    table: &CallTable,
    event: MoveEvent,
    next: &mut u64,
    acts: &mut Items<Act>,
) -> Result<(), Fail>
    requires in_form { form.IsInForm at.now next.old state.old }
    requires may_come { form.MayCome state.old event }
    ensures { OnOk result (form.IsInForm at.now next.new state.new) }
{
    let answer = step(alloc, state, at, table, &event, next, acts);
    drop(event);
    Ok(answer?)
}

/// Is this done? What is wanted is let go.
fn is_act(act: &Act, wanted: Act) -> bool {
    let same = *act == wanted;
    drop(wanted);
    same
}

fn is_locked(alloc: Global, act: &Act) -> bool {
    let answer = Answer::Locked(Value::empty(alloc));
    is_act(act, Act::Answer { call: 7, answer })
}

fn is_recall(act: &Act, key: Key) -> bool {
    let msg = Msg::Recall {
        db: 1,
        key,
        least: 4,
        node: 1,
        request: 3,
        kind: CallKind::Lock,
    };
    is_act(act, Act::Send { receiver: 0, msg })
}

fn are_acts(alloc: Global, acts: &[Act], key: Key) -> bool {
    acts.len() == 2 && is_locked(alloc, &acts[0]) && is_recall(&acts[1], key)
}

fn has_copy(alloc: Global, state: &RecState) -> bool {
    let header = Header {
        rsn: 4,
        dmaster: 0,
        flags: 0,
    };
    let value = Value::empty(alloc);
    state.copy == Some(RecCopy { header, value })
}

fn has_entry(alloc: Global, state: &RecState) -> bool {
    let entry = Entry {
        holder: 0,
        least: 4,
        request: 0,
        value: Value::empty(alloc),
    };
    state.entry == Some(entry)
}

fn is_waiter(queue: &[Waiter]) -> bool {
    let waiter = Waiter {
        node: 1,
        request: 3,
        kind: CallKind::Lock,
    };
    queue.len() == 1 && queue[0] == waiter
}

fn has_waiter(state: &RecState) -> bool {
    is_waiter(state.queue.as_slice()) && state.waiting.is_empty()
}

fn has_no_wish(state: &RecState) -> bool {
    state.locked == Some(7) && state.wish.is_none() && state.vacuum.is_none()
}

fn is_copied(alloc: Global, state: &RecState) -> Result<bool, Fail> {
    let copy = state.copy()?;
    let same = has_copy(alloc, &copy)
        && has_entry(alloc, &copy)
        && has_waiter(&copy)
        && has_no_wish(&copy);
    drop(copy);
    Ok(same)
}

#[test]
#[tactic(auto, unfolding(ct_law_rules::specs::Form::is_of_record, ct_values::specs::Client::wants_record, ct_frame::specs::Fields::is_message))]
fn a_record_is_locked_and_called_for(rt: HostRuntime) -> Result<(), Fail> {
    let alloc = rt.alloc();
    let table = CallTable::new(alloc);
    let key = Key::new(alloc, b"k")?;
    let at = Place {
        me: 0,
        lmaster: 0,
        db: 1,
        key: key.copy()?,
        floor: 4,
        readonly: false,
    };
    let mut state = RecState::new(alloc);
    let mut next = 1;
    let mut acts = Items::empty(alloc);
    let op = ClientOp::Lock {
        db: 1,
        key: key.copy()?,
    };
    let lock = MoveEvent::Want { call: 7, op };
    take(alloc, &mut state, &at, &table, lock, &mut next, &mut acts)?;
    let call = MoveEvent::Arrive {
        sender: 1,
        msg: Msg::Call {
            db: 1,
            key: key.copy()?,
            request: 3,
            kind: CallKind::Lock,
        },
    };
    take(alloc, &mut state, &at, &table, call, &mut next, &mut acts)?;
    assert!(rt; are_acts(alloc, acts.as_slice(), key));
    assert!(rt; is_copied(alloc, &state)?);
    assert!(rt; next == 1);
    Ok(())
}
