//! What comes of every event at one record.
ghost use Rattle.std.specs.Prelude.{◌≡◌, ◌<◌, ◌^◌, true, IfOk, OnOk};
ghost use Rattle.ct_call.specs.Shown.{rules_of};
ghost use Rattle.std.specs.List.Sorted.{IsStrictlyIncreasing};
ghost use Rattle.ct_frame.specs.Fields.{is_message};
ghost use Rattle.ct_values.specs.Words.{is_nil};
ghost use Rattle.ct_rules.specs.State.{rsn_of, value_of};
ghost use Rattle.ct_law_rules.specs.Form.{MayCome};
ghost use Rattle.ct_rules.specs.Moves.{store, release, unlock, is_vacuumed, phase_message, begin_vacuum, vacuum_at_home, vacuum, call_again, revoke_again, arrive, move};

use crate::messages::{on_call, on_done, on_give, on_pass, on_recall, on_refuse};
use crate::phases::{finish, on_vdelete, on_vdeleted, on_vstore, on_vstored};
use crate::readers::{on_grant, on_revoke, on_revokeack};
use ct_call::table::CallTable;
use ct_frame::frame::Msg;
use ct_record_parts::draft::Draft;
use ct_record_parts::parts::kind_of;
use ct_rules::event::{MoveEvent, Place};
use ct_rules::state::RecallNote;
use ct_tracking::vacuum::{Vacuum, VacuumPhase};
use ct_values::client::Answer;
use ct_values::memory::NoMemory;
use ct_values::value::Value;

// under the lock
/// The value is set.
#[tactic(auto, unfolding(ct_rules::specs::Moves::store, ct_rules::specs::Parts::keeps))]
pub fn store(draft: &mut Draft, call: u64, value: &Value) -> Result<(), NoMemory>
    ensures { OnOk result (draft.new ≡ store call value.now draft.old) }
{
    draft.set_value(value.copy()?);
    draft.reply(call, Answer::Stored)
}

/// The lock ends.
#[tactic(auto, unfolding(ct_rules::specs::Moves::release, ct_rules::specs::Parts::keeps))]
pub fn release(draft: &mut Draft, call: u64) -> Result<(), NoMemory>
    ensures { OnOk result (draft.new ≡ release call draft.old) }
{
    draft.state.as_mut().locked = None;
    draft.reply(call, Answer::Unlocked)
}

/// The lock ends, and then what waits is handled.
#[tactic(auto, unfolding(ct_rules::specs::Moves::unlock))]
pub fn unlock(draft: &mut Draft, at: &Place, call: u64) -> Result<(), NoMemory>
    ensures { OnOk result (draft.new ≡ unlock at.now call draft.old) }
{
    release(draft, call)?;
    draft.drained(at)
}

/// The message of a vacuum's phase.
#[tactic(auto, unfolding(ct_rules::specs::Moves::phase_message))]
fn phase_message(at: &Place, rsn: u64, phase: VacuumPhase) -> Result<Msg, NoMemory>
    ensures { IfOk result (λ m. m ≡ phase_message at.now rsn phase) }
{
    let key = at.key.copy()?;
    match phase {
        VacuumPhase::Storing => Ok(Msg::VStore {
            db: at.db,
            key,
            rsn,
        }),
        VacuumPhase::Deleting => Ok(Msg::VDelete {
            db: at.db,
            key,
            rsn,
        }),
    }
}

// a vacuum of the database
/// Has the record the empty value here?
#[tactic(auto, unfolding(ct_rules::specs::State::value_of))]
fn is_deleted(draft: &Draft) -> bool
    ensures { result ≡ is_nil (value_of draft.now.state.copy) }
{
    match &draft.state.as_ref().copy {
        Some(copy) => copy.value.bytes().is_empty(),
        None => true,
    }
}

/// Is it a key to take away?
#[tactic(auto, unfolding(ct_rules::specs::Moves::is_vacuumed))]
fn is_vacuumed(draft: &Draft, at: &Place) -> bool
    ensures { result ≡ is_vacuumed at.now.me draft.now.state }
{
    draft.is_free(at)
        && is_deleted(draft)
        && draft.state.as_ref().tracking.tracked().is_empty()
        && draft.state.as_ref().waiting.as_slice().is_empty()
        && draft.state.as_ref().queue.as_slice().is_empty()
        && draft.state.as_ref().wish.is_none()
}

/// A vacuum begins with its storing phase; with no other member it is done at once.
#[tactic(auto, unfolding(ct_rules::specs::Moves::begin_vacuum, ct_rules::specs::Parts::keeps, ct_rules::specs::Parts::reaches))]
fn begin_vacuum(draft: &mut Draft, at: &Place, others: &[u32]) -> Result<(), NoMemory>
    requires ascending { IsStrictlyIncreasing others.now }
    requires in_limit { rsn_of draft.old.state.copy < 2 ^ 62 }
    ensures { OnOk result (draft.new ≡ begin_vacuum at.now draft.old others.now) }
{
    let rsn = draft.rsn();
    if others.is_empty() {
        return finish(draft, rsn);
    }
    let vacuum = Vacuum::begin(draft.alloc, rsn, others)?;
    draft.rise();
    draft.set_vacuum(vacuum);
    draft.reaches(rsn + 1);
    let msg = Msg::VStore {
        db: at.db,
        key: at.key.copy()?,
        rsn,
    };
    draft.send_all(others, &msg)
}

/// At the location master a vacuum that runs asks the missing nodes again, and else one begins.
#[tactic(auto, unfolding(ct_rules::specs::Moves::vacuum_at_home))]
fn vacuum_at_home(draft: &mut Draft, at: &Place, others: &[u32]) -> Result<(), NoMemory>
    requires ascending { IsStrictlyIncreasing others.now }
    requires in_limit { rsn_of draft.old.state.copy < 2 ^ 62 }
    ensures { OnOk result (draft.new ≡ vacuum_at_home at.now others.now draft.old draft.old.state.vacuum) }
{
    let Some(vacuum) = &draft.state.as_ref().vacuum else {
        return begin_vacuum(draft, at, others);
    };
    let missing = Vec::from_slice(draft.alloc, vacuum.missing())?;
    let msg = phase_message(at, vacuum.rsn(), vacuum.phase())?;
    draft.send_all(missing.as_slice(), &msg)
}

/// A vacuum of one key: at the location master its phases, and elsewhere the record is given.
#[tactic(auto, unfolding(ct_rules::specs::Moves::vacuum))]
pub fn vacuum(draft: &mut Draft, at: &Place, others: &[u32]) -> Result<(), NoMemory>
    requires ascending { IsStrictlyIncreasing others.now }
    requires in_limit { rsn_of draft.old.state.copy < 2 ^ 62 }
    ensures { OnOk result (draft.new ≡ vacuum at.now others.now draft.old) }
{
    if !is_vacuumed(draft, at) {
        return Ok(());
    }
    if at.me == at.lmaster {
        vacuum_at_home(draft, at, others)
    } else {
        draft.give(at)
    }
}

// sending again
/// The Call of a wish that has a request, under the same number.
#[tactic(auto, unfolding(ct_rules::specs::Moves::call_again, ct_rules::specs::Moves::call_again_of))]
fn call_again(draft: &mut Draft, at: &Place) -> Result<(), NoMemory>
    ensures { OnOk result (draft.new ≡ call_again at.now draft.old) }
{
    match &draft.state.as_ref().wish {
        Some(wish) if wish.request != 0 => {
            let msg = Msg::Call {
                db: at.db,
                key: at.key.copy()?,
                request: wish.request,
                kind: kind_of(at, &wish.op),
            };
            draft.send(at.lmaster, msg)
        }
        _ => Ok(()),
    }
}

/// The Revoke of a revocation that runs, to the missing nodes.
#[tactic(auto, unfolding(ct_rules::specs::Moves::revoke_again, ct_rules::specs::Moves::revoke_again_of))]
fn revoke_again(draft: &mut Draft, at: &Place) -> Result<(), NoMemory>
    ensures { OnOk result (draft.new ≡ revoke_again at.now draft.old) }
{
    let Some(rsn) = draft.state.as_ref().tracking.revoking() else {
        return Ok(());
    };
    let missing = Vec::from_slice(draft.alloc, draft.state.as_ref().tracking.missing())?;
    let msg = Msg::Revoke {
        db: at.db,
        key: at.key.copy()?,
        rsn,
    };
    draft.send_all(missing.as_slice(), &msg)
}

// every message and every event
/// A message of the record comes: it is dropped, or its rule is followed.
#[tactic(auto, using(crate::proofs::Limits::limit_last), unfolding(ct_rules::specs::Moves::arrive, ct_rules::specs::Moves::at_home, ct_rules::specs::Moves::from_home))]
pub fn arrive(
    draft: &mut Draft,
    at: &Place,
    table: &CallTable,
    sender: u32,
    msg: &Msg,
) -> Result<(), NoMemory>
    requires well_formed { is_message sender msg.now ≡ true }
    requires in_limit { rsn_of draft.old.state.copy < 2 ^ 62 }
    requires next { draft.old.next < 2 ^ 62 }
    ensures { OnOk result (draft.new ≡ arrive at.now (rules_of table.now) sender msg.now draft.old) }
{
    let is_home = at.me == at.lmaster;
    let from_home = sender == at.lmaster;
    match msg {
        Msg::Call { request, kind, .. } if is_home => on_call(draft, at, sender, *request, *kind),
        Msg::Recall {
            least,
            node,
            request,
            kind,
            ..
        } if from_home => {
            let note = RecallNote {
                least: *least,
                node: *node,
                request: *request,
                kind: *kind,
            };
            on_recall(draft, at, note)
        }
        Msg::Give { rsn, value, .. } if is_home => on_give(draft, at, sender, *rsn, value),
        Msg::Pass {
            request,
            rsn,
            value,
            ..
        } if from_home => on_pass(draft, at, table, *request, *rsn, value),
        Msg::Refuse { request, rsn, .. } if is_home => on_refuse(draft, at, sender, *request, *rsn),
        Msg::Grant {
            request,
            rsn,
            value,
            ..
        } => on_grant(draft, at, sender, *request, *rsn, value),
        Msg::Done { node, request, .. } if is_home => on_done(draft, at, *node, *request),
        Msg::Revoke { rsn, .. } => on_revoke(draft, at, sender, *rsn),
        Msg::RevokeAck { rsn, .. } => on_revokeack(draft, at, table, sender, *rsn),
        Msg::VStore { rsn, .. } if from_home => on_vstore(draft, at, sender, *rsn),
        Msg::VStored { rsn, .. } if is_home => on_vstored(draft, at, sender, *rsn),
        Msg::VDelete { rsn, .. } if from_home => on_vdelete(draft, at, sender, *rsn),
        Msg::VDeleted { rsn, .. } if is_home => on_vdeleted(draft, sender, *rsn),
        _ => Ok(()),
    }
}

/// An event comes. It is for callers of the library, as `machine::step` is: a node calls the function of the event.
pub fn moves(
    draft: &mut Draft,
    at: &Place,
    table: &CallTable,
    event: &MoveEvent,
) -> Result<(), NoMemory>
    requires may_come { MayCome draft.old.state event.now }
    requires in_limit { rsn_of draft.old.state.copy < 2 ^ 62 }
    requires next { draft.old.next < 2 ^ 62 }
    ensures { OnOk result (draft.new ≡ move at.now (rules_of table.now) event.now draft.old) }
{
    match event {
        MoveEvent::Want { call, op } => draft.want(at, table, *call, op),
        MoveEvent::Store { call, value } => store(draft, *call, value),
        MoveEvent::Unlock { call } => unlock(draft, at, *call),
        MoveEvent::Arrive { sender, msg } => arrive(draft, at, table, *sender, msg),
        MoveEvent::Vacuum { others } => vacuum(draft, at, others.as_slice()),
        MoveEvent::Resend => {
            call_again(draft, at)?;
            revoke_again(draft, at)
        }
    }
}
