//! What comes of the messages of the two phases of a vacuum.
ghost use Rattle.std.specs.Prelude.{◌≡◌, ◌<◌, ◌^◌, OnOk, is_none};
ghost use Rattle.ct_rules.specs.Messages.{stored_copy, deleted_copy, on_vstore, on_vdelete, finish, on_vstored, on_vdeleted};

use ct_frame::frame::Msg;
use ct_frame::header::{Header, RecCopy};
use ct_record_parts::draft::Draft;
use ct_rules::event::{Act, Place};
use ct_values::memory::NoMemory;
use ct_values::value::Value;

/// An old copy that is neither locked nor mastered here becomes the deleted record.
#[tactic(auto, unfolding(ct_rules::specs::Messages::stored_copy))]
fn stored_copy(draft: &mut Draft, at: &Place, sender: u32, rsn: u64)
    ensures { draft.new ≡ record draft.old { state = record draft.old.state { copy = stored_copy at.now.me sender rsn (is_none draft.old.state.locked) draft.old.state.copy } } }
{
    let Some(copy) = &draft.state.as_ref().copy else {
        return;
    };
    if copy.header.rsn < rsn
        && draft.state.as_ref().locked.is_none()
        && copy.header.dmaster != at.me
    {
        draft.set_copy(RecCopy {
            header: Header {
                rsn,
                dmaster: sender,
                flags: 0,
            },
            value: Value::empty(draft.alloc),
        });
    }
}

/// A copy of at most this RSN that is neither locked nor mastered here is removed.
#[tactic(auto, unfolding(ct_rules::specs::Messages::deleted_copy))]
fn deleted_copy(draft: &mut Draft, at: &Place, rsn: u64)
    ensures { draft.new ≡ record draft.old { state = record draft.old.state { copy = deleted_copy at.now.me rsn (is_none draft.old.state.locked) draft.old.state.copy } } }
{
    let Some(copy) = &draft.state.as_ref().copy else {
        return;
    };
    if copy.header.rsn <= rsn
        && draft.state.as_ref().locked.is_none()
        && copy.header.dmaster != at.me
    {
        draft.clear_copy();
    }
}

/// A VStore comes.
#[tactic(auto, unfolding(ct_rules::specs::Messages::on_vstore, ct_rules::specs::Parts::keeps))]
pub(crate) fn on_vstore(
    draft: &mut Draft,
    at: &Place,
    sender: u32,
    rsn: u64,
) -> Result<(), NoMemory>
    ensures { OnOk result (draft.new ≡ on_vstore at.now sender rsn draft.old) }
{
    stored_copy(draft, at, sender, rsn);
    let msg = Msg::VStored {
        db: at.db,
        key: at.key.copy()?,
        rsn,
    };
    draft.send(sender, msg)
}

/// A VDelete comes.
#[tactic(auto, unfolding(ct_rules::specs::Messages::on_vdelete, ct_rules::specs::Parts::keeps))]
pub(crate) fn on_vdelete(
    draft: &mut Draft,
    at: &Place,
    sender: u32,
    rsn: u64,
) -> Result<(), NoMemory>
    ensures { OnOk result (draft.new ≡ on_vdelete at.now sender rsn draft.old) }
{
    deleted_copy(draft, at, rsn);
    let msg = Msg::VDeleted {
        db: at.db,
        key: at.key.copy()?,
        rsn,
    };
    draft.send(sender, msg)
}

/// Nothing is left of the record, and the floor is above all that was.
#[tactic(auto, unfolding(ct_rules::specs::Messages::finish, ct_rules::specs::Messages::greater, ct_rules::specs::Parts::end_vacuum, ct_rules::specs::Parts::reaches, ct_rules::specs::Parts::keeps))]
pub(crate) fn finish(draft: &mut Draft, rsn: u64) -> Result<(), NoMemory>
    requires { rsn < 2 ^ 62 }
    ensures { OnOk result (draft.new ≡ finish rsn draft.old) }
{
    draft.clear_copy();
    draft.clear_entry();
    draft.end_vacuum();
    draft.reaches(rsn + 2);
    draft.floor = draft.floor.max(rsn + 2);
    draft.performs(Act::Finished { floor: draft.floor })
}

/// A VStored comes: after the last one all others get a VDelete.
#[tactic(auto, unfolding(ct_rules::specs::Messages::on_vstored, ct_rules::specs::Messages::on_vstored_of, ct_rules::specs::Parts::keeps))]
pub(crate) fn on_vstored(draft: &mut Draft, at: &Place, node: u32, rsn: u64) -> Result<(), NoMemory>
    ensures { OnOk result (draft.new ≡ on_vstored at.now node rsn draft.old) }
{
    let Some(vacuum) = &mut draft.state.as_mut().vacuum else {
        return Ok(());
    };
    if !vacuum.stored(node, rsn) {
        return Ok(());
    }
    let others = Vec::from_slice(draft.alloc, vacuum.missing())?;
    let msg = Msg::VDelete {
        db: at.db,
        key: at.key.copy()?,
        rsn,
    };
    draft.send_all(others.as_slice(), &msg)
}

/// A VDeleted comes: after the last one nothing is left of the record.
#[tactic(auto, unfolding(ct_rules::specs::Messages::on_vdeleted, ct_rules::specs::Messages::on_vdeleted_of, ct_rules::specs::Messages::finish, ct_rules::specs::Parts::keeps))]
pub(crate) fn on_vdeleted(draft: &mut Draft, node: u32, rsn: u64) -> Result<(), NoMemory>
    requires { rsn < 2 ^ 62 }
    ensures { OnOk result (draft.new ≡ on_vdeleted node rsn draft.old) }
{
    let Some(vacuum) = &mut draft.state.as_mut().vacuum else {
        return Ok(());
    };
    if vacuum.deleted(node, rsn) {
        finish(draft, rsn)
    } else {
        Ok(())
    }
}
