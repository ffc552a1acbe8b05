//! What comes of the messages that copies for reading are handed out and called in by.
ghost use Rattle.std.specs.Prelude.{◌≡◌, ◌+◌, ◌<◌, ◌^◌, nat_le, OnOk};
ghost use Rattle.ct_call.specs.Shown.{rules_of};
ghost use Rattle.ct_rules.specs.State.{rsn_of, rank};
ghost use Rattle.ct_rules.specs.Messages.{read_granted, on_grant, called_in, acknowledge, on_revoke, acknowledged, on_revokeack};

use ct_call::table::CallTable;
use ct_frame::frame::{CallKind, Msg};
use ct_frame::header::{Header, READ_ONLY_COPY, RecCopy};
use ct_record_parts::draft::Draft;
use ct_record_parts::parts::{is_read_kind, kind_of};
use ct_rules::event::Place;
use ct_rules::state::Wish;
use ct_values::client::Answer;
use ct_values::memory::NoMemory;
use ct_values::value::Value;

// Grant, from the holder
/// The wish is cleared and answered.
#[tactic(auto, unfolding(ct_rules::specs::Messages::read_granted, ct_rules::specs::Parts::keeps))]
fn read_granted(draft: &mut Draft, request: u64, value: &Value) -> Result<(), NoMemory>
    ensures { OnOk result (draft.new ≡ read_granted request draft.old draft.old.state.wish value.now) }
{
    let Some(wish) = &draft.state.as_ref().wish else {
        return Ok(());
    };
    let call = wish.call;
    draft.clear_wish();
    draft.reply(call, Answer::Read(value.copy()?))
}

/// Has the node no copy above this RSN?
#[tactic(auto, unfolding(ct_rules::specs::State::rank))]
fn is_at_most(draft: &Draft, rsn: u64) -> bool
    ensures { result ≡ nat_le (rank draft.now.state.copy) (rsn + 1) }
{
    match &draft.state.as_ref().copy {
        Some(copy) => copy.header.rsn <= rsn,
        None => true,
    }
}

/// A Grant comes: the copy is kept where it is wished for and not older than the one here.
#[tactic(auto, unfolding(ct_rules::specs::Messages::on_grant, ct_rules::specs::Parts::keeps))]
pub(crate) fn on_grant(
    draft: &mut Draft,
    at: &Place,
    holder: u32,
    request: u64,
    rsn: u64,
    value: &Value,
) -> Result<(), NoMemory>
    ensures { OnOk result (draft.new ≡ on_grant at.now holder request rsn value.now draft.old) }
{
    if !draft.is_wished(at, request, CallKind::Read)
        || draft.is_holder(at)
        || !is_at_most(draft, rsn)
    {
        return Ok(());
    }
    draft.set_copy(RecCopy {
        header: Header {
            rsn,
            dmaster: holder,
            flags: READ_ONLY_COPY,
        },
        value: value.copy()?,
    });
    read_granted(draft, request, value)
}

// Revoke, from the holder, and RevokeAck, at the holder
/// A copy for reading of at most this RSN is one no more.
#[tactic(auto, unfolding(ct_rules::specs::Messages::called_in))]
fn called_in(draft: &mut Draft, rsn: u64)
    ensures { draft.new ≡ record draft.old { state = record draft.old.state { copy = called_in rsn draft.old.state.copy } } }
{
    if let Some(copy) = &mut draft.state.as_mut().copy {
        if copy.header.flags == READ_ONLY_COPY && copy.header.rsn <= rsn {
            copy.header.flags = 0;
        }
    }
}

/// The copy is called in, and the holder gets a RevokeAck.
#[tactic(auto, unfolding(ct_rules::specs::Messages::acknowledge, ct_rules::specs::Parts::keeps))]
fn acknowledge(draft: &mut Draft, at: &Place, holder: u32, rsn: u64) -> Result<(), NoMemory>
    ensures { OnOk result (draft.new ≡ acknowledge at.now holder rsn draft.old) }
{
    called_in(draft, rsn);
    let msg = Msg::RevokeAck {
        db: at.db,
        key: at.key.copy()?,
        rsn,
    };
    draft.send(holder, msg)
}

/// A Revoke comes: a wish of kind `Read` is called for again under another number.
#[tactic(auto, unfolding(ct_rules::specs::Messages::on_revoke, ct_rules::specs::Messages::on_revoke_of, ct_rules::specs::Messages::renew, ct_rules::specs::Parts::reaches))]
pub(crate) fn on_revoke(
    draft: &mut Draft,
    at: &Place,
    holder: u32,
    rsn: u64,
) -> Result<(), NoMemory>
    requires { draft.old.next < 2 ^ 62 }
    ensures { OnOk result (draft.new ≡ on_revoke at.now holder rsn draft.old) }
{
    match &draft.state.as_ref().wish {
        Some(wish) if is_read_kind(kind_of(at, &wish.op)) => {
            let call = wish.call;
            let op = wish.op.copy()?;
            let request = draft.draw();
            draft.set_wish(Wish { call, request, op });
            acknowledge(draft, at, holder, rsn)?;
            let msg = Msg::Call {
                db: at.db,
                key: at.key.copy()?,
                request,
                kind: CallKind::Read,
            };
            draft.send(at.lmaster, msg)
        }
        _ => acknowledge(draft, at, holder, rsn),
    }
}

/// A RevokeAck comes: the last one ends the revocation.
#[tactic(auto, unfolding(ct_rules::specs::Messages::on_revokeack, ct_rules::specs::Messages::acknowledged, ct_rules::specs::Parts::keeps))]
pub(crate) fn on_revokeack(
    draft: &mut Draft,
    at: &Place,
    table: &CallTable,
    node: u32,
    rsn: u64,
) -> Result<(), NoMemory>
    requires { rsn_of draft.old.state.copy < 2 ^ 62 }
    ensures { OnOk result (draft.new ≡ on_revokeack at.now (rules_of table.now) node rsn draft.old) }
{
    if draft.state.as_mut().tracking.ack(node, rsn) {
        draft.end_revocation(at, table)
    } else {
        Ok(())
    }
}
