//! The text of a message between nodes.
ghost use Rattle.std.specs.Prelude.{◌≡◌, ◌++◌, codes, length, IfOk, OnOk};
ghost use Rattle.std.specs.Fmt.{decimal};
ghost use Rattle.ct_spelling.specs.Spelling.{spelling};
ghost use Rattle.ct_rules_node.specs.Node.{name_of};
ghost use Rattle.ct_text.specs.Message.{counts_text, kind_text, message_text, pairs_in, rsn_text};
ghost use Rattle.ct_text.specs.Words.{items_text};

use crate::words::{
    push, push_addresses, push_assigned, push_number, push_numbers, push_record, push_value,
};
use ct_frame::frame::{CallKind, Msg, PTable};
use ct_node_state::kinds::name_of;
use ct_values::config::Config;
use ct_values::key::Key;
use ct_values::memory::NoMemory;
use ct_values::value::Value;

fn push_kind(text: &mut Vec<u8>, kind: CallKind) -> Result<(), NoMemory>
    ensures { OnOk result (text.new.items ≡ text.old.items ++ kind_text kind) }
{
    match kind {
        CallKind::Lock => push(text, b" lock"),
        CallKind::Read => push(text, b" read"),
    }
}

/// A record and a number of it.
fn push_rsn(
    text: &mut Vec<u8>,
    config: &Config,
    word: &[u8],
    db: u32,
    key: &Key,
    rsn: u64,
) -> Result<(), NoMemory>
    ensures { OnOk result (text.new.items ≡ text.old.items ++ rsn_text config.now word.now db key.now rsn) }
{
    push_record(text, config, word, db, key)?;
    push_number(text, b" ", rsn)
}

/// A record handed on: the number of the request, and the copy.
fn push_copy(text: &mut Vec<u8>, rsn: u64, value: &Value) -> Result<(), NoMemory>
    ensures { OnOk result (text.new.items ≡ text.old.items ++ (codes " " ++ decimal rsn ++ codes " " ++ spelling value.now)) }
{
    push_number(text, b" ", rsn)?;
    push_value(text, b" ", value.bytes())
}

/// Who wants a record, with which request, and what for.
fn push_wish(text: &mut Vec<u8>, node: u32, request: u64, kind: CallKind) -> Result<(), NoMemory>
    ensures { OnOk result (text.new.items ≡ text.old.items ++ (codes " " ++ decimal node ++ codes " " ++ decimal request ++ kind_text kind)) }
{
    push_number(text, b" ", u64::from(node))?;
    push_number(text, b" ", request)?;
    push_kind(text, kind)
}

/// How many pairs persistent databases have together. There is no memory for 2^64 of them.
fn pairs_in(tables: &[PTable]) -> Result<u64, NoMemory>
    ensures { IfOk result (λ n. n ≡ pairs_in tables.now) }
{
    let mut pairs = 0u64;
    for table in tables {
        match pairs.checked_add(table.pairs.len() as u64) {
            Some(sum) => pairs = sum,
            None => return Err(NoMemory),
        }
    }
    Ok(pairs)
}

fn push_counts(
    text: &mut Vec<u8>,
    rows: usize,
    tables: &[PTable],
    addresses: usize,
) -> Result<(), NoMemory>
    ensures { OnOk result (text.new.items ≡ text.old.items ++ counts_text rows (pairs_in tables.now) addresses) }
{
    let pairs = pairs_in(tables)?;
    push_number(text, b" ", rows as u64)?;
    push_number(text, b" ", pairs)?;
    push_number(text, b" ", addresses as u64)
}

fn push_update(
    text: &mut Vec<u8>,
    config: &Config,
    db: u32,
    seq: u64,
    writes: usize,
) -> Result<(), NoMemory>
    ensures { OnOk result (text.new.items ≡ text.old.items ++ (codes "pupdate " ++ name_of config.now db ++ codes " " ++ decimal seq ++ codes " " ++ decimal writes)) }
{
    push(text, b"pupdate ")?;
    push(text, name_of(config, db))?;
    push_number(text, b" ", seq)?;
    push_number(text, b" ", writes as u64)
}

fn push_ack(text: &mut Vec<u8>, config: &Config, db: u32, seq: u64) -> Result<(), NoMemory>
    ensures { OnOk result (text.new.items ≡ text.old.items ++ (codes "pack " ++ name_of config.now db ++ codes " " ++ decimal seq)) }
{
    push(text, b"pack ")?;
    push(text, name_of(config, db))?;
    push_number(text, b" ", seq)
}

/// The text of a message, at the end of a text: its name, and its fields.
#[tactic(auto, unfolding(crate::specs::Message::message_text))]
pub fn push_message(text: &mut Vec<u8>, config: &Config, msg: &Msg) -> Result<(), NoMemory>
    ensures { OnOk result (text.new.items ≡ text.old.items ++ message_text config.now msg.now) }
{
    match msg {
        Msg::Call {
            db,
            key,
            request,
            kind,
        } => {
            push_rsn(text, config, b"call ", *db, key, *request)?;
            push_kind(text, *kind)
        }
        Msg::Recall {
            db,
            key,
            least,
            node,
            request,
            kind,
        } => {
            push_rsn(text, config, b"recall ", *db, key, *least)?;
            push_wish(text, *node, *request, *kind)
        }
        Msg::Give {
            db,
            key,
            rsn,
            value,
        } => {
            push_rsn(text, config, b"give ", *db, key, *rsn)?;
            push_value(text, b" ", value.bytes())
        }
        Msg::Pass {
            db,
            key,
            request,
            rsn,
            value,
        } => {
            push_rsn(text, config, b"pass ", *db, key, *request)?;
            push_copy(text, *rsn, value)
        }
        Msg::Refuse {
            db,
            key,
            request,
            rsn,
        } => {
            push_rsn(text, config, b"refuse ", *db, key, *request)?;
            push_number(text, b" ", *rsn)
        }
        Msg::Grant {
            db,
            key,
            request,
            rsn,
            value,
        } => {
            push_rsn(text, config, b"grant ", *db, key, *request)?;
            push_copy(text, *rsn, value)
        }
        Msg::Done {
            db,
            key,
            node,
            request,
        } => {
            push_rsn(text, config, b"done ", *db, key, u64::from(*node))?;
            push_number(text, b" ", *request)
        }
        Msg::Revoke { db, key, rsn } => push_rsn(text, config, b"revoke ", *db, key, *rsn),
        Msg::RevokeAck { db, key, rsn } => push_rsn(text, config, b"revokeack ", *db, key, *rsn),
        Msg::VStore { db, key, rsn } => push_rsn(text, config, b"vstore ", *db, key, *rsn),
        Msg::VStored { db, key, rsn } => push_rsn(text, config, b"vstored ", *db, key, *rsn),
        Msg::VDelete { db, key, rsn } => push_rsn(text, config, b"vdelete ", *db, key, *rsn),
        Msg::VDeleted { db, key, rsn } => push_rsn(text, config, b"vdeleted ", *db, key, *rsn),
        Msg::Freeze { members } => {
            push(text, b"freeze ")?;
            push_numbers(text, members.as_slice())
        }
        Msg::FreezeAck => push(text, b"freezeack"),
        Msg::Pull => push(text, b"pull"),
        Msg::PullReply {
            vbase,
            pbase,
            table,
            ptables,
            addresses,
        } => {
            push_number(text, b"pullreply ", *vbase)?;
            push_number(text, b" ", *pbase)?;
            push_counts(text, table.len(), ptables.as_slice(), addresses.len())
        }
        Msg::Push {
            members,
            table,
            ptables,
            assigned,
        } => {
            push(text, b"push ")?;
            push_numbers(text, members.as_slice())?;
            push_counts(text, table.len(), ptables.as_slice(), assigned.len())
        }
        Msg::PushAck => push(text, b"pushack"),
        Msg::Thaw => push(text, b"thaw"),
        Msg::PUpdate { db, seq, writes } => push_update(text, config, *db, *seq, writes.len()),
        Msg::PAck { db, seq } => push_ack(text, config, *db, *seq),
        Msg::Release { run, keep } => {
            push_number(text, b"release ", *run)?;
            push(text, b" ")?;
            push_addresses(text, keep.as_slice())
        }
        Msg::ReleaseAck { run } => push_number(text, b"releaseack ", *run),
        Msg::Take { run, assigned } => {
            push_number(text, b"take ", *run)?;
            push(text, b" ")?;
            push_assigned(text, assigned.as_slice())
        }
    }
}
