//! The body of a frame, written at the end of some bytes.
ghost use Rattle.std.specs.Prelude.{◌≡◌, ◌++◌, OnOk};
ghost use Rattle.ct_wire_fields.specs.Version.{newest};
ghost use Rattle.ct_wire.specs.Spelling.{address, assigned, bases, body, held, key, kind, list, operation, pair, ptable, request, row, u32, u64, value};

use crate::put::{
    put_addresses, put_assigned_list, put_key, put_kind, put_nodes, put_pairs, put_ptables,
    put_rows, put_u32, put_u64, put_value,
};
use ct_frame::frame::{Assigned, CallKind, Msg, PTable, TableRow};
use ct_values::address::Address;
use ct_values::client::Pair;
use ct_values::key::Key;
use ct_values::memory::NoMemory;
use ct_values::value::Value;

/// The number of the message's operation.
pub fn operation(msg: &Msg) -> u32
    ensures { result ≡ operation msg.now }
{
    match msg {
        Msg::Call { .. } => 1,
        Msg::Recall { .. } => 2,
        Msg::Give { .. } => 3,
        Msg::Pass { .. } => 4,
        Msg::Refuse { .. } => 5,
        Msg::Grant { .. } => 6,
        Msg::Done { .. } => 7,
        Msg::Revoke { .. } => 8,
        Msg::RevokeAck { .. } => 9,
        Msg::VStore { .. } => 10,
        Msg::VStored { .. } => 11,
        Msg::VDelete { .. } => 12,
        Msg::VDeleted { .. } => 13,
        Msg::Freeze { .. } => 14,
        Msg::FreezeAck => 15,
        Msg::Pull => 16,
        Msg::PullReply { .. } => 17,
        Msg::Push { .. } => 18,
        Msg::PushAck => 19,
        Msg::Thaw => 20,
        Msg::PUpdate { .. } => 21,
        Msg::PAck { .. } => 22,
        Msg::Release { .. } => 23,
        Msg::ReleaseAck { .. } => 24,
        Msg::Take { .. } => 25,
    }
}

/// The request that the message names, or 0.
pub fn request(msg: &Msg) -> u64
    ensures { result ≡ request msg.now }
{
    match msg {
        Msg::Call { request, .. }
        | Msg::Recall { request, .. }
        | Msg::Pass { request, .. }
        | Msg::Refuse { request, .. }
        | Msg::Grant { request, .. }
        | Msg::Done { request, .. } => *request,
        _ => 0,
    }
}

fn put_call(out: &mut Vec<u8>, db: u32, k: &Key, call: CallKind) -> Result<(), NoMemory>
    ensures { OnOk result (out.new.items ≡ out.old.items ++ (u32 db ++ key k.now ++ kind call)) }
{
    put_u32(out, db)?;
    put_key(out, k)?;
    put_kind(out, call)
}

fn put_recall(
    out: &mut Vec<u8>,
    db: u32,
    k: &Key,
    least: u64,
    node: u32,
    call: CallKind,
) -> Result<(), NoMemory>
    ensures { OnOk result (out.new.items ≡ out.old.items ++ (u32 db ++ key k.now ++ u64 least ++ u32 node ++ kind call)) }
{
    put_u32(out, db)?;
    put_key(out, k)?;
    put_u64(out, least)?;
    put_u32(out, node)?;
    put_kind(out, call)
}

fn put_copy(out: &mut Vec<u8>, db: u32, k: &Key, rsn: u64, v: &Value) -> Result<(), NoMemory>
    ensures { OnOk result (out.new.items ≡ out.old.items ++ (u32 db ++ key k.now ++ u64 rsn ++ value v.now)) }
{
    put_u32(out, db)?;
    put_key(out, k)?;
    put_u64(out, rsn)?;
    put_value(out, v)
}

fn put_rsn(out: &mut Vec<u8>, db: u32, k: &Key, rsn: u64) -> Result<(), NoMemory>
    ensures { OnOk result (out.new.items ≡ out.old.items ++ (u32 db ++ key k.now ++ u64 rsn)) }
{
    put_u32(out, db)?;
    put_key(out, k)?;
    put_u64(out, rsn)
}

fn put_done(out: &mut Vec<u8>, db: u32, k: &Key, node: u32) -> Result<(), NoMemory>
    ensures { OnOk result (out.new.items ≡ out.old.items ++ (u32 db ++ key k.now ++ u32 node)) }
{
    put_u32(out, db)?;
    put_key(out, k)?;
    put_u32(out, node)
}

#[tactic(auto, unfolding(crate::specs::Spelling::bases))]
fn put_bases(out: &mut Vec<u8>, vbase: u64, pbase: u64) -> Result<(), NoMemory>
    ensures { OnOk result (out.new.items ≡ out.old.items ++ bases vbase pbase) }
{
    put_u64(out, vbase)?;
    put_u64(out, pbase)
}

#[tactic(auto, unfolding(crate::specs::Spelling::held))]
fn put_held(
    out: &mut Vec<u8>,
    table: &[TableRow],
    ptables: &[PTable],
    addresses: &[Address],
) -> Result<(), NoMemory>
    ensures { OnOk result (out.new.items ≡ out.old.items ++ held newest table.now ptables.now addresses.now) }
{
    put_rows(out, table)?;
    put_ptables(out, ptables)?;
    put_addresses(out, addresses)
}

fn put_pull_reply(
    out: &mut Vec<u8>,
    vbase: u64,
    pbase: u64,
    table: &[TableRow],
    ptables: &[PTable],
    addresses: &[Address],
) -> Result<(), NoMemory>
    ensures { OnOk result (out.new.items ≡ out.old.items ++ (bases vbase pbase ++ held newest table.now ptables.now addresses.now)) }
{
    put_bases(out, vbase, pbase)?;
    put_held(out, table, ptables, addresses)
}

fn put_push(
    out: &mut Vec<u8>,
    members: &[u32],
    table: &[TableRow],
    ptables: &[PTable],
    assigns: &[Assigned],
) -> Result<(), NoMemory>
    ensures { OnOk result (out.new.items ≡ out.old.items ++ (list u32 members.now ++ list (row newest) table.now ++ list ptable ptables.now ++ list (assigned newest) assigns.now)) }
{
    put_nodes(out, members)?;
    put_rows(out, table)?;
    put_ptables(out, ptables)?;
    put_assigned_list(out, assigns)
}

fn put_update(out: &mut Vec<u8>, db: u32, seq: u64, writes: &[Pair]) -> Result<(), NoMemory>
    ensures { OnOk result (out.new.items ≡ out.old.items ++ (u32 db ++ u64 seq ++ list pair writes.now)) }
{
    put_u32(out, db)?;
    put_u64(out, seq)?;
    put_pairs(out, writes)
}

fn put_ack(out: &mut Vec<u8>, db: u32, seq: u64) -> Result<(), NoMemory>
    ensures { OnOk result (out.new.items ≡ out.old.items ++ (u32 db ++ u64 seq)) }
{
    put_u32(out, db)?;
    put_u64(out, seq)
}

fn put_release(out: &mut Vec<u8>, run: u64, keep: &[Address]) -> Result<(), NoMemory>
    ensures { OnOk result (out.new.items ≡ out.old.items ++ (u64 run ++ list (address newest) keep.now)) }
{
    put_u64(out, run)?;
    put_addresses(out, keep)
}

fn put_take(out: &mut Vec<u8>, run: u64, assigns: &[Assigned]) -> Result<(), NoMemory>
    ensures { OnOk result (out.new.items ≡ out.old.items ++ (u64 run ++ list (assigned newest) assigns.now)) }
{
    put_u64(out, run)?;
    put_assigned_list(out, assigns)
}

#[tactic(auto, using(crate::proofs::Lists::nothing_more), unfolding(crate::specs::Spelling::body))]
pub fn put_body(out: &mut Vec<u8>, msg: &Msg) -> Result<(), NoMemory>
    ensures { OnOk result (out.new.items ≡ out.old.items ++ body newest msg.now) }
{
    match msg {
        Msg::Call { db, key, kind, .. } => put_call(out, *db, key, *kind),
        Msg::Recall {
            db,
            key,
            least,
            node,
            kind,
            ..
        } => put_recall(out, *db, key, *least, *node, *kind),
        Msg::Give {
            db,
            key,
            rsn,
            value,
        } => put_copy(out, *db, key, *rsn, value),
        Msg::Pass {
            db,
            key,
            rsn,
            value,
            ..
        } => put_copy(out, *db, key, *rsn, value),
        Msg::Refuse { db, key, rsn, .. } => put_rsn(out, *db, key, *rsn),
        Msg::Grant {
            db,
            key,
            rsn,
            value,
            ..
        } => put_copy(out, *db, key, *rsn, value),
        Msg::Done { db, key, node, .. } => put_done(out, *db, key, *node),
        Msg::Revoke { db, key, rsn } => put_rsn(out, *db, key, *rsn),
        Msg::RevokeAck { db, key, rsn } => put_rsn(out, *db, key, *rsn),
        Msg::VStore { db, key, rsn } => put_rsn(out, *db, key, *rsn),
        Msg::VStored { db, key, rsn } => put_rsn(out, *db, key, *rsn),
        Msg::VDelete { db, key, rsn } => put_rsn(out, *db, key, *rsn),
        Msg::VDeleted { db, key, rsn } => put_rsn(out, *db, key, *rsn),
        Msg::Freeze { members } => put_nodes(out, members.as_slice()),
        Msg::FreezeAck => Ok(()),
        Msg::Pull => Ok(()),
        Msg::PullReply {
            vbase,
            pbase,
            table,
            ptables,
            addresses,
        } => put_pull_reply(
            out,
            *vbase,
            *pbase,
            table.as_slice(),
            ptables.as_slice(),
            addresses.as_slice(),
        ),
        Msg::Push {
            members,
            table,
            ptables,
            assigned,
        } => put_push(
            out,
            members.as_slice(),
            table.as_slice(),
            ptables.as_slice(),
            assigned.as_slice(),
        ),
        Msg::PushAck => Ok(()),
        Msg::Thaw => Ok(()),
        Msg::PUpdate { db, seq, writes } => put_update(out, *db, *seq, writes.as_slice()),
        Msg::PAck { db, seq } => put_ack(out, *db, *seq),
        Msg::Release { run, keep } => put_release(out, *run, keep.as_slice()),
        Msg::ReleaseAck { run } => put_u64(out, *run),
        Msg::Take { run, assigned } => put_take(out, *run, assigned.as_slice()),
    }
}
