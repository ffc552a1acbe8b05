//! The fields of a frame, written at the end of some bytes.
ghost use Rattle.std.specs.Prelude.{◌≡◌, ◌++◌, OnOk, length};
ghost use Rattle.std.specs.Int.{w16, w32, w64, to_be_bytes};
ghost use Rattle.std.specs.List.{flat_map};
ghost use Rattle.ct_wire_fields.specs.Version.{newest};
ghost use Rattle.ct_wire.specs.Spelling.{u32, u64, key, value, kind, address, node_or_none, list, row, pair, ptable, assigned};

use ct_frame::frame::{Assigned, CallKind, PTable, TableRow};
use ct_frame::header::NONE;
use ct_values::address::Address;
use ct_values::client::Pair;
use ct_values::key::Key;
use ct_values::memory::NoMemory;
use ct_values::value::Value;

pub fn put_u32(out: &mut Vec<u8>, number: u32) -> Result<(), NoMemory>
    ensures { OnOk result (out.new.items ≡ out.old.items ++ u32 number) }
{
    out.extend_from_slice(&number.to_be_bytes())?;
    Ok(())
}

pub fn put_u64(out: &mut Vec<u8>, number: u64) -> Result<(), NoMemory>
    ensures { OnOk result (out.new.items ≡ out.old.items ++ u64 number) }
{
    out.extend_from_slice(&number.to_be_bytes())?;
    Ok(())
}

/// The number of items of a list, in four bytes.
pub fn put_count(out: &mut Vec<u8>, count: usize) -> Result<(), NoMemory>
    ensures { OnOk result (out.new.items ≡ out.old.items ++ u32 count) }
{
    let low = (count % 4_294_967_296) as u32;
    out.extend_from_slice(&low.to_be_bytes())?;
    Ok(())
}

pub fn put_key(out: &mut Vec<u8>, k: &Key) -> Result<(), NoMemory>
    ensures { OnOk result (out.new.items ≡ out.old.items ++ key k.now) }
{
    let bytes = k.bytes();
    out.push(bytes.len() as u8)?;
    out.extend_from_slice(bytes)?;
    Ok(())
}

pub fn put_value(out: &mut Vec<u8>, v: &Value) -> Result<(), NoMemory>
    ensures { OnOk result (out.new.items ≡ out.old.items ++ value v.now) }
{
    let bytes = v.bytes();
    let length = bytes.len() as u16;
    out.extend_from_slice(&length.to_be_bytes())?;
    out.extend_from_slice(bytes)?;
    Ok(())
}

pub fn put_kind(out: &mut Vec<u8>, call: CallKind) -> Result<(), NoMemory>
    ensures { OnOk result (out.new.items ≡ out.old.items ++ kind call) }
{
    match call {
        CallKind::Lock => out.push(0)?,
        CallKind::Read => out.push(1)?,
    }
    Ok(())
}

pub fn put_address(out: &mut Vec<u8>, a: &Address) -> Result<(), NoMemory>
    ensures { OnOk result (out.new.items ≡ out.old.items ++ address newest a.now) }
{
    match *a {
        Address::V4(number) => {
            out.push(4)?;
            put_u32(out, number)
        }
        Address::V6(number) => {
            out.push(6)?;
            put_u64(out, (number / 18_446_744_073_709_551_616) as u64)?;
            put_u64(out, (number % 18_446_744_073_709_551_616) as u64)
        }
    }
}

pub fn put_node_or_none(out: &mut Vec<u8>, node: Option<u32>) -> Result<(), NoMemory>
    ensures { OnOk result (out.new.items ≡ out.old.items ++ node_or_none node) }
{
    match node {
        None => put_u32(out, NONE),
        Some(node) => put_u32(out, node),
    }
}

fn put_row(out: &mut Vec<u8>, r: &TableRow) -> Result<(), NoMemory>
    ensures { OnOk result (out.new.items ≡ out.old.items ++ row newest r.now) }
{
    put_u32(out, r.db)?;
    put_key(out, &r.key)?;
    put_u64(out, r.rsn)?;
    put_value(out, &r.value)?;
    put_node_or_none(out, r.master)
}

fn put_pair(out: &mut Vec<u8>, p: &Pair) -> Result<(), NoMemory>
    ensures { OnOk result (out.new.items ≡ out.old.items ++ pair p.now) }
{
    put_key(out, &p.key)?;
    put_value(out, &p.value)
}

#[tactic(auto, unfolding(crate::specs::Spelling::ptable))]
fn put_ptable(out: &mut Vec<u8>, t: &PTable) -> Result<(), NoMemory>
    ensures { OnOk result (out.new.items ≡ out.old.items ++ ptable t.now) }
{
    put_u32(out, t.db)?;
    put_u64(out, t.seq)?;
    put_pairs(out, t.pairs.as_slice())
}

fn put_assigned(out: &mut Vec<u8>, a: &Assigned) -> Result<(), NoMemory>
    ensures { OnOk result (out.new.items ≡ out.old.items ++ assigned newest a.now) }
{
    put_address(out, &a.address)?;
    put_node_or_none(out, a.node)
}

pub fn put_nodes(out: &mut Vec<u8>, nodes: &[u32]) -> Result<(), NoMemory>
    ensures { OnOk result (out.new.items ≡ out.old.items ++ list u32 nodes.now) }
{
    put_count(out, nodes.len())?;
    for node in nodes {
        put_u32(out, *node)?;
    }
    Ok(())
}

pub fn put_rows(out: &mut Vec<u8>, table: &[TableRow]) -> Result<(), NoMemory>
    ensures { OnOk result (out.new.items ≡ out.old.items ++ list (row newest) table.now) }
{
    put_count(out, table.len())?;
    for r in table {
        put_row(out, r)?;
    }
    Ok(())
}

pub fn put_pairs(out: &mut Vec<u8>, pairs: &[Pair]) -> Result<(), NoMemory>
    ensures { OnOk result (out.new.items ≡ out.old.items ++ list pair pairs.now) }
{
    put_count(out, pairs.len())?;
    for p in pairs {
        put_pair(out, p)?;
    }
    Ok(())
}

pub fn put_ptables(out: &mut Vec<u8>, ptables: &[PTable]) -> Result<(), NoMemory>
    ensures { OnOk result (out.new.items ≡ out.old.items ++ list ptable ptables.now) }
{
    put_count(out, ptables.len())?;
    for t in ptables {
        put_ptable(out, t)?;
    }
    Ok(())
}

pub fn put_addresses(out: &mut Vec<u8>, addresses: &[Address]) -> Result<(), NoMemory>
    ensures { OnOk result (out.new.items ≡ out.old.items ++ list (address newest) addresses.now) }
{
    put_count(out, addresses.len())?;
    for a in addresses {
        put_address(out, a)?;
    }
    Ok(())
}

pub fn put_assigned_list(out: &mut Vec<u8>, assigns: &[Assigned]) -> Result<(), NoMemory>
    ensures { OnOk result (out.new.items ≡ out.old.items ++ list (assigned newest) assigns.now) }
{
    put_count(out, assigns.len())?;
    for a in assigns {
        put_assigned(out, a)?;
    }
    Ok(())
}
