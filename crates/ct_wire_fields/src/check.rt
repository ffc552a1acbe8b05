//! Tests of single fields, and of an item against the one before it.
ghost use Rattle.std.specs.Prelude.{◌≡◌, IfOk, IfSome, SomeIff};
ghost use Rattle.ct_frame.specs.Fields.{is_below_limit, is_from_one, is_node, is_db};
ghost use Rattle.ct_wire_fields.specs.Check.{is_count, last_of, key_of, value_of, follows_node, follows_db, follows_row, follows_pair, follows_ptable, follows_address, follows_assigned};

use ct_frame::frame::{Assigned, PTable, TableRow};
use ct_frame::header::LIMIT;
use ct_values::address::Address;
use ct_values::client::Pair;
use ct_values::key::Key;
use ct_values::memory::NoMemory;
use ct_values::value::Value;

pub fn is_below_limit(number: u64) -> bool
    ensures { result ≡ is_below_limit number }
{
    number < LIMIT
}

pub fn is_from_one(number: u64) -> bool
    ensures { result ≡ is_from_one number }
{
    0 < number && number < LIMIT
}

pub fn is_node(number: u64) -> bool
    ensures { result ≡ is_node number }
{
    number < 16
}

pub fn is_db(number: u64) -> bool
    ensures { result ≡ is_db number }
{
    number < 16
}

/// Whether a list of nodes or writes may have so many.
pub fn is_count(number: u64) -> bool
    ensures { result ≡ is_count number }
{
    0 < number && number < 17
}

/// The key of these bytes, if their number is that of a key.
pub fn key_of(text: Vec<u8>) -> Result<Option<Key>, NoMemory>
    ensures { IfOk result (λ o. o ≡ key_of text.items) }
{
    Key::from_vec(text)
}

/// The value of these bytes, if their number is that of a value.
pub fn value_of(text: Vec<u8>) -> Result<Option<Value>, NoMemory>
    ensures { IfOk result (λ o. o ≡ value_of text.items) }
{
    Value::from_vec(text)
}

pub fn follows_node(nodes: &[u32], node: u64) -> bool
    ensures { result ≡ follows_node (last_of nodes.now) node }
{
    match nodes.last() {
        None => true,
        Some(last) => u64::from(*last) < node,
    }
}

/// Whether a row of this database may come after these.
pub fn follows_db(table: &[TableRow], db: u64) -> bool
    ensures { result ≡ follows_db (last_of table.now) db }
{
    match table.last() {
        None => true,
        Some(last) => u64::from(last.db) <= db,
    }
}

/// Whether a row of this database and key may come after these.
pub fn follows_row(table: &[TableRow], db: u32, key: &Key) -> bool
    ensures { result ≡ follows_row (last_of table.now) db key.now }
{
    match table.last() {
        None => true,
        Some(last) => last.db < db || (last.db == db && last.key < *key),
    }
}

pub fn follows_pair(pairs: &[Pair], key: &Key) -> bool
    ensures { result ≡ follows_pair (last_of pairs.now) key.now }
{
    match pairs.last() {
        None => true,
        Some(last) => last.key < *key,
    }
}

pub fn follows_ptable(ptables: &[PTable], db: u64) -> bool
    ensures { result ≡ follows_ptable (last_of ptables.now) db }
{
    match ptables.last() {
        None => true,
        Some(last) => u64::from(last.db) < db,
    }
}

pub fn follows_address(addresses: &[Address], address: &Address) -> bool
    ensures { result ≡ follows_address (last_of addresses.now) address.now }
{
    match addresses.last() {
        None => true,
        Some(last) => *last < *address,
    }
}

pub fn follows_assigned(assigned: &[Assigned], address: &Address) -> bool
    ensures { result ≡ follows_assigned (last_of assigned.now) address.now }
{
    match assigned.last() {
        None => true,
        Some(last) => last.address < *address,
    }
}
