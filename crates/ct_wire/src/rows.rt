//! The rows of a table, read at once as far as they stand whole in the bytes.
ghost use Rattle.std.specs.Prelude.{◌≡◌, ◌+◌, ◌<◌, ◌≤◌, ◌^◌, [], IfOk, IfSome, length};
ghost use Rattle.ct_wire_fields.specs.declared.place.NumberPlace.TheVariants as number;
ghost use Rattle.ct_wire_fields.specs.declared.place.Place.TheVariants as place;
ghost use Rattle.ct_wire.specs.Cursor.{IsSound};
ghost use Rattle.ct_wire.specs.Decoding.{eaten};

use crate::cursor::{Cursor, Stage};
use crate::whole::copy_fields;
use ct_values::key::Key;
use ct_values::memory::NoMemory;
use ct_values::value::Value;
use ct_wire_fields::check::follows_row;
use ct_wire_fields::place::{NumberPlace, Place};
use std::alloc::Global;

/// How many rows are to come, where the next field is the first of a row.
fn rows_to_come(next: &Place) -> Option<u64>
    ensures { IfSome result (λ left. next.now ≡ place.Number (number.RowDb left)) }
{
    match next {
        Place::Number(NumberPlace::RowDb { left }) => Some(*left),
        _ => None,
    }
}

/// The offset of the data master of a row at this offset, whose key and value have so many bytes, if the frame has room.
fn master_at(length: u32, row: u64, size: u64) -> Option<u64>
    requires { (row < 2 ^ 32) × (size < 2 ^ 12) }
    ensures is { IfSome result (λ at. at ≡ row + 15 + size) }
    ensures room { IfSome result (λ at. at + 4 ≤ length) }
    ensures low { IfSome result (λ at. at < 2 ^ 32) }
{
    let at = row + 15 + size;
    if at + 4 > u64::from(length) {
        return None;
    }
    Some(at)
}

impl Cursor {
    /// Takes the fields of a row up to its data master, where all of them stand at the front and each keeps its rule.
    /// Else nothing changes, nor where the next field is not the first of a row that names its data master.
    pub fn take_row<'a>(&mut self, alloc: Global, bytes: &'a [u8]) -> Result<&'a [u8], NoMemory>
        requires { IsSound self.old }
        ensures same { IfOk result (λ rest. eaten self.old [] bytes.now ≡ eaten self.new [] rest.now) }
        ensures sound { IfOk result (λ rest. IsSound self.new) }
        ensures shorter { IfOk result (λ rest. length rest.now ≤ length bytes.now) }
    {
        let Some(left) = rows_to_come(&self.reading.place) else {
            return Ok(bytes);
        };
        let Some(fields) = copy_fields(bytes) else {
            return Ok(bytes);
        };
        if !self.reading.draft.head.version.names_masters() {
            return Ok(bytes);
        }
        let size = (fields.key.len() + fields.value.len()) as u64;
        let Some(end) = master_at(self.reading.draft.head.length, self.at, size) else {
            return Ok(bytes);
        };
        let Some(key) = Key::from_vec(Vec::from_slice(alloc, fields.key)?)? else {
            return Ok(bytes);
        };
        let Some(value) = Value::from_vec(Vec::from_slice(alloc, fields.value)?)? else {
            return Ok(bytes);
        };
        if !follows_row(self.reading.draft.table.as_slice(), fields.db, &key) {
            return Ok(bytes);
        }
        self.reading.draft.db = fields.db;
        self.reading.draft.rsn = fields.rsn;
        self.stand(
            Place::Number(NumberPlace::RowMaster { left, key, value }),
            end,
            Stage::Start,
        );
        Ok(fields.rest)
    }
}
