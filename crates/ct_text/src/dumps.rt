//! The texts of the records of one database.
ghost use Rattle.std.specs.Prelude.{◌≡◌, ◌++◌, codes, map, OnOk};
ghost use Rattle.std.specs.Fmt.{decimal};
ghost use Rattle.std.specs.Map.Iter.{deref_pair};
ghost use Rattle.ct_text.specs.Dumps.{copies_text, copy_line, dumped_text, pair_line, pairs_text};

use crate::words::{push, push_number, push_value};
use ct_frame::header::RecCopy;
use ct_values::client::Pair;
use ct_values::key::Key;
use ct_values::memory::NoMemory;

/// How many records there are.
fn push_dumped(text: &mut Vec<u8>, count: u64) -> Result<(), NoMemory>
    ensures { OnOk result (text.new.items ≡ text.old.items ++ dumped_text count) }
{
    push_number(text, b"Dumped ", count)?;
    push(text, b" records\n")
}

/// A copy of a record with its header.
fn push_copy(text: &mut Vec<u8>, key: &Key, copy: &RecCopy) -> Result<(), NoMemory>
    ensures { OnOk result (text.new.items ≡ text.old.items ++ copy_line (key.now, copy.now)) }
{
    push_value(text, b"key=", key.bytes())?;
    push_number(text, b" dmaster=", u64::from(copy.header.dmaster))?;
    push_number(text, b" rsn=", copy.header.rsn)?;
    push_number(text, b" flags=", u64::from(copy.header.flags))?;
    push_value(text, b" data=", copy.value.bytes())?;
    push(text, b"\n")
}

/// Copies, and how many they are.
#[tactic(auto, unfolding(crate::specs::Dumps::copies_text))]
pub fn push_copies(text: &mut Vec<u8>, copies: Vec<(&Key, &RecCopy)>) -> Result<(), NoMemory>
    ensures { OnOk result (text.new.items ≡ text.old.items ++ copies_text (map deref_pair copies.entry.items)) }
{
    let count = copies.len() as u64;
    for (key, copy) in copies {
        push_copy(text, key, copy)?;
    }
    push_dumped(text, count)
}

/// A pair of a persistent database.
fn push_pair(text: &mut Vec<u8>, pair: &Pair) -> Result<(), NoMemory>
    ensures { OnOk result (text.new.items ≡ text.old.items ++ pair_line pair.now) }
{
    push_value(text, b"key=", pair.key.bytes())?;
    push_value(text, b" data=", pair.value.bytes())?;
    push(text, b"\n")
}

/// Pairs, and how many they are.
#[tactic(auto, unfolding(crate::specs::Dumps::pairs_text))]
pub fn push_pairs(text: &mut Vec<u8>, pairs: &[Pair]) -> Result<(), NoMemory>
    ensures { OnOk result (text.new.items ≡ text.old.items ++ pairs_text pairs.now) }
{
    for pair in pairs {
        push_pair(text, pair)?;
    }
    push_dumped(text, pairs.len() as u64)
}
