//! Reading the words of a line, each by itself.
ghost use Rattle.std.specs.Prelude.{◌≡◌, ◌==◌, ◌<◌, ◌≤◌, ◌^◌, IfOk, map};
ghost use Rattle.std.specs.List.{slice_split};
ghost use Rattle.std.specs.Str.{bytes_eq};
ghost use Rattle.ct_spelling.specs.Number.{number_of};
ghost use Rattle.ct_spelling.specs.Spelling.{unspelled};
ghost use Rattle.ct_lines.specs.Reading.{Reads, ReadsBytes};
ghost use Rattle.ct_lines.specs.Words.{address_word, each_of, in_order, key_word, kind_word, message_word, name_word, number_word, numbers_of, members_word, pair_of, pair_word, pairs_of, value_word, within};

use crate::line::WordFault;
use ct_frame::order::ascends;
use ct_spelling::number::parse_decimal;
use ct_spelling::spelling::{SpellFault, unspell};
use ct_values::address::Address;
use ct_values::client::Pair;
use ct_values::config::DbKind;
use ct_values::items::Items;
use ct_values::key::Key;
use ct_values::memory::{BytesFault, NoMemory};
use ct_values::name::DbName;
use ct_values::value::Value;
use std::alloc::Global;

/// Is it this word?
pub fn is_word(word: &[u8], name: &[u8]) -> bool
    ensures { result ≡ bytes_eq word.now name.now }
{
    word == name
}

/// The parts of a text, cut at each byte of this kind.
pub fn cut(alloc: Global, text: &[u8], at: u8) -> Result<Vec<&[u8]>, NoMemory>
    ensures { IfOk result (λ v. map (λ w. w.now) v.items ≡ slice_split (λ b. b == at) text.now) }
{
    Ok(text.split(|b| *b == at).collect(alloc)?)
}

/// A number that is at least `low` and below `high`.
fn number_within(word: &[u8], low: u64, high: u64) -> Result<u64, WordFault>
    ensures exact { Reads result (within low high (number_of word.now)) }
    ensures below { IfOk result (λ n. n < high) }
{
    match parse_decimal(word) {
        Some(n) => {
            if low <= n && n < high {
                Ok(n)
            } else {
                Err(WordFault::NoForm)
            }
        }
        None => Err(WordFault::NoForm),
    }
}

pub fn small_within(word: &[u8], low: u64, high: u64) -> Result<u32, WordFault>
    requires { high ≤ 2 ^ 32 }
    ensures { Reads result (within low high (number_of word.now)) }
{
    let n = number_within(word, low, high)?;
    Ok(n as u32)
}

/// The number of a node or of a function.
pub fn number_word(word: &[u8]) -> Result<u32, WordFault>
    ensures { Reads result (number_word word.now) }
{
    small_within(word, 0, 4294967296)
}

/// The number of a message.
pub fn message_word(word: &[u8]) -> Result<u64, WordFault>
    ensures { Reads result (message_word word.now) }
{
    number_within(word, 1, 4611686018427387904)
}

#[tactic(auto, using(crate::proofs::Said::if_address_in))]
pub fn address_word(word: &[u8]) -> Result<Address, WordFault>
    ensures { Reads result (address_word word.now) }
{
    match Address::parse(word) {
        Some(address) => Ok(address),
        None => Err(WordFault::NoForm),
    }
}

fn unspelled(alloc: Global, word: &[u8]) -> Result<Vec<u8>, WordFault>
    ensures { ReadsBytes result (unspelled word.now) }
{
    match unspell(alloc, word) {
        Ok(bytes) => Ok(bytes),
        Err(SpellFault::BadSpelling) => Err(WordFault::NoForm),
        Err(SpellFault::NoMemory) => Err(WordFault::NoMemory),
    }
}

pub fn key_word(alloc: Global, word: &[u8]) -> Result<Key, WordFault>
    ensures { Reads result (key_word word.now) }
{
    match Key::from_vec(unspelled(alloc, word)?) {
        Ok(Some(key)) => Ok(key),
        Ok(None) => Err(WordFault::NoForm),
        Err(_) => Err(WordFault::NoMemory),
    }
}

pub fn value_word(alloc: Global, word: &[u8]) -> Result<Value, WordFault>
    ensures { Reads result (value_word word.now) }
{
    match Value::from_vec(unspelled(alloc, word)?) {
        Ok(Some(value)) => Ok(value),
        Ok(None) => Err(WordFault::NoForm),
        Err(_) => Err(WordFault::NoMemory),
    }
}

pub fn name_word(alloc: Global, word: &[u8]) -> Result<DbName, WordFault>
    ensures { Reads result (name_word word.now) }
{
    match DbName::new(alloc, word) {
        Ok(name) => Ok(name),
        Err(BytesFault::BadLength(_)) => Err(WordFault::NoForm),
        Err(BytesFault::BadByte(_)) => Err(WordFault::NoForm),
        Err(BytesFault::NoMemory) => Err(WordFault::NoMemory),
    }
}

pub fn kind_word(word: &[u8]) -> Result<DbKind, WordFault>
    ensures { Reads result (kind_word word.now) }
{
    if is_word(word, b"volatile") {
        Ok(DbKind::Volatile)
    } else if is_word(word, b"readonly") {
        Ok(DbKind::ReadOnly)
    } else if is_word(word, b"persistent") {
        Ok(DbKind::Persistent)
    } else {
        Err(WordFault::NoForm)
    }
}

/// The pair of a key's word and a value's.
fn pair_of(alloc: Global, parts: &[&[u8]]) -> Result<Pair, WordFault>
    ensures { Reads result (pair_of (map (λ w. w.now) parts.now)) }
{
    match parts {
        [key, value] => {
            let key = key_word(alloc, key)?;
            let value = value_word(alloc, value)?;
            Ok(Pair { key, value })
        }
        [] => Err(WordFault::NoForm),
        [_] => Err(WordFault::NoForm),
        [_, _, _, ..] => Err(WordFault::NoForm),
    }
}

/// `KEY=VALUE`.
fn pair_word(alloc: Global, word: &[u8]) -> Result<Pair, WordFault>
    ensures { Reads result (pair_word word.now) }
{
    let parts = cut(alloc, word, b'=')?;
    pair_of(alloc, parts.as_slice())
}

#[tactic(auto, using(crate::proofs::Each::behind_more))]
fn pair_words(alloc: Global, words: &[&[u8]]) -> Result<Items<Pair>, WordFault>
    ensures { Reads result (each_of pair_word (map (λ w. w.now) words.now)) }
{
    let mut list = Items::empty(alloc);
    'word: for word in words {
        list.push(pair_word(alloc, word)?)?;
    }
    Ok(list)
}

/// 1 to 16 pairs.
pub fn pairs_of(alloc: Global, words: &[&[u8]]) -> Result<Items<Pair>, WordFault>
    ensures { Reads result (pairs_of (map (λ w. w.now) words.now)) }
{
    if words.is_empty() || words.len() > 16 {
        return Err(WordFault::NoForm);
    }
    pair_words(alloc, words)
}

#[tactic(auto, using(crate::proofs::Each::behind_more))]
fn number_words(alloc: Global, words: &[&[u8]]) -> Result<Items<u32>, WordFault>
    ensures { Reads result (each_of number_word (map (λ w. w.now) words.now)) }
{
    let mut list = Items::empty(alloc);
    'word: for word in words {
        list.push(number_word(word)?)?;
    }
    Ok(list)
}

fn in_order(numbers: Items<u32>) -> Result<Items<u32>, WordFault>
    ensures { Reads result (in_order numbers) }
{
    if ascends(numbers.as_slice()) {
        Ok(numbers)
    } else {
        Err(WordFault::NoForm)
    }
}

/// 1 to 16 numbers that ascend.
fn numbers_of(alloc: Global, words: &[&[u8]]) -> Result<Items<u32>, WordFault>
    ensures { Reads result (numbers_of (map (λ w. w.now) words.now)) }
{
    if words.is_empty() || words.len() > 16 {
        return Err(WordFault::NoForm);
    }
    in_order(number_words(alloc, words)?)
}

/// The nodes of a round, with a comma between each two.
pub fn members_word(alloc: Global, word: &[u8]) -> Result<Items<u32>, WordFault>
    ensures { Reads result (members_word word.now) }
{
    let words = cut(alloc, word, b',')?;
    numbers_of(alloc, words.as_slice())
}
