//! How bytes are spelled as one word of a line.
ghost use Rattle.std.specs.Prelude.{◌≡◌, ◌≢◌, ◌<◌, ◌++◌, ℕ, List, length, IfOk, OnOk, OnErr, IsErrOf, Some, None, MatchOption, ◌≤◌, ◌∷◌, []};
ghost use Rattle.std.specs.List.{flat_map, list_all, All};
ghost use Rattle.ct_spelling.specs.Spelling.{AreBytes, IsWordByte, is_plain, hex_digit, spelled_byte, is_dash, is_spelled_dash, spelling, hex_value, escaped_byte, with_byte, unspelled_bytes, unspelled, Unspells};

use ct_values::memory::NoMemory;
use std::alloc::{AllocError, AllocFailed, Global};
use thiserror::Error;

/// Why a word gives no bytes.
#[derive(Debug, Drop, PartialEq, Eq, Error)]
pub enum SpellFault {
    /// The word spells nothing.
    #[error("no spelling of bytes")]
    BadSpelling,
    #[error("want of memory")]
    NoMemory,
}

impl From<AllocError> for SpellFault {
    ghost use Rattle.ct_spelling.specs.declared.spelling.SpellFault.TheVariants.{NoMemory as Want};

    ghost from_gives = { λ _ e. e ≡ Want };

    fn from(_e: AllocError) -> SpellFault {
        SpellFault::NoMemory
    }
}

impl<T: Drop> From<AllocFailed<T>> for SpellFault {
    ghost use Rattle.ct_spelling.specs.declared.spelling.SpellFault.TheVariants.{NoMemory as Want};

    ghost from_gives = { λ _ e. e ≡ Want };

    fn from(_e: AllocFailed<T>) -> SpellFault {
        SpellFault::NoMemory
    }
}

/// Does this byte stand for itself?
fn is_plain(b: u8) -> bool
    ensures { result ≡ is_plain b }
{
    b >= 0x21 && b <= 0x7E && b != b'%' && b != b'='
}

fn is_all_plain(bytes: &[u8]) -> bool
    ensures { result ≡ list_all is_plain bytes.now }
{
    for b in bytes {
        if !is_plain(*b) {
            return false;
        }
    }
    true
}

fn is_dash(bytes: &[u8]) -> bool
    ensures { result ≡ is_dash bytes.now }
{
    bytes.len() == 1 && bytes[0] == b'-'
}

fn is_spelled_dash(word: &[u8]) -> bool
    ensures { result ≡ is_spelled_dash word.now }
{
    word.len() == 3 && word[0] == b'%' && word[1] == b'2' && word[2] == b'd'
}

fn hex_digit(n: u8) -> u8
    requires { n < 16 }
    ensures { result ≡ hex_digit n }
{
    if n < 10 { b'0' + n } else { b'a' - 10 + n }
}

fn push_spelled_byte(text: &mut Vec<u8>, b: u8) -> Result<(), NoMemory>
    ensures ok { OnOk result (text.new.items ≡ text.old.items ++ spelled_byte b) }
    ensures err { OnErr result (text.new.items ≡ text.old.items) }
{
    if is_plain(b) {
        text.push(b)?;
        return Ok(());
    }
    text.extend_from_slice(&[b'%', hex_digit(b / 16), hex_digit(b % 16)])?;
    Ok(())
}

fn push_spelled_bytes(text: &mut Vec<u8>, bytes: &[u8]) -> Result<(), NoMemory>
    ensures ok { OnOk result (text.new.items ≡ text.old.items ++ flat_map spelled_byte bytes.now) }
    ensures err { OnErr result (text.new.items ≡ text.old.items) }
{
    let before = text.len();
    text.reserve(bytes.len())?;
    for b in bytes {
        if push_spelled_byte(text, *b).is_err() {
            text.truncate(before);
            return Err(NoMemory);
        }
    }
    Ok(())
}

/// Writes the one spelling of these bytes at the end of the text. Without memory the text stays as it is.
///
/// A byte from 0x21 to 0x7E other than `%` and `=` stands for itself, every other byte is `%` and two lower-case
/// hexadecimal digits. No bytes are spelled `-`, and the one byte `-` is spelled `%2d`.
#[tactic(auto, using(crate::proofs::Spellings::plain_spelling))]
pub fn push_spelling(text: &mut Vec<u8>, bytes: &[u8]) -> Result<(), NoMemory>
    ensures ok { OnOk result (text.new.items ≡ text.old.items ++ spelling bytes.now) }
    ensures err { OnErr result (text.new.items ≡ text.old.items) }
{
    if bytes.is_empty() {
        text.push(b'-')?;
        return Ok(());
    }
    if is_dash(bytes) {
        text.extend_from_slice(b"%2d")?;
        return Ok(());
    }
    // Most bytes stand for themselves, and are then copied at once.
    if is_all_plain(bytes) {
        text.extend_from_slice(bytes)?;
        return Ok(());
    }
    push_spelled_bytes(text, bytes)
}

/// The one spelling of these bytes.
pub fn spell(alloc: Global, bytes: &[u8]) -> Result<Vec<u8>, NoMemory>
    ensures { IfOk result (λ v. v.items ≡ spelling bytes.now) }
{
    let mut text = Vec::with_capacity(alloc, bytes.len().max(1))?;
    push_spelling(&mut text, bytes)?;
    Ok(text)
}

fn hex_value(d: u8) -> Option<u8>
    ensures { result ≡ hex_value d }
{
    match d {
        b'0'..=b'9' => Some(d - b'0'),
        b'a'..=b'f' => Some(d - (b'a' - 10)),
        _ => None,
    }
}

/// The byte that `%` and these two digits spell.
fn escaped_byte(high: u8, low: u8) -> Option<u8>
    ensures { result ≡ escaped_byte high low }
{
    let h = hex_value(high)?;
    let l = hex_value(low)?;
    let byte = 16 * h + l;
    if is_plain(byte) { None } else { Some(byte) }
}

/// The byte that the front of a word spells, and the rest of the word.
fn first_byte(word: &[u8]) -> Option<(u8, &[u8])>
    requires { 0 < length word.now }
    ensures { MatchOption result (unspelled_bytes word.now ≡ None) (λ r. (length r.1.now < length word.now) × (unspelled_bytes word.now ≡ with_byte (Some r.0) (unspelled_bytes r.1.now))) }
{
    if is_plain(word[0]) {
        return Some((word[0], &word[1..]));
    }
    if word[0] != b'%' || word.len() < 3 {
        return None;
    }
    let byte = escaped_byte(word[1], word[2])?;
    Some((byte, &word[3..]))
}

#[tactic(auto, using(crate::proofs::Spellings::behind_more))]
fn unspell_bytes(alloc: Global, word: &[u8]) -> Result<Vec<u8>, SpellFault>
    ensures { Unspells (λ v. v.items) result (unspelled_bytes word.now) }
{
    let mut bytes = Vec::with_capacity(alloc, word.len())?;
    let mut left = word;
    'word: while !left.is_empty() {
        let Some((byte, rest)) = first_byte(left) else {
            return Err(SpellFault::BadSpelling);
        };
        bytes.push(byte)?;
        left = rest;
    }
    Ok(bytes)
}

#[tactic(auto, using(crate::proofs::Spellings::plain_unspelled, crate::proofs::Spellings::unspelled_rest))]
fn unspell_word(alloc: Global, word: &[u8]) -> Result<Vec<u8>, SpellFault>
    ensures { Unspells (λ v. v.items) result (unspelled word.now) }
{
    if word.is_empty() {
        return Err(SpellFault::BadSpelling);
    }
    if is_dash(word) {
        return Ok(Vec::new(alloc));
    }
    if is_spelled_dash(word) {
        let bytes = Vec::from_slice(alloc, b"-")?;
        return Ok(bytes);
    }
    // Most bytes stand for themselves, and are then copied at once.
    if is_all_plain(word) {
        let bytes = Vec::from_slice(alloc, word)?;
        return Ok(bytes);
    }
    unspell_bytes(alloc, word)
}

/// The bytes whose one spelling the word is. `BadSpelling` comes exactly where it is the spelling of none.
pub fn unspell(alloc: Global, word: &[u8]) -> Result<Vec<u8>, SpellFault>
    ensures exact { Unspells (λ v. v.items) result (unspelled word.now) }
    ensures found { IfOk result (λ v. AreBytes v.items × (spelling v.items ≡ word.now)) }
    ensures bad { IsErrOf result SpellFault.BadSpelling → (bytes : List ℕ) → AreBytes bytes → spelling bytes ≢ word.now }
{
    unspell_word(alloc, word)
}

/// Bytes have one spelling, and a word is the spelling of one list of bytes at most. A spelling is never empty, and
/// no space, no line feed and no `=` stands in it.
pub fn one_spelling()
    ensures back { (bytes : List ℕ) → AreBytes bytes → unspelled (spelling bytes) ≡ Some bytes }
    ensures only { (word bytes : List ℕ) → unspelled word ≡ Some bytes → AreBytes bytes × (spelling bytes ≡ word) }
    ensures word_bytes { (bytes : List ℕ) → AreBytes bytes → All IsWordByte (spelling bytes) }
    ensures some { (bytes : List ℕ) → 0 < length (spelling bytes) }
{}
