//! Numbers in decimal, without sign or leading zero.
ghost use Rattle.std.specs.Prelude.{◌≡◌, ◌≢◌, ◌<◌, ◌^◌, ◌++◌, ℕ, List, length, OnOk, OnErr, Some, None, IfSome, IfNone, SomeIff, IsTrue};
ghost use Rattle.std.specs.List.{list_all, All};
ghost use Rattle.std.specs.Fmt.{decimal};
ghost use Rattle.ct_spelling.specs.Number.{IsDigit, is_digit, is_number, value_after, number_of};

use ct_values::memory::NoMemory;
use itoa::Buffer;

/// Writes the number at the end of the text. Without memory the text stays as it is.
pub fn push_decimal(text: &mut Vec<u8>, n: u64) -> Result<(), NoMemory>
    ensures ok { OnOk result (text.new.items ≡ text.old.items ++ decimal n) }
    ensures err { OnErr result (text.new.items ≡ text.old.items) }
{
    let mut buffer = Buffer::new();
    text.extend_from_slice(buffer.format(n).as_bytes())?;
    Ok(())
}

fn is_digit(d: u8) -> bool
    ensures { result ≡ is_digit d }
{
    d >= b'0' && d <= b'9'
}

fn is_digits(word: &[u8]) -> bool
    ensures { result ≡ list_all is_digit word.now }
{
    word.iter().all(|d| is_digit(*d))
}

/// Is this one digit or more, with no zero before others?
fn is_number(word: &[u8]) -> bool
    ensures { result ≡ is_number word.now }
{
    is_digits(word) && !word.is_empty() && (word.len() == 1 || word[0] != b'0')
}

/// The number that these digits write, where it is below 2^64.
#[tactic(auto, using(crate::proofs::Numbers::value_front, crate::proofs::Numbers::value_end))]
fn value_of(digits: &[u8]) -> Option<u64>
    requires { IsTrue (list_all is_digit digits.now) }
    ensures { SomeIff result (value_after 0 digits.now < 2 ^ 64) (value_after 0 digits.now) }
{
    let mut n = 0u64;
    for d in digits {
        n = n.checked_mul(10)?.checked_add(u64::from(*d - b'0'))?;
    }
    Some(n)
}

fn read_number(word: &[u8]) -> Option<u64>
    ensures { result ≡ number_of word.now }
{
    if !is_number(word) {
        return None;
    }
    value_of(word)
}

/// The number below 2^64 that the word is in decimal. None exactly where it has a sign, a leading zero or any other
/// byte, or is empty or too large.
pub fn parse_decimal(word: &[u8]) -> Option<u64>
    ensures exact { result ≡ number_of word.now }
    ensures found { IfSome result (λ n. word.now ≡ decimal n) }
    ensures none { IfNone result ((n : ℕ) → n < 2 ^ 64 → decimal n ≢ word.now) }
{
    read_number(word)
}

/// Each number has one decimal, which is of digits alone and never empty.
pub fn one_decimal()
    ensures only { (word : List ℕ) (n : ℕ) → number_of word ≡ Some n → (n < 2 ^ 64) × (word ≡ decimal n) }
    ensures back { (n : ℕ) → n < 2 ^ 64 → number_of (decimal n) ≡ Some n }
    ensures digits { (n : ℕ) → n < 2 ^ 64 → All IsDigit (decimal n) }
    ensures some { (n : ℕ) → n < 2 ^ 64 → 0 < length (decimal n) }
{}
