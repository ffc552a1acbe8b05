//! The text of an address while it is written, which takes no memory.
ghost use Rattle.std.specs.Prelude.{◌≡◌, ◌≤◌, ◌<◌, ◌+◌, ◌*◌, ◌++◌, ◌∷◌, [], length, decimal};
ghost use Rattle.std.specs.Char.{digit_char};
ghost use Rattle.std.specs.Net.Text.{hex, leading_zero_digits, groups_text, longest_zero_run, hex_groups_text};

use std::marker::Model;

/// At most 40 bytes.
#[derive(Drop)]
pub struct Written {
    bytes: [u8; 40],
    len: usize,
}

impl Model for Written {
    ghost use Rattle.std.specs.Prelude.{List, ℕ, take, ◌≤◌};

    ghost Value = { List ℕ };

    ghost view = { λ a. take a.len a.bytes };

    ghost invariant = { λ a. a.len ≤ 40 };
}

fn hex_digit(digit: u16) -> u8
    requires { digit < 16 }
    ensures { result ≡ digit_char digit }
{
    if digit < 10 {
        b'0' + digit as u8
    } else {
        b'a' + (digit - 10) as u8
    }
}

/// How many of the four digits of a group are left out.
fn leading_zero_digits(group: u16) -> usize
    ensures value { result ≡ leading_zero_digits group }
    ensures within { result < 4 }
{
    match group {
        0x1000.. => 0,
        0x100.. => 1,
        0x10.. => 2,
        _ => 3,
    }
}

/// Where the longest run of zero groups begins and how long it is; of equal ones the first.
fn longest_zero_run(groups: &[u16]) -> (usize, usize)
    ensures value { result ≡ longest_zero_run groups.now }
    ensures within { result.0 + result.1 ≤ length groups.now }
{
    let mut start = groups.len();
    let mut len = 0;
    let mut run = 0;
    for i in (0..groups.len()).rev() {
        run = if groups[i] == 0 { run + 1 } else { 0 };
        if run >= len {
            start = i;
            len = run;
        }
    }
    (start, len)
}

impl Written {
    pub fn new() -> Written
        ensures { result ≡ [] }
    {
        Written {
            bytes: [0; 40],
            len: 0,
        }
    }

    pub fn as_slice(&self) -> &[u8]
        ensures { result.now ≡ self.now }
    {
        &self.bytes[..self.len]
    }

    pub fn push(&mut self, byte: u8)
        requires { length self.old < 40 }
        ensures { self.new ≡ self.old ++ byte ∷ [] }
    {
        self.bytes[self.len] = byte;
        self.len += 1;
    }

    fn push_all(&mut self, bytes: &[u8])
        requires { length self.old + length bytes.now ≤ 40 }
        ensures { self.new ≡ self.old ++ bytes.now }
    {
        for byte in bytes {
            self.push(*byte);
        }
    }

    /// A decimal number without leading zeros.
    #[tactic(auto, using(crate::proofs::Addresses::one_digit, crate::proofs::Addresses::two_digits, crate::proofs::Addresses::three_digits))]
    pub fn push_octet(&mut self, octet: u8)
        requires { length self.old + 3 ≤ 40 }
        ensures text { self.new ≡ self.old ++ decimal octet }
        ensures len { length self.new ≤ length self.old + 3 }
    {
        let digits = [
            b'0' + octet / 100,
            b'0' + octet / 10 % 10,
            b'0' + octet % 10,
        ];
        let zeros = match octet {
            100.. => 0,
            10.. => 1,
            _ => 2,
        };
        self.push_all(&digits[zeros..]);
    }

    #[tactic(auto, unfolding(std::specs::Net::Text::hex))]
    fn push_group(&mut self, group: u16)
        requires { length self.old + 4 ≤ 40 }
        ensures text { self.new ≡ self.old ++ hex group }
        ensures len { length self.new ≤ length self.old + 4 }
    {
        let digits = [
            hex_digit(group / 0x1000),
            hex_digit(group / 0x100 % 16),
            hex_digit(group / 0x10 % 16),
            hex_digit(group % 16),
        ];
        let zeros = leading_zero_digits(group);
        self.push_all(&digits[zeros..]);
    }

    fn push_groups(&mut self, groups: &[u16])
        requires { length self.old + 5 * length groups.now ≤ 40 }
        ensures text { self.new ≡ self.old ++ groups_text groups.now }
        ensures len { length self.new ≤ length self.old + 5 * length groups.now }
    {
        if let [first, rest @ ..] = groups {
            self.push_group(*first);
            for group in rest {
                self.push(b':');
                self.push_group(*group);
            }
        }
    }

    /// Groups, of which the longest run of two or more zeros is written `::`.
    #[tactic(auto, unfolding(std::specs::Net::Text::hex_groups_text))]
    pub fn push_compressed(&mut self, groups: &[u16])
        requires { length self.old + 5 * length groups.now ≤ 40 }
        ensures { self.new ≡ self.old ++ hex_groups_text groups.now }
    {
        let (start, len) = longest_zero_run(groups);
        if len > 1 {
            self.push_groups(&groups[..start]);
            self.push_all(b"::");
            self.push_groups(&groups[start + len..]);
        } else {
            self.push_groups(groups);
        }
    }
}
