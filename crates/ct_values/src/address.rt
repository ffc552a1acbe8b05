//! The address of a node, and its one spelling.
//!
//! An IPv4 address is spelled as four decimal numbers from 0 to 255 with dots between them, the most significant
//! byte first. An IPv6 address is spelled as eight groups of 16 bits with colons between them, the most significant
//! first, each in one to four lower-case hexadecimal digits; the longest run of two or more zero groups, and of equal
//! ones the first, is written `::`, and a zero group alone is written `0`. No number has a leading zero, there is no
//! form with both dots and colons, and no other spelling is read.
ghost use Rattle.std.specs.Prelude.{◌≡◌, ◌++◌, ℕ, List, OnOk, OnErr, IfSome, Some};
ghost use Rattle.ct_values.specs.declared.address.Address.{Address};
ghost use Rattle.ct_values.specs.Address.{octets, groups, address_text, IsAddress, lenient_address, address_of, address_cmp};

mod written;

use crate::copies::Duplicate;
use crate::memory::NoMemory;
use std::net::{IpAddr, Ipv6Addr};
use written::Written;

/// An IPv4 or IPv6 address as a number. Every IPv4 address comes before every IPv6 address, and then they are in
/// the order of their numbers.
#[derive(Clone, Copy, Debug, PartialEq, Eq, PartialOrd, Ord, Hash)]
pub enum Address {
    V4(u32),
    V6(u128),
}

/// The bytes of an IPv4 address, the most significant first.
#[tactic(auto, unfolding(crate::specs::Address::octets))]
fn octets(number: u32) -> [u8; 4]
    ensures { result ≡ octets number }
{
    number.to_be_bytes()
}

/// The groups of an IPv6 address, the most significant first.
#[tactic(auto, unfolding(crate::specs::Address::groups, std::specs::Net::Addr::IsIpv6OfBits))]
fn groups(number: u128) -> [u16; 8]
    ensures { result ≡ groups number }
{
    Ipv6Addr::from_bits(number).segments()
}

/// The one spelling.
fn spell(address: Address) -> Written
    ensures { result ≡ address_text address }
{
    let mut text = Written::new();
    match address {
        Address::V4(number) => {
            let [a, b, c, d] = octets(number);
            text.push_octet(a);
            text.push(b'.');
            text.push_octet(b);
            text.push(b'.');
            text.push_octet(c);
            text.push(b'.');
            text.push_octet(d);
        }
        Address::V6(number) => text.push_compressed(&groups(number)),
    }
    text
}

/// Writes the one spelling of the address at the end of the text. Without memory the text stays as it is.
pub fn push_address(text: &mut Vec<u8>, address: Address) -> Result<(), NoMemory>
    ensures ok { OnOk result (text.new.items ≡ text.old.items ++ address_text address) }
    ensures err { OnErr result (text.new.items ≡ text.old.items) }
{
    text.extend_from_slice(spell(address).as_slice())?;
    Ok(())
}

/// The address that the word spells in some way, if it spells one: other spellings than the one are taken too.
fn read_leniently(word: &[u8]) -> Option<Address>
    ensures exact { result ≡ lenient_address word.now }
    ensures only { (a : Address) → IsAddress a → address_text a ≡ word.now → result ≡ Some a }
{
    match IpAddr::parse_ascii(word) {
        Ok(IpAddr::V4(ip)) => Some(Address::V4(ip.to_bits())),
        Ok(IpAddr::V6(ip)) => Some(Address::V6(ip.to_bits())),
        Err(_) => None,
    }
}

impl Address {
    /// The address whose one spelling the word is. Of a word that is none, or is another spelling, there is none.
    #[tactic(auto, unfolding(crate::specs::Address::address_of))]
    pub fn parse(word: &[u8]) -> Option<Address>
        ensures exact { result ≡ address_of word.now }
        ensures found { IfSome result (λ a. address_text a ≡ word.now) }
        ensures in_range { IfSome result IsAddress }
        ensures only { (a : Address) → IsAddress a → address_text a ≡ word.now → result ≡ Some a }
    {
        let address = read_leniently(word)?;
        if spell(address).as_slice() == word {
            Some(address)
        } else {
            None
        }
    }
}

impl Duplicate for Address {
    fn duplicate(&self) -> Result<Address, NoMemory> {
        Ok(*self)
    }
}

/// Each address comes back from its spelling, nothing else is read as it, and no two addresses are spelled alike.
pub fn one_spelling()
    ensures back { (a : Address) → IsAddress a → address_of (address_text a) ≡ Some a }
    ensures only { (word : List ℕ) (a : Address) → address_of word ≡ Some a → address_text a ≡ word }
    ensures apart { (a b : Address) → IsAddress a → IsAddress b → address_text a ≡ address_text b → a ≡ b }
{}

/// Addresses are in the order of their families, and then of their numbers.
pub fn in_order()
    ensures { (a b : Address) → ⟦<Address as Ord>⟧.cmp a b ≡ address_cmp a b }
{}
