//! The lines that say nodes and addresses, and how they are read.
ghost use Rattle.std.specs.Prelude.{◌≡◌, map};
ghost use Rattle.ct_lines.specs.Grammar.{words_of};
ghost use Rattle.ct_lines.specs.Reading.{Reads};
ghost use Rattle.ct_lcp2_lines.specs.Grammar.{form, line_of, one_form, two_form};

use ct_frame::frame::Assigned;
use ct_lines::line::WordFault;
use ct_lines::words::{address_word, cut, is_word, number_word, small_within};
use std::alloc::Global;

/// One line.
#[derive(Debug, Drop, PartialEq)]
pub enum GivenLine {
    /// The number of nodes, 1 to 16.
    Nodes(u32),
    /// A node that may hold no address.
    Disabled(u32),
    /// An address, and the node that holds it, if one does.
    Address(Assigned),
}

/// `nodes N`, `disabled P` or `address A`.
fn one_form(word: &[u8], arg: &[u8]) -> Result<GivenLine, WordFault>
    ensures { Reads result (one_form word.now arg.now) }
{
    if is_word(word, b"nodes") {
        Ok(GivenLine::Nodes(small_within(arg, 1, 17)?))
    } else if is_word(word, b"disabled") {
        Ok(GivenLine::Disabled(number_word(arg)?))
    } else if is_word(word, b"address") {
        let address = address_word(arg)?;
        Ok(GivenLine::Address(Assigned {
            address,
            node: None,
        }))
    } else {
        Err(WordFault::NoForm)
    }
}

/// `address A P`.
fn two_form(word: &[u8], address: &[u8], node: &[u8]) -> Result<GivenLine, WordFault>
    ensures { Reads result (two_form word.now address.now node.now) }
{
    if is_word(word, b"address") {
        let address = address_word(address)?;
        let node = number_word(node)?;
        Ok(GivenLine::Address(Assigned {
            address,
            node: Some(node),
        }))
    } else {
        Err(WordFault::NoForm)
    }
}

fn form(words: &[&[u8]]) -> Result<GivenLine, WordFault>
    ensures { Reads result (form (map (λ w. w.now) words.now)) }
{
    match words {
        [] => Err(WordFault::NoForm),
        [_] => Err(WordFault::NoForm),
        [word, a] => one_form(word, a),
        [word, a, p] => two_form(word, a, p),
        [_, _, _, _, ..] => Err(WordFault::NoForm),
    }
}

/// Reads a line, without its line feed, by itself: the lines before it and its length do not matter.
#[tactic(auto, unfolding(crate::specs::Grammar::line_of))]
pub fn read_line(alloc: Global, line: &[u8]) -> Result<GivenLine, WordFault>
    ensures { Reads result (line_of line.now) }
{
    let words = cut(alloc, line, b' ')?;
    form(words.as_slice())
}
