//! The text of a line that a traverse prints, and of a traverse that waits at the end.
ghost use Rattle.std.specs.Prelude.{◌≡◌, ◌++◌, codes, IfOk, OnOk};
ghost use Rattle.ct_rules_node.specs.Node.{name_of};
ghost use Rattle.ct_traverse_parts.specs.Text.{pass_text, pending_traverse_text, sent_text, traverse_text, waits_text};

use crate::line::{Pass, TLine, TPending};
use ct_node_state::kinds::name_of;
use ct_text::dumps::push_pairs;
use ct_text::words::{push, push_number};
use ct_values::config::Config;
use ct_values::memory::NoMemory;
use std::alloc::Global;

fn push_pass(text: &mut Vec<u8>, pass: Pass) -> Result<(), NoMemory>
    ensures { OnOk result (text.new.items ≡ text.old.items ++ pass_text pass) }
{
    match pass {
        Pass::Copies => push(text, b" copies"),
        Pass::Entries => push(text, b" entries"),
    }
}

/// A message of a traverse, and for which pass it is. The word says whether it asks or answers.
#[tactic(auto, unfolding(crate::specs::Text::sent_text))]
fn push_sent(
    text: &mut Vec<u8>,
    number: u64,
    sender: u32,
    receiver: u32,
    generation: u64,
    word: &[u8],
    traverse: u64,
    pass: Pass,
) -> Result<(), NoMemory>
    ensures { OnOk result (text.new.items ≡ text.old.items ++ sent_text number sender receiver generation word.now traverse pass) }
{
    push_number(text, b"tframe ", number)?;
    push_number(text, b" ", u64::from(sender))?;
    push_number(text, b" ", u64::from(receiver))?;
    push_number(text, b" ", generation)?;
    push_number(text, word, traverse)?;
    push_pass(text, pass)
}

/// Adds the text of one line that a traverse prints. Each of its lines has its line feed: an answer has one for each pair, and one
/// that counts them.
#[tactic(auto, unfolding(crate::specs::Text::traverse_text))]
pub fn push_traverse(text: &mut Vec<u8>, line: &TLine) -> Result<(), NoMemory>
    ensures { OnOk result (text.new.items ≡ text.old.items ++ traverse_text line.now) }
{
    match line {
        TLine::Asked {
            number,
            sender,
            receiver,
            generation,
            traverse,
            pass,
        } => {
            push_sent(
                text,
                *number,
                *sender,
                *receiver,
                *generation,
                b" ask ",
                *traverse,
                *pass,
            )?;
            push(text, b"\n")
        }
        TLine::Rows {
            number,
            sender,
            receiver,
            generation,
            traverse,
            pass,
            count,
        } => {
            push_sent(
                text,
                *number,
                *sender,
                *receiver,
                *generation,
                b" rows ",
                *traverse,
                *pass,
            )?;
            push_number(text, b" ", *count)?;
            push(text, b"\n")
        }
        TLine::TLost(number) => {
            push_number(text, b"tlost ", *number)?;
            push(text, b"\n")
        }
        TLine::Ended(traverse) => {
            push_number(text, b"traverse ", *traverse)?;
            push(text, b" ended\n")
        }
        TLine::Shown(pairs) => push_pairs(text, pairs.as_slice()),
    }
}

/// The name of a database, at the end of a line.
fn push_name_line(text: &mut Vec<u8>, config: &Config, db: u32) -> Result<(), NoMemory>
    ensures { OnOk result (text.new.items ≡ text.old.items ++ (codes " " ++ name_of config.now db ++ codes "\n")) }
{
    push(text, b" ")?;
    push(text, name_of(config, db))?;
    push(text, b"\n")
}

/// A traverse that waits to be answered, by its number.
#[tactic(auto, unfolding(crate::specs::Text::waits_text))]
fn push_waits(text: &mut Vec<u8>, traverse: u64) -> Result<(), NoMemory>
    ensures { OnOk result (text.new.items ≡ text.old.items ++ waits_text traverse) }
{
    push_number(text, b"pending-traverse ", traverse)
}

/// A traverse that waits to be answered, at the end of a text.
#[tactic(auto, unfolding(crate::specs::Text::pending_traverse_text))]
fn push_pending(text: &mut Vec<u8>, traverse: &TPending, config: &Config) -> Result<(), NoMemory>
    ensures { OnOk result (text.new.items ≡ text.old.items ++ pending_traverse_text config.now traverse.now) }
{
    push_waits(text, traverse.traverse)?;
    push_number(text, b" ", u64::from(traverse.node))?;
    push_name_line(text, config, traverse.db)
}

/// The text of a traverse that waits to be answered, with its line feed. The database is told by its name.
pub fn pending_traverse_text(
    alloc: Global,
    traverse: &TPending,
    config: &Config,
) -> Result<Vec<u8>, NoMemory>
    ensures { IfOk result (λ v. v.items ≡ pending_traverse_text config.now traverse.now) }
{
    let mut text = Vec::with_capacity(alloc, 64)?;
    push_pending(&mut text, traverse, config)?;
    Ok(text)
}
