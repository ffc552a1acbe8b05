//! The words that a printed line is made of. Each is written at the end of a text.
ghost use Rattle.std.specs.Prelude.{◌≡◌, ◌++◌, OnOk};
ghost use Rattle.std.specs.Fmt.{decimal};
ghost use Rattle.ct_values.specs.Address.{address_text};
ghost use Rattle.ct_spelling.specs.Spelling.{spelling};
ghost use Rattle.ct_text.specs.Words.{assigned_text, items_text, more_items, node_text, record_text};

use ct_frame::frame::Assigned;
use ct_node_state::kinds::name_of;
use ct_spelling::number::push_decimal;
use ct_spelling::spelling::push_spelling;
use ct_values::address::{Address, push_address};
use ct_values::config::Config;
use ct_values::key::Key;
use ct_values::memory::NoMemory;

/// A piece of text.
pub fn push(text: &mut Vec<u8>, more: &[u8]) -> Result<(), NoMemory>
    ensures { OnOk result (text.new.items ≡ text.old.items ++ more.now) }
{
    text.extend_from_slice(more)?;
    Ok(())
}

/// A word and a number.
pub fn push_number(text: &mut Vec<u8>, word: &[u8], number: u64) -> Result<(), NoMemory>
    ensures { OnOk result (text.new.items ≡ text.old.items ++ (word.now ++ decimal number)) }
{
    push(text, word)?;
    push_decimal(text, number)
}

/// A word and the spelling of bytes.
pub fn push_value(text: &mut Vec<u8>, word: &[u8], value: &[u8]) -> Result<(), NoMemory>
    ensures { OnOk result (text.new.items ≡ text.old.items ++ (word.now ++ spelling value.now)) }
{
    push(text, word)?;
    push_spelling(text, value)
}

/// A word, the name of a database and a key.
#[tactic(auto, unfolding(crate::specs::Words::record_text))]
pub fn push_record(
    text: &mut Vec<u8>,
    config: &Config,
    word: &[u8],
    db: u32,
    key: &Key,
) -> Result<(), NoMemory>
    ensures { OnOk result (text.new.items ≡ text.old.items ++ (word.now ++ record_text config.now db key.now)) }
{
    push(text, word)?;
    push(text, name_of(config, db))?;
    push_value(text, b" ", key.bytes())
}

/// Numbers with commas between them.
pub fn push_numbers(text: &mut Vec<u8>, numbers: &[u32]) -> Result<(), NoMemory>
    ensures { OnOk result (text.new.items ≡ text.old.items ++ items_text decimal numbers.now) }
{
    let Some((first, others)) = numbers.split_first() else {
        return push(text, b"-");
    };
    push_decimal(text, u64::from(*first))?;
    for n in others {
        push_number(text, b",", u64::from(*n))?;
    }
    Ok(())
}

/// Addresses with commas between them.
pub fn push_addresses(text: &mut Vec<u8>, addresses: &[Address]) -> Result<(), NoMemory>
    ensures { OnOk result (text.new.items ≡ text.old.items ++ items_text address_text addresses.now) }
{
    let Some((first, others)) = addresses.split_first() else {
        return push(text, b"-");
    };
    push_address(text, *first)?;
    for address in others {
        push(text, b",")?;
        push_address(text, *address)?;
    }
    Ok(())
}

/// The node that an address is assigned to.
fn push_node(text: &mut Vec<u8>, node: Option<u32>) -> Result<(), NoMemory>
    ensures { OnOk result (text.new.items ≡ text.old.items ++ node_text node) }
{
    match node {
        None => push(text, b"-1"),
        Some(n) => push_decimal(text, u64::from(n)),
    }
}

/// An address and its node.
#[tactic(auto, unfolding(crate::specs::Words::assigned_text))]
fn push_one_assigned(text: &mut Vec<u8>, assigned: &Assigned) -> Result<(), NoMemory>
    ensures { OnOk result (text.new.items ≡ text.old.items ++ assigned_text assigned.now) }
{
    push_address(text, assigned.address)?;
    push(text, b"=")?;
    push_node(text, assigned.node)
}

/// Addresses with their nodes, with commas between them.
pub fn push_assigned(text: &mut Vec<u8>, assigned: &[Assigned]) -> Result<(), NoMemory>
    ensures { OnOk result (text.new.items ≡ text.old.items ++ items_text assigned_text assigned.now) }
{
    let Some((first, others)) = assigned.split_first() else {
        return push(text, b"-");
    };
    push_one_assigned(text, first)?;
    for one in others {
        push(text, b",")?;
        push_one_assigned(text, one)?;
    }
    Ok(())
}
