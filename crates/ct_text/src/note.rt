//! The text of what a node notes.
ghost use Rattle.std.specs.Prelude.{◌≡◌, ◌++◌, codes, OnOk};
ghost use Rattle.std.specs.Fmt.{decimal};
ghost use Rattle.ct_values.specs.Address.{address_text};
ghost use Rattle.ct_text.specs.Line.{note_text};
ghost use Rattle.ct_text.specs.Words.{items_text};

use crate::words::{push, push_number, push_numbers, push_record};
use ct_frame::event::Note;
use ct_values::address::{Address, push_address};
use ct_values::config::Config;
use ct_values::memory::NoMemory;

/// A word, a node and an address.
fn push_holder(text: &mut Vec<u8>, word: &[u8], node: u32, address: Address) -> Result<(), NoMemory>
    ensures { OnOk result (text.new.items ≡ text.old.items ++ (word.now ++ decimal node ++ codes " " ++ address_text address)) }
{
    push_number(text, word, u64::from(node))?;
    push(text, b" ")?;
    push_address(text, address)
}

fn push_round(
    text: &mut Vec<u8>,
    generation: u64,
    members: &[u32],
    vparent: u64,
    pparent: u64,
) -> Result<(), NoMemory>
    ensures { OnOk result (text.new.items ≡ text.old.items ++ (codes "round " ++ decimal generation ++ codes " " ++ items_text decimal members.now ++ codes " " ++ decimal vparent ++ codes " " ++ decimal pparent)) }
{
    push_number(text, b"round ", generation)?;
    push(text, b" ")?;
    push_numbers(text, members)?;
    push_number(text, b" ", vparent)?;
    push_number(text, b" ", pparent)
}

/// The text of what a node notes, at the end of a text.
#[tactic(auto, unfolding(crate::specs::Line::note_text))]
pub fn push_note(
    text: &mut Vec<u8>,
    config: &Config,
    node: u32,
    note: &Note,
) -> Result<(), NoMemory>
    ensures { OnOk result (text.new.items ≡ text.old.items ++ note_text config.now node note.now) }
{
    match note {
        Note::Vacuumed { db, key } => {
            push_number(text, b"vacuumed ", u64::from(node))?;
            push_record(text, config, b" ", *db, key)
        }
        Note::Ended { db, key } => {
            push_number(text, b"ended ", u64::from(node))?;
            push_record(text, config, b" ", *db, key)
        }
        Note::Round {
            generation,
            members,
            vparent,
            pparent,
        } => push_round(text, *generation, members.as_slice(), *vparent, *pparent),
        Note::Installed(generation) => {
            push_number(text, b"installed ", u64::from(node))?;
            push_number(text, b" ", *generation)
        }
        Note::Thawed(generation) => {
            push_number(text, b"thawed ", u64::from(node))?;
            push_number(text, b" ", *generation)
        }
        Note::Released(address) => push_holder(text, b"released ", node, *address),
        Note::Took(address) => push_holder(text, b"took ", node, *address),
    }
}
