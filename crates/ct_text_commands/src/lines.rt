//! Lines of a word and a number.
ghost use Rattle.std.specs.Prelude.{◌≡◌, ◌++◌, OnOk};
ghost use Rattle.ct_text_commands.specs.Lists.{number_line};

use ct_text::words::{push, push_number};
use ct_values::memory::NoMemory;

/// A line of a word and a number, at the end of a text.
#[tactic(auto, unfolding(crate::specs::Lists::number_line))]
pub(crate) fn push_number_line(text: &mut Vec<u8>, word: &[u8], number: u64) -> Result<(), NoMemory>
    ensures { OnOk result (text.new.items ≡ text.old.items ++ number_line word.now number) }
{
    push_number(text, word, number)?;
    push(text, b"\n")
}
