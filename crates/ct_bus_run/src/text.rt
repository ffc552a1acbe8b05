//! The text of an exchange.
ghost use Rattle.std.specs.Prelude.{◌≡◌, ◌<◌, ◌^◌, ◌++◌, ℕ, codes, length, IfOk, OnOk, IfSome};
ghost use Rattle.std.specs.Fmt.{decimal};
ghost use Rattle.ct_bus_run.specs.Text.{answers_in, bus_line, bytes_in, lengths, pair_text, row_text, rows_text};

use ct_bus_exchange::handled::Handled;
use ct_spelling::number::push_decimal;
use ct_values::items::Items;
use ct_values::memory::NoMemory;
use std::alloc::Global;

/// How many bytes these answers have together. None from 2^64 on.
fn lengths(answers: &[Items<u8>]) -> Option<u64>
    ensures { IfSome result (λ n. n ≡ lengths answers.now) }
{
    let mut bytes = 0u64;
    for answer in answers {
        bytes = bytes.checked_add(answer.len() as u64)?;
    }
    Some(bytes)
}

/// How many answers these messages got. None from 2^64 on.
fn answers_in(all: &[Handled]) -> Option<u64>
    ensures { IfSome result (λ n. n ≡ answers_in all.now) }
{
    let mut answers = 0u64;
    for handled in all {
        answers = answers.checked_add(handled.answers.len() as u64)?;
    }
    Some(answers)
}

/// How many bytes all these answers have. None from 2^64 on.
fn bytes_in(all: &[Handled]) -> Option<u64>
    ensures { IfSome result (λ n. n ≡ bytes_in all.now) }
{
    let mut bytes = 0u64;
    for handled in all {
        bytes = bytes.checked_add(lengths(handled.answers.as_slice())?)?;
    }
    Some(bytes)
}

/// A word and a number.
fn push_number(text: &mut Vec<u8>, word: &[u8], number: u64) -> Result<(), NoMemory>
    ensures { OnOk result (text.new.items ≡ text.old.items ++ (word.now ++ decimal number)) }
{
    text.extend_from_slice(word)?;
    push_decimal(text, number)
}

/// The line of what a node handled of another one. `NoMemory` also where there would be 2^64 bytes of answers.
fn push_line(
    text: &mut Vec<u8>,
    receiver: u64,
    sender: u64,
    all: &[Handled],
) -> Result<(), NoMemory>
    ensures { OnOk result (text.new.items ≡ text.old.items ++ bus_line receiver sender all.now) }
{
    let Some(answers) = answers_in(all) else {
        return Err(NoMemory);
    };
    let Some(bytes) = bytes_in(all) else {
        return Err(NoMemory);
    };
    push_number(text, b"bus ", receiver)?;
    push_number(text, b" ", sender)?;
    push_number(text, b" handled ", all.len() as u64)?;
    push_number(text, b" answers ", answers)?;
    push_number(text, b" bytes ", bytes)?;
    text.extend_from_slice(b"\n")?;
    Ok(())
}

/// The line of a pair; none where the two are one node.
fn push_pair(
    text: &mut Vec<u8>,
    receiver: u64,
    sender: u64,
    all: &[Handled],
) -> Result<(), NoMemory>
    ensures { OnOk result (text.new.items ≡ text.old.items ++ pair_text receiver sender all.now) }
{
    if sender == receiver {
        return Ok(());
    }
    push_line(text, receiver, sender, all)
}

/// The lines of what a node handled of the others.
fn push_row(text: &mut Vec<u8>, receiver: u64, row: &[Items<Handled>]) -> Result<(), NoMemory>
    requires { length row.now < 2 ^ 61 }
    ensures { OnOk result (text.new.items ≡ text.old.items ++ row_text receiver 0 row.now) }
{
    let mut sender = 0u64;
    for all in row {
        push_pair(text, receiver, sender, all.as_slice())?;
        sender += 1;
    }
    Ok(())
}

/// The lines of all nodes. `NoMemory` also where one has 2^61 rows, or there would be 2^64 bytes of answers.
pub fn rows_text(alloc: Global, rows: &[Items<Items<Handled>>]) -> Result<Vec<u8>, NoMemory>
    requires { length rows.now < 2 ^ 61 }
    ensures { IfOk result (λ v. v.items ≡ rows_text 0 rows.now) }
{
    let mut text = Vec::new(alloc);
    let mut receiver = 0u64;
    for row in rows {
        if row.len() >= 1 << 61 {
            return Err(NoMemory);
        }
        push_row(&mut text, receiver, row.as_slice())?;
        receiver += 1;
    }
    Ok(text)
}
