//! The text of a line that a step prints, and of a call that waits at the end.
ghost use Rattle.std.specs.Prelude.{◌≡◌, ◌≤◌, ◌+◌, ◌++◌, ◌∷◌, codes, length, drop, IfOk, OnOk};
ghost use Rattle.std.specs.Fmt.{decimal};
ghost use Rattle.ct_rules_cluster.specs.declared.step.Line.TheVariants as line;
ghost use Rattle.ct_rules_node.specs.Node.{name_of};
ghost use Rattle.ct_values.specs.declared.config.Config.{Config};
ghost use Rattle.ct_text.specs.Answer.{answer_text};
ghost use Rattle.ct_text.specs.Line.{asked_text, line_text, pending_text, told_text};
ghost use Rattle.ct_text.specs.Message.{message_text};

use crate::answer::push_answer;
use crate::message::push_message;
use crate::note::push_note;
use crate::words::{push, push_number, push_record};
use ct_frame::frame::Frame;
use ct_node_state::kinds::name_of;
use ct_rules_cluster::step::{Line, PendingCall};
use ct_values::client::{Answer, ClientOp};
use ct_values::config::Config;
use ct_values::memory::NoMemory;
use itoa::write_digits;
use std::alloc::Global;

/// Writes a number and a space behind it so that they end there. Where do they begin?
fn place_number(buffer: &mut [u8], end: usize, number: u64) -> usize
    requires { (21 ≤ end) × (end ≤ length buffer.old) }
    ensures start { result + length (decimal number) + 1 ≡ end }
    ensures short { length (decimal number) ≤ 20 }
    ensures placed { drop result buffer.new ≡ decimal number ++ 32 ∷ drop end buffer.old }
{
    buffer[end - 1] = b' ';
    write_digits(number, buffer, end - 1)
}

/// The words of a message that come before what it says, put together and added at once.
fn push_head(
    text: &mut Vec<u8>,
    number: u64,
    sender: u32,
    receiver: u32,
    generation: u64,
) -> Result<(), NoMemory>
    ensures { OnOk result (text.new.items ≡ text.old.items ++ (codes "frame " ++ decimal number ++ codes " " ++ decimal sender ++ codes " " ++ decimal receiver ++ codes " " ++ decimal generation ++ codes " ")) }
{
    let mut buffer = [0u8; 84];
    let fourth = place_number(&mut buffer, 84, generation);
    let third = place_number(&mut buffer, fourth, u64::from(receiver));
    let second = place_number(&mut buffer, third, u64::from(sender));
    let first = place_number(&mut buffer, second, number);
    push(text, b"frame ")?;
    push(text, &buffer[first..])
}

fn push_sent(
    text: &mut Vec<u8>,
    config: &Config,
    number: u64,
    frame: &Frame,
) -> Result<(), NoMemory>
    ensures { OnOk result (text.new.items ≡ text.old.items ++ (codes "frame " ++ decimal number ++ codes " " ++ decimal frame.now.sender ++ codes " " ++ decimal frame.now.receiver ++ codes " " ++ decimal frame.now.generation ++ codes " " ++ message_text config.now frame.now.msg)) }
{
    push_head(text, number, frame.sender, frame.receiver, frame.generation)?;
    push_message(text, config, &frame.msg)
}

fn push_answered(text: &mut Vec<u8>, call: u64, answer: &Answer) -> Result<(), NoMemory>
    ensures { OnOk result (text.new.items ≡ text.old.items ++ (codes "answer " ++ decimal call ++ codes " " ++ answer_text answer.now)) }
{
    push_number(text, b"answer ", call)?;
    push(text, b" ")?;
    push_answer(text, answer)
}

#[tactic(auto, unfolding(crate::specs::Line::told_text))]
fn push_told(text: &mut Vec<u8>, config: &Config, line: &Line) -> Result<(), NoMemory>
    ensures { OnOk result (text.new.items ≡ text.old.items ++ told_text config.now line.now) }
{
    match line {
        Line::Sent { number, frame } => push_sent(text, config, *number, frame),
        Line::Answered { call, answer } => push_answered(text, *call, answer),
        Line::Noted { node, note } => push_note(text, config, *node, note),
        Line::Ticket { ticket, node } => {
            push_number(text, b"ticket ", *ticket)?;
            push_number(text, b" ", u64::from(*node))
        }
        Line::Yielded(node) => push_number(text, b"yielded ", u64::from(*node)),
        Line::Stopped(node) => push_number(text, b"stopped ", u64::from(*node)),
        Line::Started(node) => push_number(text, b"started ", u64::from(*node)),
        Line::Gone(call) => {
            push_number(text, b"answer ", *call)?;
            push(text, b" stopped")
        }
        Line::Lost(number) => push_number(text, b"lost ", *number),
    }
}

/// Adds the line of a message that was sent, with its line feed.
#[tactic(auto, unfolding(crate::specs::Line::line_text, crate::specs::Line::told_text))]
pub fn push_sent_line(
    text: &mut Vec<u8>,
    config: &Config,
    number: u64,
    frame: &Frame,
) -> Result<(), NoMemory>
    ensures { OnOk result (text.new.items ≡ text.old.items ++ line_text config.now (line.Sent number frame.now)) }
{
    push_sent(text, config, number, frame)?;
    push(text, b"\n")
}

/// Adds the line of an answer, with its line feed.
#[tactic(auto, unfolding(crate::specs::Line::line_text, crate::specs::Line::told_text))]
pub fn push_answered_line(text: &mut Vec<u8>, call: u64, answer: &Answer) -> Result<(), NoMemory>
    ensures { (c : Config) → OnOk result (text.new.items ≡ text.old.items ++ line_text c (line.Answered call answer.now)) }
{
    push_answered(text, call, answer)?;
    push(text, b"\n")
}

/// Adds the text of one line that a step prints, with its line feed. Databases are told by their names.
#[tactic(auto, unfolding(crate::specs::Line::line_text))]
pub fn push_line(text: &mut Vec<u8>, line: &Line, config: &Config) -> Result<(), NoMemory>
    ensures { OnOk result (text.new.items ≡ text.old.items ++ line_text config.now line.now) }
{
    push_told(text, config, line)?;
    push(text, b"\n")
}

/// The text of one line that a step prints, with its line feed. Databases are told by their names.
pub fn line_text(alloc: Global, line: &Line, config: &Config) -> Result<Vec<u8>, NoMemory>
    ensures { IfOk result (λ v. v.items ≡ line_text config.now line.now) }
{
    let mut text = Vec::with_capacity(alloc, 64)?;
    push_line(&mut text, line, config)?;
    Ok(text)
}

fn push_commit(text: &mut Vec<u8>, config: &Config, db: u32, seq: u64) -> Result<(), NoMemory>
    ensures { OnOk result (text.new.items ≡ text.old.items ++ (codes "commit " ++ name_of config.now db ++ codes " " ++ decimal seq)) }
{
    push(text, b"commit ")?;
    push(text, name_of(config, db))?;
    push_number(text, b" ", seq)
}

#[tactic(auto, unfolding(crate::specs::Line::asked_text))]
fn push_asked(text: &mut Vec<u8>, config: &Config, seq: u64, op: &ClientOp) -> Result<(), NoMemory>
    ensures { OnOk result (text.new.items ≡ text.old.items ++ asked_text config.now seq op.now) }
{
    match op {
        ClientOp::Lock { db, key } => push_record(text, config, b"lock ", *db, key),
        ClientOp::Read { db, key } => push_record(text, config, b"read ", *db, key),
        ClientOp::Write { db, key, .. } => push_record(text, config, b"write ", *db, key),
        ClientOp::Apply { db, key, .. } => push_record(text, config, b"apply ", *db, key),
        ClientOp::Store { db, key, .. } => push_record(text, config, b"store ", *db, key),
        ClientOp::Unlock { db, key } => push_record(text, config, b"unlock ", *db, key),
        ClientOp::Commit { db, .. } => push_commit(text, config, *db, seq),
    }
}

/// Adds the text of a call that waits, with its line feed.
#[tactic(auto, unfolding(crate::specs::Line::pending_text))]
pub fn push_pending(text: &mut Vec<u8>, call: &PendingCall, config: &Config) -> Result<(), NoMemory>
    ensures { OnOk result (text.new.items ≡ text.old.items ++ pending_text config.now call.now) }
{
    push_number(text, b"pending ", call.call)?;
    push_number(text, b" ", u64::from(call.node))?;
    push(text, b" ")?;
    push_asked(text, config, call.seq, &call.op)?;
    push(text, b"\n")
}

/// The text of a call that waits, with its line feed.
pub fn pending_text(alloc: Global, call: &PendingCall, config: &Config) -> Result<Vec<u8>, NoMemory>
    ensures { IfOk result (λ v. v.items ≡ pending_text config.now call.now) }
{
    let mut text = Vec::with_capacity(alloc, 64)?;
    push_pending(&mut text, call, config)?;
    Ok(text)
}
