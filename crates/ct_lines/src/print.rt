//! Writing one line.
ghost use Rattle.std.specs.Prelude.{◌≡◌, ◌++◌, ◌∷◌, [], IfOk, OnOk, codes, map};
ghost use Rattle.std.specs.Fmt.{decimal};
ghost use Rattle.std.specs.List.{join_with_byte};
ghost use Rattle.ct_spelling.specs.Spelling.{spelling};
ghost use Rattle.ct_lines.specs.Spelled.{command_words, config_words, kind_text, members_text, op_text, op_words, pair_text, show_command_words, spelled_line, step_command_words, step_words, traverse_words};

use crate::line::{
    Command, ConfigLine, NamedOp, ScenarioLine, ShowCommand, StepCommand, TraverseLine,
};
use ct_rules_cluster::step::Step;
use ct_spelling::number::push_decimal;
use ct_spelling::spelling::push_spelling;
use ct_values::address::push_address;
use ct_values::client::Pair;
use ct_values::config::DbKind;
use ct_values::memory::NoMemory;
use std::alloc::Global;

fn push_word(text: &mut Vec<u8>, word: &[u8]) -> Result<(), NoMemory>
    ensures { OnOk result (text.new.items ≡ text.old.items ++ 32 ∷ word.now) }
{
    text.push(b' ')?;
    text.extend_from_slice(word)?;
    Ok(())
}

fn push_number(text: &mut Vec<u8>, n: u64) -> Result<(), NoMemory>
    ensures { OnOk result (text.new.items ≡ text.old.items ++ 32 ∷ decimal n) }
{
    text.push(b' ')?;
    push_decimal(text, n)
}

/// A line of a word and a number.
fn push_numbered(text: &mut Vec<u8>, word: &[u8], n: u64) -> Result<(), NoMemory>
    ensures { OnOk result (text.new.items ≡ text.old.items ++ join_with_byte 32 (word.now ∷ decimal n ∷ [])) }
{
    text.extend_from_slice(word)?;
    push_number(text, n)
}

fn push_bytes(text: &mut Vec<u8>, bytes: &[u8]) -> Result<(), NoMemory>
    ensures { OnOk result (text.new.items ≡ text.old.items ++ 32 ∷ spelling bytes.now) }
{
    text.push(b' ')?;
    push_spelling(text, bytes)
}

fn push_pair(text: &mut Vec<u8>, pair: &Pair) -> Result<(), NoMemory>
    ensures { OnOk result (text.new.items ≡ text.old.items ++ 32 ∷ pair_text pair.now) }
{
    push_bytes(text, pair.key.bytes())?;
    text.push(b'=')?;
    push_spelling(text, pair.value.bytes())
}

#[tactic(auto, using(crate::proofs::Joined::more_words, crate::proofs::Joined::no_more))]
fn push_pairs(text: &mut Vec<u8>, pairs: &[Pair]) -> Result<(), NoMemory>
    ensures { OnOk result (text.new.items ≡ text.old.items ++ join_with_byte 32 ([] ∷ map pair_text pairs.now)) }
{
    'pair: for pair in pairs {
        push_pair(text, pair)?;
    }
    Ok(())
}

#[tactic(auto, using(crate::proofs::Joined::more_words, crate::proofs::Joined::no_more, crate::proofs::Joined::first_word))]
fn push_members(text: &mut Vec<u8>, members: &[u32]) -> Result<(), NoMemory>
    ensures { OnOk result (text.new.items ≡ text.old.items ++ 32 ∷ members_text members.now) }
{
    text.push(b' ')?;
    let Some((first, rest)) = members.split_first() else {
        return Ok(());
    };
    push_decimal(text, u64::from(*first))?;
    'member: for member in rest {
        text.push(b',')?;
        push_decimal(text, u64::from(*member))?;
    }
    Ok(())
}

fn kind_text(kind: &DbKind) -> &[u8]
    ensures { result.now ≡ kind_text kind.now }
{
    match kind {
        DbKind::Volatile => b"volatile",
        DbKind::ReadOnly => b"readonly",
        DbKind::Persistent => b"persistent",
    }
}

fn push_config(text: &mut Vec<u8>, what: &ConfigLine) -> Result<(), NoMemory>
    ensures { OnOk result (text.new.items ≡ text.old.items ++ join_with_byte 32 (config_words what.now)) }
{
    match what {
        ConfigLine::Nodes(n) => { push_numbered(text, b"nodes", u64::from(*n)) }
        ConfigLine::Db(db) => {
            text.extend_from_slice(b"db")?;
            push_word(text, db.name.bytes())?;
            push_word(text, kind_text(&db.kind))
        }
        ConfigLine::Address(address) => {
            text.extend_from_slice(b"address ")?;
            push_address(text, *address)
        }
    }
}

fn push_step(text: &mut Vec<u8>, step: &Step) -> Result<(), NoMemory>
    ensures { OnOk result (text.new.items ≡ text.old.items ++ join_with_byte 32 (step_words step.now)) }
{
    match step {
        Step::Client { .. } => Ok(()),
        Step::Deliver(k) => { push_numbered(text, b"deliver", *k) }
        Step::Drop(k) => { push_numbered(text, b"drop", *k) }
        Step::Repeat(k) => { push_numbered(text, b"repeat", *k) }
        Step::Retry(n) => { push_numbered(text, b"retry", u64::from(*n)) }
        Step::Vacuum { .. } => Ok(()),
        Step::Recover { node, members } => {
            text.extend_from_slice(b"recover")?;
            push_number(text, u64::from(*node))?;
            push_members(text, members.as_slice())
        }
        Step::Yield(n) => { push_numbered(text, b"yield", u64::from(*n)) }
        Step::Stop(n) => { push_numbered(text, b"stop", u64::from(*n)) }
        Step::Start(n) => { push_numbered(text, b"start", u64::from(*n)) }
        Step::Takeover(n) => { push_numbered(text, b"takeover", u64::from(*n)) }
        Step::Able { .. } => Ok(()),
    }
}

fn op_text(op: &NamedOp) -> &[u8]
    ensures { result.now ≡ op_text op.now }
{
    match op {
        NamedOp::Lock(_) => b"lock",
        NamedOp::Read(_) => b"read",
        NamedOp::Unlock(_) => b"unlock",
        NamedOp::Store(_, _) => b"store",
        NamedOp::Apply { .. } => b"apply",
        NamedOp::Commit(_) => b"commit",
        NamedOp::Vacuum => b"vacuum",
    }
}

/// What stands after the database.
fn push_op(text: &mut Vec<u8>, op: &NamedOp) -> Result<(), NoMemory>
    ensures { OnOk result (text.new.items ≡ text.old.items ++ join_with_byte 32 ([] ∷ op_words op.now)) }
{
    match op {
        NamedOp::Lock(key) => push_bytes(text, key.bytes()),
        NamedOp::Read(key) => push_bytes(text, key.bytes()),
        NamedOp::Unlock(key) => push_bytes(text, key.bytes()),
        NamedOp::Store(key, value) => {
            push_bytes(text, key.bytes())?;
            push_bytes(text, value.bytes())
        }
        NamedOp::Apply { key, function, arg } => {
            push_bytes(text, key.bytes())?;
            push_number(text, u64::from(*function))?;
            push_bytes(text, arg.bytes())
        }
        NamedOp::Commit(pairs) => push_pairs(text, pairs.as_slice()),
        NamedOp::Vacuum => Ok(()),
    }
}

#[tactic(auto, using(crate::proofs::Joined::two_more))]
fn push_show(text: &mut Vec<u8>, command: &ShowCommand) -> Result<(), NoMemory>
    ensures { OnOk result (text.new.items ≡ text.old.items ++ join_with_byte 32 ([] ∷ show_command_words command.now)) }
{
    match command {
        ShowCommand::Pnn => push_word(text, b"pnn"),
        ShowCommand::ListNodes => push_word(text, b"listnodes"),
        ShowCommand::Status => push_word(text, b"status"),
        ShowCommand::Ip => push_word(text, b"ip"),
        ShowCommand::GetDbMap => push_word(text, b"getdbmap"),
        ShowCommand::CatTdb(db) => {
            push_word(text, b"cattdb")?;
            push_word(text, db.bytes())
        }
        ShowCommand::GetDbSeqNum(db) => {
            push_word(text, b"getdbseqnum")?;
            push_word(text, db.bytes())
        }
    }
}

#[tactic(auto, using(crate::proofs::Joined::two_more))]
fn push_step_command(text: &mut Vec<u8>, command: &StepCommand) -> Result<(), NoMemory>
    ensures { OnOk result (text.new.items ≡ text.old.items ++ join_with_byte 32 ([] ∷ step_command_words command.now)) }
{
    match command {
        StepCommand::Disable => push_word(text, b"disable"),
        StepCommand::Enable => push_word(text, b"enable"),
        StepCommand::ReadKey { db, key } => {
            push_word(text, b"readkey")?;
            push_word(text, db.bytes())?;
            push_bytes(text, key.bytes())
        }
        StepCommand::WriteKey { db, key, value } => {
            push_word(text, b"writekey")?;
            push_word(text, db.bytes())?;
            push_bytes(text, key.bytes())?;
            push_bytes(text, value.bytes())
        }
        StepCommand::DeleteKey { db, key } => {
            push_word(text, b"deletekey")?;
            push_word(text, db.bytes())?;
            push_bytes(text, key.bytes())
        }
        StepCommand::PTrans { db, writes } => {
            push_word(text, b"ptrans")?;
            push_word(text, db.bytes())?;
            push_pairs(text, writes.as_slice())
        }
        StepCommand::Recover => push_word(text, b"recover"),
    }
}

#[tactic(auto, using(crate::proofs::Joined::two_more))]
fn push_command(text: &mut Vec<u8>, command: &Command) -> Result<(), NoMemory>
    ensures { OnOk result (text.new.items ≡ text.old.items ++ join_with_byte 32 ([] ∷ command_words command.now)) }
{
    match command {
        Command::Shows(command) => push_show(text, command),
        Command::Steps(command) => push_step_command(text, command),
        Command::CatDb(db) => {
            push_word(text, b"catdb")?;
            push_word(text, db.bytes())
        }
    }
}

fn push_traverse(text: &mut Vec<u8>, line: &TraverseLine) -> Result<(), NoMemory>
    ensures { OnOk result (text.new.items ≡ text.old.items ++ join_with_byte 32 (traverse_words line.now)) }
{
    match line {
        TraverseLine::Walk(count) => { push_numbered(text, b"walk", u64::from(*count)) }
        TraverseLine::Carry(k) => { push_numbered(text, b"carry", *k) }
        TraverseLine::Lose(k) => { push_numbered(text, b"lose", *k) }
        TraverseLine::Again(k) => { push_numbered(text, b"again", *k) }
    }
}

#[tactic(auto, using(crate::proofs::Joined::after_two))]
fn push_by_name(text: &mut Vec<u8>, node: u32, db: &[u8], op: &NamedOp) -> Result<(), NoMemory>
    ensures { OnOk result (text.new.items ≡ text.old.items ++ join_with_byte 32 (op_text op.now ∷ decimal node ∷ db.now ∷ op_words op.now)) }
{
    text.extend_from_slice(op_text(op))?;
    push_number(text, u64::from(node))?;
    push_word(text, db)?;
    push_op(text, op)
}

#[tactic(auto, using(crate::proofs::Joined::after_one))]
fn push_ctdb(text: &mut Vec<u8>, node: u32, command: &Command) -> Result<(), NoMemory>
    ensures { OnOk result (text.new.items ≡ text.old.items ++ join_with_byte 32 (codes "ctdb" ∷ decimal node ∷ command_words command.now)) }
{
    text.extend_from_slice(b"ctdb")?;
    push_number(text, u64::from(node))?;
    push_command(text, command)
}

fn push_line(text: &mut Vec<u8>, line: &ScenarioLine) -> Result<(), NoMemory>
    ensures { OnOk result (text.new.items ≡ text.old.items ++ spelled_line line.now) }
{
    match line {
        ScenarioLine::Config(what) => push_config(text, what),
        ScenarioLine::Change(step) => push_step(text, step),
        ScenarioLine::ByName { node, db, op } => push_by_name(text, *node, db.bytes(), op),
        ScenarioLine::Settle(count) => { push_numbered(text, b"settle", u64::from(*count)) }
        ScenarioLine::Traverse(line) => push_traverse(text, line),
        ScenarioLine::Ctdb { node, command } => push_ctdb(text, *node, command),
    }
}

/// The one text of a line, without its line feed.
pub fn print_line(alloc: Global, line: &ScenarioLine) -> Result<Vec<u8>, NoMemory>
    ensures { IfOk result (λ text. text.items ≡ spelled_line line.now) }
{
    let mut text = Vec::new(alloc);
    push_line(&mut text, line)?;
    Ok(text)
}
