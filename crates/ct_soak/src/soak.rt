//! The line of a word: what is to be done next in a cluster of four nodes, with the databases `t`, `r` and `p`.
ghost use Rattle.std.specs.Prelude.{◌≡◌, ◌≤◌, ◌<◌, ◌^◌, ◌||◌, nat_eq, codes, length, None, IfOk};
ghost use Rattle.std.specs.List.{filter};
ghost use Rattle.ct_values.specs.Name.{bad_byte};
ghost use Rattle.ct_lines.specs.declared.line.Command.TheVariants.{Steps};
ghost use Rattle.ct_lines.specs.declared.line.StepCommand.TheVariants as command;
ghost use Rattle.ct_lines.specs.Spelled.{IsInRange};
ghost use Rattle.ct_soak.specs.Soak as soak;

use ct_lines::line::{Command, NamedOp, ScenarioLine, StepCommand};
use ct_rules_cluster::step::Step;
use ct_spelling::number::push_decimal;
use ct_values::client::Pair;
use ct_values::items::Items;
use ct_values::key::Key;
use ct_values::memory::{BytesFault, NoMemory};
use ct_values::name::DbName;
use ct_values::value::Value;
use std::alloc::Global;

/// Which kind of line.
#[tactic(auto, unfolding(crate::specs::Soak::kind_in))]
fn kind_in(word: u32) -> u32
    ensures { result ≡ soak.kind_in word }
{
    word % 32
}

/// At which node.
#[tactic(auto, unfolding(crate::specs::Soak::node_in))]
fn node_in(word: u32) -> u32
    ensures { result ≡ soak.node_in word }
{
    word / 32 % 4
}

/// One of the letters `a` to `h`.
#[tactic(auto, unfolding(crate::specs::Soak::letter_in))]
fn letter_in(word: u32) -> u8
    ensures { result ≡ soak.letter_in word }
{
    b'a' + (word / 128 % 8) as u8
}

/// Is it the database `t`?
#[tactic(auto, unfolding(crate::specs::Soak::is_first))]
fn is_first(word: u32) -> bool
    ensures { result ≡ soak.is_first word }
{
    word / 1024 % 2 == 0
}

/// A number below 1,000.
#[tactic(auto, unfolding(crate::specs::Soak::number_in))]
fn number_in(word: u32) -> u32
    ensures exact { result ≡ soak.number_in word }
    ensures below { result < 1000 }
{
    word / 2048 % 1000
}

/// The number of a message, of those that were sent or of the next.
#[tactic(auto, unfolding(crate::specs::Soak::message_in))]
fn message_in(word: u32, sent: u64) -> u64
    requires { sent < 2 ^ 62 }
    ensures { result ≡ soak.message_in word sent }
{
    1 + u64::from(word / 2048) % (sent + 1)
}

fn key_in(alloc: Global, word: u32) -> Result<Key, NoMemory>
    ensures { IfOk result (λ key. key ≡ soak.key_in word) }
{
    let mut bytes = Vec::new(alloc);
    bytes.push(letter_in(word))?;
    match Key::from_vec(bytes)? {
        Some(key) => Ok(key),
        None => unreachable!(),
    }
}

#[tactic(auto, using(crate::proofs::Ranges::short))]
fn value_in(alloc: Global, word: u32) -> Result<Value, NoMemory>
    ensures { IfOk result (λ value. value ≡ soak.value_in word) }
{
    let mut text = Vec::new(alloc);
    push_decimal(&mut text, u64::from(number_in(word)))?;
    match Value::from_vec(text)? {
        Some(value) => Ok(value),
        None => unreachable!(),
    }
}

fn pair_in(alloc: Global, word: u32) -> Result<Pair, NoMemory>
    ensures { IfOk result (λ pair. pair ≡ soak.pair_in word) }
{
    let key = key_in(alloc, word)?;
    let value = value_in(alloc, word)?;
    Ok(Pair { key, value })
}

/// A name that is one.
fn named(alloc: Global, name: &[u8]) -> Result<DbName, NoMemory>
    requires some { 1 ≤ length name.now }
    requires few { length name.now ≤ 63 }
    requires plain { bad_byte name.now ≡ None }
    ensures { IfOk result (λ db. db ≡ name.now) }
{
    match DbName::new(alloc, name) {
        Ok(db) => Ok(db),
        Err(BytesFault::BadLength(_)) => unreachable!(),
        Err(BytesFault::BadByte(_)) => unreachable!(),
        Err(BytesFault::NoMemory) => Err(NoMemory),
    }
}

fn name_in(alloc: Global, word: u32) -> Result<DbName, NoMemory>
    ensures { IfOk result (λ db. db ≡ soak.name_in word) }
{
    if is_first(word) {
        named(alloc, b"t")
    } else {
        named(alloc, b"r")
    }
}

/// Does the node run?
fn runs(running: &[bool], node: u32) -> bool
    ensures { result ≡ soak.runs running.now node }
{
    match running.get(node as usize) {
        Some(runs) => *runs,
        None => false,
    }
}

fn members_among(
    alloc: Global,
    nodes: &[u32],
    node: u32,
    running: &[bool],
) -> Result<Items<u32>, NoMemory>
    ensures { IfOk result (λ members. members ≡ filter (λ n. soak.runs running.now n || nat_eq n node) nodes.now) }
{
    let mut members = Items::empty(alloc);
    for n in nodes {
        if runs(running, *n) || *n == node {
            members.push(*n)?;
        }
    }
    Ok(members)
}

/// The nodes that run, and this one.
fn members_with(alloc: Global, node: u32, running: &[bool]) -> Result<Items<u32>, NoMemory>
    ensures { IfOk result (λ members. members ≡ soak.members_with node running.now) }
{
    members_among(alloc, &[0, 1, 2, 3], node, running)
}

/// A call at the node on the database.
fn call(alloc: Global, word: u32, op: NamedOp) -> Result<ScenarioLine, NoMemory>
    ensures { IfOk result (λ line. line ≡ soak.call word op) }
{
    Ok(ScenarioLine::ByName {
        node: node_in(word),
        db: name_in(alloc, word)?,
        op,
    })
}

fn write_key(alloc: Global, word: u32) -> Result<Command, NoMemory>
    ensures { IfOk result (λ c. c ≡ Steps (command.WriteKey (soak.name_in word) (soak.key_in word) (soak.value_in word))) }
{
    let db = name_in(alloc, word)?;
    let key = key_in(alloc, word)?;
    let value = value_in(alloc, word)?;
    Ok(Command::Steps(StepCommand::WriteKey { db, key, value }))
}

/// A call on a record, by its kind below 17.
fn record_line(alloc: Global, word: u32, kind: u32) -> Result<ScenarioLine, NoMemory>
    ensures { IfOk result (λ line. line ≡ soak.record_line word kind) }
{
    if kind < 4 {
        call(alloc, word, NamedOp::Lock(key_in(alloc, word)?))
    } else if kind < 7 {
        let key = key_in(alloc, word)?;
        let value = value_in(alloc, word)?;
        call(alloc, word, NamedOp::Store(key, value))
    } else if kind < 11 {
        call(alloc, word, NamedOp::Unlock(key_in(alloc, word)?))
    } else if kind < 15 {
        call(alloc, word, NamedOp::Read(key_in(alloc, word)?))
    } else if kind == 15 {
        Ok(ScenarioLine::Ctdb {
            node: node_in(word),
            command: write_key(alloc, word)?,
        })
    } else {
        let key = key_in(alloc, word)?;
        let arg = value_in(alloc, word)?;
        call(
            alloc,
            word,
            NamedOp::Apply {
                key,
                function: 1,
                arg,
            },
        )
    }
}

/// A step of a message, by its kind from 25 and below 28. It takes no memory.
fn message_line(word: u32, sent: u64, kind: u32) -> ScenarioLine
    requires { sent < 2 ^ 62 }
    ensures { result ≡ soak.message_line word sent kind }
{
    let number = message_in(word, sent);
    if kind == 25 {
        ScenarioLine::Change(Step::Deliver(number))
    } else if kind == 26 {
        ScenarioLine::Change(Step::Drop(number))
    } else {
        ScenarioLine::Change(Step::Repeat(number))
    }
}

/// Each eighth one is a round; the others ask for the lock of database `p`.
fn round_line(alloc: Global, word: u32, running: &[bool]) -> Result<ScenarioLine, NoMemory>
    ensures { IfOk result (λ line. line ≡ soak.round_line word running.now) }
{
    let node = node_in(word);
    if number_in(word) % 8 == 0 {
        let members = members_with(alloc, node, running)?;
        Ok(ScenarioLine::Change(Step::Recover { node, members }))
    } else {
        let db = named(alloc, b"g_lock")?;
        let key = database_key(alloc)?;
        Ok(ScenarioLine::ByName {
            node,
            db,
            op: NamedOp::Lock(key),
        })
    }
}

/// The name of the persistent database as a key.
fn database_key(alloc: Global) -> Result<Key, NoMemory>
    ensures { IfOk result (λ key. key ≡ codes "p") }
{
    let mut bytes = Vec::new(alloc);
    bytes.push(b'p')?;
    match Key::from_vec(bytes)? {
        Some(key) => Ok(key),
        None => unreachable!(),
    }
}

/// The node stops, or starts where it is down. It takes no memory.
fn turn_line(word: u32, running: &[bool]) -> ScenarioLine
    ensures { result ≡ soak.turn_line word running.now }
{
    let node = node_in(word);
    if runs(running, node) {
        ScenarioLine::Change(Step::Stop(node))
    } else {
        ScenarioLine::Change(Step::Start(node))
    }
}

/// Each sixteenth one stops or starts a node; the others commit.
fn commit_line(alloc: Global, word: u32, running: &[bool]) -> Result<ScenarioLine, NoMemory>
    ensures { IfOk result (λ line. line ≡ soak.commit_line word running.now) }
{
    if number_in(word) % 16 == 0 {
        return Ok(turn_line(word, running));
    }
    let mut pairs = Items::empty(alloc);
    pairs.push(pair_in(alloc, word)?)?;
    Ok(ScenarioLine::ByName {
        node: node_in(word),
        db: named(alloc, b"p")?,
        op: NamedOp::Commit(pairs),
    })
}

fn line_of_kind(
    alloc: Global,
    word: u32,
    sent: u64,
    running: &[bool],
    kind: u32,
) -> Result<ScenarioLine, NoMemory>
    requires { sent < 2 ^ 62 }
    ensures { IfOk result (λ line. line ≡ soak.line_of_kind word (record { sent = sent; running = running.now }) kind) }
{
    if kind < 17 {
        record_line(alloc, word, kind)
    } else if kind < 25 {
        Ok(ScenarioLine::Settle(1 + number_in(word) % 8))
    } else if kind < 28 {
        Ok(message_line(word, sent, kind))
    } else if kind == 28 {
        Ok(ScenarioLine::Change(Step::Retry(node_in(word))))
    } else if kind == 29 {
        Ok(ScenarioLine::ByName {
            node: node_in(word),
            db: named(alloc, b"t")?,
            op: NamedOp::Vacuum,
        })
    } else if kind == 30 {
        round_line(alloc, word, running)
    } else {
        commit_line(alloc, word, running)
    }
}

/// The line that the word makes in a cluster of four nodes, where so many messages were sent and these nodes run. It is in
/// its range, so it has one text.
#[tactic(auto, unfolding(crate::specs::Soak::soak_line))]
pub fn soak_line(
    alloc: Global,
    word: u32,
    sent: u64,
    running: &[bool],
) -> Result<ScenarioLine, NoMemory>
    requires { soak.IsView (record { sent = sent; running = running.now }) }
    ensures exact { IfOk result (λ line. line ≡ soak.soak_line word (record { sent = sent; running = running.now })) }
    ensures in_range { IfOk result IsInRange }
{
    line_of_kind(alloc, word, sent, running, kind_in(word))
}
