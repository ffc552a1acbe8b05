//! Reading one line.
ghost use Rattle.std.specs.Prelude.{◌≡◌, ◌≢◌, Err, IfOk, map};
ghost use Rattle.ct_lines.specs.Grammar.{apply_op, bare_command, call_line, command_of, commit_form, ctdb_line, db_command, form, key_command, key_op, line_of, number_step, one_form, plain_command, plain_form, ptrans_form, traverse_form, two_form, value_command, value_op, words_of};
ghost use Rattle.ct_lines.specs.Reading.{Reads, ReadsLine};
ghost use Rattle.ct_lines.specs.Spelled.{IsInRange, spelled_line};
ghost use Rattle.ct_lines.specs.Words.{key_word, name_word, number_word, value_word};

use crate::line::{
    Command, ConfigLine, LineKind, LineKindFault, NamedOp, ScenarioLine, ShowCommand, StepCommand,
    TraverseLine, WordFault,
};
use crate::words::{
    address_word, cut, is_word, key_word, kind_word, members_word, message_word, name_word,
    number_word, pairs_of, small_within, value_word,
};
use ct_rules_cluster::step::Step;
use ct_values::config::DbDecl;
use std::alloc::Global;

fn number_step(word: &[u8], arg: &[u8]) -> Result<Step, WordFault>
    ensures { Reads result (number_step word.now arg.now) }
{
    if is_word(word, b"deliver") {
        Ok(Step::Deliver(message_word(arg)?))
    } else if is_word(word, b"drop") {
        Ok(Step::Drop(message_word(arg)?))
    } else if is_word(word, b"repeat") {
        Ok(Step::Repeat(message_word(arg)?))
    } else if is_word(word, b"retry") {
        Ok(Step::Retry(number_word(arg)?))
    } else if is_word(word, b"yield") {
        Ok(Step::Yield(number_word(arg)?))
    } else if is_word(word, b"stop") {
        Ok(Step::Stop(number_word(arg)?))
    } else if is_word(word, b"start") {
        Ok(Step::Start(number_word(arg)?))
    } else if is_word(word, b"takeover") {
        Ok(Step::Takeover(number_word(arg)?))
    } else {
        Err(WordFault::NoForm)
    }
}

/// A line of traverses, or any other that is a step of a message or of a node alone.
fn traverse_line(word: &[u8], arg: &[u8]) -> Result<ScenarioLine, WordFault>
    ensures { Reads result (traverse_form word.now arg.now) }
{
    if is_word(word, b"walk") {
        Ok(ScenarioLine::Traverse(TraverseLine::Walk(small_within(arg, 1, 100001)?)))
    } else if is_word(word, b"carry") {
        Ok(ScenarioLine::Traverse(TraverseLine::Carry(message_word(arg)?)))
    } else if is_word(word, b"lose") {
        Ok(ScenarioLine::Traverse(TraverseLine::Lose(message_word(arg)?)))
    } else if is_word(word, b"again") {
        Ok(ScenarioLine::Traverse(TraverseLine::Again(message_word(arg)?)))
    } else {
        Ok(ScenarioLine::Change(number_step(word, arg)?))
    }
}

/// A line of a word and one more.
fn one_line(word: &[u8], arg: &[u8]) -> Result<ScenarioLine, WordFault>
    ensures { Reads result (one_form word.now arg.now) }
{
    if is_word(word, b"nodes") {
        Ok(ScenarioLine::Config(ConfigLine::Nodes(small_within(arg, 1, 17)?)))
    } else if is_word(word, b"address") {
        Ok(ScenarioLine::Config(ConfigLine::Address(address_word(arg)?)))
    } else if is_word(word, b"settle") {
        Ok(ScenarioLine::Settle(small_within(arg, 1, 100001)?))
    } else {
        traverse_line(word, arg)
    }
}

/// A line of a word and two more.
fn two_line(alloc: Global, word: &[u8], a: &[u8], b: &[u8]) -> Result<ScenarioLine, WordFault>
    ensures { Reads result (two_form word.now a.now b.now) }
{
    if is_word(word, b"db") {
        let name = name_word(alloc, a)?;
        let kind = kind_word(b)?;
        Ok(ScenarioLine::Config(ConfigLine::Db(DbDecl { name, kind })))
    } else if is_word(word, b"vacuum") {
        let node = number_word(a)?;
        let db = name_word(alloc, b)?;
        Ok(ScenarioLine::ByName {
            node,
            db,
            op: NamedOp::Vacuum,
        })
    } else if is_word(word, b"recover") {
        let node = number_word(a)?;
        let members = members_word(alloc, b)?;
        Ok(ScenarioLine::Change(Step::Recover { node, members }))
    } else {
        Err(WordFault::NoForm)
    }
}

fn key_op(alloc: Global, word: &[u8], key: &[u8]) -> Result<NamedOp, WordFault>
    ensures { Reads result (key_op word.now (key_word key.now)) }
{
    let key = key_word(alloc, key)?;
    if is_word(word, b"lock") {
        Ok(NamedOp::Lock(key))
    } else if is_word(word, b"read") {
        Ok(NamedOp::Read(key))
    } else if is_word(word, b"unlock") {
        Ok(NamedOp::Unlock(key))
    } else {
        Err(WordFault::NoForm)
    }
}

fn key_line(
    alloc: Global,
    word: &[u8],
    node: &[u8],
    db: &[u8],
    key: &[u8],
) -> Result<ScenarioLine, WordFault>
    ensures { Reads result (call_line (number_word node.now) (name_word db.now) (key_op word.now (key_word key.now))) }
{
    let node = number_word(node)?;
    let db = name_word(alloc, db)?;
    let op = key_op(alloc, word, key)?;
    Ok(ScenarioLine::ByName { node, db, op })
}

fn value_op(alloc: Global, word: &[u8], key: &[u8], value: &[u8]) -> Result<NamedOp, WordFault>
    ensures { Reads result (value_op word.now (key_word key.now) (value_word value.now)) }
{
    let key = key_word(alloc, key)?;
    let value = value_word(alloc, value)?;
    if is_word(word, b"store") {
        Ok(NamedOp::Store(key, value))
    } else {
        Err(WordFault::NoForm)
    }
}

fn value_line(
    alloc: Global,
    word: &[u8],
    node: &[u8],
    db: &[u8],
    key: &[u8],
    value: &[u8],
) -> Result<ScenarioLine, WordFault>
    ensures { Reads result (call_line (number_word node.now) (name_word db.now) (value_op word.now (key_word key.now) (value_word value.now))) }
{
    let node = number_word(node)?;
    let db = name_word(alloc, db)?;
    let op = value_op(alloc, word, key, value)?;
    Ok(ScenarioLine::ByName { node, db, op })
}

fn apply_op(
    alloc: Global,
    word: &[u8],
    key: &[u8],
    function: &[u8],
    arg: &[u8],
) -> Result<NamedOp, WordFault>
    ensures { Reads result (apply_op word.now (key_word key.now) (number_word function.now) (value_word arg.now)) }
{
    let key = key_word(alloc, key)?;
    let function = number_word(function)?;
    let arg = value_word(alloc, arg)?;
    if is_word(word, b"apply") {
        Ok(NamedOp::Apply { key, function, arg })
    } else {
        Err(WordFault::NoForm)
    }
}

fn apply_line(
    alloc: Global,
    word: &[u8],
    node: &[u8],
    db: &[u8],
    key: &[u8],
    function: &[u8],
    arg: &[u8],
) -> Result<ScenarioLine, WordFault>
    ensures { Reads result (call_line (number_word node.now) (name_word db.now) (apply_op word.now (key_word key.now) (number_word function.now) (value_word arg.now))) }
{
    let node = number_word(node)?;
    let db = name_word(alloc, db)?;
    let op = apply_op(alloc, word, key, function, arg)?;
    Ok(ScenarioLine::ByName { node, db, op })
}

/// The line of a word and those after it, by their number.
fn plain_line(
    alloc: Global,
    word: &[u8],
    first: &[u8],
    args: &[&[u8]],
) -> Result<ScenarioLine, WordFault>
    ensures { Reads result (plain_form word.now first.now (map (λ w. w.now) args.now)) }
{
    match args {
        [] => one_line(word, first),
        [b] => two_line(alloc, word, first, b),
        [d, k] => key_line(alloc, word, first, d, k),
        [d, k, v] => value_line(alloc, word, first, d, k, v),
        [d, k, f, x] => apply_line(alloc, word, first, d, k, f, x),
        [_, _, _, _, _, ..] => Err(WordFault::NoForm),
    }
}

/// `commit N DB KEY=VALUE` and further pairs, from the node on.
fn commit_line(alloc: Global, node: &[u8], args: &[&[u8]]) -> Result<ScenarioLine, WordFault>
    ensures { Reads result (commit_form node.now (map (λ w. w.now) args.now)) }
{
    let Some((db, pairs)) = args.split_first() else {
        return Err(WordFault::NoForm);
    };
    let node = number_word(node)?;
    let db = name_word(alloc, db)?;
    let pairs = pairs_of(alloc, pairs)?;
    Ok(ScenarioLine::ByName {
        node,
        db,
        op: NamedOp::Commit(pairs),
    })
}

fn bare_command(word: &[u8]) -> Result<Command, WordFault>
    ensures { Reads result (bare_command word.now) }
{
    if is_word(word, b"pnn") {
        Ok(Command::Shows(ShowCommand::Pnn))
    } else if is_word(word, b"listnodes") {
        Ok(Command::Shows(ShowCommand::ListNodes))
    } else if is_word(word, b"status") {
        Ok(Command::Shows(ShowCommand::Status))
    } else if is_word(word, b"ip") {
        Ok(Command::Shows(ShowCommand::Ip))
    } else if is_word(word, b"getdbmap") {
        Ok(Command::Shows(ShowCommand::GetDbMap))
    } else if is_word(word, b"disable") {
        Ok(Command::Steps(StepCommand::Disable))
    } else if is_word(word, b"enable") {
        Ok(Command::Steps(StepCommand::Enable))
    } else if is_word(word, b"recover") {
        Ok(Command::Steps(StepCommand::Recover))
    } else {
        Err(WordFault::NoForm)
    }
}

fn db_command(alloc: Global, word: &[u8], db: &[u8]) -> Result<Command, WordFault>
    ensures { Reads result (db_command word.now (name_word db.now)) }
{
    let db = name_word(alloc, db)?;
    if is_word(word, b"cattdb") {
        Ok(Command::Shows(ShowCommand::CatTdb(db)))
    } else if is_word(word, b"getdbseqnum") {
        Ok(Command::Shows(ShowCommand::GetDbSeqNum(db)))
    } else if is_word(word, b"catdb") {
        Ok(Command::CatDb(db))
    } else {
        Err(WordFault::NoForm)
    }
}

fn key_command(alloc: Global, word: &[u8], db: &[u8], key: &[u8]) -> Result<Command, WordFault>
    ensures { Reads result (key_command word.now (name_word db.now) (key_word key.now)) }
{
    let db = name_word(alloc, db)?;
    let key = key_word(alloc, key)?;
    if is_word(word, b"readkey") {
        Ok(Command::Steps(StepCommand::ReadKey { db, key }))
    } else if is_word(word, b"deletekey") {
        Ok(Command::Steps(StepCommand::DeleteKey { db, key }))
    } else {
        Err(WordFault::NoForm)
    }
}

fn value_command(
    alloc: Global,
    word: &[u8],
    db: &[u8],
    key: &[u8],
    value: &[u8],
) -> Result<Command, WordFault>
    ensures { Reads result (value_command word.now (name_word db.now) (key_word key.now) (value_word value.now)) }
{
    let db = name_word(alloc, db)?;
    let key = key_word(alloc, key)?;
    let value = value_word(alloc, value)?;
    if is_word(word, b"writekey") {
        Ok(Command::Steps(StepCommand::WriteKey { db, key, value }))
    } else {
        Err(WordFault::NoForm)
    }
}

/// `ptrans DB KEY=VALUE` and further pairs, from the database on.
fn ptrans_command(alloc: Global, args: &[&[u8]]) -> Result<Command, WordFault>
    ensures { Reads result (ptrans_form (map (λ w. w.now) args.now)) }
{
    let Some((db, pairs)) = args.split_first() else {
        return Err(WordFault::NoForm);
    };
    let db = name_word(alloc, db)?;
    let writes = pairs_of(alloc, pairs)?;
    Ok(Command::Steps(StepCommand::PTrans { db, writes }))
}

/// The command of a word and those after it, by their number.
fn plain_command(alloc: Global, word: &[u8], args: &[&[u8]]) -> Result<Command, WordFault>
    ensures { Reads result (plain_command word.now (map (λ w. w.now) args.now)) }
{
    match args {
        [] => bare_command(word),
        [d] => db_command(alloc, word, d),
        [d, k] => key_command(alloc, word, d, k),
        [d, k, v] => value_command(alloc, word, d, k, v),
        [_, _, _, _, ..] => Err(WordFault::NoForm),
    }
}

fn command_of(alloc: Global, words: &[&[u8]]) -> Result<Command, WordFault>
    ensures { Reads result (command_of (map (λ w. w.now) words.now)) }
{
    let Some((word, args)) = words.split_first() else {
        return Err(WordFault::NoForm);
    };
    if is_word(word, b"ptrans") {
        ptrans_command(alloc, args)
    } else {
        plain_command(alloc, word, args)
    }
}

fn ctdb_line(alloc: Global, node: &[u8], args: &[&[u8]]) -> Result<ScenarioLine, WordFault>
    ensures { Reads result (ctdb_line (number_word node.now) (command_of (map (λ w. w.now) args.now))) }
{
    let node = number_word(node)?;
    let command = command_of(alloc, args)?;
    Ok(ScenarioLine::Ctdb { node, command })
}

fn form(alloc: Global, words: &[&[u8]]) -> Result<ScenarioLine, WordFault>
    ensures { Reads result (form (map (λ w. w.now) words.now)) }
{
    let Some((word, rest)) = words.split_first() else {
        return Err(WordFault::NoForm);
    };
    let Some((first, args)) = rest.split_first() else {
        return Err(WordFault::NoForm);
    };
    if is_word(word, b"commit") {
        commit_line(alloc, first, args)
    } else if is_word(word, b"ctdb") {
        ctdb_line(alloc, first, args)
    } else {
        plain_line(alloc, word, first, args)
    }
}

#[tactic(auto, unfolding(crate::specs::Grammar::line_of))]
fn read_line(alloc: Global, line: &[u8]) -> Result<ScenarioLine, WordFault>
    ensures { Reads result (line_of line.now) }
{
    let words = cut(alloc, line, b' ')?;
    form(alloc, words.as_slice())
}

fn read_whole(alloc: Global, line: &[u8]) -> Result<ScenarioLine, LineKindFault>
    ensures { ReadsLine result line.now }
{
    if line.len() > 65535 {
        return Err(LineKindFault::Kind(LineKind::Long));
    }
    match read_line(alloc, line) {
        Ok(item) => Ok(item),
        Err(WordFault::NoForm) => Err(LineKindFault::Kind(LineKind::Words)),
        Err(WordFault::NoMemory) => Err(LineKindFault::NoMemory),
    }
}

/// Reads one line, without its line feed. Ok has the line whose text the bytes are. `Long` comes, want of memory apart,
/// exactly where they are more than 65,535, and else `Words` exactly where they are the text of no line in its range.
pub fn parse_line(alloc: Global, line: &[u8]) -> Result<ScenarioLine, LineKindFault>
    ensures exact { ReadsLine result line.now }
    ensures found { IfOk result (λ item. IsInRange item × (line.now ≡ spelled_line item)) }
    ensures words { result ≡ Err (LineKindFault.Kind LineKind.Words) → (item : ScenarioLine) → IsInRange item → line.now ≢ spelled_line item }
{
    read_whole(alloc, line)
}
