//! Journals of two nodes are joined, with ample memory.
ghost use Rattle.std.specs.Prelude.{◌≡◌, ◌∷◌, [], IfOk, codes};
ghost use Rattle.ct_call.specs.Shown.{rules_of};
ghost use Rattle.ct_journal.specs.Worked.{pair_config};
ghost use Rattle.ct_journal.specs.Worked as worked;
ghost use Rattle.ct_frame.specs.declared.event.Event.TheVariants as event;
ghost use Rattle.ct_frame.specs.declared.frame.CallKind.TheVariants as kind;
ghost use Rattle.ct_frame.specs.declared.frame.Msg.TheVariants as msg;
ghost use Rattle.ct_law_journal_reach.specs.Worked.{unsent_journals};
ghost use Rattle.ct_values.specs.declared.client.ClientOp.TheVariants as op;
ghost use Rattle.ct_rules_config.specs.Configured.{IsConfig};
ghost use Rattle.ct_frame.specs.declared.event.Out.TheVariants as out;
ghost use Rattle.ct_cases_journals.specs.Worked as crossed;
ghost use Rattle.ct_cases_journals.specs.Worked.{MayJoin, crossed_journals, straight_journals};

use ct_call::table::CallTable;
use ct_frame::event::{Event, Out};
use ct_frame::frame::{CallKind, Frame, Msg};
use ct_journal::journal::{Journal, JournalEntry};
use ct_journal_join_any::joined::{JoinFault, join};
use ct_rules_cluster::step::Step;
use ct_values::client::ClientOp;
use ct_values::config::{Config, DbDecl, DbKind};
use ct_values::items::Items;
use ct_values::key::Key;
use ct_values::name::DbName;
use ct_values::value::Value;
use std::alloc::Global;
use std::test::Fail;

/// What a step is about, or how many entries of a journal are made at most.
#[derive(Clone, Copy, PartialEq)]
enum Told {
    Asks(u32),
    Delivers(u64),
    Repeats(u64),
    Most(u64),
    Other,
}

/// Which journals are joined.
#[derive(Clone, Copy)]
enum Case {
    /// A write, in order.
    Straight,
    /// A message that no node sends.
    Unsent,
    /// What is asked last comes first, and what is asked first comes twice.
    Crossed,
}

/// Two nodes with the databases `g_lock` and `t`, which is volatile.
#[tactic(auto, using(crate::proofs::Joinable::is_config, crate::proofs::Joinable::is_pair))]
fn config(alloc: Global) -> Result<Config, Fail>
    ensures config { IfOk result (λ c. IsConfig c) }
    ensures pair { IfOk result (λ c. c ≡ pair_config) }
{
    let mut dbs = Vec::new(alloc);
    dbs.push(DbDecl {
        name: DbName::new(alloc, b"t")?,
        kind: DbKind::Volatile,
    })?;
    Ok(Config::new(alloc, 2, dbs, Vec::new(alloc))?)
}

fn message(sender: u32, receiver: u32, msg: Msg) -> Frame
    ensures { result ≡ worked.told sender receiver msg }
{
    Frame {
        generation: 1,
        sender,
        receiver,
        msg,
    }
}

/// Node 1 asks for a record, under this number.
fn asks(key: Key, request: u64) -> Frame
    ensures { result ≡ worked.told 1 0 (msg.Call 1 key request kind.Lock) }
{
    let msg = Msg::Call {
        db: 1,
        key,
        request,
        kind: CallKind::Lock,
    };
    message(1, 0, msg)
}

/// Node 0 recalls it from itself.
fn recalls(key: Key, request: u64) -> Frame
    ensures { result ≡ worked.told 0 0 (msg.Recall 1 key 0 1 request kind.Lock) }
{
    let msg = Msg::Recall {
        db: 1,
        key,
        least: 0,
        node: 1,
        request,
        kind: CallKind::Lock,
    };
    message(0, 0, msg)
}

/// A client writes a record.
fn writes(alloc: Global, call: u64, key: Key, value: &[u8]) -> Result<Event, Fail>
    ensures { IfOk result (λ e. e ≡ event.Client call (op.Write 1 key value.now)) }
{
    let value = Value::new(alloc, value)?;
    Ok(Event::Client {
        call,
        op: ClientOp::Write { db: 1, key, value },
    })
}

fn one(alloc: Global, does: Out) -> Result<Items<Out>, Fail>
    ensures { IfOk result (λ xs. xs ≡ does ∷ []) }
{
    let mut outs = Items::empty(alloc);
    outs.push(does)?;
    Ok(outs)
}

/// An entry of a node that does one thing.
fn noted(alloc: Global, event: Event, does: Out) -> Result<JournalEntry, Fail>
    ensures { IfOk result (λ x. x ≡ worked.noted event does) }
{
    let outs = match one(alloc, does) {
        Ok(outs) => outs,
        Err(fail) => {
            drop(event);
            return Err(fail);
        }
    };
    Ok(JournalEntry { event, outs })
}

/// The journals of two nodes.
fn pair(
    alloc: Global,
    first: Vec<JournalEntry>,
    second: Vec<JournalEntry>,
) -> Result<Vec<Journal>, Fail>
    ensures { IfOk result (λ js. js.items ≡ record { node = 0; entries = first.items } ∷ record { node = 1; entries = second.items } ∷ []) }
{
    let mut journals = Vec::new(alloc);
    journals.push(Journal {
        node: 0,
        entries: Items::new(first),
    })?;
    journals.push(Journal {
        node: 1,
        entries: Items::new(second),
    })?;
    Ok(journals)
}

/// The record of `b`.
fn b(alloc: Global) -> Result<Key, Fail>
    ensures { IfOk result (λ k. k ≡ codes "b") }
{
    Ok(Key::new(alloc, b"b")?)
}

/// The record of `d`.
fn d(alloc: Global) -> Result<Key, Fail>
    ensures { IfOk result (λ k. k ≡ codes "d") }
{
    Ok(Key::new(alloc, b"d")?)
}

/// Node 0 is asked for the record of `b`.
fn asked_b(alloc: Global) -> Result<JournalEntry, Fail>
    ensures { IfOk result (λ x. x ≡ worked.noted (event.Arrive worked.asks) (out.Send worked.recalls)) }
{
    let key = b(alloc)?;
    let again = b(alloc)?;
    noted(
        alloc,
        Event::Arrive(asks(key, 1)),
        Out::Send(recalls(again, 1)),
    )
}

/// Node 0 is asked for the record of `d`.
fn asked_d(alloc: Global) -> Result<JournalEntry, Fail>
    ensures { IfOk result (λ x. x ≡ worked.noted (event.Arrive crossed.asks_too) (out.Send crossed.recalls_too)) }
{
    let key = d(alloc)?;
    let again = d(alloc)?;
    noted(
        alloc,
        Event::Arrive(asks(key, 2)),
        Out::Send(recalls(again, 2)),
    )
}

/// A client of node 1 writes the record of `b`.
fn writes_b(alloc: Global) -> Result<JournalEntry, Fail>
    ensures { IfOk result (λ x. x ≡ worked.noted (event.Client 1 (op.Write 1 (codes "b") (codes "y"))) (out.Send worked.asks)) }
{
    let key = b(alloc)?;
    let again = b(alloc)?;
    let event = writes(alloc, 1, key, b"y")?;
    noted(alloc, event, Out::Send(asks(again, 1)))
}

/// A client of node 1 writes the record of `d`.
fn writes_d(alloc: Global) -> Result<JournalEntry, Fail>
    ensures { IfOk result (λ x. x ≡ worked.noted (event.Client 2 (op.Write 1 (codes "d") (codes "z"))) (out.Send crossed.asks_too)) }
{
    let key = d(alloc)?;
    let again = d(alloc)?;
    let event = writes(alloc, 2, key, b"z")?;
    noted(alloc, event, Out::Send(asks(again, 2)))
}

fn straight(alloc: Global) -> Result<Vec<Journal>, Fail>
    ensures { IfOk result (λ js. js.items ≡ straight_journals) }
{
    let mut first = Vec::new(alloc);
    first.push(asked_b(alloc)?)?;
    let mut second = Vec::new(alloc);
    second.push(writes_b(alloc)?)?;
    pair(alloc, first, second)
}

fn unsent(alloc: Global) -> Result<Vec<Journal>, Fail>
    ensures { IfOk result (λ js. js.items ≡ unsent_journals) }
{
    let mut first = Vec::new(alloc);
    first.push(JournalEntry {
        event: Event::Arrive(message(1, 0, Msg::FreezeAck)),
        outs: Items::new(Vec::new(alloc)),
    })?;
    pair(alloc, first, Vec::new(alloc))
}

fn crossed(alloc: Global) -> Result<Vec<Journal>, Fail>
    ensures { IfOk result (λ js. js.items ≡ crossed_journals) }
{
    let mut first = Vec::new(alloc);
    first.push(asked_d(alloc)?)?;
    first.push(asked_b(alloc)?)?;
    first.push(asked_b(alloc)?)?;
    let mut second = Vec::new(alloc);
    second.push(writes_b(alloc)?)?;
    second.push(writes_d(alloc)?)?;
    pair(alloc, first, second)
}

fn told_by(step: &Step) -> Told {
    match step {
        Step::Client { node, .. } => Told::Asks(*node),
        Step::Deliver(number) => Told::Delivers(*number),
        Step::Repeat(number) => Told::Repeats(*number),
        _ => Told::Other,
    }
}

/// What is told of the join of journals.
fn told_of(
    alloc: Global,
    config: &Config,
    table: &CallTable,
    journals: &[Journal],
) -> Result<Vec<Told>, Fail>
    requires { MayJoin config.now (rules_of table.now) journals.now }
{
    let mut all = Vec::new(alloc);
    match join(alloc, config, table, journals) {
        Ok(steps) => for step in &steps {
            all.push(told_by(step))?;
        },
        Err(JoinFault::Stuck(counts)) => for count in counts.as_slice() {
            all.push(Told::Most(*count))?;
        },
        Err(JoinFault::NoMemory) => all.push(Told::Other)?,
    }
    Ok(all)
}

/// What is told of the join of these journals.
#[tactic(auto, using(crate::proofs::Joinable::straight_may, crate::proofs::Joinable::unsent_may, crate::proofs::Joinable::crossed_may))]
fn joined(alloc: Global, case: Case) -> Result<Vec<Told>, Fail> {
    let config = config(alloc)?;
    let table = CallTable::new(alloc);
    match case {
        Case::Straight => {
            let journals = straight(alloc)?;
            told_of(alloc, &config, &table, journals.as_slice())
        }
        Case::Unsent => {
            let journals = unsent(alloc)?;
            told_of(alloc, &config, &table, journals.as_slice())
        }
        Case::Crossed => {
            let journals = crossed(alloc)?;
            told_of(alloc, &config, &table, journals.as_slice())
        }
    }
}

#[test]
fn journals_are_joined_or_stuck(rt: HostRuntime) -> Result<(), Fail> {
    let alloc = rt.alloc();
    let cases: [(Case, &[Told]); 3] = [
        (Case::Straight, &[Told::Asks(1), Told::Delivers(1)]),
        (Case::Unsent, &[Told::Most(0), Told::Most(0)]),
        (
            Case::Crossed,
            &[
                Told::Asks(1),
                Told::Asks(1),
                Told::Delivers(2),
                Told::Delivers(1),
                Told::Repeats(1),
            ],
        ),
    ];
    for (case, wanted) in cases {
        let got = joined(alloc, case)?;
        assert!(rt; got.as_slice() == wanted);
    }
    Ok(())
}
