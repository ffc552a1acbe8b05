//! Lines told from the journals of two nodes, with ample memory.
use ct_frame::event::{Event, Note, Out};
use ct_frame::frame::{Frame, Msg};
use ct_journal::journal::{Journal, JournalEntry};
use ct_schedule_text::telling::{Lines, lines_of};
use ct_values::client::{Answer, ClientOp, Why};
use ct_values::config::{Config, DbDecl, DbKind};
use ct_values::items::Items;
use ct_values::memory::NoMemory;
use ct_values::name::DbName;
use std::alloc::Global;
use std::test::Fail;

/// What comes to a node.
#[derive(Clone, Copy)]
enum Comes {
    /// A client call of this number.
    Call(u64),
    /// A message: the sender, and its number.
    Message(u32, u64),
    /// A round of both nodes, with this ticket.
    Round(u64),
    Retry,
}

/// What the node does then.
#[derive(Clone, Copy)]
enum Does {
    /// It sends a message: the receiver, and its number.
    Sends(u32, u64),
    /// It answers this call: the commit of this number stands.
    Commits(u64, u64),
    /// It refuses this call.
    Refuses(u64, Why),
    /// It tells that this generation is installed.
    Installs(u64),
}

/// Two nodes with the databases `g_lock` and `p`.
fn config(alloc: Global) -> Result<Config, Fail> {
    let mut dbs = Vec::new(alloc);
    dbs.push(DbDecl {
        name: DbName::new(alloc, b"p")?,
        kind: DbKind::Persistent,
    })?;
    Ok(Config::new(alloc, 2, dbs, Vec::new(alloc))?)
}

fn frame(sender: u32, receiver: u32, number: u64) -> Frame {
    Frame {
        generation: 1,
        sender,
        receiver,
        msg: Msg::PAck { db: 1, seq: number },
    }
}

fn event(alloc: Global, node: u32, comes: Comes) -> Result<Event, NoMemory> {
    match comes {
        Comes::Call(call) => Ok(Event::Client {
            call,
            op: ClientOp::Commit {
                db: 1,
                writes: Items::empty(alloc),
            },
        }),
        Comes::Message(sender, number) => Ok(Event::Arrive(frame(sender, node, number))),
        Comes::Round(ticket) => Ok(Event::BeginRound {
            ticket,
            members: Items::new(Vec::from_array(alloc, [0, 1])?),
        }),
        Comes::Retry => Ok(Event::Retry),
    }
}

fn out(node: u32, does: Does) -> Out {
    match does {
        Does::Sends(receiver, number) => Out::Send(frame(node, receiver, number)),
        Does::Commits(call, seq) => Out::Answer {
            call,
            answer: Answer::Committed(seq),
        },
        Does::Refuses(call, why) => Out::Answer {
            call,
            answer: Answer::Refused(why),
        },
        Does::Installs(generation) => Out::Note(Note::Installed(generation)),
    }
}

fn add_outs(outs: &mut Items<Out>, node: u32, does: &[Does]) -> Result<(), NoMemory> {
    for one in does {
        outs.push(out(node, *one))?;
    }
    Ok(())
}

fn entry(alloc: Global, node: u32, comes: Comes, does: &[Does]) -> Result<JournalEntry, NoMemory> {
    let mut outs = Items::empty(alloc);
    add_outs(&mut outs, node, does)?;
    let event = event(alloc, node, comes)?;
    Ok(JournalEntry { event, outs })
}

fn add_entry(
    alloc: Global,
    entries: &mut Items<JournalEntry>,
    node: u32,
    comes: Comes,
    does: &[Does],
) -> Result<(), NoMemory> {
    entries.push(entry(alloc, node, comes, does)?)?;
    Ok(())
}

fn add_entries(
    alloc: Global,
    entries: &mut Items<JournalEntry>,
    node: u32,
    given: &[(Comes, &[Does])],
) -> Result<(), NoMemory> {
    for (comes, does) in given {
        add_entry(alloc, entries, node, *comes, does)?;
    }
    Ok(())
}

fn journal(alloc: Global, node: u32, given: &[(Comes, &[Does])]) -> Result<Journal, NoMemory> {
    let mut entries = Items::empty(alloc);
    add_entries(alloc, &mut entries, node, given)?;
    Ok(Journal { node, entries })
}

fn add_journal(journals: &mut Vec<Journal>, journal: Journal) -> Result<(), NoMemory> {
    journals.push(journal)?;
    Ok(())
}

fn both(
    alloc: Global,
    first: &[(Comes, &[Does])],
    second: &[(Comes, &[Does])],
) -> Result<Vec<Journal>, NoMemory> {
    let mut journals = Vec::new(alloc);
    add_journal(&mut journals, journal(alloc, 0, first)?)?;
    add_journal(&mut journals, journal(alloc, 1, second)?)?;
    Ok(journals)
}

/// What is told of the journals of two nodes in this order.
fn told(
    alloc: Global,
    first: &[(Comes, &[Does])],
    second: &[(Comes, &[Does])],
    order: &[u32],
) -> Result<Option<Lines>, Fail> {
    let config = config(alloc)?;
    let journals = both(alloc, first, second)?;
    Ok(lines_of(alloc, &config, journals.as_slice(), order)?)
}

/// Are these lines told, and so many messages?
fn is_told(lines: Option<Lines>, text: &[u8], sent: u64) -> bool {
    match lines {
        Some(lines) => lines.text.as_slice() == text && lines.sent == sent,
        None => false,
    }
}

/// How many messages are told of, where all is told.
fn sent_of(lines: Option<Lines>) -> Option<u64> {
    match lines {
        Some(lines) => Some(lines.sent),
        None => None,
    }
}

const TOLD: &[u8] = b"frame 1 0 1 1 pack p 5\n\
    frame 2 1 0 1 pack p 6\n\
    answer 2 refused no-such-db\n\
    answer 1 committed 9\n\
    ticket 2 1\n\
    yielded 1\n\
    ticket 3 0\n\
    frame 3 0 1 1 pack p 7\n\
    installed 0 3\n\
    ticket 4 0\n\
    answer 3 refused not-serving\n";

#[test]
fn lines_of_two_nodes(rt: HostRuntime) -> Result<(), Fail> {
    let first: [(Comes, &[Does]); 5] = [
        (Comes::Call(1), &[Does::Sends(1, 5)]),
        (Comes::Message(1, 6), &[Does::Commits(1, 9)]),
        (Comes::Round(3), &[Does::Sends(1, 7), Does::Installs(3)]),
        (Comes::Round(4), &[]),
        (Comes::Call(2), &[Does::Refuses(2, Why::NotServing)]),
    ];
    let second: [(Comes, &[Does]); 3] = [
        (Comes::Message(0, 5), &[Does::Sends(0, 6)]),
        (Comes::Call(1), &[Does::Refuses(1, Why::NoSuchDb)]),
        (Comes::Round(2), &[]),
    ];
    let lines = told(rt.alloc(), &first, &second, &[0, 1, 1, 0, 1, 0, 0, 0])?;
    assert!(rt; is_told(lines, TOLD, 3));
    Ok(())
}

#[test]
fn entries_that_do_not_tell_all(rt: HostRuntime) -> Result<(), Fail> {
    let round: (Comes, &[Does]) = (Comes::Round(2), &[]);
    let asked: (Comes, &[Does]) = (Comes::Call(1), &[Does::Sends(0, 1)]);
    let refused: (Comes, &[Does]) = (Comes::Call(2), &[Does::Refuses(2, Why::Full)]);
    let pending: (Comes, &[Does]) = (Comes::Call(2), &[Does::Refuses(2, Why::CallPending(1))]);
    let answered: (Comes, &[Does]) = (Comes::Message(0, 1), &[Does::Commits(1, 1)]);
    let retry: (Comes, &[Does]) = (Comes::Retry, &[]);
    // The entries of node 0, the order, and how many messages are told of where all is told.
    let cases: [(&[(Comes, &[Does])], &[u32], Option<u64>); 9] = [
        (&[], &[], Some(0)),
        (&[round], &[0], Some(0)),
        (&[asked, refused, answered], &[0, 0, 0], Some(1)),
        // A call is left open.
        (&[asked, refused, answered], &[0, 0], None),
        // An answer names another call.
        (&[asked, pending, answered], &[0, 0, 0], None),
        // The call of an answer is not open.
        (&[answered], &[0], None),
        // A node has no entry left.
        (&[round], &[0, 0], None),
        // There is no such node.
        (&[round], &[0, 2], None),
        // It is no event of a plan.
        (&[retry], &[0], None),
    ];
    for (first, order, wanted) in cases {
        assert!(rt; sent_of(told(rt.alloc(), first, &[], order)?) == wanted);
    }
    Ok(())
}
