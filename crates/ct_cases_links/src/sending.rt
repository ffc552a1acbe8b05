//! What a link in memory has sent, with ample memory.
ghost use Rattle.std.specs.Prelude.{◌≡◌};
ghost use Rattle.std.specs.List.{list_all};
ghost use Rattle.ct_wire_link.specs.Sending.{is_sendable};

use ct_frame::event::{Note, Out};
use ct_frame::frame::{CallKind, Frame, Msg, TableRow};
use ct_frame_fields::fields::well_formed;
use ct_outside::link::Piece;
use ct_outside::memory_link::MemLink;
use ct_values::boxed::BoxedItems;
use ct_values::client::Answer;
use ct_values::items::Items;
use ct_values::key::Key;
use ct_values::value::Value;
use ct_wire_link::fault::SendFault;
use ct_wire_link::send::send_all;
use std::alloc::Global;
use std::test::Fail;

/// The frame of node 1 that asks a node for the lock of key `b` in database 1.
fn call(alloc: Global, receiver: u32) -> Result<Frame, Fail> {
    Ok(Frame {
        generation: 1,
        sender: 1,
        receiver,
        msg: Msg::Call {
            db: 1,
            key: Key::new(alloc, b"b")?,
            request: 1,
            kind: CallKind::Lock,
        },
    })
}

fn a_row(alloc: Global, number: u8, text: &[u8]) -> Result<TableRow, Fail> {
    let key = Key::new(alloc, &[number])?;
    let value = Value::new(alloc, text)?;
    Ok(TableRow {
        db: 0,
        key,
        rsn: 1,
        value,
        master: None,
    })
}

/// 70 rows of 1,020 bytes.
fn rows(alloc: Global) -> Result<Items<TableRow>, Fail> {
    let text = vec![in alloc; 0x78u8; 1000]?;
    let mut table = Vec::new(alloc);
    for number in 0..70u8 {
        table.push(a_row(alloc, number, text.as_slice())?)?;
    }
    Ok(Items::new(table))
}

fn a_reply(alloc: Global) -> Result<Msg, Fail> {
    let table = BoxedItems::new(rows(alloc)?)?;
    let ptables = BoxedItems::new(Items::empty(alloc))?;
    let addresses = BoxedItems::new(Items::empty(alloc))?;
    Ok(Msg::PullReply {
        vbase: 1,
        pbase: 1,
        table,
        ptables,
        addresses,
    })
}

/// A frame of node 1 with 70 rows of 1,020 bytes, 71,468 in all.
fn reply(alloc: Global, receiver: u32) -> Result<Frame, Fail> {
    let msg = a_reply(alloc)?;
    Ok(Frame {
        generation: 1,
        sender: 1,
        receiver,
        msg,
    })
}

fn is_sendable(out: &Out) -> bool
    ensures { result ≡ is_sendable out.now }
{
    match out {
        Out::Send(frame) => well_formed(frame),
        Out::Answer { .. } => true,
        Out::Note(_) => true,
    }
}

fn are_sendable(outs: &[Out]) -> bool
    ensures { result ≡ list_all is_sendable outs.now }
{
    outs.iter().all(is_sendable)
}

/// What the call is on a link to node 0.
const CALL: [u8; 47] = [
    0, 0, 0, 0x2f, 0x43, 0x54, 0x44, 0x42, 0, 0, 0, 3, 0, 0, 0, 0, 0, 0, 0, 1, 0, 0, 0, 1, 0, 0, 0,
    0, 0, 0, 0, 1, 0, 0, 0, 0, 0, 0, 0, 1, 0, 0, 0, 1, 1, 0x62, 0,
];

fn add_call(alloc: Global, outs: &mut Vec<Out>, receiver: u32) -> Result<(), Fail> {
    outs.push(Out::Send(call(alloc, receiver)?))?;
    Ok(())
}

fn add_reply(alloc: Global, outs: &mut Vec<Out>, receiver: u32) -> Result<(), Fail> {
    outs.push(Out::Send(reply(alloc, receiver)?))?;
    Ok(())
}

/// What node 1 does: it answers, calls node 0, notes, replies to node 2, and calls node 3.
fn all_outs(alloc: Global) -> Result<Vec<Out>, Fail> {
    let mut outs = Vec::new(alloc);
    outs.push(Out::Answer {
        call: 1,
        answer: Answer::Unlocked,
    })?;
    add_call(alloc, &mut outs, 0)?;
    outs.push(Out::Note(Note::Thawed(1)))?;
    add_reply(alloc, &mut outs, 2)?;
    add_call(alloc, &mut outs, 3)?;
    Ok(outs)
}

/// Are the frames sent with this answer?
fn are_sent(alloc: Global, link: &mut MemLink, outs: &[Out], want: Result<(), SendFault>) -> bool {
    are_sendable(outs) && send_all(alloc, link, outs) == want
}

/// Are they the pieces of the frames, of which the last may be missing?
fn are_pieces(sent: &[Piece]) -> bool {
    let pieces = [(0, 47), (2, 65_536), (2, 5_932), (3, 47)];
    let mut same = true;
    for (piece, (node, size)) in sent.iter().zip(pieces) {
        same = same && piece.node == node && piece.bytes.len() == size;
    }
    same
}

/// Is the first piece the call, where there is one?
fn begins_with_call(sent: &[Piece]) -> bool {
    match sent.first() {
        Some(first) => first.bytes.as_slice() == CALL.as_slice(),
        None => true,
    }
}

fn has_sent(link: &MemLink, count: usize) -> bool {
    let sent = link.sent();
    sent.len() == count && are_pieces(sent) && begins_with_call(sent)
}

/// Is this answered, and are so many pieces sent, where these calls of the link fail?
fn sends_so(
    alloc: Global,
    fail_at: &[u64],
    want: Result<(), SendFault>,
    count: usize,
) -> Result<bool, Fail> {
    let outs = all_outs(alloc)?;
    let fail_at = Vec::from_slice(alloc, fail_at)?;
    let mut link = MemLink::new(alloc, Vec::new(alloc), fail_at);
    Ok(are_sent(alloc, &mut link, outs.as_slice(), want) && has_sent(&link, count))
}

#[test]
fn frames_go_out_in_pieces(rt: HostRuntime) -> Result<(), Fail> {
    let alloc = rt.alloc();
    assert!(rt; sends_so(alloc, &[], Ok(()), 4)?);
    assert!(rt; sends_so(alloc, &[5], Ok(()), 4)?);
    Ok(())
}

#[test]
fn a_link_that_fails_ends_it(rt: HostRuntime) -> Result<(), Fail> {
    let alloc = rt.alloc();
    let failed = Err(SendFault::Link);
    assert!(rt; sends_so(alloc, &[1], failed, 0)?);
    assert!(rt; sends_so(alloc, &[2], failed, 1)?);
    assert!(rt; sends_so(alloc, &[3, 4], failed, 2)?);
    assert!(rt; sends_so(alloc, &[4], failed, 3)?);
    Ok(())
}
