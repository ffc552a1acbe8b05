//! What pieces give, call by call, with ample memory.
use ct_frame::frame::Frame;
use ct_wire_link::readers::Readers;
use std::alloc::{AllocError, Global};
use std::test::Fail;

/// The frame of node 1 that asks node 0 for the lock of key `b` in database 1.
const CALL: [u8; 47] = [
    0, 0, 0, 0x2f, 0x43, 0x54, 0x44, 0x42, 0, 0, 0, 1, 0, 0, 0, 0, 0, 0, 0, 1, 0, 0, 0, 1, 0, 0, 0,
    0, 0, 0, 0, 1, 0, 0, 0, 0, 0, 0, 0, 1, 0, 0, 0, 1, 1, 0x62, 0,
];

/// The same with another magic.
const WRONG: [u8; 47] = [
    0, 0, 0, 0x2f, 0x43, 0x54, 0x44, 0x43, 0, 0, 0, 1, 0, 0, 0, 0, 0, 0, 0, 1, 0, 0, 0, 1, 0, 0, 0,
    0, 0, 0, 0, 1, 0, 0, 0, 0, 0, 0, 0, 1, 0, 0, 0, 1, 1, 0x62, 0,
];

/// Some bytes of these.
#[derive(Clone, Copy)]
enum Bytes {
    Nothing,
    Call,
    Wrong,
    /// The first 20 bytes of the call, and those behind them.
    Front,
    Behind,
    CallTwice,
    CallThenWrong,
}

fn bytes_of(alloc: Global, which: Bytes) -> Result<Vec<u8>, AllocError> {
    let (front, behind) = CALL.as_slice().split_at(20);
    let mut bytes = Vec::new(alloc);
    match which {
        Bytes::Nothing => {}
        Bytes::Call => bytes.extend_from_slice(CALL.as_slice())?,
        Bytes::Wrong => bytes.extend_from_slice(WRONG.as_slice())?,
        Bytes::Front => bytes.extend_from_slice(front)?,
        Bytes::Behind => bytes.extend_from_slice(behind)?,
        Bytes::CallTwice => {
            bytes.extend_from_slice(CALL.as_slice())?;
            bytes.extend_from_slice(CALL.as_slice())?;
        }
        Bytes::CallThenWrong => {
            bytes.extend_from_slice(CALL.as_slice())?;
            bytes.extend_from_slice(WRONG.as_slice())?;
        }
    }
    Ok(bytes)
}

/// A piece of a sender to a node, and what it gives: so many frames, and where a fault stands behind them.
type Row = (u32, u32, Bytes, usize, Option<u64>);

/// Is each of them from node 1 to node 0, of generation 1?
fn are_calls(frames: &[Frame]) -> bool {
    let mut same = true;
    for frame in frames {
        same = same && frame.sender == 1 && frame.receiver == 0 && frame.generation == 1;
    }
    same
}

/// Does the piece give what it is to give?
fn gives(alloc: Global, readers: &mut Readers, row: Row) -> Result<bool, Fail> {
    let (me, sender, which, count, broken) = row;
    let bytes = bytes_of(alloc, which)?;
    let arrived = readers.take(alloc, me, sender, bytes.as_slice())?;
    let same = arrived.frames.len() == count && arrived.broken == broken;
    Ok(same && are_calls(arrived.frames.as_slice()))
}

/// Does each piece give what it is to give, one after the other?
fn all_give(alloc: Global, rows: [Row; 3]) -> Result<bool, Fail> {
    let mut readers = Readers::new(alloc);
    for row in rows {
        if !gives(alloc, &mut readers, row)? {
            return Ok(false);
        }
    }
    Ok(true)
}

#[test]
fn two_frames_come_in_one_piece(rt: HostRuntime) -> Result<(), Fail> {
    let rows: [Row; 3] = [
        (0, 1, Bytes::CallTwice, 2, None),
        (0, 1, Bytes::Nothing, 0, None),
        (0, 1, Bytes::Call, 1, None),
    ];
    assert!(rt; all_give(rt.alloc(), rows)?);
    Ok(())
}

/// Bytes of another sender come between the pieces.
#[test]
fn a_frame_comes_in_two_pieces(rt: HostRuntime) -> Result<(), Fail> {
    let rows: [Row; 3] = [
        (0, 1, Bytes::Front, 0, None),
        (0, 2, Bytes::Front, 0, None),
        (0, 1, Bytes::Behind, 1, None),
    ];
    assert!(rt; all_give(rt.alloc(), rows)?);
    Ok(())
}

/// Other senders are read on.
#[test]
fn a_fault_behind_a_frame_comes_again(rt: HostRuntime) -> Result<(), Fail> {
    let rows: [Row; 3] = [
        (0, 1, Bytes::CallThenWrong, 1, Some(4)),
        (0, 1, Bytes::Call, 0, Some(4)),
        (0, 3, Bytes::Wrong, 0, Some(4)),
    ];
    assert!(rt; all_give(rt.alloc(), rows)?);
    Ok(())
}

#[test]
fn another_sender_is_named(rt: HostRuntime) -> Result<(), Fail> {
    let rows: [Row; 3] = [
        (0, 2, Bytes::Call, 0, Some(28)),
        (0, 1, Bytes::Call, 1, None),
        (0, 2, Bytes::Call, 0, Some(28)),
    ];
    assert!(rt; all_give(rt.alloc(), rows)?);
    Ok(())
}

/// Then both are named.
#[test]
fn another_receiver_is_named(rt: HostRuntime) -> Result<(), Fail> {
    let rows: [Row; 3] = [
        (3, 1, Bytes::Call, 0, Some(24)),
        (3, 2, Bytes::CallTwice, 0, Some(24)),
        (3, 1, Bytes::Nothing, 0, Some(24)),
    ];
    assert!(rt; all_give(rt.alloc(), rows)?);
    Ok(())
}

#[test]
fn byte_by_byte(rt: HostRuntime) -> Result<(), Fail> {
    let alloc = rt.alloc();
    let mut readers = Readers::new(alloc);
    for (place, byte) in CALL.iter().enumerate() {
        let arrived = readers.take(alloc, 0, 1, &[*byte])?;
        assert_eq!(rt; arrived.frames.len(), if place == 46 { 1 } else { 0 });
        assert_eq!(rt; arrived.broken, None);
    }
    for (place, byte) in WRONG.iter().enumerate() {
        let arrived = readers.take(alloc, 0, 1, &[*byte])?;
        assert!(rt; arrived.frames.is_empty());
        assert_eq!(rt; arrived.broken, if place < 7 { None } else { Some(4) });
    }
    Ok(())
}
