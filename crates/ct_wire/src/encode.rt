//! Frames written as bytes, whole and in pieces.
ghost use Rattle.std.specs.Prelude.{◌≡◌, ◌++◌, ◌+◌, ◌<◌, ◌≤◌, OnOk, IfOk, IsTrue, length, take, drop, List, ℕ};
ghost use Rattle.ct_frame.specs.Fields.{well_formed};
ghost use Rattle.ct_wire_fields.specs.Version.{newest};
ghost use Rattle.ct_wire.specs.Spelling.{front, header, names, u32};
ghost use Rattle.ct_wire.specs.Writing.{Encodes, GivesPiece, frame_length, piece_size};

use crate::body::{operation, put_body, request};
use crate::put::{put_u32, put_u64};
use ct_frame::frame::{Frame, Msg, TableRow};
use ct_values::memory::NoMemory;
use ct_wire_fields::version::Version;
use std::alloc::{AllocError, AllocFailed, Global};
use std::marker::Model;
use thiserror::Error;

/// A frame has at most so many bytes.
const MOST: u64 = 268_435_456;

/// The bytes `CTDB`.
const MAGIC: u32 = 0x4354_4442;

/// Every piece but the last has so many bytes.
const PIECE: usize = 65_536;

/// Why a frame is not written.
#[derive(Clone, Copy, Debug, PartialEq, Eq, Error)]
pub enum EncodeFault {
    /// It would have so many bytes, above what a frame may have.
    #[error("a frame of {0} bytes")]
    TooLong(u64),
    #[error("want of memory")]
    NoMemory,
}

impl From<NoMemory> for EncodeFault {
    ghost use Rattle.ct_wire.specs.declared.encode.EncodeFault.TheVariants.{NoMemory as Want};

    ghost from_gives = { λ _ e. e ≡ Want };

    fn from(_e: NoMemory) -> EncodeFault {
        EncodeFault::NoMemory
    }
}

impl From<AllocError> for EncodeFault {
    ghost use Rattle.ct_wire.specs.declared.encode.EncodeFault.TheVariants.{NoMemory as Want};

    ghost from_gives = { λ _ e. e ≡ Want };

    fn from(_e: AllocError) -> EncodeFault {
        EncodeFault::NoMemory
    }
}

impl<T: Drop> From<AllocFailed<T>> for EncodeFault {
    ghost use Rattle.ct_wire.specs.declared.encode.EncodeFault.TheVariants.{NoMemory as Want};

    ghost from_gives = { λ _ e. e ≡ Want };

    fn from(_e: AllocFailed<T>) -> EncodeFault {
        EncodeFault::NoMemory
    }
}

fn put_front(out: &mut Vec<u8>, frame: &Frame, size: u32) -> Result<(), NoMemory>
    ensures { OnOk result (out.new.items ≡ out.old.items ++ front newest frame.now size) }
{
    put_u32(out, size)?;
    put_u32(out, MAGIC)?;
    put_u32(out, Version::newest().number())?;
    put_u64(out, frame.generation)
}

fn put_names(out: &mut Vec<u8>, frame: &Frame) -> Result<(), NoMemory>
    ensures { OnOk result (out.new.items ≡ out.old.items ++ names frame.now) }
{
    put_u32(out, operation(&frame.msg))?;
    put_u32(out, frame.receiver)?;
    put_u32(out, frame.sender)?;
    put_u64(out, request(&frame.msg))
}

fn put_header(out: &mut Vec<u8>, frame: &Frame, size: u32) -> Result<(), NoMemory>
    ensures { OnOk result (out.new.items ≡ out.old.items ++ header newest frame.now size) }
{
    put_front(out, frame, size)?;
    put_names(out, frame)
}

/// How many bytes the rows of a table have.
fn rows_room(table: &[TableRow]) -> usize {
    let mut room = 0usize;
    for row in table {
        room = room.saturating_add(19 + row.key.bytes().len() + row.value.bytes().len());
    }
    room
}

/// About so many bytes a frame of this message has. It is only what memory is taken for at first.
fn room(msg: &Msg) -> usize {
    match msg {
        Msg::PullReply { table, .. } => rows_room(table.as_slice()).saturating_add(256),
        Msg::Push { table, .. } => rows_room(table.as_slice()).saturating_add(256),
        _ => 256,
    }
}

/// Writes the length over the first four bytes.
fn put_length(out: &mut Vec<u8>, size: u32)
    requires { 4 ≤ length out.old.items }
    ensures { out.new.items ≡ u32 size ++ drop 4 out.old.items }
{
    let bytes = size.to_be_bytes();
    out[0] = bytes[0];
    out[1] = bytes[1];
    out[2] = bytes[2];
    out[3] = bytes[3];
}

fn spelling(alloc: Global, frame: &Frame) -> Result<Vec<u8>, EncodeFault>
    ensures { Encodes (λ v. v.items) result frame.now }
{
    let mut out = Vec::with_capacity(alloc, room(&frame.msg))?;
    put_header(&mut out, frame, 0)?;
    put_body(&mut out, &frame.msg)?;
    let size = out.len() as u64;
    if size > MOST {
        return Err(EncodeFault::TooLong(size));
    }
    put_length(&mut out, size as u32);
    Ok(out)
}

/// The one spelling of a frame in the newest version.
pub fn encode(alloc: Global, frame: &Frame) -> Result<Vec<u8>, EncodeFault>
    requires { IsTrue (well_formed frame.now) }
    ensures { Encodes (λ v. v.items) result frame.now }
{
    spelling(alloc, frame)
}

/// The first 65,536 bytes, or all where there are fewer.
fn first_piece(rest: &[u8]) -> &[u8]
    ensures { result.now ≡ take piece_size rest.now }
{
    if rest.len() <= PIECE {
        return rest;
    }
    let (piece, _) = rest.split_at(PIECE);
    piece
}

/// A frame that is written in pieces. It is seen as the bytes that are still to come.
#[derive(Debug, Drop)]
pub struct Encoder {
    bytes: Vec<u8>,
    given: usize,
}

impl Model for Encoder {
    ghost use Rattle.std.specs.Prelude.{List, ℕ, drop, length, ◌≤◌};

    ghost Value = { List ℕ };

    ghost view = { λ a. drop a.given a.bytes.items };

    ghost invariant = { λ a. a.given ≤ length a.bytes.items };
}

impl Encoder {
    /// All of the frame's spelling is still to come.
    pub fn new(alloc: Global, frame: &Frame) -> Result<Encoder, EncodeFault>
        requires { IsTrue (well_formed frame.now) }
        ensures { Encodes (λ rest. rest) result frame.now }
    {
        let bytes = spelling(alloc, frame)?;
        Ok(Encoder { bytes, given: 0 })
    }

    /// The next piece. Every piece but the last has 65,536 bytes, and the last from 1 to 65,536. None comes exactly
    /// after the last. Without memory nothing changes.
    pub fn next_piece(&mut self, alloc: Global) -> Result<Option<Vec<u8>>, NoMemory>
        ensures { GivesPiece result self.old self.new }
    {
        let (_, rest) = self.bytes.as_slice().split_at(self.given);
        let left = rest.len();
        if left == 0 {
            return Ok(None);
        }
        let front = first_piece(rest);
        let count = front.len();
        let piece = Vec::from_slice(alloc, front)?;
        self.gives(count);
        Ok(Some(piece))
    }

    /// So many bytes more are given.
    #[tactic(auto, using(crate::proofs::Lists::behind_more, crate::proofs::Lists::more_fits))]
    fn gives(&mut self, count: usize)
        requires { count ≤ length self.old }
        ensures { self.new ≡ drop count self.old }
    {
        self.given += count;
    }
}

/// The length that a frame's first four bytes name. None exactly where there are fewer. It is for callers of the library: the
/// decoder reads the length with the other fields.
pub fn frame_length(bytes: &[u8]) -> Option<u32>
    ensures { result ≡ frame_length bytes.now }
{
    if bytes.len() < 4 {
        return None;
    }
    Some(u32::from_be_bytes([bytes[0], bytes[1], bytes[2], bytes[3]]))
}
