//! Frames read from bytes, whole and in pieces.
ghost use Rattle.std.specs.Prelude.{◌≡◌, ◌+◌, ◌<◌, ◌≤◌, ◌++◌, ℕ, List, [], IfOk, IfSome, length, nat_lt};
ghost use Rattle.ct_wire.specs.Cursor.{field_read, start, width, IsSound};
ghost use Rattle.ct_wire.specs.Decoding.{End, after_field, decoded, eaten, raw_length, Completes, Decodes, Feeds, Finds, IsLone, IsSoundProgress, IsSoundSpot, LeavesBelow, Reaches, Shortens};
ghost use Rattle.ct_wire.specs.declared.decode.Progress.TheVariants.{Amid};

use crate::cursor::{Cursor, Taken};
use crate::whole::{head_of, whole_body};
use ct_frame::frame::Frame;
use ct_values::items::Items;
use ct_values::memory::NoMemory;
use std::alloc::{AllocError, AllocFailed, Global};
use std::marker::Model;
use std::mem;
use thiserror::Error;

/// Why no frame is read.
#[derive(Clone, Copy, Debug, PartialEq, Eq, Error)]
pub enum WireFault {
    /// The input ends before or inside a field, and every whole field before keeps its rule.
    #[error("the input ends inside a frame")]
    Short,
    /// The whole field at this offset is the first that breaks its rule.
    #[error("a field that breaks its rule at {0}")]
    Malformed(u64),
    #[error("want of memory")]
    NoMemory,
}

impl From<NoMemory> for WireFault {
    ghost use Rattle.ct_wire.specs.declared.decode.WireFault.TheVariants.{NoMemory as Want};

    ghost from_gives = { λ _ e. e ≡ Want };

    fn from(_e: NoMemory) -> WireFault {
        WireFault::NoMemory
    }
}

/// Inside a frame: the field that comes next, and the bytes of it that have come.
#[derive(Debug, Drop)]
pub struct Spot {
    pub cursor: Cursor,
    pub raw: Items<u8>,
}

/// What bytes lead to.
#[derive(Debug, Drop)]
pub enum Event<'a> {
    /// More is to come.
    Waits(Spot),
    /// A frame of this length is complete, and these bytes stand behind it.
    Ends(Frame, u64, &'a [u8]),
    /// The field at this offset is the first that breaks its rule.
    Breaks(u64),
}

/// How far a stream of frames has been read.
#[derive(Debug, Drop)]
pub enum Progress {
    Amid(Spot),
    /// Nothing more is read.
    Failed(WireFault),
}

/// Where the fields that are whole lead, beside the cursor that takes them.
#[derive(Drop)]
pub(crate) enum Reached<'a> {
    /// These bytes of the next field have come.
    Rest(&'a [u8]),
    /// A frame of this length is complete, and these bytes stand behind it.
    Ends(Frame, u64, &'a [u8]),
    /// The field at this offset is the first that breaks its rule.
    Breaks(u64),
}

/// Takes the fields that are whole.
fn take_fields<'a>(
    alloc: Global,
    cursor: &mut Cursor,
    bytes: &'a [u8],
) -> Result<Reached<'a>, NoMemory>
    requires { IsSound cursor.old }
    ensures exact { IfOk result (λ reached. Reaches reached cursor.new (eaten cursor.old [] bytes.now)) }
    ensures shorter { IfOk result (λ reached. LeavesBelow reached (length bytes.now)) }
{
    let mut rest = cursor.take_row(alloc, bytes)?;
    'fields: while rest.len() as u64 >= cursor.width() {
        let (field, behind) = rest.split_at(cursor.width() as usize);
        match cursor.step(alloc, field)? {
            Taken::More => rest = cursor.take_row(alloc, behind)?,
            Taken::Whole(frame, length) => return Ok(Reached::Ends(frame, length, behind)),
            Taken::Malformed(offset) => return Ok(Reached::Breaks(offset)),
        }
    }
    Ok(Reached::Rest(rest))
}

/// Before a field of which these bytes have come.
fn spot_at(alloc: Global, cursor: Cursor, rest: &[u8]) -> Result<Spot, NoMemory>
    ensures { IfOk result (λ spot. spot ≡ record { cursor = cursor; raw = rest.now }) }
{
    let Ok(raw) = Vec::from_slice(alloc, rest) else {
        drop(cursor);
        return Err(NoMemory);
    };
    Ok(Spot {
        cursor,
        raw: Items::new(raw),
    })
}

/// What bytes lead to, where the fields of this cursor lead there.
fn event_of<'a>(alloc: Global, cursor: Cursor, reached: Reached<'a>) -> Result<Event<'a>, NoMemory>
    ensures exact { IfOk result (λ event. (e : End) → Reaches reached.entry cursor e → Finds event e) }
    ensures shorter { IfOk result (λ event. (bytes : List ℕ) → LeavesBelow reached.entry (length bytes) → Shortens event bytes) }
{
    match reached {
        Reached::Rest(rest) => Ok(Event::Waits(spot_at(alloc, cursor, rest)?)),
        Reached::Ends(frame, length, behind) => {
            drop(cursor);
            Ok(Event::Ends(frame, length, behind))
        }
        Reached::Breaks(offset) => {
            drop(cursor);
            Ok(Event::Breaks(offset))
        }
    }
}

/// Takes the fields that are whole, from this cursor on.
pub fn read_fields(alloc: Global, mut cursor: Cursor, bytes: &[u8]) -> Result<Event<'_>, NoMemory>
    requires { IsSound cursor }
    ensures exact { IfOk result (λ event. Finds event (eaten cursor [] bytes.now)) }
    ensures shorter { IfOk result (λ event. Shortens event bytes.now) }
{
    let Ok(reached) = take_fields(alloc, &mut cursor, bytes) else {
        drop(cursor);
        return Err(NoMemory);
    };
    event_of(alloc, cursor, reached)
}

/// Reads a frame from its first byte on, and at once what stands whole in the bytes.
pub fn read_frame(alloc: Global, bytes: &[u8]) -> Result<Event<'_>, NoMemory>
    ensures exact { IfOk result (λ event. Finds event (eaten start [] bytes.now)) }
    ensures shorter { IfOk result (λ event. Shortens event bytes.now) }
{
    let Some((head, rest)) = head_of(bytes) else {
        return read_fields(alloc, Cursor::start(alloc), bytes);
    };
    if let Some(found) = whole_body(alloc, head, rest)? {
        let length = u64::from(found.length);
        return Ok(Event::Ends(found.frame, length, found.rest));
    }
    read_fields(alloc, Cursor::behind(alloc, head), rest)
}

/// The frame that these bytes are, where it is read at once.
pub fn lone_frame(alloc: Global, bytes: &[u8]) -> Result<Option<Frame>, NoMemory>
    ensures { IfOk result (λ found. IfSome found (λ f. IsLone f (eaten start [] bytes.now))) }
{
    let Some((head, rest)) = head_of(bytes) else {
        return Ok(None);
    };
    let Some(found) = whole_body(alloc, head, rest)? else {
        return Ok(None);
    };
    if found.rest.is_empty() {
        return Ok(Some(found.frame));
    }
    drop(found);
    Ok(None)
}

/// The frame at the front of these bytes, and its length.
pub fn decode(alloc: Global, bytes: &[u8]) -> Result<(Frame, usize), WireFault>
    ensures { Decodes result (decoded bytes.now) }
{
    match read_frame(alloc, bytes)? {
        Event::Waits(spot) => {
            drop(spot);
            Err(WireFault::Short)
        }
        Event::Ends(frame, length, _) => Ok((frame, length as usize)),
        Event::Breaks(offset) => Err(WireFault::Malformed(offset)),
    }
}

/// Whether fewer bytes have come than the field lacks.
fn is_short(bytes: &[u8], lacking: usize) -> bool
    ensures { result ≡ nat_lt (length bytes.now) lacking }
{
    bytes.len() < lacking
}

/// Before a field of which some has come, and then these bytes.
fn spot_behind(cursor: Cursor, mut raw: Vec<u8>, bytes: &[u8]) -> Result<Spot, NoMemory>
    ensures { IfOk result (λ spot. spot ≡ record { cursor = cursor; raw = raw.items ++ bytes.now }) }
{
    let Ok(()) = raw.extend_from_slice(bytes) else {
        drop(cursor);
        return Err(NoMemory);
    };
    Ok(Spot {
        cursor,
        raw: Items::new(raw),
    })
}

/// Takes a field of which some has come, and of which these bytes at the front are the rest, and then the fields that are whole.
fn take_filled<'a>(
    alloc: Global,
    cursor: &mut Cursor,
    mut raw: Vec<u8>,
    front: &[u8],
    behind: &'a [u8],
) -> Result<Reached<'a>, NoMemory>
    requires { IsSound cursor.old }
    ensures exact { IfOk result (λ reached. Reaches reached cursor.new (after_field (field_read cursor.old (raw.items ++ front.now)) behind.now (λ next. eaten next [] behind.now))) }
    ensures shorter { IfOk result (λ reached. LeavesBelow reached (length behind.now + 1)) }
{
    raw.extend_from_slice(front)?;
    match cursor.step(alloc, raw.as_slice())? {
        Taken::More => take_fields(alloc, cursor, behind),
        Taken::Whole(frame, length) => Ok(Reached::Ends(frame, length, behind)),
        Taken::Malformed(offset) => Ok(Reached::Breaks(offset)),
    }
}

/// Goes on with a frame of which some has come, and some of its next field.
fn fill(
    alloc: Global,
    mut cursor: Cursor,
    raw: Vec<u8>,
    bytes: &[u8],
) -> Result<Event<'_>, NoMemory>
    requires sound { IsSound cursor }
    requires part { length raw.items < width cursor }
    ensures exact { IfOk result (λ event. Finds event (eaten cursor raw.items bytes.now)) }
    ensures shorter { IfOk result (λ event. Shortens event bytes.now) }
{
    let lacking = (cursor.width() - raw.len() as u64) as usize;
    if is_short(bytes, lacking) {
        return Ok(Event::Waits(spot_behind(cursor, raw, bytes)?));
    }
    let (front, behind) = bytes.split_at(lacking);
    let Ok(reached) = take_filled(alloc, &mut cursor, raw, front, behind) else {
        drop(cursor);
        return Err(NoMemory);
    };
    event_of(alloc, cursor, reached)
}

/// Goes on with a frame of which some has come.
pub fn resume(alloc: Global, spot: Spot, bytes: &[u8]) -> Result<Event<'_>, NoMemory>
    requires { IsSoundSpot spot }
    ensures exact { IfOk result (λ event. Finds event (eaten spot.cursor spot.raw bytes.now)) }
    ensures shorter { IfOk result (λ event. Shortens event bytes.now) }
{
    let Spot { cursor, raw } = spot;
    if !raw.is_empty() {
        return fill(alloc, cursor, raw.into_vec(), bytes);
    }
    if cursor.is_fresh() {
        drop(cursor);
        return read_frame(alloc, bytes);
    }
    read_fields(alloc, cursor, bytes)
}
