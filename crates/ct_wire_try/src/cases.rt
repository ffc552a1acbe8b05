//! Reads bytes as frames and tells what comes of them, for comparison with a reader that was written apart. Each line of
//! standard input is words and some bytes in hexadecimal:
//!
//! - `whole BYTES`: what they begin with.
//! - `pieces N BYTES`: the frames of a stream that comes in pieces of N bytes, and then in one of none, the fault at each
//!   piece that gave one, and how many bytes of a field were kept at most.
//! - `fronts BYTES`: the same as `whole` for each proper front, briefly.
//! - `places N BYTES`: the same with each byte replaced by N, one at a time.
//!
//! A frame is told by its length and its spelling in the newest version, briefly by a hash of that. After `whole` it is
//! spelled in pieces that are joined, else at once.
ghost use Rattle.std.specs.Prelude.{◌≤◌};

use anyhow::{Context, Result, bail, ensure};
use ct_frame::frame::Frame;
use ct_frame_fields::fields::well_formed;
use ct_wire::decode::{WireFault, decode};
use ct_wire::decoder::Decoder;
use ct_wire::encode::{Encoder, encode};
use std::alloc::Global;
use std::fmt::Write;

fn spelled(alloc: Global, frame: &Frame) -> Result<Vec<u8>> {
    ensure!(well_formed(frame), "a frame that is not well formed");
    Ok(encode(alloc, frame)?)
}

/// The same, taken in pieces and joined.
fn joined(alloc: Global, frame: &Frame) -> Result<Vec<u8>> {
    ensure!(well_formed(frame), "a frame that is not well formed");
    let mut encoder = Encoder::new(alloc, frame)?;
    let mut bytes = Vec::new(alloc);
    for _ in 0..4097 {
        match encoder.next_piece(alloc)? {
            Some(piece) => bytes.extend_from_slice(piece.as_slice())?,
            None => return Ok(bytes),
        }
    }
    bail!("too many pieces")
}

fn hash(bytes: &[u8]) -> u32 {
    let mut value = 0u32;
    for byte in bytes {
        value = value.wrapping_mul(31).wrapping_add(u32::from(*byte));
    }
    value
}

fn tell_fault(out: &mut String, fault: WireFault) -> Result<()> {
    match fault {
        WireFault::Short => out.push_str("short")?,
        WireFault::Malformed(offset) => write!(out, "malformed {offset}")?,
        WireFault::NoMemory => bail!("want of memory"),
    }
    Ok(())
}

fn tell_bytes(alloc: Global, out: &mut String, bytes: &[u8]) -> Result<()> {
    let text = hex::encode(alloc, bytes)?;
    out.push_str("frame ")?;
    out.push_str(text.as_str())?;
    Ok(())
}

fn tell_frame(alloc: Global, out: &mut String, frame: &Frame) -> Result<()> {
    let bytes = spelled(alloc, frame)?;
    tell_bytes(alloc, out, bytes.as_slice())
}

fn tell_whole(alloc: Global, out: &mut String, frame: &Frame, length: usize) -> Result<()> {
    write!(out, "{length} ")?;
    let bytes = joined(alloc, frame)?;
    tell_bytes(alloc, out, bytes.as_slice())
}

fn whole(alloc: Global, out: &mut String, bytes: &[u8]) -> Result<()> {
    match decode(alloc, bytes) {
        Ok((frame, length)) => tell_whole(alloc, out, &frame, length),
        Err(fault) => tell_fault(out, fault),
    }
}

fn brief_frame(alloc: Global, out: &mut String, frame: &Frame, length: usize) -> Result<()> {
    let bytes = spelled(alloc, frame)?;
    write!(out, " {length}:{}", hash(bytes.as_slice()))?;
    Ok(())
}

fn brief_fault(out: &mut String, fault: WireFault) -> Result<()> {
    match fault {
        WireFault::Short => out.push_str(" s")?,
        WireFault::Malformed(offset) => write!(out, " m{offset}")?,
        WireFault::NoMemory => bail!("want of memory"),
    }
    Ok(())
}

fn brief(alloc: Global, out: &mut String, bytes: &[u8]) -> Result<()> {
    match decode(alloc, bytes) {
        Ok((frame, length)) => brief_frame(alloc, out, &frame, length),
        Err(fault) => brief_fault(out, fault),
    }
}

fn tell_frames(alloc: Global, out: &mut String, frames: &[Frame]) -> Result<()> {
    for frame in frames {
        tell_frame(alloc, out, frame)?;
        out.push(' ')?;
    }
    Ok(())
}

fn feed(alloc: Global, out: &mut String, decoder: &mut Decoder, piece: &[u8]) -> Result<()> {
    match decoder.feed(alloc, piece) {
        Ok(frames) => tell_frames(alloc, out, frames.as_slice()),
        Err(fault) => {
            tell_fault(out, fault)?;
            out.push(' ')?;
            Ok(())
        }
    }
}

fn tell_pieces(
    alloc: Global,
    out: &mut String,
    decoder: &mut Decoder,
    size: usize,
    bytes: &[u8],
) -> Result<()>
    requires { 1 ≤ size }
{
    let mut most = 0;
    for piece in bytes.chunks(size) {
        feed(alloc, out, decoder, piece)?;
        most = decoder.raw().max(most);
    }
    feed(alloc, out, decoder, &[])?;
    write!(out, "kept {most}")?;
    Ok(())
}

fn pieces(alloc: Global, out: &mut String, size: usize, bytes: &[u8]) -> Result<()>
    requires { 1 ≤ size }
{
    let mut decoder = Decoder::new(alloc);
    tell_pieces(alloc, out, &mut decoder, size, bytes)
}

fn fronts(alloc: Global, out: &mut String, bytes: &[u8]) -> Result<()> {
    for length in 0..bytes.len() {
        let (front, _) = bytes.split_at(length);
        brief(alloc, out, front)?;
    }
    Ok(())
}

fn places(alloc: Global, out: &mut String, byte: u8, bytes: &[u8]) -> Result<()> {
    for place in 0..bytes.len() {
        let mut changed = Vec::from_slice(alloc, bytes)?;
        changed[place] = byte;
        brief(alloc, out, changed.as_slice())?;
    }
    Ok(())
}

/// What comes of the bytes of a line.
pub fn told(alloc: Global, line: &str) -> Result<String> {
    let mut out = String::new(alloc);
    let mut words = line.split(' ');
    let what = words.next().context("no word")?;
    let number = match what {
        "pieces" | "places" => words.next().context("no number")?.parse::<u16>()?,
        _ => 0,
    };
    let bytes = hex::decode(alloc, words.next().context("no bytes")?)?;
    let bytes = bytes.as_slice();
    match what {
        "whole" => whole(alloc, &mut out, bytes)?,
        "pieces" => pieces(alloc, &mut out, usize::from(number).max(1), bytes)?,
        "fronts" => fronts(alloc, &mut out, bytes)?,
        "places" => places(alloc, &mut out, (number % 256) as u8, bytes)?,
        _ => bail!("none of the words"),
    }
    Ok(out)
}
