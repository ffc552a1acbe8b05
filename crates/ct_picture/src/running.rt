//! What the program does with its input and its outputs.
ghost use Rattle.std.specs.Prelude.{◌≡◌, ◌≢◌, ◌≤◌, ◌<◌, ◌++◌, length, codes, IfOk};
ghost use Rattle.ct_outside.specs.Causes.{Rose};
ghost use Rattle.ct_picture.specs.Running.{HasPictureCause, PieceCause, Pictured, Pictures, ReadCause, ReadsAll, ReadsPiece, Reports, WriteCause, Writes, end_of, message, most_bytes, status};
ghost use Rattle.ct_picture.specs.declared.running.End.{End as Ended};

use crate::drawing::draw;
use crate::reading::{RunFault, read_run};
use crate::row::push;
use crate::svg::svg_of;
use ct_outside::fault::SinkFault;
use ct_outside::sink::{Sink, write_all};
use ct_outside::source::Source;
use ct_spelling::number::push_decimal;
use ct_values::memory::NoMemory;
use std::alloc::Global;

/// How it ends. A line is told by its number, counted from 1.
#[derive(Clone, Copy, Debug, PartialEq, Eq)]
pub enum End {
    /// All of the input was read, and its picture written.
    Drawn,
    /// The first line that has no reading, or that the input ends in.
    Unread { line: u64 },
    ReadFault,
    WriteFault,
    NoMemory,
    /// The input has 2^40 bytes or more.
    TooLong,
}

/// The most bytes that are taken of an input.
pub const MOST_BYTES: u64 = 1099511627776;

/// Reads a piece, and puts it behind the bytes.
fn read_piece<S: Source>(
    bytes: &mut Vec<u8>,
    buffer: &mut [u8],
    input: &mut S,
) -> Result<usize, End>
    requires { 0 < length buffer.old }
    ensures reads { ReadsPiece result bytes.old.items bytes.new.items (S.left input.old) (S.left input.new) (length buffer.old) }
    ensures cause { PieceCause result (S.faults input.old) (S.faults input.new) }
{
    let n = match input.read(buffer) {
        Ok(n) => n,
        Err(_) => return Err(End::ReadFault),
    };
    match push(bytes, &buffer[..n]) {
        Ok(()) => Ok(n),
        Err(_) => Err(End::NoMemory),
    }
}

/// Reads the input to its end.
pub fn read_all<S: Source>(alloc: Global, input: &mut S) -> Result<Vec<u8>, End>
    ensures reads { ReadsAll result (S.left input.old) (S.left input.new) }
    ensures cause { ReadCause result (S.faults input.old) (S.faults input.new) }
{
    let mut bytes = Vec::new(alloc);
    let mut buffer = [0u8; 4096];
    let mut taken = 0u64;
    while taken < MOST_BYTES {
        let room = (MOST_BYTES - taken).min(4096) as usize;
        let n = match read_piece(&mut bytes, &mut buffer[..room], input) {
            Ok(n) => n,
            Err(end) => return Err(end),
        };
        if n == 0 {
            return Ok(bytes);
        }
        taken += n as u64;
    }
    Err(End::TooLong)
}

/// The picture of a run, as SVG.
pub fn picture_text(alloc: Global, bytes: &[u8]) -> Result<Vec<u8>, RunFault>
    requires { length bytes.now < most_bytes }
    ensures { Pictured result bytes.now }
{
    let rows = read_run(alloc, bytes)?;
    let picture = draw(alloc, &rows)?;
    Ok(svg_of(alloc, &picture)?)
}

/// How it ends where there is no picture.
pub fn end_of(fault: RunFault) -> End
    ensures { result ≡ end_of fault }
{
    match fault {
        RunFault::Line(line) => End::Unread { line },
        RunFault::NoMemory => End::NoMemory,
    }
}

/// Writes the picture of the bytes.
fn write_picture<K: Sink>(alloc: Global, bytes: &[u8], out: &mut K) -> End
    requires { length bytes.now < most_bytes }
    ensures writes { Writes result bytes.now (K.held out.old) (K.held out.new) }
    ensures cause { WriteCause result (K.faults out.old) (K.faults out.new) }
{
    let text = match picture_text(alloc, bytes) {
        Ok(text) => text,
        Err(fault) => return end_of(fault),
    };
    match write_all(out, &text) {
        Ok(()) => End::Drawn,
        Err(SinkFault::Failed) => End::WriteFault,
        Err(SinkFault::NoMemory) => End::NoMemory,
    }
}

/// Reads a run to its end, and writes its picture.
pub fn picture<S: Source, K: Sink>(alloc: Global, input: &mut S, out: &mut K) -> End
    ensures pictures { Pictures result (S.left input.old) (S.left input.new) (K.held out.old) (K.held out.new) }
    ensures cause { HasPictureCause result (S.faults input.old) (S.faults input.new) (K.faults out.old) (K.faults out.new) }
{
    match read_all(alloc, input) {
        Ok(bytes) => write_picture(alloc, &bytes, out),
        Err(end) => end,
    }
}

/// The line that err gets.
fn message(alloc: Global, end: End) -> Result<Vec<u8>, NoMemory>
    ensures { IfOk result (λ v. v.items ≡ message end) }
{
    let mut text = Vec::new(alloc);
    match end {
        End::Drawn => {}
        End::Unread { line } => {
            push(&mut text, b"ctdbpicture: line ")?;
            push_decimal(&mut text, line)?;
            push(&mut text, b"\n")?;
        }
        End::ReadFault => push(&mut text, b"ctdbpicture: read fault\n")?,
        End::WriteFault => push(&mut text, b"ctdbpicture: write fault\n")?,
        End::NoMemory => push(&mut text, b"ctdbpicture: want of memory\n")?,
        End::TooLong => push(&mut text, b"ctdbpicture: input too long\n")?,
    }
    Ok(text)
}

fn status(end: End) -> u8
    ensures { result ≡ status end }
{
    match end {
        End::Drawn => 0,
        End::Unread { .. } => 2,
        End::ReadFault => 3,
        End::WriteFault => 4,
        End::NoMemory => 5,
        End::TooLong => 8,
    }
}

/// Writes a line to err, and answers the status.
pub fn say<E: Sink>(line: &[u8], wanted: u8, err: &mut E) -> u8
    ensures { Reports line.now wanted result (E.held err.old) (E.held err.new) (E.faults err.old) (E.faults err.new) }
{
    match write_all(err, line) {
        Ok(()) => wanted,
        Err(SinkFault::Failed) => 4,
        Err(SinkFault::NoMemory) => 5,
    }
}

/// Says on err how it ended, and answers the status.
pub fn report<E: Sink>(alloc: Global, end: End, err: &mut E) -> u8
    ensures { Reports (message end) (status end) result (E.held err.old) (E.held err.new) (E.faults err.old) (E.faults err.new) }
{
    match message(alloc, end) {
        Ok(line) => say(&line, status(end), err),
        Err(_) => 5,
    }
}

/// All that the program does, which takes no words after its name. The answer is its status: 0 where the picture was written, 1
/// where there are words, 2 where a line has no reading or the input ends inside one, 3 where a read failed, 4 where a write
/// failed, 5 for want of memory, and 8 where 2^40 bytes were taken.
pub fn run<S: Source, K: Sink, E: Sink>(
    alloc: Global,
    words: usize,
    input: &mut S,
    out: &mut K,
    err: &mut E,
) -> u8
    // There are no words: the input was read to its end and its picture written, and err and the answer say how that ended.
    ensures picture { words ≡ 0 → (e : Ended)
        × Pictures e (S.left input.old) (S.left input.new) (K.held out.old) (K.held out.new)
        × HasPictureCause e (S.faults input.old) (S.faults input.new) (K.faults out.old) (K.faults out.new)
        × Reports (message e) (status e) result (E.held err.old) (E.held err.new) (E.faults err.old) (E.faults err.new) }
    // There are words: nothing was read or written, and err says so.
    ensures usage { words ≢ 0 → Reports (codes "ctdbpicture: usage\n") 1 result (E.held err.old) (E.held err.new) (E.faults err.old) (E.faults err.new)
        × (input.new ≡ input.old) × (out.new ≡ out.old) }
{
    if words > 0 {
        return say(b"ctdbpicture: usage\n", 1, err);
    }
    let end = picture(alloc, input, out);
    report(alloc, end, err)
}
