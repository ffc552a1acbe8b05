//! The answers of sources, sinks, links and locks, call by call.
use ct_outside::adapters::{StdSink, StdSource};
use ct_outside::fault::{Failed, LinkFault, ReleaseFault, SinkFault, TakeFault};
use ct_outside::gate::{Gate, OpenGate};
use ct_outside::link::{Link, Piece, Received};
use ct_outside::lock::RecLock;
use ct_outside::memory::{MemSink, MemSource};
use ct_outside::memory_link::MemLink;
use ct_outside::memory_lock::MemLock;
use ct_outside::sink::{Sink, write_all};
use ct_outside::source::Source;
use std::alloc::Global;
use std::io;
use std::io::{Read, Write};
use std::test::Fail;

// Gives a byte a call, and fails at its second call.
#[derive(Drop)]
struct Slow {
    bytes: &'static [u8],
    calls: u8,
}

impl Read for Slow {
    fn read(&mut self, buf: &mut [u8]) -> io::Result<usize> {
        self.calls = self.calls.saturating_add(1);
        if self.calls == 2 {
            return Err(io::ErrorKind::Interrupted.into());
        }
        if self.bytes.is_empty() || buf.is_empty() {
            return Ok(0);
        }
        buf[0] = self.bytes[0];
        self.bytes = &self.bytes[1..];
        Ok(1)
    }
}

// Takes two bytes a call, fails at its second call, and takes nothing at its fourth.
#[derive(Drop)]
struct Narrow {
    got: Vec<u8>,
    calls: u8,
}

impl Write for Narrow {
    fn write(&mut self, buf: &[u8]) -> io::Result<usize> {
        self.calls = self.calls.saturating_add(1);
        if self.calls == 2 {
            return Err(io::ErrorKind::Other.into());
        }
        if self.calls == 4 {
            return Ok(0);
        }
        let count = buf.len().min(2);
        self.got.extend_from_slice(&buf[..count])?;
        Ok(count)
    }

    fn flush(&mut self) -> io::Result<()> {
        Ok(())
    }
}

// None stands for a failure.
type Answers = [Option<&'static [u8]>; 4];

fn reads_so(source: &mut MemSource, size: usize, want: Option<&[u8]>) -> bool {
    let mut buffer = [0; 9];
    let room = size.min(buffer.len());
    match source.read(&mut buffer[..room]) {
        Ok(count) => want == Some(&buffer[..count]),
        Err(Failed) => want.is_none(),
    }
}

fn all_read(source: &mut MemSource, size: usize, answers: Answers) -> bool {
    for want in answers {
        if !reads_so(source, size, want) {
            return false;
        }
    }
    true
}

fn is_source(alloc: Global, fail_at: &[u64], size: usize, answers: Answers) -> Result<bool, Fail> {
    let bytes = Vec::from_slice(alloc, b"abcdef")?;
    let mut source = MemSource::new(bytes, Vec::from_slice(alloc, fail_at)?);
    Ok(all_read(&mut source, size, answers))
}

#[test]
fn a_source_in_memory_answers(rt: HostRuntime) -> Result<(), Fail> {
    let cases: [(&[u64], usize, Answers); 6] = [
        (&[], 4, [Some(b"abcd"), Some(b"ef"), Some(b""), Some(b"")]),
        (&[], 9, [Some(b"abcdef"), Some(b""), Some(b""), Some(b"")]),
        (&[], 0, [Some(b""), Some(b""), Some(b""), Some(b"")]),
        (&[1], 4, [None, Some(b"abcd"), Some(b"ef"), Some(b"")]),
        (&[3], 2, [Some(b"ab"), Some(b"cd"), None, Some(b"ef")]),
        (&[4, 2], 3, [Some(b"abc"), None, Some(b"def"), None]),
    ];
    for (fail_at, size, answers) in cases {
        assert!(rt; is_source(rt.alloc(), fail_at, size, answers)?, "at {size}");
    }
    Ok(())
}

fn all_taken(sink: &mut MemSink, answers: [Result<usize, SinkFault>; 3]) -> bool {
    sink.write(b"ab") == answers[0]
        && sink.write(b"") == answers[1]
        && sink.write(b"cde") == answers[2]
}

fn is_sink(
    alloc: Global,
    fail_at: &[u64],
    answers: [Result<usize, SinkFault>; 3],
    held: &[u8],
) -> Result<bool, Fail> {
    let mut sink = MemSink::new(alloc, Vec::from_slice(alloc, fail_at)?);
    Ok(all_taken(&mut sink, answers) && sink.held() == held)
}

#[test]
fn a_sink_in_memory_answers(rt: HostRuntime) -> Result<(), Fail> {
    let failed = Err(SinkFault::Failed);
    let cases: [(&[u64], [Result<usize, SinkFault>; 3], &[u8]); 4] = [
        (&[], [Ok(2), Ok(0), Ok(3)], b"abcde"),
        (&[1], [failed, Ok(0), Ok(3)], b"cde"),
        (&[3], [Ok(2), Ok(0), failed], b"ab"),
        (&[2, 1, 3], [failed, failed, failed], b""),
    ];
    for (fail_at, answers, held) in cases {
        assert!(rt; is_sink(rt.alloc(), fail_at, answers, held)?);
    }
    Ok(())
}

fn all_written(sink: &mut MemSink, second: Result<(), SinkFault>) -> bool {
    write_all(sink, b"one ") == Ok(())
        && write_all(sink, b"") == Ok(())
        && write_all(sink, b"two ") == second
        && write_all(sink, b"three") == Ok(())
}

fn is_written(
    alloc: Global,
    fail_at: &[u64],
    second: Result<(), SinkFault>,
    held: &[u8],
) -> Result<bool, Fail> {
    let mut sink = MemSink::new(alloc, Vec::from_slice(alloc, fail_at)?);
    Ok(all_written(&mut sink, second) && sink.held() == held)
}

#[test]
fn all_is_written(rt: HostRuntime) -> Result<(), Fail> {
    let cases: [(&[u64], Result<(), SinkFault>, &[u8]); 2] = [
        (&[], Ok(()), b"one two three"),
        (&[2], Err(SinkFault::Failed), b"one three"),
    ];
    for (fail_at, second, held) in cases {
        assert!(rt; is_written(rt.alloc(), fail_at, second, held)?);
    }
    Ok(())
}

fn reads_std_so(source: &mut StdSource<Slow>, want: Option<&[u8]>) -> bool {
    let mut buffer = [0; 9];
    match source.read(&mut buffer) {
        Ok(count) => want == Some(&buffer[..count]),
        Err(Failed) => want.is_none(),
    }
}

#[test]
fn a_reader_of_std_answers(rt: HostRuntime) -> Result<(), Fail> {
    let mut source = StdSource::new(Slow {
        bytes: b"ab",
        calls: 0,
    });
    let answers: [Option<&[u8]>; 4] = [Some(b"a"), None, Some(b"b"), Some(b"")];
    for want in answers {
        assert!(rt; reads_std_so(&mut source, want));
    }
    Ok(())
}

fn writes_so<K: Sink>(sink: &mut K) -> bool {
    write_all(sink, b"abc") == Err(SinkFault::Failed)
        && write_all(sink, b"de") == Ok(())
        && write_all(sink, b"f") == Err(SinkFault::Failed)
        && write_all(sink, b"") == Ok(())
        && write_all(sink, b"ghi") == Ok(())
}

#[test]
fn a_writer_of_std_answers(rt: HostRuntime) {
    let mut narrow = Narrow {
        got: Vec::new(rt.alloc()),
        calls: 0,
    };
    let mut sink = StdSink::new(&mut narrow);
    assert!(rt; writes_so(&mut sink));
    drop(sink);
    assert!(rt; narrow.got.as_slice() == b"abdeghi".as_slice());
}

// What a call of a link gives, or is to give.
#[derive(Clone, Copy, PartialEq, Eq)]
enum Heard<'a> {
    Piece(u32, &'a [u8]),
    Nothing,
    Closed,
    Sent,
    Failed,
    NoMemory,
}

fn heard_as(answer: &Result<Received, LinkFault>) -> Heard<'_> {
    match answer {
        Ok(Received::Piece { sender, bytes }) => Heard::Piece(*sender, bytes.as_slice()),
        Ok(Received::Nothing) => Heard::Nothing,
        Ok(Received::Closed) => Heard::Closed,
        Err(LinkFault::Failed) => Heard::Failed,
        Err(LinkFault::NoMemory) => Heard::NoMemory,
    }
}

fn sends_so(link: &mut MemLink, want: Heard<'static>) -> bool {
    let got = match link.send(5, b"xyz") {
        Ok(()) => Heard::Sent,
        Err(LinkFault::Failed) => Heard::Failed,
        Err(LinkFault::NoMemory) => Heard::NoMemory,
    };
    got == want
}

fn hears_so(link: &mut MemLink, may_wait: bool, want: Heard<'static>) -> bool {
    let answer = link.receive(may_wait);
    heard_as(&answer) == want
}

// Two sends, and then five looks, of which the third and the fifth may wait.
fn calls_so(link: &mut MemLink, want: [Heard<'static>; 7]) -> bool {
    sends_so(link, want[0])
        && sends_so(link, want[1])
        && hears_so(link, false, want[2])
        && hears_so(link, false, want[3])
        && hears_so(link, true, want[4])
        && hears_so(link, false, want[5])
        && hears_so(link, true, want[6])
}

fn has_sent(link: &MemLink, count: usize) -> bool {
    let mut same = link.sent().len() == count;
    for piece in link.sent() {
        same = same && piece.node == 5 && piece.bytes.as_slice() == b"xyz".as_slice();
    }
    same
}

fn add_piece(alloc: Global, pieces: &mut Vec<Piece>, node: u32, bytes: &[u8]) -> Result<(), Fail> {
    let bytes = Vec::from_slice(alloc, bytes)?;
    pieces.push(Piece { node, bytes })?;
    Ok(())
}

fn a_link(alloc: Global, fail_at: &[u64]) -> Result<MemLink, Fail> {
    let mut waiting = Vec::new(alloc);
    add_piece(alloc, &mut waiting, 7, b"ab")?;
    add_piece(alloc, &mut waiting, 2, b"")?;
    let fail_at = Vec::from_slice(alloc, fail_at)?;
    Ok(MemLink::new(alloc, waiting, fail_at))
}

fn is_link(
    alloc: Global,
    fail_at: &[u64],
    want: [Heard<'static>; 7],
    sent: usize,
) -> Result<bool, Fail> {
    let mut link = a_link(alloc, fail_at)?;
    Ok(calls_so(&mut link, want) && has_sent(&link, sent))
}

#[test]
fn a_link_in_memory_answers(rt: HostRuntime) -> Result<(), Fail> {
    let first = Heard::Piece(7, b"ab");
    let second = Heard::Piece(2, b"");
    let failed = Heard::Failed;
    let nothing = Heard::Nothing;
    let closed = Heard::Closed;
    let cases: [(&[u64], [Heard<'static>; 7], usize); 4] = [
        (
            &[],
            [
                Heard::Sent,
                Heard::Sent,
                first,
                second,
                closed,
                nothing,
                closed,
            ],
            2,
        ),
        (
            &[1, 3, 7],
            [failed, Heard::Sent, failed, first, second, nothing, failed],
            1,
        ),
        (
            &[2, 5],
            [Heard::Sent, failed, first, second, failed, nothing, closed],
            1,
        ),
        (
            &[1, 2, 4, 6],
            [failed, failed, first, failed, second, failed, closed],
            0,
        ),
    ];
    for (fail_at, answers, sent) in cases {
        assert!(rt; is_link(rt.alloc(), fail_at, answers, sent)?);
    }
    Ok(())
}

fn takes_so(lock: &mut MemLock) -> bool {
    lock.take(0) == Ok(2)
        && lock.take(1)
            == Err(TakeFault::Held {
                holder: 0,
                ticket: 2,
            })
        && lock.take(0) == Ok(3)
}

#[test]
fn a_lock_in_memory_answers(rt: HostRuntime) {
    let mut lock = MemLock::new();
    assert!(rt; lock.release(0) == Err(ReleaseFault::NotHolder(None)));
    assert!(rt; takes_so(&mut lock));
    assert!(rt; lock.release(1) == Err(ReleaseFault::NotHolder(Some(0))));
    assert!(rt; lock.release(0) == Ok(()));
    assert!(rt; lock.take(1) == Ok(4));
    OpenGate.pass(1, 0);
}
