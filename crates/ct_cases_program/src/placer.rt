//! How inputs end, and what is printed then, with ample memory.
ghost use Rattle.std.specs.Prelude.{None};

use ct_lcp2_lines::placer::{End, place};
use ct_lines::line::LineKind;
use ct_outside::fault::{Failed, SinkFault};
use ct_outside::memory::{MemSink, MemSource};
use ct_outside::sink::Sink;
use ct_outside::source::Source;
use std::alloc::Global;
use std::test::Fail;

// Gives a few bytes a call.
#[derive(Drop)]
struct Slow {
    bytes: &'static [u8],
    most: usize,
}

impl Source for Slow {
    ghost left = { λ _. None };

    ghost faults = { λ _. 0 };

    fn read(&mut self, into: &mut [u8]) -> Result<usize, Failed> {
        let count = self.most.min(into.len()).min(self.bytes.len());
        into[..count].copy_from_slice(&self.bytes[..count]);
        self.bytes = &self.bytes[count..];
        Ok(count)
    }
}

// Takes a few bytes a call, one at least, and counts the calls.
#[derive(Drop)]
struct Narrow {
    bytes: Vec<u8>,
    most: usize,
    calls: u64,
}

impl Sink for Narrow {
    ghost held = { λ _. None };

    ghost faults = { λ _. 0 };

    fn write(&mut self, piece: &[u8]) -> Result<usize, SinkFault> {
        self.calls = self.calls.saturating_add(1);
        let count = self.most.max(1).min(piece.len());
        self.bytes.extend_from_slice(&piece[..count])?;
        Ok(count)
    }
}

const FOUR: &str =
    "nodes 2\naddress 192.168.1.1\naddress 192.168.1.2\naddress 192.168.1.3\naddress 192.168.1.4\n";

const PLACED: &str =
    "192.168.1.1 0\n192.168.1.2 1\n192.168.1.3 1\n192.168.1.4 0\nimbalance 0 841\nimbalance 1 961\n";

// An input, which calls of it and of out fail, and the end and out that come of it.
type Case = (&'static str, [&'static [u64]; 2], End, &'static str);

const NONE: [&[u64]; 2] = [&[], &[]];

const CASES: [Case; 17] = [
    (FOUR, NONE, End::Read, PLACED),
    ("", NONE, End::Read, ""),
    ("nodes 1\n", NONE, End::Read, "imbalance 0 0\n"),
    ("nodes 1", NONE, End::Unended { line: 1 }, ""),
    (
        "nodes 1\naddress 10.0.0.1",
        [&[], &[1]],
        End::Unended { line: 2 },
        "",
    ),
    (
        "\n",
        NONE,
        End::Refused {
            line: 1,
            kind: LineKind::Words,
        },
        "",
    ),
    (
        "nodes 1\naddress 10.0.0.1\nnodes 1\nx",
        NONE,
        End::Refused {
            line: 3,
            kind: LineKind::Order,
        },
        "",
    ),
    (
        "nodes 1\naddress 10.0.0.1\naddress 10.0.0.1",
        NONE,
        End::Unended { line: 3 },
        "",
    ),
    (
        "nodes 1\naddress 10.0.0.1\naddress 10.0.0.1\n",
        [&[2], &[1]],
        End::Refused {
            line: 3,
            kind: LineKind::Repeat,
        },
        "",
    ),
    (FOUR, [&[1], &[]], End::ReadFault, ""),
    (FOUR, [&[2], &[]], End::ReadFault, ""),
    (FOUR, [&[3], &[]], End::Read, PLACED),
    ("nodes 1", [&[2], &[1]], End::ReadFault, ""),
    (FOUR, [&[], &[1]], End::WriteFault, ""),
    (
        FOUR,
        [&[], &[3]],
        End::WriteFault,
        "192.168.1.1 0\n192.168.1.2 1\n",
    ),
    (
        FOUR,
        [&[], &[6]],
        End::WriteFault,
        "192.168.1.1 0\n192.168.1.2 1\n192.168.1.3 1\n192.168.1.4 0\nimbalance 0 841\n",
    ),
    (FOUR, [&[], &[7]], End::Read, PLACED),
];

#[test]
fn inputs_end(rt: HostRuntime) -> Result<(), Fail> {
    let alloc = rt.alloc();
    for (row, (input, [input_fails, out_fails], end, out)) in CASES.iter().enumerate() {
        let bytes = Vec::from_slice(alloc, input.as_bytes())?;
        let mut source = MemSource::new(bytes, Vec::from_slice(alloc, input_fails)?);
        let mut held = MemSink::new(alloc, Vec::from_slice(alloc, out_fails)?);
        assert!(rt; place(alloc, &mut source, &mut held) == *end, "at {row}");
        assert!(rt; held.held() == out.as_bytes(), "at {row}");
    }
    Ok(())
}

// A line that is printed is one write, where the sink takes it whole.
#[test]
fn pieces(rt: HostRuntime) -> Result<(), Fail> {
    let alloc = rt.alloc();
    for (give, take, calls) in [(1, 1, 88), (1, 100, 6), (100, 1, 88), (3, 7, 14)] {
        let mut source = Slow {
            bytes: FOUR.as_bytes(),
            most: give,
        };
        let mut held = Narrow {
            bytes: Vec::new(alloc),
            most: take,
            calls: 0,
        };
        assert_eq!(rt; place(alloc, &mut source, &mut held), End::Read);
        assert_eq!(rt; held.bytes.as_slice(), PLACED.as_bytes());
        assert_eq!(rt; held.calls, calls);
    }
    Ok(())
}

// How an input of these bytes ends.
fn end_of(alloc: Global, bytes: Vec<u8>) -> End {
    let mut source = MemSource::new(bytes, Vec::new(alloc));
    let mut held = MemSink::new(alloc, Vec::new(alloc));
    place(alloc, &mut source, &mut held)
}

// A first line, and a second of so many letters that ends so.
fn with_letters(alloc: Global, letters: usize, last: &[u8]) -> Result<Vec<u8>, Fail> {
    let mut bytes = Vec::from_slice(alloc, b"nodes 1\n")?;
    for _ in 0..letters {
        bytes.push(b'a')?;
    }
    bytes.extend_from_slice(last)?;
    Ok(bytes)
}

fn ends_so(alloc: Global, letters: usize, last: &[u8], end: End) -> Result<bool, Fail> {
    let bytes = with_letters(alloc, letters, last)?;
    Ok(end_of(alloc, bytes) == end)
}

const LONG: End = End::Refused {
    line: 2,
    kind: LineKind::Long,
};

const WORDS: End = End::Refused {
    line: 2,
    kind: LineKind::Words,
};

#[test]
fn long_lines_that_do_not_end(rt: HostRuntime) -> Result<(), Fail> {
    let alloc = rt.alloc();
    assert!(rt; ends_so(alloc, 65535, b"", End::Unended { line: 2 })?);
    assert!(rt; ends_so(alloc, 65536, b"", LONG)?);
    Ok(())
}

#[test]
fn long_lines_that_end(rt: HostRuntime) -> Result<(), Fail> {
    let alloc = rt.alloc();
    assert!(rt; ends_so(alloc, 65535, b"\n", WORDS)?);
    assert!(rt; ends_so(alloc, 65536, b"\n", LONG)?);
    Ok(())
}

// As many lines as may be taken, and one more.
#[test]
fn most_lines(rt: HostRuntime) -> Result<(), Fail> {
    let alloc = rt.alloc();
    let mut bytes = Vec::from_slice(alloc, b"nodes 16\n")?;
    for i in 0u8..16 {
        bytes.extend_from_slice(format!(in alloc; "disabled {i}\n")?.as_bytes())?;
    }
    for i in 0u8..=255 {
        bytes.extend_from_slice(format!(in alloc; "address 10.0.0.{i}\n")?.as_bytes())?;
    }
    assert_eq!(rt; end_of(alloc, bytes.clone()?), End::Read);
    bytes.extend_from_slice(b"address 10.0.1.0\n")?;
    let limit = End::Refused {
        line: 274,
        kind: LineKind::Limit,
    };
    assert_eq!(rt; end_of(alloc, bytes), limit);
    Ok(())
}
