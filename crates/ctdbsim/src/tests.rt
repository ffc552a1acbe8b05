//! Runs of the top call with ample memory.
ghost use Rattle.std.specs.Prelude.{[], None};

use ct_bus_exchange::handlers::Handlers;
use ct_bus_exchange::turns::BusTurns;
use ct_call::table::CallTable;
use ct_journal::journal::Journal;
use ct_main::run::run;
use ct_outside::fault::{Failed, SinkFault};
use ct_outside::memory::{MemSink, MemSource};
use ct_outside::sink::Sink;
use ct_outside::source::Source;
use ct_script::plan::Plan;
use ct_troupe_threads::column_threads::{Columns, PlayFault, Troupe};
use std::alloc::Global;
use std::test::Fail;

const SESSION: &str =
    "nodes 1\ndb t volatile\nlock 0 t k\nstore 0 t k v1\nunlock 0 t k\nread 0 t k\n";

const ANSWERS: &str = "answer 1 locked -\nanswer 2 stored\nanswer 3 unlocked\nanswer 4 read v1\n";

// Gives a few bytes a call.
#[derive(Drop)]
struct Slow {
    bytes: &'static [u8],
    most: usize,
}

impl Source for Slow {
    ghost left = { λ _. None };

    ghost faults = { λ _. 0 };

    fn read(&mut self, into: &mut [u8]) -> Result<usize, Failed> {
        let count = self.most.min(into.len()).min(self.bytes.len());
        into[..count].copy_from_slice(&self.bytes[..count]);
        self.bytes = &self.bytes[count..];
        Ok(count)
    }
}

// Takes a few bytes a call, one at least, and counts the calls.
#[derive(Drop)]
struct Narrow {
    bytes: Vec<u8>,
    most: usize,
    calls: u64,
}

impl Narrow {
    fn new(alloc: Global, most: usize) -> Narrow {
        Narrow {
            bytes: Vec::new(alloc),
            most,
            calls: 0,
        }
    }
}

impl Sink for Narrow {
    ghost held = { λ _. None };

    ghost faults = { λ _. 0 };

    fn write(&mut self, piece: &[u8]) -> Result<usize, SinkFault> {
        self.calls = self.calls.saturating_add(1);
        let count = self.most.max(1).min(piece.len());
        self.bytes.extend_from_slice(&piece[..count])?;
        Ok(count)
    }
}

// Fails whenever it is to play.
#[derive(Drop)]
struct Broken {
    journals: Vec<Journal>,
    faults: u64,
}

impl Broken {
    fn new(alloc: Global) -> Broken {
        Broken {
            journals: Vec::new(alloc),
            faults: 0,
        }
    }
}

impl Troupe for Broken {
    ghost told = { λ s. s.journals.items };

    ghost faults = { λ s. s.faults };

    ghost ready = { λ _. Unit {0} };

    fn play(&mut self, _alloc: Global, _table: &CallTable, _plan: &Plan) -> Result<(), PlayFault> {
        self.journals.truncate(0);
        self.faults = self.faults.saturating_add(1);
        Err(PlayFault::Link)
    }

    fn journals(&self) -> &[Journal] {
        self.journals.as_slice()
    }
}

impl Columns for Broken {
    ghost told_in = { λ _ _. [] };

    ghost column_faults = { λ s. s.faults };

    ghost columns_ready = { λ _. Unit {0} };

    fn play_all(
        &mut self,
        _alloc: Global,
        _table: &CallTable,
        _plans: &[Plan],
    ) -> Result<(), PlayFault> {
        self.faults = self.faults.saturating_add(1);
        Err(PlayFault::Link)
    }

    fn column(&self, _number: u32) -> &[Journal] {
        &[]
    }
}

// Words, an input, which calls of the input, out and err fail, and the status, out and err that come of it.
type Case = (
    &'static [&'static str],
    &'static str,
    [&'static [u64]; 3],
    (u8, &'static str, &'static str),
);

const PLAY: &[&str] = &["play"];

const NONE: [&[u64]; 3] = [&[], &[], &[]];

const TWO: &str = "nodes 2\ndb t volatile\n";

const ASKED: &str = "nodes 2\ndb t volatile\nlock 1 t b\n";

const CALLED: &str = "frame 1 1 0 1 call t b 1 lock\n";

const PENDING: &str = "frame 1 1 0 1 call t b 1 lock\npending 1 1 lock t b\n";

const MOVED: &str = "nodes 2\ndb t volatile\nlock 1 t b\nsettle 9\n";

const MOVES: &str =
    "frame 1 1 0 1 call t b 1 lock\nframe 2 0 0 1 recall t b 0 1 1 lock\nframe 3 0 0 1 give t b 0 -\nframe 4 0 1 1 pass t b 1 0 -\nanswer 1 locked -\n";

const PLAYED: [Case; 6] = [
    (PLAY, SESSION, NONE, (0, ANSWERS, "")),
    (PLAY, "", NONE, (0, "", "")),
    (PLAY, TWO, NONE, (0, "", "")),
    (PLAY, MOVED, NONE, (0, MOVES, "")),
    (PLAY, ASKED, NONE, (0, PENDING, "")),
    (PLAY, "nodes 1", NONE, (2, "", "ctdbsim: line 1: unended\n")),
];

const REFUSED: [Case; 6] = [
    (PLAY, "\n", NONE, (2, "", "ctdbsim: line 1: words\n")),
    (PLAY, "nodes 0\n", NONE, (2, "", "ctdbsim: line 1: words\n")),
    (
        PLAY,
        "nodes 1\nlock 0 t k",
        NONE,
        (2, "", "ctdbsim: line 2: unended\n"),
    ),
    (
        PLAY,
        "nodes 2\ndb t volatile\nlock 1 t b\nstop 2\n",
        NONE,
        (2, CALLED, "ctdbsim: line 4: no-such-node 2\n"),
    ),
    (
        PLAY,
        "nodes 1\nnodes 1\n",
        NONE,
        (2, "", "ctdbsim: line 2: order\n"),
    ),
    (
        PLAY,
        "nodes 1\ndb g_lock volatile\n",
        NONE,
        (2, "", "ctdbsim: line 2: repeat\n"),
    ),
];

const USAGE: &str = "ctdbsim: usage\n";

const LCP2: &[&str] = &["lcp2"];

const SOAK: &[&str] = &["soak", "1", "2000"];

const SOAKED: &str = "soak 2000 skipped 356 frames 641 calls 972 pending 24 ticket 4\n";

const ADDRESSES: &str =
    "nodes 2\naddress 192.168.1.1\naddress 192.168.1.2\naddress 192.168.1.3\naddress 192.168.1.4\n";

const PLACED: &str =
    "192.168.1.1 0\n192.168.1.2 1\n192.168.1.3 1\n192.168.1.4 0\nimbalance 0 841\nimbalance 1 961\n";

const WORDS: [Case; 12] = [
    (&["play", "--"], SESSION, NONE, (0, ANSWERS, "")),
    (&["soak", "--", "1", "2000"], SESSION, NONE, (0, SOAKED, "")),
    (&["soak", "1", "0"], SESSION, NONE, (1, "", USAGE)),
    (&["soak", "0", "100001"], SESSION, NONE, (1, "", USAGE)),
    (&[], SESSION, NONE, (1, "", USAGE)),
    (&["play", "x"], SESSION, NONE, (1, "", USAGE)),
    (&["--help"], SESSION, NONE, (1, "", USAGE)),
    (&["Play"], SESSION, NONE, (1, "", USAGE)),
    (&["--"], SESSION, NONE, (1, "", USAGE)),
    (&["--", "play"], SESSION, NONE, (1, "", USAGE)),
    (&["play", "--", "--"], SESSION, NONE, (1, "", USAGE)),
    (&["x"], SESSION, [&[1], &[1], &[1]], (4, "", "")),
];

const PLACINGS: [Case; 8] = [
    (LCP2, ADDRESSES, NONE, (0, PLACED, "")),
    (LCP2, "", NONE, (0, "", "")),
    (
        LCP2,
        "nodes 1\ndisabled 0\naddress 10.0.0.1\n",
        NONE,
        (0, "10.0.0.1 -1\nimbalance 0 0\n", ""),
    ),
    (
        LCP2,
        "nodes 2\nnodes 2\n",
        NONE,
        (2, "", "ctdbsim: line 2: order\n"),
    ),
    (LCP2, "nodes 2", NONE, (2, "", "ctdbsim: line 1: unended\n")),
    (
        LCP2,
        ADDRESSES,
        [&[1], &[], &[]],
        (3, "", "ctdbsim: read fault\n"),
    ),
    (
        LCP2,
        ADDRESSES,
        [&[], &[2], &[]],
        (4, "192.168.1.1 0\n", "ctdbsim: write fault\n"),
    ),
    (LCP2, "nodes 0\n", [&[], &[], &[1]], (4, "", "")),
];

const SOAKS: [Case; 3] = [
    (SOAK, "", NONE, (0, SOAKED, "")),
    (SOAK, SESSION, [&[1], &[], &[1]], (0, SOAKED, "")),
    (
        SOAK,
        SESSION,
        [&[], &[1], &[]],
        (4, "", "ctdbsim: write fault\n"),
    ),
];

const CLUSTER: &[&str] = &["cluster", "2", "5", "1"];

const LOOPBACK: &[&str] = &["loopback", "2", "5", "1"];

const CHAINS: &[&str] = &["chains", "2", "3", "5", "1"];

const LINK_FAULT: &str = "ctdbsim: link fault\n";

const TROUPES: [Case; 13] = [
    (CHAINS, SESSION, NONE, (7, "", LINK_FAULT)),
    (&["chains", "2", "9", "10", "3"], "", NONE, (1, "", USAGE)),
    (&["chains", "0", "2", "10", "3"], "", NONE, (1, "", USAGE)),
    (&["chains", "2", "2", "0", "3"], "", NONE, (1, "", USAGE)),
    (&["chains", "2", "2", "1001", "3"], "", NONE, (1, "", USAGE)),
    (&["chains", "2", "2", "10"], "", NONE, (1, "", USAGE)),
    (
        &["chains", "2", "2", "10", "3", "4"],
        "",
        NONE,
        (1, "", USAGE),
    ),
    (&["chains", "2", "2", "10", "x"], "", NONE, (1, "", USAGE)),
    (CLUSTER, SESSION, NONE, (7, "", LINK_FAULT)),
    (LOOPBACK, SESSION, NONE, (7, "", LINK_FAULT)),
    (CLUSTER, "", [&[1], &[1], &[]], (7, "", LINK_FAULT)),
    (CLUSTER, "", [&[], &[], &[1]], (4, "", "")),
    (&["cluster", "9", "1", "1"], "", NONE, (1, "", USAGE)),
];

const FAULTS: [Case; 7] = [
    (
        PLAY,
        SESSION,
        [&[], &[3], &[]],
        (
            4,
            "answer 1 locked -\nanswer 2 stored\n",
            "ctdbsim: write fault\n",
        ),
    ),
    (PLAY, SESSION, [&[], &[5], &[1]], (0, ANSWERS, "")),
    (
        PLAY,
        SESSION,
        [&[1], &[], &[]],
        (3, "", "ctdbsim: read fault\n"),
    ),
    (
        PLAY,
        SESSION,
        [&[2], &[], &[]],
        (3, ANSWERS, "ctdbsim: read fault\n"),
    ),
    (PLAY, SESSION, [&[1], &[], &[1]], (4, "", "")),
    (PLAY, "nodes 0\n", [&[], &[], &[1]], (4, "", "")),
    (
        PLAY,
        ASKED,
        [&[], &[2], &[]],
        (4, CALLED, "ctdbsim: write fault\n"),
    ),
];

fn strings(alloc: Global, words: &[&str]) -> Result<Vec<String>, Fail> {
    let mut strings = Vec::new(alloc);
    for word in words {
        strings.push(String::from_str(alloc, word)?)?;
    }
    Ok(strings)
}

fn agrees(alloc: Global, case: &Case) -> Result<bool, Fail> {
    let (words, input, [input_fails, out_fails, err_fails], (status, out, err)) = *case;
    let words = strings(alloc, words)?;
    let bytes = Vec::from_slice(alloc, input.as_bytes())?;
    let mut source = MemSource::new(bytes, Vec::from_slice(alloc, input_fails)?);
    let mut held = MemSink::new(alloc, Vec::from_slice(alloc, out_fails)?);
    let mut said = MemSink::new(alloc, Vec::from_slice(alloc, err_fails)?);
    let table = CallTable::new(alloc);
    let got = run(
        alloc,
        words.as_slice(),
        &table,
        &mut source,
        &mut held,
        &mut said,
        &mut Broken::new(alloc),
        &Handlers::new(alloc),
        &mut BusTurns::new(),
    );
    Ok(got == status && held.held() == out.as_bytes() && said.held() == err.as_bytes())
}

/// The place of the first row that does not agree.
fn odd_row(alloc: Global, cases: &[Case]) -> Result<Option<usize>, Fail> {
    for (row, case) in cases.iter().enumerate() {
        if !agrees(alloc, case)? {
            return Ok(Some(row));
        }
    }
    Ok(None)
}

#[test]
fn what_is_played(rt: HostRuntime) -> Result<(), Fail> {
    assert_eq!(rt; odd_row(rt.alloc(), &PLAYED)?, None);
    Ok(())
}

#[test]
fn what_is_refused(rt: HostRuntime) -> Result<(), Fail> {
    assert_eq!(rt; odd_row(rt.alloc(), &REFUSED)?, None);
    Ok(())
}

#[test]
fn words(rt: HostRuntime) -> Result<(), Fail> {
    assert_eq!(rt; odd_row(rt.alloc(), &WORDS)?, None);
    Ok(())
}

#[test]
fn what_is_placed(rt: HostRuntime) -> Result<(), Fail> {
    assert_eq!(rt; odd_row(rt.alloc(), &PLACINGS)?, None);
    Ok(())
}

#[test]
fn what_is_soaked(rt: HostRuntime) -> Result<(), Fail> {
    assert_eq!(rt; odd_row(rt.alloc(), &SOAKS)?, None);
    Ok(())
}

#[test]
fn what_fails_with_its_troupe(rt: HostRuntime) -> Result<(), Fail> {
    assert_eq!(rt; odd_row(rt.alloc(), &TROUPES)?, None);
    Ok(())
}

#[test]
fn faults(rt: HostRuntime) -> Result<(), Fail> {
    assert_eq!(rt; odd_row(rt.alloc(), &FAULTS)?, None);
    Ok(())
}

/// So many first lines of a text.
fn first_lines(text: &[u8], count: u64) -> &[u8] {
    let mut left = count;
    for (at, byte) in text.iter().enumerate() {
        if left == 0 {
            return &text[..at];
        }
        if *byte == b'\n' {
            left -= 1;
        }
    }
    text
}

/// The status, and what out gained, of a lock that moves between two nodes, where one call of the input and one of out fail.
fn moved(alloc: Global, input_fails: u64, out_fails: u64) -> Result<(u8, MemSink), Fail> {
    let words = strings(alloc, PLAY)?;
    let table = CallTable::new(alloc);
    let bytes = Vec::from_slice(alloc, MOVED.as_bytes())?;
    let mut source = MemSource::new(bytes, Vec::from_slice(alloc, &[input_fails])?);
    let mut held = MemSink::new(alloc, Vec::from_slice(alloc, &[out_fails])?);
    let mut said = MemSink::new(alloc, Vec::new(alloc));
    let status = run(
        alloc,
        words.as_slice(),
        &table,
        &mut source,
        &mut held,
        &mut said,
        &mut Broken::new(alloc),
        &Handlers::new(alloc),
        &mut BusTurns::new(),
    );
    Ok((status, held))
}

// Each of the first 20 calls of the input fails in turn, and each of out.
#[test]
fn a_call_that_fails(rt: HostRuntime) -> Result<(), Fail> {
    let alloc = rt.alloc();
    for call in 1..=20u64 {
        let (status, held) = moved(alloc, call, 0)?;
        let (wanted, text) = match call {
            1 => (3u8, ""),
            2 => (3, MOVES),
            _ => (0, MOVES),
        };
        assert_eq!(rt; status, wanted);
        assert_eq!(rt; held.held(), text.as_bytes());
        let (status, held) = moved(alloc, 0, call)?;
        assert_eq!(rt; status, if call <= 5 { 4 } else { 0 });
        assert_eq!(rt; held.held(), first_lines(MOVES.as_bytes(), call - 1));
    }
    Ok(())
}

// A line that is printed is one write, where the sink takes it whole.
#[test]
fn pieces(rt: HostRuntime) -> Result<(), Fail> {
    let alloc = rt.alloc();
    let words = strings(alloc, PLAY)?;
    let table = CallTable::new(alloc);
    for (give, take, calls) in [(1, 1, 69), (1, 100, 4), (100, 1, 69), (3, 7, 12)] {
        let mut source = Slow {
            bytes: SESSION.as_bytes(),
            most: give,
        };
        let mut held = Narrow::new(alloc, take);
        let mut said = Narrow::new(alloc, take);
        assert_eq!(rt;
            run(
                alloc,
                words.as_slice(),
                &table,
                &mut source,
                &mut held,
                &mut said,
                &mut Broken::new(alloc),
                &Handlers::new(alloc),
                &mut BusTurns::new()
            ),
            0
        );
        assert_eq!(rt; held.bytes.as_slice(), ANSWERS.as_bytes());
        assert_eq!(rt; (held.calls, said.calls), (calls, 0));
    }
    Ok(())
}

// What is said of an input of so many letters and this end, after its first line.
fn said_of_letters(alloc: Global, letters: usize, end: &[u8]) -> Result<MemSink, Fail> {
    let words = strings(alloc, PLAY)?;
    let table = CallTable::new(alloc);
    let mut bytes = Vec::from_slice(alloc, b"nodes 1\n")?;
    for _ in 0..letters {
        bytes.push(b'a')?;
    }
    bytes.extend_from_slice(end)?;
    let mut source = MemSource::new(bytes, Vec::new(alloc));
    let mut held = MemSink::new(alloc, Vec::new(alloc));
    let mut said = MemSink::new(alloc, Vec::new(alloc));
    run(
        alloc,
        words.as_slice(),
        &table,
        &mut source,
        &mut held,
        &mut said,
        &mut Broken::new(alloc),
        &Handlers::new(alloc),
        &mut BusTurns::new(),
    );
    Ok(said)
}

#[test]
fn long_lines(rt: HostRuntime) -> Result<(), Fail> {
    let cases: [(usize, &[u8], &str); 4] = [
        (65535, b"", "ctdbsim: line 2: unended\n"),
        (65536, b"", "ctdbsim: line 2: long\n"),
        (65535, b"\n", "ctdbsim: line 2: words\n"),
        (65536, b"\n", "ctdbsim: line 2: long\n"),
    ];
    for (letters, end, err) in cases {
        let said = said_of_letters(rt.alloc(), letters, end)?;
        assert_eq!(rt; said.held(), err.as_bytes());
    }
    Ok(())
}
