//! Runs of the library's call with ample memory.
use ct_call::table::CallTable;
use ct_ladder_play::running::run;
use ct_outside::memory::{MemSink, MemSource};
use std::alloc::Global;
use std::test::Fail;

// The words, an input, which calls of the input, out and err fail, and the status, whether out got a picture, and err.
type Case = (
    &'static [&'static str],
    &'static str,
    [&'static [u64]; 3],
    (u8, bool, &'static str),
);

const NONE: [&[u64]; 3] = [&[], &[], &[]];

const MOVES: &str = "frame 1 1 0 1 call t b 1 lock\nanswer 1 locked -\n";

const WALKS: &str =
    "tframe 1 0 1 1 ask 1 copies\ntframe 2 1 0 1 rows 1 copies 2\ntlost 2\ntraverse 1 ended\npending-traverse 2 0 t\nkey=a data=x\nDumped 1 records\n";

const PLAYS: &str =
    "nodes 2\ndb t volatile\nlock 1 t b\ndrop 1\nretry 1\nsettle 3\nrepeat 2\nread 0 t d\nctdb 1 catdb t\n";

const SCENARIO: &[&str] = &["--scenario"];

const LINES: &[&str] = &["--lines"];

const CASES: [Case; 31] = [
    (SCENARIO, PLAYS, NONE, (0, true, "")),
    (LINES, PLAYS, NONE, (0, true, "")),
    (SCENARIO, "", NONE, (0, true, "")),
    (SCENARIO, "nodes 16\n", NONE, (0, true, "")),
    (SCENARIO, MOVES, NONE, (2, false, "ctdbpicture: line 1\n")),
    (&[], PLAYS, NONE, (2, false, "ctdbpicture: line 1\n")),
    (
        SCENARIO,
        "nodes 2\nnodes 2\n",
        NONE,
        (2, false, "ctdbpicture: line 2\n"),
    ),
    (
        LINES,
        "nodes 2\nsettle 0\n",
        NONE,
        (2, false, "ctdbpicture: line 2\n"),
    ),
    (
        LINES,
        "settle 9\n",
        NONE,
        (2, false, "ctdbpicture: line 1\n"),
    ),
    (
        SCENARIO,
        "nodes 2\nstop 1\nstop 1\n",
        NONE,
        (2, false, "ctdbpicture: line 3\n"),
    ),
    (
        LINES,
        "nodes 2\nstop 1",
        NONE,
        (2, false, "ctdbpicture: line 2\n"),
    ),
    (
        &["--lines", "--lines"],
        PLAYS,
        NONE,
        (1, false, "ctdbpicture: usage\n"),
    ),
    (
        &["scenario"],
        PLAYS,
        NONE,
        (1, false, "ctdbpicture: usage\n"),
    ),
    (
        SCENARIO,
        PLAYS,
        [&[1], &[], &[]],
        (3, false, "ctdbpicture: read fault\n"),
    ),
    (
        LINES,
        PLAYS,
        [&[], &[1], &[]],
        (4, false, "ctdbpicture: write fault\n"),
    ),
    (&[], MOVES, NONE, (0, true, "")),
    (&[], WALKS, NONE, (0, true, "")),
    (
        &[],
        "tframe 1 0 1 1 walk 1 1\n",
        NONE,
        (2, false, "ctdbpicture: line 1\n"),
    ),
    (&[], "", NONE, (0, true, "")),
    (&["run"], MOVES, NONE, (1, false, "ctdbpicture: usage\n")),
    (
        &[],
        "lock 1 t b\n",
        NONE,
        (2, false, "ctdbpicture: line 1\n"),
    ),
    (
        &[],
        "answer 1 locked -\n\n",
        NONE,
        (2, false, "ctdbpicture: line 2\n"),
    ),
    (
        &[],
        "answer 1 lo",
        NONE,
        (2, false, "ctdbpicture: line 1\n"),
    ),
    (
        &[],
        "answer 1 \u{e9}\n",
        NONE,
        (2, false, "ctdbpicture: line 1\n"),
    ),
    (
        &[],
        "answer 1 a\tb\n",
        NONE,
        (2, false, "ctdbpicture: line 1\n"),
    ),
    (
        &[],
        "stopped 16\n",
        NONE,
        (2, false, "ctdbpicture: line 1\n"),
    ),
    (
        &[],
        "frame 1 0 1 1 cal t b 1 lock\n",
        NONE,
        (2, false, "ctdbpicture: line 1\n"),
    ),
    (
        &[],
        MOVES,
        [&[1], &[], &[]],
        (3, false, "ctdbpicture: read fault\n"),
    ),
    (
        &[],
        MOVES,
        [&[2], &[], &[]],
        (3, false, "ctdbpicture: read fault\n"),
    ),
    (
        &[],
        MOVES,
        [&[], &[1], &[]],
        (4, false, "ctdbpicture: write fault\n"),
    ),
    (&["run"], MOVES, [&[], &[], &[1]], (4, false, "")),
];

fn strings(alloc: Global, words: &[&str]) -> Result<Vec<String>, Fail> {
    let mut strings = Vec::new(alloc);
    for word in words {
        strings.push(String::from_str(alloc, word)?)?;
    }
    Ok(strings)
}

fn agrees(alloc: Global, case: &Case) -> Result<bool, Fail> {
    let (words, input, [input_fails, out_fails, err_fails], (status, drawn, err)) = *case;
    let words = strings(alloc, words)?;
    let table = CallTable::new(alloc);
    let bytes = Vec::from_slice(alloc, input.as_bytes())?;
    let mut source = MemSource::new(bytes, Vec::from_slice(alloc, input_fails)?);
    let mut held = MemSink::new(alloc, Vec::from_slice(alloc, out_fails)?);
    let mut said = MemSink::new(alloc, Vec::from_slice(alloc, err_fails)?);
    let got = run(
        alloc,
        &table,
        words.as_slice(),
        &mut source,
        &mut held,
        &mut said,
    );
    let whole = held.held().ends_with(b"</svg>\n");
    Ok(
        got == status
            && drawn == whole
            && drawn != held.held().is_empty()
            && said.held() == err.as_bytes(),
    )
}

/// The place of the first row that does not agree.
fn odd_row(alloc: Global, cases: &[Case]) -> Result<Option<usize>, Fail> {
    for (row, case) in cases.iter().enumerate() {
        if !agrees(alloc, case)? {
            return Ok(Some(row));
        }
    }
    Ok(None)
}

#[test]
fn what_is_drawn_and_what_fails(rt: HostRuntime) -> Result<(), Fail> {
    assert_eq!(rt; odd_row(rt.alloc(), &CASES)?, None);
    Ok(())
}
