//! Small scenarios, with ample memory.

use crate::parse::parse;
use crate::print::print;
use crate::scenario::LineFault;
use ct_lines::line::LineKind;
use std::alloc::Global;
use std::test::Fail;

/// Is the text read, and written as it was?
fn is_read(alloc: Global, text: &[u8]) -> Result<bool, Fail> {
    let scenario = parse(alloc, text)?;
    let written = print(alloc, &scenario)?;
    Ok(written.as_slice() == text)
}

/// Is the line of this number the first one that is refused, for this reason?
fn is_refused(alloc: Global, text: &[u8], number: u64, why: LineKind) -> bool {
    match parse(alloc, text) {
        Ok(scenario) => {
            drop(scenario);
            false
        }
        Err(fault) => fault
            == LineFault::At {
                line: number,
                kind: why,
            },
    }
}

#[test]
fn scenarios_are_read_and_written(rt: HostRuntime) -> Result<(), Fail> {
    let alloc = rt.alloc();
    assert!(rt; is_read(alloc, b"")?);
    assert!(rt; is_read(alloc, b"nodes 2\ndb t volatile\nread 0 t k\nsettle 10\n")?);
    Ok(())
}

#[test]
fn the_first_refused_line_is_told(rt: HostRuntime) -> Result<(), Fail> {
    let alloc = rt.alloc();
    assert!(rt; is_refused(alloc, b"nodes 2\nnodes 2\n", 2, LineKind::Order));
    assert!(rt; is_refused(alloc, b"nodes 2\ndb g_lock volatile\n", 2, LineKind::Repeat));
    assert!(rt;
        is_refused(
            alloc,
            b"nodes 2\nread 0  t k\nnodes 2\n",
            2,
            LineKind::Words
        )
    );
    assert!(rt; is_refused(alloc, b"nodes 2\nsettle 1", 2, LineKind::Unended));
    Ok(())
}
