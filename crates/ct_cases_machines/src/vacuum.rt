use ct_tracking::candidates::Candidates;
use ct_tracking::vacuum::{Vacuum, VacuumPhase};
use ct_values::copies::Duplicate;
use ct_values::key::Key;
use std::alloc::Global;
use std::test::Fail;

fn called(vacuum: &mut Vacuum, call: VacuumPhase, node: u32, rsn: u64) -> bool {
    match call {
        VacuumPhase::Storing => vacuum.stored(node, rsn),
        VacuumPhase::Deleting => vacuum.deleted(node, rsn),
    }
}

fn is_so(vacuum: &Vacuum, phase: VacuumPhase, missing: &[u32]) -> bool {
    vacuum.phase() == phase && vacuum.rsn() == 7 && vacuum.missing() == missing
}

/// Are it and its copy so?
fn are_so(vacuum: &Vacuum, phase: VacuumPhase, missing: &[u32]) -> Result<bool, Fail> {
    let copy = vacuum.duplicate()?;
    Ok(is_so(vacuum, phase, missing) && is_so(&copy, phase, missing))
}

#[test]
fn acknowledgements(rt: HostRuntime) -> Result<(), Fail> {
    let all = [1, 2, 4];
    let without_2 = [1, 4];
    let (storing, deleting) = (VacuumPhase::Storing, VacuumPhase::Deleting);
    let table = [
        (deleting, 1, 7, false, storing, all.as_slice()),
        (storing, 2, 8, false, storing, all.as_slice()),
        (storing, 2, 6, false, storing, all.as_slice()),
        (storing, 3, 7, false, storing, all.as_slice()),
        (storing, 2, 7, false, storing, without_2.as_slice()),
        (storing, 2, 7, false, storing, without_2.as_slice()),
        (storing, 4, 7, false, storing, &all[..1]),
        (storing, 1, 8, false, storing, &all[..1]),
        (storing, 1, 7, true, deleting, all.as_slice()),
        (storing, 1, 7, false, deleting, all.as_slice()),
        (deleting, 4, 8, false, deleting, all.as_slice()),
        (deleting, 4, 7, false, deleting, &all[..2]),
        (deleting, 4, 7, false, deleting, &all[..2]),
        (deleting, 1, 7, false, deleting, &all[1..2]),
        (deleting, 2, 7, true, deleting, &all[..0]),
        (deleting, 2, 7, false, deleting, &all[..0]),
    ];
    let mut vacuum = Vacuum::begin(rt.alloc(), 7, &all)?;
    assert!(rt; vacuum.phase() == storing && vacuum.missing() == all.as_slice());
    for (call, node, rsn, ends, phase, missing) in table {
        assert!(rt;
            called(&mut vacuum, call, node, rsn) == ends,
            "{node} {rsn}"
        );
        assert!(rt; are_so(&vacuum, phase, missing)?, "{node} {rsn}");
    }
    Ok(())
}

fn deletes_last(vacuum: &mut Vacuum) -> bool {
    vacuum.missing() == [3].as_slice() && vacuum.deleted(3, 0)
}

#[test]
fn one_other(rt: HostRuntime) -> Result<(), Fail> {
    let mut vacuum = Vacuum::begin(rt.alloc(), 0, &[3])?;
    assert!(rt; vacuum.stored(3, 0));
    let mut copy = vacuum.copy()?;
    assert!(rt; vacuum.deleted(3, 0));
    assert!(rt; deletes_last(&mut copy));
    Ok(())
}

/// A call, on a key of one byte.
#[derive(Clone, Copy)]
enum Call {
    Note(u8),
    Forget(u8),
}

fn add_keys(set: &Candidates, seen: &mut Vec<u8>) -> Result<(), Fail> {
    for key in &set.sorted()? {
        seen.extend_from_slice(key.bytes())?;
    }
    Ok(())
}

fn is_listed(alloc: Global, set: &Candidates, wanted: &[u8]) -> Result<bool, Fail> {
    let mut seen = Vec::new(alloc);
    add_keys(set, &mut seen)?;
    Ok(seen.as_slice() == wanted)
}

/// Are it, its copy and the copy of that so?
fn are_listed(alloc: Global, set: &Candidates, wanted: &[u8]) -> Result<bool, Fail> {
    let copy = set.copy()?;
    let again = copy.duplicate()?;
    Ok(
        is_listed(alloc, set, wanted)?
            && is_listed(alloc, &copy, wanted)?
            && is_listed(alloc, &again, wanted)?,
    )
}

fn call_on(alloc: Global, set: &mut Candidates, call: Call) -> Result<(), Fail> {
    match call {
        Call::Note(byte) => set.note(&Key::new(alloc, &[byte])?)?,
        Call::Forget(byte) => set.forget(&Key::new(alloc, &[byte])?),
    }
    Ok(())
}

#[test]
fn candidates(rt: HostRuntime) -> Result<(), Fail> {
    let alloc = rt.alloc();
    let table = [
        (Call::Forget(b'b'), ""),
        (Call::Note(b'b'), "b"),
        (Call::Note(b'c'), "bc"),
        (Call::Note(b'a'), "abc"),
        (Call::Note(b'b'), "abc"),
        (Call::Forget(b'b'), "ac"),
        (Call::Forget(b'b'), "ac"),
        (Call::Forget(b'c'), "a"),
        (Call::Note(b'b'), "ab"),
        (Call::Forget(b'a'), "b"),
    ];
    let mut candidates = Candidates::new(alloc);
    for (call, wanted) in table {
        call_on(alloc, &mut candidates, call)?;
        assert!(rt;
            are_listed(alloc, &candidates, wanted.as_bytes())?,
            "{wanted}"
        );
    }
    Ok(())
}
