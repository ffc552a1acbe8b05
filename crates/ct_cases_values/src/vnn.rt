//! Maps and the members that keys pick, against values from outside.
use ct_values::key::Key;
use ct_values::map::{MapFault, VnnMap, lmaster};
use std::alloc::Global;
use std::test::Fail;

fn has(map: &VnnMap, members: &[u32]) -> Result<bool, Fail> {
    Ok(map.copy()?.members() == members && map.members() == members)
}

fn makes(alloc: Global, members: &[u32], wanted: Result<(), MapFault>) -> Result<bool, Fail> {
    match VnnMap::new(alloc, members) {
        Ok(map) => Ok(has(&map, members)? && wanted == Ok(())),
        Err(fault) => Ok(wanted == Err(fault)),
    }
}

#[test]
fn maps(rt: HostRuntime) -> Result<(), Fail> {
    for (members, wanted) in [
        ([].as_slice(), Err(MapFault::Empty)),
        ([0u32].as_slice(), Ok(())),
        ([2, 0, 1].as_slice(), Ok(())),
        ([4294967295, 0].as_slice(), Ok(())),
        ([7, 7].as_slice(), Err(MapFault::Repeated(7))),
        ([1, 2, 3, 2, 1].as_slice(), Err(MapFault::Repeated(2))),
        ([1, 2, 3, 1, 2].as_slice(), Err(MapFault::Repeated(1))),
    ] {
        assert!(rt; makes(rt.alloc(), members, wanted)?);
    }
    Ok(())
}

/// The member that a key picks.
fn picked(alloc: Global, members: &[u32], key: &[u8]) -> Result<u32, Fail> {
    let map = VnnMap::new(alloc, members)?;
    let key = Key::new(alloc, key)?;
    Ok(lmaster(&map, &key))
}

/// What a key picks of two, of three and of four members.
fn all_picked(alloc: Global, key: &[u8]) -> Result<[u32; 3], Fail> {
    Ok([
        picked(alloc, &[10, 11], key)?,
        picked(alloc, &[10, 11, 12], key)?,
        picked(alloc, &[10, 11, 12, 13], key)?,
    ])
}

#[test]
fn picks(rt: HostRuntime) -> Result<(), Fail> {
    for (key, wanted) in [
        (b"a".as_slice(), [11u32, 11, 11]),
        (b"b".as_slice(), [10, 12, 10]),
        (b"c".as_slice(), [11, 10, 13]),
        (b"d".as_slice(), [10, 11, 12]),
    ] {
        assert!(rt; all_picked(rt.alloc(), key)? == wanted);
    }
    Ok(())
}
