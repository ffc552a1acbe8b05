//! Keys, values, names, lists and hashes, against values from outside.
use ct_values::hash::hash;
use ct_values::items::Items;
use ct_values::key::Key;
use ct_values::memory::BytesFault;
use ct_values::name::DbName;
use ct_values::value::Value;
use std::alloc::Global;
use std::test::Fail;

fn repeated(alloc: Global, count: usize) -> Result<Vec<u8>, Fail> {
    Ok(vec![in alloc; b'a'; count]?)
}

fn hashes_to(alloc: Global, bytes: &[u8], wanted: u32) -> Result<bool, Fail> {
    let key = Key::new(alloc, bytes)?;
    Ok(hash(&key) == wanted)
}

#[test]
fn hashes(rt: HostRuntime) -> Result<(), Fail> {
    for (bytes, wanted) in [
        (b"a".as_slice(), 155874025u32),
        (b"b".as_slice(), 1259389268),
        (b"c".as_slice(), 2362904511),
        (b"d".as_slice(), 3466419754),
    ] {
        assert!(rt; hashes_to(rt.alloc(), bytes, wanted)?);
    }
    Ok(())
}

fn is_length(fault: BytesFault, bytes: &[u8]) -> bool {
    fault == BytesFault::BadLength(bytes.len() as u64)
}

fn key_is_kept(key: &Key, bytes: &[u8]) -> Result<bool, Fail> {
    let same = key.copy()? == *key;
    Ok(same && key.bytes() == bytes)
}

fn makes_key(alloc: Global, bytes: &[u8], good: bool) -> Result<bool, Fail> {
    match Key::new(alloc, bytes) {
        Ok(it) => Ok(key_is_kept(&it, bytes)? && good),
        Err(fault) => Ok(is_length(fault, bytes) && !good),
    }
}

fn value_is_kept(value: &Value, bytes: &[u8]) -> Result<bool, Fail> {
    let same = value.copy()? == *value;
    Ok(same && value.bytes() == bytes)
}

fn makes_value(alloc: Global, bytes: &[u8], good: bool) -> Result<bool, Fail> {
    match Value::new(alloc, bytes) {
        Ok(it) => Ok(value_is_kept(&it, bytes)? && good),
        Err(fault) => Ok(is_length(fault, bytes) && !good),
    }
}

fn name_is_kept(name: &DbName, bytes: &[u8]) -> Result<bool, Fail> {
    let same = name.copy()? == *name;
    Ok(same && name.bytes() == bytes)
}

fn makes_name(alloc: Global, bytes: &[u8], good: bool) -> Result<bool, Fail> {
    match DbName::new(alloc, bytes) {
        Ok(it) => Ok(name_is_kept(&it, bytes)? && good),
        Err(fault) => Ok(is_length(fault, bytes) && !good),
    }
}

/// Do so many bytes make a key, a value and a name, or not?
fn makes(
    alloc: Global,
    count: usize,
    key: bool,
    value: bool,
    name: bool,
) -> Result<[bool; 3], Fail> {
    let bytes = repeated(alloc, count)?;
    Ok([
        makes_key(alloc, bytes.as_slice(), key)?,
        makes_value(alloc, bytes.as_slice(), value)?,
        makes_name(alloc, bytes.as_slice(), name)?,
    ])
}

#[test]
fn lengths(rt: HostRuntime) -> Result<(), Fail> {
    for (count, key, value, name) in [
        (0usize, false, true, false),
        (1, true, true, true),
        (63, true, true, true),
        (64, true, true, false),
        (255, true, true, false),
        (256, false, true, false),
        (1024, false, true, false),
        (1025, false, false, false),
    ] {
        let alike = makes(rt.alloc(), count, key, value, name)?;
        assert!(rt; alike == [true, true, true], "of {count}");
    }
    Ok(())
}

/// Is the byte there the first that no name has? `None`: is it a name?
fn is_bad_at(alloc: Global, bytes: &[u8], wanted: Option<u64>) -> bool {
    match DbName::new(alloc, bytes) {
        Ok(_) => wanted.is_none(),
        Err(BytesFault::BadByte(at)) => wanted == Some(at),
        Err(_) => false,
    }
}

#[test]
fn names(rt: HostRuntime) -> Result<(), Fail> {
    for (bytes, wanted) in [
        (b"t".as_slice(), None),
        (b"G_lock.tdb-2".as_slice(), None),
        (b"1t".as_slice(), Some(0u64)),
        (b"_t".as_slice(), Some(0)),
        (b"a b".as_slice(), Some(1)),
        (b"ab%c%".as_slice(), Some(2)),
    ] {
        assert!(rt; is_bad_at(rt.alloc(), bytes, wanted));
    }
    Ok(())
}

fn a_list(alloc: Global) -> Result<Items<u32>, Fail> {
    let mut list = Items::empty(alloc);
    list.push(3u32)?;
    list.push(1)?;
    list.push(2)?;
    let mut more = [7u32, 8].to_vec(alloc)?;
    list.append(&mut more)?;
    Ok(list)
}

#[test]
fn lists(rt: HostRuntime) -> Result<(), Fail> {
    let mut list = a_list(rt.alloc())?;
    assert!(rt; list.as_slice() == [3, 1, 2, 7, 8].as_slice());
    assert!(rt; list.copy(rt.alloc())? == list);
    assert!(rt; list.take_first() == Some(3));
    list.truncate(2);
    assert!(rt; list.into_vec().as_slice() == [1, 2].as_slice());
    Ok(())
}
