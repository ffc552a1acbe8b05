//! Lines of words, against a program that makes them in another language.
use ct_lines::print::print_line;
use ct_soak::soak::soak_line;
use std::alloc::Global;
use std::test::Fail;

/// Is this the line of the word, where five messages were sent and one of four nodes does not run?
fn is_line(alloc: Global, word: u32, text: &str) -> Result<bool, Fail> {
    let line = soak_line(alloc, word, 5, &[true, false, true, true])?;
    Ok(print_line(alloc, &line)?.as_slice() == text.as_bytes())
}

#[test]
fn locks(rt: HostRuntime) -> Result<(), Fail> {
    let alloc = rt.alloc();
    assert!(rt; is_line(alloc, 0, "lock 0 t a")?);
    assert!(rt; is_line(alloc, 2047971, "lock 3 r h")?);
    assert!(rt; is_line(alloc, 4098142, "lock 2 g_lock p")?);
    Ok(())
}

#[test]
fn unlocks(rt: HostRuntime) -> Result<(), Fail> {
    let alloc = rt.alloc();
    assert!(rt; is_line(alloc, 10759, "unlock 0 t e")?);
    assert!(rt; is_line(alloc, 13994, "unlock 1 r f")?);
    Ok(())
}

#[test]
fn stores(rt: HostRuntime) -> Result<(), Fail> {
    let alloc = rt.alloc();
    assert!(rt; is_line(alloc, 2048292, "store 1 t c 0")?);
    assert!(rt; is_line(alloc, 4095430, "store 2 r d 999")?);
    assert!(rt; is_line(alloc, 4071050724, "store 3 r d 817")?);
    Ok(())
}

#[test]
fn reads(rt: HostRuntime) -> Result<(), Fail> {
    let alloc = rt.alloc();
    assert!(rt; is_line(alloc, 15179, "read 2 t g")?);
    assert!(rt; is_line(alloc, 17518, "read 3 r a")?);
    Ok(())
}

#[test]
fn writes(rt: HostRuntime) -> Result<(), Fail> {
    let alloc = rt.alloc();
    assert!(rt; is_line(alloc, 2134191, "ctdb 1 writekey t b 42")?);
    assert!(rt; is_line(alloc, 36176, "apply 2 r c 1 17")?);
    Ok(())
}

#[test]
fn settles(rt: HostRuntime) -> Result<(), Fail> {
    let alloc = rt.alloc();
    assert!(rt; is_line(alloc, 17, "settle 1")?);
    assert!(rt; is_line(alloc, 4294965304, "settle 8")?);
    assert!(rt; is_line(alloc, 1390851128, "settle 7")?);
    Ok(())
}

#[test]
fn messages(rt: HostRuntime) -> Result<(), Fail> {
    let alloc = rt.alloc();
    assert!(rt; is_line(alloc, 22553, "deliver 6")?);
    assert!(rt; is_line(alloc, 24602, "drop 1")?);
    assert!(rt; is_line(alloc, 4294965275, "repeat 2")?);
    Ok(())
}

#[test]
fn retries_and_vacuums(rt: HostRuntime) -> Result<(), Fail> {
    let alloc = rt.alloc();
    assert!(rt; is_line(alloc, 19708, "retry 3")?);
    assert!(rt; is_line(alloc, 21725, "vacuum 2 t")?);
    Ok(())
}

#[test]
fn recoveries(rt: HostRuntime) -> Result<(), Fail> {
    let alloc = rt.alloc();
    assert!(rt; is_line(alloc, 2048062, "recover 1 0,1,2,3")?);
    assert!(rt; is_line(alloc, 2064414, "recover 0 0,2,3")?);
    Ok(())
}

#[test]
fn starts_and_stops(rt: HostRuntime) -> Result<(), Fail> {
    let alloc = rt.alloc();
    assert!(rt; is_line(alloc, 33215, "start 1")?);
    assert!(rt; is_line(alloc, 33247, "stop 2")?);
    Ok(())
}

#[test]
fn commits(rt: HostRuntime) -> Result<(), Fail> {
    let alloc = rt.alloc();
    assert!(rt; is_line(alloc, 2064863, "commit 2 p d=8")?);
    assert!(rt; is_line(alloc, 4099487, "commit 0 p d=1")?);
    assert!(rt; is_line(alloc, 4294967295, "commit 3 p h=151")?);
    Ok(())
}
