//! Soaks with ample memory, against lines that a program in another language printed.
use ct_call::table::CallTable;
use ct_soak::soaking::soak;
use std::alloc::Global;
use std::test::Fail;

/// Does the soak answer this line?
fn is_soak(alloc: Global, seed: u64, steps: u32, line: &str) -> Result<bool, Fail> {
    let table = CallTable::new(alloc);
    Ok(soak(alloc, &table, seed, steps)?.as_slice() == line.as_bytes())
}

#[test]
fn one_step(rt: HostRuntime) -> Result<(), Fail> {
    let line = "soak 1 skipped 0 frames 0 calls 0 pending 0 ticket 1\n";
    assert!(rt; is_soak(rt.alloc(), 1, 1, line)?);
    Ok(())
}

#[test]
fn a_short_soak(rt: HostRuntime) -> Result<(), Fail> {
    let line = "soak 100 skipped 6 frames 33 calls 58 pending 3 ticket 2\n";
    assert!(rt; is_soak(rt.alloc(), 7, 100, line)?);
    Ok(())
}

#[test]
fn a_longer_soak(rt: HostRuntime) -> Result<(), Fail> {
    let line = "soak 2000 skipped 356 frames 641 calls 972 pending 24 ticket 4\n";
    assert!(rt; is_soak(rt.alloc(), 1, 2000, line)?);
    Ok(())
}

#[test]
fn a_long_soak_of_the_last_seed(rt: HostRuntime) -> Result<(), Fail> {
    let line = "soak 20000 skipped 8620 frames 1847 calls 5503 pending 12 ticket 26\n";
    assert!(rt; is_soak(rt.alloc(), 18446744073709551615, 20000, line)?);
    Ok(())
}
