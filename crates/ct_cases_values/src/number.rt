use ct_spelling::number::{parse_decimal, push_decimal};
use std::alloc::Global;
use std::test::Fail;

fn is_written(alloc: Global, n: u64, word: &[u8]) -> Result<bool, Fail> {
    let mut text = Vec::from_slice(alloc, b"x")?;
    push_decimal(&mut text, n)?;
    Ok(&text[..1] == b"x".as_slice() && &text[1..] == word)
}

#[test]
fn writes_and_reads(rt: HostRuntime) -> Result<(), Fail> {
    for (n, word) in [
        (0, b"0".as_slice()),
        (9, b"9"),
        (10, b"10"),
        (18446744073709551615, b"18446744073709551615"),
    ] {
        assert!(rt; is_written(rt.alloc(), n, word)?);
        assert!(rt; parse_decimal(word) == Some(n));
    }
    Ok(())
}

#[test]
fn refuses(rt: HostRuntime) {
    for word in [
        b"".as_slice(),
        b"00",
        b"01",
        b"+1",
        b"-1",
        b"18446744073709551616",
        b"1a",
        b" 1",
    ] {
        assert!(rt; parse_decimal(word).is_none());
    }
}
