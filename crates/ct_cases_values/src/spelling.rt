use ct_spelling::spelling::{SpellFault, push_spelling, spell, unspell};
use std::alloc::Global;
use std::test::Fail;

fn is_spelled(alloc: Global, bytes: &[u8], word: &[u8]) -> Result<bool, Fail> {
    Ok(spell(alloc, bytes)?.as_slice() == word)
}

fn is_unspelled(alloc: Global, word: &[u8], bytes: &[u8]) -> Result<bool, Fail> {
    Ok(unspell(alloc, word)?.as_slice() == bytes)
}

fn is_pushed(alloc: Global, bytes: &[u8], word: &[u8]) -> Result<bool, Fail> {
    let mut text = Vec::from_slice(alloc, b"PUT")?;
    push_spelling(&mut text, bytes)?;
    Ok(&text[..3] == b"PUT".as_slice() && &text[3..] == word)
}

#[test]
fn spells_and_unspells(rt: HostRuntime) -> Result<(), Fail> {
    for (bytes, word) in [
        (b"".as_slice(), b"-".as_slice()),
        (&[0x2d], b"%2d"),
        (b"a b", b"a%20b"),
        (&[0x25], b"%25"),
        (&[0x3d], b"%3d"),
        (&[0x00, 0xff, 0x7f], b"%00%ff%7f"),
        (b"v1", b"v1"),
        (b"--", b"--"),
    ] {
        assert!(rt; is_spelled(rt.alloc(), bytes, word)?);
        assert!(rt; is_unspelled(rt.alloc(), word, bytes)?);
        assert!(rt; is_pushed(rt.alloc(), bytes, word)?);
    }
    Ok(())
}

fn is_refused(alloc: Global, word: &[u8]) -> bool {
    matches!(unspell(alloc, word), Err(SpellFault::BadSpelling))
}

#[test]
fn refuses(rt: HostRuntime) {
    for word in [
        b"".as_slice(),
        b"%2D",
        b"%41",
        b"%",
        b"%4",
        b"%zz",
        b"a b",
        b"=",
        b"a%",
        b"%2d-",
    ] {
        assert!(rt; is_refused(rt.alloc(), word));
    }
}
