use ct_values::address::{Address, push_address};
use ct_values::copies::Duplicate;
use std::alloc::Global;
use std::test::Fail;

/// Does it push so after other bytes?
fn is_pushed(alloc: Global, address: Address, spelling: &[u8]) -> Result<bool, Fail> {
    let mut text = Vec::from_slice(alloc, b"at ")?;
    push_address(&mut text, address)?;
    Ok(&text[..3] == b"at ".as_slice() && &text[3..] == spelling)
}

fn is_copied(address: Address) -> Result<bool, Fail> {
    Ok(address.duplicate()? == address)
}

fn is_read(spelling: &[u8], address: Address) -> bool {
    match Address::parse(spelling) {
        Some(it) => it == address,
        None => false,
    }
}

fn is_so(alloc: Global, address: Address, spelling: &[u8]) -> Result<bool, Fail> {
    Ok(is_read(spelling, address) && is_pushed(alloc, address, spelling)? && is_copied(address)?)
}

#[test]
fn spells_and_reads(rt: HostRuntime) -> Result<(), Fail> {
    let table = [
        ("0.0.0.0", Address::V4(0)),
        ("255.255.255.255", Address::V4(0xffff_ffff)),
        ("10.0.0.1", Address::V4(0x0a00_0001)),
        ("192.168.1.4", Address::V4(0xc0a8_0104)),
        ("::", Address::V6(0)),
        ("::1", Address::V6(1)),
        (
            "1::",
            Address::V6(0x0001_0000_0000_0000_0000_0000_0000_0000),
        ),
        (
            "2001:db8::1",
            Address::V6(0x2001_0db8_0000_0000_0000_0000_0000_0001),
        ),
        (
            "2001:db8::2",
            Address::V6(0x2001_0db8_0000_0000_0000_0000_0000_0002),
        ),
        (
            "2001:db8:0:1:1:1:1:1",
            Address::V6(0x2001_0db8_0000_0001_0001_0001_0001_0001),
        ),
        (
            "2001:0:0:1::1",
            Address::V6(0x2001_0000_0000_0001_0000_0000_0000_0001),
        ),
        (
            "2001:db8::1:0:0:1",
            Address::V6(0x2001_0db8_0000_0000_0001_0000_0000_0001),
        ),
        (
            "ffff:ffff:ffff:ffff:ffff:ffff:ffff:ffff",
            Address::V6(0xffff_ffff_ffff_ffff_ffff_ffff_ffff_ffff),
        ),
        ("::ffff:102:304", Address::V6(0xffff_0102_0304)),
    ];
    for (spelling, address) in table {
        assert!(rt;
            is_so(rt.alloc(), address, spelling.as_bytes())?,
            "{spelling}"
        );
    }
    Ok(())
}

#[test]
fn refuses(rt: HostRuntime) {
    let table = [
        "",
        "1.2.3",
        "1.2.3.4.5",
        "01.2.3.4",
        "256.1.1.1",
        "1.2.3.",
        " 1.2.3.4",
        "2001:0db8::1",
        "2001:DB8::1",
        "1:2:3:4:5:6:7",
        "1:2:3:4:5:6:7:8:9",
        "1::2::3",
        "2001:db8:0:0:1:0:0:1",
        "::ffff:1.2.3.4",
        "1:2:3:4:5:6:7::",
        ":::",
        "12345::",
        "g::",
    ];
    for word in table {
        assert!(rt; Address::parse(word.as_bytes()).is_none(), "{word}");
    }
}

fn is_less(first: Address, second: Address) -> bool {
    first < second
}

#[test]
fn is_ordered(rt: HostRuntime) {
    assert!(rt; is_less(Address::V4(0xffff_ffff), Address::V6(0)));
    assert!(rt; is_less(Address::V4(1), Address::V4(2)));
    assert!(rt; is_less(Address::V6(1), Address::V6(2)));
}
