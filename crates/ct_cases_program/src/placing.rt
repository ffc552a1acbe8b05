//! Lines that are taken and refused, and texts, against worked examples and a program that writes each list of moves out.
use ct_lcp2_lines::placing::Placing;
use ct_lines::line::{LineKind, LineKindFault};
use std::alloc::Global;
use std::test::Fail;

/// Are all lines of the input but the last taken, and is the last one too, or refused so, and is this the text then?
fn prints(alloc: Global, input: &str, refused: Option<LineKind>, text: &str) -> Result<bool, Fail> {
    let mut placing = Placing::new(alloc);
    let mut last = Ok(());
    let mut taken = true;
    for line in input.lines() {
        taken = taken && last.is_ok();
        last = placing.line(line.as_bytes());
    }
    let expected = match refused {
        None => Ok(()),
        Some(kind) => Err(LineKindFault::Kind(kind)),
    };
    Ok(taken && last == expected && placing.text()?.as_slice() == text.as_bytes())
}

#[test]
fn nothing_is_placed(rt: HostRuntime) -> Result<(), Fail> {
    let alloc = rt.alloc();
    assert!(rt; prints(alloc, "", None, "")?);
    assert!(rt; prints(alloc, "nodes 1", None, "imbalance 0 0\n")?);
    Ok(())
}

#[test]
fn addresses_that_are_nowhere(rt: HostRuntime) -> Result<(), Fail> {
    let input =
        "nodes 2\naddress 192.168.1.1\naddress 192.168.1.2\naddress 192.168.1.3\naddress 192.168.1.4";
    let text =
        "192.168.1.1 0\n192.168.1.2 1\n192.168.1.3 1\n192.168.1.4 0\nimbalance 0 841\nimbalance 1 961\n";
    assert!(rt; prints(rt.alloc(), input, None, text)?);
    Ok(())
}

#[test]
fn addresses_at_one_of_two_nodes(rt: HostRuntime) -> Result<(), Fail> {
    let input =
        "nodes 2\naddress 192.168.1.1 0\naddress 192.168.1.2 0\naddress 192.168.1.3 0\naddress 192.168.1.4 0";
    let text =
        "192.168.1.1 1\n192.168.1.2 1\n192.168.1.3 0\n192.168.1.4 0\nimbalance 0 841\nimbalance 1 900\n";
    assert!(rt; prints(rt.alloc(), input, None, text)?);
    Ok(())
}

#[test]
fn a_disabled_node_gets_nothing(rt: HostRuntime) -> Result<(), Fail> {
    let input = "nodes 1\ndisabled 0\naddress 10.0.0.1";
    let text = "10.0.0.1 -1\nimbalance 0 0\n";
    assert!(rt; prints(rt.alloc(), input, None, text)?);
    Ok(())
}

#[test]
fn addresses_of_both_kinds(rt: HostRuntime) -> Result<(), Fail> {
    let input = "nodes 2\naddress 2001:db8::1\naddress 2001:db8::2\naddress 10.0.0.1";
    let text = "10.0.0.1 0\n2001:db8::1 0\n2001:db8::2 1\nimbalance 0 0\nimbalance 1 0\n";
    assert!(rt; prints(rt.alloc(), input, None, text)?);
    Ok(())
}

#[test]
fn addresses_at_nodes_of_which_two_are_disabled(rt: HostRuntime) -> Result<(), Fail> {
    let input =
        "nodes 4\ndisabled 1\ndisabled 3\naddress 10.0.0.7 2\naddress 2001:db8::5 0\naddress 10.0.0.1 2\naddress 10.0.0.2 1\naddress 10.0.8.1 2\naddress 2001:db8::9 3\naddress 10.0.0.5 2\naddress 10.0.0.3";
    let text =
        "10.0.0.1 2\n10.0.0.2 0\n10.0.0.3 0\n10.0.0.5 2\n10.0.0.7 2\n10.0.8.1 2\n2001:db8::5 0\n2001:db8::9 2\nimbalance 0 961\nimbalance 1 0\nimbalance 2 3782\nimbalance 3 0\n";
    assert!(rt; prints(rt.alloc(), input, None, text)?);
    Ok(())
}

#[test]
fn numbers_out_of_range(rt: HostRuntime) -> Result<(), Fail> {
    let alloc = rt.alloc();
    let words = Some(LineKind::Words);
    assert!(rt; prints(alloc, "nodes 0", words, "")?);
    assert!(rt; prints(alloc, "nodes 17", words, "")?);
    assert!(rt; prints(alloc, "nodes 1\ndisabled 1", words, "imbalance 0 0\n")?);
    assert!(rt;
        prints(
            alloc,
            "nodes 1\naddress 10.0.0.1 1",
            words,
            "imbalance 0 0\n"
        )?
    );
    Ok(())
}

#[test]
fn words_that_are_no_address(rt: HostRuntime) -> Result<(), Fail> {
    let alloc = rt.alloc();
    let words = Some(LineKind::Words);
    assert!(rt;
        prints(
            alloc,
            "nodes 1\naddress 2001:0db8::1",
            words,
            "imbalance 0 0\n"
        )?
    );
    assert!(rt;
        prints(
            alloc,
            "nodes 1\naddress  10.0.0.1",
            words,
            "imbalance 0 0\n"
        )?
    );
    Ok(())
}

#[test]
fn lines_out_of_order(rt: HostRuntime) -> Result<(), Fail> {
    let alloc = rt.alloc();
    let order = Some(LineKind::Order);
    assert!(rt; prints(alloc, "disabled 1", order, "")?);
    assert!(rt; prints(alloc, "address 10.0.0.1 5", order, "")?);
    assert!(rt; prints(alloc, "nodes 1\nnodes 1", order, "imbalance 0 0\n")?);
    let input = "nodes 1\naddress 10.0.0.1\ndisabled 0";
    assert!(rt; prints(alloc, input, order, "10.0.0.1 0\nimbalance 0 0\n")?);
    Ok(())
}

#[test]
fn lines_that_repeat(rt: HostRuntime) -> Result<(), Fail> {
    let alloc = rt.alloc();
    let repeat = Some(LineKind::Repeat);
    let input = "nodes 2\ndisabled 1\ndisabled 1";
    assert!(rt; prints(alloc, input, repeat, "imbalance 0 0\nimbalance 1 0\n")?);
    let input = "nodes 2\naddress 10.0.0.1\naddress 10.0.0.1 1";
    assert!(rt;
        prints(
            alloc,
            input,
            repeat,
            "10.0.0.1 0\nimbalance 0 0\nimbalance 1 0\n"
        )?
    );
    Ok(())
}

/// The longest line that is read, and the most addresses.
#[test]
fn most(rt: HostRuntime) -> Result<(), Fail> {
    let alloc = rt.alloc();
    let mut placing = Placing::new(alloc);
    let mut long = vec![in alloc; b'a'; 65535]?;
    assert!(rt; placing.line(&long) == Err(LineKindFault::Kind(LineKind::Words)));
    long.push(b'a')?;
    assert!(rt; placing.line(&long) == Err(LineKindFault::Kind(LineKind::Long)));
    assert!(rt; placing.line(b"nodes 1") == Ok(()));
    for i in 0u8..=255 {
        let line = format!(in alloc; "address 10.0.0.{i}")?;
        assert!(rt; placing.line(line.as_bytes()) == Ok(()));
    }
    assert!(rt; placing.line(b"address 10.0.1.0") == Err(LineKindFault::Kind(LineKind::Limit)));
    assert!(rt; placing.line(b"address 10.0.0.9") == Err(LineKindFault::Kind(LineKind::Repeat)));
    Ok(())
}
