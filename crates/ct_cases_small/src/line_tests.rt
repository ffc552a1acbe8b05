//! Lines in their places.
use ct_lines::line::{LineKind, LineKindFault, ScenarioLine, TraverseLine};
use ct_lines::parse::parse_line;
use ct_lines::places::Places;
use ct_lines::print::print_line;
use ct_values::address::Address;
use ct_values::config::Config;
use std::alloc::Global;
use std::test::Fail;

/// Is the line refused at its place, and why?
fn checked(
    alloc: Global,
    places: &mut Places,
    line: &str,
) -> Result<Option<LineKind>, LineKindFault> {
    let item = parse_line(alloc, line.as_bytes())?;
    let answer = places.check(&item);
    drop(item);
    match answer {
        Ok(()) => Ok(None),
        Err(LineKindFault::Kind(kind)) => Ok(Some(kind)),
        Err(LineKindFault::NoMemory) => Err(LineKindFault::NoMemory),
    }
}

/// The number of the first of these lines that is refused, from 1, and why.
fn refused(
    alloc: Global,
    places: &mut Places,
    lines: &[&str],
) -> Result<Option<(usize, LineKind)>, Fail> {
    for (i, line) in lines.iter().enumerate() {
        if let Some(kind) = checked(alloc, places, *line)? {
            return Ok(Some((i + 1, kind)));
        }
    }
    Ok(None)
}

fn refused_of(alloc: Global, lines: &[&str]) -> Result<Option<(usize, LineKind)>, Fail> {
    let mut places = Places::new(alloc);
    refused(alloc, &mut places, lines)
}

#[test]
fn lines_in_their_places(rt: HostRuntime) -> Result<(), Fail> {
    let alloc = rt.alloc();
    for (lines, why) in [
        (
            ["db t volatile", "nodes 1", "nodes 1"],
            Some((1, LineKind::Order)),
        ),
        (
            ["read 0 t k", "nodes 1", "nodes 1"],
            Some((1, LineKind::Order)),
        ),
        (
            ["nodes 1", "nodes 1", "settle 1"],
            Some((2, LineKind::Order)),
        ),
        (
            ["nodes 1", "settle 1", "db t volatile"],
            Some((3, LineKind::Order)),
        ),
        (
            ["nodes 1", "retry 0", "address ::1"],
            Some((3, LineKind::Order)),
        ),
        (
            ["nodes 1", "ctdb 0 pnn", "db g_lock volatile"],
            Some((3, LineKind::Order)),
        ),
        (
            ["nodes 1", "db t volatile", "db t readonly"],
            Some((3, LineKind::Repeat)),
        ),
        (
            ["nodes 1", "db g_lock volatile", "settle 1"],
            Some((2, LineKind::Repeat)),
        ),
        (
            ["nodes 1", "address ::1", "address ::1"],
            Some((3, LineKind::Repeat)),
        ),
        (["nodes 2", "address ::1", "address 0.0.0.1"], None),
        (["nodes 2", "db u persistent", "read 0 t k"], None),
    ] {
        assert!(rt; refused_of(alloc, &lines)? == why);
    }
    Ok(())
}

fn is_read_and_printed(alloc: Global, line: &str, wanted: &ScenarioLine) -> Result<bool, Fail> {
    let read = parse_line(alloc, line.as_bytes())?;
    let same = read == *wanted;
    drop(read);
    Ok(same && print_line(alloc, wanted)?.as_slice() == line.as_bytes())
}

/// Is it the line of this?
fn is_line(alloc: Global, line: &str, wanted: TraverseLine) -> Result<bool, Fail> {
    let wanted = ScenarioLine::Traverse(wanted);
    let same = is_read_and_printed(alloc, line, &wanted);
    drop(wanted);
    same
}

#[test]
fn lines_of_traverses(rt: HostRuntime) -> Result<(), Fail> {
    let alloc = rt.alloc();
    assert!(rt; is_line(alloc, "walk 1", TraverseLine::Walk(1))?);
    assert!(rt; is_line(alloc, "walk 100000", TraverseLine::Walk(100000))?);
    assert!(rt; is_line(alloc, "carry 1", TraverseLine::Carry(1))?);
    let last = TraverseLine::Lose(4611686018427387903);
    assert!(rt; is_line(alloc, "lose 4611686018427387903", last)?);
    assert!(rt; is_line(alloc, "again 7", TraverseLine::Again(7))?);
    Ok(())
}

/// Is the line refused as `words`?
fn is_no_line(alloc: Global, line: &str) -> bool {
    match parse_line(alloc, line.as_bytes()) {
        Ok(item) => {
            drop(item);
            false
        }
        Err(fault) => fault == LineKindFault::Kind(LineKind::Words),
    }
}

#[test]
fn words_that_are_no_line_of_traverses(rt: HostRuntime) -> Result<(), Fail> {
    let alloc = rt.alloc();
    for line in [
        "walk 0",
        "walk 100001",
        "walk",
        "walk 1 1",
        "carry 0",
        "lose 4611686018427387904",
        "again x",
        "ctdb 0 catdb",
        "ctdb 0 catdb t u",
    ] {
        assert!(rt; is_no_line(alloc, line));
    }
    Ok(())
}

/// The configuration of what was accepted.
fn config(alloc: Global, places: &Places) -> Result<Config, Fail> {
    if places.nodes().is_none() {
        return Err(LineKindFault::Kind(LineKind::Order).into());
    }
    Ok(places.config(alloc)?)
}

fn has_three_dbs(config: &Config) -> bool {
    let dbs = config.dbs.as_slice();
    dbs.len() == 3
        && dbs[0].name.bytes() == b"g_lock".as_slice()
        && dbs[1].name.bytes() == b"t".as_slice()
        && dbs[2].name.bytes() == b"b".as_slice()
}

fn has_two_addresses(config: &Config) -> bool {
    config.nodes == 3 && config.addresses.as_slice() == [Address::V4(1), Address::V4(2)].as_slice()
}

fn declare(alloc: Global, places: &mut Places) -> Result<bool, Fail> {
    let lines = [
        "nodes 3",
        "db t volatile",
        "address 0.0.0.2",
        "db b persistent",
        "address 0.0.0.1",
    ];
    Ok(refused(alloc, places, &lines)? == None)
}

fn repeats_are_refused(alloc: Global, places: &mut Places) -> Result<bool, Fail> {
    for again in ["db t volatile", "address 0.0.0.2", "nodes 3"] {
        if refused(alloc, places, &[again])?.is_none() {
            return Ok(false);
        }
    }
    Ok(true)
}

fn declared(alloc: Global, places: &mut Places) -> Result<bool, Fail> {
    Ok(declare(alloc, places)? && repeats_are_refused(alloc, places)?)
}

fn is_configured(alloc: Global, places: &Places) -> Result<bool, Fail> {
    let config = config(alloc, places)?;
    Ok(has_three_dbs(&config) && has_two_addresses(&config))
}

#[test]
fn the_configuration(rt: HostRuntime) -> Result<(), Fail> {
    let mut places = Places::new(rt.alloc());
    assert!(rt; declared(rt.alloc(), &mut places)?);
    assert!(rt; is_configured(rt.alloc(), &places)?);
    Ok(())
}

fn takes_db(alloc: Global, places: &mut Places, number: u32) -> Result<bool, Fail> {
    let line = format!(in alloc; "db d{number} volatile")?;
    Ok(refused(alloc, places, &[line.as_str()])? == None)
}

fn takes_address(alloc: Global, places: &mut Places, number: u32) -> Result<bool, Fail> {
    let line = format!(in alloc; "address 0.0.0.{number}")?;
    Ok(refused(alloc, places, &[line.as_str()])? == None)
}

fn takes_dbs(alloc: Global, places: &mut Places) -> Result<bool, Fail> {
    for number in 0..15u32 {
        if !takes_db(alloc, places, number)? {
            return Ok(false);
        }
    }
    Ok(true)
}

fn takes_addresses(alloc: Global, places: &mut Places) -> Result<bool, Fail> {
    for number in 0..64u32 {
        if !takes_address(alloc, places, number)? {
            return Ok(false);
        }
    }
    Ok(true)
}

fn is_filled(alloc: Global, places: &mut Places) -> Result<bool, Fail> {
    Ok(
        refused(alloc, places, &["nodes 1"])? == None
            && takes_dbs(alloc, places)?
            && takes_addresses(alloc, places)?,
    )
}

#[test]
fn as_many_as_there_may_be(rt: HostRuntime) -> Result<(), Fail> {
    let alloc = rt.alloc();
    let mut places = Places::new(alloc);
    assert!(rt; is_filled(alloc, &mut places)?);
    for (line, why) in [
        ("db d15 volatile", LineKind::Limit),
        ("db d14 volatile", LineKind::Repeat),
        ("address 0.0.0.64", LineKind::Limit),
        ("address 0.0.0.63", LineKind::Repeat),
    ] {
        assert!(rt; refused(alloc, &mut places, &[line])? == Some((1, why)));
    }
    Ok(())
}
