//! The texts of columns that are played in turn.
ghost use Rattle.ct_troupe_run.specs.Chains.{HasCutRange};
ghost use Rattle.ct_troupe_run.specs.Running.{HasPlanRange};

use ct_call::table::CallTable;
use ct_outside::memory::MemSink;
use ct_troupe::column_turns::ColumnTurns;
use ct_troupe::turns::Turns;
use ct_troupe_run::chains::{CutWanted, chains};
use ct_troupe_run::running::{End, Wanted, cluster};
use std::alloc::Global;
use std::test::Fail;

// What is written of columns.
fn of_columns(alloc: Global, wanted: &CutWanted) -> Result<MemSink, Fail>
    requires { HasCutRange wanted.now }
{
    let mut out = MemSink::new(alloc, Vec::new(alloc));
    let mut troupe = ColumnTurns::new(alloc);
    let table = CallTable::new(alloc);
    match chains(alloc, &table, wanted, &mut out, &mut troupe) {
        End::Done => Ok(out),
        _ => Err(Fail::new("to be written")),
    }
}

// What is written of a cluster.
fn of_cluster(alloc: Global, wanted: &Wanted) -> Result<MemSink, Fail>
    requires { HasPlanRange wanted.now }
{
    let mut out = MemSink::new(alloc, Vec::new(alloc));
    let mut troupe = Turns::new(alloc);
    let table = CallTable::new(alloc);
    match cluster(alloc, &table, wanted, &mut out, &mut troupe) {
        End::Done => Ok(out),
        _ => Err(Fail::new("to be written")),
    }
}

// What is written of a cluster that columns play.
fn of_cluster_in_columns(alloc: Global, wanted: &Wanted) -> Result<MemSink, Fail>
    requires { HasPlanRange wanted.now }
{
    let mut out = MemSink::new(alloc, Vec::new(alloc));
    let mut troupe = ColumnTurns::new(alloc);
    let table = CallTable::new(alloc);
    match cluster(alloc, &table, wanted, &mut out, &mut troupe) {
        End::Done => Ok(out),
        _ => Err(Fail::new("to be written")),
    }
}

// How many lines begin so.
fn count_lines(text: &[u8], front: &[u8]) -> usize {
    let mut count: usize = 0;
    for line in text.split(|byte| *byte == b'\n') {
        if line.starts_with(front) {
            count = count.saturating_add(1);
        }
    }
    count
}

// Where the last line begins.
fn last_line(text: &[u8]) -> usize {
    let mut start: usize = 0;
    for (at, byte) in text.iter().enumerate() {
        if *byte == b'\n' && at + 1 < text.len() {
            start = at + 1;
        }
    }
    start
}

#[test]
fn two_columns_of_two_nodes(rt: HostRuntime) -> Result<(), Fail> {
    let wanted = CutWanted {
        nodes: 2,
        chains: 2,
        calls: 10,
        seed: 3,
    };
    let out = of_columns(rt.alloc(), &wanted)?;
    assert_eq!(rt; count_lines(out.held(), b"column"), 2);
    assert_eq!(rt; count_lines(out.held(), b"column 0"), 1);
    assert!(rt; out.held().starts_with(b"column 0\n"));
    let Some(last) = out.held().get(last_line(out.held())..) else {
        return Err(Fail::new("no last line"));
    };
    assert!(rt; last.starts_with(b"chains 2 2 10 entries"));
    Ok(())
}

// Each of eight columns has a round, though one of them alone has a call.
#[test]
fn eight_columns_of_one_node(rt: HostRuntime) -> Result<(), Fail> {
    let wanted = CutWanted {
        nodes: 1,
        chains: 8,
        calls: 1,
        seed: 0,
    };
    let out = of_columns(rt.alloc(), &wanted)?;
    let lines: [&[u8]; 5] = [
        b"column",
        b"ticket 2 0",
        b"round 2 0 1 1",
        b"installed 0 2",
        b"thawed 0 2",
    ];
    for line in lines {
        assert_eq!(rt; count_lines(out.held(), line), 8);
    }
    assert_eq!(rt; count_lines(out.held(), b"answer"), 1);
    assert_eq!(rt; count_lines(out.held(), b"answer 1 read -"), 1);
    assert!(rt;
        out.held()
            .ends_with(b"\nchains 1 8 1 entries 65 frames 56\n")
    );
    Ok(())
}

// The one column's text and the last line of one chain, by what the cluster is told of.
fn of_one_chain(alloc: Global, cluster: &[u8]) -> Option<Vec<u8>> {
    let start = last_line(cluster);
    let mut text = Vec::from_slice(alloc, b"column 0\n").ok()?;
    text.extend_from_slice(cluster.get(..start)?).ok()?;
    text.extend_from_slice(b"chains 2 1").ok()?;
    let last = cluster.get(start..)?;
    text.extend_from_slice(last.strip_prefix(b"cluster 2")?)
        .ok()?;
    Some(text)
}

#[test]
fn one_column_is_the_cluster(rt: HostRuntime) -> Result<(), Fail> {
    let alloc = rt.alloc();
    for seed in [1u64, 3, 7] {
        let wanted = Wanted {
            nodes: 2,
            calls: 10,
            seed,
            net: false,
        };
        let cut = CutWanted {
            nodes: 2,
            chains: 1,
            calls: 10,
            seed,
        };
        let cluster = of_cluster(alloc, &wanted)?;
        let Some(text) = of_one_chain(alloc, cluster.held()) else {
            return Err(Fail::new("no last line"));
        };
        let out = of_columns(alloc, &cut)?;
        assert!(rt; out.held() == text.as_slice(), "seed {seed}");
    }
    Ok(())
}

// Who plays columns plays a cluster as the nodes in turn do.
#[test]
fn a_cluster_is_played_in_columns(rt: HostRuntime) -> Result<(), Fail> {
    let wanted = Wanted {
        nodes: 1,
        calls: 1,
        seed: 0,
        net: false,
    };
    let out = of_cluster_in_columns(rt.alloc(), &wanted)?;
    assert_eq!(rt; count_lines(out.held(), b"answer 1 read -"), 1);
    assert!(rt; out.held().ends_with(b"\ncluster 1 1 entries 9 frames 7\n"));
    let turns = of_cluster(rt.alloc(), &wanted)?;
    assert!(rt; out.held() == turns.held());
    Ok(())
}
