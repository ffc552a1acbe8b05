//! All nodes of a plan, over a mesh.
ghost use Rattle.std.specs.Prelude.{◌≡◌, ◌<◌, ◌^◌, ℕ, true, Some, Err, All, IfOk, IfSome, length, map, slice_get};
ghost use Rattle.std.specs.List.{list_any};
ghost use Rattle.ct_call.specs.Shown.{rules_of};
ghost use Rattle.ct_script.specs.Sound.{IsSound};
ghost use Rattle.ct_troupe_threads.specs.Meshed as meshed;
ghost use Rattle.ct_troupe_threads.specs.Threaded.{served};
ghost use Rattle.ct_troupe.specs.Played.{ArePlayed};
ghost use Rattle.ct_troupe.specs.declared.troupe.PlayFault.TheVariants as fault;

use crate::node::{NodeEnd, serve_over};
use ct_call::table::CallTable;
use ct_journal::journal::Journal;
use ct_journal_order::order::in_order;
use ct_links::link::{LinkTally, Peer};
use ct_links::mesh::{MeshFault, mesh};
use ct_links::seats::LockBook;
use ct_script::plan::Plan;
use ct_troupe::troupe::PlayFault;
use ct_values::memory::NoMemory;
use std::alloc::Global;
use std::net::{Net, TcpListener, TcpStream};
use std::sync::Wait;
use std::thread;
use std::thread::Threads;

/// What all nodes leave that had their turns: their journals, and what their links answered, both in the order of the nodes.
#[derive(Drop)]
pub struct NodeEnds {
    pub journals: Vec<Journal>,
    pub tallies: Vec<LinkTally>,
}

/// The nodes serve, each in a thread of its own. What each of them leaves, in their order.
fn serve_all<R: Threads + Wait + Sync>(
    rt: &R,
    alloc: Global,
    table: &CallTable,
    plan: &Plan,
    streams: &[Vec<Peer<TcpStream>>],
) -> Result<Vec<Result<Option<NodeEnd>, NoMemory>>, NoMemory>
    requires sound { IsSound plan.now }
    requires streams { length streams.now ≡ plan.now.config.nodes }
    ensures count { IfOk result (λ v. length v.items ≡ plan.now.config.nodes) }
    ensures each { IfOk result (λ v. (n : ℕ) (r : _) → slice_get v.items n ≡ Some r → IfOk r (λ o. IfSome o (meshed.HasEnded (rules_of table.now) plan.now n))) }
{
    let book = LockBook::new(rt, alloc);
    let pages = &book;
    let all = thread::map_indices(
        rt,
        alloc,
        plan.config.nodes as usize,
        &|node: usize| -> Result<Option<NodeEnd>, NoMemory>
            requires { IsSound plan.now × (node < plan.now.config.nodes) × (node < 2 ^ 32) × (node < length streams.now) }
            ensures { IfOk result (λ o. IfSome o (meshed.HasEnded (rules_of table.entry.now) plan.entry.now node)) }
        {
            serve_over(
                alloc,
                table,
                plan,
                streams[node].as_slice(),
                pages,
                node as u32,
            )
        },
    )?;
    Ok(all)
}

/// The fault of a play whose nodes are not joined.
fn joining_fault(fault: MeshFault) -> PlayFault
    ensures { result ≡ meshed.joining_fault fault }
{
    match fault {
        MeshFault::Refused => PlayFault::Link,
        MeshFault::NoMemory => PlayFault::NoMemory,
    }
}

/// Joins the nodes of the plan: for each node the streams to all others. `Link` where the system would not join them.
#[tactic(auto, using(ct_links::proofs::Joining::count_joined))]
pub fn join_nodes<R: Net<Listener = TcpListener, Stream = TcpStream>>(
    rt: &R,
    alloc: Global,
    plan: &Plan,
) -> Result<Vec<Vec<Peer<TcpStream>>>, PlayFault>
    ensures { IfOk result (λ all. length all.items ≡ plan.now.config.nodes) }
{
    match mesh(rt, alloc, plan.config.nodes) {
        Ok(streams) => Ok(streams),
        Err(fault) => Err(joining_fault(fault)),
    }
}

/// Could a node not serve to its end?
fn some_failed(all: &[Result<Option<NodeEnd>, NoMemory>]) -> bool
    ensures { result ≡ list_any meshed.has_failed all.now }
{
    all.iter().any(|left| matches!(left, Ok(None)))
}

/// What nodes leave that all served to their end, in their order. `Link` exactly where one could not.
fn ends_of(
    alloc: Global,
    all: Vec<Result<Option<NodeEnd>, NoMemory>>,
) -> Result<Vec<NodeEnd>, PlayFault>
    ensures ends { IfOk result (λ v. all.items ≡ map served v.items) }
    ensures failed { list_any meshed.has_failed all.items ≡ true → result ≡ Err fault.Link }
    ensures link { result ≡ Err fault.Link → list_any meshed.has_failed all.items ≡ true }
{
    if some_failed(all.as_slice()) {
        return Err(PlayFault::Link);
    }
    let mut ends = Vec::new(alloc);
    for left in all {
        match left? {
            Some(end) => match ends.push(end) {
                Ok(()) => {}
                Err(_) => return Err(PlayFault::NoMemory),
            },
            None => return Err(PlayFault::Link),
        }
    }
    Ok(ends)
}

/// Their journals, and what their links answered.
fn parted(alloc: Global, ends: Vec<NodeEnd>) -> Result<NodeEnds, NoMemory>
    ensures journals { IfOk result (λ e. e.journals.items ≡ map (λ x. x.journal) ends.items) }
    ensures tallies { IfOk result (λ e. e.tallies.items ≡ map (λ x. x.tally) ends.items) }
{
    let mut journals = Vec::new(alloc);
    let mut tallies = Vec::new(alloc);
    for NodeEnd { journal, tally } in ends {
        journals.push(journal)?;
        tallies.push(tally)?;
    }
    Ok(NodeEnds { journals, tallies })
}

/// Plays the plan with one thread a node, each over its streams to the others and with a seat of one lock book. The streams stay
/// open until each node has had its turns. `Link` where a node could not serve to its end, and where the journals are not in order.
pub fn play_over_streams<R: Threads + Wait + Sync>(
    rt: &R,
    alloc: Global,
    table: &CallTable,
    plan: &Plan,
    streams: &[Vec<Peer<TcpStream>>],
) -> Result<NodeEnds, PlayFault>
    requires sound { IsSound plan.now }
    requires streams { length streams.now ≡ plan.now.config.nodes }
    ensures played { IfOk result (λ e. ArePlayed (rules_of table.now) plan.now e.journals.items) }
    ensures turns { IfOk result (λ e. (length e.tallies.items ≡ plan.now.config.nodes) × All meshed.HadTurns e.tallies.items) }
{
    let all = serve_all(rt, alloc, table, plan, streams)?;
    let ends = ends_of(alloc, all)?;
    let left = parted(alloc, ends)?;
    match in_order(alloc, left.journals.as_slice())? {
        Some(_) => Ok(left),
        None => Err(PlayFault::Link),
    }
}
