//! One node of a plan, which serves over its streams.
ghost use Rattle.std.specs.Prelude.{◌≡◌, ◌<◌, IfOk, IfSome};
ghost use Rattle.ct_call.specs.Shown.{rules_of};
ghost use Rattle.ct_script.specs.Sound.{IsSound};
ghost use Rattle.ct_links.specs.Streams.{no_answers};
ghost use Rattle.ct_troupe_threads.specs.Meshed.{HasEnded};

use crate::beside::serve_plan;
use crate::loopback::TURNS;
use ct_actor_serving::fault::Until;
use ct_call::table::CallTable;
use ct_journal::journal::Journal;
use ct_links::link::{LinkTally, Peer, TcpLink};
use ct_links::seats::LockBook;
use ct_outside::gate::OpenGate;
use ct_script::plan::Plan;
use ct_values::memory::NoMemory;
use std::alloc::Global;
use std::net::TcpStream;
use std::sync::Wait;

/// What a node leaves that had its turns: its journal, and what its link answered.
#[derive(Drop)]
pub struct NodeEnd {
    pub journal: Journal,
    pub tally: LinkTally,
}

/// The node's link over these streams, which stay open when the link is dropped.
fn link_over(
    alloc: Global,
    node: u32,
    peers: &[Peer<TcpStream>],
) -> Result<TcpLink<&TcpStream>, NoMemory>
    ensures { IfOk result (λ link. link.tally ≡ no_answers) }
{
    let mut streams = Vec::new(alloc);
    for peer in peers {
        streams.push(Peer {
            node: peer.node,
            stream: &peer.stream,
        })?;
    }
    TcpLink::new(alloc, node, streams)
}

/// The node has its turns, with a link over these streams, a seat of the book and an open gate. None where it cannot serve to
/// their end for another reason than want of memory.
#[tactic(auto, using(crate::proofs::Serving::had_turns))]
pub fn serve_over<R: Wait>(
    alloc: Global,
    table: &CallTable,
    plan: &Plan,
    peers: &[Peer<TcpStream>],
    book: &LockBook<&R>,
    node: u32,
) -> Result<Option<NodeEnd>, NoMemory>
    requires sound { IsSound plan.now }
    requires node { node < plan.now.config.nodes }
    ensures { IfOk result (λ o. IfSome o (HasEnded (rules_of table.now) plan.now node)) }
{
    let mut link = link_over(alloc, node, peers)?;
    let mut seat = book.seat();
    let until = Until::Turns(TURNS);
    let left = serve_plan(
        alloc,
        table,
        plan,
        &mut link,
        &mut seat,
        &mut OpenGate,
        node,
        until,
    )?;
    match left {
        Some(journal) => {
            let tally = link.tally();
            Ok(Some(NodeEnd { journal, tally }))
        }
        None => Ok(None),
    }
}
