//! A link over streams.
ghost use Rattle.std.specs.Prelude.{◌≡◌, ◌<◌, ◌≤◌, ◌==◌, ◌++◌, ◌∷◌, [], None, IfOk, OnOk, OnErr, is_ok, IsTrue, length, map};
ghost use Rattle.std.specs.List.Sorted.{IsNonDecreasingBy, IsPermutation};
ghost use Rattle.ct_outside.specs.Links.{Looks, is_end, is_failure, parcel};
ghost use Rattle.ct_outside.specs.Told.{RisesWhere};
ghost use Rattle.ct_links.specs.Streams.{Opened, ReceivesOver, SendsOver, no_answers, open_lane, tally_looked, tally_sent};

use crate::lanes::{Found, Lane, all_ended, look_over, put_to};
use ct_outside::fault::{Failed, LinkFault};
use ct_outside::link::{Link, Piece, Received};
use ct_values::memory::NoMemory;
use std::alloc::{AllocError, Global};
use std::collections::VecDeque;
use std::io::{Read, Write};
use std::marker::Model;
use std::mem;
use std::net::TcpStream;

/// How many bytes one look reads at most.
const READ_SIZE: usize = 65_536;

/// A node, and the stream to it. The stream is to be one that does not block.
#[derive(Drop)]
pub struct Peer<S = TcpStream> {
    pub node: u32,
    pub stream: S,
}

impl<S> Model for Peer<S> {
    ghost use Rattle.ct_links.specs.Streams.{Joint};

    ghost Value = { Joint S };

    ghost view = { λ a. record { node = a.node; stream = a.stream } };
}

/// How often a link failed, answered that nothing will come any more, and answered a look. Only a link makes one. Each count
/// stops at 2^64 - 1.
#[derive(Clone, Copy, Debug)]
pub struct LinkTally {
    faults: u64,
    endings: u64,
    looks: u64,
}

impl LinkTally {
    pub fn faults(&self) -> u64
        ensures { result ≡ self.now.faults }
    {
        self.faults
    }

    pub fn endings(&self) -> u64
        ensures { result ≡ self.now.endings }
    {
        self.endings
    }

    pub fn looks(&self) -> u64
        ensures { result ≡ self.now.looks }
    {
        self.looks
    }
}

/// One node's way to the others over streams, one for each. It tells no pieces, since other processes write to the streams.
#[derive(Drop)]
pub struct TcpLink<S = TcpStream> {
    alloc: Global,
    me: u32,
    own: VecDeque<Piece>,
    lanes: Vec<Lane<S>>,
    /// What the next look reads into. It is empty where that is still to be made.
    room: Vec<u8>,
    tally: LinkTally,
}

impl<S> Model for TcpLink<S> {
    ghost use Rattle.ct_links.specs.Streams.{LinkState};

    ghost Value = { LinkState S };

    ghost view = { λ a. record { me = a.me; own = a.own.items; lanes = a.lanes.items; tally = a.tally } };
}

/// The peers by ascending node.
fn ascending<S: Drop>(peers: Vec<Peer<S>>) -> Result<Vec<Peer<S>>, NoMemory>
    ensures order { IfOk result (λ sorted. IsNonDecreasingBy (λ p. p.node) sorted.items) }
    ensures same { IfOk result (λ sorted. IsPermutation peers.items sorted.items) }
{
    let mut sorted = peers;
    sorted.sort_by_key(|peer| peer.node)?;
    Ok(sorted)
}

/// Lanes to these peers, in their order.
fn opened<S: Drop>(alloc: Global, peers: Vec<Peer<S>>) -> Result<Vec<Lane<S>>, NoMemory>
    ensures { IfOk result (λ lanes. lanes.items ≡ map open_lane peers.items) }
{
    let mut lanes = Vec::new(alloc);
    for Peer { node, stream } in peers {
        lanes.push(Lane::new(node, stream))?;
    }
    Ok(lanes)
}

/// So many bytes.
fn zeros(alloc: Global, size: usize) -> Result<Vec<u8>, AllocError>
    ensures { IfOk result (λ bytes. length bytes.items ≡ size) }
{
    vec![in alloc; 0; size]
}

impl<S: Read + Write + Drop> TcpLink<S> {
    /// The link of this node over these streams, one for each other node. They are kept by ascending node, whatever the order
    /// in which they come. A stream that blocks would make a look wait.
    pub fn new(alloc: Global, me: u32, streams: Vec<Peer<S>>) -> Result<TcpLink<S>, NoMemory>
        ensures node { IfOk result (λ link. link.me ≡ me) }
        ensures none_kept { IfOk result (λ link. link.own ≡ []) }
        ensures tally { IfOk result (λ link. link.tally ≡ no_answers) }
        ensures streams { IfOk result (λ link. Opened streams.items link.lanes) }
    {
        let peers = ascending(streams)?;
        let lanes = opened(alloc, peers)?;
        Ok(TcpLink {
            alloc,
            me,
            own: VecDeque::new(alloc),
            lanes,
            room: Vec::new(alloc),
            tally: LinkTally {
                faults: 0,
                endings: 0,
                looks: 0,
            },
        })
    }
}

impl<S> TcpLink<S> {
    /// What it has answered so far.
    pub fn tally(&self) -> LinkTally
        ensures { result ≡ self.now.tally }
    {
        self.tally
    }

    // Keeps a piece that the node sends to itself.
    fn keep(&mut self, bytes: &[u8]) -> Result<(), NoMemory>
        ensures kept { OnOk result (self.new ≡ record self.old { own = self.old.own ++ parcel self.old.me bytes.now ∷ [] }) }
        ensures refused { OnErr result (self.new ≡ self.old) }
    {
        let piece = Piece {
            node: self.me,
            bytes: Vec::from_slice(self.alloc, bytes)?,
        };
        self.own.push_back(piece)?;
        Ok(())
    }

    // Counts an answer to a look.
    fn count(&mut self, answer: &Result<Received, LinkFault>)
        ensures counts { self.new ≡ record self.old { tally = tally_looked answer.now self.old.tally } }
        ensures cause { RisesWhere (is_failure answer.now) self.old.tally.faults self.new.tally.faults }
        ensures ended { RisesWhere (is_end answer.now) self.old.tally.endings self.new.tally.endings }
        ensures looked { Looks (is_ok answer.now) self.old.tally.looks self.new.tally.looks }
    {
        match answer {
            Ok(Received::Closed) => {
                self.tally.endings = self.tally.endings.saturating_add(1);
                self.tally.looks = self.tally.looks.saturating_add(1);
            }
            Ok(_) => self.tally.looks = self.tally.looks.saturating_add(1),
            Err(LinkFault::Failed) => self.tally.faults = self.tally.faults.saturating_add(1),
            Err(LinkFault::NoMemory) => {}
        }
    }
}

impl<S: Read + Drop> TcpLink<S> {
    // What a look reads into: that of the last look, where it gave no bytes, or a new one.
    fn take_room(&mut self) -> Result<Vec<u8>, AllocError>
        ensures room { IfOk result (λ bytes. 0 < length bytes.items) }
        ensures same { self.new ≡ self.old }
    {
        let room = mem::replace(&mut self.room, Vec::new(self.alloc));
        if room.is_empty() {
            return zeros(self.alloc, READ_SIZE);
        }
        Ok(room)
    }

    // A look, which is not counted yet.
    #[tactic(auto, using(crate::proofs::Handing::hands_over, crate::proofs::Handing::looks_over))]
    fn look(&mut self, may_wait: bool) -> Result<Received, LinkFault>
        ensures receives { ReceivesOver self.old.own S.remaining may_wait result self.old self.new }
        ensures permitted { IsTrue (is_end result) → IsTrue may_wait }
        ensures node { self.new.me ≡ self.old.me }
        ensures tally { self.new.tally ≡ self.old.tally }
    {
        if let Some(Piece { node, bytes }) = self.own.pop_front() {
            return Ok(Received::Piece {
                sender: node,
                bytes,
            });
        }
        let mut bytes = self.take_room()?;
        match look_over(&mut self.lanes, &mut bytes) {
            Found::Bytes { sender, count } => {
                bytes.truncate(count);
                Ok(Received::Piece { sender, bytes })
            }
            Found::Failed => Err(LinkFault::Failed),
            Found::Nothing if may_wait && all_ended(self.lanes.as_slice()) => Ok(Received::Closed),
            Found::Nothing => {
                self.room = bytes;
                Ok(Received::Nothing)
            }
        }
    }
}

impl<S: Read + Write + Drop> Link for TcpLink<S> {
    ghost pieces = { λ _. None };

    ghost faults = { λ s. s.tally.faults };

    ghost endings = { λ s. s.tally.endings };

    ghost looks = { λ s. s.tally.looks };

    ghost permissions = { λ _. None };

    /// Keeps a piece for the node itself, and writes one for another node to its stream, whether or not that has ended. A
    /// write that would block is tried again, up to 1,000,000 times in one call. A failure may leave a front of the piece
    /// written: it is answered at any other error, at a write that takes nothing, where no try is left, and where no stream
    /// has the node.
    fn send(&mut self, to: u32, bytes: &[u8]) -> Result<(), LinkFault>
        ensures cause { RisesWhere (is_failure result) self.old.tally.faults self.new.tally.faults }
        ensures endings { self.old.tally.endings ≤ self.new.tally.endings }
        ensures looks { self.new.tally.looks ≡ self.old.tally.looks }
        ensures sends { SendsOver (to == self.old.me) S.contents result to bytes.now self.old self.new }
        ensures node { self.new.me ≡ self.old.me }
        ensures counts { self.new.tally ≡ tally_sent result self.old.tally }
    {
        if to == self.me {
            return match self.keep(bytes) {
                Ok(()) => Ok(()),
                Err(NoMemory) => Err(LinkFault::NoMemory),
            };
        }
        match put_to(&mut self.lanes, to, bytes) {
            Ok(()) => Ok(()),
            Err(Failed) => {
                self.tally.faults = self.tally.faults.saturating_add(1);
                Err(LinkFault::Failed)
            }
        }
    }

    /// Never waits. The oldest kept piece of the node itself comes first, and then no stream is read. Else each stream that
    /// has not ended is read once, by ascending node, until one gives bytes, of which at most 65,536 are taken, or fails.
    /// There is nothing where each said that it would block, or gave its end. The end of all is answered where the link may
    /// wait.
    fn receive(&mut self, may_wait: bool) -> Result<Received, LinkFault>
        ensures cause { RisesWhere (is_failure result) self.old.tally.faults self.new.tally.faults }
        ensures ended { RisesWhere (is_end result) self.old.tally.endings self.new.tally.endings }
        ensures permitted { IsTrue (is_end result) → IsTrue may_wait }
        ensures looked { Looks (is_ok result) self.old.tally.looks self.new.tally.looks }
        ensures receives { ReceivesOver self.old.own S.remaining may_wait result self.old self.new }
        ensures node { self.new.me ≡ self.old.me }
        ensures counts { self.new.tally ≡ tally_looked result self.old.tally }
    {
        let answer = self.look(may_wait);
        self.count(&answer);
        answer
    }
}
