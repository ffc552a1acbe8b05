//! The streams of a link, in the order in which they are looked at.
ghost use Rattle.std.specs.Prelude.{◌≡◌, ◌<◌, ◌↔◌, length, OnOk, OnErr, IsTrue, false, is_ok};
ghost use Rattle.std.specs.Io.KnownBytes.{Appends};
ghost use Rattle.ct_outside.specs.Causes.{AppendsPart};
ghost use Rattle.ct_links.specs.Lanes.{Looks, LooksOnce, Puts, PutsOnce, all_ended};

use ct_outside::fault::Failed;
use std::io::{ErrorKind, Read, Write};
use std::marker::Model;

/// How often one call of a link tries a write again that would block.
pub(crate) const WRITE_TRIES: u32 = 1_000_000;

/// A node, the stream to it, and whether the stream has given its end.
#[derive(Drop)]
pub(crate) struct Lane<S> {
    node: u32,
    stream: S,
    ended: bool,
}

impl<S> Model for Lane<S> {
    ghost use Rattle.ct_links.specs.Lanes.{LaneState};

    ghost Value = { LaneState S };

    ghost view = { λ a. record { node = a.node; stream = a.stream; ended = a.ended } };
}

/// What a look at streams finds.
#[derive(Clone, Copy, Debug)]
pub(crate) enum Found {
    /// So many bytes of this node's stream, one at least.
    Bytes { sender: u32, count: usize },
    Nothing,
    Failed,
}

/// Writes all of the bytes. A write that would block is tried again, up to `WRITE_TRIES` times. A failure leaves a front of
/// the bytes written: it is answered at any other error, at a write that takes nothing, and where no try is left.
fn write_out<W: Write>(out: &mut W, bytes: &[u8]) -> Result<(), Failed>
    ensures ok { OnOk result (Appends (W.contents out.old) (W.contents out.new) bytes.now) }
    ensures err { OnErr result (AppendsPart (W.contents out.old) (W.contents out.new) bytes.now) }
{
    let mut done = 0;
    let mut tries = 0;
    while done < bytes.len() {
        match out.write(&bytes[done..]) {
            Ok(0) => return Err(Failed),
            Ok(count) => done += count,
            Err(e) if e.kind() == ErrorKind::WouldBlock && tries < WRITE_TRIES => tries += 1,
            Err(_) => return Err(Failed),
        }
    }
    Ok(())
}

impl<S: Drop> Lane<S> {
    /// A lane whose stream has not ended.
    pub(crate) fn new(node: u32, stream: S) -> Lane<S>
        ensures { result ≡ record { node = node; stream = stream; ended = false } }
    {
        Lane {
            node,
            stream,
            ended: false,
        }
    }

    fn is_to(&self, node: u32) -> bool
        ensures { IsTrue result ↔ (self.now.node ≡ node) }
    {
        self.node == node
    }

    fn is_ended(&self) -> bool
        ensures { result ≡ self.now.ended }
    {
        self.ended
    }
}

impl<S: Read + Drop> Lane<S> {
    /// Reads the stream once, unless it has ended.
    #[tactic(auto, using(crate::proofs::Passing::keeps_same, crate::proofs::Passing::keeps_none, crate::proofs::Passing::took_some))]
    fn look(&mut self, room: &mut [u8]) -> Found
        requires { 0 < length room.old }
        ensures { LooksOnce S.remaining result room.new self.old self.new }
    {
        if self.ended {
            return Found::Nothing;
        }
        match self.stream.read(room) {
            Ok(0) => {
                self.ended = true;
                Found::Nothing
            }
            Ok(count) => Found::Bytes {
                sender: self.node,
                count,
            },
            Err(e) if e.kind() == ErrorKind::WouldBlock => Found::Nothing,
            Err(_) => Found::Failed,
        }
    }
}

impl<S: Write + Drop> Lane<S> {
    /// Writes all of the bytes to the stream.
    fn put(&mut self, bytes: &[u8]) -> Result<(), Failed>
        ensures { PutsOnce S.contents (is_ok result) bytes.now self.old self.new }
    {
        write_out(&mut self.stream, bytes)
    }
}

/// Looks at one stream after the other, until one gives bytes or fails.
pub(crate) fn look_over<S: Read + Drop>(lanes: &mut [Lane<S>], room: &mut [u8]) -> Found
    requires { 0 < length room.old }
    ensures { Looks S.remaining result room.new lanes.old lanes.new }
{
    for i in 0..lanes.len() {
        match lanes[i].look(room) {
            Found::Bytes { sender, count } => return Found::Bytes { sender, count },
            Found::Nothing => {}
            Found::Failed => return Found::Failed,
        }
    }
    Found::Nothing
}

/// Writes all of the bytes to the first stream that has this node. With no such stream the answer is a failure.
pub(crate) fn put_to<S: Write + Drop>(
    lanes: &mut [Lane<S>],
    node: u32,
    bytes: &[u8],
) -> Result<(), Failed>
    ensures { Puts S.contents (is_ok result) node bytes.now lanes.old lanes.new }
{
    for i in 0..lanes.len() {
        if lanes[i].is_to(node) {
            return lanes[i].put(bytes);
        }
    }
    Err(Failed)
}

/// Have all streams given their end?
pub(crate) fn all_ended<S: Drop>(lanes: &[Lane<S>]) -> bool
    ensures { result ≡ all_ended lanes.now }
{
    lanes.iter().all(|lane| lane.is_ended())
}
