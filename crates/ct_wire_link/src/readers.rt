//! The bytes of each sender are read apart.
ghost use Rattle.std.specs.Prelude.{◌≡◌, ◌≢◌, ◌↔◌, ◌<◌, [], ℕ, true, length, slice_index_or, IfOk, IsTrue};
ghost use Rattle.std.specs.List.{list_all};
ghost use Rattle.ct_wire_link.specs.Reading.{before_strange, first_strange, is_ours, is_sound, progress_of, fresh, strange_at, NoneBefore, ReadsOn, TakesPiece};
ghost use Rattle.ct_law_wire.specs.Alone.{IsBytes};

use crate::arrived::Arrived;
use ct_frame::frame::Frame;
use ct_values::memory::NoMemory;
use ct_wire::decode::WireFault;
use ct_wire::decoder::Decoder;
use std::alloc::Global;
use std::marker::Model;

/// Where the receiver stands in a frame.
const RECEIVER: u64 = 24;

/// Where the sender stands in a frame.
const SENDER: u64 = 28;

/// Does the frame name this node, and the node in whose bytes it came?
fn is_ours(me: u32, sender: u32, frame: &Frame) -> bool
    ensures { result ≡ is_ours me sender frame.now }
{
    frame.receiver == me && frame.sender == sender
}

/// Where a frame that is not ours names another node.
fn strange_at(me: u32, frame: &Frame) -> u64
    ensures { result ≡ strange_at me frame.now }
{
    if frame.receiver == me {
        SENDER
    } else {
        RECEIVER
    }
}

/// Keeps the frames before the first that names another node, and answers where that one does.
fn keep_ours(me: u32, sender: u32, frames: &mut Vec<Frame>) -> Option<u64>
    ensures kept { frames.new.items ≡ before_strange me sender frames.old.items }
    ensures strange { result ≡ first_strange me sender frames.old.items }
{
    for i in 0..frames.len() {
        let frame = &frames[i];
        if !is_ours(me, sender, frame) {
            let offset = strange_at(me, frame);
            frames.truncate(i);
            return Some(offset);
        }
    }
    None
}

/// Reads the next piece, and asks then for the fault that stands behind its frames. `Short` never comes in a stream.
fn read_on(alloc: Global, decoder: &mut Decoder, bytes: &[u8]) -> Result<Arrived, NoMemory>
    ensures reads { ReadsOn result decoder.old bytes.now decoder.new }
    ensures bytes { IsBytes bytes.now }
{
    let frames = match decoder.feed(alloc, bytes) {
        Ok(frames) => frames,
        Err(WireFault::Malformed(offset)) => {
            return Ok(Arrived {
                frames: Vec::new(alloc),
                broken: Some(offset),
            });
        }
        Err(WireFault::Short) => return Err(NoMemory),
        Err(WireFault::NoMemory) => return Err(NoMemory),
    };
    match decoder.fault() {
        None => Ok(Arrived {
            frames,
            broken: None,
        }),
        Some(WireFault::Malformed(offset)) => Ok(Arrived {
            frames,
            broken: Some(offset),
        }),
        Some(WireFault::Short) => Err(NoMemory),
        Some(WireFault::NoMemory) => Err(NoMemory),
    }
}

/// The bytes of one sender.
#[derive(Debug, Drop)]
struct Reader {
    sender: u32,
    decoder: Decoder,
    strange: Option<u64>,
}

impl Model for Reader {
    ghost use Rattle.ct_wire_link.specs.Reading.{IsReached, Reading, or_strange};

    ghost Value = { Reading };

    ghost view = { λ a. record { sender = a.sender; progress = or_strange a.strange a.decoder } };

    ghost invariant = { λ a. IsReached a.decoder };
}

impl Reader {
    /// Before the first byte. It takes no memory.
    fn new(alloc: Global, sender: u32) -> Reader
        ensures { result ≡ fresh sender }
    {
        Reader {
            sender,
            decoder: Decoder::new(alloc),
            strange: None,
        }
    }

    fn is_of(&self, sender: u32) -> bool
        ensures { IsTrue result ↔ (self.now.sender ≡ sender) }
    {
        self.sender == sender
    }

    /// Takes the next piece.
    fn take(&mut self, alloc: Global, me: u32, bytes: &[u8]) -> Result<Arrived, NoMemory>
        ensures takes { TakesPiece result me self.old.sender bytes.now self.old.progress self.new.progress }
        ensures sender { self.new.sender ≡ self.old.sender }
        ensures sound { IfOk result (λ a. list_all (is_sound me self.old.sender) a.frames.items ≡ true) }
    {
        if let Some(offset) = self.strange {
            return Ok(Arrived {
                frames: Vec::new(alloc),
                broken: Some(offset),
            });
        }
        let Arrived { mut frames, broken } = read_on(alloc, &mut self.decoder, bytes)?;
        match keep_ours(me, self.sender, &mut frames) {
            Some(offset) => {
                self.strange = Some(offset);
                Ok(Arrived {
                    frames,
                    broken: Some(offset),
                })
            }
            None => Ok(Arrived { frames, broken }),
        }
    }
}

/// The place of the first reader of this sender, or behind all where there is none.
fn place_of(sender: u32, readers: &[Reader]) -> usize
    ensures passed { NoneBefore result sender readers.now }
    ensures found { result < length readers.now → (slice_index_or readers.now result (fresh sender)).sender ≡ sender }
{
    for (i, reader) in readers.iter().enumerate() {
        if reader.is_of(sender) {
            return i;
        }
    }
    readers.len()
}

/// The bytes of senders, each read apart. It is seen as how far the bytes of each have been read.
#[derive(Debug, Drop)]
pub struct Readers {
    list: Vec<Reader>,
}

impl Model for Readers {
    ghost use Rattle.std.specs.Prelude.{List};
    ghost use Rattle.ct_wire_link.specs.Reading.{Reading};

    ghost Value = { List Reading };

    ghost view = { λ a. a.list.items };
}

impl Readers {
    /// Before the first piece. It takes no memory.
    pub fn new(alloc: Global) -> Readers
        ensures { result ≡ [] }
    {
        Readers {
            list: Vec::new(alloc),
        }
    }

    /// Takes the next piece of this sender to node `me`, and answers the frames that it completes. A fault behind them is
    /// answered with them, and comes again at each later call for this sender: where a field breaks its rule, or a frame names
    /// another receiver than `me` (at offset 24) or another sender (at offset 28). Nothing behind it is read.
    pub fn take(
        &mut self,
        alloc: Global,
        me: u32,
        sender: u32,
        bytes: &[u8],
    ) -> Result<Arrived, NoMemory>
        ensures takes { TakesPiece result me sender bytes.now (progress_of sender self.old) (progress_of sender self.new) }
        ensures others { (other : ℕ) → other ≢ sender → progress_of other self.new ≡ progress_of other self.old }
        ensures sound { IfOk result (λ a. list_all (is_sound me sender) a.frames.items ≡ true) }
    {
        let place = place_of(sender, self.list.as_slice());
        if place < self.list.len() {
            return self.list[place].take(alloc, me, bytes);
        }
        let mut reader = Reader::new(alloc, sender);
        let arrived = reader.take(alloc, me, bytes)?;
        self.list.push(reader)?;
        Ok(arrived)
    }
}
