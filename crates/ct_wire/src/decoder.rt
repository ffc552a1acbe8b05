//! A stream of frames, read in whatever pieces it comes.
ghost use Rattle.std.specs.Prelude.{◌≡◌, ◌<◌, ◌≤◌, ◌∷◌, ◌++◌, [], true, IfOk, IfSome, OnOk, length};
ghost use Rattle.ct_wire.specs.Cursor.{start};
ghost use Rattle.ct_wire.specs.Decoding.{eaten, standing_fault, raw_length, Answers, Completes, Feeds, FeedsOpen, IsSoundProgress, IsSoundSpot};
ghost use Rattle.ct_wire.specs.declared.decode.Progress.TheVariants.{Amid};

use crate::cursor::Cursor;
use crate::decode::{Event, Progress, Spot, WireFault, lone_frame, read_frame, resume};
use ct_frame::frame::Frame;
use ct_values::items::Items;
use ct_values::memory::NoMemory;
use std::alloc::Global;
use std::marker::Model;
use std::mem;

/// Before the first byte of a frame. It takes no memory.
fn before_frame(alloc: Global) -> Progress
    ensures { result ≡ Amid (record { cursor = start; raw = [] }) }
{
    Progress::Amid(Spot {
        cursor: Cursor::start(alloc),
        raw: Items::empty(alloc),
    })
}

/// One frame more. Without memory the call fails, and nothing is asked of the list any more.
fn add(frames: &mut Vec<Frame>, frame: Frame) -> Result<(), NoMemory>
    ensures { OnOk result (frames.new.items ≡ frames.old.items ++ frame ∷ []) }
{
    frames.push(frame)?;
    Ok(())
}

/// A list of one frame.
fn one(alloc: Global, frame: Frame) -> Result<Vec<Frame>, NoMemory>
    ensures { IfOk result (λ frames. frames.items ≡ frame ∷ []) }
{
    let mut frames = Vec::new(alloc);
    add(&mut frames, frame)?;
    Ok(frames)
}

/// Reads on, and keeps each frame that is complete.
fn read_frames(
    alloc: Global,
    spot: Spot,
    piece: &[u8],
    frames: &mut Vec<Frame>,
) -> Result<Progress, NoMemory>
    requires sound { IsSoundSpot spot }
    requires none { frames.old.items ≡ [] }
    ensures exact { IfOk result (λ p. Completes (eaten spot.cursor spot.raw piece.now) frames.new.items p) }
    ensures sound { IfOk result IsSoundProgress }
{
    let mut event = resume(alloc, spot, piece)?;
    'frames: loop {
        match event {
            Event::Ends(frame, _, rest) => {
                add(frames, frame)?;
                if rest.is_empty() {
                    return Ok(before_frame(alloc));
                }
                event = read_frame(alloc, rest)?;
            }
            Event::Waits(spot) => return Ok(Progress::Amid(spot)),
            Event::Breaks(offset) => return Ok(Progress::Failed(WireFault::Malformed(offset))),
        }
    }
}

fn feed_spot(alloc: Global, spot: Spot, piece: &[u8]) -> Result<(Vec<Frame>, Progress), NoMemory>
    requires { IsSoundSpot spot }
    ensures exact { IfOk result (λ x. Completes (eaten spot.cursor spot.raw piece.now) x.0.items x.1) }
    ensures sound { IfOk result (λ x. IsSoundProgress x.1) }
{
    let mut frames = Vec::new(alloc);
    let progress = read_frames(alloc, spot, piece, &mut frames)?;
    Ok((frames, progress))
}

/// The frame that a piece is, as the one frame that it completes.
fn lone_frames(alloc: Global, piece: &[u8]) -> Result<Option<Vec<Frame>>, NoMemory>
    ensures { IfOk result (λ found. IfSome found (λ v. Completes (eaten start [] piece.now) v.items (Amid (record { cursor = start; raw = [] })))) }
{
    let Some(frame) = lone_frame(alloc, piece)? else {
        return Ok(None);
    };
    Ok(Some(one(alloc, frame)?))
}

/// Whether nothing of a frame has come.
fn is_at_start(progress: &Progress) -> bool
    ensures { result ≡ true → progress.now ≡ Amid (record { cursor = start; raw = [] }) }
{
    match progress {
        Progress::Amid(spot) => spot.raw.is_empty() && spot.cursor.is_fresh(),
        Progress::Failed(_) => false,
    }
}

/// The fault after which nothing more is read.
fn fault_of(progress: &Progress) -> Option<WireFault>
    ensures { result ≡ standing_fault progress.now }
{
    match progress {
        Progress::Amid(_) => None,
        Progress::Failed(fault) => Some(*fault),
    }
}

/// Reads a stream of frames. It is seen as how far it is. Where it is at the start of a frame that is the whole piece, the frame
/// is read at once.
#[derive(Debug, Drop)]
pub struct Decoder {
    progress: Progress,
    at_start: bool,
}

impl Model for Decoder {
    ghost use Rattle.ct_wire.specs.declared.decode.Progress.{Progress};
    ghost use Rattle.std.specs.Prelude.{◌≡◌, true, []};
    ghost use Rattle.ct_wire.specs.Cursor.{start};
    ghost use Rattle.ct_wire.specs.Decoding.{IsSoundProgress};
    ghost use Rattle.ct_wire.specs.declared.decode.Progress.TheVariants.{Amid};

    ghost Value = { Progress };

    ghost view = { λ a. a.progress };

    ghost invariant = { λ a. IsSoundProgress a.progress × (a.at_start ≡ true → a.progress ≡ Amid (record { cursor = start; raw = [] })) };
}

impl Decoder {
    /// Before the first byte. It takes no memory.
    pub fn new(alloc: Global) -> Decoder
        ensures { result ≡ Amid (record { cursor = start; raw = [] }) }
    {
        Decoder {
            progress: before_frame(alloc),
            at_start: true,
        }
    }

    /// Takes the next piece, and answers the frames that it completes. A fault comes again at each later call. Where
    /// a piece completes frames before it breaks a rule, they are answered, and the fault comes at the next call.
    pub fn feed(&mut self, alloc: Global, piece: &[u8]) -> Result<Vec<Frame>, WireFault>
        ensures { Feeds result self.old piece.now self.new }
    {
        if !self.at_start {
            return self.read_on(alloc, piece);
        }
        match lone_frames(alloc, piece) {
            Ok(Some(frames)) => Ok(frames),
            Ok(None) => self.read_on(alloc, piece),
            Err(NoMemory) => {
                self.at_start = false;
                drop(mem::replace(&mut self.progress, Progress::Failed(WireFault::NoMemory)));
                Err(WireFault::NoMemory)
            }
        }
    }

    /// Reads on, field by field where need be.
    fn read_on(&mut self, alloc: Global, piece: &[u8]) -> Result<Vec<Frame>, WireFault>
        ensures { Feeds result self.old piece.now self.new }
    {
        self.at_start = false;
        let before = mem::replace(&mut self.progress, Progress::Failed(WireFault::NoMemory));
        match before {
            Progress::Failed(fault) => self.stands(Vec::new(alloc), Progress::Failed(fault)),
            Progress::Amid(spot) => match feed_spot(alloc, spot, piece) {
                Err(NoMemory) => Err(WireFault::NoMemory),
                Ok((frames, progress)) => self.stands(frames, progress),
            },
        }
    }

    /// Is so far now. The fault is answered, where there is one and no frame came before it.
    fn stands(&mut self, frames: Vec<Frame>, progress: Progress) -> Result<Vec<Frame>, WireFault>
        requires { IsSoundProgress progress }
        ensures so_far { self.new ≡ progress }
        ensures answer { Answers result frames.items progress }
    {
        let fault = fault_of(&progress);
        self.at_start = is_at_start(&progress);
        drop(mem::replace(&mut self.progress, progress));
        match fault {
            None => Ok(frames),
            Some(fault) => {
                if frames.is_empty() {
                    return Err(fault);
                }
                Ok(frames)
            }
        }
    }

    /// The fault that the next call of `feed` answers, whatever its piece, if no frame comes before it.
    pub fn fault(&self) -> Option<WireFault>
        ensures { result ≡ standing_fault self.now }
    {
        fault_of(&self.progress)
    }

    /// How many bytes of a field that is not whole are kept.
    pub fn raw(&self) -> usize
        ensures exact { result ≡ raw_length self.now }
        ensures few { result ≤ 1023 }
    {
        match &self.progress {
            Progress::Amid(spot) => spot.raw.len(),
            Progress::Failed(_) => 0,
        }
    }
}
