//! Frames are sent over a link.
ghost use Rattle.std.specs.Prelude.{◌≡◌, ◌≤◌, ◌∷◌, [], true, IsTrue};
ghost use Rattle.std.specs.List.{list_all};
ghost use Rattle.ct_frame.specs.Fields.{well_formed};
ghost use Rattle.ct_outside.specs.Told.{RisesWhere, Told};
ghost use Rattle.ct_wire_link.specs.Parcels.{frame_parcels, frames_sent};
ghost use Rattle.ct_wire_link.specs.Sending.{FindsLong, SendsFrame, SendsFrames, IsWithin, is_link_failure, is_sendable};

use crate::fault::SendFault;
use ct_frame::event::Out;
use ct_frame::frame::Frame;
use ct_outside::fault::LinkFault;
use ct_outside::link::Link;
use ct_values::memory::NoMemory;
use ct_wire::encode::{EncodeFault, Encoder};
use std::alloc::Global;

/// Sends a frame to its receiver: its spelling, in pieces of 65,536 bytes and a last one of what is left. A frame that is too
/// long sends nothing. Where the link fails, or memory runs out, the first pieces may have been sent.
pub fn send_frame<L: Link>(alloc: Global, link: &mut L, frame: &Frame) -> Result<(), SendFault>
    requires { IsTrue (well_formed frame.now) }
    ensures pieces { Told (L.pieces link.old) (L.pieces link.new) (SendsFrame result frame.now) }
    ensures size { IsWithin result frame.now }
    ensures cause { RisesWhere (is_link_failure result) (L.faults link.old) (L.faults link.new) }
    ensures endings { L.endings link.old ≤ L.endings link.new }
    ensures looks { L.looks link.new ≡ L.looks link.old }
    ensures permissions { L.permissions link.new ≡ L.permissions link.old }
{
    let mut encoder = match Encoder::new(alloc, frame) {
        Ok(encoder) => encoder,
        Err(EncodeFault::TooLong(size)) => return Err(SendFault::TooLong(size)),
        Err(EncodeFault::NoMemory) => return Err(SendFault::NoMemory),
    };
    'pieces: while let Some(piece) = encoder.next_piece(alloc)? {
        match link.send(frame.receiver, piece.as_slice()) {
            Ok(()) => {}
            Err(LinkFault::Failed) => return Err(SendFault::Link),
            Err(LinkFault::NoMemory) => return Err(SendFault::NoMemory),
        }
    }
    Ok(())
}

/// Sends the frames among what a node does, in order. The first frame that is too long ends it, once all frames before it are
/// sent. Where the link fails, or memory runs out, the first pieces may have been sent.
pub fn send_all<L: Link>(alloc: Global, link: &mut L, outs: &[Out]) -> Result<(), SendFault>
    requires { list_all is_sendable outs.now ≡ true }
    ensures pieces { Told (L.pieces link.old) (L.pieces link.new) (SendsFrames result (frames_sent outs.now)) }
    ensures size { FindsLong result (frames_sent outs.now) }
    ensures cause { RisesWhere (is_link_failure result) (L.faults link.old) (L.faults link.new) }
    ensures endings { L.endings link.old ≤ L.endings link.new }
    ensures looks { L.looks link.new ≡ L.looks link.old }
    ensures permissions { L.permissions link.new ≡ L.permissions link.old }
{
    'outs: for out in outs {
        match out {
            Out::Send(frame) => match send_frame(alloc, link, frame) {
                Ok(()) => {}
                Err(fault) => return Err(fault),
            },
            Out::Answer { .. } => {}
            Out::Note(_) => {}
        }
    }
    Ok(())
}
