//! A node takes the pieces that come over its link.
ghost use Rattle.std.specs.Prelude.{◌≡◌, ◌∷◌, [], ℕ, true, List};
ghost use Rattle.std.specs.List.{list_all};
ghost use Rattle.std.specs.Result.{result_err};
ghost use Rattle.ct_call.specs.Shown.{rules_of};
ghost use Rattle.ct_frame.specs.Fields.{well_formed};
ghost use Rattle.ct_script.specs.declared.plan.PlanItem.{PlanItem as Item};
ghost use Rattle.ct_outside.specs.Links as links;
ghost use Rattle.ct_wire_link.specs.Reading.{is_sound};
ghost use Rattle.ct_actor_serving.specs.Hearing as hearing;
ghost use Rattle.ct_actor_serving.specs.Outside.{ServesFrames};
ghost use Rattle.ct_actor_serving.specs.Serving as serving;

use crate::fault::{AtLimit, ServeFault};
use crate::items::{fault_of, send_last};
use ct_actor::acting::arrive;
use ct_actor::node::Node;
use ct_call::table::CallTable;
use ct_frame::frame::Frame;
use ct_outside::link::Link;
use ct_script::cue::Cue;
use ct_wire_link::arrived::Arrived;
use ct_wire_link::readers::Readers;
use std::alloc::Global;

/// A frame arrives, and the node sends what it then does.
fn take_frame<L: Link>(
    alloc: Global,
    node: &mut Node,
    table: &CallTable,
    cue: &mut Cue,
    link: &mut L,
    frame: Frame,
) -> Result<(), ServeFault>
    requires sound { well_formed frame ≡ true }
    requires ours { frame.receiver ≡ node.old.core.pnn }
    ensures goes_on { (script : List Item) → serving.GoesOn (rules_of table.now) script node.old cue.old node.new cue.new }
    ensures counts { serving.NoneFell (serving.of_link L.faults L.endings L.looks link.old) (serving.of_link L.faults L.endings L.looks link.new) }
    ensures permissions { L.permissions link.new ≡ L.permissions link.old }
    ensures cause { serving.IsCaused result (serving.of_link L.faults L.endings L.looks link.old) (serving.of_link L.faults L.endings L.looks link.new) }
    ensures outside { ServesFrames (rules_of table.now) (result_err result) (frame ∷ []) node.old node.new (L.pieces link.old) (L.pieces link.new) }
    ensures ours { (me : ℕ) (taken : List links.Parcel) → hearing.AreForeign (result_err result) me taken }
    ensures item { serving.IsNoItem (result_err result) }
{
    let sender = frame.sender;
    match arrive(node, table, cue, frame) {
        Ok(()) => send_last(alloc, node, link),
        Err(fault) => Err(fault_of(AtLimit::Message { sender }, fault)),
    }
}

/// Frames of this sender arrive, one after the other.
#[tactic(auto, using(crate::proofs::Taking::sound_receiver))]
fn take_frames<L: Link>(
    alloc: Global,
    node: &mut Node,
    table: &CallTable,
    cue: &mut Cue,
    link: &mut L,
    sender: u32,
    frames: Vec<Frame>,
) -> Result<(), ServeFault>
    requires { list_all (is_sound node.old.core.pnn sender) frames.items ≡ true }
    ensures goes_on { (script : List Item) → serving.GoesOn (rules_of table.now) script node.old cue.old node.new cue.new }
    ensures counts { serving.NoneFell (serving.of_link L.faults L.endings L.looks link.old) (serving.of_link L.faults L.endings L.looks link.new) }
    ensures permissions { L.permissions link.new ≡ L.permissions link.old }
    ensures cause { serving.IsCaused result (serving.of_link L.faults L.endings L.looks link.old) (serving.of_link L.faults L.endings L.looks link.new) }
    ensures outside { ServesFrames (rules_of table.now) (result_err result) frames.items node.old node.new (L.pieces link.old) (L.pieces link.new) }
    ensures ours { (me : ℕ) (taken : List links.Parcel) → hearing.AreForeign (result_err result) me taken }
    ensures item { serving.IsNoItem (result_err result) }
{
    for frame in frames {
        match take_frame(alloc, node, table, cue, link, frame) {
            Ok(()) => {}
            Err(fault) => return Err(fault),
        }
    }
    Ok(())
}

/// The next piece of this sender comes: the node takes each frame that it completes, and then the fault behind them.
pub(crate) fn take_piece<L: Link>(
    alloc: Global,
    node: &mut Node,
    table: &CallTable,
    cue: &mut Cue,
    readers: &mut Readers,
    link: &mut L,
    sender: u32,
    bytes: &[u8],
) -> Result<(), ServeFault>
    ensures goes_on { (script : List Item) → serving.GoesOn (rules_of table.now) script node.old cue.old node.new cue.new }
    ensures counts { serving.NoneFell (serving.of_link L.faults L.endings L.looks link.old) (serving.of_link L.faults L.endings L.looks link.new) }
    ensures permissions { L.permissions link.new ≡ L.permissions link.old }
    ensures cause { serving.IsCaused result (serving.of_link L.faults L.endings L.looks link.old) (serving.of_link L.faults L.endings L.looks link.new) }
    ensures outside { hearing.ServesPiece (rules_of table.now) (result_err result) (links.parcel sender bytes.now) node.old node.new (L.pieces link.old) (L.pieces link.new) readers.old readers.new }
    ensures item { serving.IsNoItem (result_err result) }
{
    let Ok(Arrived { frames, broken }) = readers.take(alloc, node.core().pnn(), sender, bytes)
    else {
        return Err(ServeFault::NoMemory);
    };
    match take_frames(alloc, node, table, cue, link, sender, frames) {
        Ok(()) => {}
        Err(fault) => return Err(fault),
    }
    match broken {
        Some(offset) => Err(ServeFault::Foreign { sender, offset }),
        None => Ok(()),
    }
}
