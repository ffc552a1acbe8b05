//! The machine of one record: an event comes to a state, which is changed in place.
ghost use Rattle.std.specs.Prelude.{◌≡◌, OnOk, IfOk};
ghost use Rattle.ct_call.specs.Shown.{rules_of};
ghost use Rattle.ct_record.specs.Machine.{Steps, KeepsForm};
ghost use Rattle.ct_law_rules.specs.Form.{IsInForm, MayCome};
ghost use Rattle.ct_rules.specs.Moves.{begins, move, moved, unless_spent};

use crate::moves::moves;
use ct_call::table::CallTable;
use ct_record_parts::draft::Draft;
pub use ct_rules::event::{Act, MoveEvent, Place};
pub use ct_rules::state::{Entry, RecState, RecallNote, Waiter, Wish};
use ct_values::boxed::Boxed;
use ct_values::items::Items;
use ct_values::memory::NoMemory;
use std::alloc::Global;
use thiserror::Error;

/// Why an event is refused.
#[derive(Clone, Copy, Debug, PartialEq, Eq, Error)]
pub enum MoveFault {
    /// A number would reach 2^62.
    #[error("a number would reach 2^62")]
    Exhausted,
    #[error("want of memory")]
    NoMemory,
}

impl From<NoMemory> for MoveFault {
    ghost use Rattle.ct_record.specs.declared.machine.MoveFault.TheVariants.{NoMemory as Want};

    ghost from_gives = { λ _ e. e ≡ Want };

    fn from(_e: NoMemory) -> MoveFault {
        MoveFault::NoMemory
    }
}

/// What comes of the event, over a copy of the state.
fn drafted(
    alloc: Global,
    state: &RecState,
    at: &Place,
    table: &CallTable,
    event: &MoveEvent,
    next: u64,
) -> Result<Draft, NoMemory>
    requires in_form { IsInForm at.now next state.now }
    requires may_come { MayCome state.now event.now }
    ensures { IfOk result (λ d. d ≡ move at.now (rules_of table.now) event.now (begins state.now next at.now.floor)) }
{
    let mut draft = Draft {
        alloc,
        state: Boxed::new(alloc, state.copy()?)?,
        next,
        floor: at.floor,
        acts: Items::empty(alloc),
        spent: false,
    };
    moves(&mut draft, at, table, event)?;
    Ok(draft)
}

/// A draft that is not spent takes the place of the state, and what it does stands behind what was done before. The list
/// grows first, since only that may fail.
fn settle(
    draft: Draft,
    state: &mut RecState,
    next_request: &mut u64,
    acts: &mut Items<Act>,
) -> Result<(), MoveFault>
    ensures { Steps result (unless_spent draft) (record { state = state.old; next = next_request.old; acts = acts.old }) (record { state = state.new; next = next_request.new; acts = acts.new }) }
{
    if draft.spent {
        return Err(MoveFault::Exhausted);
    }
    let Draft {
        state: after,
        next,
        acts: done,
        ..
    } = draft;
    acts.append(&mut done.into_vec())?;
    *state = after.into_inner();
    *next_request = next;
    Ok(())
}

/// One step of a record: an event comes to it. The state, the next request number and the list of what is done are those
/// of the rule, and the state is in form again. A step that is refused changes none of them. The record is copied once.
///
/// What may come is what `MayCome` says, to a state in form at this place. It is for callers of the library that hold one record
/// alone: a node calls the functions of `moves` over a draft of its own.
pub fn step(
    alloc: Global,
    state: &mut RecState,
    at: &Place,
    table: &CallTable,
    event: &MoveEvent,
    next_request: &mut u64,
    acts: &mut Items<Act>,
) -> Result<(), MoveFault>
    requires in_form { IsInForm at.now next_request.old state.old }
    requires may_come { MayCome state.old event.now }
    ensures steps { Steps result (moved at.now (rules_of table.now) event.now state.old next_request.old) (record { state = state.old; next = next_request.old; acts = acts.old }) (record { state = state.new; next = next_request.new; acts = acts.new }) }
    ensures in_form { OnOk result (IsInForm at.now next_request.new state.new) }
    ensures keeps_form { OnOk result (KeepsForm at.now (rules_of table.now) event.now state.old next_request.old) }
{
    let draft = drafted(alloc, state, at, table, event, *next_request)?;
    settle(draft, state, next_request, acts)
}
