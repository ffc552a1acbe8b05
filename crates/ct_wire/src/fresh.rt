//! Before and behind the header of a frame.
ghost use Rattle.std.specs.Prelude.{◌≡◌, [], true};
ghost use Rattle.ct_wire_fields.specs.Reading.{no_draft};
ghost use Rattle.ct_wire.specs.Cursor.{start, IsSound};
ghost use Rattle.ct_wire.specs.Whole.{at_number, first_place, headed, HasNoItems, HasNoNumbers};

use crate::cursor::{Cursor, Stage};
use ct_wire_fields::draft::{Draft, Head, Reading};
use ct_wire_fields::place::{NumberPlace, Operation, Place};
use ct_wire_fields::version::Version;
use std::alloc::Global;

fn is_fresh_head(head: &Head) -> bool
    ensures { result ≡ true → head.now ≡ no_draft.head }
{
    let fresh = Head {
        length: 0,
        version: Version::One,
        generation: 0,
        operation: Operation::Call,
        receiver: 0,
        sender: 0,
        request: 0,
    };
    *head == fresh
}

fn has_no_numbers(draft: &Draft) -> bool
    ensures { result ≡ true → HasNoNumbers draft.now }
{
    draft.db == 0
        && draft.rsn == 0
        && draft.node == 0
        && draft.seq == 0
        && draft.run == 0
        && draft.vbase == 0
        && draft.pbase == 0
}

fn has_no_items(draft: &Draft) -> bool
    ensures { result ≡ true → HasNoItems draft.now }
{
    draft.nodes.is_empty()
        && draft.table.is_empty()
        && draft.ptables.is_empty()
        && draft.pairs.is_empty()
        && draft.addresses.is_empty()
        && draft.assigned.is_empty()
}

fn is_fresh_draft(draft: &Draft) -> bool
    ensures { result ≡ true → draft.now ≡ no_draft }
{
    is_fresh_head(&draft.head) && has_no_numbers(draft) && has_no_items(draft)
}

impl Cursor {
    /// Whether it is before the first field of a frame.
    pub fn is_fresh(&self) -> bool
        ensures { result ≡ true → self.now ≡ start }
    {
        match (&self.reading.place, self.stage) {
            (Place::Number(NumberPlace::Length), Stage::Start) => {
                self.at == 0 && is_fresh_draft(&self.reading.draft)
            }
            _ => false,
        }
    }

    /// Behind this header.
    pub fn behind(alloc: Global, head: Head) -> Cursor
        ensures exact { result ≡ at_number (headed head) 40 (first_place head.operation) }
        ensures sound { IsSound result }
    {
        let place = match head.operation {
            Operation::PullReply => NumberPlace::VolatileBase,
            Operation::Push => NumberPlace::NodeCount,
            _ => NumberPlace::Db,
        };
        let mut draft = Draft::new(alloc);
        draft.head = head;
        Cursor {
            reading: Reading {
                draft,
                place: Place::Number(place),
            },
            at: 40,
            stage: Stage::Start,
        }
    }
}
