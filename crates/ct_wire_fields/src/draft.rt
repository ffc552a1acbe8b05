//! What has been read of a frame.
ghost use Rattle.std.specs.Prelude.{◌≡◌, []};
ghost use Rattle.ct_wire_fields.specs.Reading.{no_draft};

use crate::place::{AddressPlace, NumberPlace, Operation, Place, TextPlace};
use crate::version::Version;
use ct_frame::frame::{Assigned, Frame, Msg, PTable, TableRow};
use ct_values::address::Address;
use ct_values::client::Pair;
use ct_values::items::Items;
use std::alloc::Global;
use std::mem;

/// The header of a frame. What has not been read is 0, the first version or the first operation.
#[derive(Clone, Copy, Debug, PartialEq, Eq)]
pub struct Head {
    pub length: u32,
    pub version: Version,
    pub generation: u64,
    pub operation: Operation,
    pub receiver: u32,
    pub sender: u32,
    pub request: u64,
}

/// The fields of a frame that have been read. What has not been read is 0 or empty.
#[derive(Debug, Drop)]
pub struct Draft {
    pub head: Head,
    pub db: u32,
    /// The RSN, or the least one that is asked for.
    pub rsn: u64,
    pub node: u32,
    pub seq: u64,
    pub run: u64,
    pub vbase: u64,
    pub pbase: u64,
    pub nodes: Items<u32>,
    pub table: Items<TableRow>,
    pub ptables: Items<PTable>,
    /// The pairs of the persistent database that is being read, or the writes of a commit.
    pub pairs: Items<Pair>,
    pub addresses: Items<Address>,
    pub assigned: Items<Assigned>,
}

/// A frame in the middle: what has been read, and what comes next.
#[derive(Debug, Drop)]
pub struct Reading {
    pub draft: Draft,
    pub place: Place,
}

/// What a field leads to. The functions change a draft in its place, and answer what comes of it beside: `Led`.
#[derive(Debug, Drop)]
pub enum Step {
    /// There is more to come.
    Next(Reading),
    /// It was the last field.
    Whole(Frame),
    /// The field at this offset breaks its rule.
    Broken(u64),
}

/// What a field leads to, beside the draft that it is read into.
#[derive(Debug, Drop)]
pub enum Led {
    /// There is more to come: this place is next.
    Next(Place),
    /// It was the last field.
    Whole(Frame),
    /// The field at this offset breaks its rule.
    Broken(u64),
}

impl Draft {
    /// Nothing has been read.
    pub fn new(alloc: Global) -> Draft
        ensures { result ≡ no_draft }
    {
        Draft {
            head: Head {
                length: 0,
                version: Version::One,
                generation: 0,
                operation: Operation::Call,
                receiver: 0,
                sender: 0,
                request: 0,
            },
            db: 0,
            rsn: 0,
            node: 0,
            seq: 0,
            run: 0,
            vbase: 0,
            pbase: 0,
            nodes: Items::empty(alloc),
            table: Items::empty(alloc),
            ptables: Items::empty(alloc),
            pairs: Items::empty(alloc),
            addresses: Items::empty(alloc),
            assigned: Items::empty(alloc),
        }
    }
}

/// A number comes next.
pub fn to_number(place: NumberPlace) -> Led
    ensures { result ≡ Led.Next (Place.Number place) }
{
    Led::Next(Place::Number(place))
}

/// A key or value comes next.
pub fn to_text(place: TextPlace) -> Led
    ensures { result ≡ Led.Next (Place.Text place) }
{
    Led::Next(Place::Text(place))
}

/// An address comes next.
pub fn to_address(place: AddressPlace) -> Led
    ensures { result ≡ Led.Next (Place.Address place) }
{
    Led::Next(Place::Address(place))
}

/// The frame of this header and message.
pub fn whole(head: Head, msg: Msg) -> Led
    ensures { result ≡ Led.Whole (record { generation = head.generation; sender = head.sender; receiver = head.receiver; msg = msg }) }
{
    Led::Whole(Frame {
        generation: head.generation,
        sender: head.sender,
        receiver: head.receiver,
        msg,
    })
}

/// The items of a list, which is empty from then on.
pub fn taken<T>(alloc: Global, list: &mut Items<T>) -> Items<T>
    ensures items { result ≡ list.old }
    ensures none { list.new ≡ [] }
{
    mem::replace(list, Items::empty(alloc))
}
