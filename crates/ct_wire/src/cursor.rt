//! A frame's fields as bytes: how many bytes the next field has, and what they lead to.
ghost use Rattle.std.specs.Prelude.{◌≡◌, ◌+◌, ◌<◌, ◌≤◌, ◌^◌, IfOk, length};
ghost use Rattle.ct_wire.specs.Cursor.{address_field, address_stage, address_start, after_family, arrive, family_read, field_read, has_room, is_text_length, last_is_v6, number_field, number_of, number_width, outcome_of, settled, start, start_width, text_field, text_length_read, text_stage, text_width, wide_number_of, width, IsSound, IsSoundStage, IsSoundTaken};
ghost use Rattle.ct_wire_fields.specs.Reading.{step_of};

use ct_frame::frame::Frame;
use ct_values::address::Address;
use ct_values::memory::NoMemory;
use ct_wire_fields::draft::{Draft, Led, Reading};
use ct_wire_fields::place::{AddressPlace, NumberPlace, Place, TextPlace};
use std::alloc::Global;
use std::mem;

/// Where inside a key, a value or an address the next field stands.
#[derive(Clone, Copy, Debug, PartialEq, Eq)]
pub enum Stage {
    /// Nothing of it has come.
    Start,
    /// Its length has come: a text of so many bytes.
    Text { length: u64 },
    /// Its family has come: an IPv4 address.
    Four,
    /// Its family has come: an IPv6 address.
    Sixteen,
}

/// A frame before one of its fields. What stands at the next place begins at the offset `at`.
#[derive(Debug, Drop)]
pub struct Cursor {
    pub reading: Reading,
    pub at: u64,
    pub stage: Stage,
}

/// What a field leads to. The functions change a cursor in its place, and answer what comes of it beside: `Taken`.
#[derive(Debug, Drop)]
pub enum Outcome {
    /// There is more to come.
    More(Cursor),
    /// It was the last field of a frame of this length.
    Whole(Frame, u64),
    /// The field at this offset is the first that breaks its rule.
    Malformed(u64),
}

/// What a field leads to, beside the cursor that takes it.
#[derive(Debug, Drop)]
pub enum Taken {
    /// There is more to come.
    More,
    /// It was the last field of a frame of this length.
    Whole(Frame, u64),
    /// The field at this offset is the first that breaks its rule.
    Malformed(u64),
}

/// How many bytes a number has.
pub fn number_width(place: &NumberPlace) -> u64
    ensures { result ≡ number_width place.now }
{
    match place {
        NumberPlace::Kind { .. } => 1,
        NumberPlace::Generation
        | NumberPlace::Request
        | NumberPlace::Least { .. }
        | NumberPlace::Rsn { .. }
        | NumberPlace::VolatileBase
        | NumberPlace::PersistentBase
        | NumberPlace::RowRsn { .. }
        | NumberPlace::PTableSeq { .. }
        | NumberPlace::Seq
        | NumberPlace::Run => 8,
        _ => 4,
    }
}

/// How many bytes the length of a key or value has.
pub fn text_width(place: &TextPlace) -> u64
    ensures { result ≡ text_width place.now }
{
    match place {
        TextPlace::Key
        | TextPlace::RowKey { .. }
        | TextPlace::PairKey { .. }
        | TextPlace::WriteKey { .. } => 1,
        _ => 2,
    }
}

/// Whether a key or value at this place may have so many bytes.
fn is_text_length(place: &TextPlace, length: u64) -> bool
    ensures { result ≡ is_text_length place.now length }
{
    match place {
        TextPlace::Key
        | TextPlace::RowKey { .. }
        | TextPlace::PairKey { .. }
        | TextPlace::WriteKey { .. } => 0 < length && length < 256,
        TextPlace::PairValue { .. } => 0 < length && length < 1025,
        _ => length < 1025,
    }
}

/// The number of these bytes.
pub fn number_of(field: &[u8]) -> u64
    ensures { result ≡ number_of field.now }
{
    match field {
        [a] => u64::from(*a),
        [a, b] => u64::from(u16::from_be_bytes([*a, *b])),
        [a, b, c, d] => u64::from(u32::from_be_bytes([*a, *b, *c, *d])),
        [a, b, c, d, e, f, g, h] => u64::from_be_bytes([*a, *b, *c, *d, *e, *f, *g, *h]),
        _ => 0,
    }
}

/// The number of these 16 bytes.
fn wide_number_of(field: &[u8]) -> u128
    ensures { result ≡ wide_number_of field.now }
{
    if field.len() != 16 {
        return 0;
    }
    let (high, low) = field.split_at(8);
    u128::from(number_of(high)) * 18_446_744_073_709_551_616 + u128::from(number_of(low))
}

/// Whether the address before the next one is an IPv6 address.
fn last_is_v6(draft: &Draft, place: AddressPlace) -> bool
    ensures { result ≡ last_is_v6 draft.now place }
{
    match place {
        AddressPlace::Held { .. } => match draft.addresses.as_slice().last() {
            Some(Address::V6(_)) => true,
            Some(Address::V4(_)) => false,
            None => false,
        },
        AddressPlace::Assigned { .. } => match draft.assigned.as_slice().last() {
            Some(last) => match last.address {
                Address::V6(_) => true,
                Address::V4(_) => false,
            },
            None => false,
        },
    }
}

/// How many bytes the first field at this place has.
fn start_width(reading: &Reading) -> u64
    ensures exact { result ≡ start_width reading.now }
    ensures some { (1 ≤ result) × (result ≤ 8) }
{
    match &reading.place {
        Place::Number(place) => number_width(place),
        Place::Text(place) => text_width(place),
        Place::Address(_) => {
            if reading.draft.head.version.names_families() {
                1
            } else {
                4
            }
        }
    }
}

/// Whether a field of this width has room at this offset.
fn has_room(length: u32, at: u64, width: u64) -> bool
    requires { (at < 2 ^ 40) × (width < 2 ^ 20) }
    ensures { result ≡ has_room length at width }
{
    at + width <= u64::from(length)
}

impl Cursor {
    /// Comes before this place, which begins at the offset `at`, and of which so much has come.
    pub(crate) fn stand(&mut self, place: Place, at: u64, stage: Stage)
        ensures { self.new ≡ record { reading = record { draft = self.old.reading.draft; place = place }; at = at; stage = stage } }
    {
        drop(mem::replace(&mut self.reading.place, place));
        self.at = at;
        self.stage = stage;
    }

    /// The next field stands at the offset `at`.
    fn arrive(&mut self, place: Place, at: u64) -> Taken
        requires { at < 2 ^ 40 }
        ensures exact { outcome_of result self.new ≡ arrive (record { draft = self.old.reading.draft; place = place }) at }
        ensures sound { IsSoundTaken result self.new }
    {
        self.stand(place, at, Stage::Start);
        if !has_room(
            self.reading.draft.head.length,
            at,
            start_width(&self.reading),
        ) {
            return Taken::Malformed(at);
        }
        Taken::More
    }

    /// What a step leads to, in a frame of this length, where the fields read so far end at `at`.
    fn settled(&mut self, length: u32, led: Led, at: u64) -> Taken
        requires { at < 2 ^ 40 }
        ensures exact { outcome_of result self.new ≡ settled length (step_of led self.old.reading.draft) at }
        ensures sound { IsSoundTaken result self.new }
    {
        match led {
            Led::Next(place) => self.arrive(place, at),
            Led::Whole(frame) => {
                if at == u64::from(length) {
                    return Taken::Whole(frame, at);
                }
                drop(frame);
                Taken::Malformed(at)
            }
            Led::Broken(offset) => Taken::Malformed(offset),
        }
    }

    fn number_read(
        &mut self,
        alloc: Global,
        place: NumberPlace,
        field: &[u8],
    ) -> Result<Taken, NoMemory>
        requires { self.old.at < 2 ^ 32 }
        ensures exact { IfOk result (λ t. outcome_of t self.new ≡ number_field self.old.reading.draft self.old.at place field.now) }
        ensures sound { IfOk result (λ t. IsSoundTaken t self.new) }
    {
        let length = self.reading.draft.head.length;
        let at = self.at;
        let end = at + number_width(&place);
        let led = self
            .reading
            .draft
            .number_read(alloc, at, number_of(field), place)?;
        Ok(self.settled(length, led, end))
    }

    /// A key or value of no bytes is whole with its length.
    fn text_length_read(
        &mut self,
        alloc: Global,
        place: TextPlace,
        length: u64,
    ) -> Result<Taken, NoMemory>
        requires { self.old.at < 2 ^ 32 }
        ensures exact { IfOk result (λ t. outcome_of t self.new ≡ text_length_read self.old.reading.draft self.old.at place length) }
        ensures sound { IfOk result (λ t. IsSoundTaken t self.new) }
    {
        let at = self.at;
        if !is_text_length(&place, length) {
            drop(place);
            return Ok(Taken::Malformed(at));
        }
        let end = at + text_width(&place);
        let frame = self.reading.draft.head.length;
        if length == 0 {
            let led = self
                .reading
                .draft
                .text_read(alloc, at, Vec::new(alloc), place)?;
            return Ok(self.settled(frame, led, end));
        }
        if !has_room(frame, end, length) {
            drop(place);
            return Ok(Taken::Malformed(end));
        }
        self.stand(Place::Text(place), at, Stage::Text { length });
        Ok(Taken::More)
    }

    fn text_read(
        &mut self,
        alloc: Global,
        place: TextPlace,
        length: u64,
        field: &[u8],
    ) -> Result<Taken, NoMemory>
        requires { (self.old.at < 2 ^ 32) × (length ≤ 1024) }
        ensures exact { IfOk result (λ t. outcome_of t self.new ≡ text_field self.old.reading.draft self.old.at place length field.now) }
        ensures sound { IfOk result (λ t. IsSoundTaken t self.new) }
    {
        let frame = self.reading.draft.head.length;
        let at = self.at;
        let end = at + text_width(&place) + length;
        let Ok(text) = Vec::from_slice(alloc, field) else {
            drop(place);
            return Err(NoMemory);
        };
        let led = self.reading.draft.text_read(alloc, at, text, place)?;
        Ok(self.settled(frame, led, end))
    }

    fn address_read(
        &mut self,
        alloc: Global,
        place: AddressPlace,
        address: Address,
        end: u64,
    ) -> Result<Taken, NoMemory>
        requires { end < 2 ^ 40 }
        ensures exact { IfOk result (λ t. outcome_of t self.new ≡ address_field self.old.reading.draft self.old.at place address end) }
        ensures sound { IfOk result (λ t. IsSoundTaken t self.new) }
    {
        let length = self.reading.draft.head.length;
        let at = self.at;
        let led = self.reading.draft.address_read(alloc, at, address, place)?;
        Ok(self.settled(length, led, end))
    }

    /// An address of this many bytes follows the family, if the frame has room for it.
    fn after_family(&mut self, place: AddressPlace, stage: Stage, width: u64) -> Taken
        requires { (self.old.at < 2 ^ 32) × (width ≤ 16) × IsSoundStage stage }
        ensures exact { outcome_of result self.new ≡ after_family self.old.reading.draft self.old.at place stage width }
        ensures sound { IsSoundTaken result self.new }
    {
        let at = self.at;
        if !has_room(self.reading.draft.head.length, at + 1, width) {
            return Taken::Malformed(at + 1);
        }
        self.stand(Place::Address(place), at, stage);
        Taken::More
    }

    /// The family of an address. No IPv4 address comes after an IPv6 address.
    fn family_read(&mut self, place: AddressPlace, family: u64) -> Taken
        requires { self.old.at < 2 ^ 32 }
        ensures exact { outcome_of result self.new ≡ family_read self.old.reading.draft self.old.at place family }
        ensures sound { IsSoundTaken result self.new }
    {
        if family == 4 && !last_is_v6(&self.reading.draft, place) {
            return self.after_family(place, Stage::Four, 4);
        }
        if family == 6 {
            return self.after_family(place, Stage::Sixteen, 16);
        }
        Taken::Malformed(self.at)
    }

    /// The first field of an address, which is all of it where a version names no families.
    fn address_start(
        &mut self,
        alloc: Global,
        place: AddressPlace,
        field: &[u8],
    ) -> Result<Taken, NoMemory>
        requires { self.old.at < 2 ^ 32 }
        ensures exact { IfOk result (λ t. outcome_of t self.new ≡ address_start self.old.reading.draft self.old.at place field.now) }
        ensures sound { IfOk result (λ t. IsSoundTaken t self.new) }
    {
        if !self.reading.draft.head.version.names_families() {
            let address = Address::V4((number_of(field) % 4_294_967_296) as u32);
            let end = self.at + 4;
            return self.address_read(alloc, place, address, end);
        }
        Ok(self.family_read(place, number_of(field)))
    }

    fn address_stage(
        &mut self,
        alloc: Global,
        place: AddressPlace,
        field: &[u8],
    ) -> Result<Taken, NoMemory>
        requires { self.old.at < 2 ^ 32 }
        ensures exact { IfOk result (λ t. outcome_of t self.new ≡ address_stage self.old.reading.draft self.old.at place self.old.stage field.now) }
        ensures sound { IfOk result (λ t. IsSoundTaken t self.new) }
    {
        match self.stage {
            Stage::Four => {
                let address = Address::V4((number_of(field) % 4_294_967_296) as u32);
                let end = self.at + 5;
                self.address_read(alloc, place, address, end)
            }
            Stage::Sixteen => {
                let address = Address::V6(wide_number_of(field));
                let end = self.at + 17;
                self.address_read(alloc, place, address, end)
            }
            Stage::Start => self.address_start(alloc, place, field),
            Stage::Text { .. } => self.address_start(alloc, place, field),
        }
    }

    fn text_stage(
        &mut self,
        alloc: Global,
        place: TextPlace,
        field: &[u8],
    ) -> Result<Taken, NoMemory>
        requires { IsSound self.old }
        ensures exact { IfOk result (λ t. outcome_of t self.new ≡ text_stage self.old.reading.draft self.old.at place self.old.stage field.now) }
        ensures sound { IfOk result (λ t. IsSoundTaken t self.new) }
    {
        match self.stage {
            Stage::Text { length } => self.text_read(alloc, place, length, field),
            _ => self.text_length_read(alloc, place, number_of(field)),
        }
    }

    /// Before the first field of a frame.
    pub fn start(alloc: Global) -> Cursor
        ensures exact { result ≡ start }
        ensures sound { IsSound result }
    {
        Cursor {
            reading: Reading {
                draft: Draft::new(alloc),
                place: Place::Number(NumberPlace::Length),
            },
            at: 0,
            stage: Stage::Start,
        }
    }

    /// How many bytes the next field has.
    pub fn width(&self) -> u64
        ensures exact { result ≡ width self.now }
        ensures some { IsSound self.now → (1 ≤ result) × (result ≤ 1024) }
    {
        match &self.reading.place {
            Place::Number(place) => number_width(place),
            Place::Text(place) => match self.stage {
                Stage::Text { length } => length,
                _ => text_width(place),
            },
            Place::Address(_) => match self.stage {
                Stage::Four => 4,
                Stage::Sixteen => 16,
                _ => {
                    if self.reading.draft.head.version.names_families() {
                        1
                    } else {
                        4
                    }
                }
            },
        }
    }

    /// Takes the next field. Only where more is to come, and memory is left, the cursor is of further use.
    pub fn step(&mut self, alloc: Global, field: &[u8]) -> Result<Taken, NoMemory>
        requires { IsSound self.old }
        ensures exact { IfOk result (λ t. outcome_of t self.new ≡ field_read self.old field.now) }
        ensures sound { IfOk result (λ t. IsSoundTaken t self.new) }
    {
        let place = mem::replace(&mut self.reading.place, Place::Number(NumberPlace::Length));
        match place {
            Place::Number(place) => self.number_read(alloc, place, field),
            Place::Text(place) => self.text_stage(alloc, place, field),
            Place::Address(place) => self.address_stage(alloc, place, field),
        }
    }
}
