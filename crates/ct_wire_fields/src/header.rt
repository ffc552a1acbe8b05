//! The fields of the header.
ghost use Rattle.std.specs.Prelude.{◌≡◌, slice_get};
ghost use Rattle.ct_wire_fields.specs.Reading.{operation_of, names_request, is_request, begun, length_read, magic_read, version_read, generation_read, operation_read, receiver_read, sender_read, request_read, step_of};

use crate::check::{is_from_one, is_node};
use crate::draft::{Draft, Led, to_number, whole};
use crate::place::{NumberPlace, Operation};
use crate::version::Version;
use ct_frame::frame::Msg;

fn item_at(operations: &[Operation], place: u64) -> Option<Operation>
    ensures { result ≡ slice_get operations.now place }
{
    operations.get(place as usize).copied()
}

/// The operation of this number, counted from 1.
fn operation_of(number: u64) -> Option<Operation>
    ensures { result ≡ operation_of number }
{
    let operations = [
        Operation::Call,
        Operation::Recall,
        Operation::Give,
        Operation::Pass,
        Operation::Refuse,
        Operation::Grant,
        Operation::Done,
        Operation::Revoke,
        Operation::RevokeAck,
        Operation::VStore,
        Operation::VStored,
        Operation::VDelete,
        Operation::VDeleted,
        Operation::Freeze,
        Operation::FreezeAck,
        Operation::Pull,
        Operation::PullReply,
        Operation::Push,
        Operation::PushAck,
        Operation::Thaw,
        Operation::PUpdate,
        Operation::PAck,
        Operation::Release,
        Operation::ReleaseAck,
        Operation::Take,
    ];
    if number == 0 {
        return None;
    }
    item_at(&operations, number - 1)
}

/// Whether the header of a frame of this operation names the number of a request.
fn names_request(operation: Operation) -> bool
    ensures { result ≡ names_request operation }
{
    matches!(
        operation,
        Operation::Call
            | Operation::Recall
            | Operation::Pass
            | Operation::Refuse
            | Operation::Grant
            | Operation::Done
    )
}

fn is_request(operation: Operation, number: u64) -> bool
    ensures { result ≡ is_request operation number }
{
    if names_request(operation) {
        is_from_one(number)
    } else {
        number == 0
    }
}

impl Draft {
    pub(crate) fn length_read(&mut self, at: u64, number: u64) -> Led
        ensures { step_of result self.new ≡ length_read self.old at number }
    {
        if number < 40 || number > 268_435_456 {
            return Led::Broken(at);
        }
        self.head.length = number as u32;
        to_number(NumberPlace::Magic)
    }

    pub(crate) fn magic_read(&self, at: u64, number: u64) -> Led
        ensures { step_of result self.now ≡ magic_read self.now at number }
    {
        // The bytes `CTDB`.
        if number != 0x4354_4442 {
            return Led::Broken(at);
        }
        to_number(NumberPlace::Version)
    }

    pub(crate) fn version_read(&mut self, at: u64, number: u64) -> Led
        ensures { step_of result self.new ≡ version_read self.old at number }
    {
        let Some(version) = Version::of(number) else {
            return Led::Broken(at);
        };
        self.head.version = version;
        to_number(NumberPlace::Generation)
    }

    pub(crate) fn generation_read(&mut self, at: u64, number: u64) -> Led
        ensures { step_of result self.new ≡ generation_read self.old at number }
    {
        if !is_from_one(number) {
            return Led::Broken(at);
        }
        self.head.generation = number;
        to_number(NumberPlace::Operation)
    }

    pub(crate) fn operation_read(&mut self, at: u64, number: u64) -> Led
        ensures { step_of result self.new ≡ operation_read self.old at number }
    {
        let Some(operation) = operation_of(number) else {
            return Led::Broken(at);
        };
        self.head.operation = operation;
        to_number(NumberPlace::Receiver)
    }

    pub(crate) fn receiver_read(&mut self, at: u64, number: u64) -> Led
        ensures { step_of result self.new ≡ receiver_read self.old at number }
    {
        if !is_node(number) {
            return Led::Broken(at);
        }
        self.head.receiver = number as u32;
        to_number(NumberPlace::Sender)
    }

    pub(crate) fn sender_read(&mut self, at: u64, number: u64) -> Led
        ensures { step_of result self.new ≡ sender_read self.old at number }
    {
        if !is_node(number) {
            return Led::Broken(at);
        }
        self.head.sender = number as u32;
        to_number(NumberPlace::Request)
    }

    pub(crate) fn request_read(&mut self, at: u64, number: u64) -> Led
        ensures { step_of result self.new ≡ request_read self.old at number }
    {
        if !is_request(self.head.operation, number) {
            return Led::Broken(at);
        }
        self.head.request = number;
        self.begun()
    }

    /// The first field of the body.
    fn begun(&self) -> Led
        ensures { step_of result self.now ≡ begun self.now self.now.head.operation }
    {
        match self.head.operation {
            Operation::Freeze | Operation::Push => to_number(NumberPlace::NodeCount),
            Operation::FreezeAck => whole(self.head, Msg::FreezeAck),
            Operation::Pull => whole(self.head, Msg::Pull),
            Operation::PullReply => to_number(NumberPlace::VolatileBase),
            Operation::PushAck => whole(self.head, Msg::PushAck),
            Operation::Thaw => whole(self.head, Msg::Thaw),
            Operation::Release | Operation::ReleaseAck | Operation::Take => {
                to_number(NumberPlace::Run)
            }
            _ => to_number(NumberPlace::Db),
        }
    }
}
