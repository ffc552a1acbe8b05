//! What is read at once where it stands whole in the bytes: the header of a common frame, and the body behind it where that
//! gives a record's copy or asks for a record.
ghost use Rattle.std.specs.Prelude.{◌≡◌, ◌+◌, ◌<◌, ◌≤◌, [], true, length, IfOk, IfSome, Some};
ghost use Rattle.ct_wire_fields.specs.declared.place.NumberPlace.TheVariants as number;
ghost use Rattle.ct_wire_fields.specs.declared.place.Operation.TheVariants.{Call, Recall};
ghost use Rattle.ct_wire_fields.specs.Reading.{after_value, is_request, operation_of, whole};
ghost use Rattle.ct_wire.specs.Cursor.{number_width, start};
ghost use Rattle.ct_wire.specs.Decoding.{eaten, Gives};
ghost use Rattle.ct_wire.specs.Whole.{at_number, first_place, front_head, gives_copy, headed, is_common, kind_number, CopyStands, KeyStands};

use crate::cursor::number_of;
use ct_frame::frame::{CallKind, Frame, Msg};
use ct_values::key::Key;
use ct_values::memory::NoMemory;
use ct_values::value::Value;
use ct_wire_fields::check::{is_below_limit, is_db, is_from_one, is_node};
use ct_wire_fields::draft::Head;
use ct_wire_fields::place::Operation;
use ct_wire_fields::version::Version;
use std::alloc::Global;

/// The bytes `CTDB`.
const MAGIC: u64 = 0x4354_4442;

/// The first half of a header, and the bytes behind it.
#[derive(Clone, Copy, Debug)]
struct Front<'a> {
    length: u32,
    version: Version,
    generation: u64,
    rest: &'a [u8],
}

/// A record's database, key, RSN and value, and the bytes behind them.
#[derive(Clone, Copy, Debug)]
pub struct CopyFields<'a> {
    pub db: u32,
    pub key: &'a [u8],
    pub rsn: u64,
    pub value: &'a [u8],
    pub rest: &'a [u8],
}

/// A record's database and key, and the bytes behind them.
#[derive(Clone, Copy, Debug)]
pub struct KeyFields<'a> {
    pub db: u32,
    pub key: &'a [u8],
    pub rest: &'a [u8],
}

/// A frame, its length, and the bytes behind it.
#[derive(Debug, Drop)]
pub struct WholeFrame<'a> {
    pub frame: Frame,
    pub length: u32,
    pub rest: &'a [u8],
}

/// The first half of a header, where all of the header is there, and each field of the half keeps its rule.
fn front_of(bytes: &[u8]) -> Option<Front<'_>>
    ensures same { IfSome result (λ x. eaten start [] bytes.now ≡ eaten (at_number (headed (front_head x.length x.version x.generation)) 20 number.Operation) [] x.rest.now) }
    ensures shorter { IfSome result (λ x. length x.rest.now + 20 ≡ length bytes.now) }
    ensures more { IfSome result (λ x. 20 ≤ length x.rest.now) }
    ensures room { IfSome result (λ x. 40 ≤ x.length) }
{
    if bytes.len() < 40 {
        return None;
    }
    let (length_field, rest) = bytes.split_at(4);
    let (magic_field, rest) = rest.split_at(4);
    let (version_field, rest) = rest.split_at(4);
    let (generation_field, rest) = rest.split_at(8);
    let length = number_of(length_field);
    let generation = number_of(generation_field);
    if length < 40 || length > 268_435_456 || number_of(magic_field) != MAGIC {
        return None;
    }
    if !is_from_one(generation) {
        return None;
    }
    let version = Version::of(number_of(version_field))?;
    Some(Front {
        length: length as u32,
        version,
        generation,
        rest,
    })
}

/// The operation of this number, if its frames are read at once from the header on.
fn common(number: u64) -> Option<Operation>
    ensures known { IfSome result (λ o. operation_of number ≡ Some o) }
    ensures common { IfSome result (λ o. is_common o ≡ true) }
{
    match number {
        1 => Some(Operation::Call),
        2 => Some(Operation::Recall),
        3 => Some(Operation::Give),
        4 => Some(Operation::Pass),
        5 => Some(Operation::Refuse),
        6 => Some(Operation::Grant),
        7 => Some(Operation::Done),
        8 => Some(Operation::Revoke),
        9 => Some(Operation::RevokeAck),
        17 => Some(Operation::PullReply),
        18 => Some(Operation::Push),
        21 => Some(Operation::PUpdate),
        22 => Some(Operation::PAck),
        _ => None,
    }
}

/// Whether a frame of this operation gives a record's copy.
fn gives_copy(operation: Operation) -> bool
    ensures { result ≡ gives_copy operation }
{
    matches!(
        operation,
        Operation::Give | Operation::Pass | Operation::Grant
    )
}

/// Whether the header of such an operation may have this number of a request.
fn keeps_request(operation: Operation, request: u64) -> bool
    requires { is_common operation ≡ true }
    ensures { result ≡ is_request operation request }
{
    match operation {
        Operation::Call
        | Operation::Recall
        | Operation::Pass
        | Operation::Refuse
        | Operation::Grant
        | Operation::Done => is_from_one(request),
        _ => request == 0,
    }
}

/// How many bytes the first field of the body of such an operation has.
fn first_width(operation: Operation) -> u32
    ensures exact { result ≡ number_width (first_place operation) }
    ensures few { result ≤ 8 }
{
    match operation {
        Operation::PullReply => 8,
        _ => 4,
    }
}

/// The header at the front, where it is whole, each field keeps its rule and its operation is a common one, and the
/// bytes behind it. A length that leaves no room for the first field of a body is left to others.
pub fn head_of(bytes: &[u8]) -> Option<(Head, &[u8])>
    ensures same { IfSome result (λ x. eaten start [] bytes.now ≡ eaten (at_number (headed x.0) 40 (first_place x.0.operation)) [] x.1.now) }
    ensures common { IfSome result (λ x. is_common x.0.operation ≡ true) }
    ensures shorter { IfSome result (λ x. length x.1.now < length bytes.now) }
{
    let front = front_of(bytes)?;
    let (operation_field, rest) = front.rest.split_at(4);
    let (receiver_field, rest) = rest.split_at(4);
    let (sender_field, rest) = rest.split_at(4);
    let (request_field, rest) = rest.split_at(8);
    let operation = common(number_of(operation_field))?;
    let receiver = number_of(receiver_field);
    let sender = number_of(sender_field);
    let request = number_of(request_field);
    if !is_node(receiver) || !is_node(sender) || !keeps_request(operation, request) {
        return None;
    }
    if front.length < 40 + first_width(operation) {
        return None;
    }
    Some((
        Head {
            length: front.length,
            version: front.version,
            generation: front.generation,
            operation,
            receiver: receiver as u32,
            sender: sender as u32,
            request,
        },
        rest,
    ))
}

/// A record's database, key, RSN and value, where they stand whole at the front and each keeps its rule.
pub fn copy_fields(bytes: &[u8]) -> Option<CopyFields<'_>>
    ensures stands { IfSome result (λ x. CopyStands bytes.now x) }
    ensures shorter { IfSome result (λ x. length x.rest.now ≤ length bytes.now) }
{
    if bytes.len() < 15 {
        return None;
    }
    let (db_field, rest) = bytes.split_at(4);
    let (key_length, rest) = rest.split_at(1);
    let db = number_of(db_field);
    let size = number_of(key_length);
    if !is_db(db) || size == 0 || size > 255 || (rest.len() as u64) < size + 10 {
        return None;
    }
    let (key, rest) = rest.split_at(size as usize);
    let (rsn_field, rest) = rest.split_at(8);
    let (value_length, rest) = rest.split_at(2);
    let rsn = number_of(rsn_field);
    let size = number_of(value_length);
    if !is_below_limit(rsn) || size > 1024 || (rest.len() as u64) < size {
        return None;
    }
    let (value, rest) = rest.split_at(size as usize);
    Some(CopyFields {
        db: db as u32,
        key,
        rsn,
        value,
        rest,
    })
}

/// The message of such a header that gives this copy.
fn copy_message(head: Head, db: u32, key: Key, rsn: u64, value: Value) -> Msg
    requires { gives_copy head.operation ≡ true }
    ensures { after_value (record (headed head) { db = db; rsn = rsn }) key value head.operation ≡ whole head result }
{
    let request = head.request;
    match head.operation {
        Operation::Give => Msg::Give {
            db,
            key,
            rsn,
            value,
        },
        Operation::Pass => Msg::Pass {
            db,
            key,
            request,
            rsn,
            value,
        },
        _ => Msg::Grant {
            db,
            key,
            request,
            rsn,
            value,
        },
    }
}

/// The frame of such a header, where the copy stands whole behind it, and nothing but the copy is in the frame.
fn copy_frame(alloc: Global, head: Head, bytes: &[u8]) -> Result<Option<WholeFrame<'_>>, NoMemory>
    requires { gives_copy head.operation ≡ true }
    ensures exact { IfOk result (λ found. IfSome found (λ x. Gives x (eaten (at_number (headed head) 40 number.Db) [] bytes.now))) }
    ensures shorter { IfOk result (λ found. IfSome found (λ x. length x.rest.now ≤ length bytes.now)) }
{
    let Some(fields) = copy_fields(bytes) else {
        return Ok(None);
    };
    if (fields.key.len() + fields.value.len()) as u64 + 55 != u64::from(head.length) {
        return Ok(None);
    }
    let Some(key) = Key::from_vec(Vec::from_slice(alloc, fields.key)?)? else {
        return Ok(None);
    };
    let Some(value) = Value::from_vec(Vec::from_slice(alloc, fields.value)?)? else {
        return Ok(None);
    };
    let frame = Frame {
        generation: head.generation,
        sender: head.sender,
        receiver: head.receiver,
        msg: copy_message(head, fields.db, key, fields.rsn, value),
    };
    Ok(Some(WholeFrame {
        frame,
        length: head.length,
        rest: fields.rest,
    }))
}

/// A record's database and key, where they stand whole at the front and each keeps its rule, with so many bytes behind.
fn key_fields(bytes: &[u8], behind: u64) -> Option<KeyFields<'_>>
    requires { behind < 16 }
    ensures stands { IfSome result (λ x. KeyStands bytes.now x) }
    ensures behind { IfSome result (λ x. behind ≤ length x.rest.now) }
    ensures shorter { IfSome result (λ x. length x.rest.now ≤ length bytes.now) }
{
    if bytes.len() < 5 {
        return None;
    }
    let (db_field, rest) = bytes.split_at(4);
    let (key_length, rest) = rest.split_at(1);
    let db = number_of(db_field);
    let size = number_of(key_length);
    if !is_db(db) || size == 0 || size > 255 || (rest.len() as u64) < size + behind {
        return None;
    }
    let (key, rest) = rest.split_at(size as usize);
    Some(KeyFields {
        db: db as u32,
        key,
        rest,
    })
}

/// The kind of this number.
fn kind_of(number: u64) -> Option<CallKind>
    ensures { IfSome result (λ k. number ≡ kind_number k) }
{
    match number {
        0 => Some(CallKind::Lock),
        1 => Some(CallKind::Read),
        _ => None,
    }
}

/// The Call of such a header, where its body stands whole behind it, and nothing but the body is in the frame.
fn call_frame(alloc: Global, head: Head, bytes: &[u8]) -> Result<Option<WholeFrame<'_>>, NoMemory>
    requires { head.operation ≡ Call }
    ensures exact { IfOk result (λ found. IfSome found (λ x. Gives x (eaten (at_number (headed head) 40 number.Db) [] bytes.now))) }
    ensures shorter { IfOk result (λ found. IfSome found (λ x. length x.rest.now ≤ length bytes.now)) }
{
    let Some(fields) = key_fields(bytes, 1) else {
        return Ok(None);
    };
    if fields.key.len() as u64 + 46 != u64::from(head.length) {
        return Ok(None);
    }
    let (kind_field, rest) = fields.rest.split_at(1);
    let Some(kind) = kind_of(number_of(kind_field)) else {
        return Ok(None);
    };
    let Some(key) = Key::from_vec(Vec::from_slice(alloc, fields.key)?)? else {
        return Ok(None);
    };
    let frame = Frame {
        generation: head.generation,
        sender: head.sender,
        receiver: head.receiver,
        msg: Msg::Call {
            db: fields.db,
            key,
            request: head.request,
            kind,
        },
    };
    Ok(Some(WholeFrame {
        frame,
        length: head.length,
        rest,
    }))
}

/// The Recall of such a header, where its body stands whole behind it, and nothing but the body is in the frame.
fn recall_frame(alloc: Global, head: Head, bytes: &[u8]) -> Result<Option<WholeFrame<'_>>, NoMemory>
    requires { head.operation ≡ Recall }
    ensures exact { IfOk result (λ found. IfSome found (λ x. Gives x (eaten (at_number (headed head) 40 number.Db) [] bytes.now))) }
    ensures shorter { IfOk result (λ found. IfSome found (λ x. length x.rest.now ≤ length bytes.now)) }
{
    let Some(fields) = key_fields(bytes, 13) else {
        return Ok(None);
    };
    if fields.key.len() as u64 + 58 != u64::from(head.length) {
        return Ok(None);
    }
    let (least_field, rest) = fields.rest.split_at(8);
    let (node_field, rest) = rest.split_at(4);
    let (kind_field, rest) = rest.split_at(1);
    let least = number_of(least_field);
    let node = number_of(node_field);
    if !is_below_limit(least) || !is_node(node) {
        return Ok(None);
    }
    let Some(kind) = kind_of(number_of(kind_field)) else {
        return Ok(None);
    };
    let Some(key) = Key::from_vec(Vec::from_slice(alloc, fields.key)?)? else {
        return Ok(None);
    };
    let frame = Frame {
        generation: head.generation,
        sender: head.sender,
        receiver: head.receiver,
        msg: Msg::Recall {
            db: fields.db,
            key,
            least,
            node: node as u32,
            request: head.request,
            kind,
        },
    };
    Ok(Some(WholeFrame {
        frame,
        length: head.length,
        rest,
    }))
}

/// The frame of such a header, if it gives a record's copy or asks for a record, and its body stands whole behind it. None
/// says nothing of it.
pub fn whole_body(
    alloc: Global,
    head: Head,
    bytes: &[u8],
) -> Result<Option<WholeFrame<'_>>, NoMemory>
    ensures exact { IfOk result (λ found. IfSome found (λ x. Gives x (eaten (at_number (headed head) 40 (first_place head.operation)) [] bytes.now))) }
    ensures shorter { IfOk result (λ found. IfSome found (λ x. length x.rest.now ≤ length bytes.now)) }
{
    match head.operation {
        Operation::Call => call_frame(alloc, head, bytes),
        Operation::Recall => recall_frame(alloc, head, bytes),
        operation => {
            if gives_copy(operation) {
                copy_frame(alloc, head, bytes)
            } else {
                Ok(None)
            }
        }
    }
}
