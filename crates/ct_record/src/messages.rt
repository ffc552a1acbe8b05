//! What comes of the messages that a record is asked for, given, passed and refused by.
ghost use Rattle.std.specs.Prelude.{◌≡◌, ◌+◌, ◌<◌, ◌^◌, ◌∷◌, nat_lt, None, Some, OnOk};
ghost use Rattle.std.specs.List.{list_any};
ghost use Rattle.ct_call.specs.Shown.{rules_of};
ghost use Rattle.ct_rules.specs.State.{rsn_of, rank, is_given};
ghost use Rattle.ct_rules.specs.Messages.{is_misplaced, pass_again, is_request, enqueue, called, on_call, same_recall, wait, handle, recalled, on_recall, hand_on, on_give, becomes, accept, refuse, on_pass, on_refuse, on_done};

use ct_call::table::CallTable;
use ct_frame::frame::{CallKind, Msg};
use ct_frame::header::{Header, NONE, RecCopy};
use ct_record_parts::draft::Draft;
use ct_record_parts::parts::{is_read_kind, same_kind};
use ct_rules::event::Place;
use ct_rules::state::{Entry, RecallNote, Waiter};
use ct_values::copies::Duplicate;
use ct_values::items::Items;
use ct_values::memory::NoMemory;
use ct_values::value::Value;

/// Is a copy for reading asked for of a database that hands out none?
#[tactic(auto, unfolding(ct_rules::specs::Messages::is_misplaced))]
fn is_misplaced(at: &Place, kind: CallKind) -> bool
    ensures { result ≡ is_misplaced at.now kind }
{
    is_read_kind(kind) && !at.readonly
}

/// Are the recalls equal?
#[tactic(auto, unfolding(ct_rules::specs::Messages::same_recall))]
fn same_recall(a: &RecallNote, b: &RecallNote) -> bool
    ensures { result ≡ same_recall a.now b.now }
{
    a.least == b.least && a.node == b.node && a.request == b.request && same_kind(a.kind, b.kind)
}

// Call, at the location master
/// The record is passed again to the entry's holder.
#[tactic(auto, unfolding(ct_rules::specs::Messages::pass_again))]
fn pass_again(draft: &mut Draft, at: &Place, entry: &Entry) -> Result<(), NoMemory>
    ensures { OnOk result (draft.new ≡ pass_again at.now entry.now draft.old) }
{
    let msg = Msg::Pass {
        db: at.db,
        key: at.key.copy()?,
        request: entry.request,
        rsn: entry.least.saturating_sub(1),
        value: entry.value.copy()?,
    };
    draft.send(entry.holder, msg)
}

/// Does this request wait?
#[tactic(auto, unfolding(ct_rules::specs::Messages::is_request))]
fn is_queued(draft: &Draft, node: u32, request: u64) -> bool
    ensures { result ≡ list_any (is_request node request) draft.now.state.queue }
{
    draft
        .state
        .as_ref()
        .queue
        .as_slice()
        .iter()
        .any(|w| w.node == node && w.request == request)
}

/// The request waits behind all others, and where it is the head the holder is asked for the record.
#[tactic(auto, unfolding(ct_rules::specs::Messages::enqueue, ct_rules::specs::Parts::keeps))]
fn enqueue(draft: &mut Draft, at: &Place, waiter: Waiter) -> Result<(), NoMemory>
    ensures { OnOk result (draft.new ≡ enqueue at.now waiter draft.old draft.old.state.queue) }
{
    let is_first = draft.state.as_ref().queue.is_empty();
    draft.state.as_mut().queue.push(waiter)?;
    if is_first { draft.next(at) } else { Ok(()) }
}

/// Who has it gets the Pass again; who waits is asked for again, after the Pass of an entry with a request; else the
/// request waits.
#[tactic(auto, unfolding(ct_rules::specs::Messages::called, ct_rules::specs::Messages::on_call_of))]
fn called(
    draft: &mut Draft,
    at: &Place,
    node: u32,
    request: u64,
    kind: CallKind,
) -> Result<(), NoMemory>
    ensures { OnOk result (draft.new ≡ called at.now node request kind draft.old) }
{
    let Some(entry) = draft.state.as_ref().entry.duplicate()? else {
        return Ok(());
    };
    if entry.holder == node && entry.request == request {
        return pass_again(draft, at, &entry);
    }
    if !is_queued(draft, node, request) {
        let waiter = Waiter {
            node,
            request,
            kind,
        };
        return enqueue(draft, at, waiter);
    }
    if entry.request != 0 {
        pass_again(draft, at, &entry)?;
    }
    draft.next(at)
}

/// A Call comes.
#[tactic(auto, unfolding(ct_rules::specs::Messages::on_call))]
pub(crate) fn on_call(
    draft: &mut Draft,
    at: &Place,
    node: u32,
    request: u64,
    kind: CallKind,
) -> Result<(), NoMemory>
    ensures { OnOk result (draft.new ≡ on_call at.now node request kind draft.old) }
{
    if is_misplaced(at, kind) {
        return Ok(());
    }
    draft.opened(at);
    draft.end_vacuum();
    called(draft, at, node, request, kind)
}

// Recall, from the location master
/// Does an equal recall wait?
fn is_waiting(draft: &Draft, note: &RecallNote) -> bool
    ensures { result ≡ list_any (same_recall note.now) draft.now.state.waiting }
{
    draft
        .state
        .as_ref()
        .waiting
        .as_slice()
        .iter()
        .any(|w| same_recall(note, w))
}

/// The recall waits, unless an equal one does.
#[tactic(auto, unfolding(ct_rules::specs::Messages::wait, ct_rules::specs::Parts::keeps))]
fn wait(draft: &mut Draft, note: RecallNote) -> Result<(), NoMemory>
    ensures { OnOk result (draft.new ≡ wait note draft.old) }
{
    if is_waiting(draft, &note) {
        return Ok(());
    }
    draft.state.as_mut().waiting.push(note)?;
    Ok(())
}

/// The recall waits before all others.
fn put_first(draft: &mut Draft, note: RecallNote) -> Result<(), NoMemory>
    ensures { OnOk result (draft.new ≡ record draft.old { state = record draft.old.state { waiting = note ∷ draft.old.state.waiting } }) }
{
    let mut waiting = Vec::new(draft.alloc);
    waiting.push(note)?;
    waiting.extend_from_slice(draft.state.as_ref().waiting.as_slice())?;
    draft.state.as_mut().waiting = Items::new(waiting);
    Ok(())
}

/// A recall comes to a free holder.
#[tactic(auto, unfolding(ct_rules::specs::Messages::handle, ct_rules::specs::Parts::end_vacuum, ct_rules::specs::Parts::keeps))]
fn handle(draft: &mut Draft, at: &Place, note: RecallNote) -> Result<(), NoMemory>
    requires { draft.old.state.tracking.revoking ≡ None }
    ensures { OnOk result (draft.new ≡ handle at.now note draft.old) }
{
    draft.end_vacuum();
    if is_read_kind(note.kind) {
        draft.grant(at, note.node, note.request)
    } else {
        put_first(draft, note)?;
        draft.yield_record(at)
    }
}

/// Did the node give its copy away?
#[tactic(auto, unfolding(ct_rules::specs::State::is_given))]
fn is_given(draft: &Draft) -> bool
    ensures { result ≡ is_given draft.now.state.copy }
{
    match &draft.state.as_ref().copy {
        Some(copy) => copy.header.dmaster == NONE,
        None => false,
    }
}

/// Has the node a copy of at least this RSN?
#[tactic(auto, unfolding(ct_rules::specs::State::rank))]
fn reaches_least(draft: &Draft, least: u64) -> bool
    ensures { result ≡ nat_lt least (rank draft.now.state.copy) }
{
    match &draft.state.as_ref().copy {
        Some(copy) => least <= copy.header.rsn,
        None => false,
    }
}

/// The recall waits for a copy or for the holder, is handled, or gets the same Give again.
#[tactic(auto, unfolding(ct_rules::specs::Messages::recalled))]
fn recalled(draft: &mut Draft, at: &Place, note: RecallNote) -> Result<(), NoMemory>
    ensures { OnOk result (draft.new ≡ recalled at.now note draft.old) }
{
    if !reaches_least(draft, note.least) {
        return wait(draft, note);
    }
    if draft.is_holder(at) {
        return if draft.is_free(at) {
            handle(draft, at, note)
        } else {
            wait(draft, note)
        };
    }
    if !is_given(draft) {
        return Ok(());
    }
    let msg = Msg::Give {
        db: at.db,
        key: at.key.copy()?,
        rsn: draft.rsn(),
        value: draft.value()?,
    };
    draft.send(at.lmaster, msg)
}

/// A Recall comes.
#[tactic(auto, unfolding(ct_rules::specs::Messages::on_recall))]
pub(crate) fn on_recall(draft: &mut Draft, at: &Place, note: RecallNote) -> Result<(), NoMemory>
    ensures { OnOk result (draft.new ≡ on_recall at.now note draft.old) }
{
    if is_misplaced(at, note.kind)
        || (at.me == at.lmaster && draft.state.as_ref().entry.is_none())
    {
        return Ok(());
    }
    recalled(draft, at, note)
}

// Give, at the location master
/// The record goes to the head of the queue where that wants the lock, and else stays.
#[tactic(auto, unfolding(ct_rules::specs::Messages::hand_on, ct_rules::specs::Parts::keeps))]
fn hand_on(draft: &mut Draft, at: &Place, rsn: u64, value: &Value) -> Result<(), NoMemory>
    requires { rsn < 2 ^ 62 }
    ensures { OnOk result (draft.new ≡ hand_on at.now rsn value.now draft.old draft.old.state.queue) }
{
    match draft.state.as_ref().queue.as_slice().first() {
        Some(first) if !is_read_kind(first.kind) => {}
        _ => return draft.keep(at, rsn + 1, value),
    }
    let Some(first) = draft.state.as_mut().queue.take_first() else {
        return Ok(());
    };
    draft.set_entry(Entry {
        holder: first.node,
        least: rsn + 1,
        request: first.request,
        value: value.copy()?,
    });
    draft.reaches(rsn + 1);
    let msg = Msg::Pass {
        db: at.db,
        key: at.key.copy()?,
        request: first.request,
        rsn,
        value: value.copy()?,
    };
    draft.send(first.node, msg)?;
    draft.next(at)
}

/// A Give comes: it counts only of the record that the entry waits for.
#[tactic(auto, unfolding(ct_rules::specs::Messages::on_give, ct_rules::specs::Messages::on_give_of))]
pub(crate) fn on_give(
    draft: &mut Draft,
    at: &Place,
    sender: u32,
    rsn: u64,
    value: &Value,
) -> Result<(), NoMemory>
    requires { rsn < 2 ^ 62 }
    ensures { OnOk result (draft.new ≡ on_give at.now sender rsn value.now draft.old) }
{
    match &draft.state.as_ref().entry {
        Some(entry) if entry.holder == sender && entry.least <= rsn => hand_on(
            draft, at, rsn, value,
        ),
        _ => Ok(()),
    }
}

// Pass, from the location master
/// The node becomes holder, and nothing is tracked.
#[tactic(auto, unfolding(ct_rules::specs::Messages::becomes, ct_rules::specs::Parts::keeps))]
fn becomes(draft: &mut Draft, at: &Place, rsn: u64, value: &Value) -> Result<(), NoMemory>
    ensures { OnOk result (draft.new ≡ becomes at.now rsn value.now draft.old) }
{
    draft.set_copy(RecCopy {
        header: Header {
            rsn,
            dmaster: at.me,
            flags: 0,
        },
        value: value.copy()?,
    });
    draft.state.as_mut().tracking.clear();
    draft.reaches(rsn);
    Ok(())
}

/// The node becomes holder, its wish is satisfied, and then what waits is handled.
#[tactic(auto, unfolding(ct_rules::specs::Messages::accept, ct_rules::specs::Messages::becomes, ct_rules::specs::Parts::reaches, ct_rules::specs::Parts::keeps))]
fn accept(
    draft: &mut Draft,
    at: &Place,
    table: &CallTable,
    rsn: u64,
    value: &Value,
) -> Result<(), NoMemory>
    requires { rsn < 2 ^ 62 }
    ensures { OnOk result (draft.new ≡ accept at.now (rules_of table.now) rsn value.now draft.old) }
{
    becomes(draft, at, rsn + 1, value)?;
    draft.satisfy_wish(table)?;
    draft.drained(at)
}

/// A record that nobody here wishes for any more is refused.
#[tactic(auto, unfolding(ct_rules::specs::Messages::refuse, ct_rules::specs::Parts::keeps))]
fn refuse(draft: &mut Draft, at: &Place, request: u64, rsn: u64) -> Result<(), NoMemory>
    ensures { OnOk result (draft.new ≡ refuse at.now request rsn draft.old) }
{
    let msg = Msg::Refuse {
        db: at.db,
        key: at.key.copy()?,
        request,
        rsn,
    };
    draft.state.as_mut().waiting = Items::empty(draft.alloc);
    draft.send(at.lmaster, msg)
}

/// Has the node a copy above this RSN?
#[tactic(auto, unfolding(ct_rules::specs::State::rank))]
fn is_above(draft: &Draft, rsn: u64) -> bool
    ensures { result ≡ nat_lt (rsn + 1) (rank draft.now.state.copy) }
{
    match &draft.state.as_ref().copy {
        Some(copy) => rsn < copy.header.rsn,
        None => false,
    }
}

/// A Pass comes.
#[tactic(auto, unfolding(ct_rules::specs::Messages::on_pass))]
pub(crate) fn on_pass(
    draft: &mut Draft,
    at: &Place,
    table: &CallTable,
    request: u64,
    rsn: u64,
    value: &Value,
) -> Result<(), NoMemory>
    requires { rsn < 2 ^ 62 }
    ensures { OnOk result (draft.new ≡ on_pass at.now (rules_of table.now) request rsn value.now draft.old) }
{
    if is_above(draft, rsn) {
        return Ok(());
    }
    if draft.is_wished(at, request, CallKind::Lock) {
        accept(draft, at, table, rsn, value)
    } else {
        refuse(draft, at, request, rsn)
    }
}

// Refuse, at the location master
/// A Refuse comes: it counts only of what was passed last.
#[tactic(auto, unfolding(ct_rules::specs::Messages::on_refuse, ct_rules::specs::Messages::on_refuse_of))]
pub(crate) fn on_refuse(
    draft: &mut Draft,
    at: &Place,
    node: u32,
    request: u64,
    rsn: u64,
) -> Result<(), NoMemory>
    requires { rsn < 2 ^ 62 }
    ensures { OnOk result (draft.new ≡ on_refuse at.now node request rsn draft.old) }
{
    match &draft.state.as_ref().entry {
        Some(entry)
            if entry.holder == node
                && entry.least == rsn + 1
                && entry.request == request
                && request != 0 => {
            let value = entry.value.copy()?;
            draft.keep(at, rsn + 2, &value)
        }
        _ => Ok(()),
    }
}

// Done, at the location master
/// A Done comes: the head is taken off, and the holder is asked for the next one.
#[tactic(auto, unfolding(ct_rules::specs::Messages::on_done, ct_rules::specs::Messages::on_done_of, ct_rules::specs::Messages::is_request, ct_rules::specs::Parts::keeps))]
pub(crate) fn on_done(
    draft: &mut Draft,
    at: &Place,
    node: u32,
    request: u64,
) -> Result<(), NoMemory>
    ensures { OnOk result (draft.new ≡ on_done at.now node request draft.old) }
{
    match draft.state.as_ref().queue.as_slice().first() {
        Some(first) if first.node == node && first.request == request => {}
        _ => return Ok(()),
    }
    let _ = draft.state.as_mut().queue.take_first();
    draft.next(at)
}
