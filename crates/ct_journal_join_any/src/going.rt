//! Whether an entry of a node may be made next, and which message arrives with it.
ghost use Rattle.std.specs.Prelude.{◌≡◌, ◌+◌, ◌<◌, ◌≤◌, ◌^◌, ◌↔◌, ℕ, List, None, true, nat_lt, length, IsTrue, IfSome, IfNone};
ghost use Rattle.std.specs.List.{list_all};
ghost use Rattle.ct_rules_cluster.specs.Faults.{fault_of};
ghost use Rattle.ct_rules_cluster.specs.declared.step.Step.TheVariants as step;
ghost use Rattle.ct_journal.specs.Order.{entries_of};
ghost use Rattle.ct_journal.specs.declared.journal.Journal.{Journal};
ghost use Rattle.ct_law_journal_reach.specs.Counts.{cut_to};
ghost use Rattle.ct_law_journal_reach.specs.Making.{is_not_dropped};
ghost use Rattle.ct_journal_join_any.specs.Going as going;

use ct_frame::event::Event;
use ct_frame::frame::Frame;
use ct_journal::journal::JournalEntry;
use ct_journal_order::same::same;
use ct_rules_cluster::step::Step;
use ct_world::world::World;

/// Is it no client call, or one of a number below this?
fn calls_below(call: u64, event: &Event) -> bool
    ensures { result ≡ going.calls_below call event.now }
{
    match event {
        Event::Client { call: number, .. } => *number < call,
        Event::Arrive(_) => true,
        Event::Retry => true,
        Event::Vacuum { .. } => true,
        Event::BeginRound { .. } => true,
        Event::BeginTakeover { .. } => true,
    }
}

/// Are the numbers of all client calls among these entries below this?
fn all_below(call: u64, past: &[JournalEntry]) -> bool
    ensures { result ≡ list_all (λ x. going.calls_below call x.event) past.now }
{
    past.iter().all(|entry| calls_below(call, &entry.event))
}

/// Are all of these the numbers of nodes, where there are so many nodes?
fn are_nodes(nodes: u32, able: &[u32]) -> bool
    ensures { result ≡ list_all (λ m. nat_lt m nodes) able.now }
{
    able.iter().all(|node| *node < nodes)
}

/// Is this the ticket after the last one?
fn is_next_ticket(world: &World, ticket: u64) -> bool
    ensures { IsTrue result ↔ (ticket ≡ world.now.cluster.ticket + 1) }
{
    0 < ticket && ticket - 1 == world.ticket()
}

/// Is the step not refused?
fn is_free(world: &World, step: &Step) -> bool
    ensures { IsTrue result ↔ (fault_of world.now.config world.now.cluster step.now ≡ None) }
{
    world.fault(step).is_none()
}

/// Is a takeover run not refused, and are these nodes that may be able nodes?
fn may_take_over(world: &World, node: u32, able: &[u32]) -> bool
    ensures { IsTrue result ↔ ((list_all (λ m. nat_lt m world.now.config.nodes) able.now ≡ true) × (fault_of world.now.config world.now.cluster (step.Takeover node) ≡ None)) }
{
    are_nodes(world.config().nodes, able) && is_free(world, &Step::Takeover(node))
}

/// The least number, from this one on, of a message that is this one. Nothing is known where the search begins at 0.
fn find_from(world: &World, frame: &Frame, from: u64) -> Option<u64>
    requires { length world.now.cluster.sent < 2 ^ 62 }
    ensures found { IfSome result (λ k. going.IsSentAs world.now.cluster frame.now k) }
    ensures none { IfNone result (1 ≤ from → (k : ℕ) → from ≤ k → going.IsSentAs world.now.cluster frame.now k → ⊥) }
{
    for number in from..u64::MAX {
        match world.message(number) {
            Some(sent) => if same(sent, frame) {
                return Some(number);
            },
            None => return None,
        }
    }
    None
}

/// The number of a message that is this one: the search begins at the hint, and then at the first message.
fn find(world: &World, frame: &Frame, hint: u64) -> Option<u64>
    requires { length world.now.cluster.sent < 2 ^ 62 }
    ensures found { IfSome result (λ k. going.IsSentAs world.now.cluster frame.now k) }
    ensures none { IfNone result ((k : ℕ) → going.IsSentAs world.now.cluster frame.now k → ⊥) }
{
    match find_from(world, frame, hint) {
        Some(number) => Some(number),
        None => find_from(world, frame, 1),
    }
}

/// A number, where this holds.
fn number_if(holds: bool) -> Option<u64>
    ensures { result ≡ going.number_if holds }
{
    if holds { Some(0) } else { None }
}

/// The number with which an entry of the node with this event may be made next, after these entries of the node: that of the message
/// that arrives, and 0 with another event. None where the entry may not be made. The hint is where a search for the message begins.
pub fn number_to_go(
    world: &World,
    past: &[JournalEntry],
    node: u32,
    event: &Event,
    hint: u64,
) -> Option<u64>
    requires few { length world.now.cluster.sent < 2 ^ 62 }
    requires kept { list_all (λ s. is_not_dropped s.fate) world.now.cluster.sent ≡ true }
    ensures { (js : List Journal) (ts : List ℕ) → entries_of (cut_to js ts) node ≡ past.now → going.GoesWith world.now.config js world.now.cluster ts node event.now result }
{
    match event {
        Event::Client { call, .. } => number_if(all_below(*call, past)),
        Event::Arrive(frame) => find(world, frame, hint),
        Event::Retry => Some(0),
        Event::Vacuum { db } => number_if(is_free(world, &Step::Vacuum { node, db: *db })),
        Event::BeginRound { ticket, .. } => number_if(is_next_ticket(world, *ticket)),
        Event::BeginTakeover { able } => number_if(may_take_over(world, node, able.as_slice())),
    }
}
