//! What each entry of journals waits for.
ghost use Rattle.std.specs.Prelude.{◌≡◌, ◌<◌, IfOk, length, map};
ghost use Rattle.ct_rules_node.specs.Node.{is_among};
ghost use Rattle.ct_journal.specs.Order.{entries_of};
ghost use Rattle.ct_journal_order.specs.Letters.{letters_of};
ghost use Rattle.ct_journal_order.specs.Demands.{AllWaited, AreWaited, Waits, WaitsToArrive, letters_after};

use crate::demand::Demand;
use crate::letter::{Letter, Letters, all_letters, take_letter, take_letters};
use crate::same::same;
use ct_frame::event::Event;
use ct_frame::frame::Frame;
use ct_journal::journal::{Journal, JournalEntry};
use ct_values::items::Items;
use ct_values::memory::NoMemory;
use std::alloc::Global;

/// Is the node among these?
#[tactic(auto, unfolding(ct_rules_node::specs::Node::is_among))]
fn is_among(nodes: &[u32], node: usize) -> bool
    ensures { result ≡ is_among node nodes.now }
{
    nodes.iter().any(|member| node == *member as usize)
}

/// What the arrival of a message waits for, where this is the first one of its sender's that had not arrived.
fn demand_to_arrive(frame: &Frame, first: Option<Letter>) -> Demand
    ensures { WaitsToArrive frame.now first.entry result }
{
    match first {
        None => Demand::Never,
        Some(letter) => {
            if same(letter.frame, frame) {
                Demand::Entries {
                    node: frame.sender,
                    count: letter.count,
                }
            } else {
                Demand::Never
            }
        }
    }
}

/// What an entry of the node with this event waits for. A message that arrives is taken off the letters.
fn demand_of(letters: &mut Vec<Letters>, node: usize, event: &Event) -> Demand
    ensures demand { Waits node event.now letters.old.items result }
    ensures letters { letters.new.items ≡ letters_after event.now letters.old.items }
{
    match event {
        Event::Client { .. } => Demand::Free,
        Event::Arrive(frame) => demand_to_arrive(frame, take_letter(letters, frame.sender)),
        Event::BeginRound { ticket, members } => {
            if is_among(members.as_slice(), node) {
                Demand::Ticket(*ticket)
            } else {
                Demand::Never
            }
        }
        Event::Retry => Demand::Never,
        Event::Vacuum { .. } => Demand::Never,
        Event::BeginTakeover { .. } => Demand::Never,
    }
}

/// The entries of the node.
#[tactic(auto, unfolding(ct_journal::specs::Order::entries_of, ct_journal::specs::Order::or_no_entries))]
fn entries_at(journals: &[Journal], node: usize) -> &[JournalEntry]
    ensures { result.now ≡ entries_of journals.now node }
{
    match journals.get(node) {
        Some(journal) => journal.entries.as_slice(),
        None => &[],
    }
}

/// What each entry of the node waits for, where these are the messages to it.
fn demands_of(
    alloc: Global,
    journals: &[Journal],
    node: usize,
    mut letters: Vec<Letters>,
) -> Result<Items<Demand>, NoMemory>
    requires { letters.items ≡ map (letters_of node) journals.now }
    ensures { IfOk result (λ ds. AreWaited node (entries_of journals.now node) (map (letters_of node) journals.now) ds) }
{
    let mut demands = Vec::new(alloc);
    let entries = entries_at(journals, node);
    for entry in entries {
        demands.push(demand_of(&mut letters, node, &entry.event))?;
    }
    Ok(Items::new(demands))
}

/// What each entry of each journal waits for.
pub fn all_demands(alloc: Global, journals: &[Journal]) -> Result<Vec<Items<Demand>>, NoMemory>
    ensures { IfOk result (λ v. AllWaited journals.now v.items) }
{
    let mut receivers = all_letters(alloc, journals)?;
    let mut all = Vec::new(alloc);
    for node in 0..journals.len() {
        let letters = take_letters(alloc, &mut receivers, node);
        all.push(demands_of(alloc, journals, node, letters)?)?;
    }
    Ok(all)
}
