//! Whether journals are those of a play that came to its end.
ghost use Rattle.std.specs.Prelude.{◌≡◌, ◌<◌, ◌^◌, length, IfOk, MatchBool};
ghost use Rattle.std.specs.List.{list_any};
ghost use Rattle.ct_troupe_threads.specs.Threaded as threaded;

use ct_journal::journal::Journal;
use ct_journal_order::order::in_order;
use ct_values::memory::NoMemory;
use std::alloc::Global;

/// A node whose journal has so many entries takes no more.
pub const MOST_ENTRIES: u64 = 1_000_000;

/// Does the journal have all entries that a node takes?
#[tactic(auto, unfolding(crate::specs::Threaded::has_most_entries))]
fn has_most_entries(journal: &Journal) -> bool
    ensures { result ≡ threaded.has_most_entries journal.now }
{
    journal.entries.len() as u64 >= MOST_ENTRIES
}

/// Does one of the journals?
fn some_has_most(journals: &[Journal]) -> bool
    ensures { result ≡ list_any threaded.has_most_entries journals.now }
{
    journals.iter().any(|journal| has_most_entries(journal))
}

/// Are the journals in order, and has each message that was sent arrived, unless a journal has 1,000,000 entries? The one at
/// place n is that of node n.
#[tactic(auto, using(crate::proofs::Settling::all_arrived, crate::proofs::Settling::settled_by_most, crate::proofs::Settling::not_in_order))]
pub fn are_settled(alloc: Global, journals: &[Journal]) -> Result<bool, NoMemory>
    requires { length journals.now < 2 ^ 32 }
    ensures { IfOk result (λ settled. MatchBool settled (threaded.AreSettled journals.now) (threaded.AreSettled journals.now → ⊥)) }
{
    match in_order(alloc, journals)? {
        Some(left) => Ok(left == 0 || some_has_most(journals)),
        None => Ok(false),
    }
}
