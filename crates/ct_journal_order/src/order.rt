//! Whether journals are in order.
ghost use Rattle.std.specs.Prelude.{◌≡◌, ◌<◌, ◌^◌, length, IfOk, MatchOption};
ghost use Rattle.ct_journal.specs.Order.{AreInOrder, all_entries};
ghost use Rattle.ct_journal_order.specs.Order.{AllStand, IsAnswer, IsOrderOf, StandBy, tally_of};

use crate::counts::{Tally, all_calls_rise};
use crate::demands::all_demands;
use crate::standing::Standing;
use ct_journal::journal::Journal;
use ct_values::memory::NoMemory;
use std::alloc::Global;

/// In journals that are in order, the entries and the messages that they send are together fewer than this.
pub const MOST: u64 = 1 << 61;

/// Puts entries until none may stand next. Where all stand then, their nodes are answered, in order.
fn put_all(alloc: Global, journals: &[Journal]) -> Result<Option<Vec<u32>>, NoMemory>
    requires { length journals.now < 2 ^ 32 }
    ensures { IfOk result (λ o. MatchOption o (AllStand journals.now → ⊥) (λ v. StandBy journals.now v.items)) }
{
    let demands = all_demands(alloc, journals)?;
    let mut order = Vec::new(alloc);
    let standing = Standing::all(alloc, demands.as_slice(), &mut order)?;
    if standing.has_all(demands.as_slice()) {
        Ok(Some(order))
    } else {
        Ok(None)
    }
}

/// The order of journals whose entries were counted so.
#[tactic(auto, using(crate::proofs::Answering::not_few, crate::proofs::Answering::not_rising, crate::proofs::Answering::not_standing, crate::proofs::Answering::is_order))]
fn order_with(
    alloc: Global,
    journals: &[Journal],
    tally: Tally,
) -> Result<Option<Vec<u32>>, NoMemory>
    requires few { length journals.now < 2 ^ 32 }
    requires counted { tally ≡ tally_of (all_entries journals.now) }
    ensures { IfOk result (λ o. MatchOption o (AreInOrder journals.now → ⊥) (λ v. IsOrderOf journals.now v.items)) }
{
    if MOST <= tally.all {
        return Ok(None);
    }
    if !all_calls_rise(journals) {
        return Ok(None);
    }
    put_all(alloc, journals)
}

/// The nodes of the entries of journals in order, as all entries stand in one list, each where it may. None exactly where the
/// journals are not in order. The one at place n is that of node n.
pub fn order_of(alloc: Global, journals: &[Journal]) -> Result<Option<Vec<u32>>, NoMemory>
    requires { length journals.now < 2 ^ 32 }
    ensures { IfOk result (λ o. MatchOption o (AreInOrder journals.now → ⊥) (λ v. IsOrderOf journals.now v.items)) }
{
    order_with(alloc, journals, Tally::of(journals))
}

/// Are the journals in order? The one at place n is that of node n. Some exactly where they are, with the number of messages
/// that were sent and did not arrive.
#[tactic(auto, using(crate::proofs::Answering::is_answer))]
pub fn in_order(alloc: Global, journals: &[Journal]) -> Result<Option<u64>, NoMemory>
    requires { length journals.now < 2 ^ 32 }
    ensures { IfOk result (λ answer. IsAnswer journals.now answer) }
{
    let tally = Tally::of(journals);
    match order_with(alloc, journals, tally)? {
        Some(_) => Ok(Some(tally.sent.saturating_sub(tally.arrived))),
        None => Ok(None),
    }
}
