//! The join of journals to one schedule.
ghost use Rattle.std.specs.Prelude.{◌<◌, ◌^◌, length};
ghost use Rattle.ct_journal_join.specs.Joining.{Joins};

use crate::schedule::schedule;
use ct_journal::journal::Journal;
use ct_journal_order::order::order_of;
use ct_rules_cluster::step::Step;
use ct_values::memory::NoMemory;
use std::alloc::Global;
use thiserror::Error;

/// Why journals are not joined.
#[derive(Clone, Copy, Debug, PartialEq, Eq, Error)]
pub enum InOrderFault {
    /// The journals are not in order.
    #[error("the journals are not in order")]
    NotInOrder,
    #[error("want of memory")]
    NoMemory,
}

impl From<NoMemory> for InOrderFault {
    ghost use Rattle.std.specs.Prelude.{◌≡◌};
    ghost use Rattle.ct_journal_join.specs.declared.join.InOrderFault.TheVariants.{NoMemory as Want};

    ghost from_gives = { λ _ e. e ≡ Want };

    fn from(_e: NoMemory) -> InOrderFault {
        InOrderFault::NoMemory
    }
}

/// The steps of the cluster that make the entries of journals in order. The journal at place n is that of node n. Where the
/// journals are runs, the steps are a schedule of them. `NotInOrder` exactly where they are not in order.
#[tactic(auto, using(crate::proofs::Joining::joins, crate::proofs::Joining::few_of))]
pub fn join_in_order(alloc: Global, journals: &[Journal]) -> Result<Vec<Step>, InOrderFault>
    requires { length journals.now < 2 ^ 32 }
    ensures { Joins result journals.now }
{
    let Some(order) = order_of(alloc, journals)? else {
        return Err(InOrderFault::NotInOrder);
    };
    let steps = schedule(alloc, journals, order.as_slice())?;
    Ok(steps.into_vec())
}
