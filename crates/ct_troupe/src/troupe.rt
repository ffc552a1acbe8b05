//! What every play of a plan promises, whatever carries the messages.
ghost use Rattle.std.specs.Prelude.{◌≡◌, ℕ, List};
ghost use Rattle.ct_call.specs.Shown.{rules_of};
ghost use Rattle.ct_journal.specs.declared.journal.Journal.{Journal as Told};
ghost use Rattle.ct_outside.specs.Told.{RisesWhere};
ghost use Rattle.ct_script.specs.Sound.{IsSound};
ghost use Rattle.ct_troupe.specs.Played as played;

use ct_call::table::CallTable;
use ct_journal::journal::Journal;
use ct_script::plan::Plan;
use ct_values::memory::NoMemory;
use std::alloc::{AllocError, Global};
use thiserror::Error;

/// Why a plan is not played.
#[derive(Clone, Copy, Debug, PartialEq, Eq, Error)]
pub enum PlayFault {
    /// What joins the nodes failed.
    #[error("the nodes are not joined")]
    Link,
    /// This answer alone needs no cause.
    #[error("want of memory")]
    NoMemory,
}

impl From<NoMemory> for PlayFault {
    ghost use Rattle.ct_troupe.specs.declared.troupe.PlayFault.TheVariants.{NoMemory as Want};

    ghost from_gives = { λ _ e. e ≡ Want };

    fn from(_e: NoMemory) -> PlayFault {
        PlayFault::NoMemory
    }
}

impl From<AllocError> for PlayFault {
    ghost use Rattle.ct_troupe.specs.declared.troupe.PlayFault.TheVariants.{NoMemory as Want};

    ghost from_gives = { λ _ e. e ≡ Want };

    fn from(_e: AllocError) -> PlayFault {
        PlayFault::NoMemory
    }
}

/// Nodes that play a plan, and tell afterwards what each of them was given and did. The count of faults never falls.
pub trait Troupe {
    /// The journals of the last play, in the order of their nodes.
    ghost told: { Self → List Told };

    /// How often it has failed.
    ghost faults: { Self → ℕ };

    /// What a play asks of who calls it, such as that what its threads share may be shared.
    ghost ready: { Self → Type 0 };

    /// Plays the plan, by a table of call functions. A refusal leaves no journals.
    fn play(&mut self, alloc: Global, table: &CallTable, plan: &Plan) -> Result<(), PlayFault>
        requires sound { IsSound plan.now }
        requires ready { ready self.old }
        ensures played { played.HasPlayed (rules_of table.now) plan.now result (told self.new) }
        ensures cause { RisesWhere (played.is_link_fault result) (faults self.old) (faults self.new) };

    /// The journals of the last play: none before the first one.
    fn journals(&self) -> &[Journal]
        ensures { result.now ≡ told self.now };
}
