//! A troupe of one thread.
ghost use Rattle.std.specs.Prelude.{◌≡◌, IfOk, []};
ghost use Rattle.ct_call.specs.Shown.{rules_of};
ghost use Rattle.ct_script.specs.Sound.{IsSound};
ghost use Rattle.ct_troupe.specs.Played.{ArePlayed};
ghost use Rattle.ct_troupe.specs.Stages.{AllHaveArrived};

use crate::stage::Stage;
use crate::troupe::{PlayFault, Troupe};
use ct_call::table::CallTable;
use ct_journal::journal::Journal;
use ct_script::plan::Plan;
use ct_values::items::Items;
use ct_values::memory::NoMemory;
use std::alloc::Global;

/// Plays plans on one thread, with the nodes in turn, by ascending number. In its turn a node takes the first message that
/// waits for it, or else the next item of its script, where one may be taken, unless its journal has 1,000,000 entries. The
/// play ends when each node has had a turn and none took anything.
#[derive(Drop)]
pub struct Turns {
    journals: Items<Journal>,
    ghost arrived: { AllHaveArrived journals },
}

impl Turns {
    /// No plan was played. It takes no memory.
    pub fn new(alloc: Global) -> Turns
        ensures { result.journals ≡ [] }
    {
        Turns {
            journals: Items::empty(alloc),
        }
    }

    /// Where none of its journals has 1,000,000 entries, each message that was sent has arrived.
    pub fn all_have_arrived(&self)
        ensures { AllHaveArrived self.now.journals }
    {}
}

/// The journals of the nodes once the plan is played.
fn play(alloc: Global, table: &CallTable, plan: &Plan) -> Result<Vec<Journal>, NoMemory>
    requires sound { IsSound plan.now }
    ensures played { IfOk result (λ v. ArePlayed (rules_of table.now) plan.now v.items) }
    ensures arrived { IfOk result (λ v. AllHaveArrived v.items) }
{
    let mut stage = Stage::new(alloc, plan)?;
    stage.play(table, plan)?;
    let journals = stage.into_journals(alloc)?;
    Ok(journals)
}

impl Troupe for Turns {
    ghost told = { λ t. t.journals };

    ghost faults = { λ _. 0 };

    ghost ready = { λ _. Unit {0} };

    /// Beside want of memory, `NoMemory` is answered where a number would reach 2^62, and where there would be 2^61 entries
    /// and messages: no play that ends in a lifetime comes to that. It never fails otherwise.
    fn play(&mut self, alloc: Global, table: &CallTable, plan: &Plan) -> Result<(), PlayFault> {
        self.journals = Items::empty(alloc);
        match play(alloc, table, plan) {
            Ok(journals) => {
                self.journals = Items::new(journals);
                Ok(())
            }
            Err(NoMemory) => Err(PlayFault::NoMemory),
        }
    }

    fn journals(&self) -> &[Journal] {
        self.journals.as_slice()
    }
}
