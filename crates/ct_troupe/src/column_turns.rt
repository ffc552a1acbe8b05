//! Columns of one thread.
ghost use Rattle.std.specs.Prelude.{◌≡◌, ◌≤◌, ℕ, [], All, IfOk, length};
ghost use Rattle.ct_call.specs.Shown.{rules_of};
ghost use Rattle.ct_script.specs.Sound.{IsSound};
ghost use Rattle.ct_troupe.specs.Stages.{AllHaveArrived};
ghost use Rattle.ct_troupe.specs.Columns.{ArePlayedIn};
ghost use Rattle.ct_troupe.specs.ColumnTurns.{journals_in};

use crate::columns::Columns;
use crate::troupe::{PlayFault, Troupe};
use crate::turns::Turns;
use ct_call::table::CallTable;
use ct_journal::journal::Journal;
use ct_script::plan::Plan;
use ct_values::memory::NoMemory;
use std::alloc::Global;

/// Plays one column after the other on one thread, each with its nodes in turn. A single plan it plays so too.
#[derive(Drop)]
pub struct ColumnTurns {
    turns: Turns,
    /// Who played each column.
    columns: Vec<Turns>,
}

impl ColumnTurns {
    /// Nothing was played. It takes no memory.
    pub fn new(alloc: Global) -> ColumnTurns
        ensures turns { result.turns.journals ≡ [] }
        ensures columns { result.columns.items ≡ [] }
    {
        ColumnTurns {
            turns: Turns::new(alloc),
            columns: Vec::new(alloc),
        }
    }

    /// Where none of the column's journals has 1,000,000 entries, each message that was sent in it has arrived.
    #[tactic(auto, using(crate::proofs::Ending::none_left), unfolding(crate::specs::ColumnTurns::journals_in, crate::specs::ColumnTurns::or_no_journals))]
    pub fn all_have_arrived(&self, number: u32)
        ensures { AllHaveArrived (journals_in self.now.columns.items number) }
    {
        if let Some(turns) = self.columns.get(number as usize) {
            turns.all_have_arrived();
        }
    }
}

/// Whoever plays each of these plans.
#[tactic(auto, using(crate::proofs::Playing::one_more))]
fn play_each(alloc: Global, table: &CallTable, plans: &[Plan]) -> Result<Vec<Turns>, NoMemory>
    requires { All IsSound plans.now }
    ensures { IfOk result (λ v. ArePlayedIn (rules_of table.now) plans.now (journals_in v.items)) }
{
    let mut columns = Vec::new(alloc);
    for plan in plans {
        let mut turns = Turns::new(alloc);
        if turns.play(alloc, table, plan).is_err() {
            return Err(NoMemory);
        }
        columns.push(turns)?;
    }
    Ok(columns)
}

impl Troupe for ColumnTurns {
    ghost told = { λ t. t.turns.journals };

    ghost faults = { λ _. 0 };

    ghost ready = { λ _. Unit {0} };

    /// As `Turns` does. The columns stay as they are.
    fn play(&mut self, alloc: Global, table: &CallTable, plan: &Plan) -> Result<(), PlayFault> {
        self.turns.play(alloc, table, plan)
    }

    fn journals(&self) -> &[Journal] {
        self.turns.journals()
    }
}

impl Columns for ColumnTurns {
    ghost told_in = { λ t. journals_in t.columns.items };

    ghost column_faults = { λ _. 0 };

    ghost columns_ready = { λ _. Unit {0} };

    /// Only want of memory refuses it, as `Turns` has it.
    #[tactic(auto, using(crate::proofs::Playing::none_in))]
    fn play_all(
        &mut self,
        alloc: Global,
        table: &CallTable,
        plans: &[Plan],
    ) -> Result<(), PlayFault> {
        self.columns = Vec::new(alloc);
        match play_each(alloc, table, plans) {
            Ok(columns) => {
                self.columns = columns;
                Ok(())
            }
            Err(NoMemory) => Err(PlayFault::NoMemory),
        }
    }

    #[tactic(auto, unfolding(crate::specs::ColumnTurns::journals_in, crate::specs::ColumnTurns::or_no_journals))]
    fn column(&self, number: u32) -> &[Journal] {
        match self.columns.get(number as usize) {
            Some(turns) => turns.journals(),
            None => &[],
        }
    }
}

/// A play by turns never fails for another reason than want of memory, neither of one plan nor of columns.
pub fn turns_never_fail(turns: &ColumnTurns)
    ensures plan { ⟦<ColumnTurns as Troupe>⟧.faults turns.now ≡ 0 }
    ensures columns { ⟦<ColumnTurns as Columns>⟧.column_faults turns.now ≡ 0 }
{}
