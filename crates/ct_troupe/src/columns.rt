//! What every play of columns promises, whatever runs them.
ghost use Rattle.std.specs.Prelude.{◌≡◌, ◌≤◌, ℕ, All, List, length};
ghost use Rattle.ct_call.specs.Shown.{rules_of};
ghost use Rattle.ct_journal.specs.declared.journal.Journal.{Journal as Told};
ghost use Rattle.ct_outside.specs.Told.{RisesWhere};
ghost use Rattle.ct_script.specs.Sound.{IsSound};
ghost use Rattle.ct_troupe.specs.Played.{is_link_fault};
ghost use Rattle.ct_troupe.specs.Columns.{HavePlayed};

use crate::troupe::PlayFault;
use ct_call::table::CallTable;
use ct_journal::journal::Journal;
use ct_script::plan::Plan;
use std::alloc::Global;

/// Whoever plays the plans of columns, each by itself, and tells afterwards what the nodes of each were given and did. Columns are
/// numbered from 0. No order is promised between what happens in two of them. The count of faults never falls.
pub trait Columns {
    /// The journals of a column, in the order of its nodes.
    ghost told_in: { Self → ℕ → List Told };

    /// How often it has failed.
    ghost column_faults: { Self → ℕ };

    /// What a play asks of who calls it, such as that what its threads share may be shared.
    ghost columns_ready: { Self → Type 0 };

    /// Plays at most eight plans, each in the column of its place, by a table of call functions. The columns beyond have no journals
    /// then, and a refusal leaves none in any.
    fn play_all(
        &mut self,
        alloc: Global,
        table: &CallTable,
        plans: &[Plan],
    ) -> Result<(), PlayFault>
        requires few { length plans.now ≤ 8 }
        requires sound { All IsSound plans.now }
        requires ready { columns_ready self.old }
        ensures played { HavePlayed (rules_of table.now) plans.now result (told_in self.new) }
        ensures cause { RisesWhere (is_link_fault result) (column_faults self.old) (column_faults self.new) };

    /// The journals that the last play of all left in the column of this number: none before the first one, and none where no plan
    /// was played in it. It takes no memory.
    fn column(&self, number: u32) -> &[Journal]
        ensures { result.now ≡ told_in self.now number };
}
