//! The steps of the cluster that make the entries of journals in order.
ghost use Rattle.std.specs.Prelude.{◌≡◌, ◌+◌, ◌<◌, ◌^◌, ◌++◌, length, IfOk};
ghost use Rattle.ct_values.specs.declared.config.Config.{Config};
ghost use Rattle.ct_call.specs.Rules.{Rules};
ghost use Rattle.ct_journal.specs.Order.{AreInOrder, all_entries, count_sent};
ghost use Rattle.ct_journal.specs.Schedules.{IsSchedule};
ghost use Rattle.ct_law_journal_schedule.specs.Laws.{AreRuns};
ghost use Rattle.ct_law_journal_schedule.specs.Scheduling.{schedule_of};

use crate::scheduler::Scheduler;
use ct_journal::journal::Journal;
use ct_rules_cluster::step::Step;
use ct_values::items::Items;
use ct_values::memory::NoMemory;
use std::alloc::Global;

/// The steps for all entries of these journals, whose nodes have their entries in this order; a node that has no more entries
/// gets none. The journal at place n is that of node n. Where journals that are runs are in order, these steps are a schedule of
/// them.
pub fn schedule(alloc: Global, journals: &[Journal], order: &[u32]) -> Result<Items<Step>, NoMemory>
    requires { length (all_entries journals.now) + count_sent (all_entries journals.now) < 2 ^ 61 }
    ensures steps { IfOk result (λ ss. ss ≡ schedule_of journals.now order.now) }
    ensures scheduled { IfOk result (λ ss. (c : Config) (rules : Rules) → AreRuns c rules journals.now → (x : AreInOrder journals.now) → x.order ≡ order.now → IsSchedule c rules journals.now ss) }
{
    let mut scheduler = Scheduler::new(alloc, journals)?;
    let mut steps = Vec::new(alloc);
    for node in order {
        scheduler.advance(journals, *node, &mut steps)?;
    }
    Ok(Items::new(steps))
}
