//! The join of any journals that are runs.
ghost use Rattle.ct_call.specs.Shown.{rules_of};
ghost use Rattle.ct_law_journal_reach.specs.Counts as counts;
ghost use Rattle.ct_law_journal_schedule.specs.Laws.{AreRuns};
ghost use Rattle.ct_rules_config.specs.Configured.{IsConfig};
ghost use Rattle.ct_journal_join_any.specs.Joined.{JoinsRuns};

use crate::reach::Reach;
use ct_call::table::CallTable;
use ct_journal::journal::Journal;
use ct_journal_join::schedule::schedule;
use ct_journal_order::order::order_of;
use ct_rules_cluster::step::Step;
use ct_values::config::Config;
use ct_values::items::Items;
use ct_values::memory::NoMemory;
use std::alloc::Global;
use thiserror::Error;

/// Why journals are not joined.
#[derive(Debug, Drop, PartialEq, Eq, Error)]
pub enum JoinFault {
    /// The journals have no schedule. At most so many entries of each journal, its first, have one: as many of all of them at once.
    #[error("the journals have no schedule")]
    Stuck(Items<u64>),
    #[error("want of memory")]
    NoMemory,
}

impl From<NoMemory> for JoinFault {
    ghost use Rattle.std.specs.Prelude.{◌≡◌};
    ghost use Rattle.ct_journal_join_any.specs.declared.joined.JoinFault.TheVariants.{NoMemory as Want};

    ghost from_gives = { λ _ e. e ≡ Want };

    fn from(_e: NoMemory) -> JoinFault {
        JoinFault::NoMemory
    }
}

/// The steps that make entries one by one, as long as one may be made.
fn join_freely(
    alloc: Global,
    config: &Config,
    table: &CallTable,
    journals: &[Journal],
) -> Result<Vec<Step>, JoinFault>
    requires config { IsConfig config.now }
    requires runs { AreRuns config.now (rules_of table.now) journals.now }
    requires few { counts.AreNotTooMany journals.now }
    requires tickets { counts.HaveOwnTickets journals.now }
    ensures { JoinsRuns config.now (rules_of table.now) journals.now result }
{
    let _nodes = config.nodes;
    let mut reach = Reach::new(alloc, config, journals)?;
    reach.make_all(table, journals)?;
    if reach.has_all(journals) {
        Ok(reach.steps)
    } else {
        Err(JoinFault::Stuck(Items::new(reach.taken)))
    }
}

/// The steps of a cluster that make the entries of journals that are runs: a schedule of them. The journal at place n is that of
/// node n. `Stuck` exactly where they have none, with how many entries of each journal a schedule makes at most. Journals in order
/// are never stuck, and are joined in one pass; others are played by a cluster, entry by entry.
pub fn join(
    alloc: Global,
    config: &Config,
    table: &CallTable,
    journals: &[Journal],
) -> Result<Vec<Step>, JoinFault>
    requires config { IsConfig config.now }
    requires runs { AreRuns config.now (rules_of table.now) journals.now }
    requires few { counts.AreNotTooMany journals.now }
    requires tickets { counts.HaveOwnTickets journals.now }
    ensures { JoinsRuns config.now (rules_of table.now) journals.now result }
{
    let _nodes = config.nodes;
    if let Some(order) = order_of(alloc, journals)? {
        let steps = schedule(alloc, journals, order.as_slice())?;
        return Ok(steps.into_vec());
    }
    join_freely(alloc, config, table, journals)
}
