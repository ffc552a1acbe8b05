//! What a play in threads leaves.
ghost use Rattle.std.specs.Prelude.{◌≡◌, [], IfOk, IfSome, OnErr, OnOk};
ghost use Rattle.ct_call.specs.Shown.{rules_of};
ghost use Rattle.ct_script.specs.Sound.{IsSound};
ghost use Rattle.ct_troupe.specs.Played.{ArePlayed};
ghost use Rattle.ct_troupe.specs.Stages.{AllHaveArrived};
ghost use Rattle.ct_troupe_threads.specs.Threaded.{AreSettled};

use ct_call::table::CallTable;
use ct_journal::journal::Journal;
use ct_script::plan::Plan;
use ct_troupe::troupe::Troupe;
use ct_troupe::turns::Turns;
use ct_values::items::Items;
use ct_values::memory::NoMemory;
use std::alloc::Global;
use std::marker::Model;

/// The journals of the last play in threads.
#[derive(Drop)]
pub struct LastPlay {
    /// The journals of the threads, where the last play is theirs.
    own: Items<Journal>,
    turns: Turns,
    /// Was the last plan played again?
    again: bool,
}

impl Model for LastPlay {
    ghost use Rattle.std.specs.Prelude.{List};
    ghost use Rattle.ct_journal.specs.declared.journal.Journal.{Journal as Told};
    ghost use Rattle.ct_troupe_threads.specs.Threads.{told_journals};
    ghost use Rattle.ct_troupe.specs.Stages.{AllHaveArrived};

    ghost Value = { List Told };

    ghost view = { λ a. told_journals a.again a.turns.journals a.own };

    ghost invariant = { λ a. AllHaveArrived (told_journals a.again a.turns.journals a.own) };
}

impl LastPlay {
    /// No plan was played. It takes no memory.
    #[tactic(auto, using(ct_troupe::proofs::Ending::none_left))]
    pub fn none(alloc: Global) -> LastPlay
        ensures { result ≡ [] }
    {
        LastPlay {
            own: Items::empty(alloc),
            turns: Turns::new(alloc),
            again: false,
        }
    }

    /// Lets the journals of the play before go.
    pub fn forget(&mut self, alloc: Global)
        ensures { self.new ≡ [] }
    {
        *self = LastPlay::none(alloc);
    }

    /// Keeps what the threads left of the plan. Where what they did is no play of it, it is played again on one thread, with the
    /// nodes in turn. Only want of memory refuses it, as `Turns` has it, and leaves no journals.
    #[tactic(auto, using(ct_troupe::proofs::Ending::none_left, crate::proofs::Arriving::settled_arrived))]
    pub fn keep(
        &mut self,
        alloc: Global,
        table: &CallTable,
        plan: &Plan,
        left: Result<Option<Vec<Journal>>, NoMemory>,
    ) -> Result<(), NoMemory>
        requires sound { IsSound plan.now }
        requires played { IfOk left (λ o. IfSome o (λ v. ArePlayed (rules_of table.now) plan.now v.items)) }
        requires settled { IfOk left (λ o. IfSome o (λ v. AreSettled v.items)) }
        ensures played { OnOk result (ArePlayed (rules_of table.now) plan.now self.new) }
        ensures refused { OnErr result (self.new ≡ []) }
    {
        self.own = Items::empty(alloc);
        self.again = false;
        match left {
            Ok(Some(journals)) => {
                self.own = Items::new(journals);
                Ok(())
            }
            Ok(None) => {
                self.again = true;
                match self.turns.play(alloc, table, plan) {
                    Ok(()) => Ok(()),
                    Err(_) => Err(NoMemory),
                }
            }
            Err(NoMemory) => Err(NoMemory),
        }
    }

    /// Where none of its journals has 1,000,000 entries, each message that was sent has arrived.
    pub fn all_have_arrived(&self)
        ensures { AllHaveArrived self.now }
    {
        let _ = &self.again;
    }

    /// The journals: none before the first play, and after one that was refused.
    pub fn journals(&self) -> &[Journal]
        ensures { result.now ≡ self.now }
    {
        if self.again {
            self.turns.journals()
        } else {
            self.own.as_slice()
        }
    }
}
