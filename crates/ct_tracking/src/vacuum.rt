//! The two phases of a vacuum of one key: all other nodes store the newest copy, and then all delete theirs.
ghost use Rattle.std.specs.Prelude.{◌≡◌, ◌≢◌, [], IfOk};
ghost use Rattle.std.specs.List.Sorted.{IsStrictlyIncreasing};
ghost use Rattle.ct_tracking.specs.Vacuum.{deleted, done_by, ends_phase, is_in, stored, vacuum_begun};
ghost use Rattle.ct_tracking.specs.declared.vacuum.VacuumPhase.TheVariants.{Storing, Deleting};

use crate::awaited::Awaited;
use ct_values::copies::Duplicate;
use ct_values::memory::NoMemory;
use std::alloc::Global;
use std::marker::Model;

/// What the other nodes are asked for: to store the newest copy, and once all have done that, to delete theirs.
#[derive(Clone, Copy, Debug, PartialEq, Eq)]
pub enum VacuumPhase {
    Storing,
    Deleting,
}

/// A vacuum of one key: its phase, the sequence number of the copy that is stored, and the nodes that have not
/// acknowledged the phase. No acknowledgement needs memory.
#[derive(Debug)]
pub struct Vacuum {
    phase: VacuumPhase,
    rsn: u64,
    others: Awaited,
}

impl Drop for Vacuum {
    /// All that it holds is let go.
    fn drop(self) {
        let Vacuum {
            phase: _,
            rsn: _,
            others: _,
        } = self;
    }
}

impl Model for Vacuum {
    ghost use Rattle.std.specs.Prelude.{◌≢◌, []};
    ghost use Rattle.ct_tracking.specs.Vacuum.{Vacuuming};
    ghost use Rattle.ct_tracking.specs.VacuumCode.{vacuuming_code};

    ghost Value = { Vacuuming };

    ghost coded = { vacuuming_code };

    ghost view = { λ v. record { phase = v.phase; rsn = v.rsn; missing = v.others.missing; others = v.others.asked } };

    ghost invariant = { λ v. v.others.asked ≢ [] };
}

impl Vacuum {
    /// A vacuum in `Storing`, with all other nodes missing. They ascend, and there is at least one.
    pub fn begin(alloc: Global, rsn: u64, others: &[u32]) -> Result<Vacuum, NoMemory>
        requires ascending { IsStrictlyIncreasing others.now }
        requires some { others.now ≢ [] }
        ensures { IfOk result (λ v. v ≡ vacuum_begun rsn others.now) }
    {
        Ok(Vacuum {
            phase: VacuumPhase::Storing,
            rsn,
            others: Awaited::begin(alloc, others)?,
        })
    }

    /// Is the vacuum of this sequence number, and in this phase?
    fn is_in(&self, phase: VacuumPhase, rsn: u64) -> bool
        ensures { result ≡ is_in phase rsn self.now }
    {
        self.phase == phase && self.rsn == rsn
    }

    /// Takes an acknowledgement. True where it was the last one that its phase waited for.
    fn acknowledge(&mut self, phase: VacuumPhase, node: u32, rsn: u64) -> bool
        ensures ends { result ≡ ends_phase phase node rsn self.old }
        ensures after { self.new ≡ done_by phase node rsn self.old }
    {
        self.is_in(phase, rsn) && self.others.ack(node)
    }

    /// The node has stored the copy of this sequence number. True exactly where this ends `Storing`; then all others
    /// are missing in `Deleting`. What is not awaited changes nothing.
    pub fn stored(&mut self, node: u32, rsn: u64) -> bool
        ensures ends { result ≡ ends_phase Storing node rsn self.old }
        ensures after { self.new ≡ stored node rsn self.old }
    {
        let ends = self.acknowledge(VacuumPhase::Storing, node, rsn);
        if ends {
            self.phase = VacuumPhase::Deleting;
            self.others.ask_again();
        }
        ends
    }

    /// The node has deleted its copy in the vacuum of this sequence number. True exactly where this ends `Deleting`;
    /// then no node is missing. What is not awaited changes nothing.
    pub fn deleted(&mut self, node: u32, rsn: u64) -> bool
        ensures ends { result ≡ ends_phase Deleting node rsn self.old }
        ensures after { self.new ≡ deleted node rsn self.old }
    {
        self.acknowledge(VacuumPhase::Deleting, node, rsn)
    }

    pub fn phase(&self) -> VacuumPhase
        ensures { result ≡ self.now.phase }
    {
        self.phase
    }

    /// The sequence number of the copy that is stored.
    pub fn rsn(&self) -> u64
        ensures { result ≡ self.now.rsn }
    {
        self.rsn
    }

    /// The nodes that have not acknowledged the phase, ascending.
    pub fn missing(&self) -> &[u32]
        ensures missing { result.now ≡ self.now.missing }
        ensures ascending { IsStrictlyIncreasing self.now.missing }
    {
        self.others.missing()
    }

    /// A copy that equals it.
    pub fn copy(&self) -> Result<Vacuum, NoMemory>
        ensures { IfOk result (λ v. v ≡ self.now) }
    {
        Ok(Vacuum {
            phase: self.phase,
            rsn: self.rsn,
            others: self.others.copy()?,
        })
    }
}

impl Duplicate for Vacuum {
    fn duplicate(&self) -> Result<Vacuum, NoMemory> {
        self.copy()
    }
}
