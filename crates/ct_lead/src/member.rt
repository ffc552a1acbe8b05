//! Where a member stands in its rounds.
ghost use Rattle.std.specs.Prelude.{◌≡◌};
ghost use Rattle.ct_rules_node.specs.Node as node;
ghost use Rattle.ct_lead.specs.Member.{after_freeze, after_locks, after_push, after_thaw, apart, freeze_step, is_thawed, opening_member, push_step, told_phase, waits_for};
ghost use Rattle.ct_lead.specs.State.{phase_of};

use ct_frame::round::Phase;
use std::marker::Model;

/// What a member does with a Freeze.
#[derive(Clone, Copy, Debug, PartialEq, Eq)]
pub enum FreezeStep {
    /// It promises the round, and freezes for it.
    Accepted,
    /// It is frozen for the round already, and says so again.
    Again,
    Dropped,
}

/// What a member does with a Push.
#[derive(Clone, Copy, Debug, PartialEq, Eq)]
pub enum PushStep {
    /// It installs what is pushed.
    Install,
    /// It has installed it, and says so again.
    Again,
    Dropped,
}

/// A phase, which is of the generation that the member installed last where it names none.
#[derive(Clone, Copy, Debug, PartialEq, Eq)]
enum State {
    Idle,
    Serving,
    Installed,
    /// For a round and its leader.
    Freezing(u64, u32),
    Frozen(u64),
}

/// The generation that a member promised last, its phase, and the generation that it installed last, or 0. No call takes
/// memory.
#[derive(Clone, Copy, Debug)]
pub struct Member {
    promised: u64,
    state: State,
    generation: u64,
}

impl Model for Member {
    ghost use Rattle.ct_lead.specs.Member.{Membership};
    ghost use Rattle.ct_lead.specs.State.{phase_of, state_back, state_of};

    ghost Value = { Membership };

    ghost view = { λ m. record { promise = m.promised; phase = phase_of m.state; generation = m.generation } };

    ghost inverse = { λ m. record { promised = m.promise; state = state_of m.phase; generation = m.generation } };

    ghost inverse_ok = { λ m _ i. record m { state = state_back m.state i } };
}

/// Is a member in this state frozen for the round of this generation?
#[tactic(auto, unfolding(ct_rules_node::specs::Node::is_frozen_in))]
fn is_frozen_in(state: State, generation: u64) -> bool
    ensures { result ≡ node.is_frozen_in generation (phase_of state) }
{
    match state {
        State::Frozen(g) => g == generation,
        State::Idle | State::Serving | State::Installed | State::Freezing(_, _) => false,
    }
}

/// Is a member in this state present in its generation?
#[tactic(auto, unfolding(ct_rules_node::specs::Node::is_present))]
fn is_present(state: State) -> bool
    ensures { result ≡ node.is_present (phase_of state) }
{
    match state {
        State::Serving | State::Installed => true,
        State::Idle | State::Freezing(_, _) | State::Frozen(_) => false,
    }
}

impl Member {
    /// It is in no generation, and has promised this one.
    pub fn new(promised: u64) -> Member
        ensures { result ≡ apart promised }
    {
        Member {
            promised,
            state: State::Idle,
            generation: 0,
        }
    }

    /// It serves in this generation, which it promised.
    pub fn serving(generation: u64) -> Member
        ensures { result ≡ opening_member generation }
    {
        Member {
            promised: generation,
            state: State::Serving,
            generation,
        }
    }

    /// A Freeze of this generation comes. Above the promise it is followed: the round is promised, and the member is
    /// Freezing for it. A member that is Frozen for it already acknowledges again. Else it is dropped.
    pub fn freeze(&mut self, generation: u64, leader: u32) -> FreezeStep
        ensures step { result ≡ freeze_step generation self.old }
        ensures after { self.new ≡ after_freeze generation leader self.old }
    {
        if self.promised < generation {
            self.promised = generation;
            self.state = State::Freezing(generation, leader);
            return FreezeStep::Accepted;
        }
        if is_frozen_in(self.state, generation) {
            return FreezeStep::Again;
        }
        FreezeStep::Dropped
    }

    /// No lock is left: a member that is Freezing is Frozen now, and acknowledges to the leader of that round.
    pub fn locks_gone(&mut self) -> Option<(u64, u32)>
        ensures acknowledged { result ≡ waits_for self.old.phase }
        ensures after { self.new ≡ after_locks self.old }
    {
        match self.state {
            State::Freezing(generation, leader) => {
                self.state = State::Frozen(generation);
                Some((generation, leader))
            }
            State::Idle | State::Serving | State::Installed | State::Frozen(_) => None,
        }
    }

    /// Does it tell the leader of this generation what it has? So it does where it is Frozen for it.
    pub fn may_pull(&self, generation: u64) -> bool
        ensures { result ≡ node.is_frozen_in generation self.now.phase }
    {
        is_frozen_in(self.state, generation)
    }

    /// A Push of this generation comes. A member that is Frozen for it installs it. One that is present in it
    /// acknowledges again. Else it is dropped.
    pub fn push(&mut self, generation: u64) -> PushStep
        ensures step { result ≡ push_step generation self.old }
        ensures after { self.new ≡ after_push generation self.old }
    {
        if is_frozen_in(self.state, generation) {
            self.state = State::Installed;
            self.generation = generation;
            return PushStep::Install;
        }
        if is_present(self.state) && self.generation == generation {
            return PushStep::Again;
        }
        PushStep::Dropped
    }

    /// A Thaw of this generation comes. True exactly where the member has it Installed; then it serves.
    pub fn thaw(&mut self, generation: u64) -> bool
        ensures thawed { result ≡ is_thawed generation self.old }
        ensures after { self.new ≡ after_thaw generation self.old }
    {
        let installed = match self.state {
            State::Installed => self.generation == generation,
            State::Idle | State::Serving | State::Freezing(_, _) | State::Frozen(_) => false,
        };
        if installed {
            self.state = State::Serving;
        }
        installed
    }

    /// The generation that it promised last: no Freeze of it or an older one is followed any more.
    pub fn promised(&self) -> u64
        ensures { result ≡ self.now.promise }
    {
        self.promised
    }

    /// The generation that it installed last, or 0.
    pub fn generation(&self) -> u64
        ensures { result ≡ self.now.generation }
    {
        self.generation
    }

    /// Its phase, with the generation that it is of.
    pub fn phase(&self) -> Phase
        ensures { result ≡ told_phase self.now }
    {
        match self.state {
            State::Idle => Phase::Idle,
            State::Serving => Phase::Serving(self.generation),
            State::Installed => Phase::Installed(self.generation),
            State::Freezing(generation, _) => Phase::Freezing(generation),
            State::Frozen(generation) => Phase::Frozen(generation),
        }
    }
}
