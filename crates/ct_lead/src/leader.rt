//! The leader of a round.
ghost use Rattle.std.specs.Prelude.{◌≡◌, ◌≢◌, [], IfOk, OnOk, OnErr, true, length, map};
ghost use Rattle.std.specs.List.Sorted.{IsStrictlyIncreasing};
ghost use Rattle.ct_tracking.specs.Awaited.{AreAsked};
ghost use Rattle.ct_frame.specs.declared.round.Stage.TheVariants.{Freezing, Installing};
ghost use Rattle.ct_merge.specs.Held.{is_in_order};
ghost use Rattle.ct_rules_node.specs.Rounds.{body_of, mastered};
ghost use Rattle.ct_lead.specs.Leader.{after_freezeack, after_pullreply, after_pushack, awaits, ends_stage, is_stage, pushed, pushed_at, round_begun};

use ct_frame::frame::TableRow;
use ct_frame::round::{Pull, PushBody, Stage};
use ct_merge::merged::MergedAll;
use ct_merge::merging::Merging;
use ct_tracking::awaited::Awaited;
use ct_values::copies::Duplicate;
use ct_values::items::Items;
use ct_values::memory::NoMemory;
use std::alloc::Global;
use std::marker::Model;

/// The leader of a round: itself, the generation, the members, what it waits for and from whom, and what it gathered. It
/// has room for all members to be missing in every stage.
#[derive(Debug)]
pub struct Leader {
    alloc: Global,
    me: u32,
    generation: u64,
    members: Awaited,
    stage: Stage,
    merging: Merging,
}

impl Drop for Leader {
    /// All that it holds is let go.
    fn drop(self) {
        let Leader {
            alloc: _,
            me: _,
            generation: _,
            members: _,
            stage: _,
            merging: _,
        } = self;
    }
}

impl Model for Leader {
    ghost use Rattle.std.specs.Prelude.{◌≢◌, []};
    ghost use Rattle.ct_lead.specs.Leader.{Leading};

    ghost Value = { Leading };

    ghost view = { λ l. record { me = l.me; generation = l.generation; members = l.members.asked; stage = l.stage; missing = l.members.missing; gathered = l.merging } };

    ghost invariant = { λ l. l.members.asked ≢ [] };
}

/// The row, with this leader as data master where it has none.
#[tactic(auto, unfolding(ct_rules_node::specs::Rounds::mastered, ct_rules_node::specs::Rounds::or_leader))]
fn mastered(me: u32, row: TableRow) -> TableRow
    ensures { result ≡ mastered me row }
{
    let mut row = row;
    row.master = Some(match row.master {
        Some(m) => m,
        None => me,
    });
    row
}

/// The rows, each with this leader as data master where it has none.
fn all_mastered(alloc: Global, me: u32, rows: Items<TableRow>) -> Result<Items<TableRow>, NoMemory>
    ensures { IfOk result (λ all. all ≡ map (mastered me) rows) }
{
    let mut all = Vec::with_capacity(alloc, rows.len())?;
    for row in rows.into_vec() {
        all.push(mastered(me, row))?;
    }
    Ok(Items::new(all))
}

/// What all members are to hold of all that was merged.
#[tactic(auto, unfolding(ct_rules_node::specs::Rounds::body_of))]
fn body_of(alloc: Global, me: u32, members: &[u32], merged: MergedAll) -> Result<PushBody, NoMemory>
    ensures { IfOk result (λ body. body ≡ body_of me members.now merged) }
{
    let MergedAll {
        table,
        ptables,
        assigned,
    } = merged;
    Ok(PushBody {
        members: Items::new(Vec::from_slice(alloc, members)?),
        table: all_mastered(alloc, me, table.table)?,
        ptables: ptables.ptables,
        assigned,
        vparent: table.parent,
        pparent: ptables.parent,
    })
}

impl Leader {
    /// This node begins to lead a round of a generation: all of these members are to freeze. They ascend, and there is at
    /// least one.
    pub fn begin(
        alloc: Global,
        me: u32,
        generation: u64,
        members: &[u32],
    ) -> Result<Leader, NoMemory>
        requires ascending { IsStrictlyIncreasing members.now }
        requires some { members.now ≢ [] }
        ensures { IfOk result (λ l. l ≡ round_begun me generation members.now) }
    {
        Ok(Leader {
            alloc,
            me,
            generation,
            members: Awaited::begin(alloc, members)?,
            stage: Stage::Freezing,
            merging: Merging::new(alloc),
        })
    }

    /// Is this what it waits for?
    fn is_stage(&self, stage: Stage) -> bool
        ensures { result ≡ is_stage stage self.now.stage }
    {
        self.stage == stage
    }

    /// Does it wait for this of the member, in the round of this generation? It takes no memory.
    pub fn awaits(&self, stage: Stage, generation: u64, node: u32) -> bool
        ensures { result ≡ awaits stage generation node self.now }
    {
        self.is_stage(stage) && self.generation == generation && self.members.is_missing(node)
    }

    /// A member is frozen. True exactly where it was the last one missing; then all are asked for what they hold. It
    /// takes no memory.
    pub fn frozen(&mut self, node: u32) -> bool
        ensures ends { result ≡ ends_stage Freezing node self.old }
        ensures after { self.new ≡ after_freezeack node self.old }
    {
        if !self.is_stage(Stage::Freezing) || !self.members.ack(node) {
            return false;
        }
        self.members.ask_again();
        self.merging = Merging::new(self.alloc);
        self.stage = Stage::Pulling;
        true
    }

    /// A member tells what it holds, in order. The first of each is gathered. With the last one what all are to hold is
    /// answered, and all are to install it. Nothing changes where memory runs out.
    pub fn pulled(&mut self, pull: Pull) -> Result<Option<PushBody>, NoMemory>
        requires { is_in_order pull ≡ true }
        ensures body { IfOk result (λ body. body ≡ pushed pull self.old) }
        ensures ok { OnOk result (self.new ≡ after_pullreply pull self.old) }
        ensures err { OnErr result (self.new ≡ self.old) }
    {
        self.pulled_at(self.me, pull)
    }

    /// The same, where this node leads the round.
    pub fn pulled_at(&mut self, me: u32, pull: Pull) -> Result<Option<PushBody>, NoMemory>
        requires { is_in_order pull ≡ true }
        ensures body { IfOk result (λ body. body ≡ pushed_at me pull self.old) }
        ensures ok { OnOk result (self.new ≡ after_pullreply pull self.old) }
        ensures err { OnErr result (self.new ≡ self.old) }
    {
        let node = pull.node;
        if !self.is_stage(Stage::Pulling) || !self.members.is_missing(node) {
            return Ok(None);
        }
        let mut members = self.members.copy()?;
        if !members.ack(node) {
            self.merging.add(pull)?;
            self.members = members;
            return Ok(None);
        }
        let mut merging = self.merging.copy()?;
        merging.add(pull)?;
        let body = body_of(self.alloc, me, self.members.asked(), merging.finish()?)?;
        self.members.ask_again();
        self.merging = Merging::new(self.alloc);
        self.stage = Stage::Installing;
        Ok(Some(body))
    }

    /// A member has installed. True exactly where it was the last one missing; then the round is completed. It takes no
    /// memory.
    pub fn installed(&mut self, node: u32) -> bool
        ensures ends { result ≡ ends_stage Installing node self.old }
        ensures after { self.new ≡ after_pushack node self.old }
    {
        if !self.is_stage(Stage::Installing) || !self.members.ack(node) {
            return false;
        }
        self.stage = Stage::Completed;
        true
    }

    /// The number of the generation.
    pub fn generation(&self) -> u64
        ensures { result ≡ self.now.generation }
    {
        self.generation
    }

    /// The members, ascending; there is at least one.
    pub fn members(&self) -> &[u32]
        ensures members { result.now ≡ self.now.members }
        ensures ascending { IsStrictlyIncreasing self.now.members }
        ensures some { self.now.members ≢ [] }
    {
        self.members.asked()
    }

    /// What it waits for.
    pub fn stage(&self) -> Stage
        ensures { result ≡ self.now.stage }
    {
        self.stage
    }

    /// The members that it waits for, ascending.
    pub fn missing(&self) -> &[u32]
        ensures missing { result.now ≡ self.now.missing }
        ensures asked { AreAsked self.now.members self.now.missing }
    {
        self.members.missing()
    }

    /// How many rows of volatile databases it holds: one for each key of the greatest base so far.
    pub fn rows(&self) -> usize
        ensures { result ≡ length self.now.gathered.rows }
    {
        self.merging.rows()
    }

    /// A copy that equals it.
    pub fn copy(&self) -> Result<Leader, NoMemory>
        ensures { IfOk result (λ l. l ≡ self.now) }
    {
        Ok(Leader {
            alloc: self.alloc,
            me: self.me,
            generation: self.generation,
            members: self.members.copy()?,
            stage: self.stage,
            merging: self.merging.copy()?,
        })
    }
}

impl Duplicate for Leader {
    fn duplicate(&self) -> Result<Leader, NoMemory> {
        self.copy()
    }
}
