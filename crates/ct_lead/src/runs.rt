//! The takeover run of a completed round that a node leads, and what is asked again of the members of any round.
ghost use Rattle.std.specs.Prelude.{◌≡◌, ◌≢◌, [], true, if◌then◌else◌, IfOk, MatchOption, None, Some};
ghost use Rattle.ct_values.specs.Words.{is_nil, others};
ghost use Rattle.ct_lead.specs.Runs.{asked_again, awaits_releaseack, handed_out, is_completed_in, led_after_releaseack, led_generation, led_running, led_takeover, placement_of, question, unreleased};
ghost use Rattle.ct_lead.specs.Lead.{gathers_in, is_gathering};
ghost use Rattle.ct_rules_node.specs.Node.{is_among};
ghost use Rattle.ct_rules_node.specs.Rounds.{push_of};

use crate::lead::{Lead, Led};
use crate::leader::Leader;
use crate::run::Run;
use ct_frame::frame::{Assigned, Msg};
use ct_frame::round::{PushBody, Stage};
use ct_values::boxed::BoxedItems;
use ct_values::copies::Duplicate;
use ct_values::items::Items;
use ct_values::memory::NoMemory;
use std::alloc::Global;

/// These items, copied.
fn copied(alloc: Global, placement: &[Assigned]) -> Result<Items<Assigned>, NoMemory>
    ensures { IfOk result (λ all. all ≡ placement.now) }
{
    let mut all = Vec::with_capacity(alloc, placement.len())?;
    for x in placement {
        all.push(x.copy()?)?;
    }
    Ok(Items::new(all))
}

/// The Push of this body.
#[tactic(auto, unfolding(ct_rules_node::specs::Rounds::push_of))]
fn push_of(body: &PushBody) -> Result<Msg, NoMemory>
    ensures { IfOk result (λ m. m ≡ push_of body.now) }
{
    Ok(Msg::Push {
        members: BoxedItems::new(body.members.duplicate()?)?,
        table: BoxedItems::new(body.table.duplicate()?)?,
        ptables: BoxedItems::new(body.ptables.duplicate()?)?,
        assigned: BoxedItems::new(body.assigned.duplicate()?)?,
    })
}

/// What the members of a round that gathers are asked again.
fn question_of(alloc: Global, leader: &Leader) -> Result<Msg, NoMemory>
    requires { is_gathering leader.now.stage ≡ true }
    ensures { IfOk result (λ m. Some m ≡ question (gathers_in leader.now.stage leader.now)) }
{
    if leader.stage() == Stage::Freezing {
        let members = Vec::from_slice(alloc, leader.members())?;
        return Ok(Msg::Freeze {
            members: Items::new(members),
        });
    }
    Ok(Msg::Pull)
}

/// Is the node in the list?
#[tactic(auto, unfolding(ct_rules_node::specs::Node::is_among))]
pub fn is_among(node: u32, nodes: &[u32]) -> bool
    ensures { result ≡ is_among node nodes.now }
{
    nodes.iter().any(|n| node == *n)
}

/// A run without a member among those that have not released.
#[tactic(auto, using(crate::proofs::Released::own_number))]
fn struck_off(run: &Run, node: u32) -> Result<Run, NoMemory>
    ensures { IfOk result (λ r. r ≡ record run.now { missing = others node run.now.missing }) }
{
    let mut left = run.copy()?;
    let number = left.number();
    left.acked(node, number);
    Ok(left)
}

/// Do all others have released?
fn is_last(node: u32, missing: &[u32]) -> bool
    ensures { result ≡ is_nil (others node missing.now) }
{
    for n in missing {
        if *n != node {
            return false;
        }
    }
    true
}

/// The placement that a run makes once this member has released, where no other is missing, and else the last one.
fn made_by(
    alloc: Global,
    made: &Items<Assigned>,
    run: &Run,
    node: u32,
) -> Result<Items<Assigned>, NoMemory>
    ensures { IfOk result (λ m. m ≡ (if is_nil (others node run.now.missing) then run.now.placement else made.now)) }
{
    if is_last(node, run.missing()) {
        copied(alloc, run.placement())
    } else {
        made.duplicate()
    }
}

impl Lead {
    /// The generation of the round that is led, or 0.
    pub fn generation(&self) -> u64
        ensures { result ≡ led_generation self.now }
    {
        match &self.led {
            Led::Nothing => 0,
            Led::Gathering(leader)
            | Led::Installing { leader, .. }
            | Led::Completed { leader, .. } => leader.generation(),
        }
    }

    /// Who is asked again: the members that are missing, and all of a completed round.
    pub fn asked_again(&self) -> &[u32]
        ensures { result.now ≡ asked_again self.now }
    {
        match &self.led {
            Led::Nothing => &[],
            Led::Gathering(leader) | Led::Installing { leader, .. } => leader.missing(),
            Led::Completed { leader, .. } => leader.members(),
        }
    }

    /// What they are asked.
    pub fn question(&self) -> Result<Option<Msg>, NoMemory>
        ensures { IfOk result (λ m. m ≡ question self.now) }
    {
        match &self.led {
            Led::Nothing => Ok(None),
            Led::Gathering(leader) => Ok(Some(question_of(self.alloc, leader)?)),
            Led::Installing { body, .. } => Ok(Some(push_of(body)?)),
            Led::Completed { .. } => Ok(Some(Msg::Thaw)),
        }
    }

    /// Is it the completed round of this generation?
    pub fn is_completed_in(&self, generation: u64) -> bool
        ensures { result ≡ is_completed_in generation self.now }
    {
        match &self.led {
            Led::Completed { leader, .. } => leader.generation() == generation,
            Led::Nothing | Led::Gathering(_) | Led::Installing { .. } => false,
        }
    }

    /// The number of the last run of a completed round, or 0.
    pub fn number(&self) -> u64
        ensures { result ≡ (led_takeover self.now).number }
    {
        match &self.led {
            Led::Completed { number, .. } => *number,
            Led::Nothing | Led::Gathering(_) | Led::Installing { .. } => 0,
        }
    }

    /// The last placement that was made.
    pub fn made(&self) -> &[Assigned]
        ensures { result.now ≡ (led_takeover self.now).made }
    {
        match &self.led {
            Led::Completed { made, .. } => made.as_slice(),
            Led::Nothing | Led::Gathering(_) | Led::Installing { .. } => &[],
        }
    }

    /// The members that have not released yet.
    pub fn unreleased(&self) -> &[u32]
        ensures { result.now ≡ unreleased (led_takeover self.now).run }
    {
        match &self.led {
            Led::Completed { run: Some(run), .. } => run.missing(),
            _ => &[],
        }
    }

    /// The placement of the last run.
    pub fn placement(&self) -> &[Assigned]
        ensures { result.now ≡ placement_of (led_takeover self.now).run }
    {
        match &self.led {
            Led::Completed { run: Some(run), .. } => run.placement(),
            _ => &[],
        }
    }

    /// The placement that is handed out, once all members have released.
    pub fn handed_out(&self) -> Option<&[Assigned]>
        ensures { MatchOption result (handed_out (led_takeover self.now).run ≡ None) (λ p. handed_out (led_takeover self.now).run ≡ Some p.now) }
    {
        match &self.led {
            Led::Completed { run: Some(run), .. } if run.missing().is_empty() => {
                Some(run.placement())
            }
            _ => None,
        }
    }

    /// A run of this number begins in a completed round: all members are to release.
    pub fn begin_run(&self, number: u64, placement: Vec<Assigned>) -> Result<Lead, NoMemory>
        ensures { IfOk result (λ l. l ≡ led_running number placement.items self.now) }
    {
        match &self.led {
            Led::Completed { leader, made, .. } => {
                let run = Run::begin(self.alloc, number, leader.members(), placement)?;
                Ok(Lead {
                    alloc: self.alloc,
                    led: Led::Completed {
                        leader: leader.copy()?,
                        made: made.duplicate()?,
                        number,
                        run: Some(run),
                    },
                })
            }
            _ => self.copy(),
        }
    }

    /// Does the last run of the completed round of this generation have this number, and wait for this member?
    pub fn awaits_releaseack(&self, node: u32, generation: u64, number: u64) -> bool
        ensures { result ≡ awaits_releaseack node generation number self.now }
    {
        self.is_completed_in(generation)
            && self.number() == number
            && is_among(node, self.unreleased())
    }

    /// A member that is missing has released. It is struck off; where nobody is missing, the placement is made and handed
    /// out.
    #[tactic(auto, using(crate::proofs::Released::is_missing, crate::proofs::Released::led_released))]
    pub fn released(&self, node: u32, generation: u64, number: u64) -> Result<Lead, NoMemory>
        requires { awaits_releaseack node generation number self.now ≡ true }
        ensures { IfOk result (λ l. l ≡ led_after_releaseack node self.now) }
    {
        match &self.led {
            Led::Completed {
                leader,
                made,
                number: last,
                run: Some(run),
            } => {
                let made = made_by(self.alloc, made, run, node)?;
                Ok(Lead {
                    alloc: self.alloc,
                    led: Led::Completed {
                        leader: leader.copy()?,
                        made,
                        number: *last,
                        run: Some(struck_off(run, node)?),
                    },
                })
            }
            _ => self.copy(),
        }
    }
}
