//! What a node leads.
ghost use Rattle.std.specs.Prelude.{◌≡◌, ◌≢◌, [], true, IfOk, option_copied};
ghost use Rattle.std.specs.List.Sorted.{IsStrictlyIncreasing};
ghost use Rattle.ct_lead.specs.Stages.{awaits_freezeack, awaits_pullreply, awaits_pushack, is_completed, is_pulling, led_after_freezeack, led_after_pullreply, led_after_pushack, led_body, led_members};
ghost use Rattle.ct_merge.specs.Held.{is_in_order};
ghost use Rattle.ct_rules_node.specs.Node as node;
ghost use Rattle.ct_rules_node.specs.Rounds.{lead_from};

use crate::leader::Leader;
use crate::run::Run;
use ct_frame::frame::Assigned;
use ct_frame::round::{Pull, PushBody, Stage};
use ct_values::copies::Duplicate;
use ct_values::items::Items;
use ct_values::memory::NoMemory;
use std::alloc::Global;
use std::marker::Model;

/// What is led, and how far it is.
#[derive(Drop)]
pub(crate) enum Led {
    Nothing,
    /// A round waits for members to freeze, or for what they hold.
    Gathering(Leader),
    /// A round waits for members to install this.
    Installing {
        leader: Leader,
        body: PushBody,
    },
    /// A completed round: the last placement that was made, and the number of the last run, which may still go on.
    Completed {
        leader: Leader,
        made: Items<Assigned>,
        number: u64,
        run: Option<Run>,
    },
}

/// What a node leads: nothing, or a round by what it waits for, or a completed one.
pub struct Lead {
    pub(crate) alloc: Global,
    pub(crate) led: Led,
}

impl Drop for Lead {
    /// All that it holds is let go.
    fn drop(self) {
        let Lead { alloc: _, led: _ } = self;
    }
}

impl Model for Lead {
    ghost use Rattle.ct_rules_node.specs.Node as node;
    ghost use Rattle.ct_lead.specs.Lead.{lead_of, StandsSo};

    ghost Value = { node.Lead };

    ghost view = { λ l. lead_of l.led };

    ghost invariant = { λ l. StandsSo l.led };
}

/// A copy that equals it.
fn copy_led(led: &Led) -> Result<Led, NoMemory>
    ensures { IfOk result (λ l. l ≡ led.now) }
{
    match led {
        Led::Nothing => Ok(Led::Nothing),
        Led::Gathering(leader) => Ok(Led::Gathering(leader.copy()?)),
        Led::Installing { leader, body } => Ok(Led::Installing {
            leader: leader.copy()?,
            body: body.copy()?,
        }),
        Led::Completed {
            leader,
            made,
            number,
            run,
        } => Ok(Led::Completed {
            leader: leader.copy()?,
            made: made.duplicate()?,
            number: *number,
            run: run.duplicate()?,
        }),
    }
}

impl Lead {
    /// Nothing is led. It takes no memory.
    pub fn nothing(alloc: Global) -> Lead
        ensures { result ≡ node.Nothing }
    {
        Lead {
            alloc,
            led: Led::Nothing,
        }
    }

    /// A round begins: all members are to freeze. They ascend, and there is at least one.
    pub fn begin(alloc: Global, me: u32, generation: u64, members: &[u32]) -> Result<Lead, NoMemory>
        requires ascending { IsStrictlyIncreasing members.now }
        requires some { members.now ≢ [] }
        ensures { IfOk result (λ l. l ≡ node.Freezes generation members.now members.now) }
    {
        let leader = Leader::begin(alloc, me, generation, members)?;
        Ok(Lead {
            alloc,
            led: Led::Gathering(leader),
        })
    }

    /// What is led for a smaller generation ends.
    #[tactic(auto, unfolding(ct_rules_node::specs::Rounds::lead_from))]
    pub fn lead_from(&mut self, generation: u64)
        ensures { self.new ≡ lead_from generation self.old }
    {
        let ends = match &self.led {
            Led::Nothing => false,
            Led::Gathering(leader)
            | Led::Installing { leader, .. }
            | Led::Completed { leader, .. } => leader.generation() < generation,
        };
        if ends {
            self.led = Led::Nothing;
        }
    }

    /// The members of the round that is led.
    pub fn members(&self) -> &[u32]
        ensures { result.now ≡ led_members self.now }
    {
        match &self.led {
            Led::Nothing => &[],
            Led::Gathering(leader)
            | Led::Installing { leader, .. }
            | Led::Completed { leader, .. } => leader.members(),
        }
    }

    /// What all members are to install.
    pub fn body(&self) -> Option<&PushBody>
        ensures { option_copied result ≡ led_body self.now }
    {
        match &self.led {
            Led::Installing { body, .. } => Some(body),
            Led::Nothing | Led::Gathering(_) | Led::Completed { .. } => None,
        }
    }

    /// Are all asked for what they hold?
    pub fn is_pulling(&self) -> bool
        ensures { result ≡ is_pulling self.now }
    {
        match &self.led {
            Led::Gathering(leader) => leader.stage() == Stage::Pulling,
            Led::Nothing | Led::Installing { .. } | Led::Completed { .. } => false,
        }
    }

    /// Is the round completed?
    pub fn is_completed(&self) -> bool
        ensures { result ≡ is_completed self.now }
    {
        match &self.led {
            Led::Completed { .. } => true,
            Led::Nothing | Led::Gathering(_) | Led::Installing { .. } => false,
        }
    }

    /// Is this member missing in this round, which waits for members to freeze?
    #[tactic(auto, unfolding(ct_rules_node::specs::Node::is_among))]
    pub fn awaits_freezeack(&self, generation: u64, node: u32) -> bool
        ensures { result ≡ awaits_freezeack generation node self.now }
    {
        match &self.led {
            Led::Gathering(leader) => leader.awaits(Stage::Freezing, generation, node),
            Led::Nothing | Led::Installing { .. } | Led::Completed { .. } => false,
        }
    }

    /// Is this member missing in this round, which waits for what members hold?
    #[tactic(auto, unfolding(ct_rules_node::specs::Node::is_among))]
    pub fn awaits_pullreply(&self, generation: u64, node: u32) -> bool
        ensures { result ≡ awaits_pullreply generation node self.now }
    {
        match &self.led {
            Led::Gathering(leader) => leader.awaits(Stage::Pulling, generation, node),
            Led::Nothing | Led::Installing { .. } | Led::Completed { .. } => false,
        }
    }

    /// Is this member missing in this round, which waits for members to install?
    #[tactic(auto, unfolding(ct_rules_node::specs::Node::is_among))]
    pub fn awaits_pushack(&self, generation: u64, node: u32) -> bool
        ensures { result ≡ awaits_pushack generation node self.now }
    {
        match &self.led {
            Led::Installing { leader, .. } => leader.awaits(Stage::Installing, generation, node),
            Led::Nothing | Led::Gathering(_) | Led::Completed { .. } => false,
        }
    }

    /// A member that is missing is frozen. It is struck off; where nobody is missing, all are asked for what they hold.
    #[tactic(auto, unfolding(ct_rules_node::specs::Node::is_among))]
    pub fn frozen(&mut self, generation: u64, node: u32)
        requires { awaits_freezeack generation node self.old ≡ true }
        ensures { self.new ≡ led_after_freezeack node self.old }
    {
        match &mut self.led {
            Led::Gathering(leader) => {
                leader.frozen(node);
            }
            Led::Nothing | Led::Installing { .. } | Led::Completed { .. } => {}
        }
    }

    /// A member that is missing tells this node what it holds, in order. That is gathered and it is struck off; where
    /// nobody is missing, all are to install what is made of all that was gathered.
    #[tactic(auto, unfolding(ct_rules_node::specs::Node::is_among))]
    pub fn pulled(self, me: u32, generation: u64, pull: Pull) -> Result<Lead, NoMemory>
        requires awaited { awaits_pullreply generation pull.node self ≡ true }
        requires in_order { is_in_order pull ≡ true }
        ensures { IfOk result (λ l. l ≡ led_after_pullreply me pull self) }
    {
        let Lead { alloc, led } = self;
        let led = match led {
            Led::Gathering(mut leader) => match leader.pulled_at(me, pull)? {
                Some(body) => Led::Installing { leader, body },
                None => Led::Gathering(leader),
            },
            other => other,
        };
        Ok(Lead { alloc, led })
    }

    /// A member that is missing has installed. It is struck off; where nobody is missing, the round is completed, with
    /// this placement. It takes no memory.
    #[tactic(auto, unfolding(ct_rules_node::specs::Node::is_among))]
    pub fn installed(self, generation: u64, node: u32, made: Items<Assigned>) -> Lead
        requires { awaits_pushack generation node self ≡ true }
        ensures { result ≡ led_after_pushack node made self }
    {
        let Lead { alloc, led } = self;
        let led = match led {
            Led::Installing { mut leader, body } => if leader.installed(node) {
                Led::Completed {
                    leader,
                    made,
                    number: 0,
                    run: None,
                }
            } else {
                Led::Installing { leader, body }
            },
            other => other,
        };
        Lead { alloc, led }
    }

    /// A copy of what is led for this generation or a greater one.
    #[tactic(auto, unfolding(ct_rules_node::specs::Rounds::lead_from))]
    pub fn copy_from(&self, generation: u64) -> Result<Lead, NoMemory>
        ensures { IfOk result (λ l. l ≡ lead_from generation self.now) }
    {
        let ends = match &self.led {
            Led::Nothing => true,
            Led::Gathering(leader)
            | Led::Installing { leader, .. }
            | Led::Completed { leader, .. } => leader.generation() < generation,
        };
        if ends {
            return Ok(Lead::nothing(self.alloc));
        }
        self.copy()
    }

    /// A copy that equals it.
    pub fn copy(&self) -> Result<Lead, NoMemory>
        ensures { IfOk result (λ l. l ≡ self.now) }
    {
        Ok(Lead {
            alloc: self.alloc,
            led: copy_led(&self.led)?,
        })
    }
}

impl Duplicate for Lead {
    fn duplicate(&self) -> Result<Lead, NoMemory> {
        self.copy()
    }
}
