//! The end of a lock.
ghost use Rattle.std.specs.Prelude.{◌≡◌, ◌<◌, IfOk, length};
ghost use Rattle.ct_lead.specs.Member.{waits_for};
ghost use Rattle.ct_rules.specs.Moves.{release};
ghost use Rattle.ct_rules_node.specs.Clients.{frozen_if_unlocked, unlocks};
ghost use Rattle.ct_rules_node.specs.Node as state;
ghost use Rattle.ct_rules_node.specs.Records.{acted, view};
ghost use Rattle.ct_rules_node.specs.Turn.{begins};
ghost use Rattle.ct_node_plan.specs.Changes.{Plans};
ghost use Rattle.ct_node_plan_calls.specs.Comes.{Comes};

use crate::calls::unlock;
use ct_node_plan::change::Planned;
use ct_node_plan::handed::{CoreFault, Node, Turn};
use ct_node_plan::plans::whole;
use ct_record::moves::release;
use ct_record_parts::draft::Draft;
use ct_values::config::Config;
use ct_values::key::Key;
use ct_values::memory::NoMemory;

/// A record after its lock has ended.
fn released(call: u64, db: u32, key: &Key, node: &Node) -> Result<Draft, NoMemory>
    ensures { IfOk result (λ d. d ≡ release call (view db key.now node.now)) }
{
    let mut draft = node.view(db, key)?;
    release(&mut draft, call)?;
    Ok(draft)
}

/// The middle of a step after the rule of a record, at a copy of the node.
fn acted(me: u32, db: u32, key: &Key, draft: Draft, node: &Node) -> Result<Turn, CoreFault>
    requires { db < length node.now.dbs }
    ensures { Comes result (acted me db key.now draft (begins node.now)) }
{
    let mut turn = Turn::begins(node.copy()?);
    match turn.acted(me, db, key, draft) {
        Ok(()) => Ok(turn),
        Err(fault) => Err(fault),
    }
}

/// A Freezing node is Frozen where it has no lock left, and the step ends.
fn frozen(
    me: u32,
    generation: u64,
    leader: u32,
    mut turn: Turn,
    node: &Node,
) -> Result<Planned, CoreFault>
    requires { turn.node.phase ≡ state.Freezing generation leader }
    ensures { Plans result (frozen_if_unlocked me generation leader turn) node.now }
{
    turn.frozen_if_unlocked(me, generation, leader)?;
    Ok(whole(turn, node)?)
}

/// A lock ends at a Freezing node, which is Frozen where it was the last one.
fn release_freezing(
    me: u32,
    call: u64,
    db: u32,
    key: &Key,
    generation: u64,
    leader: u32,
    node: &Node,
) -> Result<Planned, CoreFault>
    requires there { db < length node.now.dbs }
    requires freezing { node.now.phase ≡ state.Freezing generation leader }
    ensures { Plans result (frozen_if_unlocked me generation leader (acted me db key.now (release call (view db key.now node.now)) (begins node.now))) node.now }
{
    let draft = released(call, db, key, node)?;
    match acted(me, db, key, draft, node) {
        Ok(turn) => frozen(me, generation, leader, turn, node),
        Err(fault) => Err(fault),
    }
}

/// The round that a Freezing node freezes for, and its leader.
fn freezing_for(node: &Node) -> Option<(u64, u32)>
    ensures { result ≡ waits_for node.now.phase }
{
    let mut member = node.member;
    member.locks_gone()
}

/// A lock ends. What waits is handled then, while the node serves; a Freezing one is Frozen where it was the last lock.
pub fn unlocks(
    config: &Config,
    me: u32,
    call: u64,
    db: u32,
    key: &Key,
    node: &Node,
) -> Result<Planned, CoreFault>
    requires { db < length node.now.dbs }
    ensures { Plans result (unlocks config.now me call db key.now (begins node.now) node.now.phase) node.now }
{
    match freezing_for(node) {
        Some((generation, leader)) => {
            release_freezing(me, call, db, key, generation, leader, node)
        }
        None => unlock(config, me, call, db, key, node),
    }
}
