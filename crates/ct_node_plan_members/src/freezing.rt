//! A member follows a Freeze, and answers a Pull.
ghost use Rattle.std.specs.Prelude.{◌≡◌, ◌<◌, ◌^◌, IfOk, length, map};
ghost use Rattle.ct_node_plan.specs.Changes.{Plans};
ghost use Rattle.ct_frame.specs.declared.frame.Msg.TheVariants as message;
ghost use Rattle.ct_rules_node.specs.Rounds.{freezes, frozen_db, on_freeze, on_pull, ptables_of, table_of};
ghost use Rattle.ct_rules_node.specs.Turn.{begins};

use crate::commits::ends_commits;
use ct_frame::frame::Msg;
use ct_node_database::database::{Database, Sweep};
use ct_node_plan::change::Planned;
use ct_node_plan::handed::{CoreFault, Node, Turn};
use ct_node_plan::plans::{posts, whole};
use ct_node_plan::still::nothing;
use ct_node_view::rows::{ptables, table};
use ct_values::boxed::BoxedItems;
use ct_values::config::Config;
use ct_values::copies::Duplicate;
use ct_values::items::Items;
use ct_values::memory::NoMemory;
use std::alloc::Global;

/// Freeze: a database, where no key has an entry, a queue, a waiting recall, a tracking or a vacuum any more.
#[tactic(auto, unfolding(ct_rules_node::specs::Rounds::frozen_db, ct_node_database::specs::Sweeps::swept))]
fn frozen_db(database: &Database) -> Result<Database, NoMemory>
    ensures { IfOk result (λ d. d ≡ frozen_db database.now) }
{
    database.swept(Sweep::Freeze)
}

/// Freeze: so are all databases.
fn frozen_dbs(alloc: Global, dbs: &[Database]) -> Result<Items<Database>, NoMemory>
    ensures { IfOk result (λ all. all ≡ map frozen_db dbs.now) }
{
    let mut all = Vec::with_capacity(alloc, dbs.len())?;
    for database in dbs {
        all.push(frozen_db(database)?)?;
    }
    Ok(Items::new(all))
}

/// Freeze of a generation from a leader: the promise, the phase, the keys, and what the node leads.
#[tactic(auto, unfolding(ct_rules_node::specs::Rounds::freezes, ct_rules_node::specs::Turn::with_node))]
fn freezes(generation: u64, leader: u32, node: &Node) -> Result<Turn, NoMemory>
    requires { node.now.promise < generation }
    ensures { IfOk result (λ t. t ≡ freezes generation leader (begins node.now)) }
{
    let mut member = node.member;
    member.freeze(generation, leader);
    Ok(Turn::begins(Node {
        alloc: node.alloc,
        member,
        pbase: node.pbase,
        members: node.members.copy()?,
        leader: node.leader,
        dbs: frozen_dbs(node.alloc, node.dbs.as_slice())?,
        placement: node.placement.duplicate()?,
        holder: node.holder.copy()?,
        next: node.next,
        lead: node.lead.copy_from(generation)?,
    }))
}

/// Freeze that is followed: the node freezes, its commits end, and where it has no lock it is Frozen at once.
fn follows(
    config: &Config,
    me: u32,
    sender: u32,
    generation: u64,
    node: &Node,
) -> Result<Planned, CoreFault>
    requires above { node.now.promise < generation }
    requires few { length node.now.dbs < 2 ^ 32 }
    requires dbs { length node.now.dbs ≡ length config.now.dbs }
    ensures { Plans result (on_freeze config.now me sender generation (begins node.now)) node.now }
{
    let mut turn = freezes(generation, sender, node)?;
    ends_commits(&mut turn, config, node.dbs.as_slice())?;
    turn.frozen_if_unlocked(me, generation, sender)?;
    Ok(whole(turn, node)?)
}

/// Freeze: above the promise it is followed, and a node that is Frozen for it acknowledges again. The configuration has a
/// database for each of the node.
#[tactic(auto, unfolding(ct_rules_node::specs::Rounds::on_freeze))]
pub fn on_freeze(
    config: &Config,
    me: u32,
    sender: u32,
    generation: u64,
    node: &Node,
) -> Result<Planned, CoreFault>
    requires few { length node.now.dbs < 2 ^ 32 }
    requires dbs { length node.now.dbs ≡ length config.now.dbs }
    ensures { Plans result (on_freeze config.now me sender generation (begins node.now)) node.now }
{
    if node.member.promised() < generation {
        return follows(config, me, sender, generation, node);
    }
    if node.member.may_pull(generation) {
        return posts(node, generation, me, sender, Msg::FreezeAck);
    }
    Ok(nothing(node))
}

/// All that the node has, as it tells it to the leader of a round.
fn reply(config: &Config, me: u32, node: &Node) -> Result<Msg, NoMemory>
    requires { length node.now.dbs < 2 ^ 32 }
    ensures { IfOk result (λ m. m ≡ message.PullReply node.now.generation node.now.pbase (table_of me 0 node.now.dbs) (ptables_of config.now 0 node.now.dbs) node.now.held) }
{
    Ok(Msg::PullReply {
        vbase: node.member.generation(),
        pbase: node.pbase,
        table: BoxedItems::new(table(me, node)?)?,
        ptables: BoxedItems::new(ptables(config, node)?)?,
        addresses: BoxedItems::new(Items::new(Vec::from_slice(node.alloc, node.holder.held())?))?,
    })
}

/// Pull: a node that is Frozen for this generation tells what it has.
#[tactic(auto, unfolding(ct_rules_node::specs::Rounds::on_pull))]
pub fn on_pull(
    config: &Config,
    me: u32,
    sender: u32,
    generation: u64,
    node: &Node,
) -> Result<Planned, CoreFault>
    requires { length node.now.dbs < 2 ^ 32 }
    ensures { Plans result (on_pull config.now me sender generation (begins node.now)) node.now }
{
    if !node.member.may_pull(generation) {
        return Ok(nothing(node));
    }
    posts(node, generation, me, sender, reply(config, me, node)?)
}
