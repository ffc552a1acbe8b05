//! Commits to a persistent database.
ghost use Rattle.std.specs.Prelude.{◌≡◌, ◌≢◌, ◌<◌, ◌∷◌, [], IfOk, length, map};
ghost use Rattle.std.specs.List.Sorted.{IsStrictlyIncreasing};
ghost use Rattle.ct_frame.specs.declared.frame.Msg.TheVariants as msg;
ghost use Rattle.ct_persist.specs.Commits.{commit_begun};
ghost use Rattle.ct_node_plan.specs.Posts.{sent};
ghost use Rattle.ct_rules_node.specs.Databases.{commit};
ghost use Rattle.ct_rules_node.specs.Node.{db_at};
ghost use Rattle.ct_rules_node.specs.Turn.{begins};
ghost use Rattle.ct_node_plan.specs.Changes.{Plans};

use ct_frame::event::Out;
use ct_frame::frame::Msg;
use ct_frame::header::LIMIT;
use ct_node_database::database::Committing;
use ct_node_plan::change::{Change, Planned};
use ct_node_plan::handed::{CoreFault, Node};
use ct_node_plan::posts::post_all;
use ct_node_plan::still::one;
use ct_persist::commit::Commit;
use ct_values::client::{Answer, Pair};
use ct_values::items::Items;
use ct_values::memory::NoMemory;
use std::alloc::Global;

/// The number of the last commit that was applied to a database.
#[tactic(auto, unfolding(ct_rules_node::specs::Node::db_at, ct_rules_node::specs::Node::or_untouched, ct_rules_node::specs::Node::untouched))]
fn seq_at(node: &Node, db: u32) -> u64
    ensures { result ≡ (db_at db node.now).store.seq }
{
    match node.database(db) {
        Some(database) => database.store().seq(),
        None => 0,
    }
}

/// These writes, copied.
fn copied(alloc: Global, writes: &[Pair]) -> Result<Items<Pair>, NoMemory>
    ensures { IfOk result (λ all. all ≡ writes.now) }
{
    let mut all = Vec::with_capacity(alloc, writes.len())?;
    for pair in writes {
        all.push(pair.copy()?)?;
    }
    Ok(Items::new(all))
}

/// The commit of a call, which waits for all of these members.
fn committing(
    alloc: Global,
    call: u64,
    seq: u64,
    writes: &[Pair],
    members: &[u32],
) -> Result<Committing, NoMemory>
    requires ascending { IsStrictlyIncreasing members.now }
    requires some { members.now ≢ [] }
    ensures { IfOk result (λ c. c ≡ record { call = call; writes = writes.now; pending = commit_begun seq members.now }) }
{
    Ok(Committing {
        call,
        writes: copied(alloc, writes)?,
        pending: Commit::begin(alloc, seq, members)?,
    })
}

/// All of these members get a PUpdate.
fn updates(
    alloc: Global,
    generation: u64,
    me: u32,
    db: u32,
    seq: u64,
    writes: &[Pair],
    members: &[u32],
) -> Result<Items<Out>, NoMemory>
    ensures { IfOk result (λ outs. outs ≡ map (sent generation me (msg.PUpdate db seq writes.now)) members.now) }
{
    let mut outs = Items::empty(alloc);
    let msg = Msg::PUpdate {
        db,
        seq,
        writes: copied(alloc, writes)?,
    };
    post_all(&mut outs, generation, me, members, &msg)?;
    Ok(outs)
}

/// The database takes the writes under the number after its own. The other members get them and are waited for; where
/// there is none the commit is answered at once.
#[tactic(auto, using(crate::proofs::Writing::commit_spent, crate::proofs::Writing::planned_alone, crate::proofs::Writing::planned_awaited))]
pub fn commit(
    me: u32,
    call: u64,
    db: u32,
    writes: &[Pair],
    node: &Node,
) -> Result<Planned, CoreFault>
    requires { db < length node.now.dbs }
    ensures { Plans result (commit me call db writes.now (begins node.now)) node.now }
{
    let last = seq_at(node, db);
    if LIMIT - 1 <= last {
        return Err(CoreFault::Exhausted);
    }
    let seq = last + 1;
    let others = node.members.others(me)?;
    let members = others.as_slice();
    if members.is_empty() {
        let outs = one(
            node.alloc,
            Out::Answer {
                call,
                answer: Answer::Committed(seq),
            },
        )?;
        return Ok(Planned {
            change: Change::Update {
                db,
                seq,
                writes: copied(node.alloc, writes)?,
            },
            outs,
        });
    }
    let commit = committing(node.alloc, call, seq, writes, members)?;
    let outs = updates(
        node.alloc,
        node.member.generation(),
        me,
        db,
        seq,
        writes,
        members,
    )?;
    Ok(Planned {
        change: Change::Begin {
            db,
            seq,
            writes: copied(node.alloc, writes)?,
            commit: Some(commit),
        },
        outs,
    })
}
