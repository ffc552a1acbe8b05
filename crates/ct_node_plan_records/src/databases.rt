//! Messages of a persistent database.
ghost use Rattle.std.specs.Prelude.{◌≡◌, ◌∷◌, [], ◌<◌, if◌then◌else◌, IfOk, None, Some, length, nat_le, option_copied};
ghost use Rattle.ct_frame.specs.declared.event.Out.TheVariants as out;
ghost use Rattle.ct_frame.specs.declared.frame.Msg.TheVariants as message;
ghost use Rattle.ct_values.specs.declared.client.Answer.TheVariants as answer;
ghost use Rattle.ct_persist.specs.Persisted.{updated};
ghost use Rattle.ct_node_plan.specs.Changes.{IsPlanned, Plans};
ghost use Rattle.ct_rules_node.specs.Databases.{on_pack, on_pack_of, on_pupdate, with_commit};
ghost use Rattle.ct_rules_node.specs.Node.{db_at};
ghost use Rattle.ct_rules_node.specs.Steps.{if_persistent};
ghost use Rattle.ct_rules_node.specs.Turn.{answers, begins};

use ct_frame::event::Out;
use ct_frame::frame::{Frame, Msg};
use ct_node_admission::admission::is_current;
use ct_node_database::database::Committing;
use ct_node_plan::change::{Change, Planned};
use ct_node_plan::handed::{CoreFault, Node, is_persistent, kind_at};
use ct_node_plan::still::{nothing, one};
use ct_persist::store::PStore;
use ct_values::client::{Answer, Pair};
use ct_values::config::Config;
use ct_values::items::Items;
use ct_values::memory::NoMemory;
use std::alloc::Global;

/// Has a database this number or a later one, once it was updated so? It takes no memory.
fn has_then(store: &PStore, seq: u64, writes: &[Pair]) -> bool
    ensures { result ≡ nat_le seq (updated seq writes.now store.now).seq }
{
    if seq <= store.seq() {
        return true;
    }
    seq - store.seq() == 1 && store.fits(writes)
}

/// Has the database of this number it then?
#[tactic(auto, unfolding(ct_rules_node::specs::Node::db_at, ct_rules_node::specs::Node::or_untouched))]
fn acknowledges(node: &Node, db: u32, seq: u64, writes: &[Pair]) -> bool
    requires { db < length node.now.dbs }
    ensures { result ≡ nat_le seq (updated seq writes.now (db_at db node.now).store).seq }
{
    match node.database(db) {
        Some(database) => has_then(database.store(), seq, writes),
        None => unreachable!(),
    }
}

/// The writes, copied.
fn copied(alloc: Global, writes: &[Pair]) -> Result<Items<Pair>, NoMemory>
    ensures { IfOk result (λ all. all ≡ writes.now) }
{
    let mut all = Vec::with_capacity(alloc, writes.len())?;
    for write in writes {
        all.push(write.copy()?)?;
    }
    Ok(Items::new(all))
}

/// The acknowledgement of an update, where the database then has its number.
fn acknowledgement(
    node: &Node,
    me: u32,
    sender: u32,
    db: u32,
    seq: u64,
    writes: &[Pair],
) -> Result<Items<Out>, NoMemory>
    requires { db < length node.now.dbs }
    ensures { IfOk result (λ outs. outs ≡ if nat_le seq (updated seq writes.now (db_at db node.now).store).seq then out.Send (record { generation = node.now.generation; sender = me; receiver = sender; msg = message.PAck db seq }) ∷ [] else []) }
{
    if !acknowledges(node, db, seq, writes) {
        return Ok(Items::empty(node.alloc));
    }
    one(
        node.alloc,
        Out::Send(Frame {
            generation: node.member.generation(),
            sender: me,
            receiver: sender,
            msg: Msg::PAck { db, seq },
        }),
    )
}

/// An update comes from a member, which gets an acknowledgement where the database then has its number.
#[tactic(auto, using(crate::proofs::Updates::planned_update))]
fn update(
    me: u32,
    sender: u32,
    db: u32,
    seq: u64,
    writes: &[Pair],
    node: &Node,
) -> Result<Planned, CoreFault>
    requires { db < length node.now.dbs }
    ensures { Plans result (on_pupdate me sender db seq writes.now (begins node.now)) node.now }
{
    let outs = acknowledgement(node, me, sender, db, seq, writes)?;
    let change = Change::Update {
        db,
        seq,
        writes: copied(node.alloc, writes)?,
    };
    Ok(Planned { change, outs })
}

/// An update comes: one that is not current, or not of a persistent database, is dropped.
#[tactic(auto, using(ct_law_form::proofs::Admitting::persistent_there), unfolding(ct_rules_node::specs::Steps::if_persistent))]
pub fn on_pupdate(
    config: &Config,
    me: u32,
    frame: &Frame,
    db: u32,
    seq: u64,
    writes: &[Pair],
    node: &Node,
) -> Result<Planned, CoreFault>
    requires { length node.now.dbs ≡ length config.now.dbs }
    ensures { Plans result (if_persistent config.now frame.now db (on_pupdate me frame.now.sender db seq writes.now (begins node.now)) (begins node.now)) node.now }
{
    if !is_current(frame, node)? || !is_persistent(kind_at(config, db)) {
        return Ok(nothing(node));
    }
    update(me, frame.sender, db, seq, writes, node)
}

/// A commit waits at a database no more, and its call is answered.
#[tactic(auto, unfolding(ct_rules_node::specs::Databases::with_commit, ct_rules_node::specs::Turn::with_node, ct_rules_node::specs::Turn::answers, ct_rules_node::specs::Turn::does, ct_node_plan::specs::Changes::changed_by))]
fn committed(call: u64, db: u32, seq: u64, node: &Node) -> Result<Planned, CoreFault>
    requires { db < length node.now.dbs }
    ensures { Plans result (answers call (answer.Committed seq) (with_commit db None (begins node.now))) node.now }
{
    let outs = one(
        node.alloc,
        Out::Answer {
            call,
            answer: Answer::Committed(seq),
        },
    )?;
    let change = Change::Wait { db, commit: None };
    Ok(Planned { change, outs })
}

/// This commit waits at a database.
#[tactic(auto, unfolding(ct_rules_node::specs::Databases::with_commit, ct_rules_node::specs::Turn::with_node, ct_node_plan::specs::Changes::changed_by))]
fn waits(db: u32, commit: Committing, node: &Node) -> Planned
    requires { db < length node.now.dbs }
    ensures { IsPlanned result (with_commit db (Some commit) (begins node.now)) node.now }
{
    Planned {
        change: Change::Wait {
            db,
            commit: Some(commit),
        },
        outs: Items::empty(node.alloc),
    }
}

/// A member acknowledged the commit that waits.
#[tactic(auto, unfolding(ct_rules_node::specs::Databases::on_pack_of))]
fn acknowledged(
    sender: u32,
    db: u32,
    seq: u64,
    commit: &Committing,
    node: &Node,
) -> Result<Planned, CoreFault>
    requires { db < length node.now.dbs }
    ensures { Plans result (on_pack_of sender db seq (begins node.now) (Some commit.now)) node.now }
{
    let mut commit = commit.copy()?;
    if commit.pending.ack(sender, seq) {
        return committed(commit.call, db, seq, node);
    }
    Ok(waits(db, commit, node))
}

/// The commit that waits at a database, if one does.
#[tactic(auto, unfolding(ct_rules_node::specs::Node::db_at, ct_rules_node::specs::Node::or_untouched, ct_rules_node::specs::Node::untouched))]
fn commit_at(node: &Node, db: u32) -> Option<&Committing>
    ensures { option_copied result ≡ (db_at db node.now).commit }
{
    match node.database(db) {
        Some(database) => database.commit(),
        None => None,
    }
}

/// An acknowledgement comes from a member; where no commit waits it is dropped.
#[tactic(auto, unfolding(ct_rules_node::specs::Databases::on_pack, ct_rules_node::specs::Databases::on_pack_of, ct_rules_node::specs::Node::db_at, ct_rules_node::specs::Node::or_untouched))]
fn acknowledge(sender: u32, db: u32, seq: u64, node: &Node) -> Result<Planned, CoreFault>
    requires { db < length node.now.dbs }
    ensures { Plans result (on_pack sender db seq (begins node.now)) node.now }
{
    match commit_at(node, db) {
        Some(commit) => acknowledged(sender, db, seq, commit, node),
        None => Ok(nothing(node)),
    }
}

/// An acknowledgement comes: one that is not current, or not of a persistent database, is dropped.
#[tactic(auto, using(ct_law_form::proofs::Admitting::persistent_there), unfolding(ct_rules_node::specs::Steps::if_persistent))]
pub fn on_pack(
    config: &Config,
    frame: &Frame,
    db: u32,
    seq: u64,
    node: &Node,
) -> Result<Planned, CoreFault>
    requires { length node.now.dbs ≡ length config.now.dbs }
    ensures { Plans result (if_persistent config.now frame.now db (on_pack frame.now.sender db seq (begins node.now)) (begins node.now)) node.now }
{
    if !is_current(frame, node)? || !is_persistent(kind_at(config, db)) {
        return Ok(nothing(node));
    }
    acknowledge(frame.sender, db, seq, node)
}
