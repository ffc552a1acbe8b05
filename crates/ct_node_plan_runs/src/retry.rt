//! What was not answered is sent again: all Calls by number, then all Revokes by database and key, then the updates of
//! commits, and at last what a leader waits for.
ghost use Rattle.std.specs.Prelude.{◌≡◌, ◌++◌, ◌<◌, ◌^◌, IfOk, OnOk, length, option_copied};
ghost use Rattle.ct_node_plan.specs.Changes.{Plans};
ghost use Rattle.ct_node_plan_runs.specs.Again.{AllWorth, all_called, all_revoked, all_updated, called_again, records_again, revoked_again, revoked_in, updated_again};
ghost use Rattle.ct_law_rules_node.specs.NodeLaws.{NodeAscends};
ghost use Rattle.ct_rules_node.specs.Node.{is_present, state_at};
ghost use Rattle.ct_rules_node.specs.Records.{place_of};
ghost use Rattle.ct_rules_node.specs.Retries.{retry};
ghost use Rattle.ct_rules_node.specs.Rounds.{pending_calls};
ghost use Rattle.ct_rules_node.specs.Turn.{begins};

use crate::lead::round_again;
use ct_frame::event::Out;
use ct_frame::frame::Msg;
use ct_node_database::database::{Committing, Database};
use ct_node_plan::change::{Change, Planned};
use ct_node_plan::handed::{CoreFault, Node, is_present_in};
use ct_node_plan::posts::{post, post_all};
use ct_node_view::waiting::{Called, pending_calls};
use ct_record_parts::parts::kind_of;
use ct_rules::event::Place;
use ct_rules::state::{RecState, Wish};
use ct_store::hashed::Store;
use ct_tracking::tracking::Tracking;
use ct_values::boxed::Boxed;
use ct_values::config::Config;
use ct_values::copies::Duplicate;
use ct_values::items::Items;
use ct_values::key::Key;
use ct_values::memory::NoMemory;

// Calls
/// The Call of a wish that has a request, under the same number.
#[tactic(auto, unfolding(crate::specs::Again::called_again, ct_rules_node::specs::Records::place_of))]
fn call_again(
    outs: &mut Items<Out>,
    config: &Config,
    me: u32,
    called: &Called,
    wish: &Option<Wish>,
    node: &Node,
) -> Result<(), NoMemory>
    ensures { OnOk result (outs.new ≡ outs.old ++ called_again node.now.generation (place_of config.now me called.now.db called.now.key node.now) wish.now) }
{
    let Some(wish) = wish else {
        return Ok(());
    };
    if wish.request == 0 {
        return Ok(());
    }
    let at = node.place_of(config, me, called.db, &called.key)?;
    let kind = kind_of(&at, &wish.op);
    let Place {
        lmaster,
        db,
        key,
        ..
    } = at;
    let msg = Msg::Call {
        db,
        key,
        request: wish.request,
        kind,
    };
    post(outs, node.member.generation(), me, lmaster, msg)
}

/// The Call of one call that waits.
#[tactic(auto, unfolding(ct_rules_node::specs::Node::or_nothing, crate::specs::Again::called_again))]
fn call_one(
    outs: &mut Items<Out>,
    config: &Config,
    me: u32,
    called: &Called,
    node: &Node,
) -> Result<(), NoMemory>
    ensures { OnOk result (outs.new ≡ outs.old ++ called_again node.now.generation (place_of config.now me called.now.db called.now.key node.now) (state_at called.now.db called.now.key node.now).wish) }
{
    match node.record(called.db, &called.key) {
        Some(state) => call_again(outs, config, me, called, &state.wish, node),
        None => Ok(()),
    }
}

/// The Call of each call that waits, by number.
#[tactic(auto, unfolding(crate::specs::Again::all_called))]
fn calls(config: &Config, me: u32, node: &Node) -> Result<Items<Out>, NoMemory>
    requires { length node.now.dbs < 2 ^ 32 }
    ensures { IfOk result (λ outs. outs ≡ all_called config.now me node.now (pending_calls node.now)) }
{
    let mut outs = Items::empty(node.alloc);
    for called in pending_calls(node)? {
        call_one(&mut outs, config, me, &called, node)?;
    }
    Ok(outs)
}

// Revokes
/// The Revoke of a revocation that runs, to the missing nodes.
#[tactic(auto, unfolding(crate::specs::Again::revoked_again, ct_rules_node::specs::Records::place_of))]
fn revoke_again(
    outs: &mut Items<Out>,
    generation: u64,
    me: u32,
    db: u32,
    key: &Key,
    tracking: &Tracking,
) -> Result<(), NoMemory>
    ensures { OnOk result (outs.new ≡ outs.old ++ revoked_again generation me db key.now tracking.now.revoking) }
{
    let Some(rsn) = tracking.revoking() else {
        return Ok(());
    };
    let msg = Msg::Revoke {
        db,
        key: key.copy()?,
        rsn,
    };
    post_all(outs, generation, me, tracking.missing(), &msg)
}

/// The Revoke of each revocation in a database, by key.
#[tactic(auto, unfolding(crate::specs::Again::revoked_in))]
fn revokes_of(
    outs: &mut Items<Out>,
    generation: u64,
    me: u32,
    db: u32,
    records: &Store<Boxed<RecState>>,
) -> Result<(), NoMemory>
    ensures { OnOk result (outs.new ≡ outs.old ++ revoked_in generation me db records.now) }
{
    for (key, state) in records.sorted_where(|state| state
        .as_ref()
        .tracking
        .revoking()
        .is_some())?
    {
        revoke_again(outs, generation, me, db, key, &state.as_ref().tracking)?;
    }
    Ok(())
}

/// The Revoke of each revocation, by database and key.
#[tactic(auto, unfolding(crate::specs::Again::all_revoked))]
fn revokes(outs: &mut Items<Out>, me: u32, node: &Node) -> Result<(), NoMemory>
    requires { length node.now.dbs < 2 ^ 32 }
    ensures { OnOk result (outs.new ≡ outs.old ++ all_revoked node.now.generation me 0 node.now.dbs) }
{
    let generation = node.member.generation();
    for (i, db) in node.dbs.as_slice().iter().enumerate() {
        revokes_of(outs, generation, me, i as u32, db.records())?;
    }
    Ok(())
}

// updates of commits
/// The PUpdate of a commit that waits.
#[tactic(auto, unfolding(crate::specs::Again::updated_again))]
fn update_again(
    outs: &mut Items<Out>,
    generation: u64,
    me: u32,
    db: u32,
    commit: Option<&Committing>,
) -> Result<(), NoMemory>
    ensures { OnOk result (outs.new ≡ outs.old ++ updated_again generation me db (option_copied commit.entry)) }
{
    let Some(commit) = commit else {
        return Ok(());
    };
    let msg = Msg::PUpdate {
        db,
        seq: commit.pending.seq(),
        writes: commit.writes.duplicate()?,
    };
    post_all(outs, generation, me, commit.pending.missing(), &msg)
}

/// The PUpdate of each commit that waits, by database.
#[tactic(auto, unfolding(crate::specs::Again::all_updated))]
fn updates(outs: &mut Items<Out>, me: u32, node: &Node) -> Result<(), NoMemory>
    requires { length node.now.dbs < 2 ^ 32 }
    ensures { OnOk result (outs.new ≡ outs.old ++ all_updated node.now.generation me 0 node.now.dbs) }
{
    let generation = node.member.generation();
    for (i, db) in node.dbs.as_slice().iter().enumerate() {
        update_again(outs, generation, me, i as u32, db.commit())?;
    }
    Ok(())
}

/// No blank state is kept, as the type of a database keeps it.
fn none_blank(dbs: &[Database])
    ensures { AllWorth dbs.now }
{
    for db in dbs {
        let _records = db.records();
    }
}

/// Is the node present in its generation?
#[tactic(auto, using(crate::proofs::Retried::own_generation))]
fn is_present(node: &Node) -> bool
    ensures { result ≡ is_present node.now.phase }
{
    is_present_in(node.member, node.member.generation())
}

/// Where the node is present: Calls, then Revokes, then updates.
#[tactic(auto, unfolding(crate::specs::Again::records_again))]
fn records_again(config: &Config, me: u32, node: &Node) -> Result<Items<Out>, NoMemory>
    requires { length node.now.dbs < 2 ^ 32 }
    ensures { IfOk result (λ outs. outs ≡ records_again config.now me node.now) }
{
    if !is_present(node) {
        return Ok(Items::empty(node.alloc));
    }
    let mut outs = calls(config, me, node)?;
    revokes(&mut outs, me, node)?;
    updates(&mut outs, me, node)?;
    Ok(outs)
}

/// Retry: first of records and commits, then of the round and of the run.
#[tactic(auto, using(crate::proofs::Retried::planned_retry))]
pub fn retry(config: &Config, me: u32, node: &Node) -> Result<Planned, CoreFault>
    requires few { length node.now.dbs < 2 ^ 32 }
    requires order { NodeAscends node.now }
    ensures { Plans result (retry config.now me (begins node.now)) node.now }
{
    none_blank(node.dbs.as_slice());
    let mut outs = records_again(config, me, node)?;
    round_again(&mut outs, me, node)?;
    Ok(Planned {
        change: Change::Nothing,
        outs,
    })
}
