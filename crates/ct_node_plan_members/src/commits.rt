//! The commits that wait at a node that freezes: nobody is waited for any more.
ghost use Rattle.std.specs.Prelude.{◌≡◌, ◌<◌, ◌^◌, Some, None, IfOk, OnOk, length, option_copied};
ghost use Rattle.ct_values.specs.declared.client.Answer.TheVariants as answer;
ghost use Rattle.ct_rules_node.specs.Databases.{with_commit};
ghost use Rattle.ct_rules_node.specs.Node.{name_of};
ghost use Rattle.ct_rules_node.specs.Rounds.{ends_commit, ends_commits, ends_lock};
ghost use Rattle.ct_rules_node.specs.Turn.{answers};

use ct_frame::event::Note;
use ct_node_database::database::{Committing, Database};
use ct_node_plan::handed::{Turn, name_of};
use ct_values::client::Answer;
use ct_values::config::Config;
use ct_values::items::Items;
use ct_values::key::Key;
use ct_values::memory::{BytesFault, NoMemory};
use std::alloc::Global;

/// The key of a database's lock in `g_lock`: its name.
#[tactic(auto, using(crate::proofs::Kept::kind_there))]
fn lock_of(alloc: Global, config: &Config, db: u32) -> Result<Key, NoMemory>
    requires { db < length config.now.dbs }
    ensures { IfOk result (λ key. key ≡ name_of config.now db) }
{
    match Key::new(alloc, name_of(config, db)) {
        Ok(key) => Ok(key),
        Err(BytesFault::NoMemory) => Err(NoMemory),
        Err(BytesFault::BadLength(_)) => unreachable!(),
        Err(BytesFault::BadByte(_)) => unreachable!(),
    }
}

/// A lock in `g_lock` ends, with a note.
#[tactic(auto, unfolding(ct_rules_node::specs::Rounds::ends_lock, ct_rules_node::specs::Turn::with_node))]
fn ends_lock(turn: &mut Turn, name: Key) -> Result<(), NoMemory>
    requires { 0 < length turn.old.node.dbs }
    ensures { OnOk result (turn.new ≡ ends_lock name turn.old) }
{
    let mut state = turn.node.state_at(0, &name)?.into_inner();
    state.locked = None;
    turn.node.keep(0, name.copy()?, state)?;
    turn.notes(Note::Ended { db: 0, key: name })
}

/// A commit is answered `unsure`, with the members that did not take it.
#[tactic(auto, unfolding(ct_rules_node::specs::Turn::answers, ct_rules_node::specs::Turn::does))]
fn answers_unsure(turn: &mut Turn, commit: &Committing) -> Result<(), NoMemory>
    ensures answered { OnOk result (turn.new ≡ answers commit.now.call (answer.Unsure commit.now.pending.seq commit.now.pending.missing) turn.old) }
    ensures node { OnOk result (turn.new.node ≡ turn.old.node) }
{
    let seq = commit.pending.seq();
    let missing = Items::new(Vec::from_slice(turn.node.alloc, commit.pending.missing())?);
    turn.answers(commit.call, Answer::Unsure { seq, missing })
}

/// No commit of the database waits any more.
#[tactic(auto, unfolding(ct_rules_node::specs::Databases::with_commit, ct_rules_node::specs::Turn::with_node))]
fn waits_no_more(turn: &mut Turn, db: u32)
    requires { db < length turn.old.node.dbs }
    ensures ended { turn.new ≡ with_commit db None turn.old }
    ensures dbs { length turn.new.node.dbs ≡ length turn.old.node.dbs }
{
    turn.node.wait(db, None);
}

/// End of a commit that waits.
#[tactic(auto, unfolding(ct_rules_node::specs::Rounds::ends_commit))]
fn ends_waiting(
    turn: &mut Turn,
    config: &Config,
    db: u32,
    commit: &Committing,
) -> Result<(), NoMemory>
    requires there { db < length turn.old.node.dbs }
    requires declared { db < length config.now.dbs }
    ensures { OnOk result (turn.new ≡ ends_commit db (name_of config.now db) turn.old (Some commit.now)) }
{
    answers_unsure(turn, commit)?;
    waits_no_more(turn, db);
    let name = lock_of(turn.node.alloc, config, db)?;
    ends_lock(turn, name)
}

/// End of the commit of a database, if one waits.
#[tactic(auto, unfolding(ct_rules_node::specs::Rounds::ends_commit), using(crate::proofs::Kept::commit_dbs, crate::proofs::Kept::commit_phase))]
fn ends_commit(
    turn: &mut Turn,
    config: &Config,
    db: u32,
    commit: Option<&Committing>,
) -> Result<(), NoMemory>
    requires there { db < length turn.old.node.dbs }
    requires declared { db < length config.now.dbs }
    ensures ok { OnOk result (turn.new ≡ ends_commit db (name_of config.now db) turn.old (option_copied commit.entry)) }
    ensures dbs { OnOk result (length turn.new.node.dbs ≡ length turn.old.node.dbs) }
    ensures phase { OnOk result (turn.new.node.phase ≡ turn.old.node.phase) }
{
    match commit {
        Some(commit) => {
            ends_waiting(turn, config, db, commit)?;
            Ok(())
        }
        None => Ok(()),
    }
}

/// End of each commit that waits in these databases, by database.
#[tactic(auto, unfolding(ct_rules_node::specs::Rounds::ends_commits))]
pub fn ends_commits(turn: &mut Turn, config: &Config, dbs: &[Database]) -> Result<(), NoMemory>
    requires few { length dbs.now < 2 ^ 32 }
    requires there { length dbs.now ≡ length turn.old.node.dbs }
    requires declared { length dbs.now ≡ length config.now.dbs }
    ensures ok { OnOk result (turn.new ≡ ends_commits config.now 0 dbs.now turn.old) }
    ensures phase { OnOk result (turn.new.node.phase ≡ turn.old.node.phase) }
{
    for (i, db) in dbs.iter().enumerate() {
        ends_commit(turn, config, i as u32, db.commit())?;
    }
    Ok(())
}
