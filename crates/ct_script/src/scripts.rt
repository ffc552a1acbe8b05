//! The plan that a seed makes.
ghost use Rattle.std.specs.Prelude.{◌≡◌, ◌≤◌, ◌<◌, ◌+◌, ◌++◌, ◌∷◌, [], ◌/◌, length, codes, IfOk, OnOk, map};
ghost use Rattle.std.specs.List.{flat_map};
ghost use Rattle.ct_rules_cluster.specs.Cluster.{everyone};
ghost use Rattle.ct_script.specs.Scripts.{asked_by, asked_db, asked_key, asked_kind, asked_letter, asked_number, asked_op, asked_pair, asked_value, cluster_plan, drawn, generator_of, led_by, locked_commit, planned_script, script_by};
ghost use Rattle.ct_script.specs.Sound.{IsSound};

use crate::generated::generated_config;
use crate::plan::{Plan, PlanItem};
use ct_spelling::number::push_decimal;
use ct_values::client::{ClientOp, Pair};
use ct_values::config::Config;
use ct_values::items::Items;
use ct_values::key::Key;
use ct_values::memory::NoMemory;
use ct_values::value::Value;
use rand_core::utils::NextWord;
use rand_pcg::Lcg64Xsh32;
use std::alloc::Global;

/// The place of the database of locks.
const LOCKS: u32 = 0;
/// The place of the volatile database.
const FIRST: u32 = 1;
/// The place of the database that is read on many nodes.
const SECOND: u32 = 2;
/// The place of the persistent database.
const THIRD: u32 = 3;

/// Which of the calls.
#[tactic(auto, unfolding(crate::specs::Scripts::asked_kind))]
fn asked_kind(word: u32) -> u32
    ensures { result ≡ asked_kind word }
{
    word % 8
}

/// One of the letters `a` to `d`.
#[tactic(auto, unfolding(crate::specs::Scripts::asked_letter))]
fn asked_letter(word: u32) -> u8
    ensures { result ≡ asked_letter word }
{
    b'a' + (word / 8 % 4) as u8
}

/// The place of the database `t` or `r`.
#[tactic(auto, unfolding(crate::specs::Scripts::asked_db))]
fn asked_db(word: u32) -> u32
    ensures { result ≡ asked_db word }
{
    if word / 32 % 2 == 0 { FIRST } else { SECOND }
}

/// A number below 1,000.
#[tactic(auto, unfolding(crate::specs::Scripts::asked_number))]
fn asked_number(word: u32) -> u32
    ensures exact { result ≡ asked_number word }
    ensures below { result < 1000 }
{
    word / 64 % 1000
}

fn one_letter(alloc: Global, letter: u8) -> Result<Key, NoMemory>
    ensures { IfOk result (λ key. key ≡ letter ∷ []) }
{
    let mut bytes = Vec::new(alloc);
    bytes.push(letter)?;
    match Key::from_vec(bytes)? {
        Some(key) => Ok(key),
        None => unreachable!(),
    }
}

fn asked_key(alloc: Global, word: u32) -> Result<Key, NoMemory>
    ensures { IfOk result (λ key. key ≡ asked_key word) }
{
    one_letter(alloc, asked_letter(word))
}

#[tactic(auto, using(crate::proofs::Making::short))]
fn asked_value(alloc: Global, word: u32) -> Result<Value, NoMemory>
    ensures { IfOk result (λ value. value ≡ asked_value word) }
{
    let mut text = Vec::new(alloc);
    push_decimal(&mut text, u64::from(asked_number(word)))?;
    match Value::from_vec(text)? {
        Some(value) => Ok(value),
        None => unreachable!(),
    }
}

fn asked_pair(alloc: Global, word: u32) -> Result<Pair, NoMemory>
    ensures { IfOk result (λ pair. pair ≡ asked_pair word) }
{
    let key = asked_key(alloc, word)?;
    let value = asked_value(alloc, word)?;
    Ok(Pair { key, value })
}

/// The call of a kind below 7.
fn asked_op(alloc: Global, word: u32, kind: u32) -> Result<PlanItem, NoMemory>
    ensures { IfOk result (λ item. item ≡ asked_op word kind) }
{
    let db = asked_db(word);
    let key = asked_key(alloc, word)?;
    if kind < 3 {
        return Ok(PlanItem::Call(ClientOp::Read { db, key }));
    }
    let value = asked_value(alloc, word)?;
    if kind < 6 {
        Ok(PlanItem::Call(ClientOp::Write { db, key, value }))
    } else {
        Ok(PlanItem::Call(ClientOp::Apply {
            db,
            key,
            function: 1,
            arg: value,
        }))
    }
}

/// The key under which commits to the database `p` are locked.
fn lock_key(alloc: Global) -> Result<Key, NoMemory>
    ensures { IfOk result (λ key. key ≡ codes "p") }
{
    one_letter(alloc, b'p')
}

/// Adds a commit of one write, under its lock.
fn push_locked_commit(
    alloc: Global,
    script: &mut Items<PlanItem>,
    word: u32,
) -> Result<(), NoMemory>
    ensures { OnOk result (script.new ≡ script.old ++ locked_commit word) }
{
    let mut writes = Items::empty(alloc);
    writes.push(asked_pair(alloc, word)?)?;
    script.push(PlanItem::Call(ClientOp::Lock {
        db: LOCKS,
        key: lock_key(alloc)?,
    }))?;
    script.push(PlanItem::Call(ClientOp::Commit { db: THIRD, writes }))?;
    script.push(PlanItem::Call(ClientOp::Unlock {
        db: LOCKS,
        key: lock_key(alloc)?,
    }))?;
    Ok(())
}

/// Adds what a word asks.
#[tactic(auto, unfolding(crate::specs::Scripts::asked_by))]
fn push_asked(alloc: Global, script: &mut Items<PlanItem>, word: u32) -> Result<(), NoMemory>
    ensures { OnOk result (script.new ≡ script.old ++ asked_by word) }
{
    let kind = asked_kind(word);
    if kind == 7 {
        push_locked_commit(alloc, script, word)
    } else {
        script.push(asked_op(alloc, word, kind)?)?;
        Ok(())
    }
}

/// Adds what each of the words asks, in order.
fn push_all_asked(
    alloc: Global,
    script: &mut Items<PlanItem>,
    words: &[u32],
) -> Result<(), NoMemory>
    ensures { OnOk result (script.new ≡ script.old ++ flat_map asked_by words.now) }
{
    for word in words {
        push_asked(alloc, script, *word)?;
    }
    Ok(())
}

/// All nodes of the cluster.
#[tactic(auto, using(ct_rules_cluster::proofs::Numbers::numbers_more), unfolding(ct_rules_cluster::specs::Cluster::everyone, ct_rules_cluster::specs::Cluster::numbers))]
fn everyone(alloc: Global, config: &Config) -> Result<Items<u32>, NoMemory>
    ensures { IfOk result (λ nodes. nodes ≡ everyone config.now) }
{
    let mut nodes = Items::empty(alloc);
    for node in 0..config.nodes {
        nodes.push(node)?;
    }
    Ok(nodes)
}

/// Adds the recovery that the node leads, if it leads one.
#[tactic(auto, unfolding(crate::specs::Scripts::led_by))]
fn push_led(
    alloc: Global,
    script: &mut Items<PlanItem>,
    config: &Config,
    node: u32,
) -> Result<(), NoMemory>
    ensures { OnOk result (script.new ≡ script.old ++ led_by config.now node) }
{
    if node == 0 {
        script.push(PlanItem::Round(everyone(alloc, config)?))?;
    }
    Ok(())
}

/// What these words ask, with what the node leads after half of them.
#[tactic(auto, unfolding(crate::specs::Scripts::script_by))]
fn script_by(
    alloc: Global,
    config: &Config,
    calls: u32,
    node: u32,
    words: &[u32],
) -> Result<Items<PlanItem>, NoMemory>
    requires { calls / 2 ≤ length words.now }
    ensures { IfOk result (λ script. script ≡ script_by config.now calls node words.now) }
{
    let (before, after) = words.split_at((calls / 2) as usize);
    let mut script = Items::empty(alloc);
    push_all_asked(alloc, &mut script, before)?;
    push_led(alloc, &mut script, config, node)?;
    push_all_asked(alloc, &mut script, after)?;
    Ok(script)
}

/// So many words of a node's generator.
#[tactic(auto, using(crate::proofs::Making::draws_first), unfolding(crate::specs::Scripts::generator_of))]
fn draw(alloc: Global, calls: u32, seed: u64, node: u32) -> Result<Vec<u32>, NoMemory>
    ensures { IfOk result (λ words. words.items ≡ drawn calls (generator_of seed node)) }
{
    let mut generator = Lcg64Xsh32::new(seed, u64::from(node) + 1);
    let mut words = Vec::new(alloc);
    for i in 0..calls {
        words.push(generator.next_word())?;
    }
    Ok(words)
}

/// The script of a node.
#[tactic(auto, using(crate::proofs::Making::half_drawn))]
fn planned_script(
    alloc: Global,
    config: &Config,
    calls: u32,
    seed: u64,
    node: u32,
) -> Result<Items<PlanItem>, NoMemory>
    ensures { IfOk result (λ script. script ≡ planned_script config.now calls seed node) }
{
    let words = draw(alloc, calls, seed, node)?;
    script_by(alloc, config, calls, node, &words)
}

/// The script of each node, in the order of their numbers.
#[tactic(auto, using(crate::proofs::Making::map_more), unfolding(ct_rules_cluster::specs::Cluster::everyone, ct_rules_cluster::specs::Cluster::numbers))]
fn planned_scripts(
    alloc: Global,
    config: &Config,
    calls: u32,
    seed: u64,
) -> Result<Items<Items<PlanItem>>, NoMemory>
    ensures { IfOk result (λ scripts. scripts ≡ map (planned_script config.now calls seed) (everyone config.now)) }
{
    let mut scripts = Items::empty(alloc);
    for node in 0..config.nodes {
        scripts.push(planned_script(alloc, config, calls, seed, node)?)?;
    }
    Ok(scripts)
}

/// The plan that a seed makes, for so many nodes (1 to 8) with so many words of its generator each (1 to 1,000). By each word the
/// node's client asks for a record, or for a commit under its lock. Node 0 leads a recovery of all nodes after half of its
/// words. The nodes talk over no sockets.
#[tactic(auto, using(crate::proofs::Soundness::cluster_plan_sound))]
pub fn cluster_plan(alloc: Global, nodes: u32, calls: u32, seed: u64) -> Result<Plan, NoMemory>
    requires some_nodes { 1 ≤ nodes }
    requires few_nodes { nodes ≤ 8 }
    requires some_calls { 1 ≤ calls }
    requires few_calls { calls ≤ 1000 }
    ensures exact { IfOk result (λ p. p ≡ cluster_plan nodes calls seed) }
    ensures sound { IfOk result IsSound }
{
    let config = generated_config(alloc, nodes)?;
    let scripts = planned_scripts(alloc, &config, calls, seed)?;
    Ok(Plan {
        config,
        scripts,
        net: false,
    })
}
