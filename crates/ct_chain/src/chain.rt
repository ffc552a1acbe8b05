//! Which chain a client's call belongs to.
ghost use Rattle.std.specs.Prelude.{◌≡◌, ◌≤◌, ◌<◌};
ghost use Rattle.ct_chain.specs.Chains.{chain_of, chain_of_record, keeps_records};

use ct_values::client::ClientOp;
use ct_values::config::{Config, DbKind};
use ct_values::hash::hash;
use ct_values::key::Key;

/// Does the database of this number keep records that migrate? None does that is persistent, nor where there is none.
#[tactic(auto, unfolding(crate::specs::Chains::keeps_records, ct_rules_node::specs::Node::has_records, ct_rules_node::specs::Node::kind_at, ct_rules_node::specs::Node::kind_in))]
fn keeps_records(config: &Config, db: u32) -> bool
    ensures { result ≡ keeps_records config.now db }
{
    match config.dbs.as_slice().get(db as usize) {
        Some(decl) => match decl.kind {
            DbKind::Volatile | DbKind::ReadOnly => true,
            DbKind::Persistent => false,
        },
        None => false,
    }
}

/// The chain of a record: 0 for one of database 0 and where the database keeps no records that migrate, and else its hash, divided
/// by 65,536, by the number of chains.
fn chain_of_record(config: &Config, chains: u32, db: u32, key: &Key) -> u32
    requires { 1 ≤ chains }
    ensures exact { result ≡ chain_of_record config.now chains db key.now }
    ensures below { result < chains }
{
    if db != 0 && keeps_records(config, db) {
        hash(key) / 65_536 % chains
    } else {
        0
    }
}

/// The chain of a call, of 1 to 8 chains: that of the record that it speaks of, and 0 for a commit. It takes no memory.
#[tactic(auto, unfolding(ct_rules_node::specs::Clients::is_commit))]
pub fn chain_of(config: &Config, chains: u32, op: &ClientOp) -> u32
    requires some { 1 ≤ chains }
    requires few { chains ≤ 8 }
    ensures exact { result ≡ chain_of config.now chains op.now }
    ensures below { result < chains }
{
    match op {
        ClientOp::Lock { db, key }
        | ClientOp::Read { db, key }
        | ClientOp::Write { db, key, .. }
        | ClientOp::Apply { db, key, .. }
        | ClientOp::Store { db, key, .. }
        | ClientOp::Unlock { db, key } => chain_of_record(config, chains, *db, key),
        ClientOp::Commit { .. } => 0,
    }
}
