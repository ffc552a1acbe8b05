//! The kinds and the names of databases, by number.
ghost use Rattle.std.specs.Prelude.{◌≡◌, ◌≢◌, ◌≤◌, None, length};
ghost use Rattle.ct_rules_node.specs.Node.{has_records, is_persistent, is_readonly, kind_at, name_of};

use ct_values::config::{Config, DbKind};

/// The kind of the database of this number, where there is one.
#[tactic(auto, unfolding(ct_rules_node::specs::Node::kind_at, ct_rules_node::specs::Node::kind_in))]
pub fn kind_at(config: &Config, db: u32) -> Option<DbKind>
    ensures { result ≡ kind_at config.now db }
{
    match config.dbs.as_slice().get(db as usize) {
        Some(decl) => Some(decl.kind),
        None => None,
    }
}

/// Does the database hand out copies for reading?
#[tactic(auto, unfolding(ct_rules_node::specs::Node::is_readonly))]
pub fn is_readonly(kind: Option<DbKind>) -> bool
    ensures { result ≡ is_readonly kind }
{
    match kind {
        Some(DbKind::ReadOnly) => true,
        Some(DbKind::Volatile) | Some(DbKind::Persistent) | None => false,
    }
}

/// Is the database a persistent one?
#[tactic(auto, unfolding(ct_rules_node::specs::Node::is_persistent))]
pub fn is_persistent(kind: Option<DbKind>) -> bool
    ensures { result ≡ is_persistent kind }
{
    match kind {
        Some(DbKind::Persistent) => true,
        Some(DbKind::Volatile) | Some(DbKind::ReadOnly) | None => false,
    }
}

/// Is the database a volatile or a read-only one, whose records migrate?
#[tactic(auto, unfolding(ct_rules_node::specs::Node::has_records))]
pub fn has_records(kind: Option<DbKind>) -> bool
    ensures { result ≡ has_records kind }
{
    match kind {
        Some(DbKind::Volatile) | Some(DbKind::ReadOnly) => true,
        Some(DbKind::Persistent) | None => false,
    }
}

/// A database's name, which is also the key of its lock in `g_lock`, the database 0; no bytes where there is none.
#[tactic(auto, unfolding(ct_rules_node::specs::Node::name_of, ct_rules_node::specs::Node::name_in, ct_rules_node::specs::Node::kind_at, ct_rules_node::specs::Node::kind_in))]
pub fn name_of(config: &Config, db: u32) -> &[u8]
    ensures name { result.now ≡ name_of config.now db }
    ensures in_range { kind_at config.now db ≢ None → (1 ≤ length result.now) × (length result.now ≤ 255) }
{
    match config.dbs.as_slice().get(db as usize) {
        Some(decl) => decl.name.bytes(),
        None => &[],
    }
}
