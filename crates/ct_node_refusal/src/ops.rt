//! What a client's call asks for.
ghost use Rattle.std.specs.Prelude.{◌≡◌};
ghost use Rattle.ct_values.specs.Client.{db_of, is_read, wants_record};
ghost use Rattle.ct_rules_node.specs.Clients.{is_commit};

use ct_values::client::ClientOp;

/// The database that a call speaks of.
pub fn db_of(op: &ClientOp) -> u32
    ensures { result ≡ db_of op.now }
{
    match op {
        ClientOp::Lock { db, .. }
        | ClientOp::Read { db, .. }
        | ClientOp::Write { db, .. }
        | ClientOp::Apply { db, .. }
        | ClientOp::Store { db, .. }
        | ClientOp::Unlock { db, .. }
        | ClientOp::Commit { db, .. } => *db,
    }
}

/// Is the call a commit?
#[tactic(auto, unfolding(ct_rules_node::specs::Clients::is_commit))]
pub fn is_commit(op: &ClientOp) -> bool
    ensures { result ≡ is_commit op.now }
{
    matches!(op, ClientOp::Commit { .. })
}

/// Is the call a read?
#[tactic(auto, unfolding(ct_values::specs::Client::is_read))]
pub fn is_read(op: &ClientOp) -> bool
    ensures { result ≡ is_read op.now }
{
    matches!(op, ClientOp::Read { .. })
}
