//! A step that is planned.
use ct_frame::event::Out;
use ct_frame::frame::Assigned;
use ct_lead::holder::Holder;
use ct_lead::lead::Lead;
use ct_node_database::database::Committing;
use ct_node_state::node::Node;
use ct_rules::state::RecState;
use ct_values::boxed::Boxed;
use ct_values::client::Pair;
use ct_values::items::Items;
use ct_values::key::Key;

/// What a step leaves of one record: its state, and the node's next request number and floor of the database.
#[derive(Drop)]
pub struct Left {
    pub key: Key,
    pub state: Boxed<RecState>,
    pub next: u64,
    pub floor: u64,
}

/// What a step changes of a node.
#[derive(Drop)]
pub enum Change {
    Nothing,
    /// One record has another state, and the node another next request number and floor of the database.
    Record {
        db: u32,
        key: Key,
        state: Boxed<RecState>,
        next: u64,
        floor: u64,
    },
    /// A persistent database takes an update.
    Update {
        db: u32,
        seq: u64,
        writes: Items<Pair>,
    },
    /// A persistent database takes an update, and this commit waits there.
    Begin {
        db: u32,
        seq: u64,
        writes: Items<Pair>,
        commit: Option<Committing>,
    },
    /// This commit waits at a database.
    Wait {
        db: u32,
        commit: Option<Committing>,
    },
    /// Records of a database that are deleted ones are left so, one after the other.
    Records {
        db: u32,
        left: Items<Left>,
    },
    /// The node leads this.
    Lead(Boxed<Lead>),
    /// It holds these addresses, and this was the last takeover run that it followed.
    Hold(Holder),
    /// So it is, and it knows the addresses to be there.
    Take {
        placement: Items<Assigned>,
        holder: Holder,
    },
    /// All but the databases becomes this.
    Beside(Boxed<Node>),
    /// The node becomes this.
    Whole(Boxed<Node>),
}

/// What a step changes, and what it does, in order.
#[derive(Drop)]
pub struct Planned {
    pub change: Change,
    pub outs: Items<Out>,
}
