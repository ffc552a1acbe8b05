//! What one node has to do with each other one, and what came of it.
use ct_bus::message::Message;
use ct_bus::seat::{ReceiveSeat, SendSeat};
use ct_bus_exchange::handled::Handled;
use ct_values::items::Items;
use std::vec::IntoIter;

/// What a node has to do with one other node.
#[derive(Drop)]
pub struct Todo {
    /// A message that came back.
    pub(crate) held: Option<Message>,
    /// What is still to be posted behind it.
    pub(crate) rest: IntoIter<Message>,
    /// How many messages are to come.
    pub(crate) wanted: u64,
    /// How many have come.
    pub(crate) came: u64,
    pub(crate) got: Vec<Message>,
}

/// What a node has to do with each node, by its number; with itself it has nothing to do.
#[derive(Drop)]
pub struct Work {
    pub(crate) node: u32,
    pub(crate) send: SendSeat,
    pub(crate) receive: ReceiveSeat,
    pub(crate) all: Vec<Todo>,
    /// Has a message come that could not be kept?
    pub(crate) lost: bool,
    /// What the node handled of each, once all is done, unless memory ran out.
    pub(crate) done: Option<Items<Items<Handled>>>,
}
