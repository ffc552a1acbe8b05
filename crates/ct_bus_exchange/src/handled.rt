//! A message that was handled.
use ct_bus::message::Message;
use ct_values::items::Items;

/// A message with what the handlers of its service answered, in the order in which they were added.
#[derive(Debug, Drop)]
pub struct Handled {
    pub message: Message,
    pub answers: Items<Items<u8>>,
}
