//! What each node has to post to each.
ghost use Rattle.std.specs.Prelude.{◌≡◌};
ghost use Rattle.ct_bus_exchange.specs.Exchange.{script};

use ct_bus::message::Message;
use ct_values::items::Items;

/// What one node has for another one.
pub fn script_of(scripts: &[Items<Items<Message>>], sender: usize, receiver: usize) -> &[Message]
    ensures { result.now ≡ script scripts.now sender receiver }
{
    match scripts.get(sender) {
        Some(row) => match row.as_slice().get(receiver) {
            Some(script) => script.as_slice(),
            None => &[],
        },
        None => &[],
    }
}
