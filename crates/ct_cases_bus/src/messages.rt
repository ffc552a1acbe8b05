//! What nodes have for each other.
ghost use Rattle.std.specs.Prelude.{◌≡◌, ◌∷◌, [], IfOk, IsTrue};
ghost use Rattle.ct_bus_exchange.specs.Exchange.{AreCounted, AreScripts};

use ct_bus::message::Message;
use ct_values::items::Items;
use ct_values::value::Value;
use std::alloc::Global;
use std::test::Fail;

// So many messages to a service, with their places.
pub fn messages(
    alloc: Global,
    srvid: u64,
    body: &[u8],
    count: u64,
) -> Result<Items<Message>, Fail> {
    let mut all = Items::empty(alloc);
    for place in 0..count {
        let body = Value::new(alloc, body)?;
        all.push(Message { srvid, place, body })?;
    }
    Ok(all)
}

// Does each stand at its place?
fn are_counted(messages: &[Message]) -> bool
    ensures { IsTrue result → AreCounted messages.now }
{
    for (place, message) in messages.iter().enumerate() {
        if message.place != place as u64 {
            return false;
        }
    }
    true
}

// What one node has for each of two.
fn row(
    alloc: Global,
    first: Items<Message>,
    second: Items<Message>,
) -> Result<Items<Items<Message>>, Fail>
    ensures { IfOk result (λ r. r ≡ first ∷ second ∷ []) }
{
    let mut row = Items::empty(alloc);
    row.push(first)?;
    row.push(second)?;
    Ok(row)
}

// What two nodes have for each other.
#[tactic(auto, using(crate::proofs::Sound::between_sound))]
pub fn between(
    alloc: Global,
    there: Items<Message>,
    back: Items<Message>,
) -> Result<Vec<Items<Items<Message>>>, Fail>
    ensures { IfOk result (λ v. AreScripts v.items) }
{
    if !are_counted(there.as_slice()) || !are_counted(back.as_slice()) {
        return Err(Fail::new("a message out of its place"));
    }
    if there.len() >= 1 << 61 || back.len() >= 1 << 61 {
        return Err(Fail::new("too many messages"));
    }
    let mut scripts = Vec::new(alloc);
    scripts.push(row(alloc, Items::empty(alloc), there)?)?;
    scripts.push(row(alloc, back, Items::empty(alloc))?)?;
    Ok(scripts)
}
