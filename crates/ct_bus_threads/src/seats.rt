//! What each node has to do, before it serves.
ghost use Rattle.std.specs.Prelude.{◌≡◌, ◌<◌, ◌^◌, ℕ, [], length, map, IfOk, slice_get, Some};
ghost use Rattle.std.specs.List.{range_with_len};
ghost use Rattle.ct_bus_exchange.specs.Exchange.{script};
ghost use Rattle.ct_bus_threads.specs.Works.{HasTodos, left_of};

use crate::work::{Todo, Work};
use ct_bus::message::Message;
use ct_bus::seat::{ReceiveSeat, SendSeat};
use ct_bus_exchange::scripts::script_of;
use ct_values::items::Items;
use ct_values::memory::NoMemory;
use std::alloc::Global;

/// Copies of the messages.
fn copies(alloc: Global, messages: &[Message]) -> Result<Vec<Message>, NoMemory>
    ensures { IfOk result (λ v. v.items ≡ messages.now) }
{
    let mut all = Vec::with_capacity(alloc, messages.len())?;
    for message in messages {
        all.push(message.copy()?)?;
    }
    Ok(all)
}

/// A node is to post these to another one, and as many are to come. It makes the places for those that come.
fn todo(alloc: Global, messages: &[Message], wanted: usize) -> Result<Todo, NoMemory>
    ensures left { IfOk result (λ t. left_of t ≡ messages.now) }
    ensures wanted { IfOk result (λ t. t.wanted ≡ wanted) }
    ensures none { IfOk result (λ t. (t.came ≡ 0) × (t.got.items ≡ [])) }
{
    let script = copies(alloc, messages)?;
    let got = Vec::with_capacity(alloc, wanted)?;
    Ok(Todo {
        held: None,
        rest: script.into_iter(),
        wanted: wanted as u64,
        came: 0,
        got,
    })
}

/// What a node has to do with each.
fn todos(
    alloc: Global,
    scripts: &[Items<Items<Message>>],
    node: usize,
) -> Result<Vec<Todo>, NoMemory>
    ensures left { IfOk result (λ v. map left_of v.items ≡ map (λ k. script scripts.now node k) (range_with_len 0 (length scripts.now))) }
    ensures wanted { IfOk result (λ v. map (λ t. t.wanted) v.items ≡ map (λ k. length (script scripts.now k node)) (range_with_len 0 (length scripts.now))) }
    ensures came { IfOk result (λ v. map (λ t. t.came) v.items ≡ map (λ t. 0) v.items) }
    ensures got { IfOk result (λ v. map (λ t. t.got.items) v.items ≡ map (λ t. []) v.items) }
{
    let mut all = Vec::with_capacity(alloc, scripts.len())?;
    for other in 0..scripts.len() {
        let wanted = script_of(scripts, other, node).len();
        all.push(todo(alloc, script_of(scripts, node, other), wanted)?)?;
    }
    Ok(all)
}

/// The nodes, each with its seats and with what it has to do.
pub fn seated(
    alloc: Global,
    scripts: &[Items<Items<Message>>],
    senders: Vec<SendSeat>,
    receivers: Vec<ReceiveSeat>,
) -> Result<Vec<Work>, NoMemory>
    requires { (length senders.items ≡ length receivers.items) × (length senders.items < 2 ^ 32) }
    ensures sends { IfOk result (λ v. map (λ w. w.send) v.items ≡ senders.items) }
    ensures receives { IfOk result (λ v. map (λ w. w.receive) v.items ≡ receivers.items) }
    ensures todos { IfOk result (λ v. (node : ℕ) (w : _) → slice_get v.items node ≡ Some w → HasTodos scripts.now node w) }
{
    let mut works = Vec::new(alloc);
    let mut seats = receivers.into_iter();
    let mut node = 0u32;
    for send in senders {
        let Some(receive) = seats.next() else {
            unreachable!()
        };
        let all = todos(alloc, scripts, node as usize)?;
        works.push(Work {
            node,
            send,
            receive,
            all,
            lost: false,
            done: None,
        })?;
        node += 1;
    }
    Ok(works)
}
