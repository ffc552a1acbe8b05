//! What the nodes have for each other, by the words of their generators.
ghost use Rattle.std.specs.Prelude.{◌≡◌, ◌≤◌, ◌<◌, ◌+◌, ◌^◌, ◌++◌, [], length, map, IfOk};
ghost use Rattle.std.specs.List.{range_with_len};
ghost use Rattle.ct_bus_exchange.specs.Exchange.{AreScripts};
ghost use Rattle.ct_bus_run.specs.Generated.{after, generated, generated_by, generated_row, generated_to, message_of, messages_from, other_place, rounds, word_at};
ghost use Rattle.ct_bus_run.specs.Numbers.{HasExchangeRange};
ghost use Rattle.ct_script.specs.Scripts.{drawn, generator_of};

use ct_bus::message::Message;
use ct_spelling::number::push_decimal;
use ct_values::items::Items;
use ct_values::memory::NoMemory;
use ct_values::value::Value;
use rand_core::utils::NextWord;
use rand_pcg::Lcg64Xsh32;
use std::alloc::Global;

/// What is to be exchanged: 2 to 8 nodes, each of which has so many messages, 1 to 1,000, for each other, by the words of
/// generators that the seed starts.
#[derive(Clone, Copy, Debug, PartialEq, Eq)]
pub struct BusWanted {
    pub nodes: u32,
    pub messages: u32,
    pub seed: u64,
}

/// So many words of a generator.
#[tactic(auto, using(ct_script::proofs::Making::draws_first))]
fn draw(alloc: Global, generator: &mut Lcg64Xsh32, count: u32) -> Result<Vec<u32>, NoMemory>
    ensures words { IfOk result (λ v. v.items ≡ drawn count generator.old) }
    ensures after { IfOk result (λ v. generator.new ≡ after count generator.old) }
{
    let mut words = Vec::new(alloc);
    for i in 0..count {
        words.push(generator.next_word())?;
    }
    Ok(words)
}

/// For each message a word for each other node.
#[tactic(auto, using(crate::proofs::Making::rounds_first), unfolding(ct_script::specs::Scripts::generator_of))]
fn rounds(
    alloc: Global,
    seed: u64,
    sender: u32,
    others: u32,
    messages: u32,
) -> Result<Vec<Items<u32>>, NoMemory>
    ensures { IfOk result (λ v. v.items ≡ rounds messages others (generator_of seed sender)) }
{
    let mut generator = Lcg64Xsh32::new(seed, u64::from(sender) + 1);
    let mut all = Vec::new(alloc);
    for i in 0..messages {
        let words = draw(alloc, &mut generator, others)?;
        all.push(Items::new(words))?;
    }
    Ok(all)
}

/// The message that a word makes.
#[tactic(auto, using(ct_script::proofs::Making::short))]
fn message_of(alloc: Global, place: u64, word: u32) -> Result<Message, NoMemory>
    ensures { IfOk result (λ m. m ≡ message_of place word) }
{
    let mut text = Vec::new(alloc);
    push_decimal(&mut text, u64::from(word / 4 % 1000))?;
    let Some(body) = Value::from_vec(text)? else {
        unreachable!()
    };
    Ok(Message {
        srvid: u64::from(word % 4),
        place,
        body,
    })
}

/// The word of a round for one of the others.
fn word_at(round: &Items<u32>, other: usize) -> u32
    ensures { result ≡ word_at other round.now }
{
    match round.as_slice().get(other) {
        Some(word) => *word,
        None => 0,
    }
}

/// The messages to one of the others.
fn messages_to(alloc: Global, all: &[Items<u32>], other: usize) -> Result<Items<Message>, NoMemory>
    requires { length all.now < 2 ^ 61 }
    ensures { IfOk result (λ v. v ≡ messages_from 0 (map (word_at other) all.now)) }
{
    let mut messages = Items::empty(alloc);
    let mut place = 0u64;
    for round in all {
        messages.push(message_of(alloc, place, word_at(round, other))?)?;
        place += 1;
    }
    Ok(messages)
}

/// What one node has for another one; nothing for itself.
fn generated_to(
    alloc: Global,
    all: &[Items<u32>],
    sender: u32,
    receiver: u32,
) -> Result<Items<Message>, NoMemory>
    requires { length all.now < 2 ^ 61 }
    ensures { IfOk result (λ v. v ≡ generated_to all.now sender receiver) }
{
    if receiver == sender {
        return Ok(Items::empty(alloc));
    }
    let other = if receiver < sender {
        receiver
    } else {
        receiver - 1
    };
    messages_to(alloc, all, other as usize)
}

/// What one node has for each.
fn generated_row(
    alloc: Global,
    wanted: &BusWanted,
    sender: u32,
) -> Result<Items<Items<Message>>, NoMemory>
    requires { HasExchangeRange wanted.now }
    ensures { IfOk result (λ v. v ≡ generated_row wanted.now sender) }
{
    let all = rounds(
        alloc,
        wanted.seed,
        sender,
        wanted.nodes - 1,
        wanted.messages,
    )?;
    let mut row = Items::empty(alloc);
    for receiver in 0..wanted.nodes {
        row.push(generated_to(alloc, all.as_slice(), sender, receiver)?)?;
    }
    Ok(row)
}

/// What each node has for each, by sender and then receiver.
pub fn generated(alloc: Global, wanted: &BusWanted) -> Result<Vec<Items<Items<Message>>>, NoMemory>
    requires { HasExchangeRange wanted.now }
    ensures exact { IfOk result (λ v. v.items ≡ generated wanted.now) }
    ensures sound { IfOk result (λ v. AreScripts v.items) }
{
    let mut all = Vec::new(alloc);
    for sender in 0..wanted.nodes {
        all.push(generated_row(alloc, wanted, sender)?)?;
    }
    Ok(all)
}
