//! The program's words, and what they ask for.
ghost use Rattle.std.specs.Prelude.{◌≡◌, IfOk, IfSome, map, string_bytes};
ghost use Rattle.clap.specs.Words.{found_of, rows_of, subcommand_rows_of};
ghost use Rattle.ct_spelling.specs.Number.{number_of};
ghost use Rattle.ct_words.specs.Matched.{bus_numbers_in, chain_numbers_in, matched, numbers_in, soak_in};
ghost use Rattle.ct_words.specs.Reading.{HasBusRange, HasChainRange, HasRange, IsRanged, Reads, bus_numbers_of, chain_numbers_of, numbers_of, reading, soak_of};

use crate::command::program;
use clap::ArgMatches;
use clap::error::ErrorKind;
use ct_spelling::number::parse_decimal;
use ct_values::memory::NoMemory;
use std::alloc::{AllocError, Global};
use thiserror::Error;

/// The numbers of a plan: so many nodes, 1 to 8, with so many words of a generator each, 1 to 1,000, which the seed starts.
#[derive(Clone, Copy, Debug, PartialEq, Eq)]
pub struct PlanNumbers {
    pub nodes: u32,
    pub calls: u32,
    pub seed: u64,
}

/// The numbers of a plan that is cut: so many nodes, 1 to 8, so many chains, 1 to 8, and so many words of a generator for each node,
/// 1 to 1,000, which the seed starts.
#[derive(Clone, Copy, Debug, PartialEq, Eq)]
pub struct ChainNumbers {
    pub nodes: u32,
    pub chains: u32,
    pub calls: u32,
    pub seed: u64,
}

/// The numbers of a bus: so many nodes, 2 to 8, and so many messages, 1 to 1,000, which a generator makes from the seed.
#[derive(Clone, Copy, Debug, PartialEq, Eq)]
pub struct BusNumbers {
    pub nodes: u32,
    pub messages: u32,
    pub seed: u64,
}

/// What the program is to do.
#[derive(Clone, Copy, Debug, PartialEq, Eq)]
pub enum Word {
    /// Plays the scenario that is read.
    Play,
    /// Places the addresses that are read.
    Lcp2,
    /// Plays so many steps that a generator makes from the seed.
    Soak { seed: u64, steps: u32 },
    /// Plays the plan of these numbers, and joins the journals of its nodes.
    Cluster(PlanNumbers),
    /// The same, with nodes that talk over sockets.
    Loopback(PlanNumbers),
    /// Cuts the plan of these numbers into chains, and plays each column by itself.
    Chains(ChainNumbers),
    /// Has nodes exchange messages over a bus, by these numbers.
    Bus(BusNumbers),
}

/// Why words are not read.
#[derive(Clone, Copy, Debug, PartialEq, Eq, Error)]
pub enum WordsFault {
    /// The words have no reading.
    #[error("usage")]
    Usage,
    #[error("want of memory")]
    NoMemory,
}

impl From<AllocError> for WordsFault {
    ghost use Rattle.std.specs.Prelude.{◌≡◌};
    ghost use Rattle.ct_words.specs.declared.words.WordsFault.TheVariants.{NoMemory as Want};

    ghost from_gives = { λ _ e. e ≡ Want };

    fn from(_e: AllocError) -> WordsFault {
        WordsFault::NoMemory
    }
}

/// A soak from the texts of its numbers.
fn soak_word(seed: &str, steps: &str) -> Option<Word>
    ensures { result ≡ soak_of (number_of seed.now) (number_of steps.now) }
{
    let seed = parse_decimal(seed.as_bytes())?;
    let steps = parse_decimal(steps.as_bytes())?;
    if steps < 1 || steps > 100_000 {
        return None;
    }
    Some(Word::Soak {
        seed,
        steps: steps as u32,
    })
}

/// A soak, by what was found after its name.
#[tactic(auto, using(crate::proofs::Found::text_found))]
fn soak_found(given: &ArgMatches) -> Option<Word>
    ensures { result ≡ soak_in (rows_of (found_of given.now)) }
{
    soak_word(given.get_str("seed")?, given.get_str("steps")?)
}

/// The numbers of a plan from their texts.
fn plan_numbers(nodes: &str, calls: &str, seed: &str) -> Option<PlanNumbers>
    ensures exact { result ≡ numbers_of (number_of nodes.now) (number_of calls.now) (number_of seed.now) }
    ensures range { IfSome result HasRange }
{
    let nodes = parse_decimal(nodes.as_bytes())?;
    let calls = parse_decimal(calls.as_bytes())?;
    let seed = parse_decimal(seed.as_bytes())?;
    if nodes < 1 || nodes > 8 {
        return None;
    }
    if calls < 1 || calls > 1_000 {
        return None;
    }
    Some(PlanNumbers {
        nodes: nodes as u32,
        calls: calls as u32,
        seed,
    })
}

/// The numbers of a plan, by what was found after the command's name.
#[tactic(auto, using(crate::proofs::Found::text_found))]
fn numbers_found(given: &ArgMatches) -> Option<PlanNumbers>
    ensures exact { result ≡ numbers_in (rows_of (found_of given.now)) }
    ensures range { IfSome result HasRange }
{
    plan_numbers(
        given.get_str("nodes")?,
        given.get_str("calls")?,
        given.get_str("seed")?,
    )
}

/// The numbers of a plan that is cut, from their texts.
fn chain_numbers(nodes: &str, chains: &str, calls: &str, seed: &str) -> Option<ChainNumbers>
    ensures exact { result ≡ chain_numbers_of (number_of nodes.now) (number_of chains.now) (number_of calls.now) (number_of seed.now) }
    ensures range { IfSome result HasChainRange }
{
    let nodes = parse_decimal(nodes.as_bytes())?;
    let chains = parse_decimal(chains.as_bytes())?;
    let calls = parse_decimal(calls.as_bytes())?;
    let seed = parse_decimal(seed.as_bytes())?;
    if nodes < 1 || nodes > 8 {
        return None;
    }
    if chains < 1 || chains > 8 {
        return None;
    }
    if calls < 1 || calls > 1_000 {
        return None;
    }
    Some(ChainNumbers {
        nodes: nodes as u32,
        chains: chains as u32,
        calls: calls as u32,
        seed,
    })
}

/// The numbers of a plan that is cut, by what was found after the command's name.
#[tactic(auto, using(crate::proofs::Found::text_found))]
fn chain_numbers_found(given: &ArgMatches) -> Option<ChainNumbers>
    ensures exact { result ≡ chain_numbers_in (rows_of (found_of given.now)) }
    ensures range { IfSome result HasChainRange }
{
    chain_numbers(
        given.get_str("nodes")?,
        given.get_str("chains")?,
        given.get_str("calls")?,
        given.get_str("seed")?,
    )
}

/// The numbers of a bus from their texts.
fn bus_numbers(nodes: &str, messages: &str, seed: &str) -> Option<BusNumbers>
    ensures exact { result ≡ bus_numbers_of (number_of nodes.now) (number_of messages.now) (number_of seed.now) }
    ensures range { IfSome result HasBusRange }
{
    let nodes = parse_decimal(nodes.as_bytes())?;
    let messages = parse_decimal(messages.as_bytes())?;
    let seed = parse_decimal(seed.as_bytes())?;
    if nodes < 2 || nodes > 8 {
        return None;
    }
    if messages < 1 || messages > 1_000 {
        return None;
    }
    Some(BusNumbers {
        nodes: nodes as u32,
        messages: messages as u32,
        seed,
    })
}

/// The numbers of a bus, by what was found after the command's name.
#[tactic(auto, using(crate::proofs::Found::text_found))]
fn bus_numbers_found(given: &ArgMatches) -> Option<BusNumbers>
    ensures exact { result ≡ bus_numbers_in (rows_of (found_of given.now)) }
    ensures range { IfSome result HasBusRange }
{
    bus_numbers(
        given.get_str("nodes")?,
        given.get_str("messages")?,
        given.get_str("seed")?,
    )
}

/// What is asked for where the words match.
fn word_of(matches: &ArgMatches) -> Option<Word>
    ensures exact { result ≡ matched (subcommand_rows_of matches.now) }
    ensures ranged { IfSome result IsRanged }
{
    let (name, given) = matches.subcommand()?;
    match name {
        "play" => Some(Word::Play),
        "lcp2" => Some(Word::Lcp2),
        "soak" => soak_found(given),
        "cluster" => Some(Word::Cluster(numbers_found(given)?)),
        "loopback" => Some(Word::Loopback(numbers_found(given)?)),
        "chains" => Some(Word::Chains(chain_numbers_found(given)?)),
        "bus" => Some(Word::Bus(bus_numbers_found(given)?)),
        _ => None,
    }
}

/// Reads the words after the program's name. `Usage` comes exactly where they have no reading, and all numbers that are answered
/// are in their range.
pub fn read_words(alloc: Global, words: &[String]) -> Result<Word, WordsFault>
    ensures reads { Reads result (reading (map string_bytes words.now)) }
    ensures ranged { IfOk result IsRanged }
{
    match program(alloc)?.try_get_matches_from(words) {
        Ok(matches) => word_of(&matches).ok_or(WordsFault::Usage),
        Err(error) => match error.kind() {
            ErrorKind::OutOfMemory => Err(WordsFault::NoMemory),
            _ => Err(WordsFault::Usage),
        },
    }
}
