//! What lines say of nodes and addresses, and the placement over it.
ghost use Rattle.std.specs.Prelude.{◌≡◌, ◌≤◌, ◌∷◌, ◌++◌, drop, length, take, None, IfOk, OnErr, OnOk};
ghost use Rattle.ct_lcp2_lines.specs.Placing.{TakesLine, first_reason, is_beyond, is_disabled, is_held_beyond, is_there, nothing_given, refusal, said_refusal, with_address, with_line, with_said};
ghost use Rattle.ct_lcp2_lines.specs.Text.{text_of};

use crate::line::{GivenLine, read_line};
use crate::text::placement_text;
use ct_frame::frame::Assigned;
use ct_frame::order::Ranked;
use ct_lines::line::{LineKind, LineKindFault, WordFault};
use ct_values::address::Address;
use ct_values::memory::NoMemory;
use std::alloc::Global;
use std::marker::Model;

/// What the lines so far say of nodes and addresses.
#[derive(Debug, Drop)]
pub struct Placing {
    nodes: Option<u32>,
    disabled: Vec<u32>,
    at: Vec<Assigned>,
}

impl Model for Placing {
    ghost use Rattle.ct_lcp2_lines.specs.Placing as placing;

    ghost Value = { placing.Given };

    ghost view = { λ p. record { nodes = p.nodes; disabled = p.disabled.items; at = p.at.items } };

    ghost invariant = { λ p. placing.InForm (record { nodes = p.nodes; disabled = p.disabled.items; at = p.at.items }) };
}

/// The first of these reasons that holds.
fn first_reason(words: bool, order: bool, repeat: bool, limit: bool) -> Option<LineKind>
    ensures { result ≡ first_reason words order repeat limit }
{
    if words {
        Some(LineKind::Words)
    } else if order {
        Some(LineKind::Order)
    } else if repeat {
        Some(LineKind::Repeat)
    } else if limit {
        Some(LineKind::Limit)
    } else {
        None
    }
}

/// Is the node none of those that a line says there are?
fn is_beyond(nodes: Option<u32>, node: u32) -> bool
    ensures { result ≡ is_beyond nodes node }
{
    match nodes {
        None => false,
        Some(nodes) => nodes <= node,
    }
}

/// The same of a node, where one is named.
fn is_held_beyond(nodes: Option<u32>, node: Option<u32>) -> bool
    ensures { result ≡ is_held_beyond nodes node }
{
    match node {
        None => false,
        Some(node) => is_beyond(nodes, node),
    }
}

/// Is the node disabled?
pub fn is_disabled(disabled: &[u32], node: u32) -> bool
    ensures { result ≡ is_disabled disabled.now node }
{
    disabled.iter().any(|n| node == *n)
}

fn is_there(address: Address, at: &[Assigned]) -> bool
    ensures { result ≡ is_there address at.now }
{
    at.iter().any(|x| address == x.address)
}

/// How many of these come before the address.
#[tactic(auto, unfolding(crate::specs::Placing::with_address))]
fn place_of(one: &Assigned, at: &[Assigned]) -> usize
    ensures within { result ≤ length at.now }
    ensures place { take result at.now ++ one.now ∷ drop result at.now ≡ with_address one.now at.now }
{
    let mut place = 0;
    while place < at.len() {
        if one.comes_before(&at[place]) {
            return place;
        }
        place += 1;
    }
    place
}

/// Puts the address at its place. Without memory nothing changes.
fn put(at: &mut Vec<Assigned>, one: Assigned) -> Result<(), NoMemory>
    ensures ok { OnOk result (at.new.items ≡ with_address one at.old.items) }
    ensures err { OnErr result (at.new.items ≡ at.old.items) }
{
    let place = place_of(&one, at);
    at.insert(place, one)?;
    Ok(())
}

impl Placing {
    /// Before the first line. It takes no memory.
    pub fn new(alloc: Global) -> Placing
        ensures { result ≡ nothing_given }
    {
        Placing {
            nodes: None,
            disabled: Vec::new(alloc),
            at: Vec::new(alloc),
        }
    }

    /// Why what a line says is refused, if it is.
    fn refusal(&self, said: &GivenLine) -> Option<LineKind>
        ensures { result ≡ said_refusal said.now self.now }
    {
        match said {
            GivenLine::Nodes(_) => first_reason(false, self.nodes.is_some(), false, false),
            GivenLine::Disabled(node) => first_reason(
                is_beyond(self.nodes, *node),
                self.nodes.is_none() || !self.at.is_empty(),
                is_disabled(&self.disabled, *node),
                false,
            ),
            GivenLine::Address(one) => first_reason(
                is_held_beyond(self.nodes, one.node),
                self.nodes.is_none(),
                is_there(one.address, &self.at),
                self.at.len() >= 256,
            ),
        }
    }

    /// Adds what a line says that is not refused. Without memory nothing changes.
    #[tactic(auto, using(crate::proofs::Given::stays_in_form))]
    fn add(&mut self, said: GivenLine) -> Result<(), NoMemory>
        requires { said_refusal said self.old ≡ None }
        ensures ok { OnOk result (self.new ≡ with_said said self.old) }
        ensures err { OnErr result (self.new ≡ self.old) }
    {
        match said {
            GivenLine::Nodes(nodes) => self.nodes = Some(nodes),
            GivenLine::Disabled(node) => self.disabled.push(node)?,
            GivenLine::Address(one) => put(&mut self.at, one)?,
        }
        Ok(())
    }

    fn accept(&mut self, said: GivenLine) -> Result<(), LineKindFault>
        ensures { TakesLine result (said_refusal said self.old) (with_said said self.old) self.old self.new }
    {
        if let Some(kind) = self.refusal(&said) {
            return Err(LineKindFault::Kind(kind));
        }
        match self.add(said) {
            Ok(()) => Ok(()),
            Err(NoMemory) => Err(LineKindFault::NoMemory),
        }
    }

    /// Takes the line after those before it, without its line feed, or says why not: it has more than 65,535 bytes, it has
    /// no form of a line or names a node that there is not, it is out of its order, it names what was named already, or
    /// there are as many addresses as there may be. A refusal changes nothing, and so does want of memory.
    pub fn line(&mut self, line: &[u8]) -> Result<(), LineKindFault>
        ensures { TakesLine result (refusal line.now self.old) (with_line line.now self.old) self.old self.new }
    {
        if line.len() > 65535 {
            return Err(LineKindFault::Kind(LineKind::Long));
        }
        match read_line(*self.at.allocator(), line) {
            Ok(said) => self.accept(said),
            Err(WordFault::NoForm) => Err(LineKindFault::Kind(LineKind::Words)),
            Err(WordFault::NoMemory) => Err(LineKindFault::NoMemory),
        }
    }
    /// The text of the placement over the nodes that are not disabled: where each address stands, and the imbalance of
    /// each node. It is empty before the first line.
    #[tactic(auto, unfolding(crate::specs::Text::text_of))]
    pub fn text(&self) -> Result<Vec<u8>, NoMemory>
        ensures { IfOk result (λ text. text.items ≡ text_of self.now) }
    {
        let alloc = *self.at.allocator();
        match self.nodes {
            None => Ok(Vec::new(alloc)),
            Some(nodes) => placement_text(alloc, nodes, &self.disabled, &self.at),
        }
    }
}
