//! The text of a placement.
ghost use Rattle.std.specs.Prelude.{◌≡◌, ◌≤◌, ◌++◌, ◌∷◌, [], if◌then◌else◌, not, length, IfOk, OnOk};
ghost use Rattle.std.specs.List.{flat_map, range_with_len};
ghost use Rattle.ct_values.specs.Words.{is_this_node};
ghost use Rattle.ct_lcp2.specs.Placing.{Ascend, held, placed};
ghost use Rattle.ct_lcp2_lines.specs.Placing.{is_disabled};
ghost use Rattle.ct_lcp2_lines.specs.Text.{able_of, address_line, imbalance_line, placement_text};
ghost use Rattle.ct_text.specs.Words.{node_text};

use crate::placing::is_disabled;
use ct_frame::frame::Assigned;
use ct_lcp2::distance::imbalance;
use ct_lcp2::placement::{Addresses, place};
use ct_spelling::number::push_decimal;
use ct_text::words::{push, push_number};
use ct_values::address::{Address, push_address};
use ct_values::items::Items;
use ct_values::memory::NoMemory;
use std::alloc::Global;

/// The node comes behind the able ones, where it is not disabled.
fn push_able(able: &mut Vec<u32>, disabled: &[u32], node: u32) -> Result<(), NoMemory>
    ensures { OnOk result (able.new.items ≡ able.old.items ++ (if not (is_disabled disabled.now node) then node ∷ [] else [])) }
{
    if !is_disabled(disabled, node) {
        able.push(node)?;
    }
    Ok(())
}

/// The nodes that are not disabled.
fn able_of(alloc: Global, nodes: u32, disabled: &[u32]) -> Result<Vec<u32>, NoMemory>
    ensures { IfOk result (λ v. v.items ≡ able_of nodes disabled.now) }
{
    let mut able = Vec::new(alloc);
    for node in 0..nodes {
        push_able(&mut able, disabled, node)?;
    }
    Ok(able)
}

fn copy_of(alloc: Global, at: &[Assigned]) -> Result<Vec<Assigned>, NoMemory>
    ensures { IfOk result (λ v. v.items ≡ at.now) }
{
    let mut copy = Vec::with_capacity(alloc, at.len())?;
    for x in at {
        copy.push(x.copy()?)?;
    }
    Ok(copy)
}

/// Is it this node?
#[tactic(auto, unfolding(ct_values::specs::Words::is_this_node))]
fn is_this_node(node: u32, at: Option<u32>) -> bool
    ensures { result ≡ is_this_node node at }
{
    match at {
        None => false,
        Some(n) => n == node,
    }
}

/// The addresses at a node.
#[tactic(auto, unfolding(ct_lcp2::specs::Placing::held))]
fn held(alloc: Global, node: u32, at: &[Assigned]) -> Result<Vec<Address>, NoMemory>
    ensures { IfOk result (λ v. v.items ≡ held node at.now) }
{
    let mut addresses = Vec::new(alloc);
    for x in at {
        if is_this_node(node, x.node) {
            addresses.push(x.address)?;
        }
    }
    Ok(addresses)
}

/// The node that holds an address.
fn push_node(text: &mut Vec<u8>, node: Option<u32>) -> Result<(), NoMemory>
    ensures { OnOk result (text.new.items ≡ text.old.items ++ node_text node) }
{
    match node {
        None => push(text, b"-1"),
        Some(n) => push_decimal(text, u64::from(n)),
    }
}

#[tactic(auto, unfolding(crate::specs::Text::address_line))]
fn push_address_line(text: &mut Vec<u8>, one: &Assigned) -> Result<(), NoMemory>
    ensures { OnOk result (text.new.items ≡ text.old.items ++ address_line one.now) }
{
    push_address(text, one.address)?;
    push(text, b" ")?;
    push_node(text, one.node)?;
    push(text, b"\n")
}

fn push_address_lines(text: &mut Vec<u8>, at: &[Assigned]) -> Result<(), NoMemory>
    ensures { OnOk result (text.new.items ≡ text.old.items ++ flat_map address_line at.now) }
{
    for one in at {
        push_address_line(text, one)?;
    }
    Ok(())
}

#[tactic(auto, unfolding(crate::specs::Text::imbalance_line), using(ct_lcp2::proofs::Standing::held_length))]
fn push_imbalance_line(
    alloc: Global,
    text: &mut Vec<u8>,
    at: &[Assigned],
    node: u32,
) -> Result<(), NoMemory>
    requires { length at.now ≤ 256 }
    ensures { OnOk result (text.new.items ≡ text.old.items ++ imbalance_line at.now node) }
{
    let addresses = held(alloc, node, at)?;
    push_number(text, b"imbalance ", u64::from(node))?;
    push_number(text, b" ", imbalance(&addresses))?;
    push(text, b"\n")
}

fn push_imbalance_lines(
    alloc: Global,
    text: &mut Vec<u8>,
    at: &[Assigned],
    nodes: u32,
) -> Result<(), NoMemory>
    requires { length at.now ≤ 256 }
    ensures { OnOk result (text.new.items ≡ text.old.items ++ flat_map (imbalance_line at.now) (range_with_len 0 nodes)) }
{
    for node in 0..nodes {
        push_imbalance_line(alloc, text, at, node)?;
    }
    Ok(())
}

/// The text of the placement over the nodes that are not disabled, of at most 256 addresses that ascend.
#[tactic(auto, using(crate::proofs::Nodes::as_many_placed))]
pub fn placement_text(
    alloc: Global,
    nodes: u32,
    disabled: &[u32],
    at: &[Assigned],
) -> Result<Vec<u8>, NoMemory>
    requires ascending { Ascend at.now }
    requires few { length at.now ≤ 256 }
    ensures { IfOk result (λ text. text.items ≡ placement_text nodes (placed (able_of nodes disabled.now) at.now)) }
{
    let able = able_of(alloc, nodes, disabled)?;
    let given = Addresses {
        nodes,
        able: Items::new(able),
        at: Items::new(copy_of(alloc, at)?),
    };
    let placement = place(alloc, &given)?;
    let mut text = Vec::new(alloc);
    push_address_lines(&mut text, placement.at.as_slice())?;
    push_imbalance_lines(alloc, &mut text, placement.at.as_slice(), nodes)?;
    Ok(text)
}
