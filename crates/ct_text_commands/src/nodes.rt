//! The texts that tell of nodes. Each is written at the end of a text.
ghost use Rattle.std.specs.Prelude.{◌≡◌, ◌++◌, codes, slice_get, OnOk};
ghost use Rattle.ct_text_commands.specs.Lists as lists;
ghost use Rattle.ct_rules_cluster.specs.Cluster.{is_true};
ghost use Rattle.ct_text.specs.Words.{node_text};
ghost use Rattle.ct_text_commands.specs.Status as status;

use crate::lines::push_number_line;
use ct_frame::frame::Assigned;
use ct_node_state::placing::holder_in;
use ct_spelling::number::push_decimal;
use ct_text::words::{push, push_number};
use ct_values::address::{Address, push_address};
use ct_values::config::Config;
use ct_values::memory::NoMemory;

/// The number of a node.
pub(crate) fn push_pnn(text: &mut Vec<u8>, node: u32) -> Result<(), NoMemory>
    ensures { OnOk result (text.new.items ≡ text.old.items ++ lists.pnn_text node) }
{
    push_number_line(text, b"PNN:", u64::from(node))
}

/// A line for a node.
fn push_node_line(text: &mut Vec<u8>, node: u32) -> Result<(), NoMemory>
    ensures { OnOk result (text.new.items ≡ text.old.items ++ lists.node_line node) }
{
    push_number_line(text, b"node ", u64::from(node))
}

/// Each node of the configuration.
#[tactic(auto, unfolding(crate::specs::Lists::nodes_text, ct_rules_cluster::specs::Cluster::everyone, ct_rules_cluster::specs::Cluster::numbers))]
pub(crate) fn push_nodes(text: &mut Vec<u8>, config: &Config) -> Result<(), NoMemory>
    ensures { OnOk result (text.new.items ≡ text.old.items ++ lists.nodes_text config.now) }
{
    for node in 0..config.nodes {
        push_node_line(text, node)?;
    }
    Ok(())
}

/// Is the mark of this node there and set?
#[tactic(auto, unfolding(ct_rules_cluster::specs::Cluster::is_true))]
fn is_marked(marks: &[bool], node: u32) -> bool
    ensures { result ≡ is_true (slice_get marks.now node) }
{
    match marks.get(node as usize) {
        Some(mark) => *mark,
        None => false,
    }
}

/// The state of a node.
#[tactic(auto, unfolding(crate::specs::Status::state_text))]
fn push_state(
    text: &mut Vec<u8>,
    running: &[bool],
    able: &[bool],
    node: u32,
) -> Result<(), NoMemory>
    ensures { OnOk result (text.new.items ≡ text.old.items ++ status.state_text running.now able.now node) }
{
    if !is_marked(running, node) {
        return push(text, b"DISCONNECTED");
    }
    if is_marked(able, node) {
        push(text, b"OK")
    } else {
        push(text, b"DISABLED")
    }
}

/// What stands behind the node that is asked.
fn push_own(text: &mut Vec<u8>, own: u32, node: u32) -> Result<(), NoMemory>
    ensures { OnOk result (text.new.items ≡ text.old.items ++ status.own_text own node) }
{
    if node == own {
        return push(text, b" (THIS NODE)");
    }
    Ok(())
}

/// A node with its state.
fn push_state_line(
    text: &mut Vec<u8>,
    own: u32,
    running: &[bool],
    able: &[bool],
    node: u32,
) -> Result<(), NoMemory>
    ensures { OnOk result (text.new.items ≡ text.old.items ++ status.state_line own running.now able.now node) }
{
    push_number(text, b"pnn:", u64::from(node))?;
    push(text, b" ")?;
    push_state(text, running, able, node)?;
    push_own(text, own, node)?;
    push(text, b"\n")
}

/// Each node of the configuration with its state.
#[tactic(auto, unfolding(crate::specs::Status::states_text, ct_rules_cluster::specs::Cluster::everyone, ct_rules_cluster::specs::Cluster::numbers))]
pub(crate) fn push_states(
    text: &mut Vec<u8>,
    config: &Config,
    own: u32,
    running: &[bool],
    able: &[bool],
) -> Result<(), NoMemory>
    ensures { OnOk result (text.new.items ≡ text.old.items ++ status.states_text config.now own running.now able.now) }
{
    for node in 0..config.nodes {
        push_state_line(text, own, running, able, node)?;
    }
    Ok(())
}

/// A location master by its place.
fn push_master(text: &mut Vec<u8>, place: u64, master: u32) -> Result<(), NoMemory>
    ensures { OnOk result (text.new.items ≡ text.old.items ++ status.master_line place master) }
{
    push_number(text, b"hash:", place)?;
    push_number_line(text, b" lmaster:", u64::from(master))
}

/// The location masters by their places.
fn push_masters(text: &mut Vec<u8>, members: &[u32]) -> Result<(), NoMemory>
    ensures { OnOk result (text.new.items ≡ text.old.items ++ status.master_lines 0 members.now) }
{
    for (place, member) in members.iter().enumerate() {
        push_master(text, place as u64, *member)?;
    }
    Ok(())
}

/// How many members there are.
fn push_size(text: &mut Vec<u8>, members: &[u32]) -> Result<(), NoMemory>
    ensures { OnOk result (text.new.items ≡ text.old.items ++ status.size_line members.now) }
{
    push_number_line(text, b"Size:", members.len() as u64)
}

/// A generation and its members.
#[tactic(auto, using(crate::proofs::Numbers::three_parts), unfolding(crate::specs::Status::current_text))]
fn push_current(text: &mut Vec<u8>, generation: u64, members: &[u32]) -> Result<(), NoMemory>
    ensures { OnOk result (text.new.items ≡ text.old.items ++ status.current_text generation members.now) }
{
    push_number_line(text, b"Generation:", generation)?;
    push_size(text, members)?;
    push_masters(text, members)
}

/// The generation, where there is one, and its members.
fn push_generation(text: &mut Vec<u8>, generation: u64, members: &[u32]) -> Result<(), NoMemory>
    ensures { OnOk result (text.new.items ≡ text.old.items ++ status.generation_text generation members.now) }
{
    if generation == 0 {
        return push(text, b"Generation:INVALID\nSize:0\n");
    }
    push_current(text, generation, members)
}

/// Does the node serve?
fn push_mode(text: &mut Vec<u8>, serves: bool) -> Result<(), NoMemory>
    ensures { OnOk result (text.new.items ≡ text.old.items ++ status.mode_text serves) }
{
    if serves {
        push(text, b"Recovery mode:NORMAL (0)\n")
    } else {
        push(text, b"Recovery mode:RECOVERY (1)\n")
    }
}

/// Who pushed what was installed last.
fn push_leader(text: &mut Vec<u8>, leader: Option<u32>) -> Result<(), NoMemory>
    ensures { OnOk result (text.new.items ≡ text.old.items ++ status.leader_text leader) }
{
    match leader {
        None => push(text, b"Leader:UNKNOWN\n"),
        Some(node) => push_number_line(text, b"Leader:", u64::from(node)),
    }
}

/// What a node tells of itself: its generation, whether it serves, and its leader.
#[tactic(auto, using(crate::proofs::Numbers::three_parts), unfolding(crate::specs::Status::told_text))]
pub(crate) fn push_told(
    text: &mut Vec<u8>,
    generation: u64,
    members: &[u32],
    serves: bool,
    leader: Option<u32>,
) -> Result<(), NoMemory>
    ensures { OnOk result (text.new.items ≡ text.old.items ++ status.told_text generation members.now serves leader) }
{
    push_generation(text, generation, members)?;
    push_mode(text, serves)?;
    push_leader(text, leader)
}

/// A node, and `-1` for none.
fn push_node(text: &mut Vec<u8>, node: Option<u32>) -> Result<(), NoMemory>
    ensures { OnOk result (text.new.items ≡ text.old.items ++ node_text node) }
{
    match node {
        None => push(text, b"-1"),
        Some(n) => push_decimal(text, u64::from(n)),
    }
}

/// An address and the node that it is known to be at.
fn push_place(text: &mut Vec<u8>, placement: &[Assigned], address: Address) -> Result<(), NoMemory>
    ensures { OnOk result (text.new.items ≡ text.old.items ++ lists.place_line placement.now address) }
{
    push_address(text, address)?;
    push(text, b" ")?;
    push_node(text, holder_in(address, placement))?;
    push(text, b"\n")
}

/// Each public address of the configuration, as a node knows where it is.
#[tactic(auto, unfolding(crate::specs::Lists::places_text))]
fn push_places(text: &mut Vec<u8>, config: &Config, placement: &[Assigned]) -> Result<(), NoMemory>
    ensures { OnOk result (text.new.items ≡ text.old.items ++ lists.places_text config.now placement.now) }
{
    for address in config.addresses.as_slice() {
        push_place(text, placement, *address)?;
    }
    Ok(())
}

/// The same behind a line that names the node.
#[tactic(auto, unfolding(crate::specs::Lists::ip_text))]
pub(crate) fn push_ip(
    text: &mut Vec<u8>,
    config: &Config,
    own: u32,
    placement: &[Assigned],
) -> Result<(), NoMemory>
    ensures { OnOk result (text.new.items ≡ text.old.items ++ lists.ip_text config.now own placement.now) }
{
    push_number_line(text, b"Public IPs on node ", u64::from(own))?;
    push_places(text, config, placement)
}
