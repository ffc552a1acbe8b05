//! Whether a message is current.
ghost use Rattle.std.specs.Prelude.{◌≡◌, IfOk};
ghost use Rattle.std.specs.List.{list_all};
ghost use Rattle.ct_rules_node.specs.Admission.{is_current};
ghost use Rattle.ct_rules_node.specs.Node.{is_among, is_present_in};

use crate::named::named_in;
use ct_frame::frame::Frame;
use ct_node_state::node::Node;
use ct_node_state::phases;
use ct_values::memory::NoMemory;

/// Is the node present in this generation, serving in it or with it installed?
#[tactic(auto, unfolding(ct_rules_node::specs::Node::is_present_in))]
fn is_present_in(node: &Node, generation: u64) -> bool
    ensures { result ≡ is_present_in generation node.now }
{
    phases::is_present_in(node.member, generation)
}

/// Are all of these members of the node's generation?
fn are_members(node: &Node, nodes: &[u32]) -> bool
    ensures { result ≡ list_all (λ m. is_among m node.now.members) nodes.now }
{
    nodes.iter().all(|m| node.members.has(*m))
}

/// Is a message of the node's generation, of members, and does it name members alone?
#[tactic(auto, unfolding(ct_rules_node::specs::Admission::is_current))]
pub fn is_current(frame: &Frame, node: &Node) -> Result<bool, NoMemory>
    ensures { IfOk result (λ current. current ≡ is_current frame.now node.now) }
{
    if !is_present_in(node, frame.generation) || !node.members.has(frame.sender) {
        return Ok(false);
    }
    let named = named_in(node.alloc, &frame.msg)?;
    Ok(are_members(node, &named))
}
