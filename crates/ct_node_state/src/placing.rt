//! The addresses of a configuration, each with its node.
ghost use Rattle.std.specs.Prelude.{◌≡◌, IfOk};
ghost use Rattle.ct_values.specs.Address.{same_address};
ghost use Rattle.ct_rules_node.specs.Node.{assigned_all, holder_in};

use ct_frame::frame::Assigned;
use ct_values::address::Address;
use ct_values::items::Items;
use ct_values::memory::NoMemory;
use std::alloc::Global;

fn is_same(a: Address, b: Address) -> bool
    ensures { result ≡ same_address a b }
{
    a == b
}

/// The node that a list assigns an address to, if it does.
#[tactic(auto, unfolding(ct_rules_node::specs::Node::holder_in))]
pub fn holder_in(address: Address, assigned: &[Assigned]) -> Option<u32>
    ensures { result ≡ holder_in address assigned.now }
{
    for x in assigned {
        if is_same(address, x.address) {
            return x.node;
        }
    }
    None
}

/// Each of these addresses with the node that a list assigns it to, or with none.
#[tactic(auto, unfolding(ct_rules_node::specs::Node::assigned_all))]
pub fn assigned_all(
    alloc: Global,
    addresses: &[Address],
    assigned: &[Assigned],
) -> Result<Items<Assigned>, NoMemory>
    ensures { IfOk result (λ all. all ≡ assigned_all addresses.now assigned.now) }
{
    let mut all = Vec::with_capacity(alloc, addresses.len())?;
    for address in addresses {
        all.push(Assigned {
            address: *address,
            node: holder_in(*address, assigned),
        })?;
    }
    Ok(Items::new(all))
}
