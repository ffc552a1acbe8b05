//! Whether a message of a round or of a takeover run is sound. No call takes memory.
ghost use Rattle.std.specs.Prelude.{◌≡◌, map, nat_eq, nat_lt};
ghost use Rattle.std.specs.Cmp.Lexicographic.{pointwise};
ghost use Rattle.std.specs.List.{list_all, list_any};
ghost use Rattle.ct_values.specs.Address.{same_address};
ghost use Rattle.ct_rules_node.specs.Admission.{addresses_in, are_all, is_listed, is_sound, masters_in, members_in, named_in, nodes_in, persistent_from, ptables_in, table_in};
ghost use Rattle.ct_rules_node.specs.Node.{has_records, kind_at};

use crate::named::{members_in, ptables_in, table_in};
use ct_frame::frame::{Assigned, Frame, Msg, PTable, TableRow};
use ct_lead::runs::is_among;
use ct_node_state::kinds::{has_records, is_persistent, kind_at};
use ct_values::address::Address;
use ct_values::config::{Config, DbDecl};

/// Are all of these nodes of the cluster?
fn are_nodes(config: &Config, nodes: &[u32]) -> bool
    ensures { result ≡ list_all (λ n. nat_lt n config.now.nodes) nodes.now }
{
    nodes.iter().all(|n| *n < config.nodes)
}

/// Are the data masters of these rows nodes of the cluster?
#[tactic(auto, unfolding(ct_rules_node::specs::Admission::masters_in, ct_rules_node::specs::Admission::some_of))]
fn have_masters(config: &Config, table: &[TableRow]) -> bool
    ensures { result ≡ list_all (λ n. nat_lt n config.now.nodes) (masters_in table.now) }
{
    for row in table {
        if let Some(node) = row.master {
            if node >= config.nodes {
                return false;
            }
        }
    }
    true
}

/// Are these addresses assigned to nodes of the cluster?
#[tactic(auto, unfolding(ct_rules_node::specs::Admission::nodes_in, ct_rules_node::specs::Admission::some_of))]
fn are_at_nodes(config: &Config, assigned: &[Assigned]) -> bool
    ensures { result ≡ list_all (λ n. nat_lt n config.now.nodes) (nodes_in assigned.now) }
{
    for x in assigned {
        if let Some(node) = x.node {
            if node >= config.nodes {
                return false;
            }
        }
    }
    true
}

/// Are all nodes that the message names nodes of the cluster?
#[tactic(auto, using(crate::proofs::Joined::all_joined), unfolding(ct_rules_node::specs::Admission::named_in))]
fn names_nodes(config: &Config, msg: &Msg) -> bool
    ensures { result ≡ list_all (λ n. nat_lt n config.now.nodes) (named_in msg.now) }
{
    match msg {
        Msg::Recall { node, .. } | Msg::Done { node, .. } => *node < config.nodes,
        Msg::Freeze { members } => are_nodes(config, members.as_slice()),
        Msg::PullReply { table, .. } => have_masters(config, table.as_slice()),
        Msg::Push {
            members,
            table,
            assigned,
            ..
        } => {
            are_nodes(config, members.as_slice())
                && have_masters(config, table.as_slice())
                && are_at_nodes(config, assigned.as_slice())
        }
        Msg::Take { assigned, .. } => are_at_nodes(config, assigned.as_slice()),
        _ => true,
    }
}

/// Are the sender and the receiver among the members, where the message lists any?
#[tactic(auto, unfolding(ct_rules_node::specs::Admission::is_listed))]
fn is_listed(frame: &Frame) -> bool
    ensures { result ≡ is_listed frame.now (members_in frame.now.msg) }
{
    match members_in(&frame.msg) {
        Some(members) => is_among(frame.sender, members) && is_among(frame.receiver, members),
        None => true,
    }
}

/// Are all rows of volatile or read-only databases?
fn have_records(config: &Config, table: &[TableRow]) -> bool
    ensures { result ≡ list_all (λ row. has_records (kind_at config.now row.db)) table.now }
{
    table.iter().all(|row| has_records(kind_at(config, row.db)))
}

/// Are these exactly the persistent ones of these databases?
#[tactic(auto, unfolding(ct_rules_node::specs::Admission::persistent_from))]
fn are_persistent(decls: &[DbDecl], ptables: &[PTable]) -> bool
    ensures { result ≡ pointwise nat_eq (map (λ x. x.db) ptables.now) (persistent_from 0 decls.now) }
{
    let mut at = 0;
    for db in 0..decls.len() {
        if is_persistent(Some(decls[db].kind)) {
            if at >= ptables.len() || ptables[at].db as usize != db {
                return false;
            }
            at += 1;
        }
    }
    at == ptables.len()
}

/// Are these exactly the persistent databases, where the message has any?
#[tactic(auto, unfolding(ct_rules_node::specs::Admission::are_all))]
fn are_all(config: &Config, msg: &Msg) -> bool
    ensures { result ≡ are_all config.now (ptables_in msg.now) }
{
    match ptables_in(msg) {
        Some(ptables) => are_persistent(config.dbs.as_slice(), ptables),
        None => true,
    }
}

fn is_same(a: Address, b: Address) -> bool
    ensures { result ≡ same_address a b }
{
    a == b
}

/// Is the address one of the configuration?
fn is_address(config: &Config, address: Address) -> bool
    ensures { result ≡ list_any (same_address address) config.now.addresses }
{
    config
        .addresses
        .as_slice()
        .iter()
        .any(|a| is_same(address, *a))
}

/// Are all of these addresses of the configuration?
fn are_addresses(config: &Config, addresses: &[Address]) -> bool
    ensures { result ≡ list_all (λ a. list_any (same_address a) config.now.addresses) addresses.now }
{
    addresses.iter().all(|a| is_address(config, *a))
}

/// Is each that is assigned here an address of the configuration?
fn assigns_known(config: &Config, assigned: &[Assigned]) -> bool
    ensures { result ≡ list_all (λ x. list_any (same_address x.address) config.now.addresses) assigned.now }
{
    assigned.iter().all(|x| is_address(config, x.address))
}

/// Are all that are assigned here addresses of the configuration?
#[tactic(auto, using(crate::proofs::Joined::all_mapped))]
fn assign_addresses(config: &Config, assigned: &[Assigned]) -> bool
    ensures { result ≡ list_all (λ a. list_any (same_address a) config.now.addresses) (map (λ x. x.address) assigned.now) }
{
    assigns_known(config, assigned)
}

/// Are all addresses that the message names addresses of the configuration?
#[tactic(auto, unfolding(ct_rules_node::specs::Admission::addresses_in))]
fn names_addresses(config: &Config, msg: &Msg) -> bool
    ensures { result ≡ list_all (λ a. list_any (same_address a) config.now.addresses) (addresses_in msg.now) }
{
    match msg {
        Msg::PullReply { addresses, .. } => are_addresses(config, addresses.as_slice()),
        Msg::Push { assigned, .. } => assign_addresses(config, assigned.as_slice()),
        Msg::Take { assigned, .. } => assign_addresses(config, assigned.as_slice()),
        Msg::Release { keep, .. } => are_addresses(config, keep.as_slice()),
        _ => true,
    }
}

/// Is a message of a round or a run sound: do its lists name nodes, databases and addresses of the cluster?
#[tactic(auto, unfolding(ct_rules_node::specs::Admission::is_sound))]
pub fn is_sound(config: &Config, frame: &Frame) -> bool
    ensures { result ≡ is_sound config.now frame.now }
{
    frame.sender < config.nodes
        && names_nodes(config, &frame.msg)
        && is_listed(frame)
        && have_records(config, table_in(&frame.msg))
        && are_all(config, &frame.msg)
        && names_addresses(config, &frame.msg)
}
