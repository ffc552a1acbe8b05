//! The rules that the fields of a frame keep.
//!
//! A generation is from 1, and so are the number of a request or of a takeover run, and the sequence number of a
//! commit. These, and every other sequence number, RSN and generation that a message names, are below 2^62. Nodes and
//! databases are numbered from 0 to 15. A list of nodes has 1 to 16 of them, and a commit 1 to 16 writes. Nodes,
//! addresses, rows by database and key, persistent databases by place and their pairs by key ascend, none twice. A
//! pair of a persistent database has a value that is not empty, and an assigned address has a node. A row that a
//! member tells the leader of has this member as data master or none, and a row that the leader hands out one of the
//! members.
ghost use Rattle.std.specs.Prelude.{◌≡◌};
ghost use Rattle.ct_frame.specs.Fields.{is_below_limit, is_from_one, is_node, is_db, is_one_to_sixteen, are_nodes, are_addresses, is_own_or_none, is_member, is_row, are_rows, is_kept, is_ptable, are_ptables, is_assigned, are_assigned, is_message, well_formed};
ghost use Rattle.std.specs.List.{list_all};

use ct_frame::frame::{Assigned, Frame, Msg, PTable, TableRow};
use ct_frame::header::LIMIT;
use ct_frame::order::ascends;
use ct_values::address::Address;
use ct_values::client::Pair;
use ct_values::nodes::is_among;

fn is_below_limit(number: u64) -> bool
    ensures { result ≡ is_below_limit number }
{
    number < LIMIT
}

fn is_from_one(number: u64) -> bool
    ensures { result ≡ is_from_one number }
{
    0 < number && number < LIMIT
}

fn is_node(number: u32) -> bool
    ensures { result ≡ is_node number }
{
    number < 16
}

fn is_db(number: u32) -> bool
    ensures { result ≡ is_db number }
{
    number < 16
}

fn is_one_to_sixteen<T>(items: &[T]) -> bool
    ensures { result ≡ is_one_to_sixteen items.now }
{
    0 < items.len() && items.len() < 17
}

fn each_is_node(nodes: &[u32]) -> bool
    ensures { result ≡ list_all is_node nodes.now }
{
    nodes.iter().all(|node| is_node(*node))
}

fn are_nodes(nodes: &[u32]) -> bool
    ensures { result ≡ are_nodes nodes.now }
{
    is_one_to_sixteen(nodes) && each_is_node(nodes) && ascends(nodes)
}

fn are_addresses(addresses: &[Address]) -> bool
    ensures { result ≡ are_addresses addresses.now }
{
    ascends(addresses)
}

fn is_own_or_none(sender: u32, master: Option<u32>) -> bool
    ensures { result ≡ is_own_or_none sender master }
{
    match master {
        None => true,
        Some(node) => node == sender,
    }
}

fn is_member(members: &[u32], master: Option<u32>) -> bool
    ensures { result ≡ is_member members.now master }
{
    match master {
        None => false,
        Some(node) => is_among(members, node),
    }
}

fn is_own_row(sender: u32, row: &TableRow) -> bool
    ensures { result ≡ is_row (is_own_or_none sender) row.now }
{
    is_db(row.db) && is_below_limit(row.rsn) && is_own_or_none(sender, row.master)
}

fn is_members_row(members: &[u32], row: &TableRow) -> bool
    ensures { result ≡ is_row (is_member members.now) row.now }
{
    is_db(row.db) && is_below_limit(row.rsn) && is_member(members, row.master)
}

fn each_is_own_row(sender: u32, table: &[TableRow]) -> bool
    ensures { result ≡ list_all (is_row (is_own_or_none sender)) table.now }
{
    table.iter().all(|row| is_own_row(sender, row))
}

fn are_own_rows(sender: u32, table: &[TableRow]) -> bool
    ensures { result ≡ are_rows (is_own_or_none sender) table.now }
{
    each_is_own_row(sender, table) && ascends(table)
}

fn each_is_members_row(members: &[u32], table: &[TableRow]) -> bool
    ensures { result ≡ list_all (is_row (is_member members.now)) table.now }
{
    table.iter().all(|row| is_members_row(members, row))
}

fn are_members_rows(members: &[u32], table: &[TableRow]) -> bool
    ensures { result ≡ are_rows (is_member members.now) table.now }
{
    each_is_members_row(members, table) && ascends(table)
}

fn is_kept(pair: &Pair) -> bool
    ensures { result ≡ is_kept pair.now }
{
    0 < pair.value.bytes().len()
}

fn each_is_kept(pairs: &[Pair]) -> bool
    ensures { result ≡ list_all is_kept pairs.now }
{
    pairs.iter().all(|pair| is_kept(pair))
}

fn is_ptable(ptable: &PTable) -> bool
    ensures { result ≡ is_ptable ptable.now }
{
    let pairs = ptable.pairs.as_slice();
    is_db(ptable.db) && is_below_limit(ptable.seq) && each_is_kept(pairs) && ascends(pairs)
}

fn each_is_ptable(ptables: &[PTable]) -> bool
    ensures { result ≡ list_all is_ptable ptables.now }
{
    ptables.iter().all(|ptable| is_ptable(ptable))
}

fn are_ptables(ptables: &[PTable]) -> bool
    ensures { result ≡ are_ptables ptables.now }
{
    each_is_ptable(ptables) && ascends(ptables)
}

fn is_assigned(assigned: &Assigned) -> bool
    ensures { result ≡ is_assigned assigned.now }
{
    match assigned.node {
        None => false,
        Some(node) => is_node(node),
    }
}

fn each_is_assigned(assigned: &[Assigned]) -> bool
    ensures { result ≡ list_all is_assigned assigned.now }
{
    assigned.iter().all(|item| is_assigned(item))
}

fn are_assigned(assigned: &[Assigned]) -> bool
    ensures { result ≡ are_assigned assigned.now }
{
    each_is_assigned(assigned) && ascends(assigned)
}

/// Whether a message of this sender keeps its rules.
fn is_message(sender: u32, msg: &Msg) -> bool
    ensures { result ≡ is_message sender msg.now }
{
    match msg {
        Msg::Call { db, request, .. } => is_db(*db) && is_from_one(*request),
        Msg::Recall {
            db,
            least,
            node,
            request,
            ..
        } => { is_db(*db) && is_below_limit(*least) && is_node(*node) && is_from_one(*request) }
        Msg::Give { db, rsn, .. } => is_db(*db) && is_below_limit(*rsn),
        Msg::Pass {
            db,
            request,
            rsn,
            ..
        } => is_db(*db) && is_from_one(*request) && is_below_limit(*rsn),
        Msg::Refuse {
            db,
            request,
            rsn,
            ..
        } => is_db(*db) && is_from_one(*request) && is_below_limit(*rsn),
        Msg::Grant {
            db,
            request,
            rsn,
            ..
        } => is_db(*db) && is_from_one(*request) && is_below_limit(*rsn),
        Msg::Done {
            db,
            node,
            request,
            ..
        } => is_db(*db) && is_node(*node) && is_from_one(*request),
        Msg::Revoke { db, rsn, .. } => is_db(*db) && is_below_limit(*rsn),
        Msg::RevokeAck { db, rsn, .. } => is_db(*db) && is_below_limit(*rsn),
        Msg::VStore { db, rsn, .. } => is_db(*db) && is_below_limit(*rsn),
        Msg::VStored { db, rsn, .. } => is_db(*db) && is_below_limit(*rsn),
        Msg::VDelete { db, rsn, .. } => is_db(*db) && is_below_limit(*rsn),
        Msg::VDeleted { db, rsn, .. } => is_db(*db) && is_below_limit(*rsn),
        Msg::Freeze { members } => are_nodes(members.as_slice()),
        Msg::FreezeAck => true,
        Msg::Pull => true,
        Msg::PullReply {
            vbase,
            pbase,
            table,
            ptables,
            addresses,
        } => {
            is_below_limit(*vbase)
                && is_below_limit(*pbase)
                && are_own_rows(sender, table.as_slice())
                && are_ptables(ptables.as_slice())
                && are_addresses(addresses.as_slice())
        }
        Msg::Push {
            members,
            table,
            ptables,
            assigned,
        } => {
            are_nodes(members.as_slice())
                && are_members_rows(members.as_slice(), table.as_slice())
                && are_ptables(ptables.as_slice())
                && are_assigned(assigned.as_slice())
        }
        Msg::PushAck => true,
        Msg::Thaw => true,
        Msg::PUpdate { db, seq, writes } => {
            is_db(*db) && is_from_one(*seq) && is_one_to_sixteen(writes.as_slice())
        }
        Msg::PAck { db, seq } => is_db(*db) && is_from_one(*seq),
        Msg::Release { run, keep } => is_from_one(*run) && are_addresses(keep.as_slice()),
        Msg::ReleaseAck { run } => is_from_one(*run),
        Msg::Take { run, assigned } => is_from_one(*run) && are_assigned(assigned.as_slice()),
    }
}

/// Whether a frame keeps the rules of its fields. It takes no memory.
pub fn well_formed(frame: &Frame) -> bool
    ensures { result ≡ well_formed frame.now }
{
    is_from_one(frame.generation)
        && is_node(frame.receiver)
        && is_node(frame.sender)
        && is_message(frame.sender, &frame.msg)
}
