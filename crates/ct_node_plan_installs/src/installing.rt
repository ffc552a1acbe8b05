//! A member installs what is pushed.
ghost use Rattle.std.specs.Prelude.{◌≡◌, ◌<◌, ◌^◌, true, false, IfOk, length};
ghost use Rattle.std.specs.List.{AllByRecursion, list_all, list_any};
ghost use Rattle.ct_frame.specs.Fields.{ascends, assigned_before, is_message, is_ptable};
ghost use Rattle.ct_frame.specs.declared.frame.Msg.TheVariants as message;
ghost use Rattle.ct_node_plan_installs.specs.Filled.{IsPush, is_last};
ghost use Rattle.ct_node_plan.specs.Changes.{Plans};
ghost use Rattle.ct_rules_node.specs.Node.{is_frozen_in};
ghost use Rattle.ct_rules_node.specs.Rounds.{installed_node, installs, on_push};
ghost use Rattle.ct_rules_node.specs.Takeovers.{share};
ghost use Rattle.ct_rules_node.specs.Turn.{begins};
ghost use Rattle.ct_lead.specs.Held.{after_install, left_out};

use crate::databases::installed_dbs;
use crate::rows::is_mine;
use ct_frame::event::Note;
use ct_frame::frame::{Assigned, Msg, PTable, TableRow};
use ct_frame::header::LIMIT;
use ct_lead::holder::Holder;
use ct_lead::run::share;
use ct_node_plan::change::Planned;
use ct_node_plan::plans::{posts, whole};
use ct_node_plan::still::nothing;
use ct_node_state::members::Members;
use ct_node_state::node::Node;
use ct_node_state::phases::is_present_in;
use ct_node_state::placing::assigned_all;
use ct_node_state::turn::{CoreFault, Turn};
use ct_values::address::Address;
use ct_values::config::Config;
use ct_values::memory::NoMemory;

/// Does the RSN that the node makes of the row, if it makes one, reach 2^62?
#[tactic(auto, using(std::proofs::lemmas::Bool::Decides::nat_tests))]
fn is_last(me: u32, members: &Members, row: &TableRow) -> bool
    ensures { result ≡ is_last me members.now row.now }
{
    is_mine(me, members, row) && LIMIT - 1 <= row.rsn
}

/// Does one that an installation makes?
fn is_any_last(me: u32, members: &Members, table: &[TableRow]) -> bool
    ensures { result ≡ list_any (is_last me members.now) table.now }
{
    table.iter().any(|row| is_last(me, members, row))
}

/// A Push as it came: who sent it for which generation, and what it has for the members.
#[derive(Clone, Copy)]
struct Pushed<'a> {
    sender: u32,
    generation: u64,
    table: &'a [TableRow],
    ptables: &'a [PTable],
    assigned: &'a [Assigned],
}

/// What becomes of the node, which holds these addresses from then on.
#[tactic(auto, unfolding(ct_rules_node::specs::Rounds::installed_node))]
fn installed_node(
    config: &Config,
    me: u32,
    push: &Pushed,
    members: Members,
    holder: Holder,
    node: &Node,
) -> Result<Node, NoMemory>
    requires frozen { is_frozen_in push.now.generation node.now.phase ≡ true }
    requires few { length node.now.dbs < 2 ^ 32 }
    requires rows { AllByRecursion (λ row. row.rsn < 2 ^ 62) push.now.table.now }
    requires tables { list_all is_ptable push.now.ptables.now ≡ true }
    ensures { IfOk result (λ n. n ≡ record (installed_node config.now me push.now.sender push.now.generation members push.now.table.now push.now.ptables.now push.now.assigned.now node.now) { held = holder.held; last_run = holder.last_run }) }
{
    let mut member = node.member;
    member.push(push.generation);
    let dbs = installed_dbs(
        node.alloc,
        me,
        &members,
        push.table,
        push.ptables,
        node.dbs.as_slice(),
    )?;
    Ok(Node {
        alloc: node.alloc,
        member,
        pbase: push.generation,
        members,
        leader: Some(push.sender),
        dbs,
        placement: assigned_all(node.alloc, config.addresses.as_slice(), push.assigned)?,
        holder,
        next: node.next,
        lead: node.lead.copy()?,
    })
}

/// The addresses that are held in a generation, and those that are given up.
fn held_in(me: u32, assigned: &[Assigned], node: &Node) -> Result<(Holder, Vec<Address>), NoMemory>
    ensures { IfOk result (λ r. (r.0 ≡ after_install (share me assigned.now) (record { held = node.now.held; last_run = node.now.last_run })) × (r.1.items ≡ left_out (share me assigned.now) node.now.held)) }
{
    let own = share(node.alloc, me, assigned)?;
    let mut holder = node.holder.copy()?;
    let given_up = holder.install(&own)?;
    Ok((holder, given_up))
}

/// The node is changed, and notes Installed and then Released for each address that it gave up.
#[tactic(auto, using(crate::proofs::Pushed::installs_so))]
fn installs(
    config: &Config,
    me: u32,
    push: &Pushed,
    members: Members,
    node: &Node,
) -> Result<Turn, NoMemory>
    requires frozen { is_frozen_in push.now.generation node.now.phase ≡ true }
    requires few { length node.now.dbs < 2 ^ 32 }
    requires rows { AllByRecursion (λ row. row.rsn < 2 ^ 62) push.now.table.now }
    requires tables { list_all is_ptable push.now.ptables.now ≡ true }
    requires order { ascends assigned_before push.now.assigned.now ≡ true }
    requires below { list_any (is_last me members) push.now.table.now ≡ false }
    ensures { IfOk result (λ t. t ≡ installs config.now me push.now.sender push.now.generation members push.now.table.now push.now.ptables.now push.now.assigned.now (begins node.now)) }
{
    let (holder, given_up) = held_in(me, push.assigned, node)?;
    let after = installed_node(config, me, push, members, holder, node)?;
    let mut turn = Turn::begins(after);
    turn.notes(Note::Installed(push.generation))?;
    turn.releases(&given_up)?;
    Ok(turn)
}

/// A node that is Frozen for this generation installs it.
#[tactic(auto, using(crate::proofs::Pushed::push_spent, crate::proofs::Pushed::planned_push))]
fn follows(
    config: &Config,
    me: u32,
    push: &Pushed,
    members: &[u32],
    node: &Node,
) -> Result<Planned, CoreFault>
    requires frozen { is_frozen_in push.now.generation node.now.phase ≡ true }
    requires few { length node.now.dbs < 2 ^ 32 }
    requires push { IsPush members.now push.now.table.now push.now.ptables.now push.now.assigned.now }
    ensures { Plans result (on_push config.now me push.now.sender push.now.generation members.now push.now.table.now push.now.ptables.now push.now.assigned.now (begins node.now)) node.now }
{
    let shared = Members::new(node.alloc, members)?;
    if is_any_last(me, &shared, push.table) {
        return Err(CoreFault::Exhausted);
    }
    let mut turn = installs(config, me, push, shared, node)?;
    turn.posts(push.generation, me, push.sender, Msg::PushAck)?;
    Ok(whole(turn, node)?)
}

/// Push: a node that is Frozen for this generation installs it, and one that is present in it acknowledges again. The
/// fields of the message keep their rules.
#[tactic(auto, using(crate::proofs::Pushed::push_in_parts), unfolding(ct_rules_node::specs::Rounds::on_push, ct_rules_node::specs::Node::is_present_in))]
pub fn on_push(
    config: &Config,
    me: u32,
    sender: u32,
    generation: u64,
    members: &[u32],
    table: &[TableRow],
    ptables: &[PTable],
    assigned: &[Assigned],
    node: &Node,
) -> Result<Planned, CoreFault>
    requires few { length node.now.dbs < 2 ^ 32 }
    requires message { is_message sender (message.Push members.now table.now ptables.now assigned.now) ≡ true }
    ensures { Plans result (on_push config.now me sender generation members.now table.now ptables.now assigned.now (begins node.now)) node.now }
{
    if node.member.may_pull(generation) {
        let push = Pushed {
            sender,
            generation,
            table,
            ptables,
            assigned,
        };
        return follows(config, me, &push, members, node);
    }
    if is_present_in(node.member, generation) {
        return posts(node, generation, me, sender, Msg::PushAck);
    }
    Ok(nothing(node))
}
