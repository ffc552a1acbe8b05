//! Messages of rounds: one that is not sound is dropped.
ghost use Rattle.std.specs.Prelude.{◌≡◌, true, IfOk};
ghost use Rattle.ct_call.specs.Shown.{rules_of};
ghost use Rattle.ct_frame.specs.Fields.{is_message};
ghost use Rattle.ct_frame.specs.declared.frame.Msg.TheVariants as message;
ghost use Rattle.ct_law_form.specs.Whole.{NodeInForm};
ghost use Rattle.ct_node_plan.specs.Changes.{Plans};
ghost use Rattle.ct_rules_node.specs.Rounds.{on_freeze, on_freezeack, on_pull, on_pullreply, on_push, on_pushack, on_thaw};
ghost use Rattle.ct_rules_node.specs.Steps.{if_sound};
ghost use Rattle.ct_rules_node.specs.Turn.{begins};

use ct_call::table::CallTable;
use ct_frame::frame::{Assigned, Frame, PTable, TableRow};
use ct_frame::round::Pull;
use ct_node_admission::sound::is_sound;
use ct_node_plan::change::Planned;
use ct_node_plan::still::nothing;
use ct_node_plan_installs::installing;
use ct_node_plan_members::{freezing, thawing};
use ct_node_plan_rounds::leading;
use ct_node_state::node::Node;
use ct_node_state::turn::CoreFault;
use ct_values::address::Address;
use ct_values::boxed::BoxedItems;
use ct_values::config::Config;
use ct_values::copies::Duplicate;
use ct_values::items::Items;
use ct_values::memory::NoMemory;

/// A Freeze comes.
#[tactic(auto, using(crate::proofs::Formed::has_dbs, crate::proofs::Formed::few_dbs), unfolding(ct_rules_node::specs::Steps::if_sound))]
pub(crate) fn freeze(
    config: &Config,
    me: u32,
    frame: &Frame,
    node: &Node,
) -> Result<Planned, CoreFault>
    requires { NodeInForm config.now me node.now }
    ensures { Plans result (if_sound config.now frame.now (on_freeze config.now me frame.now.sender frame.now.generation (begins node.now)) (begins node.now)) node.now }
{
    if !is_sound(config, frame) {
        return Ok(nothing(node));
    }
    freezing::on_freeze(config, me, frame.sender, frame.generation, node)
}

/// A FreezeAck comes.
#[tactic(auto, unfolding(ct_rules_node::specs::Steps::if_sound))]
pub(crate) fn freezeack(
    config: &Config,
    me: u32,
    frame: &Frame,
    node: &Node,
) -> Result<Planned, CoreFault>
    ensures { Plans result (if_sound config.now frame.now (on_freezeack me frame.now.sender frame.now.generation (begins node.now) node.now.lead) (begins node.now)) node.now }
{
    if !is_sound(config, frame) {
        return Ok(nothing(node));
    }
    leading::on_freezeack(me, node, frame.sender, frame.generation)
}

/// A Pull comes.
#[tactic(auto, using(crate::proofs::Formed::few_dbs), unfolding(ct_rules_node::specs::Steps::if_sound))]
pub(crate) fn pull(
    config: &Config,
    me: u32,
    frame: &Frame,
    node: &Node,
) -> Result<Planned, CoreFault>
    requires { NodeInForm config.now me node.now }
    ensures { Plans result (if_sound config.now frame.now (on_pull config.now me frame.now.sender frame.now.generation (begins node.now)) (begins node.now)) node.now }
{
    if !is_sound(config, frame) {
        return Ok(nothing(node));
    }
    freezing::on_pull(config, me, frame.sender, frame.generation, node)
}

/// What a PullReply tells.
fn told(
    node: u32,
    vbase: u64,
    pbase: u64,
    table: &BoxedItems<TableRow>,
    ptables: &BoxedItems<PTable>,
    addresses: &BoxedItems<Address>,
) -> Result<Pull, NoMemory>
    ensures { IfOk result (λ p. p ≡ record { node = node; vbase = vbase; pbase = pbase; table = table.now; ptables = ptables.now; addresses = addresses.now }) }
{
    Ok(Pull {
        node,
        vbase,
        pbase,
        table: table.items()?,
        ptables: ptables.items()?,
        addresses: addresses.items()?,
    })
}

/// A PullReply comes.
#[tactic(auto, unfolding(ct_rules_node::specs::Steps::if_sound))]
pub(crate) fn pullreply(
    config: &Config,
    me: u32,
    frame: &Frame,
    vbase: u64,
    pbase: u64,
    table: &BoxedItems<TableRow>,
    ptables: &BoxedItems<PTable>,
    addresses: &BoxedItems<Address>,
    node: &Node,
) -> Result<Planned, CoreFault>
    requires { is_message frame.now.sender (message.PullReply vbase pbase table.now ptables.now addresses.now) ≡ true }
    ensures { Plans result (if_sound config.now frame.now (on_pullreply me frame.now.generation (record { node = frame.now.sender; vbase = vbase; pbase = pbase; table = table.now; ptables = ptables.now; addresses = addresses.now }) (begins node.now) node.now.lead) (begins node.now)) node.now }
{
    if !is_sound(config, frame) {
        return Ok(nothing(node));
    }
    let pull = told(frame.sender, vbase, pbase, table, ptables, addresses)?;
    leading::on_pullreply(me, node, frame.generation, pull)
}

/// A Push comes.
#[tactic(auto, using(crate::proofs::Formed::few_dbs), unfolding(ct_rules_node::specs::Steps::if_sound))]
pub(crate) fn push(
    config: &Config,
    me: u32,
    frame: &Frame,
    members: &[u32],
    table: &[TableRow],
    ptables: &[PTable],
    assigned: &[Assigned],
    node: &Node,
) -> Result<Planned, CoreFault>
    requires form { NodeInForm config.now me node.now }
    requires well_formed { is_message frame.now.sender (message.Push members.now table.now ptables.now assigned.now) ≡ true }
    ensures { Plans result (if_sound config.now frame.now (on_push config.now me frame.now.sender frame.now.generation members.now table.now ptables.now assigned.now (begins node.now)) (begins node.now)) node.now }
{
    if !is_sound(config, frame) {
        return Ok(nothing(node));
    }
    installing::on_push(
        config,
        me,
        frame.sender,
        frame.generation,
        members,
        table,
        ptables,
        assigned,
        node,
    )
}

/// A PushAck comes.
#[tactic(auto, unfolding(ct_rules_node::specs::Steps::if_sound))]
pub(crate) fn pushack(
    config: &Config,
    me: u32,
    frame: &Frame,
    node: &Node,
) -> Result<Planned, CoreFault>
    ensures { Plans result (if_sound config.now frame.now (on_pushack config.now me frame.now.sender frame.now.generation (begins node.now) node.now.lead) (begins node.now)) node.now }
{
    if !is_sound(config, frame) {
        return Ok(nothing(node));
    }
    leading::on_pushack(config, me, node, frame.sender, frame.generation)
}

/// A Thaw comes.
#[tactic(auto, using(crate::proofs::Formed::few_dbs, crate::proofs::Formed::next_limit), unfolding(ct_rules_node::specs::Steps::if_sound))]
pub(crate) fn thaw(
    config: &Config,
    table: &CallTable,
    me: u32,
    frame: &Frame,
    node: &Node,
) -> Result<Planned, CoreFault>
    requires { NodeInForm config.now me node.now }
    ensures { Plans result (if_sound config.now frame.now (on_thaw config.now (rules_of table.now) me frame.now.generation (begins node.now) node.now.phase) (begins node.now)) node.now }
{
    if !is_sound(config, frame) {
        return Ok(nothing(node));
    }
    thawing::on_thaw(config, table, me, frame.generation, node)
}
