//! A member is thawed: it serves, and every call that waits wants its record anew.
ghost use Rattle.std.specs.Prelude.{◌≡◌, ◌<◌, ◌^◌, ◌&&◌, nat_eq, true, IfOk, OnOk, length};
ghost use Rattle.std.specs.List.{AllByRecursion};
ghost use Rattle.ct_call.specs.Shown.{rules_of};
ghost use Rattle.ct_node_plan.specs.Changes.{Plans};
ghost use Rattle.ct_frame.specs.declared.event.Note.TheVariants as note;
ghost use Rattle.ct_lead.specs.Member.{is_installed};
ghost use Rattle.ct_rules_node.specs.Node.{Serving};
ghost use Rattle.ct_rules_node.specs.Records.{at_record};
ghost use Rattle.ct_rules_node.specs.Rounds.{on_thaw, pending_calls, want_again, want_all};
ghost use Rattle.ct_rules_node.specs.Turn.{begins, notes, with_phase};
ghost use Rattle.ct_node_plan.specs.Handed.{Goes};

use ct_call::table::CallTable;
use ct_frame::event::Note;
use ct_node_plan::change::Planned;
use ct_node_plan::handed::{CoreFault, Node, Turn};
use ct_node_plan::plans::whole;
use ct_node_plan::still::nothing;
use ct_node_view::waiting::{Called, pending_calls};
use ct_record_parts::draft::Draft;
use ct_rules::event::Place;
use ct_values::config::Config;
use ct_values::memory::NoMemory;

/// The wish is cleared, and its call wants the record anew.
#[tactic(auto, unfolding(ct_rules_node::specs::Rounds::want_again, ct_rules_node::specs::Rounds::want_again_of, ct_rules::specs::Parts::keeps))]
fn want_again(draft: &mut Draft, at: &Place, table: &CallTable) -> Result<(), NoMemory>
    requires { draft.old.next < 2 ^ 62 }
    ensures { OnOk result (draft.new ≡ want_again (rules_of table.now) at.now draft.old) }
{
    match draft.state.as_mut().wish.take() {
        Some(wish) => draft.want(at, table, wish.call, &wish.op),
        None => Ok(()),
    }
}

/// A call that waits wants its record anew.
#[tactic(auto, using(crate::proofs::Thawed::again_dbs), unfolding(ct_rules_node::specs::Records::at_record, ct_rules_node::specs::Records::view))]
fn want_one(
    turn: &mut Turn,
    config: &Config,
    table: &CallTable,
    me: u32,
    called: &Called,
) -> Result<(), CoreFault>
    requires there { called.now.db < length turn.old.node.dbs }
    requires next { turn.old.node.next < 2 ^ 62 }
    ensures wanted { Goes result (at_record config.now me called.now.db called.now.key (want_again (rules_of table.now)) turn.old) turn.new }
    ensures dbs { OnOk result (length turn.new.node.dbs ≡ length turn.old.node.dbs) }
    ensures next { OnOk result (turn.new.node.next < 2 ^ 62) }
{
    let at = turn.node.place_of(config, me, called.db, &called.key)?;
    let mut draft = turn.node.view(called.db, &called.key)?;
    want_again(&mut draft, &at, table)?;
    turn.acted(me, called.db, &called.key, draft)?;
    let _next = turn.node.next;
    Ok(())
}

/// These calls want their records anew, one after the other.
#[tactic(auto, using(crate::proofs::Thawed::stays_spent), unfolding(ct_rules_node::specs::Rounds::want_all))]
fn want_all(
    turn: &mut Turn,
    config: &Config,
    table: &CallTable,
    me: u32,
    calls: Vec<Called>,
) -> Result<(), CoreFault>
    requires there { AllByRecursion (λ x. x.db < length turn.old.node.dbs) calls.items }
    requires next { turn.old.node.next < 2 ^ 62 }
    ensures { Goes result (want_all config.now (rules_of table.now) me calls.items turn.old) turn.new }
{
    for called in calls {
        want_one(turn, config, table, me, &called)?;
    }
    Ok(())
}

/// The node serves from now on, and notes it.
#[tactic(auto, unfolding(ct_rules_node::specs::Turn::with_phase))]
fn serves(generation: u64, node: &Node) -> Result<Turn, NoMemory>
    requires { (is_installed node.now.phase && nat_eq node.now.generation generation) ≡ true }
    ensures { IfOk result (λ t. t ≡ notes (note.Thawed generation) (with_phase Serving (begins node.now))) }
{
    let mut after = node.copy()?;
    after.member.thaw(generation);
    let mut turn = Turn::begins(after);
    turn.notes(Note::Thawed(generation))?;
    Ok(turn)
}

/// Each call that waits wants its record anew, by number.
fn want_pending(
    turn: &mut Turn,
    config: &Config,
    table: &CallTable,
    me: u32,
    node: &Node,
) -> Result<(), CoreFault>
    requires few { length node.now.dbs < 2 ^ 32 }
    requires dbs { length turn.old.node.dbs ≡ length node.now.dbs }
    requires next { turn.old.node.next < 2 ^ 62 }
    ensures { Goes result (want_all config.now (rules_of table.now) me (pending_calls node.now) turn.old) turn.new }
{
    want_all(turn, config, table, me, pending_calls(node)?)
}

/// Thaw: a node that has installed this generation serves and notes it, and each call that waits wants its record anew, by
/// number.
#[tactic(auto, using(crate::proofs::Thawed::thaw_dropped, crate::proofs::Thawed::thaw_followed), unfolding(ct_rules_node::specs::Rounds::thaws))]
pub fn on_thaw(
    config: &Config,
    table: &CallTable,
    me: u32,
    generation: u64,
    node: &Node,
) -> Result<Planned, CoreFault>
    requires few { length node.now.dbs < 2 ^ 32 }
    requires next { node.now.next < 2 ^ 62 }
    ensures { Plans result (on_thaw config.now (rules_of table.now) me generation (begins node.now) node.now.phase) node.now }
{
    let mut member = node.member;
    if !member.thaw(generation) {
        return Ok(nothing(node));
    }
    let mut turn = serves(generation, node)?;
    want_pending(&mut turn, config, table, me, node)?;
    Ok(whole(turn, node)?)
}
