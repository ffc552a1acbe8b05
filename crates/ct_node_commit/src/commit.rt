//! What was planned is done.
ghost use Rattle.std.specs.Prelude.{◌≡◌, ◌<◌, true, OnOk, OnErr, length};
ghost use Rattle.ct_node_plan.specs.Changes.{AreDeleted, CanChange, all_left, changed_by, left_at};
ghost use Rattle.ct_node_database.specs.Noted.{is_deleted};
ghost use Rattle.ct_rules_node.specs.Node.{state_at};

use ct_frame::frame::Assigned;
use ct_lead::holder::Holder;
use ct_lead::lead::Lead;
use ct_node_plan::change::{Change, Left};
use ct_node_plan::handed::Node;
use ct_values::items::Items;
use ct_values::memory::NoMemory;
use std::mem;

/// A node takes all but its databases from another.
fn take_beside(node: &mut Node, other: Node)
    ensures { node.new ≡ record other { dbs = node.old.dbs } }
{
    let mut other = other;
    mem::swap(&mut other.dbs, &mut node.dbs);
    *node = other;
}

/// A record that is a deleted one is left so. It takes no memory.
fn leave(node: &mut Node, db: u32, left: Left)
    requires there { db < length node.old.dbs }
    requires deleted { is_deleted (state_at db left.key node.old).copy ≡ true }
    ensures after { node.new ≡ left_at db left node.old }
    ensures dbs { length node.new.dbs ≡ length node.old.dbs }
{
    let Left {
        key,
        state,
        next,
        floor,
    } = left;
    node.put_deleted(db, key, state, next, floor);
}

/// Records of a database are left so, one after the other. It takes no memory.
#[tactic(auto, unfolding(ct_node_plan::specs::Changes::all_left, ct_node_plan::specs::Changes::AreDeleted))]
fn leave_all(node: &mut Node, db: u32, left: Items<Left>)
    requires there { db < length node.old.dbs }
    requires deleted { AreDeleted db left node.old }
    ensures { node.new ≡ all_left db left node.old }
{
    for one in left.into_vec() {
        leave(node, db, one);
    }
}

/// A node leads this.
fn lead(node: &mut Node, lead: Lead)
    ensures { node.new ≡ record node.old { lead = lead } }
{
    node.lead = lead;
}

/// A node holds these addresses.
fn hold(node: &mut Node, holder: Holder)
    ensures { node.new ≡ record node.old { held = holder.held; last_run = holder.last_run } }
{
    node.holder = holder;
}

/// A node knows the addresses to be there.
fn place(node: &mut Node, placement: Items<Assigned>)
    ensures { node.new ≡ record node.old { placement = placement } }
{
    node.placement = placement;
}

/// Changes a node as it was planned. Without memory nothing changes.
#[tactic(auto, unfolding(ct_node_plan::specs::Changes::changed_by))]
pub fn commit(node: &mut Node, change: Change) -> Result<(), NoMemory>
    requires { CanChange change node.old }
    ensures ok { OnOk result (node.new ≡ changed_by change node.old) }
    ensures err { OnErr result (node.new ≡ node.old) }
{
    match change {
        Change::Nothing => Ok(()),
        Change::Record {
            db,
            key,
            state,
            next,
            floor,
        } => node.put_back(db, key, state, next, floor),
        Change::Update { db, seq, writes } => node.update(db, seq, writes.as_slice()),
        Change::Begin {
            db,
            seq,
            writes,
            commit,
        } => node.begin(db, seq, writes.as_slice(), commit),
        Change::Wait { db, commit } => {
            node.wait(db, commit);
            Ok(())
        }
        Change::Records { db, left } => {
            leave_all(node, db, left);
            Ok(())
        }
        Change::Lead(led) => {
            lead(node, led.into_inner());
            Ok(())
        }
        Change::Hold(holder) => {
            hold(node, holder);
            Ok(())
        }
        Change::Take { placement, holder } => {
            place(node, placement);
            hold(node, holder);
            Ok(())
        }
        Change::Beside(other) => {
            take_beside(node, other.into_inner());
            Ok(())
        }
        Change::Whole(other) => {
            *node = other.into_inner();
            Ok(())
        }
    }
}
