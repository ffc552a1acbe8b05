//! A node as another program uses it: node 1 of two is given a call of its client and two messages of node 0. Each line
//! tells what it then does.
#![tactic(auto)]

ghost use Rattle.std.specs.Prelude.{IfOk};
ghost use Rattle.ct_law_form.specs.Whole.{HasLimits};

use anyhow::{Result, ensure};
use ct_call::table::CallTable;
use ct_core::coming::may_come;
use ct_core::machine::Core;
use ct_frame::event::Event;
use ct_frame::frame::{CallKind, Frame, Msg};
use ct_values::client::ClientOp;
use ct_values::config::{Config, DbDecl, DbKind};
use ct_values::key::Key;
use ct_values::name::DbName;
use ct_values::value::Value;
use std::alloc::Global;

/// Two nodes and the database `t`, whose place is 1.
fn config(alloc: Global) -> Result<Config>
    ensures { IfOk result HasLimits }
{
    let mut dbs = Vec::new(alloc);
    dbs.push(DbDecl {
        name: DbName::new(alloc, b"t")?,
        kind: DbKind::Volatile,
    })?;
    Ok(Config::new(alloc, 2, dbs, Vec::new(alloc))?)
}

/// A message of node 0.
fn message(msg: Msg) -> Event {
    Event::Arrive(Frame {
        generation: 1,
        sender: 0,
        receiver: 1,
        msg,
    })
}

/// The client writes a record. Node 0 passes the record on, and asks for it again for itself.
fn main(rt: HostRuntime) -> Result<()> {
    let alloc = rt.alloc();
    let (config, table) = (config(alloc)?, CallTable::new(alloc));
    let key = Key::new(alloc, b"b")?;
    let op = ClientOp::Write {
        db: 1,
        key: key.copy()?,
        value: Value::new(alloc, b"x")?,
    };
    let pass = Msg::Pass {
        db: 1,
        key: key.copy()?,
        request: 1,
        rsn: 0,
        value: Value::empty(alloc),
    };
    let recall = Msg::Recall {
        db: 1,
        key,
        least: 1,
        node: 0,
        request: 1,
        kind: CallKind::Lock,
    };
    ensure!(1 < config.nodes, "no such node");
    let mut core = Core::new(alloc, 1, &config)?;
    let call = Event::Client { call: 1, op };
    for event in [call, message(pass), message(recall)] {
        ensure!(may_come(&core, &event)?, "this may not come");
        for out in core.step(&table, &event)? {
            println!(rt; "{out:?}")?;
        }
    }
    Ok(())
}
