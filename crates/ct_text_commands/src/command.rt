//! The text of a command that shows something.
ghost use Rattle.std.specs.Prelude.{◌≡◌, Some, IfOk};
ghost use Rattle.ct_text_commands.specs.Command.{Tells, cat_text, command_text, dump_text, seq_text, seqnum_text};
ghost use Rattle.ct_text_commands.specs.Lists as lists;
ghost use Rattle.ct_text_commands.specs.Status.{status_text};
ghost use Rattle.ct_law_form.specs.Whole.{HasLimits};

use crate::databases::{db_named, push_dbs, push_seq};
use crate::lines::push_number_line;
use crate::nodes::{push_ip, push_nodes, push_pnn, push_states, push_told};
use ct_core::machine::Core;
use ct_core::view::View;
use ct_lines::line::ShowCommand;
use ct_text::dumps::{push_copies, push_pairs};
use ct_values::memory::NoMemory;
use ct_values::name::DbName;
use std::alloc::Global;
use thiserror::Error;

/// Why a command has no text.
#[derive(Debug, Drop, PartialEq, Eq, Error)]
pub enum TextFault {
    /// No database of this name is declared.
    #[error("no such database")]
    NoSuchDb,
    /// Only a persistent database has a sequence number.
    #[error("wrong kind of database")]
    WrongKind,
    #[error("want of memory")]
    NoMemory,
}

impl From<NoMemory> for TextFault {
    ghost use Rattle.ct_text_commands.specs.declared.command.TextFault.TheVariants.{NoMemory as Want};

    ghost from_gives = { λ _ e. e ≡ Want };

    fn from(_e: NoMemory) -> TextFault {
        TextFault::NoMemory
    }
}

fn pnn_text(alloc: Global, core: &Core) -> Result<Vec<u8>, NoMemory>
    ensures { IfOk result (λ v. v.items ≡ lists.pnn_text core.now.pnn) }
{
    let mut text = Vec::new(alloc);
    push_pnn(&mut text, core.pnn())?;
    Ok(text)
}

fn nodes_text(alloc: Global, core: &Core) -> Result<Vec<u8>, NoMemory>
    ensures { IfOk result (λ v. v.items ≡ lists.nodes_text core.now.config) }
{
    let mut text = Vec::new(alloc);
    push_nodes(&mut text, core.config())?;
    Ok(text)
}

#[tactic(auto, using(crate::proofs::Numbers::three_parts), unfolding(crate::specs::Status::status_text))]
fn status_text(
    alloc: Global,
    core: &Core,
    running: &[bool],
    able: &[bool],
) -> Result<Vec<u8>, NoMemory>
    ensures { IfOk result (λ v. v.items ≡ status_text core.now.config core.now.pnn core.now.node running.now able.now) }
{
    let mut text = Vec::new(alloc);
    push_number_line(
        &mut text,
        b"Number of nodes:",
        u64::from(core.config().nodes),
    )?;
    push_states(&mut text, core.config(), core.pnn(), running, able)?;
    push_told(
        &mut text,
        core.generation(),
        core.members(),
        core.serving(),
        core.leader(),
    )?;
    Ok(text)
}

fn ip_text(alloc: Global, core: &Core) -> Result<Vec<u8>, NoMemory>
    ensures { IfOk result (λ v. v.items ≡ lists.ip_text core.now.config core.now.pnn core.now.node.placement) }
{
    let mut text = Vec::new(alloc);
    push_ip(&mut text, core.config(), core.pnn(), core.placement())?;
    Ok(text)
}

fn dbs_text(alloc: Global, core: &Core) -> Result<Vec<u8>, NoMemory>
    ensures { IfOk result (λ v. v.items ≡ lists.dbs_text core.now.config) }
{
    let mut text = Vec::new(alloc);
    push_dbs(&mut text, core.config())?;
    Ok(text)
}

#[tactic(auto, unfolding(crate::specs::Command::dump_text))]
fn dump_text(alloc: Global, core: &Core, db: u32) -> Result<Vec<u8>, NoMemory>
    ensures { IfOk result (λ v. v.items ≡ dump_text core.now.config core.now.node db) }
{
    let mut text = Vec::new(alloc);
    match core.pstore(db) {
        Some(store) => push_pairs(&mut text, store.pairs()?.as_slice())?,
        None => push_copies(&mut text, core.copies(db)?)?,
    }
    Ok(text)
}

fn cat_text(alloc: Global, core: &Core, name: &DbName) -> Result<Vec<u8>, TextFault>
    requires { HasLimits core.now.config }
    ensures { Tells (λ v. v.items) result (cat_text core.now.config core.now.node (lists.db_named core.now.config name.now)) }
{
    match db_named(core.config(), name) {
        Some(db) => Ok(dump_text(alloc, core, db)?),
        None => Err(TextFault::NoSuchDb),
    }
}

fn seq_text(alloc: Global, seq: u64) -> Result<Vec<u8>, NoMemory>
    ensures { IfOk result (λ v. v.items ≡ seq_text seq) }
{
    let mut text = Vec::new(alloc);
    push_seq(&mut text, seq)?;
    Ok(text)
}

/// The number of the last commit of a persistent database.
fn seqnum_of(alloc: Global, core: &Core, db: u32) -> Result<Vec<u8>, TextFault>
    ensures { Tells (λ v. v.items) result (seqnum_text core.now.config core.now.node (Some db)) }
{
    match core.pstore(db) {
        Some(store) => Ok(seq_text(alloc, store.seq())?),
        None => Err(TextFault::WrongKind),
    }
}

fn seqnum_text(alloc: Global, core: &Core, name: &DbName) -> Result<Vec<u8>, TextFault>
    requires { HasLimits core.now.config }
    ensures { Tells (λ v. v.items) result (seqnum_text core.now.config core.now.node (lists.db_named core.now.config name.now)) }
{
    match db_named(core.config(), name) {
        Some(db) => seqnum_of(alloc, core, db),
        None => Err(TextFault::NoSuchDb),
    }
}

/// The text of a command that shows something, at the node of a view. `NoSuchDb` comes exactly where it names a database that is not
/// declared, `WrongKind` exactly where it asks for the sequence number of one that is not persistent, and memory is wanting
/// only where the command has a text.
pub fn command_text(alloc: Global, view: &View, command: &ShowCommand) -> Result<Vec<u8>, TextFault>
    requires { HasLimits view.now.core.now.config }
    ensures { Tells (λ v. v.items) result (command_text view.now.core.now.config view.now.core.now.pnn view.now.core.now.node view.now.running.now view.now.able.now command.now) }
{
    let core = view.core;
    match command {
        ShowCommand::Pnn => Ok(pnn_text(alloc, core)?),
        ShowCommand::ListNodes => Ok(nodes_text(alloc, core)?),
        ShowCommand::Status => Ok(status_text(alloc, core, view.running, view.able)?),
        ShowCommand::Ip => Ok(ip_text(alloc, core)?),
        ShowCommand::GetDbMap => Ok(dbs_text(alloc, core)?),
        ShowCommand::CatTdb(name) => cat_text(alloc, core, name),
        ShowCommand::GetDbSeqNum(name) => seqnum_text(alloc, core, name),
    }
}
