//! The databases of a configuration, by name and as a text.
ghost use Rattle.std.specs.Prelude.{◌≡◌, ◌<◌, ◌^◌, ◌++◌, length, nat_eq, OnOk};
ghost use Rattle.std.specs.Cmp.Lexicographic.{pointwise};
ghost use Rattle.ct_text_commands.specs.Command.{seq_text};
ghost use Rattle.ct_text_commands.specs.Lists as lists;

use crate::lines::push_number_line;
use ct_text::words::{push, push_number};
use ct_values::config::{Config, DbDecl, DbKind};
use ct_values::memory::NoMemory;
use ct_values::name::DbName;

fn has_name(decl: &DbDecl, name: &DbName) -> bool
    ensures { result ≡ pointwise nat_eq name.now decl.now.name }
{
    *name == decl.name
}

/// The number of the database of this name, where one is declared. It takes no memory.
#[tactic(auto, unfolding(crate::specs::Lists::db_named))]
pub fn db_named(config: &Config, name: &DbName) -> Option<u32>
    requires { length config.now.dbs < 2 ^ 32 }
    ensures { result ≡ lists.db_named config.now name.now }
{
    for (i, decl) in config.dbs.as_slice().iter().enumerate() {
        if has_name(decl, name) {
            return Some(i as u32);
        }
    }
    None
}

fn push_kind(text: &mut Vec<u8>, kind: DbKind) -> Result<(), NoMemory>
    ensures { OnOk result (text.new.items ≡ text.old.items ++ lists.kind_text kind) }
{
    match kind {
        DbKind::Volatile => Ok(()),
        DbKind::ReadOnly => push(text, b" READONLY"),
        DbKind::Persistent => push(text, b" PERSISTENT"),
    }
}

/// A database with its number.
fn push_db(text: &mut Vec<u8>, number: u64, decl: &DbDecl) -> Result<(), NoMemory>
    ensures { OnOk result (text.new.items ≡ text.old.items ++ lists.db_line number decl.now) }
{
    push_number(text, b"dbid:", number)?;
    push(text, b" name:")?;
    push(text, decl.name.bytes())?;
    push_kind(text, decl.kind)?;
    push(text, b"\n")
}

/// Each database of the configuration.
#[tactic(auto, unfolding(crate::specs::Lists::dbs_text))]
pub(crate) fn push_dbs(text: &mut Vec<u8>, config: &Config) -> Result<(), NoMemory>
    ensures { OnOk result (text.new.items ≡ text.old.items ++ lists.dbs_text config.now) }
{
    for (number, decl) in config.dbs.as_slice().iter().enumerate() {
        push_db(text, number as u64, decl)?;
    }
    Ok(())
}

/// The number of the last commit of a persistent database.
pub(crate) fn push_seq(text: &mut Vec<u8>, seq: u64) -> Result<(), NoMemory>
    ensures { OnOk result (text.new.items ≡ text.old.items ++ seq_text seq) }
{
    push_number_line(text, b"Sequence number:", seq)
}
