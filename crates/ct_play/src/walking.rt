//! Moves of traverses, and what they print.
ghost use Rattle.std.specs.Prelude.{◌≡◌, false, IfOk};
ghost use Rattle.ct_rules_node.specs.Node.{is_persistent, kind_at};
ghost use Rattle.ct_lines.specs.declared.line.ShowCommand.TheVariants as shows;
ghost use Rattle.ct_play.specs.Course.{Adds};
ghost use Rattle.ct_play.specs.Effect as effect;
ghost use Rattle.ct_named.specs.Named.{number_in_step};

use crate::shown::{cut, shown};
use ct_lines::line::{ShowCommand, TraverseLine};
use ct_named::named::{World, number_in_step};
use ct_node_state::kinds::{is_persistent, kind_at};
use ct_play_text::what::{PlayFault, What};
use ct_traverse::walker::Walker;
use ct_traverse_parts::line::{TFault, TLine};
use ct_traverse_parts::text::push_traverse;
use ct_values::items::Items;
use ct_values::memory::NoMemory;
use ct_values::name::DbName;
use std::alloc::Global;

/// Why a move of traverses is refused, as why its line is.
fn unmoved_by(fault: TFault) -> PlayFault
    ensures { result ≡ effect.unmoved_by fault }
{
    let what = match fault {
        TFault::NoSuchNode(node) => What::NoSuchNode(node),
        TFault::NodeDown(node) => What::NodeDown(node),
        TFault::NoSuchDb(_) => What::NoSuchDb,
        TFault::NotServing(node) => What::NotServing(node),
        TFault::NoSuchMessage(number) => What::NoSuchTframe(number),
        TFault::Exhausted => What::Exhausted,
        TFault::NoMemory => return PlayFault::NoMemory,
    };
    PlayFault::Refused(what)
}

/// The texts of these lines, each by itself.
fn traverse_texts(alloc: Global, lines: &[TLine]) -> Result<Vec<Items<u8>>, NoMemory>
    ensures { IfOk result (λ v. v.items ≡ effect.traverse_texts lines.now) }
{
    let mut text = Vec::new(alloc);
    for line in lines {
        push_traverse(&mut text, line)?;
    }
    cut(alloc, text.as_slice())
}

/// The texts of what a call of traverses printed, after these texts; or why its line is refused.
pub fn tell(
    alloc: Global,
    called: Result<Vec<TLine>, TFault>,
    texts: &mut Vec<Items<u8>>,
) -> Result<(), PlayFault>
    ensures { effect.TellsMove called result texts.old.items texts.new.items }
{
    match called {
        Ok(lines) => {
            if lines.is_empty() {
                return Ok(());
            }
            match traverse_texts(alloc, lines.as_slice()) {
                Ok(mut more) => match texts.append(&mut more) {
                    Ok(()) => Ok(()),
                    Err(_) => Err(PlayFault::NoMemory),
                },
                Err(NoMemory) => Err(PlayFault::NoMemory),
            }
        }
        Err(fault) => Err(unmoved_by(fault)),
    }
}

/// The message of this number comes.
#[tactic(auto, using(crate::proofs::Adding::move_added))]
fn carry(
    alloc: Global,
    world: &World,
    walker: &mut Walker,
    number: u64,
    texts: &mut Vec<Items<u8>>,
) -> Result<(), PlayFault>
    ensures { Adds result (effect.message_carried world.now walker.old number) texts.old.items world.now walker.new texts.new.items }
{
    tell(alloc, walker.carry(world, number), texts)
}

/// So many of the least message that waits come, one after the other; fewer where none waits.
fn walk(
    alloc: Global,
    world: &World,
    walker: &mut Walker,
    count: u32,
    texts: &mut Vec<Items<u8>>,
) -> Result<(), PlayFault>
    ensures { Adds result (effect.walked count world.now walker.old) texts.old.items world.now walker.new texts.new.items }
{
    for i in 0..count {
        match walker.next_waiting() {
            Some(number) => match carry(alloc, world, walker, number, texts) {
                Ok(()) => {}
                Err(fault) => return Err(fault),
            },
            None => return Ok(()),
        }
    }
    Ok(())
}

/// A line of traverses.
#[tactic(auto, using(crate::proofs::Adding::move_added))]
fn traverse(
    alloc: Global,
    world: &World,
    walker: &mut Walker,
    line: &TraverseLine,
    texts: &mut Vec<Items<u8>>,
) -> Result<(), PlayFault>
    ensures { Adds result (effect.traversed world.now walker.old line.now) texts.old.items world.now walker.new texts.new.items }
{
    match line {
        TraverseLine::Walk(count) => walk(alloc, world, walker, *count, texts),
        TraverseLine::Carry(number) => carry(alloc, world, walker, *number, texts),
        TraverseLine::Lose(number) => tell(alloc, walker.lose(world, *number), texts),
        TraverseLine::Again(number) => tell(alloc, walker.again(world, *number), texts),
    }
}

/// A line of traverses, and the texts of what it prints.
pub fn traversed(
    alloc: Global,
    world: &World,
    walker: &mut Walker,
    line: &TraverseLine,
) -> Result<Vec<Items<u8>>, PlayFault>
    ensures { effect.Works result (effect.traversed world.now walker.old line.now) world.now walker.new }
{
    let mut texts = Vec::new(alloc);
    match traverse(alloc, world, walker, line, &mut texts) {
        Ok(()) => Ok(texts),
        Err(fault) => Err(fault),
    }
}

/// A node begins a traverse of a database, which is no persistent one.
#[tactic(auto, using(crate::proofs::Adding::move_added))]
fn begun(
    alloc: Global,
    world: &World,
    walker: &mut Walker,
    node: u32,
    db: u32,
) -> Result<Vec<Items<u8>>, PlayFault>
    requires { is_persistent (kind_at world.now.config db) ≡ false }
    ensures { effect.Works result (effect.traverse_begun world.now walker.old node db) world.now walker.new }
{
    let mut texts = Vec::new(alloc);
    match tell(alloc, walker.begin(world, node, db), &mut texts) {
        Ok(()) => Ok(texts),
        Err(fault) => Err(fault),
    }
}

/// What a node has of a persistent database, each line by itself.
fn dumped(
    alloc: Global,
    world: &World,
    node: u32,
    name: &DbName,
) -> Result<Vec<Items<u8>>, PlayFault>
    ensures { effect.ShowsLines result (effect.shown world.now node (shows.CatTdb name.now)) }
{
    let command = ShowCommand::CatTdb(name.copy()?);
    shown(alloc, world, node, &command)
}

/// The records of a database in all members: a persistent one is shown at once, and of any other a traverse begins.
#[tactic(auto, using(crate::proofs::Adding::lines_shown))]
pub fn catted(
    alloc: Global,
    world: &World,
    walker: &mut Walker,
    node: u32,
    name: &DbName,
) -> Result<Vec<Items<u8>>, PlayFault>
    ensures { effect.Works result (effect.catted world.now walker.old node name.now (number_in_step world.now.config name.now)) world.now walker.new }
{
    let db = number_in_step(world.config(), name);
    if is_persistent(kind_at(world.config(), db)) {
        dumped(alloc, world, node, name)
    } else {
        begun(alloc, world, walker, node, db)
    }
}
