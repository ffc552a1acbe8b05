//! What a command shows, and why one is refused.
ghost use Rattle.std.specs.Prelude.{◌≡◌, [], IfOk};
ghost use Rattle.ct_play.specs.Effect as effect;

use ct_lines::line::ShowCommand;
use ct_named::named::World;
use ct_play_text::what::{PlayFault, What};
use ct_rules_cluster::step::{Step, StepFault};
use ct_text_commands::command::{TextFault, command_text};
use ct_values::items::Items;
use ct_values::memory::NoMemory;
use std::alloc::Global;

/// Why a step is refused, as why its line is.
pub fn refused_by(fault: StepFault) -> PlayFault
    ensures { result ≡ effect.refused_by fault }
{
    let what = match fault {
        StepFault::NoSuchNode(node) => What::NoSuchNode(node),
        StepFault::NodeDown(node) => What::NodeDown(node),
        StepFault::NodeUp(node) => What::NodeUp(node),
        StepFault::NoSuchDb(_) => What::NoSuchDb,
        StepFault::WrongKind(_) => What::WrongKind,
        StepFault::NotServing(node) => What::NotServing(node),
        StepFault::NotLeader(node) => What::NotLeader(node),
        StepFault::NoSuchFrame(number) => What::NoSuchFrame(number),
        StepFault::NotMember(node) => What::NotMember(node),
        StepFault::LockHeld(node) => What::LockHeld(node),
        StepFault::NotHolder(_) => What::NotHolder,
        StepFault::Exhausted => What::Exhausted,
        StepFault::NoMemory => return PlayFault::NoMemory,
    };
    PlayFault::Refused(what)
}

/// A text cut after each line feed.
pub fn cut(alloc: Global, text: &[u8]) -> Result<Vec<Items<u8>>, NoMemory>
    ensures { IfOk result (λ v. v.items ≡ effect.cut_after [] text.now) }
{
    let mut lines = Vec::new(alloc);
    let mut line = Items::empty(alloc);
    for x in text {
        line.push(*x)?;
        if *x == b'\n' {
            lines.push(line)?;
            line = Items::empty(alloc);
        }
    }
    if !line.is_empty() {
        lines.push(line)?;
    }
    Ok(lines)
}

/// What a command shows at a node, each line by itself. It is refused as a step at a node that is not there, or is down.
pub fn shown(
    alloc: Global,
    world: &World,
    node: u32,
    command: &ShowCommand,
) -> Result<Vec<Items<u8>>, PlayFault>
    ensures { effect.ShowsLines result (effect.shown world.now node command.now) }
{
    let step = Step::Retry(node);
    if let Some(fault) = world.fault(&step) {
        return Err(refused_by(fault));
    }
    let Some(view) = world.view(node) else {
        unreachable!()
    };
    match command_text(alloc, &view, command) {
        Ok(text) => match cut(alloc, text.as_slice()) {
            Ok(lines) => Ok(lines),
            Err(NoMemory) => Err(PlayFault::NoMemory),
        },
        Err(TextFault::NoSuchDb) => Err(PlayFault::Refused(What::NoSuchDb)),
        Err(TextFault::WrongKind) => Err(PlayFault::Refused(What::WrongKind)),
        Err(TextFault::NoMemory) => Err(PlayFault::NoMemory),
    }
}
