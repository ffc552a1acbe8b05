//! The command line as `clap` knows it: its commands, and the numbers of those that have any as texts.
ghost use Rattle.std.specs.Prelude.{◌≡◌, IfOk, false};
ghost use Rattle.clap.specs.Words.{app_of, rule_of};
ghost use Rattle.clap.specs.declared.builder.command.Command.TheViews.{out-Command as fields_of};
ghost use Rattle.ct_words.specs.Command.{bare, bus, chains, number, planned, program, soak};

use clap::{Arg, ArgAction, Command};
use std::alloc::{AllocError, Global};

/// A number of a command, which has to be there.
fn number<'a>(alloc: Global, id: &'a str) -> Arg<'a>
    ensures rule { rule_of result ≡ number id.entry.now }
    ensures local { result.global ≡ false }
{
    Arg::new(alloc, id).required(true).action(ArgAction::Set)
}

fn soak<'a>(alloc: Global) -> Result<Command<'a>, AllocError>
    ensures shape { IfOk result (λ c. app_of c ≡ soak) }
    ensures local { IfOk result (λ c. (fields_of c).has_globals ≡ false) }
{
    Command::new(alloc, "soak")
        .arg(number(alloc, "seed"))?
        .arg(number(alloc, "steps"))
}

/// A command with the numbers of a plan.
fn planned<'a>(alloc: Global, name: &'a str) -> Result<Command<'a>, AllocError>
    ensures shape { IfOk result (λ c. app_of c ≡ planned name.entry.now) }
    ensures local { IfOk result (λ c. (fields_of c).has_globals ≡ false) }
{
    Command::new(alloc, name)
        .arg(number(alloc, "nodes"))?
        .arg(number(alloc, "calls"))?
        .arg(number(alloc, "seed"))
}

/// The command with the numbers of a plan that is cut.
fn chains<'a>(alloc: Global) -> Result<Command<'a>, AllocError>
    ensures shape { IfOk result (λ c. app_of c ≡ chains) }
    ensures local { IfOk result (λ c. (fields_of c).has_globals ≡ false) }
{
    Command::new(alloc, "chains")
        .arg(number(alloc, "nodes"))?
        .arg(number(alloc, "chains"))?
        .arg(number(alloc, "calls"))?
        .arg(number(alloc, "seed"))
}

/// The command with the numbers of a bus.
fn bus<'a>(alloc: Global) -> Result<Command<'a>, AllocError>
    ensures shape { IfOk result (λ c. app_of c ≡ bus) }
    ensures local { IfOk result (λ c. (fields_of c).has_globals ≡ false) }
{
    Command::new(alloc, "bus")
        .arg(number(alloc, "nodes"))?
        .arg(number(alloc, "messages"))?
        .arg(number(alloc, "seed"))
}

/// The command line with no command yet.
fn bare<'a>(alloc: Global) -> Command<'a>
    ensures { app_of result ≡ bare }
{
    Command::new(alloc, "ctdbsim")
        .no_binary_name(true)
        .subcommand_required(true)
        .disable_help_flag(true)
        .disable_help_subcommand(true)
        .disable_version_flag(true)
}

/// The program's command line: one command, which has to be there, and neither help nor version.
pub fn program<'a>(alloc: Global) -> Result<Command<'a>, AllocError>
    ensures { IfOk result (λ c. app_of c ≡ program) }
{
    bare(alloc)
        .subcommand(Command::new(alloc, "play"))?
        .subcommand(Command::new(alloc, "lcp2"))?
        .subcommand(soak(alloc)?)?
        .subcommand(planned(alloc, "cluster")?)?
        .subcommand(planned(alloc, "loopback")?)?
        .subcommand(chains(alloc)?)?
        .subcommand(bus(alloc)?)
}
