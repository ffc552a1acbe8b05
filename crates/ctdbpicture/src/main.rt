//! The program: standard input, output and error in the place of what the library's call reads and writes, and the three call
//! functions of `ctdbsim`.
#![tactic(auto)]

ghost use Rattle.std.specs.Prelude.{◌≡◌, ◌∷◌, [], IfSome};
ghost use Rattle.ct_call.specs.Rules.{Arg, Join, Old};
ghost use Rattle.ct_call.specs.Seen.{seen};
ghost use Rattle.ct_call.specs.Shown.{rules_of};

#[cfg(test)]
mod tests;

use ct_call::rule::Rule;
use ct_call::table::CallTable;
use ct_ladder_play::running::run;
use ct_outside::adapters::{StdSink, StdSource};
use std::alloc::Global;
use std::env::{self, Env};
use std::io;
use std::process::ExitCode;

/// The words behind the program's name.
fn words(rt: &(impl Env + AllocGlobal)) -> io::Result<Vec<String>> {
    let mut words = Vec::new(rt.alloc());
    for word in env::args(rt)?.skip(1) {
        words.push(word)?;
    }
    Ok(words)
}

/// The rule of the old value with the argument behind it.
fn old_and_arg(alloc: Global) -> Option<Rule>
    ensures { IfSome result (λ r. seen r ≡ Join Old Arg) }
{
    let old = Box::new(alloc, Rule::Old).ok()?;
    let arg = Box::new(alloc, Rule::Arg).ok()?;
    Some(Rule::Join(old, arg))
}

/// Adds the call functions: 1 joins the old value and the argument, 2 gives the argument, 3 the old value. None is want of
/// memory.
fn add_functions(alloc: Global, table: &mut CallTable) -> Option<()>
    requires { rules_of table.old ≡ [] }
    ensures { IfSome result (λ _. rules_of table.new ≡ (1, Join Old Arg) ∷ (2, Arg) ∷ (3, Old) ∷ []) }
{
    table.add_rule(alloc, 1, old_and_arg(alloc)?).ok()?;
    table.add_rule(alloc, 2, Rule::Arg).ok()?;
    table.add_rule(alloc, 3, Rule::Old).ok()
}

fn main(rt: HostRuntime) -> ExitCode {
    let Ok(words) = words(&rt) else {
        return ExitCode::from(5);
    };
    let alloc = rt.alloc();
    let mut table = CallTable::new(alloc);
    if add_functions(alloc, &mut table).is_none() {
        return ExitCode::from(5);
    }
    let mut input = StdSource::new(rt.stdin());
    let mut out = StdSink::new(rt.stdout());
    let mut err = StdSink::new(rt.stderr());
    ExitCode::from(run(
        alloc,
        &table,
        words.as_slice(),
        &mut input,
        &mut out,
        &mut err,
    ))
}
