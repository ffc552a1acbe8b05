//! The program: standard input, output and error in the place of what the top call reads and writes, three call functions, a
//! troupe of one thread a node, whose nodes talk over sockets where it is asked for, and which plays columns side by side, and
//! a bus with the handlers of three services.
#![tactic(auto)]

ghost use Rattle.std.specs.Prelude.{◌≡◌, ◌∷◌, [], IfSome};
ghost use Rattle.ct_bus_exchange.specs.Shown.{handled_by};
ghost use Rattle.ct_call.specs.Rules.{Arg, Cut, Join, Old};
ghost use Rattle.ct_call.specs.Seen.{seen};
ghost use Rattle.ct_call.specs.Shown.{rules_of};

#[cfg(test)]
mod tests;

use ct_bus_exchange::handlers::Handlers;
use ct_bus_threads::threads::BusThreads;
use ct_call::rule::Rule;
use ct_call::table::CallTable;
use ct_main::edge::answer;
use ct_outside::adapters::{StdSink, StdSource};
use ct_outside::gate::OpenGate;
use ct_troupe_threads::column::open_columns;
use ct_troupe_threads::column_threads::{Both, ColumnThreads};
use ct_troupe_threads::loopback::Loopback;
use ct_troupe_threads::threads::Threads;
use std::alloc::Global;
use std::env::{self, Env};
use std::io;
use std::process::ExitCode;

/// The words that the program was called by, its own name first.
fn words(rt: &(impl Env + AllocGlobal)) -> io::Result<Vec<String>> {
    let mut words = Vec::new(rt.alloc());
    for word in env::args(rt)? {
        words.push(word)?;
    }
    Ok(words)
}

/// The rule of the old value with the argument behind it.
fn old_and_arg(alloc: Global) -> Option<Rule>
    ensures { IfSome result (λ r. seen r ≡ Join Old Arg) }
{
    let old = Box::new(alloc, Rule::Old).ok()?;
    let arg = Box::new(alloc, Rule::Arg).ok()?;
    Some(Rule::Join(old, arg))
}

/// Adds the call functions: 1 joins the old value and the argument, 2 gives the argument, 3 the old value. None is want of
/// memory.
fn add_functions(alloc: Global, table: &mut CallTable) -> Option<()>
    requires { rules_of table.old ≡ [] }
    ensures { IfSome result (λ _. rules_of table.new ≡ (1, Join Old Arg) ∷ (2, Arg) ∷ (3, Old) ∷ []) }
{
    table.add_rule(alloc, 1, old_and_arg(alloc)?).ok()?;
    table.add_rule(alloc, 2, Rule::Arg).ok()?;
    table.add_rule(alloc, 3, Rule::Old).ok()
}

/// The rule of the argument twice.
fn arg_twice(alloc: Global) -> Option<Rule>
    ensures { IfSome result (λ r. seen r ≡ Join Arg Arg) }
{
    let first = Box::new(alloc, Rule::Arg).ok()?;
    let second = Box::new(alloc, Rule::Arg).ok()?;
    Some(Rule::Join(first, second))
}

/// The rule of the argument's first byte.
fn first_byte(alloc: Global) -> Option<Rule>
    ensures { IfSome result (λ r. seen r ≡ Cut 1 Arg) }
{
    let of = Box::new(alloc, Rule::Arg).ok()?;
    Some(Rule::Cut(1, of))
}

/// Adds the handlers: of service 0 the body, of 1 the body twice, of 2 its first byte and then the body. None is want of memory.
fn add_handlers(alloc: Global, handlers: &mut Handlers) -> Option<()>
    requires { handled_by handlers.old ≡ [] }
    ensures { IfSome result (λ _. handled_by handlers.new ≡ (0, Arg) ∷ (1, Join Arg Arg) ∷ (2, Cut 1 Arg) ∷ (2, Arg) ∷ []) }
{
    handlers.add_rule(alloc, 0, Rule::Arg).ok()?;
    handlers.add_rule(alloc, 1, arg_twice(alloc)?).ok()?;
    handlers.add_rule(alloc, 2, first_byte(alloc)?).ok()?;
    handlers.add_rule(alloc, 2, Rule::Arg).ok()
}

fn main(rt: HostRuntime) -> ExitCode {
    let Ok(words) = words(&rt) else {
        return ExitCode::from(5);
    };
    let alloc = rt.alloc();
    let mut table = CallTable::new(alloc);
    if add_functions(alloc, &mut table).is_none() {
        return ExitCode::from(5);
    }
    let mut handlers = Handlers::new(alloc);
    if add_handlers(alloc, &mut handlers).is_none() {
        return ExitCode::from(5);
    }
    let mut input = StdSource::new(rt.stdin());
    let mut out = StdSink::new(rt.stdout());
    let mut err = StdSink::new(rt.stderr());
    let Ok(columns) = open_columns(alloc) else {
        return ExitCode::from(5);
    };
    let gates: Vec<OpenGate> = Vec::new(alloc);
    let both = Both::new(Threads::new(&rt, alloc, gates), Loopback::new(&rt, alloc));
    let mut troupe = ColumnThreads::new(&rt, both, columns);
    let bus_gates: Vec<OpenGate> = Vec::new(alloc);
    let mut bus = BusThreads::new(&rt, bus_gates);
    answer(
        alloc,
        words.as_slice(),
        &table,
        &mut input,
        &mut out,
        &mut err,
        &mut troupe,
        &handlers,
        &mut bus,
    )
}
