//! Handlers of services, and what they answer.
ghost use Rattle.std.specs.Prelude.{◌≡◌, ◌++◌, IfOk};
ghost use Rattle.ct_call.specs.Rules.{Arg, Join};
ghost use Rattle.ct_call.specs.Seen.{seen};

use crate::messages::messages;
use ct_bus_exchange::handlers::Handlers;
use ct_bus_exchange::own::Handler;
use ct_call::rule::Rule;
use ct_values::items::Items;
use ct_values::memory::NoMemory;
use ct_values::value::Value;
use std::alloc::Global;
use std::test::Fail;

// Are these the answers, in this order?
pub fn answers_are(answers: &[Items<u8>], wanted: &[&[u8]]) -> bool {
    answers.len() == wanted.len()
        && answers
            .iter()
            .zip(wanted)
            .all(|(answer, want)| answer.as_slice() == *want)
}

// The rule of the argument twice.
fn twice(alloc: Global) -> Result<Rule, Fail>
    ensures { IfOk result (λ r. seen r ≡ Join Arg Arg) }
{
    Ok(Rule::Join(Box::new(alloc, Rule::Arg)?, Box::new(alloc, Rule::Arg)?))
}

// Service 0 answers the body, 1 the body twice, 2 its first byte and then the body, and 3 has no handler.
pub fn three_services(alloc: Global) -> Result<Handlers, Fail> {
    let mut handlers = Handlers::new(alloc);
    handlers.add_rule(alloc, 0, Rule::Arg)?;
    handlers.add_rule(alloc, 1, twice(alloc)?)?;
    handlers.add_rule(alloc, 2, Rule::Cut(1, Box::new(alloc, Rule::Arg)?))?;
    handlers.add_rule(alloc, 2, Rule::Arg)?;
    Ok(handlers)
}

// The bytes of the body.
fn same(alloc: Global, body: &Value) -> Result<Vec<u8>, NoMemory>
    ensures { IfOk result (λ v. v.items ≡ body.now) }
{
    Ok(Vec::from_slice(alloc, body.bytes())?)
}

// The bytes of the body, and again.
fn doubled(alloc: Global, body: &Value) -> Result<Vec<u8>, NoMemory>
    ensures { IfOk result (λ v. v.items ≡ body.now ++ body.now) }
{
    let mut bytes = Vec::from_slice(alloc, body.bytes())?;
    bytes.extend_from_slice(body.bytes())?;
    Ok(bytes)
}

// Service 7 answers the body, by a function; then the body twice, by a rule; then the same by a function. Service 8 is another.
fn both_kinds(alloc: Global) -> Result<Handlers, Fail> {
    let mut handlers = Handlers::new(alloc);
    let first: Handler = Box::new(
        alloc,
        move |body: &Value| -> Result<Vec<u8>, NoMemory>
            ensures { IfOk result (λ v. v.items ≡ body.now) }
        { same(alloc, body) },
    )?;
    handlers.add(7, Rule::Arg, first)?;
    handlers.add_rule(alloc, 7, twice(alloc)?)?;
    handlers.add_rule(alloc, 8, Rule::Arg)?;
    let last: Handler = Box::new(
        alloc,
        move |body: &Value| -> Result<Vec<u8>, NoMemory>
            ensures { IfOk result (λ v. v.items ≡ body.now ++ body.now) }
        { doubled(alloc, body) },
    )?;
    handlers.add(7, twice(alloc)?, last)?;
    Ok(handlers)
}

#[test]
fn handlers_answer_in_order(rt: HostRuntime) -> Result<(), Fail> {
    let alloc = rt.alloc();
    let handlers = both_kinds(alloc)?;
    let table: [(u64, &[&[u8]]); 4] = [
        (7, &[b"xyz", b"xyzxyz", b"xyzxyz"]),
        (8, &[b"xyz"]),
        (9, &[]),
        (0, &[]),
    ];
    for (srvid, wanted) in table {
        for message in messages(alloc, srvid, b"xyz", 2)?.as_slice() {
            let answers = handlers.dispatch(message)?;
            assert!(rt; answers_are(answers.as_slice(), wanted), "service {srvid}");
        }
    }
    Ok(())
}
