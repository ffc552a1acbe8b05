//! Whole exchanges, on one thread and over a bus.
ghost use Rattle.std.specs.Prelude.{◌≡◌, IfOk};
ghost use Rattle.ct_bus_exchange.specs.Exchange.{AreScripts};

use crate::handling::{answers_are, three_services};
use crate::messages::{between, messages};
use ct_bus::message::Message;
use ct_bus_exchange::handled::Handled;
use ct_bus_exchange::handlers::Handlers;
use ct_bus_exchange::own::Handler;
use ct_bus_exchange::troupe::BusTroupe;
use ct_bus_exchange::turns::BusTurns;
use ct_bus_threads::threads::BusThreads;
use ct_call::rule::Rule;
use ct_outside::gate::OpenGate;
use ct_values::items::Items;
use ct_values::memory::NoMemory;
use ct_values::value::Value;
use std::alloc::Global;
use std::sync::Arc;
use std::sync::atomic::{AtomicU64, Ordering};
use std::test::Fail;

// Has the node handled so many of these messages, in order, with these answers to each?
fn has_handled(all: &[Handled], srvid: u64, count: usize, wanted: &[&[u8]]) -> bool {
    for (place, handled) in all.iter().enumerate() {
        if handled.message.srvid != srvid || handled.message.place != place as u64 {
            return false;
        }
        if !answers_are(handled.answers.as_slice(), wanted) {
            return false;
        }
    }
    all.len() == count
}

// What one node handled of another one.
fn handled_of(all: &[Items<Items<Handled>>], receiver: usize, sender: usize) -> &[Handled] {
    match all.get(receiver) {
        Some(row) => match row.as_slice().get(sender) {
            Some(handled) => handled.as_slice(),
            None => &[],
        },
        None => &[],
    }
}

// The first node has 300 messages for service 2 of the other, and that one has 70 for service 1 of the first.
fn scripts(alloc: Global) -> Result<Vec<Items<Items<Message>>>, Fail>
    ensures { IfOk result (λ v. AreScripts v.items) }
{
    between(
        alloc,
        messages(alloc, 2, b"abc", 300)?,
        messages(alloc, 1, b"xy", 70)?,
    )
}

// Are all handled?
fn are_handled(all: &[Items<Items<Handled>>]) -> bool {
    all.len() == 2
        && has_handled(handled_of(all, 0, 0), 0, 0, &[])
        && has_handled(handled_of(all, 0, 1), 1, 70, &[b"xyxy"])
        && has_handled(handled_of(all, 1, 0), 2, 300, &[b"a", b"abc"])
        && has_handled(handled_of(all, 1, 1), 0, 0, &[])
}

#[test]
fn on_one_thread(rt: HostRuntime) -> Result<(), Fail> {
    let alloc = rt.alloc();
    let handlers = three_services(alloc)?;
    let scripts = scripts(alloc)?;
    let mut turns = BusTurns::new();
    for _ in 0..2u32 {
        let all = turns.exchange(alloc, scripts.as_slice(), &handlers)?;
        assert!(rt; are_handled(all.as_slice()));
    }
    Ok(())
}

#[test]
fn in_threads(rt: HostRuntime) -> Result<(), Fail> {
    let alloc = rt.alloc();
    let handlers = three_services(alloc)?;
    let scripts = scripts(alloc)?;
    let gates: Vec<OpenGate> = Vec::new(alloc);
    let mut threads = BusThreads::new(&rt, gates);
    for _ in 0..2u32 {
        let all = threads.exchange(alloc, scripts.as_slice(), &handlers)?;
        assert!(rt; are_handled(all.as_slice()));
    }
    Ok(())
}

// The bytes of the body; want of memory at this one of its calls alone.
fn failing(
    alloc: Global,
    calls: &AtomicU64,
    failing: u64,
    body: &Value,
) -> Result<Vec<u8>, NoMemory>
    ensures { IfOk result (λ v. v.items ≡ body.now) }
{
    let before = calls.fetch_add(1, Ordering::SeqCst);
    if before.saturating_add(1) == failing {
        return Err(NoMemory);
    }
    Ok(Vec::from_slice(alloc, body.bytes())?)
}

// Service 0 answers the body, but wants memory at this one of its calls.
fn fails_at(alloc: Global, calls: Arc<AtomicU64, Global>, number: u64) -> Result<Handlers, Fail> {
    let mut handlers = Handlers::new(alloc);
    let f: Handler = Box::new(
        alloc,
        move |body: &Value| -> Result<Vec<u8>, NoMemory>
            ensures { IfOk result (λ v. v.items ≡ body.now) }
        { failing(alloc, &calls, number, body) },
    )?;
    handlers.add(0, Rule::Arg, f)?;
    Ok(handlers)
}

// An exchange of 1,000 messages ends, and wants memory at the 500th.
fn wants_memory<B: BusTroupe>(alloc: Global, troupe: &mut B) -> Result<bool, Fail>
    requires { B.ready troupe.old }
{
    let calls = Arc::new(alloc, AtomicU64::new(0))?;
    let handlers = fails_at(alloc, Arc::try_clone(&calls)?, 500)?;
    let scripts = between(alloc, messages(alloc, 0, b"m", 1000)?, Items::empty(alloc))?;
    let failed = troupe
        .exchange(alloc, scripts.as_slice(), &handlers)
        .is_err();
    let called = calls.load(Ordering::SeqCst);
    if called < 500 {
        Err(NoMemory)?;
    }
    Ok(failed && called == 500)
}

#[test]
fn a_handler_wants_memory_on_one_thread(rt: HostRuntime) -> Result<(), Fail> {
    let alloc = rt.alloc();
    let mut turns = BusTurns::new();
    assert!(rt; wants_memory(alloc, &mut turns)?);
    Ok(())
}

#[test]
fn a_handler_wants_memory_in_threads(rt: HostRuntime) -> Result<(), Fail> {
    let alloc = rt.alloc();
    let gates: Vec<OpenGate> = Vec::new(alloc);
    let mut threads = BusThreads::new(&rt, gates);
    assert!(rt; wants_memory(alloc, &mut threads)?);
    Ok(())
}
