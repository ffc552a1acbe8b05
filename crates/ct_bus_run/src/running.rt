//! From the numbers of an exchange to its text.
ghost use Rattle.std.specs.Prelude.{◌≡◌, ◌≤◌, length, IfOk};
ghost use Rattle.ct_outside.specs.Causes.{Rose};
ghost use Rattle.ct_bus_exchange.specs.Exchange.{exchanged};
ghost use Rattle.ct_bus_exchange.specs.Shown.{handled_by};
ghost use Rattle.ct_bus_run.specs.Ends.{BusEnds, HasBusCause, Writes};
ghost use Rattle.ct_bus_run.specs.Generated.{generated};
ghost use Rattle.ct_bus_run.specs.Numbers.{HasExchangeRange};
ghost use Rattle.ct_bus_run.specs.declared.running.BusEnd.TheVariants as ended;

use crate::generated::{BusWanted, generated};
use crate::text::rows_text;
use ct_bus_exchange::handlers::Handlers;
use ct_bus_exchange::troupe::BusTroupe;
use ct_outside::fault::SinkFault;
use ct_outside::sink::{Sink, write_all};
use std::alloc::Global;

/// How an exchange that is written ends.
#[derive(Clone, Copy, Debug, PartialEq, Eq)]
pub enum BusEnd {
    /// The text is written.
    Done,
    WriteFault,
    NoMemory,
}

/// Writes the text, which ends the run.
fn write_text<K: Sink>(text: &[u8], out: &mut K) -> BusEnd
    ensures writes { Writes result text.now (K.held out.old) (K.held out.new) }
    ensures later { K.faults out.old ≤ K.faults out.new }
    ensures failed { result ≡ ended.WriteFault → Rose (K.faults out.old) (K.faults out.new) }
{
    match write_all(out, text) {
        Ok(()) => BusEnd::Done,
        Err(SinkFault::Failed) => BusEnd::WriteFault,
        Err(SinkFault::NoMemory) => BusEnd::NoMemory,
    }
}

/// The troupe exchanges the messages that the seed makes, and the text of what was handled is written to out: exactly the bus
/// text of these numbers and of the rules of these handlers, whatever the schedule of the threads.
#[tactic(auto, using(crate::proofs::Ending::unwritten, crate::proofs::Ending::written, crate::proofs::Ending::uncaused))]
pub fn bus<K: Sink, B: BusTroupe>(
    alloc: Global,
    wanted: &BusWanted,
    handlers: &Handlers,
    out: &mut K,
    troupe: &mut B,
) -> BusEnd
    requires range { HasExchangeRange wanted.now }
    requires ready { B.ready troupe.old }
    ensures ends { BusEnds (handled_by handlers.now) wanted.now result (K.held out.old) (K.held out.new) }
    ensures cause { HasBusCause result (B.exchanges troupe.old) (B.exchanges troupe.new) (K.faults out.old) (K.faults out.new) }
{
    let scripts = match generated(alloc, wanted) {
        Ok(scripts) => scripts,
        Err(_) => return BusEnd::NoMemory,
    };
    let all = match troupe.exchange(alloc, scripts.as_slice(), handlers) {
        Ok(all) => all,
        Err(_) => return BusEnd::NoMemory,
    };
    match rows_text(alloc, all.as_slice()) {
        Ok(text) => write_text(text.as_slice(), out),
        Err(_) => BusEnd::NoMemory,
    }
}
