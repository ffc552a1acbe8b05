//! An exchange over a bus, by the numbers of the words.
ghost use Rattle.ct_main.specs.Handed as handed;
ghost use Rattle.ct_main.specs.Claims.{bus_wanted_by};
ghost use Rattle.ct_words.specs.Reading.{HasBusRange};

use ct_bus_exchange::handlers::Handlers;
use ct_bus_exchange::troupe::BusTroupe;
use ct_bus_run::generated::BusWanted;
use ct_bus_run::running::{BusEnd, bus};
use ct_outside::sink::Sink;
use ct_words::words::BusNumbers;
use std::alloc::Global;

/// The troupe exchanges the messages that the numbers make, and the text of what was handled is written.
#[tactic(auto, using(crate::proofs::Ranged::in_bus_range))]
pub(crate) fn exchange<K: Sink, B: BusTroupe>(
    alloc: Global,
    numbers: &BusNumbers,
    handlers: &Handlers,
    out: &mut K,
    troupe: &mut B,
) -> BusEnd
    requires range { HasBusRange numbers.now }
    requires ready { B.ready troupe.old }
    ensures ends { handed.BusEnds (handed.handled_by handlers.now) (bus_wanted_by numbers.now) result (K.held out.old) (K.held out.new) }
    ensures cause { handed.HasBusCause result (B.exchanges troupe.old) (B.exchanges troupe.new) (K.faults out.old) (K.faults out.new) }
{
    let wanted = BusWanted {
        nodes: numbers.nodes,
        messages: numbers.messages,
        seed: numbers.seed,
    };
    bus(alloc, &wanted, handlers, out, troupe)
}
