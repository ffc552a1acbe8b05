//! What every exchange promises, whatever carries the messages.
ghost use Rattle.std.specs.Prelude.{ℕ};
ghost use Rattle.ct_bus_exchange.specs.Exchange.{AreScripts, Exchanges};
ghost use Rattle.ct_bus_exchange.specs.Shown.{handled_by};

use crate::handled::Handled;
use crate::handlers::Handlers;
use ct_bus::message::Message;
use ct_values::items::Items;
use ct_values::memory::NoMemory;
use std::alloc::Global;

/// Nodes that post to each other what they have for each, and handle what comes. The count of exchanges never falls: each that is
/// answered raises it, and nothing else does.
pub trait BusTroupe {
    /// How many exchanges were answered.
    ghost exchanges: { Self → ℕ };

    /// What an exchange asks of who calls it, such as that what its threads share may be shared.
    ghost ready: { Self → Type 0 };

    /// Posts what each node has for each, by sender and then receiver, and answers by receiver and then sender what was handled:
    /// each message that was posted, in order, whole and once, with what its handlers answer. It may wait.
    fn exchange(
        &mut self,
        alloc: Global,
        scripts: &[Items<Items<Message>>],
        handlers: &Handlers,
    ) -> Result<Vec<Items<Items<Handled>>>, NoMemory>
        requires scripts { AreScripts scripts.now }
        requires ready { ready self.old }
        ensures { Exchanges (handled_by handlers.now) scripts.now result (exchanges self.old) (exchanges self.new) };
}
