//! An exchange on one thread.
ghost use Rattle.std.specs.Prelude.{◌≡◌, ◌≤◌, IfOk, length, map};
ghost use Rattle.ct_bus_exchange.specs.Exchange.{exchanged, exchanged_for, script};
ghost use Rattle.ct_bus_exchange.specs.Handling.{handled};
ghost use Rattle.ct_bus_exchange.specs.Shown.{handled_by};

use crate::handled::Handled;
use crate::handlers::Handlers;
use crate::scripts::script_of;
use crate::troupe::BusTroupe;
use ct_bus::message::Message;
use ct_values::items::Items;
use ct_values::memory::NoMemory;
use std::alloc::Global;

/// Exchanges on one thread, without a bus: what each node has for each is handled in turn. Its count stops at 2^64 - 1.
#[derive(Drop)]
pub struct BusTurns {
    exchanges: u64,
}

impl BusTurns {
    /// Nothing was exchanged. It takes no memory.
    pub fn new() -> BusTurns
        ensures { result.exchanges ≡ 0 }
    {
        BusTurns { exchanges: 0 }
    }
}

/// What one node handles of each.
fn handled_for(
    alloc: Global,
    scripts: &[Items<Items<Message>>],
    handlers: &Handlers,
    receiver: usize,
) -> Result<Items<Items<Handled>>, NoMemory>
    ensures { IfOk result (λ v. v ≡ exchanged_for (handled_by handlers.now) receiver scripts.now) }
{
    let mut all = Items::empty(alloc);
    for row in scripts {
        let script = match row.as_slice().get(receiver) {
            Some(script) => script.as_slice(),
            None => &[],
        };
        all.push(handlers.handle_all(script)?)?;
    }
    Ok(all)
}

/// What each node handles of each.
fn handled_by_all(
    alloc: Global,
    scripts: &[Items<Items<Message>>],
    handlers: &Handlers,
) -> Result<Vec<Items<Items<Handled>>>, NoMemory>
    ensures { IfOk result (λ v. v.items ≡ exchanged (handled_by handlers.now) scripts.now) }
{
    let mut all = Vec::new(alloc);
    for receiver in 0..scripts.len() {
        all.push(handled_for(alloc, scripts, handlers, receiver)?)?;
    }
    Ok(all)
}

impl BusTroupe for BusTurns {
    ghost exchanges = { λ t. t.exchanges };

    ghost ready = { λ _. Unit {0} };

    fn exchange(
        &mut self,
        alloc: Global,
        scripts: &[Items<Items<Message>>],
        handlers: &Handlers,
    ) -> Result<Vec<Items<Items<Handled>>>, NoMemory> {
        match handled_by_all(alloc, scripts, handlers) {
            Ok(all) => {
                self.exchanges = self.exchanges.saturating_add(1);
                Ok(all)
            }
            Err(NoMemory) => Err(NoMemory),
        }
    }
}
