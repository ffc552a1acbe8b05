//! A handler of the caller's.
ghost use Rattle.ct_bus_exchange.specs.Handling.{AnswersBody, IsCallable};
ghost use Rattle.ct_call.specs.Seen.{seen};

use ct_call::rule::Rule;
use ct_values::memory::NoMemory;
use ct_values::value::Value;

/// A function of a message's body.
pub type Handler = Box<dyn Fn(&Value) -> Result<Vec<u8>, NoMemory> + Send + Sync>;

/// A function with its service and its rule: it may be called, and each of its answers is the rule's value.
#[derive(Drop)]
pub(crate) struct Own {
    pub(crate) srvid: u64,
    pub(crate) rule: Rule,
    pub(crate) handler: Handler,
    ghost callable: { IsCallable (Handler.pre handler) },
    ghost ruled: { AnswersBody (Handler.post handler) (seen rule) },
}
