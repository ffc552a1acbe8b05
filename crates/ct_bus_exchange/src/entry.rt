//! One handler.
ghost use Rattle.std.specs.Prelude.{◌≡◌, [], IfOk};
ghost use Rattle.ct_bus_exchange.specs.Named.{rule_in, service_of};
ghost use Rattle.ct_call.specs.Rules.{value_of};
ghost use Rattle.ct_call.specs.Seen.{seen};

use crate::own::Own;
use ct_call::rule::Rule;
use ct_values::memory::NoMemory;
use ct_values::value::Value;
use std::alloc::Global;

/// A rule with its service, and where its values are made.
#[derive(Drop)]
pub(crate) struct Plain {
    pub(crate) srvid: u64,
    pub(crate) rule: Rule,
    pub(crate) alloc: Global,
}

/// A function of the caller's, or one that computes its rule.
#[derive(Drop)]
pub(crate) enum Entry {
    Own(Own),
    Plain(Plain),
}

/// The caller's function answers.
fn own_answer(own: &Own, body: &Value) -> Result<Vec<u8>, NoMemory>
    ensures { IfOk result (λ bytes. bytes.items ≡ value_of (seen own.now.rule) [] body.now) }
{
    let _in_range = body.bytes().len();
    (own.handler)(body)
}

impl Entry {
    /// The service that it handles.
    pub(crate) fn srvid(&self) -> u64
        ensures { result ≡ service_of self.now }
    {
        match self {
            Entry::Own(own) => own.srvid,
            Entry::Plain(plain) => plain.srvid,
        }
    }

    /// Its answer to a body.
    pub(crate) fn answer(&self, body: &Value) -> Result<Vec<u8>, NoMemory>
        ensures { IfOk result (λ bytes. bytes.items ≡ value_of (rule_in self.now) [] body.now) }
    {
        match self {
            Entry::Own(own) => own_answer(own, body),
            Entry::Plain(plain) => {
                let none = Value::empty(plain.alloc);
                plain.rule.value(plain.alloc, &none, body)
            }
        }
    }
}
