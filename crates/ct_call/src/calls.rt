//! What a table of call functions is told and answers.
ghost use Rattle.std.specs.Prelude.{◌≡◌, IsTrue, IfOk, MatchOption, Some, None, []};
ghost use Rattle.ct_call.specs.Answers.{AnswersBy, IsCallable};
ghost use Rattle.ct_call.specs.Named.{id_of, named, rule_in};
ghost use Rattle.ct_call.specs.Rules.{are_distinct, is_known, rule_of, value_of};
ghost use Rattle.ct_call.specs.Seen.{seen};
ghost use Rattle.ct_call.specs.Shown.{rules_of};
ghost use Rattle.ct_call.specs.Table.{Adds, Applies, Pushes, applied};

use crate::entry::{Entry, Plain};
use crate::fault::{AddFault, CallFault};
use crate::own::{Call, Own};
use crate::rule::Rule;
use crate::table::CallTable;
use ct_values::memory::NoMemory;
use ct_values::value::Value;
use std::alloc::Global;

/// The caller's function answers.
fn own_answer(own: &Own, old: &Value, arg: &Value) -> Result<Vec<u8>, NoMemory>
    ensures { IfOk result (λ bytes. bytes.items ≡ value_of (seen own.now.rule) old.now arg.now) }
{
    let _in_range = old.bytes().len() + arg.bytes().len();
    (own.call)(old, arg)
}

/// The function's answer.
fn answer(entry: &Entry, old: &Value, arg: &Value) -> Result<Vec<u8>, NoMemory>
    ensures { IfOk result (λ bytes. bytes.items ≡ value_of (rule_in entry.now) old.now arg.now) }
{
    match entry {
        Entry::Own(own) => own_answer(own, old, arg),
        Entry::Plain(plain) => plain.rule.value(plain.alloc, old, arg),
    }
}

/// The function with this number.
fn find(calls: &[Entry], id: u32) -> Option<&Entry>
    ensures { MatchOption result (rule_of id (named calls.now) ≡ None) (λ e. rule_of id (named calls.now) ≡ Some (rule_in e.now)) }
{
    for entry in calls {
        if entry.id() == id {
            return Some(entry);
        }
    }
    None
}

/// One more function after all others.
#[tactic(auto, using(crate::proofs::Distinct::named_push))]
fn push(calls: &mut Vec<Entry>, entry: Entry) -> Result<(), AddFault>
    ensures { Pushes result (id_of entry) (rule_in entry) (named calls.old.items) (named calls.new.items) }
{
    match calls.push(entry) {
        Ok(()) => Ok(()),
        Err(_) => Err(AddFault::NoMemory),
    }
}

impl CallTable {
    /// No function. It takes no memory.
    pub fn new(alloc: Global) -> CallTable
        ensures { rules_of result ≡ [] }
    {
        CallTable {
            calls: Vec::new(alloc),
        }
    }

    /// Adds a function after all others. It may be called at any two values, and each of its answers is the rule's value.
    /// `Repeated` comes exactly where a function has this number. Nothing changes at a fault, and the function is let go.
    #[tactic(auto, using(crate::proofs::Distinct::distinct_pushed))]
    pub fn add(&mut self, id: u32, rule: Rule, f: Call) -> Result<(), AddFault>
        requires callable { IsCallable (Call.pre f) }
        requires ruled { AnswersBy (Call.post f) (seen rule) }
        ensures { Adds result id (seen rule) (rules_of self.old) (rules_of self.new) }
    {
        if self.knows(id) {
            return Err(AddFault::Repeated(id));
        }
        push(&mut self.calls, Entry::Own(Own { id, rule, call: f }))
    }

    /// Adds a function that computes its rule after all others. `Repeated` comes exactly where a function has this
    /// number. Nothing changes at a fault.
    #[tactic(auto, using(crate::proofs::Distinct::distinct_pushed))]
    pub fn add_rule(&mut self, alloc: Global, id: u32, rule: Rule) -> Result<(), AddFault>
        ensures { Adds result id (seen rule) (rules_of self.old) (rules_of self.new) }
    {
        if self.knows(id) {
            return Err(AddFault::Repeated(id));
        }
        push(&mut self.calls, Entry::Plain(Plain { id, rule, alloc }))
    }

    /// Has a function this number? No number stands twice. It takes no memory.
    pub fn knows(&self, id: u32) -> bool
        ensures known { result ≡ is_known id (rules_of self.now) }
        ensures distinct { IsTrue (are_distinct (rules_of self.now)) }
    {
        find(self.calls.as_slice(), id).is_some()
    }

    /// The rule of the function with this number. It takes no memory.
    pub fn rule_of(&self, id: u32) -> Option<&Rule>
        ensures { MatchOption result (rule_of id (rules_of self.now) ≡ None) (λ r. rule_of id (rules_of self.now) ≡ Some (seen r.now)) }
    {
        match find(self.calls.as_slice(), id) {
            Some(entry) => Some(entry.rule()),
            None => None,
        }
    }

    /// The value of a function's rule. `NoSuchCall` comes exactly where no function has this number, and `TooLong` only
    /// where the value has more than 1,024 bytes, with its length; it has no other answer there but want of memory.
    pub fn apply(&self, id: u32, old: &Value, arg: &Value) -> Result<Value, CallFault>
        ensures { Applies result (applied id old.now arg.now (rules_of self.now)) }
    {
        let entry = match find(self.calls.as_slice(), id) {
            Some(entry) => entry,
            None => return Err(CallFault::NoSuchCall),
        };
        let bytes = match answer(entry, old, arg) {
            Ok(bytes) => bytes,
            Err(_) => return Err(CallFault::NoMemory),
        };
        let length = bytes.len() as u64;
        match Value::from_vec(bytes) {
            Ok(Some(value)) => Ok(value),
            Ok(None) => Err(CallFault::TooLong(length)),
            Err(_) => Err(CallFault::NoMemory),
        }
    }
}
