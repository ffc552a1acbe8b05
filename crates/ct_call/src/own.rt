//! A call function of the caller's.
ghost use Rattle.ct_call.specs.Answers.{AnswersBy, IsCallable};
ghost use Rattle.ct_call.specs.Seen.{seen};

use crate::rule::Rule;
use ct_values::memory::NoMemory;
use ct_values::value::Value;

/// A function of a record's old value and a call's argument.
pub type Call = Box<dyn Fn(&Value, &Value) -> Result<Vec<u8>, NoMemory> + Send + Sync>;

/// A function with its number and its rule: it may be called, and each of its answers is the rule's value.
#[derive(Drop)]
pub(crate) struct Own {
    pub(crate) id: u32,
    pub(crate) rule: Rule,
    pub(crate) call: Call,
    ghost callable: { IsCallable (Call.pre call) },
    ghost ruled: { AnswersBy (Call.post call) (seen rule) },
}
