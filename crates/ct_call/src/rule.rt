//! What the answer of a call function is.
ghost use Rattle.std.specs.Prelude.{◌≡◌, IfOk};
ghost use Rattle.ct_call.specs.Rules.{value_of};
ghost use Rattle.ct_call.specs.Seen.{seen};

use ct_values::memory::NoMemory;
use ct_values::value::Value;
use std::alloc::Global;

/// What the answer is, from the old value of the record and the call's argument.
#[derive(Debug)]
pub enum Rule {
    /// The old value.
    Old,
    /// The argument.
    Arg,
    /// The first answer, then the second.
    Join(Box<Rule>, Box<Rule>),
    /// At most so many first bytes of the answer.
    Cut(u32, Box<Rule>),
}

impl Drop for Rule {
    /// All that it holds is let go.
    fn drop(self) {
        match self {
            Rule::Old => {}
            Rule::Arg => {}
            Rule::Join(_, _) => {}
            Rule::Cut(_, _) => {}
        }
    }
}

impl Rule {
    /// A copy: the same rule in boxes of its own.
    pub fn copy(&self, alloc: Global) -> Result<Rule, NoMemory>
        ensures { IfOk result (λ r. seen r ≡ seen self.now) }
    {
        match self {
            Rule::Old => Ok(Rule::Old),
            Rule::Arg => Ok(Rule::Arg),
            Rule::Join(first, second) => {
                let one = Box::new(alloc, first.copy(alloc)?)?;
                let other = Box::new(alloc, second.copy(alloc)?)?;
                Ok(Rule::Join(one, other))
            }
            Rule::Cut(count, of) => {
                let inner = Box::new(alloc, of.copy(alloc)?)?;
                Ok(Rule::Cut(*count, inner))
            }
        }
    }

    /// The rule's value.
    pub fn value(&self, alloc: Global, old: &Value, arg: &Value) -> Result<Vec<u8>, NoMemory>
        ensures { IfOk result (λ bytes. bytes.items ≡ value_of (seen self.now) old.now arg.now) }
    {
        match self {
            Rule::Old => Ok(Vec::from_slice(alloc, old.bytes())?),
            Rule::Arg => Ok(Vec::from_slice(alloc, arg.bytes())?),
            Rule::Join(first, second) => {
                let mut bytes = first.value(alloc, old, arg)?;
                let rest = second.value(alloc, old, arg)?;
                bytes.extend_from_slice(rest.as_slice())?;
                Ok(bytes)
            }
            Rule::Cut(count, of) => {
                let mut bytes = of.value(alloc, old, arg)?;
                bytes.truncate(*count as usize);
                Ok(bytes)
            }
        }
    }
}
