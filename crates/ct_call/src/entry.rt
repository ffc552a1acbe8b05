//! One call function.
ghost use Rattle.std.specs.Prelude.{◌≡◌};
ghost use Rattle.ct_call.specs.Named.{id_of, rule_in};
ghost use Rattle.ct_call.specs.Seen.{seen};

use crate::own::Own;
use crate::rule::Rule;
use std::alloc::Global;

/// A rule with its number, and where its values are made.
#[derive(Drop)]
pub(crate) struct Plain {
    pub(crate) id: u32,
    pub(crate) rule: Rule,
    pub(crate) alloc: Global,
}

/// A function of the caller's, or one that computes its rule.
#[derive(Drop)]
pub(crate) enum Entry {
    Own(Own),
    Plain(Plain),
}

impl Entry {
    pub(crate) fn id(&self) -> u32
        ensures { result ≡ id_of self.now }
    {
        match self {
            Entry::Own(own) => own.id,
            Entry::Plain(plain) => plain.id,
        }
    }

    pub(crate) fn rule(&self) -> &Rule
        ensures { seen result.now ≡ rule_in self.now }
    {
        match self {
            Entry::Own(own) => &own.rule,
            Entry::Plain(plain) => &plain.rule,
        }
    }
}
