//! What may be done with an address, and which of it comes first.
ghost use Rattle.std.specs.Prelude.{◌≡◌};
ghost use Rattle.ct_lcp2.specs.Best.{better};
ghost use Rattle.ct_lcp2.specs.Placing.{choice_before, source_before};

use ct_values::address::Address;

/// To put an address at a node, which has this sum.
#[derive(Clone, Copy, Debug, PartialEq, Eq)]
pub struct Choice {
    pub sum: u64,
    pub address: Address,
    pub node: u32,
}

/// A node from which an address may fail back, its imbalance, and its best move.
#[derive(Clone, Copy, Debug, PartialEq, Eq)]
pub struct Source {
    pub imbalance: u64,
    pub node: u32,
    pub choice: Choice,
}

impl Choice {
    /// The least sum comes first, of equal ones the lower address, and then the lower node.
    fn comes_before(&self, other: &Choice) -> bool
        ensures { result ≡ choice_before self.now other.now }
    {
        self.sum < other.sum
            || (self.sum == other.sum
                && (self.address < other.address
                    || (self.address == other.address && self.node < other.node)))
    }

    /// This one where it comes before the best so far.
    pub fn or_better(self, best: Option<Choice>) -> Option<Choice>
        ensures { result ≡ better choice_before best self }
    {
        match best {
            None => Some(self),
            Some(other) => if self.comes_before(&other) {
                Some(self)
            } else {
                Some(other)
            },
        }
    }
}

impl Source {
    /// Sources are tried by falling imbalance, and of equal ones the lower node first.
    fn comes_before(&self, other: &Source) -> bool
        ensures { result ≡ source_before self.now other.now }
    {
        self.imbalance > other.imbalance
            || (self.imbalance == other.imbalance && self.node < other.node)
    }

    /// This one where it comes before the best so far.
    pub fn or_better(self, best: Option<Source>) -> Option<Source>
        ensures { result ≡ better source_before best self }
    {
        match best {
            None => Some(self),
            Some(other) => if self.comes_before(&other) {
                Some(self)
            } else {
                Some(other)
            },
        }
    }
}
