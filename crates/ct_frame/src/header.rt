//! The header of a record's copy.
ghost use Rattle.std.specs.Prelude.{◌≡◌, ◌+◌, IfOk, nat_lt};
ghost use Rattle.ct_frame.specs.Header.{nobody, delegated, for_reading, being_revoked};

use ct_values::copies::Duplicate;
use ct_values::memory::NoMemory;
use ct_values::value::Value;

/// Every RSN, sequence number, ticket, and number of a request, a frame, a run or a client call is below this.
pub const LIMIT: u64 = 4611686018427387904;

/// The data master of a copy that its data master has given away.
pub const NONE: u32 = 4294967295;

/// The flag of a copy whose data master has handed out read-only copies.
pub const HAS_DELEGATIONS: u8 = 1;

/// The flag of a read-only copy.
pub const READ_ONLY_COPY: u8 = 2;

/// The flag of a copy whose data master calls the read-only copies in.
pub const BEING_REVOKED: u8 = 4;

/// The flags that these sum up to, and the number of no node, are those that the rules speak of.
pub fn words_of_the_rules()
    ensures nobody { NONE ≡ nobody }
    ensures delegated { HAS_DELEGATIONS ≡ delegated }
    ensures for_reading { READ_ONLY_COPY ≡ for_reading }
    ensures being_revoked { HAS_DELEGATIONS + BEING_REVOKED ≡ being_revoked }
{}

/// What is kept beside a record's value.
#[derive(Clone, Copy, Debug, PartialEq, Eq)]
pub struct Header {
    /// The record sequence number, which rises each time that the record moves to another node.
    pub rsn: u64,
    /// The number of the node whose copy is current, or `NONE`.
    pub dmaster: u32,
    /// The sum of the flags that are set.
    pub flags: u8,
}

impl Header {
    /// Whether its RSN is the greater one.
    pub fn newer(&self, other: &Header) -> bool
        ensures { result ≡ nat_lt other.now.rsn self.now.rsn }
    {
        other.rsn < self.rsn
    }

    /// A copy that equals it.
    pub fn copy(&self) -> Result<Header, NoMemory>
        ensures { result ≡ Ok self.now }
    {
        Ok(*self)
    }
}

impl Duplicate for Header {
    fn duplicate(&self) -> Result<Header, NoMemory> {
        self.copy()
    }
}

/// A copy of a record.
#[derive(Debug, PartialEq, Eq)]
pub struct RecCopy {
    pub header: Header,
    pub value: Value,
}

impl Drop for RecCopy {
    /// All that it holds is let go.
    fn drop(self) {
        let RecCopy {
            header: _,
            value: _,
        } = self;
    }
}

impl RecCopy {
    /// A copy that equals it.
    pub fn copy(&self) -> Result<RecCopy, NoMemory>
        ensures { IfOk result (λ x. x ≡ self.now) }
    {
        Ok(RecCopy {
            header: self.header,
            value: self.value.copy()?,
        })
    }
}

impl Duplicate for RecCopy {
    fn duplicate(&self) -> Result<RecCopy, NoMemory> {
        self.copy()
    }
}
