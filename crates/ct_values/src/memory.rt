//! Want of memory, and why bytes are no key, value or name.
ghost use Rattle.std.specs.Prelude.{◌≡◌};

use std::alloc::{AllocError, AllocFailed};
use thiserror::Error;

/// Memory ran out. This answer alone needs no cause.
#[derive(Clone, Copy, Debug, PartialEq, Eq, Error)]
#[error("want of memory")]
pub struct NoMemory;

impl From<AllocError> for NoMemory {
    fn from(_e: AllocError) -> NoMemory {
        NoMemory
    }
}

impl<T: Drop> From<AllocFailed<T>> for NoMemory {
    fn from(_e: AllocFailed<T>) -> NoMemory {
        NoMemory
    }
}

/// Why bytes are no key, value or name.
#[derive(Debug, Drop, PartialEq, Eq, Error)]
pub enum BytesFault {
    /// The length is out of its range. It comes before a bad byte.
    #[error("{0} bytes")]
    BadLength(u64),
    /// The first offset of a byte that the rule of names forbids.
    #[error("a byte that no name has at {0}")]
    BadByte(u64),
    #[error("want of memory")]
    NoMemory,
}

impl From<AllocError> for BytesFault {
    ghost use Rattle.ct_values.specs.declared.memory.BytesFault.TheVariants.{NoMemory as Want};

    ghost from_gives = { λ _ e. e ≡ Want };

    fn from(_e: AllocError) -> BytesFault {
        BytesFault::NoMemory
    }
}
