//! Why the outside refuses.
ghost use Rattle.std.specs.Prelude.{◌≡◌};

use std::alloc::AllocError;
use thiserror::Error;

/// The outside failed.
#[derive(Clone, Copy, Debug, PartialEq, Eq, Error)]
#[error("the outside failed")]
pub struct Failed;

/// Why a write is refused.
#[derive(Clone, Copy, Debug, PartialEq, Eq, Error)]
pub enum SinkFault {
    #[error("the outside failed")]
    Failed,
    /// This answer alone needs no cause.
    #[error("want of memory")]
    NoMemory,
}

impl From<AllocError> for SinkFault {
    ghost use Rattle.ct_outside.specs.declared.fault.SinkFault.TheVariants.{NoMemory as Want};

    ghost from_gives = { λ _ e. e ≡ Want };

    fn from(_e: AllocError) -> SinkFault {
        SinkFault::NoMemory
    }
}

/// Why a link refuses.
#[derive(Clone, Copy, Debug, PartialEq, Eq, Error)]
pub enum LinkFault {
    #[error("the outside failed")]
    Failed,
    /// This answer alone needs no cause.
    #[error("want of memory")]
    NoMemory,
}

impl From<AllocError> for LinkFault {
    ghost use Rattle.ct_outside.specs.declared.fault.LinkFault.TheVariants.{NoMemory as Want};

    ghost from_gives = { λ _ e. e ≡ Want };

    fn from(_e: AllocError) -> LinkFault {
        LinkFault::NoMemory
    }
}

/// Why the recovery lock is not given.
#[derive(Clone, Copy, Debug, PartialEq, Eq, Error)]
pub enum TakeFault {
    /// Another node holds it, with this ticket as the last one.
    #[error("node {holder} holds the lock with ticket {ticket}")]
    Held { holder: u32, ticket: u64 },
    /// The next ticket would be 2^62.
    #[error("no ticket is left")]
    Exhausted,
    #[error("the outside failed")]
    Failed,
    /// This answer alone needs no cause.
    #[error("want of memory")]
    NoMemory,
}

impl From<AllocError> for TakeFault {
    ghost use Rattle.ct_outside.specs.declared.fault.TakeFault.TheVariants.{NoMemory as Want};

    ghost from_gives = { λ _ e. e ≡ Want };

    fn from(_e: AllocError) -> TakeFault {
        TakeFault::NoMemory
    }
}

/// Why the recovery lock is not taken back.
#[derive(Clone, Copy, Debug, PartialEq, Eq, Error)]
pub enum ReleaseFault {
    /// Another node holds it, or none.
    #[error("the node does not hold the lock")]
    NotHolder(Option<u32>),
    #[error("the outside failed")]
    Failed,
}
