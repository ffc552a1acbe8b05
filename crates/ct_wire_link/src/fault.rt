//! Why frames are not sent.
ghost use Rattle.std.specs.Prelude.{◌≡◌};

use ct_values::memory::NoMemory;
use thiserror::Error;

/// Why frames are not sent.
#[derive(Clone, Copy, Debug, PartialEq, Eq, Error)]
pub enum SendFault {
    /// The link failed.
    #[error("the link failed")]
    Link,
    /// A frame would have so many bytes, above what a frame may have.
    #[error("a frame of {0} bytes")]
    TooLong(u64),
    /// This answer alone needs no cause.
    #[error("want of memory")]
    NoMemory,
}

impl From<NoMemory> for SendFault {
    ghost use Rattle.ct_wire_link.specs.declared.fault.SendFault.TheVariants.{NoMemory as Want};

    ghost from_gives = { λ _ e. e ≡ Want };

    fn from(_e: NoMemory) -> SendFault {
        SendFault::NoMemory
    }
}
