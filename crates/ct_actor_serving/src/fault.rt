//! How serving ends.
ghost use Rattle.std.specs.Prelude.{◌≡◌};

use ct_values::memory::NoMemory;
use thiserror::Error;

/// How serving ends where nothing went wrong.
#[derive(Clone, Copy, Debug, PartialEq, Eq)]
pub enum Served {
    /// Nothing will come any more.
    Closed,
    /// The node had its turns, or its journal has its entries.
    Budget,
}

/// How long a node serves where nothing ends it before.
#[derive(Clone, Copy, Debug, PartialEq, Eq)]
pub enum Until {
    /// So many turns.
    Turns(u64),
    /// As many turns as there may be, until its journal has so many entries.
    Entries(u64),
}

/// What a number would reach 2^62 of.
#[derive(Clone, Copy, Debug, PartialEq, Eq)]
pub enum AtLimit {
    /// The lock has no ticket left for the round that is the next item of the script.
    Ticket,
    /// The call that is the next item of the script, under the number after that of the last one.
    Call,
    /// The round that is the next item of the script, in the generation of this ticket.
    Round(u64),
    /// The next message of this sender, which its pieces complete, arrives.
    Message { sender: u32 },
}

/// Why serving ends too early. The node is where its journal leaves it.
#[derive(Clone, Copy, Debug, PartialEq, Eq, Error)]
pub enum ServeFault {
    /// The link or the lock failed.
    #[error("the link failed")]
    Link,
    /// The bytes of a sender break a rule at this offset of a frame, or the frame names another node there.
    #[error("bytes of node {sender} are no frame of it, at offset {offset}")]
    Foreign { sender: u32, offset: u64 },
    /// Another node holds the recovery lock.
    #[error("node {holder} holds the lock")]
    Held { holder: u32 },
    /// A message of the last entry, which was made while the node served, would have so many bytes, above what a frame may
    /// have.
    #[error("a frame of {0} bytes")]
    TooLong(u64),
    /// No ticket is left, or the rules give no step of this next event, since a number would reach 2^62.
    #[error("a number would reach 2^62")]
    Exhausted(AtLimit),
    /// This answer alone needs no cause.
    #[error("want of memory")]
    NoMemory,
}

impl From<NoMemory> for ServeFault {
    ghost use Rattle.ct_actor_serving.specs.declared.fault.ServeFault.TheVariants.{NoMemory as Want};

    ghost from_gives = { λ _ e. e ≡ Want };

    fn from(_e: NoMemory) -> ServeFault {
        ServeFault::NoMemory
    }
}
