//! Why a line is refused, or was not played.
ghost use Rattle.std.specs.Prelude.{◌≡◌};

use ct_lines::line::LineKind;
use ct_values::memory::NoMemory;
use std::alloc::AllocFailed;

/// Why a whole line is refused.
#[derive(Clone, Copy, Debug, PartialEq, Eq)]
pub enum What {
    /// It is no line in its place.
    Line(LineKind),
    /// It names a node that is not there, the first such one.
    NoSuchNode(u32),
    /// Its node is down.
    NodeDown(u32),
    /// Its node runs.
    NodeUp(u32),
    /// It names a database that is not declared.
    NoSuchDb,
    /// The database is of another kind.
    WrongKind,
    /// Its node serves no clients.
    NotServing(u32),
    /// Its node does not lead its generation, or the round that it leads is not completed.
    NotLeader(u32),
    /// No message of this number waits or, where it is to come again, was delivered.
    NoSuchFrame(u64),
    /// The same of a message of traverses.
    NoSuchTframe(u64),
    /// Its node is no member of the round that it is to lead.
    NotMember(u32),
    /// This other node holds the recovery lock.
    LockHeld(u32),
    /// Its node does not hold the recovery lock.
    NotHolder,
    /// A number would reach 2^62.
    Exhausted,
}

/// Why a line was not played.
#[derive(Clone, Copy, Debug, PartialEq, Eq)]
pub enum PlayFault {
    Refused(What),
    NoMemory,
}

impl From<NoMemory> for PlayFault {
    ghost use Rattle.ct_play_text.specs.declared.what.PlayFault.TheVariants.{NoMemory as Want};

    ghost from_gives = { λ _ e. e ≡ Want };

    fn from(_e: NoMemory) -> PlayFault {
        PlayFault::NoMemory
    }
}

impl<T: Drop> From<AllocFailed<T>> for PlayFault {
    ghost use Rattle.ct_play_text.specs.declared.what.PlayFault.TheVariants.{NoMemory as Want};

    ghost from_gives = { λ _ e. e ≡ Want };

    fn from(_e: AllocFailed<T>) -> PlayFault {
        PlayFault::NoMemory
    }
}
