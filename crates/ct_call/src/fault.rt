//! Why a call function is not added, and why one gives no value.
use thiserror::Error;

/// Why a function is not added.
#[derive(Clone, Copy, Debug, PartialEq, Eq, Error)]
pub enum AddFault {
    /// A function has this number already. It comes before want of memory.
    #[error("the function {0} twice")]
    Repeated(u32),
    #[error("want of memory")]
    NoMemory,
}

/// Why a call gives no value.
#[derive(Clone, Copy, Debug, PartialEq, Eq, Error)]
pub enum CallFault {
    /// No function has this number. It comes before want of memory.
    #[error("no such call")]
    NoSuchCall,
    /// The value would have so many bytes: more than 1,024.
    #[error("a value of {0} bytes")]
    TooLong(u64),
    #[error("want of memory")]
    NoMemory,
}
