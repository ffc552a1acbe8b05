//! A whole scenario: its lines, each in its place, as they are read from bytes and written.
//!
//! ```
//! let scenario = parse(alloc, bytes)?;
//! let text = print(alloc, &scenario)?;
//! ```
#![tactic(auto)]

pub mod laws;
pub mod parse;
pub mod print;
pub mod scenario;
#[cfg(test)]
mod tests;
