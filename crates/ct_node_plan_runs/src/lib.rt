//! Plans for retries and takeover runs.
//!
//! What was not answered is sent again: what is planned of a Retry.
//!
//! Takeover runs at a node: what is planned where one begins, and of its messages.
#![tactic(auto)]

pub mod begin;
pub mod follow;
pub mod lead;
pub mod retry;
