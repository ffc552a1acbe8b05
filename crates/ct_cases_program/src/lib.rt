//! The program's words, its sessions and their texts, against the answers that are wanted.
#![tactic(auto)]

#[cfg(test)]
mod mail;
#[cfg(test)]
mod pending;
#[cfg(test)]
mod placer;
#[cfg(test)]
mod placing;
#[cfg(test)]
mod play;
#[cfg(test)]
mod schedule_run;
#[cfg(test)]
mod soak;
#[cfg(test)]
mod soak_run;
#[cfg(test)]
mod words;
