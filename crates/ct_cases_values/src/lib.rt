//! The plain values, against values from outside.
#![tactic(auto)]

#[cfg(test)]
mod address;
#[cfg(test)]
mod bytes;
#[cfg(test)]
mod call;
#[cfg(test)]
mod fields;
#[cfg(test)]
mod frame;
#[cfg(test)]
mod msg;
#[cfg(test)]
mod number;
#[cfg(test)]
mod spelling;
#[cfg(test)]
mod store;
#[cfg(test)]
mod vnn;
