//! What a cluster consists of. While a step changes its parts one after the other, they need not be in form.
use ct_core::machine::Core;
use ct_frame::frame::Frame;
use ct_mail::mail::Mail;
use ct_rules_cluster::step::Line;
use ct_values::config::Config;
use ct_values::items::Items;
use std::alloc::Global;

/// Who holds the recovery lock, the last ticket that was given, and how many client calls got a number.
#[derive(Clone, Copy, Drop)]
pub(crate) struct Books {
    pub(crate) holder: Option<u32>,
    pub(crate) ticket: u64,
    pub(crate) calls: u64,
}

/// The configuration, the nodes with their marks, the messages and the books.
#[derive(Drop)]
pub(crate) struct Parts {
    pub(crate) alloc: Global,
    pub(crate) config: Config,
    pub(crate) cores: Items<Core>,
    pub(crate) running: Items<bool>,
    pub(crate) able: Items<bool>,
    pub(crate) mail: Mail,
    pub(crate) books: Books,
}

/// What a node's step becomes: the lines, the step's own first, and the messages.
#[derive(Drop)]
pub(crate) struct Told {
    pub(crate) lines: Vec<Line>,
    pub(crate) frames: Items<Frame>,
}
