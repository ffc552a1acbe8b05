//! What a command at a node may read.
use crate::machine::Core;

/// A node, and of every node whether it runs and whether it is able to hold addresses.
#[derive(Clone, Copy)]
pub struct View<'a> {
    pub core: &'a Core,
    pub running: &'a [bool],
    pub able: &'a [bool],
}
