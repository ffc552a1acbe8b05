//! What a node plays.

use ct_call::table::CallTable;
use ct_script::plan::PlanItem;
use std::alloc::Global;

/// What a node plays: its script, by the functions of this table, in this memory.
#[derive(Clone, Copy)]
pub(crate) struct Part<'a> {
    pub alloc: Global,
    pub table: &'a CallTable,
    pub script: &'a [PlanItem],
}
