//! The merge of a round, pull by pull.
ghost use Rattle.std.specs.Prelude.{◌≡◌, true, length, map, IfOk, OnOk, OnErr};
ghost use Rattle.ct_merge.specs.Gathered.{nothing, gathered, greater, assigned_to, merged_rows, merged_ptables, merged_addresses, finished, IsGathered};
ghost use Rattle.ct_merge.specs.Held.{is_in_order};

use crate::held::{HeldAddress, HeldPTable, HeldRow, based_rows, held_addresses, held_ptables};
use crate::merged::{Merged, MergedAll, PMerged};
use crate::placing::{join, room_for};
use ct_frame::frame::{Assigned, PTable, TableRow};
use ct_frame::round::Pull;
use ct_values::copies::Duplicate;
use ct_values::items::Items;
use ct_values::memory::NoMemory;
use std::alloc::Global;
use std::marker::Model;

/// What is gathered of the pulls so far: one table, and not one of each pull.
#[derive(Debug)]
pub struct Merging {
    alloc: Global,
    nodes: Vec<u32>,
    vbase: u64,
    rows: Vec<HeldRow>,
    pbase: u64,
    ptables: Vec<HeldPTable>,
    addresses: Vec<HeldAddress>,
}

impl Drop for Merging {
    /// All that it holds is let go.
    fn drop(self) {
        let Merging {
            alloc: _,
            nodes: _,
            vbase: _,
            rows: _,
            pbase: _,
            ptables: _,
            addresses: _,
        } = self;
    }
}

impl Model for Merging {
    ghost use Rattle.ct_merge.specs.Gathered.{Gathered, IsGathered};
    ghost use Rattle.ct_merge.specs.Code.{gathered_code};

    ghost Value = { Gathered };

    ghost coded = { gathered_code };

    ghost view = { λ m. record { nodes = m.nodes.items; vbase = m.vbase; rows = m.rows.items; pbase = m.pbase; ptables = m.ptables.items; addresses = m.addresses.items } };

    ghost invariant = { λ m. IsGathered (record { nodes = m.nodes.items; vbase = m.vbase; rows = m.rows.items; pbase = m.pbase; ptables = m.ptables.items; addresses = m.addresses.items }) };
}

/// The greater of two generations.
pub fn greater(a: u64, b: u64) -> u64
    ensures { result ≡ greater a b }
{
    if a < b { b } else { a }
}

/// The rows, without the members.
pub fn table_of(alloc: Global, held: &[HeldRow]) -> Result<Items<TableRow>, NoMemory>
    ensures { IfOk result (λ table. table ≡ map (λ h. h.row) held.now) }
{
    let mut table = Vec::with_capacity(alloc, held.len())?;
    for h in held {
        table.push(h.row.copy()?)?;
    }
    Ok(Items::new(table))
}

/// The persistent databases, without the members.
pub fn ptables_of(alloc: Global, held: &[HeldPTable]) -> Result<Items<PTable>, NoMemory>
    ensures { IfOk result (λ ptables. ptables ≡ map (λ h. h.ptable) held.now) }
{
    let mut ptables = Vec::with_capacity(alloc, held.len())?;
    for h in held {
        ptables.push(h.ptable.copy()?)?;
    }
    Ok(Items::new(ptables))
}

/// Each address, assigned to its member.
pub fn assigned_of(alloc: Global, held: &[HeldAddress]) -> Result<Items<Assigned>, NoMemory>
    ensures { IfOk result (λ assigned. assigned ≡ map assigned_to held.now) }
{
    let mut assigned = Vec::with_capacity(alloc, held.len())?;
    for h in held {
        assigned.push(Assigned {
            address: h.address,
            node: Some(h.node),
        })?;
    }
    Ok(Items::new(assigned))
}

fn copied<T: Duplicate>(alloc: Global, items: &[T]) -> Result<Vec<T>, NoMemory>
    ensures { IfOk result (λ copies. copies.items ≡ items.now) }
{
    let mut copies = Vec::with_capacity(alloc, items.len())?;
    for item in items {
        copies.push(item.duplicate()?)?;
    }
    Ok(copies)
}

impl Merging {
    /// Nothing is gathered. It takes no memory.
    pub fn new(alloc: Global) -> Merging
        ensures { result ≡ nothing }
    {
        Merging {
            alloc,
            nodes: Vec::new(alloc),
            vbase: 0,
            rows: Vec::new(alloc),
            pbase: 0,
            ptables: Vec::new(alloc),
            addresses: Vec::new(alloc),
        }
    }

    /// Gathers one more pull, whose rows, persistent databases and addresses ascend. Of a greater base its rows take the
    /// place of those so far, and of a smaller one they are left out; the same of its persistent databases. Nothing
    /// changes where memory runs out.
    pub fn add(&mut self, pull: Pull) -> Result<(), NoMemory>
        requires { is_in_order pull ≡ true }
        ensures ok { OnOk result (self.new ≡ gathered pull self.old) }
        ensures err { OnErr result (self.new ≡ self.old) }
    {
        let alloc = self.alloc;
        let Pull {
            node,
            vbase,
            pbase,
            table,
            ptables,
            addresses,
        } = pull;
        let nodes = Vec::from_slice(alloc, &[node])?;
        let rows = based_rows(alloc, vbase, node, table)?;
        let ptables = held_ptables(alloc, node, ptables)?;
        let addresses = held_addresses(alloc, node, addresses.as_slice())?;
        let nodes_room = room_for(alloc, &self.nodes, &nodes)?;
        let rows_room = room_for(alloc, &self.rows, &rows)?;
        let ptables_room = room_for(alloc, &self.ptables, &ptables)?;
        let addresses_room = room_for(alloc, &self.addresses, &addresses)?;
        join(alloc, 0, &mut self.nodes, 0, nodes, nodes_room);
        join(alloc, self.vbase, &mut self.rows, vbase, rows, rows_room);
        join(
            alloc,
            self.pbase,
            &mut self.ptables,
            pbase,
            ptables,
            ptables_room,
        );
        join(alloc, 0, &mut self.addresses, 0, addresses, addresses_room);
        self.vbase = greater(self.vbase, vbase);
        self.pbase = greater(self.pbase, pbase);
        Ok(())
    }

    /// What the round hands out of all that was gathered.
    pub fn finish(&self) -> Result<MergedAll, NoMemory>
        ensures all { IfOk result (λ m. m ≡ finished self.now) }
        ensures in_order { IsGathered self.now }
    {
        Ok(MergedAll {
            table: Merged {
                parent: self.vbase,
                table: table_of(self.alloc, self.rows.as_slice())?,
            },
            ptables: PMerged {
                parent: self.pbase,
                ptables: ptables_of(self.alloc, self.ptables.as_slice())?,
            },
            assigned: assigned_of(self.alloc, self.addresses.as_slice())?,
        })
    }

    /// How many rows are held.
    pub fn rows(&self) -> usize
        ensures { result ≡ length self.now.rows }
    {
        self.rows.len()
    }

    /// A copy that equals it.
    pub fn copy(&self) -> Result<Merging, NoMemory>
        ensures { IfOk result (λ m. m ≡ self.now) }
    {
        Ok(Merging {
            alloc: self.alloc,
            nodes: copied(self.alloc, self.nodes.as_slice())?,
            vbase: self.vbase,
            rows: copied(self.alloc, self.rows.as_slice())?,
            pbase: self.pbase,
            ptables: copied(self.alloc, self.ptables.as_slice())?,
            addresses: copied(self.alloc, self.addresses.as_slice())?,
        })
    }
}

impl Duplicate for Merging {
    fn duplicate(&self) -> Result<Merging, NoMemory> {
        self.copy()
    }
}
