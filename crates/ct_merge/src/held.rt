//! What a member holds, with the member beside it.
ghost use Rattle.std.specs.Prelude.{◌≡◌, IfOk};
ghost use Rattle.std.specs.Ordering.{nat_cmp};
ghost use Rattle.std.specs.Cmp.{nat_cmp_total};
ghost use Rattle.ct_merge.specs.Held.{is_own, row_order, row_rank, ptable_order, ptable_rank, address_order, address_rank, based_rows, held_ptables, held_addresses};
ghost use Rattle.ct_merge.specs.Orders.{row_order_total, ptable_order_total, address_order_total};

use crate::placing::Candidate;
use ct_frame::frame::{PTable, TableRow};
use ct_values::address::Address;
use ct_values::copies::Duplicate;
use ct_values::items::Items;
use ct_values::memory::NoMemory;
use std::alloc::Global;
use std::cmp::Ordering;

/// A copy of a record at a member.
#[derive(Debug)]
pub struct HeldRow {
    pub node: u32,
    pub row: TableRow,
}

impl Drop for HeldRow {
    /// All that it holds is let go.
    fn drop(self) {
        let HeldRow { node: _, row: _ } = self;
    }
}

/// A persistent database at a member.
#[derive(Debug)]
pub struct HeldPTable {
    pub node: u32,
    pub ptable: PTable,
}

impl Drop for HeldPTable {
    /// All that it holds is let go.
    fn drop(self) {
        let HeldPTable { node: _, ptable: _ } = self;
    }
}

/// An address at a member.
#[derive(Clone, Copy, Debug, PartialEq, Eq)]
pub struct HeldAddress {
    pub node: u32,
    pub address: Address,
}

impl Duplicate for HeldRow {
    fn duplicate(&self) -> Result<HeldRow, NoMemory> {
        Ok(HeldRow {
            node: self.node,
            row: self.row.copy()?,
        })
    }
}

impl Duplicate for HeldPTable {
    fn duplicate(&self) -> Result<HeldPTable, NoMemory> {
        Ok(HeldPTable {
            node: self.node,
            ptable: self.ptable.copy()?,
        })
    }
}

impl Duplicate for HeldAddress {
    fn duplicate(&self) -> Result<HeldAddress, NoMemory> {
        Ok(*self)
    }
}

impl HeldRow {
    /// Does the row name its own node as data master?
    #[tactic(auto, unfolding(ct_values::specs::Words::is_this_node))]
    fn is_own(&self) -> bool
        ensures { result ≡ is_own self.now }
    {
        match self.row.master {
            None => false,
            Some(master) => master == self.node,
        }
    }
}

impl Candidate for u32 {
    ghost order = { nat_cmp };

    ghost rank = { nat_cmp };

    fn order(&self, other: &u32) -> Ordering {
        self.cmp(other)
    }

    fn rank(&self, other: &u32) -> Ordering {
        self.cmp(other)
    }

    ghost total = { nat_cmp_total };
}

impl Candidate for HeldRow {
    ghost order = { row_order };

    ghost rank = { row_rank };

    fn order(&self, other: &HeldRow) -> Ordering {
        self.row
            .db
            .cmp(&other.row.db)
            .then(self.row.key.cmp(&other.row.key))
    }

    fn rank(&self, other: &HeldRow) -> Ordering {
        let newer = other.row.rsn.cmp(&self.row.rsn);
        let owned = other.is_own().cmp(&self.is_own());
        newer.then(owned).then(self.node.cmp(&other.node))
    }

    ghost total = { row_order_total };
}

impl Candidate for HeldPTable {
    ghost order = { ptable_order };

    ghost rank = { ptable_rank };

    fn order(&self, other: &HeldPTable) -> Ordering {
        self.ptable.db.cmp(&other.ptable.db)
    }

    fn rank(&self, other: &HeldPTable) -> Ordering {
        let newer = other.ptable.seq.cmp(&self.ptable.seq);
        newer.then(self.node.cmp(&other.node))
    }

    ghost total = { ptable_order_total };
}

impl Candidate for HeldAddress {
    ghost order = { address_order };

    ghost rank = { address_rank };

    fn order(&self, other: &HeldAddress) -> Ordering {
        self.address.cmp(&other.address)
    }

    fn rank(&self, other: &HeldAddress) -> Ordering {
        self.node.rank(&other.node)
    }

    ghost total = { address_order_total };
}

/// The rows of a member, with the member beside each. Where its databases come from generation 0 there are none.
pub fn based_rows(
    alloc: Global,
    vbase: u64,
    node: u32,
    table: Items<TableRow>,
) -> Result<Vec<HeldRow>, NoMemory>
    ensures { IfOk result (λ rows. rows.items ≡ based_rows vbase node table) }
{
    let mut rows = Vec::new(alloc);
    if vbase == 0 {
        return Ok(rows);
    }
    for row in table.into_vec() {
        rows.push(HeldRow { node, row })?;
    }
    Ok(rows)
}

/// The persistent databases of a member, with the member beside each.
pub fn held_ptables(
    alloc: Global,
    node: u32,
    ptables: Items<PTable>,
) -> Result<Vec<HeldPTable>, NoMemory>
    ensures { IfOk result (λ held. held.items ≡ held_ptables node ptables) }
{
    let mut held = Vec::new(alloc);
    for ptable in ptables.into_vec() {
        held.push(HeldPTable { node, ptable })?;
    }
    Ok(held)
}

/// The addresses of a member, with the member beside each.
pub fn held_addresses(
    alloc: Global,
    node: u32,
    addresses: &[Address],
) -> Result<Vec<HeldAddress>, NoMemory>
    ensures { IfOk result (λ held. held.items ≡ held_addresses node addresses.now) }
{
    let mut held = Vec::with_capacity(alloc, addresses.len())?;
    for address in addresses {
        held.push(HeldAddress {
            node,
            address: *address,
        })?;
    }
    Ok(held)
}
