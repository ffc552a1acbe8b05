//! What a node shows of itself.
use crate::made::{copied, told, waiting};
use crate::rows::{Copied, Shown, Waits};
use ct_core::machine::Core;
use ct_values::copies::Duplicate;
use std::alloc::Global;
use std::test::Fail;

/// Do two nodes show the same of a database?
fn shows_same_db(core: &Core, other: &Core, db: u32) -> Result<bool, Fail> {
    Ok(
        core.copies(db)? == other.copies(db)?
            && core.rows(db)? == other.rows(db)?
            && core.entries(db)? == other.entries(db)?,
    )
}

/// Do two nodes keep the same pairs in a persistent database, and the same sequence number?
fn keeps_same_pairs(core: &Core, other: &Core, db: u32) -> Result<bool, Fail> {
    match (core.pstore(db), other.pstore(db)) {
        (Some(one), Some(two)) => Ok(one.seq() == two.seq() && one.pairs()? == two.pairs()?),
        (None, None) => Ok(true),
        _ => Ok(false),
    }
}

/// Do two nodes of the same configuration show the same?
pub(crate) fn shows_same(core: &Core, other: &Core) -> Result<bool, Fail> {
    for db in 0..16 {
        if !shows_same_db(core, other, db)? || !keeps_same_pairs(core, other, db)? {
            return Ok(false);
        }
    }
    for address in core.config().addresses.as_slice() {
        if core.holds_address(*address) != other.holds_address(*address) {
            return Ok(false);
        }
    }
    Ok(
        core.config() == other.config()
            && core.pnn() == other.pnn()
            && core.generation() == other.generation()
            && core.phase() == other.phase()
            && core.serving() == other.serving()
            && core.leads() == other.leads()
            && core.members() == other.members()
            && core.leader() == other.leader()
            && core.placement() == other.placement()
            && core.pending()? == other.pending()?,
    )
}

/// A copy of a node, in a box.
pub(crate) fn copy_of(alloc: Global, core: &Core) -> Result<Box<Core>, Fail> {
    Ok(Box::new(alloc, core.copy()?)?)
}

/// The same, as what can be copied is.
fn duplicate_of(alloc: Global, core: &Core) -> Result<Box<Core>, Fail> {
    Ok(Box::new(alloc, core.duplicate()?)?)
}

/// Does a node show what its copies show?
fn is_copied(alloc: Global, core: &Core) -> Result<bool, Fail> {
    let copy = copy_of(alloc, core)?;
    let duplicate = duplicate_of(alloc, core)?;
    Ok(shows_same(core, &*copy)? && shows_same(core, &*duplicate)?)
}

/// Do these calls wait at a node? They are by number, and all of one database.
fn waits(alloc: Global, core: &Core, calls: &[Waits]) -> Result<bool, Fail> {
    let wanted = waiting(alloc, core.pnn(), calls)?;
    let mut added = Vec::new(alloc);
    core.add_pending(&mut added)?;
    Ok(added == wanted && core.pending()? == wanted)
}

/// Does a node have these copies of the records of a database?
fn has_copies(alloc: Global, core: &Core, db: u32, wanted: &[Copied]) -> Result<bool, Fail> {
    let mut copies = Vec::new(alloc);
    for (at, copy) in core.copies(db)? {
        copies.push((at.copy()?, copy.copy()?))?;
    }
    Ok(copies == copied(alloc, wanted)?)
}

/// Does a node show this of a database and of the calls that wait?
fn shows_of(alloc: Global, core: &Core, shown: Shown) -> Result<bool, Fail> {
    Ok(
        has_copies(alloc, core, shown.db, shown.copies)?
            && core.rows(shown.db)? == told(alloc, shown.rows)?.into_vec()
            && core.entries(shown.db)? == told(alloc, shown.entries)?.into_vec()
            && waits(alloc, core, shown.waiting)?,
    )
}

/// A node shows all of this, and so do its copies.
pub(crate) fn shows(alloc: Global, core: &Core, all: &[Shown]) -> Result<(), Fail> {
    for shown in all {
        if !shows_of(alloc, core, *shown)? || !is_copied(alloc, core)? {
            return Err(Fail::new("the node shows something else"));
        }
    }
    Ok(())
}
