//! The row that a traverse keeps of each key.
ghost use Rattle.std.specs.Prelude.{◌≡◌, ◌∷◌, [], true, is_some, IfOk, OnOk, OnErr, option_copied};
ghost use Rattle.ct_traverse_parts.specs.declared.line.TLine.TheVariants as line;
ghost use Rattle.ct_store.specs.Map.{Ascends, look, write};
ghost use Rattle.ct_traverse_parts.specs.Best.{beats, counts_entry, gathered, is_shown, merged, put_back, row_from, shown, taken_back};

use crate::kept::Kept;
use crate::line::{Pass, TLine};
use crate::part::Part;
use crate::rows::Row;
use ct_values::client::Pair;
use ct_values::items::Items;
use ct_values::key::Key;
use ct_values::memory::NoMemory;
use ct_values::value::Value;
use std::alloc::Global;

/// The best row of a key that came: its RSN and its value, whether an entry's, and from which node; and whether an entry came
/// at all.
#[derive(Drop)]
pub struct Best {
    pub rsn: u64,
    pub of_entry: bool,
    pub node: u32,
    pub value: Part,
    pub has_entry: bool,
}

impl Best {
    /// Does a row of this RSN beat it?
    fn is_beaten(&self, rsn: u64, of_entry: bool, node: u32) -> bool
        ensures { result ≡ beats rsn of_entry node self.now }
    {
        if self.rsn < rsn {
            return true;
        }
        if rsn < self.rsn {
            return false;
        }
        if of_entry {
            self.of_entry && node < self.node
        } else {
            self.of_entry || node < self.node
        }
    }

    /// Is the key shown?
    fn is_shown(&self) -> bool
        ensures { result ≡ is_shown self.now }
    {
        self.has_entry && !self.value.bytes().is_empty()
    }

    /// A copy that equals it.
    fn copy(&self) -> Result<Best, NoMemory>
        ensures { IfOk result (λ x. x ≡ self.now) }
    {
        Ok(Best {
            rsn: self.rsn,
            of_entry: self.of_entry,
            node: self.node,
            value: self.value.copy()?,
            has_entry: self.has_entry,
        })
    }
}

/// Are the rows of this pass those of entries?
fn counts_entry(pass: Pass) -> bool
    ensures { result ≡ counts_entry pass }
{
    match pass {
        Pass::Copies => false,
        Pass::Entries => true,
    }
}

/// A row that came in a pass from a node, where an entry came before or did not.
fn row_from(pass: Pass, node: u32, row: &Row, has_entry: bool) -> Result<Best, NoMemory>
    ensures { IfOk result (λ x. x ≡ row_from pass node row.now has_entry) }
{
    Ok(Best {
        rsn: row.rsn(),
        of_entry: counts_entry(pass),
        node,
        value: row.value().copy()?,
        has_entry: counts_entry(pass) || has_entry,
    })
}

/// What is kept of a key once this row came.
fn merged(pass: Pass, node: u32, row: &Row, best: Option<&Best>) -> Result<Best, NoMemory>
    ensures { IfOk result (λ x. x ≡ merged pass node row.now (option_copied best.entry)) }
{
    let Some(best) = best else {
        return row_from(pass, node, row, false);
    };
    if best.is_beaten(row.rsn(), counts_entry(pass), node) {
        return row_from(pass, node, row, best.has_entry);
    }
    let mut kept = best.copy()?;
    kept.has_entry = counts_entry(pass) || best.has_entry;
    Ok(kept)
}

/// The keys of what is kept ascend.
fn ascends(kept: &Kept<Best>)
    ensures { Ascends kept.now }
{
    kept.len();
}

/// The item comes in the place of the one at its key.
fn write_over(kept: &mut Kept<Best>, key: Part, best: Best)
    requires { is_some (look key kept.old) ≡ true }
    ensures { kept.new ≡ write key best kept.old }
{
    match kept.put(key, best) {
        Ok(before) => drop(before),
        Err(_) => unreachable!(),
    }
}

/// What stood at a key stands there again. It takes no memory.
fn put_back(kept: &mut Kept<Best>, key: Part, before: Option<Best>)
    ensures { kept.new ≡ put_back key before kept.old }
{
    match before {
        None => drop(kept.remove(&key)),
        Some(best) => if kept.get(&key).is_some() {
            write_over(kept, key, best);
        },
    }
}

/// The changes are taken back, the last one first. It takes no memory.
#[tactic(auto, using(crate::proofs::Back::back_last))]
fn take_back(kept: &mut Kept<Best>, changes: Vec<(Part, Option<Best>)>)
    ensures { kept.new ≡ taken_back changes.items kept.old }
{
    let mut left = changes;
    while let Some((key, before)) = left.pop() {
        put_back(kept, key, before);
    }
}

/// What is kept of a key once this row came, with what stood there put behind the changes. Without memory nothing changes
/// that is not among the changes.
#[tactic(auto, using(crate::proofs::Back::back_last, crate::proofs::Back::back_itself))]
fn keep_row(
    kept: &mut Kept<Best>,
    changes: &mut Vec<(Part, Option<Best>)>,
    pass: Pass,
    node: u32,
    row: &Row,
) -> Result<(), NoMemory>
    ensures ok { OnOk result (kept.new ≡ write row.now.key (merged pass node row.now (look row.now.key kept.old)) kept.old) }
    ensures back { taken_back changes.new.items kept.new ≡ taken_back changes.old.items kept.old }
{
    let best = merged(pass, node, row, kept.get(row.key()))?;
    let key = row.key().copy()?;
    let again = row.key().copy()?;
    ascends(kept);
    let before = kept.put(key, best)?;
    if let Err(failed) = changes.push((again, before)) {
        let (key, before) = failed.value;
        put_back(kept, key, before);
        return Err(NoMemory);
    }
    Ok(())
}

/// What is kept of each key once these rows came.
#[tactic(auto, unfolding(crate::specs::Best::gathered))]
fn keep_rows(
    kept: &mut Kept<Best>,
    changes: &mut Vec<(Part, Option<Best>)>,
    pass: Pass,
    node: u32,
    rows: &[Row],
) -> Result<(), NoMemory>
    ensures ok { OnOk result (kept.new ≡ gathered pass node rows.now kept.old) }
    ensures back { taken_back changes.new.items kept.new ≡ taken_back changes.old.items kept.old }
{
    for row in rows {
        keep_row(kept, changes, pass, node, row)?;
    }
    Ok(())
}

/// What is kept of each key once these rows came in a pass from a node. A row costs the logarithm of all keys at most. Without
/// memory nothing changes.
#[tactic(auto, unfolding(crate::specs::Best::taken_back))]
pub fn gather(
    alloc: Global,
    kept: &mut Kept<Best>,
    pass: Pass,
    node: u32,
    rows: &[Row],
) -> Result<(), NoMemory>
    ensures ok { OnOk result (kept.new ≡ gathered pass node rows.now kept.old) }
    ensures err { OnErr result (kept.new ≡ kept.old) }
{
    let mut changes = Vec::with_capacity(alloc, rows.len())?;
    let answer = keep_rows(kept, &mut changes, pass, node, rows);
    if answer.is_err() {
        take_back(kept, changes);
    }
    answer
}

/// The key of these bytes, which are those of one.
fn key_of(alloc: Global, part: &Part) -> Result<Key, NoMemory>
    ensures { IfOk result (λ key. key ≡ part.now) }
{
    match Key::new(alloc, part.bytes()) {
        Ok(key) => Ok(key),
        Err(_) => Err(NoMemory),
    }
}

/// The value of these bytes, which are those of one.
fn value_of(alloc: Global, part: &Part) -> Result<Value, NoMemory>
    ensures { IfOk result (λ value. value ≡ part.now) }
{
    match Value::new(alloc, part.bytes()) {
        Ok(value) => Ok(value),
        Err(_) => Err(NoMemory),
    }
}

/// The keys that are shown, with their values, by key.
#[tactic(auto, unfolding(crate::specs::Best::shown))]
pub fn shown(alloc: Global, kept: &Kept<Best>) -> Result<Items<Pair>, NoMemory>
    ensures { IfOk result (λ pairs. pairs ≡ shown kept.now) }
{
    let mut pairs = Items::empty(alloc);
    for (key, best) in kept.sorted()? {
        if best.is_shown() {
            pairs.push(Pair {
                key: key_of(alloc, key)?,
                value: value_of(alloc, &best.value)?,
            })?;
        }
    }
    Ok(pairs)
}

/// The line of an answer.
fn shown_line(alloc: Global, kept: &Kept<Best>) -> Result<Vec<TLine>, NoMemory>
    ensures { IfOk result (λ lines. lines.items ≡ line.Shown (shown kept.now) ∷ []) }
{
    let pairs = shown(alloc, kept)?;
    let mut lines = Vec::new(alloc);
    lines.push(TLine::Shown(pairs))?;
    Ok(lines)
}

/// The line of an answer, once these rows came. Without memory nothing changes.
#[tactic(auto, unfolding(crate::specs::Best::taken_back))]
pub fn answer(
    alloc: Global,
    kept: &mut Kept<Best>,
    pass: Pass,
    node: u32,
    rows: &[Row],
) -> Result<Vec<TLine>, NoMemory>
    ensures ok { IfOk result (λ lines. lines.items ≡ line.Shown (shown (gathered pass node rows.now kept.old)) ∷ []) }
    ensures err { OnErr result (kept.new ≡ kept.old) }
{
    let mut changes = Vec::with_capacity(alloc, rows.len())?;
    let lines = match keep_rows(kept, &mut changes, pass, node, rows) {
        Ok(()) => shown_line(alloc, kept),
        Err(fault) => Err(fault),
    };
    if lines.is_err() {
        take_back(kept, changes);
    }
    lines
}
