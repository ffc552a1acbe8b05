//! The rows of a message, whose bytes stand in one place and have several owners.
ghost use Rattle.std.specs.Prelude.{◌≡◌, ◌++◌, IfOk, OnOk, length};
ghost use Rattle.ct_traverse_parts.specs.Packed.{packed};

use crate::part::Part;
use ct_frame::frame::TableRow;
use ct_values::copies::Duplicate;
use ct_values::memory::NoMemory;
use std::alloc::Global;
use std::marker::Model;
use std::rc::Rc;

/// A row of a message.
pub struct Row {
    key: Part,
    value: Part,
    rsn: u64,
    db: u32,
    master: Option<u32>,
}

impl Drop for Row {
    /// All that it holds is let go.
    fn drop(self) {
        let Row {
            key: _,
            value: _,
            rsn: _,
            db: _,
            master: _,
        } = self;
    }
}

impl Model for Row {
    ghost use Rattle.ct_frame.specs.declared.frame.TableRow as row;

    ghost Value = { row.TableRow };

    ghost view = { λ r. record { db = r.db; key = r.key; rsn = r.rsn; value = r.value; master = r.master } };
}

/// All rows of a message. They may have several owners.
pub struct Rows {
    list: Rc<Vec<Row>>,
}

impl Drop for Rows {
    /// All that it holds is let go.
    fn drop(self) {
        let Rows { list: _ } = self;
    }
}

impl Model for Rows {
    ghost use Rattle.std.specs.Prelude.{List};
    ghost use Rattle.ct_frame.specs.declared.frame.TableRow as row;

    ghost Value = { List row.TableRow };

    ghost view = { λ r. r.list.value.items };
}

/// The bytes of the keys and values of rows, one behind the other.
#[tactic(auto, unfolding(crate::specs::Packed::packed))]
fn packed(alloc: Global, rows: &[TableRow]) -> Result<Vec<u8>, NoMemory>
    ensures { IfOk result (λ bytes. bytes.items ≡ packed rows.now) }
{
    let mut bytes = Vec::new(alloc);
    for row in rows {
        bytes.extend_from_slice(row.key.bytes())?;
        bytes.extend_from_slice(row.value.bytes())?;
    }
    Ok(bytes)
}

/// Rows that have their keys and values in these bytes.
fn cut(alloc: Global, all: &Rc<Vec<u8>>, rows: &[TableRow]) -> Result<Vec<Row>, NoMemory>
    requires { all.now.value.items ≡ packed rows.now }
    ensures { IfOk result (λ list. list.items ≡ rows.now) }
{
    let mut list = Vec::with_capacity(alloc, rows.len())?;
    let mut start = 0;
    for row in rows {
        let middle = start + row.key.bytes().len();
        let end = middle + row.value.bytes().len();
        let key = Part::new(all, start, middle)?;
        let value = Part::new(all, middle, end)?;
        list.push(Row {
            key,
            value,
            rsn: row.rsn,
            db: row.db,
            master: row.master,
        })?;
        start = end;
    }
    Ok(list)
}

impl Row {
    /// Its key.
    pub fn key(&self) -> &Part
        ensures { result.now ≡ self.now.key }
    {
        &self.key
    }

    /// Its value.
    pub fn value(&self) -> &Part
        ensures { result.now ≡ self.now.value }
    {
        &self.value
    }

    /// Its RSN.
    pub fn rsn(&self) -> u64
        ensures { result ≡ self.now.rsn }
    {
        self.rsn
    }
}

impl Rows {
    /// These rows.
    pub fn new(alloc: Global, rows: &[TableRow]) -> Result<Rows, NoMemory>
        ensures { IfOk result (λ x. x ≡ rows.now) }
    {
        let bytes = packed(alloc, rows)?;
        let all = Rc::new(alloc, bytes)?;
        let list = cut(alloc, &all, rows)?;
        Ok(Rows {
            list: Rc::new(alloc, list)?,
        })
    }

    pub fn as_slice(&self) -> &[Row]
        ensures { result.now ≡ self.now }
    {
        self.list.as_slice()
    }

    /// How many they are.
    pub fn len(&self) -> usize
        ensures { result ≡ length self.now }
    {
        self.list.len()
    }
}

impl Duplicate for Rows {
    fn duplicate(&self) -> Result<Rows, NoMemory> {
        Ok(Rows {
            list: self.list.clone()?,
        })
    }
}
