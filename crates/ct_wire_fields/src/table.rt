//! Lists of nodes, the rows of a table and the persistent databases.
ghost use Rattle.std.specs.Prelude.{◌≡◌, IfOk, OnOk};
ghost use Rattle.ct_wire_fields.specs.Check.{key_of, value_of};
ghost use Rattle.ct_wire_fields.specs.Reading.{after_nodes, after_ptables, master_of, may_have_row, next_node, node_count_read, node_item_read, pair_key_found, pair_value_found, pairs_left, persistent_base_read, plain_master, ptable_db_read, ptable_seq_read, ptables_left, row_db_read, row_key_found, row_master_read, row_rsn_read, row_value_found, rows_left, step_of, volatile_base_read, with_row};

use crate::check::{
    follows_db, follows_node, follows_pair, follows_ptable, follows_row, is_below_limit, is_count,
    is_db, is_node, key_of, value_of,
};
use crate::draft::{Draft, Led, taken, to_number, to_text, whole};
use crate::place::{NumberPlace, Operation, TextPlace};
use ct_frame::frame::{Msg, PTable, TableRow};
use ct_frame::header::NONE;
use ct_values::client::Pair;
use ct_values::key::Key;
use ct_values::memory::NoMemory;
use ct_values::nodes::is_among;
use ct_values::value::Value;
use std::alloc::Global;

impl Draft {
    pub(crate) fn node_count_read(&self, at: u64, number: u64) -> Led
        ensures { step_of result self.now ≡ node_count_read self.now at number }
    {
        if !is_count(number) {
            return Led::Broken(at);
        }
        to_number(NumberPlace::NodeItem { left: number })
    }

    fn after_nodes(&mut self, alloc: Global) -> Led
        ensures { step_of result self.new ≡ after_nodes self.old self.old.head.operation }
    {
        match self.head.operation {
            Operation::Freeze => whole(
                self.head,
                Msg::Freeze {
                    members: taken(alloc, &mut self.nodes),
                },
            ),
            _ => to_number(NumberPlace::RowCount),
        }
    }

    /// The next node, where `left` are to come, this one among them.
    fn next_node(&mut self, alloc: Global, left: u64) -> Led
        ensures { step_of result self.new ≡ next_node self.old left }
    {
        if left > 1 {
            return to_number(NumberPlace::NodeItem { left: left - 1 });
        }
        self.after_nodes(alloc)
    }

    pub(crate) fn node_item_read(
        &mut self,
        alloc: Global,
        at: u64,
        left: u64,
        number: u64,
    ) -> Result<Led, NoMemory>
        ensures { IfOk result (λ led. step_of led self.new ≡ node_item_read self.old at left number) }
    {
        if !is_node(number) || !follows_node(self.nodes.as_slice(), number) {
            return Ok(Led::Broken(at));
        }
        self.nodes.push(number as u32)?;
        Ok(self.next_node(alloc, left))
    }

    pub(crate) fn volatile_base_read(&mut self, at: u64, number: u64) -> Led
        ensures { step_of result self.new ≡ volatile_base_read self.old at number }
    {
        if !is_below_limit(number) {
            return Led::Broken(at);
        }
        self.vbase = number;
        to_number(NumberPlace::PersistentBase)
    }

    pub(crate) fn persistent_base_read(&mut self, at: u64, number: u64) -> Led
        ensures { step_of result self.new ≡ persistent_base_read self.old at number }
    {
        if !is_below_limit(number) {
            return Led::Broken(at);
        }
        self.pbase = number;
        to_number(NumberPlace::RowCount)
    }

    /// The next row, or the persistent databases, where `left` rows are to come.
    pub(crate) fn rows_left(&self, left: u64) -> Led
        ensures { step_of result self.now ≡ rows_left self.now left }
    {
        if left > 0 {
            to_number(NumberPlace::RowDb { left })
        } else {
            to_number(NumberPlace::PTableCount)
        }
    }

    /// In version 1 the sender of a Push is data master of each row, and so has to be one of its nodes.
    fn may_have_row(&self) -> bool
        ensures { result ≡ may_have_row self.now self.now.head.operation }
    {
        match self.head.operation {
            Operation::Push => {
                self.head.version.names_masters()
                    || is_among(self.nodes.as_slice(), self.head.sender)
            }
            _ => true,
        }
    }

    pub(crate) fn row_db_read(&mut self, at: u64, left: u64, number: u64) -> Led
        ensures { step_of result self.new ≡ row_db_read self.old at left number }
    {
        if !is_db(number) || !follows_db(self.table.as_slice(), number) || !self.may_have_row() {
            return Led::Broken(at);
        }
        self.db = number as u32;
        to_text(TextPlace::RowKey { left, start: at })
    }

    pub(crate) fn row_key_read(
        &self,
        at: u64,
        left: u64,
        start: u64,
        text: Vec<u8>,
    ) -> Result<Led, NoMemory>
        ensures { IfOk result (λ led. step_of led self.now ≡ row_key_found self.now at left start (key_of text.items)) }
    {
        let Some(key) = key_of(text)? else {
            return Ok(Led::Broken(at));
        };
        if !follows_row(self.table.as_slice(), self.db, &key) {
            return Ok(Led::Broken(start));
        }
        Ok(to_number(NumberPlace::RowRsn { left, key }))
    }

    pub(crate) fn row_rsn_read(&mut self, at: u64, left: u64, key: Key, number: u64) -> Led
        ensures { step_of result self.new ≡ row_rsn_read self.old at left key number }
    {
        if !is_below_limit(number) {
            return Led::Broken(at);
        }
        self.rsn = number;
        to_text(TextPlace::RowValue { left, key })
    }

    /// One more row of the table.
    fn with_row(&mut self, key: Key, value: Value, master: Option<u32>) -> Result<(), NoMemory>
        ensures { OnOk result (self.new ≡ with_row self.old key value master) }
    {
        self.table.push(TableRow {
            db: self.db,
            key,
            rsn: self.rsn,
            value,
            master,
        })?;
        Ok(())
    }

    /// The data master of a row of version 1.
    fn plain_master(&self) -> Option<u32>
        ensures { result ≡ plain_master self.now self.now.head.operation }
    {
        match self.head.operation {
            Operation::Push => Some(self.head.sender),
            _ => None,
        }
    }

    pub(crate) fn row_value_read(
        &mut self,
        at: u64,
        left: u64,
        key: Key,
        text: Vec<u8>,
    ) -> Result<Led, NoMemory>
        ensures { IfOk result (λ led. step_of led self.new ≡ row_value_found self.old at left key (value_of text.items)) }
    {
        let Some(value) = value_of(text)? else {
            return Ok(Led::Broken(at));
        };
        if self.head.version.names_masters() {
            return Ok(to_number(NumberPlace::RowMaster { left, key, value }));
        }
        let master = self.plain_master();
        self.with_row(key, value, master)?;
        Ok(self.rows_left(left.saturating_sub(1)))
    }

    /// The data master that a row names, if it may name it.
    fn master_of(&self, number: u64) -> Option<Option<u32>>
        ensures { result ≡ master_of self.now number self.now.head.operation }
    {
        match self.head.operation {
            Operation::Push => {
                if is_node(number) && is_among(self.nodes.as_slice(), number as u32) {
                    Some(Some(number as u32))
                } else {
                    None
                }
            }
            _ => {
                if number == u64::from(NONE) {
                    Some(None)
                } else if number == u64::from(self.head.sender) {
                    Some(Some(number as u32))
                } else {
                    None
                }
            }
        }
    }

    pub(crate) fn row_master_read(
        &mut self,
        at: u64,
        left: u64,
        key: Key,
        value: Value,
        number: u64,
    ) -> Result<Led, NoMemory>
        ensures { IfOk result (λ led. step_of led self.new ≡ row_master_read self.old at left key value number) }
    {
        let Some(master) = self.master_of(number) else {
            return Ok(Led::Broken(at));
        };
        self.with_row(key, value, master)?;
        Ok(self.rows_left(left.saturating_sub(1)))
    }

    fn after_ptables(&self) -> Led
        ensures { step_of result self.now ≡ after_ptables self.now self.now.head.operation }
    {
        match self.head.operation {
            Operation::PullReply => to_number(NumberPlace::AddressCount),
            _ => to_number(NumberPlace::AssignedCount),
        }
    }

    /// The next persistent database, or what follows the last, where `left` are to come.
    pub(crate) fn ptables_left(&self, left: u64) -> Led
        ensures { step_of result self.now ≡ ptables_left self.now left }
    {
        if left > 0 {
            to_number(NumberPlace::PTableDb { left })
        } else {
            self.after_ptables()
        }
    }

    pub(crate) fn ptable_db_read(&mut self, at: u64, left: u64, number: u64) -> Led
        ensures { step_of result self.new ≡ ptable_db_read self.old at left number }
    {
        if !is_db(number) || !follows_ptable(self.ptables.as_slice(), number) {
            return Led::Broken(at);
        }
        self.db = number as u32;
        to_number(NumberPlace::PTableSeq { left })
    }

    pub(crate) fn ptable_seq_read(&mut self, at: u64, left: u64, number: u64) -> Led
        ensures { step_of result self.new ≡ ptable_seq_read self.old at left number }
    {
        if !is_below_limit(number) {
            return Led::Broken(at);
        }
        self.seq = number;
        to_number(NumberPlace::PairCount { left })
    }

    /// The next pair of a persistent database, or the next database, where `more` pairs are to come.
    pub(crate) fn pairs_left(
        &mut self,
        alloc: Global,
        left: u64,
        more: u64,
    ) -> Result<Led, NoMemory>
        ensures { IfOk result (λ led. step_of led self.new ≡ pairs_left self.old left more) }
    {
        if more > 0 {
            return Ok(to_text(TextPlace::PairKey { left, more }));
        }
        let pairs = taken(alloc, &mut self.pairs);
        self.ptables.push(PTable {
            db: self.db,
            seq: self.seq,
            pairs,
        })?;
        Ok(self.ptables_left(left.saturating_sub(1)))
    }

    pub(crate) fn pair_key_read(
        &self,
        at: u64,
        left: u64,
        more: u64,
        text: Vec<u8>,
    ) -> Result<Led, NoMemory>
        ensures { IfOk result (λ led. step_of led self.now ≡ pair_key_found self.now at left more (key_of text.items)) }
    {
        let Some(key) = key_of(text)? else {
            return Ok(Led::Broken(at));
        };
        if !follows_pair(self.pairs.as_slice(), &key) {
            return Ok(Led::Broken(at));
        }
        Ok(to_text(TextPlace::PairValue { left, more, key }))
    }

    pub(crate) fn pair_value_read(
        &mut self,
        alloc: Global,
        at: u64,
        left: u64,
        more: u64,
        key: Key,
        text: Vec<u8>,
    ) -> Result<Led, NoMemory>
        ensures { IfOk result (λ led. step_of led self.new ≡ pair_value_found self.old at left more key (value_of text.items)) }
    {
        let Some(value) = value_of(text)? else {
            return Ok(Led::Broken(at));
        };
        if value.bytes().is_empty() {
            return Ok(Led::Broken(at));
        }
        self.pairs.push(Pair { key, value })?;
        self.pairs_left(alloc, left, more.saturating_sub(1))
    }
}
