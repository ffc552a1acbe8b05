//! The field that comes next, read.
ghost use Rattle.std.specs.Prelude.{◌≡◌, IfOk};
ghost use Rattle.ct_wire_fields.specs.Reading.{address_read, number_read, step_of, text_read};

use crate::draft::{Draft, Led};
use crate::place::{AddressPlace, NumberPlace, TextPlace};
use ct_values::address::Address;
use ct_values::memory::NoMemory;
use std::alloc::Global;

impl Draft {
    /// Takes a number at this place, whose offset is `at`. Without memory the draft is of no use.
    pub fn number_read(
        &mut self,
        alloc: Global,
        at: u64,
        number: u64,
        place: NumberPlace,
    ) -> Result<Led, NoMemory>
        ensures { IfOk result (λ led. step_of led self.new ≡ number_read self.old at number place) }
    {
        let led = match place {
            NumberPlace::Length => self.length_read(at, number),
            NumberPlace::Magic => self.magic_read(at, number),
            NumberPlace::Version => self.version_read(at, number),
            NumberPlace::Generation => self.generation_read(at, number),
            NumberPlace::Operation => self.operation_read(at, number),
            NumberPlace::Receiver => self.receiver_read(at, number),
            NumberPlace::Sender => self.sender_read(at, number),
            NumberPlace::Request => self.request_read(at, number),
            NumberPlace::Db => self.db_read(at, number),
            NumberPlace::Kind { key } => self.kind_read(at, key, number),
            NumberPlace::Least { key } => self.least_read(at, key, number),
            NumberPlace::Node { key } => self.node_read(at, key, number),
            NumberPlace::Rsn { key } => self.rsn_read(at, key, number),
            NumberPlace::NodeCount => self.node_count_read(at, number),
            NumberPlace::NodeItem { left } => self.node_item_read(alloc, at, left, number)?,
            NumberPlace::VolatileBase => self.volatile_base_read(at, number),
            NumberPlace::PersistentBase => self.persistent_base_read(at, number),
            NumberPlace::RowCount => self.rows_left(number),
            NumberPlace::RowDb { left } => self.row_db_read(at, left, number),
            NumberPlace::RowRsn { left, key } => self.row_rsn_read(at, left, key, number),
            NumberPlace::RowMaster { left, key, value } => {
                self.row_master_read(at, left, key, value, number)?
            }
            NumberPlace::PTableCount => self.ptables_left(number),
            NumberPlace::PTableDb { left } => self.ptable_db_read(at, left, number),
            NumberPlace::PTableSeq { left } => self.ptable_seq_read(at, left, number),
            NumberPlace::PairCount { left } => self.pairs_left(alloc, left, number)?,
            NumberPlace::AddressCount => self.addresses_left(alloc, number)?,
            NumberPlace::AssignedCount => self.assigned_left(alloc, number)?,
            NumberPlace::AssignedNode { left, address } => {
                self.assigned_node_read(alloc, at, left, address, number)?
            }
            NumberPlace::Seq => self.seq_read(at, number),
            NumberPlace::WriteCount => self.write_count_read(at, number),
            NumberPlace::Run => self.run_read(at, number),
        };
        Ok(led)
    }

    /// Takes the bytes of a key or value at this place, whose length stands at `at`. Without memory the draft is of no
    /// use.
    pub fn text_read(
        &mut self,
        alloc: Global,
        at: u64,
        text: Vec<u8>,
        place: TextPlace,
    ) -> Result<Led, NoMemory>
        ensures { IfOk result (λ led. step_of led self.new ≡ text_read self.old at text.items place) }
    {
        let led = match place {
            TextPlace::Key => self.key_read(at, text)?,
            TextPlace::Value { key } => self.value_read(at, key, text)?,
            TextPlace::RowKey { left, start } => self.row_key_read(at, left, start, text)?,
            TextPlace::RowValue { left, key } => self.row_value_read(at, left, key, text)?,
            TextPlace::PairKey { left, more } => self.pair_key_read(at, left, more, text)?,
            TextPlace::PairValue { left, more, key } => {
                self.pair_value_read(alloc, at, left, more, key, text)?
            }
            TextPlace::WriteKey { left } => self.write_key_read(at, left, text)?,
            TextPlace::WriteValue { left, key } => {
                self.write_value_read(alloc, at, left, key, text)?
            }
        };
        Ok(led)
    }

    /// Takes an address at this place, whose first byte stands at `at`. Without memory the draft is of no use.
    pub fn address_read(
        &mut self,
        alloc: Global,
        at: u64,
        address: Address,
        place: AddressPlace,
    ) -> Result<Led, NoMemory>
        ensures { IfOk result (λ led. step_of led self.new ≡ address_read self.old at address place) }
    {
        match place {
            AddressPlace::Held { left } => self.held_read(alloc, at, left, address),
            AddressPlace::Assigned { left } => Ok(self.assigned_read(at, left, address)),
        }
    }
}
