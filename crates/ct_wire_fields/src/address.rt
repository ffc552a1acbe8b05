//! Takeover runs and their addresses.
ghost use Rattle.std.specs.Prelude.{◌≡◌, IfOk};
ghost use Rattle.ct_wire_fields.specs.Reading.{addresses_left, addresses_whole, after_run, assigned_left, assigned_node_read, assigned_read, assigned_whole, held_read, run_read, step_of};

use crate::check::{follows_address, follows_assigned, is_from_one, is_node};
use crate::draft::{Draft, Led, taken, to_address, to_number, whole};
use crate::place::{AddressPlace, NumberPlace, Operation};
use ct_frame::frame::{Assigned, Msg};
use ct_values::address::Address;
use ct_values::boxed::BoxedItems;
use ct_values::items::Items;
use ct_values::memory::NoMemory;
use std::alloc::Global;

impl Draft {
    fn after_run(&self) -> Led
        ensures { step_of result self.now ≡ after_run self.now self.now.head.operation }
    {
        match self.head.operation {
            Operation::Release => to_number(NumberPlace::AddressCount),
            Operation::ReleaseAck => whole(self.head, Msg::ReleaseAck { run: self.run }),
            _ => to_number(NumberPlace::AssignedCount),
        }
    }

    pub(crate) fn run_read(&mut self, at: u64, number: u64) -> Led
        ensures { step_of result self.new ≡ run_read self.old at number }
    {
        if !is_from_one(number) {
            return Led::Broken(at);
        }
        self.run = number;
        self.after_run()
    }

    fn addresses_whole(&mut self, alloc: Global) -> Result<Led, NoMemory>
        ensures { IfOk result (λ led. step_of led self.new ≡ addresses_whole self.old self.old.head.operation) }
    {
        let addresses = taken(alloc, &mut self.addresses);
        match self.head.operation {
            Operation::Release => Ok(whole(
                self.head,
                Msg::Release {
                    run: self.run,
                    keep: addresses,
                },
            )),
            _ => Ok(whole(
                self.head,
                Msg::PullReply {
                    vbase: self.vbase,
                    pbase: self.pbase,
                    table: BoxedItems::new(taken(alloc, &mut self.table))?,
                    ptables: BoxedItems::new(taken(alloc, &mut self.ptables))?,
                    addresses: BoxedItems::new(addresses)?,
                },
            )),
        }
    }

    /// The next address, where `left` are to come.
    pub(crate) fn addresses_left(&mut self, alloc: Global, left: u64) -> Result<Led, NoMemory>
        ensures { IfOk result (λ led. step_of led self.new ≡ addresses_left self.old left) }
    {
        if left > 0 {
            Ok(to_address(AddressPlace::Held { left }))
        } else {
            self.addresses_whole(alloc)
        }
    }

    pub(crate) fn held_read(
        &mut self,
        alloc: Global,
        at: u64,
        left: u64,
        address: Address,
    ) -> Result<Led, NoMemory>
        ensures { IfOk result (λ led. step_of led self.new ≡ held_read self.old at left address) }
    {
        if !follows_address(self.addresses.as_slice(), &address) {
            return Ok(Led::Broken(at));
        }
        self.addresses.push(address)?;
        self.addresses_left(alloc, left.saturating_sub(1))
    }

    fn assigned_whole(&mut self, alloc: Global) -> Result<Led, NoMemory>
        ensures { IfOk result (λ led. step_of led self.new ≡ assigned_whole self.old self.old.head.operation) }
    {
        let assigned = taken(alloc, &mut self.assigned);
        match self.head.operation {
            Operation::Take => Ok(whole(
                self.head,
                Msg::Take {
                    run: self.run,
                    assigned,
                },
            )),
            _ => Ok(whole(
                self.head,
                Msg::Push {
                    members: BoxedItems::new(taken(alloc, &mut self.nodes))?,
                    table: BoxedItems::new(taken(alloc, &mut self.table))?,
                    ptables: BoxedItems::new(taken(alloc, &mut self.ptables))?,
                    assigned: BoxedItems::new(assigned)?,
                },
            )),
        }
    }

    /// The next address that is given to a node, where `left` are to come.
    pub(crate) fn assigned_left(&mut self, alloc: Global, left: u64) -> Result<Led, NoMemory>
        ensures { IfOk result (λ led. step_of led self.new ≡ assigned_left self.old left) }
    {
        if left > 0 {
            Ok(to_address(AddressPlace::Assigned { left }))
        } else {
            self.assigned_whole(alloc)
        }
    }

    pub(crate) fn assigned_read(&self, at: u64, left: u64, address: Address) -> Led
        ensures { step_of result self.now ≡ assigned_read self.now at left address }
    {
        if !follows_assigned(self.assigned.as_slice(), &address) {
            return Led::Broken(at);
        }
        to_number(NumberPlace::AssignedNode { left, address })
    }

    pub(crate) fn assigned_node_read(
        &mut self,
        alloc: Global,
        at: u64,
        left: u64,
        address: Address,
        number: u64,
    ) -> Result<Led, NoMemory>
        ensures { IfOk result (λ led. step_of led self.new ≡ assigned_node_read self.old at left address number) }
    {
        if !is_node(number) {
            return Ok(Led::Broken(at));
        }
        let node = Some(number as u32);
        self.assigned.push(Assigned { address, node })?;
        self.assigned_left(alloc, left.saturating_sub(1))
    }
}
