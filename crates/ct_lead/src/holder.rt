//! The addresses that a node holds.
ghost use Rattle.std.specs.Prelude.{◌≡◌, ◌≤◌, true, IfOk, OnOk, OnErr, length, option_map};
ghost use Rattle.ct_values.specs.Address.{same_address, address_before};
ghost use Rattle.ct_frame.specs.Fields.{ascends, assigned_before};
ghost use Rattle.ct_rules_node.specs.Takeovers.{has_address, held_with};
ghost use Rattle.ct_lead.specs.Held.{after_install, after_release, after_take, before, held_with_all, holds_nothing, kept, left_out, released, taken};

use crate::run::share;
use ct_frame::frame::Assigned;
use ct_values::address::Address;
use ct_values::copies::Duplicate;
use ct_values::memory::NoMemory;
use std::alloc::Global;
use std::marker::Model;

/// The addresses that are held, ascending, and the number of the last run that was followed, or 0.
#[derive(Debug)]
pub struct Holder {
    alloc: Global,
    held: Vec<Address>,
    last_run: u64,
}

impl Drop for Holder {
    /// All that it holds is let go.
    fn drop(self) {
        let Holder {
            alloc: _,
            held: _,
            last_run: _,
        } = self;
    }
}

impl Model for Holder {
    ghost use Rattle.std.specs.Prelude.{◌≡◌, true};
    ghost use Rattle.ct_values.specs.Address.{address_before};
    ghost use Rattle.ct_frame.specs.Fields.{ascends};
    ghost use Rattle.ct_lead.specs.Held.{Holding};

    ghost Value = { Holding };

    ghost view = { λ h. record { held = h.held.items; last_run = h.last_run } };

    ghost invariant = { λ h. ascends address_before h.held.items ≡ true };
}

fn is_same(a: Address, b: Address) -> bool
    ensures { result ≡ same_address a b }
{
    a == b
}

/// Is the address in the list?
#[tactic(auto, unfolding(ct_rules_node::specs::Takeovers::has_address))]
fn has_address(keep: &[Address], address: Address) -> bool
    ensures { result ≡ has_address keep.now address }
{
    keep.iter().any(|a| is_same(address, *a))
}

/// Those of these addresses that are in the list.
fn kept(alloc: Global, keep: &[Address], held: &[Address]) -> Result<Vec<Address>, NoMemory>
    ensures { IfOk result (λ v. v.items ≡ kept keep.now held.now) }
{
    let mut addresses = Vec::new(alloc);
    for a in held {
        if has_address(keep, *a) {
            addresses.push(*a)?;
        }
    }
    Ok(addresses)
}

/// Those of these addresses that are not in the list.
fn left_out(alloc: Global, keep: &[Address], held: &[Address]) -> Result<Vec<Address>, NoMemory>
    ensures { IfOk result (λ v. v.items ≡ left_out keep.now held.now) }
{
    let mut addresses = Vec::new(alloc);
    for a in held {
        if !has_address(keep, *a) {
            addresses.push(*a)?;
        }
    }
    Ok(addresses)
}

fn is_before(a: Address, b: Address) -> bool
    ensures { result ≡ address_before a b }
{
    a < b
}

/// How many of the first addresses come before this one.
fn before(held: &[Address], address: Address) -> usize
    ensures value { result ≡ before address held.now }
    ensures in_range { result ≤ length held.now }
{
    for i in 0..held.len() {
        if !is_before(held[i], address) {
            return i;
        }
    }
    held.len()
}

/// Puts an address in its place.
#[tactic(auto, using(crate::proofs::Places::put_in_place))]
fn put(held: &mut Vec<Address>, address: Address) -> Result<(), NoMemory>
    ensures { OnOk result (held.new.items ≡ held_with address held.old.items) }
{
    let at = before(held, address);
    held.insert(at, address)?;
    Ok(())
}

/// The addresses that are held, with each of these in its place.
fn held_with_all(
    alloc: Global,
    held: &[Address],
    more: &[Address],
) -> Result<Vec<Address>, NoMemory>
    ensures { IfOk result (λ v. v.items ≡ held_with_all more.now held.now) }
{
    let mut all = Vec::from_slice(alloc, held)?;
    for a in more {
        put(&mut all, *a)?;
    }
    Ok(all)
}

impl Holder {
    /// Nothing is held, and no run was followed. It takes no memory.
    pub fn new(alloc: Global) -> Holder
        ensures { result ≡ holds_nothing }
    {
        Holder {
            alloc,
            held: Vec::new(alloc),
            last_run: 0,
        }
    }

    /// A Release of this run comes: what is not kept is given up, and answered. None where a later run was followed.
    /// Nothing changes where memory runs out.
    #[tactic(auto, using(crate::proofs::Places::kept_ascend))]
    pub fn release(&mut self, run: u64, keep: &[Address]) -> Result<Option<Vec<Address>>, NoMemory>
        ensures released { IfOk result (λ r. option_map (λ v. v.items) r ≡ released run keep.now self.old) }
        ensures ok { OnOk result (self.new ≡ after_release run keep.now self.old) }
        ensures err { OnErr result (self.new ≡ self.old) }
    {
        if run < self.last_run {
            return Ok(None);
        }
        let given_up = left_out(self.alloc, keep, self.held.as_slice())?;
        let held = kept(self.alloc, keep, self.held.as_slice())?;
        self.held = held;
        self.last_run = run;
        Ok(Some(given_up))
    }

    /// A Take of this run comes, with the placement in order: what it gives to this node is held, and what was not held
    /// before is answered. None unless it is of the last run that was followed. Nothing changes where memory runs out.
    #[tactic(auto, using(crate::proofs::Places::taken_ascend))]
    pub fn take(
        &mut self,
        run: u64,
        all: &[Assigned],
        me: u32,
    ) -> Result<Option<Vec<Address>>, NoMemory>
        requires { ascends assigned_before all.now ≡ true }
        ensures taken { IfOk result (λ r. option_map (λ v. v.items) r ≡ taken run all.now me self.old) }
        ensures ok { OnOk result (self.new ≡ after_take run all.now me self.old) }
        ensures err { OnErr result (self.new ≡ self.old) }
    {
        if run != self.last_run {
            return Ok(None);
        }
        let own = share(self.alloc, me, all)?;
        let more = left_out(self.alloc, self.held.as_slice(), &own)?;
        let held = held_with_all(self.alloc, self.held.as_slice(), &more)?;
        self.held = held;
        Ok(Some(more))
    }

    /// A generation is installed: what is not kept is given up, and answered, and no run of it was followed yet. Nothing
    /// changes where memory runs out.
    #[tactic(auto, using(crate::proofs::Places::kept_ascend))]
    pub fn install(&mut self, keep: &[Address]) -> Result<Vec<Address>, NoMemory>
        ensures given_up { IfOk result (λ v. v.items ≡ left_out keep.now self.old.held) }
        ensures ok { OnOk result (self.new ≡ after_install keep.now self.old) }
        ensures err { OnErr result (self.new ≡ self.old) }
    {
        let given_up = left_out(self.alloc, keep, self.held.as_slice())?;
        let held = kept(self.alloc, keep, self.held.as_slice())?;
        self.held = held;
        self.last_run = 0;
        Ok(given_up)
    }

    /// The addresses that are held, ascending.
    pub fn held(&self) -> &[Address]
        ensures held { result.now ≡ self.now.held }
        ensures ascending { ascends address_before self.now.held ≡ true }
    {
        self.held.as_slice()
    }

    /// The number of the last run that was followed, or 0.
    pub fn last_run(&self) -> u64
        ensures { result ≡ self.now.last_run }
    {
        self.last_run
    }

    /// A copy that equals it.
    pub fn copy(&self) -> Result<Holder, NoMemory>
        ensures { IfOk result (λ h. h ≡ self.now) }
    {
        Ok(Holder {
            alloc: self.alloc,
            held: Vec::from_slice(self.alloc, self.held.as_slice())?,
            last_run: self.last_run,
        })
    }
}

impl Duplicate for Holder {
    fn duplicate(&self) -> Result<Holder, NoMemory> {
        self.copy()
    }
}
