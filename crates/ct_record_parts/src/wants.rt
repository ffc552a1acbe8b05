//! What comes of a call that wants the record.
ghost use Rattle.std.specs.Prelude.{◌≡◌, ◌<◌, ◌^◌, [], OnOk};
ghost use Rattle.ct_call.specs.Shown.{rules_of};
ghost use Rattle.ct_values.specs.Client.{is_read};
ghost use Rattle.ct_rules.specs.Parts.{call_for, wait_for_copies, want_of, opened_at_home, want};
ghost use Rattle.ct_rules.specs.State.{is_for_reading};

use crate::draft::Draft;
use crate::parts::kind_of;
use ct_call::table::CallTable;
use ct_frame::frame::Msg;
use ct_frame::header::READ_ONLY_COPY;
use ct_rules::event::Place;
use ct_rules::state::Wish;
use ct_values::client::{Answer, ClientOp};
use ct_values::memory::NoMemory;

/// Is the call a read?
#[tactic(auto, unfolding(ct_values::specs::Client::is_read))]
fn is_read(op: &ClientOp) -> bool
    ensures { result ≡ is_read op.now }
{
    matches!(op, ClientOp::Read { .. })
}

impl Draft {
    /// The location master gets a Call under the next request number.
    #[tactic(auto, unfolding(ct_rules::specs::Parts::call_for, ct_rules::specs::Parts::reaches))]
    fn call_for(&mut self, at: &Place, call: u64, op: &ClientOp) -> Result<(), NoMemory>
        requires { self.old.next < 2 ^ 62 }
        ensures { OnOk result (self.new ≡ call_for at.now call op.now self.old) }
    {
        let request = self.draw();
        self.set_wish(Wish {
            call,
            request,
            op: op.copy()?,
        });
        let msg = Msg::Call {
            db: at.db,
            key: at.key.copy()?,
            request,
            kind: kind_of(at, op),
        };
        self.send(at.lmaster, msg)
    }

    /// The holder's own wish waits for the end of a revocation, which begins unless it runs.
    #[tactic(auto, unfolding(ct_rules::specs::Parts::wait_for_copies, ct_rules::specs::Parts::keeps, ct_rules::specs::State::is_quiet))]
    fn wait_for_copies(&mut self, at: &Place, call: u64, op: &ClientOp) -> Result<(), NoMemory>
        requires { ¬ (self.old.state.tracking.tracked ≡ []) }
        ensures { OnOk result (self.new ≡ wait_for_copies at.now call op.now self.old) }
    {
        self.set_wish(Wish {
            call,
            request: 0,
            op: op.copy()?,
        });
        if self.state.as_ref().tracking.revoking().is_none() {
            self.revoke(at)
        } else {
            Ok(())
        }
    }

    /// Has the node a copy for reading?
    #[tactic(auto, unfolding(ct_rules::specs::State::is_for_reading))]
    fn is_for_reading(&self) -> bool
        ensures { result ≡ is_for_reading self.now.state.copy }
    {
        match &self.state.as_ref().copy {
            Some(copy) => copy.header.flags == READ_ONLY_COPY,
            None => false,
        }
    }

    /// A call wants the record, once the location master has an entry.
    #[tactic(auto, unfolding(ct_rules::specs::Parts::want_of))]
    fn want_of(
        &mut self,
        at: &Place,
        table: &CallTable,
        call: u64,
        op: &ClientOp,
    ) -> Result<(), NoMemory>
        requires { self.old.next < 2 ^ 62 }
        ensures { OnOk result (self.new ≡ want_of at.now (rules_of table.now) call op.now self.old) }
    {
        let holder = self.is_holder(at);
        if is_read(op) && (holder || self.is_for_reading()) {
            let value = self.value()?;
            self.reply(call, Answer::Read(value))
        } else if !holder {
            self.call_for(at, call, op)
        } else if self.state.as_ref().tracking.tracked().is_empty() {
            self.satisfy(table, call, op)
        } else {
            self.wait_for_copies(at, call, op)
        }
    }

    /// At the location master, unless the record is locked: it is opened, and a vacuum ends.
    #[tactic(auto, unfolding(ct_rules::specs::Parts::opened_at_home))]
    fn opened_at_home(&mut self, at: &Place)
        ensures opened { self.new ≡ opened_at_home at.now self.old }
        ensures next { self.new.next ≡ self.old.next }
    {
        if at.me == at.lmaster && self.state.as_ref().locked.is_none() {
            self.opened(at);
            self.end_vacuum();
        }
    }

    /// A lock, a read, a write or a function wants the record.
    #[tactic(auto, unfolding(ct_rules::specs::Parts::want))]
    pub fn want(
        &mut self,
        at: &Place,
        table: &CallTable,
        call: u64,
        op: &ClientOp,
    ) -> Result<(), NoMemory>
        requires { self.old.next < 2 ^ 62 }
        ensures { OnOk result (self.new ≡ want at.now (rules_of table.now) call op.now self.old) }
    {
        self.opened_at_home(at);
        self.want_of(at, table, call, op)
    }
}
