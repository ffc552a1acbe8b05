//! The messages of one record, and those of a commit.
ghost use Rattle.std.specs.Prelude.{◌≡◌, IfOk};
ghost use Rattle.ct_wire_fields.specs.Check.{key_of, value_of};
ghost use Rattle.ct_wire_fields.specs.Reading.{after_db, after_key, after_kind, after_node, after_rsn, after_seq, after_value, db_read, key_found, kind_read, least_read, next_write, node_read, rsn_read, seq_read, value_found, write_count_read, write_key_found, write_value_found, step_of};

use crate::check::{is_below_limit, is_count, is_db, is_from_one, is_node, key_of, value_of};
use crate::draft::{Draft, Led, taken, to_number, to_text, whole};
use crate::place::{NumberPlace, Operation, TextPlace};
use ct_frame::frame::{CallKind, Msg};
use ct_values::client::Pair;
use ct_values::key::Key;
use ct_values::memory::NoMemory;
use ct_values::value::Value;
use std::alloc::Global;

impl Draft {
    fn after_db(&self) -> Led
        ensures { step_of result self.now ≡ after_db self.now self.now.head.operation }
    {
        match self.head.operation {
            Operation::PUpdate | Operation::PAck => to_number(NumberPlace::Seq),
            _ => to_text(TextPlace::Key),
        }
    }

    pub(crate) fn db_read(&mut self, at: u64, number: u64) -> Led
        ensures { step_of result self.new ≡ db_read self.old at number }
    {
        if !is_db(number) {
            return Led::Broken(at);
        }
        self.db = number as u32;
        self.after_db()
    }

    fn after_key(&self, key: Key) -> Led
        ensures { step_of result self.now ≡ after_key self.now key self.now.head.operation }
    {
        match self.head.operation {
            Operation::Call => to_number(NumberPlace::Kind { key }),
            Operation::Recall => to_number(NumberPlace::Least { key }),
            Operation::Done => to_number(NumberPlace::Node { key }),
            _ => to_number(NumberPlace::Rsn { key }),
        }
    }

    pub(crate) fn key_read(&self, at: u64, text: Vec<u8>) -> Result<Led, NoMemory>
        ensures { IfOk result (λ led. step_of led self.now ≡ key_found self.now at (key_of text.items)) }
    {
        match key_of(text)? {
            None => Ok(Led::Broken(at)),
            Some(key) => Ok(self.after_key(key)),
        }
    }

    pub(crate) fn least_read(&mut self, at: u64, key: Key, number: u64) -> Led
        ensures { step_of result self.new ≡ least_read self.old at key number }
    {
        if !is_below_limit(number) {
            return Led::Broken(at);
        }
        self.rsn = number;
        to_number(NumberPlace::Node { key })
    }

    fn after_node(&self, key: Key) -> Led
        ensures { step_of result self.now ≡ after_node self.now key self.now.head.operation }
    {
        match self.head.operation {
            Operation::Recall => to_number(NumberPlace::Kind { key }),
            _ => whole(
                self.head,
                Msg::Done {
                    db: self.db,
                    key,
                    node: self.node,
                    request: self.head.request,
                },
            ),
        }
    }

    pub(crate) fn node_read(&mut self, at: u64, key: Key, number: u64) -> Led
        ensures { step_of result self.new ≡ node_read self.old at key number }
    {
        if !is_node(number) {
            return Led::Broken(at);
        }
        self.node = number as u32;
        self.after_node(key)
    }

    fn after_kind(&self, key: Key, kind: CallKind) -> Led
        ensures { step_of result self.now ≡ after_kind self.now key kind self.now.head.operation }
    {
        match self.head.operation {
            Operation::Recall => whole(
                self.head,
                Msg::Recall {
                    db: self.db,
                    key,
                    least: self.rsn,
                    node: self.node,
                    request: self.head.request,
                    kind,
                },
            ),
            _ => whole(
                self.head,
                Msg::Call {
                    db: self.db,
                    key,
                    request: self.head.request,
                    kind,
                },
            ),
        }
    }

    pub(crate) fn kind_read(&self, at: u64, key: Key, number: u64) -> Led
        ensures { step_of result self.now ≡ kind_read self.now at key number }
    {
        if number == 0 {
            return self.after_kind(key, CallKind::Lock);
        }
        if number == 1 {
            return self.after_kind(key, CallKind::Read);
        }
        Led::Broken(at)
    }

    fn after_rsn(&self, at: u64, key: Key) -> Led
        ensures { step_of result self.now ≡ after_rsn self.now at key self.now.head.operation }
    {
        let (head, db, rsn) = (self.head, self.db, self.rsn);
        let request = head.request;
        match head.operation {
            Operation::Give | Operation::Pass | Operation::Grant => {
                to_text(TextPlace::Value { key })
            }
            Operation::Refuse => whole(
                head,
                Msg::Refuse {
                    db,
                    key,
                    request,
                    rsn,
                },
            ),
            Operation::Revoke => whole(head, Msg::Revoke { db, key, rsn }),
            Operation::RevokeAck => whole(head, Msg::RevokeAck { db, key, rsn }),
            Operation::VStore => whole(head, Msg::VStore { db, key, rsn }),
            Operation::VStored => whole(head, Msg::VStored { db, key, rsn }),
            Operation::VDelete => whole(head, Msg::VDelete { db, key, rsn }),
            Operation::VDeleted => whole(head, Msg::VDeleted { db, key, rsn }),
            _ => Led::Broken(at),
        }
    }

    pub(crate) fn rsn_read(&mut self, at: u64, key: Key, number: u64) -> Led
        ensures { step_of result self.new ≡ rsn_read self.old at key number }
    {
        if !is_below_limit(number) {
            return Led::Broken(at);
        }
        self.rsn = number;
        self.after_rsn(at, key)
    }

    fn after_value(&self, key: Key, value: Value) -> Led
        ensures { step_of result self.now ≡ after_value self.now key value self.now.head.operation }
    {
        let (head, db, rsn) = (self.head, self.db, self.rsn);
        let request = head.request;
        match head.operation {
            Operation::Give => whole(
                head,
                Msg::Give {
                    db,
                    key,
                    rsn,
                    value,
                },
            ),
            Operation::Pass => whole(
                head,
                Msg::Pass {
                    db,
                    key,
                    request,
                    rsn,
                    value,
                },
            ),
            _ => whole(
                head,
                Msg::Grant {
                    db,
                    key,
                    request,
                    rsn,
                    value,
                },
            ),
        }
    }

    pub(crate) fn value_read(&self, at: u64, key: Key, text: Vec<u8>) -> Result<Led, NoMemory>
        ensures { IfOk result (λ led. step_of led self.now ≡ value_found self.now at key (value_of text.items)) }
    {
        match value_of(text)? {
            None => Ok(Led::Broken(at)),
            Some(value) => Ok(self.after_value(key, value)),
        }
    }

    fn after_seq(&self) -> Led
        ensures { step_of result self.now ≡ after_seq self.now self.now.head.operation }
    {
        match self.head.operation {
            Operation::PUpdate => to_number(NumberPlace::WriteCount),
            _ => whole(
                self.head,
                Msg::PAck {
                    db: self.db,
                    seq: self.seq,
                },
            ),
        }
    }

    pub(crate) fn seq_read(&mut self, at: u64, number: u64) -> Led
        ensures { step_of result self.new ≡ seq_read self.old at number }
    {
        if !is_from_one(number) {
            return Led::Broken(at);
        }
        self.seq = number;
        self.after_seq()
    }

    pub(crate) fn write_count_read(&self, at: u64, number: u64) -> Led
        ensures { step_of result self.now ≡ write_count_read self.now at number }
    {
        if !is_count(number) {
            return Led::Broken(at);
        }
        to_text(TextPlace::WriteKey { left: number })
    }

    pub(crate) fn write_key_read(&self, at: u64, left: u64, text: Vec<u8>) -> Result<Led, NoMemory>
        ensures { IfOk result (λ led. step_of led self.now ≡ write_key_found self.now at left (key_of text.items)) }
    {
        match key_of(text)? {
            None => Ok(Led::Broken(at)),
            Some(key) => Ok(to_text(TextPlace::WriteValue { left, key })),
        }
    }

    /// The next write, where `left` are to come, this one among them.
    fn next_write(&mut self, alloc: Global, left: u64) -> Led
        ensures { step_of result self.new ≡ next_write self.old left }
    {
        if left > 1 {
            return to_text(TextPlace::WriteKey { left: left - 1 });
        }
        let writes = taken(alloc, &mut self.pairs);
        whole(
            self.head,
            Msg::PUpdate {
                db: self.db,
                seq: self.seq,
                writes,
            },
        )
    }

    pub(crate) fn write_value_read(
        &mut self,
        alloc: Global,
        at: u64,
        left: u64,
        key: Key,
        text: Vec<u8>,
    ) -> Result<Led, NoMemory>
        ensures { IfOk result (λ led. step_of led self.new ≡ write_value_found self.old at left key (value_of text.items)) }
    {
        let Some(value) = value_of(text)? else {
            return Ok(Led::Broken(at));
        };
        self.pairs.push(Pair { key, value })?;
        Ok(self.next_write(alloc, left))
    }
}
