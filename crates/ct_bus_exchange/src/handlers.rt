//! The handlers of numbered services.
ghost use Rattle.std.specs.Prelude.{◌≡◌, ◌∷◌, ◌++◌, [], map, IfOk, OnOk, OnErr};
ghost use Rattle.ct_bus_exchange.specs.Handling.{AnswersBody, IsCallable, dispatched, handled};
ghost use Rattle.ct_bus_exchange.specs.Named.{named};
ghost use Rattle.ct_bus_exchange.specs.Shown.{handled_by};
ghost use Rattle.ct_call.specs.Seen.{seen};

use crate::entry::{Entry, Plain};
use crate::handled::Handled;
use crate::own::{Handler, Own};
use ct_bus::message::Message;
use ct_call::rule::Rule;
use ct_values::items::Items;
use ct_values::memory::NoMemory;
use std::alloc::Global;

/// The handlers of services, each with its rule, in the order in which they were added. A service may have several.
pub struct Handlers {
    alloc: Global,
    pub(crate) entries: Vec<Entry>,
}

impl Drop for Handlers {
    /// All that it holds is let go.
    fn drop(self) {
        let Handlers {
            alloc: _,
            entries: _,
        } = self;
    }
}

impl Handlers {
    /// No handler. It takes no memory.
    pub fn new(alloc: Global) -> Handlers
        ensures { handled_by result ≡ [] }
    {
        Handlers {
            alloc,
            entries: Vec::new(alloc),
        }
    }

    /// Adds a handler of a service after all others. It may be called at any body, and each of its answers is the rule's value
    /// with the empty value as Old and the body as Arg. Without memory it is let go, and nothing changes.
    pub fn add(&mut self, srvid: u64, rule: Rule, f: Handler) -> Result<(), NoMemory>
        requires callable { IsCallable (Handler.pre f) }
        requires ruled { AnswersBody (Handler.post f) (seen rule) }
        ensures ok { OnOk result (handled_by self.new ≡ handled_by self.old ++ (srvid, seen rule) ∷ []) }
        ensures err { OnErr result (handled_by self.new ≡ handled_by self.old) }
    {
        let own = Own {
            srvid,
            rule,
            handler: f,
        };
        self.entries.push(Entry::Own(own))?;
        Ok(())
    }

    /// Adds a handler of a service, which computes its rule, after all others. Without memory nothing changes.
    pub fn add_rule(&mut self, alloc: Global, srvid: u64, rule: Rule) -> Result<(), NoMemory>
        ensures ok { OnOk result (handled_by self.new ≡ handled_by self.old ++ (srvid, seen rule) ∷ []) }
        ensures err { OnErr result (handled_by self.new ≡ handled_by self.old) }
    {
        let plain = Plain { srvid, rule, alloc };
        self.entries.push(Entry::Plain(plain))?;
        Ok(())
    }

    /// What the handlers of the message's service answer to its body, in the order in which they were added; nothing where it
    /// has none.
    pub fn dispatch(&self, message: &Message) -> Result<Vec<Items<u8>>, NoMemory>
        ensures { IfOk result (λ v. v.items ≡ dispatched (handled_by self.now) message.now.srvid message.now.body) }
    {
        let mut answers = Vec::new(self.alloc);
        let entries = self.entries.as_slice();
        for entry in entries {
            if entry.srvid() == message.srvid {
                let bytes = entry.answer(&message.body)?;
                answers.push(Items::new(bytes))?;
            }
        }
        Ok(answers)
    }

    /// A copy of the message, with what its handlers answer.
    pub fn handle(&self, message: &Message) -> Result<Handled, NoMemory>
        ensures { IfOk result (λ h. h ≡ handled (handled_by self.now) message.now) }
    {
        let copy = message.copy()?;
        let answers = self.dispatch(message)?;
        Ok(Handled {
            message: copy,
            answers: Items::new(answers),
        })
    }

    /// Copies of the messages, each with what its handlers answer.
    pub fn handle_all(&self, messages: &[Message]) -> Result<Items<Handled>, NoMemory>
        ensures { IfOk result (λ v. v ≡ map (handled (handled_by self.now)) messages.now) }
    {
        let mut all = Items::empty(self.alloc);
        for message in messages {
            all.push(self.handle(message)?)?;
        }
        Ok(all)
    }
}
