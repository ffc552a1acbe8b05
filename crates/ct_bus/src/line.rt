//! One pair's queue: what is taken of it is what was posted to it, in order, whole and once.
ghost use Rattle.std.specs.Prelude.{◌≡◌, ◌+◌, ◌≤◌, ◌<◌, ◌^◌, true, false, [], ◌∷◌, ◌++◌, length, IfOk, MatchResult, MatchOption};
ghost use Rattle.crossbeam_queue.specs.Passes.{view, IsPassOf, ruled_capacity};
ghost use Rattle.ct_bus.specs.Relay.{log, message, Relayed, IsFront};
ghost use Rattle.ct_bus.specs.Ends.{posted_to, taken_from, into_queue, out_queue};

use crate::ends::{PostEnd, TakeEnd};
use crate::message::{Log, Message};
use crossbeam_queue::RuledArrayQueue;
use crossbeam_queue::protocol::{Join, Lesson, Outcome, Protocol, Split};
use ct_values::memory::NoMemory;
use ct_values::value::Value;
use std::alloc::Global;
use std::marker::Model;
use std::sync::Wait;

/// How many messages wait between two nodes at most.
pub const PLACES: usize = 64;

/// The rule of the queue: it hands over in order, whole and once.
pub struct InOrder;

impl Protocol<Message, Log> for InOrder {
    ghost use Rattle.std.specs.Prelude.{true, []};
    ghost use Rattle.ct_bus.specs.Relay.{log, Relayed};

    ghost holds = { Relayed };

    ghost first = { log true true [] [] };
}

/// An end that does both is cut in one that posts and one that takes, and put together of them.
struct BothEnds;

impl Split<Log> for BothEnds {
    ghost use Rattle.std.specs.Prelude.{true, false, []};
    ghost use Rattle.ct_bus.specs.Relay.{log};

    ghost left = { λ v. log true false v.posted [] };

    ghost right = { λ v. log false true [] v.taken };
}

impl Join<Log> for BothEnds {
    ghost use Rattle.std.specs.Prelude.{true, false, []};
    ghost use Rattle.ct_bus.specs.Relay.{log};

    ghost both = { λ v w. log true true v.posted w.taken };

    ghost spent = { log false false [] [] };
}

/// A message joins; a full queue tells that so many were posted at least.
struct Posts;

impl Outcome<Message, Log> for Posts {
    ghost then = { λ v x w. w ≡ log v.posts v.takes (v.posted ++ x ∷ []) v.taken };
}

impl Lesson<Message, Log> for Posts {
    ghost fact = { λ v items. length items ≤ length v.posted };
}

/// A message leaves; an empty queue tells nothing.
struct Takes;

impl Outcome<Message, Log> for Takes {
    ghost then = { λ v x w. w ≡ log v.posts v.takes v.posted (v.taken ++ x ∷ []) };
}

impl Lesson<Message, Log> for Takes {
    ghost fact = { λ v items. Unit {0} };
}

/// Both ends together tell what the queue holds.
struct Total;

impl Lesson<Message, Log> for Total {
    ghost fact = { λ v items. v.posted ≡ v.taken ++ items };
}

type Queue = RuledArrayQueue<Message, Log, InOrder>;

/// The queue of one pair of nodes. Contracts see which one it is.
#[derive(Drop)]
pub struct Line {
    queue: Queue,
}

impl Model for Line {
    ghost use Rattle.atomic_table.specs.Seated.{TableId, table_id_coded};
    ghost use Rattle.std.specs.Prelude.{◌≡◌};
    ghost use Rattle.crossbeam_queue.specs.Passes.{ruled_capacity};

    ghost Value = { TableId };

    ghost coded = { table_id_coded };

    ghost view = { λ l. l.queue.table.shared.table_id };

    ghost invariant = { λ l. ruled_capacity l.queue ≡ 64 };
}

/// A queue with nothing in it, and its ends.
#[derive(Drop)]
pub struct NewLine {
    pub line: Line,
    pub post: PostEnd,
    pub take: TakeEnd,
}

impl Line {
    /// A queue of 64 places, for what this node posts.
    pub fn open(alloc: Global, sender: u32) -> Result<NewLine, NoMemory>
        ensures post { IfOk result (λ o. (into_queue o.post ≡ o.line) × (posted_to o.post ≡ [])) }
        ensures take { IfOk result (λ o. (out_queue o.take ≡ o.line) × (taken_from o.take ≡ [])) }
    {
        let (queue, mut pass) = Queue::ruled(alloc, PLACES)?;
        let other = queue.another::<BothEnds>(&mut pass);
        Ok(NewLine {
            line: Line { queue },
            post: PostEnd { count: 0, pass },
            take: TakeEnd {
                sender,
                pass: other,
            },
        })
    }

    /// Posts a message, and answers its place: how many were posted before. The body comes back, and nothing changes, only
    /// where the queue was full at one moment of this call; 64 messages were posted then at least. It takes no memory.
    pub fn post<R: Wait>(
        &self,
        rt: &R,
        end: &mut PostEnd,
        srvid: u64,
        body: Value,
    ) -> Result<u64, Value>
        requires line { into_queue end.old ≡ self.now }
        requires room { length (posted_to end.old) < 2 ^ 61 }
        ensures line { into_queue end.new ≡ into_queue end.old }
        ensures posted { MatchResult result (λ place. (place ≡ length (posted_to end.old)) × (posted_to end.new ≡ posted_to end.old ++ message srvid place body ∷ [])) (λ back. (back ≡ body) × (posted_to end.new ≡ posted_to end.old) × (64 ≤ length (posted_to end.old))) }
    {
        let place = end.count;
        let message = Message { srvid, place, body };
        match self.queue.push_as::<Posts, R>(rt, &mut end.pass, message) {
            Ok(()) => {
                end.count += 1;
                Ok(place)
            }
            Err(back) => {
                let Message { body, .. } = back;
                Err(body)
            }
        }
    }

    /// Takes the first message that waits. None, and nothing changes, only where the queue was empty at one moment of this
    /// call. It takes no memory.
    pub fn poll<R: Wait>(&self, rt: &R, end: &mut TakeEnd) -> Option<Message>
        requires line { out_queue end.old ≡ self.now }
        ensures line { out_queue end.new ≡ out_queue end.old }
        ensures taken { MatchOption result (taken_from end.new ≡ taken_from end.old) (λ m. taken_from end.new ≡ taken_from end.old ++ m ∷ []) }
    {
        self.queue.pop_as::<Takes, R>(rt, &mut end.pass)
    }

    /// What was taken is a front of what was posted. Nothing can be taken after it. It takes no memory.
    pub fn settle(&self, post: &mut PostEnd, take: TakeEnd)
        requires post { into_queue post.old ≡ self.now }
        requires take { out_queue take ≡ self.now }
        ensures line { into_queue post.new ≡ into_queue post.old }
        ensures posted { posted_to post.new ≡ posted_to post.old }
        ensures front { IsFront (taken_from take) (posted_to post.old) }
    {
        let TakeEnd { pass: other, .. } = take;
        self.queue.absorb::<BothEnds>(&mut post.pass, other);
        self.queue.learn_as::<Total>(&mut post.pass);
        let _ended = self.queue.another::<BothEnds>(&mut post.pass);
    }
}
