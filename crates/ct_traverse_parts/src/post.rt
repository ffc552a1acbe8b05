//! The messages of traverses, by number.
ghost use Rattle.std.specs.Prelude.{◌≡◌, ◌≤◌, ◌<◌, ◌++◌, ◌-◌, true, false, [], IfOk, OnOk, OnErr, Some, None, MatchOption, length, slice_get, slice_set, take};
ghost use Rattle.ct_traverse_parts.specs.declared.post.Post as post;
ghost use Rattle.ct_traverse_parts.specs.Posts.{before_waiting, is_delivered, is_waiting, next_waiting, numbered, waits, was_delivered};

use crate::line::Pass;
use crate::rows::Rows;
use ct_mail::sent::Fate;
use ct_values::copies::Duplicate;
use ct_values::items::Items;
use ct_values::memory::NoMemory;
use std::alloc::Global;
use std::marker::Model;

/// A message of a traverse: it asks its receiver for what it has of a database, or, with rows, it answers that. What became of
/// it is kept with it.
pub struct Post {
    pub sender: u32,
    pub receiver: u32,
    pub generation: u64,
    pub traverse: u64,
    pub db: u32,
    pub pass: Pass,
    pub rows: Option<Rows>,
    pub fate: Fate,
}

impl Drop for Post {
    /// All that it holds is let go.
    fn drop(self) {
        let Post {
            sender: _,
            receiver: _,
            generation: _,
            traverse: _,
            db: _,
            pass: _,
            rows: _,
            fate: _,
        } = self;
    }
}

/// Every message of traverses, in the order of its number from 1. The first one that waits is known without a search.
pub struct Posts {
    list: Items<Post>,
    first: usize,
}

impl Drop for Posts {
    /// All that it holds is let go.
    fn drop(self) {
        let Posts { list: _, first: _ } = self;
    }
}

impl Model for Posts {
    ghost use Rattle.std.specs.Prelude.{◌≡◌, List};
    ghost use Rattle.ct_traverse_parts.specs.Posts.{before_waiting};
    ghost use Rattle.ct_traverse_parts.specs.declared.post.Post as post;

    ghost Value = { List post.Post };

    ghost view = { λ p. p.list };

    ghost invariant = { λ p. p.first ≡ before_waiting p.list };
}

impl Post {
    /// Does it wait?
    fn is_waiting(&self) -> bool
        ensures { result ≡ waits self.now.fate }
    {
        match self.fate {
            Fate::Waiting => true,
            Fate::Delivered | Fate::Dropped => false,
        }
    }

    /// Was it delivered?
    fn is_delivered(&self) -> bool
        ensures { result ≡ was_delivered self.now.fate }
    {
        match self.fate {
            Fate::Delivered => true,
            Fate::Waiting | Fate::Dropped => false,
        }
    }

    /// A copy that equals it.
    pub fn copy(&self) -> Result<Post, NoMemory>
        ensures { IfOk result (λ x. x ≡ self.now) }
    {
        Ok(Post {
            sender: self.sender,
            receiver: self.receiver,
            generation: self.generation,
            traverse: self.traverse,
            db: self.db,
            pass: self.pass,
            rows: self.rows.duplicate()?,
            fate: self.fate,
        })
    }

    /// It has another fate.
    fn end(&mut self, fate: Fate)
        ensures { self.new ≡ record self.old { fate = fate } }
    {
        self.fate = fate;
    }
}

/// The place of the first message that waits, from this place on; their number where none does.
#[tactic(auto, using(crate::proofs::Waiting::ends_there))]
fn first_from(posts: &[Post], from: usize) -> usize
    requires { from ≤ before_waiting posts.now }
    ensures { result ≡ before_waiting posts.now }
{
    let mut first = from;
    while let Some(one) = posts.get(first) {
        if one.is_waiting() {
            return first;
        }
        first += 1;
    }
    first
}

/// One message has another fate.
fn mark(posts: &mut Items<Post>, place: usize, fate: Fate)
    requires { place < length posts.old }
    ensures { (x : post.Post) → slice_get posts.old place ≡ Some x → posts.new ≡ slice_set posts.old place (record x { fate = fate }) }
{
    posts.get_mut(place).end(fate);
}

impl Posts {
    /// Nothing was sent yet. It takes no memory.
    #[tactic(auto, unfolding(crate::specs::Posts::before_waiting))]
    pub fn new(alloc: Global) -> Posts
        ensures { result ≡ [] }
    {
        Posts {
            list: Items::empty(alloc),
            first: 0,
        }
    }

    /// How many messages were sent.
    pub fn len(&self) -> usize
        ensures { result ≡ length self.now }
    {
        self.list.len()
    }

    /// The least number of a message that waits. It takes no memory, and searches nothing.
    #[tactic(auto, using(crate::proofs::Waiting::none_waits, crate::proofs::Waiting::first_waits))]
    pub fn next_waiting(&self) -> Option<u64>
        ensures { result ≡ next_waiting self.now }
    {
        if self.first < self.list.len() {
            Some(self.first as u64 + 1)
        } else {
            None
        }
    }

    /// The message of this number, where it was sent.
    #[tactic(auto, unfolding(crate::specs::Posts::numbered))]
    pub fn post(&self, number: u64) -> Option<&Post>
        ensures { MatchOption result (numbered number self.now ≡ None) (λ x. numbered number self.now ≡ Some x.now) }
    {
        if number == 0 {
            return None;
        }
        self.list.as_slice().get((number - 1) as usize)
    }

    /// Does the message of this number wait?
    #[tactic(auto, unfolding(crate::specs::Posts::is_waiting))]
    pub fn is_waiting(&self, number: u64) -> bool
        ensures { result ≡ is_waiting (numbered number self.now) }
    {
        match self.post(number) {
            Some(post) => post.is_waiting(),
            None => false,
        }
    }

    /// Was the message of this number delivered?
    #[tactic(auto, unfolding(crate::specs::Posts::is_delivered))]
    pub fn is_delivered(&self, number: u64) -> bool
        ensures { result ≡ is_delivered (numbered number self.now) }
    {
        match self.post(number) {
            Some(post) => post.is_delivered(),
            None => false,
        }
    }

    /// These messages are sent, one after the other, and wait. Without memory nothing changes.
    #[tactic(auto, using(crate::proofs::Waiting::posted_after))]
    pub fn send(&mut self, more: Vec<Post>) -> Result<(), NoMemory>
        requires { before_waiting more.items ≡ 0 }
        ensures ok { OnOk result (self.new ≡ self.old ++ more.items) }
        ensures err { OnErr result (self.new ≡ self.old) }
    {
        let mut sent = more;
        self.list.append(&mut sent)
    }

    /// Only the first messages are left. It takes no memory.
    #[tactic(auto, using(crate::proofs::Waiting::taken_short, crate::proofs::Waiting::taken_long))]
    pub fn truncate(&mut self, count: usize)
        ensures { self.new ≡ take count self.old }
    {
        self.list.truncate(count);
        if count < self.first {
            self.first = count;
        }
    }

    /// The message of this number, which waits, is delivered or dropped. It takes no memory.
    #[tactic(auto, using(crate::proofs::Waiting::waits_there, crate::proofs::Waiting::numbered_there, crate::proofs::Waiting::ended_later))]
    pub fn end(&mut self, number: u64, fate: Fate)
        requires waiting { is_waiting (numbered number self.old) ≡ true }
        requires ended { waits fate ≡ false }
        ensures { (x : post.Post) → numbered number self.old ≡ Some x → self.new ≡ slice_set self.old (number - 1) (record x { fate = fate }) }
    {
        mark(&mut self.list, number as usize - 1, fate);
        self.first = first_from(self.list.as_slice(), self.first);
    }
}
