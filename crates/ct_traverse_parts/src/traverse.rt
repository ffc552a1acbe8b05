//! One traverse that goes on.
ghost use Rattle.std.specs.Prelude.{◌≡◌, ◌∷◌, [], ◌≤◌, ◌+◌, ◌^◌, IfOk, OnOk, OnErr, length};
ghost use Rattle.ct_traverse_parts.specs.declared.line.Pass.TheVariants as passes;
ghost use Rattle.ct_traverse_parts.specs.declared.line.TLine.TheVariants as line;
ghost use Rattle.ct_traverse_parts.specs.Best.{gathered, shown};
ghost use Rattle.ct_traverse_parts.specs.Walk.{ask_lines, asks, counts, is_same_pass, pending_one, question, question_lines, questions, second_pass, without_member};

use crate::best::{Best, answer, gather};
use crate::kept::Kept;
use crate::line::{Pass, TLine, TPending};
use crate::post::Post;
use crate::rows::Row;
use ct_lead::runs::is_among;
use ct_mail::sent::Fate;
use ct_values::items::Items;
use ct_values::memory::NoMemory;
use std::alloc::Global;

/// A traverse of a database: who asks, the generation and its members, the pass that runs and who has not answered it yet, and
/// what is kept of each key.
pub struct Traverse {
    pub number: u64,
    pub node: u32,
    pub generation: u64,
    pub db: u32,
    pub members: Items<u32>,
    pub pass: Pass,
    pub missing: Items<u32>,
    pub kept: Kept<Best>,
}

impl Drop for Traverse {
    /// All that it holds is let go.
    fn drop(self) {
        let Traverse {
            number: _,
            node: _,
            generation: _,
            db: _,
            members: _,
            pass: _,
            missing: _,
            kept: _,
        } = self;
    }
}

/// Are they one pass?
fn is_same_pass(a: Pass, b: Pass) -> bool
    ensures { result ≡ is_same_pass a b }
{
    match a {
        Pass::Copies => match b {
            Pass::Copies => true,
            Pass::Entries => false,
        },
        Pass::Entries => match b {
            Pass::Copies => false,
            Pass::Entries => true,
        },
    }
}

/// These numbers without this one.
#[tactic(auto, unfolding(crate::specs::Walk::without_member))]
pub fn without_member(alloc: Global, node: u32, members: &[u32]) -> Result<Items<u32>, NoMemory>
    ensures { IfOk result (λ left. left ≡ without_member node members.now) }
{
    let mut left = Items::empty(alloc);
    for member in members {
        if *member != node {
            left.push(*member)?;
        }
    }
    Ok(left)
}

impl Traverse {
    /// The message by which it asks a member in a pass.
    fn question(&self, pass: Pass, member: u32) -> Post
        ensures { result ≡ question pass self.now.node self.now.generation self.now.number self.now.db member }
    {
        Post {
            sender: self.node,
            receiver: member,
            generation: self.generation,
            traverse: self.number,
            db: self.db,
            pass,
            rows: None,
            fate: Fate::Waiting,
        }
    }

    /// The messages by which it asks all members in a pass.
    #[tactic(auto, unfolding(crate::specs::Walk::questions))]
    pub fn questions(&self, alloc: Global, pass: Pass) -> Result<Vec<Post>, NoMemory>
        ensures { IfOk result (λ posts. posts.items ≡ asks pass self.now) }
    {
        let mut posts = Vec::new(alloc);
        for member in self.members.as_slice() {
            posts.push(self.question(pass, *member))?;
        }
        Ok(posts)
    }

    /// The lines of these messages, the first of which gets this number.
    #[tactic(auto, unfolding(crate::specs::Walk::question_lines))]
    pub fn question_lines(
        &self,
        alloc: Global,
        pass: Pass,
        first: u64,
    ) -> Result<Vec<TLine>, NoMemory>
        requires { first + length self.now.members ≤ 2 ^ 63 }
        ensures { IfOk result (λ lines. lines.items ≡ ask_lines first pass self.now) }
    {
        let mut lines = Vec::new(alloc);
        let mut number = first;
        for member in self.members.as_slice() {
            lines.push(TLine::Asked {
                number,
                sender: self.node,
                receiver: *member,
                generation: self.generation,
                traverse: self.number,
                pass,
            })?;
            number += 1;
        }
        Ok(lines)
    }

    /// Do these rows count?
    pub fn counts(&self, post: &Post) -> bool
        ensures { result ≡ counts post.now self.now }
    {
        is_same_pass(post.pass, self.pass) && is_among(post.sender, self.missing.as_slice())
    }

    /// It has these rows of its pass, and these members are missing yet. Without memory nothing changes.
    pub fn count(
        &mut self,
        alloc: Global,
        pass: Pass,
        node: u32,
        rows: &[Row],
        missing: Items<u32>,
    ) -> Result<(), NoMemory>
        ensures ok { OnOk result (self.new ≡ record self.old { missing = missing; kept = gathered pass node rows.now self.old.kept }) }
        ensures err { OnErr result (self.new ≡ self.old) }
    {
        gather(alloc, &mut self.kept, pass, node, rows)?;
        self.missing = missing;
        Ok(())
    }

    /// It has these rows, the last ones of its first pass, and asks for entries. Without memory nothing changes.
    pub fn turn(
        &mut self,
        alloc: Global,
        pass: Pass,
        node: u32,
        rows: &[Row],
        missing: Items<u32>,
    ) -> Result<(), NoMemory>
        ensures ok { OnOk result (self.new ≡ record self.old { pass = passes.Entries; missing = missing; kept = gathered pass node rows.now self.old.kept }) }
        ensures err { OnErr result (self.new ≡ self.old) }
    {
        gather(alloc, &mut self.kept, pass, node, rows)?;
        self.pass = Pass::Entries;
        self.missing = missing;
        Ok(())
    }

    /// The line of its answer, once it has these rows. Without memory nothing changes.
    pub fn answer(
        &mut self,
        alloc: Global,
        pass: Pass,
        node: u32,
        rows: &[Row],
    ) -> Result<Vec<TLine>, NoMemory>
        ensures ok { IfOk result (λ lines. lines.items ≡ line.Shown (shown (gathered pass node rows.now self.old.kept)) ∷ []) }
        ensures err { OnErr result (self.new ≡ self.old) }
    {
        answer(alloc, &mut self.kept, pass, node, rows)
    }

    /// What waits to be answered.
    pub fn pending(&self) -> TPending
        ensures { result ≡ pending_one self.now }
    {
        TPending {
            traverse: self.number,
            node: self.node,
            db: self.db,
        }
    }
}
