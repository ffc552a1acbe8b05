//! The traverses of a cluster, with their messages.
ghost use Rattle.std.specs.Prelude.{◌≡◌, ◌<◌, ◌≤◌, ◌∷◌, ◌&&◌, ◌+◌, ◌^◌, [], false, true, nat_lt, IfOk, IfSome, OnOk, OnErr, None, Some, length, map, slice_get, slice_set};
ghost use Rattle.std.specs.List.{filter, remove};
ghost use Rattle.ct_rules_cluster.specs.Cluster.{is_up, node_at};
ghost use Rattle.ct_traverse_parts.specs.Best.{gathered, shown};
ghost use Rattle.ct_mail.specs.declared.sent.Fate.TheVariants as fates;
ghost use Rattle.ct_traverse_parts.specs.declared.line.Pass.TheVariants as passes;
ghost use Rattle.ct_traverse_parts.specs.declared.line.TLine.TheVariants as line;
ghost use Rattle.ct_traverse_parts.specs.declared.post.Post as post;
ghost use Rattle.ct_traverse_parts.specs.declared.traverse.Traverse as traverse;
ghost use Rattle.ct_node_state.specs.Phases.{tells_present};
ghost use Rattle.ct_rules_node.specs.Node.{is_persistent, is_present_in, kind_at};
ghost use Rattle.ct_traverse_parts.specs.Posts.{before_waiting, is_delivered, is_waiting, next_waiting, numbered, waits};
ghost use Rattle.ct_traverse_parts.specs.Walk as walk;
ghost use Rattle.ct_traverse_parts.specs.Walk.{Walks, ask_lines, asks, begin_fault, begun, begun_as, carried, end_lines, gave, gave_at, given, passed, replied, reply, told, with_fate, with_rows, with_traverse, ended_after, first_pass, goes_on, have_numbers, is_there, lost, no_walk, pending, place_from, repeated, sent_back, told_rows, is_taken};

use ct_frame::round::Phase;
use ct_mail::sent::Fate;
use ct_node_state::kinds::kind_at;
use ct_traverse_parts::kept::Kept;
use ct_traverse_parts::line::{Pass, TFault, TLine, TPending};
use ct_traverse_parts::post::{Post, Posts};
use ct_traverse_parts::rows::{Row, Rows};
use ct_traverse_parts::traverse::{Traverse, without_member};
use ct_values::items::Items;
use ct_values::memory::NoMemory;
use ct_world::world::{Core, World};
use std::alloc::Global;
use std::marker::Model;

/// The number that no traverse and no message has.
const LIMIT: u64 = 4611686018427387904;

/// The traverses of a cluster that go on, by number, and all their messages. Each call is given the cluster as it is then.
pub struct Walker {
    alloc: Global,
    begun: u64,
    running: Vec<Traverse>,
    posts: Posts,
}

impl Drop for Walker {
    /// All that it holds is let go.
    fn drop(self) {
        let Walker {
            alloc: _,
            begun: _,
            running: _,
            posts: _,
        } = self;
    }
}

impl Model for Walker {
    ghost use Rattle.std.specs.Prelude.{◌<◌, ◌^◌};
    ghost use Rattle.ct_traverse_parts.specs.Walk as walk;

    ghost Value = { walk.Walk };

    ghost view = { λ w. record { begun = w.begun; running = w.running.items; posts = w.posts } };

    ghost invariant = { λ w. w.begun < 2 ^ 62 };
}

/// One line.
fn one(alloc: Global, line: TLine) -> Result<Vec<TLine>, NoMemory>
    ensures { IfOk result (λ lines. lines.items ≡ line ∷ []) }
{
    let mut lines = Vec::new(alloc);
    lines.push(line)?;
    Ok(lines)
}

/// One message.
fn alone(alloc: Global, post: Post) -> Result<Vec<Post>, NoMemory>
    ensures { IfOk result (λ posts. posts.items ≡ post ∷ []) }
{
    let mut posts = Vec::new(alloc);
    posts.push(post)?;
    Ok(posts)
}

/// Is a node of this phase present in the generation?
fn tells_present(generation: u64, phase: Phase) -> bool
    ensures { result ≡ tells_present generation phase }
{
    match phase {
        Phase::Serving(g) | Phase::Installed(g) => g == generation,
        Phase::Idle | Phase::Freezing(_) | Phase::Frozen(_) => false,
    }
}

/// Is the node present in the generation?
#[tactic(auto, using(ct_node_state::proofs::Telling::present_told), unfolding(ct_rules_node::specs::Node::is_present_in))]
fn is_present_in(generation: u64, core: &Core) -> bool
    ensures { result ≡ is_present_in generation core.now.node }
{
    tells_present(generation, core.phase())
}

/// Does the node run, and is it present in the generation?
#[tactic(auto, unfolding(ct_traverse_parts::specs::Walk::is_there))]
fn is_there(world: &World, node: u32, generation: u64) -> bool
    ensures { result ≡ is_there node generation world.now }
{
    match world.view(node) {
        Some(view) => is_present_in(generation, view.core),
        None => false,
    }
}

/// Why no traverse begins at the node.
#[tactic(auto, unfolding(ct_traverse_parts::specs::Walk::begin_fault))]
fn begin_fault(world: &World, node: u32, db: u32) -> Option<TFault>
    ensures { result ≡ begin_fault node db world.now }
{
    if world.config().nodes <= node {
        return Some(TFault::NoSuchNode(node));
    }
    let Some(view) = world.view(node) else {
        return Some(TFault::NodeDown(node));
    };
    if kind_at(world.config(), db).is_none() {
        return Some(TFault::NoSuchDb(db));
    }
    if !view.core.serving() {
        return Some(TFault::NotServing(node));
    }
    None
}

/// A copy of these numbers.
fn copied(alloc: Global, numbers: &[u32]) -> Result<Items<u32>, NoMemory>
    ensures { IfOk result (λ copy. copy ≡ numbers.now) }
{
    let copy = Vec::from_slice(alloc, numbers)?;
    Ok(Items::new(copy))
}

/// The traverse of this number that a node begins.
fn first_pass(
    alloc: Global,
    number: u64,
    node: u32,
    db: u32,
    core: &Core,
) -> Result<Traverse, NoMemory>
    ensures { IfOk result (λ t. t ≡ first_pass number node db core.now.node) }
{
    Ok(Traverse {
        number,
        node,
        generation: core.generation(),
        db,
        members: copied(alloc, core.members())?,
        pass: Pass::Copies,
        missing: copied(alloc, core.members())?,
        kept: Kept::new(alloc),
    })
}

/// Where the traverse of this number stands, if it goes on.
#[tactic(auto, unfolding(ct_traverse_parts::specs::Walk::place_from))]
fn place_of(running: &[Traverse], number: u64) -> Option<usize>
    ensures place { result ≡ place_from 0 number running.now }
    ensures there { IfSome result (λ i. i < length running.now) }
{
    for i in 0..running.len() {
        if running[i].number == number {
            return Some(i);
        }
    }
    None
}

/// All copies of a database at a node, or all its entries.
fn rows_at(alloc: Global, pass: Pass, core: &Core, db: u32) -> Result<Rows, NoMemory>
    ensures { IfOk result (λ rows. rows ≡ told_rows pass core.now.pnn db core.now.node) }
{
    let rows = match pass {
        Pass::Copies => core.rows(db)?,
        Pass::Entries => core.entries(db)?,
    };
    Rows::new(alloc, rows.as_slice())
}

/// A line for each traverse whose node is in its generation no more.
#[tactic(auto, unfolding(ct_traverse_parts::specs::Walk::end_lines))]
fn end_lines(alloc: Global, world: &World, running: &[Traverse]) -> Result<Vec<TLine>, NoMemory>
    ensures { IfOk result (λ lines. lines.items ≡ end_lines world.now running.now) }
{
    let mut lines = Vec::new(alloc);
    for t in running {
        if !is_there(world, t.node, t.generation) {
            lines.push(TLine::Ended(t.number))?;
        }
    }
    Ok(lines)
}

/// The traverses whose node is in their generation yet are left. It takes no memory.
fn keep_going(world: &World, running: &mut Vec<Traverse>)
    ensures { running.new.items ≡ filter (goes_on world.now) running.old.items }
{
    running.retain(|t| is_there(world, t.node, t.generation));
}

/// The traverse at a place has these rows, and these members are missing yet. Without memory nothing changes.
#[tactic(auto, using(crate::proofs::Walking::set_same))]
fn count_at(
    alloc: Global,
    running: &mut Vec<Traverse>,
    place: usize,
    post: &Post,
    rows: &[Row],
    missing: Items<u32>,
) -> Result<(), NoMemory>
    requires { place < length running.old.items }
    ensures ok { (t : traverse.Traverse) → slice_get running.old.items place ≡ Some t → OnOk result (running.new.items ≡ slice_set running.old.items place (record t { missing = missing; kept = gathered post.now.pass post.now.sender rows.now t.kept })) }
    ensures err { OnErr result (running.new.items ≡ running.old.items) }
{
    running[place].count(alloc, post.pass, post.sender, rows, missing)
}

/// The traverse at a place has these rows, the last ones of its first pass, and asks for entries. Without memory nothing
/// changes.
#[tactic(auto, using(crate::proofs::Walking::set_same))]
fn turn_at(
    alloc: Global,
    running: &mut Vec<Traverse>,
    place: usize,
    post: &Post,
    rows: &[Row],
    missing: Items<u32>,
) -> Result<(), NoMemory>
    requires { place < length running.old.items }
    ensures ok { (t : traverse.Traverse) → slice_get running.old.items place ≡ Some t → OnOk result (running.new.items ≡ slice_set running.old.items place (record t { pass = passes.Entries; missing = missing; kept = gathered post.now.pass post.now.sender rows.now t.kept })) }
    ensures err { OnErr result (running.new.items ≡ running.old.items) }
{
    running[place].turn(alloc, post.pass, post.sender, rows, missing)
}

/// The line of the answer of the traverse at a place, once it has these rows. It goes then. Without memory nothing changes.
#[tactic(auto, using(crate::proofs::Walking::set_same, crate::proofs::Walking::remove_set))]
fn answer_at(
    alloc: Global,
    running: &mut Vec<Traverse>,
    place: usize,
    post: &Post,
    rows: &[Row],
) -> Result<Vec<TLine>, NoMemory>
    requires { place < length running.old.items }
    ensures lines { (t : traverse.Traverse) → slice_get running.old.items place ≡ Some t → IfOk result (λ lines. lines.items ≡ line.Shown (shown (gathered post.now.pass post.now.sender rows.now t.kept)) ∷ []) }
    ensures ok { OnOk result (running.new.items ≡ remove running.old.items place) }
    ensures err { OnErr result (running.new.items ≡ running.old.items) }
{
    let lines = running[place].answer(alloc, post.pass, post.sender, rows)?;
    drop(running.remove(place));
    Ok(lines)
}

/// The message by which a member answers with these rows.
fn reply(post: &Post, rows: Rows) -> Post
    ensures { result ≡ reply post.now rows }
{
    Post {
        sender: post.receiver,
        receiver: post.sender,
        generation: post.generation,
        traverse: post.traverse,
        db: post.db,
        pass: post.pass,
        rows: Some(rows),
        fate: Fate::Waiting,
    }
}

impl Walker {
    /// No traverse was begun yet. It takes no memory.
    pub fn new(alloc: Global) -> Walker
        ensures { result ≡ no_walk }
    {
        Walker {
            alloc,
            begun: 0,
            running: Vec::new(alloc),
            posts: Posts::new(alloc),
        }
    }

    /// The least number of a message that waits. It takes no memory, and searches nothing.
    pub fn next_waiting(&self) -> Option<u64>
        ensures { result ≡ next_waiting self.now.posts }
    {
        self.posts.next_waiting()
    }

    /// The traverses that have neither ended nor were answered, by number.
    pub fn pending(&self) -> Result<Vec<TPending>, NoMemory>
        ensures { IfOk result (λ list. list.items ≡ pending self.now) }
    {
        let mut list = Vec::new(self.alloc);
        for t in &self.running {
            list.push(t.pending())?;
        }
        Ok(list)
    }

    /// Do so many more messages have numbers below 2^62?
    fn has_numbers(&self, count: usize) -> bool
        ensures { result ≡ have_numbers count self.now }
    {
        let sent = self.posts.len() as u64;
        let more = count as u64;
        sent < LIMIT && more < LIMIT - sent
    }

    /// This traverse begins. A refusal changes nothing, and want of memory neither.
    #[tactic(auto, using(crate::proofs::Walking::questions_wait))]
    fn begin_as(&mut self, t: Traverse) -> Result<Vec<TLine>, TFault>
        ensures { Walks (λ lines. lines.items) result (begun_as t self.old) self.old self.new }
    {
        let number = t.number;
        if LIMIT <= number || !self.has_numbers(t.members.len()) {
            drop(t);
            return Err(TFault::Exhausted);
        }
        let lines = t.question_lines(self.alloc, t.pass, self.posts.len() as u64 + 1)?;
        let posts = t.questions(self.alloc, t.pass)?;
        let before = self.running.len();
        if self.running.push(t).is_err() {
            return Err(TFault::NoMemory);
        }
        if self.posts.send(posts).is_err() {
            self.running.truncate(before);
            return Err(TFault::NoMemory);
        }
        self.begun = number;
        Ok(lines)
    }

    /// A node begins a traverse of a database, which is not a persistent one: its members are asked for all copies of the
    /// database first. A refusal changes nothing, and want of memory neither.
    #[tactic(auto, using(crate::proofs::Walking::up_begins), unfolding(ct_traverse_parts::specs::Walk::begun_or))]
    pub fn begin(&mut self, world: &World, node: u32, db: u32) -> Result<Vec<TLine>, TFault>
        requires { is_persistent (kind_at world.now.config db) ≡ false }
        ensures { Walks (λ lines. lines.items) result (begun node db world.now self.old) self.old self.new }
    {
        if let Some(fault) = begin_fault(world, node, db) {
            return Err(fault);
        }
        let Some(view) = world.view(node) else {
            return Err(TFault::NodeDown(node));
        };
        let t = first_pass(self.alloc, self.begun + 1, node, db, view.core)?;
        self.begin_as(t)
    }

    /// A message that waits is dropped. A refusal changes nothing.
    #[tactic(auto, using(crate::proofs::Walking::not_lost))]
    pub fn lose(&mut self, world: &World, number: u64) -> Result<Vec<TLine>, TFault>
        ensures { Walks (λ lines. lines.items) result (lost number self.old) self.old self.new }
    {
        if !self.posts.is_waiting(number) {
            return Err(TFault::NoSuchMessage(number));
        }
        self.posts.end(number, Fate::Dropped);
        Ok(Vec::new(self.alloc))
    }

    /// The traverses whose node is in their generation no more end. A walk is told so of the cluster after each of its steps.
    /// Without memory nothing changes.
    pub fn after(&mut self, world: &World) -> Result<Vec<TLine>, TFault>
        ensures { Walks (λ lines. lines.items) result (ended_after world.now self.old) self.old self.new }
    {
        let lines = end_lines(self.alloc, world, self.running.as_slice())?;
        keep_going(world, &mut self.running);
        Ok(lines)
    }

    /// Does anybody take the message?
    #[tactic(auto, unfolding(ct_traverse_parts::specs::Walk::is_taken))]
    fn is_taken(&self, world: &World, post: &Post) -> bool
        ensures { result ≡ is_taken post.now post.now.rows world.now self.now }
    {
        match &post.rows {
            None => is_there(world, post.receiver, post.generation),
            Some(_) => place_of(self.running.as_slice(), post.traverse).is_some(),
        }
    }

    /// An answer with so many rows is sent. A refusal changes nothing, and want of memory neither.
    #[tactic(auto, using(crate::proofs::Walking::one_waits))]
    fn send_back(&mut self, reply: Post, count: usize) -> Result<Vec<TLine>, TFault>
        requires { waits reply.fate ≡ true }
        ensures { Walks (λ lines. lines.items) result (sent_back reply count self.old) self.old self.new }
    {
        if !self.has_numbers(1) {
            drop(reply);
            return Err(TFault::Exhausted);
        }
        let lines = one(
            self.alloc,
            TLine::Rows {
                number: self.posts.len() as u64 + 1,
                sender: reply.sender,
                receiver: reply.receiver,
                generation: reply.generation,
                traverse: reply.traverse,
                pass: reply.pass,
                count: count as u64,
            },
        )?;
        let posts = alone(self.alloc, reply)?;
        self.posts.send(posts)?;
        Ok(lines)
    }

    /// A member that runs answers a question. A refusal changes nothing, and want of memory neither.
    fn reply(&mut self, world: &World, post: &Post) -> Result<Vec<TLine>, TFault>
        requires { is_up post.now.receiver world.now.cluster ≡ true }
        ensures { Walks (λ lines. lines.items) result (replied post.now (told_rows post.now.pass post.now.receiver post.now.db (node_at post.now.receiver world.now.cluster)) self.old) self.old self.new }
    {
        let Some(view) = world.view(post.receiver) else {
            return Err(TFault::NoMemory);
        };
        let rows = rows_at(self.alloc, post.pass, view.core, post.db)?;
        let count = rows.len();
        self.send_back(reply(post, rows), count)
    }

    /// The traverse at a place has these rows, and waits for others. Want of memory changes nothing.
    fn wait_on(
        &mut self,
        post: &Post,
        rows: &[Row],
        place: usize,
        missing: Items<u32>,
    ) -> Result<Vec<TLine>, TFault>
        requires { place < length self.old.running }
        ensures { (t : traverse.Traverse) → slice_get self.old.running place ≡ Some t → Walks (λ lines. lines.items) result (told [] (with_traverse place (record t { missing = missing; kept = gathered post.now.pass post.now.sender rows.now t.kept }) self.old)) self.old self.new }
    {
        count_at(self.alloc, &mut self.running, place, post, rows, missing)?;
        Ok(Vec::new(self.alloc))
    }

    /// How many members the traverse at a place asks.
    fn count_members(&self, place: usize) -> usize
        ensures { (t : traverse.Traverse) → slice_get self.now.running place ≡ Some t → result ≡ length t.members }
    {
        match self.running.as_slice().get(place) {
            Some(t) => t.members.len(),
            None => 0,
        }
    }

    /// The members that it asks.
    fn members(&self, place: usize) -> Result<Items<u32>, NoMemory>
        ensures { (t : traverse.Traverse) → slice_get self.now.running place ≡ Some t → IfOk result (λ members. members ≡ t.members) }
    {
        match self.running.as_slice().get(place) {
            Some(t) => t.members.copy(self.alloc),
            None => Err(NoMemory),
        }
    }

    /// The messages by which it asks them for entries.
    #[tactic(auto, using(crate::proofs::Walking::questions_wait))]
    fn asks(&self, place: usize) -> Result<Vec<Post>, NoMemory>
        ensures asks { (t : traverse.Traverse) → slice_get self.now.running place ≡ Some t → IfOk result (λ posts. posts.items ≡ asks passes.Entries t) }
        ensures wait { IfOk result (λ posts. before_waiting posts.items ≡ 0) }
    {
        match self.running.as_slice().get(place) {
            Some(t) => t.questions(self.alloc, Pass::Entries),
            None => Err(NoMemory),
        }
    }

    /// The lines of these messages. No list is so long that its numbers do not fit.
    fn ask_lines(&self, place: usize) -> Result<Vec<TLine>, NoMemory>
        ensures { (t : traverse.Traverse) → slice_get self.now.running place ≡ Some t → IfOk result (λ lines. lines.items ≡ ask_lines (length self.now.posts + 1) passes.Entries t) }
    {
        let Some(t) = self.running.as_slice().get(place) else {
            return Err(NoMemory);
        };
        let sent = self.posts.len() as u64;
        if LIMIT <= sent || LIMIT <= t.members.len() as u64 {
            return Err(NoMemory);
        }
        t.question_lines(self.alloc, Pass::Entries, sent + 1)
    }

    /// The traverse at a place has these rows, the last ones of its first pass, and asks for entries. A refusal changes nothing,
    /// and want of memory neither.
    #[tactic(auto, using(crate::proofs::Walking::questions_wait, crate::proofs::Walking::cut_off), unfolding(ct_traverse_parts::specs::Walk::passed))]
    fn turn(&mut self, post: &Post, rows: &[Row], place: usize) -> Result<Vec<TLine>, TFault>
        requires { place < length self.old.running }
        ensures { (t : traverse.Traverse) → slice_get self.old.running place ≡ Some t → Walks (λ lines. lines.items) result (passed passes.Copies place (with_rows post.now rows.now t) self.old) self.old self.new }
    {
        if !self.has_numbers(self.count_members(place)) {
            return Err(TFault::Exhausted);
        }
        let lines = self.ask_lines(place)?;
        let questions = self.asks(place)?;
        let missing = self.members(place)?;
        let sent = self.posts.len();
        self.posts.send(questions)?;
        if turn_at(self.alloc, &mut self.running, place, post, rows, missing).is_err() {
            self.posts.truncate(sent);
            return Err(TFault::NoMemory);
        }
        Ok(lines)
    }

    /// The traverse at a place has these rows, the last ones of all, and is answered. Want of memory changes nothing.
    #[tactic(auto, unfolding(ct_traverse_parts::specs::Walk::passed))]
    fn answer(&mut self, post: &Post, rows: &[Row], place: usize) -> Result<Vec<TLine>, TFault>
        requires { place < length self.old.running }
        ensures { (t : traverse.Traverse) → slice_get self.old.running place ≡ Some t → Walks (λ lines. lines.items) result (passed passes.Entries place (with_rows post.now rows.now t) self.old) self.old self.new }
    {
        Ok(answer_at(self.alloc, &mut self.running, place, post, rows)?)
    }

    /// Rows come to the traverse at a place. A refusal changes nothing, and want of memory neither.
    #[tactic(auto, unfolding(ct_traverse_parts::specs::Walk::gave, ct_traverse_parts::specs::Walk::counted))]
    fn gave_to(&mut self, post: &Post, rows: &[Row], place: usize) -> Result<Vec<TLine>, TFault>
        requires { place < length self.old.running }
        ensures { Walks (λ lines. lines.items) result (gave post.now rows.now place (slice_get self.old.running place) self.old) self.old self.new }
    {
        let Some(t) = self.running.as_slice().get(place) else {
            return Ok(Vec::new(self.alloc));
        };
        if !t.counts(post) {
            return Ok(Vec::new(self.alloc));
        }
        let missing = without_member(self.alloc, post.sender, t.missing.as_slice())?;
        let pass = t.pass;
        if !missing.is_empty() {
            return self.wait_on(post, rows, place, missing);
        }
        match pass {
            Pass::Copies => self.turn(post, rows, place),
            Pass::Entries => self.answer(post, rows, place),
        }
    }

    /// Rows come to their traverse. A refusal changes nothing, and want of memory neither.
    #[tactic(auto, unfolding(ct_traverse_parts::specs::Walk::gave_at))]
    fn gave(&mut self, post: &Post, rows: &[Row]) -> Result<Vec<TLine>, TFault>
        ensures { Walks (λ lines. lines.items) result (gave_at post.now rows.now (place_from 0 post.now.traverse self.old.running) self.old) self.old self.new }
    {
        let Some(place) = place_of(self.running.as_slice(), post.traverse) else {
            return Ok(Vec::new(self.alloc));
        };
        self.gave_to(post, rows, place)
    }

    /// A message comes to who takes it. A refusal changes nothing, and want of memory neither.
    #[tactic(auto, using(crate::proofs::Walking::taken_up), unfolding(ct_traverse_parts::specs::Walk::given))]
    fn give(&mut self, world: &World, post: &Post) -> Result<Vec<TLine>, TFault>
        requires { is_taken post.now post.now.rows world.now self.old ≡ true }
        ensures { Walks (λ lines. lines.items) result (given post.now post.now.rows world.now self.old) self.old self.new }
    {
        match &post.rows {
            None => self.reply(world, post),
            Some(rows) => self.gave(post, rows.as_slice()),
        }
    }
    /// A copy of the message of this number, where it was sent.
    fn message(&self, number: u64) -> Result<Option<Post>, NoMemory>
        ensures { IfOk result (λ copy. copy ≡ numbered number self.now.posts) }
    {
        match self.posts.post(number) {
            Some(post) => Ok(Some(post.copy()?)),
            None => Ok(None),
        }
    }

    /// Does the message of this number wait?
    fn is_waiting(&self, number: u64) -> bool
        ensures { result ≡ is_waiting (numbered number self.now.posts) }
    {
        self.posts.is_waiting(number)
    }

    /// The message of this number, which waits, has this fate. It takes no memory.
    fn end(&mut self, number: u64, fate: Fate)
        requires waiting { is_waiting (numbered number self.old.posts) ≡ true }
        requires ended { waits fate ≡ false }
        ensures { (p : post.Post) → numbered number self.old.posts ≡ Some p → self.new ≡ with_fate number p fate self.old }
    {
        self.posts.end(number, fate);
    }

    /// A message that waits, and that nobody takes, is dropped. Without memory nothing changes.
    fn lose_it(&mut self, number: u64) -> Result<Vec<TLine>, NoMemory>
        requires { is_waiting (numbered number self.old.posts) ≡ true }
        ensures lines { IfOk result (λ lines. lines.items ≡ line.TLost number ∷ []) }
        ensures ok { (p : post.Post) → numbered number self.old.posts ≡ Some p → OnOk result (self.new ≡ with_fate number p fates.Dropped self.old) }
        ensures err { OnErr result (self.new ≡ self.old) }
    {
        let lines = one(self.alloc, TLine::TLost(number))?;
        self.end(number, Fate::Dropped);
        Ok(lines)
    }

    /// A message that waits comes, and is dropped where nobody takes it. The time grows with the rows that it has, or that the
    /// member answers with. A refusal changes nothing, and want of memory neither.
    #[tactic(auto, using(crate::proofs::Carrying::not_carried, crate::proofs::Carrying::carried_none, crate::proofs::Carrying::carried_away))]
    pub fn carry(&mut self, world: &World, number: u64) -> Result<Vec<TLine>, TFault>
        ensures { Walks (λ lines. lines.items) result (carried number world.now self.old) self.old self.new }
    {
        if !self.is_waiting(number) {
            return Err(TFault::NoSuchMessage(number));
        }
        let Some(post) = self.message(number)? else {
            return Err(TFault::NoSuchMessage(number));
        };
        if !self.is_taken(world, &post) {
            return Ok(self.lose_it(number)?);
        }
        match self.give(world, &post) {
            Ok(lines) => {
                self.end(number, Fate::Delivered);
                Ok(lines)
            },
            Err(fault) => Err(fault),
        }
    }

    /// A message that was delivered comes again, and stays delivered where nobody takes it. A refusal changes nothing, and want
    /// of memory neither.
    #[tactic(auto, using(crate::proofs::Carrying::not_repeated, crate::proofs::Carrying::repeated_none, crate::proofs::Carrying::repeated_away, crate::proofs::Carrying::repeated_on))]
    pub fn again(&mut self, world: &World, number: u64) -> Result<Vec<TLine>, TFault>
        ensures { Walks (λ lines. lines.items) result (repeated number world.now self.old) self.old self.new }
    {
        if !self.posts.is_delivered(number) {
            return Err(TFault::NoSuchMessage(number));
        }
        let Some(post) = self.message(number)? else {
            return Err(TFault::NoSuchMessage(number));
        };
        if !self.is_taken(world, &post) {
            return Ok(one(self.alloc, TLine::TLost(number))?);
        }
        self.give(world, &post)
    }
}
