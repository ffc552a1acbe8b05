//! A scenario as it is played line by line.
ghost use Rattle.std.specs.Prelude.{◌≡◌, ◌++◌, IfOk, IsSome, None, OnOk, map};
ghost use Rattle.ct_call.specs.Shown.{rules_of};
ghost use Rattle.ct_lines.specs.Places.{refusal};
ghost use Rattle.ct_lines.specs.Spelled.{IsInRange};
ghost use Rattle.ct_text.specs.Line.{pending_text};
ghost use Rattle.ct_traverse_parts.specs.Text.{pending_traverse_text};
ghost use Rattle.ct_play.specs.Effect.{line_effect};
ghost use Rattle.ct_play.specs.Opening.{world_at};
ghost use Rattle.ct_play.specs.Session as session;

use crate::effect::line_effect;
use ct_call::table::CallTable;
use ct_lines::line::{LineKindFault, ScenarioLine};
use ct_lines::parse::parse_line;
use ct_lines::places::Places;
use ct_named::named::World;
use ct_play_text::what::{PlayFault, What};
use ct_rules_cluster::step::PendingCall;
use ct_text::line::pending_text;
use ct_traverse::walker::Walker;
use ct_traverse_parts::line::TPending;
use ct_traverse_parts::text::pending_traverse_text;
use ct_values::config::Config;
use ct_values::items::Items;
use ct_values::memory::NoMemory;
use std::alloc::Global;

/// What the lines so far said, the cluster, once a line opened it, and its traverses.
pub struct Session {
    pub places: Places,
    pub world: Option<World>,
    pub walker: Walker,
}

impl Drop for Session {
    /// All that it holds is let go.
    fn drop(self) {
        let Session {
            places: _,
            world: _,
            walker: _,
        } = self;
    }
}

/// Does the line say what the cluster is?
fn is_config_line(line: &ScenarioLine) -> bool
    ensures { result ≡ session.is_config_line line.now }
{
    match line {
        ScenarioLine::Config(_) => true,
        ScenarioLine::Change(_)
        | ScenarioLine::ByName { .. }
        | ScenarioLine::Settle(_)
        | ScenarioLine::Traverse(_)
        | ScenarioLine::Ctdb { .. } => false,
    }
}

/// The cluster that the first line opens that is no configuration line.
fn opened(alloc: Global, places: &Places) -> Result<World, NoMemory>
    requires { IsSome places.now.nodes }
    ensures { IfOk result (λ w. w ≡ world_at places.now None) }
{
    let config = places.config(alloc)?;
    World::new(alloc, &config)
}

/// The text of each of these calls.
fn texts(alloc: Global, calls: &[PendingCall], config: &Config) -> Result<Vec<Items<u8>>, NoMemory>
    ensures { IfOk result (λ v. v.items ≡ map (pending_text config.now) calls.now) }
{
    let mut texts = Vec::with_capacity(alloc, calls.len())?;
    for call in calls {
        texts.push(Items::new(pending_text(alloc, call, config)?))?;
    }
    Ok(texts)
}

/// The text of each of these traverses, after these texts.
fn add_texts(
    alloc: Global,
    traverses: &[TPending],
    config: &Config,
    texts: &mut Vec<Items<u8>>,
) -> Result<(), NoMemory>
    ensures { OnOk result (texts.new.items ≡ texts.old.items ++ map (pending_traverse_text config.now) traverses.now) }
{
    for traverse in traverses {
        texts.push(Items::new(pending_traverse_text(alloc, traverse, config)?))?;
    }
    Ok(())
}

/// The text of each client call that waits, and then of each traverse.
fn waiting(alloc: Global, world: &World, walker: &Walker) -> Result<Vec<Items<u8>>, NoMemory>
    ensures { IfOk result (λ v. v.items ≡ session.waiting_texts world.now walker.now) }
{
    let calls = world.pending()?;
    let mut texts = texts(alloc, calls.as_slice(), world.config())?;
    let traverses = walker.pending()?;
    add_texts(alloc, traverses.as_slice(), world.config(), &mut texts)?;
    Ok(texts)
}

impl Session {
    /// Before the first line. It takes no memory.
    pub fn new(alloc: Global) -> Session
        ensures { result ≡ session.start }
    {
        Session {
            places: Places::new(alloc),
            world: None,
            walker: Walker::new(alloc),
        }
    }

    /// What a line does to the cluster, which it may open.
    fn work(
        &mut self,
        alloc: Global,
        table: &CallTable,
        line: ScenarioLine,
    ) -> Result<Vec<Items<u8>>, PlayFault>
        requires range { IsInRange line }
        requires nodes { IsSome self.old.places.nodes }
        ensures { session.Plays result (session.put self.old.places (line_effect (rules_of table.now) (world_at self.old.places self.old.world) self.old.walker line)) self.new }
    {
        if let Some(world) = &mut self.world {
            return line_effect(alloc, world, &mut self.walker, table, line);
        }
        let mut world = match opened(alloc, &self.places) {
            Ok(world) => world,
            Err(NoMemory) => return Err(PlayFault::NoMemory),
        };
        match line_effect(alloc, &mut world, &mut self.walker, table, line) {
            Ok(texts) => {
                self.world = Some(world);
                Ok(texts)
            }
            Err(fault) => Err(fault),
        }
    }

    /// A line in its place.
    fn in_its_place(
        &mut self,
        alloc: Global,
        table: &CallTable,
        line: ScenarioLine,
    ) -> Result<Vec<Items<u8>>, PlayFault>
        requires range { IsInRange line }
        requires nodes { IsSome self.old.places.nodes }
        ensures { session.Plays result (session.in_its_place (rules_of table.now) line self.old.world self.old.walker self.old.places) self.new }
    {
        if is_config_line(&line) {
            return Ok(Vec::new(alloc));
        }
        self.work(alloc, table, line)
    }

    /// A line of the grammar.
    fn placed(
        &mut self,
        alloc: Global,
        table: &CallTable,
        line: ScenarioLine,
    ) -> Result<Vec<Items<u8>>, PlayFault>
        requires { IsInRange line }
        ensures { session.Plays result (session.placed (rules_of table.now) line self.old (refusal line self.old.places)) self.new }
    {
        match self.places.check(&line) {
            Ok(()) => self.in_its_place(alloc, table, line),
            Err(LineKindFault::Kind(kind)) => Err(PlayFault::Refused(What::Line(kind))),
            Err(LineKindFault::NoMemory) => Err(PlayFault::NoMemory),
        }
    }

    /// Plays one line, without its line feed, and answers the lines of text that it prints. After a refusal, and after want
    /// of memory, the session plays no more.
    #[tactic(auto, using(crate::proofs::Reading::line_read, crate::proofs::Reading::line_unread))]
    pub fn play(
        &mut self,
        alloc: Global,
        table: &CallTable,
        line: &[u8],
    ) -> Result<Vec<Items<u8>>, PlayFault>
        ensures { session.Plays result (session.line_played (rules_of table.now) line.now self.old) self.new }
    {
        match parse_line(alloc, line) {
            Ok(item) => self.placed(alloc, table, item),
            Err(LineKindFault::Kind(kind)) => Err(PlayFault::Refused(What::Line(kind))),
            Err(LineKindFault::NoMemory) => Err(PlayFault::NoMemory),
        }
    }

    /// The text of each client call that waits, and then of each traverse.
    pub fn pending(&self, alloc: Global) -> Result<Vec<Items<u8>>, NoMemory>
        ensures { IfOk result (λ v. v.items ≡ session.pending_texts self.now) }
    {
        match &self.world {
            Some(world) => waiting(alloc, world, &self.walker),
            None => Ok(Vec::new(alloc)),
        }
    }
}
