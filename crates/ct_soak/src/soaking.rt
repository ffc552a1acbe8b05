//! The steps of a soak, one after the other, and what is counted of them.
ghost use Rattle.std.specs.Prelude.{◌≡◌, ◌≤◌, ◌<◌, ◌+◌, ◌^◌, true, IfOk, OnOk};
ghost use Rattle.ct_call.specs.Shown.{rules_of};
ghost use Rattle.ct_rules_cluster.specs.Faults.{is_allowed};
ghost use Rattle.ct_rules_cluster.specs.Steps.{applied};
ghost use Rattle.ct_lines.specs.Spelled as spelled;
ghost use Rattle.ct_soak.specs.Counts.{IsCounted, calls_after, is_taken, last_sent, last_ticket, sent_by, ticket_by};
ghost use Rattle.ct_soak.specs.Soaking.{Soaked, commanded, counts_text, first, line_took, settled, soak_config, soak_text, took, word_took};

use crate::soak::soak_line;
use ct_call::table::CallTable;
use ct_lines::line::{Command, ScenarioLine};
use ct_named::named::{World, command_step, named_step, number_in_step};
use ct_rules_cluster::step::{Line, Step, StepFault};
use ct_script::generated::generated_config;
use ct_text::words::{push, push_number};
use ct_values::config::Config;
use ct_values::memory::NoMemory;
use rand_core::utils::NextWord;
use rand_pcg::Lcg64Xsh32;
use std::alloc::Global;
use std::marker::Model;

/// A cluster, how many steps were skipped in it, and the numbers of what was sent, called and given in it.
#[derive(Drop)]
pub struct Soaking {
    world: World,
    skipped: u64,
    sent: u64,
    calls: u64,
    ticket: u64,
}

impl Model for Soaking {
    ghost use Rattle.ct_soak.specs.Counts as counts;
    ghost use Rattle.ct_soak.specs.Soaking as soaking;

    ghost Value = { soaking.Soaked };

    ghost view = { λ s. record { cluster = s.world.cluster; skipped = s.skipped } };

    ghost invariant = { λ s. counts.IsCounted s.world s.sent s.calls s.ticket };
}

/// Four nodes, and a database of each kind.
fn soak_config(alloc: Global) -> Result<Config, NoMemory>
    ensures { IfOk result (λ c. c ≡ soak_config) }
{
    generated_config(alloc, 4)
}

fn sent_by(before: u64, line: &Line) -> u64
    ensures { result ≡ sent_by before line.now }
{
    match line {
        Line::Sent { number, .. } => *number,
        _ => before,
    }
}

fn ticket_by(before: u64, line: &Line) -> u64
    ensures { result ≡ ticket_by before line.now }
{
    match line {
        Line::Ticket { ticket, .. } => *ticket,
        _ => before,
    }
}

/// The number of the last message that lines tell of, or the one before them.
fn last_sent(before: u64, lines: &[Line]) -> u64
    ensures { result ≡ last_sent before lines.now }
{
    let mut last = before;
    for line in lines {
        last = sent_by(last, line);
    }
    last
}

/// The last ticket that lines tell of, or the one before them.
fn last_ticket(before: u64, lines: &[Line]) -> u64
    ensures { result ≡ last_ticket before lines.now }
{
    let mut last = before;
    for line in lines {
        last = ticket_by(last, line);
    }
    last
}

/// How many client calls there are after a step that was taken.
fn calls_after(before: u64, step: &Step) -> u64
    requires { before + 1 < 2 ^ 64 }
    ensures { result ≡ calls_after before step.now }
{
    match step {
        Step::Client { .. } => before + 1,
        _ => before,
    }
}

impl Soaking {
    /// Before the first step.
    #[tactic(auto, using(crate::proofs::Making::is_config, crate::proofs::Making::opening_counted))]
    fn new(alloc: Global) -> Result<Soaking, NoMemory>
        ensures { IfOk result (λ s. s ≡ first) }
    {
        let config = soak_config(alloc)?;
        Ok(Soaking {
            world: World::new(alloc, &config)?,
            skipped: 0,
            sent: 0,
            calls: 0,
            ticket: 1,
        })
    }

    /// Takes a step, or skips it where it is refused. Was it taken?
    #[tactic(auto, using(crate::proofs::Counting::kept, crate::proofs::Counting::few_calls))]
    fn take(&mut self, table: &CallTable, step: &Step) -> Result<bool, NoMemory>
        requires allowed { is_allowed step.now ≡ true }
        requires room { self.old.skipped + 1 < 2 ^ 64 }
        ensures taken { IfOk result (λ b. b ≡ is_taken (applied soak_config (rules_of table.now) self.old.cluster step.now)) }
        ensures took { OnOk result (self.new ≡ took (rules_of table.now) self.old step.now) }
        ensures kept { IfOk result (λ b. b ≡ true → self.new.skipped ≡ self.old.skipped) }
        ensures room { OnOk result (self.new.skipped ≤ self.old.skipped + 1) }
    {
        match self.world.apply(table, step) {
            Ok(lines) => {
                self.sent = last_sent(self.sent, lines.as_slice());
                self.ticket = last_ticket(self.ticket, lines.as_slice());
                self.calls = calls_after(self.calls, step);
                Ok(true)
            }
            Err(StepFault::NoMemory) => Err(NoMemory),
            Err(_) => {
                self.skipped += 1;
                Ok(false)
            }
        }
    }

    /// So many deliveries of the least message that waits, fewer where none waits or one is refused.
    #[tactic(auto, using(ct_named::proofs::Allowed::deliver_allowed, crate::proofs::Settling::settles_on, crate::proofs::Settling::settles_out, crate::proofs::Settling::settles_none))]
    fn settle(&mut self, table: &CallTable, count: u32) -> Result<(), NoMemory>
        requires room { self.old.skipped + 1 < 2 ^ 64 }
        ensures took { OnOk result (self.new ≡ settled (rules_of table.now) count self.old) }
        ensures room { OnOk result (self.new.skipped ≤ self.old.skipped + 1) }
    {
        for i in 0..count {
            let Some(number) = self.world.next_waiting() else {
                return Ok(());
            };
            if !self.take(table, &Step::Deliver(number))? {
                return Ok(());
            }
        }
        Ok(())
    }

    /// A command that is a step; any other does nothing.
    #[tactic(auto, using(ct_named::proofs::Allowed::command_allowed))]
    fn command(
        &mut self,
        alloc: Global,
        table: &CallTable,
        node: u32,
        command: &Command,
    ) -> Result<(), NoMemory>
        requires range { spelled.IsCommand command.now }
        requires room { self.old.skipped + 1 < 2 ^ 64 }
        ensures took { OnOk result (self.new ≡ commanded (rules_of table.now) self.old node command.now) }
        ensures room { OnOk result (self.new.skipped ≤ self.old.skipped + 1) }
    {
        match command {
            Command::Shows(_) => Ok(()),
            Command::Steps(command) => {
                let step = command_step(alloc, &self.world, node, command)?;
                self.take(table, &step)?;
                Ok(())
            }
            Command::CatDb(_) => Ok(()),
        }
    }

    /// What a line does.
    #[tactic(auto, using(ct_named::proofs::Allowed::change_allowed, ct_named::proofs::Allowed::named_allowed))]
    fn line(&mut self, alloc: Global, table: &CallTable, line: ScenarioLine) -> Result<(), NoMemory>
        requires range { spelled.IsInRange line }
        requires room { self.old.skipped + 1 < 2 ^ 64 }
        ensures took { OnOk result (self.new ≡ line_took (rules_of table.now) self.old line) }
        ensures room { OnOk result (self.new.skipped ≤ self.old.skipped + 1) }
    {
        match line {
            ScenarioLine::Config(_) => Ok(()),
            ScenarioLine::Change(step) => {
                self.take(table, &step)?;
                Ok(())
            }
            ScenarioLine::ByName { node, db, op } => {
                let number = number_in_step(self.world.config(), &db);
                let step = named_step(node, number, op);
                self.take(table, &step)?;
                Ok(())
            }
            ScenarioLine::Settle(count) => self.settle(table, count),
            ScenarioLine::Traverse(_) => Ok(()),
            ScenarioLine::Ctdb { node, command } => self.command(alloc, table, node, &command),
        }
    }

    /// What a word of the generator does.
    #[tactic(auto, using(crate::proofs::Counting::few_sent))]
    fn word(&mut self, alloc: Global, table: &CallTable, word: u32) -> Result<(), NoMemory>
        requires room { self.old.skipped + 1 < 2 ^ 64 }
        ensures took { OnOk result (self.new ≡ word_took (rules_of table.now) word self.old) }
        ensures room { OnOk result (self.new.skipped ≤ self.old.skipped + 1) }
    {
        let line = soak_line(alloc, word, self.sent, self.world.running())?;
        self.line(alloc, table, line)
    }

    /// What is counted after so many steps, as a line.
    fn text(&self, alloc: Global, steps: u32) -> Result<Vec<u8>, NoMemory>
        ensures { IfOk result (λ text. text.items ≡ counts_text steps self.now) }
    {
        let pending = self.world.pending()?.len() as u64;
        let mut text = Vec::new(alloc);
        push_number(&mut text, b"soak ", u64::from(steps))?;
        push_number(&mut text, b" skipped ", self.skipped)?;
        push_number(&mut text, b" frames ", self.sent)?;
        push_number(&mut text, b" calls ", self.calls)?;
        push_number(&mut text, b" pending ", pending)?;
        push_number(&mut text, b" ticket ", self.ticket)?;
        push(&mut text, b"\n")?;
        Ok(text)
    }
}

/// Takes so many steps that the seed's words make, and answers the line that counts them.
pub fn soak(alloc: Global, table: &CallTable, seed: u64, steps: u32) -> Result<Vec<u8>, NoMemory>
    ensures { IfOk result (λ text. text.items ≡ soak_text (rules_of table.now) seed steps) }
{
    let mut soaking = Soaking::new(alloc)?;
    let mut words = Lcg64Xsh32::new(seed, 1);
    for i in 0..steps {
        soaking.word(alloc, table, words.next_word())?;
    }
    soaking.text(alloc, steps)
}
