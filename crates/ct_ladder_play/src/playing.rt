//! A scenario, played into a ladder.
ghost use Rattle.std.specs.Prelude.{◌≡◌, ◌≤◌, ◌<◌, ◌++◌, ◌∷◌, [], length, map, IfOk, OnOk};
ghost use Rattle.ct_call.specs.Shown.{rules_of};
ghost use Rattle.ct_ladder.specs.declared.rung.Fate.TheVariants as fate;
ghost use Rattle.ct_play.specs.Session.{pending_texts};
ghost use Rattle.ct_ladder_play.specs.Playing as playing;

use ct_call::table::CallTable;
use ct_ladder::rung::{Fate, Rung, Shown};
use ct_lines::line::{LineKindFault, ScenarioLine};
use ct_lines::parse::parse_line;
use ct_lines::words::{cut, is_word};
use ct_picture::reading::RunFault;
use ct_picture::row::{Row, RowKind, copy_of, row_of, word_at};
use ct_play::session::Session;
use ct_play_text::what::PlayFault;
use ct_rules_cluster::step::Step;
use ct_values::items::Items;
use ct_values::memory::NoMemory;
use std::alloc::Global;

/// What a line of a scenario is to a ladder.
#[derive(Clone, Copy)]
pub enum Matter {
    /// Up to so many messages come, one after the other.
    Settles { count: u32 },
    /// This becomes of a message.
    Acts { fate: Fate },
}

/// A ladder of so many nodes at least.
#[derive(Drop)]
pub struct Ladder {
    pub nodes: u32,
    pub rungs: Items<Rung>,
}

fn step_fate(step: &Step) -> Fate
    ensures { result ≡ playing.step_fate step.now }
{
    match step {
        Step::Deliver(number) => Fate::Came { number: *number },
        Step::Repeat(number) => Fate::CameAgain { number: *number },
        Step::Drop(number) => Fate::Lost { number: *number },
        _ => Fate::Still,
    }
}

fn matter_of(line: &ScenarioLine) -> Matter
    ensures { result ≡ playing.matter_of line.now }
{
    match line {
        ScenarioLine::Config(_) => Matter::Acts { fate: Fate::Still },
        ScenarioLine::Change(step) => Matter::Acts {
            fate: step_fate(step),
        },
        ScenarioLine::ByName { .. } => Matter::Acts { fate: Fate::Still },
        ScenarioLine::Settle(count) => Matter::Settles { count: *count },
        ScenarioLine::Traverse(_) => Matter::Acts { fate: Fate::Still },
        ScenarioLine::Ctdb { .. } => Matter::Acts { fate: Fate::Still },
    }
}

fn matter_at(alloc: Global, line: &[u8]) -> Result<Matter, NoMemory>
    ensures { IfOk result (λ m. m ≡ playing.matter_at line.now) }
{
    match parse_line(alloc, line) {
        Ok(item) => {
            let matter = matter_of(&item);
            drop(item);
            Ok(matter)
        }
        Err(LineKindFault::Kind(_)) => Ok(Matter::Acts { fate: Fate::Still }),
        Err(LineKindFault::NoMemory) => Err(NoMemory),
    }
}

/// A text without its line feed.
fn without_feed(text: &[u8]) -> &[u8]
    ensures { result.now ≡ playing.without_feed text.now }
{
    let n = text.len().saturating_sub(1);
    &text[..n]
}

/// The row of a line of the run. What has no reading stands beside.
fn line_row(alloc: Global, line: &[u8]) -> Result<Row, NoMemory>
    ensures { IfOk result (λ r. r ≡ playing.line_row line.now) }
{
    if let Some(row) = row_of(alloc, line)? {
        return Ok(row);
    }
    let label = copy_of(alloc, line)?;
    let line = copy_of(alloc, line)?;
    Ok(Row {
        line,
        label,
        kind: RowKind::Beside,
    })
}

fn is_still(fate: Fate) -> bool
    ensures { result ≡ playing.is_still fate }
{
    match fate {
        Fate::Still => true,
        Fate::Came { .. } => false,
        Fate::CameAgain { .. } => false,
        Fate::Lost { .. } => false,
    }
}

fn begins_lost(text: &[u8]) -> bool
    ensures { result ≡ playing.begins_lost text.now }
{
    let n = text.len().min(5);
    is_word(&text[..n], b"lost ")
}

/// What became of a message, where this was printed: it is lost where that is said first.
fn fate_told(fate: Fate, texts: &[Items<u8>]) -> Fate
    ensures { result ≡ playing.fate_told fate texts.now }
{
    let Some(text) = texts.first() else {
        return fate;
    };
    if !begins_lost(text.as_slice()) {
        return fate;
    }
    match fate {
        Fate::Still => Fate::Still,
        Fate::Came { number } => Fate::Lost { number },
        Fate::CameAgain { number } => Fate::Lost { number },
        Fate::Lost { number } => Fate::Lost { number },
    }
}

fn add(rungs: &mut Vec<Rung>, rung: Rung) -> Result<(), NoMemory>
    ensures { OnOk result (rungs.new.items ≡ rungs.old.items ++ rung ∷ []) }
{
    rungs.push(rung)?;
    Ok(())
}

/// A row for each text that was printed.
fn add_told(
    alloc: Global,
    rungs: &mut Vec<Rung>,
    first: Fate,
    texts: &[Items<u8>],
) -> Result<(), NoMemory>
    ensures { OnOk result (rungs.new.items ≡ rungs.old.items ++ playing.told_rungs first texts.now) }
{
    let mut fate = first;
    for text in texts {
        let row = line_row(alloc, without_feed(text.as_slice()))?;
        add(
            rungs,
            Rung {
                fate,
                shown: Shown::Told(row),
            },
        )?;
        fate = Fate::Still;
    }
    Ok(())
}

/// The rows of one step, one at least where it is told what became of a message.
fn add_step(
    alloc: Global,
    rungs: &mut Vec<Rung>,
    fate: Fate,
    texts: &[Items<u8>],
) -> Result<(), NoMemory>
    ensures { OnOk result (rungs.new.items ≡ rungs.old.items ++ playing.rungs_of fate texts.now) }
{
    let fate = fate_told(fate, texts);
    if texts.is_empty() && !is_still(fate) {
        return add(
            rungs,
            Rung {
                fate,
                shown: Shown::Nothing,
            },
        );
    }
    add_told(alloc, rungs, fate, texts)
}

/// A line is played, by which this becomes of a message.
#[tactic(auto, using(crate::proofs::Climbing::step_refused))]
fn step(
    alloc: Global,
    table: &CallTable,
    session: &mut Session,
    line: &[u8],
    fate: Fate,
    rungs: &mut Vec<Rung>,
) -> Result<(), PlayFault>
    ensures { playing.Climbs result (playing.step_climbed (rules_of table.now) fate line.now session.old) session.new rungs.old.items rungs.new.items }
{
    let texts = match session.play(alloc, table, line) {
        Ok(texts) => texts,
        Err(fault) => return Err(fault),
    };
    match add_step(alloc, rungs, fate, &texts) {
        Ok(()) => Ok(()),
        Err(NoMemory) => Err(PlayFault::NoMemory),
    }
}

/// The message that waits and has the least number.
fn least_waiting(session: &Session) -> Option<u64>
    ensures { result ≡ playing.least_waiting session.now }
{
    match &session.world {
        Some(world) => world.next_waiting(),
        None => None,
    }
}

/// Up to so many messages come, the least first.
#[tactic(auto, using(crate::proofs::Climbing::begins, crate::proofs::Climbing::came_next))]
fn settle(
    alloc: Global,
    table: &CallTable,
    session: &mut Session,
    count: u32,
    rungs: &mut Vec<Rung>,
) -> Result<(), PlayFault>
    ensures { playing.Climbs result (playing.settle_climbed (rules_of table.now) count session.old) session.new rungs.old.items rungs.new.items }
{
    for _i in 0..count {
        match least_waiting(session) {
            Some(number) => {
                let fate = Fate::Came { number };
                match step(alloc, table, session, b"settle 1", fate, rungs) {
                    Ok(()) => {}
                    Err(fault) => return Err(fault),
                }
            }
            None => return step(alloc, table, session, b"settle 1", Fate::Still, rungs),
        }
    }
    Ok(())
}

/// A line of the scenario.
fn climb(
    alloc: Global,
    table: &CallTable,
    session: &mut Session,
    line: &[u8],
    rungs: &mut Vec<Rung>,
) -> Result<(), PlayFault>
    ensures { playing.Climbs result (playing.line_climbed (rules_of table.now) line.now session.old) session.new rungs.old.items rungs.new.items }
{
    match matter_at(alloc, line) {
        Ok(Matter::Settles { count }) => settle(alloc, table, session, count, rungs),
        Ok(Matter::Acts { fate }) => step(alloc, table, session, line, fate, rungs),
        Err(NoMemory) => Err(PlayFault::NoMemory),
    }
}

/// The line itself stands above its rows, where it is shown.
fn add_said(alloc: Global, rungs: &mut Vec<Rung>, shown: bool, line: &[u8]) -> Result<(), NoMemory>
    ensures { OnOk result (rungs.new.items ≡ rungs.old.items ++ playing.said_rungs shown line.now) }
{
    if !shown {
        return Ok(());
    }
    let said = copy_of(alloc, line)?;
    add(
        rungs,
        Rung {
            fate: Fate::Still,
            shown: Shown::Said(said),
        },
    )
}

/// All lines, one after the other, and nothing behind them.
#[tactic(auto, using(crate::proofs::Climbing::climb_begins, crate::proofs::Climbing::climb_next, crate::proofs::Climbing::climb_refused))]
fn climb_all(
    alloc: Global,
    table: &CallTable,
    session: &mut Session,
    shown: bool,
    lines: &[&[u8]],
    rungs: &mut Vec<Rung>,
) -> Result<(), RunFault>
    requires { length lines.now ≤ 1099511627776 }
    ensures { playing.ClimbsAll result (playing.lines_climbed (rules_of table.now) shown 1 session.old (map (λ l. l.now) lines.now)) session.new rungs.old.items rungs.new.items }
{
    let mut number = 1u64;
    for line in lines {
        if let Err(fault) = add_said(alloc, rungs, shown, line) {
            return Err(RunFault::from(fault));
        }
        match climb(alloc, table, session, line, rungs) {
            Ok(()) => {}
            Err(PlayFault::Refused(_)) => return Err(RunFault::Line(number)),
            Err(PlayFault::NoMemory) => return Err(RunFault::NoMemory),
        }
        number += 1;
    }
    Ok(())
}

/// The calls that wait at the end.
fn add_pending(alloc: Global, session: &Session, rungs: &mut Vec<Rung>) -> Result<(), NoMemory>
    ensures { OnOk result (rungs.new.items ≡ rungs.old.items ++ playing.told_rungs fate.Still (pending_texts session.now)) }
{
    let texts = session.pending(alloc)?;
    add_told(alloc, rungs, Fate::Still, &texts)
}

fn nodes_of(session: &Session) -> u32
    ensures nodes { result ≡ playing.nodes_of session.now }
    ensures few { result ≤ 16 }
{
    match session.places.nodes() {
        Some(nodes) => nodes.min(16),
        None => 0,
    }
}

/// The ladder of parts, all of which but the last are lines.
#[tactic(auto, using(ct_picture::proofs::Runs::fewer_lines, crate::proofs::Climbing::ladder_refused))]
fn ladder_in(
    alloc: Global,
    table: &CallTable,
    shown: bool,
    parts: &[&[u8]],
) -> Result<Ladder, RunFault>
    requires { length parts.now ≤ 1099511627776 }
    ensures ladder { playing.Ladders result (playing.ladder_in (rules_of table.now) shown (map (λ l. l.now) parts.now)) }
    ensures few { IfOk result (λ l. l.nodes ≤ 16) }
{
    let mut session = Session::new(alloc);
    let mut rungs = Vec::new(alloc);
    let n = parts.len().saturating_sub(1);
    match climb_all(alloc, table, &mut session, shown, &parts[..n], &mut rungs) {
        Ok(()) => {}
        Err(fault) => return Err(fault),
    }
    if !word_at(parts, n).is_empty() {
        return Err(RunFault::Line(n as u64 + 1));
    }
    match add_pending(alloc, &session, &mut rungs) {
        Ok(()) => {}
        Err(NoMemory) => return Err(RunFault::NoMemory),
    }
    Ok(Ladder {
        nodes: nodes_of(&session),
        rungs: Items::new(rungs),
    })
}

/// The ladder of the scenario that the bytes are. Where `shown` is true its lines stand in it.
#[tactic(auto, using(ct_picture::proofs::Runs::few_parts))]
pub fn ladder_from(
    alloc: Global,
    table: &CallTable,
    shown: bool,
    bytes: &[u8],
) -> Result<Ladder, RunFault>
    requires { length bytes.now < 1099511627776 }
    ensures ladder { playing.Ladders result (playing.ladder_from (rules_of table.now) shown bytes.now) }
    ensures few { IfOk result (λ l. l.nodes ≤ 16) }
{
    let parts = cut(alloc, bytes, b'\n')?;
    ladder_in(alloc, table, shown, &parts)
}
