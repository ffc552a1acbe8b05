//! Reading a whole scenario.
ghost use Rattle.std.specs.Prelude.{◌≡◌, ◌∷◌, ◌++◌, [], IfOk, OnOk, map};
ghost use Rattle.ct_lines.specs.Places.{nothing_accepted};
ghost use Rattle.ct_scenario.specs.Scenarios.{AddsLine, AddsLines, EndsLines, IsScenario, ReadsLines, ReadsScenario, fault_at, lines_read, so_far, text_of};

use crate::scenario::{LineFault, Scenario};
use ct_lines::line::{LineKind, LineKindFault, ScenarioLine};
use ct_lines::parse::parse_line;
use ct_lines::places::Places;
use ct_lines::words::cut;
use ct_values::items::Items;
use ct_values::memory::NoMemory;
use std::alloc::Global;

/// The fault of the line of this number.
fn fault_at(line: u64, fault: LineKindFault) -> LineFault
    ensures { result ≡ fault_at line fault }
{
    match fault {
        LineKindFault::Kind(kind) => LineFault::At { line, kind },
        LineKindFault::NoMemory => LineFault::NoMemory,
    }
}

/// Puts the line behind these.
fn put_line(lines: &mut Vec<ScenarioLine>, line: ScenarioLine) -> Result<(), NoMemory>
    ensures { OnOk result (lines.new.items ≡ lines.old.items ++ line ∷ []) }
{
    match lines.push(line) {
        Ok(()) => Ok(()),
        Err(refused) => {
            drop(refused);
            Err(NoMemory)
        }
    }
}

/// Adds the line that these bytes are, in its place, or says why not.
#[tactic(auto, using(crate::proofs::Adding::unread, crate::proofs::Adding::refused, crate::proofs::Adding::added))]
fn add_line(
    alloc: Global,
    places: &mut Places,
    lines: &mut Vec<ScenarioLine>,
    number: u64,
    bytes: &[u8],
) -> Result<(), LineFault>
    ensures { AddsLine result number bytes.now places.old places.new lines.old.items lines.new.items }
{
    match parse_line(alloc, bytes) {
        Ok(line) => match places.check(&line) {
            Ok(()) => match put_line(lines, line) {
                Ok(()) => Ok(()),
                Err(NoMemory) => Err(LineFault::NoMemory),
            },
            Err(fault) => {
                drop(line);
                Err(fault_at(number, fault))
            }
        },
        Err(fault) => Err(fault_at(number, fault)),
    }
}

/// What follows the last line feed is to be nothing.
#[tactic(auto, unfolding(crate::specs::Scenarios::rest_read))]
fn end_lines(number: u64, rest: &[u8]) -> Result<(), LineFault>
    ensures { EndsLines result number rest.now }
{
    if rest.is_empty() {
        Ok(())
    } else if rest.len() > 65535 {
        Err(LineFault::At {
            line: number,
            kind: LineKind::Long,
        })
    } else {
        Err(LineFault::At {
            line: number,
            kind: LineKind::Unended,
        })
    }
}

/// Adds the lines that these pieces are, one after the other.
fn add_lines(
    alloc: Global,
    places: &mut Places,
    lines: &mut Vec<ScenarioLine>,
    pieces: &[&[u8]],
    rest: &[u8],
) -> Result<(), LineFault>
    ensures { AddsLines result (so_far lines.old.items places.old (map (λ p. p.now) pieces.now ++ rest.now ∷ [])) places.new lines.new.items rest.now }
{
    for piece in pieces {
        let number = lines.len() as u64 + 1;
        match add_line(alloc, places, lines, number, piece) {
            Ok(()) => {}
            Err(fault) => return Err(fault),
        }
    }
    Ok(())
}

/// The lines that these pieces are, which were cut at each line feed.
fn read_lines(alloc: Global, pieces: &[&[u8]]) -> Result<Vec<ScenarioLine>, LineFault>
    ensures { ReadsLines result (lines_read 1 nothing_accepted (map (λ p. p.now) pieces.now)) }
{
    let mut places = Places::new(alloc);
    let mut lines = Vec::new(alloc);
    let Some((rest, whole)) = pieces.split_last() else {
        return Ok(lines);
    };
    match add_lines(alloc, &mut places, &mut lines, whole, rest) {
        Ok(()) => {}
        Err(fault) => return Err(fault),
    }
    match end_lines(lines.len() as u64 + 1, rest) {
        Ok(()) => Ok(lines),
        Err(fault) => Err(fault),
    }
}

/// Reads a whole scenario. Ok has the lines whose text the bytes are, each in its place. Else the first line that is none is
/// told, counted from 1, and why: it has more than 65,535 bytes, the input ends inside it, it has none of the forms or a word
/// out of its range, or it is out of its place.
#[tactic(auto, unfolding(crate::specs::Scenarios::scenario_of), using(crate::proofs::Written::only))]
pub fn parse(alloc: Global, bytes: &[u8]) -> Result<Scenario, LineFault>
    ensures exact { ReadsScenario result bytes.now }
    ensures text { IfOk result (λ x. IsScenario x.lines × (bytes.now ≡ text_of x.lines)) }
{
    match cut(alloc, bytes, b'\n') {
        Ok(pieces) => match read_lines(alloc, pieces.as_slice()) {
            Ok(lines) => Ok(Scenario {
                lines: Items::new(lines),
            }),
            Err(fault) => Err(fault),
        },
        Err(NoMemory) => Err(LineFault::NoMemory),
    }
}
