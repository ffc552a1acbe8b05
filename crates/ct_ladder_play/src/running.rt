//! What the program does with its words, its input and its outputs.
ghost use Rattle.std.specs.Prelude.{◌≡◌, ◌<◌, Bool, length, map, codes, string_bytes, None, Some};
ghost use Rattle.std.specs.Str.{bytes_eq};
ghost use Rattle.ct_call.specs.Shown.{rules_of};
ghost use Rattle.ct_picture.specs.Running as picture;
ghost use Rattle.ct_picture.specs.declared.running.End.{End as Ended};
ghost use Rattle.ct_ladder_play.specs.Running as running;
ghost use Rattle.ct_ladder_play.specs.declared.running.Wanted.TheVariants as wanted;

use crate::playing::ladder_from;
use ct_call::table::CallTable;
use ct_ladder::drawing::draw;
use ct_outside::fault::SinkFault;
use ct_outside::sink::{Sink, write_all};
use ct_outside::source::Source;
use ct_picture::reading::RunFault;
use ct_picture::running::{End, end_of, picture, read_all, report, say};
use ct_picture::svg::svg_of;
use std::alloc::Global;

/// What is drawn of the input.
#[derive(Clone, Copy)]
pub enum Wanted {
    /// It is a run.
    Run,
    /// It is a scenario, which is played, and whose lines stand in the picture where that is wanted.
    Scenario { lines: bool },
}

fn is_word(word: &String, name: &[u8]) -> bool
    ensures { result ≡ bytes_eq (string_bytes word.now) name.now }
{
    word.as_bytes() == name
}

/// What the words after the program's name ask for.
fn wanted_of(words: &[String]) -> Option<Wanted>
    ensures { result ≡ running.wanted_of (map string_bytes words.now) }
{
    let Some((word, more)) = words.split_first() else {
        return Some(Wanted::Run);
    };
    if !more.is_empty() {
        return None;
    }
    if is_word(word, b"--scenario") {
        Some(Wanted::Scenario { lines: false })
    } else if is_word(word, b"--lines") {
        Some(Wanted::Scenario { lines: true })
    } else {
        None
    }
}

/// The picture of a scenario, as SVG. It has less than 2^32 rows.
pub fn ladder_text(
    alloc: Global,
    table: &CallTable,
    lines: bool,
    bytes: &[u8],
) -> Result<Vec<u8>, RunFault>
    requires { length bytes.now < picture.most_bytes }
    ensures { running.Laddered (rules_of table.now) lines result bytes.now }
{
    let ladder = ladder_from(alloc, table, lines, bytes)?;
    if ladder.rungs.len() >= 4294967296 {
        return Err(RunFault::NoMemory);
    }
    let picture = draw(alloc, ladder.nodes, ladder.rungs.as_slice())?;
    Ok(svg_of(alloc, &picture)?)
}

/// Writes the picture of the bytes.
fn write_ladder<K: Sink>(
    alloc: Global,
    table: &CallTable,
    lines: bool,
    bytes: &[u8],
    out: &mut K,
) -> End
    requires { length bytes.now < picture.most_bytes }
    ensures writes { running.Writes (rules_of table.now) lines result bytes.now (K.held out.old) (K.held out.new) }
    ensures cause { picture.WriteCause result (K.faults out.old) (K.faults out.new) }
{
    let text = match ladder_text(alloc, table, lines, bytes) {
        Ok(text) => text,
        Err(fault) => return end_of(fault),
    };
    match write_all(out, &text) {
        Ok(()) => End::Drawn,
        Err(SinkFault::Failed) => End::WriteFault,
        Err(SinkFault::NoMemory) => End::NoMemory,
    }
}

/// Reads a scenario to its end, plays it, and writes its picture.
pub fn ladder<S: Source, K: Sink>(
    alloc: Global,
    table: &CallTable,
    lines: bool,
    input: &mut S,
    out: &mut K,
) -> End
    ensures draws { running.Draws (rules_of table.now) lines result (S.left input.old) (S.left input.new) (K.held out.old) (K.held out.new) }
    ensures cause { picture.HasPictureCause result (S.faults input.old) (S.faults input.new) (K.faults out.old) (K.faults out.new) }
{
    match read_all(alloc, input) {
        Ok(bytes) => write_ladder(alloc, table, lines, &bytes, out),
        Err(end) => end,
    }
}

/// All that the program does with the words after its name. With none the input is a run, with `--scenario` or `--lines` a
/// scenario, and by `--lines` its lines stand in the picture. The answer is its status: 0 where the picture was written, 1 where
/// there are other words, 2 where a line has no reading, is refused, or the input ends inside one, 3 where a read failed, 4 where
/// a write failed, 5 for want of memory, and 8 where 2^40 bytes were taken.
pub fn run<S: Source, K: Sink, E: Sink>(
    alloc: Global,
    table: &CallTable,
    words: &[String],
    input: &mut S,
    out: &mut K,
    err: &mut E,
) -> u8
    // The input was read to its end and the picture of its run written, and err and the answer say how that ended.
    ensures picture { running.wanted_of (map string_bytes words.now) ≡ Some wanted.Run → (e : Ended)
        × picture.Pictures e (S.left input.old) (S.left input.new) (K.held out.old) (K.held out.new)
        × picture.HasPictureCause e (S.faults input.old) (S.faults input.new) (K.faults out.old) (K.faults out.new)
        × picture.Reports (picture.message e) (picture.status e) result (E.held err.old) (E.held err.new) (E.faults err.old) (E.faults err.new) }
    // The same of a scenario.
    ensures scenario { (lines : Bool) → running.wanted_of (map string_bytes words.now) ≡ Some (wanted.Scenario lines) → (e : Ended)
        × running.Draws (rules_of table.now) lines e (S.left input.old) (S.left input.new) (K.held out.old) (K.held out.new)
        × picture.HasPictureCause e (S.faults input.old) (S.faults input.new) (K.faults out.old) (K.faults out.new)
        × picture.Reports (picture.message e) (picture.status e) result (E.held err.old) (E.held err.new) (E.faults err.old) (E.faults err.new) }
    // Nothing was read or written, and err says so.
    ensures usage { running.wanted_of (map string_bytes words.now) ≡ None → picture.Reports (codes "ctdbpicture: usage\n") 1 result (E.held err.old) (E.held err.new) (E.faults err.old) (E.faults err.new)
        × (input.new ≡ input.old) × (out.new ≡ out.old) }
{
    match wanted_of(words) {
        Some(Wanted::Run) => {
            let end = picture(alloc, input, out);
            report(alloc, end, err)
        }
        Some(Wanted::Scenario { lines }) => {
            let end = ladder(alloc, table, lines, input, out);
            report(alloc, end, err)
        }
        None => say(b"ctdbpicture: usage\n", 1, err),
    }
}
