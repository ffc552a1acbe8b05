//! The top call.
ghost use Rattle.std.specs.Prelude.{◌≡◌, ◌≤◌, ℕ, true, false, IfOk, None, Some};
ghost use Rattle.ct_words.specs.declared.words.Word.TheVariants as word;
ghost use Rattle.ct_main.specs.Handed as handed;
ghost use Rattle.ct_main.specs.Claims as claims;
ghost use Rattle.ct_main.specs.declared.player.End.{End as Ended};
ghost use Rattle.ct_main.specs.declared.player.End.TheVariants as ended;

use crate::bus::exchange;
use crate::player::{End, play};
use ct_bus_exchange::handlers::Handlers;
use ct_bus_exchange::troupe::BusTroupe;
use ct_bus_run::running::BusEnd;
use ct_call::table::CallTable;
use ct_lcp2_lines::placer::{End as PlacerEnd, place};
use ct_outside::fault::SinkFault;
use ct_outside::sink::{Sink, write_all};
use ct_outside::source::Source;
use ct_play_text::text::push_what;
use ct_play_text::what::What;
use ct_soak::soaking::soak;
use ct_text::words::{push, push_number};
use ct_troupe_run::chains::{CutWanted, chains};
use ct_troupe_run::columns::Columns;
use ct_troupe_run::running::{End as ClusterEnd, Troupe, Wanted, cluster};
use ct_values::memory::NoMemory;
use ct_words::words::{ChainNumbers, PlanNumbers, Word, WordsFault, read_words};
use std::alloc::Global;

/// The line that err gets.
fn message(alloc: Global, end: End) -> Result<Vec<u8>, NoMemory>
    ensures { IfOk result (λ v. v.items ≡ claims.message end) }
{
    let mut text = Vec::new(alloc);
    match end {
        End::Read => {}
        End::Unended { line } => {
            push_number(&mut text, b"ctdbsim: line ", line)?;
            push(&mut text, b": unended\n")?;
        }
        End::Refused { line, what } => {
            push_number(&mut text, b"ctdbsim: line ", line)?;
            push(&mut text, b": ")?;
            push_what(&mut text, what)?;
            push(&mut text, b"\n")?;
        }
        End::ReadFault => push(&mut text, b"ctdbsim: read fault\n")?,
        End::WriteFault => push(&mut text, b"ctdbsim: write fault\n")?,
        End::NoMemory => push(&mut text, b"ctdbsim: want of memory\n")?,
        End::TooLong => push(&mut text, b"ctdbsim: input too long\n")?,
    }
    Ok(text)
}

fn status(end: End) -> u8
    ensures { result ≡ claims.status end }
{
    match end {
        End::Read => 0,
        End::Unended { .. } | End::Refused { .. } => 2,
        End::ReadFault => 3,
        End::WriteFault => 4,
        End::NoMemory => 5,
        End::TooLong => 8,
    }
}

/// Writes a line to err, and answers the status.
fn say<E: Sink>(line: &[u8], wanted: u8, err: &mut E) -> u8
    ensures { claims.Reports line.now wanted result (E.held err.old) (E.held err.new) (E.faults err.old) (E.faults err.new) }
{
    match write_all(err, line) {
        Ok(()) => wanted,
        Err(SinkFault::Failed) => 4,
        Err(SinkFault::NoMemory) => 5,
    }
}

/// Says on err how a play ended, and answers the status.
fn report<E: Sink>(alloc: Global, end: End, err: &mut E) -> u8
    ensures { claims.Reports (claims.message end) (claims.status end) result (E.held err.old) (E.held err.new) (E.faults err.old) (E.faults err.new) }
{
    match message(alloc, end) {
        Ok(line) => say(line.as_slice(), status(end), err),
        Err(_) => 5,
    }
}

/// The end of a placement as the program's.
fn placed_end(end: PlacerEnd) -> End
    ensures { result ≡ claims.placed_end end }
{
    match end {
        PlacerEnd::Read => End::Read,
        PlacerEnd::Unended { line } => End::Unended { line },
        PlacerEnd::Refused { line, kind } => End::Refused {
            line,
            what: What::Line(kind),
        },
        PlacerEnd::ReadFault => End::ReadFault,
        PlacerEnd::WriteFault => End::WriteFault,
        PlacerEnd::NoMemory => End::NoMemory,
    }
}

/// The end of an exchange as the program's.
fn bus_end(end: BusEnd) -> End
    ensures { result ≡ claims.bus_end end }
{
    match end {
        BusEnd::Done => End::Read,
        BusEnd::WriteFault => End::WriteFault,
        BusEnd::NoMemory => End::NoMemory,
    }
}

/// Takes the steps of a soak, and prints the line that counts them.
fn soak_end<K: Sink>(alloc: Global, table: &CallTable, seed: u64, steps: u32, out: &mut K) -> End
    ensures ends { claims.SoakEnds (handed.rules_of table.now) (seed, steps) result (K.held out.old) (K.held out.new) }
    ensures later { K.faults out.old ≤ K.faults out.new }
    ensures failed { result ≡ ended.WriteFault → handed.Rose (K.faults out.old) (K.faults out.new) }
{
    let line = match soak(alloc, table, seed, steps) {
        Ok(line) => line,
        Err(_) => return End::NoMemory,
    };
    match write_all(out, line.as_slice()) {
        Ok(()) => End::Read,
        Err(SinkFault::Failed) => End::WriteFault,
        Err(SinkFault::NoMemory) => End::NoMemory,
    }
}

/// What is to be played, by the numbers of the words.
fn wanted_by(net: bool, numbers: &PlanNumbers) -> Wanted
    ensures { result ≡ claims.wanted_by net numbers.now }
{
    Wanted {
        nodes: numbers.nodes,
        calls: numbers.calls,
        seed: numbers.seed,
        net,
    }
}

/// What is to be played in columns, by the numbers of the words.
fn cut_wanted_by(numbers: &ChainNumbers) -> CutWanted
    ensures { result ≡ claims.cut_wanted_by numbers.now }
{
    CutWanted {
        nodes: numbers.nodes,
        chains: numbers.chains,
        calls: numbers.calls,
        seed: numbers.seed,
    }
}

/// Says on err how a cluster ended, and answers the status.
fn report_cluster<E: Sink>(alloc: Global, end: ClusterEnd, err: &mut E) -> u8
    ensures { claims.Reports (claims.cluster_message end) (claims.cluster_status end) result (E.held err.old) (E.held err.new) (E.faults err.old) (E.faults err.new) }
{
    match end {
        ClusterEnd::Done => report(alloc, End::Read, err),
        ClusterEnd::LinkFault => say(b"ctdbsim: link fault\n", 7, err),
        ClusterEnd::WriteFault => report(alloc, End::WriteFault, err),
        ClusterEnd::NoMemory => report(alloc, End::NoMemory, err),
    }
}

/// All that the program does. `words` are the words after its name, the troupe plays what they plan, and the bus exchanges what they
/// make, by these handlers. The answer is the program's status: 0 where the input was read to its end, 1 where the words have no reading, 2 where a line is refused or
/// the input ends inside one, 3 where a read failed, 4 where a write failed, 5 for want of memory, 7 where the troupe failed,
/// and 8 where 2^40 bytes were taken.
#[tactic(auto, using(crate::proofs::Ranged::in_range, crate::proofs::Ranged::in_cut_range, crate::proofs::Unread::nothing_played, crate::proofs::Unread::nothing_placed, crate::proofs::Unread::nothing_soaked, crate::proofs::Unread::no_cause, ct_troupe_run::proofs::Played::unwritten, ct_troupe_run::proofs::Played::no_run_cause, ct_troupe_run::proofs::Ending::unwritten, ct_bus_run::proofs::Ending::unwritten, ct_bus_run::proofs::Ending::uncaused))]
pub fn run<S: Source, K: Sink, E: Sink, T: Troupe + Columns, B: BusTroupe>(
    alloc: Global,
    words: &[String],
    table: &CallTable,
    input: &mut S,
    out: &mut K,
    err: &mut E,
    troupe: &mut T,
    handlers: &Handlers,
    bus: &mut B,
) -> u8
    requires ready { T.ready troupe.old }
    requires columns_ready { T.columns_ready troupe.old }
    requires bus_ready { B.ready bus.old }
    // The words say `play`: bytes that came in were played, and err and the answer say how that ended.
    ensures play { claims.asked words.now ≡ Some word.Play → (e : Ended)
        × claims.Plays (handed.rules_of table.now) e (S.left input.old) (S.left input.new) (K.held out.old) (K.held out.new)
        × claims.HasEndCause e (S.faults input.old) (S.faults input.new) (K.faults out.old) (K.faults out.new)
        × claims.Reports (claims.message e) (claims.status e) result (E.held err.old) (E.held err.new) (E.faults err.old) (E.faults err.new) }
    // The words say `lcp2`: the input's lines were read, and the placement printed.
    ensures lcp2 { claims.asked words.now ≡ Some word.Lcp2 → (e : handed.PlacingEnd)
        × handed.Places e (S.left input.old) (S.left input.new) (K.held out.old) (K.held out.new)
        × claims.HasEndCause (claims.placed_end e) (S.faults input.old) (S.faults input.new) (K.faults out.old) (K.faults out.new)
        × claims.Reports (claims.message (claims.placed_end e)) (claims.status (claims.placed_end e)) result (E.held err.old) (E.held err.new) (E.faults err.old) (E.faults err.new) }
    // The words say `soak`, with a seed and a number of steps: nothing was read, and the line that counts them printed.
    ensures soak { (seed steps : ℕ) → claims.asked words.now ≡ Some (word.Soak seed steps) → (e : Ended)
        × claims.SoakEnds (handed.rules_of table.now) (seed, steps) e (K.held out.old) (K.held out.new)
        × claims.HasEndCause e (S.faults input.old) (S.faults input.new) (K.faults out.old) (K.faults out.new)
        × claims.Reports (claims.message e) (claims.status e) result (E.held err.old) (E.held err.new) (E.faults err.old) (E.faults err.new)
        × (input.new ≡ input.old) }
    // The words say `cluster`, with the numbers of a plan: the troupe played that plan, and the text of a schedule of its
    // journals was printed; nothing was read.
    ensures cluster { (p : handed.Numbers) → claims.asked words.now ≡ Some (word.Cluster p) → (e : handed.Ran)
        × handed.Runs (handed.rules_of table.now) (claims.wanted_by false p) e (T.told troupe.new) (K.held out.old) (K.held out.new)
        × handed.HasRunCause e (T.faults troupe.old) (T.faults troupe.new) (K.faults out.old) (K.faults out.new)
        × claims.Reports (claims.cluster_message e) (claims.cluster_status e) result (E.held err.old) (E.held err.new) (E.faults err.old) (E.faults err.new)
        × (input.new ≡ input.old) }
    // The words say `loopback`: the same, with nodes that talk over sockets.
    ensures loopback { (p : handed.Numbers) → claims.asked words.now ≡ Some (word.Loopback p) → (e : handed.Ran)
        × handed.Runs (handed.rules_of table.now) (claims.wanted_by true p) e (T.told troupe.new) (K.held out.old) (K.held out.new)
        × handed.HasRunCause e (T.faults troupe.old) (T.faults troupe.new) (K.faults out.old) (K.faults out.new)
        × claims.Reports (claims.cluster_message e) (claims.cluster_status e) result (E.held err.old) (E.held err.new) (E.faults err.old) (E.faults err.new)
        × (input.new ≡ input.old) }
    // The words say `chains`, with the numbers of a plan that is cut: the troupe played its columns, and the texts of schedules of
    // their journals were printed, one after the other; nothing was read.
    ensures chains { (p : handed.CutNumbers) → claims.asked words.now ≡ Some (word.Chains p) → (e : handed.Ran)
        × handed.RunsColumns (handed.rules_of table.now) (claims.cut_wanted_by p) e (T.told_in troupe.new) (K.held out.old) (K.held out.new)
        × handed.HasRunCause e (T.column_faults troupe.old) (T.column_faults troupe.new) (K.faults out.old) (K.faults out.new)
        × claims.Reports (claims.cluster_message e) (claims.cluster_status e) result (E.held err.old) (E.held err.new) (E.faults err.old) (E.faults err.new)
        × (input.new ≡ input.old) }
    // The words say `bus`, with the numbers of an exchange: the bus exchanged the messages that the seed makes, and the text of what
    // was handled was printed; nothing was read.
    ensures bus { (p : handed.Exchanged) → claims.asked words.now ≡ Some (word.Bus p) → (e : handed.ExchangeEnd)
        × handed.BusEnds (handed.handled_by handlers.now) (claims.bus_wanted_by p) e (K.held out.old) (K.held out.new)
        × handed.HasBusCause e (B.exchanges bus.old) (B.exchanges bus.new) (K.faults out.old) (K.faults out.new)
        × claims.Reports (claims.message (claims.bus_end e)) (claims.status (claims.bus_end e)) result (E.held err.old) (E.held err.new) (E.faults err.old) (E.faults err.new)
        × (input.new ≡ input.old) }
    // For all other words the troupe plays nothing.
    ensures aside { claims.asks_troupe (claims.asked words.now) ≡ false → troupe.new ≡ troupe.old }
    // For all other words than `bus` the bus exchanges nothing.
    ensures bus_aside { claims.asks_bus (claims.asked words.now) ≡ false → bus.new ≡ bus.old }
    // The words have no reading: nothing was read or printed, and err says so, or that memory was wanting.
    ensures usage { claims.asked words.now ≡ None → claims.Refuses result (E.held err.old) (E.held err.new) (E.faults err.old) (E.faults err.new)
        × (input.new ≡ input.old) × (out.new ≡ out.old) }
{
    match read_words(alloc, words) {
        Ok(Word::Play) => {
            let end = play(alloc, table, input, out);
            report(alloc, end, err)
        }
        Ok(Word::Lcp2) => {
            let end = place(alloc, input, out);
            report(alloc, placed_end(end), err)
        }
        Ok(Word::Soak { seed, steps }) => {
            let end = soak_end(alloc, table, seed, steps, out);
            report(alloc, end, err)
        }
        Ok(Word::Cluster(numbers)) => {
            let wanted = wanted_by(false, &numbers);
            let end = cluster(alloc, table, &wanted, out, troupe);
            report_cluster(alloc, end, err)
        }
        Ok(Word::Loopback(numbers)) => {
            let wanted = wanted_by(true, &numbers);
            let end = cluster(alloc, table, &wanted, out, troupe);
            report_cluster(alloc, end, err)
        }
        Ok(Word::Chains(numbers)) => {
            let wanted = cut_wanted_by(&numbers);
            let end = chains(alloc, table, &wanted, out, troupe);
            report_cluster(alloc, end, err)
        }
        Ok(Word::Bus(numbers)) => {
            let end = exchange(alloc, &numbers, handlers, out, bus);
            report(alloc, bus_end(end), err)
        }
        Err(WordsFault::Usage) => say(b"ctdbsim: usage\n", 1, err),
        Err(WordsFault::NoMemory) => report(alloc, End::NoMemory, err),
    }
}
