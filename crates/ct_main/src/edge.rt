//! From the words that the program was called by to its status.
ghost use Rattle.std.specs.Prelude.{◌≡◌, ℕ, true, false, None, Some, drop};
ghost use Rattle.std.specs.Process.{exit_status};
ghost use Rattle.ct_words.specs.declared.words.Word.TheVariants as word;
ghost use Rattle.ct_main.specs.Handed as handed;
ghost use Rattle.ct_main.specs.Claims as claims;
ghost use Rattle.ct_main.specs.declared.player.End.{End as Ended};

use crate::run::run;
use ct_bus_exchange::handlers::Handlers;
use ct_bus_exchange::troupe::BusTroupe;
use ct_call::table::CallTable;
use ct_outside::sink::Sink;
use ct_outside::source::Source;
use ct_troupe_run::columns::Columns;
use ct_troupe_run::running::Troupe;
use std::alloc::Global;
use std::process::ExitCode;

/// The words behind the first one, which is the program's name.
fn after_name(all: &[String]) -> &[String]
    ensures { result.now ≡ drop 1 all.now }
{
    match all.split_first() {
        Some((_, words)) => words,
        None => &[],
    }
}

/// What the program does and its status, where these are all words that it was called by, its own name first: what the top call
/// does for the words behind the name, and its answer.
pub fn answer<S: Source, K: Sink, E: Sink, T: Troupe + Columns, B: BusTroupe>(
    alloc: Global,
    all: &[String],
    table: &CallTable,
    input: &mut S,
    out: &mut K,
    err: &mut E,
    troupe: &mut T,
    handlers: &Handlers,
    bus: &mut B,
) -> ExitCode
    requires ready { T.ready troupe.old }
    requires columns_ready { T.columns_ready troupe.old }
    requires bus_ready { B.ready bus.old }
    // The words behind the name say `play`: bytes that came in were played, and err and the answer say how that ended.
    ensures play { claims.asked (drop 1 all.now) ≡ Some word.Play → (e : Ended)
        × claims.Plays (handed.rules_of table.now) e (S.left input.old) (S.left input.new) (K.held out.old) (K.held out.new)
        × claims.HasEndCause e (S.faults input.old) (S.faults input.new) (K.faults out.old) (K.faults out.new)
        × claims.Reports (claims.message e) (claims.status e) (exit_status result) (E.held err.old) (E.held err.new) (E.faults err.old) (E.faults err.new) }
    // The words say `lcp2`: the input's lines were read, and the placement printed.
    ensures lcp2 { claims.asked (drop 1 all.now) ≡ Some word.Lcp2 → (e : handed.PlacingEnd)
        × handed.Places e (S.left input.old) (S.left input.new) (K.held out.old) (K.held out.new)
        × claims.HasEndCause (claims.placed_end e) (S.faults input.old) (S.faults input.new) (K.faults out.old) (K.faults out.new)
        × claims.Reports (claims.message (claims.placed_end e)) (claims.status (claims.placed_end e)) (exit_status result) (E.held err.old) (E.held err.new) (E.faults err.old) (E.faults err.new) }
    // The words say `soak`, with a seed and a number of steps: nothing was read, and the line that counts them printed.
    ensures soak { (seed steps : ℕ) → claims.asked (drop 1 all.now) ≡ Some (word.Soak seed steps) → (e : Ended)
        × claims.SoakEnds (handed.rules_of table.now) (seed, steps) e (K.held out.old) (K.held out.new)
        × claims.HasEndCause e (S.faults input.old) (S.faults input.new) (K.faults out.old) (K.faults out.new)
        × claims.Reports (claims.message e) (claims.status e) (exit_status result) (E.held err.old) (E.held err.new) (E.faults err.old) (E.faults err.new)
        × (input.new ≡ input.old) }
    // The words say `cluster`, with the numbers of a plan: the troupe played that plan, and the text of a schedule of its
    // journals was printed; nothing was read.
    ensures cluster { (p : handed.Numbers) → claims.asked (drop 1 all.now) ≡ Some (word.Cluster p) → (e : handed.Ran)
        × handed.Runs (handed.rules_of table.now) (claims.wanted_by false p) e (T.told troupe.new) (K.held out.old) (K.held out.new)
        × handed.HasRunCause e (T.faults troupe.old) (T.faults troupe.new) (K.faults out.old) (K.faults out.new)
        × claims.Reports (claims.cluster_message e) (claims.cluster_status e) (exit_status result) (E.held err.old) (E.held err.new) (E.faults err.old) (E.faults err.new)
        × (input.new ≡ input.old) }
    // The words say `loopback`: the same, with nodes that talk over sockets.
    ensures loopback { (p : handed.Numbers) → claims.asked (drop 1 all.now) ≡ Some (word.Loopback p) → (e : handed.Ran)
        × handed.Runs (handed.rules_of table.now) (claims.wanted_by true p) e (T.told troupe.new) (K.held out.old) (K.held out.new)
        × handed.HasRunCause e (T.faults troupe.old) (T.faults troupe.new) (K.faults out.old) (K.faults out.new)
        × claims.Reports (claims.cluster_message e) (claims.cluster_status e) (exit_status result) (E.held err.old) (E.held err.new) (E.faults err.old) (E.faults err.new)
        × (input.new ≡ input.old) }
    // The words say `chains`, with the numbers of a plan that is cut: the troupe played its columns, and the texts of schedules of
    // their journals were printed, one after the other; nothing was read.
    ensures chains { (p : handed.CutNumbers) → claims.asked (drop 1 all.now) ≡ Some (word.Chains p) → (e : handed.Ran)
        × handed.RunsColumns (handed.rules_of table.now) (claims.cut_wanted_by p) e (T.told_in troupe.new) (K.held out.old) (K.held out.new)
        × handed.HasRunCause e (T.column_faults troupe.old) (T.column_faults troupe.new) (K.faults out.old) (K.faults out.new)
        × claims.Reports (claims.cluster_message e) (claims.cluster_status e) (exit_status result) (E.held err.old) (E.held err.new) (E.faults err.old) (E.faults err.new)
        × (input.new ≡ input.old) }
    // The words say `bus`, with the numbers of an exchange: the bus exchanged the messages that the seed makes, and the text of what
    // was handled was printed; nothing was read.
    ensures bus { (p : handed.Exchanged) → claims.asked (drop 1 all.now) ≡ Some (word.Bus p) → (e : handed.ExchangeEnd)
        × handed.BusEnds (handed.handled_by handlers.now) (claims.bus_wanted_by p) e (K.held out.old) (K.held out.new)
        × handed.HasBusCause e (B.exchanges bus.old) (B.exchanges bus.new) (K.faults out.old) (K.faults out.new)
        × claims.Reports (claims.message (claims.bus_end e)) (claims.status (claims.bus_end e)) (exit_status result) (E.held err.old) (E.held err.new) (E.faults err.old) (E.faults err.new)
        × (input.new ≡ input.old) }
    // For all other words the troupe plays nothing.
    ensures aside { claims.asks_troupe (claims.asked (drop 1 all.now)) ≡ false → troupe.new ≡ troupe.old }
    // For all other words than `bus` the bus exchanges nothing.
    ensures bus_aside { claims.asks_bus (claims.asked (drop 1 all.now)) ≡ false → bus.new ≡ bus.old }
    // The words have no reading: nothing was read or printed, and err says so, or that memory was wanting.
    ensures usage { claims.asked (drop 1 all.now) ≡ None → claims.Refuses (exit_status result) (E.held err.old) (E.held err.new) (E.faults err.old) (E.faults err.new)
        × (input.new ≡ input.old) × (out.new ≡ out.old) }
{
    ExitCode::from(run(
        alloc,
        after_name(all),
        table,
        input,
        out,
        err,
        troupe,
        handlers,
        bus,
    ))
}
