//! Plays a scenario while its bytes come.
ghost use Rattle.std.specs.Prelude.{◌≡◌, ◌≢◌, ◌≤◌, ◌<◌, ◌+◌, ◌^◌, ◌∷◌, [], ℕ, List, Option, Some, length, take, get_or, IfOk, OnOk, IsErrOf};
ghost use Rattle.std.specs.List.{All};
ghost use Rattle.std.specs.Io.KnownBytes.{Appends};
ghost use Rattle.ct_main.specs.Handed as handed;
ghost use Rattle.ct_main.specs.Claims as claims;
ghost use Rattle.ct_main.specs.Feeding as feeding;
ghost use Rattle.ct_main.specs.declared.player.End.TheVariants as ended;
ghost use Rattle.ct_main.specs.declared.player.Stop.TheVariants as stop;

use ct_call::table::CallTable;
use ct_lines::line::LineKind;
use ct_outside::fault::SinkFault;
use ct_outside::sink::{Sink, write_all};
use ct_outside::source::Source;
use ct_play::session::Session;
use ct_play_text::what::{PlayFault, What};
use ct_values::items::Items;
use ct_values::memory::NoMemory;
use std::alloc::{AllocFailed, Global};

/// Why playing stops before the input ends.
#[derive(Clone, Copy, Debug, PartialEq, Eq)]
pub enum Stop {
    Refused(What),
    WriteFault,
    NoMemory,
}

impl From<SinkFault> for Stop {
    ghost use Rattle.ct_main.specs.Feeding.{stop_of};

    ghost from_gives = { λ x e. e ≡ stop_of x };

    fn from(fault: SinkFault) -> Stop {
        match fault {
            SinkFault::Failed => Stop::WriteFault,
            SinkFault::NoMemory => Stop::NoMemory,
        }
    }
}

impl From<PlayFault> for Stop {
    ghost use Rattle.ct_main.specs.Feeding.{stop_at};

    ghost from_gives = { λ x e. e ≡ stop_at x };

    fn from(fault: PlayFault) -> Stop {
        match fault {
            PlayFault::Refused(what) => Stop::Refused(what),
            PlayFault::NoMemory => Stop::NoMemory,
        }
    }
}

impl From<NoMemory> for Stop {
    ghost use Rattle.ct_main.specs.declared.player.Stop.TheVariants.{NoMemory as Want};

    ghost from_gives = { λ _ e. e ≡ Want };

    fn from(_e: NoMemory) -> Stop {
        Stop::NoMemory
    }
}

impl<T: Drop> From<AllocFailed<T>> for Stop {
    ghost use Rattle.ct_main.specs.declared.player.Stop.TheVariants.{NoMemory as Want};

    ghost from_gives = { λ _ e. e ≡ Want };

    fn from(_e: AllocFailed<T>) -> Stop {
        Stop::NoMemory
    }
}

/// How a play ends. A line is told by its number, counted from 1.
#[derive(Clone, Copy, Debug, PartialEq, Eq)]
pub enum End {
    /// All of the input was played.
    Read,
    /// The input ended inside a line.
    Unended { line: u64 },
    Refused { line: u64, what: What },
    ReadFault,
    WriteFault,
    NoMemory,
    /// The input has 2^40 bytes or more.
    TooLong,
}

/// A session, the line so far, and how many lines were played.
#[derive(Drop)]
pub struct Player {
    pub session: Session,
    pub line: Items<u8>,
    pub count: u64,
}

/// Prints texts, each by one write where the sink takes it whole.
fn print<K: Sink>(texts: &[Items<u8>], out: &mut K) -> Result<(), Stop>
    ensures prints { feeding.Prints result texts.now (K.held out.old) (K.held out.new) }
    ensures cause { feeding.HasStopCause (K.faults out.old) (K.faults out.new) result }
{
    for text in texts {
        if let Err(fault) = write_all(out, text.as_slice()) {
            return Err(Stop::from(fault));
        }
    }
    Ok(())
}

/// How many bytes stand before the first line feed, or how many there are where there is none.
fn before_line_feed(bytes: &[u8]) -> usize
    ensures within { result ≤ length bytes.now }
    ensures none { All (λ x. x ≢ 10) (take result bytes.now) }
    ensures next { result < length bytes.now → get_or bytes.now result 0 ≡ 10 }
{
    let mut size = 0;
    while size < bytes.len() && bytes[size] != b'\n' {
        size += 1;
    }
    size
}

impl Player {
    /// The line is whole.
    fn end<K: Sink>(&mut self, alloc: Global, table: &CallTable, out: &mut K) -> Result<(), Stop>
        requires count { self.old.count + 1 < 2 ^ 64 }
        requires line { length self.old.line ≤ 65535 }
        ensures feeds { feeding.Feeds (handed.rules_of table.now) result self.old (10 ∷ []) self.new (K.held out.old) (K.held out.new) }
        ensures cause { feeding.HasStopCause (K.faults out.old) (K.faults out.new) result }
        ensures count { self.new.count ≤ self.old.count + 1 }
        ensures line { length self.new.line ≤ 65535 }
    {
        let texts = match self.session.play(alloc, table, self.line.as_slice()) {
            Ok(texts) => texts,
            Err(fault) => return Err(Stop::from(fault)),
        };
        if let Err(stop) = print(texts.as_slice(), out) {
            return Err(stop);
        }
        self.line.truncate(0);
        self.count += 1;
        Ok(())
    }

    /// Bytes without a line feed are kept for the line.
    fn keep(&mut self, bytes: &[u8]) -> Result<(), Stop>
        requires none { All (λ x. x ≢ 10) bytes.now }
        requires line { length self.old.line ≤ 65535 }
        ensures feeds { (rules : handed.Rules) (held : Option (List ℕ)) → feeding.Feeds rules result self.old bytes.now self.new held held }
        ensures writes { ¬ IsErrOf result stop.WriteFault }
        ensures count { self.new.count ≡ self.old.count }
        ensures line { length self.new.line ≤ 65535 }
    {
        if bytes.len() > 65535 - self.line.len() {
            return Err(Stop::Refused(What::Line(LineKind::Long)));
        }
        self.line.extend_from_slice(bytes)?;
        Ok(())
    }

    /// The bytes to the first line feed are played, and this, or all where there is none. How many are they?
    fn take_line<K: Sink>(
        &mut self,
        alloc: Global,
        table: &CallTable,
        bytes: &[u8],
        out: &mut K,
    ) -> Result<usize, Stop>
        requires some { 0 < length bytes.now }
        requires count { self.old.count + 1 < 2 ^ 64 }
        requires line { length self.old.line ≤ 65535 }
        ensures takes { feeding.FeedsFront (handed.rules_of table.now) result self.old bytes.now self.new (K.held out.old) (K.held out.new) }
        ensures cause { feeding.HasStopCause (K.faults out.old) (K.faults out.new) result }
        ensures count { self.new.count ≤ self.old.count + 1 }
        ensures line { length self.new.line ≤ 65535 }
    {
        let size = before_line_feed(bytes);
        if let Err(stop) = self.keep(&bytes[..size]) {
            return Err(stop);
        }
        if size == bytes.len() {
            return Ok(size);
        }
        match self.end(alloc, table, out) {
            Ok(()) => Ok(size + 1),
            Err(stop) => Err(stop),
        }
    }

    /// Bytes are played.
    fn feed<K: Sink>(
        &mut self,
        alloc: Global,
        table: &CallTable,
        bytes: &[u8],
        out: &mut K,
    ) -> Result<(), Stop>
        requires count { self.old.count + length bytes.now < 2 ^ 64 }
        requires line { length self.old.line ≤ 65535 }
        ensures feeds { feeding.Feeds (handed.rules_of table.now) result self.old bytes.now self.new (K.held out.old) (K.held out.new) }
        ensures cause { feeding.HasStopCause (K.faults out.old) (K.faults out.new) result }
        ensures count { self.new.count ≤ self.old.count + length bytes.now }
        ensures line { length self.new.line ≤ 65535 }
    {
        let mut done = 0;
        while done < bytes.len() {
            match self.take_line(alloc, table, &bytes[done..], out) {
                Ok(size) => done += size,
                Err(stop) => return Err(stop),
            }
        }
        Ok(())
    }

    /// The input has no more: after a line feed the calls that wait are told.
    fn finish<K: Sink>(&self, alloc: Global, out: &mut K) -> End
        requires { self.now.count + 1 < 2 ^ 64 }
        ensures ends { feeding.Finishes result self.now (K.held out.old) (K.held out.new) }
        ensures later { K.faults out.old ≤ K.faults out.new }
        ensures failed { result ≡ ended.WriteFault → handed.Rose (K.faults out.old) (K.faults out.new) }
    {
        if !self.line.is_empty() {
            return End::Unended {
                line: self.count + 1,
            };
        }
        let texts = match self.session.pending(alloc) {
            Ok(texts) => texts,
            Err(_) => return End::NoMemory,
        };
        match print(texts.as_slice(), out) {
            Ok(()) => End::Read,
            Err(stop) => self.end_of(stop),
        }
    }

    fn end_of(&self, stop: Stop) -> End
        requires { self.now.count + 1 < 2 ^ 64 }
        ensures { result ≡ feeding.end_of stop self.now.count }
    {
        match stop {
            Stop::Refused(what) => End::Refused {
                line: self.count + 1,
                what,
            },
            Stop::WriteFault => End::WriteFault,
            Stop::NoMemory => End::NoMemory,
        }
    }

    /// Reads a piece and plays it.
    fn turn<S: Source, K: Sink>(
        &mut self,
        alloc: Global,
        table: &CallTable,
        buffer: &mut [u8],
        input: &mut S,
        out: &mut K,
    ) -> Result<usize, End>
        requires room { 0 < length buffer.old }
        requires count { self.old.count + length buffer.old + 1 < 2 ^ 64 }
        requires line { length self.old.line ≤ 65535 }
        ensures turns { feeding.Turns (handed.rules_of table.now) result (length buffer.old) self.old self.new (S.left input.old) (S.left input.new) (K.held out.old) (K.held out.new) }
        ensures cause { feeding.TurnCause result (S.faults input.old) (S.faults input.new) (K.faults out.old) (K.faults out.new) }
        ensures count { IfOk result (λ n. self.new.count ≤ self.old.count + n) }
        ensures line { length self.new.line ≤ 65535 }
    {
        let n = match input.read(buffer) {
            Ok(n) => n,
            Err(_) => return Err(End::ReadFault),
        };
        if n == 0 {
            return Err(self.finish(alloc, out));
        }
        match self.feed(alloc, table, &buffer[..n], out) {
            Ok(()) => Ok(n),
            Err(stop) => Err(self.end_of(stop)),
        }
    }
}

/// The most bytes that are taken of an input.
pub const MOST_BYTES: u64 = 1099511627776;

/// Plays the input to its end, or as far as it goes.
pub fn play<S: Source, K: Sink>(alloc: Global, table: &CallTable, input: &mut S, out: &mut K) -> End
    ensures plays { claims.Plays (handed.rules_of table.now) result (S.left input.old) (S.left input.new) (K.held out.old) (K.held out.new) }
    ensures cause { claims.HasEndCause result (S.faults input.old) (S.faults input.new) (K.faults out.old) (K.faults out.new) }
{
    let mut player = Player {
        session: Session::new(alloc),
        line: Items::empty(alloc),
        count: 0,
    };
    let mut buffer = [0u8; 4096];
    let mut taken = 0u64;
    while taken < MOST_BYTES {
        let room = (MOST_BYTES - taken).min(4096) as usize;
        match player.turn(alloc, table, &mut buffer[..room], input, out) {
            Ok(n) => taken += n as u64,
            Err(end) => return end,
        }
    }
    End::TooLong
}
