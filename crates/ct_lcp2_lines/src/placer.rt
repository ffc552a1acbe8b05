//! Reads lines that say nodes and addresses while their bytes come, and prints the placement at the end.
ghost use Rattle.std.specs.Prelude.{◌≡◌, ◌≤◌, ◌<◌, ◌+◌, ◌^◌, ◌∷◌, [], length, OnOk};
ghost use Rattle.ct_lcp2_lines.specs.Claims.{HasPlacingCause, Places};
ghost use Rattle.ct_lcp2_lines.specs.Feeding.{Feeds, Finishes, FinishCause, ReadCause, ReadsOn, end_of, fault_end, first};
ghost use Rattle.ct_lcp2_lines.specs.Room.{Fits, room};

use crate::placing::Placing;
use crate::print::print;
use ct_lines::line::{LineKind, LineKindFault};
use ct_outside::fault::SinkFault;
use ct_outside::sink::Sink;
use ct_outside::source::Source;
use ct_values::items::Items;
use std::alloc::Global;

/// How it ends. A line is told by its number, counted from 1.
#[derive(Clone, Copy, Debug, PartialEq, Eq)]
pub enum End {
    /// All of the input was read, and the placement was printed.
    Read,
    /// The input ended inside a line.
    Unended { line: u64 },
    Refused { line: u64, kind: LineKind },
    ReadFault,
    WriteFault,
    NoMemory,
}

/// What the lines say, the line so far, and how many lines were read.
#[derive(Drop)]
pub struct Placer {
    pub placing: Placing,
    pub line: Items<u8>,
    pub count: u64,
}

impl Placer {
    /// Before the first byte. It takes no memory.
    fn new(alloc: Global) -> Placer
        ensures { result ≡ first }
    {
        Placer {
            placing: Placing::new(alloc),
            line: Items::empty(alloc),
            count: 0,
        }
    }

    /// The line is whole.
    fn end(&mut self) -> Result<(), LineKindFault>
        requires { Fits self.old }
        ensures feeds { Feeds result self.old (10 ∷ []) self.new }
        ensures fits { Fits self.new }
        ensures fewer { OnOk result (room self.new < room self.old) }
    {
        if let Err(fault) = self.placing.line(self.line.as_slice()) {
            return Err(fault);
        }
        self.line.truncate(0);
        self.count += 1;
        Ok(())
    }

    fn byte(&mut self, x: u8) -> Result<(), LineKindFault>
        requires { Fits self.old }
        ensures feeds { Feeds result self.old (x ∷ []) self.new }
        ensures fits { Fits self.new }
        ensures fewer { OnOk result (room self.new < room self.old) }
    {
        if x == b'\n' {
            return self.end();
        }
        if self.line.len() >= 65535 {
            return Err(LineKindFault::Kind(LineKind::Long));
        }
        if let Err(_) = self.line.push(x) {
            return Err(LineKindFault::NoMemory);
        }
        Ok(())
    }

    fn feed(&mut self, bytes: &[u8]) -> Result<(), LineKindFault>
        requires { Fits self.old }
        ensures feeds { Feeds result self.old bytes.now self.new }
        ensures fits { Fits self.new }
        ensures fewer { OnOk result (room self.new + length bytes.now ≤ room self.old) }
    {
        for x in bytes {
            if let Err(fault) = self.byte(*x) {
                return Err(fault);
            }
        }
        Ok(())
    }

    fn end_of(&self, fault: LineKindFault) -> End
        requires { Fits self.now }
        ensures { result ≡ end_of fault self.now.count }
    {
        match fault {
            LineKindFault::Kind(kind) => End::Refused {
                line: self.count + 1,
                kind,
            },
            LineKindFault::NoMemory => End::NoMemory,
        }
    }

    /// Reads the input to its end, or as far as it goes.
    fn read<S: Source>(&mut self, input: &mut S) -> Result<(), End>
        requires { Fits self.old }
        ensures reads { ReadsOn result self.old self.new (S.left input.old) (S.left input.new) }
        ensures fits { Fits self.new }
        ensures cause { ReadCause result (S.faults input.old) (S.faults input.new) }
    {
        let mut buffer = [0u8; 4096];
        'reading: loop {
            let n = match input.read(&mut buffer) {
                Ok(n) => n,
                Err(_) => return Err(End::ReadFault),
            };
            if n == 0 {
                return Ok(());
            }
            if let Err(fault) = self.feed(&buffer[..n]) {
                return Err(self.end_of(fault));
            }
        }
    }

    /// The input has no more: after a line feed the placement is printed.
    fn finish<K: Sink>(&self, out: &mut K) -> End
        requires { Fits self.now }
        ensures ends { Finishes result self.now (K.held out.old) (K.held out.new) }
        ensures cause { FinishCause result (K.faults out.old) (K.faults out.new) }
    {
        if !self.line.is_empty() {
            return End::Unended {
                line: self.count + 1,
            };
        }
        let text = match self.placing.text() {
            Ok(text) => text,
            Err(_) => return End::NoMemory,
        };
        match print(text.as_slice(), out) {
            Ok(()) => End::Read,
            Err(fault) => fault_end(fault),
        }
    }
}

/// A fault of the sink as an end.
fn fault_end(fault: SinkFault) -> End
    ensures { result ≡ fault_end fault }
{
    match fault {
        SinkFault::Failed => End::WriteFault,
        SinkFault::NoMemory => End::NoMemory,
    }
}

/// Reads the input to its end, or as far as it goes, and prints the placement over what its lines say.
pub fn place<S: Source, K: Sink>(alloc: Global, input: &mut S, out: &mut K) -> End
    ensures places { Places result (S.left input.old) (S.left input.new) (K.held out.old) (K.held out.new) }
    ensures cause { HasPlacingCause result (S.faults input.old) (S.faults input.new) (K.faults out.old) (K.faults out.new) }
{
    let mut placer = Placer::new(alloc);
    if let Err(end) = placer.read(input) {
        return end;
    }
    placer.finish(out)
}
