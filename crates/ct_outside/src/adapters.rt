//! Readers and writers of std as sources and sinks that count their failures.
ghost use Rattle.std.specs.Prelude.{◌≡◌, ◌≤◌, ℕ, List, None, length, IfOk, IfErr, is_ok, if◌then◌else◌};
ghost use Rattle.std.specs.Io.{ReadsAtMost};
ghost use Rattle.std.specs.Io.KnownBytes.{ReadConsumes, WriteAppends};
ghost use Rattle.ct_outside.specs.Causes.{HasCause, HasWriteCause, TakesSome, one_more};

use crate::fault::{Failed, SinkFault};
use crate::sink::Sink;
use crate::source::Source;
use std::io::{Read, Write};
use std::marker::Model;

/// A reader whose failures are counted, up to 2^64 - 1. As a source it tells nothing of its bytes.
#[derive(Drop)]
pub struct StdSource<R> {
    reader: R,
    faults: u64,
}

impl<R> Model for StdSource<R> {
    ghost use Rattle.ct_outside.specs.Adapters.{Counted};

    ghost Value = { Counted R };

    ghost view = { λ a. record { inner = a.reader; faults = a.faults } };
}

impl<R: Read + Drop> StdSource<R> {
    pub fn new(reader: R) -> StdSource<R>
        ensures { result ≡ record { inner = reader; faults = 0 } }
    {
        StdSource { reader, faults: 0 }
    }
}

impl<R: Read + Drop> Source for StdSource<R> {
    ghost left = { λ _. None };

    ghost faults = { λ s. s.faults };

    /// Passes one call on to the reader, each of whose errors is a failure.
    fn read(&mut self, into: &mut [u8]) -> Result<usize, Failed>
        ensures bound { ReadsAtMost result into.new }
        ensures bytes { ReadConsumes None None result into.new }
        ensures cause { HasCause self.old.faults self.new.faults result }
        ensures passes { ReadConsumes (R.remaining self.old.inner) (R.remaining self.new.inner) result into.new }
        ensures counts { self.new.faults ≡ (if is_ok result then self.old.faults else one_more self.old.faults) }
    {
        match self.reader.read(into) {
            Ok(count) => Ok(count),
            Err(_) => {
                self.faults = self.faults.saturating_add(1);
                Err(Failed)
            }
        }
    }
}

/// A writer whose failures are counted, up to 2^64 - 1. As a sink it tells nothing of its bytes.
#[derive(Drop)]
pub struct StdSink<W> {
    writer: W,
    faults: u64,
}

impl<W> Model for StdSink<W> {
    ghost use Rattle.ct_outside.specs.Adapters.{Counted};

    ghost Value = { Counted W };

    ghost view = { λ a. record { inner = a.writer; faults = a.faults } };
}

impl<W: Write + Drop> StdSink<W> {
    pub fn new(writer: W) -> StdSink<W>
        ensures { result ≡ record { inner = writer; faults = 0 } }
    {
        StdSink { writer, faults: 0 }
    }
}

impl<W: Write + Drop> Sink for StdSink<W> {
    ghost held = { λ _. None };

    ghost faults = { λ s. s.faults };

    /// Passes one call on to the writer. An error is a failure, and so is a write that takes nothing of a piece that is not empty.
    fn write(&mut self, piece: &[u8]) -> Result<usize, SinkFault>
        ensures bound { IfOk result (λ n. n ≤ length piece.now) }
        ensures some { TakesSome result (length piece.now) }
        ensures bytes { WriteAppends None None result piece.now }
        ensures cause { HasWriteCause self.old.faults self.new.faults result }
        ensures passes { WriteAppends (W.contents self.old.inner) (W.contents self.new.inner) result piece.now }
        ensures fault { IfErr result (λ e. e ≡ SinkFault.Failed) }
        ensures counts { self.new.faults ≡ (if is_ok result then self.old.faults else one_more self.old.faults) }
    {
        match self.writer.write(piece) {
            Ok(count) if count > 0 || piece.is_empty() => Ok(count),
            _ => {
                self.faults = self.faults.saturating_add(1);
                Err(SinkFault::Failed)
            }
        }
    }
}
