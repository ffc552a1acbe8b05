//! A source and a sink in memory, of whose calls those fail that are named before.
ghost use Rattle.std.specs.Prelude.{◌≡◌, ◌≤◌, ℕ, List, [], Some, length, IfOk};
ghost use Rattle.std.specs.Io.{ReadsAtMost};
ghost use Rattle.std.specs.Io.KnownBytes.{ReadConsumes, WriteAppends};
ghost use Rattle.ct_outside.specs.Causes.{HasCause, HasWriteCause, TakesSome};
ghost use Rattle.ct_outside.specs.Memory.{called, next_fails, no_calls, Reads, Writes};

use crate::fault::{Failed, SinkFault};
use crate::sink::Sink;
use crate::source::Source;
use std::alloc::Global;
use std::marker::Model;

/// The calls so far. Both counts stop at 2^64 - 1.
#[derive(Debug, Drop)]
pub(crate) struct Counter {
    made: u64,
    faults: u64,
    fail_at: Vec<u64>,
}

impl Model for Counter {
    ghost use Rattle.ct_outside.specs.Memory.{Calls};

    ghost Value = { Calls };

    ghost view = { λ a. record { made = a.made; faults = a.faults; fail_at = a.fail_at.items } };
}

impl Counter {
    pub(crate) fn new(fail_at: Vec<u64>) -> Counter
        ensures { result ≡ no_calls fail_at.items }
    {
        Counter {
            made: 0,
            faults: 0,
            fail_at,
        }
    }

    /// Counts a call. Is it one that fails?
    pub(crate) fn fails(&mut self) -> bool
        ensures answer { result ≡ next_fails self.old }
        ensures counted { self.new ≡ called self.old }
        ensures later { self.old.faults ≤ self.new.faults }
    {
        self.made = self.made.saturating_add(1);
        let fails = self.fail_at.contains(&self.made);
        if fails {
            self.faults = self.faults.saturating_add(1);
        }
        fails
    }
}

/// A source that reads from memory, and tells what is left.
#[derive(Debug, Drop)]
pub struct MemSource {
    bytes: Vec<u8>,
    taken: usize,
    counter: Counter,
}

impl Model for MemSource {
    ghost use Rattle.std.specs.Prelude.{◌≤◌, drop, length};
    ghost use Rattle.ct_outside.specs.Memory.{Reading};

    ghost Value = { Reading };

    ghost view = { λ a. record { left = drop a.taken a.bytes.items; calls = a.counter } };

    ghost invariant = { λ a. a.taken ≤ length a.bytes.items };
}

impl MemSource {
    /// A source of these bytes. The calls whose numbers, counted from 1, stand in `fail_at` fail.
    pub fn new(bytes: Vec<u8>, fail_at: Vec<u64>) -> MemSource
        ensures { result ≡ record { left = bytes.items; calls = no_calls fail_at.items } }
    {
        MemSource {
            bytes,
            taken: 0,
            counter: Counter::new(fail_at),
        }
    }
}

impl Source for MemSource {
    ghost left = { λ s. Some s.left };

    ghost faults = { λ s. s.calls.faults };

    /// Takes all that is left and fits.
    fn read(&mut self, into: &mut [u8]) -> Result<usize, Failed>
        ensures bound { ReadsAtMost result into.new }
        ensures bytes { ReadConsumes (Some self.old.left) (Some self.new.left) result into.new }
        ensures cause { HasCause self.old.calls.faults self.new.calls.faults result }
        ensures reads { Reads result self.old self.new into.old into.new }
        ensures none_named { self.old.calls.fail_at ≡ [] → self.new.calls.faults ≡ self.old.calls.faults }
    {
        if self.counter.fails() {
            return Err(Failed);
        }
        let count = into.len().min(self.bytes.len() - self.taken);
        let end = self.taken + count;
        into[..count].copy_from_slice(&self.bytes[self.taken..end]);
        self.taken = end;
        Ok(count)
    }
}

/// A sink that keeps in memory what is written, and tells it.
#[derive(Debug)]
pub struct MemSink {
    bytes: Vec<u8>,
    counter: Counter,
}

impl Drop for MemSink {
    /// All that it holds is let go.
    fn drop(self) {
        let MemSink {
            bytes: _,
            counter: _,
        } = self;
    }
}

impl Model for MemSink {
    ghost use Rattle.ct_outside.specs.Memory.{Writing};

    ghost Value = { Writing };

    ghost view = { λ a. record { held = a.bytes.items; calls = a.counter } };
}

impl MemSink {
    /// A sink that holds nothing. The calls whose numbers, counted from 1, stand in `fail_at` fail.
    pub fn new(alloc: Global, fail_at: Vec<u64>) -> MemSink
        ensures { result ≡ record { held = []; calls = no_calls fail_at.items } }
    {
        MemSink {
            bytes: Vec::new(alloc),
            counter: Counter::new(fail_at),
        }
    }

    /// What was written.
    pub fn held(&self) -> &[u8]
        ensures { result.now ≡ self.now.held }
    {
        self.bytes.as_slice()
    }
}

impl Sink for MemSink {
    ghost held = { λ s. Some s.held };

    ghost faults = { λ s. s.calls.faults };

    /// Takes all of the piece. Want of memory is no fault, and counts as a call.
    fn write(&mut self, piece: &[u8]) -> Result<usize, SinkFault>
        ensures bound { IfOk result (λ n. n ≤ length piece.now) }
        ensures some { TakesSome result (length piece.now) }
        ensures bytes { WriteAppends (Some self.old.held) (Some self.new.held) result piece.now }
        ensures cause { HasWriteCause self.old.calls.faults self.new.calls.faults result }
        ensures writes { Writes result self.old self.new piece.now }
        ensures none_named { self.old.calls.fail_at ≡ [] → self.new.calls.faults ≡ self.old.calls.faults }
    {
        if self.counter.fails() {
            return Err(SinkFault::Failed);
        }
        self.bytes.extend_from_slice(piece)?;
        Ok(piece.len())
    }
}
