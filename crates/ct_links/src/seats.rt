//! The book of the recovery lock, shared by threads.
ghost use Rattle.std.specs.Prelude.{◌≡◌, ◌≤◌, ℕ, None};
ghost use Rattle.ct_outside.specs.Locks.{is_release_failure, is_release_refusal, is_take_failure, is_take_refusal};
ghost use Rattle.ct_outside.specs.MemoryLock.{refused_more};
ghost use Rattle.ct_outside.specs.Told.{RisesWhere};

use crate::book::Book;
use ct_outside::fault::{ReleaseFault, TakeFault};
use ct_outside::lock::RecLock;
use std::alloc::Global;
use std::marker::Model;
use std::sync::{Mutex, Wait};

/// A book behind a lock of threads.
#[derive(Drop)]
pub struct LockBook<R> {
    rt: R,
    book: Mutex<Book>,
}

impl<R> LockBook<R> {
    /// The book of a free lock. Takes no memory.
    pub fn new(rt: R, alloc: Global) -> LockBook<R> {
        LockBook {
            rt,
            book: Mutex::new(Book::new(alloc)),
        }
    }

    /// A seat at the book.
    pub fn seat(&self) -> BookSeat<'_, R>
        ensures { result ≡ 0 }
    {
        BookSeat {
            book: self,
            refusals: 0,
        }
    }
}

/// One thread's way to the book. It tells no holder and no ticket, since others take between two calls.
#[derive(Drop)]
pub struct BookSeat<'a, R> {
    book: &'a LockBook<R>,
    refusals: u64,
}

impl<'a, R> Model for BookSeat<'a, R> {
    ghost use Rattle.std.specs.Prelude.{ℕ};

    ghost Value = { ℕ };

    ghost view = { λ a. a.refusals };
}

impl<'a, R: Wait> RecLock for BookSeat<'a, R> {
    ghost state = { λ _. None };

    ghost faults = { λ _. 0 };

    ghost refusals = { λ s. s };

    /// One call of the book, under one hold of its lock.
    fn take(&mut self, node: u32) -> Result<u64, TakeFault>
        ensures cause { RisesWhere (is_take_failure result) 0 0 }
        ensures refused { RisesWhere (is_take_refusal result) self.old self.new }
        ensures counts { self.new ≡ refused_more (is_take_refusal result) self.old }
    {
        let answer = self.book.book.lock(&self.book.rt).take(node);
        if let Err(TakeFault::Held { .. } | TakeFault::Exhausted) = answer {
            self.refusals = self.refusals.saturating_add(1);
        }
        answer
    }

    /// One call of the book, under one hold of its lock.
    fn release(&mut self, node: u32) -> Result<(), ReleaseFault>
        ensures cause { RisesWhere (is_release_failure result) 0 0 }
        ensures refused { RisesWhere (is_release_refusal result) self.old self.new }
        ensures counts { self.new ≡ refused_more (is_release_refusal result) self.old }
    {
        let answer = self.book.book.lock(&self.book.rt).release(node);
        if let Err(ReleaseFault::NotHolder(_)) = answer {
            self.refusals = self.refusals.saturating_add(1);
        }
        answer
    }
}
