//! What is counted in journals.
ghost use Rattle.std.specs.Prelude.{◌≡◌, nat_lt, length};
ghost use Rattle.std.specs.List.{list_all};
ghost use Rattle.ct_frame.specs.Fields.{ascends};
ghost use Rattle.ct_journal.specs.Order.{all_entries, frames_in, is_arrival, numbers_of_calls};
ghost use Rattle.ct_journal_order.specs.Order.{calls_rise, counted, all_counted, tally_of};

use ct_frame::event::{Event, Out};
use ct_journal::journal::{Journal, JournalEntry};

/// Do the numbers of the calls rise strictly?
#[tactic(auto, unfolding(ct_journal::specs::Order::numbers_of_calls))]
fn calls_rise(entries: &[JournalEntry]) -> bool
    ensures { result ≡ ascends nat_lt (numbers_of_calls entries.now) }
{
    let mut last = None;
    for entry in entries {
        if let Event::Client { call, .. } = &entry.event {
            if let Some(before) = last {
                if *call <= before {
                    return false;
                }
            }
            last = Some(*call);
        }
    }
    true
}

/// Do those of each journal?
pub fn all_calls_rise(journals: &[Journal]) -> bool
    ensures { result ≡ list_all calls_rise journals.now }
{
    journals
        .iter()
        .all(|journal| calls_rise(journal.entries.as_slice()))
}

/// How many messages are sent?
#[tactic(auto, unfolding(ct_journal::specs::Order::frames_in))]
fn count_sends(outs: &[Out]) -> usize
    ensures { result ≡ length (frames_in outs.now) }
{
    let mut count = 0;
    for out in outs {
        if let Out::Send(_) = out {
            count += 1;
        }
    }
    count
}

/// Is it the arrival of a message?
#[tactic(auto, unfolding(ct_journal::specs::Order::is_arrival))]
fn is_arrival(event: &Event) -> bool
    ensures { result ≡ is_arrival event.now }
{
    matches!(event, Event::Arrive(_))
}

/// How many entries and messages there are together, how many messages are sent, and how many arrive. Each count stays at
/// 2^64 - 1.
#[derive(Clone, Copy, Debug, PartialEq, Eq)]
pub struct Tally {
    pub all: u64,
    pub sent: u64,
    pub arrived: u64,
}

impl Tally {
    /// Counts an entry.
    fn with_entry(&self, entry: &JournalEntry) -> Tally
        ensures { result ≡ counted entry.now self.now }
    {
        let sent = count_sends(entry.outs.as_slice()) as u64;
        Tally {
            all: self.all.saturating_add(1).saturating_add(sent),
            sent: self.sent.saturating_add(sent),
            arrived: if is_arrival(&entry.event) {
                self.arrived.saturating_add(1)
            } else {
                self.arrived
            },
        }
    }

    /// Counts entries.
    fn with_entries(&self, entries: &[JournalEntry]) -> Tally
        ensures { result ≡ all_counted entries.now self.now }
    {
        let mut tally = *self;
        for entry in entries {
            tally = tally.with_entry(entry);
        }
        tally
    }

    /// Counts the entries of all journals.
    pub fn of(journals: &[Journal]) -> Tally
        ensures { result ≡ tally_of (all_entries journals.now) }
    {
        let mut tally = Tally {
            all: 0,
            sent: 0,
            arrived: 0,
        };
        for journal in journals {
            tally = tally.with_entries(journal.entries.as_slice());
        }
        tally
    }
}
