//! Which items of its script a node has taken, and which one it may take next.
ghost use Rattle.std.specs.Prelude.{◌≡◌, ◌<◌, ◌^◌, None, Some, MatchOption};
ghost use Rattle.std.specs.List.{list_any};
ghost use Rattle.ct_script.specs.Cues.{begun, cue_after, first_cue, greatest_call, is_answer_to, next_item, unanswered};

use crate::plan::PlanItem;
use ct_frame::event::{Event, Out};
use ct_journal::journal::JournalEntry;

/// How far a node is in its script.
#[derive(Clone, Copy, Debug, PartialEq, Eq)]
pub struct Cue {
    /// How many items it has taken.
    pub taken: usize,
    /// The number of the last call that its journal has, and 0 where it has none.
    pub calls: u64,
    /// The last call of the script, where it is still to be answered.
    pub waits: Option<u64>,
}

/// The greatest number of a call in these entries, and 0 where there is none.
#[tactic(auto, unfolding(crate::specs::Cues::greatest_call, crate::specs::Cues::number_of_call))]
fn greatest_call(entries: &[JournalEntry]) -> u64
    ensures { result ≡ greatest_call entries.now }
{
    let mut greatest = 0;
    for entry in entries {
        if let Event::Client { call, .. } = &entry.event {
            if greatest < *call {
                greatest = *call;
            }
        }
    }
    greatest
}

/// Is it the answer to this call?
#[tactic(auto, unfolding(crate::specs::Cues::is_answer_to))]
fn is_answer_to(call: u64, out: &Out) -> bool
    ensures { result ≡ is_answer_to call out.now }
{
    match out {
        Out::Answer { call: number, .. } => *number == call,
        _ => false,
    }
}

/// Is the call answered here?
fn answers(call: u64, outs: &[Out]) -> bool
    ensures { result ≡ list_any (is_answer_to call) outs.now }
{
    outs.iter().any(|out| is_answer_to(call, out))
}

/// The call that still waits once a node has done all this.
#[tactic(auto, unfolding(crate::specs::Cues::unanswered))]
fn unanswered(outs: &[Out], waits: Option<u64>) -> Option<u64>
    ensures { result ≡ unanswered outs.now waits }
{
    match waits {
        None => None,
        Some(call) => {
            if answers(call, outs) {
                None
            } else {
                Some(call)
            }
        }
    }
}

impl Cue {
    /// The cue of a node with these entries before it takes the first item of its script.
    #[tactic(auto, unfolding(crate::specs::Cues::first_cue))]
    pub fn first(entries: &[JournalEntry]) -> Cue
        ensures { result ≡ first_cue entries.now }
    {
        Cue {
            taken: 0,
            calls: greatest_call(entries),
            waits: None,
        }
    }

    /// An event has come, and nothing is done yet.
    #[tactic(auto, unfolding(crate::specs::Cues::begun))]
    fn begin(&mut self, event: &Event)
        requires fits { (begun event.now self.old).taken < 2 ^ 64 }
        ensures { self.new ≡ begun event.now self.old }
    {
        match event {
            Event::Client { call, .. } => {
                self.taken += 1;
                self.calls = *call;
                self.waits = Some(*call);
            }
            Event::BeginRound { .. } => self.taken += 1,
            _ => {}
        }
    }

    /// An event has come to the node, which did all this then. The number of items that it has taken is to stay below 2^64.
    #[tactic(auto, unfolding(crate::specs::Cues::cue_after))]
    pub fn follow(&mut self, event: &Event, outs: &[Out])
        requires fits { (begun event.now self.old).taken < 2 ^ 64 }
        ensures { self.new ≡ cue_after (record { event = event.now; outs = outs.now }) self.old }
    {
        self.begin(event);
        self.waits = unanswered(outs, self.waits);
    }

    /// The item of the script that the node may take next: none, where none is left, or where the last call that it took is
    /// still to be answered.
    #[tactic(auto, unfolding(crate::specs::Cues::next_item, crate::specs::Cues::item_unless))]
    pub fn next<'a>(&self, script: &'a [PlanItem]) -> Option<&'a PlanItem>
        ensures { MatchOption result (next_item script.now self.now ≡ None) (λ item. next_item script.now self.now ≡ Some item.now) }
    {
        match self.waits {
            None => script.get(self.taken),
            Some(_) => None,
        }
    }
}
