//! The text of an answer.
ghost use Rattle.std.specs.Prelude.{◌≡◌, ◌++◌, codes, OnOk};
ghost use Rattle.std.specs.Fmt.{decimal};
ghost use Rattle.ct_text.specs.Answer.{answer_text, why_text};
ghost use Rattle.ct_text.specs.Words.{items_text};

use crate::words::{push, push_number, push_numbers, push_value};
use ct_values::client::{Answer, Why};
use ct_values::memory::NoMemory;

fn push_why(text: &mut Vec<u8>, why: &Why) -> Result<(), NoMemory>
    ensures { OnOk result (text.new.items ≡ text.old.items ++ why_text why.now) }
{
    match why {
        Why::NoSuchDb => push(text, b"no-such-db"),
        Why::WrongKind => push(text, b"wrong-kind"),
        Why::NotServing => push(text, b"not-serving"),
        Why::CallPending(call) => push_number(text, b"call-pending ", *call),
        Why::CommitPending => push(text, b"commit-pending"),
        Why::AlreadyLocked => push(text, b"already-locked"),
        Why::NotLocked => push(text, b"not-locked"),
        Why::NoSuchCall => push(text, b"no-such-call"),
        Why::Full => push(text, b"full"),
        Why::TooLong(length) => push_number(text, b"too-long ", *length),
    }
}

fn push_unsure(text: &mut Vec<u8>, seq: u64, missing: &[u32]) -> Result<(), NoMemory>
    ensures { OnOk result (text.new.items ≡ text.old.items ++ (codes "unsure " ++ decimal seq ++ codes " " ++ items_text decimal missing.now)) }
{
    push_number(text, b"unsure ", seq)?;
    push(text, b" ")?;
    push_numbers(text, missing)
}

fn push_refused(text: &mut Vec<u8>, why: &Why) -> Result<(), NoMemory>
    ensures { OnOk result (text.new.items ≡ text.old.items ++ (codes "refused " ++ why_text why.now)) }
{
    push(text, b"refused ")?;
    push_why(text, why)
}

/// The text of an answer, at the end of a text.
pub fn push_answer(text: &mut Vec<u8>, answer: &Answer) -> Result<(), NoMemory>
    ensures { OnOk result (text.new.items ≡ text.old.items ++ answer_text answer.now) }
{
    match answer {
        Answer::Locked(value) => push_value(text, b"locked ", value.bytes()),
        Answer::Read(value) => push_value(text, b"read ", value.bytes()),
        Answer::Written => push(text, b"written"),
        Answer::Applied(value) => push_value(text, b"applied ", value.bytes()),
        Answer::Stored => push(text, b"stored"),
        Answer::Unlocked => push(text, b"unlocked"),
        Answer::Committed(seq) => push_number(text, b"committed ", *seq),
        Answer::Unsure { seq, missing } => push_unsure(text, *seq, missing.as_slice()),
        Answer::Refused(why) => push_refused(text, why),
    }
}
