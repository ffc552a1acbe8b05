//! Why a line is refused, as text.
ghost use Rattle.std.specs.Prelude.{◌≡◌, ◌++◌, OnOk};
ghost use Rattle.ct_play_text.specs.Text.{kind_text, what_text};

use crate::what::What;
use ct_lines::line::LineKind;
use ct_text::words::{push, push_number};
use ct_values::memory::NoMemory;

fn push_kind(text: &mut Vec<u8>, kind: LineKind) -> Result<(), NoMemory>
    ensures { OnOk result (text.new.items ≡ text.old.items ++ kind_text kind) }
{
    match kind {
        LineKind::Long => push(text, b"long"),
        LineKind::Unended => push(text, b"unended"),
        LineKind::Words => push(text, b"words"),
        LineKind::Order => push(text, b"order"),
        LineKind::Repeat => push(text, b"repeat"),
        LineKind::Limit => push(text, b"limit"),
    }
}

/// Why a line of the input is refused.
pub fn push_what(text: &mut Vec<u8>, what: What) -> Result<(), NoMemory>
    ensures { OnOk result (text.new.items ≡ text.old.items ++ what_text what) }
{
    match what {
        What::Line(kind) => push_kind(text, kind),
        What::NoSuchNode(node) => push_number(text, b"no-such-node ", u64::from(node)),
        What::NodeDown(node) => push_number(text, b"node-down ", u64::from(node)),
        What::NodeUp(node) => push_number(text, b"node-up ", u64::from(node)),
        What::NoSuchDb => push(text, b"no-such-db"),
        What::WrongKind => push(text, b"wrong-kind"),
        What::NotServing(node) => push_number(text, b"not-serving ", u64::from(node)),
        What::NotLeader(node) => push_number(text, b"not-leader ", u64::from(node)),
        What::NoSuchFrame(number) => push_number(text, b"no-such-frame ", number),
        What::NoSuchTframe(number) => push_number(text, b"no-such-tframe ", number),
        What::NotMember(node) => push_number(text, b"not-member ", u64::from(node)),
        What::LockHeld(node) => push_number(text, b"lock-held ", u64::from(node)),
        What::NotHolder => push(text, b"not-holder"),
        What::Exhausted => push(text, b"exhausted"),
    }
}
