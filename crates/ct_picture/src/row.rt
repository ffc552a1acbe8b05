//! The lines of a run, each by itself.
ghost use Rattle.std.specs.Prelude.{◌≡◌, ◌<◌, ◌++◌, ◌==◌, map, IfOk, IfSome, OnOk};
ghost use Rattle.std.specs.List.{list_all, list_any, slice_split};
ghost use Rattle.std.specs.Str.{bytes_eq};
ghost use Rattle.ct_picture.specs.Rows.{at_node, if_node, installed, is_at_first, is_at_second, is_beside, has_sign, is_count, is_of_addresses, is_of_commit, is_of_copies, is_of_record, is_of_round, is_of_traverse, is_message, is_printed, is_shown, kind_of, label_of, look_of, node_at, number_at, or_empty, row_of, sent, sent_label, started, stopped, where_number, word_at, words_of};

use ct_spelling::number::parse_decimal;
use ct_values::items::Items;
use ct_values::memory::NoMemory;
use std::alloc::Global;

/// What a message is of, which its colour tells.
#[derive(Clone, Copy)]
pub enum Look {
    Record,
    /// A revocation or a vacuum.
    Copies,
    Round,
    Commit,
    Addresses,
    /// The walk through a database. These messages have numbers of their own.
    Traverse,
}

/// What a line of a run is.
#[derive(Clone, Copy)]
pub enum RowKind {
    /// A message from a node to a node.
    Sent {
        number: u64,
        sender: u8,
        receiver: u8,
        look: Look,
    },
    At {
        node: u8,
    },
    Installed {
        node: u8,
        generation: u64,
    },
    Stopped {
        node: u8,
    },
    Started {
        node: u8,
    },
    /// It tells of no node.
    Beside,
    /// Here another run begins.
    Column,
    /// It counts what was before.
    Across,
}

/// A line of a run, without its line feed, and what is shown of it.
#[derive(Drop)]
pub struct Row {
    pub line: Items<u8>,
    pub label: Items<u8>,
    pub kind: RowKind,
}

fn is_printed(b: u8) -> bool
    ensures { result ≡ is_printed b }
{
    b >= 32 && b <= 126
}

fn is_word(word: &[u8], name: &[u8]) -> bool
    ensures { result ≡ bytes_eq word.now name.now }
{
    word == name
}

#[tactic(auto, unfolding(crate::specs::Rows::is_of_record))]
fn is_of_record(w: &[u8]) -> bool
    ensures { result ≡ is_of_record w.now }
{
    is_word(w, b"call")
        || is_word(w, b"recall")
        || is_word(w, b"give")
        || is_word(w, b"pass")
        || is_word(w, b"grant")
        || is_word(w, b"refuse")
        || is_word(w, b"done")
}

#[tactic(auto, unfolding(crate::specs::Rows::is_of_copies))]
fn is_of_copies(w: &[u8]) -> bool
    ensures { result ≡ is_of_copies w.now }
{
    is_word(w, b"revoke")
        || is_word(w, b"revokeack")
        || is_word(w, b"vstore")
        || is_word(w, b"vstored")
        || is_word(w, b"vdelete")
        || is_word(w, b"vdeleted")
}

#[tactic(auto, unfolding(crate::specs::Rows::is_of_round))]
fn is_of_round(w: &[u8]) -> bool
    ensures { result ≡ is_of_round w.now }
{
    is_word(w, b"freeze")
        || is_word(w, b"freezeack")
        || is_word(w, b"pull")
        || is_word(w, b"pullreply")
        || is_word(w, b"push")
        || is_word(w, b"pushack")
        || is_word(w, b"thaw")
}

#[tactic(auto, unfolding(crate::specs::Rows::is_of_commit))]
fn is_of_commit(w: &[u8]) -> bool
    ensures { result ≡ is_of_commit w.now }
{
    is_word(w, b"pupdate") || is_word(w, b"pack")
}

#[tactic(auto, unfolding(crate::specs::Rows::is_of_addresses))]
fn is_of_addresses(w: &[u8]) -> bool
    ensures { result ≡ is_of_addresses w.now }
{
    is_word(w, b"release") || is_word(w, b"releaseack") || is_word(w, b"take")
}

#[tactic(auto, unfolding(crate::specs::Rows::is_of_traverse))]
fn is_of_traverse(w: &[u8]) -> bool
    ensures { result ≡ is_of_traverse w.now }
{
    is_word(w, b"ask") || is_word(w, b"rows")
}

#[tactic(auto, unfolding(crate::specs::Rows::is_message))]
fn is_message(w: &[u8]) -> bool
    ensures { result ≡ is_message w.now }
{
    is_word(w, b"frame") || is_word(w, b"tframe")
}

fn look_of(w: &[u8]) -> Option<Look>
    ensures { result ≡ look_of w.now }
{
    if is_of_record(w) {
        Some(Look::Record)
    } else if is_of_copies(w) {
        Some(Look::Copies)
    } else if is_of_round(w) {
        Some(Look::Round)
    } else if is_of_commit(w) {
        Some(Look::Commit)
    } else if is_of_addresses(w) {
        Some(Look::Addresses)
    } else if is_of_traverse(w) {
        Some(Look::Traverse)
    } else {
        None
    }
}

#[tactic(auto, unfolding(crate::specs::Rows::is_at_first))]
fn is_at_first(w: &[u8]) -> bool
    ensures { result ≡ is_at_first w.now }
{
    is_word(w, b"vacuumed")
        || is_word(w, b"ended")
        || is_word(w, b"thawed")
        || is_word(w, b"released")
        || is_word(w, b"took")
        || is_word(w, b"yielded")
}

#[tactic(auto, unfolding(crate::specs::Rows::is_at_second))]
fn is_at_second(w: &[u8]) -> bool
    ensures { result ≡ is_at_second w.now }
{
    is_word(w, b"ticket") || is_word(w, b"pending") || is_word(w, b"pending-traverse")
}

#[tactic(auto, unfolding(crate::specs::Rows::is_beside))]
fn is_beside(w: &[u8]) -> bool
    ensures { result ≡ is_beside w.now }
{
    is_word(w, b"answer")
        || is_word(w, b"lost")
        || is_word(w, b"round")
        || is_word(w, b"tlost")
        || is_word(w, b"traverse")
}

#[tactic(auto, unfolding(crate::specs::Rows::is_count))]
fn is_count(w: &[u8]) -> bool
    ensures { result ≡ is_count w.now }
{
    is_word(w, b"cluster") || is_word(w, b"loopback") || is_word(w, b"chains")
}

fn has_sign(w: &[u8]) -> bool
    ensures { result ≡ has_sign w.now }
{
    w.iter().any(|b| *b == b':' || *b == b'.' || *b == b'=')
}

#[tactic(auto, unfolding(crate::specs::Rows::is_shown))]
fn is_shown(w: &[u8]) -> bool
    ensures { result ≡ is_shown w.now }
{
    is_word(w, b"node")
        || is_word(w, b"Public")
        || is_word(w, b"Dumped")
        || is_word(w, b"Number")
        || is_word(w, b"Recovery")
        || is_word(w, b"Sequence")
        || has_sign(w)
}

/// The parts of a text, cut at each byte of this kind.
pub fn cut<'a>(alloc: Global, text: &'a [u8], at: u8) -> Result<Vec<&'a [u8]>, NoMemory>
    ensures { IfOk result (λ v. map (λ w. w.now) v.items ≡ slice_split (λ b. b == at) text.now) }
{
    Ok(text.split(|b| *b == at).collect(alloc)?)
}

/// The word at a place, empty where there is none.
pub fn word_at<'a>(words: &[&'a [u8]], i: usize) -> &'a [u8]
    ensures { result.now ≡ word_at (map (λ w. w.now) words.now) i }
{
    match words.get(i) {
        Some(word) => *word,
        None => &[],
    }
}

fn number_at(words: &[&[u8]], i: usize) -> Option<u64>
    ensures { result ≡ number_at (map (λ w. w.now) words.now) i }
{
    parse_decimal(word_at(words, i))
}

fn node_at(words: &[&[u8]], i: usize) -> Option<u8>
    ensures { result ≡ node_at (map (λ w. w.now) words.now) i }
{
    match number_at(words, i) {
        Some(n) if n < 16 => Some(n as u8),
        _ => None,
    }
}

fn sent(words: &[&[u8]]) -> Option<RowKind>
    ensures { result ≡ (let ws = map (λ w. w.now) words.now in sent (number_at ws 1) (node_at ws 2) (node_at ws 3) (number_at ws 4) (look_of (word_at ws 5))) }
{
    let number = number_at(words, 1)?;
    let sender = node_at(words, 2)?;
    let receiver = node_at(words, 3)?;
    let _generation = number_at(words, 4)?;
    let look = look_of(word_at(words, 5))?;
    Some(RowKind::Sent {
        number,
        sender,
        receiver,
        look,
    })
}

fn at_node(node: Option<u8>) -> Option<RowKind>
    ensures { result ≡ at_node node }
{
    Some(RowKind::At { node: node? })
}

fn installed(node: Option<u8>, generation: Option<u64>) -> Option<RowKind>
    ensures { result ≡ installed node generation }
{
    Some(RowKind::Installed {
        node: node?,
        generation: generation?,
    })
}

fn stopped(node: Option<u8>) -> Option<RowKind>
    ensures { result ≡ stopped node }
{
    Some(RowKind::Stopped { node: node? })
}

fn started(node: Option<u8>) -> Option<RowKind>
    ensures { result ≡ started node }
{
    Some(RowKind::Started { node: node? })
}

fn where_number(number: Option<u64>, kind: RowKind) -> Option<RowKind>
    ensures { result ≡ where_number number kind }
{
    match number {
        Some(_) => Some(kind),
        None => None,
    }
}

/// What a line of these words is, if it is one of a run.
#[tactic(auto, unfolding(crate::specs::Rows::kind_of))]
fn kind_of(words: &[&[u8]]) -> Option<RowKind>
    ensures { result ≡ kind_of (map (λ w. w.now) words.now) }
{
    let w = word_at(words, 0);
    if is_message(w) {
        sent(words)
    } else if is_at_first(w) {
        at_node(node_at(words, 1))
    } else if is_at_second(w) {
        at_node(node_at(words, 2))
    } else if is_word(w, b"installed") {
        installed(node_at(words, 1), number_at(words, 2))
    } else if is_word(w, b"stopped") {
        stopped(node_at(words, 1))
    } else if is_word(w, b"started") {
        started(node_at(words, 1))
    } else if is_beside(w) {
        where_number(number_at(words, 1), RowKind::Beside)
    } else if is_word(w, b"column") {
        where_number(number_at(words, 1), RowKind::Column)
    } else if is_count(w) {
        where_number(number_at(words, 1), RowKind::Across)
    } else if is_shown(w) {
        Some(RowKind::Beside)
    } else {
        None
    }
}

/// A piece of text at the end of a text.
pub fn push(text: &mut Vec<u8>, more: &[u8]) -> Result<(), NoMemory>
    ensures { OnOk result (text.new.items ≡ text.old.items ++ more.now) }
{
    text.extend_from_slice(more)?;
    Ok(())
}

/// A text of its own.
pub fn copy_of(alloc: Global, line: &[u8]) -> Result<Items<u8>, NoMemory>
    ensures { IfOk result (λ x. x ≡ line.now) }
{
    let mut text = Vec::new(alloc);
    push(&mut text, line)?;
    Ok(Items::new(text))
}

fn sent_label(alloc: Global, words: &[&[u8]]) -> Result<Items<u8>, NoMemory>
    ensures { IfOk result (λ x. x ≡ sent_label (map (λ w. w.now) words.now)) }
{
    let mut text = Vec::new(alloc);
    push(&mut text, word_at(words, 1))?;
    push(&mut text, b" ")?;
    push(&mut text, word_at(words, 5))?;
    push(&mut text, b" ")?;
    push(&mut text, word_at(words, 6))?;
    push(&mut text, b" ")?;
    push(&mut text, word_at(words, 7))?;
    Ok(Items::new(text))
}

fn label_of(
    alloc: Global,
    kind: RowKind,
    words: &[&[u8]],
    line: &[u8],
) -> Result<Items<u8>, NoMemory>
    requires { map (λ w. w.now) words.now ≡ words_of line.now }
    ensures { IfOk result (λ x. x ≡ label_of kind line.now) }
{
    match kind {
        RowKind::Sent { .. } => sent_label(alloc, words),
        RowKind::At { .. } => copy_of(alloc, line),
        RowKind::Installed { .. } => copy_of(alloc, line),
        RowKind::Stopped { .. } => copy_of(alloc, line),
        RowKind::Started { .. } => copy_of(alloc, line),
        RowKind::Beside => copy_of(alloc, line),
        RowKind::Column => copy_of(alloc, line),
        RowKind::Across => copy_of(alloc, line),
    }
}

fn are_printed(line: &[u8]) -> bool
    ensures { result ≡ list_all is_printed line.now }
{
    line.iter().all(|b| is_printed(*b))
}

/// The row of a line without its line feed. None where it has a byte that is not printed, or is no line of a run.
#[tactic(auto, unfolding(crate::specs::Rows::row_of))]
pub fn row_of(alloc: Global, line: &[u8]) -> Result<Option<Row>, NoMemory>
    ensures { IfOk result (λ r. r ≡ row_of line.now) }
{
    if !are_printed(line) {
        return Ok(None);
    }
    let words = cut(alloc, line, b' ')?;
    let Some(kind) = kind_of(&words) else {
        return Ok(None);
    };
    let label = label_of(alloc, kind, &words, line)?;
    let line = copy_of(alloc, line)?;
    Ok(Some(Row { line, label, kind }))
}
