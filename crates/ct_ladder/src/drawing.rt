//! Draws a ladder.
ghost use Rattle.std.specs.Prelude.{◌≡◌, ◌≤◌, ◌<◌, ◌+◌, ◌++◌, ◌∷◌, [], codes, length, map, replicate, IfOk, IfSome, OnOk};
ghost use Rattle.std.specs.Fmt.{decimal};
ghost use Rattle.std.specs.List.{flat_map, range_with_len};
ghost use Rattle.ct_picture.specs.Claims.{AllInside};
ghost use Rattle.ct_picture.specs.Drawing.{fresh};
ghost use Rattle.ct_ladder.specs.Drawing.{arrow, back_of, begun_at, beside, came_count, counts_from, end_x, end_y, endings_of, groups_from, heading, is_walk, label, ladder_of, lifeline, line_count, nodes_at, nodes_from, noted, under_way, said_group, sent_at, shapes_at, shown_groups, strips, table_from, told_by, told_group, with_ending};

use crate::rung::{Counts, Ending, Fate, Rung, Shown};
use ct_picture::drawing::{
    add, add_group, begun, fresh, label_x, name_of, nodes_in, shapes_of, short, strip, words, x_of,
    y_of,
};
use ct_picture::row::{Look, Row, RowKind, copy_of, push};
use ct_picture::shape::{Group, Hand, Lane, Picture, Shape, Tip};
use ct_spelling::number::push_decimal;
use ct_values::items::Items;
use ct_values::memory::NoMemory;
use std::alloc::Global;

/// Puts an ending behind those of its message. A message that was never sent has none.
fn with_ending(table: &mut Vec<Items<Ending>>, number: u64, ending: Ending) -> Result<(), NoMemory>
    ensures { OnOk result (table.new.items ≡ with_ending number ending table.old.items) }
{
    let number = number as usize;
    if number < table.len() {
        table[number].push(ending)?;
    }
    Ok(())
}

/// What row i tells of a message goes behind what was told of it.
fn noted(table: &mut Vec<Items<Ending>>, i: u32, fate: Fate) -> Result<(), NoMemory>
    ensures { OnOk result (table.new.items ≡ noted i fate table.old.items) }
{
    match fate {
        Fate::Still => Ok(()),
        Fate::Came { number } => with_ending(
            table,
            number,
            Ending {
                at: i,
                tip: Tip::Head,
            },
        ),
        Fate::CameAgain { number } => with_ending(
            table,
            number,
            Ending {
                at: i,
                tip: Tip::Again,
            },
        ),
        Fate::Lost { number } => with_ending(
            table,
            number,
            Ending {
                at: i,
                tip: Tip::Cross,
            },
        ),
    }
}

/// For each number that a message of so many rows may have, that nothing is told of it.
#[tactic(auto, using(std::proofs::lemmas::Grind::replicate_next))]
fn untold(alloc: Global, rows: usize) -> Result<Vec<Items<Ending>>, NoMemory>
    requires { rows < 4294967296 }
    ensures { IfOk result (λ v. v.items ≡ replicate (rows + 1) []) }
{
    let mut table = Vec::new(alloc);
    let most = rows + 1;
    for _row in 0..most {
        table.push(Items::empty(alloc))?;
    }
    Ok(table)
}

/// For each message, what the rows tell of it.
fn table_of(alloc: Global, rungs: &[Rung]) -> Result<Vec<Items<Ending>>, NoMemory>
    requires { length rungs.now < 4294967296 }
    ensures { IfOk result (λ v. v.items ≡ table_from 0 (replicate (length rungs.now + 1) []) rungs.now) }
{
    let mut table = untold(alloc, rungs.len())?;
    let mut i = 0u32;
    for rung in rungs {
        noted(&mut table, i, rung.fate)?;
        i += 1;
    }
    Ok(table)
}

/// Beside the receiver's lifeline, on the sender's side.
fn beside(sender: u32, receiver: u32) -> u64
    ensures { result ≡ beside sender receiver }
{
    let x = x_of(receiver);
    if sender < receiver { x - 55 } else { x + 55 }
}

fn end_x(sender: u32, receiver: u32, tip: Tip) -> u64
    ensures { result ≡ end_x sender receiver tip }
{
    match tip {
        Tip::Head => x_of(receiver),
        Tip::Again => x_of(receiver),
        Tip::Cross => beside(sender, receiver),
        Tip::Open => beside(sender, receiver),
    }
}

fn end_y(ending: Ending) -> u64
    ensures { result ≡ end_y ending }
{
    match ending.tip {
        Tip::Head => y_of(u64::from(ending.at)),
        Tip::Again => y_of(u64::from(ending.at)),
        Tip::Cross => y_of(u64::from(ending.at)) + 12,
        Tip::Open => y_of(u64::from(ending.at)) + 18,
    }
}

fn arrow(i: u32, sender: u32, receiver: u32, look: Look, ending: Ending) -> Shape
    ensures { result ≡ arrow i sender receiver look ending }
{
    if sender == receiver {
        Shape::Turn {
            x: x_of(sender),
            y1: y_of(u64::from(i)),
            far: x_of(sender) + 30,
            y2: end_y(ending),
            look,
            tip: ending.tip,
        }
    } else {
        Shape::Arrow {
            x1: x_of(sender),
            y1: y_of(u64::from(i)),
            x2: end_x(sender, receiver, ending.tip),
            y2: end_y(ending),
            look,
            tip: ending.tip,
        }
    }
}

/// The arrow of a message that was sent in row i and never ended: it is under way.
#[tactic(auto, using(crate::proofs::Inside::ended_some))]
fn under_way(
    shapes: &mut Vec<Shape>,
    i: u32,
    sender: u32,
    receiver: u32,
    look: Look,
    endings: &[Ending],
) -> Result<(), NoMemory>
    ensures { OnOk result (shapes.new.items ≡ shapes.old.items ++ under_way i sender receiver look endings.now) }
{
    if !endings.is_empty() {
        return Ok(());
    }
    let ending = Ending {
        at: i,
        tip: Tip::Open,
    };
    add(shapes, arrow(i, sender, receiver, look, ending))
}

/// The arrows of a message, one for each time that it ended.
fn arrows(
    shapes: &mut Vec<Shape>,
    i: u32,
    sender: u32,
    receiver: u32,
    look: Look,
    endings: &[Ending],
) -> Result<(), NoMemory>
    ensures { OnOk result (shapes.new.items ≡ shapes.old.items ++ map (arrow i sender receiver look) endings.now) }
{
    for ending in endings {
        add(shapes, arrow(i, sender, receiver, look, *ending))?;
    }
    Ok(())
}

/// What is told of the message of this number.
fn endings_of(table: &[Items<Ending>], number: u64) -> &[Ending]
    ensures { result.now ≡ endings_of table.now number }
{
    match table.get(number as usize) {
        Some(endings) => endings.as_slice(),
        None => &[],
    }
}

/// The label of a message, beside its sender.
fn label(
    shapes: &mut Vec<Shape>,
    i: u32,
    sender: u32,
    receiver: u32,
    text: Items<u8>,
) -> Result<(), NoMemory>
    ensures { OnOk result (shapes.new.items ≡ shapes.old.items ++ label i sender receiver text ∷ []) }
{
    let y = y_of(u64::from(i));
    if sender == receiver {
        words(shapes, x_of(sender) + 30, y + 16, Hand::Start, text)
    } else {
        words(shapes, label_x(sender, receiver), y + 7, Hand::Middle, text)
    }
}

/// A message.
#[tactic(auto, unfolding(crate::specs::Drawing::sent_at))]
fn sent_at(
    shapes: &mut Vec<Shape>,
    i: u32,
    sender: u32,
    receiver: u32,
    look: Look,
    endings: &[Ending],
    text: Items<u8>,
) -> Result<(), NoMemory>
    ensures { OnOk result (shapes.new.items ≡ shapes.old.items ++ sent_at i sender receiver look endings.now text) }
{
    under_way(shapes, i, sender, receiver, look, endings)?;
    arrows(shapes, i, sender, receiver, look, endings)?;
    label(shapes, i, sender, receiver, text)
}

/// Is the message one of a walk through a database? These have numbers of their own, so nothing is told of them.
fn is_walk(look: Look) -> bool
    ensures { result ≡ is_walk look }
{
    match look {
        Look::Traverse => true,
        Look::Record => false,
        Look::Copies => false,
        Look::Round => false,
        Look::Commit => false,
        Look::Addresses => false,
    }
}

/// The shapes of a line of the run in row i.
fn shapes_at(
    alloc: Global,
    i: u32,
    table: &[Items<Ending>],
    kind: RowKind,
    text: &[u8],
) -> Result<Vec<Shape>, NoMemory>
    ensures { IfOk result (λ v. v.items ≡ shapes_at i table.now kind text.now) }
{
    let y = u64::from(i);
    match kind {
        RowKind::Sent {
            number,
            sender,
            receiver,
            look,
        } => {
            if is_walk(look) {
                return shapes_of(alloc, y, kind, text);
            }
            let mut shapes = Vec::new(alloc);
            let endings = endings_of(table, number);
            let text = short(alloc, text)?;
            sent_at(
                &mut shapes,
                i,
                u32::from(sender),
                u32::from(receiver),
                look,
                endings,
                text,
            )?;
            Ok(shapes)
        }
        RowKind::At { .. } => shapes_of(alloc, y, kind, text),
        RowKind::Installed { .. } => shapes_of(alloc, y, kind, text),
        RowKind::Stopped { .. } => shapes_of(alloc, y, kind, text),
        RowKind::Started { .. } => shapes_of(alloc, y, kind, text),
        RowKind::Beside => shapes_of(alloc, y, kind, text),
        RowKind::Column => shapes_of(alloc, y, kind, text),
        RowKind::Across => shapes_of(alloc, y, kind, text),
    }
}

/// A line of the run as one element, whose title it is.
#[tactic(auto, unfolding(crate::specs::Drawing::told_group))]
fn told_group(alloc: Global, i: u32, table: &[Items<Ending>], row: &Row) -> Result<Group, NoMemory>
    ensures { IfOk result (λ g. g ≡ told_group i table.now row.now) }
{
    let shapes = shapes_at(alloc, i, table, row.kind, row.label.as_slice())?;
    let title = copy_of(alloc, row.line.as_slice())?;
    Ok(Group {
        title,
        shapes: Items::new(shapes),
    })
}

/// A line of the scenario as one element, whose title it is.
#[tactic(auto, unfolding(crate::specs::Drawing::said_group))]
fn said_group(alloc: Global, i: u32, said: &[u8]) -> Result<Group, NoMemory>
    ensures { IfOk result (λ g. g ≡ said_group i said.now) }
{
    let mut shapes = Vec::new(alloc);
    let label = short(alloc, said)?;
    words(&mut shapes, 10, y_of(u64::from(i)) + 16, Hand::Said, label)?;
    let title = copy_of(alloc, said)?;
    Ok(Group {
        title,
        shapes: Items::new(shapes),
    })
}

/// What stands in row i.
fn push_shown(
    alloc: Global,
    groups: &mut Vec<Group>,
    i: u32,
    table: &[Items<Ending>],
    shown: &Shown,
) -> Result<(), NoMemory>
    ensures { OnOk result (groups.new.items ≡ groups.old.items ++ shown_groups i table.now shown.now) }
{
    match shown {
        Shown::Nothing => Ok(()),
        Shown::Told(row) => add_group(groups, told_group(alloc, i, table, row)?),
        Shown::Said(said) => add_group(groups, said_group(alloc, i, said.as_slice())?),
    }
}

fn groups_of(alloc: Global, table: &[Items<Ending>], rungs: &[Rung]) -> Result<Vec<Group>, NoMemory>
    requires { length rungs.now < 4294967296 }
    ensures { IfOk result (λ v. v.items ≡ groups_from 0 table.now rungs.now) }
{
    let mut groups = Vec::new(alloc);
    let mut i = 0u32;
    for rung in rungs {
        push_shown(alloc, &mut groups, i, table, &rung.shown)?;
        i += 1;
    }
    Ok(groups)
}

/// How many nodes there are at least, where a row tells of these.
fn nodes_at(shown: &Shown) -> u32
    ensures nodes { result ≡ nodes_at shown.now }
    ensures few { result ≤ 256 }
{
    match shown {
        Shown::Nothing => 0,
        Shown::Told(row) => nodes_in(row.kind),
        Shown::Said(_) => 0,
    }
}

fn nodes_of(least: u32, rungs: &[Rung]) -> u32
    requires { least ≤ 256 }
    ensures nodes { result ≡ nodes_from least rungs.now }
    ensures few { result ≤ 256 }
{
    let mut nodes = least;
    for rung in rungs {
        nodes = nodes.max(nodes_at(&rung.shown));
    }
    nodes
}

/// How a node's lifeline goes on from row i, where that changes it.
fn begun_at(node: u32, i: u32, shown: &Shown) -> Option<Lane>
    ensures lane { result ≡ begun_at node i shown.now }
    ensures here { IfSome result (λ l. l.begun ≡ i) }
{
    match shown {
        Shown::Nothing => None,
        Shown::Told(row) => begun(node, u64::from(i), row.kind),
        Shown::Said(_) => None,
    }
}

/// A node's lifeline over all rows.
fn strips(shapes: &mut Vec<Shape>, node: u32, rungs: &[Rung]) -> Result<(), NoMemory>
    requires { length rungs.now < 4294967296 }
    ensures { OnOk result (shapes.new.items ≡ shapes.old.items ++ strips node 0 (fresh 0) rungs.now) }
{
    let mut lane = fresh(0);
    let mut i = 0u32;
    for rung in rungs {
        if let Some(next) = begun_at(node, i, &rung.shown) {
            strip(shapes, node, lane, u64::from(i))?;
            lane = next;
        }
        i += 1;
    }
    strip(shapes, node, lane, u64::from(i))
}

/// A node's name, and its lifeline.
#[tactic(auto, unfolding(crate::specs::Drawing::lifeline))]
fn lifeline(
    alloc: Global,
    shapes: &mut Vec<Shape>,
    node: u32,
    rungs: &[Rung],
) -> Result<(), NoMemory>
    requires { length rungs.now < 4294967296 }
    ensures { OnOk result (shapes.new.items ≡ shapes.old.items ++ lifeline rungs.now node) }
{
    let name = name_of(alloc, node)?;
    words(shapes, x_of(node), 56, Hand::Middle, name)?;
    strips(shapes, node, rungs)
}

fn lifelines(
    alloc: Global,
    shapes: &mut Vec<Shape>,
    nodes: u32,
    rungs: &[Rung],
) -> Result<(), NoMemory>
    requires { length rungs.now < 4294967296 }
    ensures { OnOk result (shapes.new.items ≡ shapes.old.items ++ flat_map (lifeline rungs.now) (range_with_len 0 nodes)) }
{
    for node in 0..nodes {
        lifeline(alloc, shapes, node, rungs)?;
    }
    Ok(())
}

/// How many lines the run has, and how many messages came.
fn counted(rungs: &[Rung]) -> Counts
    requires { length rungs.now < 4294967296 }
    ensures { result ≡ counts_from (record { lines = 0; came = 0 }) rungs.now }
{
    let mut counts = Counts { lines: 0, came: 0 };
    for rung in rungs {
        counts = Counts {
            lines: counts.lines + line_count(&rung.shown),
            came: counts.came + came_count(rung.fate),
        };
    }
    counts
}

fn line_count(shown: &Shown) -> u64
    ensures count { result ≡ line_count shown.now }
    ensures few { result ≤ 1 }
{
    match shown {
        Shown::Nothing => 0,
        Shown::Told(_) => 1,
        Shown::Said(_) => 0,
    }
}

fn came_count(fate: Fate) -> u64
    ensures count { result ≡ came_count fate }
    ensures few { result ≤ 1 }
{
    match fate {
        Fate::Still => 0,
        Fate::Came { .. } => 1,
        Fate::CameAgain { .. } => 0,
        Fate::Lost { .. } => 0,
    }
}

fn heading(alloc: Global, nodes: u32, counts: Counts) -> Result<Items<u8>, NoMemory>
    ensures { IfOk result (λ x. x ≡ heading nodes counts) }
{
    let mut text = Vec::new(alloc);
    push(&mut text, b"nodes: ")?;
    push_decimal(&mut text, u64::from(nodes))?;
    push(&mut text, b", lines: ")?;
    push_decimal(&mut text, counts.lines)?;
    push(&mut text, b", messages that came: ")?;
    push_decimal(&mut text, counts.came)?;
    Ok(Items::new(text))
}

/// What stands behind the rows.
fn back_of(alloc: Global, nodes: u32, rungs: &[Rung]) -> Result<Vec<Shape>, NoMemory>
    requires { length rungs.now < 4294967296 }
    ensures { IfOk result (λ v. v.items ≡ back_of nodes rungs.now) }
{
    let mut shapes = Vec::new(alloc);
    let heading = heading(alloc, nodes, counted(rungs))?;
    words(&mut shapes, 10, 24, Hand::Start, heading)?;
    lifelines(alloc, &mut shapes, nodes, rungs)?;
    Ok(shapes)
}

/// The picture of a ladder.
#[tactic(auto, unfolding(crate::specs::Drawing::ladder_of))]
fn drawn(alloc: Global, least: u32, rungs: &[Rung]) -> Result<Picture, NoMemory>
    requires few { length rungs.now < 4294967296 }
    requires nodes { least ≤ 256 }
    ensures { IfOk result (λ p. p ≡ ladder_of least rungs.now) }
{
    let nodes = nodes_of(least, rungs);
    let table = table_of(alloc, rungs)?;
    let back = back_of(alloc, nodes, rungs)?;
    let groups = groups_of(alloc, &table, rungs)?;
    Ok(Picture {
        width: 230 + 220 * u64::from(nodes),
        height: 96 + 24 * rungs.len() as u64,
        back: Items::new(back),
        rows: Items::new(groups),
    })
}

/// Draws a ladder of so many nodes, or more where a line tells of more. Each line that a row shows is the title of exactly one
/// element, in order, and nothing of the picture is outside of it.
pub fn draw(alloc: Global, least: u32, rungs: &[Rung]) -> Result<Picture, NoMemory>
    requires few { length rungs.now < 4294967296 }
    requires nodes { least ≤ 256 }
    ensures exact { IfOk result (λ p. p ≡ ladder_of least rungs.now) }
    ensures titles { IfOk result (λ p. map (λ g. g.title) p.rows ≡ flat_map told_by rungs.now) }
    ensures inside { IfOk result AllInside }
{
    drawn(alloc, least, rungs)
}
