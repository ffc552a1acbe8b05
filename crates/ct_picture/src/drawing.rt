//! Draws the rows of a run.
ghost use Rattle.std.specs.Prelude.{◌≡◌, ◌≤◌, ◌<◌, ◌++◌, ◌∷◌, [], codes, length, map, take, IfOk, IfSome, OnOk};
ghost use Rattle.std.specs.Fmt.{decimal};
ghost use Rattle.std.specs.List.{flat_map, range_with_len};
ghost use Rattle.ct_picture.specs.declared.shape.Shape.TheVariants as shape;
ghost use Rattle.ct_picture.specs.Claims.{AllInside};
ghost use Rattle.ct_picture.specs.Drawing.{aside, back_of, begun, behind_comma, closed, fresh, group_of, groups_from, heading, hue_of, label_x, lifeline, message, nodes_from, nodes_in, note, of_node, or_lane, picture_of, shapes_of, short, strip, strips, summary, x_of, y_of};

use crate::row::{Look, Row, RowKind, copy_of, push};
use crate::shape::{Group, Hand, Lane, Picture, Shape, Tip};
use ct_spelling::number::push_decimal;
use ct_values::items::Items;
use ct_values::memory::NoMemory;
use std::alloc::Global;

/// Where the lifeline of a node stands.
pub fn x_of(node: u32) -> u64
    ensures { result ≡ x_of node }
{
    230 + 220 * u64::from(node)
}

/// Half a column from the sender's lifeline on the receiver's side, where no lifeline stands.
pub fn label_x(sender: u32, receiver: u32) -> u64
    ensures { result ≡ label_x sender receiver }
{
    let x = x_of(sender);
    if sender < receiver { x + 110 } else { x - 110 }
}

/// Where a row begins, and the one before it ends. Rows count from 0.
pub fn y_of(i: u64) -> u64
    requires { i ≤ 2199023255552 }
    ensures { result ≡ y_of i }
{
    72 + 24 * i
}

/// One shape more.
pub fn add(shapes: &mut Vec<Shape>, shape: Shape) -> Result<(), NoMemory>
    ensures { OnOk result (shapes.new.items ≡ shapes.old.items ++ shape ∷ []) }
{
    shapes.push(shape)?;
    Ok(())
}

/// So many first signs of a label.
fn front(label: &[u8], count: usize) -> &[u8]
    requires { count ≤ length label.now }
    ensures { result.now ≡ take count label.now }
{
    &label[..count]
}

/// At most 26 signs of a label.
pub fn short(alloc: Global, label: &[u8]) -> Result<Items<u8>, NoMemory>
    ensures { IfOk result (λ x. x ≡ short label.now) }
{
    let mut text = Vec::new(alloc);
    if label.len() <= 26 {
        push(&mut text, label)?;
    } else {
        push(&mut text, front(label, 24))?;
        push(&mut text, b"..")?;
    }
    Ok(Items::new(text))
}

fn message(
    shapes: &mut Vec<Shape>,
    i: u64,
    sender: u8,
    receiver: u8,
    look: Look,
    label: Items<u8>,
) -> Result<(), NoMemory>
    requires { i < 2199023255552 }
    ensures { OnOk result (shapes.new.items ≡ shapes.old.items ++ message i sender receiver look label) }
{
    let x1 = x_of(u32::from(sender));
    let y1 = y_of(i);
    let x2 = x_of(u32::from(receiver));
    let y2 = y_of(i + 1);
    if sender == receiver {
        let far = x1 + 30;
        add(
            shapes,
            Shape::Turn {
                x: x1,
                y1,
                far,
                y2,
                look,
                tip: Tip::Head,
            },
        )?;
        words(shapes, far, y1 + 16, Hand::Start, label)
    } else {
        add(
            shapes,
            Shape::Arrow {
                x1,
                y1,
                x2,
                y2,
                look,
                tip: Tip::Head,
            },
        )?;
        words(
            shapes,
            label_x(u32::from(sender), u32::from(receiver)),
            y1 + 7,
            Hand::Middle,
            label,
        )
    }
}

/// Words that begin at this place, or have their middle there.
pub fn words(
    shapes: &mut Vec<Shape>,
    x: u64,
    y: u64,
    hand: Hand,
    words: Items<u8>,
) -> Result<(), NoMemory>
    ensures { OnOk result (shapes.new.items ≡ shapes.old.items ++ shape.Words x y hand words ∷ []) }
{
    add(shapes, Shape::Words { x, y, hand, words })
}

/// A dot on a node's lifeline in row i, and the label beside it.
fn note(shapes: &mut Vec<Shape>, i: u64, node: u8, label: Items<u8>) -> Result<(), NoMemory>
    requires { i < 2199023255552 }
    ensures { OnOk result (shapes.new.items ≡ shapes.old.items ++ note i node label) }
{
    let x = x_of(u32::from(node));
    let y = y_of(i);
    add(shapes, Shape::Dot { x, y: y + 12 })?;
    words(shapes, x + 14, y + 16, Hand::Start, label)
}

fn aside(shapes: &mut Vec<Shape>, i: u64, label: Items<u8>) -> Result<(), NoMemory>
    requires { i < 2199023255552 }
    ensures { OnOk result (shapes.new.items ≡ shapes.old.items ++ aside i label) }
{
    words(shapes, 10, y_of(i) + 16, Hand::Start, label)
}

/// The shapes of row i, from 0.
pub fn shapes_of(alloc: Global, i: u64, kind: RowKind, label: &[u8]) -> Result<Vec<Shape>, NoMemory>
    requires { i < 2199023255552 }
    ensures { IfOk result (λ v. v.items ≡ shapes_of i kind label.now) }
{
    let mut shapes = Vec::new(alloc);
    match kind {
        RowKind::Sent {
            sender,
            receiver,
            look,
            ..
        } => message(&mut shapes, i, sender, receiver, look, short(alloc, label)?)?,
        RowKind::At { node } => note(&mut shapes, i, node, short(alloc, label)?)?,
        RowKind::Installed { node, .. } => note(&mut shapes, i, node, short(alloc, label)?)?,
        RowKind::Stopped { node } => note(&mut shapes, i, node, short(alloc, label)?)?,
        RowKind::Started { node } => note(&mut shapes, i, node, short(alloc, label)?)?,
        RowKind::Beside => aside(&mut shapes, i, short(alloc, label)?)?,
        RowKind::Column => aside(&mut shapes, i, copy_of(alloc, label)?)?,
        RowKind::Across => aside(&mut shapes, i, copy_of(alloc, label)?)?,
    }
    Ok(shapes)
}

/// A row as one element, whose title is its line.
#[tactic(auto, unfolding(crate::specs::Drawing::group_of))]
fn group_of(alloc: Global, i: u64, row: &Row) -> Result<Group, NoMemory>
    requires { i < 2199023255552 }
    ensures { IfOk result (λ g. g ≡ group_of i row.now) }
{
    let shapes = shapes_of(alloc, i, row.kind, row.label.as_slice())?;
    let title = copy_of(alloc, row.line.as_slice())?;
    Ok(Group {
        title,
        shapes: Items::new(shapes),
    })
}

/// One element more.
pub fn add_group(groups: &mut Vec<Group>, group: Group) -> Result<(), NoMemory>
    ensures { OnOk result (groups.new.items ≡ groups.old.items ++ group ∷ []) }
{
    groups.push(group)?;
    Ok(())
}

fn groups_of(alloc: Global, rows: &[Row]) -> Result<Vec<Group>, NoMemory>
    requires { length rows.now ≤ 2199023255552 }
    ensures { IfOk result (λ v. v.items ≡ groups_from 0 rows.now) }
{
    let mut groups = Vec::new(alloc);
    let mut i = 0u64;
    for row in rows {
        add_group(&mut groups, group_of(alloc, i, row)?)?;
        i += 1;
    }
    Ok(groups)
}

/// How many nodes there are at least, where a row tells of these.
pub fn nodes_in(kind: RowKind) -> u32
    ensures nodes { result ≡ nodes_in kind }
    ensures few { result ≤ 256 }
{
    match kind {
        RowKind::Sent {
            sender,
            receiver,
            ..
        } => (u32::from(sender) + 1).max(u32::from(receiver) + 1),
        RowKind::At { node } => u32::from(node) + 1,
        RowKind::Installed { node, .. } => u32::from(node) + 1,
        RowKind::Stopped { node } => u32::from(node) + 1,
        RowKind::Started { node } => u32::from(node) + 1,
        RowKind::Beside => 0,
        RowKind::Column => 0,
        RowKind::Across => 0,
    }
}

fn nodes_of(rows: &[Row]) -> u32
    ensures { result ≡ nodes_from 0 rows.now }
{
    let mut nodes = 0u32;
    for row in rows {
        nodes = nodes.max(nodes_in(row.kind));
    }
    nodes
}

/// A lifeline in its first generation.
pub fn fresh(i: u64) -> Lane
    ensures { result ≡ fresh i }
{
    Lane {
        begun: i,
        runs: true,
        generation: 1,
    }
}

fn of_node(node: u32, n: u8, lane: Lane) -> Option<Lane>
    ensures { result ≡ of_node node n lane }
{
    if node == u32::from(n) {
        Some(lane)
    } else {
        None
    }
}

/// How a node's lifeline goes on from row i, where that changes it.
pub fn begun(node: u32, i: u64, kind: RowKind) -> Option<Lane>
    ensures lane { result ≡ begun node i kind }
    ensures here { IfSome result (λ l. l.begun ≡ i) }
{
    match kind {
        RowKind::Installed {
            node: n,
            generation,
        } => of_node(
            node,
            n,
            Lane {
                begun: i,
                runs: true,
                generation,
            },
        ),
        RowKind::Stopped { node: n } => of_node(
            node,
            n,
            Lane {
                begun: i,
                runs: false,
                generation: 0,
            },
        ),
        RowKind::Started { node: n } => of_node(
            node,
            n,
            Lane {
                begun: i,
                runs: true,
                generation: 0,
            },
        ),
        RowKind::Column => Some(fresh(i)),
        RowKind::Sent { .. } => None,
        RowKind::At { .. } => None,
        RowKind::Beside => None,
        RowKind::Across => None,
    }
}

fn hue_of(generation: u64) -> u64
    ensures { result ≡ hue_of generation }
{
    if generation == 0 {
        0
    } else {
        1 + generation % 5
    }
}

/// A lifeline as far as row i.
pub fn strip(shapes: &mut Vec<Shape>, node: u32, lane: Lane, i: u64) -> Result<(), NoMemory>
    requires order { lane.begun ≤ i }
    requires few { i ≤ 2199023255552 }
    ensures { OnOk result (shapes.new.items ≡ shapes.old.items ++ strip node lane i) }
{
    let x = x_of(node);
    let y1 = y_of(lane.begun);
    let y2 = y_of(i);
    if lane.runs {
        let hue = hue_of(lane.generation);
        add(
            shapes,
            Shape::Band {
                x: x - 9,
                y: y1,
                width: 18,
                height: y2 - y1,
                hue,
            },
        )?;
    }
    add(
        shapes,
        Shape::Life {
            x,
            y1,
            y2,
            runs: lane.runs,
        },
    )
}

/// A node's lifeline over all rows.
fn strips(shapes: &mut Vec<Shape>, node: u32, rows: &[Row]) -> Result<(), NoMemory>
    requires { length rows.now ≤ 2199023255552 }
    ensures { OnOk result (shapes.new.items ≡ shapes.old.items ++ strips node 0 (fresh 0) rows.now) }
{
    let mut lane = fresh(0);
    let mut i = 0u64;
    for row in rows {
        if let Some(next) = begun(node, i, row.kind) {
            strip(shapes, node, lane, i)?;
            lane = next;
        }
        i += 1;
    }
    strip(shapes, node, lane, i)
}

/// What stands above a lifeline.
pub fn name_of(alloc: Global, node: u32) -> Result<Items<u8>, NoMemory>
    ensures { IfOk result (λ x. x ≡ codes "node " ++ decimal node) }
{
    let mut text = Vec::new(alloc);
    push(&mut text, b"node ")?;
    push_decimal(&mut text, u64::from(node))?;
    Ok(Items::new(text))
}

/// A node's name, and its lifeline.
#[tactic(auto, unfolding(crate::specs::Drawing::lifeline))]
fn lifeline(alloc: Global, shapes: &mut Vec<Shape>, node: u32, rows: &[Row]) -> Result<(), NoMemory>
    requires { length rows.now ≤ 2199023255552 }
    ensures { OnOk result (shapes.new.items ≡ shapes.old.items ++ lifeline rows.now node) }
{
    let name = name_of(alloc, node)?;
    words(shapes, x_of(node), 56, Hand::Middle, name)?;
    strips(shapes, node, rows)
}

fn lifelines(
    alloc: Global,
    shapes: &mut Vec<Shape>,
    nodes: u32,
    rows: &[Row],
) -> Result<(), NoMemory>
    requires { length rows.now ≤ 2199023255552 }
    ensures { OnOk result (shapes.new.items ≡ shapes.old.items ++ flat_map (lifeline rows.now) (range_with_len 0 nodes)) }
{
    for node in 0..nodes {
        lifeline(alloc, shapes, node, rows)?;
    }
    Ok(())
}

/// The line that counts what a run did, where it ends with one.
fn summary(rows: &[Row]) -> &[u8]
    ensures { result.now ≡ summary rows.now }
{
    match rows.last() {
        Some(row) => match row.kind {
            RowKind::Across => row.line.as_slice(),
            RowKind::Sent { .. } => &[],
            RowKind::At { .. } => &[],
            RowKind::Installed { .. } => &[],
            RowKind::Stopped { .. } => &[],
            RowKind::Started { .. } => &[],
            RowKind::Beside => &[],
            RowKind::Column => &[],
        },
        None => &[],
    }
}

/// The line of counts behind a comma, where there is one.
#[tactic(auto, using(crate::proofs::Lists::comma_before))]
fn push_counts(text: &mut Vec<u8>, counts: &[u8]) -> Result<(), NoMemory>
    ensures { OnOk result (text.new.items ≡ text.old.items ++ behind_comma counts.now) }
{
    if counts.is_empty() {
        return Ok(());
    }
    push(text, b", ")?;
    push(text, counts)
}

fn heading(alloc: Global, nodes: u32, rows: u64, summary: &[u8]) -> Result<Items<u8>, NoMemory>
    ensures { IfOk result (λ x. x ≡ heading nodes rows summary.now) }
{
    let mut text = Vec::new(alloc);
    push(&mut text, b"nodes: ")?;
    push_decimal(&mut text, u64::from(nodes))?;
    push(&mut text, b", lines: ")?;
    push_decimal(&mut text, rows)?;
    push_counts(&mut text, summary)?;
    Ok(Items::new(text))
}

/// What stands behind the rows.
fn back_of(alloc: Global, nodes: u32, rows: &[Row]) -> Result<Vec<Shape>, NoMemory>
    requires { length rows.now ≤ 2199023255552 }
    ensures { IfOk result (λ v. v.items ≡ back_of nodes rows.now) }
{
    let mut shapes = Vec::new(alloc);
    let heading = heading(alloc, nodes, rows.len() as u64, summary(rows))?;
    words(&mut shapes, 10, 24, Hand::Start, heading)?;
    lifelines(alloc, &mut shapes, nodes, rows)?;
    Ok(shapes)
}

/// The picture of a run.
#[tactic(auto, unfolding(crate::specs::Drawing::picture_of))]
fn drawn(alloc: Global, rows: &[Row]) -> Result<Picture, NoMemory>
    requires { length rows.now ≤ 2199023255552 }
    ensures { IfOk result (λ p. p ≡ picture_of rows.now) }
{
    let nodes = nodes_of(rows);
    let back = back_of(alloc, nodes, rows)?;
    let groups = groups_of(alloc, rows)?;
    Ok(Picture {
        width: 230 + 220 * u64::from(nodes),
        height: 96 + 24 * rows.len() as u64,
        back: Items::new(back),
        rows: Items::new(groups),
    })
}

/// Draws a run. Each line is the title of exactly one element of the picture, in order, and nothing of the picture is outside
/// of it.
pub fn draw(alloc: Global, rows: &[Row]) -> Result<Picture, NoMemory>
    requires { length rows.now ≤ 2199023255552 }
    ensures exact { IfOk result (λ p. p ≡ picture_of rows.now) }
    ensures titles { IfOk result (λ p. map (λ g. g.title) p.rows ≡ map (λ r. r.line) rows.now) }
    ensures inside { IfOk result AllInside }
{
    drawn(alloc, rows)
}
