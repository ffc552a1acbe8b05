//! Spells a picture as SVG.
ghost use Rattle.std.specs.Prelude.{◌≡◌, ◌++◌, codes, OnOk, IfOk};
ghost use Rattle.std.specs.Fmt.{decimal};
ghost use Rattle.std.specs.List.{flat_map};
ghost use Rattle.ct_picture.specs.declared.shape.Shape.TheVariants as shape;
ghost use Rattle.ct_picture.specs.Svg.{class_of, cross_marker, cross_path, look_text, open_marker, open_path, tip_of, tip_style, dark_ground_style, dark_message_style, dark_style, escaped, escaped_byte, ground, ground_style, group_text, hand_of, head_of, life_of, marker, marker_path, message_style, opening, path_style, shape_text, svg_of, text_style};

use crate::row::{Look, push};
use crate::shape::{Group, Hand, Picture, Shape, Tip};
use ct_spelling::number::push_decimal;
use ct_values::memory::NoMemory;
use std::alloc::Global;

fn push_byte(text: &mut Vec<u8>, b: u8) -> Result<(), NoMemory>
    ensures { OnOk result (text.new.items ≡ text.old.items ++ escaped_byte b) }
{
    if b == b'&' {
        push(text, b"&amp;")
    } else if b == b'<' {
        push(text, b"&lt;")
    } else if b == b'>' {
        push(text, b"&gt;")
    } else if b == b'"' {
        push(text, b"&quot;")
    } else {
        push(text, &[b])
    }
}

/// A text with what means something else written by name.
fn push_escaped(text: &mut Vec<u8>, more: &[u8]) -> Result<(), NoMemory>
    ensures { OnOk result (text.new.items ≡ text.old.items ++ escaped more.now) }
{
    for b in more {
        push_byte(text, *b)?;
    }
    Ok(())
}

fn push_number(text: &mut Vec<u8>, word: &[u8], number: u64) -> Result<(), NoMemory>
    ensures { OnOk result (text.new.items ≡ text.old.items ++ (word.now ++ decimal number)) }
{
    push(text, word)?;
    push_decimal(text, number)
}

fn class_of(look: Look) -> &'static [u8]
    ensures { result.now ≡ class_of look }
{
    match look {
        Look::Record => b"record",
        Look::Copies => b"copies",
        Look::Round => b"round",
        Look::Commit => b"commit",
        Look::Addresses => b"addresses",
        Look::Traverse => b"traverse",
    }
}

fn tip_of(tip: Tip) -> &'static [u8]
    ensures { result.now ≡ tip_of tip }
{
    match tip {
        Tip::Head => b"",
        Tip::Again => b" again",
        Tip::Cross => b" cross",
        Tip::Open => b" open",
    }
}

fn hand_of(hand: Hand) -> &'static [u8]
    ensures { result.now ≡ hand_of hand }
{
    match hand {
        Hand::Start => b"start",
        Hand::Middle => b"middle",
        Hand::Said => b"said",
    }
}

fn life_of(runs: bool) -> &'static [u8]
    ensures { result.now ≡ life_of runs }
{
    if runs { b"life" } else { b"down" }
}

fn push_class(text: &mut Vec<u8>, class: &[u8]) -> Result<(), NoMemory>
    ensures { OnOk result (text.new.items ≡ text.old.items ++ (codes "\" class=\"" ++ class.now ++ codes "\"/>\n")) }
{
    push(text, b"\" class=\"")?;
    push(text, class)?;
    push(text, b"\"/>\n")
}

fn push_look(text: &mut Vec<u8>, look: Look, tip: Tip) -> Result<(), NoMemory>
    ensures { OnOk result (text.new.items ≡ text.old.items ++ look_text look tip) }
{
    push(text, b"\" class=\"")?;
    push(text, class_of(look))?;
    push(text, tip_of(tip))?;
    push(text, b"\"/>\n")
}

#[tactic(auto, unfolding(crate::specs::Svg::shape_text))]
fn push_arrow(
    text: &mut Vec<u8>,
    x1: u64,
    y1: u64,
    x2: u64,
    y2: u64,
    look: Look,
    tip: Tip,
) -> Result<(), NoMemory>
    ensures { OnOk result (text.new.items ≡ text.old.items ++ shape_text (shape.Arrow x1 y1 x2 y2 look tip)) }
{
    push_number(text, b"<path d=\"M", x1)?;
    push_number(text, b" ", y1)?;
    push_number(text, b"L", x2)?;
    push_number(text, b" ", y2)?;
    push_look(text, look, tip)
}

#[tactic(auto, unfolding(crate::specs::Svg::shape_text))]
fn push_turn(
    text: &mut Vec<u8>,
    x: u64,
    y1: u64,
    far: u64,
    y2: u64,
    look: Look,
    tip: Tip,
) -> Result<(), NoMemory>
    ensures { OnOk result (text.new.items ≡ text.old.items ++ shape_text (shape.Turn x y1 far y2 look tip)) }
{
    push_number(text, b"<path d=\"M", x)?;
    push_number(text, b" ", y1)?;
    push_number(text, b"C", far)?;
    push_number(text, b" ", y1)?;
    push_number(text, b" ", far)?;
    push_number(text, b" ", y2)?;
    push_number(text, b" ", x)?;
    push_number(text, b" ", y2)?;
    push_look(text, look, tip)
}

#[tactic(auto, unfolding(crate::specs::Svg::shape_text))]
fn push_life(text: &mut Vec<u8>, x: u64, y1: u64, y2: u64, runs: bool) -> Result<(), NoMemory>
    ensures { OnOk result (text.new.items ≡ text.old.items ++ shape_text (shape.Life x y1 y2 runs)) }
{
    push_number(text, b"<path d=\"M", x)?;
    push_number(text, b" ", y1)?;
    push_number(text, b"V", y2)?;
    push_class(text, life_of(runs))
}

#[tactic(auto, unfolding(crate::specs::Svg::shape_text))]
fn push_dot(text: &mut Vec<u8>, x: u64, y: u64) -> Result<(), NoMemory>
    ensures { OnOk result (text.new.items ≡ text.old.items ++ shape_text (shape.Dot x y)) }
{
    push(text, b"<circle")?;
    push_number(text, b" cx=\"", x)?;
    push_number(text, b"\" cy=\"", y)?;
    push(text, b"\" r='4'/>\n")
}

#[tactic(auto, unfolding(crate::specs::Svg::shape_text))]
fn push_band(
    text: &mut Vec<u8>,
    x: u64,
    y: u64,
    width: u64,
    height: u64,
    hue: u64,
) -> Result<(), NoMemory>
    ensures { OnOk result (text.new.items ≡ text.old.items ++ shape_text (shape.Band x y width height hue)) }
{
    push_number(text, b"<rect x=\"", x)?;
    push_number(text, b"\" y=\"", y)?;
    push_number(text, b"\" width=\"", width)?;
    push_number(text, b"\" height=\"", height)?;
    push_number(text, b"\" class=\"g", hue)?;
    push(text, b"\"/>\n")
}

#[tactic(auto, unfolding(crate::specs::Svg::shape_text))]
fn push_words(text: &mut Vec<u8>, x: u64, y: u64, hand: Hand, words: &[u8]) -> Result<(), NoMemory>
    ensures { OnOk result (text.new.items ≡ text.old.items ++ shape_text (shape.Words x y hand words.now)) }
{
    push_number(text, b"<text x=\"", x)?;
    push_number(text, b"\" y=\"", y)?;
    push(text, b"\" class=\"")?;
    push(text, hand_of(hand))?;
    push(text, b"\">")?;
    push_escaped(text, words)?;
    push(text, b"</text>\n")
}

fn push_shape(text: &mut Vec<u8>, shape: &Shape) -> Result<(), NoMemory>
    ensures { OnOk result (text.new.items ≡ text.old.items ++ shape_text shape.now) }
{
    match shape {
        Shape::Arrow {
            x1,
            y1,
            x2,
            y2,
            look,
            tip,
        } => push_arrow(text, *x1, *y1, *x2, *y2, *look, *tip),
        Shape::Turn {
            x,
            y1,
            far,
            y2,
            look,
            tip,
        } => push_turn(text, *x, *y1, *far, *y2, *look, *tip),
        Shape::Dot { x, y } => push_dot(text, *x, *y),
        Shape::Life { x, y1, y2, runs } => push_life(text, *x, *y1, *y2, *runs),
        Shape::Band {
            x,
            y,
            width,
            height,
            hue,
        } => push_band(text, *x, *y, *width, *height, *hue),
        Shape::Words { x, y, hand, words } => push_words(text, *x, *y, *hand, words.as_slice()),
    }
}

fn push_shapes(text: &mut Vec<u8>, shapes: &[Shape]) -> Result<(), NoMemory>
    ensures { OnOk result (text.new.items ≡ text.old.items ++ flat_map shape_text shapes.now) }
{
    for shape in shapes {
        push_shape(text, shape)?;
    }
    Ok(())
}

#[tactic(auto, unfolding(crate::specs::Svg::group_text))]
fn push_group(text: &mut Vec<u8>, group: &Group) -> Result<(), NoMemory>
    ensures { OnOk result (text.new.items ≡ text.old.items ++ group_text group.now) }
{
    push(text, b"<g><title>")?;
    push_escaped(text, group.title.as_slice())?;
    push(text, b"</title>\n")?;
    push_shapes(text, group.shapes.as_slice())?;
    push(text, b"</g>\n")
}

fn push_groups(text: &mut Vec<u8>, groups: &[Group]) -> Result<(), NoMemory>
    ensures { OnOk result (text.new.items ≡ text.old.items ++ flat_map group_text groups.now) }
{
    for group in groups {
        push_group(text, group)?;
    }
    Ok(())
}

#[tactic(auto, unfolding(crate::specs::Svg::text_style))]
fn push_text_style(text: &mut Vec<u8>) -> Result<(), NoMemory>
    ensures { OnOk result (text.new.items ≡ text.old.items ++ text_style) }
{
    push(
        text,
        b"<style>text{font:11px monospace;fill:#111;paint-order:stroke;stroke:#fff;stroke-width:4px}.middle{text-anchor:middle}.said{font-weight:bold}\n",
    )
}

#[tactic(auto, unfolding(crate::specs::Svg::path_style))]
fn push_path_style(text: &mut Vec<u8>) -> Result<(), NoMemory>
    ensures { OnOk result (text.new.items ≡ text.old.items ++ path_style) }
{
    push(
        text,
        b"path{fill:none;stroke-width:1.6;marker-end:url(#head)}.life,.down{marker-end:none;stroke:#555}.down{stroke-dasharray:3 7}\n",
    )
}

#[tactic(auto, unfolding(crate::specs::Svg::message_style))]
fn push_message_style(text: &mut Vec<u8>) -> Result<(), NoMemory>
    ensures { OnOk result (text.new.items ≡ text.old.items ++ message_style) }
{
    push(
        text,
        b".record{stroke:#0072b2}.copies{stroke:#b35c00}.round{stroke:#8c2d6f}.commit{stroke:#00734f}.addresses{stroke:#111}\n",
    )
}

#[tactic(auto, unfolding(crate::specs::Svg::tip_style))]
fn push_tip_style(text: &mut Vec<u8>) -> Result<(), NoMemory>
    ensures { OnOk result (text.new.items ≡ text.old.items ++ tip_style) }
{
    push(
        text,
        b".traverse{stroke:#555;stroke-dasharray:1 3}.again{stroke-dasharray:8 4}.cross{marker-end:url(#cross)}.open{marker-end:url(#open)}\n",
    )
}

#[tactic(auto, unfolding(crate::specs::Svg::ground_style))]
fn push_ground_style(text: &mut Vec<u8>) -> Result<(), NoMemory>
    ensures { OnOk result (text.new.items ≡ text.old.items ++ ground_style) }
{
    push(
        text,
        b"circle,.head{fill:#444}.back{fill:#fff}.g0{fill:none}.g1{fill:#d9d9d9}.g2{fill:#9fd0ee}.g3{fill:#f7dc94}.g4{fill:#a8dcc6}.g5{fill:#e9bcd6}\n",
    )
}

#[tactic(auto, unfolding(crate::specs::Svg::dark_style))]
fn push_dark_style(text: &mut Vec<u8>) -> Result<(), NoMemory>
    ensures { OnOk result (text.new.items ≡ text.old.items ++ dark_style) }
{
    push(
        text,
        b"@media(prefers-color-scheme:dark){text{fill:#eee;stroke:#111}.life,.down{stroke:#999}.record{stroke:#56b4e9}.copies{stroke:#f0a030}\n",
    )
}

#[tactic(auto, unfolding(crate::specs::Svg::dark_message_style))]
fn push_dark_message_style(text: &mut Vec<u8>) -> Result<(), NoMemory>
    ensures { OnOk result (text.new.items ≡ text.old.items ++ dark_message_style) }
{
    push(
        text,
        b".round{stroke:#e8a0cc}.commit{stroke:#3fd0a0}.addresses{stroke:#eee}circle,.head{fill:#bbb}.back{fill:#111}\n",
    )
}

#[tactic(auto, unfolding(crate::specs::Svg::dark_ground_style))]
fn push_dark_ground_style(text: &mut Vec<u8>) -> Result<(), NoMemory>
    ensures { OnOk result (text.new.items ≡ text.old.items ++ dark_ground_style) }
{
    push(
        text,
        b".g1{fill:#444}.g2{fill:#1d4a66}.g3{fill:#5c4a10}.g4{fill:#1c5442}.g5{fill:#5e2f4c}}</style>\n",
    )
}

fn push_style(text: &mut Vec<u8>) -> Result<(), NoMemory>
    ensures { OnOk result (text.new.items ≡ text.old.items ++ (text_style ++ path_style ++ message_style ++ tip_style ++ ground_style ++ dark_style ++ dark_message_style ++ dark_ground_style)) }
{
    push_text_style(text)?;
    push_path_style(text)?;
    push_message_style(text)?;
    push_tip_style(text)?;
    push_ground_style(text)?;
    push_dark_style(text)?;
    push_dark_message_style(text)?;
    push_dark_ground_style(text)
}

#[tactic(auto, unfolding(crate::specs::Svg::marker))]
fn push_marker(text: &mut Vec<u8>) -> Result<(), NoMemory>
    ensures { OnOk result (text.new.items ≡ text.old.items ++ marker) }
{
    push(
        text,
        b"<defs><marker id='head' viewBox='0 0 8 8' refX='8' refY='4' markerWidth='9' markerHeight='9' markerUnits='userSpaceOnUse' orient='auto'>\n",
    )
}

#[tactic(auto, unfolding(crate::specs::Svg::marker_path))]
fn push_marker_path(text: &mut Vec<u8>) -> Result<(), NoMemory>
    ensures { OnOk result (text.new.items ≡ text.old.items ++ marker_path) }
{
    push(
        text,
        b"<path d='M0 0L8 4L0 8z' style='marker-end:none;stroke:none' class='head'/></marker></defs>\n",
    )
}

#[tactic(auto, unfolding(crate::specs::Svg::cross_marker))]
fn push_cross_marker(text: &mut Vec<u8>) -> Result<(), NoMemory>
    ensures { OnOk result (text.new.items ≡ text.old.items ++ cross_marker) }
{
    push(
        text,
        b"<defs><marker id='cross' viewBox='0 0 8 8' refX='4' refY='4' markerWidth='9' markerHeight='9' markerUnits='userSpaceOnUse'>\n",
    )
}

#[tactic(auto, unfolding(crate::specs::Svg::cross_path))]
fn push_cross_path(text: &mut Vec<u8>) -> Result<(), NoMemory>
    ensures { OnOk result (text.new.items ≡ text.old.items ++ cross_path) }
{
    push(
        text,
        b"<path d='M0 0L8 8M0 8L8 0' class='life'/></marker></defs>\n",
    )
}

#[tactic(auto, unfolding(crate::specs::Svg::open_marker))]
fn push_open_marker(text: &mut Vec<u8>) -> Result<(), NoMemory>
    ensures { OnOk result (text.new.items ≡ text.old.items ++ open_marker) }
{
    push(
        text,
        b"<defs><marker id='open' viewBox='0 0 8 8' refX='0' refY='4' markerWidth='9' markerHeight='9' markerUnits='userSpaceOnUse'>\n",
    )
}

#[tactic(auto, unfolding(crate::specs::Svg::open_path))]
fn push_open_path(text: &mut Vec<u8>) -> Result<(), NoMemory>
    ensures { OnOk result (text.new.items ≡ text.old.items ++ open_path) }
{
    push(
        text,
        b"<circle cx='4' cy='4' r='3' style='fill:none' class='life'/></marker></defs>\n",
    )
}

#[tactic(auto, unfolding(crate::specs::Svg::ground))]
fn push_ground(text: &mut Vec<u8>) -> Result<(), NoMemory>
    ensures { OnOk result (text.new.items ≡ text.old.items ++ ground) }
{
    push(text, b"<rect width='100%' height='100%' class='back'/>\n")
}

fn push_preface(text: &mut Vec<u8>) -> Result<(), NoMemory>
    ensures { OnOk result (text.new.items ≡ text.old.items ++ (marker ++ marker_path ++ cross_marker ++ cross_path ++ open_marker ++ open_path ++ ground)) }
{
    push_marker(text)?;
    push_marker_path(text)?;
    push_cross_marker(text)?;
    push_cross_path(text)?;
    push_open_marker(text)?;
    push_open_path(text)?;
    push_ground(text)
}

#[tactic(auto, unfolding(crate::specs::Svg::opening))]
fn push_opening(text: &mut Vec<u8>) -> Result<(), NoMemory>
    ensures { OnOk result (text.new.items ≡ text.old.items ++ opening) }
{
    push(text, b"<svg xmlns=\"http://www.w3.org/2000/svg\"")
}

#[tactic(auto, unfolding(crate::specs::Svg::head_of))]
fn push_head(text: &mut Vec<u8>, width: u64, height: u64) -> Result<(), NoMemory>
    ensures { OnOk result (text.new.items ≡ text.old.items ++ head_of width height) }
{
    push_opening(text)?;
    push(text, b" viewBox=")?;
    push_number(text, b"'0 0 ", width)?;
    push_number(text, b" ", height)?;
    push_number(text, b"' width=\"", width)?;
    push_number(text, b"\" height=\"", height)?;
    push(text, b"\">\n")
}

/// The text of a picture.
#[tactic(auto, unfolding(crate::specs::Svg::svg_of))]
pub fn svg_of(alloc: Global, picture: &Picture) -> Result<Vec<u8>, NoMemory>
    ensures { IfOk result (λ v. v.items ≡ svg_of picture.now) }
{
    let mut text = Vec::new(alloc);
    push_head(&mut text, picture.width, picture.height)?;
    push_style(&mut text)?;
    push_preface(&mut text)?;
    push_shapes(&mut text, picture.back.as_slice())?;
    push_groups(&mut text, picture.rows.as_slice())?;
    push(&mut text, b"</svg>\n")?;
    Ok(text)
}
