//! The bars of a node, and its name over them.
ghost use Rattle.std.specs.Prelude.{◌≡◌, ◌++◌, codes, nat_le, option_map, slice_get};
ghost use Rattle.std.specs.Fmt.{decimal};
ghost use Rattle.bully_picture.specs.Bars.{HasBars, bar_label, bar_look, behind_rows, stand_text};
ghost use Rattle.bully_picture.specs.Drawn.{HasNodes, node_label};
ghost use Rattle.bully_picture.specs.Title.{Has};
ghost use Rattle.bully_picture.specs.Written.{Extends, Gains, IsIn, Writes};

use crate::boxes::{Area, letters_within};
use crate::canvas::{Canvas, push_area, push_line};
use crate::layout::{HALF, Layout, WORDS_ALL, WORDS_MIN};
use crate::paper::Paper;
use crate::words::{push_followed, push_stand};
use bully_base::{Node, Setup, Status};
use bully_film::{Bar, Stand};
use std::alloc::Global;

/// Draws the bars of a node on a paper of their own, and says beside the first one how the node stood before the rows.
/// What a row changes was said there. Whether any rows are shown is told.
pub fn draw_bars(canvas: &mut Canvas, paper: &mut Paper, node: Node, bars: &[Bar], shows_rows: bool)
    ensures { Gains paper.old paper.new (λ text. HasBars text shows_rows node bars.now) }
{
    for bar in bars {
        draw_bar(&canvas.layout, paper, node, bar, shows_rows);
    }
    if let Some(bar) = bars.first() {
        draw_stand(canvas, node, bar.first, bar.seen);
    }
}

// Draws a bar: a rectangle in the colour of its status, dotted where the node is down.
fn draw_bar(layout: &Layout, paper: &mut Paper, node: Node, bar: &Bar, shows_rows: bool)
    ensures { Gains paper.old paper.new (λ text. Has text (bar_label shows_rows node bar.now)) }
{
    push_bar_place(paper, layout, node, bar);
    paper.push(bar_look(bar.seen.status));
    push_title(paper, node, bar, shows_rows);
    paper.push(bar_end(bar.seen.status));
}

// Writes the start of a bar, and where it lies.
fn push_bar_place(paper: &mut Paper, layout: &Layout, node: Node, bar: &Bar)
    ensures { Extends paper.old paper.new }
{
    let x = layout.x(node);
    let top = layout.y(bar.first);
    let end = layout.end(bar.last);
    if let Status::Down = bar.seen.status {
        push_line(paper, x, top, x, end);
        return;
    }
    let area = Area {
        x: x.saturating_sub(HALF),
        y: top,
        width: HALF * 2,
        height: end.saturating_sub(top),
    };
    push_area(paper, area, "");
}

// How a bar looks.
fn bar_look(status: Status) -> &'static str
    ensures { result.now ≡ bar_look status }
{
    match status {
        Status::Down => " stroke=\"#aaa\" stroke-width=\"2\" stroke-dasharray=\"2 4\">",
        Status::Election => " fill=\"#E69F00\">",
        Status::Reorganization => " fill=\"#56B4E9\">",
        Status::Normal => " fill=\"#009E73\">",
    }
}

// The end of a bar's element.
fn bar_end(status: Status) -> &'static str {
    match status {
        Status::Down => "</line>\n",
        _ => "</rect>\n",
    }
}

// What is shown where the pointer rests on a bar: how the node stands, and after which rows, where any are shown.
fn push_title(paper: &mut Paper, node: Node, bar: &Bar, shows_rows: bool)
    ensures { Writes paper.old paper.new
        ((codes "<title>node " ++ decimal node ++ codes ": ") ++ stand_text bar.now.seen
        ++ behind_rows shows_rows bar.now.first bar.now.last ++ codes "</title>") }
{
    paper.push_node("<title>node ", node, ": ");
    push_stand(paper, bar.seen);
    push_behind_rows(paper, bar, shows_rows);
    paper.push("</title>");
}

// Writes after which rows the node stands so, where any are shown.
fn push_behind_rows(paper: &mut Paper, bar: &Bar, shows_rows: bool)
    ensures { Writes paper.old paper.new (behind_rows shows_rows bar.now.first bar.now.last) }
{
    if shows_rows {
        paper.push_number(", after rows ", bar.first, " to ");
        paper.push_number("", bar.last, "");
    }
}

/// Says beside a bar how the node stands after this row, where the lane has room for it.
pub fn draw_stand(canvas: &mut Canvas, node: Node, row: u32, stand: Stand) {
    let mut paper = Paper::new(canvas.alloc);
    push_label(&mut paper, stand, canvas.layout.lane);
    let words = canvas.read(&paper);
    if !words.is_empty() {
        let x = canvas.layout.x(node);
        let y = canvas.layout.y(row);
        canvas.put_beside(x, y, "#333", words);
    }
}

// Writes how the node stands, in short where the lane is narrow; nothing where it is very narrow, or the node is down.
fn push_label(paper: &mut Paper, stand: Stand, lane: u32) {
    if matches!(stand.status, Status::Down) || lane < WORDS_MIN {
        return;
    }
    if lane >= WORDS_ALL {
        push_stand(paper, stand);
    } else {
        push_followed(paper, "", "under ", stand.coordinator);
    }
}

/// The numbers of the nodes over their lanes, from node 1 on, each with the node's name if it has one.
pub fn draw_names(alloc: Global, layout: &Layout, setup: &Setup, names: &[&str]) -> Paper
    ensures { IsIn result (λ text.
        HasNodes text setup.now.nodes (λ i. option_map (λ s. s.now) (slice_get names.now i))) }
{
    let mut paper = Paper::new(alloc);
    for before in 0..setup.nodes() {
        let node = Node::new(before + 1).unwrap();
        draw_name(&mut paper, layout, node, name_at(names, before));
    }
    paper
}

/// The name at this place; none after the last.
pub fn name_at<'a>(names: &[&'a str], place: u16) -> Option<&'a str>
    ensures { option_map (λ s. s.now) result ≡ option_map (λ s. s.now) (slice_get names.now place) }
{
    let place = usize::from(place);
    if place < names.len() {
        Some(names[place])
    } else {
        None
    }
}

// Writes the name of a node over its lane.
fn draw_name(paper: &mut Paper, layout: &Layout, node: Node, name: Option<&str>)
    ensures { Gains paper.old paper.new (λ text.
        Has text (node_label (nat_le WORDS_MIN layout.now.lane) node (option_map (λ s. s.now) name.entry))) }
{
    paper.push_number("<text x=\"", layout.x(node), "\" y=\"80\"");
    paper.push_attribute("font-size", name_size(layout));
    paper.push(" font-weight=\"bold\" text-anchor=\"middle\"");
    paper.push(" unicode-bidi=\"isolate\">");
    match name {
        Some(name) => push_name(paper, node, name, layout.lane),
        None if layout.lane >= WORDS_MIN => paper.push_node("node ", node, "</text>\n"),
        None => paper.push_node("", node, "</text>\n"),
    }
}

// Writes the number of a node and as much of its name as the lane has room for, and all of it where the pointer rests.
// The name turns the direction of nothing but itself.
fn push_name(paper: &mut Paper, node: Node, name: &str, lane: u32)
    ensures { Gains paper.old paper.new (λ text. Has text (node_label (nat_le WORDS_MIN lane) node (Some name.now))) }
{
    paper.push_node("", node, ": <tspan unicode-bidi=\"isolate\">");
    paper.push_start(
        name,
        letters_in(name, lane.saturating_sub(number_width(node))),
    );
    paper.push("</tspan>");
    paper.push_node("<title>node ", node, ": ");
    paper.push_escaped(name);
    paper.push("</title></text>\n");
}

// How large names are: four digits have room in the narrowest lane.
fn name_size(layout: &Layout) -> u32 {
    if layout.nodes > 999 { 10 } else { 13 }
}

// How wide the number of a node is, with what stands between it and the name.
fn number_width(node: Node) -> u32 {
    match node.number() {
        0..=9 => 18,
        10..=99 => 27,
        100..=999 => 36,
        _ => 45,
    }
}

// How many letters of a name have room so wide, beside the dots after them; one at least.
fn letters_in(name: &str, width: u32) -> usize {
    // (15 pixels, since they are of size 13 and bold)
    letters_within(name, 15, width.saturating_sub(24)).max(1)
}
