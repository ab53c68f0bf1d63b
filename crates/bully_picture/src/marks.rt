//! What stands at a row: its number and its text, marks on the lanes, and tables.
ghost use Rattle.std.specs.Prelude.{◌≡◌, ℕ, codes, if◌then◌else◌};
ghost use Rattle.bully_picture.specs.Drawn.{AreNumbers, HasSaid, HasText, getting_text, is_plan, number_text};
ghost use Rattle.bully_picture.specs.Drawn.{scenes_shown, tail_text};
ghost use Rattle.bully_picture.specs.Written.{Extends, Gains, IsIn, Writes};

use crate::boxes::{Anchor, Area, letters_within, width_of};
use crate::canvas::{Canvas, Style, push_place};
use crate::claims::{Claims, is_shown};
use crate::lanes::draw_stand;
use crate::layout::{ASIDE, HALF, Layout, WORDS_MIN};
use crate::paper::Paper;
use crate::words::{push_meaning, push_said};
use bully_base::Node;
use bully_calls::{EventKind, NodeEventKind};
use bully_film::{FinishedFilm, Scene, Seen, Stand};
use bully_table::Table;

// What is said of a table that is too long to be shown.
const LONG_TABLE: &str = "gets a table";

// How large the numbers and the texts of rows are, and how wide a text and what stands after it.
const TEXT_SIZE: u32 = 10;

const TEXTS: u32 = 408;

// The colour of what the row that decided says.
const DECIDED: &str = "#D55E00";

/// The numbers of the rows that are shown, each at the left of its line. Their boxes are taken, so that no words lie on
/// them.
pub fn draw_numbers(canvas: &mut Canvas, finished: &FinishedFilm, claims: Claims) -> Paper
    ensures { IsIn result
        (AreNumbers finished.now.verdict (scenes_shown claims finished.now.verdict finished.now.scenes.items)) }
{
    let mut numbers = Paper::new(canvas.alloc);
    for scene in finished.scenes.as_slice() {
        if is_shown(claims, finished.verdict, scene) {
            let number = scene.number;
            draw_number(
                canvas,
                &mut numbers,
                number,
                finished.verdict.decides(number),
            );
        }
    }
    numbers
}

// Writes the number of a row at the left.
fn draw_number(canvas: &mut Canvas, numbers: &mut Paper, number: u32, decides: bool)
    ensures { (y : ℕ) × Writes numbers.old numbers.new (number_text y decides number) }
{
    let y = canvas.layout.y(number).saturating_add(4);
    let mut digits = Paper::new(canvas.alloc);
    digits.push_number("", number, "");
    let words = canvas.read(&digits);
    canvas.keep_free(48, y, plain_style(Anchor::End, ""), words);
    push_digits(numbers, y, number, decides);
}

// Writes the number of a row at this height.
fn push_digits(numbers: &mut Paper, y: u32, number: u32, decides: bool)
    ensures { Writes numbers.old numbers.new (number_text y decides number) }
{
    numbers.push_number(
        "<text x=\"48\" y=\"",
        y,
        "\" font-size=\"10\" text-anchor=\"end\" fill=\"",
    );
    numbers.push(colour_of(decides, "#777"));
    numbers.push_number("\">", number, "</text>\n");
}

/// The texts of the rows that are shown, each at the right of its line, whose boxes are taken, too.
pub fn draw_texts(canvas: &mut Canvas, finished: &FinishedFilm, claims: Claims) -> Paper
    ensures { IsIn result (λ text.
        HasSaid text finished.now.verdict (scenes_shown claims finished.now.verdict finished.now.scenes.items)) }
{
    let mut texts = Paper::new(canvas.alloc);
    for scene in finished.scenes.as_slice() {
        if is_shown(claims, finished.verdict, scene) {
            let decides = finished.verdict.decides(scene.number);
            draw_text(canvas, &mut texts, scene, decides);
        }
    }
    texts
}

// Writes the text of a row at the right, as much of it as there is room for, and what it does, where that doesn't say
// it.
fn draw_text(canvas: &mut Canvas, texts: &mut Paper, scene: &Scene, decides: bool)
    ensures { Gains texts.old texts.new (λ text. HasText text decides scene.now) }
{
    let has_room = has_room(&canvas.layout, scene);
    let mut said = Paper::new(canvas.alloc);
    push_said(&mut said, scene);
    let mut tail = Paper::new(canvas.alloc);
    push_tail(&mut tail, scene, decides, has_room);
    let letters = keep_text_free(canvas, scene, decides, &said, &tail);
    push_text_place(texts, &canvas.layout, scene.number);
    texts.push(" fill=\"");
    texts.push(colour_of(decides, "#555"));
    texts.push("\">");
    texts.push_cut_paper(&said, letters);
    texts.push_paper(&tail);
    texts.push("</text>\n");
}

// Writes where the text of the row of this number stands.
fn push_text_place(texts: &mut Paper, layout: &Layout, number: u32)
    ensures { Extends texts.old texts.new }
{
    let y = layout.y(number).saturating_add(4);
    push_place(texts, layout.texts(), y, plain_style(Anchor::Start, ""));
}

// Takes the box of the text of a row, and tells how many letters of what it says have room in it before its tail, and a
// table after that.
fn keep_text_free(
    canvas: &mut Canvas,
    scene: &Scene,
    decides: bool,
    said: &Paper,
    tail: &Paper,
) -> usize {
    let tail = width_of(canvas.read(tail), TEXT_SIZE);
    let table = if decides {
        0
    } else {
        table_behind(&canvas.layout, scene)
    };
    let room = TEXTS.saturating_sub(tail).saturating_sub(table);
    let said = canvas.read(said);
    let letters = letters_in(said, room);
    let width = width_of(said, TEXT_SIZE).min(room).saturating_add(tail);
    let area = Area {
        x: canvas.layout.texts(),
        y: canvas.layout.y(scene.number).saturating_sub(6),
        width,
        height: 13,
    };
    canvas.take(area);
    canvas.note_end(area.x.saturating_add(width));
    letters
}

// How many letters of a text have so much room: all, or those with dots after them.
fn letters_in(said: &str, room: u32) -> usize {
    if width_of(said, TEXT_SIZE) <= room {
        return said.len();
    }
    letters_within(said, TEXT_SIZE, room.saturating_sub(12))
}

// How wide the table is that stands after the text of a row; nothing where none does.
fn table_behind(layout: &Layout, scene: &Scene) -> u32 {
    if !scene.gets_table || scene.table.is_none() || has_room(layout, scene) {
        return 0;
    }
    table_width(layout, scene).saturating_add(8)
}

/// Draws what stands at a row; whether it decided is told.
pub fn draw_row(canvas: &mut Canvas, scene: &Scene, decides: bool) {
    let y = canvas.layout.y(scene.number);
    draw_ground(canvas, scene.number, y, decides);
    if !decides {
        draw_change(canvas, scene);
        draw_marks(canvas, scene, y);
        draw_table(canvas, scene, y);
    }
}

// Shades the line of the row that decided; of each fifth of the others, a faint line goes from its number to its text.
fn draw_ground(canvas: &mut Canvas, number: u32, y: u32, decides: bool) {
    if decides {
        let top = y.saturating_sub(9);
        canvas.lines.push_number(
            "<rect id=\"decided\" x=\"0\" y=\"",
            top,
            "\" width=\"100%\" height=\"18\" fill=\"#D55E00\" fill-opacity=\".14\"/>\n",
        );
    } else if number.is_multiple_of(5) {
        let right = canvas.layout.texts().saturating_sub(8);
        canvas.lines.push_number("<path d=\"M56 ", y, "H");
        canvas
            .lines
            .push_number("", right, "\" stroke=\"#eee\"/>\n");
    }
}

fn colour_of(decides: bool, plain: &'static str) -> &'static str
    ensures { result.now ≡ (if decides then DECIDED.now else plain.now) }
{
    if decides { DECIDED } else { plain }
}

// Words without a ground.
fn plain_style(anchor: Anchor, colour: &'static str) -> Style {
    Style {
        anchor,
        size: TEXT_SIZE,
        colour,
        has_ground: false,
    }
}

// Writes what a row does after its text; and of a table that has no room at its lane, who gets it.
fn push_tail(paper: &mut Paper, scene: &Scene, decides: bool, has_room: bool)
    ensures { Writes paper.old paper.new (tail_text has_room decides scene.now) }
{
    if !decides && scene.gets_table && !has_room {
        push_getting(paper, scene);
    } else {
        push_meaning(paper, scene, decides);
    }
}

// Writes who gets a table, which comes after the text where it is shown.
fn push_getting(paper: &mut Paper, scene: &Scene)
    ensures { Writes paper.old paper.new (getting_text scene.now) }
{
    let shows_table = scene.table.is_some();
    if shows_table && is_plan(scene.event_kind) {
        paper.push(":");
    } else {
        paper.push_node(": ", scene.other.node, " ");
        paper.push(getting_words(shows_table));
    }
}

fn is_plan(event_kind: Option<EventKind>) -> bool
    ensures { result ≡ is_plan event_kind }
{
    matches!(event_kind, Some(EventKind::Plan))
}

// What is said of a node that gets a table, which is shown after that or isn't.
fn getting_words(shows_table: bool) -> &'static str
    ensures { result.now ≡ (if shows_table then codes "gets" else codes "gets a table") }
{
    if shows_table { "gets" } else { LONG_TABLE }
}

// Whether what is said of the table has room at the lane of the node that gets it.
fn has_room(layout: &Layout, scene: &Scene) -> bool {
    table_width(layout, scene) <= layout.room(scene.other.node)
}

// How wide what is said of the table is.
fn table_width(layout: &Layout, scene: &Scene) -> u32 {
    match &scene.table {
        Some(table) => owner_width(layout).saturating_mul(table.len().min(1000) as u32),
        None => width_of(LONG_TABLE, 10),
    }
}

// How wide the box of an owner is.
fn owner_width(layout: &Layout) -> u32 {
    match layout.nodes {
        0..=9 => 13,
        10..=99 => 16,
        _ => 22,
    }
}

// How large the number of an owner is, so that four digits have room in its box.
fn owner_size(layout: &Layout) -> u32 {
    if layout.nodes > 999 { 8 } else { 10 }
}

// Says how a node stands after the row, where that changes it: before the words of calls, which have more places to
// stand at.
fn draw_change(canvas: &mut Canvas, scene: &Scene) {
    let before = Stand::seen_in(&scene.other.before);
    let after = Stand::seen_in(&scene.other.after);
    if before != after {
        draw_stand(canvas, scene.other.node, scene.number, after);
    }
}

// Draws the marks of a row that was taken.
fn draw_marks(canvas: &mut Canvas, scene: &Scene, y: u32) {
    if scene.cuts {
        draw_cut(canvas, scene.other.node, y);
    }
    let x = canvas.layout.x(scene.own.node);
    match scene.event_kind {
        Some(EventKind::Node(NodeEventKind::Recover)) => draw_ring(canvas, x, y, 6, "#E69F00"),
        Some(EventKind::Node(NodeEventKind::Move)) => draw_ring(canvas, x, y, 3, "#333"),
        Some(EventKind::Node(NodeEventKind::Crash)) => draw_crash(canvas, x, y),
        Some(EventKind::Node(NodeEventKind::Return)) => canvas.note_return(scene.number),
        event_kind => draw_word(canvas, x, y, "#777", word_of(event_kind)),
    }
}

// The word beside the lane for a row that has no other mark.
fn word_of(event_kind: Option<EventKind>) -> &'static str {
    match event_kind {
        Some(EventKind::Node(NodeEventKind::Check)) => "check",
        Some(EventKind::Node(NodeEventKind::Timeout)) => "timeout",
        None => "saw",
        _ => "",
    }
}

// A black bar across the lane, where a Halt cuts a procedure off.
fn draw_cut(canvas: &mut Canvas, node: Node, y: u32) {
    let x = canvas.layout.x(node);
    let left = x.saturating_sub(HALF + 4);
    let right = x.saturating_add(HALF + 4);
    let words = &mut canvas.words;
    words.push_point("<path d=\"M", left, y);
    words.push_number("H", right, "\" stroke=\"#222\" stroke-width=\"3\"/>\n");
}

// A ring on the lane.
fn draw_ring(canvas: &mut Canvas, x: u32, y: u32, radius: u32, shade: &'static str) {
    let words = &mut canvas.words;
    words.push("<circle");
    words.push_attribute("cx", x);
    words.push_attribute("cy", y);
    words.push_attribute("r", radius);
    words.push(" fill=\"#fff\" stroke=\"");
    words.push(shade);
    words.push("\" stroke-width=\"2\"/>\n");
}

// A cross where a node crashes.
fn draw_crash(canvas: &mut Canvas, x: u32, y: u32) {
    let left = x.saturating_sub(6);
    let right = x.saturating_add(6);
    let top = y.saturating_sub(6);
    let bottom = y.saturating_add(6);
    let words = &mut canvas.words;
    words.push_point("<path d=\"M", left, top);
    words.push_point("L", right, bottom);
    words.push_point("M", right, top);
    words.push_point("L", left, bottom);
    words.push("\" stroke=\"#D55E00\" stroke-width=\"2.5\"/>\n");
    draw_word(canvas, x, y, DECIDED, "crash");
}

// A word beside the lane, in this colour, where the lane has room for it.
fn draw_word(canvas: &mut Canvas, x: u32, y: u32, colour: &'static str, word: &str) {
    if !word.is_empty() && canvas.layout.lane >= WORDS_MIN {
        canvas.put_beside(x, y, colour, word);
    }
}

// The table that a node gets by the row: its owners in small boxes, or that it gets one. Where that has no room at the
// lane, it comes after the text of the row, which ends there.
fn draw_table(canvas: &mut Canvas, scene: &Scene, y: u32) {
    if !scene.gets_table {
        return;
    }
    let end = canvas.end_of(scene.number);
    let has_room = has_room(&canvas.layout, scene);
    let x = canvas.layout.x(scene.other.node).saturating_add(ASIDE);
    match &scene.table {
        Some(table) if has_room => draw_owners(canvas, table, x, y.saturating_add(7)),
        Some(table) => draw_owners(canvas, table, end.saturating_add(6), y.saturating_sub(6)),
        None if has_room => draw_long_table(canvas, x, y),
        None => {}
    }
}

// That the node gets a table.
fn draw_long_table(canvas: &mut Canvas, x: u32, y: u32) {
    let style = Style {
        has_ground: true,
        ..plain_style(Anchor::Start, "#333")
    };
    canvas.put(x, y.saturating_add(17), style, LONG_TABLE);
}

// Small boxes, an owner a partition, where they are free.
fn draw_owners(canvas: &mut Canvas, table: &Table, x: u32, top: u32) {
    let width = owner_width(&canvas.layout);
    let whole = width.saturating_mul(table.len().min(1000) as u32);
    if !canvas.put_frame(x, top, whole) {
        return;
    }
    let mut left = x;
    for place in 0..table.len() {
        draw_owner(canvas, table.owner(place), left, top, width);
        left = left.saturating_add(width);
    }
}

// The number of an owner, and a line at its left end.
fn draw_owner(canvas: &mut Canvas, owner: Node, x: u32, top: u32, width: u32) {
    let size = owner_size(&canvas.layout);
    let middle = x.saturating_add(width / 2);
    let line = top.saturating_add(10);
    let words = &mut canvas.words;
    words.push_point("<path d=\"M", x, top);
    words.push("v13\" stroke=\"#009E73\"/>\n<text");
    words.push_attribute("x", middle);
    words.push_attribute("y", line);
    words.push_attribute("font-size", size);
    words.push_node(" text-anchor=\"middle\" fill=\"#222\">", owner, "</text>\n");
}
