//! Calls as arrows, and their replies.
ghost use Rattle.bully_picture.specs.Drawn.{HasHoldings, arrow_label, held_label};
ghost use Rattle.bully_picture.specs.Title.{Has};
ghost use Rattle.bully_picture.specs.Written.{Gains, Writes};

use crate::boxes::{Anchor, width_of};
use crate::canvas::{Canvas, Style, push_line};
use crate::layout::{HALF, ROW, WORDS_MIN};
use crate::paper::Paper;
use crate::words::{kind_letter, kind_text};
use bully_base::Node;
use bully_calls::{Call, CallKind, Phase};
use bully_film::{End, HeldCall, Holding, end_at};

// The lines of calls.
const PLAIN: &str = " stroke=\"#222\" stroke-width=\"1.5\" marker-end=\"url(#call)\">";

const LOST: &str =
    " stroke=\"#D55E00\" stroke-width=\"1.5\" stroke-dasharray=\"2 3\" marker-end=\"url(#lost)\">";

const GIVEN_UP: &str = " stroke=\"#999\" stroke-width=\"1.5\" marker-end=\"url(#lost)\">";

const ORPHAN: &str =
    " stroke=\"#999\" stroke-width=\"1.5\" stroke-dasharray=\"4 3\" marker-end=\"url(#reply)\">";

// Between how many lanes a letter may stand.
const GAPS: u32 = 8;

/// A line between two lanes.
#[derive(Clone, Copy)]
struct Line {
    x1: u32,
    y1: u32,
    x2: u32,
    y2: u32,
}

impl Line {
    // Where words stand at x: on the line, or above one that only starts in the last row.
    fn words_at(&self, x: u32) -> u32 {
        if self.y2.saturating_sub(self.y1) < ROW {
            return self.y1.saturating_sub(4);
        }
        self.y_at(x).saturating_add(ROW / 5)
    }

    // How high the line is where it passes x.
    fn y_at(&self, x: u32) -> u32 {
        let far = self.x2.abs_diff(self.x1);
        let down = self.y2.saturating_sub(self.y1);
        if far == 0 {
            return self.y1;
        }
        let part = x.abs_diff(self.x1).min(far);
        self.y1.saturating_add(down.saturating_mul(part) / far)
    }
}

/// Draws the calls of a node: each stretch in which one was sent as an arrow, and each in which it ran as the way back
/// of its reply. The arrows go onto a paper of their own. Whether the slot held an orphan after a row is told by its
/// place after the first one.
pub fn draw_calls(
    canvas: &mut Canvas,
    arrows: &mut Paper,
    node: Node,
    holdings: &[Holding],
    orphans: &[bool],
)
    ensures { Gains arrows.old arrows.new (λ text. HasHoldings text node holdings.now) }
{
    for (place, holding) in holdings.iter().enumerate() {
        if let Some(held) = holding.seen {
            let end = end_at(holdings, place, &held.call);
            let is_orphan = is_orphan(canvas, orphans, holding.last);
            draw_held(canvas, arrows, node, holding, held, end, is_orphan);
        }
    }
}

// Whether the slot held an orphan after this row.
fn is_orphan(canvas: &Canvas, orphans: &[bool], row: u32) -> bool {
    let place = row.saturating_sub(canvas.layout.first) as usize;
    match orphans.get(place) {
        Some(is) => *is,
        None => false,
    }
}

// Draws a stretch of a call.
fn draw_held(
    canvas: &mut Canvas,
    arrows: &mut Paper,
    node: Node,
    holding: &Holding,
    held: HeldCall,
    end: End,
    is_orphan: bool,
)
    ensures { Gains arrows.old arrows.new (λ text.
        Has text (held_label node holding.now.first holding.now.last (Some held))) }
{
    match held.phase {
        Phase::Sent => draw_call(canvas, arrows, node, holding, &held.call, end, is_orphan),
        Phase::Ran(_) => draw_reply(canvas, arrows, node, holding, &held.call, end),
        Phase::Failed => {}
    }
}

// The line of a stretch, from one lane to the other; only half the way to the next lane where the call gets no further.
fn line_of(canvas: &Canvas, from: Node, to: Node, holding: &Holding, gets_there: bool) -> Line {
    let (x1, x2) = beside_bars(canvas.layout.x(from), canvas.layout.x(to));
    let whole = Line {
        x1,
        y1: canvas.layout.y(holding.first),
        x2,
        y2: canvas.layout.end(holding.last),
    };
    if gets_there {
        whole
    } else {
        halfway(whole, canvas.layout.lane / 2)
    }
}

// The line up to where it is so far from its start.
fn halfway(line: Line, far: u32) -> Line {
    let far = far.saturating_sub(HALF + 1);
    let x2 = if line.x1 < line.x2 {
        line.x1.saturating_add(far)
    } else {
        line.x1.saturating_sub(far)
    };
    Line { x2, ..line }
}

// The two, each at the side of its bar.
fn beside_bars(x1: u32, x2: u32) -> (u32, u32) {
    if x1 < x2 {
        (x1.saturating_add(HALF + 1), x2.saturating_sub(HALF + 1))
    } else {
        (x1.saturating_sub(HALF + 1), x2.saturating_add(HALF + 1))
    }
}

// Draws a call that was sent.
fn draw_call(
    canvas: &mut Canvas,
    arrows: &mut Paper,
    node: Node,
    holding: &Holding,
    call: &Call,
    end: End,
    is_orphan: bool,
)
    ensures { Gains arrows.old arrows.new (λ text.
        Has text (arrow_label node call.now holding.now.first holding.now.last)) }
{
    let gets_there = matches!(end, End::Ran | End::Failed);
    let line = line_of(canvas, node, call.callee, holding, gets_there);
    let look = look_of(end, is_orphan);
    push_arrow(arrows, &line, look.style, node, call, holding);
    label_call(canvas, &line, call.kind, look);
}

// Writes a line of this style between two lanes, and what is shown where the pointer rests on it.
fn push_arrow(
    arrows: &mut Paper,
    line: &Line,
    style: &'static str,
    node: Node,
    call: &Call,
    holding: &Holding,
)
    ensures { Gains arrows.old arrows.new (λ text.
        Has text (arrow_label node call.now holding.now.first holding.now.last)) }
{
    push_line(arrows, line.x1, line.y1, line.x2, line.y2);
    arrows.push(style);
    push_title(arrows, node, call, holding);
}

// Writes what call it is between two lanes: with all words, with its kind alone, in small letters where it must be,
// or by a letter, where no words have room; nowhere where nothing is free.
fn label_call(canvas: &mut Canvas, line: &Line, call: CallKind, look: Look) {
    let kind = kind_text(call);
    let mut paper = Paper::new(canvas.alloc);
    paper.push(kind);
    paper.push(look.ending);
    let words = canvas.read(&paper);
    let style = words_style(look.colour);
    let small = Style { size: 9, ..style };
    let has_room = canvas.layout.lane >= WORDS_MIN
        && (put_between(canvas, line, style, words)
            || put_between(canvas, line, style, kind)
            || put_between(canvas, line, small, kind));
    if !has_room {
        put_letter(canvas, line, small, kind_letter(call));
    }
}

// Writes a letter between two of the last lanes before the line's end, and notes that there is one; nowhere where
// nothing is free.
fn put_letter(canvas: &mut Canvas, line: &Line, style: Style, letter: &'static str) {
    let last = canvas.layout.gap_at(line.x2);
    for step in 0..GAPS {
        let lane = if line.x1 < line.x2 {
            last.saturating_sub(step)
        } else {
            last.saturating_add(step)
        };
        let gap = canvas.layout.gap(lane);
        if put_in_gap(canvas, line, gap, style, letter) {
            canvas.note_letter();
            return;
        }
    }
}

// How a call looks: the style of its line, the colour of its words, and what these say after its kind.
#[derive(Clone, Copy)]
struct Look {
    style: &'static str,
    colour: &'static str,
    ending: &'static str,
}

// How a call looks that ends so. Of one that is given up its grey line tells whether it is an orphan.
fn look_of(end: End, is_orphan: bool) -> Look {
    let (style, colour) = match (end, is_orphan) {
        (End::Failed, _) => (LOST, "#D55E00"),
        (_, true) => (ORPHAN, "#777"),
        (End::GivenUp, false) => (GIVEN_UP, "#777"),
        _ => (PLAIN, "#222"),
    };
    let ending = match (end, is_orphan) {
        (End::Ran, false) => "",
        (End::Ran, true) => ", orphan",
        (End::Failed, false) => " fails",
        (End::Failed, true) => " fails, orphan",
        (End::GivenUp, _) => ", given up",
        (End::UnderWay, false) => ", under way",
        (End::UnderWay, true) => ", under way, orphan",
    };
    Look {
        style,
        colour,
        ending,
    }
}

fn words_style(colour: &'static str) -> Style {
    Style {
        anchor: Anchor::Middle,
        size: 11,
        colour,
        has_ground: true,
    }
}

// Writes the words at the first place on the line that is free, and tells whether there is one: between two lanes,
// beginning with those where the line ends.
fn put_between(canvas: &mut Canvas, line: &Line, style: Style, words: &str) -> bool {
    let nodes = canvas.layout.nodes;
    for step in 0..nodes {
        let lane = if line.x1 < line.x2 {
            nodes.saturating_sub(step.saturating_add(1))
        } else {
            step
        };
        let gap = canvas.layout.gap(lane);
        if put_in_gap(canvas, line, gap, style, words) {
            return true;
        }
    }
    false
}

// The same between these two lanes alone, where the line goes between them and the words have room there.
fn put_in_gap(
    canvas: &mut Canvas,
    line: &Line,
    gap: (u32, u32),
    style: Style,
    words: &str,
) -> bool {
    let (left, right) = gap;
    let half = (width_of(words, style.size) / 2).saturating_add(1);
    let (least, most) = (left.saturating_add(half), right.saturating_sub(half));
    let Some((from, to)) = stretch_in(line, left, right) else {
        return false;
    };
    if least > most {
        return false;
    }
    for part in [4u32, 3, 5, 2, 6, 1, 7] {
        let x = along(from, to, part);
        let y = line.words_at(x);
        if canvas.put(x.max(least).min(most), y, style, words) {
            return true;
        }
    }
    false
}

// From where to where the line goes between these two ends; none where it doesn't.
fn stretch_in(line: &Line, left: u32, right: u32) -> Option<(u32, u32)> {
    let from = line.x1.min(line.x2).max(left);
    let to = line.x1.max(line.x2).min(right);
    if from < to { Some((from, to)) } else { None }
}

// So many eighths of the way from one to the other.
fn along(one: u32, other: u32, part: u32) -> u32 {
    let rest = 8u32.saturating_sub(part);
    one.saturating_mul(rest)
        .saturating_add(other.saturating_mul(part))
        / 8
}

// Draws the way of a reply back to its caller.
fn draw_reply(
    canvas: &mut Canvas,
    arrows: &mut Paper,
    node: Node,
    holding: &Holding,
    call: &Call,
    end: End,
)
    ensures { Gains arrows.old arrows.new (λ text.
        Has text (arrow_label node call.now holding.now.first holding.now.last)) }
{
    let returns = canvas.returned_in(holding.last.saturating_add(1));
    let line = line_of(canvas, call.callee, node, holding, returns);
    let style = reply_style(end, returns);
    push_arrow(arrows, &line, style, node, call, holding);
}

fn reply_style(end: End, returns: bool) -> &'static str {
    match end {
        End::Failed => {
            " stroke=\"#D55E00\" stroke-width=\"1.2\" stroke-dasharray=\"1 3\" marker-end=\"url(#lost)\">"
        }
        End::GivenUp if !returns => {
            " stroke=\"#888\" stroke-width=\"1.2\" stroke-dasharray=\"1 3\" marker-end=\"url(#lost)\">"
        }
        _ => {
            " stroke=\"#888\" stroke-width=\"1.2\" stroke-dasharray=\"1 3\" marker-end=\"url(#reply)\">"
        }
    }
}

// Writes what is shown where the pointer rests on an arrow, and the end of its element.
fn push_title(arrows: &mut Paper, node: Node, call: &Call, holding: &Holding)
    ensures { Writes arrows.old arrows.new (arrow_label node call.now holding.now.first holding.now.last) }
{
    arrows.push_node("<title>node ", node, ": ");
    arrows.push(kind_text(call.kind));
    arrows.push_node(" to ", call.callee, ", in its slot after rows ");
    arrows.push_number("", holding.first, " to ");
    arrows.push_number("", holding.last, "</title></line>\n");
}
