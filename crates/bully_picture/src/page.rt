//! The picture as a whole.
ghost use Rattle.std.specs.Prelude.{◌≡◌, ℕ, ◌==◌, ◌++◌, [], codes, if◌then◌else◌, length, option_map, slice_get, IfOk};
ghost use Rattle.std.specs.Prelude.{string_bytes};
ghost use Rattle.bully_film.specs.Film.{IsFilmOf};
ghost use Rattle.bully_film.specs.Lane.{row_before};
ghost use Rattle.bully_film.specs.Scene.{lane_of as lane_seen};
ghost use Rattle.bully_film.specs.Window.{WindowState};
ghost use Rattle.bully_picture.specs.Bars.{HasLaneBars, HasStands, shows_rows};
ghost use Rattle.bully_picture.specs.Drawn.{AreNumbers, HasBelow, HasCalls, HasLanes, HasNodes, HasRows, HasSaid};
ghost use Rattle.bully_picture.specs.Drawn.{below_label, scenes_shown};
ghost use Rattle.bully_picture.specs.Head.{HasHead, head_text, title_line, title_start};
ghost use Rattle.bully_picture.specs.Title.{Has, IsDocument, counted_text, shown_text, size_text, title_text};
ghost use Rattle.bully_picture.specs.Written.{Extends, Gains, IsCopied, IsIn, Writes};
ghost use Rattle.bully_rows.specs.Trace.{Trace};

use crate::around::Around;
use crate::arrows::draw_calls;
use crate::canvas::Canvas;
use crate::claims::{Claims, is_shown};
use crate::lanes::{draw_bars, draw_names};
use crate::layout::{Layout, ROW};
use crate::marks::{draw_numbers, draw_row, draw_texts};
use crate::paper::Paper;
use bully_base::{OutOfMemory, Setup};
use bully_film::{FinishedFilm, Lane, Scene, lanes, row_before};
use bully_trace::Verdict;
use std::alloc::Global;

// How wide the texts of the rows are.
const TEXTS: u32 = 420;

// How far below the last row the text below starts: below what belongs to that row.
const BELOW: u32 = 40;

// What stands at the head of each picture.
const MARKERS: &str = "\
<defs>\
<marker id=\"call\" viewBox=\"0 0 8 8\" refX=\"7\" refY=\"4\" markerWidth=\"7\" markerHeight=\"7\" \
orient=\"auto\"><path d=\"M0 0L8 4L0 8z\" fill=\"#222\"/></marker>\n\
<marker id=\"reply\" viewBox=\"0 0 8 8\" refX=\"7\" refY=\"4\" markerWidth=\"6\" markerHeight=\"6\" \
orient=\"auto\"><path d=\"M0 0L8 4L0 8z\" fill=\"#999\"/></marker>\n\
<marker id=\"lost\" viewBox=\"0 0 8 8\" refX=\"5\" refY=\"4\" markerWidth=\"9\" markerHeight=\"9\"><path d=\"M1 1L7 \
7M7 1L1 7\" stroke=\"#D55E00\" stroke-width=\"1.6\"/></marker>\
</defs>\n\
<rect width=\"100%\" height=\"100%\" fill=\"white\"/>\n";

// What comes after the title: what the colours and signs mean.
const LEGEND: &str = "\
<line x1=\"70\" y1=\"36\" x2=\"70\" y2=\"52\" stroke=\"#aaa\" stroke-width=\"2\" stroke-dasharray=\"2 4\"/>\
<text x=\"81\" y=\"48\" font-size=\"11\">down</text>\
<rect x=\"122\" y=\"38\" width=\"12\" height=\"12\" fill=\"#E69F00\"/><text x=\"139\" y=\"48\" \
font-size=\"11\">election</text>\
<rect x=\"208\" y=\"38\" width=\"12\" height=\"12\" fill=\"#56B4E9\"/><text x=\"225\" y=\"48\" \
font-size=\"11\">reorganization</text>\
<rect x=\"336\" y=\"38\" width=\"12\" height=\"12\" fill=\"#009E73\"/><text x=\"353\" y=\"48\" \
font-size=\"11\">normal</text>\n\
<text x=\"64\" y=\"64\" font-size=\"10\" fill=\"#555\">solid: a call; dotted: its reply; a red cross: it fails; grey: \
an orphan; rings: recover and move; a black bar: a Halt cuts a procedure off</text>\n";

// What letters at arrows mean.
const LETTERS: &str = "\
<text x=\"430\" y=\"48\" font-size=\"11\">U: AreYouUp, N: AreYouNormal, H: Halt, C: NewCoordinator, R: Ready</text>\n";

/// The picture of what a film shows, with these names over the lanes, from node 1 on, and below it this text, a line
/// each. It is an SVG document. Each row has its number and what it says, but for claims that are left out; each node
/// its name, or its number where it has none; and each call that a slot holds after a row, sent or run, its arrow. In
/// a page it has no title. Refused where an allocation fails.
pub fn svg_picture(
    alloc: Global,
    finished: &FinishedFilm,
    names: &[&str],
    claims: Claims,
    around: Around,
    below: &str,
) -> Result<String, OutOfMemory>
    ensures document { IfOk result (λ text. IsDocument (string_bytes text)) }
    ensures head { IfOk result (λ text. HasHead (string_bytes text) around finished.now.verdict
        (title_text finished.now.verdict finished.now.setup.nodes finished.now.setup.partitions
        (row_before finished.now.scenes.items) (length finished.now.scenes.items))) }
    ensures rows { IfOk result (λ text. HasRows (string_bytes text) finished.now.verdict
        (scenes_shown claims finished.now.verdict finished.now.scenes.items)) }
    ensures says { IfOk result (λ text. HasSaid (string_bytes text) finished.now.verdict
        (scenes_shown claims finished.now.verdict finished.now.scenes.items)) }
    ensures nodes { IfOk result (λ text.
        HasNodes (string_bytes text) finished.now.setup.nodes (λ i. option_map (λ s. s.now) (slice_get names.now i))) }

    // Of each node it has a bar of how it stands after each row, and an arrow for each call in its slot.
    ensures bars { (window : WindowState) (trace : Trace) (is : IsFilmOf window finished.now trace)
        → IfOk result (λ text.
        HasStands (string_bytes text) (shows_rows finished.now.scenes.items) finished.now.setup.nodes
        (row_before finished.now.scenes.items) (λ i. lane_seen trace.setup is.before i is.shown)) }
    ensures calls { (window : WindowState) (trace : Trace) (is : IsFilmOf window finished.now trace)
        → IfOk result (λ text. HasCalls (string_bytes text) finished.now.setup.nodes
        (row_before finished.now.scenes.items) (λ i. lane_seen trace.setup is.before i is.shown)) }
    ensures below { IfOk result (λ text. HasBelow (string_bytes text) below.now) }
{
    let mut canvas = Canvas::new(alloc, Layout::of(alloc, finished, claims)?);
    let picture = picture_on(&mut canvas, finished, names, claims, around, below);
    picture.into_text()
}

// The picture, drawn on this canvas.
fn picture_on(
    canvas: &mut Canvas,
    finished: &FinishedFilm,
    names: &[&str],
    claims: Claims,
    around: Around,
    below: &str,
) -> Paper
    ensures document { IsIn result IsDocument }
    ensures head { IsIn result (λ text. HasHead text around finished.now.verdict
        (title_text finished.now.verdict finished.now.setup.nodes finished.now.setup.partitions
        (row_before finished.now.scenes.items) (length finished.now.scenes.items))) }
    ensures rows { IsIn result (λ text.
        HasRows text finished.now.verdict (scenes_shown claims finished.now.verdict finished.now.scenes.items)) }
    ensures says { IsIn result (λ text.
        HasSaid text finished.now.verdict (scenes_shown claims finished.now.verdict finished.now.scenes.items)) }
    ensures nodes { IsIn result (λ text.
        HasNodes text finished.now.setup.nodes (λ i. option_map (λ s. s.now) (slice_get names.now i))) }
    ensures bars { (window : WindowState) (trace : Trace) (is : IsFilmOf window finished.now trace)
        → IsIn result (λ text. HasStands text (shows_rows finished.now.scenes.items) finished.now.setup.nodes
        (row_before finished.now.scenes.items) (λ i. lane_seen trace.setup is.before i is.shown)) }
    ensures calls { (window : WindowState) (trace : Trace) (is : IsFilmOf window finished.now trace)
        → IsIn result (λ text. HasCalls text finished.now.setup.nodes (row_before finished.now.scenes.items) (λ i.
        lane_seen trace.setup is.before i is.shown)) }
    ensures below { IsIn result (λ text. HasBelow text below.now) }
{
    match lanes(canvas.alloc, finished) {
        Ok(lanes) => picture_with(
            canvas,
            finished,
            lanes.as_slice(),
            names,
            claims,
            around,
            below,
        ),
        Err(_) => Paper::failed(canvas.alloc),
    }
}

// The same with these lanes.
fn picture_with(
    canvas: &mut Canvas,
    finished: &FinishedFilm,
    lanes: &[Lane],
    names: &[&str],
    claims: Claims,
    around: Around,
    below: &str,
) -> Paper
    ensures document { IsIn result IsDocument }
    ensures head { IsIn result (λ text. HasHead text around finished.now.verdict
        (title_text finished.now.verdict finished.now.setup.nodes finished.now.setup.partitions
        (row_before finished.now.scenes.items) (length finished.now.scenes.items))) }
    ensures rows { IsIn result (λ text.
        HasRows text finished.now.verdict (scenes_shown claims finished.now.verdict finished.now.scenes.items)) }
    ensures says { IsIn result (λ text.
        HasSaid text finished.now.verdict (scenes_shown claims finished.now.verdict finished.now.scenes.items)) }
    ensures nodes { IsIn result (λ text.
        HasNodes text finished.now.setup.nodes (λ i. option_map (λ s. s.now) (slice_get names.now i))) }
    ensures bars { IsIn result (λ text. HasLaneBars text (shows_rows finished.now.scenes.items) lanes.now) }
    ensures lanes { IsIn result (λ text. HasLanes text lanes.now) }
    ensures below { IsIn result (λ text. HasBelow text below.now) }
{
    let parts = draw(canvas, finished, lanes, names, claims, below);
    let mut picture = Paper::new(canvas.alloc);
    picture.push("<svg xmlns=\"http://www.w3.org/2000/svg\"");
    push_head(&mut picture, &canvas.layout, below);
    push_title_line(&mut picture, finished, around);
    push_parts(&mut picture, canvas, &parts);
    picture.push("</svg>\n");
    picture
}

// What a picture has of each row that is shown, of each node and of each call, and the text below it.
#[derive(Drop)]
struct Parts {
    numbers: Paper,
    texts: Paper,
    names: Paper,
    bars: Paper,
    arrows: Paper,
    below: Paper,
}

// What a picture has of each lane.
#[derive(Drop)]
struct LaneParts {
    bars: Paper,
    arrows: Paper,
}

// Draws all but the head of the document and its title.
fn draw(
    canvas: &mut Canvas,
    finished: &FinishedFilm,
    lanes: &[Lane],
    names: &[&str],
    claims: Claims,
    below: &str,
) -> Parts
    ensures rows { IsIn result.numbers
        (AreNumbers finished.now.verdict (scenes_shown claims finished.now.verdict finished.now.scenes.items)) }
    ensures says { IsIn result.texts (λ text.
        HasSaid text finished.now.verdict (scenes_shown claims finished.now.verdict finished.now.scenes.items)) }
    ensures nodes { IsIn result.names (λ text.
        HasNodes text finished.now.setup.nodes (λ i. option_map (λ s. s.now) (slice_get names.now i))) }
    ensures bars { IsIn result.bars (λ text. HasLaneBars text (shows_rows finished.now.scenes.items) lanes.now) }
    ensures lanes { IsIn result.arrows (λ text. HasLanes text lanes.now) }
    ensures below { IsIn result.below (λ text. HasBelow text below.now) }
{
    canvas.lines.push(LEGEND);
    let numbers = draw_numbers(canvas, finished, claims);
    let texts = draw_texts(canvas, finished, claims);
    draw_rows(canvas, finished, claims);
    let LaneParts { bars, arrows } = draw_lanes(
        canvas,
        lanes,
        shows_rows(finished.scenes.as_slice()),
    );
    draw_letters(canvas);
    let names = draw_names(canvas.alloc, &canvas.layout, &finished.setup, names);
    let below = draw_below(canvas.alloc, &canvas.layout, below);
    Parts {
        numbers,
        texts,
        names,
        bars,
        arrows,
        below,
    }
}

// Writes what was drawn: lines and bars, above them arrows and words, and the text below.
fn push_parts(picture: &mut Paper, canvas: &Canvas, parts: &Parts)
    ensures extends { Extends picture.old picture.new }
    ensures numbers { IsIn picture.new (IsCopied parts.now.numbers) }
    ensures texts { IsIn picture.new (IsCopied parts.now.texts) }
    ensures names { IsIn picture.new (IsCopied parts.now.names) }
    ensures bars { IsIn picture.new (IsCopied parts.now.bars) }
    ensures arrows { IsIn picture.new (IsCopied parts.now.arrows) }
    ensures below { IsIn picture.new (IsCopied parts.now.below) }
{
    picture.push_paper(&canvas.lines);
    picture.push_paper(&parts.bars);
    picture.push_paper(&parts.arrows);
    picture.push_paper(&parts.numbers);
    picture.push_paper(&parts.texts);
    picture.push_paper(&parts.names);
    picture.push_paper(&canvas.words);
    picture.push_paper(&parts.below);
}

// Draws what stands at each row that is shown.
fn draw_rows(canvas: &mut Canvas, finished: &FinishedFilm, claims: Claims) {
    for scene in finished.scenes.as_slice() {
        if is_shown(claims, finished.verdict, scene) {
            draw_row(canvas, scene, finished.verdict.decides(scene.number));
        }
    }
}

// Says what letters stand for, where there are any.
fn draw_letters(canvas: &mut Canvas) {
    if canvas.has_letters() {
        canvas.words.push(LETTERS);
    }
}

// Draws the bars of these lanes, and the arrows of their calls. Whether any rows are shown is told.
fn draw_lanes(canvas: &mut Canvas, lanes: &[Lane], shows_rows: bool) -> LaneParts
    ensures bars { IsIn result.bars (λ text. HasLaneBars text shows_rows lanes.now) }
    ensures arrows { IsIn result.arrows (λ text. HasLanes text lanes.now) }
{
    let mut bars = Paper::new(canvas.alloc);
    let mut arrows = Paper::new(canvas.alloc);
    for lane in lanes {
        draw_bars(
            canvas,
            &mut bars,
            lane.node,
            lane.bars.as_slice(),
            shows_rows,
        );
        draw_calls(
            canvas,
            &mut arrows,
            lane.node,
            lane.holdings.as_slice(),
            lane.orphans.as_slice(),
        );
    }
    LaneParts { bars, arrows }
}

// Whether any rows are shown.
fn shows_rows(scenes: &[Scene]) -> bool
    ensures { result ≡ shows_rows scenes.now }
{
    scenes.first().is_some()
}

// How wide the picture is.
fn width_of(layout: &Layout) -> u32 {
    layout.right().saturating_add(74 + TEXTS).max(900)
}

// How high the picture is with these lines below it.
fn height_of(layout: &Layout, below: &str) -> u32 {
    let lines = below.lines().count().min(10_000) as u32;
    layout
        .bottom()
        .saturating_add(ROW.saturating_mul(lines))
        .saturating_add(BELOW)
}

// Writes the head of the document after its first word.
fn push_head(picture: &mut Paper, layout: &Layout, below: &str)
    ensures { (width : ℕ) × (height : ℕ) × Writes picture.old picture.new (head_text width height) }
{
    let width = width_of(layout);
    let height = height_of(layout, below);
    picture.push_attribute("width", width);
    picture.push_attribute("height", height);
    picture.push_point(" viewBox=\"0 0 ", width, height);
    picture.push("\" font-family=\"DejaVu Sans, sans-serif\">\n");
    picture.push(MARKERS);
}

// Writes the title of a picture that stands alone.
fn push_title_line(picture: &mut Paper, finished: &FinishedFilm, around: Around)
    ensures { Writes picture.old picture.new (title_line around finished.now.verdict
        (title_text finished.now.verdict finished.now.setup.nodes finished.now.setup.partitions
        (row_before finished.now.scenes.items) (length finished.now.scenes.items))) }
{
    match around {
        Around::Nothing => push_whole_title(picture, finished),
        Around::Page => {}
    }
}

// Writes the element of the title.
fn push_whole_title(picture: &mut Paper, finished: &FinishedFilm)
    ensures { Writes picture.old picture.new (title_line Around.Nothing finished.now.verdict
        (title_text finished.now.verdict finished.now.setup.nodes finished.now.setup.partitions
        (row_before finished.now.scenes.items) (length finished.now.scenes.items))) }
{
    picture.push(title_start(finished.verdict));
    push_title(picture, finished);
    picture.push("</text>\n");
}

// What stands before the words of the title.
fn title_start(verdict: Verdict) -> &'static str
    ensures { result.now ≡ title_start verdict }
{
    match verdict {
        Verdict::Lawful(_) => {
            "<text x=\"64\" y=\"24\" font-size=\"15\" font-weight=\"bold\" fill=\"#222\">"
        }
        Verdict::Refused(_, _) | Verdict::Differs(_) => {
            "<text x=\"64\" y=\"24\" font-size=\"15\" font-weight=\"bold\" fill=\"#D55E00\">"
        }
    }
}

/// Writes the words of the title: the verdict, how large the group is, and which rows are shown.
pub fn push_title(picture: &mut Paper, finished: &FinishedFilm)
    ensures { Writes picture.old picture.new
        (title_text finished.now.verdict finished.now.setup.nodes finished.now.setup.partitions
        (row_before finished.now.scenes.items) (length finished.now.scenes.items)) }
{
    picture.push_verdict(finished.verdict);
    push_size(picture, &finished.setup);
    push_shown(
        picture,
        row_before(finished.scenes.as_slice()),
        finished.scenes.len(),
    );
    picture.push(")");
}

// Writes how large the group is.
fn push_size(picture: &mut Paper, setup: &Setup)
    ensures { Writes picture.old picture.new (size_text setup.now.nodes setup.now.partitions) }
{
    push_counted(picture, " (", setup.nodes(), "node");
    push_counted(picture, ", ", setup.partitions(), "partition");
    picture.push(", ");
}

// Writes how many there are after these words, and the word for what is counted.
fn push_counted(picture: &mut Paper, before: &'static str, count: u16, word: &'static str)
    ensures { Writes picture.old picture.new (before.now ++ counted_text count word.now) }
{
    picture.push_number(before, u32::from(count), " ");
    picture.push(word);
    picture.push(plural(count));
}

// What comes after the word for what is counted.
fn plural(count: u16) -> &'static str
    ensures { result.now ≡ (if count == 1 then [] else codes "s") }
{
    if count == 1 { "" } else { "s" }
}

// Writes which rows are shown: so many after this one.
pub fn push_shown(picture: &mut Paper, before: u32, count: usize)
    ensures { Writes picture.old picture.new (shown_text before count) }
{
    if count == 0 {
        picture.push("no rows");
        return;
    }
    let before = u128::from(before);
    picture.push_count("rows ", before + 1, " to ");
    picture.push_count("", before + count as u128, "");
}

// The lines below the picture.
fn draw_below(alloc: Global, layout: &Layout, below: &str) -> Paper
    ensures { IsIn result (λ text. HasBelow text below.now) }
{
    let letters = letters_below(layout);
    let mut paper = Paper::new(alloc);
    let mut y = layout.bottom().saturating_add(BELOW);
    for line in below.lines() {
        draw_line_below(&mut paper, line, y, letters);
        y = y.saturating_add(ROW);
    }
    paper
}

// How many letters a line below the picture has room for.
fn letters_below(layout: &Layout) -> usize {
    (width_of(layout).saturating_sub(80) / 8) as usize
}

// Draws a line below the picture; where it is longer than this, its start, and all of it where the pointer rests.
fn draw_line_below(paper: &mut Paper, line: &str, y: u32, letters: usize)
    ensures { Gains paper.old paper.new (λ text. Has text (below_label letters line.now)) }
{
    paper.push_number(
        "<text x=\"64\" y=\"",
        y,
        "\" font-size=\"12\" font-family=\"DejaVu Sans Mono, monospace\" fill=\"#D55E00\"",
    );
    paper.push(" xml:space=\"preserve\">");
    paper.push_cut(line, letters);
    paper.push("</text>\n");
}
