//! The picture for a terminal: a line for each row that changes what a node is.
ghost use Rattle.std.specs.Prelude.{◌≡◌, ◌≤◌, ◌-◌, [], ◌∷◌, ◌++◌, codes, length, max, replicate, IfOk, OnOk};
ghost use Rattle.std.specs.Prelude.{string_bytes};
ghost use Rattle.std.specs.Fmt.{decimal};
ghost use Rattle.bully_base.specs.Places.{put_node};
ghost use Rattle.bully_film.specs.Behind.{world_behind};
ghost use Rattle.bully_film.specs.Film.{IsFilmOf};
ghost use Rattle.bully_film.specs.Lane.{row_before};
ghost use Rattle.bully_film.specs.Scene.{snapshot, snapshots_of};
ghost use Rattle.bully_film.specs.Window.{WindowState};
ghost use Rattle.bully_picture.specs.Title.{Begins, Ends};
ghost use Rattle.bully_picture.specs.Told.{back_text, cell_text, cells_text, change_text, change_words, column_letter};
ghost use Rattle.bully_picture.specs.Told.{column_of, column_word, columns_text, filled, form_of, front_text};
ghost use Rattle.bully_picture.specs.Told.{heads_text, is_told, name_text, names_text, quiet_text, shown_line};
ghost use Rattle.bully_picture.specs.Told.{tells_change, told_behind, told_from, told_line, told_text};
ghost use Rattle.bully_picture.specs.Words.{followed_text};
ghost use Rattle.bully_picture.specs.Written.{Extends, Writes};
ghost use Rattle.bully_rows.specs.Trace.{Trace};
ghost use Rattle.bully_trace.specs.OneRow.{decides};
ghost use Rattle.bully_trace.specs.VerdictText.{verdict_head};

use crate::page::push_shown;
use crate::paper::Paper;
use crate::words::{is_same_stand, push_followed, push_meaning, push_row_text};
use bully_base::{Node, OutOfMemory, Status};
use bully_film::{Change, FinishedFilm, NodeSnapshot, Scene, lane_of, row_before};
use std::alloc::{AllocError, Global};

/// How the columns of the nodes look: a word of the status with the coordinator, where there are few; a letter with the
/// coordinator; a letter alone, with what the row changes after all of them; or that alone, where they are too many
/// for a line.
#[derive(Clone, Copy)]
pub enum Form {
    Words,
    Short,
    Letters,
    Changes,
}

impl Form {
    // The form for so many nodes.
    fn of(nodes: u16) -> Form
        ensures { result ≡ form_of nodes }
    {
        match nodes {
            0..=6 => Form::Words,
            7..=20 => Form::Short,
            21..=100 => Form::Letters,
            _ => Form::Changes,
        }
    }

    // How wide the column of a node is.
    fn column(self) -> usize
        ensures { result ≡ column_of self }
    {
        match self {
            Form::Words => 9,
            Form::Short => 4,
            Form::Letters => 1,
            Form::Changes => 0,
        }
    }

    // Whether what the row changes comes after the columns.
    fn tells_change(self) -> bool
        ensures { result ≡ tells_change self }
    {
        matches!(self, Form::Letters | Form::Changes)
    }

    // What stands before the heads of the columns: what the letters mean, where there are any, and the head of the
    // row's number.
    fn front(self) -> &'static str
        ensures { result.now ≡ front_text self }
    {
        match self {
            Form::Words | Form::Changes => "    row  ",
            Form::Short | Form::Letters => {
                "- down, E election, R reorganization, N normal\n    row  "
            }
        }
    }

    // What comes after the heads of the columns: the head of what the row changes, where that comes after them, and
    // of its text.
    fn back(self) -> &'static str
        ensures { result.now ≡ back_text self }
    {
        match self {
            Form::Words | Form::Short => "what it says",
            Form::Letters | Form::Changes => "  changes       what it says",
        }
    }
}

// How wide what a row changes is, as `64: reorg 64`.
const CHANGE: usize = 16;

/// The picture of what a film shows as text: the verdict; which rows are shown; a line for each row that changes a
/// status or a coordinator, and for the one that decided, with those of each node in a column; and how many rows lie
/// between. Below it stands this text. Refused where an allocation fails.
pub fn text_picture(
    alloc: Global,
    finished: &FinishedFilm,
    below: &str,
) -> Result<String, OutOfMemory>
    ensures verdict { IfOk result (λ text. Begins (string_bytes text) (verdict_head finished.now.verdict)) }

    // Each node stands in the line of a row as it does in the world after it.
    ensures whole { (window : WindowState) (trace : Trace) (is : IsFilmOf window finished.now trace)
        → IfOk result (λ text. string_bytes text ≡ columns_text finished.now.verdict finished.now.setup.nodes
        (row_before finished.now.scenes.items) (length finished.now.scenes.items)
        (told_from trace.setup is.before is.shown) ++ below.now) }
    ensures below { IfOk result (λ text. Ends (string_bytes text) below.now) }
{
    let mut text = lines_of(alloc, finished)?;
    text.push_str(below)?;
    Ok(text)
}

// The verdict and the lines of the rows.
fn lines_of(alloc: Global, finished: &FinishedFilm) -> Result<String, OutOfMemory>
    ensures verdict { IfOk result (λ text. Begins (string_bytes text) (verdict_head finished.now.verdict)) }
    ensures whole { (window : WindowState) (trace : Trace) (is : IsFilmOf window finished.now trace)
        → IfOk result (λ text. string_bytes text ≡ columns_text finished.now.verdict finished.now.setup.nodes
        (row_before finished.now.scenes.items) (length finished.now.scenes.items)
        (told_from trace.setup is.before is.shown)) }
{
    let mut lines = Paper::new(alloc);
    lines.push_verdict(finished.verdict);
    push_shown_line(&mut lines, finished);
    push_lines(alloc, &mut lines, finished)?;
    lines.into_text()
}

// Writes which rows are shown.
fn push_shown_line(lines: &mut Paper, finished: &FinishedFilm)
    ensures { Writes lines.old lines.new
        (shown_line (row_before finished.now.scenes.items) (length finished.now.scenes.items)) }
{
    let scenes = finished.scenes.as_slice();
    push_shown(lines, row_before(scenes), scenes.len());
    lines.push("\n");
}

// Writes the heads of the columns and the lines of the rows.
fn push_lines(alloc: Global, lines: &mut Paper, finished: &FinishedFilm) -> Result<(), OutOfMemory>
    ensures extends { OnOk result (Extends lines.old lines.new) }
    ensures whole { (window : WindowState) (trace : Trace) (is : IsFilmOf window finished.now trace)
        → OnOk result (Writes lines.old lines.new
        (heads_text finished.now.setup.nodes ++ told_text finished.now.verdict finished.now.setup.nodes 0
        (told_from trace.setup is.before is.shown) ++ codes "\n")) }
{
    let mut now = Vec::with_capacity(alloc, usize::from(finished.setup.nodes()))?;
    push_starts(alloc, &mut now, finished)?;
    push_rows(lines, finished, now.as_mut_slice());
    Ok(())
}

// Appends how each node stands before the first row, from node 1 on.
fn push_starts(
    alloc: Global,
    now: &mut Vec<NodeSnapshot>,
    finished: &FinishedFilm,
) -> Result<(), OutOfMemory>
    requires { now.old.items ≡ [] }
    ensures { (window : WindowState) (trace : Trace) (is : IsFilmOf window finished.now trace)
        → OnOk result (now.new.items ≡ snapshots_of (world_behind trace.setup is.before) 1 finished.now.setup.nodes) }
{
    for before in 0..finished.setup.nodes() {
        let node = Node::new(before + 1).unwrap();
        push_start(alloc, now, finished, node)?;
    }
    Ok(())
}

// Appends how the node stands before the first row. Refused where an allocation fails; and where the lane is empty,
// which none is.
fn push_start(
    alloc: Global,
    now: &mut Vec<NodeSnapshot>,
    finished: &FinishedFilm,
    node: Node,
) -> Result<(), OutOfMemory>
    requires { node ≤ finished.now.setup.nodes }
    ensures { (window : WindowState) (trace : Trace) (is : IsFilmOf window finished.now trace)
        → OnOk result (now.new.items ≡ now.old.items ++ snapshot (world_behind trace.setup is.before) node ∷ []) }
{
    let lane = lane_of(alloc, finished, node)?;
    match lane.as_slice().first() {
        Some(start) => {
            now.push(*start)?;
            Ok(())
        }
        None => Err(AllocError),
    }
}

// Writes the heads of the columns and the lines of the rows, before which the nodes stand so. Each line starts with the
// line feed of the one before it.
fn push_rows(lines: &mut Paper, finished: &FinishedFilm, now: &mut [NodeSnapshot])
    ensures { Writes lines.old lines.new
        (heads_text finished.now.setup.nodes ++ told_text finished.now.verdict finished.now.setup.nodes 0
        (told_behind now.old finished.now.scenes.items) ++ codes "\n") }
{
    push_heads(lines, finished.setup.nodes());
    push_told(lines, finished, now);
    lines.push("\n");
}

// Writes the lines of the rows.
fn push_told(lines: &mut Paper, finished: &FinishedFilm, now: &mut [NodeSnapshot])
    ensures { Writes lines.old lines.new
        (told_text finished.now.verdict finished.now.setup.nodes 0 (told_behind now.old finished.now.scenes.items)) }
{
    let mut quiet = 0usize;
    for scene in finished.scenes.as_slice() {
        put(now, &scene.other);
        put(now, &scene.own);
        if speaks(finished, scene) {
            push_quiet(lines, quiet);
            quiet = 0;
            push_line(lines, finished, scene, now);
        } else {
            quiet += 1;
        }
    }
    push_quiet(lines, quiet);
}

// Whether the row has a line: it changes what a node is, or it decided.
fn speaks(finished: &FinishedFilm, scene: &Scene) -> bool
    ensures { result ≡ is_told finished.now.verdict scene.now }
{
    finished.verdict.decides(scene.number)
        || !is_same_stand(&scene.other.before, &scene.other.after)
}

// The node stands as it does after the change, if it is one of these.
fn put(now: &mut [NodeSnapshot], change: &Change)
    ensures { now.new ≡ put_node now.old change.now.node change.now.after }
{
    let place = usize::from(change.node.number() - 1);
    if place < now.len() {
        now[place] = change.after;
    }
}

// Writes what the letters mean, and the heads of the columns.
fn push_heads(lines: &mut Paper, nodes: u16)
    ensures { Writes lines.old lines.new (heads_text nodes) }
{
    let form = Form::of(nodes);
    lines.push(form.front());
    push_names(lines, form, nodes);
    lines.push(form.back());
}

// Writes the heads of the nodes' columns.
fn push_names(lines: &mut Paper, form: Form, nodes: u16)
    ensures { Writes lines.old lines.new (names_text form nodes) }
{
    for before in 0..nodes {
        push_name(lines, form, before + 1);
    }
}

// Writes the head of a node's column: its number; of a column of one letter a mark, with the tens at each tenth.
fn push_name(lines: &mut Paper, form: Form, number: u16)
    ensures { Writes lines.old lines.new (name_text form number) }
{
    match form {
        Form::Words => push_number(lines, number, form.column()),
        Form::Short => push_number(lines, number, form.column()),
        Form::Letters => push_mark(lines, number),
        Form::Changes => {}
    }
}

// Writes a number in a column.
fn push_number(lines: &mut Paper, number: u16, column: usize)
    ensures { Writes lines.old lines.new (filled column (decimal number)) }
{
    let start = lines.len();
    lines.push_number("", u32::from(number), "");
    fill(lines, start, column);
}

// Writes the mark of a node in a column of one letter.
fn push_mark(lines: &mut Paper, number: u16)
    ensures { Writes lines.old lines.new (name_text Form.Letters number) }
{
    if number % 10 == 0 {
        lines.push_number("", u32::from(number / 10 % 10), "");
    } else {
        lines.push(".");
    }
}

// Writes how many rows lie between; nothing where there are none.
fn push_quiet(lines: &mut Paper, quiet: usize)
    ensures { Writes lines.old lines.new (quiet_text quiet) }
{
    if quiet == 1 {
        lines.push("\n    ... 1 row");
    } else if quiet > 1 {
        lines.push_count("\n    ... ", quiet as u128, " rows");
    }
}

// Writes the line of a row, after which the nodes stand so.
fn push_line(lines: &mut Paper, finished: &FinishedFilm, scene: &Scene, now: &[NodeSnapshot])
    ensures { Writes lines.old lines.new
        (told_line finished.now.setup.nodes (decides finished.now.verdict scene.now.number)
        (record { scene = scene.now; nodes = now.now })) }
{
    let nodes = finished.setup.nodes();
    let form = Form::of(nodes);
    lines.push("\n");
    lines.push_right(scene.number);
    lines.push("  ");
    push_cells(lines, now, form);
    push_change(lines, form, nodes, &scene.other);
    push_row_text(lines, scene);
    push_meaning(lines, scene, finished.verdict.decides(scene.number));
}

// Writes how the nodes stand, each in its column.
fn push_cells(lines: &mut Paper, now: &[NodeSnapshot], form: Form)
    ensures { Writes lines.old lines.new (cells_text form now.now) }
{
    for snapshot in now {
        push_cell(lines, snapshot, form);
    }
}

// Writes how a node stands: its status, and its coordinator where the column has room for it.
fn push_cell(lines: &mut Paper, snapshot: &NodeSnapshot, form: Form)
    ensures { Writes lines.old lines.new (cell_text form snapshot.now) }
{
    match form {
        Form::Words => push_stand(lines, word(snapshot.status), " ", snapshot, form.column()),
        Form::Short => push_stand(lines, letter(snapshot.status), "", snapshot, form.column()),
        Form::Letters => lines.push(letter(snapshot.status)),
        Form::Changes => {}
    }
}

// Writes how a node stands in a column: this word of its status, and after this its coordinator.
fn push_stand(
    lines: &mut Paper,
    word: &'static str,
    between: &'static str,
    snapshot: &NodeSnapshot,
    column: usize,
)
    ensures { Writes lines.old lines.new (filled column (followed_text word.now between.now snapshot.now.coordinator)) }
{
    let start = lines.len();
    push_followed(lines, word, between, snapshot.coordinator);
    fill(lines, start, column);
}

// Writes what comes after the columns: how the node stands now whose vector the row may change, where they have no
// room for it.
fn push_change(lines: &mut Paper, form: Form, nodes: u16, change: &Change)
    ensures { Writes lines.old lines.new (change_text form nodes change.now) }
{
    if form.tells_change() {
        let start = lines.len();
        push_after(lines, nodes, change);
        fill(lines, start, CHANGE);
    }
}

// Writes how a node stands after a row, if the group has it.
fn push_after(lines: &mut Paper, nodes: u16, change: &Change)
    ensures { Writes lines.old lines.new (change_words nodes change.now) }
{
    if change.node.number() <= nodes {
        let after = &change.after;
        lines.push_node("  ", change.node, ": ");
        push_followed(lines, word(after.status), " ", after.coordinator);
    }
}

// The status as a word.
fn word(status: Status) -> &'static str
    ensures { result.now ≡ column_word status }
{
    match status {
        Status::Down => "-",
        Status::Election => "elect",
        Status::Reorganization => "reorg",
        Status::Normal => "norm",
    }
}

// The status as a letter.
fn letter(status: Status) -> &'static str
    ensures { result.now ≡ column_letter status }
{
    match status {
        Status::Down => "-",
        Status::Election => "E",
        Status::Reorganization => "R",
        Status::Normal => "N",
    }
}

// Fills up a column that started at this length of the text, by one space at least.
fn fill(lines: &mut Paper, start: usize, width: usize)
    ensures { Writes lines.old lines.new (replicate (max 1 (width - (length lines.old.text - start))) 32) }
{
    let taken = lines.len().saturating_sub(start);
    let rest = width.saturating_sub(taken).max(1);
    for _ in 0..rest {
        lines.push(" ");
    }
}
