//! The words of a picture.
ghost use Rattle.std.specs.Prelude.{◌≡◌, codes, if◌then◌else◌, None, Some, option_map};
ghost use Rattle.bully_film.specs.Lane.{is_orphan};
ghost use Rattle.bully_picture.specs.Bars.{stand_text};
ghost use Rattle.bully_picture.specs.Drawn.{bare_text, kind_text, row_word, said_text};
ghost use Rattle.bully_picture.specs.Words.{behind_colon, behind_words, followed_text, is_same_stand, meaning};
ghost use Rattle.bully_picture.specs.Words.{meaning_text, move_meaning};
ghost use Rattle.bully_picture.specs.Written.{Writes};

use crate::paper::Paper;
use bully_base::{Node, Status};
use bully_calls::{CallKind, EventKind, NodeEventKind};
use bully_film::{NodeSnapshot, Scene, Stand};
use bully_rows::{SAW, status_word};

/// The call as the profile names it.
pub fn kind_text(kind: CallKind) -> &'static str
    ensures { result.now ≡ kind_text kind }
{
    match kind {
        CallKind::AreYouUp => "AreYouUp",
        CallKind::AreYouNormal => "AreYouNormal",
        CallKind::Halt => "Halt",
        CallKind::NewCoordinator => "NewCoordinator",
        CallKind::Ready => "Ready",
    }
}

/// Writes how a node stands, as `normal under 3`.
pub fn push_stand(paper: &mut Paper, stand: Stand)
    ensures { Writes paper.old paper.new (stand_text stand) }
{
    push_followed(
        paper,
        status_word(stand.status),
        " under ",
        stand.coordinator,
    );
}

/// Writes a word of how a node stands, and after these words whom the node follows; the word alone, where that is
/// nobody.
pub fn push_followed(
    paper: &mut Paper,
    word: &'static str,
    between: &'static str,
    coordinator: Option<Node>,
)
    ensures { Writes paper.old paper.new (followed_text word.now between.now coordinator) }
{
    paper.push(word);
    push_behind(paper, between, coordinator);
}

// Writes after these words the node that is followed.
fn push_behind(paper: &mut Paper, between: &'static str, coordinator: Option<Node>)
    ensures { Writes paper.old paper.new (behind_words between.now coordinator) }
{
    if let Some(node) = coordinator {
        paper.push_node(between, node, "");
    }
}

/// Whether both have the same status and the same coordinator.
pub fn is_same_stand(one: &NodeSnapshot, other: &NodeSnapshot) -> bool
    ensures { result ≡ is_same_stand one.now other.now }
{
    one.status == other.status && one.coordinator == other.coordinator
}

/// The call as a letter, for where words have no room.
pub fn kind_letter(kind: CallKind) -> &'static str {
    match kind {
        CallKind::AreYouUp => "U",
        CallKind::AreYouNormal => "N",
        CallKind::Halt => "H",
        CallKind::NewCoordinator => "C",
        CallKind::Ready => "R",
    }
}

/// Writes the word of the row and its node.
pub fn push_row_text(paper: &mut Paper, scene: &Scene)
    ensures { Writes paper.old paper.new (bare_text scene.now.event_kind scene.now.own.node) }
{
    paper.push(word_of(scene.event_kind));
    paper.push_node(",", scene.own.node, "");
}

// The word with which a row starts.
fn word_of(event_kind: Option<EventKind>) -> &'static str
    ensures { result.now ≡ row_word event_kind }
{
    match event_kind {
        Some(event_kind) => event_kind.word(),
        None => SAW,
    }
}

/// Writes the row as it stands in the trace.
pub fn push_said(paper: &mut Paper, scene: &Scene)
    ensures { Writes paper.old paper.new (said_text scene.now) }
{
    match scene.said.row() {
        Some(row) => paper.push_row(row),
        None => push_row_text(paper, scene),
    }
}

/// Writes what the row does after its text, where that alone doesn't say it; nothing of the row that decided, which
/// did nothing.
pub fn push_meaning(paper: &mut Paper, scene: &Scene, decides: bool)
    ensures { Writes paper.old paper.new (meaning_text decides scene.now) }
{
    if decides {
        return;
    }
    push_words(
        paper,
        meaning(scene.event_kind, &scene.own.before, &scene.own.after),
    );
}

// Writes these words after a colon.
fn push_words(paper: &mut Paper, words: Option<&'static str>)
    ensures { Writes paper.old paper.new (behind_colon (option_map (λ s. s.now) words.entry)) }
{
    if let Some(words) = words {
        paper.push(": ");
        paper.push(words);
    }
}

// What an event of this kind does, whose node stood so before it and stands so after it; none where its row alone says
// it.
fn meaning(
    event_kind: Option<EventKind>,
    before: &NodeSnapshot,
    after: &NodeSnapshot,
) -> Option<&'static str>
    ensures { option_map (λ s. s.now) result ≡ meaning event_kind before.now after.now }
{
    match event_kind? {
        EventKind::Node(NodeEventKind::Move) => move_meaning(before.status, after.status),
        EventKind::Node(NodeEventKind::Drop) => Some("the orphan is given up"),
        EventKind::Node(NodeEventKind::Return) => return_meaning(before),
        EventKind::Plan => Some("shares the task out"),
        EventKind::Node(_) => None,
    }
}

// What the node becomes by a move.
fn move_meaning(before: Status, after: Status) -> Option<&'static str>
    ensures { option_map (λ s. s.now) result ≡ move_meaning before after }
{
    match (before, after) {
        (Status::Election, Status::Election) => Some("no higher node is up: stands for election"),
        (Status::Election, Status::Reorganization) => Some("lower ones are halted: is coordinator"),
        (Status::Reorganization, Status::Reorganization) => Some("all are told: plans"),
        (Status::Reorganization, Status::Normal) => Some("all have the table: is normal"),
        _ => None,
    }
}

// What is said of a return to a node that stood so.
fn return_meaning(before: &NodeSnapshot) -> Option<&'static str>
    ensures { option_map (λ s. s.now) result ≡ (if is_orphan before.now
        then Some (codes "an orphan: nothing comes of it") else None) }
{
    if is_orphan(before) {
        Some("an orphan: nothing comes of it")
    } else {
        None
    }
}

// Whether the slot holds an orphan.
fn is_orphan(snapshot: &NodeSnapshot) -> bool
    ensures { result ≡ is_orphan snapshot.now }
{
    match snapshot.call {
        Some(held) => !held.is_live,
        None => false,
    }
}
