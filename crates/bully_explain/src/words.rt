//! The pieces of a sheet: nodes, points, calls and slots, as text.
ghost use Rattle.bully_draft.specs.Drafted.{Appends};
ghost use Rattle.bully_explain.specs.SheetText.{place_text};

use bully_account::{EventKind, Memory, NodeSummary, What};
use bully_base::{NODES_MAX, Node, NodeSet};
use bully_calls::{Answer, Call, CallKind, PendingCall, Phase};
use bully_draft::Draft;
use bully_rows::status_word;
use bully_steps::{Point, Want};

/// Appends which row is told: its number, and the line at which it starts.
pub fn push_row_place(text: &mut Draft, number: u32, line: u64)
    ensures { Appends text.old text.new (place_text number line) }
{
    text.push_between("row ", number, " (line ");
    text.push_between("", line, "): ");
}

/// Appends the members in rising number, each after a space; `of nobody` where there is none.
pub fn push_members(text: &mut Draft, set: &NodeSet) {
    if set.is_empty() {
        return text.push_str(" of nobody");
    }
    for before in 0..NODES_MAX {
        push_member(text, set, before + 1);
    }
}

// Appends the number after a space, where it is that of a member.
fn push_member(text: &mut Draft, set: &NodeSet, number: u16) {
    match Node::new(number) {
        Some(node) if set.has(node) => text.push_behind(" ", number),
        _ => {}
    }
}

/// Appends the point, as `Asking 3`.
pub fn push_point(text: &mut Draft, point: &Point) {
    text.push_str(point_word(point));
    match point {
        Point::Asking(number) | Point::Halting(number) => text.push_behind(" ", *number),
        Point::Announcing(rest) | Point::Readying(rest) => push_members(text, rest),
        Point::Checking(callee) => text.push_behind(" ", callee.number()),
        Point::Idle | Point::Planning | Point::Inquiring => {}
    }
}

// The point as the profile names it.
fn point_word(point: &Point) -> &'static str {
    match point {
        Point::Idle => "Idle",
        Point::Asking(_) => "Asking",
        Point::Halting(_) => "Halting",
        Point::Announcing(_) => "Announcing",
        Point::Planning => "Planning",
        Point::Readying(_) => "Readying",
        Point::Checking(_) => "Checking",
        Point::Inquiring => "Inquiring",
    }
}

/// Appends what a point offers.
pub fn push_offer(text: &mut Draft, offer: Want) {
    match offer {
        Want::Nothing | Want::Await => text.push_str("nothing"),
        Want::Start(call) => {
            text.push_str("the call ");
            push_call(text, call);
        }
        Want::Move => text.push_str("a move"),
        Want::Plan => text.push_str("a plan"),
    }
}

/// Appends the call, as `Ready to 1`.
pub fn push_call(text: &mut Draft, call: Call) {
    text.push_str(call_word(call.kind));
    text.push_behind(" to ", call.callee.number());
}

// The call as the profile names it.
fn call_word(kind: CallKind) -> &'static str {
    match kind {
        CallKind::AreYouUp => "AreYouUp",
        CallKind::AreYouNormal => "AreYouNormal",
        CallKind::Halt => "Halt",
        CallKind::NewCoordinator => "NewCoordinator",
        CallKind::Ready => "Ready",
    }
}

// How far a call came.
fn phase_text(phase: Phase) -> &'static str {
    match phase {
        Phase::Sent => "sent",
        Phase::Ran(Answer::Yes) => "ran with Yes",
        Phase::Ran(Answer::No) => "ran with No",
        Phase::Ran(_) => "ran",
        Phase::Failed => "failed",
    }
}

/// Appends the call in a slot, as `Ready to 1, sent, an orphan`.
pub fn push_held(text: &mut Draft, held: PendingCall) {
    push_call(text, held.call);
    text.push_str(", ");
    text.push_str(phase_text(held.phase));
    text.push_str(if held.is_live {
        ", live"
    } else {
        ", an orphan"
    });
}

/// Appends the vector but for the task, as `election, coordinator 2, halter 3, up 1`. What there is none of isn't
/// named.
pub fn push_vector(text: &mut Draft, shown: &NodeSummary) {
    text.push_str(status_word(shown.status));
    push_named(text, ", coordinator ", shown.coordinator);
    push_named(text, ", halter ", shown.halter);
    if !shown.up.is_empty() {
        text.push_str(", up");
        push_members(text, &shown.up);
    }
}

// Appends the node after the part that it has, where there is one.
fn push_named(text: &mut Draft, part: &'static str, node: Option<Node>) {
    if let Some(node) = node {
        text.push_behind(part, node.number());
    }
}

/// Appends what a row that a node has remembered did to it, as `start (Ready to 1)`.
pub fn push_what(text: &mut Draft, memory: &Memory, what: &What) {
    match what {
        What::Did(event_kind) => {
            text.push_str(event_kind.word());
            push_planned(text, memory, *event_kind);
        }
        What::Started(call) => {
            text.push_str("start (");
            push_call(text, *call);
            text.push_str(")");
        }
        What::HaltedBy(node) => text.push_behind("halted by ", node.number()),
    }
}

// Appends the owners after a plan. Between two plans of a node there are as many rows as it remembers, or more, so the
// table of its last plan is that of the plan among them.
fn push_planned(text: &mut Draft, memory: &Memory, event_kind: EventKind) {
    let planned = memory.planned();
    if event_kind == EventKind::Plan && planned.is_some() {
        text.push_str(" ");
        text.push_task(planned);
    }
}
