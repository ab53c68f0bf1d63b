//! What a row that decided met, and what is remembered of the rows before it.

use crate::words::push_call;
use bully_account::{Account, EventKind, NodeSheet, NodeSummary, Note, What};
use bully_base::{NODES_MAX, Node, Setup};
use bully_calls::{Call, CallKind, NodeEventKind, Phase};
use bully_draft::Draft;
use bully_table::Table;

/// What a row that decided met: what the rows before it came to, what is shown of each node from node 1 on, the row's
/// node with what is shown of that, and a table that it may plan, where one with another table was refused.
#[derive(Drop)]
pub struct DecisionContext<'a> {
    pub account: &'a Account,
    pub nodes: &'a [NodeSheet],
    pub node: Node,
    pub shown: &'a NodeSummary,
    pub plan: Option<&'a Table>,
}

/// A call that ran and didn't return yet: its caller, its kind, and the row in which it ran.
#[derive(Clone, Copy)]
pub struct Run {
    pub caller: Node,
    pub kind: CallKind,
    pub row: u32,
}

impl<'a> DecisionContext<'a> {
    /// The setup of the group.
    pub fn setup(&self) -> &Setup {
        self.account.world().setup()
    }

    /// The number of the row's node.
    pub fn number(&self) -> u16 {
        self.node.number()
    }

    /// The rows that a node remembers, the oldest first.
    pub fn notes(&self, node: Node) -> &[Note] {
        match self.account.memory(node) {
            Some(memory) => memory.notes(),
            None => &[],
        }
    }

    /// The row in which the row's node started its last call.
    pub fn started(&self) -> Option<u32> {
        self.account.memory(self.node)?.started()
    }

    /// The call of this kind that ran last at the row's node, where no row of that node came after it.
    pub fn last_run(&self, kind: CallKind) -> Option<Run> {
        let run = self.last_of_runs()?;
        let is_last = match self.notes(self.node).last() {
            Some(note) => note.row < run.row,
            None => true,
        };
        if run.kind == kind && is_last {
            Some(run)
        } else {
            None
        }
    }

    // The call that ran last at the row's node, of those that didn't return yet.
    fn last_of_runs(&self) -> Option<Run> {
        let mut last: Option<Run> = None;
        for (place, sheet) in self.nodes.iter().enumerate() {
            let run = self.run_of(place, &sheet.shown);
            if is_later(&last, &run) {
                last = run;
            }
        }
        last
    }

    // The run of the call of the node at this place, of which this is shown, where that ran at the row's node.
    fn run_of(&self, place: usize, shown: &NodeSummary) -> Option<Run> {
        let held = shown.call?;
        let caller = node_at(place)?;
        if held.call.callee != self.node || !matches!(held.phase, Phase::Ran(_)) {
            return None;
        }
        let ran = EventKind::Node(NodeEventKind::Run);
        let row = last_row(self.notes(caller), ran)?;
        Some(Run {
            caller,
            kind: held.call.kind,
            row,
        })
    }
}

/// The node at this place of a list of all nodes.
pub fn node_at(place: usize) -> Option<Node> {
    if place < usize::from(NODES_MAX) {
        Node::new(place as u16 + 1)
    } else {
        None
    }
}

// Whether the second of two runs is there, and came after the first, if that is there.
fn is_later(last: &Option<Run>, run: &Option<Run>) -> bool {
    match (last, run) {
        (_, None) => false,
        (None, Some(_)) => true,
        (Some(last), Some(run)) => last.row < run.row,
    }
}

/// The last of these rows that was an event of this kind.
pub fn last_row(notes: &[Note], event_kind: EventKind) -> Option<u32> {
    let mut last = None;
    for note in notes {
        if note.what == What::Did(event_kind) {
            last = Some(note.row);
        }
    }
    last
}

/// The last of these rows that was a Halt, and the node that called it.
pub fn last_halt(notes: &[Note]) -> Option<(Node, u32)> {
    let mut last = None;
    for note in notes {
        if let What::HaltedBy(node) = note.what {
            last = Some((node, note.row));
        }
    }
    last
}

/// The first of these rows after the one of this number that was a Halt, and the node that called it.
pub fn first_halt_behind(notes: &[Note], number: u32) -> Option<(Node, u32)> {
    for note in notes {
        match note.what {
            What::HaltedBy(node) if note.row > number => return Some((node, note.row)),
            _ => {}
        }
    }
    None
}

/// The last of these rows that moved the node to another point.
pub fn last_move(notes: &[Note]) -> Option<u32> {
    let mut last = None;
    for note in notes {
        if note.moved {
            last = Some(note.row);
        }
    }
    last
}

/// The node that called the Halt which was the last of these rows that moved the node to another point; none if that
/// was no Halt.
pub fn halter_of_last_move(notes: &[Note]) -> Option<Node> {
    let mut last = None;
    for note in notes {
        if note.moved {
            last = halter_in(note);
        }
    }
    last
}

// The node that called the Halt which this row was, if it was one.
fn halter_in(note: &Note) -> Option<Node> {
    match note.what {
        What::HaltedBy(node) => Some(node),
        _ => None,
    }
}

/// Appends that a node which is down crashed, and in which row, or that it never recovered.
pub fn push_down(text: &mut Draft, context: &DecisionContext, node: Node) {
    text.push_behind("node ", node.number());
    match context.notes(node).last() {
        Some(note) => text.push_behind(" crashed in row ", note.row),
        None => text.push_str(" never recovered"),
    }
}

/// Appends that the row's node, which is up, recovered, and in which row, where that is remembered; else that it is up.
pub fn push_up(text: &mut Draft, context: &DecisionContext) {
    let recovered = EventKind::Node(NodeEventKind::Recover);
    text.push_behind("node ", context.number());
    match last_row(context.notes(context.node), recovered) {
        Some(row) => text.push_behind(" recovered in row ", row),
        None => text.push_str(" is up"),
    }
}

/// Appends that the row's node started the call in its slot, this one, as `started Ready to 1 in row 17`.
pub fn push_start(text: &mut Draft, context: &DecisionContext, call: Call) {
    text.push_str("started ");
    push_call(text, call);
    if let Some(row) = context.started() {
        text.push_behind(" in row ", row);
    }
}
