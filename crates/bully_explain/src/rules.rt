//! The rule that a refused row breaks, in a sentence with what would be right: one for each of the causes.

use crate::context::{DecisionContext, push_down, push_start, push_up};
use crate::point_words::{push_point_told, push_where};
use crate::words::{push_call, push_members, push_offer};
use bully_account::{EventKind, Note, What};
use bully_base::{Node, Setup};
use bully_calls::{NodeEventKind, PendingCall, Phase};
use bully_draft::Draft;
use bully_steps::Point;
use bully_world::Event;

/// The title of a rule's line.
pub const RULE: &str = "  the rule      ";

/// Appends the line of the rule that a row breaks whose node the group doesn't have.
pub fn push_nodes_rule(text: &mut Draft, setup: &Setup) {
    text.push_str(RULE);
    push_nodes(text, setup);
    text.push_str("\n");
}

/// Appends which nodes a row may name.
pub fn push_nodes(text: &mut Draft, setup: &Setup) {
    text.push_str("a row names a node that the group has, here one from 1 to ");
    text.push_value(setup.nodes());
}

/// Appends how many events a group takes.
pub fn push_room(text: &mut Draft, setup: &Setup) {
    text.push_str("a group takes as many events as it is set up for: here ");
    text.push_value(setup.events_max());
}

/// Appends that a node which is down has no call, where the event is of one, or else what it may do.
pub fn push_is_down(text: &mut Draft, context: &DecisionContext, event: &Event) {
    match event {
        Event::Run(_) | Event::Lose(_) | Event::Return(_) | Event::Drop(_) => {
            text.push_str("a node that is down has no call, as a crash ends it: ");
            push_down(text, context, context.node);
        }
        _ => push_needs_recover(text, context),
    }
}

/// Appends what a node that is down may do.
pub fn push_needs_recover(text: &mut Draft, context: &DecisionContext) {
    text.push_str("a node that is down does nothing but recover: ");
    push_down(text, context, context.node);
    text.push_between(
        ", and needs a recover,",
        context.number(),
        " before this row",
    );
}

/// Appends that the node, which is up, must crash first.
pub fn push_needs_crash(text: &mut Draft, context: &DecisionContext) {
    push_up(text, context);
    text.push_between(", and needs a crash,", context.number(), " before this row");
}

/// Appends that the procedure that runs at the node must end before the event.
pub fn push_one_procedure(text: &mut Draft, context: &DecisionContext, event: &Event) {
    text.push_str("a node runs one procedure at a time: a ");
    text.push_str(event.kind().word());
    text.push_str(match context.shown.point {
        Point::Checking(_) => " waits until the check of node ",
        Point::Inquiring => " waits until the timeout of node ",
        _ => " waits until the election of node ",
    });
    text.push_between("", context.number(), ", at ");
    push_point_told(text, context.setup(), &context.shown.point);
    text.push_str(", ends or is stopped by a Halt");
}

/// Appends at which steps of an election the event comes, where the node is, and what comes next there.
pub fn push_steps(text: &mut Draft, context: &DecisionContext, event: &Event) {
    text.push_str(match event {
        Event::Start(_) => "an election has a call at its steps 1, 3, 5 and 8 alone: ",
        Event::Move(_) => "an election has a move at its steps 2, 4, 6 and 9 alone: ",
        _ => "an election has a plan at its step 7 alone: ",
    });
    push_where(text, context);
    if !matches!(context.shown.point, Point::Idle) {
        text.push_str(", where ");
        push_offer(text, context.shown.offer);
        text.push_str(" comes next");
    }
}

/// Appends that the call in the slot must leave it first.
pub fn push_one_call(text: &mut Draft, context: &DecisionContext) {
    text.push_str("a node has one call under way at most: ");
    if let Some(held) = context.shown.call {
        push_own_call(text, context, held);
        text.push_str(if held.is_live {
            " has to return first"
        } else {
            " has to return or be dropped first"
        });
    }
}

/// Appends the call in the slot of the row's node, as `node 2's Ready to 1, started in row 17,`.
pub fn push_own_call(text: &mut Draft, context: &DecisionContext, held: PendingCall) {
    text.push_between("node ", context.number(), "'s ");
    push_call(text, held.call);
    if let Some(row) = context.started() {
        text.push_between(", started in row ", row, ",");
    }
}

/// Appends when the event comes in the life of a call, and how far the node's call came.
pub fn push_life(text: &mut Draft, context: &DecisionContext, event: &Event) {
    text.push_str(match event {
        Event::Run(_) => "a call runs once, after its start: ",
        Event::Lose(_) => "a call is lost once, before it returns: ",
        Event::Return(_) => "a call returns after its run or its loss: ",
        _ => "only a call that is under way is dropped: ",
    });
    match context.shown.call {
        Some(held) => {
            push_own_call(text, context, held);
            text.push_str(match held.phase {
                Phase::Sent => " has had neither",
                Phase::Ran(_) => " ran already",
                Phase::Failed => " was lost already",
            });
        }
        None => push_no_call(text, context),
    }
}

// Appends that the node has no call under way, and what ended its last one, where it had one and that is remembered.
fn push_no_call(text: &mut Draft, context: &DecisionContext) {
    text.push_behind("node ", context.number());
    if context.started().is_none() {
        return text.push_str(" has started none");
    }
    text.push_str(" has none under way");
    if let Some((words, row)) = last_end(context.notes(context.node)) {
        text.push_behind(words, row);
    }
}

// The last of these rows after which no call was under way, after words that say what it was.
fn last_end(notes: &[Note]) -> Option<(&'static str, u32)> {
    let mut last = None;
    for note in notes {
        if let Some(words) = end_words(&note.what) {
            last = Some((words, note.row));
        }
    }
    last
}

// Says which end of a call a row was, where it was one.
fn end_words(what: &What) -> Option<&'static str> {
    let What::Did(EventKind::Node(kind)) = what else {
        return None;
    };
    match kind {
        NodeEventKind::Crash => Some(" since its crash in row "),
        NodeEventKind::Return => Some(" since its return in row "),
        NodeEventKind::Drop => Some(" since its drop in row "),
        _ => None,
    }
}

/// Appends that a call whose callee is down doesn't run.
pub fn push_callee_down(text: &mut Draft, context: &DecisionContext) {
    text.push_str("a call runs only while its callee is up: ");
    if let Some(held) = context.shown.call {
        let callee = held.call.callee;
        push_down(text, context, callee);
        text.push_between(", so this call is lost (lose,", context.number(), ")");
        text.push_behind(", or waits for a recover,", callee.number());
        push_worked_out(text, context, callee);
    }
}

/// Appends that a call whose callee is up isn't lost.
pub fn push_callee_up(text: &mut Draft, context: &DecisionContext) {
    text.push_str("a call fails only while its callee is down: ");
    if let Some(held) = context.shown.call {
        let callee = held.call.callee;
        let number = callee.number();
        text.push_between("node ", number, " is up, so this call can't be lost: it ");
        text.push_str(match held.phase {
            Phase::Ran(_) => "ran, and returns",
            _ => "runs, or its caller waits",
        });
        text.push_between("; had node ", number, " crashed, ");
        text.push_between("a crash,", number, " would stand above");
        push_worked_out(text, context, callee);
    }
}

// Appends that no row said the callee of the call, where none of the trace's version can.
fn push_worked_out(text: &mut Draft, context: &DecisionContext, callee: Node) {
    if context.account.version().says_more() {
        return;
    }
    text.push_between("; its callee is node ", callee.number(), " as worked out: ");
    text.push_str("rows that say it (version 3) show what the node did");
}

/// Appends over whom a plan shares the partitions out, and a table that does so.
pub fn push_members_rule(text: &mut Draft, context: &DecisionContext) {
    text.push_str("a plan shares the partitions out by weight, over node ");
    text.push_value(context.number());
    if context.shown.up.is_empty() {
        text.push_str(" alone, whose up set is empty");
    } else {
        text.push_str(" and its up set");
        push_members(text, &context.shown.up);
    }
    if context.plan.is_some() {
        text.push_str(": as the table ");
        text.push_task(context.plan);
        text.push_str(" does");
    }
}

/// Appends which call may be dropped.
pub fn push_orphans(text: &mut Draft, context: &DecisionContext) {
    text.push_str("only an orphan is dropped, a call whose caller was halted since its start: ");
    if let Some(held) = context.shown.call {
        text.push_between("node ", context.number(), " wasn't halted since it ");
        push_start(text, context, held.call);
    }
}
