//! Points in words, and the steps of an election.

use crate::context::{DecisionContext, halter_of_last_move, last_move};
use crate::words::push_point;
use bully_base::Setup;
use bully_draft::Draft;
use bully_steps::Point;

/// Appends the line of the step: which of an election's, as docs/FORMATS.md counts them, and the point in words.
pub fn push_step_line(text: &mut Draft, context: &DecisionContext) {
    text.push_str("  the step      ");
    match step_of(context.setup(), &context.shown.point) {
        Some(step) => text.push_value(step),
        None => text.push_str("none"),
    }
    text.push_str(" of an election: ");
    push_point_told(text, context.setup(), &context.shown.point);
    text.push_str("\n");
}

/// Appends where the row's node stands, as `node 2 is at step 1, Asking 3 (it asks if node 3 is up)`; of an idle one
/// since when.
pub fn push_where(text: &mut Draft, context: &DecisionContext) {
    if let Point::Idle = context.shown.point {
        return push_idle(text, context);
    }
    text.push_between("node ", context.number(), " is at ");
    if let Some(step) = step_of(context.setup(), &context.shown.point) {
        text.push_between("step ", step, ", ");
    }
    push_point_told(text, context.setup(), &context.shown.point);
}

// Appends that no procedure of the row's node runs, and since which row, or whose Halt.
fn push_idle(text: &mut Draft, context: &DecisionContext) {
    let notes = context.notes(context.node);
    let Some(moved) = last_move(notes) else {
        return text.push_between("no procedure of node ", context.number(), " runs");
    };
    text.push_between("no procedure of node ", context.number(), " has run since ");
    match halter_of_last_move(notes) {
        Some(halter) => {
            text.push_between("the Halt of node ", halter.number(), " in row ");
            text.push_value(moved);
        }
        None => text.push_behind("row ", moved),
    }
}

// Which step of an election the point is at, if at any.
fn step_of(setup: &Setup, point: &Point) -> Option<u16> {
    match point {
        Point::Asking(number) => Some(if *number <= setup.nodes() { 1 } else { 2 }),
        Point::Halting(number) => Some(if *number > 0 { 3 } else { 4 }),
        Point::Announcing(rest) => Some(if rest.is_empty() { 6 } else { 5 }),
        Point::Planning => Some(7),
        Point::Readying(rest) => Some(if rest.is_empty() { 9 } else { 8 }),
        Point::Idle | Point::Checking(_) | Point::Inquiring => None,
    }
}

/// Appends the point and what it stands for, as `Asking 3 (it asks if node 3 is up)`.
pub fn push_point_told(text: &mut Draft, setup: &Setup, point: &Point) {
    push_point(text, point);
    text.push_str(" (");
    push_meaning(text, setup, point);
    text.push_str(")");
}

// Appends what the point stands for.
fn push_meaning(text: &mut Draft, setup: &Setup, point: &Point) {
    match point {
        Point::Idle => text.push_str("no procedure runs"),
        Point::Asking(number) if *number > setup.nodes() => {
            text.push_str("nobody is left to be asked")
        }
        Point::Asking(number) => text.push_between("it asks if node ", *number, " is up"),
        Point::Halting(number) if *number == 0 => text.push_str("nobody is left to be halted"),
        Point::Halting(number) => text.push_behind("it halts node ", *number),
        Point::Announcing(rest) => match rest.highest() {
            Some(node) => text.push_between("it tells node ", node.number(), " that it leads"),
            None => text.push_str("nobody is left to be told that it leads"),
        },
        Point::Planning => text.push_str("it plans who owns what"),
        Point::Readying(rest) => match rest.highest() {
            Some(node) => text.push_between("it sends node ", node.number(), " the table"),
            None => text.push_str("nobody is left to be sent the table"),
        },
        Point::Checking(callee) => {
            text.push_between("it asks if node ", callee.number(), " is normal")
        }
        Point::Inquiring => text.push_str("it asks if its coordinator is up"),
    }
}
