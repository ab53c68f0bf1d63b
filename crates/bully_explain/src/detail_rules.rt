//! The rule that a row breaks which says something else of a call than the group has, in a sentence with what would be
//! right: one for each part that differs.

use crate::context::{DecisionContext, first_halt_behind, last_row, push_start};
use crate::point_words::push_point_told;
use crate::rules::RULE;
use crate::words::push_call;
use bully_account::EventKind;
use bully_base::{Node, Status};
use bully_calls::{Answer, Call, CallKind, NodeEventKind, Saying};
use bully_draft::Draft;
use bully_rows::{Detail, DetailedEvent, answer_word, status_word};
use bully_steps::Point;
use bully_trace::said_of;

/// Appends a blank line, and that of the rule for each part of what is said beside the event that differs.
pub fn push_detail_rules(text: &mut Draft, context: &DecisionContext, event: &DetailedEvent) {
    let world = context.account.world();
    text.push_str("\n");
    if event.node.number() > world.setup().nodes() {
        return;
    }
    if let Some(shown) = said_of(world, &event.event()) {
        push_differences(text, context, &event.detail, &shown.detail);
    }
}

// Appends the line of the rule for each part that is told and differs from what the group shows.
fn push_differences(text: &mut Draft, context: &DecisionContext, told: &Detail, shown: &Detail) {
    if told.call.kind != shown.call.kind {
        push_kind_rule(text, context, shown);
    }
    if told.call.callee != shown.call.callee {
        push_callee_rule(text, context, shown);
    }
    match (told.answer, shown.answer) {
        (Some(one), Some(other)) if one != other => push_answer_rule(text, context, shown, other),
        _ => {}
    }
}

// Appends the line of the rule for the kind of the call.
fn push_kind_rule(text: &mut Draft, context: &DecisionContext, shown: &Detail) {
    text.push_str(RULE);
    match shown.kind.saying() {
        Saying::Offered => {
            text.push_str("a start sends the call that the point offers: at ");
            push_point_told(text, context.setup(), &context.shown.point);
            text.push_str(" that is ");
            push_call(text, shown.call);
        }
        _ => {
            text.push_str("a ");
            text.push_str(shown.kind.word());
            text.push_str(" is of the call that is under way: node ");
            text.push_between("", context.number(), " ");
            push_start(text, context, shown.call);
        }
    }
    text.push_str("\n");
}

// Appends the line of the rule for the callee of the call.
fn push_callee_rule(text: &mut Draft, context: &DecisionContext, shown: &Detail) {
    text.push_str(RULE);
    match shown.kind.saying() {
        Saying::Offered => {
            text.push_str(match context.shown.point {
                Point::Inquiring => "a timeout asks the coordinator of its node: at ",
                _ => {
                    "others are asked in rising order, and halted, told and readied in falling order: at "
                }
            });
            push_point_told(text, context.setup(), &context.shown.point);
            text.push_behind(" that is node ", shown.call.callee.number());
        }
        _ => {
            text.push_between("a call keeps its callee: node ", context.number(), " ");
            push_start(text, context, shown.call);
        }
    }
    text.push_str("\n");
}

// Appends the line of the rule for what is answered or brought.
fn push_answer_rule(text: &mut Draft, context: &DecisionContext, shown: &Detail, answer: Answer) {
    text.push_str(RULE);
    match (shown.kind.saying(), answer) {
        (Saying::Replied, _) => push_reply(text, context, shown.call, answer),
        (_, Answer::Discarded) => push_discarded(text, context, shown.call),
        (_, Answer::Failed) => push_failed(text, context),
        _ => push_brought(text, context, shown.call, answer),
    }
    text.push_str("\n");
}

// Appends what a callee answers, and this one.
fn push_reply(text: &mut Draft, context: &DecisionContext, call: Call, answer: Answer) {
    text.push_str("a callee answers yes, but no to an AreYouNormal while it isn't normal: ");
    push_call(text, call);
    text.push_str(" is answered ");
    text.push_str(answer_word(answer));
    if call.kind == CallKind::AreYouNormal {
        text.push_between(", as node ", call.callee.number(), "'s status is ");
        text.push_str(status_word(status_of(context, call.callee)));
    }
}

// The status of the node; one that the group doesn't have is down.
fn status_of(context: &DecisionContext, node: Node) -> Status {
    match context.nodes.get(usize::from(node.number() - 1)) {
        Some(sheet) => sheet.shown.status,
        None => Status::Down,
    }
}

// Appends what an orphan brings, and by which Halt the call is one.
fn push_discarded(text: &mut Draft, context: &DecisionContext, call: Call) {
    text.push_str("what an orphan brings is discarded: node ");
    text.push_between("", context.number(), " was halted");
    let start = context.started().unwrap_or(0);
    if let Some((halter, row)) = first_halt_behind(context.notes(context.node), start) {
        text.push_between(" by node ", halter.number(), " in row ");
        text.push_value(row);
    }
    text.push_str(" after it ");
    push_start(text, context, call);
}

// Appends what a call brings that was lost, and where it was.
fn push_failed(text: &mut Draft, context: &DecisionContext) {
    text.push_str("a call that was lost brings failed, whatever its callee answered: node ");
    text.push_between("", context.number(), "'s was lost");
    let lost = EventKind::Node(NodeEventKind::Lose);
    if let Some(row) = last_row(context.notes(context.node), lost) {
        text.push_behind(" in row ", row);
    }
}

// Appends what a live call brings that ran.
fn push_brought(text: &mut Draft, context: &DecisionContext, call: Call, answer: Answer) {
    text.push_str("a live call that ran brings what its callee answered: node ");
    text.push_between("", context.number(), "'s ");
    push_call(text, call);
    text.push_str(" was answered ");
    text.push_str(answer_word(answer));
}
