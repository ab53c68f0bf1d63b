//! The rule that a false claim breaks, in a sentence with what would be right: one for each part of a vector that
//! differs.

use crate::context::{DecisionContext, Run, last_halt, last_row, push_down};
use crate::differing::task_of;
use crate::point_words::push_where;
use crate::rules::{RULE, push_needs_crash, push_needs_recover};
use crate::words::push_members;
use bully_account::EventKind;
use bully_base::{NODES_MAX, Node, NodeSet, Status};
use bully_calls::CallKind;
use bully_draft::Draft;
use bully_rows::{Claim, WholeClaim, status_word};
use bully_steps::Point;
use bully_table::Table;
use bully_trace::same_task;

// What a node lacks to be as it is claimed.
#[derive(Clone, Copy, PartialEq, Eq)]
enum Lack {
    /// A recover.
    Recover,
    /// A crash.
    Crash,
    /// What a crash empties.
    Vector,
    /// What leads to Election.
    Halt,
    /// A NewCoordinator that takes effect.
    NewCoordinator,
    /// A Ready that takes effect.
    Ready,
    /// Its own move to Reorganization.
    Lead,
    /// Its own move to Normal.
    Finish,
    /// What empties its coordinator.
    Reset,
}

/// Appends a blank line, and that of the rule for the status and for the coordinator that are claimed, where they
/// differ.
pub fn push_claim_rules(text: &mut Draft, context: &DecisionContext, claim: Claim) {
    let status = lack_of_status(context, &claim);
    let coordinator = lack_of_coordinator(context, &claim);
    text.push_str("\n");
    push_lack(text, context, &status);
    if coordinator != status {
        push_lack(text, context, &coordinator);
    }
}

/// Appends the same of a claim that tells all of a vector, and that of the rule for each of its other parts that
/// differs. Of a node that is down, or claimed to be so, one rule has them all but the owners.
pub fn push_whole_rules(text: &mut Draft, context: &DecisionContext, whole: &WholeClaim) {
    push_claim_rules(text, context, whole.claim());
    match (whole.claim().status, context.shown.status) {
        (Status::Down, Status::Down) => push_empty_rule(text, context, whole),
        (Status::Down, _) | (_, Status::Down) => {}
        _ => push_rest_rules(text, context, whole),
    }
    push_task_rule(text, context, whole);
}

// Appends the line of the rule for what a node has that is down, where only a halter or an up set is claimed against
// it.
fn push_empty_rule(text: &mut Draft, context: &DecisionContext, whole: &WholeClaim) {
    let has_rest = whole.halter().is_some() || !whole.up().is_empty();
    if has_rest && whole.claim().coordinator.is_none() {
        push_lack(text, context, &Some(Lack::Vector));
    }
}

// Appends the lines of the rules for the halter and the up set, where they differ, of a node that is up.
fn push_rest_rules(text: &mut Draft, context: &DecisionContext, whole: &WholeClaim) {
    if whole.halter() != context.shown.halter {
        push_halter_rule(text, context);
    }
    if whole.up() != &context.shown.up {
        push_up_rule(text, context, whole.up());
    }
}

// What the node lacks to have the status that is claimed.
fn lack_of_status(context: &DecisionContext, claim: &Claim) -> Option<Lack> {
    let shown = context.shown.status;
    if claim.status == shown {
        return None;
    }
    if shown == Status::Down {
        return Some(Lack::Recover);
    }
    let leads = claim.coordinator == Some(context.node);
    Some(match claim.status {
        Status::Down => Lack::Crash,
        Status::Election => Lack::Halt,
        Status::Reorganization if leads => Lack::Lead,
        Status::Reorganization => Lack::NewCoordinator,
        Status::Normal if leads && vain_ready(context).is_none() => Lack::Finish,
        Status::Normal => Lack::Ready,
    })
}

// What the node lacks to have the coordinator that is claimed, beside what it lacks to be up or down.
fn lack_of_coordinator(context: &DecisionContext, claim: &Claim) -> Option<Lack> {
    let shown = context.shown;
    if claim.coordinator == shown.coordinator {
        return None;
    }
    if claim.status == Status::Down && shown.status == Status::Down {
        return Some(Lack::Vector);
    }
    if claim.status == Status::Down || shown.status == Status::Down {
        return None;
    }
    match claim.coordinator {
        None => Some(Lack::Reset),
        Some(node) if node == context.node => Some(Lack::Lead),
        Some(_) => Some(Lack::NewCoordinator),
    }
}

// Appends the line of the rule for what the node lacks.
fn push_lack(text: &mut Draft, context: &DecisionContext, lack: &Option<Lack>) {
    let Some(lack) = lack else {
        return;
    };
    text.push_str(RULE);
    match lack {
        Lack::Recover => push_needs_recover(text, context),
        Lack::Crash => {
            text.push_str("a node is down before its first recover and after a crash: ");
            push_needs_crash(text, context);
        }
        Lack::Vector => push_empty(text, context),
        Lack::Halt => push_needs_halt(text, context),
        Lack::NewCoordinator => push_announcing(text, context),
        Lack::Ready => push_readying(text, context),
        Lack::Lead => {
            text.push_str("a node makes itself coordinator by its move of step 4: ");
            push_where(text, context);
        }
        Lack::Finish => {
            text.push_str("a coordinator gets normal by its move of step 9: ");
            push_where(text, context);
        }
        Lack::Reset => push_kept_coordinator(text, context),
    }
    text.push_str("\n");
}

// Appends what a node has that is down.
fn push_empty(text: &mut Draft, context: &DecisionContext) {
    text.push_str("a node that is down has nothing but owners that are kept: ");
    push_down(text, context, context.node);
}

// Appends what leads to Election.
fn push_needs_halt(text: &mut Draft, context: &DecisionContext) {
    text.push_str("a node gets into election by a recover, its move of step 2 or a Halt: ");
    text.push_between(
        "node ",
        context.number(),
        " has had none of these since its status is ",
    );
    text.push_str(status_word(context.shown.status));
}

// Appends where a NewCoordinator takes effect, and why none did at the node.
fn push_announcing(text: &mut Draft, context: &DecisionContext) {
    text.push_str(
        "a NewCoordinator takes effect only at a node in election whose halter is its caller: ",
    );
    push_state(text, context, "halter", context.shown.halter);
    let is_due = context.shown.status == Status::Election;
    match context.last_run(CallKind::NewCoordinator) {
        Some(run) if !is_follower(context, &run, Status::Reorganization) => push_vain(text, &run),
        _ => push_due(text, context, context.shown.halter, is_due),
    }
}

// Appends where a Ready takes effect, and why none did at the node.
fn push_readying(text: &mut Draft, context: &DecisionContext) {
    text.push_str(
        "a Ready takes effect only at a node in reorganization whose coordinator is its caller: ",
    );
    push_state(text, context, "coordinator", context.shown.coordinator);
    let is_due = context.shown.status == Status::Reorganization;
    match vain_ready(context) {
        Some(run) => push_vain(text, &run),
        None => push_due(text, context, context.shown.coordinator, is_due),
    }
}

// The Ready that ran last at the node, where it changed nothing.
fn vain_ready(context: &DecisionContext) -> Option<Run> {
    let run = context.last_run(CallKind::Ready)?;
    if is_follower(context, &run, Status::Normal) {
        return None;
    }
    Some(run)
}

// Whether the node has this status under the caller of the run.
fn is_follower(context: &DecisionContext, run: &Run, status: Status) -> bool {
    context.shown.status == status && context.shown.coordinator == Some(run.caller)
}

// Appends the status of the node and another part of its vector.
fn push_state(text: &mut Draft, context: &DecisionContext, part: &'static str, node: Option<Node>) {
    text.push_between("node ", context.number(), "'s status is ");
    text.push_str(status_word(context.shown.status));
    text.push_str(", its ");
    text.push_str(part);
    push_number(text, node);
}

// Appends the number of the node after a space, or that there is none.
fn push_number(text: &mut Draft, node: Option<Node>) {
    match node {
        Some(node) => text.push_behind(" ", node.number()),
        None => text.push_str(" none"),
    }
}

// Appends that the call which ran changes nothing.
fn push_vain(text: &mut Draft, run: &Run) {
    text.push_between(", so that of node ", run.caller.number(), " in row ");
    text.push_between("", run.row, " changes nothing");
}

// Appends that only a call of this other node takes effect, where one is due; else that none does.
fn push_due(text: &mut Draft, context: &DecisionContext, caller: Option<Node>, is_due: bool) {
    match caller {
        Some(caller) if is_due && caller != context.node => {
            text.push_between(", so only one of node ", caller.number(), " takes effect")
        }
        _ => text.push_str(", so none takes effect"),
    }
}

// Appends how long a coordinator is kept.
fn push_kept_coordinator(text: &mut Draft, context: &DecisionContext) {
    text.push_str(
        "a node keeps its coordinator until it follows another one, leads, crashes or recovers: ",
    );
    text.push_between("node ", context.number(), "'s is");
    push_number(text, context.shown.coordinator);
}

// Appends the line of the rule for a halter, and of which Halt it is.
fn push_halter_rule(text: &mut Draft, context: &DecisionContext) {
    let halter = context.shown.halter;
    text.push_str(RULE);
    text.push_str(
        "a halter is the caller of the last Halt that ran at the node, or since its move of step 2 itself: ",
    );
    text.push_between("node ", context.number(), "'s is");
    push_number(text, halter);
    match last_halt(context.notes(context.node)) {
        Some((caller, row)) if halter == Some(caller) => {
            text.push_behind(", by the Halt in row ", row)
        }
        _ => {}
    }
    text.push_str("\n");
}

// Appends the line of the rule for an up set, and how what is told differs from it.
fn push_up_rule(text: &mut Draft, context: &DecisionContext, told: &NodeSet) {
    let shown = &context.shown.up;
    text.push_str(RULE);
    text.push_str(
        "a node's up set has the lower nodes that answered its Halt with yes since its move of step 2: ",
    );
    text.push_between("node ", context.number(), "'s is");
    if shown.is_empty() {
        text.push_str(" empty");
    } else {
        push_members(text, shown);
    }
    push_up_difference(text, &without(told, shown), &without(shown, told), shown);
    text.push_str("\n");
}

// Appends which nodes the row names beyond the up set that is shown, and which of it are missing there.
fn push_up_difference(text: &mut Draft, beyond: &NodeSet, missing: &NodeSet, shown: &NodeSet) {
    if beyond.is_empty() {
        text.push_str(", but the row doesn't name");
        return push_members(text, missing);
    }
    let is_more = missing.is_empty() && !shown.is_empty();
    text.push_str(if is_more {
        ", but the row also names"
    } else {
        ", but the row names"
    });
    push_members(text, beyond);
    if !missing.is_empty() {
        text.push_str(", and not");
        push_members(text, missing);
    }
}

// The members of a set that another one lacks.
fn without(set: &NodeSet, other: &NodeSet) -> NodeSet {
    let mut left = *set;
    for before in 0..NODES_MAX {
        match Node::new(before + 1) {
            Some(node) if other.has(node) => left.remove(node),
            _ => {}
        }
    }
    left
}

// Appends the line of the rule for the owners that are told, where they differ and no rule above says it.
fn push_task_rule(text: &mut Draft, context: &DecisionContext, whole: &WholeClaim) {
    let shown = task_of(context.account.world(), whole);
    if same_task(whole.task(), shown) {
        return;
    }
    let is_said = lack_of_status(context, &whole.claim()) == Some(Lack::Ready);
    if is_said {
        return;
    }
    if vain_ready(context).is_some() {
        return push_lack(text, context, &Some(Lack::Ready));
    }
    text.push_str(RULE);
    match (whole.task(), shown) {
        (_, None) => push_no_owners(text, context),
        (None, Some(shown)) => push_kept_owners(text, context, shown),
        (Some(_), Some(shown)) => push_owners(text, context, shown),
    }
    text.push_str("\n");
}

// Appends where owners come from, of a node that has none.
fn push_no_owners(text: &mut Draft, context: &DecisionContext) {
    text.push_str(
        "a node has owners from its plan of step 7 on, or from a Ready that takes effect: node ",
    );
    text.push_value(context.number());
    text.push_str(if context.shown.status == Status::Down {
        " is down, and kept none"
    } else {
        " has had neither since it came up"
    });
}

// Appends how long a node keeps its owners, which are these.
fn push_kept_owners(text: &mut Draft, context: &DecisionContext, shown: &Table) {
    text.push_str("a node keeps its owners until others come by a plan or a Ready, ");
    text.push_str(if context.setup().keeps() {
        "and here over a crash"
    } else {
        "or until it crashes"
    });
    text.push_between(": node ", context.number(), " has ");
    text.push_task(Some(shown));
}

// Appends which owners a node has, and where these come from.
fn push_owners(text: &mut Draft, context: &DecisionContext, shown: &Table) {
    text.push_str(
        "a node has the owners of its last plan, or of the last Ready that took effect: node ",
    );
    text.push_between("", context.number(), " has ");
    text.push_task(Some(shown));
    if leads_with_plan(context) {
        if let Some(row) = last_row(context.notes(context.node), EventKind::Plan) {
            text.push_behind(" by its plan in row ", row);
        }
    } else if context.shown.status == Status::Normal {
        text.push_str(" by the Ready of node");
        push_number(text, context.shown.coordinator);
    }
}

// Whether the node is its own coordinator and planned in its last election.
fn leads_with_plan(context: &DecisionContext) -> bool {
    let is_planned = match context.shown.point {
        Point::Readying(_) => true,
        _ => context.shown.status == Status::Normal,
    };
    is_planned && context.shown.coordinator == Some(context.node)
}
