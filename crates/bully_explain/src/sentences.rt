//! Why an event is refused, and which rule it breaks, in a sentence for each of the causes.
ghost use Rattle.std.specs.Prelude.{◌<◌, length, IfSome};

use crate::context::DecisionContext;
use crate::rules::{
    RULE, push_callee_down, push_callee_up, push_is_down, push_life, push_members_rule,
    push_needs_crash, push_nodes, push_one_call, push_one_procedure, push_orphans, push_room,
    push_steps,
};
use crate::words::{push_held, push_offer, push_point};
use bully_account::{NodeSheet, NodeSummary};
use bully_base::{NODES_MAX, Node, NodeSet, Setup};
use bully_draft::Draft;
use bully_rows::status_word;
use bully_table::Table;
use bully_trace::Verdict;
use bully_world::{Event, Refused};

/// Appends what the cause speaks of that refused the event: a sentence. Its node has this sheet, where the group has
/// it.
pub fn push_sentence(
    text: &mut Draft,
    setup: &Setup,
    event: &Event,
    cause: Refused,
    sheet: Option<&NodeSheet>,
) {
    match sheet {
        Some(sheet) => push_cause(text, setup, event, cause, &sheet.shown),
        None => push_no_node(text, setup, event.node()),
    }
    text.push_str("\n");
}

/// Appends the line of the rule by which the event was refused, as the verdict says.
pub fn push_cause_rule(
    text: &mut Draft,
    context: &DecisionContext,
    event: &Event,
    verdict: Verdict,
) {
    let Verdict::Refused(_, cause) = verdict else {
        return;
    };
    text.push_str(RULE);
    match cause {
        Refused::Full => push_room(text, context.setup()),
        Refused::BadNode => push_nodes(text, context.setup()),
        Refused::IsDown => push_is_down(text, context, event),
        Refused::IsUp => {
            text.push_str("only a node that is down recovers: ");
            push_needs_crash(text, context);
        }
        Refused::Busy => push_one_procedure(text, context, event),
        Refused::NoStep => push_steps(text, context, event),
        Refused::SlotBusy => push_one_call(text, context),
        Refused::NoCall => push_life(text, context, event),
        Refused::CalleeDown => push_callee_down(text, context),
        Refused::CalleeUp => push_callee_up(text, context),
        Refused::BadTable => push_members_rule(text, context),
        Refused::NotOrphan => push_orphans(text, context),
    }
    push_wanted(text, context);
    text.push_str("\n");
}

// Appends which later row may belong before the refused one, if one may.
fn push_wanted(text: &mut Draft, context: &DecisionContext) {
    if let Some(row) = context.account.wanted() {
        text.push_between(
            "; if rows are out of order, row ",
            row,
            " may belong before it",
        );
    }
}

/// Appends that the group has no such node.
pub fn push_no_node(text: &mut Draft, setup: &Setup, node: Node) {
    text.push_str("the group has ");
    text.push_count(usize::from(setup.nodes()), "node");
    text.push_behind(", and no node ", node.number());
}

// Appends the sentence of a cause at a node of which this is shown.
fn push_cause(text: &mut Draft, setup: &Setup, event: &Event, cause: Refused, shown: &NodeSummary) {
    let number = event.node().number();
    match cause {
        Refused::Full => push_full(text, setup),
        Refused::BadNode => push_no_node(text, setup, event.node()),
        Refused::IsDown => text.push_between("node ", number, " is down"),
        Refused::IsUp => push_up(text, number, shown),
        Refused::Busy => push_busy(text, number, shown),
        Refused::NoStep => push_no_step(text, event, shown),
        Refused::SlotBusy => {
            text.push_between("the slot of node ", number, " still holds a call")
        }
        Refused::NoCall => push_no_call(text, event, shown),
        Refused::CalleeDown => push_callee(text, number, shown, "down"),
        Refused::CalleeUp => push_callee(text, number, shown, "up"),
        Refused::BadTable => push_bad_table(text, setup, event, shown),
        Refused::NotOrphan => {
            text.push_between("the call of node ", number, " is live, and no orphan")
        }
    }
}

// Appends that the bound on events is reached.
fn push_full(text: &mut Draft, setup: &Setup) {
    text.push_str("the group takes at most ");
    text.push_count(setup.events_max() as usize, "event");
    text.push_str(", and so many were applied");
}

// Appends that the node is up.
fn push_up(text: &mut Draft, number: u16, shown: &NodeSummary) {
    text.push_between("node ", number, " is up, with the status ");
    text.push_str(status_word(shown.status));
}

// Appends that a procedure runs at the node.
fn push_busy(text: &mut Draft, number: u16, shown: &NodeSummary) {
    text.push_between("node ", number, " isn't Idle: it stands at ");
    push_point(text, &shown.point);
}

// Appends what the point offers in place of what the event takes.
fn push_no_step(text: &mut Draft, event: &Event, shown: &NodeSummary) {
    text.push_between("node ", event.node().number(), " stands at ");
    push_point(text, &shown.point);
    text.push_str(", which offers ");
    push_offer(text, shown.offer);
    text.push_str(match event {
        Event::Start(_) => ", and no call",
        Event::Move(_) => ", and no move",
        _ => ", and no plan",
    });
}

// Appends what the slot holds in place of the call that the event takes.
fn push_no_call(text: &mut Draft, event: &Event, shown: &NodeSummary) {
    text.push_between("the slot of node ", event.node().number(), " holds ");
    text.push_str(match event {
        Event::Run(_) => "no call that was sent and didn't run: ",
        Event::Lose(_) => "no call that was sent or ran: ",
        Event::Return(_) => "no call that ran or failed: ",
        _ => "no call: ",
    });
    match shown.call {
        Some(held) => push_held(text, held),
        None => text.push_str("it is empty"),
    }
}

// Appends whom the call goes to, and how that node is.
fn push_callee(text: &mut Draft, number: u16, shown: &NodeSummary, state: &'static str) {
    if let Some(held) = shown.call {
        text.push_between("the call of node ", number, " goes to node ");
        text.push_between("", held.call.callee.number(), ", which is ");
        text.push_str(state);
    }
}

// Appends what is wrong with the table of a plan.
fn push_bad_table(text: &mut Draft, setup: &Setup, event: &Event, shown: &NodeSummary) {
    let Event::Plan(node, table) = event else {
        return;
    };
    let mut members = shown.up;
    members.insert(*node);
    let partitions = usize::from(setup.partitions());
    if table.len() != partitions {
        return push_wrong_len(text, table.len(), partitions);
    }
    match first_stranger(table, &members) {
        Some(place) => push_stranger(text, table, place, *node),
        None => push_shares(text, table, &members),
    }
}

// Appends that the table hasn't as many owners as there are partitions.
fn push_wrong_len(text: &mut Draft, owners: usize, partitions: usize) {
    text.push_str("the table has ");
    text.push_count(owners, "owner");
    text.push_str(", and the group has ");
    text.push_count(partitions, "partition");
}

// The first partition whose owner is no member.
fn first_stranger(table: &Table, members: &NodeSet) -> Option<usize>
    ensures { IfSome result (λ place. place < length table.now) }
{
    for place in 0..table.len() {
        if !members.has(table.owner(place)) {
            return Some(place);
        }
    }
    None
}

// Appends the partition whose owner is neither the node nor in its up set.
fn push_stranger(text: &mut Draft, table: &Table, place: usize, node: Node)
    requires { place < length table.now }
{
    text.push_between("partition ", place, " is owned by node ");
    text.push_value(table.owner(place).number());
    text.push_between(
        ", which is neither node ",
        node.number(),
        " nor in its up set",
    );
}

// Appends how many partitions each member owns, which isn't its share.
fn push_shares(text: &mut Draft, table: &Table, members: &NodeSet) {
    text.push_str("the partitions aren't shared out evenly by weight:");
    let mut gap = "";
    for before in 0..NODES_MAX {
        match Node::new(before + 1) {
            Some(member) if members.has(member) => {
                push_share(text, gap, table, member);
                gap = ",";
            }
            _ => {}
        }
    }
}

// Appends how many partitions the member owns.
fn push_share(text: &mut Draft, gap: &'static str, table: &Table, member: Node) {
    text.push_str(gap);
    text.push_between(" node ", member.number(), " owns ");
    text.push_value(owned_by(table, member));
}

// How many partitions the node owns.
fn owned_by(table: &Table, node: Node) -> usize {
    let mut count = 0usize;
    for place in 0..table.len() {
        if table.owner(place) == node {
            count = count.saturating_add(1);
        }
    }
    count
}
