ghost use Rattle.std.specs.Prelude.{◌≡◌, ◌++◌, None, [], IfOk, string_bytes};
ghost use Rattle.std.specs.Option.{option_copied};
ghost use Rattle.bully_rows.specs.TraceText.{line_of, row_fields};
ghost use Rattle.bully_world.specs.State.{world_of};
ghost use Rattle.bully_explain.specs.Differing.{decided_text};
ghost use Rattle.bully_draft.specs.Drafted.{Appends};
ghost use Rattle.bully_explain.specs.SheetText.{Begins, BeginsSheet, head_text, stop_text};

use crate::claim_rules::{push_claim_rules, push_whole_rules};
use crate::context::{DecisionContext, last_move, node_at};
use crate::detail_rules::push_detail_rules;
use crate::differing::push_differing;
use crate::point_words::push_step_line;
use crate::rules::push_nodes_rule;
use crate::sentences::{push_cause_rule, push_no_node, push_sentence};
use crate::words::{push_held, push_offer, push_point, push_row_place, push_vector, push_what};
use bully_account::{Account, EventKind, Memory, NodeSheet, NodeSummary, Note, Stop, node_sheet};
use bully_base::{Node, OutOfMemory, Status};
use bully_calls::PendingCall;
use bully_draft::Draft;
use bully_rows::Row;
use bully_steps::Point;
use bully_table::{Table, copied};
use bully_trace::Verdict;
use bully_world::{Refused, World};
use std::alloc::Global;

/// How wide the title of a line is, in bytes.
const TITLE: usize = 16;

/// The sheet of the account's verdict as text, with what it shows of each node, from node 1 on.
#[tactic(auto, using(crate::proofs::SheetLemmas::sheet_more))]
pub fn sheet_text(
    alloc: Global,
    account: &Account,
    nodes: &[NodeSheet],
) -> Result<String, OutOfMemory>
    ensures { IfOk result (λ text. BeginsSheet account.now (string_bytes text)) }
{
    let mut text = sheet_head(alloc, account)?;
    let rest = sheet_rest(alloc, account, nodes)?;
    text.push_str(rest.as_str())?;
    Ok(text)
}

// How the sheet starts: with the verdict, where it is lawful; else with the row that decided, and how it did.
fn sheet_head(alloc: Global, account: &Account) -> Result<String, OutOfMemory>
    ensures { IfOk result (λ text. BeginsSheet account.now (string_bytes text)) }
{
    let mut text = Draft::new(alloc);
    push_head(
        &mut text,
        account.world(),
        account.verdict(),
        account.stop(),
    );
    text.finish()
}

// Appends the head by this verdict, in this world, where this row decided.
fn push_head(text: &mut Draft, world: &World, verdict: Verdict, stop: Option<&Stop>)
    ensures { Appends text.old text.new
        (head_text world.now.setup (world_of world.now) verdict (option_copied stop.entry)) }
{
    match verdict {
        Verdict::Lawful(count) => text.push_between("lawful ", count, "\n"),
        Verdict::Refused(_, _) | Verdict::Differs(_) => push_stop(text, world, verdict, stop),
    }
}

// Appends the row that decided with its place, and how it did by this verdict, in the world before it.
#[tactic(auto, using(bully_draft::proofs::DraftLemmas::appends_nothing, bully_draft::proofs::DraftLemmas::appends_then))]
fn push_stop(text: &mut Draft, world: &World, verdict: Verdict, stop: Option<&Stop>)
    ensures { Appends text.old text.new
        (stop_text world.now.setup (world_of world.now) verdict (option_copied stop.entry)) }
{
    if let Some(stop) = stop {
        push_row_place(text, stop.number, stop.line);
        push_decided(text, world, verdict, &stop.row);
    }
}

// Appends the row, and how it decided by this verdict, in the world before it.
#[tactic(auto, using(bully_draft::proofs::DraftLemmas::appends_nothing, bully_draft::proofs::DraftLemmas::appends_then))]
fn push_decided(text: &mut Draft, world: &World, verdict: Verdict, row: &Row)
    ensures { Appends text.old text.new (line_of (row_fields row.now)
        ++ decided_text world.now.setup (world_of world.now) verdict row.now) }
{
    text.push_row(row);
    match verdict {
        Verdict::Lawful(_) => {}
        Verdict::Refused(_, cause) => {
            text.push_str("refused, ");
            text.push_str(cause.word());
            text.push_str(": ");
        }
        Verdict::Differs(_) => {
            text.push_str("differs: ");
            push_differing(text, world, row);
        }
    }
}

// What comes after the head of the sheet.
fn sheet_rest(
    alloc: Global,
    account: &Account,
    nodes: &[NodeSheet],
) -> Result<String, OutOfMemory> {
    let mut text = Draft::new(alloc);
    match account.stop() {
        Some(stop) => {
            let plan = plan_of(alloc, account, node_of(&stop.row))?;
            push_stopped(&mut text, account, stop, nodes, plan.as_ref());
        }
        None => push_lawful(&mut text, account, nodes),
    }
    text.finish()
}

// The sheet of the node; none of a node that the group doesn't have.
fn sheet_of(nodes: &[NodeSheet], node: Node) -> Option<&NodeSheet> {
    nodes.get(usize::from(node.number() - 1))
}

// A table that the node can plan, where one with another table was refused.
fn plan_of(alloc: Global, account: &Account, node: Node) -> Result<Option<Table>, OutOfMemory> {
    let world = account.world();
    let is_refused = matches!(account.verdict(), Verdict::Refused(_, Refused::BadTable));
    if !is_refused || node.number() > world.setup().nodes() {
        return Ok(None);
    }
    let mut procedure = world.procedure(node);
    procedure.prepare(alloc, None)?;
    copied(procedure.table())
}

// Appends what comes after the head of the sheet of the row that decided: why and by which rules it did, its node,
// and the others. Where a plan was refused for its table, this is one that can be planned.
fn push_stopped(
    text: &mut Draft,
    account: &Account,
    stop: &Stop,
    nodes: &[NodeSheet],
    plan: Option<&Table>,
) {
    let node = node_of(&stop.row);
    let sheet = sheet_of(nodes, node);
    push_reason(text, account.world(), account.verdict(), &stop.row, sheet);
    push_stop_rules(text, account, stop, nodes, plan);
    if let Some(sheet) = sheet {
        text.push_str("\n");
        push_node(text, node, sheet, account.memory(node));
    }
    push_others(text, nodes, node);
}

/// The lines of the rules that the row breaks which decided, and that of the step at which its node stands, as a sheet
/// has them; nothing of a lawful trace. Refused where an allocation fails.
pub fn account_rules(alloc: Global, account: &Account) -> Result<String, OutOfMemory>
    ensures { IfOk result (λ text. account.now.stop ≡ None → string_bytes text ≡ []) }
{
    match account.stop() {
        Some(stop) => rules_of(alloc, account, stop),
        None => Ok(String::new(alloc)),
    }
}

// The same of the row that decided.
fn rules_of(alloc: Global, account: &Account, stop: &Stop) -> Result<String, OutOfMemory> {
    let nodes = account.nodes(alloc)?;
    let plan = plan_of(alloc, account, node_of(&stop.row))?;
    let mut text = Draft::new(alloc);
    push_stop_rules(&mut text, account, stop, nodes.as_slice(), plan.as_ref());
    text.finish()
}

// Appends the lines of the rules that the row breaks which decided, and that of the step at which its node stands.
fn push_stop_rules(
    text: &mut Draft,
    account: &Account,
    stop: &Stop,
    nodes: &[NodeSheet],
    plan: Option<&Table>,
) {
    let node = node_of(&stop.row);
    match sheet_of(nodes, node) {
        Some(sheet) => {
            let shown = &sheet.shown;
            let context = DecisionContext {
                account,
                nodes,
                node,
                shown,
                plan,
            };
            push_rules(text, &context, &stop.row);
        }
        None => push_nodes_rule(text, account.world().setup()),
    }
}

// The node that the row names.
fn node_of(row: &Row) -> Node {
    match row {
        Row::Event(event) => event.node(),
        Row::Detailed(event) => event.node,
        Row::Claim(claim) => claim.node,
        Row::Whole(whole) => whole.claim().node,
    }
}

// Appends in a sentence why the row decided in this world, by this verdict, where what stands before it doesn't say all
// of it. Its node has this sheet.
fn push_reason(
    text: &mut Draft,
    world: &World,
    verdict: Verdict,
    row: &Row,
    sheet: Option<&NodeSheet>,
) {
    let setup = world.setup();
    match (verdict, row) {
        (Verdict::Refused(_, cause), Row::Event(event)) => {
            push_sentence(text, setup, event, cause, sheet)
        }
        (Verdict::Refused(_, cause), Row::Detailed(event)) => {
            push_sentence(text, setup, &event.event(), cause, sheet)
        }
        (Verdict::Differs(_), _) if sheet.is_none() => {
            push_no_node(text, setup, node_of(row));
            text.push_str("\n");
        }
        _ => {}
    }
}

// Appends the lines of the rules that the row breaks, and that of the step at which its node stands.
fn push_rules(text: &mut Draft, context: &DecisionContext, row: &Row) {
    let verdict = context.account.verdict();
    match row {
        Row::Event(event) => push_cause_rule(text, context, event, verdict),
        Row::Detailed(event) if matches!(verdict, Verdict::Differs(_)) => {
            push_detail_rules(text, context, event)
        }
        Row::Detailed(event) => push_cause_rule(text, context, &event.event(), verdict),
        Row::Claim(claim) => push_claim_rules(text, context, *claim),
        Row::Whole(whole) => push_whole_rules(text, context, whole),
    }
    push_step_line(text, context);
}

/// Why the row decided, by this verdict, in the world before it: its text, the cause, and what it speaks of, as a sheet
/// has them. Refused where an allocation fails.
#[tactic(auto, using(crate::proofs::SheetLemmas::begins_more))]
pub fn reason(
    alloc: Global,
    world: &World,
    verdict: Verdict,
    row: &Row,
) -> Result<String, OutOfMemory>
    ensures { IfOk result (λ text. Begins (string_bytes text) (line_of (row_fields row.now)
        ++ decided_text world.now.setup (world_of world.now) verdict row.now)) }
{
    let mut text = reason_head(alloc, world, verdict, row)?;
    let rest = reason_rest(alloc, world, verdict, row)?;
    text.push_str(rest.as_str())?;
    Ok(text)
}

// How that starts: with the row, and how it decided.
fn reason_head(
    alloc: Global,
    world: &World,
    verdict: Verdict,
    row: &Row,
) -> Result<String, OutOfMemory>
    ensures { IfOk result (λ text. string_bytes text ≡ line_of (row_fields row.now)
        ++ decided_text world.now.setup (world_of world.now) verdict row.now) }
{
    let mut text = Draft::new(alloc);
    push_decided(&mut text, world, verdict, row);
    text.finish()
}

// What comes after that.
fn reason_rest(
    alloc: Global,
    world: &World,
    verdict: Verdict,
    row: &Row,
) -> Result<String, OutOfMemory> {
    let node = node_of(row);
    let mut text = Draft::new(alloc);
    if node.number() > world.setup().nodes() {
        push_reason(&mut text, world, verdict, row, None);
    } else {
        let sheet = node_sheet(alloc, world, node)?;
        push_reason(&mut text, world, verdict, row, Some(&sheet));
    }
    text.finish()
}

// Appends what comes after the head of the sheet of a lawful trace: each node as the group stands at the end, and
// which of them aren't at rest.
fn push_lawful(text: &mut Draft, account: &Account, nodes: &[NodeSheet]) {
    for (place, sheet) in nodes.iter().enumerate() {
        if let Some(node) = node_at(place) {
            text.push_str("\n");
            push_node(text, node, sheet, account.memory(node));
        }
    }
    push_rest(text, nodes);
}

// Appends which nodes aren't at rest: those that are up, and not Normal under the highest node that is up.
fn push_rest(text: &mut Draft, nodes: &[NodeSheet]) {
    let highest = highest_up(nodes);
    let mut is_resting = true;
    text.push_str("\n");
    for (place, sheet) in nodes.iter().enumerate() {
        if !rests(&sheet.shown, &highest) {
            push_restless(text, place + 1, is_resting);
            is_resting = false;
        }
    }
    text.push_str(if is_resting { "at rest\n" } else { "\n" });
}

// Appends the number of a node that isn't at rest, the first one or another.
fn push_restless(text: &mut Draft, number: usize, is_first: bool) {
    let title = if is_first {
        "not at rest: node "
    } else {
        ", node "
    };
    text.push_behind(title, number);
}

// The highest node that is up.
fn highest_up(nodes: &[NodeSheet]) -> Option<Node> {
    let mut highest = None;
    for (place, sheet) in nodes.iter().enumerate() {
        if sheet.shown.status != Status::Down {
            highest = node_at(place);
        }
    }
    highest
}

// Whether the node is at rest, where this is the highest node that is up.
fn rests(shown: &NodeSummary, highest: &Option<Node>) -> bool {
    match shown.status {
        Status::Down => true,
        Status::Normal => shown.coordinator == *highest,
        Status::Election | Status::Reorganization => false,
    }
}

// Appends the lines of a node of the group.
fn push_node(text: &mut Draft, node: Node, sheet: &NodeSheet, memory: Option<&Memory>) {
    push_vector_line(text, node, &sheet.shown);
    push_point_line(text, &sheet.shown, memory);
    push_slot_line(text, sheet.shown.call, memory);
    push_possible_line(text, node, sheet.possible.as_slice());
    push_rows_line(text, memory);
}

// Appends the line of the node's vector.
fn push_vector_line(text: &mut Draft, node: Node, shown: &NodeSummary) {
    push_title(text, usize::from(node.number()));
    push_vector(text, shown);
    text.push_between(", generation ", shown.generation, "\n");
}

// Appends the title of the line of a node, which is as wide as the titles below it.
fn push_title(text: &mut Draft, number: usize) {
    let start = text.len();
    text.push_behind("  node ", number);
    text.push_spaces(TITLE.saturating_sub(text.len().saturating_sub(start)));
}

// Appends the line of the node's point: since when it stands there, and what that offers.
fn push_point_line(text: &mut Draft, shown: &NodeSummary, memory: Option<&Memory>) {
    text.push_str("  point         ");
    push_point(text, &shown.point);
    if let Some(memory) = memory {
        push_since(text, memory.notes());
    }
    text.push_str("; it offers ");
    push_offer(text, shown.offer);
    text.push_str("\n");
}

// Appends since which row the node stands at its point: the last one that it remembers to have moved it, or else one
// before all that it remembers.
fn push_since(text: &mut Draft, notes: &[Note]) {
    if let Some(row) = last_move(notes) {
        text.push_behind(" since row ", row);
    } else if let Some(note) = notes.first() {
        text.push_behind(" since before row ", note.row);
    }
}

// Appends the line of the node's slot.
fn push_slot_line(text: &mut Draft, call: Option<PendingCall>, memory: Option<&Memory>) {
    text.push_str("  slot          ");
    match call {
        Some(held) => {
            push_held(text, held);
            push_started(text, memory);
        }
        None => text.push_str("empty"),
    }
    text.push_str("\n");
}

// Appends in which row the call in the slot was started.
fn push_started(text: &mut Draft, memory: Option<&Memory>) {
    let Some(memory) = memory else {
        return;
    };
    if let Some(row) = memory.started() {
        text.push_behind(", started in row ", row);
    }
}

// Appends the line of the kinds of event that nothing refuses now, two spaces before each. A plan is its word alone.
fn push_possible_line(text: &mut Draft, node: Node, event_kinds: &[EventKind]) {
    let number = node.number();
    text.push_str("  possible now");
    for event_kind in event_kinds {
        text.push_str("  ");
        text.push_str(event_kind.word());
        if *event_kind != EventKind::Plan {
            text.push_behind(",", number);
        }
    }
    text.push_str("\n");
}

// Appends the line of the rows that the node remembers.
fn push_rows_line(text: &mut Draft, memory: Option<&Memory>) {
    text.push_str("  its last rows");
    if let Some(memory) = memory {
        push_notes(text, memory);
    }
    text.push_str("\n");
}

// Appends the rows that the node remembers: a space before the first, and two before each other one.
fn push_notes(text: &mut Draft, memory: &Memory) {
    let mut gap = " ";
    for note in memory.notes() {
        text.push_between(gap, note.row, " ");
        push_what(text, memory, &note.what);
        gap = "  ";
    }
}

// Appends a line for each node but this one, after a title; nothing where there is no other one.
fn push_others(text: &mut Draft, nodes: &[NodeSheet], node: Node) {
    let own = usize::from(node.number());
    if nodes.len() > 1 || own > nodes.len() {
        text.push_str("\nthe others\n");
    }
    for (place, sheet) in nodes.iter().enumerate() {
        let number = place + 1;
        if number != own {
            push_other(text, number, &sheet.shown);
        }
    }
}

// Appends the line of the node of this number, which isn't the one at hand.
fn push_other(text: &mut Draft, number: usize, shown: &NodeSummary) {
    push_title(text, number);
    if shown.status == Status::Down {
        return text.push_str("down\n");
    }
    push_vector(text, shown);
    push_place(text, &shown.point);
    match shown.call {
        Some(held) => {
            text.push_str("; its slot holds ");
            push_held(text, held);
        }
        None => text.push_str("; its slot is empty"),
    }
    text.push_str("\n");
}

// Appends where a node stands.
fn push_place(text: &mut Draft, point: &Point) {
    match point {
        Point::Idle => text.push_str("; idle"),
        _ => {
            text.push_str("; at ");
            push_point(text, point);
        }
    }
}
