//! What a row changes.
ghost use Rattle.std.specs.Prelude.{◌≡◌, map, option_map};
ghost use Rattle.bully_page.specs.Page.{bold_end, bold_start, cell_text, change_text, changes_text, effects_text};
ghost use Rattle.bully_page.specs.Page.{getting_text, is_same_slot, name_text, orphan_text, other_text, owners_text};
ghost use Rattle.bully_page.specs.Page.{phase_text, same_live, same_phase, slot_text, stop_text, table_text};
ghost use Rattle.bully_picture.specs.Written.{Writes};

use bully_calls::{PendingCall, Phase};
use bully_film::{Change, FinishedFilm, NodeSnapshot, Scene};
use bully_picture::{Paper, is_same_stand, kind_text, name_at, push_followed};
use bully_rows::{answer_word, status_word};
use bully_table::Table;

/// Writes what the row changes: the node that it names, and the other one whose vector it may change, before it and
/// after it; or that the group doesn't have that node.
pub fn push_changes(page: &mut Paper, finished: &FinishedFilm, scene: &Scene, names: &[&str])
    ensures { Writes page.old page.new (changes_text finished.now.setup.nodes (map (λ s. s.now) names.now) scene.now) }
{
    if scene.own.node.number() <= finished.setup.nodes() {
        page.push("<table>\n<tr><th></th> <th>before</th> <th>after</th></tr>\n");
        push_change(page, &scene.own, names);
        push_other(page, scene, names);
        page.push("</table>\n");
    } else {
        page.push_node("<p>The group has no node ", scene.own.node, ".</p>\n");
    }
}

/// Writes what else the row does, if it was taken: that a Halt stops a procedure, and the table that a node gets.
pub fn push_effects(page: &mut Paper, scene: &Scene, decides: bool)
    ensures { Writes page.old page.new (effects_text decides scene.now) }
{
    if !decides {
        push_stop(page, scene);
        push_getting(page, scene);
    }
}

// Writes how the other node stands, where there is one.
fn push_other(page: &mut Paper, scene: &Scene, names: &[&str])
    ensures { Writes page.old page.new (other_text (map (λ s. s.now) names.now) scene.now) }
{
    if scene.other.node != scene.own.node {
        push_change(page, &scene.other, names);
    }
}

// Writes how a node stands before the row and after it.
fn push_change(page: &mut Paper, change: &Change, names: &[&str])
    ensures { Writes page.old page.new (change_text (map (λ s. s.now) names.now) change.now) }
{
    let has_new_stand = !is_same_stand(&change.before, &change.after);
    let has_new_call = !is_same_slot(&change.before.call, &change.after.call);
    page.push_node("<tr><th>node ", change.node, "");
    push_name(page, name_at(names, change.node.number() - 1));
    page.push("</th>");
    push_snapshot(page, &change.before, false, false);
    push_snapshot(page, &change.after, has_new_stand, has_new_call);
    page.push("</tr>\n");
}

// Writes the name of a node after its number, where it has one. It turns the direction of nothing but itself.
fn push_name(page: &mut Paper, name: Option<&str>)
    ensures { Writes page.old page.new (name_text (option_map (λ s. s.now) name.entry)) }
{
    if let Some(name) = name {
        page.push(": <bdi>");
        page.push_escaped(name);
        page.push("</bdi>");
    }
}

// Whether both slots hold the same call, equally far; or both none.
fn is_same_slot(one: &Option<PendingCall>, other: &Option<PendingCall>) -> bool
    ensures { result ≡ is_same_slot one.now other.now }
{
    match (one, other) {
        (Some(one), Some(other)) => {
            one.call == other.call
                && is_same_phase(one.phase, other.phase)
                && is_same_live(one.is_live, other.is_live)
        }
        (None, None) => true,
        _ => false,
    }
}

fn is_same_phase(one: Phase, other: Phase) -> bool
    ensures { result ≡ same_phase one other }
{
    match (one, other) {
        (Phase::Sent, Phase::Sent) | (Phase::Failed, Phase::Failed) => true,
        (Phase::Ran(one), Phase::Ran(other)) => one == other,
        _ => false,
    }
}

fn is_same_live(one: bool, other: bool) -> bool
    ensures { result ≡ same_live one other }
{
    one == other
}

// Writes how a node stands: its status and its coordinator, and the call in its slot. What is new is bold.
fn push_snapshot(page: &mut Paper, snapshot: &NodeSnapshot, has_new_stand: bool, has_new_call: bool)
    ensures { Writes page.old page.new (cell_text has_new_stand has_new_call snapshot.now) }
{
    page.push(" <td>");
    page.push(bold_start(has_new_stand));
    push_followed(
        page,
        status_word(snapshot.status),
        " under ",
        snapshot.coordinator,
    );
    page.push(bold_end(has_new_stand));
    page.push("<br>");
    page.push(bold_start(has_new_call));
    push_call(page, &snapshot.call);
    page.push(bold_end(has_new_call));
    page.push("</td>");
}

fn bold_start(is_bold: bool) -> &'static str
    ensures { result.now ≡ bold_start is_bold }
{
    if is_bold { "<b>" } else { "" }
}

fn bold_end(is_bold: bool) -> &'static str
    ensures { result.now ≡ bold_end is_bold }
{
    if is_bold { "</b>" } else { "" }
}

// Writes the call in a slot, and how far it came; or that there is none.
fn push_call(page: &mut Paper, call: &Option<PendingCall>)
    ensures { Writes page.old page.new (slot_text call.now) }
{
    match call {
        Some(held) => push_held(page, held),
        None => page.push("no call"),
    }
}

fn push_held(page: &mut Paper, held: &PendingCall)
    ensures { Writes page.old page.new (slot_text (Some held.now)) }
{
    page.push(kind_text(held.call.kind));
    page.push_node(" to ", held.call.callee, "");
    push_phase(page, held.phase);
    page.push(orphan_text(held.is_live));
}

// Writes how far a call came.
fn push_phase(page: &mut Paper, phase: Phase)
    ensures { Writes page.old page.new (phase_text phase) }
{
    match phase {
        Phase::Sent => page.push(", sent"),
        Phase::Ran(answer) => {
            page.push(", ran: ");
            page.push(answer_word(answer));
        }
        Phase::Failed => page.push(", failed"),
    }
}

// What is said of an orphan.
fn orphan_text(is_live: bool) -> &'static str
    ensures { result.now ≡ orphan_text is_live }
{
    if is_live { "" } else { ", an orphan" }
}

// Writes that a Halt stops a procedure, where it does.
fn push_stop(page: &mut Paper, scene: &Scene)
    ensures { Writes page.old page.new (stop_text scene.now) }
{
    if scene.cuts {
        page.push_node(
            "<p>The Halt stops the procedure of node ",
            scene.other.node,
            ".</p>\n",
        );
    }
}

// Writes that a node gets a table, where it does.
fn push_getting(page: &mut Paper, scene: &Scene)
    ensures { Writes page.old page.new (getting_text scene.now) }
{
    if scene.gets_table {
        page.push_node("<p>Node ", scene.other.node, " gets a table");
        push_table(page, &scene.table);
        page.push(".</p>\n");
    }
}

// Writes the owners in a table, where they are known.
fn push_table(page: &mut Paper, table: &Option<Table>)
    ensures { Writes page.old page.new (table_text table.now) }
{
    if let Some(table) = table {
        page.push(": the owners are");
        push_owners(page, table);
    }
}

// Writes the owners, from partition 0 on.
fn push_owners(page: &mut Paper, table: &Table)
    ensures { Writes page.old page.new (owners_text table.now) }
{
    for place in 0..table.len() {
        page.push_node(" ", table.owner(place), "");
    }
}
