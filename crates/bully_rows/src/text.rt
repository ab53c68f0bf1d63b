ghost use Rattle.std.specs.Prelude.{◌≡◌, ◌+◌, ◌<◌, ◌∷◌, ◌++◌, ℕ, List, [], Some, OnOk, reverse, string_bytes};
ghost use Rattle.std.specs.Fmt.{decimal};
ghost use Rattle.std.specs.List.{join_with_byte};
ghost use Rattle.std.specs.Option.{option_copied};
ghost use Rattle.bully_base.specs.NodeSet.{IsFallingBelow, below_node, highest_of};
ghost use Rattle.bully_base.specs.declared.TheConstants.{NODES_MAX};
ghost use Rattle.bully_table.specs.TableText.{owners_text};
ghost use Rattle.bully_calls.specs.declared.event.Event.{Event};
ghost use Rattle.bully_rows.specs.TraceText.{call_fields, claim_fields, event_fields, gap_behind, header_fields};
ghost use Rattle.bully_rows.specs.TraceText.{later_fields, line_of, node_text, rest_text, row_fields, set_text};
ghost use Rattle.bully_rows.specs.TraceText.{task_text};
ghost use Rattle.bully_rows.specs.Whole.{whole_of};
ghost use Rattle.bully_rows.specs.Words.{answer_word};

use crate::words::{answer_word, call_word, keeps_word, status_word};
use crate::{Claim, DetailedEvent, Row, Version, WholeClaim};
use bully_base::{Node, NodeSet, OutOfMemory, Setup};
use bully_calls::{Answer, Call, Event, EventKind};
use bully_handlers::Vector;
use bully_table::{Table, push_owners};

/// Appends a node's number, or a dash for none.
pub fn push_node(text: &mut String, node: Option<Node>) -> Result<(), OutOfMemory>
    ensures { OnOk result (string_bytes text.new ≡ string_bytes text.old ++ node_text node) }
{
    match node {
        None => text.push('-'),
        Some(node) => {
            let number = node.number();
            write!(text, "{number}")
        }
    }
}

/// Appends the owners of a task, with the separator, an ASCII character, between each two, or a dash for none.
pub fn push_task(
    text: &mut String,
    task: Option<&Table>,
    separator: char,
) -> Result<(), OutOfMemory>
    requires { separator < 128 }
    ensures { OnOk result (string_bytes text.new ≡ string_bytes text.old
        ++ task_text separator (option_copied task.entry)) }
{
    match task {
        None => text.push('-'),
        Some(table) => push_owners(text, table, separator),
    }
}

/// Appends the header of a trace of this version and this setup.
pub fn push_header(text: &mut String, version: Version, setup: &Setup) -> Result<(), OutOfMemory>
    ensures { OnOk result (string_bytes text.new ≡ string_bytes text.old ++ line_of (header_fields version setup.now)) }
{
    match version {
        Version::One => push_first_header(text, setup),
        Version::Two => push_later_header(text, "2", setup),
        Version::Three => push_later_header(text, "3", setup),
    }
}

// Appends the header of version 1.
fn push_first_header(text: &mut String, setup: &Setup) -> Result<(), OutOfMemory>
    ensures { OnOk result (string_bytes text.new ≡ string_bytes text.old
        ++ line_of (header_fields Version.One setup.now)) }
{
    let nodes = setup.nodes();
    let partitions = setup.partitions();
    writeln!(text, "bully,1,{nodes},{partitions}")
}

// Appends the header of a version after 1.
fn push_later_header(text: &mut String, version: &str, setup: &Setup) -> Result<(), OutOfMemory>
    ensures { OnOk result (string_bytes text.new ≡ string_bytes text.old
        ++ line_of (later_fields version.now setup.now)) }
{
    let nodes = setup.nodes();
    let partitions = setup.partitions();
    let keeps = keeps_word(setup.keeps());
    write!(text, "bully,{version},{nodes},{partitions},")?;
    push_weights(text, setup)?;
    writeln!(text, ",{keeps}")
}

// Appends the weights, parted by spaces.
fn push_weights(text: &mut String, setup: &Setup) -> Result<(), OutOfMemory>
    ensures { OnOk result (string_bytes text.new ≡ string_bytes text.old ++ owners_text 32 setup.now.weights) }
{
    for before in 0..setup.nodes() {
        if before > 0 {
            text.push(' ')?;
        }
        let weight = setup.weight(Node::new(before + 1).unwrap());
        write!(text, "{weight}")?;
    }
    Ok(())
}

/// Appends the line of a row.
pub fn push_row(text: &mut String, row: &Row) -> Result<(), OutOfMemory>
    ensures { OnOk result (string_bytes text.new ≡ string_bytes text.old ++ line_of (row_fields row.now)) }
{
    match row {
        Row::Event(event) => push_event(text, event),
        Row::Detailed(event) => push_detailed(text, event),
        Row::Claim(claim) => {
            push_claim(text, *claim)?;
            text.push('\n')
        }
        Row::Whole(whole) => push_whole(text, whole),
    }
}

/// Appends the line of an event.
pub fn push_event(text: &mut String, event: &Event) -> Result<(), OutOfMemory>
    ensures { OnOk result (string_bytes text.new ≡ string_bytes text.old ++ line_of (event_fields event.now)) }
{
    match event {
        Event::Plan(node, table) => push_plan(text, *node, table),
        _ => push_named(text, event.kind().word(), event.node()),
    }
}

// Appends the line of an event that has a word and a node.
fn push_named(text: &mut String, word: &str, node: Node) -> Result<(), OutOfMemory>
    ensures { OnOk result (string_bytes text.new ≡ string_bytes text.old ++ line_of (word.now ∷ decimal node ∷ [])) }
{
    text.push_str(word)?;
    text.push(',')?;
    push_number(text, node.number())?;
    text.push('\n')
}

// Appends a number.
// (one of a digit or two, as those of most nodes, by its digits: by `write!` it takes three times as long)
fn push_number(text: &mut String, number: u16) -> Result<(), OutOfMemory>
    ensures { OnOk result (string_bytes text.new ≡ string_bytes text.old ++ decimal number) }
{
    if number >= 100 {
        return write!(text, "{number}");
    }
    if number >= 10 {
        push_digit(text, number / 10)?;
    }
    push_digit(text, number % 10)
}

// Appends a digit.
fn push_digit(text: &mut String, digit: u16) -> Result<(), OutOfMemory>
    requires { digit < 10 }
    ensures { OnOk result (string_bytes text.new ≡ string_bytes text.old ++ (48 + digit) ∷ []) }
{
    text.push(char::from(b'0' + digit as u8))
}

// Appends the line of a Plan.
fn push_plan(text: &mut String, node: Node, table: &Table) -> Result<(), OutOfMemory>
    ensures { OnOk result (string_bytes text.new ≡ string_bytes text.old
        ++ line_of (event_fields (Event.Plan node table.now))) }
{
    let word = EventKind::Plan.word();
    let number = node.number();
    write!(text, "{word},{number},")?;
    push_owners(text, table, ' ')?;
    text.push('\n')
}

/// Appends the line of an event of a call, and of what is said beside it.
pub fn push_detailed(text: &mut String, event: &DetailedEvent) -> Result<(), OutOfMemory>
    ensures { OnOk result (string_bytes text.new ≡ string_bytes text.old
        ++ line_of (row_fields (Row.Detailed event.now))) }
{
    let node = event.node;
    let detail = event.detail;
    let word = detail.kind.word();
    match detail.answer {
        None => push_unanswered(text, word, node, detail.call),
        Some(answer) => push_answered(text, word, node, detail.call, answer),
    }
}

// Appends the line of an event of this word and of its call.
fn push_unanswered(text: &mut String, word: &str, node: Node, call: Call) -> Result<(), OutOfMemory>
    ensures { OnOk result (string_bytes text.new ≡ string_bytes text.old
        ++ line_of (word.now ∷ decimal node ∷ call_fields call)) }
{
    let number = node.number();
    let kind = call_word(call.kind);
    let callee = call.callee.number();
    writeln!(text, "{word},{number},{kind},{callee}")
}

// Appends the line of an event of this word, of its call and of what is answered.
fn push_answered(
    text: &mut String,
    word: &str,
    node: Node,
    call: Call,
    answer: Answer,
) -> Result<(), OutOfMemory>
    ensures { OnOk result (string_bytes text.new ≡ string_bytes text.old
        ++ line_of (word.now ∷ decimal node ∷ (call_fields call ++ answer_word answer ∷ []))) }
{
    let number = node.number();
    let kind = call_word(call.kind);
    let callee = call.callee.number();
    let answer = answer_word(answer);
    writeln!(text, "{word},{number},{kind},{callee},{answer}")
}

// Appends the fields of a claim, and no line end.
fn push_claim(text: &mut String, claim: Claim) -> Result<(), OutOfMemory>
    ensures { OnOk result (string_bytes text.new ≡ string_bytes text.old ++ join_with_byte 44 (claim_fields claim)) }
{
    let number = claim.node.number();
    let status = status_word(claim.status);
    write!(text, "saw,{number},{status},")?;
    push_node(text, claim.coordinator)
}

// Appends the line of a claim that tells all of a vector.
fn push_whole(text: &mut String, whole: &WholeClaim) -> Result<(), OutOfMemory>
    ensures { OnOk result (string_bytes text.new ≡ string_bytes text.old
        ++ line_of (row_fields (Row.Whole whole.now))) }
{
    push_claim(text, whole.claim())?;
    push_rest(text, whole.halter(), whole.up(), whole.task())?;
    text.push('\n')
}

/// Appends the line of a claim that tells all of this node's vector.
pub fn push_vector(text: &mut String, node: Node, vector: &Vector) -> Result<(), OutOfMemory>
    ensures { OnOk result (string_bytes text.new ≡ string_bytes text.old
        ++ line_of (row_fields (Row.Whole (whole_of node vector.now.vector)))) }
{
    let claim = Claim {
        node,
        status: vector.status(),
        coordinator: vector.coordinator(),
    };
    push_claim(text, claim)?;
    push_rest(text, vector.halter(), vector.up(), vector.task())?;
    text.push('\n')
}

// Appends the fields of a whole claim that another one doesn't have.
fn push_rest(
    text: &mut String,
    halter: Option<Node>,
    up: &NodeSet,
    task: Option<&Table>,
) -> Result<(), OutOfMemory>
    ensures { OnOk result (string_bytes text.new ≡ string_bytes text.old
        ++ rest_text halter up.now (option_copied task.entry)) }
{
    text.push(',')?;
    push_node(text, halter)?;
    text.push(',')?;
    push_set(text, up)?;
    text.push(',')?;
    push_task(text, task, ' ')
}

/// Appends the members in rising order, parted by spaces, or a dash for none.
pub fn push_set(text: &mut String, set: &NodeSet) -> Result<(), OutOfMemory>
    ensures { OnOk result (string_bytes text.new ≡ string_bytes text.old ++ set_text set.now) }
{
    match set.highest() {
        None => text.push('-'),
        Some(highest) => push_members(text, set, highest),
    }
}

// Appends the members of a set with this highest one.
fn push_members(text: &mut String, set: &NodeSet, highest: Node) -> Result<(), OutOfMemory>
    requires highest { highest_of set.now ≡ Some highest }
    requires falling { IsFallingBelow (NODES_MAX + 1) set.now }
    ensures { OnOk result (string_bytes text.new ≡ string_bytes text.old ++ owners_text 32 (reverse set.now)) }
{
    for before in 0..highest.number() {
        push_member(text, set, Node::new(before + 1).unwrap())?;
    }
    Ok(())
}

// Appends the node, where it is a member: after a space, if there is a lower one.
fn push_member(text: &mut String, set: &NodeSet, node: Node) -> Result<(), OutOfMemory>
    requires { IsFallingBelow (NODES_MAX + 1) set.now }
    ensures { (start : List ℕ) → string_bytes text.old ≡ start ++ owners_text 32 (reverse (below_node node set.now))
        → OnOk result (string_bytes text.new ≡ start ++ owners_text 32 (reverse (below_node (node + 1) set.now))) }
{
    if !set.has(node) {
        return Ok(());
    }
    push_gap(text, set.below(node))?;
    let number = node.number();
    write!(text, "{number}")
}

// Appends a space after a lower node, if there is one.
fn push_gap(text: &mut String, lower: Option<Node>) -> Result<(), OutOfMemory>
    ensures { OnOk result (string_bytes text.new ≡ string_bytes text.old ++ gap_behind lower) }
{
    match lower {
        Some(_) => text.push(' '),
        None => Ok(()),
    }
}
