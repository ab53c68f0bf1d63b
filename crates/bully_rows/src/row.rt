ghost use Rattle.std.specs.Prelude.{◌≡◌, ◌≢◌, ◌<◌, ◌∷◌, [], length, None, Some, IfOk, IfSome};
ghost use Rattle.std.specs.Option.{option_and_then, option_map};
ghost use Rattle.csv.specs.Records.{fields_of, field_at};
ghost use Rattle.bully_base.specs.Setup.{Setup as SetupState};
ghost use Rattle.bully_table.specs.Numeral.{number_of};
ghost use Rattle.bully_rows.specs.declared.trace.Row.{Row};
ghost use Rattle.bully_rows.specs.Headers.{node_in, within};
ghost use Rattle.bully_calls.specs.Events.{event_at};
ghost use Rattle.bully_rows.specs.Rows.{claim_in, coordinator_in, row_of};

use crate::header::Version;
use crate::node_event::NodeEvent;
use crate::saying::{answered_row, unanswered_row, whole_row};
use crate::trace::{Claim, Row};
use crate::words::{SAW, status_named};
use bully_base::{Node, OutOfMemory, Setup};
use bully_calls::{Event, EventKind, NodeEventKind, is_word};
use bully_table::{Table, TableFault, read_number};
use csv::ByteRecord;
use std::alloc::{AllocError, Global};

/// The row that its record of other than two fields tells in a trace of this version and this setup; none where it has
/// two, or no form that the profile lists. Refused where an allocation fails.
pub fn read_other_row(
    alloc: Global,
    version: Version,
    setup: &Setup,
    fields: &ByteRecord,
) -> Result<Option<Row>, OutOfMemory>
    ensures two { length (fields_of fields.now) ≡ 2 → IfOk result (λ row. row ≡ None) }
    ensures other { length (fields_of fields.now) ≢ 2
        → IfOk result (λ row. row ≡ row_of version setup.now (fields_of fields.now)) }
{
    match fields.len() {
        3 => {
            let word = field(fields, 0);
            plan_row(
                alloc,
                version,
                setup,
                word,
                field(fields, 1),
                field(fields, 2),
            )
        }
        4 => {
            let word = field(fields, 0);
            let node = field(fields, 1);
            Ok(four_fields(version, word, node, field(fields, 2), field(fields, 3)))
        }
        5 => {
            let word = field(fields, 0);
            let node = field(fields, 1);
            let kind = field(fields, 2);
            Ok(answered_row(
                version,
                word,
                node,
                kind,
                field(fields, 3),
                field(fields, 4),
            ))
        }
        7 => seven_fields(alloc, version, setup, fields),
        _ => Ok(None),
    }
}

/// The event that its record of two fields tells in a trace of this version; none where it has others, or no form that
/// the profile lists.
// (inlined, so that each reader of rows has a copy of its own, which is built into the loop that calls it)
#[inline(always)]
pub fn read_node_event(version: Version, fields: &ByteRecord) -> Option<NodeEvent>
    ensures event { (setup : SetupState)
        → IfSome result (λ e. row_of version setup (fields_of fields.now) ≡ Some (Row.Event (event_at e.kind e.node))) }
    ensures none { (setup : SetupState) → result ≡ None → length (fields_of fields.now) ≡ 2
        → row_of version setup (fields_of fields.now) ≡ None }
{
    if fields.len() != 2 {
        return None;
    }
    node_event(version, field(fields, 0), field(fields, 1))
}

/// The field at a place that the record has.
pub fn field(row: &ByteRecord, place: usize) -> &[u8]
    requires { place < length (fields_of row.now) }
    ensures { field_at (fields_of row.now) place ≡ Some result.now }
{
    row.get(place).unwrap()
}

// The event that two fields mean.
#[inline(always)]
fn node_event(version: Version, word: &[u8], node: &[u8]) -> Option<NodeEvent>
    ensures { (setup : SetupState) → option_map (λ e. Row.Event (event_at e.kind e.node)) result
        ≡ row_of version setup (word.now ∷ node.now ∷ []) }
{
    let node = read_node(version, node)?;
    let kind = NodeEventKind::named(word)?;
    Some(NodeEvent { kind, node })
}

// What three fields mean.
fn plan_row(
    alloc: Global,
    version: Version,
    setup: &Setup,
    word: &[u8],
    node: &[u8],
    owners: &[u8],
) -> Result<Option<Row>, OutOfMemory>
    ensures { IfOk result (λ row. row ≡ row_of version setup.now (word.now ∷ node.now ∷ owners.now ∷ [])) }
{
    if !is_word(word, EventKind::Plan.word()) {
        return Ok(None);
    }
    let Some(node) = read_node(version, node) else {
        return Ok(None);
    };
    match Table::read_in(alloc, setup, owners) {
        Ok(table) => Ok(Some(Row::Event(Event::Plan(node, table)))),
        Err(TableFault::OutOfMemory) => Err(AllocError),
        Err(_) => Ok(None),
    }
}

// What four fields mean.
fn four_fields(
    version: Version,
    word: &[u8],
    node: &[u8],
    third: &[u8],
    fourth: &[u8],
) -> Option<Row>
    ensures { (setup : SetupState) → result ≡ row_of version setup (word.now ∷ node.now ∷ third.now ∷ fourth.now ∷ []) }
{
    if is_word(word, SAW) {
        Some(Row::Claim(claim_of(version, node, third, fourth)?))
    } else {
        unanswered_row(version, word, node, third, fourth)
    }
}

// What seven fields mean.
fn seven_fields(
    alloc: Global,
    version: Version,
    setup: &Setup,
    fields: &ByteRecord,
) -> Result<Option<Row>, OutOfMemory>
    requires { length (fields_of fields.now) ≡ 7 }
    ensures { IfOk result (λ row. row ≡ row_of version setup.now (fields_of fields.now)) }
{
    let word = field(fields, 0);
    let node = field(fields, 1);
    let status = field(fields, 2);
    let coordinator = field(fields, 3);
    let halter = field(fields, 4);
    let up = field(fields, 5);
    let owners = field(fields, 6);
    if !is_word(word, SAW) || !version.says_more() {
        return Ok(None);
    }
    let claim = claim_of(version, node, status, coordinator);
    whole_row(alloc, version, setup, claim, halter, up, owners)
}

/// What the fields of a claim mean.
pub fn claim_of(version: Version, node: &[u8], status: &[u8], coordinator: &[u8]) -> Option<Claim>
    ensures { result ≡ claim_in version node.now status.now coordinator.now }
{
    let node = read_node(version, node)?;
    let status = status_named(status)?;
    let coordinator = read_coordinator(version, coordinator)?;
    Some(Claim {
        node,
        status,
        coordinator,
    })
}

/// A node, or none where the text is a dash.
pub fn read_coordinator(version: Version, text: &[u8]) -> Option<Option<Node>>
    ensures { result ≡ coordinator_in version text.now }
{
    if is_word(text, "-") {
        return Some(None);
    }
    Some(Some(read_node(version, text)?))
}

/// The node of this number, from 1 to the highest that a trace of this version may name.
pub fn read_node(version: Version, text: &[u8]) -> Option<Node>
    ensures { result ≡ node_in version text.now }
{
    Node::new(number_within(text, version.nodes_max())?)
}

/// The number, where it is from 1 to the limit.
pub fn number_within(text: &[u8], limit: u16) -> Option<u16>
    requires { limit < 65535 }
    ensures { result ≡ option_and_then (within limit) (number_of text.now) }
{
    let number = read_number(text)?;
    if 0 < number && number <= limit {
        Some(number)
    } else {
        None
    }
}
