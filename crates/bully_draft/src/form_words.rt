//! Where a row breaks its form, in words.

use crate::draft::Draft;
use crate::form::{Expected, FieldCounts, Misfit, Ownership, misfit_of_header, misfit_of_row};
use bully_base::{Setup, WEIGHT_MAX};
use bully_calls::EVERY_EVENT_KIND;
use bully_rows::{SAW, Version};
use csv::ByteRecord;

/// What is said of the number of a node, before its range.
const NODE: &str = "the number of a node,";

/// What is said of the members of an up set, before their range.
const UP: &str = "the numbers of nodes in rising order, parted by single spaces, each";

/// What is said where a dash may stand, too.
const OR_NONE: &str = ", or - for none";

/// What is said of several numbers, before their range.
const EACH: &str = " parted by single spaces, each";

/// Appends the field at which a first row, which is no header, breaks the form of one, and what may stand there.
pub fn push_header_misfit(text: &mut Draft, fields: &ByteRecord) {
    push_misfit(text, fields, misfit_of_header(fields));
}

/// Appends the field at which a row after the header of a trace of this version and setup, which has no form, breaks
/// it, and what may stand there.
pub fn push_row_misfit(text: &mut Draft, fields: &ByteRecord, version: Version, setup: &Setup) {
    push_misfit(text, fields, misfit_of_row(version, setup, fields));
}

// Appends the field at which a row breaks its form, and what may stand there.
fn push_misfit(text: &mut Draft, fields: &ByteRecord, misfit: Misfit) {
    let field = misfit.field;
    if field == 0 {
        text.push_str("it has ");
        text.push_count(fields.len(), "field");
        text.push_str(", and ");
    } else {
        text.push_between("field ", field, " has to be ");
    }
    push_expected(text, misfit.expected);
}

// Appends what may stand at a place of a row.
fn push_expected(text: &mut Draft, expected: Expected) {
    match expected {
        Expected::Word => push_row_words(text),
        Expected::Fields(counts) => push_counts(text, counts),
        Expected::Node(highest) => push_range(text, NODE, highest),
        Expected::Owners(ownership) => push_owners(text, ownership),
        Expected::Status => text.push_str("down, election, reorganization or normal"),
        Expected::Coordinator(highest) => {
            push_range(text, NODE, highest);
            text.push_str(OR_NONE);
        }
        Expected::Up(highest) => {
            push_range(text, UP, highest);
            text.push_str(OR_NONE);
        }
        Expected::Task(ownership) => {
            push_owners(text, ownership);
            text.push_str(OR_NONE);
        }
        Expected::Call => {
            text.push_str("are-you-up, are-you-normal, halt, new-coordinator or ready");
        }
        Expected::Answer => text.push_str("done, yes or no"),
        Expected::Outcome => text.push_str("done, yes, no, failed or discarded"),
        Expected::Bully => text.push_str("the word bully"),
        Expected::Version => text.push_str("the version, 1, 2 or 3"),
        Expected::Nodes(most) => push_range(text, "how many nodes there are,", most),
        Expected::Partitions(most) => push_range(text, "how many partitions there are,", most),
        Expected::Weights(nodes) => push_weights(text, nodes),
        Expected::Keep => text.push_str("keep or clear"),
    }
}

// Appends the words that a row may start with.
fn push_row_words(text: &mut Draft) {
    for (place, event_kind) in EVERY_EVENT_KIND.iter().enumerate() {
        if place > 0 {
            text.push_str(", ");
        }
        text.push_str(event_kind.word());
    }
    text.push_str(" or ");
    text.push_str(SAW);
}

// Appends how many fields a row of a kind has.
fn push_counts(text: &mut Draft, counts: FieldCounts) {
    text.push_behind("one of its kind has ", counts.few);
    if let Some(more) = counts.more {
        text.push_behind(" or ", more);
    }
}

// Appends of what a number may stand there, and up to which one.
fn push_range(text: &mut Draft, what: &'static str, most: u16) {
    text.push_str(what);
    text.push_behind(" from 1 to ", most);
}

// Appends which owners may stand there.
fn push_owners(text: &mut Draft, ownership: Ownership) {
    text.push_str("the owners of ");
    text.push_count(usize::from(ownership.partitions), "partition");
    text.push_str(",");
    push_range(text, EACH, ownership.nodes);
}

// Appends that a weight for each of so many nodes may stand there.
fn push_weights(text: &mut Draft, nodes: u16) {
    text.push_str("the weights of ");
    text.push_count(usize::from(nodes), "node");
    text.push_str(",");
    push_range(text, EACH, WEIGHT_MAX);
}
