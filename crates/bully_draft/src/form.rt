//! Where a row breaks its form.
ghost use Rattle.std.specs.Prelude.{◌≡◌, [], get_or};
ghost use Rattle.csv.specs.Records.{fields_of};

use bully_base::{NODES_MAX, Setup};
use bully_calls::{EventKind, NodeEventKind, Saying, is_word};
use bully_rows::{
    SAW, Version, call_named, number_within, read_coordinator, read_node, read_set, read_weights,
    status_named,
};
use csv::ByteRecord;

/// What may stand at a place of a row.
#[derive(Clone, Copy)]
pub enum Expected {
    /// The word of an event or of a claim.
    Word,
    /// So many fields, in the whole row.
    Fields(FieldCounts),
    /// The number of a node, at most this one.
    Node(u16),
    /// The owners of the partitions.
    Owners(Ownership),
    /// A status.
    Status,
    /// The number of a node, at most this one, or a dash.
    Coordinator(u16),
    /// The members of an up set, none above this node, or a dash.
    Up(u16),
    /// The owners of the partitions, or a dash.
    Task(Ownership),
    /// The word of a call.
    Call,
    /// What a call is answered.
    Answer,
    /// What a call brings.
    Outcome,
    /// The word of a header.
    Bully,
    /// The version of a header.
    Version,
    /// How many nodes there are, at most so many.
    Nodes(u16),
    /// How many partitions there are, at most so many.
    Partitions(u16),
    /// A weight for each of so many nodes.
    Weights(u16),
    /// Whether tasks are kept.
    Keep,
}

/// Of how many partitions there are owners, and up to which node.
#[derive(Clone, Copy)]
pub struct Ownership {
    pub partitions: u16,
    pub nodes: u16,
}

/// How many fields the rows of a kind have: so many, and where they may say more, so many then.
#[derive(Clone, Copy)]
pub struct FieldCounts {
    pub few: usize,
    pub more: Option<usize>,
}

/// The first field of a row at which it breaks its form, counted from 1, or 0 for the row as a whole; and what may
/// stand there.
#[derive(Clone, Copy)]
pub struct Misfit {
    pub field: usize,
    pub expected: Expected,
}

/// Where a row after the header of a trace of this version and setup, which has no form, breaks it.
pub fn misfit_of_row(version: Version, setup: &Setup, fields: &ByteRecord) -> Misfit {
    let word = field_at(fields, 0);
    let Some(counts) = counts_wanted(version, word) else {
        return breaks_at(1, Expected::Word);
    };
    if !are_wanted(&counts, fields.len()) {
        breaks_at(0, Expected::Fields(counts))
    } else if read_node(version, field_at(fields, 1)).is_none() {
        breaks_at(2, Expected::Node(version.nodes_max()))
    } else if is_word(word, EventKind::Plan.word()) {
        breaks_at(3, Expected::Owners(ownership_in(setup)))
    } else if is_word(word, SAW) {
        misfit_of_claim(version, setup, fields)
    } else {
        misfit_of_detail(version, fields)
    }
}

// How many fields a row of this word has in a trace of this version; none where there is no such word.
fn counts_wanted(version: Version, word: &[u8]) -> Option<FieldCounts> {
    let few = fields_wanted(word)?;
    let more = if version.says_more() {
        more_wanted(word)
    } else {
        None
    };
    Some(FieldCounts { few, more })
}

// How many fields a row of this word has where it says no more than in every version; none where there is no such word.
fn fields_wanted(word: &[u8]) -> Option<usize> {
    if NodeEventKind::named(word).is_some() {
        Some(2)
    } else if is_word(word, EventKind::Plan.word()) {
        Some(3)
    } else if is_word(word, SAW) {
        Some(4)
    } else {
        None
    }
}

// How many it has where it says more; none where it never does.
fn more_wanted(word: &[u8]) -> Option<usize> {
    match NodeEventKind::named(word) {
        Some(kind) => fields_saying(kind.saying()),
        None if is_word(word, SAW) => Some(7),
        None => None,
    }
}

// How many fields a row has that says this beside its event; none where it says nothing.
fn fields_saying(saying: Saying) -> Option<usize> {
    match saying {
        Saying::Nothing => None,
        Saying::Offered | Saying::Held => Some(4),
        Saying::Replied | Saying::Brought => Some(5),
    }
}

// Whether a row may have so many fields.
fn are_wanted(counts: &FieldCounts, count: usize) -> bool {
    count == counts.few || counts.more == Some(count)
}

// Where a claim of a node, which has a right number of fields, breaks its form after that node.
fn misfit_of_claim(version: Version, setup: &Setup, fields: &ByteRecord) -> Misfit {
    let highest = version.nodes_max();
    if status_named(field_at(fields, 2)).is_none() {
        breaks_at(3, Expected::Status)
    } else if read_coordinator(version, field_at(fields, 3)).is_none() {
        breaks_at(4, Expected::Coordinator(highest))
    } else if read_coordinator(version, field_at(fields, 4)).is_none() {
        breaks_at(5, Expected::Coordinator(highest))
    } else if read_set(version, field_at(fields, 5)).is_none() {
        breaks_at(6, Expected::Up(highest))
    } else {
        breaks_at(7, Expected::Task(ownership_in(setup)))
    }
}

// Of how many partitions there are owners in a trace of this setup, and up to which node.
fn ownership_in(setup: &Setup) -> Ownership {
    Ownership {
        partitions: setup.partitions(),
        nodes: setup.nodes(),
    }
}

// Where an event of a node, which says more and has a right number of fields, breaks its form after that node.
fn misfit_of_detail(version: Version, fields: &ByteRecord) -> Misfit {
    if call_named(field_at(fields, 2)).is_none() {
        breaks_at(3, Expected::Call)
    } else if read_node(version, field_at(fields, 3)).is_none() {
        breaks_at(4, Expected::Node(version.nodes_max()))
    } else if is_replied(field_at(fields, 0)) {
        breaks_at(5, Expected::Answer)
    } else {
        breaks_at(5, Expected::Outcome)
    }
}

// Whether the event of this word says what its call is answered where it runs.
fn is_replied(word: &[u8]) -> bool {
    match NodeEventKind::named(word) {
        Some(kind) => kind.saying() == Saying::Replied,
        None => false,
    }
}

/// Where a first row, which is no header, breaks the form of one.
pub fn misfit_of_header(fields: &ByteRecord) -> Misfit {
    if !is_word(field_at(fields, 0), "bully") {
        return breaks_at(1, Expected::Bully);
    }
    let version = field_at(fields, 1);
    if is_word(version, "1") {
        misfit_of_version(Version::One, fields, 4)
    } else if is_word(version, "2") {
        misfit_of_version(Version::Two, fields, 6)
    } else if is_word(version, "3") {
        misfit_of_version(Version::Three, fields, 6)
    } else {
        breaks_at(2, Expected::Version)
    }
}

// The same of a header of this version, which has so many fields.
fn misfit_of_version(version: Version, fields: &ByteRecord, few: usize) -> Misfit {
    if fields.len() != few {
        let more = None;
        return breaks_at(0, Expected::Fields(FieldCounts { few, more }));
    }
    let most_nodes = version.nodes_max();
    let Some(nodes) = number_within(field_at(fields, 2), most_nodes) else {
        return breaks_at(3, Expected::Nodes(most_nodes));
    };
    let most_partitions = version.partitions_max();
    if number_within(field_at(fields, 3), most_partitions).is_none() {
        return breaks_at(4, Expected::Partitions(most_partitions));
    }
    if !are_weights(field_at(fields, 4), nodes) {
        return breaks_at(5, Expected::Weights(nodes));
    }
    breaks_at(6, Expected::Keep)
}

// Whether the text has a weight for each of so many nodes.
fn are_weights(text: &[u8], nodes: u16) -> bool {
    let mut room = [0u16; NODES_MAX as usize];
    let count = usize::from(nodes).min(room.len());
    read_weights(text, &mut room[..count])
}

fn breaks_at(field: usize, expected: Expected) -> Misfit {
    Misfit { field, expected }
}

/// The field at this place, counted from 0; an empty one where there is none.
pub fn field_at(fields: &ByteRecord, place: usize) -> &[u8]
    ensures { result.now ≡ get_or (fields_of fields.now) place [] }
{
    match fields.get(place) {
        Some(field) => field,
        None => &[],
    }
}
