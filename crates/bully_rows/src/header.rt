//! The header of a trace: its first row.
ghost use Rattle.std.specs.Prelude.{◌≡◌, ◌⊎◌, ◌∷◌, ◌+◌, ◌≤◌, [], length, Some, None, false, IsTrue, MatchOption};
ghost use Rattle.std.specs.Option.{option_map};
ghost use Rattle.csv.specs.Records.{fields_of};
ghost use Rattle.bully_base.specs.declared.TheConstants.{NODES_MAX, PARTITIONS_MAX};
ghost use Rattle.bully_rows.specs.Headers.{header_of, later_version, nodes_max, partitions_max, says_more, setup_in};
ghost use Rattle.bully_rows.specs.Headers.{version_for, weighted_in, weights_from, weights_in};

use crate::row::{field, number_within};
use crate::words::keeps_named;
use crate::{FIRST_NODES_MAX, FIRST_PARTITIONS_MAX};
use bully_base::{EVENTS_MAX, NODES_MAX, PARTITIONS_MAX, Setup, WEIGHT_MAX};
use bully_calls::is_word;
use bully_table::Pieces;
use csv::ByteRecord;

/// The version of a trace: what its header tells, how large a group may be, and whether rows may say more than an
/// event, or than a status and a coordinator.
#[derive(Clone, Copy, PartialEq, Eq, Debug)]
pub enum Version {
    /// How many nodes and partitions there are, at most [`FIRST_NODES_MAX`] and [`FIRST_PARTITIONS_MAX`]. All nodes
    /// weigh 1, and no task is kept over a crash.
    One,
    /// How many nodes and partitions there are, as many as a group may have; beside that what each node weighs, and
    /// whether tasks are kept over a crash.
    Two,
    /// What version 2 has; and its rows may say more ([`crate::Detail`] and [`crate::WholeClaim`]).
    Three,
}

impl Version {
    /// The most nodes that a trace of this version has, and the highest node that its rows may name.
    pub fn nodes_max(self) -> u16
        ensures most { result ≡ nodes_max self }
        ensures within { result ≤ NODES_MAX }
    {
        match self {
            Version::One => FIRST_NODES_MAX,
            Version::Two | Version::Three => NODES_MAX,
        }
    }

    /// The most partitions that a trace of this version has.
    pub fn partitions_max(self) -> u16
        ensures most { result ≡ partitions_max self }
        ensures within { result ≤ PARTITIONS_MAX }
    {
        match self {
            Version::One => FIRST_PARTITIONS_MAX,
            Version::Two | Version::Three => PARTITIONS_MAX,
        }
    }

    /// Whether its rows may say more than an event, or than a status and a coordinator.
    pub fn says_more(self) -> bool
        ensures { result ≡ says_more self }
    {
        matches!(self, Version::Three)
    }
}

/// What the header of a trace tells.
#[derive(Clone, Copy)]
pub struct Header {
    pub version: Version,
    pub setup: Setup,
}

/// The version of a trace of this setup: the first that can tell it.
pub fn version_for(setup: &Setup) -> Version
    ensures { result ≡ version_for setup.now }
{
    let fits = setup.nodes() <= FIRST_NODES_MAX && setup.partitions() <= FIRST_PARTITIONS_MAX;
    if setup.is_even() && fits {
        Version::One
    } else {
        Version::Two
    }
}

/// What the first record of a trace tells; none where it is no header of version 1, 2 or 3.
pub fn read_header(row: &ByteRecord) -> Option<Header>
    ensures { result ≡ header_of (fields_of row.now) }
{
    match row.len() {
        4 => {
            let word = field(row, 0);
            let version = field(row, 1);
            first_header(word, version, field(row, 2), field(row, 3))
        }
        6 => {
            let word = field(row, 0);
            let version = field(row, 1);
            let nodes = field(row, 2);
            let partitions = field(row, 3);
            later_header(
                word,
                version,
                nodes,
                partitions,
                field(row, 4),
                field(row, 5),
            )
        }
        _ => None,
    }
}

// What four fields mean: a header of version 1.
fn first_header(word: &[u8], version: &[u8], nodes: &[u8], partitions: &[u8]) -> Option<Header>
    ensures { result ≡ header_of (word.now ∷ version.now ∷ nodes.now ∷ partitions.now ∷ []) }
{
    if !is_word(word, "bully") || !is_word(version, "1") {
        return None;
    }
    let setup = setup_in(nodes, partitions)?;
    let version = Version::One;
    Some(Header { version, setup })
}

// The setup of these numbers, in which all nodes weigh 1 and no task is kept.
fn setup_in(nodes: &[u8], partitions: &[u8]) -> Option<Setup>
    ensures { result ≡ setup_in nodes.now partitions.now }
{
    let nodes = number_within(nodes, FIRST_NODES_MAX)?;
    let partitions = number_within(partitions, FIRST_PARTITIONS_MAX)?;
    Setup::new(nodes, partitions, EVENTS_MAX).ok()
}

// What six fields mean: a header of version 2 or 3.
fn later_header(
    word: &[u8],
    version: &[u8],
    nodes: &[u8],
    partitions: &[u8],
    weights: &[u8],
    keeps: &[u8],
) -> Option<Header>
    ensures { result ≡ header_of (word.now ∷ version.now ∷ nodes.now ∷ partitions.now ∷ weights.now ∷ keeps.now ∷ []) }
{
    if !is_word(word, "bully") {
        return None;
    }
    let version = later_version(version)?;
    let setup = weighted_in(nodes, partitions, weights, keeps)?;
    Some(Header { version, setup })
}

// The version whose header tells weights, and whether tasks are kept.
fn later_version(version: &[u8]) -> Option<Version>
    ensures { result ≡ later_version version.now }
{
    if is_word(version, "2") {
        Some(Version::Two)
    } else if is_word(version, "3") {
        Some(Version::Three)
    } else {
        None
    }
}

// The setup of these numbers and these weights, which keeps tasks or doesn't.
fn weighted_in(nodes: &[u8], partitions: &[u8], weights: &[u8], keeps: &[u8]) -> Option<Setup>
    ensures { result ≡ weighted_in nodes.now partitions.now weights.now keeps.now }
{
    let nodes = number_within(nodes, NODES_MAX)?;
    let partitions = number_within(partitions, PARTITIONS_MAX)?;
    let mut room = [0; NODES_MAX as usize];
    let each = &mut room[..usize::from(nodes)];
    if !read_weights(weights, each) {
        return None;
    }
    let keeps = keeps_named(keeps)?;
    Setup::weighted(nodes, partitions, EVENTS_MAX, each, keeps).ok()
}

/// Reads the weights of a text, as many as there are places for them, parted by single spaces and each from 1 to
/// [`WEIGHT_MAX`], and tells whether it is such a text. Where it isn't, no place says anything.
pub fn read_weights(text: &[u8], weights: &mut [u16]) -> bool
    ensures read { IsTrue result → weights_in (length weights.old) text.now ≡ Some weights.new }
    ensures other { result ≡ false → weights_in (length weights.old) text.now ≡ None }
{
    let mut pieces = Pieces::of(text);
    for weight in weights.iter_mut() {
        let Some(number) = next_weight(&mut pieces) else {
            return false;
        };
        *weight = number;
    }
    pieces.next().is_none()
}

// Takes the next piece, and tells the weight that it is; none where it is no weight, or all pieces are taken.
fn next_weight(pieces: &mut Pieces<'_>) -> Option<u16>
    ensures { MatchOption result
        ((pieces.old ≡ []) ⊎ (weights_from pieces.old ≡ None))
        (λ weight. (length pieces.old ≡ length pieces.new + 1)
        × (weights_from pieces.old ≡ option_map (λ more. weight ∷ more) (weights_from pieces.new))) }
{
    let piece = pieces.next()?;
    number_within(piece, WEIGHT_MAX)
}
