//! The rows of version 3 that say more than an event, or than a status and a coordinator.
ghost use Rattle.std.specs.Prelude.{◌≡◌, IfOk};
ghost use Rattle.bully_rows.specs.Rows.{answer_in, answered_in, answered_row, call_in, detailed, is_above, set_in};
ghost use Rattle.bully_rows.specs.Rows.{task_in, unanswered_in, unanswered_row, whole_of};

use crate::detail::{Detail, DetailedEvent};
use crate::header::Version;
use crate::row::{read_coordinator, read_node};
use crate::trace::{Claim, Row, WholeClaim};
use crate::words::{call_named, outcome_named, reply_named};
use bully_base::{Node, NodeSet, OutOfMemory, Setup};
use bully_calls::{Answer, Call, NodeEventKind, Saying, is_word};
use bully_table::{Pieces, Table, TableFault};
use std::alloc::{AllocError, Global};

/// What four fields mean: an event, and the call that it is of.
pub fn unanswered_row(
    version: Version,
    word: &[u8],
    node: &[u8],
    kind: &[u8],
    callee: &[u8],
) -> Option<Row>
    ensures { result ≡ unanswered_row version word.now node.now kind.now callee.now }
{
    let call = read_call(version, kind, callee)?;
    detailed_row(version, node, unanswered(word, call))
}

/// What five fields mean: an event, the call that it is of, and what is answered.
pub fn answered_row(
    version: Version,
    word: &[u8],
    node: &[u8],
    kind: &[u8],
    callee: &[u8],
    answer: &[u8],
) -> Option<Row>
    ensures { result ≡ answered_row version word.now node.now kind.now callee.now answer.now }
{
    let call = read_call(version, kind, callee)?;
    detailed_row(version, node, answered(word, answer, call))
}

// The row that says this of an event of the node, in a version that says it.
fn detailed_row(version: Version, node: &[u8], detail: Option<Detail>) -> Option<Row>
    ensures { result ≡ detailed version node.now detail }
{
    if !version.says_more() {
        return None;
    }
    let node = read_node(version, node)?;
    let detail = detail?;
    Some(Row::Detailed(DetailedEvent { node, detail }))
}

// The call of this kind to this node.
fn read_call(version: Version, kind: &[u8], callee: &[u8]) -> Option<Call>
    ensures { result ≡ call_in version kind.now callee.now }
{
    let kind = call_named(kind)?;
    let callee = read_node(version, callee)?;
    Some(Call { callee, kind })
}

// What is said beside an event of this word, where no answer is told.
fn unanswered(word: &[u8], call: Call) -> Option<Detail>
    ensures { result ≡ unanswered_in word.now call }
{
    let kind = NodeEventKind::named(word)?;
    match kind.saying() {
        Saying::Offered | Saying::Held => Some(Detail::unanswered(kind, call)),
        Saying::Nothing | Saying::Replied | Saying::Brought => None,
    }
}

// The same, where one is told.
fn answered(word: &[u8], answer: &[u8], call: Call) -> Option<Detail>
    ensures { result ≡ answered_in word.now answer.now call }
{
    let kind = NodeEventKind::named(word)?;
    let answer = read_answer(kind.saying(), answer)?;
    Some(Detail::answered(kind, call, answer))
}

// The answer of this word, where one is told of events of which this is said.
fn read_answer(saying: Saying, word: &[u8]) -> Option<Answer>
    ensures { result ≡ answer_in saying word.now }
{
    match saying {
        Saying::Replied => reply_named(word),
        Saying::Brought => outcome_named(word),
        Saying::Nothing | Saying::Offered | Saying::Held => None,
    }
}

/// The claim with what these fields tell of the rest of the vector. Refused where an allocation fails.
pub fn whole_row(
    alloc: Global,
    version: Version,
    setup: &Setup,
    claim: Option<Claim>,
    halter: &[u8],
    up: &[u8],
    owners: &[u8],
) -> Result<Option<Row>, OutOfMemory>
    ensures { IfOk result (λ row. row ≡ whole_of version setup.now claim halter.now up.now owners.now) }
{
    let Some(claim) = claim else {
        return Ok(None);
    };
    let Some(halter) = read_coordinator(version, halter) else {
        return Ok(None);
    };
    let Some(up) = read_set(version, up) else {
        return Ok(None);
    };
    match read_task(alloc, setup, owners)? {
        Some(task) => Ok(Some(Row::Whole(WholeClaim::new(alloc, claim, halter, up, task)?))),
        None => Ok(None),
    }
}

/// A set of nodes in rising order, parted by single spaces, or the empty one where the text is a dash.
pub fn read_set(version: Version, text: &[u8]) -> Option<NodeSet>
    ensures { result ≡ set_in version text.now }
{
    if is_word(text, "-") {
        return Some(NodeSet::new());
    }
    let mut set = NodeSet::new();
    let mut pieces = Pieces::of(text);
    while let Some(piece) = pieces.next() {
        let node = read_node(version, piece)?;
        if !is_above(node, &set) {
            return None;
        }
        set.insert(node);
    }
    Some(set)
}

// Whether the node is above all members of the set.
fn is_above(node: Node, set: &NodeSet) -> bool
    ensures { result ≡ is_above node set.now }
{
    match set.highest() {
        Some(highest) => highest < node,
        None => true,
    }
}

// A table of the setup, or none where the text is a dash.
fn read_task(
    alloc: Global,
    setup: &Setup,
    text: &[u8],
) -> Result<Option<Option<Table>>, OutOfMemory>
    ensures { IfOk result (λ task. task ≡ task_in setup.now text.now) }
{
    if is_word(text, "-") {
        return Ok(Some(None));
    }
    match Table::read_in(alloc, setup, text) {
        Ok(table) => Ok(Some(Some(table))),
        Err(TableFault::OutOfMemory) => Err(AllocError),
        Err(_) => Ok(None),
    }
}
