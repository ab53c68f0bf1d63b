//! What a document has at the keys of a configuration.
ghost use Rattle.std.specs.Prelude.{◌≡◌, ◌≤◌, [], map, length, option_map};
ghost use Rattle.toml.specs.View.{view, table_view};
ghost use Rattle.bully_base.specs.declared.TheConstants.{NODES_MAX};
ghost use Rattle.bully_config.specs.Configuration.{node_named};
ghost use Rattle.bully_config.specs.Document.{value_at, integer_at, string_at, items_at, text_of};
ghost use Rattle.bully_config.specs.Values.{number_at, period_in, within, names_of, weight_in, keeps_in, kind_named};
ghost use Rattle.bully_config.specs.Values.{node_in, kind_in};

use crate::config::FaultKind;
use crate::fault::Key;
use crate::{PERIOD, PERIOD_MAX, PERIOD_MIN};
use bully_base::{Node, WEIGHT_MAX};
use toml::{Table, Value};

/// The value at a key.
pub fn value_at(table: &Table, key: Key) -> Option<&Value>
    ensures { option_map (λ v. view v.now) result ≡ value_at key (table_view table.now) }
{
    table.get(key.word())
}

/// The items of the array at a key; nothing where there is no array.
#[tactic(auto, unfolding(crate::specs::Document::items_at), using(crate::proofs::ItemLemmas::list_of_view))]
pub fn items_at(table: &Table, key: Key) -> &[Value]
    ensures { map view result.now ≡ items_at key (table_view table.now) }
{
    let Some(value) = value_at(table, key) else {
        return &[];
    };
    match value.as_array() {
        Some(items) => items,
        None => &[],
    }
}

/// The number at a key, where it is from 1 to the limit.
#[tactic(auto, unfolding(crate::specs::Values::number_at))]
pub fn number_at(table: &Table, key: Key, limit: u32) -> Option<u32>
    ensures { result ≡ number_at key limit (table_view table.now) }
{
    number_within(integer_at(table, key)?, 1, limit)
}

/// The period, where it is in its range: the profile's where the document doesn't tell it.
#[tactic(auto, unfolding(crate::specs::Values::period_in))]
pub fn period_at(document: &Table) -> Option<u32>
    ensures { result ≡ period_in (table_view document.now) }
{
    match value_at(document, Key::Period) {
        Some(value) => number_within(value.as_integer()?, PERIOD_MIN, PERIOD_MAX),
        None => Some(PERIOD),
    }
}

/// The weight that an item tells, where it is in its range.
#[tactic(auto, using(crate::proofs::FaultLemmas::within_range))]
pub fn weight_of(item: &Value) -> Option<u16>
    ensures { result ≡ weight_in (view item.now) }
{
    let weight = number_within(item.as_integer()?, 1, u32::from(WEIGHT_MAX))?;
    Some(weight as u16)
}

/// Whether tasks are kept over a crash: they aren't where the document doesn't tell it.
#[tactic(auto, unfolding(crate::specs::Values::keeps_in))]
pub fn keeps_at(document: &Table) -> bool
    ensures { result ≡ keeps_in (table_view document.now) }
{
    match value_at(document, Key::Keep) {
        Some(value) => value.as_bool().unwrap_or(false),
        None => false,
    }
}

/// The node that a fault names, among the names of a document.
pub fn node_at(fault: &Table, names: &[Value]) -> Option<Node>
    requires { length names.now ≤ NODES_MAX }
    ensures { result ≡ node_in (names_of (map view names.now)) (table_view fault.now) }
{
    node_named(names, string_at(fault, Key::Node)?)
}

/// What a fault does.
pub fn kind_at(fault: &Table) -> Option<FaultKind>
    ensures { result ≡ kind_in (table_view fault.now) }
{
    kind_named(string_at(fault, Key::Kind)?)
}

/// The text of a string; an empty one of another value.
pub fn text_of(value: &Value) -> &str
    ensures { result.now ≡ text_of (view value.now) }
{
    value.as_str().unwrap_or("")
}

// The integer at a key.
#[tactic(auto, unfolding(crate::specs::Document::integer_at))]
fn integer_at(table: &Table, key: Key) -> Option<i64>
    ensures { result ≡ integer_at key (table_view table.now) }
{
    value_at(table, key)?.as_integer()
}

// The string at a key.
#[tactic(auto, unfolding(crate::specs::Document::string_at))]
fn string_at(table: &Table, key: Key) -> Option<&str>
    ensures { option_map (λ s. s.now) result ≡ string_at key (table_view table.now) }
{
    value_at(table, key)?.as_str()
}

// The number, where it is from the least to the most.
fn number_within(value: i64, least: u32, most: u32) -> Option<u32>
    ensures { result ≡ within least most value }
{
    if i64::from(least) <= value && value <= i64::from(most) {
        Some(value as u32)
    } else {
        None
    }
}

// The first node of this name.
#[tactic(auto, using(crate::proofs::ItemLemmas::items_next, crate::proofs::ItemLemmas::items_end))]
fn node_named(names: &[Value], name: &str) -> Option<Node>
    requires { length names.now ≤ NODES_MAX }
    ensures { result ≡ node_named (names_of (map view names.now)) name.now }
{
    let mut number = 0;
    for item in names {
        number += 1;
        if text_of(item) == name {
            return Node::new(number);
        }
    }
    None
}

// What the word of a fault says that happens.
fn kind_named(word: &str) -> Option<FaultKind>
    ensures { result ≡ kind_named word.now }
{
    match word {
        "crash" => Some(FaultKind::Crash),
        "recover" => Some(FaultKind::Recover),
        _ => None,
    }
}
