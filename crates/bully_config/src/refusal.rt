//! The refusals of a document. None of them takes memory.
ghost use Rattle.std.specs.Prelude.{◌≡◌, ◌≤◌, map, length, option_map, if◌then◌else◌};
ghost use Rattle.std.specs.Fn.{FnReturnsAt};
ghost use Rattle.std.specs.List.{list_all, list_any};
ghost use Rattle.toml.specs.View.{view, table_view, members_view};
ghost use Rattle.bully_base.specs.declared.TheConstants.{NODES_MAX};
ghost use Rattle.bully_config.specs.Answers.{refusal_of};
ghost use Rattle.std.specs.Str.{bytes_eq};
ghost use Rattle.bully_config.specs.Configuration.{has_double, is_empty};
ghost use Rattle.bully_config.specs.Document.{value_at};
ghost use Rattle.bully_config.specs.Keys.{fault_keys, top_keys};
ghost use Rattle.bully_config.specs.Refusals.{first_failing, first_in, first_absent, missing_in, is_table, is_string};
ghost use Rattle.bully_config.specs.Refusals.{is_integer, is_weight, has_kind, first_misfit, key_in_fault, misfit_in};
ghost use Rattle.bully_config.specs.Refusals.{range_key_in, are_names, are_weights, fault_out_of_range};
ghost use Rattle.bully_config.specs.Refusals.{out_of_range_in, is_listed, first_unlisted, has_unlisted};
ghost use Rattle.bully_config.specs.Refusals.{fault_has_unlisted, has_unlisted_in, fits};
ghost use Rattle.bully_config.specs.Searches.{Computes};
ghost use Rattle.bully_config.specs.Values.{names_of};

use crate::fault::{ConfigFault, Key};
use crate::lookup::{
    items_at, kind_at, node_at, number_at, period_at, text_of, value_at, weight_of,
};
use crate::{FAULTS_MAX, TURNS_MAX};
use bully_base::{EVENTS_MAX, NODES_MAX, PARTITIONS_MAX};
use toml::{Table, Value};

/// The keys that a document must have.
const REQUIRED_KEYS: [Key; 5] = [
    Key::Nodes,
    Key::Partitions,
    Key::Events,
    Key::Turns,
    Key::Names,
];

/// The keys that a document may have.
const TOP_KEYS: [Key; 9] = [
    Key::Nodes,
    Key::Partitions,
    Key::Events,
    Key::Turns,
    Key::Period,
    Key::Names,
    Key::Weights,
    Key::Keep,
    Key::Fault,
];

/// The keys that a fault must have.
const FAULT_KEYS: [Key; 3] = [Key::At, Key::Node, Key::Kind];

/// The first refusal of a document, in the order of [`ConfigFault`].
pub fn first_refusal(document: &Table) -> Option<ConfigFault>
    ensures { result ≡ refusal_of (table_view document.now) }
{
    if let Some(key) = missing_key(document) {
        return Some(ConfigFault::Missing(key));
    }
    if let Some(key) = misfit_key(document) {
        return Some(ConfigFault::Kind(key));
    }
    if let Some(key) = key_out_of_range(document) {
        return Some(ConfigFault::Range(key));
    }
    if has_double(items_at(document, Key::Names)) {
        return Some(ConfigFault::DoubleName);
    }
    if has_unknown_key(document) {
        return Some(ConfigFault::UnknownKey);
    }
    None
}

/// The key at which a fault of the document breaks the rule of a refusal: the first that isn't there, whose value has
/// another kind, or whose value is out of its range. None where it breaks that rule nowhere, and of a refusal that
/// tells no key.
pub fn key_in_fault(document: &Table, fault: &Table, refusal: ConfigFault) -> Option<Key>
    ensures { result ≡ key_in_fault (table_view document.now) (table_view fault.now) refusal }
{
    match refusal {
        ConfigFault::Missing(_) => first_absent(fault, &FAULT_KEYS),
        ConfigFault::Kind(_) => first_misfit(fault, &FAULT_KEYS),
        ConfigFault::Range(_) => key_out_of_range_in(document, fault),
        _ => None,
    }
}

// The first key of the fault whose value is out of its range, by the turns and the names of the document.
fn key_out_of_range_in(document: &Table, fault: &Table) -> Option<Key>
    ensures { result ≡ range_key_in (table_view document.now) (table_view fault.now) }
{
    let turns = number_at(document, Key::Turns, TURNS_MAX)?;
    let names = items_at(document, Key::Names);
    if names.len() > usize::from(NODES_MAX) {
        return None;
    }
    key_of_fault_out_of_range(fault, turns, names)
}

/// The first key of the table, in the order of their texts, that isn't listed: of those of a fault, or of those at the
/// top.
pub fn unlisted_key(table: &Table, is_fault: bool) -> Option<&str>
    ensures { option_map (λ word. word.now) result ≡ first_unlisted (if is_fault then fault_keys else
        top_keys) (table_view table.now) }
{
    if is_fault {
        first_unlisted(table, &FAULT_KEYS)
    } else {
        first_unlisted(table, &TOP_KEYS)
    }
}

// The first key of the table that isn't one of these.
fn first_unlisted<'a>(table: &'a Table, keys: &[Key]) -> Option<&'a str>
    ensures { option_map (λ word. word.now) result ≡ first_unlisted keys.now (table_view table.now) }
{
    for (word, _value) in table.iter() {
        if !is_listed(word.as_str(), keys) {
            return Some(word.as_str());
        }
    }
    None
}

// The first required key that isn't there.
fn missing_key(document: &Table) -> Option<Key>
    ensures { result ≡ missing_in (table_view document.now) }
{
    if let Some(key) = first_absent(document, &REQUIRED_KEYS) {
        return Some(key);
    }
    let faults = items_at(document, Key::Fault);
    if are_tables(faults) {
        first_key_in(faults, |fault| first_absent(fault, &FAULT_KEYS))
    } else {
        None
    }
}

// The first of the keys that isn't there.
fn first_absent(table: &Table, keys: &[Key]) -> Option<Key>
    ensures { result ≡ first_absent keys.now (table_view table.now) }
{
    first_failing(keys, |key| value_at(table, key).is_some())
}

// The first key whose value has another kind.
fn misfit_key(document: &Table) -> Option<Key>
    ensures { result ≡ misfit_in (table_view document.now) }
{
    if let Some(key) = first_misfit(document, &TOP_KEYS) {
        return Some(key);
    }
    first_key_in(items_at(document, Key::Fault), |fault| {
        first_misfit(fault, &FAULT_KEYS)
    })
}

// The first of the keys whose value has another kind.
fn first_misfit(table: &Table, keys: &[Key]) -> Option<Key>
    ensures { result ≡ first_misfit keys.now (table_view table.now) }
{
    first_failing(keys, |key| fits(table, key))
}

// Whether the value at the key, where there is one, is of the key's kind.
fn fits(table: &Table, key: Key) -> bool
    ensures { result ≡ fits key (value_at key (table_view table.now)) }
{
    match value_at(table, key) {
        Some(value) => has_kind(key, value),
        None => true,
    }
}

// Whether the value is of the key's kind.
#[tactic(auto, using(crate::proofs::ItemLemmas::list_of_view))]
fn has_kind(key: Key, value: &Value) -> bool
    ensures { result ≡ has_kind key (view value.now) }
{
    match key {
        Key::Nodes | Key::Partitions | Key::Events | Key::Turns | Key::Period | Key::At =>
            value.is_integer(),
        Key::Names => match value.as_array() {
            Some(items) => are_strings(items),
            None => false,
        },
        Key::Weights => match value.as_array() {
            Some(items) => are_integers(items),
            None => false,
        },
        Key::Keep => value.is_bool(),
        Key::Fault => match value.as_array() {
            Some(items) => are_tables(items),
            None => false,
        },
        Key::Node | Key::Kind => value.is_str(),
    }
}

// Whether each item is a string.
fn are_strings(items: &[Value]) -> bool
    ensures { result ≡ list_all is_string (map view items.now) }
{
    items.iter().all(|item| item.is_str())
}

// Whether each item is an integer.
fn are_integers(items: &[Value]) -> bool
    ensures { result ≡ list_all is_integer (map view items.now) }
{
    items.iter().all(|item| item.is_integer())
}

// Whether each item is a table.
fn are_tables(items: &[Value]) -> bool
    ensures { result ≡ list_all is_table (map view items.now) }
{
    items.iter().all(|item| item.is_table())
}

// The first key whose value is out of its range.
#[tactic(auto, using(crate::proofs::FactLemmas::names_short))]
fn key_out_of_range(document: &Table) -> Option<Key>
    ensures { result ≡ out_of_range_in (table_view document.now) }
{
    let Some(nodes) = number_at(document, Key::Nodes, u32::from(NODES_MAX)) else {
        return Some(Key::Nodes);
    };
    if number_at(document, Key::Partitions, u32::from(PARTITIONS_MAX)).is_none() {
        return Some(Key::Partitions);
    }
    if number_at(document, Key::Events, EVENTS_MAX).is_none() {
        return Some(Key::Events);
    }
    let Some(turns) = number_at(document, Key::Turns, TURNS_MAX) else {
        return Some(Key::Turns);
    };
    if period_at(document).is_none() {
        return Some(Key::Period);
    }
    let names = items_at(document, Key::Names);
    if !are_names(names, nodes) {
        return Some(Key::Names);
    }
    if !are_weights(document, nodes) {
        return Some(Key::Weights);
    }
    let faults = items_at(document, Key::Fault);
    if faults.len() > FAULTS_MAX {
        return Some(Key::Fault);
    }
    first_key_in(
        faults,
        |fault| key_of_fault_out_of_range(fault, turns, names),
    )
}

// Whether the names are as many as the nodes, and none is empty.
fn are_names(names: &[Value], nodes: u32) -> bool
    ensures { result ≡ are_names nodes (names_of (map view names.now)) }
{
    names.len() == nodes as usize && !has_empty(names)
}

// Whether a name is empty.
fn has_empty(names: &[Value]) -> bool
    ensures { result ≡ list_any is_empty (names_of (map view names.now)) }
{
    names.iter().any(|item| text_of(item).is_empty())
}

// Whether the weights are as many as the nodes, and each is in its range, where the document tells them.
fn are_weights(document: &Table, nodes: u32) -> bool
    ensures { result ≡ are_weights nodes (table_view document.now) }
{
    let items = items_at(document, Key::Weights);
    value_at(document, Key::Weights).is_none()
        || (items.len() == nodes as usize && have_weights(items))
}

// Whether each item is a weight in its range.
fn have_weights(items: &[Value]) -> bool
    ensures { result ≡ list_all is_weight (map view items.now) }
{
    items.iter().all(|item| weight_of(item).is_some())
}

// The first key of a fault whose value is out of its range.
fn key_of_fault_out_of_range(fault: &Table, turns: u32, names: &[Value]) -> Option<Key>
    requires { length names.now ≤ NODES_MAX }
    ensures { result ≡ fault_out_of_range turns (names_of (map view names.now)) (table_view fault.now) }
{
    if number_at(fault, Key::At, turns).is_none() {
        return Some(Key::At);
    }
    if node_at(fault, names).is_none() {
        return Some(Key::Node);
    }
    if kind_at(fault).is_none() {
        return Some(Key::Kind);
    }
    None
}

// Whether two names are equal.
fn has_double(names: &[Value]) -> bool
    ensures { result ≡ has_double (names_of (map view names.now)) }
{
    let mut others = names;
    while let Some((first, rest)) = others.split_first() {
        if has_name(rest, text_of(first)) {
            return true;
        }
        others = rest;
    }
    false
}

// Whether one of the names is this one.
fn has_name(names: &[Value], name: &str) -> bool
    ensures { result ≡ list_any (bytes_eq name.now) (names_of (map view names.now)) }
{
    names.iter().any(|item| name == text_of(item))
}

// Whether there is a key that isn't listed, at the top or in a fault.
fn has_unknown_key(document: &Table) -> bool
    ensures { result ≡ has_unlisted_in (table_view document.now) }
{
    has_unlisted(document, &TOP_KEYS) || has_unknown_key_in_faults(items_at(document, Key::Fault))
}

// Whether a fault has a key that isn't listed.
fn has_unknown_key_in_faults(faults: &[Value]) -> bool
    ensures { result ≡ list_any fault_has_unlisted (map view faults.now) }
{
    faults.iter().any(|item| fault_has_unlisted(item))
}

// Whether the fault has a key that isn't listed.
fn fault_has_unlisted(item: &Value) -> bool
    ensures { result ≡ fault_has_unlisted (view item.now) }
{
    match item.as_table() {
        Some(fault) => has_unlisted(fault, &FAULT_KEYS),
        None => false,
    }
}

// Whether the table has a key that isn't one of these.
fn has_unlisted(table: &Table, keys: &[Key]) -> bool
    ensures { result ≡ has_unlisted keys.now (table_view table.now) }
{
    for (word, _value) in table.iter() {
        if !is_listed(word.as_str(), keys) {
            return true;
        }
    }
    false
}

// Whether the text is that of one of the keys.
fn is_listed(word: &str, keys: &[Key]) -> bool
    ensures { result ≡ is_listed keys.now word.now }
{
    keys.iter().any(|key| word == key.word())
}

// The first of the keys that fails the test.
fn first_failing<F: Fn(Key) -> bool>(keys: &[Key], test: F) -> Option<Key>
    requires { F.IsAlwaysCallable test }
    ensures { (passes : _) → Computes (λ key. key) (F.post test) passes → result ≡ first_failing passes keys.now }
{
    for key in keys {
        if !test(*key) {
            return Some(*key);
        }
    }
    None
}

// The key at fault in the first table in which one is found.
#[tactic(auto, using(crate::proofs::ItemLemmas::items_next, crate::proofs::ItemLemmas::items_end))]
fn first_key_in<F: Fn(&Table) -> Option<Key>>(faults: &[Value], find: F) -> Option<Key>
    requires { F.IsAlwaysCallable find }
    ensures { (fault : _) → Computes table_view (FnReturnsAt F.Fn find) fault
        → result ≡ first_in fault (map view faults.now) }
{
    for item in faults {
        if let Some(fault) = item.as_table() {
            let found = find(fault);
            if found.is_some() {
                return found;
            }
        }
    }
    None
}
