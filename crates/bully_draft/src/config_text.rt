//! The first fault of a configuration, in a sentence with its place, its value and what may stand there.

use crate::draft::Draft;
use bully_base::{EVENTS_MAX, NODES_MAX, PARTITIONS_MAX, WEIGHT_MAX};
use bully_config::{
    ConfigFault, FAULTS_MAX, Key, PERIOD_MAX, PERIOD_MIN, TURNS_MAX, items_at, key_in_fault,
    text_of, unlisted_key, value_at,
};
use toml::{Table, Value};

/// Appends what comes after the name of the document's first fault: what is wrong with it, without the line's end.
pub fn push_fault(text: &mut Draft, document: &Table, fault: ConfigFault) {
    match fault.key() {
        Some(key) => push_key_fault(text, document, fault, key),
        None => push_other_fault(text, document, fault),
    }
}

// Appends what is wrong at a key: of the document, or of the first fault in which it is wrong.
fn push_key_fault(text: &mut Draft, document: &Table, fault: ConfigFault, key: Key) {
    text.push_between("the key ", key, " ");
    let mut place = document;
    if let Some((number, table)) = faulty(document, fault, key) {
        text.push_between("of fault ", number, " ");
        place = table;
    }
    push_found(text, place, key);
    push_expected(text, document, key);
    if value_at(place, key).is_none() {
        push_near(text, place, key);
    }
}

// Which of the faults breaks the rule of the refusal at this key, counted from 1, and its table; none where the key
// stands at the top.
fn faulty(document: &Table, fault: ConfigFault, key: Key) -> Option<(usize, &Table)> {
    if !matches!(key, Key::At | Key::Node | Key::Kind) {
        return None;
    }
    for (place, item) in items_at(document, Key::Fault).iter().enumerate() {
        if let Some(table) = breaking(document, item, fault) {
            return Some((place + 1, table));
        }
    }
    None
}

// The item's table, where it breaks the rule of the refusal.
fn breaking<'a>(document: &Table, item: &'a Value, fault: ConfigFault) -> Option<&'a Table> {
    let table = item.as_table()?;
    if key_in_fault(document, table, fault).is_none() {
        return None;
    }
    Some(table)
}

// Appends what stands at the key of the table.
fn push_found(text: &mut Draft, table: &Table, key: Key) {
    match value_at(table, key) {
        Some(value) => {
            push_value(text, value);
            push_first_misfit(text, items_at(table, key), key);
        }
        None => text.push_str("isn't there"),
    }
}

// Appends the first of the items that can't stand in an array at the key, where there is one.
fn push_first_misfit(text: &mut Draft, items: &[Value], key: Key) {
    for (place, item) in items.iter().enumerate() {
        if !fits(item, key) {
            text.push_between(", whose item ", place + 1, " ");
            return push_value(text, item);
        }
    }
}

// Whether the item may stand in an array at the key.
fn fits(item: &Value, key: Key) -> bool {
    match key {
        Key::Names => !text_of(item).is_empty(),
        Key::Weights => is_weight(item),
        Key::Fault => item.as_table().is_some(),
        _ => true,
    }
}

// Whether the item is a weight.
fn is_weight(item: &Value) -> bool {
    match item.as_integer() {
        Some(weight) => 1 <= weight && weight <= i64::from(WEIGHT_MAX),
        None => false,
    }
}

// Appends a value: a number and a truth value as they are, a text as it is shown, and of the others of which kind they
// are.
fn push_value(text: &mut Draft, value: &Value) {
    match value {
        Value::Integer(number) => text.push_behind("is ", *number),
        Value::String(word) => push_quoted(text, "is ", word.as_str()),
        Value::Boolean(flag) => text.push_behind("is ", *flag),
        Value::Array(items) => text.push_behind("is an array of ", items.len()),
        _ => {
            text.push_str("is a ");
            text.push_str(value.type_str());
        }
    }
}

// Appends the text of a document in quotes, after these words.
fn push_quoted(text: &mut Draft, before: &'static str, word: &str) {
    text.push_str(before);
    text.push_str("\"");
    text.push_shown(word);
    text.push_str("\"");
}

// Appends what may stand at the key.
fn push_expected(text: &mut Draft, document: &Table, key: Key) {
    text.push_str("; it has to be ");
    match key {
        Key::Nodes => text.push_behind("an integer from 1 to ", NODES_MAX),
        Key::Partitions => text.push_behind("an integer from 1 to ", PARTITIONS_MAX),
        Key::Events => text.push_behind("an integer from 1 to ", EVENTS_MAX),
        Key::Turns => text.push_behind("an integer from 1 to ", TURNS_MAX),
        Key::Period => {
            text.push_between("an integer from ", PERIOD_MIN, " to ");
            text.push_value(PERIOD_MAX);
        }
        Key::Names => text.push_str(
            "an array of as many strings as there are nodes, none of them empty",
        ),
        Key::Weights => text.push_behind(
            "an array of as many integers as there are nodes, each from 1 to ",
            WEIGHT_MAX,
        ),
        Key::Keep => text.push_str("true or false"),
        Key::Fault => text.push_between("an array of at most ", FAULTS_MAX, " tables"),
        Key::At => text.push_str("an integer from 1 to the number of turns"),
        Key::Node => push_names(text, items_at(document, Key::Names)),
        Key::Kind => text.push_str("crash or recover"),
    }
}

// Appends the first key of the table that may be meant for the one which isn't there.
fn push_near(text: &mut Draft, table: &Table, key: Key) {
    if let Some(word) = near_key(table, key) {
        push_quoted(text, "; ", word);
        text.push_between(" stands there, which is no key: ", key, " may be meant");
    }
}

// The first key of the table that is near to this one.
fn near_key(table: &Table, key: Key) -> Option<&str> {
    for (word, _value) in table.iter() {
        if is_near(word.as_str().as_bytes(), key.word().as_bytes()) {
            return Some(word.as_str());
        }
    }
    None
}

// Whether the two differ by one letter: one more, one less, or another one.
fn is_near(one: &[u8], other: &[u8]) -> bool {
    let longer = one.len().max(other.len());
    let shorter = one.len().min(other.len());
    let same = same_before(one, other).saturating_add(same_behind(one, other));
    longer.saturating_sub(shorter) <= 1 && longer <= same.saturating_add(1)
}

// How many bytes the two have in common at their starts.
fn same_before(one: &[u8], other: &[u8]) -> usize {
    for (place, byte) in one.iter().enumerate() {
        if other.get(place) != Some(byte) {
            return place;
        }
    }
    one.len()
}

// How many bytes the two have in common at their ends.
fn same_behind(one: &[u8], other: &[u8]) -> usize {
    for count in 0..one.len() {
        if byte_before_end(one, count) != byte_before_end(other, count) {
            return count;
        }
    }
    one.len()
}

// The byte that has so many bytes after it.
fn byte_before_end(bytes: &[u8], count: usize) -> Option<u8> {
    if count >= bytes.len() {
        return None;
    }
    Some(bytes[bytes.len() - 1 - count])
}

// Appends that one of these names may stand there. An item that can't be a name isn't offered.
fn push_names(text: &mut Draft, names: &[Value]) {
    text.push_str("one of the names");
    let mut gap = ": ";
    for name in names {
        if fits(name, Key::Names) {
            push_quoted(text, gap, text_of(name));
            gap = " ";
        }
    }
}

// Appends what is wrong beside a key that is listed: two equal names, or a key that isn't.
fn push_other_fault(text: &mut Draft, document: &Table, fault: ConfigFault) {
    match fault {
        ConfigFault::DoubleName => push_double(text, items_at(document, Key::Names)),
        ConfigFault::UnknownKey => push_unlisted(text, document),
        _ => {}
    }
}

// Appends the first name that repeats an earlier one.
fn push_double(text: &mut Draft, names: &[Value]) {
    for (place, name) in names.iter().enumerate() {
        let word = text_of(name);
        if first_place(names, word) < place {
            return push_quoted(text, "two of the names are ", word);
        }
    }
}

// The place of the first name that is the word; that after all names where none is.
fn first_place(names: &[Value], word: &str) -> usize {
    for (place, name) in names.iter().enumerate() {
        if text_of(name) == word {
            return place;
        }
    }
    names.len()
}

// Appends the first key that isn't listed: at the top, or else in a fault.
fn push_unlisted(text: &mut Draft, document: &Table) {
    if let Some(word) = unlisted_key(document, false) {
        push_quoted(text, "", word);
        return text.push_str(
            " is no key; the keys are nodes, partitions, events, turns, period, names, weights, keep and fault",
        );
    }
    for (place, item) in items_at(document, Key::Fault).iter().enumerate() {
        if let Some(word) = unlisted_in(item) {
            push_quoted(text, "", word);
            return text.push_between(
                " is no key of fault ",
                place + 1,
                "; its keys are at, node and kind",
            );
        }
    }
}

// The first key of a fault that isn't listed.
fn unlisted_in(item: &Value) -> Option<&str> {
    unlisted_key(item.as_table()?, true)
}
