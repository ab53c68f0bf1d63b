//! Values: text in quotes, numbers, and null for none; and the members that each object of a node has.
ghost use Rattle.std.specs.Prelude.{◌≡◌, ◌/◌, ◌%◌, ◌++◌, ◌<◌, OnOk, codes, encode_utf8, string_bytes};
ghost use Rattle.std.specs.Option.{option_copied};
ghost use Rattle.std.specs.Str.{chars};
ghost use Rattle.bully_json.specs.Objects.{escaped, escaped_letter, halter_member, hex_digit, number_text};
ghost use Rattle.bully_json.specs.Objects.{place_members, quoted, task_member, task_text};

use bully_base::{Node, OutOfMemory};
use bully_handlers::Vector;
use bully_rows::status_word;
use bully_table::{Table, push_owners};

/// Appends the text in quotes.
pub fn push_quoted(text: &mut String, raw: &str) -> Result<(), OutOfMemory>
    ensures { OnOk result (string_bytes text.new ≡ string_bytes text.old ++ quoted raw.now) }
{
    text.push('"')?;
    push_escaped(text, raw)?;
    text.push('"')
}

// Appends the letters as they stand within quotes.
fn push_escaped(text: &mut String, raw: &str) -> Result<(), OutOfMemory>
    ensures { OnOk result (string_bytes text.new ≡ string_bytes text.old ++ escaped (chars raw.now)) }
{
    for letter in raw.chars() {
        push_letter(text, letter)?;
    }
    Ok(())
}

// Appends one letter.
fn push_letter(text: &mut String, letter: char) -> Result<(), OutOfMemory>
    ensures { OnOk result (string_bytes text.new ≡ string_bytes text.old ++ escaped_letter letter) }
{
    if letter == '"' {
        text.push_str("\\\"")
    } else if letter == '\\' {
        text.push_str("\\\\")
    } else if letter == '\n' {
        text.push_str("\\n")
    } else if letter < ' ' {
        push_control(text, letter as u8)
    } else {
        text.push(letter)
    }
}

// Appends a control by its escape.
fn push_control(text: &mut String, control: u8) -> Result<(), OutOfMemory>
    ensures { OnOk result (string_bytes text.new ≡ string_bytes text.old
        ++ (codes "\\u00" ++ encode_utf8 (hex_digit (control / 16)) ++ encode_utf8 (hex_digit (control % 16)))) }
{
    text.push_str("\\u00")?;
    text.push(hex_digit(control / 16))?;
    text.push(hex_digit(control % 16))
}

// The digit of base 16.
fn hex_digit(digit: u8) -> char
    requires { digit < 16 }
    ensures { result ≡ hex_digit digit }
{
    if digit < 10 {
        char::from(b'0' + digit)
    } else {
        char::from(b'a' + (digit - 10))
    }
}

// Appends the number of the node, or null.
fn push_number(text: &mut String, node: Option<Node>) -> Result<(), OutOfMemory>
    ensures { OnOk result (string_bytes text.new ≡ string_bytes text.old ++ number_text node) }
{
    match node {
        Some(node) => {
            let number = node.number();
            write!(text, "{number}")
        }
        None => text.push_str("null"),
    }
}

// Appends the owners of the task, from partition 0 on, or null.
fn push_task(text: &mut String, task: Option<&Table>) -> Result<(), OutOfMemory>
    ensures { OnOk result (string_bytes text.new ≡ string_bytes text.old ++ task_text (option_copied task.entry)) }
{
    match task {
        Some(table) => {
            text.push('[')?;
            push_owners(text, table, ',')?;
            text.push(']')
        }
        None => text.push_str("null"),
    }
}

/// Appends the members with the vector's status and coordinator.
#[tactic(auto, unfolding(crate::specs::Objects::place_members))]
pub fn push_place(text: &mut String, vector: &Vector) -> Result<(), OutOfMemory>
    ensures { OnOk result (string_bytes text.new ≡ string_bytes text.old ++ place_members vector.now.vector) }
{
    let status = status_word(vector.status());
    write!(text, "\"status\":\"{status}\",\"coordinator\":")?;
    push_number(text, vector.coordinator())
}

/// Appends the member with the vector's halter, after others.
#[tactic(auto, unfolding(crate::specs::Objects::halter_member))]
pub fn push_halter(text: &mut String, vector: &Vector) -> Result<(), OutOfMemory>
    ensures { OnOk result (string_bytes text.new ≡ string_bytes text.old ++ halter_member vector.now.vector) }
{
    text.push_str(",\"halter\":")?;
    push_number(text, vector.halter())
}

/// Appends the last member, after others: that with the vector's task.
#[tactic(auto, unfolding(crate::specs::Objects::task_member))]
pub fn push_last(text: &mut String, vector: &Vector) -> Result<(), OutOfMemory>
    ensures { OnOk result (string_bytes text.new ≡ string_bytes text.old ++ task_member vector.now.vector) }
{
    text.push_str(",\"task\":")?;
    push_task(text, vector.task())?;
    text.push('}')
}
