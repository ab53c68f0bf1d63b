//! The fields of a line.
ghost use Rattle.std.specs.Prelude.{◌≡◌, ◌^◌, Some, None, nat_lt, if◌then◌else◌};
ghost use Rattle.std.specs.List.{list_all};
ghost use Rattle.std.specs.Option.{option_and_then};
ghost use Rattle.bully_table.specs.Numeral.{is_digit, is_numeral, number_of};
ghost use Rattle.bully_lines.specs.Texts.{behind, call_number_in, field, node_in};

use bully_base::{Node, Setup};
use bully_table::read_number;

/// The first field of the text, and what comes after its comma; all of it, and nothing, where it has no comma.
pub fn first_field(text: &str) -> (&str, &str)
    ensures first { result.0.now ≡ field text.now }
    ensures rest { result.1.now ≡ behind text.now }
{
    match text.split_once(',') {
        Some(parts) => parts,
        None => (text, ""),
    }
}

/// The node of the setup that the text names.
pub fn read_node(setup: &Setup, text: &str) -> Option<Node>
    ensures { result ≡ node_in setup.now text.now }
{
    let number = read_number(text.as_bytes())?;
    if number <= setup.nodes() {
        Node::new(number)
    } else {
        None
    }
}

/// The number of a call that the text spells: it is below the setup's bound on events.
pub fn read_call_number(setup: &Setup, text: &str) -> Option<u32>
    ensures { result ≡ call_number_in setup.now text.now }
{
    let bound = setup.events_max();
    let number = read_large_number(text)?;
    if number < bound { Some(number) } else { None }
}

// The number that the text spells: `0`, or decimal digits without a leading zero; none above the largest `u32`.
fn read_large_number(text: &str) -> Option<u32>
    ensures { result ≡ option_and_then (λ n. if nat_lt n (2 ^ 32) then Some n else None) (number_of text.now) }
{
    if !is_numeral(text.as_bytes()) {
        return None;
    }
    match text.parse::<u32>() {
        Ok(number) => Some(number),
        Err(_) => None,
    }
}

// Whether the text has the form of a number.
fn is_numeral(text: &[u8]) -> bool
    ensures { result ≡ is_numeral text.now }
{
    match text {
        [] => false,
        [digit] => is_digit(*digit),
        [first, rest @ ..] => is_digit(*first) && *first != b'0' && are_digits(rest),
    }
}

fn are_digits(text: &[u8]) -> bool
    ensures { result ≡ list_all is_digit text.now }
{
    text.iter().all(|byte| is_digit(*byte))
}

fn is_digit(byte: u8) -> bool
    ensures { result ≡ is_digit byte }
{
    byte.is_ascii_digit()
}
