//! How far apart two numbers are that are spelled in digits, however long they are.
ghost use Rattle.std.specs.Prelude.{◌≡◌, ◌+◌, ◌*◌, ◌<◌, ◌≤◌, ℕ, true, length, IfSome};
ghost use Rattle.bully_table.specs.Numeral.{is_numeral, read_on};
ghost use Rattle.bully_film.specs.Distance.{distance, number_up_to};

use crate::window::BEYOND;

/// By how much the second number is above the first, at most [`BEYOND`]; none where it is below. Both are `0`, or
/// digits without a leading zero.
pub fn distance(from: &[u8], to: &[u8]) -> Option<u32>
    requires from { is_numeral from.now ≡ true }
    requires to { is_numeral to.now ≡ true }
    ensures { result ≡ distance (read_on 0 from.now) (read_on 0 to.now) }
{
    let places = from.len().max(to.len());
    let mut apart = Some(0);
    for place in 0..places {
        let from_digit = digit_at(from, places, place);
        let to_digit = digit_at(to, places, place);
        apart = next_distance(apart, from_digit, to_digit);
    }
    apart
}

// The digit of the number at this place of so many, which end with it: zeros stand before it.
fn digit_at(number: &[u8], places: usize, place: usize) -> u8
    requires number { is_numeral number.now ≡ true }
    requires fits { length number.now ≤ places }
    requires place { place < places }
    ensures below { result < 10 }
    ensures next { number_up_to number.now places (place + 1) ≡ number_up_to number.now places place * 10 + result }
{
    let zeros = places - number.len();
    if place < zeros {
        0
    } else {
        number[place - zeros] - b'0'
    }
}

// How far apart two numbers are that go on by these digits.
fn next_distance(apart: Option<u32>, from: u8, to: u8) -> Option<u32>
    requires bound { IfSome apart (λ d. d ≤ BEYOND) }
    requires from { from < 10 }
    requires to { to < 10 }
    ensures { (f : ℕ) (t : ℕ) → apart ≡ distance f t → result ≡ distance (f * 10 + from) (t * 10 + to) }
{
    let Some(apart) = apart else {
        return None;
    };
    let raised = apart * 10 + u32::from(to);
    if raised < u32::from(from) {
        return None;
    }
    Some((raised - u32::from(from)).min(BEYOND))
}
