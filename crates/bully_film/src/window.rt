ghost use Rattle.std.specs.Prelude.{◌≡◌, true, option_map};
ghost use Rattle.bully_table.specs.Numeral.{is_numeral, number_of};
ghost use Rattle.bully_film.specs.Window.{behind_header, can_be_shown, row_or_beyond};

use crate::distance::distance;
use bully_rows::ROWS_MAX;
use bully_table::read_number;
use std::marker::Model;

/// How many rows a window has where none was asked for.
pub const WINDOW_ROWS: u32 = 200;

/// The most rows of a window.
pub const WINDOW_MAX: u32 = 2_000;

/// The first number that no row of a trace has.
pub const BEYOND: u32 = ROWS_MAX + 2;

/// Which rows of a trace are shown: those from one to another, counted from 1, the header, which isn't shown; and of
/// these the last ones, as many as are kept. A number above [`BEYOND`] is kept as that.
#[derive(Clone, Copy)]
pub struct Window {
    from: u32,
    to: u32,
    most: u32,
}

impl Model for Window {
    ghost use Rattle.bully_film.specs.Window.{IsWindow, WindowState};

    ghost Value = { WindowState };

    ghost view = { λ w. record { from = w.from; to = w.to; most = w.most } };

    ghost invariant = { λ w. IsWindow (record { from = w.from; to = w.to; most = w.most }) };

    ghost inverse = { λ s. record { from = s.from; to = s.to; most = s.most } };
}

impl Window {
    ghost use Rattle.std.specs.Prelude.{◌≡◌, ◌<◌};
    ghost use Rattle.bully_film.specs.Window.{at_the_end, window_between, window_in};

    /// The last [`WINDOW_ROWS`] rows of a trace.
    pub fn at_the_end() -> Window
        ensures { result ≡ at_the_end }
    {
        Window {
            from: 2,
            to: BEYOND,
            most: WINDOW_ROWS,
        }
    }

    /// The rows that a text `FROM-TO` asks for, as `2-50`: two numbers of any length, each `0` or digits without a
    /// leading zero, and between them the first dash. None where there aren't two, where `FROM` is 0 or above `TO`, or
    /// where they are more rows than [`WINDOW_MAX`].
    pub fn read(text: &str) -> Option<Window>
        ensures { result ≡ window_in text.now }
    {
        let (from, to) = text.split_once('-')?;
        let (from, to) = (from.as_bytes(), to.as_bytes());
        if !is_number(from) || !is_number(to) {
            return None;
        }
        if distance(from, to)? >= WINDOW_MAX {
            return None;
        }
        Window::between(row_of(from)?, row_of(to)?)
    }

    /// The rows from one to another. None where the first is 0 or after the last, or where they are more than
    /// [`WINDOW_MAX`].
    pub fn between(from: u32, to: u32) -> Option<Window>
        ensures { result ≡ window_between from to }
    {
        if !can_be_shown(from, to) {
            return None;
        }
        Some(Window {
            from: behind_header(from.min(BEYOND)),
            to: to.min(BEYOND),
            most: WINDOW_MAX,
        })
    }

    /// Its first row.
    pub fn from(self) -> u32
        ensures { result ≡ self.from }
    {
        self.from
    }

    /// Its last row.
    pub fn to(self) -> u32
        ensures { result ≡ self.to }
    {
        self.to
    }

    /// How many rows of it are kept.
    pub fn most(self) -> u32
        ensures most { result ≡ self.most }
        ensures some { 0 < result }
    {
        self.most
    }
}

// Whether rows from one to another can be asked for.
fn can_be_shown(from: u32, to: u32) -> bool
    ensures { result ≡ can_be_shown from to }
{
    0 < from && from <= to && to - from < WINDOW_MAX
}

// The row, or the one after the header in place of that.
fn behind_header(row: u32) -> u32
    ensures { result ≡ behind_header row }
{
    if row < 2 { 2 } else { row }
}

// Whether the text is a number.
fn is_number(text: &[u8]) -> bool
    ensures { result ≡ is_numeral text.now }
{
    read_number(text).is_some()
}

// The row of this number, or [`BEYOND`] in place of a later one.
fn row_of(number: &[u8]) -> Option<u32>
    requires { is_numeral number.now ≡ true }
    ensures { result ≡ option_map row_or_beyond (number_of number.now) }
{
    distance(b"0", number)
}
