ghost use Rattle.std.specs.Prelude.{◌≡◌, ◌+◌, ◌≤◌, true, Some, None, [], length, option_map};
ghost use Rattle.memchr.specs.Find.{IsFirstByte, is_byte};
ghost use Rattle.bully_text.specs.Bounded.{Gives, IsPlain, bounded, bounded_left, count_after, ends_at, ends_row};
ghost use Rattle.bully_text.specs.Bounded.{is_cut_of, is_quoted, place_after, place_of, place_outside, starts_field};
ghost use Rattle.bully_text.specs.declared.TheConstants.{ROW_BYTES_MAX};

use crate::ROW_BYTES_MAX;
use memchr::{memchr, memrchr2};
use std::io;
use std::io::Read;

/// Where the next byte of a text stands, as `csv` reads it.
#[derive(Clone, Copy)]
enum Place {
    // At the start of the text, and after one byte or two of a byte-order mark there.
    TextStart,
    MarkBegun,
    MarkBehind,
    FieldStart,
    InField,
    InQuotes,
    AfterQuote,
}

/// A reader of the text of a trace, up to the first row that has more than [`ROW_BYTES_MAX`] bytes: of that one it
/// gives so many, and then it is at its end. Such a row has no form that the profile lists, nor has what is given of
/// it. A row ends at a line feed or a carriage return outside of quotes. The rule: docs/FORMATS.md.
#[derive(Drop)]
pub struct BoundedRows<R: Read> {
    reader: R,
    place: Place,
    // How many bytes of the row at hand were given.
    count: usize,
    is_cut: bool,
}

// How many of some bytes are given, and where one then stands.
#[derive(Clone, Copy)]
struct Taken {
    bytes: usize,
    place: Place,
    count: usize,
    is_cut: bool,
}

impl<R: Read> Read for BoundedRows<R> {
    ghost remaining = { bounded_left R.remaining };

    fn read(&mut self, buf: &mut [u8]) -> io::Result<usize> {
        if self.is_cut {
            return Ok(0);
        }
        let given = self.reader.read(buf)?;
        let taken = taken_of(self.place, self.count, &buf[..given]);
        self.place = taken.place;
        self.count = taken.count;
        self.is_cut = taken.is_cut;
        Ok(taken.bytes)
    }
}

impl<R: Read> BoundedRows<R> {
    /// A reader of the same text that hasn't given any of it yet.
    pub fn new(reader: R) -> BoundedRows<R>
        ensures { bounded_left R.remaining result ≡ option_map bounded (R.remaining reader) }
    {
        BoundedRows {
            reader,
            place: Place::TextStart,
            count: 0,
            is_cut: false,
        }
    }

    /// Whether the text was ended within a row that has more bytes than it may.
    pub fn is_cut(&self) -> bool
        ensures cut { result ≡ is_cut_of self.now }
        ensures ended { result ≡ true → bounded_left R.remaining self.now ≡ Some [] }
    {
        self.is_cut
    }

    /// Whether what was given ends in a quoted field, before the quote that closes it.
    pub fn is_in_quotes(&self) -> bool
        ensures { result ≡ is_quoted (place_of self.now) }
    {
        match self.place {
            Place::InQuotes => true,
            _ => false,
        }
    }
}

// How many of these bytes are given.
fn taken_of(place: Place, count: usize, given: &[u8]) -> Taken
    ensures { Gives place count given.now result }
{
    if is_plain(place, count, given) {
        taken_plain(place, count, given)
    } else {
        taken_each(place, count, given)
    }
}

// Whether none of these bytes is quoted or a quote, and the row at hand has room for all of them.
fn is_plain(place: Place, count: usize, given: &[u8]) -> bool
    ensures place { result ≡ true → IsPlain place }
    ensures room { result ≡ true → count + length given.now ≤ ROW_BYTES_MAX }
    ensures quotes { result ≡ true → IsFirstByte (is_byte 34) given.now None }
{
    match place {
        Place::FieldStart | Place::InField | Place::AfterQuote => {
            count <= ROW_BYTES_MAX
                && given.len() <= ROW_BYTES_MAX - count
                && memchr(b'"', given).is_none()
        }
        Place::TextStart | Place::MarkBegun | Place::MarkBehind | Place::InQuotes => false,
    }
}

// All of such bytes are given, however rows end among them.
fn taken_plain(place: Place, count: usize, given: &[u8]) -> Taken
    requires place { IsPlain place }
    requires room { count + length given.now ≤ ROW_BYTES_MAX }
    requires quotes { IsFirstByte (is_byte 34) given.now None }
    ensures { Gives place count given.now result }
{
    let bytes = given.len();
    if bytes == 0 {
        return Taken {
            bytes,
            place,
            count,
            is_cut: false,
        };
    }
    let count = match memrchr2(b'\n', b'\r', given) {
        Some(end) => bytes - 1 - end,
        None => count + bytes,
    };
    Taken {
        bytes,
        place: place_outside(given[bytes - 1]),
        count,
        is_cut: false,
    }
}

// The same of any bytes, one by one.
fn taken_each(from: Place, before: usize, given: &[u8]) -> Taken
    ensures { Gives from before given.now result }
{
    let mut place = from;
    let mut count = before;
    for bytes in 0..given.len() {
        match count_after(place, count, given[bytes]) {
            Some(more) => count = more,
            None => {
                return Taken {
                    bytes,
                    place,
                    count,
                    is_cut: true,
                };
            }
        }
        place = place_after(place, given[bytes]);
    }
    Taken {
        bytes: given.len(),
        place,
        count,
        is_cut: false,
    }
}

fn ends_row(byte: u8) -> bool
    ensures { result ≡ ends_row byte }
{
    byte == b'\n' || byte == b'\r'
}

fn starts_field(byte: u8) -> bool
    ensures { result ≡ starts_field byte }
{
    byte == b',' || ends_row(byte)
}

fn place_outside(byte: u8) -> Place
    ensures { result ≡ place_outside byte }
{
    if starts_field(byte) {
        Place::FieldStart
    } else {
        Place::InField
    }
}

fn place_after(place: Place, byte: u8) -> Place
    ensures { result ≡ place_after place byte }
{
    match place {
        Place::TextStart if byte == 0xef => Place::MarkBegun,
        Place::MarkBegun if byte == 0xbb => Place::MarkBehind,
        Place::MarkBehind if byte == 0xbf => Place::FieldStart,
        Place::TextStart if byte == b'"' => Place::InQuotes,
        Place::FieldStart if byte == b'"' => Place::InQuotes,
        Place::AfterQuote if byte == b'"' => Place::InQuotes,
        Place::InQuotes if byte == b'"' => Place::AfterQuote,
        Place::InQuotes => Place::InQuotes,
        _ => place_outside(byte),
    }
}

fn ends_at(place: Place, byte: u8) -> bool
    ensures { result ≡ ends_at place byte }
{
    match place {
        Place::InQuotes => false,
        _ => ends_row(byte),
    }
}

fn count_after(place: Place, count: usize, byte: u8) -> Option<usize>
    ensures { result ≡ count_after place count byte }
{
    if ends_at(place, byte) {
        Some(0)
    } else if count < ROW_BYTES_MAX {
        Some(count + 1)
    } else {
        None
    }
}
