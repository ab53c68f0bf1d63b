ghost use Rattle.std.specs.Prelude.{◌≡◌, ◌-◌, ◌==◌};
ghost use Rattle.csv.specs.Records.{fields_of};
ghost use Rattle.bully_account.specs.Tail.{ends_line, feeds, feeds_within, last_field, start_line};

use crate::BYTES_KEPT;
use csv::{ByteRecord, Position};
use std::io;
use std::io::Read;

/// A reader that keeps what it gave last, so that it can be told whether a line ended at a place within that; and
/// whether it had nothing more to give.
#[derive(Drop)]
pub struct TailReader<R: Read> {
    reader: R,
    // The bytes that were given last, from the front.
    last: [u8; BYTES_KEPT],
    // How many of them there are.
    count: usize,
    // How many bytes were given before them.
    before: u64,
    // Whether nothing more was given when it was asked for last.
    is_at_end: bool,
}

impl<R: Read> Read for TailReader<R> {
    ghost use Rattle.std.specs.Prelude.{length, take, IfOk};
    ghost use Rattle.std.specs.Io.{ReadsAtMost};
    ghost use Rattle.std.specs.Io.KnownBytes.{ReadConsumes};
    ghost use Rattle.bully_account.specs.Tail.{Notes, source_of};

    ghost remaining = { λ s. R.remaining s.reader };

    fn read(&mut self, buf: &mut [u8]) -> io::Result<usize>
        ensures bound { ReadsAtMost result buf.new }
        ensures bytes { ReadConsumes (R.remaining (source_of self.old))
            (R.remaining (source_of self.new)) result buf.new }
        ensures noted { IfOk result (λ count. Notes (length buf.new) (take count buf.new) self.old self.new) }
    {
        let given = self.reader.read(buf)?;
        self.note(buf.len(), &buf[..given]);
        Ok(given)
    }
}

impl<R: Read> TailReader<R> {
    ghost use Rattle.std.specs.Prelude.{◌^◌, ◌<◌, length, take};
    ghost use Rattle.bully_account.specs.Tail.{Notes, before_of, end_of, is_at_end, last_of, source_of};

    /// A reader of the same bytes that hasn't given any of them yet.
    pub fn new(reader: R) -> TailReader<R>
        ensures { source_of result ≡ reader }
    {
        TailReader {
            reader,
            last: [0; BYTES_KEPT],
            count: 0,
            before: 0,
            is_at_end: false,
        }
    }

    // So many bytes were asked for, and these were given.
    fn note(&mut self, asked: usize, given: &[u8])
        ensures noted { Notes asked given.now self.old self.new }
        ensures source { source_of self.new ≡ source_of self.old }
    {
        if asked > 0 {
            self.is_at_end = given.is_empty();
        }
        if !given.is_empty() {
            self.keep(given);
        }
    }

    // Keeps these bytes as those that were given last.
    fn keep(&mut self, given: &[u8])
        ensures last { last_of self.new ≡ take BYTES_KEPT given.now }
        ensures before { end_of self.old < 2 ^ 64 → before_of self.new ≡ end_of self.old }
        ensures end { is_at_end self.new ≡ is_at_end self.old }
        ensures source { source_of self.new ≡ source_of self.old }
    {
        let kept = BYTES_KEPT.min(given.len());
        self.before = self.before.saturating_add(self.count as u64);
        self.last[..kept].copy_from_slice(&given[..kept]);
        self.count = kept;
    }

    /// The reader of the bytes.
    pub fn reader(&self) -> &R
        ensures { result.now ≡ source_of self.now }
    {
        &self.reader
    }

    /// Whether a row that ends at this place is the last of what was given.
    pub fn ends_at(&self, end: Position) -> bool
        ensures { end_of self.now < 2 ^ 64 → result ≡ (end.byte == end_of self.now) }
    {
        end.byte == self.before.saturating_add(self.count as u64)
    }

    /// Whether a line ended with the byte before which there are so many others; not where it isn't kept any more, nor
    /// where there was nothing more: then it was the end of the input that ended the last row, and what stands there is
    /// within it, or there is no line feed.
    pub fn ends_line(&self, place: u64) -> bool
        ensures { result ≡ ends_line self.now place }
    {
        if self.is_at_end || place < self.before {
            return false;
        }
        let index = place - self.before;
        index < self.count as u64 && index < BYTES_KEPT as u64 && self.last[index as usize] == b'\n'
    }
}

/// The line at which a row starts that ends at this place of what the reader gave, and has these fields, counted from 1
/// by line feeds: that of its end, less the line feed that ended it, if one did, and those within its fields.
pub fn line_of<R: Read>(source: &TailReader<R>, end: Position, fields: &ByteRecord) -> u64
    ensures { result ≡ start_line end.line (ends_line source.now (end.byte - 1)) (fields_of fields.now) }
{
    let ended = source.ends_line(end.byte.saturating_sub(1));
    let last = if ended {
        end.line.saturating_sub(1)
    } else {
        end.line
    };
    before_feeds(last, fields)
}

/// The line in which the last of these fields starts, which nothing ended before this place.
pub fn opened_at(end: Position, fields: &ByteRecord) -> u64
    ensures { result ≡ end.line - feeds (last_field (fields_of fields.now)) }
{
    match fields.get(fields.len().saturating_sub(1)) {
        Some(field) => end.line.saturating_sub(feeds(field) as u64),
        None => end.line,
    }
}

// The line from which one gets to this one by the line feeds within the fields.
fn before_feeds(line: u64, fields: &ByteRecord) -> u64
    ensures { result ≡ line - feeds_within (fields_of fields.now) }
{
    let mut first = line;
    for place in 0..fields.len() {
        match fields.get(place) {
            Some(field) => first = first.saturating_sub(feeds(field) as u64),
            None => {}
        }
    }
    first
}

// How many line feeds there are.
fn feeds(text: &[u8]) -> usize
    ensures { result ≡ feeds text.now }
{
    text.iter().filter(|byte| **byte == b'\n').count()
}
