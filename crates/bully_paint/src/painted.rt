//! A writer that paints words.
ghost use Rattle.std.specs.Prelude.{◌≡◌, ◌∷◌, ◌++◌, ◌<◌, ◌≤◌, [], true, false, codes, drop, length, slice_index, take};
ghost use Rattle.std.specs.Prelude.{IfOk, OnOk};
ghost use Rattle.std.specs.Io.KnownBytes.{Appends, Keeps, WriteAppends};
ghost use Rattle.std.specs.Io.{WritesAtMost};
ghost use Rattle.bully_paint.specs.Marks.{is_whole, unpainted};
ghost use Rattle.bully_paint.specs.Strokes.{goes_within, joins, joins_title, passed};

use crate::pieces::{ARTICLE, ending, goes_within, put, title_in};
use crate::words::{is_separator, longer};
use std::io;
use std::io::Write;

/// The byte that marks start with.
const ESCAPE: u8 = 0x1b;

/// An ESC that is text, as a terminal gets it: with a mark after it, so that it starts none with what follows.
const KEPT_ESCAPE: &[u8] = b"\x1b\x1b[0m";

/// A writer through which words get colours, if it paints. What it holds back are at most the bytes of a word that
/// isn't at its end: up to the byte that ends it, a flush or a drop.
pub struct Painted<W: Write + Drop> {
    below: W,
    paints: bool,
    // What is next for the writer below.
    queue: &'static [u8],
    // The front of a word that may become one with a colour.
    held: &'static [u8],
    // Whether a word goes on that has no colour.
    within: bool,
    ghost whole: { is_whole held.now ≡ true },
}

impl<W: Write + Drop> Painted<W> {
    ghost use Rattle.bully_paint.specs.Painted.{GoesOut, PaintsByte, brush_of, out_of, text_in, text_with};

    /// Writes to this writer, and paints if it is so. What that writer has already is text with marks, too.
    pub fn new(below: W, paints: bool) -> Painted<W>
        ensures plain { paints ≡ false → text_in result ≡ W.contents below }
        ensures painted { paints ≡ true → text_in result ≡ text_with (W.contents below) [] }
    {
        Painted {
            below,
            paints,
            queue: b"",
            held: b"",
            within: false,
        }
    }

    // Writes what is next for the writer below.
    fn drain(&mut self) -> io::Result<()>
        requires { self.old.paints ≡ true }
        ensures text { Keeps (text_in self.old) (text_in self.new) }
        ensures empty { OnOk result (self.new.queue.now ≡ []) }
        ensures held { self.new.held.now ≡ self.old.held.now }
        ensures paints { self.new.paints ≡ true }
        ensures out { Keeps (out_of self.old) (out_of self.new) }
        ensures brush { brush_of self.new ≡ brush_of self.old }
    {
        let queue = self.queue;
        let (rest, result) = put(&mut self.below, queue);
        self.queue = rest;
        result
    }

    // Takes the first of these bytes.
    #[tactic(auto, using(crate::proofs::TextLemmas::keeps_keeps, crate::proofs::TextLemmas::keeps_appends, crate::proofs::TextLemmas::keeps_none, crate::proofs::TextLemmas::keeps_first, crate::proofs::WordLemmas::ended_text, crate::proofs::WordLemmas::ended_whole))]
    fn paint(&mut self, bytes: &[u8]) -> io::Result<usize>
        requires { self.old.paints ≡ true }
        ensures bound { WritesAtMost result bytes.now }
        ensures bytes { WriteAppends (text_in self.old) (text_in self.new) result bytes.now }
        ensures one { IfOk result (λ count. count ≤ 1) }
        ensures painted { IfOk result (λ count. count ≡ 1 → PaintsByte self.old self.new (slice_index bytes.now 0)) }
    {
        self.drain()?;
        if bytes.is_empty() {
            return Ok(0);
        }
        let byte = bytes[0];
        if self.goes_on(byte) {
            return Ok(1);
        }
        let out = ending(self.held, byte);
        self.release(out);
        self.drain()?;
        if self.holds(byte) {
            return Ok(1);
        }
        self.pass(bytes)
    }

    // Whether the byte is held back, as it goes on with a word that may have a colour, or with one after an article
    // that is held back.
    fn goes_on(&mut self, byte: u8) -> bool
        requires queue { self.old.queue.now ≡ [] }
        requires paints { self.old.paints ≡ true }
        ensures held { result ≡ true → Appends (text_in self.old) (text_in self.new) (byte ∷ []) }
        ensures free { result ≡ false → self.new ≡ self.old }
        ensures painted { result ≡ true → PaintsByte self.old self.new byte }
        ensures other { result ≡ false → (joins (brush_of self.new) byte ≡ false)
            × (joins_title self.new.held.now byte ≡ false) }
    {
        if self.holds(byte) {
            return true;
        }
        self.holds_title(byte)
    }

    // Whether the byte is held back, as it goes on with a word that may have a colour.
    fn holds(&mut self, byte: u8) -> bool
        requires queue { self.old.queue.now ≡ [] }
        requires paints { self.old.paints ≡ true }
        ensures held { result ≡ true → Appends (text_in self.old) (text_in self.new) (byte ∷ []) }
        ensures free { result ≡ false → self.new ≡ self.old }
        ensures joins { result ≡ joins (brush_of self.old) byte }
        ensures painted { result ≡ true → GoesOut self.old self.new
            (record { out = []; brush = record (brush_of self.old) { held = self.old.held.now ++ byte ∷ [] } }) }
    {
        if self.within || byte == ESCAPE {
            return false;
        }
        match longer(self.held, byte) {
            Some(held) => {
                self.held = held;
                true
            }
            None => false,
        }
    }

    // Whether the byte is held back, as it goes on with a word after an article that is held back.
    fn holds_title(&mut self, byte: u8) -> bool
        requires queue { self.old.queue.now ≡ [] }
        requires paints { self.old.paints ≡ true }
        ensures held { result ≡ true → Appends (text_in self.old) (text_in self.new) (byte ∷ []) }
        ensures free { result ≡ false → self.new ≡ self.old }
        ensures joins { result ≡ joins_title self.old.held.now byte }
        ensures painted { result ≡ true → GoesOut self.old self.new (record {
          out = codes "the ";
          brush = record (brush_of self.old) { held = drop 4 self.old.held.now ++ byte ∷ [] };
        }) }
    {
        if byte == ESCAPE {
            return false;
        }
        match title_in(self.held, byte) {
            Some(title) => {
                self.queue = ARTICLE;
                self.held = title;
                true
            }
            None => false,
        }
    }

    // Lets out what is held back, as these bytes.
    fn release(&mut self, out: &'static [u8])
        requires queue { self.old.queue.now ≡ [] }
        requires paints { self.old.paints ≡ true }
        requires text { unpainted out.now ≡ unpainted self.old.held.now }
        requires whole { is_whole out.now ≡ true }
        ensures text { Keeps (text_in self.old) (text_in self.new) }
        ensures held { self.new.held.now ≡ [] }
        ensures paints { self.new.paints ≡ true }
        ensures painted { GoesOut self.old self.new (record {
          out = out.now;
          brush = record { held = []; within = goes_within self.old.within self.old.held.now };
        }) }
    {
        self.within = goes_within(self.within, self.held);
        self.queue = out;
        self.held = b"";
    }

    // Writes the first of these bytes, with which no word starts.
    fn pass(&mut self, bytes: &[u8]) -> io::Result<usize>
        requires queue { self.old.queue.now ≡ [] }
        requires held { self.old.held.now ≡ [] }
        requires some { 0 < length bytes.now }
        requires paints { self.old.paints ≡ true }
        ensures bound { WritesAtMost result bytes.now }
        ensures bytes { WriteAppends (text_in self.old) (text_in self.new) result bytes.now }
        ensures one { IfOk result (λ count. count ≤ 1) }
        ensures painted { IfOk result (λ count. count ≡ 1
            → GoesOut self.old self.new (passed [] (slice_index bytes.now 0))) }
    {
        let byte = bytes[0];
        if byte == ESCAPE {
            self.queue = KEPT_ESCAPE;
            self.within = true;
            return Ok(1);
        }
        let count = self.below.write(&bytes[..1])?;
        if count > 0 {
            self.within = !is_separator(byte);
        }
        Ok(count)
    }
}

impl<W: Write + Drop> Write for Painted<W> {
    ghost use Rattle.bully_paint.specs.Painted.{IsSent, Paints, text_in};

    ghost contents = { text_in };

    /// Takes one byte at a time, if it paints, and lets out what that ends.
    fn write(&mut self, buf: &[u8]) -> io::Result<usize>
        ensures bound { WritesAtMost result buf.now }
        ensures bytes { WriteAppends (text_in self.old) (text_in self.new) result buf.now }
        ensures painted { self.old.paints ≡ true
            → IfOk result (λ count. 0 < count → Paints self.old self.new (take count buf.now)) }
    {
        if self.paints {
            self.paint(buf)
        } else {
            self.below.write(buf)
        }
    }

    /// Writes all, also the front of a word, which has no colour then.
    #[tactic(auto, using(crate::proofs::TextLemmas::keeps_keeps, crate::proofs::SentLemmas::is_sent))]
    fn flush(&mut self) -> io::Result<()>
        ensures bytes { Keeps (text_in self.old) (text_in self.new) }
        ensures sent { OnOk result (IsSent self.new) }
    {
        if self.paints {
            self.drain()?;
            let held = self.held;
            self.release(held);
            self.drain()?;
        }
        self.below.flush()
    }
}

impl<W: Write + Drop> Drop for Painted<W> {
    #[tactic(auto, using(crate::proofs::WordLemmas::ended_text, crate::proofs::WordLemmas::ended_whole))]
    fn drop(mut self) {
        if self.paints && self.drain().is_ok() {
            let out = ending(self.held, b'\n');
            self.release(out);
            let _ = self.drain();
        }
        let Painted {
            below: _below,
            paints: _,
            queue: _,
            held: _,
            within: _,
        } = self;
    }
}
