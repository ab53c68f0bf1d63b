//! What pictures are written on.
ghost use Rattle.std.specs.Prelude.{◌≡◌, ℕ, List, ◌++◌, codes, false, is_err, length, string_bytes, true, IfOk, OnOk};
ghost use Rattle.std.specs.Fmt.{decimal};
ghost use Rattle.std.specs.List.{join_with_byte};
ghost use Rattle.std.specs.Str.{chars};
ghost use Rattle.bully_picture.specs.Escaping.{cut_text, escaped, shortened};
ghost use Rattle.bully_picture.specs.Written.{Writes, Written, attribute_text, blank, right_text};
ghost use Rattle.bully_rows.specs.TraceText.{row_fields};
ghost use Rattle.bully_trace.specs.VerdictText.{verdict_head};

use crate::escaping::{push_cut, push_escaped, push_start};
use bully_base::{Node, OutOfMemory};
use bully_rows::{Row, push_row};
use bully_trace::{Verdict, push_verdict_head};
use std::alloc::{AllocError, Global};
use std::marker::Model;

/// A text that is written. Where memory is wanting, that is noted, and told at the end: so what writes never fails.
///
/// What the program itself says goes in as it is, and so is `&'static str`, and what stands on another paper; all else
/// goes in escaped.
#[derive(Drop)]
pub struct Paper {
    text: String,
    has_failed: bool,
}

impl Model for Paper {
    ghost use Rattle.std.specs.Prelude.{string_bytes};
    ghost use Rattle.bully_picture.specs.Written.{Written};

    ghost Value = { Written };

    ghost view = { λ p. record { text = string_bytes p.text; has_failed = p.has_failed } };
}

impl Paper {
    /// An empty one.
    pub fn new(alloc: Global) -> Paper
        ensures { result ≡ blank }
    {
        Paper {
            text: String::new(alloc),
            has_failed: false,
        }
    }

    /// One for which memory was wanting.
    pub fn failed(alloc: Global) -> Paper
        ensures { result.has_failed ≡ true }
    {
        Paper {
            text: String::new(alloc),
            has_failed: true,
        }
    }

    /// What was written, as far as there was memory for it.
    pub fn as_str(&self) -> &str
        ensures { result.now ≡ self.now.text }
    {
        self.text.as_str()
    }

    /// How many bytes were written.
    pub fn len(&self) -> usize
        ensures { result ≡ length self.now.text }
    {
        self.text.len()
    }

    /// Whether memory was wanting.
    pub fn has_failed(&self) -> bool
        ensures { result ≡ self.now.has_failed }
    {
        self.has_failed
    }

    /// The text. Refused where memory was wanting.
    pub fn into_text(self) -> Result<String, OutOfMemory>
        ensures whole { IfOk result (λ text. self.has_failed ≡ false) }
        ensures text { IfOk result (λ text. string_bytes text ≡ self.text) }
    {
        if self.has_failed {
            return Err(AllocError);
        }
        Ok(self.text)
    }

    /// Notes that memory was wanting.
    pub fn fail(&mut self)
        ensures { self.new ≡ record self.old { has_failed = true } }
    {
        self.has_failed = true;
    }

    /// Writes words of the program.
    pub fn push(&mut self, words: &'static str)
        ensures { Writes self.old self.new words.now }
    {
        let written = self.text.push_str(words);
        self.note(written);
    }

    /// Writes the line of a verdict.
    pub fn push_verdict(&mut self, verdict: Verdict)
        ensures { Writes self.old self.new (verdict_head verdict) }
    {
        let written = push_verdict_head(&mut self.text, verdict);
        self.note(written);
    }

    /// Writes what stands on another paper. Where memory was wanting there, it is wanting here.
    pub fn push_paper(&mut self, paper: &Paper)
        ensures copied { Writes self.old self.new paper.now.text }
        ensures whole { self.new.has_failed ≡ false → paper.now.has_failed ≡ false }
    {
        let written = paper.copy_to(&mut self.text);
        self.note(written);
    }

    /// Writes words as XML takes them.
    pub fn push_escaped(&mut self, words: &str)
        ensures escaped { Writes self.old self.new (escaped (chars words.now)) }
    {
        let written = push_escaped(&mut self.text, words);
        self.note(written);
    }

    /// The same of their first letters, so many, with three dots after them where there are more.
    pub fn push_start(&mut self, words: &str, most: usize)
        ensures { Writes self.old self.new (escaped (shortened most (chars words.now))) }
    {
        let written = push_start(&mut self.text, words, most);
        self.note(written);
    }

    /// Writes so many letters of what stands on another paper, and, where it is longer, all of it for where the pointer
    /// rests. Where memory was wanting there, it is wanting here.
    pub fn push_cut_paper(&mut self, paper: &Paper, letters: usize)
        ensures cut { Writes self.old self.new (cut_text letters paper.now.text) }
        ensures whole { self.new.has_failed ≡ false → paper.now.has_failed ≡ false }
    {
        let written = paper.cut_to(&mut self.text, letters);
        self.note(written);
    }

    /// Writes so many letters of a line, and, where it is longer, all of it for where the pointer rests.
    pub fn push_cut(&mut self, line: &str, letters: usize)
        ensures { Writes self.old self.new (cut_text letters line.now) }
    {
        let written = push_cut(&mut self.text, line, letters);
        self.note(written);
    }

    /// Writes the row as a line of a trace has it.
    pub fn push_row(&mut self, row: &Row)
        ensures { Writes self.old self.new (join_with_byte 44 (row_fields row.now)) }
    {
        let written = push_row_fields(&mut self.text, row);
        self.note(written);
    }

    /// Writes a number between these words.
    pub fn push_number(&mut self, before: &'static str, number: u32, behind: &'static str)
        ensures { Writes self.old self.new (before.now ++ decimal number ++ behind.now) }
    {
        let written = write!(self.text, "{before}{number}{behind}");
        self.note(written);
    }

    /// The same of a number of any size.
    pub fn push_count(&mut self, before: &'static str, number: u128, behind: &'static str)
        ensures { Writes self.old self.new (before.now ++ decimal number ++ behind.now) }
    {
        let written = write!(self.text, "{before}{number}{behind}");
        self.note(written);
    }

    /// Writes the number of a node between these words.
    pub fn push_node(&mut self, before: &'static str, node: Node, behind: &'static str)
        ensures { Writes self.old self.new (before.now ++ decimal node ++ behind.now) }
    {
        self.push_number(before, u32::from(node.number()), behind);
    }

    /// Writes a number with spaces before it, so that it ends seven columns further.
    pub fn push_right(&mut self, number: u32)
        ensures { Writes self.old self.new (right_text number) }
    {
        let written = write!(self.text, "{number:>7}");
        self.note(written);
    }

    /// Writes a point after these words, as `12 34`.
    pub fn push_point(&mut self, before: &'static str, x: u32, y: u32)
        ensures { Writes self.old self.new (before.now ++ decimal x ++ codes " " ++ decimal y) }
    {
        let written = write!(self.text, "{before}{x} {y}");
        self.note(written);
    }

    /// Writes an attribute that is a number, as ` x="12"`.
    pub fn push_attribute(&mut self, name: &'static str, number: u32)
        ensures { Writes self.old self.new (attribute_text name.now number) }
    {
        let written = write!(self.text, " {name}=\"{number}\"");
        self.note(written);
    }

    // Appends what was written to a text. Refused where memory was wanting, or is now.
    fn copy_to(&self, text: &mut String) -> Result<(), OutOfMemory>
        ensures whole { OnOk result (self.now.has_failed ≡ false) }
        ensures copied { OnOk result (string_bytes text.new ≡ string_bytes text.old ++ self.now.text) }
    {
        if self.has_failed {
            return Err(AllocError);
        }
        text.push_str(self.text.as_str())
    }

    // Appends so many letters of what was written to a text, and, where it is longer, all of it for where the pointer
    // rests. Refused where memory was wanting, or is now.
    fn cut_to(&self, text: &mut String, letters: usize) -> Result<(), OutOfMemory>
        ensures whole { OnOk result (self.now.has_failed ≡ false) }
        ensures cut { OnOk result (string_bytes text.new ≡ string_bytes text.old ++ cut_text letters self.now.text) }
    {
        if self.has_failed {
            return Err(AllocError);
        }
        push_cut(text, self.text.as_str(), letters)
    }

    // Notes how a write went: after what stood before it, this part.
    fn note(&mut self, written: Result<(), OutOfMemory>)
        ensures went { self.new.has_failed ≡ false → is_err written ≡ false }
        ensures writes { (before : Written) (part : List ℕ) → before.has_failed ≡ self.old.has_failed
            → OnOk written (self.old.text ≡ before.text ++ part) → Writes before self.new part }
    {
        self.has_failed |= written.is_err();
    }
}

// Appends the line of a row, but for its end.
fn push_row_fields(text: &mut String, row: &Row) -> Result<(), OutOfMemory>
    ensures { OnOk result (string_bytes text.new ≡ string_bytes text.old ++ join_with_byte 44 (row_fields row.now)) }
{
    push_row(text, row)?;
    let _ = text.pop();
    Ok(())
}
