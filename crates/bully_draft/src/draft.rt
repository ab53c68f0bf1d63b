//! A text in the making.
ghost use Rattle.std.specs.Prelude.{◌≡◌, ℕ, List, ◌++◌, codes, false, length, map, replicate, string_bytes, IfOk};
ghost use Rattle.std.specs.Prelude.{IfSome, OnOk};
ghost use Rattle.std.specs.Option.{option_copied};
ghost use Rattle.std.specs.Str.{chars};
ghost use Rattle.bully_rows.specs.TraceText.{line_of, node_text, row_fields, set_text, task_text};
ghost use Rattle.bully_draft.specs.Drafted.{Appends, Drafted, blank, count_text};
ghost use Rattle.bully_draft.specs.Shown.{AllPlain, AllPrinted, shown, shown_byte};

use crate::shown::{push_bytes, push_shown};
use bully_base::{Node, NodeSet, OutOfMemory};
use bully_config::{ConfigFault, Key};
use bully_rows::{Row, TraceCause, push_node, push_row, push_set, push_task};
use bully_table::Table;
use std::alloc::{AllocError, Global};
use std::fmt::Display;
use std::marker::Model;

/// What is written as it is displayed: numbers, and what the program names in words of its own.
pub trait Plain: Display + Drop {}

impl Plain for bool {}

impl Plain for u16 {}

impl Plain for u32 {}

impl Plain for u64 {}

impl Plain for usize {}

impl Plain for i64 {}

impl Plain for Key {}

impl Plain for ConfigFault {}

impl Plain for TraceCause {}

/// A text to which pieces are appended. Where memory is wanting, that is noted, and the text is refused at its end: so
/// what appends to it never fails. The program's words are appended as they stand, and are `&'static str`. What comes
/// from outside is appended as it is shown, by [`Draft::push_shown`] and [`Draft::push_bytes`].
#[derive(Drop)]
pub struct Draft {
    text: String,
    has_failed: bool,
}

impl Model for Draft {
    ghost use Rattle.std.specs.Prelude.{string_bytes};
    ghost use Rattle.bully_draft.specs.Drafted.{Drafted};

    ghost Value = { Drafted };

    ghost view = { λ d. record { text = string_bytes d.text; has_failed = d.has_failed } };
}

impl Draft {
    /// A text of nothing.
    pub fn new(alloc: Global) -> Draft
        ensures { result ≡ blank }
    {
        Draft {
            text: String::new(alloc),
            has_failed: false,
        }
    }

    /// The whole text. Refused where memory was wanting.
    pub fn finish(self) -> Result<String, OutOfMemory>
        ensures whole { IfOk result (λ text. self.has_failed ≡ false) }
        ensures text { IfOk result (λ text. string_bytes text ≡ self.text) }
    {
        if self.has_failed {
            return Err(AllocError);
        }
        Ok(self.text)
    }

    /// The whole text as a line, which [`push_shown`] shows, whatever was appended. Refused where memory was wanting,
    /// or is now.
    pub fn finish_line(self, alloc: Global) -> Result<String, OutOfMemory>
        ensures whole { IfOk result (λ line. self.has_failed ≡ false) }
        ensures line { IfOk result (λ line. string_bytes line ≡ shown self.text ++ codes "\n") }
        ensures plain { IfOk result (λ line. AllPlain (chars (shown self.text))) }
    {
        let text = self.finish()?;
        let mut line = String::with_capacity(alloc, text.len().saturating_add(1))?;
        push_shown(&mut line, text.as_str())?;
        line.push('\n')?;
        Ok(line)
    }

    /// How many bytes there are so far.
    pub fn len(&self) -> usize
        ensures { result ≡ length self.now.text }
    {
        self.text.len()
    }

    /// Appends words of the program.
    pub fn push_str(&mut self, words: &'static str)
        ensures { Appends self.old self.new words.now }
    {
        let written = self.text.push_str(words);
        self.note(written);
    }

    /// Appends a text that comes from outside, as [`push_shown`] shows it: it ends no line, and turns nothing that
    /// stands around it.
    pub fn push_shown(&mut self, raw: &str)
        ensures shown { Appends self.old self.new (shown raw.now) }
        ensures plain { AllPlain (chars (shown raw.now)) }
    {
        let written = push_shown(&mut self.text, raw);
        self.note(written);
    }

    /// Appends bytes that come from outside; one that is no printed ASCII character as a question mark.
    pub fn push_bytes(&mut self, raw: &[u8])
        ensures shown { Appends self.old self.new (map shown_byte raw.now) }
        ensures printed { AllPrinted (map shown_byte raw.now) }
    {
        let written = push_bytes(&mut self.text, raw);
        self.note(written);
    }

    /// Appends the value.
    pub fn push_value<P: Plain>(&mut self, value: P)
        ensures { IfSome (P.output value) (Appends self.old self.new) }
    {
        let written = self.text.write_fmt(value);
        self.note(written);
    }

    /// Appends the value after these words.
    pub fn push_behind<P: Plain>(&mut self, before: &'static str, value: P)
        ensures { IfSome (P.output value) (λ text. Appends self.old self.new (before.now ++ text)) }
    {
        self.push_str(before);
        self.push_value(value);
    }

    /// Appends the value between these words.
    pub fn push_between<P: Plain>(&mut self, before: &'static str, value: P, behind: &'static str)
        ensures { IfSome (P.output value) (λ text. Appends self.old self.new (before.now ++ text ++ behind.now)) }
    {
        self.push_behind(before, value);
        self.push_str(behind);
    }

    /// Appends how many things of a kind there are: its word with an `s` after it, but for one of them.
    pub fn push_count(&mut self, count: usize, kind: &'static str)
        ensures { Appends self.old self.new (count_text count kind.now) }
    {
        self.push_between("", count, " ");
        self.push_str(kind);
        if count != 1 {
            self.push_str("s");
        }
    }

    /// Appends so many spaces.
    pub fn push_spaces(&mut self, count: usize)
        ensures { Appends self.old self.new (replicate count 32) }
    {
        for _ in 0..count {
            self.push_str(" ");
        }
    }

    /// Appends the row, as a trace has it: a line.
    pub fn push_row(&mut self, row: &Row)
        ensures { Appends self.old self.new (line_of (row_fields row.now)) }
    {
        let written = push_row(&mut self.text, row);
        self.note(written);
    }

    /// Appends the node, as a row has it.
    pub fn push_node(&mut self, node: Option<Node>)
        ensures { Appends self.old self.new (node_text node) }
    {
        let written = push_node(&mut self.text, node);
        self.note(written);
    }

    /// Appends the set, as a row has it.
    pub fn push_set(&mut self, set: &NodeSet)
        ensures { Appends self.old self.new (set_text set.now) }
    {
        let written = push_set(&mut self.text, set);
        self.note(written);
    }

    /// Appends the owners of the task, as a row has them.
    pub fn push_task(&mut self, task: Option<&Table>)
        ensures { Appends self.old self.new (task_text 32 (option_copied task.entry)) }
    {
        let written = push_task(&mut self.text, task, ' ');
        self.note(written);
    }

    // Notes how a write went: after what stood before it, this part.
    fn note(&mut self, written: Result<(), OutOfMemory>)
        ensures { (before : Drafted) (part : List ℕ) → before.has_failed ≡ self.old.has_failed
            → OnOk written (self.old.text ≡ before.text ++ part) → Appends before self.new part }
    {
        self.has_failed |= written.is_err();
    }
}
