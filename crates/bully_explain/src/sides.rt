//! Two columns: what a row says, and beside it what the group shows.
ghost use Rattle.std.specs.Prelude.{◌≡◌, ◌-◌, length};
ghost use Rattle.std.specs.Option.{option_copied};
ghost use Rattle.bully_rows.specs.TraceText.{node_text, set_text, task_text};
ghost use Rattle.bully_explain.specs.Differing.{gap, heads, padded, part_name, sides, words_beside};
ghost use Rattle.bully_draft.specs.Drafted.{Appends};

use bully_base::{Node, NodeSet};
use bully_draft::Draft;
use bully_table::Table;

/// How wide the column of what a row says is, in bytes, and that of the parts' names before it.
const COLUMN: usize = 16;

/// Appends the heads of the two columns, this one over the first, after a blank line.
pub fn push_heads(text: &mut Draft, head: &'static str)
    ensures { Appends text.old text.new (heads head.now) }
{
    text.push_str("\n");
    text.push_spaces(COLUMN);
    push_padded(text, head, COLUMN);
    text.push_str("shown\n");
}

/// Appends the line of a part: its name, and a word for each side.
pub fn push_words(text: &mut Draft, part: &'static str, said: &'static str, shown: &'static str)
    ensures { Appends text.old text.new (words_beside part.now said.now shown.now) }
{
    push_part(text, part);
    push_padded(text, said, COLUMN);
    text.push_str(shown);
    text.push_str("\n");
}

/// The same with a node for each side; a dash for none.
pub fn push_nodes(text: &mut Draft, part: &'static str, said: Option<Node>, shown: Option<Node>)
    ensures { Appends text.old text.new (sides part.now (node_text said) (node_text shown)) }
{
    let start = push_part(text, part);
    text.push_node(said);
    push_gap(text, start);
    text.push_node(shown);
    text.push_str("\n");
}

/// The same with a set for each side; a dash for the empty one.
pub fn push_sets(text: &mut Draft, part: &'static str, said: &NodeSet, shown: &NodeSet)
    ensures { Appends text.old text.new (sides part.now (set_text said.now) (set_text shown.now)) }
{
    let start = push_part(text, part);
    text.push_set(said);
    push_gap(text, start);
    text.push_set(shown);
    text.push_str("\n");
}

/// The same with the owners of a task for each side; a dash for none.
pub fn push_tasks(text: &mut Draft, part: &'static str, said: Option<&Table>, shown: Option<&Table>)
    ensures { Appends text.old text.new
        (sides part.now (task_text 32 (option_copied said.entry)) (task_text 32 (option_copied shown.entry))) }
{
    let start = push_part(text, part);
    text.push_task(said);
    push_gap(text, start);
    text.push_task(shown);
    text.push_str("\n");
}

// Appends the name of a part, and tells at which length of the text its first column starts.
fn push_part(text: &mut Draft, part: &'static str) -> usize
    ensures name { Appends text.old text.new (part_name part.now) }
    ensures start { result ≡ length text.new.text }
{
    text.push_str("  ");
    push_padded(text, part, COLUMN - 2);
    text.len()
}

// Appends a word, and spaces up to so many bytes.
fn push_padded(text: &mut Draft, word: &'static str, width: usize)
    ensures { Appends text.old text.new (padded width word.now) }
{
    text.push_str(word);
    text.push_spaces(width.saturating_sub(word.len()));
}

// Fills up the column that started at this length, with two spaces at least.
fn push_gap(text: &mut Draft, start: usize)
    ensures { Appends text.old text.new (gap (length text.old.text - start)) }
{
    let taken = text.len().saturating_sub(start);
    text.push_spaces(COLUMN.saturating_sub(taken).max(2));
}
