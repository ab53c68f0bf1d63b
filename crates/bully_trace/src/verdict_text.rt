//! The text of a verdict.
ghost use Rattle.std.specs.Prelude.{◌≡◌, ◌++◌, OnOk, string_bytes};
ghost use Rattle.bully_trace.specs.VerdictText.{node_line, verdict_head};

use crate::Verdict;
use bully_base::{Node, OutOfMemory};
use bully_handlers::Vector;
use bully_rows::{push_node, push_task, status_word};

/// Appends the line of a node and its vector.
pub fn push_node_line(text: &mut String, node: Node, vector: &Vector) -> Result<(), OutOfMemory>
    ensures { OnOk result (string_bytes text.new ≡ string_bytes text.old ++ node_line node vector.now.vector) }
{
    let number = node.number();
    let status = status_word(vector.status());
    write!(text, "{number} {status} ")?;
    push_node(text, vector.coordinator())?;
    text.push(' ')?;
    push_node(text, vector.halter())?;
    text.push(' ')?;
    push_task(text, vector.task(), ',')?;
    text.push('\n')
}

/// Appends the line of the verdict itself; the nodes' lines of a lawful trace come after it.
pub fn push_verdict_head(text: &mut String, verdict: Verdict) -> Result<(), OutOfMemory>
    ensures { OnOk result (string_bytes text.new ≡ string_bytes text.old ++ verdict_head verdict) }
{
    match verdict {
        Verdict::Lawful(count) => writeln!(text, "lawful {count}"),
        Verdict::Refused(row, cause) => {
            let cause = cause.word();
            writeln!(text, "refused {row} {cause}")
        }
        Verdict::Differs(row) => writeln!(text, "differs {row}"),
    }
}
