//! What is told of a trace while it grows.
ghost use Rattle.std.specs.Prelude.{◌≡◌, ◌++◌, OnOk, string_bytes};
ghost use Rattle.bully_json.specs.Objects.{change_line, room_line, row_members};

use crate::values::{push_last, push_place, push_quoted};
use bully_base::{Node, OutOfMemory};
use bully_handlers::Vector;

/// Appends the line of what the node shows with this vector, after the row of this number, which came at this time.
/// Refused where an allocation fails.
pub fn push_change(
    text: &mut String,
    time: &str,
    row: u32,
    node: Node,
    vector: &Vector,
) -> Result<(), OutOfMemory>
    ensures { OnOk result (string_bytes text.new ≡ string_bytes text.old
        ++ change_line time.now row node vector.now.vector) }
{
    let number = node.number();
    push_row(text, time, row)?;
    write!(text, "\"node\":{number},")?;
    push_place(text, vector)?;
    push_last(text, vector)?;
    text.push('\n')
}

/// Appends the line of how many rows a trace has room for after the row of this number, which came at this time.
/// Refused where an allocation fails.
pub fn push_room(text: &mut String, time: &str, row: u32, room: u32) -> Result<(), OutOfMemory>
    ensures { OnOk result (string_bytes text.new ≡ string_bytes text.old ++ room_line time.now row room) }
{
    push_row(text, time, row)?;
    write!(text, "\"room\":{room}")?;
    text.push_str("}\n")
}

// Appends how a line starts that tells of the row of this number, which came at this time.
#[tactic(auto, unfolding(crate::specs::Objects::row_members))]
fn push_row(text: &mut String, time: &str, row: u32) -> Result<(), OutOfMemory>
    ensures { OnOk result (string_bytes text.new ≡ string_bytes text.old ++ row_members time.now row) }
{
    text.push_str("{\"time\":")?;
    push_quoted(text, time)?;
    write!(text, ",\"row\":{row},")
}
