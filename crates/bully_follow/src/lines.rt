//! The lines that tell of a trace that grows.
ghost use Rattle.std.specs.Prelude.{◌≡◌, ◌++◌, OnOk, Some, string_bytes};
ghost use Rattle.bully_follow.specs.Lines.{change_words, changed_told, node_told, room_told, vector_words};
ghost use Rattle.bully_world.specs.State.{world_of};

use crate::changes::{Changed, vector_of};
use bully_base::{Node, OutOfMemory};
use bully_handlers::Vector;
use bully_rows::{push_node, push_task, status_word};
use bully_world::World;

/// How what changed is told: as lines of words, or as an object of JSON each.
#[derive(Clone, Copy)]
pub enum Telling {
    Words,
    Json,
}

impl Telling {
    /// Appends a line for each node that changed after the row of this number, which came at this time. Refused where
    /// an allocation fails.
    pub fn push_changed(
        self,
        text: &mut String,
        time: &str,
        row: u32,
        world: &World,
        changed: Changed,
    ) -> Result<(), OutOfMemory>
        ensures { OnOk result (string_bytes text.new ≡ string_bytes text.old
            ++ changed_told self time.now row world.now.setup (world_of world.now) changed) }
    {
        if let Some(node) = changed.named {
            self.push_node(text, time, row, world, node)?;
        }
        if let Some(node) = changed.callee {
            self.push_node(text, time, row, world, node)?;
        }
        Ok(())
    }

    // Appends the line of a node.
    fn push_node(
        self,
        text: &mut String,
        time: &str,
        row: u32,
        world: &World,
        node: Node,
    ) -> Result<(), OutOfMemory>
        ensures { OnOk result (string_bytes text.new ≡ string_bytes text.old
            ++ node_told self time.now row world.now.setup (world_of world.now) (Some node)) }
    {
        let Some(vector) = vector_of(world, node) else {
            return Ok(());
        };
        match self {
            Telling::Words => push_node_words(text, time, row, node, vector),
            Telling::Json => bully_json::push_change(text, time, row, node, vector),
        }
    }

    /// Appends how many rows a trace has room for after the row of this number. Refused where an allocation fails.
    pub fn push_room(
        self,
        text: &mut String,
        time: &str,
        row: u32,
        room: u32,
    ) -> Result<(), OutOfMemory>
        ensures { OnOk result (string_bytes text.new ≡ string_bytes text.old ++ room_told self time.now row room) }
    {
        match self {
            Telling::Words => writeln!(text, "{time} row {row} room for {room} rows"),
            Telling::Json => bully_json::push_room(text, time, row, room),
        }
    }
}

// Appends what the node shows, as `<time> row 17 node 2 normal 3 1,2`, and a dash for none.
fn push_node_words(
    text: &mut String,
    time: &str,
    row: u32,
    node: Node,
    vector: &Vector,
) -> Result<(), OutOfMemory>
    ensures { OnOk result (string_bytes text.new ≡ string_bytes text.old
        ++ change_words time.now row node vector.now.vector) }
{
    let number = node.number();
    write!(text, "{time} row {row} node {number} ")?;
    push_vector(text, vector)
}

// Appends the vector, and the end of the line.
#[tactic(auto, unfolding(crate::specs::Lines::vector_words))]
fn push_vector(text: &mut String, vector: &Vector) -> Result<(), OutOfMemory>
    ensures { OnOk result (string_bytes text.new ≡ string_bytes text.old ++ vector_words vector.now.vector) }
{
    text.push_str(status_word(vector.status()))?;
    text.push(' ')?;
    push_node(text, vector.coordinator())?;
    text.push(' ')?;
    push_task(text, vector.task(), ',')?;
    text.push('\n')
}
