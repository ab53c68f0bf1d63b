//! What is written of a row with everything said.
ghost use Rattle.std.specs.Prelude.{◌≡◌, ◌≤◌, ◌+◌, ◌++◌, ◌∷◌, [], length, IfOk, OnOk, string_bytes};
ghost use Rattle.bully_annotate.specs.Annotated.{said_row, same_vector, shown_row, shown_unless};
ghost use Rattle.bully_trace.specs.Details.{said_of};
ghost use Rattle.bully_rows.specs.TraceText.{line_of, row_fields, rows_text};
ghost use Rattle.bully_calls.specs.Events.{node_of};
ghost use Rattle.bully_world.specs.Place.{place_of};
ghost use Rattle.bully_world.specs.State.{world_of};
ghost use Rattle.bully_world.specs.World.{vector};

use crate::seen::Seen;
use bully_base::{Node, OutOfMemory};
use bully_rows::{push_detailed, push_event, push_vector};
use bully_trace::said_of;
use bully_world::{Event, World};

/// Appends the event with all that there is to say of it in the world before it. Its node is at most the setup's last.
pub fn push_said(text: &mut String, world: &World, event: &Event) -> Result<(), OutOfMemory>
    requires { node_of event.now ≤ world.now.setup.nodes }
    ensures { OnOk result (string_bytes text.new ≡ string_bytes text.old
        ++ line_of (row_fields (said_row event.now (said_of world.now.setup (world_of world.now) event.now)))) }
{
    match said_of(world, event) {
        Some(detailed) => push_detailed(text, &detailed),
        None => push_event(text, event),
    }
}

/// Sees the vector that the event may change, appends the event, and tells whose vector that is. The event's node is at
/// most the setup's last.
pub fn begin(
    text: &mut String,
    world: &World,
    seen: &mut Seen,
    event: &Event,
) -> Result<Node, OutOfMemory>
    requires node { node_of event.now ≤ world.now.setup.nodes }
    requires room { seen.old.room ≡ world.now.setup.partitions }
    ensures place { IfOk result (λ place. (place ≡ place_of (world_of world.now) event.now)
        × (place ≤ world.now.setup.nodes)) }
    ensures seen { IfOk result (λ place. seen.new.vector ≡ vector (world_of world.now) place) }
    ensures room { seen.new.room ≡ seen.old.room }
    ensures written { OnOk result (string_bytes text.new ≡ string_bytes text.old
        ++ line_of (row_fields (said_row event.now (said_of world.now.setup (world_of world.now) event.now)))) }
{
    let place = world.place_at(event.node(), event.kind());
    seen.see(world.vector(place));
    push_said(text, world, event)?;
    Ok(place)
}

/// Appends the vector of the node, where it isn't the one that was seen, and tells how many rows the event has with
/// that. The node is at most the setup's last.
pub fn push_change(
    text: &mut String,
    world: &World,
    seen: &Seen,
    node: Node,
) -> Result<u32, OutOfMemory>
    requires { node ≤ world.now.setup.nodes }
    ensures counted { IfOk result (λ count. count ≡ length
        (shown_unless (same_vector seen.now.vector (vector (world_of world.now) node)) (world_of world.now) node) + 1) }
    ensures written { OnOk result (string_bytes text.new ≡ string_bytes text.old ++ rows_text
        (shown_unless (same_vector seen.now.vector (vector (world_of world.now) node)) (world_of world.now) node)) }
    ensures few { IfOk result (λ count. count ≤ 2) }
{
    if is_unchanged(world, seen, node) {
        return Ok(1);
    }
    push_shown(text, world, node)?;
    Ok(2)
}

// Whether the vector of the node is the one that was seen.
fn is_unchanged(world: &World, seen: &Seen, node: Node) -> bool
    requires { node ≤ world.now.setup.nodes }
    ensures { result ≡ same_vector seen.now.vector (vector (world_of world.now) node) }
{
    seen.is_same(world.vector(node))
}

/// Appends the vector of the node, which is at most the setup's last.
pub fn push_shown(text: &mut String, world: &World, node: Node) -> Result<(), OutOfMemory>
    requires { node ≤ world.now.setup.nodes }
    ensures { OnOk result (string_bytes text.new ≡ string_bytes text.old
        ++ rows_text (shown_row (world_of world.now) node ∷ [])) }
{
    push_vector(text, node, world.vector(node))
}
