//! What a row of a trace shows.
ghost use Rattle.std.specs.Prelude.{◌≡◌, ℕ, true, IfOk};
ghost use Rattle.bully_handlers.specs.Vector.{is_normal};
ghost use Rattle.bully_calls.specs.Events.{event_at, kind_of};
ghost use Rattle.bully_rows.specs.declared.trace.Row.{Row as RowState};
ghost use Rattle.bully_world.specs.Place.{call_at};
ghost use Rattle.bully_film.specs.Scene.{IsSceneStart, cuts, event_kind_in, gets_table, is_halting, is_quiet, is_run};
ghost use Rattle.bully_film.specs.Scene.{node_in, place_at, said_in, scene_of, snapshot, table_shown};
ghost use Rattle.bully_world.specs.Cause.{is_idle};
ghost use Rattle.bully_world.specs.State.{is_halt, world_of};
ghost use Rattle.bully_world.specs.World.{World as WorldOf, point, vector};

use crate::OWNERS_SHOWN;
use crate::said::Said;
use crate::snapshot::{NodeSnapshot, snapshot_beside, snapshot_of};
use bully_base::{Node, OutOfMemory, Status};
use bully_calls::{CallKind, EventKind, NodeEventKind, Whose};
use bully_rows::{NodeEvent, Row};
use bully_steps::Point;
use bully_table::{Table, copied};
use bully_world::World;

/// A node before a row and after it.
#[derive(Clone, Copy)]
pub struct Change {
    pub node: Node,
    pub before: NodeSnapshot,
    pub after: NodeSnapshot,
}

/// What a row shows: its number, from 2; what its event is, none of a claim; the node that it names, and the one whose
/// vector it may change, which is the callee of a Run; whether a procedure is cut off there; the table that a node gets
/// by it, if it does, where the table has at most [`OWNERS_SHOWN`] owners; and what the row says beside the word of its
/// event and a node.
#[derive(Drop)]
pub struct Scene {
    pub number: u32,
    pub event_kind: Option<EventKind>,
    pub own: Change,
    pub other: Change,
    pub cuts: bool,
    pub gets_table: bool,
    pub table: Option<Table>,
    pub said: Said,
}

/// What is seen of a row before it is taken.
#[derive(Clone, Copy)]
pub struct SceneStart {
    event_kind: Option<EventKind>,
    own: Node,
    own_before: NodeSnapshot,
    other: Node,
    other_before: NodeSnapshot,
    cuts: bool,
}

/// The start of a row whose event is this and which names this node, in the world before it.
// (a run alone may change a second node, and is out of line. What it answers is taken apart: else the start of every
// row would lie where that call writes, and be copied from there three times)
#[inline(always)]
pub fn open_on(world: &World, event_kind: Option<EventKind>, own: Node) -> SceneStart
    ensures event_kind { result.event_kind ≡ event_kind }
    ensures own { result.own ≡ own }
    ensures own_before { result.own_before ≡ snapshot (world_of world.now) own }
    ensures other { result.other ≡ place_at (world_of world.now) own event_kind }
    ensures other_before { result.other_before
        ≡ snapshot (world_of world.now) (place_at (world_of world.now) own event_kind) }
    ensures cuts { result.cuts
        ≡ cuts (world_of world.now) own (place_at (world_of world.now) own event_kind) event_kind }
{
    if is_run(event_kind) {
        let SceneStart {
            event_kind,
            own,
            own_before,
            other,
            other_before,
            cuts,
        } = open_wide(world, event_kind, own);
        return SceneStart {
            event_kind,
            own,
            own_before,
            other,
            other_before,
            cuts,
        };
    }
    let own_before = snapshot_of(world, own);
    let other = own;
    let other_before = own_before;
    SceneStart {
        event_kind,
        own,
        own_before,
        other,
        other_before,
        cuts: false,
    }
}

// The same, also of a run.
#[inline(never)]
fn open_wide(world: &World, event_kind: Option<EventKind>, own: Node) -> SceneStart
    ensures event_kind { result.event_kind ≡ event_kind }
    ensures own { result.own ≡ own }
    ensures own_before { result.own_before ≡ snapshot (world_of world.now) own }
    ensures other { result.other ≡ place_at (world_of world.now) own event_kind }
    ensures other_before { result.other_before
        ≡ snapshot (world_of world.now) (place_at (world_of world.now) own event_kind) }
    ensures cuts { result.cuts
        ≡ cuts (world_of world.now) own (place_at (world_of world.now) own event_kind) event_kind }
{
    let own_before = snapshot_of(world, own);
    let other = place_at(&own_before, own, event_kind);
    SceneStart {
        event_kind,
        own,
        own_before,
        other,
        other_before: snapshot_beside(world, other, own, &own_before),
        cuts: cuts(world, &own_before, other, event_kind),
    }
}

/// What the row of this number shows, where this was seen before it, and it says this; the world is the one after it.
/// Refused where an allocation fails.
pub fn shot(
    number: u32,
    scene_start: &SceneStart,
    world: &World,
    said: Said,
) -> Result<Scene, OutOfMemory>
    ensures { IfOk result (λ s. (w : WorldOf) (row : RowState)
        → said ≡ said_in row → scene_start.now.event_kind ≡ event_kind_in row → scene_start.now.own ≡ node_in row
        → scene_start.now.own_before ≡ snapshot w (node_in row)
        → scene_start.now.other ≡ place_at w (node_in row) (event_kind_in row)
        → scene_start.now.other_before ≡ snapshot w (place_at w (node_in row) (event_kind_in row))
        → scene_start.now.cuts ≡ cuts w (node_in row) (place_at w (node_in row) (event_kind_in row)) (event_kind_in row)
        → s ≡ scene_of world.now.setup w (world_of world.now) number row) }
{
    let own_after = snapshot_of(world, scene_start.own);
    let own = Change {
        node: scene_start.own,
        before: scene_start.own_before,
        after: own_after,
    };
    let other = Change {
        node: scene_start.other,
        before: scene_start.other_before,
        after: snapshot_beside(world, scene_start.other, scene_start.own, &own_after),
    };
    let gets_table = gets_table(scene_start.event_kind, &other.before, &other.after);
    Ok(Scene {
        number,
        event_kind: scene_start.event_kind,
        own,
        other,
        cuts: scene_start.cuts,
        gets_table,
        table: table_shown(world, gets_table, scene_start.other)?,
        said,
    })
}

/// Whether the row of this start changes no other node than the one that it names, and no table comes with it.
#[inline(always)]
pub fn is_quiet(scene_start: &SceneStart) -> bool
    ensures { result ≡ is_quiet scene_start.now.event_kind }
{
    !matches!(
        scene_start.event_kind,
        Some(EventKind::Node(NodeEventKind::Run)) | Some(EventKind::Plan)
    )
}

/// As `shot`, of a row that is quiet.
// (apart, since most rows are, and nothing can fail)
#[inline(always)]
pub fn quiet_shot(number: u32, scene_start: &SceneStart, world: &World, said: Said) -> Scene
    ensures { (w : WorldOf) (row : RowState) → said ≡ said_in row
        → IsSceneStart w (node_in row) (event_kind_in row) scene_start.now → is_quiet scene_start.now.event_kind ≡ true
        → result ≡ scene_of world.now.setup w (world_of world.now) number row }
{
    let own = Change {
        node: scene_start.own,
        before: scene_start.own_before,
        after: snapshot_of(world, scene_start.own),
    };
    let other = own;
    Scene {
        number,
        event_kind: scene_start.event_kind,
        own,
        other,
        cuts: false,
        gets_table: false,
        table: None,
        said,
    }
}

/// The node that the row names.
pub fn node_in(row: &Row) -> Node
    ensures { result ≡ node_in row.now }
{
    match row {
        Row::Event(event) => event.node(),
        Row::Detailed(event) => event.node,
        Row::Claim(claim) => claim.node,
        Row::Whole(whole) => whole.claim().node,
    }
}

/// What the row's event is.
pub fn event_kind_in(row: &Row) -> Option<EventKind>
    ensures { result ≡ event_kind_in row.now }
{
    match row {
        Row::Event(event) => Some(event.kind()),
        Row::Detailed(event) => Some(event.event().kind()),
        Row::Claim(_) | Row::Whole(_) => None,
    }
}

/// What the event of this kind is.
// (inlined, as `open_on` is)
#[inline(always)]
pub fn event_kind_at(kind: NodeEventKind, node: Node) -> EventKind
    ensures { result ≡ kind_of (event_at kind node) }
{
    NodeEvent { kind, node }.event().kind()
}

// Whether it is a run.
fn is_run(event_kind: Option<EventKind>) -> bool
    ensures { result ≡ is_run event_kind }
{
    matches!(event_kind, Some(EventKind::Node(NodeEventKind::Run)))
}

// The node at which an event of this kind takes place, if it is of the node of which this is seen.
fn place_at(shown: &NodeSnapshot, node: Node, event_kind: Option<EventKind>) -> Node
    ensures { (w : WorldOf) → shown.now ≡ snapshot w node → result ≡ place_at w node event_kind }
{
    let Some(kind) = event_kind else {
        return node;
    };
    match (kind.whose(), shown.call) {
        (Whose::Callee, Some(held)) => held.call.callee,
        _ => node,
    }
}

// Whether a Halt of the node of which this is seen runs at the other one, and cuts a procedure off.
fn cuts(world: &World, shown: &NodeSnapshot, other: Node, event_kind: Option<EventKind>) -> bool
    ensures { (i : ℕ) → shown.now ≡ snapshot (world_of world.now) i
        → result ≡ cuts (world_of world.now) i other event_kind }
{
    if !is_run(event_kind) {
        return false;
    }
    if !is_halting(shown) {
        return false;
    }
    !is_idle(world, other)
}

// Whether the slot of the node of which this is seen has a Halt.
fn is_halting(shown: &NodeSnapshot) -> bool
    ensures { (w : WorldOf) (i : ℕ) → shown.now ≡ snapshot w i → result ≡ is_halting (call_at w i) }
{
    match shown.call {
        Some(held) => is_halt(held.call.kind),
        None => false,
    }
}

fn is_halt(kind: CallKind) -> bool
    ensures { result ≡ is_halt kind }
{
    matches!(kind, CallKind::Halt)
}

// Whether no procedure runs at the node.
// (out of line: else each caller would have room for a point, and clear it)
#[inline(never)]
fn is_idle(world: &World, node: Node) -> bool
    ensures { result ≡ is_idle (point (world_of world.now) node) }
{
    if node.number() > world.setup().nodes() {
        return true;
    }
    matches!(world.point(node), Point::Idle)
}

// Whether the node gets a table.
fn gets_table(event_kind: Option<EventKind>, before: &NodeSnapshot, after: &NodeSnapshot) -> bool
    ensures { result ≡ gets_table event_kind before.now after.now }
{
    match event_kind {
        Some(EventKind::Plan) => true,
        Some(EventKind::Node(NodeEventKind::Run)) => !is_normal(before.status)
            && is_normal(after.status),
        _ => false,
    }
}

fn is_normal(status: Status) -> bool
    ensures { result ≡ is_normal status }
{
    matches!(status, Status::Normal)
}

// The node's task, where it gets one and it is short.
fn table_shown(world: &World, gets: bool, node: Node) -> Result<Option<Table>, OutOfMemory>
    ensures { IfOk result (λ table. table ≡ table_shown world.now.setup gets (vector (world_of world.now) node).task) }
{
    if !gets || world.setup().partitions() > OWNERS_SHOWN {
        return Ok(None);
    }
    task_of(world, node)
}

// A copy of the node's task.
// (out of line, as few rows have one)
#[inline(never)]
fn task_of(world: &World, node: Node) -> Result<Option<Table>, OutOfMemory>
    ensures { IfOk result (λ table. table ≡ (vector (world_of world.now) node).task) }
{
    if node.number() > world.setup().nodes() {
        return Ok(None);
    }
    copied(world.vector(node).task())
}
