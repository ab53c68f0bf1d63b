ghost use Rattle.std.specs.Prelude.{◌≡◌, ◌≤◌, IfOk, OnOk, ◌++◌, ◌∷◌, [], Some, slice_get};
ghost use Rattle.bully_film.specs.Film.{IsFilmOf};
ghost use Rattle.bully_film.specs.Lane.{lane_in, snapshot_after, snapshot_before, snapshots_after, start_snapshot};
ghost use Rattle.bully_film.specs.Behind.{world_behind};
ghost use Rattle.bully_film.specs.Scene.{lane_of as lane_seen, snapshot};
ghost use Rattle.bully_film.specs.Window.{WindowState};
ghost use Rattle.bully_film.specs.declared.snapshot.NodeSnapshot.{NodeSnapshot as SnapshotState};
ghost use Rattle.bully_rows.specs.Trace.{Trace};

use crate::film::FinishedFilm;
use crate::scene::Scene;
use crate::snapshot::{NodeSnapshot, unseen};
use bully_base::{Node, OutOfMemory};
use std::alloc::Global;

/// How the node stood before the rows that the finished film shows, and after each of them. The node is at most the
/// setup's last. Refused where an allocation fails.
pub fn lane_of(
    alloc: Global,
    finished: &FinishedFilm,
    node: Node,
) -> Result<Vec<NodeSnapshot>, OutOfMemory>
    requires { node ≤ finished.now.setup.nodes }
    ensures { (window : WindowState) (trace : Trace) (is : IsFilmOf window finished.now trace)
        → IfOk result (λ snapshots. snapshots.items ≡ lane_seen trace.setup is.before node is.shown) }
{
    let at_end = snapshot_at_end(finished, node);
    lane_in(alloc, finished.scenes.as_slice(), node, &at_end)
}

// How the node stands after the last row.
fn snapshot_at_end(finished: &FinishedFilm, node: Node) -> NodeSnapshot
    requires { node ≤ finished.now.setup.nodes }
    ensures { (window : WindowState) (trace : Trace) (is : IsFilmOf window finished.now trace)
        → result ≡ snapshot (world_behind trace.setup (is.before ++ is.shown)) node }
{
    snapshot_at(finished.at_end.as_slice(), usize::from(node.number() - 1))
}

// The snapshot at this place of all of them.
fn snapshot_at(at_end: &[NodeSnapshot], place: usize) -> NodeSnapshot
    ensures { (x : SnapshotState) → slice_get at_end.now place ≡ Some x → result ≡ x }
{
    match at_end.get(place) {
        Some(snapshot) => *snapshot,
        None => unseen(),
    }
}

// How the node stood before these rows, and after each of them, where it stands so at their end.
fn lane_in(
    alloc: Global,
    scenes: &[Scene],
    node: Node,
    at_end: &NodeSnapshot,
) -> Result<Vec<NodeSnapshot>, OutOfMemory>
    ensures { IfOk result (λ snapshots. snapshots.items ≡ lane_in node scenes.now at_end.now) }
{
    let mut snapshots = Vec::new(alloc);
    push_lane(
        &mut snapshots,
        scenes,
        node,
        start_snapshot(scenes, node, at_end),
    )?;
    Ok(snapshots)
}

// Appends how the node stood, first so, and then after each of these rows.
fn push_lane(
    snapshots: &mut Vec<NodeSnapshot>,
    scenes: &[Scene],
    node: Node,
    start: NodeSnapshot,
) -> Result<(), OutOfMemory>
    requires { snapshots.old.items ≡ [] }
    ensures { OnOk result (snapshots.new.items ≡ start ∷ snapshots_after node start scenes.now) }
{
    let mut now = start;
    snapshots.push(now)?;
    for scene in scenes {
        now = snapshot_after(node, &now, scene);
        snapshots.push(now)?;
    }
    Ok(())
}

// How the node stood before these rows, where it stands so at their end.
fn start_snapshot(scenes: &[Scene], node: Node, at_end: &NodeSnapshot) -> NodeSnapshot
    ensures { result ≡ start_snapshot node scenes.now at_end.now }
{
    for scene in scenes {
        if scene.own.node == node || scene.other.node == node {
            return snapshot_before(node, at_end, scene);
        }
    }
    *at_end
}

// How the node was before the row; this, where the row doesn't speak of it.
fn snapshot_before(node: Node, now: &NodeSnapshot, scene: &Scene) -> NodeSnapshot
    ensures { result ≡ snapshot_before node now.now scene.now }
{
    if scene.own.node == node {
        scene.own.before
    } else if scene.other.node == node {
        scene.other.before
    } else {
        *now
    }
}

// How the node is after the row; this, where the row doesn't speak of it.
fn snapshot_after(node: Node, now: &NodeSnapshot, scene: &Scene) -> NodeSnapshot
    ensures { result ≡ snapshot_after node now.now scene.now }
{
    if scene.own.node == node {
        scene.own.after
    } else if scene.other.node == node {
        scene.other.after
    } else {
        *now
    }
}
