//! What is drawn of each node: the stretches of its lane and of its slot.
ghost use Rattle.std.specs.Prelude.{◌≡◌, ◌≤◌, ◌<◌, ◌+◌, length, map, IfOk};
ghost use Rattle.bully_film.specs.Film.{IsFilmOf};
ghost use Rattle.bully_film.specs.Lane.{AreLanes, IsLane, is_orphan, row_before};
ghost use Rattle.bully_film.specs.Scene.{lane_of as lane_seen};
ghost use Rattle.bully_film.specs.Window.{WindowState};
ghost use Rattle.bully_rows.specs.Trace.{Trace};

use crate::film::FinishedFilm;
use crate::lane::lane_of;
use crate::scene::Scene;
use crate::slots::Holding;
use crate::snapshot::NodeSnapshot;
use crate::stands::Bar;
use crate::stretches::stretches_of;
use bully_base::{Node, OutOfMemory};
use std::alloc::{AllocError, Global};

/// The lane of a node: the stretches over which it kept its status and its coordinator, and those over which its slot
/// held the same; and whether the slot held an orphan, row by row.
#[derive(Drop)]
pub struct Lane {
    pub node: Node,
    pub bars: Vec<Bar>,
    pub holdings: Vec<Holding>,
    pub orphans: Vec<bool>,
}

/// The lanes of all nodes, from node 1 on: how each stands after the row before those that the finished film shows,
/// and after each of them. Refused where an allocation fails; and where a row's number is 2^32 or more, which no trace
/// has.
pub fn lanes(alloc: Global, finished: &FinishedFilm) -> Result<Vec<Lane>, OutOfMemory>
    ensures count { IfOk result (λ lanes. length lanes.items ≡ finished.now.setup.nodes) }
    ensures lanes { (window : WindowState) (trace : Trace) (is : IsFilmOf window finished.now trace)
        → IfOk result (λ lanes. AreLanes (λ i. lane_seen trace.setup is.before i is.shown)
        (row_before finished.now.scenes.items) 1 lanes.items) }
{
    let mut lanes = Vec::new(alloc);
    for before in 0..finished.setup.nodes() {
        let node = Node::new(before + 1).unwrap();
        let lane = lane_at(alloc, finished, node)?;
        lanes.push(lane)?;
    }
    Ok(lanes)
}

// The lane of a node.
fn lane_at(alloc: Global, finished: &FinishedFilm, node: Node) -> Result<Lane, OutOfMemory>
    requires { node ≤ finished.now.setup.nodes }
    ensures { (window : WindowState) (trace : Trace) (is : IsFilmOf window finished.now trace)
        → IfOk result
        (IsLane node (row_before finished.now.scenes.items) (lane_seen trace.setup is.before node is.shown)) }
{
    let snapshots = lane_of(alloc, finished, node)?;
    stretched(
        alloc,
        node,
        row_before(finished.scenes.as_slice()),
        snapshots.as_slice(),
    )
}

// The lane of a node that stood so after each row from this one on.
fn stretched(
    alloc: Global,
    node: Node,
    first: u32,
    snapshots: &[NodeSnapshot],
) -> Result<Lane, OutOfMemory>
    ensures { IfOk result (IsLane node first snapshots.now) }
{
    if snapshots.len() >= (u32::MAX - first) as usize {
        return Err(AllocError);
    }
    Ok(Lane {
        node,
        bars: stretches_of(alloc, first, snapshots)?,
        holdings: stretches_of(alloc, first, snapshots)?,
        orphans: orphans(alloc, snapshots)?,
    })
}

// Whether the slot held an orphan, where the node stood so after each row.
fn orphans(alloc: Global, snapshots: &[NodeSnapshot]) -> Result<Vec<bool>, OutOfMemory>
    ensures { IfOk result (λ v. v.items ≡ map is_orphan snapshots.now) }
{
    let mut orphans = Vec::with_capacity(alloc, snapshots.len())?;
    for snapshot in snapshots {
        orphans.push(is_orphan(snapshot))?;
    }
    Ok(orphans)
}

fn is_orphan(snapshot: &NodeSnapshot) -> bool
    ensures { result ≡ is_orphan snapshot.now }
{
    match snapshot.call {
        Some(held) => !held.is_live,
        None => false,
    }
}

/// The number of the row before those of the scenes: 1, that of the header, where there are none.
pub fn row_before(scenes: &[Scene]) -> u32
    ensures { result ≡ row_before scenes.now }
{
    match scenes.first() {
        Some(scene) => scene.number.saturating_sub(1),
        None => 1,
    }
}
