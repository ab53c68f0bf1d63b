//! The stretches of rows over which the same is seen of a node: its status and its coordinator, or what its slot holds.
ghost use Rattle.std.specs.Prelude.{◌≡◌, ◌+◌, ◌^◌, ◌<◌, ◌↔◌, ◌∷◌, [], length, map, IfOk, IsTrue, OnOk};
ghost use Rattle.bully_film.specs.Lane.{AreApart, AreJoined, spread};

use crate::snapshot::NodeSnapshot;
use bully_base::OutOfMemory;
use std::alloc::Global;

/// What is seen of a node.
pub trait Seen: Copy {
    ghost use Rattle.bully_film.specs.declared.snapshot.NodeSnapshot.{NodeSnapshot as SnapshotState};

    // What is seen in a snapshot.
    ghost seen: { SnapshotState → Self };

    /// What is seen in this snapshot.
    fn seen_in(snapshot: &NodeSnapshot) -> Self
        ensures { result ≡ seen snapshot.now };

    /// Whether the two are the same.
    fn is_same(&self, other: &Self) -> bool
        ensures { IsTrue result ↔ (self.now ≡ other.now) };
}

/// A stretch of rows, from the first to the last: after each of them this was seen of a node.
#[derive(Clone, Copy)]
pub struct Stretch<T> {
    pub first: u32,
    pub last: u32,
    pub seen: T,
}

/// The stretches of a node that stood so after each of these rows, from this number on: over each the same is seen, and
/// what is seen changes where two meet. Refused where an allocation fails.
pub fn stretches_of<T: Seen>(
    alloc: Global,
    first: u32,
    snapshots: &[NodeSnapshot],
) -> Result<Vec<Stretch<T>>, OutOfMemory>
    requires { first + length snapshots.now < 2 ^ 32 }
    ensures spread { IfOk result (λ stretches. spread stretches.items ≡ map T.seen snapshots.now) }
    ensures joined { IfOk result (λ stretches. AreJoined first stretches.items (first + length snapshots.now)) }
    ensures apart { IfOk result (λ stretches. AreApart stretches.items) }
{
    let mut stretches = Vec::new(alloc);
    if let Some((start, rest)) = snapshots.split_first() {
        push_stretches(&mut stretches, first, T::seen_in(start), rest)?;
    }
    Ok(stretches)
}

// Appends the stretches of a node of which this was seen first.
fn push_stretches<T: Seen>(
    stretches: &mut Vec<Stretch<T>>,
    first: u32,
    start: T,
    rest: &[NodeSnapshot],
) -> Result<(), OutOfMemory>
    requires empty { stretches.old.items ≡ [] }
    requires fits { first + length rest.now + 1 < 2 ^ 32 }
    ensures spread { OnOk result (spread stretches.new.items ≡ start ∷ map T.seen rest.now) }
    ensures joined { OnOk result (AreJoined first stretches.new.items (first + length rest.now + 1)) }
    ensures apart { OnOk result (AreApart stretches.new.items) }
{
    let mut from = first;
    let mut row = first;
    let mut seen = start;
    for snapshot in rest {
        let next = T::seen_in(snapshot);
        if !seen.is_same(&next) {
            stretches.push(Stretch::new(from, row, seen))?;
            from = row + 1;
            seen = next;
        }
        row += 1;
    }
    stretches.push(Stretch::new(from, row, seen))?;
    Ok(())
}

impl<T> Stretch<T> {
    fn new(first: u32, last: u32, seen: T) -> Stretch<T>
        ensures { result ≡ record { first = first; last = last; seen = seen } }
    {
        Stretch { first, last, seen }
    }
}
