//! What is seen of a node in the stretches of its slot: a call in a phase, or nothing; and how such a call ends.
ghost use Rattle.std.specs.Prelude.{◌≡◌, ◌+◌, ◌<◌, ◌↔◌, drop, length, IsTrue};
ghost use Rattle.bully_film.specs.Lane.{IsEndBefore, IsEndBy, IsEndIn};

use crate::snapshot::NodeSnapshot;
use crate::stretches::{Seen, Stretch};
use bully_calls::{Call, Phase};

/// A call in a slot, and how far it came.
#[derive(Clone, Copy, PartialEq, Eq)]
pub struct HeldCall {
    pub call: Call,
    pub phase: Phase,
}

/// A stretch of rows: after each of them a node's slot held this, or nothing. A call that was sent is an arrow from the
/// first row of its stretch to the one after the last, in which it runs, is lost, or is given up.
pub type Holding = Stretch<Option<HeldCall>>;

/// How a stretch of a slot ends: the call runs at its callee, it is lost, it is taken out of the slot, or it is still
/// there after the last row.
#[derive(Clone, Copy)]
pub enum End {
    Ran,
    Failed,
    GivenUp,
    UnderWay,
}

/// How the call ends that a slot held in the stretch at this place, among all of its stretches.
pub fn end_at(holdings: &[Holding], place: usize, call: &Call) -> End
    requires { place < length holdings.now }
    ensures { IsEndIn (drop (place + 1) holdings.now) call.now result }
{
    match holdings[place + 1..].first() {
        Some(next) => end_before(&next.seen, call),
        None => End::UnderWay,
    }
}

// How the call ends after which the slot holds this.
fn end_before(next: &Option<HeldCall>, call: &Call) -> End
    ensures { IsEndBefore next.now call.now result }
{
    match next {
        Some(held) => end_by(held, call),
        None => End::GivenUp,
    }
}

fn end_by(next: &HeldCall, call: &Call) -> End
    ensures { IsEndBy next.now call.now result }
{
    if !same_call(&next.call, call) {
        return End::GivenUp;
    }
    match next.phase {
        Phase::Ran(_) => End::Ran,
        Phase::Failed => End::Failed,
        Phase::Sent => End::GivenUp,
    }
}

// Whether the two are the same.
fn same_call(one: &Call, other: &Call) -> bool
    ensures { IsTrue result ↔ (one.now ≡ other.now) }
{
    one == other
}

impl Seen for Option<HeldCall> {
    ghost use Rattle.bully_film.specs.Lane.{held_in};

    ghost seen = { held_in };

    fn seen_in(snapshot: &NodeSnapshot) -> Option<HeldCall> {
        match snapshot.call {
            Some(held) => Some(HeldCall {
                call: held.call,
                phase: held.phase,
            }),
            None => None,
        }
    }

    fn is_same(&self, other: &Option<HeldCall>) -> bool {
        *self == *other
    }
}
