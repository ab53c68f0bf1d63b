//! Seats that are used on another group. Both groups are called in the same way.

ghost use Rattle.std.specs.Prelude.{◌≡◌, ◌+◌, [], IfSome};
ghost use Rattle.bully_group.specs.Locked.{name_of};
ghost use Rattle.bully_steps.specs.Procedure.{state_of};

use super::asks::{
    Action, Ask, Beside, Call, Case, ask_all, beside_for, ends_as, publisher_beside,
};
use super::observers::Place;
use super::test_group::{Opened, Way, open};
use bully_base::Setup;
use bully_group::{Naming, Seat};
use bully_watch::Publisher;
use std::alloc::Global;
use std::marker::Brand;
use std::mem;
use std::sync::Wait;
use std::sync::ledger::Blank;

/// What is done with a second group of so many nodes: the seat of this actor in the first group and the one at this
/// place in the second are swapped, and the second is asked, also with the seat that isn't its own. Then each seat goes
/// back, or not, and the second group is finished, before the first one. In both a procedure of node 1 is held.
#[derive(Clone, Copy)]
pub struct Other {
    pub nodes: u16,
    pub is_watched: bool,
    pub actor: usize,
    pub place: usize,
    pub asks: &'static [Ask],
    pub goes_back: bool,
    /// A line for each ask, and those of the finish.
    pub told: &'static str,
}

/// Each is tried on two bare `Locked`, and through the locks of two `Group`s.
pub const DEALS: &[Case] = &[
    FOREIGN,
    CROSSED,
    SWAPPED,
    STRANGE_NODE,
    STRANGE_OPERATOR,
    FOREIGN_PUBLISH,
];

// Node 1 recovers in the first group, and then the same is tried in the second one with that seat, and a view and
// turns.
const FOREIGN: Case = Case {
    nodes: 1,
    partitions: 2,
    events_max: 10,
    is_watched: false,
    node: 1,
    asks: &[
        Ask::By(0, Call::Step(Action::Recover, 1)),
        Ask::By(0, Call::View),
    ],
    other: Some(Other {
        nodes: 1,
        is_watched: false,
        actor: 0,
        place: 0,
        asks: &[
            Ask::By(0, Call::Step(Action::Recover, 1)),
            Ask::By(0, Call::View),
            Ask::By(0, Call::Turn),
            Ask::By(0, Call::TurnInPlace),
            Ask::By(0, Call::Entries),
        ],
        goes_back: true,
        told: "Err(Foreign { index: 0 })
Foreign { index: 0 }
Foreign { index: 0 }
Foreign { index: 0 }
1
a seat less: SeatCount
a pass less: SeatCount
entries: 0
0 Down
",
    }),
    told: "Ok(())
1 Election
a seat less: SeatCount
a pass less: SeatCount
entries: 1
1 Election
",
    history: &[],
};

// The first one's operator recovers node 1 of the second. Each is finished with its own seats.
const CROSSED: Case = Case {
    asks: &[],
    other: Some(CROSSING),
    told: "a seat less: SeatCount
a pass less: SeatCount
all: Differs(0)
",
    ..FOREIGN
};

const CROSSING: Other = Other {
    nodes: 1,
    is_watched: false,
    actor: 0,
    place: 0,
    asks: &[Ask::By(0, Call::Step(Action::Recover, 1))],
    goes_back: true,
    told: "Ok(())
a seat less: SeatCount
a pass less: SeatCount
all: Differs(0)
",
};

// The same, and each is finished with the other's operator.
const SWAPPED: Case = Case {
    other: Some(Other {
        goes_back: false,
        told: "Ok(())
a seat less: SeatCount
a pass less: SeatCount
entries: 1
1 Election
",
        ..CROSSING
    }),
    told: "a seat less: SeatCount
a pass less: SeatCount
entries: 0
0 Down
",
    ..CROSSED
};

// The seat of node 2 of the first group serves, checks node 2 and takes turns of node 1 in the second one, which has no
// node 2, and stays in the place of node 1's.
const STRANGE_NODE: Case = Case {
    nodes: 2,
    other: Some(STRANGE),
    told: "a seat less: SeatCount
a pass less: SeatCount
all: Stranger
",
    ..CROSSED
};

const STRANGE: Other = Other {
    nodes: 1,
    is_watched: false,
    actor: 2,
    place: 1,
    asks: &[
        Ask::By(1, Call::Serve),
        Ask::By(1, Call::Step(Action::Check, 2)),
        Ask::By(1, Call::Turn),
        Ask::By(1, Call::TurnInPlace),
    ],
    goes_back: false,
    told: "Ok(false)
Err(Refused(BadNode))
NotYours
NotYours
a seat less: SeatCount
a pass less: SeatCount
all: Stranger
",
};

// The operator's seat of the first group does the same.
const STRANGE_OPERATOR: Case = Case {
    other: Some(Other {
        actor: 0,
        told: "Err(NotYours)
Err(NotYours)
NotYours
NotYours
a seat less: SeatCount
a pass less: SeatCount
all: Stranger
",
        ..STRANGE
    }),
    ..STRANGE_NODE
};

// The operator's seat of the first group, which has two entries there, publishes nothing in the second one.
const FOREIGN_PUBLISH: Case = Case {
    asks: &[
        Ask::By(0, Call::Step(Action::Recover, 1)),
        Ask::By(0, Call::Step(Action::Crash, 1)),
    ],
    other: Some(Other {
        nodes: 1,
        is_watched: true,
        actor: 0,
        place: 0,
        asks: &[Ask::By(0, Call::Publish(Place::First, 1))],
        goes_back: true,
        told: "Foreign { index: 1 }
a seat less: SeatCount
a pass less: SeatCount
entries: 0
0 Down
0 Down
Gone
",
    }),
    told: "Ok(())
Ok(())
a seat less: SeatCount
a pass less: SeatCount
entries: 2
2 Down
",
    ..FOREIGN
};

/// Whether what must be told of the second group is told, if there is one. These are the seats of the first.
pub fn used_as_told<R: Wait>(
    rt: &R,
    alloc: Global,
    way: Way,
    seats: &mut Vec<Seat>,
    other: &Option<Other>,
) -> bool {
    let Some(other) = other else {
        return true;
    };
    let Ok(setup) = Setup::new(other.nodes, 2, 10) else {
        return false;
    };
    let Some(mut beside) = beside_for(alloc, setup, 1) else {
        return false;
    };
    let publisher = publisher_beside(rt, setup, other.is_watched, &mut beside);
    let blank = Blank::new(u64::from(setup.nodes()) + 1);
    let is_told = used_by::<Brand, R>(rt, way, setup, publisher, &mut beside, blank, seats, other);
    drop(beside);
    is_told
}

fn used_by<L: Naming, R: Wait>(
    rt: &R,
    way: Way,
    setup: Setup,
    publisher: Option<Publisher>,
    beside: &mut Beside,
    blank: Blank,
    seats: &mut Vec<Seat>,
    other: &Other,
) -> bool
    requires setup { (setup ≡ L.setup) × ((state_of beside.old.procedure).setup ≡ L.setup) }
    requires publisher { (name_of publisher ≡ L.publisher) × (beside.old.watchers ≡ L.publisher) }
    requires new { IfSome publisher (λ p. (p.publisher.setup ≡ setup) × (p.shown ≡ []) × (p.taken ≡ [])) }
    requires name { blank.name ≡ L.name }
    requires parts { (blank.parts ≡ L.parts) × (L.parts ≡ L.setup.nodes + 1) }
{
    match open::<L, R>(rt, beside.alloc, way, setup, publisher, blank) {
        Some(opened) => goes_as_told(rt, opened, beside, seats, other),
        None => false,
    }
}

fn goes_as_told<L: Naming, R: Wait>(
    rt: &R,
    mut opened: Opened<L>,
    beside: &mut Beside,
    seats: &mut Vec<Seat>,
    other: &Other,
) -> bool
    requires setup { (state_of beside.old.procedure).setup ≡ L.setup }
    requires watchers { beside.old.watchers ≡ L.publisher }
{
    swap(seats, &mut opened.seats, other);
    ask_all(rt, &mut opened, beside, other.asks);
    if other.goes_back {
        swap(seats, &mut opened.seats, other);
    }
    ends_as(rt, opened, beside, &[], other.told)
}

// The two seats change places.
fn swap(seats: &mut Vec<Seat>, others: &mut Vec<Seat>, other: &Other) {
    let (Some(seat), Some(strange)) = (seats.get_mut(other.actor), others.get_mut(other.place))
    else {
        return;
    };
    mem::swap(seat, strange);
}
