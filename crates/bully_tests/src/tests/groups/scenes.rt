//! What is done with watched groups of one node, and what must be told of it.

use super::asks::{Action, Ask, Call, Case};
use super::observers::{Place, Watch, Which};

// Nothing is asked yet.
const WATCHED: Case = Case {
    nodes: 1,
    partitions: 2,
    events_max: 2_000,
    is_watched: true,
    node: 1,
    asks: &[],
    other: None,
    told: "",
    history: &[],
};

/// Each is tried on a bare `Locked`, and through the lock of a `Group`.
pub const SCENES: &[Case] = &[
    // An observer learns of each publish, and looks.
    Case {
        asks: &[
            Ask::By(0, Call::Step(Action::Recover, 1)),
            Ask::By(0, Call::Publish(Place::First, 1)),
            Ask::Watch(Watch::Learn(Which::First, Place::First)),
            Ask::Watch(Watch::Look(Which::First)),
            Ask::By(0, Call::Step(Action::Crash, 1)),
            Ask::By(0, Call::Publish(Place::First, 1)),
            Ask::Watch(Watch::Learn(Which::First, Place::First)),
            Ask::Watch(Watch::Look(Which::First)),
        ],
        told: "Ok(())
1 Election
Ok(())
2 Down
a seat less: SeatCount
a pass less: SeatCount
entries: 2
2 Down
2 Down
Gone
",
        ..WATCHED
    },
    // Both look between any two calls. They see what was published last, learned or not, and nothing that wasn't.
    Case {
        asks: &[
            Ask::Watch(Watch::Look(Which::First)),
            Ask::By(0, Call::Step(Action::Recover, 1)),
            Ask::By(0, Call::Publish(Place::First, 1)),
            Ask::Watch(Watch::Look(Which::First)),
            Ask::Watch(Watch::Learn(Which::First, Place::First)),
            Ask::Watch(Watch::Look(Which::First)),
            Ask::By(0, Call::Publish(Place::First, 1)),
            Ask::Watch(Watch::Learn(Which::Second, Place::First)),
            Ask::Watch(Watch::Look(Which::Second)),
            Ask::By(0, Call::Step(Action::Crash, 1)),
            Ask::Watch(Watch::Look(Which::First)),
            Ask::By(0, Call::Publish(Place::First, 1)),
            Ask::Watch(Watch::Learn(Which::Second, Place::First)),
            Ask::Watch(Watch::Look(Which::Second)),
            Ask::Watch(Watch::Look(Which::First)),
        ],
        told: "0 Down
Ok(())
1 Election
1 Election
1 Election
Ok(())
1 Election
2 Down
2 Down
a seat less: SeatCount
a pass less: SeatCount
entries: 2
2 Down
2 Down
Gone
",
        ..WATCHED
    },
    // What was told first is learned after what was told later.
    Case {
        asks: &[
            Ask::By(0, Call::Step(Action::Recover, 1)),
            Ask::By(0, Call::Publish(Place::First, 1)),
            Ask::By(0, Call::Step(Action::Crash, 1)),
            Ask::By(0, Call::Publish(Place::Second, 1)),
            Ask::Watch(Watch::Learn(Which::First, Place::Second)),
            Ask::Watch(Watch::Learn(Which::First, Place::First)),
            Ask::Watch(Watch::Look(Which::First)),
        ],
        told: "Ok(())
Ok(())
2 Down
a seat less: SeatCount
a pass less: SeatCount
entries: 2
2 Down
2 Down
Gone
",
        ..WATCHED
    },
    // 120 told prefixes are kept: a publish is refused and shows nothing, until one is learned, and again until one is
    // dropped.
    Case {
        asks: &[
            Ask::By(0, Call::Publish(Place::First, 1)),
            Ask::By(0, Call::Publish(Place::Many, 119)),
            Ask::By(0, Call::Step(Action::Recover, 1)),
            Ask::By(0, Call::Publish(Place::Second, 1)),
            Ask::Watch(Watch::Look(Which::First)),
            Ask::Watch(Watch::Learn(Which::First, Place::First)),
            Ask::By(0, Call::Publish(Place::Second, 1)),
            Ask::Watch(Watch::Look(Which::First)),
            Ask::By(0, Call::Step(Action::Crash, 1)),
            Ask::By(0, Call::Publish(Place::First, 1)),
            Ask::Watch(Watch::Look(Which::Second)),
            Ask::Watch(Watch::Forget(Place::Second)),
            Ask::By(0, Call::Publish(Place::First, 1)),
            Ask::Watch(Watch::Learn(Which::Second, Place::First)),
            Ask::Watch(Watch::Look(Which::Second)),
        ],
        told: "Ok(())
OutOfMemory
0 Down
1 Election
Ok(())
OutOfMemory
1 Election
2 Down
a seat less: SeatCount
a pass less: SeatCount
entries: 2
2 Down
2 Down
Gone
",
        ..WATCHED
    },
    // 120 are kept, and 130 are asked for. Then a crash isn't shown, until all of them are dropped.
    Case {
        asks: &[
            Ask::By(0, Call::Step(Action::Recover, 1)),
            Ask::By(0, Call::Publish(Place::First, 1)),
            Ask::Watch(Watch::Learn(Which::First, Place::First)),
            Ask::Watch(Watch::Look(Which::First)),
            Ask::By(0, Call::Publish(Place::Many, 130)),
            Ask::By(0, Call::Step(Action::Crash, 1)),
            Ask::By(0, Call::Publish(Place::First, 1)),
            Ask::Watch(Watch::Look(Which::First)),
            Ask::Watch(Watch::ForgetMany),
            Ask::By(0, Call::Publish(Place::First, 1)),
            Ask::Watch(Watch::Learn(Which::First, Place::First)),
            Ask::Watch(Watch::Look(Which::First)),
        ],
        told: "Ok(())
1 Election
OutOfMemory
OutOfMemory
OutOfMemory
OutOfMemory
OutOfMemory
OutOfMemory
OutOfMemory
OutOfMemory
OutOfMemory
OutOfMemory
Ok(())
OutOfMemory
1 Election
2 Down
a seat less: SeatCount
a pass less: SeatCount
entries: 2
2 Down
2 Down
Gone
",
        ..WATCHED
    },
    // A new group, one after 1 and 2 publishes, and one after 1,000 of as many events: each look and view has memory.
    Case {
        asks: &[
            Ask::By(0, Call::View),
            Ask::By(1, Call::View),
            Ask::Watch(Watch::Look(Which::First)),
            Ask::By(0, Call::Step(Action::Recover, 1)),
            Ask::By(0, Call::Publish(Place::First, 1)),
            Ask::Watch(Watch::Look(Which::First)),
            Ask::By(0, Call::Step(Action::Crash, 1)),
            Ask::By(0, Call::Publish(Place::First, 1)),
            Ask::Watch(Watch::Look(Which::First)),
            Ask::By(0, Call::Rounds(499)),
            Ask::By(0, Call::View),
            Ask::By(1, Call::View),
            Ask::Watch(Watch::Look(Which::Second)),
        ],
        told: "0 Down
0 Down
0 Down
Ok(())
1 Election
Ok(())
2 Down
1000 Down
1000 Down
1000 Down
a seat less: SeatCount
a pass less: SeatCount
entries: 1000
1000 Down
1000 Down
Gone
",
        ..WATCHED
    },
];
