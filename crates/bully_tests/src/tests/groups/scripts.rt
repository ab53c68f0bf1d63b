//! The groups that are tried.

use super::asks::{Action, Ask, Call, Case};
use super::observers::Place;
use bully_calls::Answer;

/// Each is tried on a bare `Locked`, and through the lock of a `Group`.
pub const CASES: &[Case] = &[
    SMALL_GROUP,
    ALONE_BY_TURNS,
    TURNS_IN_PLACE,
    TURNS_AND_A_STOP,
    NODE_TURNS,
    DROPPED_CALL,
    STALE_PLAN,
    KEPT_PROCEDURES,
    FULL_GROUP,
];

// Node 1 recovers, is resynced and moves. The view after a step; what isn't its actor's, what is refused, a serve
// without a call, and a publish where nobody watches.
const SMALL_GROUP: Case = Case {
    nodes: 1,
    partitions: 2,
    events_max: 10,
    is_watched: false,
    node: 1,
    asks: &[
        Ask::By(0, Call::View),
        Ask::By(0, Call::Step(Action::Recover, 1)),
        Ask::By(0, Call::View),
        Ask::By(1, Call::Turn),
        Ask::By(1, Call::Turn),
        Ask::By(1, Call::Step(Action::Crash, 1)),
        Ask::By(0, Call::Step(Action::Recover, 1)),
        Ask::By(1, Call::Serve),
        Ask::By(0, Call::Serve),
        Ask::By(0, Call::Publish(Place::First, 1)),
    ],
    other: None,
    told: "0 Down
Ok(())
1 Election
Resynced Asking(2) 0
Went Halting(0) 0
Err(NotYours)
Err(Refused(IsUp))
Ok(false)
Err(NotYours)
NotWatched
a seat less: SeatCount
a pass less: SeatCount
entries: 2
2 Election
",
    history: &[
        (0, Action::Recover, 1, Answer::Done),
        (1, Action::Move, 1, Answer::Done),
    ],
};

// Alone, a node elects itself by its turns; at Planning it waits until its procedure is prepared.
const ALONE_BY_TURNS: Case = Case {
    nodes: 1,
    partitions: 2,
    events_max: 6,
    is_watched: false,
    node: 1,
    asks: &[
        Ask::By(0, Call::Step(Action::Recover, 1)),
        Ask::By(1, Call::Turn),
        Ask::By(1, Call::Turn),
        Ask::By(1, Call::Turn),
        Ask::By(1, Call::Turn),
        Ask::By(1, Call::Turn),
        Ask::Prepare,
        Ask::By(1, Call::Turn),
        Ask::By(1, Call::Turn),
        Ask::By(1, Call::Turn),
    ],
    other: None,
    told: "Ok(())
Resynced Asking(2) 0
Went Halting(0) 0
Went Announcing to nobody 0
Went Planning 0
Waiting Planning 0
prepared
Went Readying to nobody 0
Went Idle 0
Waiting Idle 0
a seat less: SeatCount
a pass less: SeatCount
entries: 6
6 Normal
",
    history: &[
        (0, Action::Recover, 1, Answer::Done),
        (1, Action::Move, 1, Answer::Done),
        (1, Action::Move, 1, Answer::Done),
        (1, Action::Move, 1, Answer::Done),
        (1, Action::Plan("1 1"), 1, Answer::Done),
        (1, Action::Move, 1, Answer::Done),
    ],
};

// The procedure goes on where it lies, and stays as it was where the seat isn't its node's.
const TURNS_IN_PLACE: Case = Case {
    nodes: 1,
    partitions: 2,
    events_max: 10,
    is_watched: false,
    node: 1,
    asks: &[
        Ask::By(1, Call::TurnInPlace),
        Ask::By(0, Call::Step(Action::Recover, 1)),
        Ask::By(1, Call::TurnInPlace),
        Ask::By(1, Call::TurnInPlace),
        Ask::By(0, Call::TurnInPlace),
        Ask::By(1, Call::Entries),
    ],
    other: None,
    told: "Waiting Idle 0
Ok(())
Resynced Asking(2) 0
Went Halting(0) 0
NotYours
1
a seat less: SeatCount
a pass less: SeatCount
entries: 2
2 Election
",
    history: &[
        (0, Action::Recover, 1, Answer::Done),
        (1, Action::Move, 1, Answer::Done),
    ],
};

// Node 1 elects itself while node 2 is down, and plans. Then node 2 recovers and halts it: the plan is given up.
const TURNS_AND_A_STOP: Case = Case {
    nodes: 2,
    partitions: 2,
    events_max: 100,
    is_watched: false,
    node: 1,
    asks: &[
        Ask::By(0, Call::Step(Action::Recover, 1)),
        Ask::By(1, Call::Turn),
        Ask::By(1, Call::Turn),
        Ask::By(1, Call::Turn),
        Ask::By(1, Call::Turn),
        Ask::By(1, Call::Turn),
        Ask::By(1, Call::Turn),
        Ask::By(1, Call::Turn),
        Ask::Prepare,
        Ask::By(0, Call::Step(Action::Recover, 2)),
        Ask::By(2, Call::Step(Action::Move, 2)),
        Ask::By(2, Call::Step(Action::Start, 2)),
        Ask::By(1, Call::Serve),
        Ask::By(1, Call::Turn),
    ],
    other: None,
    told: "Ok(())
Resynced Asking(2) 0
Went Asking(2) 0
Went Asking(2) 0
Went Asking(3) 0
Went Halting(0) 0
Went Announcing to nobody 0
Went Planning 0
prepared
Ok(())
Ok(())
Ok(())
Ok(true)
Resynced Idle 1
a seat less: SeatCount
a pass less: SeatCount
entries: 11
11 Election
",
    history: &[
        (0, Action::Recover, 1, Answer::Done),
        (1, Action::Start, 1, Answer::Done),
        (1, Action::Lose, 1, Answer::Done),
        (1, Action::Return, 1, Answer::Failed),
        (1, Action::Move, 1, Answer::Done),
        (1, Action::Move, 1, Answer::Done),
        (1, Action::Move, 1, Answer::Done),
        (0, Action::Recover, 2, Answer::Done),
        (2, Action::Move, 2, Answer::Done),
        (2, Action::Start, 2, Answer::Done),
        (1, Action::Run, 2, Answer::Yes),
    ],
};

// Node 1 takes whole turns. Node 2 recovers and halts it: the Halt runs by such a turn, which leaves the procedure as
// it was, and the next one resyncs. Then there is nothing to do; with a procedure of node 1, no other actor has a turn.
const NODE_TURNS: Case = Case {
    nodes: 2,
    partitions: 2,
    events_max: 100,
    is_watched: false,
    node: 1,
    asks: &[
        Ask::By(0, Call::Step(Action::Recover, 1)),
        Ask::By(1, Call::NodeTurn),
        Ask::By(1, Call::NodeTurn),
        Ask::By(1, Call::NodeTurn),
        Ask::By(1, Call::NodeTurn),
        Ask::By(0, Call::Step(Action::Recover, 2)),
        Ask::By(2, Call::Step(Action::Move, 2)),
        Ask::By(2, Call::Step(Action::Start, 2)),
        Ask::By(1, Call::NodeTurn),
        Ask::By(1, Call::NodeTurn),
        Ask::By(1, Call::NodeTurn),
        Ask::By(2, Call::NodeTurn),
        Ask::By(0, Call::NodeTurn),
    ],
    other: None,
    told: "Ok(())
Resynced Asking(2) 0
Went Asking(2) 0
Went Asking(2) 0
Went Asking(3) 0
Ok(())
Ok(())
Ok(())
Served Asking(3) 0
Resynced Idle 1
Waiting Idle 1
NotYours
NotYours
a seat less: SeatCount
a pass less: SeatCount
entries: 8
8 Election
",
    history: &[
        (0, Action::Recover, 1, Answer::Done),
        (1, Action::Start, 1, Answer::Done),
        (1, Action::Lose, 1, Answer::Done),
        (1, Action::Return, 1, Answer::Failed),
        (0, Action::Recover, 2, Answer::Done),
        (2, Action::Move, 2, Answer::Done),
        (2, Action::Start, 2, Answer::Done),
        (1, Action::Run, 2, Answer::Yes),
    ],
};

// Node 2 is halted while its Ready is under way, and starts a new election; its turn drops the orphan, and the next one
// starts the call of that election.
const DROPPED_CALL: Case = Case {
    nodes: 3,
    partitions: 2,
    events_max: 100,
    is_watched: false,
    node: 2,
    asks: &[
        Ask::By(0, Call::Step(Action::Recover, 1)),
        Ask::By(0, Call::Step(Action::Recover, 2)),
        Ask::By(2, Call::Step(Action::Start, 2)),
        Ask::By(2, Call::Step(Action::Lose, 2)),
        Ask::By(2, Call::Step(Action::Return, 2)),
        Ask::By(2, Call::Step(Action::Move, 2)),
        Ask::By(2, Call::Step(Action::Start, 2)),
        Ask::By(1, Call::Step(Action::Run, 2)),
        Ask::By(2, Call::Step(Action::Return, 2)),
        Ask::By(2, Call::Step(Action::Move, 2)),
        Ask::By(2, Call::Step(Action::Start, 2)),
        Ask::By(1, Call::Step(Action::Run, 2)),
        Ask::By(2, Call::Step(Action::Return, 2)),
        Ask::By(2, Call::Step(Action::Move, 2)),
        Ask::By(2, Call::Step(Action::Plan("1 2"), 2)),
        Ask::By(2, Call::Step(Action::Start, 2)),
        Ask::By(0, Call::Step(Action::Recover, 3)),
        Ask::By(3, Call::Step(Action::Move, 3)),
        Ask::By(3, Call::Step(Action::Start, 3)),
        Ask::By(2, Call::Step(Action::Run, 3)),
        Ask::By(0, Call::Step(Action::Crash, 3)),
        Ask::By(2, Call::Step(Action::Timeout, 2)),
        Ask::By(2, Call::Turn),
        Ask::By(2, Call::Turn),
        Ask::By(2, Call::Turn),
    ],
    other: None,
    told: "Ok(())
Ok(())
Ok(())
Ok(())
Ok(())
Ok(())
Ok(())
Ok(())
Ok(())
Ok(())
Ok(())
Ok(())
Ok(())
Ok(())
Ok(())
Ok(())
Ok(())
Ok(())
Ok(())
Ok(())
Ok(())
Ok(())
Resynced Asking(3) 1
Went Asking(3) 1
Went Asking(3) 1
a seat less: SeatCount
a pass less: SeatCount
entries: 24
24 Election
",
    history: &[
        (0, Action::Recover, 1, Answer::Done),
        (0, Action::Recover, 2, Answer::Done),
        (2, Action::Start, 2, Answer::Done),
        (2, Action::Lose, 2, Answer::Done),
        (2, Action::Return, 2, Answer::Failed),
        (2, Action::Move, 2, Answer::Done),
        (2, Action::Start, 2, Answer::Done),
        (1, Action::Run, 2, Answer::Yes),
        (2, Action::Return, 2, Answer::Yes),
        (2, Action::Move, 2, Answer::Done),
        (2, Action::Start, 2, Answer::Done),
        (1, Action::Run, 2, Answer::Yes),
        (2, Action::Return, 2, Answer::Yes),
        (2, Action::Move, 2, Answer::Done),
        (2, Action::Plan("1 2"), 2, Answer::Done),
        (2, Action::Start, 2, Answer::Done),
        (0, Action::Recover, 3, Answer::Done),
        (3, Action::Move, 3, Answer::Done),
        (3, Action::Start, 3, Answer::Done),
        (2, Action::Run, 3, Answer::Yes),
        (0, Action::Crash, 3, Answer::Done),
        (2, Action::Timeout, 2, Answer::Done),
        (2, Action::Drop, 2, Answer::Discarded),
        (2, Action::Start, 2, Answer::Done),
    ],
};

// Node 2 plans for itself, and keeps the plan over an election in which node 1 is up: another up set, and the same
// generation.
const STALE_PLAN: Case = Case {
    nodes: 2,
    partitions: 2,
    events_max: 100,
    is_watched: false,
    node: 2,
    asks: &[
        Ask::By(0, Call::Step(Action::Recover, 2)),
        Ask::By(2, Call::Turn),
        Ask::By(2, Call::Turn),
        Ask::By(2, Call::Turn),
        Ask::By(2, Call::Turn),
        Ask::By(2, Call::Turn),
        Ask::By(2, Call::Turn),
        Ask::By(2, Call::Turn),
        Ask::Prepare,
        Ask::By(2, Call::Step(Action::Plan("2 2"), 2)),
        Ask::By(2, Call::Step(Action::Move, 2)),
        Ask::By(2, Call::Step(Action::Check, 2)),
        Ask::By(0, Call::Step(Action::Recover, 1)),
        Ask::By(2, Call::Step(Action::Start, 2)),
        Ask::By(1, Call::Step(Action::Run, 2)),
        Ask::By(2, Call::Step(Action::Return, 2)),
        Ask::By(2, Call::Step(Action::Move, 2)),
        Ask::By(2, Call::Step(Action::Start, 2)),
        Ask::By(1, Call::Step(Action::Run, 2)),
        Ask::By(2, Call::Step(Action::Return, 2)),
        Ask::By(2, Call::Step(Action::Move, 2)),
        Ask::By(2, Call::Step(Action::Start, 2)),
        Ask::By(1, Call::Step(Action::Run, 2)),
        Ask::By(2, Call::Step(Action::Return, 2)),
        Ask::By(2, Call::Step(Action::Move, 2)),
        Ask::By(2, Call::Turn),
    ],
    other: None,
    told: "Ok(())
Resynced Asking(3) 0
Went Halting(1) 0
Went Halting(1) 0
Went Halting(1) 0
Went Halting(0) 0
Went Announcing to nobody 0
Went Planning 0
prepared
Ok(())
Ok(())
Ok(())
Ok(())
Ok(())
Ok(())
Ok(())
Ok(())
Ok(())
Ok(())
Ok(())
Ok(())
Ok(())
Ok(())
Ok(())
Ok(())
Resynced Planning 0
a seat less: SeatCount
a pass less: SeatCount
entries: 23
23 Reorganization
",
    history: &[],
};

// A procedure that was kept over a crash is resynced, and so is one over the next.
const KEPT_PROCEDURES: Case = Case {
    nodes: 1,
    partitions: 2,
    events_max: 100,
    is_watched: false,
    node: 1,
    asks: &[
        Ask::By(0, Call::Step(Action::Recover, 1)),
        Ask::By(1, Call::Turn),
        Ask::By(0, Call::Step(Action::Crash, 1)),
        Ask::By(0, Call::Step(Action::Recover, 1)),
        Ask::By(1, Call::Turn),
        Ask::By(0, Call::Step(Action::Crash, 1)),
        Ask::By(1, Call::Turn),
        Ask::By(1, Call::Turn),
    ],
    other: None,
    told: "Ok(())
Resynced Asking(2) 0
Ok(())
Ok(())
Resynced Asking(2) 1
Ok(())
Resynced Idle 2
Waiting Idle 2
a seat less: SeatCount
a pass less: SeatCount
entries: 4
4 Down
",
    history: &[],
};

// Where the bound on events is reached, a resync is still no step.
const FULL_GROUP: Case = Case {
    nodes: 1,
    partitions: 2,
    events_max: 1,
    is_watched: false,
    node: 1,
    asks: &[
        Ask::By(0, Call::Step(Action::Recover, 1)),
        Ask::By(1, Call::Turn),
        Ask::By(1, Call::Turn),
        Ask::By(1, Call::NodeTurn),
    ],
    other: None,
    told: "Ok(())
Resynced Asking(2) 0
Refused(Full)
Refused(Full)
a seat less: SeatCount
a pass less: SeatCount
entries: 1
1 Election
",
    history: &[],
};
