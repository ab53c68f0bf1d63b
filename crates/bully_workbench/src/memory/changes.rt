use super::opened::Opened;
use super::trying::{Outcome, Text, Trial};
use super::worlds::planning_in;
use bully_group::{Locked, Naming, NodeTurn, Pass, Seat, StepFault, Turn};
use bully_steps::Procedure;
use std::alloc::Global;

// The places of the seats of node 2 and of node 3.
const SECOND: usize = 2;

const THIRD: usize = 3;

/// A call that changes a group.
#[derive(Clone, Copy)]
pub enum Change {
    /// Node 3 plans, so that its entry has the table.
    Step,
    /// Node 2 runs node 3's halt.
    Serve,
    /// Node 3 takes its turn with the planned procedure, which comes back in any case.
    Turn,
    /// The same, where the procedure lies.
    TurnInPlace,
    /// The same, as the whole turn.
    NodeTurn,
}

/// A call that changes the group, where that is due.
pub fn change_call<L: Naming, R: Print>(
    trial: &Trial<R>,
    change: Change,
    opened: &mut Opened<L>,
) -> Option<Outcome> {
    let mut held = planned(trial.alloc, opened);
    change_with(trial, change, opened, &mut held)
}

// The procedure of node 3, with its table.
fn planned<L: Naming>(alloc: Global, opened: &Opened<L>) -> Option<Procedure> {
    let Some(planning) = planning_in(opened.locked.world()) else {
        return None;
    };
    match planning.prepare(alloc, None) {
        Ok(planned) => Some(Procedure::Planned(planned)),
        Err(_) => None,
    }
}

// The same with the procedure. It is made again on what a refusal left, which must read as before.
fn change_with<L: Naming, R: Print>(
    trial: &Trial<R>,
    change: Change,
    opened: &mut Opened<L>,
    held: &mut Option<Procedure>,
) -> Option<Outcome> {
    let before = text_with(trial.alloc, opened, held);
    trial.begin();
    let was_refused = make(trial, change, opened, held);
    trial.end();
    let Some(was_refused) = was_refused else {
        return None;
    };
    if was_refused && !is_made_again(trial, change, opened, held, &before) {
        return None;
    }
    trial.tell(was_refused, &text_with(trial.alloc, opened, held))
}

// Whether all reads as before, and the call is made.
fn is_made_again<L: Naming, R: Print>(
    trial: &Trial<R>,
    change: Change,
    opened: &mut Opened<L>,
    held: &mut Option<Procedure>,
    before: &Text,
) -> bool {
    text_with(trial.alloc, opened, held).is_same(before)
        && matches!(make(trial, change, opened, held), Some(false))
}

// All that can be read of the group and the procedure.
fn text_with<L: Naming>(alloc: Global, opened: &Opened<L>, held: &Option<Procedure>) -> Text {
    let mut text = opened.text(alloc);
    text.add(held);
    text
}

// Makes the call: whether it was refused memory. None where it wasn't made for another cause.
fn make<L: Naming, R: Print>(
    trial: &Trial<R>,
    change: Change,
    opened: &mut Opened<L>,
    held: &mut Option<Procedure>,
) -> Option<bool> {
    let place = match change {
        Change::Serve => SECOND,
        _ => THIRD,
    };
    let (Some(seat), Some(pass)) = (opened.seats.get_mut(place), opened.passes.get_mut(place))
    else {
        return None;
    };
    let locked = &mut opened.locked;
    match change {
        Change::Step => refusal_of(locked.step(seat, trial.plan, pass)),
        Change::Serve => served(locked, seat, pass),
        Change::Turn => turned(locked, seat, pass, held),
        _ => turned_in_place(locked, seat, pass, held, matches!(change, Change::NodeTurn)),
    }
}

// Whether a step was refused memory. None where it was for another cause.
fn refusal_of(step: Result<(), StepFault>) -> Option<bool> {
    match step {
        Ok(()) => Some(false),
        Err(StepFault::OutOfMemory) => Some(true),
        Err(_) => None,
    }
}

// None, too, where nothing is to be served.
fn served<L: Naming>(locked: &mut Locked<L>, seat: &mut Seat, pass: &mut Pass<L>) -> Option<bool> {
    match locked.serve(seat, pass) {
        Ok(true) => Some(false),
        Ok(false) => None,
        Err(fault) => refusal_of(Err(fault)),
    }
}

fn turned<L: Naming>(
    locked: &mut Locked<L>,
    seat: &mut Seat,
    pass: &mut Pass<L>,
    held: &mut Option<Procedure>,
) -> Option<bool> {
    let Some(procedure) = held.take() else {
        return None;
    };
    let (back, was_refused) = turned_by(locked, seat, pass, procedure);
    *held = Some(back);
    was_refused
}

// A turn with the procedure, which comes back. None, too, where no step is taken, or it is no procedure of the group.
fn turned_by<L: Naming>(
    locked: &mut Locked<L>,
    seat: &mut Seat,
    pass: &mut Pass<L>,
    procedure: Procedure,
) -> (Procedure, Option<bool>) {
    if *procedure.setup() != *locked.setup() {
        return (procedure, None);
    }
    match locked.turn(seat, procedure, pass) {
        Turn::Went(back) => (back, Some(false)),
        Turn::Waiting(back) | Turn::Resynced(back) => (back, None),
        Turn::Fault(back, fault) => (back, refusal_of(Err(fault))),
    }
}

// The same where the procedure stays where it lies, alone or as the whole turn.
fn turned_in_place<L: Naming>(
    locked: &mut Locked<L>,
    seat: &mut Seat,
    pass: &mut Pass<L>,
    held: &mut Option<Procedure>,
    is_whole: bool,
) -> Option<bool> {
    let Some(procedure) = held else {
        return None;
    };
    if *procedure.setup() != *locked.setup() {
        return None;
    }
    let turn = if is_whole {
        locked.serve_or_turn(seat, procedure, pass)
    } else {
        locked.turn_in_place(seat, procedure, pass)
    };
    match turn {
        Ok(NodeTurn::Served | NodeTurn::Went) => Some(false),
        Ok(NodeTurn::Waiting | NodeTurn::Resynced) => None,
        Err(fault) => refusal_of(Err(fault)),
    }
}
