use super::trying::{Outcome, Text, Trial};
use bully_agree::{Walk, run, run_whole, view};
use bully_base::{EVENTS_MAX, Node, Setup};
use bully_calls::Answer;
use bully_rows::{Row, read_trace};
use bully_steps::{Planning, Procedure};
use bully_table::PlanFault;
use bully_watch::Entry;
use bully_world::{Event, World};
use std::alloc::Global;

/// An election of three nodes: node 3 halts the others, announces itself, plans and sends its table.
pub const ELECTION: &str = "bully,1,3,4
recover,1
recover,2
recover,3
move,3
start,3
run,3
return,3
start,3
run,3
return,3
move,3
start,3
run,3
return,3
start,3
run,3
return,3
move,3
plan,3,1 2 3 1
start,3
run,3
return,3
start,3
run,3
return,3
move,3
";

// How many of its events come before the plan, and before the run of its first call.
const BEFORE_PLAN: usize = 18;

const BEFORE_RUN: usize = 5;

/// Tries a call with these events, which are those of the election; it was refused memory before, or not.
pub fn trial_of<'a, R: Print>(
    rt: &'a R,
    alloc: Global,
    is_again: bool,
    events: &'a [Event],
) -> Option<Trial<'a, R>> {
    let Ok(setup) = Setup::new(3, 4, EVENTS_MAX) else {
        return None;
    };
    let Some((before_plan, rest)) = events.split_at_checked(BEFORE_PLAN) else {
        return None;
    };
    let (Some((before_run, _)), Some(plan)) = (
        before_plan.split_at_checked(BEFORE_RUN),
        rest.first(),
    ) else {
        return None;
    };
    Some(Trial {
        rt,
        alloc,
        is_again,
        setup,
        events,
        before_run,
        before_plan,
        plan,
    })
}

/// The events of this trace.
pub fn events_in(alloc: Global, text: &str) -> Option<Vec<Event>> {
    let Ok(trace) = read_trace(alloc, text.as_bytes()) else {
        return None;
    };
    let mut events = Vec::new(alloc);
    for row in trace.rows.into_vec() {
        if let Row::Event(event) = row {
            if events.push(event).is_err() {
                return None;
            }
        }
    }
    Some(events)
}

/// A call that goes over the events of the election, or copies its plan.
#[derive(Clone, Copy)]
pub enum EventCall {
    Run,
    RunWhole,
    CopyEvent,
    CopyEntry,
    View,
    WalkView,
    /// It takes no memory: it is tried with all of the events.
    Apply,
    Prepare,
    PrepareInPlace,
}

pub fn event_call<R: Print>(trial: &Trial<R>, call: EventCall) -> Option<Outcome> {
    let events = trial.events;
    match call {
        EventCall::Run => {
            trial.begin();
            trial.outcome(run(trial.alloc, trial.setup, events), "OutOfMemory")
        }
        EventCall::RunWhole => {
            trial.begin();
            trial.outcome(run_whole(trial.alloc, trial.setup, events), "OutOfMemory")
        }
        EventCall::CopyEvent => {
            trial.begin();
            trial.outcome(trial.plan.copy(), "AllocError")
        }
        EventCall::CopyEntry => entry_copy_call(trial),
        EventCall::View => view_behind_call(trial),
        EventCall::WalkView | EventCall::Apply => walk_call(trial, call),
        EventCall::Prepare => prepare_call(trial),
        EventCall::PrepareInPlace => prepare_in_place_call(trial),
    }
}

fn entry_copy_call<R: Print>(trial: &Trial<R>) -> Option<Outcome> {
    let Ok(event) = trial.plan.copy() else {
        return None;
    };
    let entry = Entry {
        actor: 3,
        event,
        answer: Answer::Done,
    };
    trial.begin();
    trial.outcome(entry.copy(), "AllocError")
}

// A view of the world after all of the events.
fn view_behind_call<R: Print>(trial: &Trial<R>) -> Option<Outcome> {
    match run(trial.alloc, trial.setup, trial.events) {
        Ok((world, _)) => view_call(trial, &world),
        Err(_) => None,
    }
}

/// A view of this world.
pub fn view_call<R: Print>(trial: &Trial<R>, world: &World) -> Option<Outcome> {
    trial.begin();
    trial.outcome(view(trial.alloc, world), "AllocError")
}

fn walk_call<R: Print>(trial: &Trial<R>, call: EventCall) -> Option<Outcome> {
    let Ok(mut walk) = Walk::new(trial.alloc, trial.setup) else {
        return None;
    };
    match call {
        EventCall::Apply => apply_call(trial, &mut walk),
        _ => walk_view_call(trial, &mut walk),
    }
}

fn apply_call<R: Print>(trial: &Trial<R>, walk: &mut Walk) -> Option<Outcome> {
    trial.begin();
    let is_applied = apply(walk, trial.events);
    trial.end();
    if !is_applied {
        return None;
    }
    trial.tell(false, &Text::of(trial.alloc, walk))
}

fn walk_view_call<R: Print>(trial: &Trial<R>, walk: &mut Walk) -> Option<Outcome> {
    if !apply(walk, trial.events) {
        return None;
    }
    trial.begin();
    trial.outcome(walk.view(), "AllocError")
}

// Takes the walk after all of the events, and tells whether it comes there.
fn apply(walk: &mut Walk, events: &[Event]) -> bool {
    for event in events {
        if walk.apply(event).is_err() {
            return false;
        }
    }
    true
}

// The planning of node 3, which the events before the plan come to.
fn planning(alloc: Global, setup: Setup, events: &[Event]) -> Option<Planning> {
    match run(alloc, setup, events) {
        Ok((world, _)) => planning_in(&world),
        Err(_) => None,
    }
}

/// The planning of node 3 in a world in which it comes to that.
pub fn planning_in(world: &World) -> Option<Planning> {
    let Some(node) = Node::new(3) else {
        return None;
    };
    if world.setup().nodes() < node.number() {
        return None;
    }
    planning_of(world.procedure(node))
}

fn planning_of(procedure: Procedure) -> Option<Planning> {
    let Procedure::Planning(planning) = procedure else {
        return None;
    };
    Some(planning)
}

// A preparation where the procedure lies, which stays as it was where it is refused.
fn prepare_in_place_call<R: Print>(trial: &Trial<R>) -> Option<Outcome> {
    let Some(planning) = planning(trial.alloc, trial.setup, trial.before_plan) else {
        return None;
    };
    prepare_in_place(trial, &mut Procedure::Planning(planning))
}

fn prepare_in_place<R: Print>(trial: &Trial<R>, procedure: &mut Procedure) -> Option<Outcome> {
    let before = Text::of(trial.alloc, procedure);
    trial.begin();
    let was_refused = procedure.prepare(trial.alloc, None).is_err();
    trial.end();
    let is_prepared = !was_refused || is_prepared_again(trial.alloc, procedure, &before);
    if is_prepared {
        trial.tell(was_refused, &Text::of(trial.alloc, procedure))
    } else {
        None
    }
}

// What is left must read as before, and is prepared.
fn is_prepared_again(alloc: Global, procedure: &mut Procedure, before: &Text) -> bool {
    Text::of(alloc, procedure).is_same(before) && procedure.prepare(alloc, None).is_ok()
}

// A preparation, which hands the planning back where it is refused.
fn prepare_call<R: Print>(trial: &Trial<R>) -> Option<Outcome> {
    match planning(trial.alloc, trial.setup, trial.before_plan) {
        Some(planning) => prepare(trial, planning),
        None => None,
    }
}

fn prepare<R: Print>(trial: &Trial<R>, planning: Planning) -> Option<Outcome> {
    let before = Text::of(trial.alloc, &planning);
    trial.begin();
    let answer = planning.prepare(trial.alloc, None);
    trial.end();
    match answer {
        Ok(planned) => trial.tell(false, &Text::of(trial.alloc, &planned)),
        Err((planning, PlanFault::OutOfMemory)) => prepare_again(trial, planning, &before),
        Err(_) => None,
    }
}

// The planning that came back must read as before, and is prepared.
fn prepare_again<R: Print>(trial: &Trial<R>, planning: Planning, before: &Text) -> Option<Outcome> {
    if !Text::of(trial.alloc, &planning).is_same(before) {
        return None;
    }
    match planning.prepare(trial.alloc, None) {
        Ok(planned) => trial.tell(true, &Text::of(trial.alloc, &planned)),
        Err(_) => None,
    }
}
