use super::opened::Opened;
use super::trying::{Outcome, Text, Trial};
use bully_group::{Closed, FinishFault, Naming};
use std::sync::Wait;

/// A group that is finished. All of it comes back where that is refused.
pub fn finish_call<L: Naming, R: Print + Wait>(
    trial: &Trial<R>,
    opened: Opened<L>,
) -> Option<Outcome> {
    let before = opened.text(trial.alloc);
    trial.begin();
    let answer = opened.finish();
    trial.end();
    match answer {
        Ok(closed) => closed_outcome(trial, false, closed),
        Err((opened, fault)) => finish_again(trial, opened, fault, &before),
    }
}

// What came back must read as before, and is finished then.
fn finish_again<L: Naming, R: Print + Wait>(
    trial: &Trial<R>,
    opened: Opened<L>,
    fault: FinishFault,
    before: &Text,
) -> Option<Outcome> {
    if fault != FinishFault::OutOfMemory || !opened.text(trial.alloc).is_same(before) {
        opened.end(trial.rt);
        return None;
    }
    match opened.finish() {
        Ok(closed) => closed_outcome(trial, true, closed),
        Err((opened, _)) => {
            opened.end(trial.rt);
            None
        }
    }
}

// The outcome of a finish: all that can be read of the finished group, which is ended.
fn closed_outcome<R: Print + Wait>(
    trial: &Trial<R>,
    was_refused: bool,
    closed: Closed,
) -> Option<Outcome> {
    let text = Text::of_both(trial.alloc, closed.view(), &closed.history());
    closed.end(trial.rt);
    trial.tell(was_refused, &text)
}
