ghost use Rattle.std.specs.Prelude.{◌≡◌, ◌+◌, IfErr, None};

use super::changes::{Change, change_call};
use super::finished::finish_call;
use super::opened::{OPERATOR, Opened};
use super::trying::{Outcome, Trial};
use super::watched::history_call;
use bully_base::Setup;
use bully_group::{Group, Locked, Naming};
use bully_world::Event;
use std::alloc::Global;
use std::marker::Brand;
use std::sync::Wait;
use std::sync::ledger::Blank;

/// A call on a group of three nodes that nobody watches, or on its history.
#[derive(Clone, Copy)]
pub enum Asked {
    Open,
    OpenShared,
    Change(Change),
    View,
    Finish,
    PublishHistory,
}

pub fn group_call<R: Print + Wait>(trial: &Trial<R>, asked: Asked) -> Option<Outcome> {
    let setup = trial.setup;
    let blank = Blank::new(u64::from(setup.nodes()) + 1);
    tried_by::<Brand, R>(trial, asked, setup, blank)
}

// Opens the group, which is the call or comes before it. It is opened again where that is refused: the blank comes back
// then.
fn tried_by<L: Naming, R: Print + Wait>(
    trial: &Trial<R>,
    asked: Asked,
    setup: Setup,
    blank: Blank,
) -> Option<Outcome>
    requires setup { setup ≡ L.setup }
    requires unwatched { L.publisher ≡ None }
    requires name { blank.name ≡ L.name }
    requires parts { (blank.parts ≡ L.parts) × (L.parts ≡ L.setup.nodes + 1) }
{
    let is_call = matches!(asked, Asked::Open | Asked::OpenShared);
    if is_call {
        trial.begin();
    }
    let answer = open_by::<L>(trial.alloc, asked, setup, blank);
    if is_call {
        trial.end();
    }
    match answer {
        Ok(opened) => opened_call(trial, asked, false, opened),
        Err(blank) => match open_by::<L>(trial.alloc, asked, setup, blank) {
            Ok(opened) => opened_call(trial, asked, true, opened),
            Err(_) => None,
        },
    }
}

// A group that is opened bare, or with its lock, which is taken off.
fn open_by<L: Naming>(
    alloc: Global,
    asked: Asked,
    setup: Setup,
    blank: Blank,
) -> Result<Opened<L>, Blank>
    requires setup { setup ≡ L.setup }
    requires unwatched { L.publisher ≡ None }
    requires name { blank.name ≡ L.name }
    requires parts { (blank.parts ≡ L.parts) × (L.parts ≡ L.setup.nodes + 1) }
    ensures { IfErr result (λ back. back ≡ blank) }
{
    match asked {
        Asked::OpenShared => match Group::<L>::open(alloc, setup, blank) {
            Ok((group, seats, passes)) => Ok(Opened::of(group.close(), seats, passes)),
            Err((_, blank)) => Err(blank),
        },
        _ => match Locked::<L>::open(alloc, setup, blank) {
            Ok((locked, seats, passes)) => Ok(Opened::of(locked, seats, passes)),
            Err((_, blank)) => Err(blank),
        },
    }
}

// A call on a group after those events that come before it. The group is ended then; the call that opened it was
// refused at first, or not.
fn opened_call<L: Naming, R: Print + Wait>(
    trial: &Trial<R>,
    asked: Asked,
    was_refused: bool,
    opened: Opened<L>,
) -> Option<Outcome> {
    let mut opened = opened;
    if !opened.play(events_before(trial, asked)) {
        opened.end(trial.rt);
        return None;
    }
    let outcome = match asked {
        Asked::Finish => return finish_call(trial, opened),
        Asked::Open | Asked::OpenShared => trial.tell(was_refused, &opened.text(trial.alloc)),
        Asked::PublishHistory => history_call(trial, &opened.locked),
        Asked::View => view_call(trial, &opened),
        Asked::Change(change) => change_call(trial, change, &mut opened),
    };
    opened.end(trial.rt);
    outcome
}

// Those events of the election that come before the call.
fn events_before<'a, R: Print>(trial: &Trial<'a, R>, asked: Asked) -> &'a [Event] {
    match asked {
        Asked::Open | Asked::OpenShared => &[],
        Asked::Change(Change::Serve) => trial.before_run,
        Asked::Change(_) | Asked::View => trial.before_plan,
        Asked::Finish | Asked::PublishHistory => trial.events,
    }
}

fn view_call<L: Naming, R: Print>(trial: &Trial<R>, opened: &Opened<L>) -> Option<Outcome> {
    let Some(seat) = opened.seats.get(OPERATOR) else {
        return None;
    };
    trial.begin();
    trial.outcome(opened.locked.view(seat), "OutOfMemory")
}
