ghost use Rattle.std.specs.Prelude.{◌≡◌, ◌+◌, [], IfSome, Some};
ghost use mathlib.Core.List.{IsPrefix};
ghost use Rattle.bully_watch.specs.History.{IsHistory};
ghost use Rattle.bully_world.specs.World.{World as WorldOf};

use super::opened::{OPERATOR, Opened};
use super::trying::{Outcome, Text, Trial};
use super::worlds::events_in;
use bully_base::Setup;
use bully_group::{Group, Locked, Naming, PublishFault};
use bully_watch::{Entry, Observer, OpenFault, Publisher};
use std::alloc::Global;
use std::marker::Brand;
use std::sync::Wait;
use std::sync::ledger::Blank;

// So many observers look, in the call that opens a publisher.
const OBSERVERS: u16 = 2;

// What a group of one node is watched at: it recovers.
const RECOVERY: &str = "bully,1,1,2
recover,1
";

// It crashes, and comes back twice, so that there is no room for all entries yet.
const CRASHES: &str = "bully,1,1,2
crash,1
recover,1
crash,1
recover,1
crash,1
";

/// A call on a watched group of one node.
#[derive(Clone, Copy)]
pub enum Watching {
    Open,
    Publish,
    Look,
}

/// A call that opens a publisher.
pub fn publisher_call<R: Print + Wait>(trial: &Trial<R>) -> Option<Outcome> {
    let Ok(setup) = Setup::new(1, 2, 10) else {
        return None;
    };
    trial.begin();
    let answer = Publisher::open(trial.rt, trial.alloc, setup, OBSERVERS);
    trial.end();
    match answer {
        Ok((publisher, observers)) => {
            let mut observers = observers;
            let text = looks_of(trial.alloc, observers.as_mut_slice());
            publisher.end(trial.rt);
            trial.tell(false, &text)
        }
        Err(OpenFault::OutOfMemory) => Some(Outcome::Refused),
        Err(_) => None,
    }
}

// What all of them see.
fn looks_of(alloc: Global, observers: &mut [Observer]) -> Text {
    let mut text = Text::new(alloc);
    for observer in observers.iter_mut() {
        text.add_text(&look_of(alloc, observer));
    }
    text
}

// What the observer sees.
fn look_of(alloc: Global, observer: &mut Observer) -> Text
    ensures { observer.new.publisher ≡ observer.old.publisher }
{
    match observer.look() {
        Ok(view) => Text::of(alloc, &view),
        Err(_) => Text::unread(alloc),
    }
}

// A publisher with one observer.
fn publisher_for<R: Wait>(rt: &R, alloc: Global, setup: Setup) -> Option<(Publisher, Observer)>
    ensures publisher { IfSome result (λ r. (r.0.publisher.setup ≡ setup) × (r.0.shown ≡ []) × (r.0.taken ≡ [])) }
    ensures observer { IfSome result (λ r. r.1.publisher ≡ r.0.publisher) }
{
    let Ok((publisher, mut observers)) = Publisher::open(rt, alloc, setup, 1) else {
        return None;
    };
    match observers.pop() {
        Some(observer) => Some((publisher, observer)),
        None => {
            publisher.end(rt);
            None
        }
    }
}

pub fn watching_call<R: Print + Wait>(trial: &Trial<R>, watching: Watching) -> Option<Outcome> {
    let Ok(setup) = Setup::new(1, 2, 10) else {
        return None;
    };
    let Some((publisher, observer)) = publisher_for(trial.rt, trial.alloc, setup) else {
        return None;
    };
    let blank = Blank::new(2);
    watched_by::<Brand, R>(trial, watching, setup, publisher, observer, blank)
}

// Opens the watched group, which is the call or comes before it. It is opened again where that is refused: publisher
// and blank come back then.
fn watched_by<L: Naming, R: Print + Wait>(
    trial: &Trial<R>,
    watching: Watching,
    setup: Setup,
    publisher: Publisher,
    observer: Observer,
    blank: Blank,
) -> Option<Outcome>
    requires setup { (setup ≡ L.setup) × (publisher.publisher.setup ≡ setup) }
    requires publisher { L.publisher ≡ Some publisher.publisher }
    requires new { (publisher.shown ≡ []) × (publisher.taken ≡ []) }
    requires observer { observer.publisher ≡ publisher.publisher }
    requires name { blank.name ≡ L.name }
    requires parts { (blank.parts ≡ L.parts) × (L.parts ≡ L.setup.nodes + 1) }
{
    let is_call = matches!(watching, Watching::Open);
    if is_call {
        trial.begin();
    }
    let answer = Group::<L>::open_watched(trial.alloc, setup, publisher, blank);
    if is_call {
        trial.end();
    }
    match answer {
        Ok((group, seats, passes)) => {
            let opened = Opened::of(group.close(), seats, passes);
            opened_call(trial, watching, false, opened, observer)
        }
        Err((publisher, _, blank)) => {
            match open_again::<L, R>(trial, setup, publisher, blank) {
                Some(opened) => opened_call(trial, watching, true, opened, observer),
                None => None,
            }
        }
    }
}

fn open_again<L: Naming, R: Print + Wait>(
    trial: &Trial<R>,
    setup: Setup,
    publisher: Publisher,
    blank: Blank,
) -> Option<Opened<L>>
    requires setup { (setup ≡ L.setup) × (publisher.publisher.setup ≡ setup) }
    requires publisher { L.publisher ≡ Some publisher.publisher }
    requires new { (publisher.shown ≡ []) × (publisher.taken ≡ []) }
    requires name { blank.name ≡ L.name }
    requires parts { (blank.parts ≡ L.parts) × (L.parts ≡ L.setup.nodes + 1) }
{
    match Group::<L>::open_watched(trial.alloc, setup, publisher, blank) {
        Ok((group, seats, passes)) => Some(Opened::of(group.close(), seats, passes)),
        Err((publisher, _, _)) => {
            publisher.end(trial.rt);
            None
        }
    }
}

// A call on a watched group, which is ended then; that of opening it was refused at first, or not.
fn opened_call<L: Naming, R: Print + Wait>(
    trial: &Trial<R>,
    watching: Watching,
    was_refused: bool,
    opened: Opened<L>,
    observer: Observer,
) -> Option<Outcome>
    requires { L.publisher ≡ Some observer.publisher }
{
    let (mut opened, mut observer) = (opened, observer);
    let outcome = match watching {
        Watching::Open => trial.tell(was_refused, &opened.text(trial.alloc)),
        _ => watched_call(trial, watching, &mut opened, &mut observer),
    };
    opened.end(trial.rt);
    outcome
}

fn watched_call<L: Naming, R: Print + Wait>(
    trial: &Trial<R>,
    watching: Watching,
    opened: &mut Opened<L>,
    observer: &mut Observer,
) -> Option<Outcome>
    requires { L.publisher ≡ Some observer.old.publisher }
{
    if !shows(trial.rt, trial.alloc, opened, observer) {
        return None;
    }
    match watching {
        Watching::Look => look_call(trial, observer),
        _ => crashes_call(trial, opened, observer),
    }
}

// Whether the recovery is taken, and published.
fn shows<L: Naming, R: Wait>(
    rt: &R,
    alloc: Global,
    opened: &mut Opened<L>,
    observer: &mut Observer,
) -> bool
    requires { L.publisher ≡ Some observer.old.publisher }
    ensures { observer.new.publisher ≡ observer.old.publisher }
{
    plays(alloc, opened, RECOVERY) && matches!(publish(rt, opened, observer), Some(false))
}

// Whether the events of this trace are taken.
fn plays<L: Naming>(alloc: Global, opened: &mut Opened<L>, text: &str) -> bool {
    match events_in(alloc, text) {
        Some(events) => opened.play(events.as_slice()),
        None => false,
    }
}

// A publish, of which the observer learns: whether it was refused memory. None where it was for another cause.
fn publish<L: Naming, R: Wait>(
    rt: &R,
    opened: &mut Opened<L>,
    observer: &mut Observer,
) -> Option<bool>
    requires { L.publisher ≡ Some observer.old.publisher }
    ensures { observer.new.publisher ≡ observer.old.publisher }
{
    let Some(seat) = opened.seats.get(OPERATOR) else {
        return None;
    };
    match opened.locked.publish(rt, seat) {
        Ok(told) => {
            observer.learn(told);
            Some(false)
        }
        Err(PublishFault::OutOfMemory) => Some(true),
        Err(_) => None,
    }
}

// It looks again where that was refused memory.
fn look_call<R: Print>(trial: &Trial<R>, observer: &mut Observer) -> Option<Outcome> {
    trial.begin();
    let answer = observer.look();
    match trial.outcome(answer, "OutOfMemory") {
        Some(Outcome::Refused) => trial.tell(true, &look_of(trial.alloc, observer)),
        outcome => outcome,
    }
}

// A publish of the crashes. Where it is refused memory, the group is as it was, and the observer sees what it saw; and
// what is seen in the end is the last crash.
fn crashes_call<L: Naming, R: Print + Wait>(
    trial: &Trial<R>,
    opened: &mut Opened<L>,
    observer: &mut Observer,
) -> Option<Outcome>
    requires { L.publisher ≡ Some observer.old.publisher }
{
    if !plays(trial.alloc, opened, CRASHES) {
        return None;
    }
    let before = shown_text(trial.alloc, opened, observer);
    trial.begin();
    let was_refused = publish(trial.rt, opened, observer);
    trial.end();
    let Some(was_refused) = was_refused else {
        return None;
    };
    if was_refused && !publishes_again(trial, opened, observer, &before) {
        return None;
    }
    trial.tell(was_refused, &look_of(trial.alloc, observer))
}

// Whether all is as before, and is published.
fn publishes_again<L: Naming, R: Print + Wait>(
    trial: &Trial<R>,
    opened: &mut Opened<L>,
    observer: &mut Observer,
    before: &Text,
) -> bool
    requires { L.publisher ≡ Some observer.old.publisher }
{
    shown_text(trial.alloc, opened, observer).is_same(before)
        && matches!(publish(trial.rt, opened, observer), Some(false))
}

// All that can be read of the group, and what the observer sees.
fn shown_text<L: Naming>(alloc: Global, opened: &Opened<L>, observer: &mut Observer) -> Text
    ensures { observer.new.publisher ≡ observer.old.publisher }
{
    let mut text = opened.text(alloc);
    text.add_text(&look_of(alloc, observer));
    text
}

/// A publish of the group's history by a publisher alone.
pub fn history_call<L: Naming, R: Print + Wait>(
    trial: &Trial<R>,
    locked: &Locked<L>,
) -> Option<Outcome> {
    let (mut publisher, mut observer) = publisher_for(trial.rt, trial.alloc, *locked.setup())?;
    let outcome = shown_by(trial, &mut publisher, &mut observer, locked.history());
    publisher.end(trial.rt);
    outcome
}

#[tactic(auto, using(crate::proofs::PrefixLemmas::prefix_of_none))]
fn shown_by<R: Print + Wait>(
    trial: &Trial<R>,
    publisher: &mut Publisher,
    observer: &mut Observer,
    entries: &[Entry],
) -> Option<Outcome>
    requires history { (w : WorldOf) × IsHistory publisher.old.publisher.setup entries.now w }
    requires new { publisher.old.taken ≡ [] }
    requires observer { observer.old.publisher ≡ publisher.old.publisher }
{
    let before = look_of(trial.alloc, observer);
    trial.begin();
    let answer = publisher.publish(trial.rt, entries);
    trial.end();
    match answer {
        Ok(told) => {
            observer.learn(told);
            trial.tell(false, &look_of(trial.alloc, observer))
        }
        Err(_) => shown_again(trial, publisher, observer, entries, &before),
    }
}

// The observer must see what it saw, and the history is published.
fn shown_again<R: Print + Wait>(
    trial: &Trial<R>,
    publisher: &mut Publisher,
    observer: &mut Observer,
    entries: &[Entry],
    before: &Text,
) -> Option<Outcome>
    requires history { (w : WorldOf) × IsHistory publisher.old.publisher.setup entries.now w }
    requires taken { IsPrefix publisher.old.taken entries.now }
    requires observer { observer.old.publisher ≡ publisher.old.publisher }
{
    if !look_of(trial.alloc, observer).is_same(before) {
        return None;
    }
    match publisher.publish(trial.rt, entries) {
        Ok(told) => {
            observer.learn(told);
            trial.tell(true, &look_of(trial.alloc, observer))
        }
        Err(_) => None,
    }
}
