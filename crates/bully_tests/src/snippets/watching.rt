ghost use Rattle.std.specs.Prelude.{◌≡◌, ◌+◌, [], Some};

use bully_agree::View;
use bully_base::{Node, Setup};
use bully_group::{Group, Naming, Pass, Seat};
use bully_watch::{Observer, Publisher};
use bully_world::Event;
use std::alloc::Global;
use std::marker::Brand;
use std::sync::ledger::Blank;
use std::sync::{MutexGuard, Wait};

/// What an observer sees of a new group after its last node recovered.
pub fn recovered<R: Wait>(rt: &R, alloc: Global, setup: Setup) -> Option<View> {
    let Ok((publisher, observers)) = Publisher::open(rt, alloc, setup, 1) else {
        return None;
    };
    let blank = Blank::new(u64::from(setup.nodes()) + 1); // a part for the operator and for each node
    watched::<Brand, R>(rt, alloc, setup, publisher, observers, blank)
}

// The group of `L`, which the call above names: its setup, its publisher and its blank.
fn watched<L: Naming, R: Wait>(
    rt: &R,
    alloc: Global,
    setup: Setup,
    publisher: Publisher,
    observers: Vec<Observer>,
    blank: Blank,
) -> Option<View>
    requires setup { (setup ≡ L.setup) × (publisher.publisher.setup ≡ setup) }
    requires publisher { L.publisher ≡ Some publisher.publisher }
    requires new { (publisher.shown ≡ []) × (publisher.taken ≡ []) }
    requires name { blank.name ≡ L.name }
    requires parts { (blank.parts ≡ L.parts) × (L.parts ≡ L.setup.nodes + 1) }
{
    match Group::<L>::open_watched(alloc, setup, publisher, blank) {
        Ok((group, seats, passes)) => {
            let seen = seen(rt, &setup, &group, seats, passes, observers);
            group.close().end(rt); // no path lets a group or a publisher go
            seen
        }
        Err((publisher, _, _)) => {
            publisher.end(rt);
            None
        }
    }
}

// Takes a step under the lock and publishes it; then the observer looks, without a lock.
fn seen<L: Naming, R: Wait>(
    rt: &R,
    setup: &Setup,
    group: &Group<L>,
    seats: Vec<Seat>,
    passes: Vec<Pass<L>>,
    observers: Vec<Observer>,
) -> Option<View> {
    let mut operator = seats.into_iter().next()?; // the first seat is the operator's, then come the nodes'
    let mut pass = passes.into_iter().next()?;
    let mut observer = observers.into_iter().next()?;
    let event = Event::Recover(Node::new(setup.nodes())?);
    let mut guard = group.locked.lock(rt);
    let stepped = guard.step(&mut operator, &event, &mut pass);
    let told = guard.publish(rt, &operator); // shows the whole history
    MutexGuard::unlock(guard);
    stepped.ok()?;
    told.ok()?;
    observer.look().ok()
}
