//! A group that one thread changes while another looks on.

ghost use Rattle.std.specs.Prelude.{◌≡◌, ◌+◌, [], IfSome, Some};

use super::observers::{Place, Watchers, Which, publisher_for, round};
use bully_base::{Setup, Status};
use bully_group::{Group, Naming, Pass, Seat};
use bully_watch::{Publisher, Told};
use std::alloc::Global;
use std::marker::Brand;
use std::sync::ledger::Blank;
use std::sync::{MutexGuard, Wait};
use std::thread;
use std::thread::Threads;

/// Whether the counts that an observer sees never fall, while another thread recovers and crashes node 1 in turn, 50
/// times each, and publishes after each; and whether it sees all of that once it learns of the last.
pub fn never_fall_in_two_threads<R: Threads + Wait + Sync>(rt: &R, alloc: Global) -> bool {
    let Ok(setup) = Setup::new(1, 1, 100) else {
        return false;
    };
    match publisher_for(rt, alloc, setup) {
        Some((publisher, watchers)) => {
            counts_by::<Brand, R>(rt, alloc, setup, publisher, watchers, Blank::new(2))
        }
        None => false,
    }
}

fn counts_by<L: Naming + Send + Sync, R: Threads + Wait + Sync>(
    rt: &R,
    alloc: Global,
    setup: Setup,
    publisher: Publisher,
    watchers: Watchers,
    blank: Blank,
) -> bool
    requires setup { (setup ≡ L.setup) × (publisher.publisher.setup ≡ setup) }
    requires publisher { L.publisher ≡ Some publisher.publisher }
    requires new { (publisher.shown ≡ []) × (publisher.taken ≡ []) }
    requires watchers { watchers ≡ publisher.publisher }
    requires name { blank.name ≡ L.name }
    requires parts { (blank.parts ≡ L.parts) × (L.parts ≡ L.setup.nodes + 1) }
{
    match Group::<L>::open_watched(alloc, setup, publisher, blank) {
        Ok((group, mut seats, mut passes)) => {
            let seen = race(rt, &group, &mut seats, &mut passes, watchers);
            group.close().end(rt);
            drop((seats, passes));
            seen
        }
        Err((publisher, _, _)) => {
            publisher.end(rt);
            drop(watchers);
            false
        }
    }
}

fn race<L: Naming + Send + Sync, R: Threads + Wait + Sync>(
    rt: &R,
    group: &Group<L>,
    seats: &mut Vec<Seat>,
    passes: &mut Vec<Pass<L>>,
    watchers: Watchers,
) -> bool
    requires { L.publisher ≡ Some watchers }
{
    let (told, (mut watchers, never_fell)) = thread::join(
        rt,
        move || -> Option<Told>
            ensures { IfSome result (λ told. L.publisher ≡ Some told.publisher) }
        { recovers_and_crashes(rt, group, seats, passes) },
        move || -> (Watchers, bool)
            ensures { result.0 ≡ watchers }
        { looks_on(watchers) },
    );
    let sees_all = sees_all_of(&mut watchers, told);
    drop(watchers);
    never_fell && sees_all
}

// Whether the first observer, which learns what is told, sees 100 events, of which the last is a crash.
fn sees_all_of(watchers: &mut Watchers, told: Option<Told>) -> bool
    requires { IfSome told (λ t. t.publisher ≡ watchers.old) }
{
    if let Some(told) = told {
        watchers.keep(Place::First, told);
        watchers.learn(Which::First, Place::First);
    }
    matches!(watchers.seen(), Some((100, Status::Down)))
}

// What the last publish tells. The operator's seat is the first one, and one pass is as good as another.
fn recovers_and_crashes<L: Naming, R: Wait>(
    rt: &R,
    group: &Group<L>,
    seats: &mut Vec<Seat>,
    passes: &mut Vec<Pass<L>>,
) -> Option<Told>
    ensures { IfSome result (λ told. L.publisher ≡ Some told.publisher) }
{
    let Some(seat) = seats.get_mut(0) else {
        return None;
    };
    let Some(pass) = passes.get_mut(0) else {
        return None;
    };
    let mut last = None;
    for _round in 0..50u32 {
        locked_round(rt, group, seat, pass, &mut last);
    }
    last
}

// A round in one hold of the lock.
fn locked_round<L: Naming, R: Wait>(
    rt: &R,
    group: &Group<L>,
    seat: &mut Seat,
    pass: &mut Pass<L>,
    told: &mut Option<Told>,
)
    requires { IfSome told.old (λ t. L.publisher ≡ Some t.publisher) }
    ensures { IfSome told.new (λ t. L.publisher ≡ Some t.publisher) }
{
    let mut guard = group.locked.lock(rt);
    let _ = round(rt, &mut guard, seat, pass, told);
    MutexGuard::unlock(guard);
}

// Looks 1,000 times. Whether each shows a count, and none of them falls.
fn looks_on(watchers: Watchers) -> (Watchers, bool)
    ensures { result.0 ≡ watchers }
{
    let mut watchers = watchers;
    let mut least = 0;
    let mut never_fell = true;
    for _look in 0..1000u32 {
        match watchers.seen() {
            Some((count, _)) => {
                never_fell = never_fell && least <= count;
                least = count;
            }
            None => never_fell = false,
        }
    }
    (watchers, never_fell)
}
