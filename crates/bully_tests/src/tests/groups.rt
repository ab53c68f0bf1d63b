//! Worked cases of groups and of observers.

mod asks;
mod observers;
mod races;
mod scenes;
mod scripts;
mod test_group;
mod two_groups;

use asks::{Case, tried};
use bully_base::Setup;
use bully_watch::{OpenFault, Publisher};
use races::never_fall_in_two_threads;
use scenes::SCENES;
use scripts::CASES;
use std::alloc::Global;
use std::process::Abort;
use std::sync::Wait;
use test_group::Way;
use two_groups::DEALS;

// Tries each case. A group is called bare, and through its lock.
fn try_all<R: Abort + Wait>(rt: &R, alloc: Global, cases: &[Case]) {
    for case in cases {
        let told = case.told;
        let is_told = tried(rt, alloc, Way::Bare, case) && tried(rt, alloc, Way::Shared, case);
        assert!(rt; is_told, "{told}");
    }
}

#[test]
fn groups_that_nobody_watches(rt: HostRuntime) {
    try_all(&rt, rt.alloc(), CASES);
}

#[test]
fn watched_groups(rt: HostRuntime) {
    try_all(&rt, rt.alloc(), SCENES);
}

#[test]
fn seats_of_other_groups(rt: HostRuntime) {
    try_all(&rt, rt.alloc(), DEALS);
}

// One thread steps and publishes, and another looks on.
#[test]
fn counts_never_fall(rt: HostRuntime) {
    assert!(rt; never_fall_in_two_threads(&rt, rt.alloc()));
}

// How many observers a publisher is opened with, or why with none.
fn observers_of<R: Wait>(rt: &R, alloc: Global, count: u16) -> Result<usize, OpenFault> {
    let Ok(setup) = Setup::new(1, 2, 10) else {
        return Err(OpenFault::OutOfMemory);
    };
    match Publisher::open(rt, alloc, setup, count) {
        Ok((publisher, observers)) => {
            publisher.end(rt);
            let count = observers.len();
            drop(observers);
            Ok(count)
        }
        Err(fault) => Err(fault),
    }
}

/// So many are asked for, and so many there are, or why none.
const OBSERVER_COUNTS: [(u16, Result<usize, OpenFault>); 4] = [
    (0, Err(OpenFault::BadObservers)),
    (1, Ok(1)),
    (8, Ok(8)),
    (9, Err(OpenFault::BadObservers)),
];

#[test]
fn a_publisher_has_1_to_8_observers(rt: HostRuntime) {
    for (count, opened) in OBSERVER_COUNTS.iter() {
        assert!(rt; observers_of(&rt, rt.alloc(), *count) == *opened, "{count}");
    }
}
