//! What the scripts of `bench/` time, beside the same in plain Rust or beside `bully check`.

mod hand;
mod planning;
mod player;
mod records;
mod team;
mod turns;
pub mod watching;

use crate::bench::planning::{Sums, plan_rounds};
use crate::bench::records::count_records;
use crate::bench::turns::{Taken, take_turns};
use crate::bench::watching::{Watched, Watching, watch_group};
use std::alloc::Global;
use std::io::Read;
use std::sync::Wait;
use std::thread::Threads;

pub fn tell_plans<R: Print>(rt: &R, alloc: Global, rounds: u32) -> Option<()> {
    let Sums {
        moves,
        bounds,
        owners,
    } = plan_rounds(alloc, rounds)?;
    println!(rt; "moves {moves}\nbounds {bounds}\nowners {owners}").ok()
}

pub fn tell_records<R: Print, I: Read + Drop>(rt: &R, alloc: Global, input: I) -> Option<()> {
    let records = count_records(alloc, input)?;
    println!(rt; "records {records}").ok()
}

pub fn tell_turns<R: Print + Wait>(rt: &R, alloc: Global, nodes: u16, count: u32) -> Option<()> {
    let Taken { entries, made } = take_turns(rt, alloc, nodes, count)?;
    println!(rt; "entries {entries}\nmade {made}").ok()
}

pub fn tell_watched<R: Print + Threads + Wait + Sync>(
    rt: &R,
    alloc: Global,
    nodes: u16,
    observers: u16,
    watching: Watching,
) -> Option<()> {
    let Watched {
        entries,
        looks,
        publishes,
        seen,
        made,
    } = watch_group(rt, alloc, nodes, observers, watching)?;
    match watching {
        Watching::Quiet(_) | Watching::Glances(_) => println!(rt;
            "looks {looks}\nmade {made}"
        ).ok(),
        Watching::Publishing(_) => println!(rt; "looks {looks}\npublishes {publishes}").ok(),
        Watching::Threads(_) => println!(rt; "entries {entries}\nlooks {looks}\nseen {seen}").ok(),
    }
}
