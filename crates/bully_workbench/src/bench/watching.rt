ghost use Rattle.std.specs.Prelude.{◌≡◌, ◌+◌, ◌≤◌, [], Some};

use super::hand::Hand;
use super::player::Player;
use super::team::Team;
use super::turns::{joined, with_owners};
use bully_agree::View;
use bully_base::{EVENTS_MAX, Node, Setup};
use bully_group::{Group, Naming};
use bully_watch::{Observer, Publisher};
use rand_core::{Rng, SeedableRng};
use rand_xoshiro::SplitMix64;
use std::alloc::Global;
use std::marker::Brand;
use std::sync::Wait;
use std::sync::atomic::{AtomicU64, Ordering};
use std::sync::ledger::Blank;
use std::thread;
use std::thread::Threads;

/// How many rounds of turns come before a look, and before the last node crashes for the first time.
const ROUNDS: u16 = 1000;

/// So often the operator lets a node crash: once in so many turns.
const CRASHES: u32 = 100;

/// How many nodes have threads, and how many observers.
pub const THREADS: u16 = 8;

/// So often a node's thread publishes: once in so many turns.
const PUBLISHES: u32 = 10;

/// What is done with a watched group.
#[derive(Clone, Copy)]
pub enum Watching {
    /// So many looks, with nothing beside them.
    Quiet(u32),
    /// So many glances at node 1, with nothing beside them.
    Glances(u32),
    /// So many looks, beside a thread that takes turns and publishes after each.
    Publishing(u32),
    /// So many turns of each node and of the operator, each in a thread of its own, with a publish in every tenth turn
    /// of a node, beside as many threads that look as there are observers.
    Threads(u32),
}

/// What came of it.
#[derive(Clone, Copy)]
pub struct Watched {
    /// How many entries there are at the end.
    pub entries: u64,
    /// How many looks there were.
    pub looks: u64,
    /// How many publishes there were beside them, by a thread that publishes after each turn.
    pub publishes: u64,
    /// How many entries were seen at most.
    pub seen: u32,
    /// A number that all of the last view makes.
    pub made: u64,
}

const NOTHING: Watched = Watched {
    entries: 0,
    looks: 0,
    publishes: 0,
    seen: 0,
    made: 0,
};

/// Opens a group with four partitions for each node and so many observers, and does this with it. None where an
/// allocation fails, for numbers that no group has, and where a count that an observer sees falls.
pub fn watch_group<R: Threads + Wait + Sync>(
    rt: &R,
    alloc: Global,
    nodes: u16,
    observers: u16,
    task: Watching,
) -> Option<Watched> {
    let partitions = nodes.checked_mul(4)?;
    let setup = Setup::new(nodes, partitions, EVENTS_MAX).ok()?;
    let parts = u64::from(setup.nodes()) + 1;
    match Publisher::open(rt, alloc, setup, observers) {
        Ok((publisher, observers)) => watched_by::<Brand, R>(
            rt,
            alloc,
            setup,
            publisher,
            observers,
            Blank::new(parts),
            task,
        ),
        Err(_) => None,
    }
}

fn watched_by<L: Naming + Send + Sync, R: Threads + Wait + Sync>(
    rt: &R,
    alloc: Global,
    setup: Setup,
    publisher: Publisher,
    observers: Vec<Observer>,
    blank: Blank,
    task: Watching,
) -> Option<Watched>
    requires setup { (setup ≡ L.setup) × (publisher.publisher.setup ≡ setup) }
    requires publisher { L.publisher ≡ Some publisher.publisher }
    requires new { (publisher.shown ≡ []) × (publisher.taken ≡ []) }
    requires name { blank.name ≡ L.name }
    requires parts { (blank.parts ≡ L.parts) × (L.parts ≡ L.setup.nodes + 1) }
{
    match Group::<L>::open_watched(alloc, setup, publisher, blank) {
        Ok((group, seats, passes)) => {
            let team = Team::new(alloc, &setup, seats, passes);
            let watched = watch(rt, alloc, &group, team, observers, task);
            let locked = group.close();
            let entries = locked.history().len() as u64;
            locked.end(rt);
            let watched = watched?;
            Some(Watched { entries, ..watched })
        }
        Err((publisher, _, _)) => {
            publisher.end(rt);
            None
        }
    }
}

// What one thread of a group is for.
#[derive(Drop)]
enum Job<L: Naming> {
    /// So many turns of a node.
    Play(Player<L>, u32),
    /// What the team does in this task, without the players that have jobs of their own.
    Lead(Team<L>, Watching),
    /// So many looks, or looks until the others have ended.
    Look(Observer, Option<u32>),
    /// So many glances.
    Glance(Observer, u32),
}

// Does this with the group, by jobs in threads of their own.
fn watch<L: Naming + Send + Sync, R: Threads + Wait + Sync>(
    rt: &R,
    alloc: Global,
    group: &Group<L>,
    team: Option<Team<L>>,
    mut observers: Vec<Observer>,
    task: Watching,
) -> Option<Watched> {
    let mut team = team?;
    let mut jobs = Vec::new(alloc);
    add_others(rt, group, &mut team, &mut observers, &mut jobs, task)?;
    jobs.push(Job::Lead(team, task)).ok()?;
    in_threads(rt, group, jobs, ending(task))
}

// The jobs beside that of the team.
fn add_others<L: Naming, R: Wait>(
    rt: &R,
    group: &Group<L>,
    team: &mut Team<L>,
    observers: &mut Vec<Observer>,
    jobs: &mut Vec<Job<L>>,
    task: Watching,
) -> Option<()> {
    match task {
        Watching::Quiet(looks) | Watching::Publishing(looks) => {
            settle(rt, group, team)?;
            add_looks(jobs, observers, Some(looks))
        }
        Watching::Glances(glances) => {
            settle(rt, group, team)?;
            jobs.push(Job::Glance(observers.pop()?, glances)).ok()
        }
        Watching::Threads(turns) => {
            add_turns(jobs, team, turns)?;
            add_looks(jobs, observers, None)
        }
    }
}

// Takes the first rounds of turns, and publishes them.
fn settle<L: Naming, R: Wait>(rt: &R, group: &Group<L>, team: &mut Team<L>) -> Option<()> {
    let turns = team.turns_in(ROUNDS);
    if team.take_turns(rt, group, turns) && team.operator.publish(rt, group) {
        Some(())
    } else {
        None
    }
}

// So many turns of each of the team's players.
fn add_turns<L: Naming>(jobs: &mut Vec<Job<L>>, team: &mut Team<L>, turns: u32) -> Option<()> {
    for _ in 0..team.players.len() {
        let player = team.players.pop()?;
        jobs.push(Job::Play(player, turns)).ok()?;
    }
    Some(())
}

// So many looks of each observer, or looks until the others have ended.
fn add_looks<L: Naming>(
    jobs: &mut Vec<Job<L>>,
    observers: &mut Vec<Observer>,
    looks: Option<u32>,
) -> Option<()> {
    for _ in 0..observers.len() {
        let observer = observers.pop()?;
        jobs.push(Job::Look(observer, looks)).ok()?;
    }
    Some(())
}

// How many jobs of this task the others wait for: that of the observer, or those of the operator and of each node.
fn ending(task: Watching) -> u64 {
    match task {
        Watching::Quiet(_) | Watching::Glances(_) | Watching::Publishing(_) => 1,
        Watching::Threads(_) => u64::from(THREADS) + 1,
    }
}

// Each job in a thread of its own. The others go on until so many have ended.
fn in_threads<L: Naming + Send + Sync, R: Threads + Wait + Sync>(
    rt: &R,
    group: &Group<L>,
    jobs: Vec<Job<L>>,
    ending: u64,
) -> Option<Watched> {
    let left = AtomicU64::new(ending);
    let work = |job: Job<L>| -> Option<Watched> { work(rt, group, &left, job) };
    match thread::map_vec(rt, jobs, &work) {
        Ok(all) => sum_of(&all),
        Err(_) => None,
    }
}

// All looks and publishes, the largest number of entries that was seen, and what the last views make. None where one
// has none.
fn sum_of(all: &[Option<Watched>]) -> Option<Watched> {
    let mut sum = NOTHING;
    for one in all {
        let one = (*one)?;
        sum.looks = sum.looks.wrapping_add(one.looks);
        sum.publishes = sum.publishes.wrapping_add(one.publishes);
        sum.seen = sum.seen.max(one.seen);
        sum.made = sum.made.wrapping_add(one.made);
    }
    Some(sum)
}

// What one thread does.
fn work<L: Naming, R: Wait>(
    rt: &R,
    group: &Group<L>,
    left: &AtomicU64,
    job: Job<L>,
) -> Option<Watched> {
    match job {
        Job::Play(mut player, turns) => ended(left, play(rt, group, &mut player, turns)),
        Job::Lead(mut team, task) => lead(rt, group, left, &mut team, task),
        Job::Look(mut observer, looks) => look(left, &mut observer, looks),
        Job::Glance(mut observer, glances) => { ended(left, glance_often(&mut observer, glances)) }
    }
}

// What the team does.
fn lead<L: Naming, R: Wait>(
    rt: &R,
    group: &Group<L>,
    left: &AtomicU64,
    team: &mut Team<L>,
    task: Watching,
) -> Option<Watched> {
    match task {
        Watching::Quiet(_) | Watching::Glances(_) => Some(NOTHING),
        Watching::Publishing(_) => publish_on(rt, group, team, left),
        Watching::Threads(turns) => ended(left, operate(rt, group, &mut team.operator, turns)),
    }
}

// So many looks, or looks until the others have ended.
fn look(left: &AtomicU64, observer: &mut Observer, looks: Option<u32>) -> Option<Watched> {
    match looks {
        Some(looks) => ended(left, look_often(observer, looks)),
        None => look_on(observer, left),
    }
}

// One job fewer is left that others wait for.
fn ended(left: &AtomicU64, watched: Option<Watched>) -> Option<Watched> {
    left.fetch_sub(1, Ordering::SeqCst);
    watched
}

// Takes turns and publishes after each, until no job is left that it waits for: how often it did.
fn publish_on<L: Naming, R: Wait>(
    rt: &R,
    group: &Group<L>,
    team: &mut Team<L>,
    left: &AtomicU64,
) -> Option<Watched> {
    let first = team.turns_in(ROUNDS);
    for turn in first..u32::MAX {
        if left.load(Ordering::SeqCst) == 0 {
            let publishes = u64::from(turn - first);
            return Some(Watched {
                publishes,
                ..NOTHING
            });
        }
        if !team.turn(rt, group, turn) || !team.operator.publish(rt, group) {
            return None;
        }
    }
    None
}

// So many looks, at least one. None where a count falls.
fn look_often(observer: &mut Observer, looks: u32) -> Option<Watched> {
    let mut seen = 0;
    for _ in 1..looks {
        seen = look_once(observer, seen)?;
    }
    let last = observer.look().ok()?;
    let watched = Watched {
        looks: u64::from(looks),
        seen: last.events(),
        made: made_of(&last),
        ..NOTHING
    };
    if watched.seen < seen {
        None
    } else {
        Some(watched)
    }
}

// So many glances at node 1, at least one. None where a count falls.
fn glance_often(observer: &mut Observer, glances: u32) -> Option<Watched> {
    let node = Node::new(1)?;
    let mut last = observer.glance(node).ok()?;
    for _ in 1..glances {
        let next = observer.glance(node).ok()?;
        if next.events < last.events {
            return None;
        }
        last = next;
    }
    let made = joined(u64::from(last.events), last.status as u64);
    Some(Watched {
        looks: u64::from(glances),
        seen: last.events,
        made: joined(made, number_of(last.coordinator)),
        ..NOTHING
    })
}

// One more look: how many entries it saw. None where they are fewer than before.
fn look_once(observer: &mut Observer, before: u32) -> Option<u32> {
    let seen = observer.look().ok()?.events();
    if seen < before { None } else { Some(seen) }
}

// A number that all of the view makes.
fn made_of(view: &View) -> u64 {
    let mut made = u64::from(view.events());
    for before in 0..view.nodes() {
        made = with_node(made, view, before + 1);
    }
    made
}

// The number with what is shown of one node more.
fn with_node(made: u64, view: &View, number: u16) -> u64
    requires { number ≤ view.now.setup.nodes }
{
    let Some(node) = Node::new(number) else {
        return made;
    };
    let made = joined(made, view.status(node) as u64);
    let made = joined(made, number_of(view.coordinator(node)));
    match view.task(node) {
        Some(table) => with_owners(made, table),
        None => made,
    }
}

// The coordinator's number, and 0 for none.
fn number_of(coordinator: Option<Node>) -> u64 {
    match coordinator {
        Some(leader) => u64::from(leader.number()),
        None => 0,
    }
}

// Looks until no job is left that it waits for, and gives the processor away after each look, since a publish waits
// for a look that has started. None where a count falls.
fn look_on(observer: &mut Observer, left: &AtomicU64) -> Option<Watched> {
    let mut seen = 0;
    for looks in 0..u64::MAX {
        if left.load(Ordering::SeqCst) == 0 {
            return Some(Watched {
                looks,
                seen,
                ..NOTHING
            });
        }
        seen = look_once(observer, seen)?;
        thread::yield_now();
    }
    None
}

// The turns of a node.
fn play<L: Naming, R: Wait>(
    rt: &R,
    group: &Group<L>,
    player: &mut Player<L>,
    turns: u32,
) -> Option<Watched> {
    for before in 0..turns {
        if !play_round(rt, group, player, before + 1) {
            return None;
        }
    }
    Some(NOTHING)
}

// A node's turn in this round. One that adds no entry gives its processor away. Whether it could be taken.
fn play_round<L: Naming, R: Wait>(
    rt: &R,
    group: &Group<L>,
    player: &mut Player<L>,
    round: u32,
) -> bool {
    let entries = player.hand().pass.amount();
    let is_taken = player.turn(rt, group, round)
        && (round % PUBLISHES != 0 || player.hand().publish(rt, group));
    if player.hand().pass.amount() == entries {
        thread::yield_now();
    }
    is_taken
}

// The turns of the operator: now and then a node crashes, else one recovers, where it is down.
fn operate<L: Naming, R: Wait>(
    rt: &R,
    group: &Group<L>,
    operator: &mut Hand<L>,
    turns: u32,
) -> Option<Watched> {
    let mut random = SplitMix64::seed_from_u64(1982);
    for before in 0..turns {
        let number = (random.next_u64() % u64::from(THREADS)) as u16 + 1;
        let crashes = (before + 1) % CRASHES == 0;
        if !operator.operate(rt, group, number, crashes) {
            return None;
        }
        thread::yield_now();
    }
    Some(NOTHING)
}
