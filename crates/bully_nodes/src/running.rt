ghost use Rattle.std.specs.Prelude.{◌≡◌, ◌+◌, ◌≤◌, [], None, All, map, IfOk, IfErr};
ghost use Rattle.bully_group.specs.Seat.{AreNewSeats};
ghost use Rattle.bully_play.specs.Play.{IsPlay};
ghost use Rattle.bully_nodes.specs.Run.{IsGivenBack, HasDueLog, IsNodesFault, fault_of_finish};
ghost use Rattle.bully_watch.specs.History.{event_of};

use crate::jobs::{Job, SeatOf, do_job, pair_jobs, split_jobs};
use bully_base::OutOfMemory;
use bully_config::Config;
use bully_group::{Closed, FinishFault, Group, Naming, Pass, Seat};
use std::alloc::Global;
use std::marker::{Brand, Model};
use std::sync::Wait;
use std::sync::ledger::Blank;
use std::thread;
use std::thread::{PromisedHandle, Scope, Threads};

/// What surrounds each turn of each thread. Both calls come outside of the lock, with the actor, 0 for the operator and
/// else the number of the node, and the turn, from 1 to the configuration's turns.
pub trait Gate: Sync {
    /// Comes before the actor's turn.
    fn before(&self, actor: u16, turn: u32);

    /// Comes after it.
    fn after(&self, actor: u16, turn: u32);
}

/// Why a run of the nodes ends without its history, the first that holds.
#[derive(Clone, Copy, PartialEq, Eq, Debug)]
pub enum NodesFault {
    /// The system made no thread.
    Spawn,
    /// The group wasn't finished, for this fault.
    Finish(FinishFault),
    /// An allocation failed.
    OutOfMemory,
}

/// Runs the configuration in threads, one for each node and one for the operator, each with its own seat and all of the
/// configuration's turns, and finishes the group, which nobody watches: its history. Refused as `Spawn` where a thread
/// isn't made, as `Finish` where the group isn't finished, and as `OutOfMemory` where an allocation fails; each comes
/// once all threads have ended. What the world refuses in a turn has no effect; a thread ends if it gets no memory. A
/// thread whose turn added no entry gives its processor away. The rule: docs/ALGORITHM.md, Node threads.
pub fn run_nodes<R: Threads + Wait + Sync, G: Gate>(
    rt: &R,
    alloc: Global,
    config: &Config,
    gate: &G,
) -> Result<Closed, NodesFault>
    ensures setup { IfOk result (λ closed. closed.view.setup ≡ config.now.setup) }
    ensures play { IfOk result (λ closed. IsPlay config.now (map event_of closed.history)) }
    ensures fault { IfErr result IsNodesFault }
{
    let blank = Blank::new(u64::from(config.setup().nodes()) + 1);
    run_group::<Brand, R, G>(rt, alloc, config, gate, blank)
}

// Names a group, and the faults of its configuration.
pub(crate) trait Scheduled: Naming {
    ghost use Rattle.std.specs.Prelude.{List};
    ghost use Rattle.bully_config.specs.declared.config.Fault.{Fault as AnyFault};

    ghost faults: { List AnyFault };
}

impl Scheduled for Brand {
    ghost use Rattle.std.specs.Prelude.{[]};

    ghost faults = { [] };
}

/// What the threads of a run share. Its configuration is that of the group.
#[derive(Drop)]
pub(crate) struct Run<'a, L: Scheduled, R, G> {
    pub rt: &'a R,
    pub alloc: Global,
    pub group: &'a Group<L>,
    pub config: &'a Config,
    pub gate: &'a G,
}

impl<'a, L: Scheduled, R, G> Model for Run<'a, L, R, G> {
    ghost use Rattle.std.specs.Prelude.{◌≡◌};
    ghost use Rattle.bully_config.specs.Configuration.{Configuration};

    ghost Value = { Configuration };

    ghost view = { λ r. r.config.now };

    ghost invariant = { λ r. (r.config.now.setup ≡ L.setup) × (r.config.now.faults ≡ L.faults) };
}

fn run_group<L: Scheduled + Send + Sync, R: Threads + Wait + Sync, G: Gate>(
    rt: &R,
    alloc: Global,
    config: &Config,
    gate: &G,
    blank: Blank,
) -> Result<Closed, NodesFault>
    requires setup { config.now.setup ≡ L.setup }
    requires unwatched { L.publisher ≡ None }
    requires faults { config.now.faults ≡ L.faults }
    requires name { blank.name ≡ L.name }
    requires parts { (blank.parts ≡ L.parts) × (L.parts ≡ L.setup.nodes + 1) }
    ensures setup { IfOk result (λ closed. closed.view.setup ≡ config.now.setup) }
    ensures play { IfOk result (λ closed. IsPlay config.now (map event_of closed.history)) }
    ensures fault { IfErr result IsNodesFault }
{
    let Ok((group, seats, passes)) = Group::<L>::open(alloc, *config.setup(), blank) else {
        return Err(NodesFault::OutOfMemory);
    };
    let run = Run {
        rt,
        alloc,
        group: &group,
        config,
        gate,
    };
    let (seats, passes) = match run_jobs(&run, seats, passes) {
        Ok(back) => back,
        Err(fault) => {
            group.close().end(rt);
            return Err(fault);
        }
    };
    match group.close().finish(seats, passes) {
        Ok(closed) => Ok(closed),
        Err((locked, _seats, _passes, fault)) => {
            locked.end(rt);
            Err(fault_of_finish(fault))
        }
    }
}

// A thread for each seat, with a pass. What they give back, once all have ended and none wanted for memory.
fn run_jobs<L: Scheduled + Send + Sync, R: Threads + Wait + Sync, G: Gate>(
    run: &Run<L, R, G>,
    seats: Vec<Seat>,
    passes: Vec<Pass<L>>,
) -> Result<(Vec<Seat>, Vec<Pass<L>>), NodesFault>
    requires seats { AreNewSeats (run.now.setup.nodes + 1) seats.items }
    requires passes { All (λ p. p ≡ 0) passes.items }
    ensures due { IfOk result (λ back. All (HasDueLog L.faults) back.0.items) }
    ensures fault { IfErr result IsNodesFault }
{
    let Ok(jobs) = pair_jobs(run.alloc, seats, passes) else {
        return Err(NodesFault::OutOfMemory);
    };
    let done = in_threads(run, jobs)?;
    match split_jobs(run.alloc, done) {
        Ok(back) => Ok(back),
        Err(_) => Err(NodesFault::OutOfMemory),
    }
}

// How the fault of a finish is told.
fn fault_of_finish(fault: FinishFault) -> NodesFault
    ensures told { result ≡ fault_of_finish fault }
    ensures fault { IsNodesFault result }
{
    match fault {
        FinishFault::OutOfMemory => NodesFault::OutOfMemory,
        _ => NodesFault::Finish(fault),
    }
}

// A thread for each job. What they give back, once all have ended.
fn in_threads<L: Scheduled + Send + Sync, R: Threads + Wait + Sync, G: Gate>(
    run: &Run<L, R, G>,
    jobs: Vec<Job<L>>,
) -> Result<Vec<Result<Job<L>, OutOfMemory>>, NodesFault>
    requires jobs { All (λ j. (j.seat.actor ≤ L.setup.nodes) × (j.seat.log ≡ []) × (j.pass ≡ 0)) jobs.items }
    ensures due { IfOk result (λ done. All (λ r. IfOk r (λ job. HasDueLog L.faults job.seat)) done.items) }
    ensures fault { IfErr result IsNodesFault }
{
    thread::scope(
        thread::scope_env(),
        run.rt,
        |scope| -> Result<Vec<Result<Job<L>, OutOfMemory>>, NodesFault>
            requires jobs { All (λ j. (j.seat.actor ≤ L.setup.nodes) × (j.seat.log ≡ []) × (j.pass ≡ 0)) jobs.items }
            ensures due { IfOk result (λ done. All (λ r. IfOk r (λ job. HasDueLog L.faults job.seat)) done.items) }
            ensures fault { IfErr result IsNodesFault }
        { in_scope(scope, run, jobs) },
    )
}

// Starts the threads, and waits for them.
fn in_scope<'s, E, L: Scheduled + Send + Sync, R: Threads + Wait + Sync, G: Gate>(
    scope: &Scope<'s, E>,
    run: &'s Run<'s, L, R, G>,
    jobs: Vec<Job<L>>,
) -> Result<Vec<Result<Job<L>, OutOfMemory>>, NodesFault>
    requires jobs { All (λ j. (j.seat.actor ≤ L.setup.nodes) × (j.seat.log ≡ []) × (j.pass ≡ 0)) jobs.items }
    ensures due { IfOk result (λ done. All (λ r. IfOk r (λ job. HasDueLog L.faults job.seat)) done.items) }
    ensures fault { IfErr result IsNodesFault }
{
    let mut handles = Vec::new(run.alloc);
    start_jobs(scope, run, jobs, &mut handles)?;
    match thread::join_promised(run.rt, handles) {
        Ok(done) => Ok(done),
        Err(_) => Err(NodesFault::OutOfMemory),
    }
}

// Starts a thread for each job.
fn start_jobs<'s, E, L: Scheduled + Send + Sync, R: Threads + Wait + Sync, G: Gate>(
    scope: &Scope<'s, E>,
    run: &'s Run<'s, L, R, G>,
    jobs: Vec<Job<L>>,
    handles: &mut Vec<PromisedHandle<Result<Job<L>, OutOfMemory>, SeatOf>>,
) -> Result<(), NodesFault>
    requires jobs { All (λ j. (j.seat.actor ≤ L.setup.nodes) × (j.seat.log ≡ []) × (j.pass ≡ 0)) jobs.items }
    ensures fault { IfErr result IsNodesFault }
{
    for job in jobs {
        let Some(handle) = start_job(scope, run, job) else {
            return Err(NodesFault::Spawn);
        };
        if handles.push(handle).is_err() {
            return Err(NodesFault::OutOfMemory);
        }
    }
    Ok(())
}

// Starts a thread for the job, where the system makes one.
fn start_job<'s, E, L: Scheduled + Send + Sync, R: Threads + Wait + Sync, G: Gate>(
    scope: &Scope<'s, E>,
    run: &'s Run<'s, L, R, G>,
    job: Job<L>,
) -> Option<PromisedHandle<Result<Job<L>, OutOfMemory>, SeatOf>>
    requires new { (job.seat.actor ≤ L.setup.nodes) × (job.seat.log ≡ []) × (job.pass ≡ 0) }
{
    let actor = job.seat.actor();
    let thread = move || -> Result<Job<L>, OutOfMemory>
        requires new { (job.seat.actor ≤ L.setup.nodes) × (job.seat.log ≡ []) × (job.pass ≡ 0) }
        ensures { IfOk result (λ back.
            IsGivenBack L.faults job.seat.actor (record { seat = back.seat; counted = back.pass })) }
    { do_job(run, job) };
    match scope.spawn_with(SeatOf(actor), thread) {
        Ok(handle) => Some(handle),
        Err(_) => None,
    }
}
