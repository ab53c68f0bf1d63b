ghost use Rattle.std.specs.Prelude.{◌≡◌, ◌+◌, ◌≤◌, [], ℕ, Option, All, IfOk, OnOk};
ghost use Rattle.bully_group.specs.Locked.{IsLocked};
ghost use Rattle.bully_nodes.specs.Run.{IsGivenBack, HasDueLog, IsRoleOf, procedure_of, first_of, IsActorsTurn};
ghost use Rattle.bully_nodes.specs.Run.{ActorsTurns};
ghost use Rattle.bully_steps.specs.ProcedureState.{ProcedureState};

use crate::access::GroupAccess;
use crate::running::{Gate, Run, Scheduled};
use bully_base::{Node, OutOfMemory};
use bully_config::Config;
use bully_group::{Naming, Pass, Seat};
use bully_play::{Schedule, take_node_turn, take_operator_turn};
use bully_steps::Procedure;
use std::alloc::Global;
use std::sync::Wait;
use std::thread;
use std::thread::Promise;

/// What a thread works with, and gives back.
#[derive(Drop)]
pub(crate) struct Job<L: Naming> {
    pub seat: Seat,
    pub pass: Pass<L>,
}

/// A thread that didn't want for memory gives the seat of this actor back, with what it was answered.
#[derive(Clone, Copy)]
pub(crate) struct SeatOf(pub u16);

impl<L: Scheduled> Promise<Result<Job<L>, OutOfMemory>> for SeatOf {
    ghost use Rattle.std.specs.Prelude.{IfOk};
    ghost use Rattle.bully_nodes.specs.Run.{IsGivenBack};

    ghost kept_by = { λ p r.
        IfOk r (λ job. IsGivenBack L.faults p.0 (record { seat = job.seat; counted = job.pass })) };
}

/// What an actor's turns go on from: the operator's from the faults that are left, a node's from its procedure.
#[derive(Drop)]
pub(crate) enum Role {
    Operator(Schedule),
    Node(Procedure),
}

/// A job for each seat, with a pass.
pub(crate) fn pair_jobs<L: Scheduled>(
    alloc: Global,
    mut seats: Vec<Seat>,
    mut passes: Vec<Pass<L>>,
) -> Result<Vec<Job<L>>, OutOfMemory>
    requires seats { All (λ s. (s.actor ≤ L.setup.nodes) × (s.log ≡ [])) seats.items }
    requires passes { All (λ p. p ≡ 0) passes.items }
    ensures { IfOk result (λ jobs. All (λ j. (j.seat.actor ≤ L.setup.nodes) × (j.seat.log ≡ [])
        × (j.pass ≡ 0)) jobs.items) }
{
    let mut jobs = Vec::new(alloc);
    while let Some(seat) = seats.pop() {
        let Some(pass) = passes.pop() else { break };
        jobs.push(Job { seat, pass })?;
    }
    Ok(jobs)
}

/// The seats and the passes, where no thread wanted for memory.
pub(crate) fn split_jobs<L: Scheduled>(
    alloc: Global,
    done: Vec<Result<Job<L>, OutOfMemory>>,
) -> Result<(Vec<Seat>, Vec<Pass<L>>), OutOfMemory>
    requires { All (λ r. IfOk r (λ job. HasDueLog L.faults job.seat)) done.items }
    ensures { IfOk result (λ back. All (HasDueLog L.faults) back.0.items) }
{
    let mut seats = Vec::new(alloc);
    let mut passes = Vec::new(alloc);
    for job in done {
        split_job(&mut seats, &mut passes, job)?;
    }
    Ok((seats, passes))
}

// Adds the seat and the pass that a thread gives back.
fn split_job<L: Scheduled>(
    seats: &mut Vec<Seat>,
    passes: &mut Vec<Pass<L>>,
    job: Result<Job<L>, OutOfMemory>,
) -> Result<(), OutOfMemory>
    requires job { IfOk job (λ job. HasDueLog L.faults job.seat) }
    requires seats { All (HasDueLog L.faults) seats.old.items }
    ensures { OnOk result (All (HasDueLog L.faults) seats.new.items) }
{
    let Job { seat, pass } = job?;
    seats.push(seat)?;
    passes.push(pass)?;
    Ok(())
}

/// The turns of one thread, with a new seat and a new pass.
pub(crate) fn do_job<L: Scheduled, R: Wait, G: Gate>(
    run: &Run<L, R, G>,
    job: Job<L>,
) -> Result<Job<L>, OutOfMemory>
    requires new { (job.seat.actor ≤ L.setup.nodes) × (job.seat.log ≡ []) × (job.pass ≡ 0) }
    ensures turns { IfOk result (λ back. (last : Option ProcedureState) × ActorsTurns
        (IsLocked L.setup L.publisher L.parts) run.now run.now.turns 1 (record { seat = job.seat; counted = job.pass })
        (first_of run.now.setup job.seat.actor) (record { seat = back.seat; counted = back.pass }) last) }
    ensures kept { IfOk result (λ back.
        IsGivenBack L.faults job.seat.actor (record { seat = back.seat; counted = back.pass })) }
{
    let Job { seat, pass } = job;
    let mut access = GroupAccess {
        rt: run.rt,
        alloc: run.alloc,
        group: run.group,
        seat,
        pass,
    };
    let ended = take_turns(&mut access, run.config, run.gate);
    let GroupAccess {
        rt: _,
        alloc: _,
        group: _,
        seat,
        pass,
    } = access;
    match ended {
        Ok(()) => Ok(Job { seat, pass }),
        Err(fault) => Err(fault),
    }
}

// All turns of the seat's actor. One that adds no entry gives its processor away.
#[tactic(auto, using(crate::proofs::RunLemmas::turns_next, crate::proofs::RunLemmas::actors_turns_keep))]
fn take_turns<'a, L: Scheduled, R: Wait, G: Gate>(
    access: &mut GroupAccess<'a, L, R>,
    config: &Config,
    gate: &G,
) -> Result<(), OutOfMemory>
    requires setup { config.now.setup ≡ L.setup }
    requires faults { config.now.faults ≡ L.faults }
    requires within { access.old.seat.actor ≤ config.now.setup.nodes }
    ensures turns { OnOk result ((last : Option ProcedureState) × ActorsTurns (IsLocked L.setup L.publisher L.parts)
        config.now config.now.turns 1 (record { seat = access.old.seat; counted = access.old.pass }) (first_of
        config.now.setup access.old.seat.actor) (record { seat = access.new.seat; counted = access.new.pass }) last) }
    ensures kept { OnOk result ((actor : ℕ)
        → IsGivenBack L.faults actor (record { seat = access.old.seat; counted = access.old.pass })
        → IsGivenBack L.faults actor (record { seat = access.new.seat; counted = access.new.pass })) }
{
    let actor = access.seat.actor();
    let mut role = first_role(access.alloc, config, actor)?;
    for before in 0..config.turns() {
        let counted = access.pass.amount();
        gate.before(actor, before + 1);
        let taken = take_role_turn(access, config, before + 1, &mut role);
        gate.after(actor, before + 1);
        taken?;
        if access.pass.amount() == counted {
            thread::yield_now();
        }
    }
    Ok(())
}

// What an actor's first turn goes on from. Refused where an allocation fails.
fn first_role(alloc: Global, config: &Config, actor: u16) -> Result<Role, OutOfMemory>
    requires { actor ≤ config.now.setup.nodes }
    ensures role { IfOk result (IsRoleOf config.now 1) }
    ensures first { IfOk result (λ role. procedure_of role ≡ first_of config.now.setup actor) }
{
    match Node::new(actor) {
        Some(node) => Ok(Role::Node(Procedure::idle_in(config.setup(), node, 0))),
        None => Ok(Role::Operator(Schedule::new(alloc, config.faults())?)),
    }
}

// One turn of the operator, or of the node that holds a procedure.
fn take_role_turn<'a, L: Scheduled, R: Wait>(
    access: &mut GroupAccess<'a, L, R>,
    config: &Config,
    turn: u32,
    role: &mut Role,
) -> Result<(), OutOfMemory>
    requires setup { config.now.setup ≡ L.setup }
    requires role { IsRoleOf config.now turn role.old }
    ensures role { OnOk result (IsRoleOf config.now (turn + 1) role.new) }
    ensures turn { OnOk result (IsActorsTurn (IsLocked L.setup L.publisher L.parts) config.now turn
        (record { seat = access.old.seat; counted = access.old.pass }) (procedure_of role.old)
        (record { seat = access.new.seat; counted = access.new.pass }) (procedure_of role.new)) }
{
    match role {
        Role::Operator(schedule) => take_operator_turn(access, schedule, turn),
        Role::Node(procedure) => take_node_turn(access, config.period(), turn, procedure),
    }
}
