ghost use Rattle.std.specs.Prelude.{◌≡◌, ◌<◌, ℕ, true, IfOk, OnOk};
ghost use Rattle.bully_agree.specs.View.{shown as shown_at};
ghost use Rattle.bully_group.specs.Locked.{IsLocked};
ghost use Rattle.bully_nodes.specs.Run.{Applies, AppliesAt, Serves, ServesOrApplies, Proceeds, TakesAt, IsReady};
ghost use Rattle.bully_play.specs.Turns.{ServesOrGoesOn};
ghost use Rattle.bully_steps.specs.declared.driver.Choice.{Choice as AnyChoice};
ghost use Rattle.bully_steps.specs.Prepared.{prepared_from};
ghost use Rattle.bully_steps.specs.Procedure.{state_of};
ghost use Rattle.bully_steps.specs.ProcedureState.{HasSameNode};

use bully_agree::View;
use bully_base::OutOfMemory;
use bully_group::{Group, Locked, Naming, Pass, Seat, StepFault, ViewFault};
use bully_play::Backend;
use bully_steps::{Choice, Procedure};
use bully_world::Event;
use std::alloc::{AllocError, Global};
use std::sync::{MutexGuard, Wait};

/// A thread's place at a group: its seat and its pass, beside the lock. Each call takes the lock once, and a node's
/// serve or step is one call. A fault other than the want of memory ends a turn without effect.
#[derive(Drop)]
pub(crate) struct GroupAccess<'a, L: Naming, R: Wait> {
    pub rt: &'a R,
    pub alloc: Global,
    pub group: &'a Group<L>,
    pub seat: Seat,
    pub pass: Pass<L>,
}

impl<'a, L: Naming, R: Wait> Backend for GroupAccess<'a, L, R> {
    ghost use Rattle.bully_group.specs.Locked.{IsLocked};
    ghost use Rattle.bully_nodes.specs.Run.{AppliesAt, PreparesAt, TakesAt};

    ghost setup = { λ _. L.setup };

    ghost applies = { λ e before after. AppliesAt (IsLocked L.setup L.publisher L.parts) e
        (record { seat = before.seat; counted = before.pass }) (record { seat = after.seat; counted = after.pass }) };

    ghost prepares = { λ before h ready. PreparesAt (IsLocked L.setup L.publisher L.parts)
        (record { seat = before.seat; counted = before.pass }) h ready };

    ghost takes = { λ choice before h after h'. TakesAt
        (IsLocked L.setup L.publisher L.parts) choice (record { seat = before.seat; counted = before.pass }) h
        (record { seat = after.seat; counted = after.pass }) h' };

    fn apply(&mut self, event: Event) -> Result<(), OutOfMemory> {
        let mut guard = self.group.locked.lock(self.rt);
        let answer = apply_at(&mut guard, &mut self.seat, &event, &mut self.pass);
        MutexGuard::unlock(guard);
        answer
    }

    // The lock is held for the view alone.
    fn prepare(&mut self, procedure: &mut Procedure) -> Result<(), OutOfMemory> {
        if is_ready(procedure) {
            return Ok(());
        }
        let guard = self.group.locked.lock(self.rt);
        let answer = guard.view(&self.seat);
        MutexGuard::unlock(guard);
        match answer {
            Ok(shown) => prepare_by(self.alloc, &shown, procedure),
            Err(ViewFault::OutOfMemory) => Err(AllocError),
            Err(ViewFault::Foreign { .. }) => Ok(()),
        }
    }

    // The lock is held once, for the serve and for what comes where no call waits.
    fn carry_out(&mut self, choice: Choice, procedure: &mut Procedure) -> Result<(), OutOfMemory> {
        let mut guard = self.group.locked.lock(self.rt);
        let answer = carry_out_at(
            &mut guard,
            &mut self.seat,
            choice,
            procedure,
            &mut self.pass,
        );
        MutexGuard::unlock(guard);
        answer
    }
}

// The operator's step of the event. A refused one is passed over.
fn apply_at<L: Naming>(
    locked: &mut Locked<L>,
    seat: &mut Seat,
    event: &Event,
    pass: &mut Pass<L>,
) -> Result<(), OutOfMemory>
    ensures { OnOk result (AppliesAt (IsLocked L.setup L.publisher L.parts) event.now
        (record { seat = seat.old; counted = pass.old }) (record { seat = seat.new; counted = pass.new })) }
{
    // Shows the proof that the group's state is one that its type keeps.
    let _ = locked.history();
    apply_to(locked, seat, event, pass)
}

// The turn of the seat's node: it serves, or else does what it chose.
fn carry_out_at<L: Naming>(
    locked: &mut Locked<L>,
    seat: &mut Seat,
    choice: Choice,
    procedure: &mut Procedure,
    pass: &mut Pass<L>,
) -> Result<(), OutOfMemory>
    requires { (state_of procedure.old).setup ≡ L.setup }
    ensures takes { OnOk result
        (TakesAt (IsLocked L.setup L.publisher L.parts) choice (record { seat = seat.old; counted = pass.old })
        (state_of procedure.old) (record { seat = seat.new; counted = pass.new }) (state_of procedure.new)) }
    ensures same_node { HasSameNode (state_of procedure.old) (state_of procedure.new) }
{
    let _ = locked.history();
    let node = procedure.node();
    match choice {
        Choice::Check => serve_or_apply(locked, seat, &Event::Check(node), pass),
        Choice::Timeout => serve_or_apply(locked, seat, &Event::Timeout(node), pass),
        Choice::Proceed => serve_or_proceed(locked, seat, procedure, pass),
    }
}

// Takes the event's step. A refused one is passed over.
fn apply_to<L: Naming>(
    locked: &mut Locked<L>,
    seat: &mut Seat,
    event: &Event,
    pass: &mut Pass<L>,
) -> Result<(), OutOfMemory>
    ensures { OnOk result
        (Applies event.now (record { group = locked.old; own = record { seat = seat.old; counted = pass.old } })
        (record { group = locked.new; own = record { seat = seat.new; counted = pass.new } })) }
{
    match locked.step(seat, event, pass) {
        Err(StepFault::OutOfMemory) => Err(AllocError),
        _ => Ok(()),
    }
}

// Serves the call that waits for the seat's node. A refused serve ends the turn.
fn serve_at<L: Naming>(
    locked: &mut Locked<L>,
    seat: &mut Seat,
    pass: &mut Pass<L>,
) -> Result<bool, OutOfMemory>
    ensures { IfOk result (λ served. (node : ℕ)
        → Serves (record { group = locked.old; own = record { seat = seat.old; counted = pass.old } }) node served
        (record { group = locked.new; own = record { seat = seat.new; counted = pass.new } })) }
{
    match locked.serve(seat, pass) {
        Ok(served) => Ok(served),
        Err(StepFault::OutOfMemory) => Err(AllocError),
        Err(_) => Ok(true),
    }
}

// Serves, or else takes the event's step.
fn serve_or_apply<L: Naming>(
    locked: &mut Locked<L>,
    seat: &mut Seat,
    event: &Event,
    pass: &mut Pass<L>,
) -> Result<(), OutOfMemory>
    ensures { OnOk result
        (ServesOrApplies event.now (record { group = locked.old; own = record { seat = seat.old; counted = pass.old } })
        (record { group = locked.new; own = record { seat = seat.new; counted = pass.new } })) }
{
    if serve_at(locked, seat, pass)? {
        return Ok(());
    }
    apply_to(locked, seat, event, pass)
}

// Serves, or else takes the procedure's turn by the turn rule.
fn serve_or_proceed<L: Naming>(
    locked: &mut Locked<L>,
    seat: &mut Seat,
    procedure: &mut Procedure,
    pass: &mut Pass<L>,
) -> Result<(), OutOfMemory>
    requires setup { (state_of procedure.old).setup ≡ L.setup }
    requires node { 0 < (state_of procedure.old).node }
    ensures takes { OnOk result (ServesOrGoesOn Applies Serves Proceeds AnyChoice.Proceed
        (record { group = locked.old; own = record { seat = seat.old; counted = pass.old } })
        (state_of procedure.old) (record { group = locked.new; own = record { seat = seat.new; counted = pass.new } })
        (state_of procedure.new)) }
    ensures same_node { HasSameNode (state_of procedure.old) (state_of procedure.new) }
{
    match locked.serve_or_turn(seat, procedure, pass) {
        Err(StepFault::OutOfMemory) => Err(AllocError),
        _ => Ok(()),
    }
}

// Whether the procedure isn't at Planning, or has its table.
fn is_ready(procedure: &Procedure) -> bool
    ensures { result ≡ true → IsReady (state_of procedure.now) }
{
    !matches!(procedure, Procedure::Planning(_))
}

// Prepares the procedure from the task that is shown of its node.
fn prepare_by(alloc: Global, shown: &View, procedure: &mut Procedure) -> Result<(), OutOfMemory>
    requires { (state_of procedure.old).setup ≡ shown.now.setup }
    ensures prepared { OnOk result (state_of procedure.new
        ≡ prepared_from (shown_at shown.now (state_of procedure.old).node).task (state_of procedure.old)) }
    ensures same_node { HasSameNode (state_of procedure.old) (state_of procedure.new) }
{
    // Shows the proof that a lawful list leads to the world that is viewed.
    let _ = shown.events();
    procedure.prepare(alloc, shown.task(procedure.node()))
}
