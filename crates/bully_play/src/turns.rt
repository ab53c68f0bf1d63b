ghost use Rattle.std.specs.Prelude.{◌≡◌, ◌+◌, ◌<◌, List, OnOk};
ghost use Rattle.bully_config.specs.declared.config.Fault.{Fault as AnyFault};
ghost use Rattle.bully_play.specs.Schedule.{AreLeft};
ghost use Rattle.bully_play.specs.Play.{event_of_fault};
ghost use Rattle.bully_play.specs.Turns.{IsTurnOn, OperatesOn};
ghost use Rattle.bully_steps.specs.Procedure.{state_of};
ghost use Rattle.bully_steps.specs.ProcedureState.{HasSameNode};

use crate::backend::Backend;
use crate::schedule::Schedule;
use bully_base::OutOfMemory;
use bully_config::{Fault, FaultKind};
use bully_steps::{Driver, Procedure};
use bully_world::Event;

/// The operator's turn: the faults of this turn, in the order of the document. One that is refused is passed over.
pub fn take_operator_turn<S: Backend>(
    backend: &mut S,
    schedule: &mut Schedule,
    turn: u32,
) -> Result<(), OutOfMemory>
    ensures operates { OnOk result ((faults : List AnyFault) → AreLeft faults turn schedule.old
        → OperatesOn S.applies turn faults backend.old backend.new) }
    ensures left { OnOk result ((faults : List AnyFault) → AreLeft faults turn schedule.old
        → AreLeft faults (turn + 1) schedule.new) }
    ensures setup { OnOk result (S.setup backend.new ≡ S.setup backend.old) }
{
    while let Some(fault) = schedule.take_until(turn) {
        if fault.at == turn {
            backend.apply(fault_event(fault))?;
        }
    }
    Ok(())
}

// The event of a fault.
fn fault_event(fault: Fault) -> Event
    ensures { result ≡ event_of_fault fault }
{
    match fault.kind {
        FaultKind::Crash => Event::Crash(fault.node),
        FaultKind::Recover => Event::Recover(fault.node),
    }
}

/// The turn of this number of the node that holds the procedure, which goes on. If the procedure is Planning, it is
/// prepared first. Then, in one piece, the node serves the call that waits for it, if any; else it goes on as it
/// chooses, with a check once in a period of at least 1.
pub fn take_node_turn<S: Backend>(
    backend: &mut S,
    period: u32,
    turn: u32,
    procedure: &mut Procedure,
) -> Result<(), OutOfMemory>
    requires setup { (state_of procedure.old).setup ≡ S.setup backend.old }
    requires period { 0 < period }
    ensures turn { OnOk result (IsTurnOn S.prepares S.takes period turn backend.old (state_of procedure.old) backend.new
        (state_of procedure.new)) }
    ensures same_node { HasSameNode (state_of procedure.old) (state_of procedure.new) }
    ensures setup { OnOk result (S.setup backend.new ≡ S.setup backend.old) }
{
    backend.prepare(procedure)?;
    let choice = Driver::choose_every(period, turn, procedure);
    backend.carry_out(choice, procedure)
}
