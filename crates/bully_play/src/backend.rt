ghost use Rattle.std.specs.Prelude.{◌≡◌, OnOk};
ghost use Rattle.bully_steps.specs.Procedure.{state_of};
ghost use Rattle.bully_steps.specs.ProcedureState.{HasSameNode};

use bully_base::OutOfMemory;
use bully_steps::{Choice, Procedure};
use bully_world::Event;

/// What turns are taken on: a world whose events are recorded, or a group at its lock. Each call is refused where an
/// allocation fails.
pub trait Backend {
    ghost use Rattle.bully_base.specs.Setup.{Setup};
    ghost use Rattle.bully_steps.specs.declared.driver.Choice.{Choice as AnyChoice};
    ghost use Rattle.bully_steps.specs.ProcedureState.{ProcedureState};
    ghost use Rattle.bully_calls.specs.declared.event.Event.{Event as AnyEvent};

    // The group's setup.
    ghost setup: { Self → Setup };

    // What applying an event does.
    ghost applies: { AnyEvent → Self → Self → Type 0 };

    // Which procedure another one is prepared to.
    ghost prepares: { Self → ProcedureState → ProcedureState → Type 0 };

    // What comes in one piece: the procedure's node serves, or else does what it chose.
    ghost takes: { AnyChoice → Self → ProcedureState → Self → ProcedureState → Type 0 };

    /// Applies the event; one that is refused is passed over.
    fn apply(&mut self, event: Event) -> Result<(), OutOfMemory>
        ensures applies { OnOk result (applies event self.old self.new) }
        ensures setup { OnOk result (setup self.new ≡ setup self.old) };

    /// Gives the procedure a table where it is Planning, planned from its node's task.
    fn prepare(&mut self, procedure: &mut Procedure) -> Result<(), OutOfMemory>
        requires { (state_of procedure.old).setup ≡ setup self.old }
        ensures prepares { OnOk result (prepares self.old (state_of procedure.old) (state_of procedure.new)) }
        ensures same_node { HasSameNode (state_of procedure.old) (state_of procedure.new) }
        ensures same { self.new ≡ self.old };

    /// Runs the call that waits for the procedure's node. Where none does, the node does what it chose: a check, a
    /// timeout, or what the turn rule says of the procedure, which goes on by that.
    fn carry_out(&mut self, choice: Choice, procedure: &mut Procedure) -> Result<(), OutOfMemory>
        requires { (state_of procedure.old).setup ≡ setup self.old }
        ensures takes { OnOk result (takes choice self.old (state_of procedure.old) self.new (state_of procedure.new)) }
        ensures same_node { HasSameNode (state_of procedure.old) (state_of procedure.new) }
        ensures setup { OnOk result (setup self.new ≡ setup self.old) };
}
