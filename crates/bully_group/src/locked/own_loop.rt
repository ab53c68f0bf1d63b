ghost use Rattle.std.specs.Prelude.{◌≡◌, ◌+◌, IfOk, IfErr, false, if◌then◌else◌};
ghost use Rattle.bully_group.specs.OwnLoop.{handed_back, IfWent, IfWaiting, IfResynced, IfFault, is_went, EndsInStep};
ghost use Rattle.bully_group.specs.Turns.{LeavesInStep, TurnsBy, adds_entry, Goes, Waits, Resyncs, Fails, IsTurnFault};
ghost use Rattle.bully_steps.specs.Procedure.{state_of};
ghost use Rattle.bully_steps.specs.ProcedureState.{HasSameNode};

use super::Locked;
use super::step::{StepFault, foreign_index};
use super::turn::NodeTurn;
use crate::naming::Naming;
use crate::pass::Pass;
use crate::seat::Seat;
use bully_steps::Procedure;

/// What became of a turn by [`Locked::turn`], which is for a caller's own loop. Each hands a procedure of the same node
/// back.
#[derive(Drop)]
pub enum Turn {
    /// A step was taken, and the procedure goes on by it.
    Went(Procedure),
    /// There is nothing that it can do now; it is as it was.
    Waiting(Procedure),
    /// It wasn't in step with the world. It is given up for the one that the world shows.
    Resynced(Procedure),
    /// No turn was taken, for this fault; it is as it was.
    Fault(Procedure, StepFault),
}

impl<L: Naming> Locked<L> {
    /// Takes the turn of the seat's node by the turn rule alone, with the procedure that the node holds, whose setup is
    /// the group's. It is for a caller's own loop, which serves beside it as it likes: node threads take
    /// [`Locked::serve_or_turn`]. A step that is taken adds an entry as `step` does. Refused, in this order, as
    /// `Foreign`, `NotYours` where the seat isn't that of the procedure's node, then, where the rule has a step,
    /// `Refused` as Full, and `OutOfMemory`; then nothing changes. The rule: docs/ALGORITHM.md.
    pub fn turn(&mut self, seat: &mut Seat, procedure: Procedure, pass: &mut Pass<L>) -> Turn
        requires setup { (state_of procedure).setup ≡ L.setup }
        ensures went { IfWent result (Goes self.old seat.old (state_of procedure) self.new seat.new) }
        ensures waiting { IfWaiting result (Waits self.old seat.old (state_of procedure)) }
        ensures resynced { IfResynced result (Resyncs self.old seat.old (state_of procedure)) }
        ensures fault { IfFault result (Fails self.old seat.old (state_of procedure)) }
        ensures in_step { EndsInStep self.new result }
        ensures same_node { HasSameNode (state_of procedure) (handed_back result) }
        ensures unchanged { is_went result ≡ false → (self.new ≡ self.old) × (seat.new ≡ seat.old) }
        ensures pass { pass.new ≡ (if is_went result then pass.old + 1 else pass.old) }
    {
        let mut procedure = procedure;
        match self.turn_in_place(seat, &mut procedure, pass) {
            Ok(NodeTurn::Went) => Turn::Went(procedure),
            Ok(NodeTurn::Waiting) => Turn::Waiting(procedure),
            Ok(NodeTurn::Resynced) => Turn::Resynced(procedure),
            Ok(NodeTurn::Served) => unreachable!(),
            Err(fault) => Turn::Fault(procedure, fault),
        }
    }

    /// [`Locked::turn`], with the procedure where it lies. After a fault it is as it was.
    pub fn turn_in_place(
        &mut self,
        seat: &mut Seat,
        procedure: &mut Procedure,
        pass: &mut Pass<L>,
    ) -> Result<NodeTurn, StepFault>
        requires setup { (state_of procedure.old).setup ≡ L.setup }
        ensures turn { IfOk result
            (TurnsBy self.old seat.old (state_of procedure.old) self.new seat.new (state_of procedure.new)) }
        ensures fault { IfErr result (IsTurnFault self.old seat.old (state_of procedure.old)) }
        ensures in_step { IfOk result (LeavesInStep self.new (state_of procedure.new)) }
        ensures same_node { HasSameNode (state_of procedure.old) (state_of procedure.new) }
        ensures unchanged { IfErr result (λ _. (self.new ≡ self.old) × (seat.new ≡ seat.old)
            × (state_of procedure.new ≡ state_of procedure.old)) }
        ensures pass { pass.new ≡ (if adds_entry result then pass.old + 1 else pass.old) }
    {
        if let Some(index) = foreign_index(&self.history, seat) {
            return Err(StepFault::Foreign { index });
        }
        if seat.actor != procedure.node().number() {
            return Err(StepFault::NotYours);
        }
        self.turn_known(seat, procedure, pass)
    }
}
