ghost use Rattle.std.specs.Prelude.{◌≡◌, ◌+◌, ◌<◌, IfOk, IfErr, OnOk, is_ok, true, vec_len, vec_capacity};
ghost use Rattle.std.specs.Prelude.{if◌then◌else◌};
ghost use Rattle.bully_group.specs.Turns.{IsNodeTurn, IsNodeTurnFault, LeavesInStep, TurnsBy, adds_entry, MayTurn};
ghost use Rattle.bully_group.specs.Turns.{Goes, IsTurnFault};
ghost use Rattle.bully_steps.specs.Procedure.{state_of};
ghost use Rattle.bully_steps.specs.ProcedureState.{HasSameNode};
ghost use Rattle.bully_world.specs.Turn.{turn, has_table, is_in_step, step_event};
ghost use Rattle.bully_world.specs.declared.turn.Next.{Next};
ghost use Rattle.bully_world.specs.declared.turn.StepKind.{StepKind};

use super::Locked;
use super::step::{StepFault, foreign_index, record_entry, reserve_entry};
use crate::naming::Naming;
use crate::pass::Pass;
use crate::seat::Seat;
use bully_base::OutOfMemory;
use bully_steps::Procedure;
use bully_watch::Entry;
use bully_world::{AppliedStep, Event, Next, Refused, StepKind};

/// What became of a node's whole turn, in which the procedure that it holds goes on in its place.
#[derive(Clone, Copy, Debug)]
pub enum NodeTurn {
    /// The call that waited for the node ran. The procedure is as it was.
    Served,
    /// The procedure took a step, and went on by it.
    Went,
    /// There was nothing that the procedure could do. It is as it was.
    Waiting,
    /// The procedure wasn't in step with the world. It was given up for the one that the world shows.
    Resynced,
}

impl<L: Naming> Locked<L> {
    /// The whole turn of the seat's node in one hold of the lock, with the procedure that it holds, whose setup is the
    /// group's: it serves as [`Locked::serve`] does, and where it serves no call, it takes the turn of the procedure as
    /// [`Locked::turn`] does. Refused, in this order, as `Foreign`, `NotYours` where the seat isn't that of the
    /// procedure's node, and as the serve or the turn is; then nothing changes. The rule: docs/ALGORITHM.md.
    #[tactic(auto, using(crate::proofs::TurnLemmas::serve_fault))]
    // (inlined with what it calls: most turns do nothing, and are short)
    #[inline(always)]
    pub fn serve_or_turn(
        &mut self,
        seat: &mut Seat,
        procedure: &mut Procedure,
        pass: &mut Pass<L>,
    ) -> Result<NodeTurn, StepFault>
        requires setup { (state_of procedure.old).setup ≡ L.setup }
        ensures turn { IfOk result
            (IsNodeTurn self.old seat.old (state_of procedure.old) self.new seat.new (state_of procedure.new)) }
        ensures fault { IfErr result (IsNodeTurnFault self.old seat.old (state_of procedure.old)) }
        ensures in_step { IfOk result (LeavesInStep self.new (state_of procedure.new)) }
        ensures same_node { HasSameNode (state_of procedure.old) (state_of procedure.new) }
        ensures unchanged { IfErr result (λ _. (self.new ≡ self.old) × (seat.new ≡ seat.old)
            × (state_of procedure.new ≡ state_of procedure.old)) }
        ensures pass { pass.new ≡ (if adds_entry result then pass.old + 1 else pass.old) }
    {
        if let Some(index) = foreign_index(&self.history, seat) {
            return Err(StepFault::Foreign { index });
        }
        let node = procedure.node();
        if seat.actor != node.number() {
            return Err(StepFault::NotYours);
        }
        if self.serve_node(node, seat, pass)? {
            return Ok(NodeTurn::Served);
        }
        self.turn_known(seat, procedure, pass)
    }

    // The turn of the procedure of the seat's node, where the seat is known.
    #[tactic(auto, using(crate::proofs::WorldLemmas::rest_in_step))]
    #[inline(always)]
    pub(crate) fn turn_known(
        &mut self,
        seat: &mut Seat,
        procedure: &mut Procedure,
        pass: &mut Pass<L>,
    ) -> Result<NodeTurn, StepFault>
        requires setup { (state_of procedure.old).setup ≡ L.setup }
        requires may { MayTurn self.old seat.old (state_of procedure.old) }
        ensures turn { IfOk result
            (TurnsBy self.old seat.old (state_of procedure.old) self.new seat.new (state_of procedure.new)) }
        ensures fault { IfErr result (IsTurnFault self.old seat.old (state_of procedure.old)) }
        ensures in_step { IfOk result (LeavesInStep self.new (state_of procedure.new)) }
        ensures same_node { HasSameNode (state_of procedure.old) (state_of procedure.new) }
        ensures unchanged { IfErr result (λ _. (self.new ≡ self.old) × (seat.new ≡ seat.old)
            × (state_of procedure.new ≡ state_of procedure.old)) }
        ensures pass { pass.new ≡ (if adds_entry result then pass.old + 1 else pass.old) }
    {
        match self.world.next(procedure) {
            Next::Resync => {
                self.world.resync(procedure);
                Ok(NodeTurn::Resynced)
            }
            Next::Rest => Ok(NodeTurn::Waiting),
            Next::Take(kind) => {
                self.apply_offered(kind, seat, procedure, pass)?;
                Ok(NodeTurn::Went)
            }
        }
    }

    // Takes the step that the turn rule offers the procedure of the seat's node. Everything is reserved before anything
    // changes.
    #[inline(always)]
    fn apply_offered(
        &mut self,
        kind: StepKind,
        seat: &mut Seat,
        procedure: &mut Procedure,
        pass: &mut Pass<L>,
    ) -> Result<(), StepFault>
        requires setup { (state_of procedure.old).setup ≡ self.old.world.setup }
        requires may { MayTurn self.old seat.old (state_of procedure.old) }
        requires offered { turn self.old.world (state_of procedure.old) ≡ Next.Take kind }
        ensures went { OnOk result
            (Goes self.old seat.old (state_of procedure.old) self.new seat.new (state_of procedure.new)) }
        ensures fault { IfErr result (IsTurnFault self.old seat.old (state_of procedure.old)) }
        ensures in_step { OnOk result (is_in_step self.new.world (state_of procedure.new) ≡ true) }
        ensures same_node { HasSameNode (state_of procedure.old) (state_of procedure.new) }
        ensures unchanged { IfErr result (λ _. (self.new ≡ self.old) × (seat.new ≡ seat.old)
            × (state_of procedure.new ≡ state_of procedure.old)) }
        ensures pass { pass.new ≡ (if is_ok result then pass.old + 1 else pass.old) }
    {
        if self.world.is_full() {
            return Err(StepFault::Refused(Refused::Full));
        }
        let Ok(logged) = event_with_room(kind, procedure, &mut self.history, &mut seat.log) else {
            return Err(StepFault::OutOfMemory);
        };
        let Ok(AppliedStep { event, answer }) = self.world.apply_step(kind, procedure) else {
            unreachable!()
        };
        pass.count(&mut self.book);
        let entry = Entry {
            actor: seat.actor,
            event,
            answer,
        };
        record_entry(&mut self.history, &mut seat.log, entry, logged);
        Ok(())
    }
}

// A copy of the event of the procedure's step, a plan's with the procedure's table, and room for one entry more in the
// history and in the log, which have the entries that they had.
#[inline(always)]
fn event_with_room(
    kind: StepKind,
    procedure: &Procedure,
    history: &mut Vec<Entry>,
    log: &mut Vec<(usize, Entry)>,
) -> Result<Event, OutOfMemory>
    requires { kind ≡ StepKind.Plan → has_table (state_of procedure.now) ≡ true }
    ensures event { IfOk result (λ event. event ≡ step_event kind (state_of procedure.now)) }
    ensures history { history.new.items ≡ history.old.items }
    ensures log { log.new.items ≡ log.old.items }
    ensures room { OnOk result (vec_len history.new < vec_capacity history.new) }
    ensures log_room { OnOk result (vec_len log.new < vec_capacity log.new) }
{
    reserve_entry(history, log)?;
    let table = match kind {
        StepKind::Plan => Some(procedure.table().unwrap().copy()?),
        _ => None,
    };
    Ok(kind.event(procedure.node(), table))
}
