ghost use Rattle.std.specs.Prelude.{◌≡◌, ◌+◌, ◌<◌, IfOk, OnOk, IfErr, IfSome, true};
ghost use Rattle.std.specs.Option.{option_map_or};
ghost use Rattle.bully_steps.specs.ProcedureState.{IsProcedureState, HasSameNode, CanResume, resumed};
ghost use Rattle.bully_steps.specs.Procedure.{state_of};
ghost use Rattle.bully_world.specs.State.{StepsTo, KeepsGenerations, IsFull};
ghost use Rattle.bully_world.specs.Turn.{turn, has_table, step_event, is_in_step, procedure_after, procedure_left};
ghost use Rattle.bully_world.specs.Turn.{outcome_brought, outcome_left};
ghost use Rattle.bully_world.specs.declared.turn.Next.{Next};
ghost use Rattle.bully_world.specs.declared.turn.StepKind.{StepKind};

use crate::World;
use crate::turn::StepKind;
use bully_calls::{Answer, Event, Outcome, Refused};
use bully_steps::Procedure;

/// A step that a node took by its procedure.
#[derive(Drop)]
pub struct AppliedStep {
    /// What was applied. A plan has the procedure's table.
    pub event: Event,
    /// What it was answered.
    pub answer: Answer,
}

impl World {
    /// Takes the step that the turn rule offers the procedure, whose setup is the world's: applies its event, and
    /// the procedure goes on by the outcome, where it lies. After a loss, and after an orphan's return or drop, it is
    /// the same. Takes no memory: a plan's event has the procedure's table. Refused as Full where as many events as the
    /// setup bounds were applied; then world and procedure are unchanged.
    pub fn apply_step(
        &mut self,
        kind: StepKind,
        procedure: &mut Procedure,
    ) -> Result<AppliedStep, Refused>
        requires setup { (state_of procedure.old).setup ≡ self.old.setup }
        requires offered { turn self.old (state_of procedure.old) ≡ Next.Take kind }
        ensures step { IfOk result (λ taken. StepsTo self.old taken.event self.new taken.answer) }
        ensures counted { OnOk result (self.new.events ≡ self.old.events + 1) }
        ensures generations { OnOk result (KeepsGenerations self.old self.new) }
        ensures setup { self.new.setup ≡ self.old.setup }
        ensures event { IfOk result (λ taken. taken.event ≡ step_event kind (state_of procedure.old)) }
        ensures procedure { IfOk result (λ taken.
            state_of procedure.new ≡ procedure_after kind taken.answer (state_of procedure.old)) }
        ensures in_step { OnOk result (is_in_step self.new (state_of procedure.new) ≡ true) }
        ensures same_node { HasSameNode (state_of procedure.old) (state_of procedure.new) }
        ensures room { OnOk result (self.old.events < self.old.setup.events_max) }
        ensures refused { IfErr result (λ why. (why ≡ Refused.Full) × IsFull self.old) }
        ensures unchanged { IfErr result (λ _. (self.new ≡ self.old) × (procedure.new ≡ procedure.old)) }
    {
        if self.is_full() {
            return Err(Refused::Full);
        }
        let event = kind.take_event(procedure);
        let answer = self.apply_allowed(&event);
        advance_after(procedure, kind, answer);
        Ok(AppliedStep { event, answer })
    }
}

impl StepKind {
    /// The event of the procedure's step. A plan takes the table from the procedure, which goes on then.
    pub fn take_event(self, procedure: &mut Procedure) -> Event
        requires { self ≡ StepKind.Plan → has_table (state_of procedure.old) ≡ true }
        ensures event { result ≡ step_event self (state_of procedure.old) }
        ensures left { state_of procedure.new ≡ procedure_left self (state_of procedure.old) }
        ensures state { IsProcedureState (state_of procedure.old) }
    {
        let node = procedure.node();
        let table = match self {
            StepKind::Plan => Some(procedure.take_plan()),
            _ => None,
        };
        self.event(node, table)
    }
}

// By what a procedure goes on after its step with this answer, if by anything. A plan's went on with its event.
fn outcome_by(kind: StepKind, answer: Answer) -> Option<Outcome>
    ensures { result ≡ outcome_left kind answer }
{
    match kind {
        StepKind::Start => Some(Outcome::Started),
        StepKind::Return => outcome_brought(answer),
        StepKind::Move => Some(Outcome::Moved),
        _ => None,
    }
}

// What a call that is answered so brings, if anything.
fn outcome_brought(answer: Answer) -> Option<Outcome>
    ensures { result ≡ outcome_brought answer }
{
    match answer {
        Answer::Yes => Some(Outcome::Yes),
        Answer::No => Some(Outcome::No),
        Answer::Failed => Some(Outcome::Failed),
        Answer::Done | Answer::Discarded => None,
    }
}

// The procedure goes on after its step with this answer.
fn advance_after(procedure: &mut Procedure, kind: StepKind, answer: Answer)
    requires { IfSome (outcome_left kind answer) (CanResume (state_of procedure.old)) }
    ensures { state_of procedure.new
        ≡ option_map_or (resumed (state_of procedure.old)) (outcome_left kind answer) (state_of procedure.old) }
{
    if let Some(outcome) = outcome_by(kind, answer) {
        procedure.advance(outcome);
    }
}
