ghost use Rattle.std.specs.Prelude.{◌≡◌, ◌≤◌, ◌++◌, ◌∷◌, [], length, IfOk, OnOk};
ghost use Rattle.bully_play.specs.Play.{trace_setup};
ghost use Rattle.bully_play.specs.Recording.{Applies, Steps};
ghost use Rattle.bully_play.specs.Turns.{GoesOn, ProceedsIn};
ghost use Rattle.bully_steps.specs.Procedure.{state_of};
ghost use Rattle.bully_steps.specs.ProcedureState.{HasSameNode};
ghost use Rattle.bully_rows.specs.Trace.{trace_for};
ghost use Rattle.bully_rows.specs.declared.TheConstants.{ROWS_MAX};
ghost use Rattle.bully_world.specs.State.{first_state};
ghost use Rattle.bully_world.specs.Turn.{turn};
ghost use Rattle.bully_world.specs.declared.turn.Next.{Next};

use crate::backend::Backend;
use crate::trace::trace_with;
use bully_base::{OutOfMemory, Setup};
use bully_rows::{Row, Trace};
use bully_steps::{Choice, Procedure};
use bully_world::{Event, Next, StepKind, World};
use std::alloc::Global;
use std::marker::Model;

/// A world, and a row of a trace for each event that led to it, in order.
#[derive(Drop)]
pub struct Recording {
    world: World,
    rows: Vec<Row>,
}

impl Model for Recording {
    ghost use Rattle.bully_play.specs.Recording.{RecordingState};

    ghost Value = { RecordingState };

    ghost view = { λ r. record { world = r.world; rows = r.rows.items } };
}

impl Recording {
    /// The world before any event, and no row. Refused where an allocation fails.
    pub fn new(alloc: Global, setup: Setup) -> Result<Recording, OutOfMemory>
        ensures { IfOk result (λ r. r ≡ record { world = first_state setup; rows = [] }) }
    {
        Ok(Recording {
            world: World::new(alloc, setup)?,
            rows: Vec::new(alloc),
        })
    }

    // The procedure's node does what it chose. A check or a timeout leaves the procedure as it is.
    fn go_on(&mut self, choice: Choice, procedure: &mut Procedure) -> Result<(), OutOfMemory>
        requires setup { (state_of procedure.old).setup ≡ self.old.world.setup }
        ensures goes_on { OnOk result
            (GoesOn Applies ProceedsIn choice self.old (state_of procedure.old) self.new (state_of procedure.new)) }
        ensures same_node { HasSameNode (state_of procedure.old) (state_of procedure.new) }
        ensures setup { OnOk result (self.new.world.setup ≡ self.old.world.setup) }
    {
        match choice {
            Choice::Check => self.apply(Event::Check(procedure.node())),
            Choice::Timeout => self.apply(Event::Timeout(procedure.node())),
            Choice::Proceed => self.proceed(procedure),
        }
    }

    // The procedure goes on by the turn rule.
    fn proceed(&mut self, procedure: &mut Procedure) -> Result<(), OutOfMemory>
        requires setup { (state_of procedure.old).setup ≡ self.old.world.setup }
        ensures proceeds { OnOk result
            (ProceedsIn self.old (state_of procedure.old) self.new (state_of procedure.new)) }
        ensures same_node { HasSameNode (state_of procedure.old) (state_of procedure.new) }
        ensures setup { OnOk result (self.new.world.setup ≡ self.old.world.setup) }
    {
        match self.world.next(procedure) {
            Next::Resync => {
                self.world.resync(procedure);
                Ok(())
            }
            Next::Rest => Ok(()),
            Next::Take(kind) => self.apply_step(kind, procedure),
        }
    }

    // Takes a step that the turn rule offers, and records its event; the procedure goes on by it. Where the world
    // refuses the step, nothing changes. Refused where an allocation fails.
    fn apply_step(&mut self, kind: StepKind, procedure: &mut Procedure) -> Result<(), OutOfMemory>
        requires setup { (state_of procedure.old).setup ≡ self.old.world.setup }
        requires offered { turn self.old.world (state_of procedure.old) ≡ Next.Take kind }
        ensures steps { OnOk result (Steps kind self.old (state_of procedure.old) self.new (state_of procedure.new)) }
        ensures same_node { HasSameNode (state_of procedure.old) (state_of procedure.new) }
    {
        match self.world.apply_step(kind, procedure) {
            Ok(step) => self.record(step.event),
            Err(_) => Ok(()),
        }
    }

    /// The trace of what was recorded.
    pub fn into_trace(self) -> Trace
        requires { length self.rows ≤ ROWS_MAX }
        ensures { result ≡ trace_for (trace_setup self.world.setup) self.rows }
    {
        let Recording { world, rows } = self;
        trace_with(world.setup(), rows)
    }

    // A row for an event that was applied.
    fn record(&mut self, event: Event) -> Result<(), OutOfMemory>
        ensures { OnOk result (self.new ≡ record self.old { rows = self.old.rows ++ Row.Event event ∷ [] }) }
    {
        self.rows.push(Row::Event(event))?;
        Ok(())
    }
}

impl Backend for Recording {
    ghost use Rattle.bully_play.specs.Recording.{Applies};
    ghost use Rattle.bully_play.specs.Turns.{Prepares, TakesIn};

    ghost setup = { λ r. r.world.setup };

    ghost applies = { Applies };

    ghost prepares = { Prepares };

    ghost takes = { TakesIn };

    // An event that the world refuses isn't recorded.
    fn apply(&mut self, event: Event) -> Result<(), OutOfMemory> {
        match self.world.apply(&event) {
            Ok(_) => self.record(event),
            Err(_) => Ok(()),
        }
    }

    fn prepare(&mut self, procedure: &mut Procedure) -> Result<(), OutOfMemory> {
        let task = self.world.vector(procedure.node()).task();
        procedure.prepare(*self.rows.allocator(), task)
    }

    fn carry_out(&mut self, choice: Choice, procedure: &mut Procedure) -> Result<(), OutOfMemory> {
        match self.world.caller_to_serve(procedure.node()) {
            Some(caller) => self.apply(Event::Run(caller)),
            None => self.go_on(choice, procedure),
        }
    }
}
