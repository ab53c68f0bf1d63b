ghost use Rattle.std.specs.Prelude.{◌≡◌, ◌≤◌};
ghost use Rattle.bully_steps.specs.Procedure.{state_of};

use super::hand::{Hand, is_passed};
use bully_base::{Node, Setup};
use bully_group::{Group, Locked, Naming, StepFault};
use bully_steps::{Choice, Driver, Procedure};
use bully_world::Event;
use std::alloc::Global;
use std::marker::Model;
use std::sync::{MutexGuard, Wait};

/// A node that takes its turns: its hand, and the procedure that it holds, whose setup is the group's.
#[derive(Drop)]
pub struct Player<L: Naming> {
    alloc: Global,
    node: Node,
    hand: Hand<L>,
    procedure: Procedure,
}

impl<L: Naming> Model for Player<L> {
    ghost use Rattle.std.specs.Prelude.{◌≡◌};
    ghost use Rattle.bully_steps.specs.Procedure.{state_of};
    ghost use Rattle.bully_steps.specs.ProcedureState.{ProcedureState};

    ghost Value = { ProcedureState };

    ghost view = { λ p. state_of p.procedure };

    ghost invariant = { λ p. (state_of p.procedure).setup ≡ L.setup };
}

impl<L: Naming> Player<L> {
    /// The node's player before any turn. The node is at most the setup's last.
    pub fn new(alloc: Global, setup: &Setup, node: Node, hand: Hand<L>) -> Player<L>
        requires setup { setup.now ≡ L.setup }
        requires node { node ≤ setup.now.nodes }
    {
        Player {
            alloc,
            node,
            hand,
            procedure: Procedure::idle_in(setup, node, 0),
        }
    }

    /// What it takes its turns with.
    pub fn hand(&self) -> &Hand<L> {
        &self.hand
    }

    /// The node's turn in this round, in one hold of the lock: it serves, or else does what it chooses. What the world
    /// refuses, as a full history, is passed over. Whether the turn could be taken.
    // (inlined, as the plain turn is into its loop)
    #[inline(always)]
    pub fn turn<R: Wait>(&mut self, rt: &R, group: &Group<L>, round: u32) -> bool {
        let choice = Driver::choose(round, &self.procedure);
        let mut guard = group.locked.lock(rt);
        let done = self.serve_or_do(&mut *guard, choice);
        MutexGuard::unlock(guard);
        is_passed(done)
    }

    // It serves, or else does what it chose.
    // (inlined, as `turn` is)
    #[inline(always)]
    fn serve_or_do(&mut self, locked: &mut Locked<L>, choice: Choice) -> Result<(), StepFault> {
        match choice {
            Choice::Check => self.hand.serve_or_step(locked, Event::Check(self.node)),
            Choice::Timeout => self.hand.serve_or_step(locked, Event::Timeout(self.node)),
            Choice::Proceed => self.serve_or_proceed(locked),
        }
    }

    // It serves, or else its procedure goes on by the turn rule, with a table where it is Planning.
    #[inline(always)]
    fn serve_or_proceed(&mut self, locked: &mut Locked<L>) -> Result<(), StepFault> {
        prepare(self.alloc, locked, &mut self.procedure);
        let Hand { seat, pass } = &mut self.hand;
        match locked.serve_or_turn(seat, &mut self.procedure, pass) {
            Ok(_) => Ok(()),
            Err(fault) => Err(fault),
        }
    }
}

// The procedure gets a table where it is Planning, memory aside: planned from its node's own task.
fn prepare<L: Naming>(alloc: Global, locked: &Locked<L>, procedure: &mut Procedure)
    requires { (state_of procedure.old).setup ≡ L.setup }
    ensures { (state_of procedure.new).setup ≡ (state_of procedure.old).setup }
{
    if !matches!(procedure, Procedure::Planning(_)) {
        return;
    }
    let _setup = locked.setup();
    let task = locked.world().vector(procedure.node()).task();
    let _ = procedure.prepare(alloc, task);
}
