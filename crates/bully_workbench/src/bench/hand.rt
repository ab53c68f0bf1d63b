use bully_base::Node;
use bully_group::{Group, Locked, Naming, Pass, Seat, StepFault};
use bully_world::Event;
use std::sync::{MutexGuard, Wait};

/// What an actor of a group takes its turns with: its seat and its pass.
#[derive(Drop)]
pub struct Hand<L: Naming> {
    pub seat: Seat,
    pub pass: Pass<L>,
}

impl<L: Naming> Hand<L> {
    /// That of the last actor whose seat and pass are left.
    pub fn pop(seats: &mut Vec<Seat>, passes: &mut Vec<Pass<L>>) -> Option<Hand<L>> {
        let pass = passes.pop()?;
        match seats.pop() {
            Some(seat) => Some(Hand { seat, pass }),
            None => None,
        }
    }

    /// The operator lets the node of this number crash, or recover, in one hold of the lock. What the world refuses is
    /// passed over. Whether the turn could be taken.
    pub fn operate<R: Wait>(
        &mut self,
        rt: &R,
        group: &Group<L>,
        number: u16,
        crashes: bool,
    ) -> bool {
        let Some(node) = Node::new(number) else {
            return false;
        };
        let event = if crashes {
            Event::Crash(node)
        } else {
            Event::Recover(node)
        };
        let mut guard = group.locked.lock(rt);
        let stepped = guard.step(&mut self.seat, &event, &mut self.pass);
        MutexGuard::unlock(guard);
        is_passed(stepped)
    }

    /// The node serves, or else takes this event.
    #[inline(always)]
    pub fn serve_or_step(&mut self, locked: &mut Locked<L>, event: Event) -> Result<(), StepFault> {
        match locked.serve(&mut self.seat, &mut self.pass) {
            Ok(true) => Ok(()),
            Ok(false) => locked.step(&mut self.seat, &event, &mut self.pass),
            Err(fault) => Err(fault),
        }
    }

    /// The history is shown to the group's observers, under the lock. What is told is dropped. Whether it could be.
    pub fn publish<R: Wait>(&self, rt: &R, group: &Group<L>) -> bool {
        let mut guard = group.locked.lock(rt);
        let told = guard.publish(rt, &self.seat);
        MutexGuard::unlock(guard);
        told.is_ok()
    }
}

/// Whether the step was taken, or is passed over: what the world refuses, as at a full history.
pub fn is_passed(stepped: Result<(), StepFault>) -> bool {
    matches!(stepped, Ok(()) | Err(StepFault::Refused(_)))
}
