use super::trying::Text;
use bully_group::{Closed, FinishFault, Locked, Naming, Pass, Seat, StepFault};
use bully_world::Event;
use std::alloc::Global;
use std::sync::Wait;

/// The place of the operator's seat.
pub const OPERATOR: usize = 0;

/// A group with its seats and passes, without its lock.
pub struct Opened<L: Naming> {
    pub locked: Locked<L>,
    pub seats: Vec<Seat>,
    pub passes: Vec<Pass<L>>,
}

impl<L: Naming> Opened<L> {
    pub fn of(locked: Locked<L>, seats: Vec<Seat>, passes: Vec<Pass<L>>) -> Opened<L> {
        Opened {
            locked,
            seats,
            passes,
        }
    }

    pub fn end<R: Wait>(self, rt: &R) {
        let Opened {
            locked,
            seats: _seats,
            passes: _passes,
        } = self;
        locked.end(rt);
    }

    /// Finishes it. All of it comes back where that is refused.
    pub fn finish(self) -> Result<Closed, (Opened<L>, FinishFault)> {
        let Opened {
            locked,
            seats,
            passes,
        } = self;
        match locked.finish(seats, passes) {
            Ok(closed) => Ok(closed),
            Err((locked, seats, passes, fault)) => Err((Opened::of(locked, seats, passes), fault)),
        }
    }

    /// All that can be read of it.
    pub fn text(&self, alloc: Global) -> Text {
        let mut text = Text::new(alloc);
        text.add(self.locked.world());
        text.add(&self.locked.history());
        text.add(&self.seats.as_slice());
        for pass in self.passes.iter() {
            text.add(&pass.amount());
        }
        text
    }

    /// Takes the events, each by its actor's seat, and tells whether it took all of them.
    pub fn play(&mut self, events: &[Event]) -> bool {
        for event in events {
            if !self.take(event) {
                return false;
            }
        }
        true
    }

    // Takes the event by the seat of its actor.
    fn take(&mut self, event: &Event) -> bool {
        for place in 0..self.seats.len() {
            let (Some(seat), Some(pass)) = (self.seats.get_mut(place), self.passes.get_mut(place))
            else {
                return false;
            };
            match self.locked.step(seat, event, pass) {
                Ok(()) => return true,
                Err(StepFault::NotYours) => {}
                Err(_) => return false,
            }
        }
        false
    }
}
