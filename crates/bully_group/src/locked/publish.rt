ghost use Rattle.std.specs.Prelude.{◌≡◌, IfOk, OnOk, IfErr, Some, None};
ghost use Rattle.bully_group.specs.Locked.{IsLocked};
ghost use Rattle.bully_group.specs.Publish.{Shows, IsPublishFault, AfterFault};
ghost use Rattle.bully_group.specs.Seat.{IsKnown};

use super::Locked;
use super::step::foreign_index;
use crate::naming::Naming;
use crate::seat::Seat;
use bully_watch::Told;
use std::sync::Wait;

/// Why the history isn't published, the first that holds.
#[derive(Clone, Copy, PartialEq, Eq, Debug)]
pub enum PublishFault {
    /// The group has no publisher.
    NotWatched,
    /// The seat's last entry isn't in this history at its index, which is this one.
    Foreign { index: usize },
    /// An allocation failed, or too many tolds weren't learned or dropped yet.
    OutOfMemory,
}

impl<L: Naming> Locked<L> {
    /// Shows observers the whole history. An observer that learns what is told of it sees no less from then on.
    /// Refused, in this order, as `NotWatched`, `Foreign`, never for a seat without an entry, and as `OutOfMemory`,
    /// also where the publisher has no place for one told more ([`bully_watch::Publisher::publish`]); then observers
    /// see what they saw.
    pub fn publish<R: Wait>(&mut self, rt: &R, seat: &Seat) -> Result<Told, PublishFault>
        ensures told { IfOk result (λ told. (L.publisher ≡ Some told.publisher) × (told.entries ≡ self.old.history)) }
        ensures shows { OnOk result (Shows self.old self.new) }
        ensures known { OnOk result (IsKnown self.old.history seat.now) }
        ensures fault { IfErr result (IsPublishFault self.old seat.now) }
        ensures after { IfErr result (AfterFault self.old self.new) }
        ensures locked { IsLocked L.setup L.publisher L.parts self.new }
    {
        let Locked {
            publisher,
            history,
            ..
        } = self;
        let Some(publisher) = publisher else {
            return Err(PublishFault::NotWatched);
        };
        if let Some(index) = foreign_index(history, seat) {
            return Err(PublishFault::Foreign { index });
        }
        match publisher.publish(rt, history.as_slice()) {
            Ok(told) => Ok(told),
            Err(_) => Err(PublishFault::OutOfMemory),
        }
    }
}
