ghost use Rattle.std.specs.Prelude.{◌≡◌, IfOk, OnOk, IfErr};
ghost use Rattle.bully_agree.specs.View.{ViewAgrees};
ghost use Rattle.bully_group.specs.Locked.{IsLocked, view_in};
ghost use Rattle.bully_group.specs.Seat.{IsKnown};
ghost use Rattle.bully_group.specs.Steps.{IsViewFault};

use super::Locked;
use super::step::foreign_index;
use crate::naming::Naming;
use crate::seat::Seat;
use bully_agree::{View, view};

/// Why a view isn't shown, the first that holds.
#[derive(Clone, Copy, PartialEq, Eq, Debug)]
pub enum ViewFault {
    /// The seat's last entry isn't in this history at its index, which is this one.
    Foreign { index: usize },
    /// An allocation failed.
    OutOfMemory,
}

impl<L: Naming> Locked<L> {
    /// The view of the group's world, which the whole history leads to. Refused, in this order, as `Foreign`, never for
    /// a seat without an entry, and as `OutOfMemory`.
    pub fn view(&self, seat: &Seat) -> Result<View, ViewFault>
        ensures view { IfOk result (λ v. v ≡ view_in self.now) }
        ensures agrees { IfOk result ViewAgrees }
        ensures locked { IsLocked L.setup L.publisher L.parts self.now }
        ensures known { OnOk result (IsKnown self.now.history seat.now) }
        ensures fault { IfErr result (IsViewFault self.now seat.now) }
    {
        if let Some(index) = foreign_index(&self.history, seat) {
            return Err(ViewFault::Foreign { index });
        }
        match view(*self.history.allocator(), &self.world) {
            Ok(shown) => Ok(shown),
            Err(_) => Err(ViewFault::OutOfMemory),
        }
    }
}
