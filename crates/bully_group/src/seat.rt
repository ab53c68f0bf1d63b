ghost use Rattle.std.specs.Prelude.{◌≡◌, ◌≤◌, []};
ghost use Rattle.bully_base.specs.declared.TheConstants.{NODES_MAX};
ghost use Rattle.bully_group.specs.Seat.{IsSeat};

use bully_watch::Entry;
use std::alloc::Global;
use std::marker::Model;

/// A token of one actor of a group: a holder of the seat takes that actor's steps. It isn't copied. It keeps each entry
/// that it was answered, beside the entry's index in the history.
#[derive(Drop, Debug)]
pub struct Seat {
    pub(crate) actor: u16,
    pub(crate) log: Vec<(usize, Entry)>,
}

impl Model for Seat {
    ghost use Rattle.bully_group.specs.Seat.{SeatState, IsSeat};

    ghost Value = { SeatState };

    ghost view = { λ s. record { actor = s.actor; log = s.log.items } };

    ghost invariant = { λ s. IsSeat (record { actor = s.actor; log = s.log.items }) };
}

impl Seat {
    /// Whose seat it is: 0 is the operator, and else the number of a node, at most [`bully_base::NODES_MAX`].
    pub fn actor(&self) -> u16
        ensures actor { result ≡ self.now.actor }
        ensures within { self.now.actor ≤ NODES_MAX }
    {
        self.actor
    }

    /// Each entry that it was answered, beside its index from 0 in the history. The indices rise.
    pub fn log(&self) -> &[(usize, Entry)]
        ensures log { result.now ≡ self.now.log }
        ensures seat { IsSeat self.now }
    {
        self.log.as_slice()
    }

    // The actor's seat, which was answered nothing.
    #[tactic(auto, using(crate::proofs::SeatLemmas::new_seat))]
    pub(crate) fn new(alloc: Global, actor: u16) -> Seat
        requires { actor ≤ NODES_MAX }
        ensures actor { result.actor ≡ actor }
        ensures log { result.log ≡ [] }
    {
        Seat {
            actor,
            log: Vec::new(alloc),
        }
    }
}
