ghost use Rattle.std.specs.Prelude.{◌≡◌, ◌+◌, [], IfOk, IfErr, Some, None, replicate};
ghost use Rattle.bully_group.specs.Locked.{IsLocked};
ghost use Rattle.bully_group.specs.Seat.{AreNewSeats};

use crate::locked::Locked;
use crate::naming::Naming;
use crate::pass::Pass;
use crate::seat::Seat;
use bully_base::{OutOfMemory, Setup};
use bully_watch::Publisher;
use std::alloc::{AllocError, Global};
use std::sync::Mutex;
use std::sync::ledger::Blank;

/// A group that threads share. Each takes the lock, and then one call of [`Locked`] on the guard. It isn't `Drop`: it
/// is closed, and then finished or ended.
pub struct Group<L: Naming> {
    pub locked: Mutex<Locked<L>>,
}

impl<L: Naming> Group<L> {
    /// A group before any event that nobody watches, as [`Locked::open`] makes it. Setup and blank are `L`'s, which
    /// names no publisher, and the blank has a part for each seat. Refused where an allocation fails, and then the
    /// blank is handed back.
    pub fn open(
        alloc: Global,
        setup: Setup,
        blank: Blank,
    ) -> Result<(Group<L>, Vec<Seat>, Vec<Pass<L>>), (OutOfMemory, Blank)>
        requires setup { setup ≡ L.setup }
        requires unwatched { L.publisher ≡ None }
        requires name { blank.name ≡ L.name }
        requires parts { (blank.parts ≡ L.parts) × (L.parts ≡ L.setup.nodes + 1) }
        ensures seats { IfOk result (λ opened. AreNewSeats (setup.nodes + 1) opened.1.items) }
        ensures passes { IfOk result (λ opened. opened.2.items ≡ replicate (setup.nodes + 1) 0) }
        ensures blank { IfErr result (λ fault. fault.1 ≡ blank) }
    {
        let (locked, seats, passes) = Locked::open(alloc, setup, blank)?;
        let group = Group {
            locked: Mutex::new(locked),
        };
        Ok((group, seats, passes))
    }

    /// The same, watched by the observers of this publisher, which showed and took in nothing yet. Setup, publisher and
    /// blank are `L`'s, and the blank has a part for each seat. Refused where an allocation fails, and then publisher
    /// and blank are handed back.
    pub fn open_watched(
        alloc: Global,
        setup: Setup,
        publisher: Publisher,
        blank: Blank,
    ) -> Result<(Group<L>, Vec<Seat>, Vec<Pass<L>>), (Publisher, OutOfMemory, Blank)>
        requires setup { (setup ≡ L.setup) × (publisher.publisher.setup ≡ setup) }
        requires publisher { L.publisher ≡ Some publisher.publisher }
        requires new { (publisher.shown ≡ []) × (publisher.taken ≡ []) }
        requires name { blank.name ≡ L.name }
        requires parts { (blank.parts ≡ L.parts) × (L.parts ≡ L.setup.nodes + 1) }
        ensures seats { IfOk result (λ opened. AreNewSeats (setup.nodes + 1) opened.1.items) }
        ensures passes { IfOk result (λ opened. opened.2.items ≡ replicate (setup.nodes + 1) 0) }
        ensures publisher { IfErr result (λ fault. fault.0 ≡ publisher) }
        ensures blank { IfErr result (λ fault. fault.2 ≡ blank) }
    {
        match Locked::opened(alloc, setup, Some(publisher), blank) {
            Ok((locked, seats, passes)) => {
                let group = Group {
                    locked: Mutex::new(locked),
                };
                Ok((group, seats, passes))
            }
            Err((publisher, blank)) => match publisher {
                Some(publisher) => Err((publisher, AllocError, blank)),
                None => unreachable!(),
            },
        }
    }

    /// What lies under the lock, once no thread shares the group any more. It is one of `L`'s.
    pub fn close(self) -> Locked<L>
        ensures { IsLocked L.setup L.publisher L.parts result }
    {
        let Group { locked } = self;
        locked.into_inner()
    }
}
