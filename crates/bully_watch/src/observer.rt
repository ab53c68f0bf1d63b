ghost use Rattle.std.specs.Prelude.{◌≡◌, ◌≤◌, [], IfOk, IfErr, IfSome, MatchResult, length, true};
ghost use mathlib.Core.List.{IsPrefix};
ghost use Rattle.left_right.specs.Sides.{view};
ghost use Rattle.bully_watch.specs.Observation.{longer, Glances, IsGlanceFault, Leads, Looks};
ghost use Rattle.bully_watch.specs.CopyRule.{prefix_of};
ghost use Rattle.bully_watch.specs.Sight.{IsSeen};

use crate::glance::{Glance, GlanceFault, Leader};
use crate::sight::{OfLeader, OfNode, Sight, WholeView};
use crate::told::Told;
use crate::world_copy::{CopyReader, Look};
use bully_agree::View;
use bully_base::Node;
use core::mem::replace_with;
use std::alloc::Global;
use std::marker::Model;

/// Who looks at a publisher's history, with no lock and no wait. Contracts see it as its publisher and the entries
/// that it saw or learned of so far.
#[derive(Drop)]
pub struct Observer {
    reader: CopyReader,
    count: usize, // how many entries it saw or learned of
    alloc: Global, // which its publisher was made with
}

impl Model for Observer {
    ghost use Rattle.std.specs.Prelude.{◌≡◌, length, true};
    ghost use Rattle.left_right.specs.Sides.{view as seat_view};
    ghost use Rattle.bully_watch.specs.Observation.{Prefix};
    ghost use Rattle.bully_watch.specs.CopyRule.{prefix_of};

    ghost Value = { Prefix };

    ghost view = { λ o. prefix_of (seat_view o.reader.place) };

    ghost invariant = { λ o. ((seat_view o.reader.place).is_named ≡ true)
        × (o.count ≡ length (seat_view o.reader.place).seen) };
}

/// Why a look gives no view, in the order of refusals.
#[derive(Clone, Copy, PartialEq, Eq, Debug)]
pub enum LookFault {
    /// The publisher was ended.
    Gone,
    /// An allocation failed.
    OutOfMemory,
}

impl Observer {
    // An observer that saw nothing yet.
    pub(crate) fn of(alloc: Global, reader: CopyReader) -> Observer
        requires named { (view reader.place).is_named ≡ true }
        requires empty { (view reader.place).seen ≡ [] }
        ensures { result ≡ prefix_of (view reader.place) }
    {
        Observer {
            reader,
            count: 0,
            alloc,
        }
    }

    /// From now on it sees no less than was told. What was told is of its own publisher. Takes no memory.
    pub fn learn(&mut self, told: Told)
        requires { told.publisher ≡ self.old.publisher }
        ensures publisher { self.new.publisher ≡ self.old.publisher }
        ensures entries { self.new.entries ≡ longer self.old.entries told.entries }
    {
        let count = told.count();
        if self.count < count {
            *self = Observer {
                reader: told.into_reader(),
                count,
                alloc: self.alloc,
            };
        }
    }

    /// The view after a prefix of the publisher's history, at least as long as what it saw or learned of before. It
    /// takes no lock and never waits, and has the allocator that the publisher was made with. Refused with `Gone` where
    /// the publisher was ended, and with `OutOfMemory` where an allocation fails.
    pub fn look(&mut self) -> Result<View, LookFault>
        ensures publisher { self.new.publisher ≡ self.old.publisher }
        ensures goes_on { IsPrefix self.old.entries self.new.entries }
        ensures view { IfOk result (Looks self.old.publisher self.new.entries) }
    {
        let alloc = self.alloc;
        match self.read(&WholeView { alloc }) {
            Some(Ok(view)) => Ok(view),
            Some(Err(_)) => Err(LookFault::OutOfMemory),
            None => Err(LookFault::Gone),
        }
    }

    /// What a look would show of one node: it sees no less than was seen before, takes no lock and no memory, and never
    /// waits. Refused with `Gone` where the publisher was ended, and with `BadNode` above the group's last node.
    pub fn glance(&mut self, node: Node) -> Result<Glance, GlanceFault>
        ensures publisher { self.new.publisher ≡ self.old.publisher }
        ensures goes_on { IsPrefix self.old.entries self.new.entries }
        ensures glance { IfOk result (Glances self.old.publisher self.new.entries node) }
        ensures fault { MatchResult result (λ _.
            node ≤ self.old.publisher.setup.nodes) (IsGlanceFault self.old.publisher.setup node) }
    {
        match self.read(&OfNode { node }) {
            Some(Some(glance)) => Ok(glance),
            Some(None) => Err(GlanceFault::BadNode),
            None => Err(GlanceFault::Gone),
        }
    }

    /// Who leads, by the same rule as a glance: the coordinator that all Normal nodes have. Refused with `Gone` alone.
    pub fn leader(&mut self) -> Result<Leader, GlanceFault>
        ensures publisher { self.new.publisher ≡ self.old.publisher }
        ensures goes_on { IsPrefix self.old.entries self.new.entries }
        ensures leader { IfOk result (Leads self.old.publisher self.new.entries) }
        ensures fault { IfErr result (λ fault. fault ≡ GlanceFault.Gone) }
    {
        match self.read(&OfLeader) {
            Some(leader) => Ok(leader),
            None => Err(GlanceFault::Gone),
        }
    }

    // What is read of the copy that is shown; none where the publisher was ended.
    fn read<S: Sight>(&mut self, sight: &S) -> Option<S::Seen>
        ensures publisher { self.new.publisher ≡ self.old.publisher }
        ensures goes_on { IsPrefix self.old.entries self.new.entries }
        ensures seen { IfSome result (IsSeen self.old.publisher.setup self.new.entries (S.sees sight.now)) }
    {
        replace_with(
            self,
            sight,
            |observer: Observer, sight: &S| observer.read_once(sight),
        )
    }

    // `read`, where the observer comes back.
    fn read_once<S: Sight>(self, sight: &S) -> (Observer, Option<S::Seen>)
        ensures publisher { result.0.publisher ≡ self.publisher }
        ensures goes_on { IsPrefix self.entries result.0.entries }
        ensures seen { IfSome result.1 (IsSeen self.publisher.setup result.0.entries (S.sees sight.now)) }
    {
        let Observer {
            reader,
            count,
            alloc,
        } = self;
        match reader.enter_as::<Look>() {
            Err(reader) => (
                Observer {
                    reader,
                    count,
                    alloc,
                },
                None,
            ),
            Ok(reading) => {
                let count = reading.get().world.events() as usize;
                let seen = sight.read(&reading.get().world);
                let reader = reading.leave();
                let observer = Observer {
                    reader,
                    count,
                    alloc,
                };
                (observer, Some(seen))
            }
        }
    }
}
