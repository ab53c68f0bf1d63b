ghost use Rattle.std.specs.Prelude.{◌≡◌, ◌↔◌, ◌<◌, ◌≤◌, IsTrue, false, IfOk, OnOk, IfErr, IfSome, MatchOption, All};
ghost use Rattle.std.specs.Prelude.{length, map, sum, vec_len};
ghost use Rattle.bully_base.specs.declared.TheConstants.{NODES_MAX};
ghost use Rattle.bully_group.specs.Finish.{AreAll, AreOfGroup, AreFree, AreCounts, AllStand, HasPart};
ghost use Rattle.bully_group.specs.Finish.{IsLowestDiffering, CanFinish, IsFinishFault, EachInOneLog};
ghost use Rattle.bully_group.specs.Locked.{view_in};

use super::Locked;
use super::step::stands;
use crate::closed::Closed;
use crate::naming::Naming;
use crate::pass::Pass;
use crate::seat::Seat;
use bully_agree::view;
use bully_base::NODES_MAX;
use bully_watch::Entry;
use std::sync::ledger::Book;

/// How many actors a group may have: the operator, and each node.
const ACTORS_MAX: usize = NODES_MAX as usize + 1;

/// Why a group isn't finished, the first that holds.
#[derive(Clone, Copy, PartialEq, Eq, Debug)]
pub enum FinishFault {
    /// There isn't a seat for the operator and for each node, or not as many passes.
    SeatCount,
    /// Two seats are of one actor, or one is of an actor above the last node.
    Stranger,
    /// The log of this actor, the lowest such, isn't its part of the history.
    Differs(u16),
    /// An allocation failed.
    OutOfMemory,
}

impl<L: Naming> Locked<L> {
    /// Ends the group, with all its seats, in any order, and all its passes. Each seat's log is its actor's part of the
    /// history. The finished group keeps the publisher. Refused, in this order, as `SeatCount`, `Stranger`, `Differs`
    /// and `OutOfMemory`; then everything is handed back.
    pub fn finish(
        self,
        seats: Vec<Seat>,
        passes: Vec<Pass<L>>,
    ) -> Result<Closed, (Locked<L>, Vec<Seat>, Vec<Pass<L>>, FinishFault)>
        ensures history { IfOk result (λ closed. closed.history ≡ self.history) }
        ensures view { IfOk result (λ closed. closed.view ≡ view_in self) }
        ensures publisher { IfOk result (λ closed. closed.publisher ≡ self.publisher) }
        ensures all { OnOk result (AreAll self.world.setup.nodes seats.items (vec_len passes)) }
        ensures own { OnOk result (AreOfGroup self.world.setup.nodes seats.items) }
        ensures logs { OnOk result (All (HasPart self.history) seats.items) }
        ensures once { OnOk result (EachInOneLog self.history seats.items) }
        ensures counted { IfOk result (λ closed. sum passes.items ≡ length closed.history) }
        ensures fault { IfErr result (λ back. IsFinishFault self seats.items (vec_len passes) back.3) }
        ensures locked { IfErr result (λ back. back.0 ≡ self) }
        ensures seats { IfErr result (λ back. back.1.items ≡ seats.items) }
        ensures passes { IfErr result (λ back. back.2.items ≡ passes.items) }
    {
        if let Some(fault) = self.fault(&seats, passes.len()) {
            return Err((self, seats, passes, fault));
        }
        let alloc = *self.history.allocator();
        let Ok(shown) = view(alloc, &self.world) else {
            return Err((self, seats, passes, FinishFault::OutOfMemory));
        };
        let Locked {
            world: _,
            history,
            book,
            publisher,
        } = self;
        add_up(book, passes);
        Ok(Closed::of(history, shown, publisher))
    }

    // Why it can't be finished with these seats and so many passes, memory aside.
    fn fault(&self, seats: &[Seat], passes: usize) -> Option<FinishFault>
        ensures { MatchOption result (CanFinish self.now seats.now passes) (IsFinishFault self.now seats.now passes) }
    {
        let nodes = self.world.setup().nodes();
        let count = usize::from(nodes) + 1;
        if seats.len() != count || passes != count {
            return Some(FinishFault::SeatCount);
        }
        if has_stranger(nodes, seats) {
            return Some(FinishFault::Stranger);
        }
        let counts = counts_of(&self.history);
        let actor = first_differing(&self.history, &counts, seats)?;
        Some(FinishFault::Differs(actor))
    }
}

// Whether two seats are of one actor, or one is of an actor above the last node.
fn has_stranger(nodes: u16, seats: &[Seat]) -> bool
    requires { nodes ≤ NODES_MAX }
    ensures { (result ≡ false) ↔ AreOfGroup nodes seats.now }
{
    let mut taken = [false; ACTORS_MAX];
    has_stranger_among(nodes, &mut taken, seats)
}

// The same, or one is of an actor that is taken already.
#[tactic(auto, using(crate::proofs::FinishLemmas::nobody_strange, crate::proofs::FinishLemmas::group_by_first, crate::proofs::FinishLemmas::group_behind_first))]
fn has_stranger_among(nodes: u16, taken: &mut [bool; ACTORS_MAX], seats: &[Seat]) -> bool
    requires { nodes ≤ NODES_MAX }
    ensures { (result ≡ false) ↔ (AreOfGroup nodes seats.now × AreFree taken.old seats.now) }
{
    let Some((seat, rest)) = seats.split_first() else {
        return false;
    };
    if seat.actor > nodes || taken[usize::from(seat.actor)] {
        return true;
    }
    taken[usize::from(seat.actor)] = true;
    has_stranger_among(nodes, taken, rest)
}

// How many entries of the history each actor has, the operator first.
fn counts_of(history: &[Entry]) -> [usize; ACTORS_MAX]
    requires { All (λ e. e.actor ≤ NODES_MAX) history.now }
    ensures { AreCounts history.now result }
{
    let mut counts = [0; ACTORS_MAX];
    for entry in history {
        counts[usize::from(entry.actor)] += 1;
    }
    counts
}

// The lowest actor of the seats whose log isn't its part of the history, in which each actor has so many entries.
#[tactic(auto, using(crate::proofs::FinishLemmas::lowest_later, crate::proofs::FinishLemmas::lowest_first))]
fn first_differing(history: &[Entry], counts: &[usize; ACTORS_MAX], seats: &[Seat]) -> Option<u16>
    requires { AreCounts history.now counts.now }
    ensures { MatchOption result (All (HasPart history.now) seats.now) (IsLowestDiffering history.now seats.now) }
{
    let (seat, rest) = seats.split_first()?;
    let later = first_differing(history, counts, rest);
    if has_part(history, counts, seat) || !is_below(seat.actor, later) {
        later
    } else {
        Some(seat.actor)
    }
}

// Whether the actor is below the one that was found, if any.
fn is_below(actor: u16, found: Option<u16>) -> bool
    ensures { IsTrue result ↔ IfSome found (λ lowest. actor < lowest) }
{
    match found {
        Some(lowest) => actor < lowest,
        None => true,
    }
}

// Whether the seat's log is its actor's part of the history. Its indices rise and its entries are its actor's, so it is
// where there are as many as the actor has, and each stands at its index.
#[tactic(auto, using(crate::proofs::PartCounts::has_part_if, crate::proofs::PartCounts::stand_if_part))]
fn has_part(history: &[Entry], counts: &[usize; ACTORS_MAX], seat: &Seat) -> bool
    requires { AreCounts history.now counts.now }
    ensures { IsTrue result ↔ HasPart history.now seat.now }
{
    seat.log.len() == counts[usize::from(seat.actor)] && all_stand(history, &seat.log)
}

// Whether each entry of the log stands in the history at its index.
fn all_stand(history: &[Entry], log: &[(usize, Entry)]) -> bool
    ensures { IsTrue result ↔ AllStand history.now log.now }
{
    for item in log {
        if !stands(history, item.0, &item.1) {
            return false;
        }
    }
    true
}

// The passes are all of the ledger, so what they counted adds up to the book's total.
fn add_up<L: Naming>(mut book: Book<L>, mut passes: Vec<Pass<L>>)
    requires all { vec_len passes ≡ L.parts }
    requires some { 0 < L.parts }
    ensures { sum passes.items ≡ book.total }
{
    let Some(pass) = passes.pop() else {
        unreachable!()
    };
    let mut all = pass.into_share();
    while let Some(pass) = passes.pop() {
        all.merge(pass.into_share());
    }
    book.audit(&mut all);
}
