ghost use Rattle.std.specs.Prelude.{◌≡◌, ◌+◌, ◌≤◌, ◌<◌, [], IfOk, IfErr, None, vec_capacity, replicate};
ghost use Rattle.bully_base.specs.declared.TheConstants.{NODES_MAX};
ghost use Rattle.bully_group.specs.Locked.{IsLocked, FollowsHistory, name_of};
ghost use Rattle.bully_group.specs.Seat.{AreNewSeats};
ghost use Rattle.bully_world.specs.State.{first_state};

pub mod finish;
pub mod own_loop;
pub mod publish;
pub mod shown;
pub mod step;
pub mod turn;

use crate::closed::end_publisher;
use crate::naming::Naming;
use crate::pass::Pass;
use crate::seat::Seat;
use bully_base::{OutOfMemory, Setup};
use bully_watch::{Entry, Publisher};
use bully_world::World;
use std::alloc::{AllocError, Global};
use std::marker::Model;
use std::sync::Wait;
use std::sync::ledger::{Blank, Book, Share};

/// What lies under the lock of a group: its world, its history, the book that counts the entries, and the publisher of
/// a watched one. Its type keeps that the entries are a history of the setup that `L` names, that the world is the one
/// that it leads to, that the book counts them, and that the publisher is the one that `L` names, and shows a beginning
/// of the history. It isn't `Drop`: [`Locked::finish`] or [`Locked::end`] ends it.
pub struct Locked<L: Naming> {
    world: World,
    history: Vec<Entry>,
    book: Book<L>,
    publisher: Option<Publisher>,
}

impl<L: Naming> Model for Locked<L> {
    ghost use Rattle.bully_group.specs.Locked.{LockedState, IsLocked};

    ghost Value = { LockedState };

    ghost view = { λ s.
        record { world = s.world; history = s.history.items; counted = s.book.total; publisher = s.publisher } };

    ghost invariant = { λ s. IsLocked L.setup L.publisher L.parts
        (record { world = s.world; history = s.history.items; counted = s.book.total; publisher = s.publisher }) };
}

impl<L: Naming> Locked<L> {
    /// A group before any event that nobody watches, with a seat for the operator and then one for each node, and as
    /// many passes. Setup and blank are `L`'s, which names no publisher, and the blank has a part for each seat.
    /// Refused where an allocation fails, and then the blank is handed back.
    pub fn open(
        alloc: Global,
        setup: Setup,
        blank: Blank,
    ) -> Result<(Locked<L>, Vec<Seat>, Vec<Pass<L>>), (OutOfMemory, Blank)>
        requires setup { setup ≡ L.setup }
        requires unwatched { L.publisher ≡ None }
        requires name { blank.name ≡ L.name }
        requires parts { (blank.parts ≡ L.parts) × (L.parts ≡ L.setup.nodes + 1) }
        ensures world { IfOk result (λ opened. opened.0.world ≡ first_state setup) }
        ensures history { IfOk result (λ opened. opened.0.history ≡ []) }
        ensures publisher { IfOk result (λ opened. opened.0.publisher ≡ None) }
        ensures seats { IfOk result (λ opened. AreNewSeats (setup.nodes + 1) opened.1.items) }
        ensures passes { IfOk result (λ opened. opened.2.items ≡ replicate (setup.nodes + 1) 0) }
        ensures blank { IfErr result (λ fault. fault.1 ≡ blank) }
    {
        match Locked::opened(alloc, setup, None, blank) {
            Ok(opened) => Ok(opened),
            Err((none, blank)) => {
                no_publisher(none);
                Err((AllocError, blank))
            }
        }
    }

    // The same, also with a publisher that showed nothing yet. Everything is allocated before the blank is opened.
    pub(crate) fn opened(
        alloc: Global,
        setup: Setup,
        publisher: Option<Publisher>,
        blank: Blank,
    ) -> Result<(Locked<L>, Vec<Seat>, Vec<Pass<L>>), (Option<Publisher>, Blank)>
        requires setup { setup ≡ L.setup }
        requires publisher { name_of publisher ≡ L.publisher }
        requires follows { FollowsHistory setup [] publisher }
        requires name { blank.name ≡ L.name }
        requires parts { (blank.parts ≡ L.parts) × (L.parts ≡ L.setup.nodes + 1) }
        ensures world { IfOk result (λ opened. opened.0.world ≡ first_state setup) }
        ensures history { IfOk result (λ opened. opened.0.history ≡ []) }
        ensures publisher { IfOk result (λ opened. opened.0.publisher ≡ publisher) }
        ensures seats { IfOk result (λ opened. AreNewSeats (setup.nodes + 1) opened.1.items) }
        ensures passes { IfOk result (λ opened. opened.2.items ≡ replicate (setup.nodes + 1) 0) }
        ensures back { IfErr result (λ fault. (fault.0 ≡ publisher) × (fault.1 ≡ blank)) }
    {
        let count = setup.nodes() + 1;
        let Ok(world) = World::new(alloc, setup) else {
            return Err((publisher, blank));
        };
        let Ok(seats) = new_seats(alloc, count) else {
            return Err((publisher, blank));
        };
        let Ok(passes) = Vec::with_capacity(alloc, usize::from(count)) else {
            return Err((publisher, blank));
        };
        let (book, share) = blank.open::<L>();
        let passes = deal(share, passes, count);
        let locked = Locked {
            world,
            history: Vec::new(alloc),
            book,
            publisher,
        };
        Ok((locked, seats, passes))
    }

    /// Ends its publisher, if it has one: from then on observers are told that it is gone. Drops the rest.
    pub fn end<R: Wait>(self, rt: &R) {
        let Locked {
            world: _world,
            history: _history,
            book: _book,
            publisher,
        } = self;
        end_publisher(publisher, rt);
    }

    /// What the group was set up with.
    pub fn setup(&self) -> &Setup
        ensures setup { result.now ≡ self.now.world.setup }
        ensures named { result.now ≡ L.setup }
    {
        self.world.setup()
    }

    /// The entries from the first one on. They are a history, and the world is the one that it leads to.
    pub fn history(&self) -> &[Entry]
        ensures history { result.now ≡ self.now.history }
        ensures locked { IsLocked L.setup L.publisher L.parts self.now }
    {
        self.history.as_slice()
    }

    /// The world that the history leads to.
    pub fn world(&self) -> &World
        ensures { result.now ≡ self.now.world }
    {
        &self.world
    }
}

// No publisher is let go.
fn no_publisher(none: Option<Publisher>)
    requires { none ≡ None }
{
    match none {
        None => {}
        Some(_) => unreachable!(),
    }
}

// A seat for each of so many actors, from the operator's on.
#[tactic(auto, using(crate::proofs::SeatLemmas::new_seat_more))]
fn new_seats(alloc: Global, count: u16) -> Result<Vec<Seat>, OutOfMemory>
    requires { count ≤ NODES_MAX + 1 }
    ensures { IfOk result (λ seats. AreNewSeats count seats.items) }
{
    let mut seats = Vec::with_capacity(alloc, usize::from(count))?;
    for actor in 0..count {
        seats.push(Seat::new(alloc, actor))?;
    }
    Ok(seats)
}

// Cuts the share into passes of one part, for which there is room.
fn deal<L: Naming>(mut share: Share<L>, mut passes: Vec<Pass<L>>, count: u16) -> Vec<Pass<L>>
    requires parts { share.parts ≡ count }
    requires amount { share.amount ≡ 0 }
    requires empty { passes.items ≡ [] }
    requires room { count ≤ vec_capacity passes }
    ensures { result.items ≡ replicate count 0 }
{
    for _dealt in 0..count {
        passes.push_reserved(Pass::of(share.split_off(1, 0)));
    }
    passes
}
