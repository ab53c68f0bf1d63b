//! A group that is called without a lock, or each time through its lock.

ghost use Rattle.std.specs.Prelude.{◌≡◌, ◌+◌, [], IfSome, Some, None};
ghost use Rattle.bully_group.specs.Locked.{name_of};

use super::asks::tell;
use bully_base::Setup;
use bully_group::{Closed, Group, Locked, Naming, Pass, Seat};
use bully_watch::Publisher;
use std::alloc::Global;
use std::sync::Wait;
use std::sync::ledger::Blank;

#[derive(Clone, Copy)]
pub enum Way {
    Bare,
    Shared,
}

pub enum TestGroup<L: Naming> {
    Bare(Locked<L>),
    Shared(Group<L>),
}

/// A group with its seats and passes.
pub struct Opened<L: Naming> {
    pub held: TestGroup<L>,
    pub seats: Vec<Seat>,
    pub passes: Vec<Pass<L>>,
}

/// A group with this publisher, or one that nobody watches.
pub fn open<L: Naming, R: Wait>(
    rt: &R,
    alloc: Global,
    way: Way,
    setup: Setup,
    publisher: Option<Publisher>,
    blank: Blank,
) -> Option<Opened<L>>
    requires setup { setup ≡ L.setup }
    requires publisher { name_of publisher ≡ L.publisher }
    requires new { IfSome publisher (λ p. (p.publisher.setup ≡ setup) × (p.shown ≡ []) × (p.taken ≡ [])) }
    requires name { blank.name ≡ L.name }
    requires parts { (blank.parts ≡ L.parts) × (L.parts ≡ L.setup.nodes + 1) }
{
    match publisher {
        Some(publisher) => open_watched(rt, alloc, way, setup, publisher, blank),
        None => open_unwatched(alloc, way, setup, blank),
    }
}

fn open_unwatched<L: Naming>(
    alloc: Global,
    way: Way,
    setup: Setup,
    blank: Blank,
) -> Option<Opened<L>>
    requires setup { setup ≡ L.setup }
    requires unwatched { L.publisher ≡ None }
    requires name { blank.name ≡ L.name }
    requires parts { (blank.parts ≡ L.parts) × (L.parts ≡ L.setup.nodes + 1) }
{
    match way {
        Way::Bare => match Locked::<L>::open(alloc, setup, blank) {
            Ok((locked, seats, passes)) => Some(Opened {
                held: TestGroup::Bare(locked),
                seats,
                passes,
            }),
            Err((_, blank)) => {
                drop(blank);
                None
            }
        },
        Way::Shared => match Group::<L>::open(alloc, setup, blank) {
            Ok((group, seats, passes)) => Some(Opened {
                held: TestGroup::Shared(group),
                seats,
                passes,
            }),
            Err((_, blank)) => {
                drop(blank);
                None
            }
        },
    }
}

// Where there is no group, the publisher is ended.
fn open_watched<L: Naming, R: Wait>(
    rt: &R,
    alloc: Global,
    way: Way,
    setup: Setup,
    publisher: Publisher,
    blank: Blank,
) -> Option<Opened<L>>
    requires setup { (setup ≡ L.setup) × (publisher.publisher.setup ≡ setup) }
    requires publisher { L.publisher ≡ Some publisher.publisher }
    requires new { (publisher.shown ≡ []) × (publisher.taken ≡ []) }
    requires name { blank.name ≡ L.name }
    requires parts { (blank.parts ≡ L.parts) × (L.parts ≡ L.setup.nodes + 1) }
{
    match Group::<L>::open_watched(alloc, setup, publisher, blank) {
        Ok((group, seats, passes)) => Some(Opened {
            held: TestGroup::of(way, group),
            seats,
            passes,
        }),
        Err((publisher, _, _)) => {
            publisher.end(rt);
            None
        }
    }
}

impl<L: Naming> Opened<L> {
    pub fn end<R: Wait>(self, rt: &R) {
        let Opened {
            held,
            seats,
            passes,
        } = self;
        drop((seats, passes));
        held.closed().end(rt);
    }
}

/// Tells why the group isn't finished without its last seat, and why without its last pass. Then its finish; or the
/// group, and it is told why it has none.
pub fn ended<L: Naming>(opened: Opened<L>, text: &mut String) -> Result<Closed, Opened<L>> {
    match without_one(opened, Part::Seat, text) {
        Ok(closed) => Ok(closed),
        Err(opened) => match without_one(opened, Part::Pass, text) {
            Ok(closed) => Ok(closed),
            Err(opened) => finished(opened, "all: ", text),
        },
    }
}

// What a finish is tried without.
#[derive(Clone, Copy)]
enum Part {
    Seat,
    Pass,
}

// The group is given back with all of them. Where it is finished in spite of that, nothing is told.
fn without_one<L: Naming>(
    mut opened: Opened<L>,
    part: Part,
    text: &mut String,
) -> Result<Closed, Opened<L>> {
    let (told, seat, pass) = match part {
        Part::Seat => ("a seat less: ", opened.seats.pop(), None),
        Part::Pass => ("a pass less: ", None, opened.passes.pop()),
    };
    match finished(opened, told, text) {
        Ok(closed) => {
            drop((seat, pass));
            Ok(closed)
        }
        Err(mut back) => {
            give_back(&mut back.seats, seat);
            give_back(&mut back.passes, pass);
            Err(back)
        }
    }
}

// Where a push fails, the group isn't finished.
fn give_back<T: Drop>(items: &mut Vec<T>, item: Option<T>) {
    if let Some(item) = item {
        drop(items.push(item));
    }
}

// Its finish. Where it has none, tells this and why, and gives the group back, which isn't shared any more.
fn finished<L: Naming>(
    opened: Opened<L>,
    told: &str,
    text: &mut String,
) -> Result<Closed, Opened<L>> {
    let Opened {
        held,
        seats,
        passes,
    } = opened;
    match held.closed().finish(seats, passes) {
        Ok(closed) => Ok(closed),
        Err((locked, seats, passes, fault)) => {
            drop(text.push_str(told));
            tell(text, &fault);
            Err(Opened {
                held: TestGroup::Bare(locked),
                seats,
                passes,
            })
        }
    }
}

impl<L: Naming> TestGroup<L> {
    fn of(way: Way, group: Group<L>) -> TestGroup<L> {
        match way {
            Way::Bare => TestGroup::Bare(group.close()),
            Way::Shared => TestGroup::Shared(group),
        }
    }

    // A group is closed before it is finished.
    fn closed(self) -> Locked<L> {
        match self {
            TestGroup::Bare(locked) => locked,
            TestGroup::Shared(group) => group.close(),
        }
    }
}
