//! The two observers of a watched group, and what is told them.

ghost use Rattle.std.specs.Prelude.{◌≡◌, [], IfSome, Some};

use super::asks::{seen_in, tell_seen};
use bully_agree::View;
use bully_base::{NODES_MAX, Node, Setup, Status};
use bully_group::{Locked, Naming, Pass, Seat};
use bully_watch::{Glance, GlanceFault, LookFault, Observer, Publisher, Told};
use bully_world::Event;
use std::alloc::Global;
use std::marker::Model;
use std::sync::Wait;

/// One of the two observers.
#[derive(Clone, Copy)]
pub enum Which {
    First,
    Second,
}

/// Where what was told is kept: at one of two places, each for one, or among many.
#[derive(Clone, Copy)]
pub enum Place {
    First,
    Second,
    Many,
}

/// What is done by the observers. A line is told of each look.
#[derive(Clone, Copy)]
pub enum Watch {
    /// The observer learns what is kept at the first or second place.
    Learn(Which, Place),
    /// What is kept at the first or second place is dropped, or what is kept among many.
    Forget(Place),
    ForgetMany,
    Look(Which),
}

/// The observers, and what was told.
#[derive(Drop)]
pub struct Watchers {
    first: Observer,
    second: Observer,
    told: Option<Told>,
    more_told: Option<Told>,
    all_told: Vec<Told>,
}

// Contracts see them as the publisher that all of it is of, but for `all_told`, which is only kept.
impl Model for Watchers {
    ghost use Rattle.std.specs.Prelude.{◌≡◌, IfSome};
    ghost use Rattle.bully_watch.specs.declared.knowledge.PublisherId.{PublisherId};

    ghost Value = { PublisherId };

    ghost view = { λ w. w.first.publisher };

    ghost invariant = { λ w. (w.second.publisher ≡ w.first.publisher) × IfSome w.told (λ t.
        t.publisher ≡ w.first.publisher) × IfSome w.more_told (λ t. t.publisher ≡ w.first.publisher) };
}

impl Watchers {
    pub fn watch(&mut self, watch: &Watch, text: &mut String)
        ensures { self.new ≡ self.old }
    {
        match watch {
            Watch::Learn(observer, place) => self.learn(*observer, *place),
            Watch::Forget(place) => drop(self.take(*place)),
            Watch::ForgetMany => self.all_told.clear(),
            Watch::Look(observer) => self.tell_look(*observer, text),
        }
    }

    pub fn keep(&mut self, place: Place, told: Told)
        requires { told.publisher ≡ self.old }
        ensures { self.new ≡ self.old }
    {
        match place {
            Place::First => drop(self.told.replace(told)),
            Place::Second => drop(self.more_told.replace(told)),
            // (where this fails, fewer publishes are refused)
            Place::Many => drop(self.all_told.push(told)),
        }
    }

    // What is kept at the first or second place is kept no longer.
    fn take(&mut self, place: Place) -> Option<Told>
        ensures same { self.new ≡ self.old }
        ensures told { IfSome result (λ t. t.publisher ≡ self.old) }
    {
        match place {
            Place::First => self.told.take(),
            Place::Second => self.more_told.take(),
            Place::Many => None,
        }
    }

    pub fn learn(&mut self, observer: Which, place: Place)
        ensures { self.new ≡ self.old }
    {
        if let Some(told) = self.take(place) {
            match observer {
                Which::First => self.first.learn(told),
                Which::Second => self.second.learn(told),
            }
        }
    }

    fn look(&mut self, observer: Which) -> Result<View, LookFault>
        ensures { self.new ≡ self.old }
    {
        match observer {
            Which::First => self.first.look(),
            Which::Second => self.second.look(),
        }
    }

    fn glance(&mut self, observer: Which, node: Node) -> Result<Glance, GlanceFault>
        ensures { self.new ≡ self.old }
    {
        match observer {
            Which::First => self.first.glance(node),
            Which::Second => self.second.glance(node),
        }
    }

    // Whether a glance at node 1 shows what was seen of it, and one at the last node of all, which no group here has,
    // is refused; both are Gone where the look was.
    fn glances_as(&mut self, observer: Which, seen: &Result<View, LookFault>) -> bool
        ensures { self.new ≡ self.old }
    {
        let (Some(one), Some(last)) = (Node::new(1), Node::new(NODES_MAX)) else {
            return false;
        };
        let one = self.glance(observer, one);
        let last = self.glance(observer, last);
        match seen {
            Ok(view) => is_shown(view, one) && matches!(last, Err(GlanceFault::BadNode)),
            Err(_) => {
                matches!(one, Err(GlanceFault::Gone)) && matches!(last, Err(GlanceFault::Gone))
            }
        }
    }

    // Tells what the observer sees of node 1, and where a glance shows otherwise.
    fn tell_look(&mut self, observer: Which, text: &mut String)
        ensures { self.new ≡ self.old }
    {
        let seen = self.look(observer);
        tell_seen(text, &seen, 1);
        if !self.glances_as(observer, &seen) {
            drop(text.push_str("another glance\n"));
        }
        drop(seen);
    }

    /// The count of events and the status of node 1 that the first observer sees.
    pub fn seen(&mut self) -> Option<(u32, Status)>
        ensures { self.new ≡ self.old }
    {
        let seen = self.look(Which::First).ok()?;
        let told = seen_in(&seen, 1);
        drop(seen);
        told
    }
}

// Whether the glance shows what the view shows of node 1.
fn is_shown(view: &View, glance: Result<Glance, GlanceFault>) -> bool {
    match (seen_in(view, 1), glance) {
        (Some((events, status)), Ok(glance)) => glance.events == events && glance.status == status,
        _ => false,
    }
}

/// A publisher, and its observers.
pub fn publisher_for<R: Wait>(rt: &R, alloc: Global, setup: Setup) -> Option<(Publisher, Watchers)>
    ensures publisher { IfSome result (λ r. (r.0.publisher.setup ≡ setup) × (r.0.shown ≡ []) × (r.0.taken ≡ [])) }
    ensures watchers { IfSome result (λ r. r.1 ≡ r.0.publisher) }
{
    let Ok((publisher, mut observers)) = Publisher::open(rt, alloc, setup, 2) else {
        return None;
    };
    match (observers.pop(), observers.pop()) {
        (Some(first), Some(second)) => {
            let watchers = Watchers {
                first,
                second,
                told: None,
                more_told: None,
                all_told: Vec::new(alloc),
            };
            Some((publisher, watchers))
        }
        _ => {
            publisher.end(rt);
            None
        }
    }
}

/// Takes so many rounds, and tells of each that is refused.
pub fn rounds<L: Naming, R: Wait>(
    rt: &R,
    locked: &mut Locked<L>,
    seat: &mut Seat,
    pass: &mut Pass<L>,
    count: u32,
    text: &mut String,
) {
    let mut told = None;
    for _each in 0..count {
        if !round(rt, locked, seat, pass, &mut told) {
            drop(text.push_str("a refused round\n"));
        }
    }
    drop(told);
}

/// Whether node 1 recovers and crashes, with a publish after each, of which is kept what is told.
pub fn round<L: Naming, R: Wait>(
    rt: &R,
    locked: &mut Locked<L>,
    seat: &mut Seat,
    pass: &mut Pass<L>,
    told: &mut Option<Told>,
) -> bool
    requires { IfSome told.old (λ t. L.publisher ≡ Some t.publisher) }
    ensures { IfSome told.new (λ t. L.publisher ≡ Some t.publisher) }
{
    let Some(one) = Node::new(1) else {
        return false;
    };
    is_published(rt, locked, seat, pass, Event::Recover(one), told)
        && is_published(rt, locked, seat, pass, Event::Crash(one), told)
}

// Whether the step is taken and published.
fn is_published<L: Naming, R: Wait>(
    rt: &R,
    locked: &mut Locked<L>,
    seat: &mut Seat,
    pass: &mut Pass<L>,
    event: Event,
    told: &mut Option<Told>,
) -> bool
    requires { IfSome told.old (λ t. L.publisher ≡ Some t.publisher) }
    ensures { IfSome told.new (λ t. L.publisher ≡ Some t.publisher) }
{
    let is_taken = locked.step(seat, &event, pass).is_ok();
    drop(event);
    match locked.publish(rt, seat) {
        Ok(new) => {
            drop(told.replace(new));
            is_taken
        }
        Err(_) => false,
    }
}
