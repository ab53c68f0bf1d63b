//! What is asked of a group and of its observers, ask by ask, what is told of each, and the group's end.

ghost use Rattle.std.specs.Prelude.{◌≡◌, ◌+◌, [], IfSome, None};
ghost use Rattle.bully_group.specs.Locked.{name_of};
ghost use Rattle.bully_steps.specs.Procedure.{state_of};

use super::observers::{Place, Watch, Watchers, Which, publisher_for, rounds};
use super::test_group::{Opened, TestGroup, Way, ended, open};
use super::two_groups::{Other, used_as_told};
use bully_agree::View;
use bully_base::{Node, Setup, Status};
use bully_calls::Answer;
use bully_group::{Closed, Locked, Naming, NodeTurn, Pass, Seat, StepFault, Turn};
use bully_steps::Procedure;
use bully_table::Table;
use bully_watch::{Publisher, Told};
use bully_world::Event;
use std::alloc::Global;
use std::fmt::Debug;
use std::marker::Brand;
use std::mem;
use std::sync::ledger::Blank;
use std::sync::{MutexGuard, Wait};

/// What an event does.
#[derive(Clone, Copy)]
pub enum Action {
    Recover,
    Crash,
    Check,
    Timeout,
    Start,
    Run,
    Lose,
    Return,
    Drop,
    Move,
    Plan(&'static str),
}

/// A call with the seat and the pass of an actor.
#[derive(Clone, Copy)]
pub enum Call {
    /// An event of this node.
    Step(Action, u16),
    Serve,
    /// A turn of the procedure that is held.
    Turn,
    /// The same with the procedure where it lies.
    TurnInPlace,
    /// A serve, or else a turn, in one call.
    NodeTurn,
    View,
    /// So many publishes. What is told of each is kept at this place.
    Publish(Place, u32),
    /// Node 1 recovers and crashes so often. Each is published, and what is told is dropped. It is told of each round
    /// in which a step or a publish is refused.
    Rounds(u32),
    /// How many entries the seat has.
    Entries,
}

#[derive(Clone, Copy)]
pub enum Ask {
    /// This actor's call.
    By(usize, Call),
    /// The procedure that is held is prepared, without an old table.
    Prepare,
    /// What is done by the observers.
    Watch(Watch),
}

/// A group, watched by two observers or by nobody, whose procedure is held, and what is asked. Then the seats may be
/// used on another group. A line is told of each ask, and then one of a finish without the last seat, one without the
/// last pass, and one of the finish with all of them. Of a finished group a line more tells the view of the node; and
/// where it is watched, there is a look of the first observer then, and one once it is ended. The history starts with
/// these entries.
#[derive(Clone, Copy)]
pub struct Case {
    pub nodes: u16,
    pub partitions: u16,
    pub events_max: u32,
    pub is_watched: bool,
    pub node: u16,
    pub asks: &'static [Ask],
    pub other: Option<Other>,
    pub told: &'static str,
    pub history: &'static [(u16, Action, u16, Answer)],
}

/// What stands beside a group: the procedure that is held for turns, its observers if it is watched, and what is told.
#[derive(Drop)]
pub struct Beside {
    pub alloc: Global,
    pub procedure: Procedure,
    pub watchers: Option<Watchers>,
    pub text: String,
}

impl Beside {
    // Does it by the observers, if there are any.
    fn watch(&mut self, watch: &Watch)
        ensures procedure { self.new.procedure ≡ self.old.procedure }
        ensures watchers { self.new.watchers ≡ self.old.watchers }
    {
        if let Some(watchers) = &mut self.watchers {
            watchers.watch(watch, &mut self.text);
        }
    }

    fn keep(&mut self, place: Place, told: Told)
        requires { IfSome self.old.watchers (λ w. told.publisher ≡ w) }
        ensures procedure { self.new.procedure ≡ self.old.procedure }
        ensures watchers { self.new.watchers ≡ self.old.watchers }
    {
        if let Some(watchers) = &mut self.watchers {
            watchers.keep(place, told);
        }
    }
}

/// What stands beside a group with this setup that nobody watches, if it has this node. The procedure is the node's.
pub fn beside_for(alloc: Global, setup: Setup, number: u16) -> Option<Beside>
    ensures setup { IfSome result (λ beside. (state_of beside.procedure).setup ≡ setup) }
    ensures unwatched { IfSome result (λ beside. beside.watchers ≡ None) }
{
    let node = Node::new(number)?;
    if setup.nodes() < number {
        return None;
    }
    Some(Beside {
        alloc,
        procedure: Procedure::idle(setup, node, 0),
        watchers: None,
        text: String::new(alloc),
    })
}

/// The publisher of a watched group with this setup, whose observers stand beside it.
pub fn publisher_beside<R: Wait>(
    rt: &R,
    setup: Setup,
    is_watched: bool,
    beside: &mut Beside,
) -> Option<Publisher>
    requires unwatched { beside.old.watchers ≡ None }
    ensures procedure { beside.new.procedure ≡ beside.old.procedure }
    ensures publisher { name_of result ≡ beside.new.watchers }
    ensures new { IfSome result (λ p. (p.publisher.setup ≡ setup) × (p.shown ≡ []) × (p.taken ≡ [])) }
{
    if !is_watched {
        return None;
    }
    match publisher_for(rt, beside.alloc, setup) {
        Some((publisher, watchers)) => {
            drop(beside.watchers.replace(watchers));
            Some(publisher)
        }
        None => None,
    }
}

// The event of an action.
fn event_of(alloc: Global, setup: &Setup, action: &Action, number: u16) -> Option<Event> {
    let node = Node::new(number)?;
    Some(match action {
        Action::Recover => Event::Recover(node),
        Action::Crash => Event::Crash(node),
        Action::Check => Event::Check(node),
        Action::Timeout => Event::Timeout(node),
        Action::Start => Event::Start(node),
        Action::Run => Event::Run(node),
        Action::Lose => Event::Lose(node),
        Action::Return => Event::Return(node),
        Action::Drop => Event::Drop(node),
        Action::Move => Event::Move(node),
        Action::Plan(owners) => Event::Plan(node, Table::read(alloc, *setup, owners).ok()?),
    })
}

/// Whether what must be told of the case is told, and its history is as it must be.
pub fn tried<R: Wait>(rt: &R, alloc: Global, way: Way, case: &Case) -> bool {
    let Ok(setup) = Setup::new(case.nodes, case.partitions, case.events_max) else {
        return false;
    };
    let Some(mut beside) = beside_for(alloc, setup, case.node) else {
        return false;
    };
    let publisher = publisher_beside(rt, setup, case.is_watched, &mut beside);
    let blank = Blank::new(u64::from(setup.nodes()) + 1);
    let is_told = tried_by::<Brand, R>(rt, way, setup, publisher, &mut beside, blank, case);
    drop(beside);
    is_told
}

fn tried_by<L: Naming, R: Wait>(
    rt: &R,
    way: Way,
    setup: Setup,
    publisher: Option<Publisher>,
    beside: &mut Beside,
    blank: Blank,
    case: &Case,
) -> bool
    requires setup { (setup ≡ L.setup) × ((state_of beside.old.procedure).setup ≡ L.setup) }
    requires publisher { (name_of publisher ≡ L.publisher) × (beside.old.watchers ≡ L.publisher) }
    requires new { IfSome publisher (λ p. (p.publisher.setup ≡ setup) × (p.shown ≡ []) × (p.taken ≡ [])) }
    requires name { blank.name ≡ L.name }
    requires parts { (blank.parts ≡ L.parts) × (L.parts ≡ L.setup.nodes + 1) }
{
    match open::<L, R>(rt, beside.alloc, way, setup, publisher, blank) {
        Some(opened) => goes_as_told(rt, way, opened, beside, case),
        None => false,
    }
}

fn goes_as_told<L: Naming, R: Wait>(
    rt: &R,
    way: Way,
    mut opened: Opened<L>,
    beside: &mut Beside,
    case: &Case,
) -> bool
    requires setup { (state_of beside.old.procedure).setup ≡ L.setup }
    requires watchers { beside.old.watchers ≡ L.publisher }
{
    ask_all(rt, &mut opened, beside, case.asks);
    let is_used = used_as_told(rt, beside.alloc, way, &mut opened.seats, &case.other);
    ends_as(rt, opened, beside, case.history, case.told) && is_used
}

/// Asks all of it, one ask after the other.
pub fn ask_all<L: Naming, R: Wait>(
    rt: &R,
    opened: &mut Opened<L>,
    beside: &mut Beside,
    asks: &[Ask],
)
    requires setup { (state_of beside.old.procedure).setup ≡ L.setup }
    requires watchers { beside.old.watchers ≡ L.publisher }
    ensures setup { (state_of beside.new.procedure).setup ≡ L.setup }
    ensures watchers { beside.new.watchers ≡ L.publisher }
{
    for each in asks {
        match each {
            Ask::By(actor, call) => call_by(rt, opened, beside, *actor, call),
            Ask::Prepare => prepare(beside),
            Ask::Watch(watch) => beside.watch(watch),
        }
    }
}

// A call with the actor's seat and pass, bare or in one hold of the lock. Nothing is told where there are none.
fn call_by<L: Naming, R: Wait>(
    rt: &R,
    opened: &mut Opened<L>,
    beside: &mut Beside,
    actor: usize,
    call: &Call,
)
    requires setup { (state_of beside.old.procedure).setup ≡ L.setup }
    requires watchers { beside.old.watchers ≡ L.publisher }
    ensures setup { (state_of beside.new.procedure).setup ≡ L.setup }
    ensures watchers { beside.new.watchers ≡ L.publisher }
{
    let Some(seat) = opened.seats.get_mut(actor) else {
        return;
    };
    let Some(pass) = opened.passes.get_mut(actor) else {
        return;
    };
    match &mut opened.held {
        TestGroup::Bare(locked) => call_locked(rt, locked, seat, pass, beside, call),
        TestGroup::Shared(group) => {
            let mut guard = group.locked.lock(rt);
            call_locked(rt, &mut guard, seat, pass, beside, call);
            MutexGuard::unlock(guard);
        }
    }
}

fn call_locked<L: Naming, R: Wait>(
    rt: &R,
    locked: &mut Locked<L>,
    seat: &mut Seat,
    pass: &mut Pass<L>,
    beside: &mut Beside,
    call: &Call,
)
    requires setup { (state_of beside.old.procedure).setup ≡ L.setup }
    requires watchers { beside.old.watchers ≡ L.publisher }
    ensures setup { (state_of beside.new.procedure).setup ≡ L.setup }
    ensures watchers { beside.new.watchers ≡ L.publisher }
{
    match call {
        Call::Step(action, number) => step(locked, seat, pass, beside, action, *number),
        Call::Serve => tell(&mut beside.text, &locked.serve(seat, pass)),
        Call::View => view(
            locked,
            seat,
            beside.procedure.node().number(),
            &mut beside.text,
        ),
        Call::Publish(place, count) => publish_all(rt, locked, seat, beside, *place, *count),
        Call::Rounds(count) => rounds(rt, locked, seat, pass, *count, &mut beside.text),
        Call::Entries => tell(&mut beside.text, &seat.log().len()),
        _ => turn(locked, seat, pass, beside, call),
    }
}

/// Tells of it in a line.
pub fn tell<T: Debug>(text: &mut String, value: &T) {
    let _ = writeln!(text, "{value:?}");
}

fn step<L: Naming>(
    locked: &mut Locked<L>,
    seat: &mut Seat,
    pass: &mut Pass<L>,
    beside: &mut Beside,
    action: &Action,
    number: u16,
)
    ensures procedure { beside.new.procedure ≡ beside.old.procedure }
    ensures watchers { beside.new.watchers ≡ beside.old.watchers }
{
    let Some(event) = event_of(beside.alloc, locked.setup(), action, number) else {
        return;
    };
    let answer = locked.step(seat, &event, pass);
    drop(event);
    tell(&mut beside.text, &answer);
}

fn view<L: Naming>(locked: &Locked<L>, seat: &Seat, number: u16, text: &mut String) {
    let seen = locked.view(seat);
    tell_seen(text, &seen, number);
    drop(seen);
}

fn publish_all<L: Naming, R: Wait>(
    rt: &R,
    locked: &mut Locked<L>,
    seat: &Seat,
    beside: &mut Beside,
    place: Place,
    count: u32,
)
    requires { beside.old.watchers ≡ L.publisher }
    ensures procedure { beside.new.procedure ≡ beside.old.procedure }
    ensures watchers { beside.new.watchers ≡ beside.old.watchers }
{
    for _each in 0..count {
        publish(rt, locked, seat, beside, place);
    }
}

// Nothing is told of a publish that succeeds.
fn publish<L: Naming, R: Wait>(
    rt: &R,
    locked: &mut Locked<L>,
    seat: &Seat,
    beside: &mut Beside,
    place: Place,
)
    requires { beside.old.watchers ≡ L.publisher }
    ensures procedure { beside.new.procedure ≡ beside.old.procedure }
    ensures watchers { beside.new.watchers ≡ beside.old.watchers }
{
    match locked.publish(rt, seat) {
        Ok(told) => beside.keep(place, told),
        Err(fault) => tell(&mut beside.text, &fault),
    }
}

fn prepare(beside: &mut Beside)
    ensures setup { (state_of beside.new.procedure).setup ≡ (state_of beside.old.procedure).setup }
    ensures watchers { beside.new.watchers ≡ beside.old.watchers }
{
    let procedure = &mut beside.procedure;
    if procedure.prepare(beside.alloc, None).is_ok() && procedure.table().is_some() {
        drop(beside.text.push_str("prepared\n"));
    }
}

// A turn of one of the three kinds, and where the procedure stands then.
fn turn<L: Naming>(
    locked: &mut Locked<L>,
    seat: &mut Seat,
    pass: &mut Pass<L>,
    beside: &mut Beside,
    call: &Call,
)
    requires { (state_of beside.old.procedure).setup ≡ L.setup }
    ensures setup { (state_of beside.new.procedure).setup ≡ L.setup }
    ensures watchers { beside.new.watchers ≡ beside.old.watchers }
{
    let procedure = &mut beside.procedure;
    let answer = match call {
        Call::TurnInPlace => locked.turn_in_place(seat, procedure, pass),
        Call::NodeTurn => locked.serve_or_turn(seat, procedure, pass),
        _ => turn_by_value(locked, seat, procedure, pass),
    };
    tell_turn(&mut beside.text, answer, &beside.procedure);
}

fn turn_by_value<L: Naming>(
    locked: &mut Locked<L>,
    seat: &mut Seat,
    procedure: &mut Procedure,
    pass: &mut Pass<L>,
) -> Result<NodeTurn, StepFault>
    requires { (state_of procedure.old).setup ≡ L.setup }
    ensures { (state_of procedure.new).setup ≡ L.setup }
{
    let idle = Procedure::idle_in(procedure.setup(), procedure.node(), 0);
    let (back, answer) = match locked.turn(seat, mem::replace(procedure, idle), pass) {
        Turn::Went(back) => (back, Ok(NodeTurn::Went)),
        Turn::Waiting(back) => (back, Ok(NodeTurn::Waiting)),
        Turn::Resynced(back) => (back, Ok(NodeTurn::Resynced)),
        Turn::Fault(back, fault) => (back, Err(fault)),
    };
    drop(mem::replace(procedure, back));
    answer
}

fn tell_turn(text: &mut String, answer: Result<NodeTurn, StepFault>, procedure: &Procedure) {
    match answer {
        Ok(turn) => {
            let (kind, left) = (procedure.kind(), left_by(procedure));
            let generation = procedure.generation();
            drop(writeln!(text, "{turn:?} {kind:?}{left} {generation}"));
        }
        Err(fault) => tell(text, &fault),
    }
}

// Whether nobody is left to be announced to or readied, where the procedure does that.
fn left_by(procedure: &Procedure) -> &'static str {
    match procedure.left() {
        Some(left) if left.is_empty() => " to nobody",
        Some(_) => " to some",
        None => "",
    }
}

/// How many events the view has, and the status of this node, if it is shown.
pub fn seen_in(view: &View, number: u16) -> Option<(u32, Status)> {
    let node = Node::new(number)?;
    if view.nodes() < number {
        return None;
    }
    Some((view.events(), view.status(node)))
}

/// Tells of the view that is seen, or why none is.
pub fn tell_seen<F: Debug>(text: &mut String, seen: &Result<View, F>, number: u16) {
    match seen {
        Ok(view) => tell_view(text, view, number),
        Err(fault) => tell(text, fault),
    }
}

// Tells how many events the view has, and the status of the node, and nothing where it isn't shown.
fn tell_view(text: &mut String, view: &View, number: u16) {
    if let Some((events, status)) = seen_in(view, number) {
        let _ = writeln!(text, "{events} {status:?}");
    }
}

/// Tells of the group's end. Whether this is told of the group, and its history, if it is finished, starts with these
/// entries.
pub fn ends_as<L: Naming, R: Wait>(
    rt: &R,
    opened: Opened<L>,
    beside: &mut Beside,
    history: &[(u16, Action, u16, Answer)],
    told: &str,
) -> bool {
    let begins = match ended(opened, &mut beside.text) {
        Ok(closed) => {
            tell_closed(&closed, beside);
            let begins = begins_with(beside.alloc, &closed, history);
            closed.end(rt);
            beside.watch(&Watch::Look(Which::First));
            begins
        }
        Err(opened) => {
            opened.end(rt);
            true
        }
    };
    begins && is_same(beside.text.as_str(), told)
}

fn is_same(text: &str, told: &str) -> bool {
    text == told
}

// Tells of a finished group, and what is seen of it.
fn tell_closed(closed: &Closed, beside: &mut Beside) {
    drop(beside.text.push_str("entries: "));
    tell(&mut beside.text, &closed.history().len());
    let number = beside.procedure.node().number();
    tell_view(&mut beside.text, closed.view(), number);
    beside.watch(&Watch::Look(Which::First));
}

fn begins_with(alloc: Global, closed: &Closed, history: &[(u16, Action, u16, Answer)]) -> bool {
    let mut is_same = true;
    for (place, wanted) in history.iter().enumerate() {
        is_same = is_same && is_entry(alloc, closed, place, wanted);
    }
    is_same
}

// Whether the entry at this place is as it must be.
fn is_entry(
    alloc: Global,
    closed: &Closed,
    place: usize,
    wanted: &(u16, Action, u16, Answer),
) -> bool {
    let Some(entry) = closed.history().get(place) else {
        return false;
    };
    let Some(event) = event_of(alloc, &closed.setup(), &wanted.1, wanted.2) else {
        return false;
    };
    let is_same = entry.event.is_same(&event);
    drop(event);
    is_same && entry.actor == wanted.0 && entry.answer == wanted.3
}
