ghost use Rattle.std.specs.Prelude.{◌≡◌, ◌+◌, ◌++◌, ◌<◌, [], ◌∷◌, ◌↔◌, IsTrue, IfOk, OnOk, IfErr, MatchOption, Some};
ghost use Rattle.std.specs.Prelude.{None, is_ok, slice_get, vec_len, vec_capacity, if◌then◌else◌};
ghost use Rattle.std.specs.Option.{option_map};
ghost use Rattle.bully_group.specs.Seat.{IsKnown, IsForeign};
ghost use Rattle.bully_group.specs.Steps.{Records, IsAllowed, IsYours, IsStepFault, IsApplyFault, IsServe};
ghost use Rattle.bully_group.specs.Steps.{IsServeFault, IsLateFault, is_served};
ghost use Rattle.bully_watch.specs.History.{whose, callee_of};
ghost use Rattle.bully_world.specs.State.{world_of, cause_in};
ghost use Rattle.bully_world.specs.World.{pending};

use super::Locked;
use crate::naming::Naming;
use crate::pass::Pass;
use crate::seat::Seat;
use bully_base::{Node, OutOfMemory};
use bully_calls::EventKind;
use bully_watch::Entry;
use bully_world::{Event, Refused, World};

/// Why a step isn't taken, the first that holds.
#[derive(Clone, Copy, PartialEq, Eq, Debug)]
pub enum StepFault {
    /// The seat's last entry isn't in this history at its index, which is this one.
    Foreign { index: usize },
    /// The event isn't the seat's actor's.
    NotYours,
    /// The world refuses the event, for this cause.
    Refused(Refused),
    /// An allocation failed.
    OutOfMemory,
}

impl<L: Naming> Locked<L> {
    /// Takes one event of the seat's actor. Its entry becomes the last of the history and, beside its index, of the
    /// seat; the pass counts it. Refused, in this order, as `Foreign`, never for a seat without an entry, `NotYours`,
    /// `Refused` and `OutOfMemory`; then nothing changes.
    // (inlined with what it calls, as `Locked::serve_or_turn` is, so that an event that was just made stays in
    // registers)
    #[inline(always)]
    pub fn step(
        &mut self,
        seat: &mut Seat,
        event: &Event,
        pass: &mut Pass<L>,
    ) -> Result<(), StepFault>
        ensures entry { OnOk result (Records self.old seat.old event.now self.new seat.new) }
        ensures allowed { OnOk result (IsAllowed self.old seat.old event.now) }
        ensures fault { IfErr result (IsStepFault self.old seat.old event.now) }
        ensures unchanged { IfErr result (λ _. (self.new ≡ self.old) × (seat.new ≡ seat.old)) }
        ensures pass { pass.new ≡ (if is_ok result then pass.old + 1 else pass.old) }
    {
        if let Some(index) = foreign_index(&self.history, seat) {
            return Err(StepFault::Foreign { index });
        }
        if actor_of(&self.world, event) != Some(seat.actor) {
            return Err(StepFault::NotYours);
        }
        self.apply_allowed(seat, event, pass)
    }

    /// Runs the call that waits for the seat's node, that of the lowest caller; a step as `step` takes it. False, and
    /// nothing changes, where no call waits or the node is Down. Refused, in this order, as `Foreign`, `NotYours` for
    /// the operator's seat, `Refused` and `OutOfMemory`; then nothing changes.
    #[inline(always)]
    pub fn serve(&mut self, seat: &mut Seat, pass: &mut Pass<L>) -> Result<bool, StepFault>
        ensures served { IfOk result (IsServe self.old seat.old self.new seat.new) }
        ensures fault { IfErr result (IsServeFault self.old seat.old) }
        ensures unchanged { IfErr result (λ _. (self.new ≡ self.old) × (seat.new ≡ seat.old)) }
        ensures pass { pass.new ≡ (if is_served result then pass.old + 1 else pass.old) }
    {
        if let Some(index) = foreign_index(&self.history, seat) {
            return Err(StepFault::Foreign { index });
        }
        let Some(node) = Node::new(seat.actor) else {
            return Err(StepFault::NotYours);
        };
        self.serve_node(node, seat, pass)
    }

    // `serve` for the node of the seat, which is known.
    #[inline(always)]
    pub(crate) fn serve_node(
        &mut self,
        node: Node,
        seat: &mut Seat,
        pass: &mut Pass<L>,
    ) -> Result<bool, StepFault>
        requires known { IsKnown self.old.history seat.old }
        requires node { seat.old.actor ≡ node }
        ensures served { IfOk result (IsServe self.old seat.old self.new seat.new) }
        ensures fault { IfErr result (IsServeFault self.old seat.old) }
        ensures late { IfErr result IsLateFault }
        ensures unchanged { IfErr result (λ _. (self.new ≡ self.old) × (seat.new ≡ seat.old)) }
        ensures pass { pass.new ≡ (if is_served result then pass.old + 1 else pass.old) }
    {
        let Some(caller) = self.world.caller_to_serve(node) else {
            return Ok(false);
        };
        self.apply_allowed(seat, &Event::Run(caller), pass)?;
        Ok(true)
    }

    // Takes the event of the seat's actor, where the world doesn't refuse it. Everything is reserved before anything
    // changes.
    #[inline(always)]
    fn apply_allowed(
        &mut self,
        seat: &mut Seat,
        event: &Event,
        pass: &mut Pass<L>,
    ) -> Result<(), StepFault>
        requires known { IsKnown self.old.history seat.old }
        requires yours { IsYours self.old seat.old event.now }
        ensures entry { OnOk result (Records self.old seat.old event.now self.new seat.new) }
        ensures no_cause { OnOk result (cause_in self.old.world event.now ≡ None) }
        ensures fault { IfErr result (IsApplyFault self.old event.now) }
        ensures unchanged { IfErr result (λ _. (self.new ≡ self.old) × (seat.new ≡ seat.old)) }
        ensures pass { pass.new ≡ (if is_ok result then pass.old + 1 else pass.old) }
    {
        if let Some(cause) = self.world.cause(event) {
            return Err(StepFault::Refused(cause));
        }
        let Ok((event, logged)) = copies_with_room(event, &mut self.history, &mut seat.log) else {
            return Err(StepFault::OutOfMemory);
        };
        let answer = self.world.apply_allowed(&event);
        pass.count(&mut self.book);
        let entry = Entry {
            actor: seat.actor,
            event,
            answer,
        };
        record_entry(&mut self.history, &mut seat.log, entry, logged);
        Ok(())
    }
}

/// The index of the seat's last entry, where that isn't in this history.
#[inline(always)]
pub(crate) fn foreign_index(history: &[Entry], seat: &Seat) -> Option<usize>
    ensures { MatchOption result (IsKnown history.now seat.now) (IsForeign history.now seat.now) }
{
    let (index, last) = seat.log.as_slice().last()?;
    if stands(history, *index, last) {
        None
    } else {
        Some(*index)
    }
}

/// Whether the entry is in the history at this index.
#[inline(always)]
pub(crate) fn stands(history: &[Entry], index: usize, entry: &Entry) -> bool
    ensures { IsTrue result ↔ (slice_get history.now index ≡ Some entry.now) }
{
    match history.get(index) {
        None => false,
        Some(found) => found.is_same(entry),
    }
}

// Whose event it is, nobody's where a run finds no call.
fn actor_of(world: &World, event: &Event) -> Option<u16>
    ensures { result ≡ whose (world_of world.now) event.now }
{
    match event {
        Event::Recover(_) | Event::Crash(_) => Some(0),
        Event::Run(caller) => callee_of(world, *caller),
        _ => Some(event.node().number()),
    }
}

// Whom the caller's call is made to, if it has one.
#[tactic(auto, using(crate::proofs::WorldLemmas::no_call_beyond))]
fn callee_of(world: &World, caller: Node) -> Option<u16>
    ensures { result ≡ option_map callee_of (pending (world_of world.now) caller) }
{
    if caller.number() > world.setup().nodes() {
        return None;
    }
    let call = world.slot(caller).call()?;
    Some(call.callee.number())
}

/// Room for one entry more in the history and in the log. Both have the entries that they had.
#[inline(always)]
pub(crate) fn reserve_entry(
    history: &mut Vec<Entry>,
    log: &mut Vec<(usize, Entry)>,
) -> Result<(), OutOfMemory>
    ensures history { history.new.items ≡ history.old.items }
    ensures log { log.new.items ≡ log.old.items }
    ensures room { OnOk result (vec_len history.new < vec_capacity history.new) }
    ensures log_room { OnOk result (vec_len log.new < vec_capacity log.new) }
{
    history.reserve(1)?;
    log.reserve(1)
}

/// Records the entry in the history and, beside its index, in the log, where its event is this copy. Both have room.
#[inline(always)]
pub(crate) fn record_entry(
    history: &mut Vec<Entry>,
    log: &mut Vec<(usize, Entry)>,
    entry: Entry,
    copy: Event,
)
    requires room { vec_len history.old < vec_capacity history.old }
    requires log_room { vec_len log.old < vec_capacity log.old }
    ensures history { history.new.items ≡ history.old.items ++ entry ∷ [] }
    ensures log { log.new.items ≡ log.old.items ++ (vec_len history.old, record entry { event = copy }) ∷ [] }
{
    let index = history.len();
    let logged = Entry {
        actor: entry.actor,
        event: copy,
        answer: entry.answer,
    };
    history.push_reserved(entry);
    log.push_reserved((index, logged));
}

// Both copies, and room for one entry more in the history and in the log, which have the entries that they had.
#[inline(always)]
fn copies_with_room(
    event: &Event,
    history: &mut Vec<Entry>,
    log: &mut Vec<(usize, Entry)>,
) -> Result<(Event, Event), OutOfMemory>
    ensures copies { IfOk result (λ copies. (copies.0 ≡ event.now) × (copies.1 ≡ event.now)) }
    ensures history { history.new.items ≡ history.old.items }
    ensures log { log.new.items ≡ log.old.items }
    ensures room { OnOk result (vec_len history.new < vec_capacity history.new) }
    ensures log_room { OnOk result (vec_len log.new < vec_capacity log.new) }
{
    reserve_entry(history, log)?;
    Ok((copy_of(event)?, copy_of(event)?))
}

// The same event. What names a node and no more is made anew, so that it stays in registers.
#[inline(always)]
fn copy_of(event: &Event) -> Result<Event, OutOfMemory>
    ensures { IfOk result (λ copy. copy ≡ event.now) }
{
    match event.kind() {
        EventKind::Node(kind) => Ok(kind.event(event.node())),
        EventKind::Plan => event.copy(),
    }
}
