//! Whether what a row says is so in the world before it.
ghost use Rattle.std.specs.Prelude.{◌≡◌, ◌≤◌, option_and_then, option_map};
ghost use Rattle.std.specs.Option.{option_copied};
ghost use Rattle.bully_calls.specs.Slot.{pending_in};
ghost use Rattle.bully_handlers.specs.Handler.{reply};
ghost use Rattle.bully_handlers.specs.Vector.{is_normal};
ghost use Rattle.bully_steps.specs.Point.{offered};
ghost use Rattle.bully_rows.specs.EventsTold.{answered};
ghost use Rattle.bully_trace.specs.Details.{brought, call_at, is_so, is_true, is_whole, offered_call, said_by, said_of};
ghost use Rattle.bully_trace.specs.Details.{same_answers, same_task, says};
ghost use Rattle.bully_calls.specs.Events.{node_of, node_saying};
ghost use Rattle.bully_world.specs.State.{IsReached, state_at, world_of};
ghost use Rattle.bully_world.specs.World.{pending, vector};

use bully_base::{Node, Status};
use bully_calls::{Answer, Call, CallKind, EventKind, NodeEventKind, Phase, Saying, Slot};
use bully_rows::{Claim, Detail, DetailedEvent, WholeClaim};
use bully_steps::Want;
use bully_table::Table;
use bully_world::{Event, World};

/// Whether the claim is true of the world.
pub fn holds(world: &World, claim: &Claim) -> bool
    ensures { result ≡ is_true world.now.setup (world_of world.now) claim.now }
{
    if claim.node.number() > world.setup().nodes() {
        return false;
    }
    let vector = world.vector(claim.node);
    vector.status() == claim.status && vector.coordinator() == claim.coordinator
}

/// Whether all that the claim tells of a vector is true of the world.
pub fn holds_whole(world: &World, whole: &WholeClaim) -> bool
    ensures whole { result ≡ is_whole world.now.setup (world_of world.now) whole.now }
{
    let claim = whole.claim();
    if !holds(world, &claim) {
        return false;
    }
    let vector = world.vector(claim.node);
    vector.halter() == whole.halter()
        && vector.up() == whole.up()
        && same_task(vector.task(), whole.task())
}

/// Whether the two have the same owners, or are none.
pub fn same_task(one: Option<&Table>, other: Option<&Table>) -> bool
    ensures { result ≡ same_task (option_copied one.entry) (option_copied other.entry) }
{
    match (one, other) {
        (None, None) => true,
        (Some(one), Some(other)) => one == other,
        _ => false,
    }
}

/// Whether what is said beside the event is so in the world before it.
pub fn is_so(world: &World, event: &DetailedEvent) -> bool
    ensures { result ≡ is_so world.now.setup (world_of world.now) event.now }
{
    let nodes = world.setup().nodes();
    let detail = &event.detail;
    event.node.number() <= nodes
        && detail.call.callee.number() <= nodes
        && says(world, event.node, detail)
}

// The same of a node that the group has.
fn says(world: &World, node: Node, detail: &Detail) -> bool
    requires { node ≤ world.now.setup.nodes }
    ensures says { result ≡ says world.now.setup (world_of world.now) node detail.now }
{
    match said_by(world, node, detail.kind) {
        Some(there) => { there.call == detail.call && same_answers(there.answer, detail.answer) }
        None => false,
    }
}

// Whether the two are the same answer, or none.
fn same_answers(one: Option<Answer>, other: Option<Answer>) -> bool
    ensures { result ≡ same_answers one other }
{
    match (one, other) {
        (None, None) => true,
        (Some(one), Some(other)) => one == other,
        _ => false,
    }
}

/// What the point of the node offers. The node is at most the setup's last.
// (a procedure keeps that its point is one of its node's)
pub fn offer_of(world: &World, node: Node) -> Want
    requires { node ≤ world.now.setup.nodes }
    ensures { result
        ≡ offered world.now.setup (state_at world.now node).vector.vector.coordinator (state_at world.now node).point }
{
    let procedure = world.procedure(node);
    let coordinator = world.vector(node).coordinator();
    procedure
        .point()
        .offers(procedure.setup(), node, coordinator)
}

/// What there is to say of the event in the world before it: none of an event without a call, and where there is no
/// such call. Its node is at most the setup's last.
pub fn said_of(world: &World, event: &Event) -> Option<DetailedEvent>
    requires { node_of event.now ≤ world.now.setup.nodes }
    ensures { result ≡ said_of world.now.setup (world_of world.now) event.now }
{
    let node = event.node();
    match event.kind() {
        EventKind::Node(kind) => {
            let detail = said_by(world, node, kind)?;
            Some(DetailedEvent { node, detail })
        }
        EventKind::Plan => None,
    }
}

// What there is to say of an event of the node of this kind, as the table of events has it: the call, and the answer,
// if one is told.
fn said_by(world: &World, node: Node, kind: NodeEventKind) -> Option<Detail>
    requires { node ≤ world.now.setup.nodes }
    ensures { result ≡ said_by (node_saying kind) kind world.now.setup (world_of world.now) node }
{
    match kind.saying() {
        Saying::Nothing => None,
        Saying::Offered => Some(Detail::unanswered(kind, offered_call(offer_of(world, node))?)),
        Saying::Held => Some(Detail::unanswered(kind, call_at(world, node)?)),
        Saying::Replied => Some(replied(world, kind, call_at(world, node)?)),
        Saying::Brought => returned(world, node, kind),
    }
}

// That the call runs, and what it is answered.
fn replied(world: &World, kind: NodeEventKind, call: Call) -> Detail
    ensures { result ≡ answered kind call (reply call.kind (vector (world_of world.now) call.callee)) }
{
    Detail::answered(kind, call, reply_of(world, &call))
}

// That the call in the slot of the node returns, and what it brings; none where it can't return yet.
fn returned(world: &World, node: Node, kind: NodeEventKind) -> Option<Detail>
    requires { node ≤ world.now.setup.nodes }
    ensures { result
        ≡ option_and_then (λ c. option_map (answered kind c.call) (brought c)) (pending (world_of world.now) node) }
{
    let slot = world.slot(node);
    let call = slot.call()?;
    let answer = brought(slot, world.generation(node))?;
    Some(Detail::answered(kind, call, answer))
}

// The call that is offered.
fn offered_call(want: Want) -> Option<Call>
    ensures { result ≡ offered_call want }
{
    match want {
        Want::Start(call) => Some(call),
        _ => None,
    }
}

/// The call in the slot of the node, which is at most the setup's last.
pub fn call_at(world: &World, node: Node) -> Option<Call>
    requires { node ≤ world.now.setup.nodes }
    ensures { result ≡ call_at (world_of world.now) node }
{
    world.slot(node).call()
}

// What the callee answers to the call.
fn reply_of(world: &World, call: &Call) -> Answer
    ensures { result ≡ reply call.now.kind (vector (world_of world.now) call.now.callee) }
{
    match call.kind {
        CallKind::AreYouNormal if !is_normal(world, call.callee) => Answer::No,
        _ => Answer::Yes,
    }
}

// Whether the node is Normal. One that the group doesn't have is none.
fn is_normal(world: &World, node: Node) -> bool
    ensures { result ≡ is_normal (vector (world_of world.now) node).status }
{
    node.number() <= world.setup().nodes() && world.vector(node).status() == Status::Normal
}

// What the call in the slot of a caller of this generation brings, where it returns; none where it can't yet.
fn brought(slot: &Slot, generation: u32) -> Option<Answer>
    ensures { result ≡ option_and_then brought (pending_in generation slot.now) }
{
    let answer = match slot.phase()? {
        Phase::Ran(Answer::Yes) => Answer::Yes,
        Phase::Ran(Answer::No) => Answer::No,
        Phase::Failed => Answer::Failed,
        _ => return None,
    };
    if slot.is_orphan(generation) {
        Some(Answer::Discarded)
    } else {
        Some(answer)
    }
}

/// A lawful list of events leads to the world. Its type keeps that, and its readers tell it.
pub fn reached(world: &World)
    ensures { IsReached world.now }
{
    world.setup();
}
