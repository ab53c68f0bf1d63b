//! What a row says beside what the group shows, where the two differ.
ghost use Rattle.std.specs.Prelude.{◌≡◌, ◌≤◌, nat_le, true};
ghost use Rattle.bully_calls.specs.Events.{node_saying};
ghost use Rattle.bully_trace.specs.Details.{said_of};
ghost use Rattle.bully_world.specs.State.{world_of};
ghost use Rattle.bully_explain.specs.Differing.{answer_in, answer_text, answers_text, callee_in, claimed_text};
ghost use Rattle.bully_explain.specs.Differing.{detailed_text, differing_text, kind_text, whole_text};
ghost use Rattle.bully_draft.specs.Drafted.{Appends};

use crate::sides::{push_heads, push_nodes, push_sets, push_tasks, push_words};
use bully_base::{Node, Setup};
use bully_calls::{Answer, Saying};
use bully_draft::Draft;
use bully_handlers::Vector;
use bully_rows::{
    Claim, Detail, DetailedEvent, Row, WholeClaim, answer_word, call_word, status_word,
};
use bully_table::Table;
use bully_trace::said_of;
use bully_world::World;

/// Appends what the row says and what the group shows before it, side by side; nothing of a node that the group doesn't
/// have.
#[tactic(auto, using(bully_draft::proofs::DraftLemmas::appends_nothing))]
pub fn push_differing(text: &mut Draft, world: &World, row: &Row)
    ensures { Appends text.old text.new (differing_text world.now.setup (world_of world.now) row.now) }
{
    match row {
        Row::Event(_) => {}
        Row::Detailed(event) => push_detailed(text, world, event),
        Row::Claim(claim) => push_claim(text, world, *claim),
        Row::Whole(whole) => push_whole(text, world, whole),
    }
}

// Appends the status and the coordinator that are claimed, and what the group shows.
#[tactic(auto, using(bully_draft::proofs::DraftLemmas::appends_nothing))]
fn push_claim(text: &mut Draft, world: &World, claim: Claim)
    ensures { Appends text.old text.new (differing_text world.now.setup (world_of world.now) (Row.Claim claim)) }
{
    if has_node(world.setup(), claim.node) {
        push_claimed(text, world.vector(claim.node), claim);
    }
}

// Appends the same of a claim that tells all of a vector, and then the rest of that.
#[tactic(auto, using(bully_draft::proofs::DraftLemmas::appends_nothing))]
fn push_whole(text: &mut Draft, world: &World, whole: &WholeClaim)
    ensures { Appends text.old text.new (differing_text world.now.setup (world_of world.now) (Row.Whole whole.now)) }
{
    let node = whole.claim().node;
    if has_node(world.setup(), node) {
        push_whole_claimed(text, world.vector(node), whole);
    }
}

// Whether the group has the node.
fn has_node(setup: &Setup, node: Node) -> bool
    ensures test { result ≡ nat_le node setup.now.nodes }
    ensures within { result ≡ true → node ≤ setup.now.nodes }
{
    node.number() <= setup.nodes()
}

// Appends what is claimed of a node with this vector, and what that shows.
fn push_claimed(text: &mut Draft, vector: &Vector, claim: Claim)
    ensures { Appends text.old text.new (claimed_text vector.now.vector claim) }
{
    text.push_between("node ", claim.node.number(), " isn't as the row claims\n");
    push_heads(text, "claimed");
    push_words(
        text,
        "status",
        status_word(claim.status),
        status_word(vector.status()),
    );
    push_nodes(text, "coordinator", claim.coordinator, vector.coordinator());
}

// Appends the same of all of the vector.
fn push_whole_claimed(text: &mut Draft, vector: &Vector, whole: &WholeClaim)
    ensures { Appends text.old text.new (whole_text vector.now.vector whole.now) }
{
    push_claimed(text, vector, whole.claim());
    push_nodes(text, "halter", whole.halter(), vector.halter());
    push_sets(text, "up", whole.up(), vector.up());
    push_tasks(text, "owners", whole.task(), vector.task());
}

/// The owners that the group shows at the node of the claim; none where it doesn't have the node.
pub fn task_of<'a>(world: &'a World, whole: &WholeClaim) -> Option<&'a Table> {
    let node = whole.claim().node;
    if node.number() > world.setup().nodes() {
        return None;
    }
    world.vector(node).task()
}

// Appends the call that is told beside the event and the one that the group has; of a run what is answered, too, and of
// a return what it brings.
#[tactic(auto, using(bully_draft::proofs::DraftLemmas::appends_nothing))]
fn push_detailed(text: &mut Draft, world: &World, event: &DetailedEvent)
    ensures { Appends text.old text.new (differing_text world.now.setup (world_of world.now) (Row.Detailed event.now)) }
{
    if has_node(world.setup(), event.node) {
        push_told(text, event, &said_of(world, &event.event()));
    }
}

// Appends the same, where this is what there is to say.
fn push_told(text: &mut Draft, event: &DetailedEvent, shown: &Option<DetailedEvent>)
    ensures { Appends text.old text.new (detailed_text shown.now event.now) }
{
    let told = &event.detail;
    text.push_between(
        "the call of node ",
        event.node.number(),
        " isn't what the row says\n",
    );
    push_heads(text, "told");
    push_words(text, "call", call_word(told.call.kind), kind_text(shown));
    push_nodes(text, "callee", Some(told.call.callee), callee_in(shown));
    push_answers(text, told, answer_in(shown));
}

// The kind of the call that there is, or a dash.
fn kind_text(shown: &Option<DetailedEvent>) -> &'static str
    ensures { result.now ≡ kind_text shown.now }
{
    match shown {
        Some(event) => call_word(event.detail.call.kind),
        None => "-",
    }
}

// The callee of the call that there is.
fn callee_in(shown: &Option<DetailedEvent>) -> Option<Node>
    ensures { result ≡ callee_in shown.now }
{
    match shown {
        Some(event) => Some(event.detail.call.callee),
        None => None,
    }
}

// What is answered or brought there.
fn answer_in(shown: &Option<DetailedEvent>) -> Option<Answer>
    ensures { result ≡ answer_in shown.now }
{
    match shown {
        Some(event) => event.detail.answer,
        None => None,
    }
}

// Appends the answer or the outcome that is told and the one that there is, where the event has one.
#[tactic(auto, using(bully_draft::proofs::DraftLemmas::appends_nothing))]
fn push_answers(text: &mut Draft, told: &Detail, shown: Option<Answer>)
    ensures { Appends text.old text.new (answers_text (node_saying told.now.kind) told.now.answer shown) }
{
    let part = match told.kind.saying() {
        Saying::Nothing | Saying::Offered | Saying::Held => return,
        Saying::Replied => "answer",
        Saying::Brought => "outcome",
    };
    push_words(text, part, answer_text(told.answer), answer_text(shown));
}

// What is answered or brought, or a dash.
fn answer_text(answer: Option<Answer>) -> &'static str
    ensures { result.now ≡ answer_text answer }
{
    match answer {
        Some(answer) => answer_word(answer),
        None => "-",
    }
}
