ghost use Rattle.std.specs.Prelude.{◌≡◌, ◌≢◌, ◌↔◌, ◌<◌, ◌≤◌, ◌+◌, ◌++◌, ◌*◌, ◌-◌, ◌∷◌, [], not, ℕ, All, IfErr, IfOk};
ghost use Rattle.std.specs.Prelude.{IfSome, IsTrue, List, OnOk, Option, Some, false, true, if◌then◌else◌, length};
ghost use Rattle.std.specs.Option.{option_copied};
ghost use Rattle.bully_agree.specs.Fencing.{IsLastPlan, Planned};
ghost use Rattle.bully_base.specs.NodeSet.{IsFallingBelow, highest_of};
ghost use Rattle.bully_base.specs.Setup.{IsSetup};
ghost use Rattle.bully_base.specs.declared.TheConstants.{NODES_MAX};
ghost use Rattle.bully_calls.specs.declared.event.Event.{Event as EventState};
ghost use Rattle.bully_replica.specs.Replica.{IsLogOf};
ghost use Rattle.bully_rebalance.specs.Rebalancing.{Rebalances, calling, crashing, event_if, halting, prepared_by};
ghost use Rattle.bully_rebalance.specs.Rebalancing.{preparing, rebalancing, rebalancing_by, rebalancing_of};
ghost use Rattle.bully_rebalance.specs.Rebalancing.{table_before, whole_call};
ghost use Rattle.bully_rebalance.specs.declared.rebalancing.RebalanceFault.{RebalanceFault};
ghost use Rattle.bully_table.specs.Planning.{planned};
ghost use Rattle.bully_world.specs.Cause.{is_down_at};
ghost use Rattle.bully_world.specs.State.{world_of};

use bully_base::{Node, NodeSet, OutOfMemory, Setup, Status};
use bully_replica::Replica;
use bully_table::{Table, TablePlan, plan_in};
use bully_world::{Event, World};
use std::alloc::{AllocError, Global};

/// Why a group isn't rebalanced: the first reason that holds.
#[derive(Clone, Copy, PartialEq, Eq, Debug)]
pub enum RebalanceFault {
    /// The log has no room for the events: with them it would have more than the setup allows.
    Full,
    /// An allocation failed.
    OutOfMemory,
}

impl From<AllocError> for RebalanceFault {
    ghost use Rattle.bully_rebalance.specs.declared.rebalancing.RebalanceFault.{RebalanceFault};

    ghost from_gives = { λ _ fault. fault ≡ RebalanceFault.OutOfMemory };

    fn from(_: AllocError) -> RebalanceFault {
        RebalanceFault::OutOfMemory
    }
}

/// The events that make the group stable among the live nodes. With no live node each node that is up crashes; else the
/// highest live node stands for election and plans. The new table has the fewest moves from that of the log's last
/// plan; if the log has no plan, from the old table, which is the last one of the epoch before, if there was one. There
/// are at most 11 events for each node of the setup. They come right after the replica's log, with nothing between. The
/// replica stays as it is. The rule: docs/REBALANCING.md.
///
/// Refused, in this order, as `Full`, `OutOfMemory`. The live nodes are at most the setup's last, and an old table has
/// the setup's partitions.
pub fn rebalance(
    alloc: Global,
    replica: &Replica,
    live: &NodeSet,
    old: Option<&Table>,
) -> Result<Vec<Event>, RebalanceFault>
    requires nodes { All (λ m. m ≤ replica.now.world.setup.nodes) live.now }
    requires old { IfSome (option_copied old) (λ t. length t ≡ replica.now.world.setup.partitions) }
    ensures events { IfOk result (λ events.
        events.items ≡ rebalancing_of replica.now (option_copied old.entry) live.now) }
    ensures rebalances { IfOk result (λ events. (log : List EventState) → IsLogOf replica.now log
        → Rebalances replica.now.world.setup log
        (table_before replica.now.last (option_copied old.entry)) live.now events.items) }
    ensures room { IfOk result (λ events. replica.now.world.events + length events.items
        ≤ replica.now.world.setup.events_max) }
    ensures full { IfErr result (λ fault. (fault ≡ RebalanceFault.Full)
        ↔ (replica.now.world.setup.events_max
        < replica.now.world.events + length (rebalancing_of replica.now (option_copied old.entry) live.now))) }
{
    let count = count_rebalance(replica.world(), live);
    if !has_room(replica, count) {
        return Err(RebalanceFault::Full);
    }
    let events = rebalance_events(alloc, replica, live, old, count as usize)?;
    Ok(events)
}

// Whether the log has room for this many more events.
fn has_room(replica: &Replica, count: u32) -> bool
    requires { count ≤ 11 * NODES_MAX }
    ensures room { IsTrue result ↔ (replica.now.world.events + count ≤ replica.now.world.setup.events_max) }
    ensures setup { IsSetup replica.now.world.setup }
{
    let bound = replica.world().setup().events_max();
    replica.events() + count <= bound
}

// How many events rebalance the group, from whatever old table.
fn count_rebalance(world: &World, live: &NodeSet) -> u32
    requires nodes { All (λ m. m ≤ world.now.setup.nodes) live.now }
    ensures count { (old : Option (List ℕ))
        → length (rebalancing world.now.setup (world_of world.now) old live.now) ≡ result }
    ensures few { result ≤ 11 * NODES_MAX }
    ensures falling { IsFallingBelow (NODES_MAX + 1) live.now }
{
    match live.highest() {
        Some(highest) => {
            count_prepared(world, live, highest) + count_election(world.setup(), live)
        }
        None => count_crashes(world),
    }
}

// How many events come after those that prepare the nodes.
fn count_election(setup: &Setup, live: &NodeSet) -> u32
    requires { live.now ≢ [] }
    ensures count { result ≡ 3 * setup.now.nodes + 6 * (length live.now - 1) + 2 }
    ensures few { result ≤ 9 * NODES_MAX }
{
    3 * u32::from(setup.nodes()) + 6 * others(live) as u32 + 2
}

// How many events prepare the nodes.
fn count_prepared(world: &World, live: &NodeSet, highest: Node) -> u32
    ensures count { result ≡ length (preparing (world_of world.now) live.now highest world.now.setup.nodes) }
    ensures few { result ≤ 2 * NODES_MAX }
{
    let mut count = 0;
    for before in 0..world.setup().nodes() {
        let node = Node::new(before + 1).unwrap();
        count += count_one(live.has(node), node == highest, is_down(world, node));
    }
    count
}

fn count_one(is_live: bool, stands: bool, is_down: bool) -> u32
    ensures count { (i : ℕ) → length (prepared_by is_live stands is_down i) ≡ result }
    ensures few { result ≤ 2 }
{
    u32::from(!is_down && (!is_live || stands)) + u32::from(is_live && (is_down || stands))
}

// How many nodes are up.
fn count_crashes(world: &World) -> u32
    ensures count { result ≡ length (crashing (world_of world.now) world.now.setup.nodes) }
    ensures few { result ≤ NODES_MAX }
{
    let mut count = 0;
    for before in 0..world.setup().nodes() {
        let node = Node::new(before + 1).unwrap();
        count += count_crash(is_down(world, node));
    }
    count
}

fn count_crash(is_down: bool) -> u32
    ensures count { (i : ℕ) → length (event_if (not is_down) (EventState.Crash i)) ≡ result }
    ensures few { result ≤ 1 }
{
    u32::from(!is_down)
}

// The events that rebalance the group, in a list with room for this many.
fn rebalance_events(
    alloc: Global,
    replica: &Replica,
    live: &NodeSet,
    old: Option<&Table>,
    count: usize,
) -> Result<Vec<Event>, OutOfMemory>
    requires nodes { All (λ m. m ≤ replica.now.world.setup.nodes) live.now }
    requires old { IfSome (option_copied old) (λ t. length t ≡ replica.now.world.setup.partitions) }
    ensures { IfOk result (λ events. events.items ≡ rebalancing_of replica.now (option_copied old.entry) live.now) }
{
    let mut events = Vec::with_capacity(alloc, count)?;
    match live.highest() {
        Some(highest) => push_rebalance(alloc, replica, live, highest, old, &mut events)?,
        None => push_crashes(replica.world(), &mut events)?,
    }
    Ok(events)
}

// Pushes the crash of each node that is up.
fn push_crashes(world: &World, events: &mut Vec<Event>) -> Result<(), OutOfMemory>
    ensures { OnOk result (events.new.items ≡ events.old.items ++ crashing (world_of world.now) world.now.setup.nodes) }
{
    for before in 0..world.setup().nodes() {
        let node = Node::new(before + 1).unwrap();
        push_crash(is_down(world, node), node, events)?;
    }
    Ok(())
}

fn push_crash(is_down: bool, node: Node, events: &mut Vec<Event>) -> Result<(), OutOfMemory>
    ensures { OnOk result (events.new.items ≡ events.old.items ++ event_if (not is_down) (EventState.Crash node)) }
{
    if !is_down {
        events.push(Event::Crash(node))?;
    }
    Ok(())
}

// Pushes the events that rebalance the group, if this is the highest live node.
fn push_rebalance(
    alloc: Global,
    replica: &Replica,
    live: &NodeSet,
    highest: Node,
    old: Option<&Table>,
    events: &mut Vec<Event>,
) -> Result<(), OutOfMemory>
    requires nodes { All (λ m. m ≤ replica.now.world.setup.nodes) live.now }
    requires old { IfSome (option_copied old) (λ t. length t ≡ replica.now.world.setup.partitions) }
    requires highest { highest_of live.now ≡ Some highest }
    ensures { OnOk result (events.new.items
        ≡ events.old.items ++ rebalancing_by replica.now.world.setup (world_of replica.now.world)
        (table_before replica.now.last (option_copied old.entry)) live.now highest (length live.now - 1)) }
{
    let table = coming_table(alloc, replica, live, old)?;
    push_election(replica.world(), live, highest, events)?;
    events.push(Event::Plan(highest, table))?;
    push_calling(highest, others(live), true, events)
}

fn others(live: &NodeSet) -> usize
    requires { live.now ≢ [] }
    ensures count { result ≡ length live.now - 1 }
    ensures few { result < NODES_MAX }
{
    live.len() - 1
}

/// The table of the rebalance that would be appended now: the one by which the group is stable after what [`rebalance`]
/// gives of the same replica, nodes and old table. It takes the time and the memory of one plan; the log needs no room
/// for the events. Some node is live; the live nodes are at most the setup's last, and an old table has the setup's
/// partitions. Refused if an allocation fails. The rule: docs/REBALANCING.md.
pub fn coming_table(
    alloc: Global,
    replica: &Replica,
    live: &NodeSet,
    old: Option<&Table>,
) -> Result<Table, OutOfMemory>
    requires nodes { All (λ m. m ≤ replica.now.world.setup.nodes) live.now }
    requires old { IfSome (option_copied old) (λ t. length t ≡ replica.now.world.setup.partitions) }
    requires some { live.now ≢ [] }
    ensures table { IfOk result (λ table.
        table ≡ planned replica.now.world.setup (table_before replica.now.last (option_copied old.entry)) live.now) }
    ensures comes { IfOk result (λ table. (log more : List EventState) (p : Planned)
        → Rebalances replica.now.world.setup log (table_before replica.now.last (option_copied old.entry)) live.now more
        → IsLastPlan (log ++ more) p → p.table ≡ table) }
{
    match plan_in(
        alloc,
        replica.world().setup(),
        live,
        table_before(replica, old),
    ) {
        Ok(TablePlan { table, .. }) => Ok(table),
        Err(_) => Err(AllocError),
    }
}

// The table from which a new plan has the fewest moves.
fn table_before<'a>(replica: &'a Replica, old: Option<&'a Table>) -> Option<&'a Table>
    requires { IfSome (option_copied old) (λ t. length t ≡ replica.now.world.setup.partitions) }
    ensures table { option_copied result ≡ table_before replica.now.last (option_copied old.entry) }
    ensures partitions { IfSome (option_copied result) (λ t. length t ≡ replica.now.world.setup.partitions) }
{
    match replica.last_table() {
        Some(table) => Some(table),
        None => old,
    }
}

// Pushes what comes before the plan.
fn push_election(
    world: &World,
    live: &NodeSet,
    highest: Node,
    events: &mut Vec<Event>,
) -> Result<(), OutOfMemory>
    requires some { live.now ≢ [] }
    requires within { highest ≤ world.now.setup.nodes }
    ensures { OnOk result (events.new.items
        ≡ events.old.items ++ (((preparing (world_of world.now) live.now highest world.now.setup.nodes
        ++ calling highest (world.now.setup.nodes - highest) false)
        ++ (halting live.now highest (highest - 1) ++ EventState.Move highest ∷ []))
        ++ calling highest (length live.now - 1) true)) }
{
    push_preparing(world, live, highest, events)?;
    push_calling(
        highest,
        usize::from(world.setup().nodes() - highest.number()),
        false,
        events,
    )?;
    push_halting(live, highest, events)?;
    push_calling(highest, others(live), true, events)
}

// Pushes the events that prepare the nodes.
fn push_preparing(
    world: &World,
    live: &NodeSet,
    highest: Node,
    events: &mut Vec<Event>,
) -> Result<(), OutOfMemory>
    ensures { OnOk result (events.new.items ≡ events.old.items
        ++ preparing (world_of world.now) live.now highest world.now.setup.nodes) }
{
    for before in 0..world.setup().nodes() {
        let node = Node::new(before + 1).unwrap();
        push_prepared(
            live.has(node),
            node == highest,
            is_down(world, node),
            node,
            events,
        )?;
    }
    Ok(())
}

fn is_down(world: &World, node: Node) -> bool
    requires { node ≤ world.now.setup.nodes }
    ensures { result ≡ is_down_at (world_of world.now) node }
{
    world.vector(node).status() == Status::Down
}

fn push_prepared(
    is_live: bool,
    stands: bool,
    is_down: bool,
    node: Node,
    events: &mut Vec<Event>,
) -> Result<(), OutOfMemory>
    ensures { OnOk result (events.new.items ≡ events.old.items ++ prepared_by is_live stands is_down node) }
{
    if !is_down && (!is_live || stands) {
        events.push(Event::Crash(node))?;
    }
    if is_live && (is_down || stands) {
        events.push(Event::Recover(node))?;
    }
    Ok(())
}

// Pushes the node's halts, and then its move.
fn push_halting(live: &NodeSet, node: Node, events: &mut Vec<Event>) -> Result<(), OutOfMemory>
    ensures { OnOk result (events.new.items ≡ events.old.items
        ++ (halting live.now node (node - 1) ++ EventState.Move node ∷ [])) }
{
    let below = node.number() - 1;
    for done in 0..below {
        let lower = Node::new(below - done).unwrap();
        push_call(node, live.has(lower), events)?;
    }
    events.push(Event::Move(node))?;
    Ok(())
}

// Pushes this many calls of the node, and then its move.
fn push_calling(
    node: Node,
    count: usize,
    are_answered: bool,
    events: &mut Vec<Event>,
) -> Result<(), OutOfMemory>
    ensures { OnOk result (events.new.items ≡ events.old.items ++ calling node count are_answered) }
{
    for _ in 0..count {
        push_call(node, are_answered, events)?;
    }
    events.push(Event::Move(node))?;
    Ok(())
}

fn push_call(node: Node, is_answered: bool, events: &mut Vec<Event>) -> Result<(), OutOfMemory>
    ensures { OnOk result (events.new.items ≡ events.old.items ++ whole_call node is_answered) }
{
    events.push(Event::Start(node))?;
    events.push(run_or_lose(node, is_answered))?;
    events.push(Event::Return(node))?;
    Ok(())
}

fn run_or_lose(node: Node, is_run: bool) -> Event
    ensures { result ≡ (if is_run then EventState.Run node else EventState.Lose node) }
{
    if is_run {
        Event::Run(node)
    } else {
        Event::Lose(node)
    }
}
