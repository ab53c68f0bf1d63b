ghost use Rattle.std.specs.Prelude.{◌≡◌, ◌+◌, ◌<◌, ◌≤◌, [], OnOk, remove, vec_capacity, vec_len};
ghost use Rattle.bully_calls.specs.Events.{node_of};
ghost use Rattle.bully_account.specs.Remembered.{noted, what_with};
ghost use Rattle.bully_account.specs.RowsOf.{AreRemembered};

use crate::moving::{Moves, has_moved, is_halt};
use crate::{EventKind, ROWS_KEPT};
use bully_base::{Node, OutOfMemory, Setup};
use bully_calls::{Call, NodeEventKind};
use bully_rows::Row;
use bully_table::{Table, TableRoom};
use bully_trace::call_at;
use bully_world::{Event, World};
use std::alloc::Global;
use std::marker::Model;

/// What a row did to a node.
#[derive(Clone, Copy, PartialEq, Eq)]
pub enum What {
    /// An event of the node, other than the start of a call.
    Did(EventKind),
    /// The node started this call.
    Started(Call),
    /// A Halt of this other node ran at it.
    HaltedBy(Node),
}

/// A row that a node has remembered.
#[derive(Clone, Copy)]
pub struct Note {
    /// The number of the row, from 2.
    pub row: u32,
    pub what: What,
    /// Whether the row took the node to another point.
    pub moved: bool,
}

/// What is remembered of a node's rows: the last [`ROWS_KEPT`], in which row its last call was started, and the table
/// of its last plan.
#[derive(Drop)]
pub struct Memory {
    notes: Vec<Note>,
    started: Option<u32>,
    planned: TableRoom,
    partitions: u16, // for which there is room
}

impl Model for Memory {
    ghost use Rattle.std.specs.Prelude.{◌≡◌, ◌≤◌, vec_capacity, vec_len};
    ghost use Rattle.bully_account.specs.declared.TheConstants.{ROWS_KEPT};
    ghost use Rattle.bully_account.specs.Remembered.{Remembered};

    ghost Value = { Remembered };

    ghost view = { λ m.
        record { notes = m.notes.items; started = m.started; planned = m.planned.table; room = m.planned.size } };

    ghost invariant = { λ m. (vec_len m.notes ≤ ROWS_KEPT) × (ROWS_KEPT ≤ vec_capacity m.notes)
        × (m.planned.size ≡ m.partitions) };
}

impl Memory {
    ghost use Rattle.std.specs.Prelude.{◌≡◌, ◌==◌, [], length, IfOk, Some, None, if◌then◌else◌};
    ghost use Rattle.std.specs.Option.{option_copied};
    ghost use Rattle.bully_account.specs.Remembered.{noted, nothing_yet};

    /// What is remembered before any row. It reserves all memory that it will need. Refused where an allocation fails.
    pub fn new(alloc: Global, setup: &Setup) -> Result<Memory, OutOfMemory>
        ensures { IfOk result (λ m. m ≡ nothing_yet setup.now.partitions) }
    {
        Ok(Memory {
            notes: Vec::with_capacity(alloc, ROWS_KEPT)?,
            started: None,
            planned: TableRoom::new(alloc, setup)?,
            partitions: setup.partitions(),
        })
    }

    /// The last rows, the oldest first: at most [`ROWS_KEPT`].
    pub fn notes(&self) -> &[Note]
        ensures { result.now ≡ self.now.notes }
    {
        self.notes.as_slice()
    }

    /// The row in which the node's last call was started.
    pub fn started(&self) -> Option<u32>
        ensures { result ≡ self.now.started }
    {
        self.started
    }

    /// The table of the node's last plan.
    pub fn planned(&self) -> Option<&Table>
        ensures { option_copied result ≡ self.now.planned }
    {
        self.planned.table()
    }

    /// One more row, in the place of the oldest one where there is no more room. It takes no memory.
    pub fn note(&mut self, note: &Note)
        ensures { self.new ≡ record self.old { notes = noted self.old.notes note.now } }
    {
        push_last(&mut self.notes, note);
    }

    /// A call was started in this row.
    pub fn start(&mut self, row: u32)
        ensures { self.new ≡ record self.old { started = Some row } }
    {
        self.started = Some(row);
    }

    /// This table was planned. One of another number of partitions than there is room for is passed over.
    pub fn plan(&mut self, table: &Table)
        ensures { self.new ≡ (if length table.now == self.old.room then record self.old { planned = Some table.now }
            else self.old) }
    {
        if table.len() == usize::from(self.partitions) {
            self.planned.put(table);
        }
    }
}

// Appends the row, in the place of the first one where there are as many as are kept.
#[tactic(auto, using(crate::proofs::MemoryLemmas::noted_more, crate::proofs::MemoryLemmas::noted_full))]
fn push_last(notes: &mut Vec<Note>, note: &Note)
    requires few { vec_len notes.old ≤ ROWS_KEPT }
    requires room { ROWS_KEPT ≤ vec_capacity notes.old }
    ensures notes { notes.new.items ≡ noted notes.old.items note.now }
    ensures few { vec_len notes.new ≤ ROWS_KEPT }
    ensures room { ROWS_KEPT ≤ vec_capacity notes.new }
{
    let what = note.what;
    let kept = Note {
        row: note.row,
        what,
        moved: note.moved,
    };
    if notes.len() < ROWS_KEPT {
        notes.push_reserved(kept);
    } else {
        forget_first(notes);
        notes.push_reserved(kept);
    }
}

// Forgets the first of the rows, of which there is one.
fn forget_first(notes: &mut Vec<Note>)
    requires { 0 < vec_len notes.old }
    ensures notes { notes.new.items ≡ remove notes.old.items 0 }
    ensures count { vec_len notes.new + 1 ≡ vec_len notes.old }
    ensures room { vec_capacity notes.new ≡ vec_capacity notes.old }
{
    let _first = notes.remove(0);
}

// What the event did to its node, in whose slot this call is afterwards.
fn what_of(event: &Event, call: Option<Call>) -> What
    ensures { result ≡ what_with event.now call }
{
    match event {
        Event::Start(_) => match call {
            Some(call) => What::Started(call),
            None => What::Did(EventKind::Node(NodeEventKind::Start)),
        },
        _ => What::Did(event.kind()),
    }
}

/// What is remembered of each node's rows, from node 1 on.
#[derive(Drop)]
pub struct Memories {
    nodes: Vec<Memory>,
}

impl Memories {
    ghost use Rattle.std.specs.Prelude.{◌-◌, ◌↔◌, IfOk, IsNone, MatchOption, slice_get};
    ghost use Rattle.std.specs.Option.{option_copied};
    ghost use Rattle.bully_world.specs.State.{world_of};
    ghost use Rattle.bully_account.specs.Remembered.{behind_event, each_from, with_halt, with_more, with_note};
    ghost use Rattle.bully_account.specs.Remembered.{with_plan, with_start};
    ghost use Rattle.bully_account.specs.RowsOf.{event_in};

    /// Before any row. Refused where an allocation fails.
    pub fn new(alloc: Global, setup: &Setup) -> Result<Memories, OutOfMemory>
        ensures count { IfOk result (λ m. vec_len m.nodes ≡ setup.now.nodes) }
        ensures remembered { IfOk result (λ m. AreRemembered setup.now [] 1 m.nodes.items) }
    {
        let mut nodes = Vec::with_capacity(alloc, usize::from(setup.nodes()))?;
        for _ in 0..setup.nodes() {
            push_memory(alloc, &mut nodes, setup)?;
        }
        Ok(Memories { nodes })
    }

    /// What is remembered of the node's rows; none of a node that the group doesn't have.
    pub fn of(&self, node: Node) -> Option<&Memory>
        ensures node { 0 < node }
        ensures memory { option_copied result ≡ slice_get self.now.nodes.items (node - 1) }
        ensures none { IsNone result ↔ (vec_len self.now.nodes < node) }
    {
        self.nodes.get(usize::from(node.number() - 1))
    }

    /// Remembers the row of this number, which led to the world, and which nodes it took to another point; where that
    /// isn't told of its own, it did if the node isn't idle now. A Halt that ran is remembered of the callee, too, and
    /// a claim of nobody.
    pub fn feed_row(&mut self, world: &World, number: u32, row: &Row, moves: Moves)
        ensures count { vec_len self.new.nodes ≡ vec_len self.old.nodes }
        ensures taken { MatchOption (event_in row.now) (self.new.nodes.items ≡ self.old.nodes.items)
            (λ e. node_of e ≤ world.now.setup.nodes → self.new.nodes.items
            ≡ each_from 1 (behind_event (world_of world.now) e number moves) self.old.nodes.items) }
    {
        match row {
            Row::Event(event) => self.feed_event(world, number, event, moves),
            Row::Detailed(event) => self.feed_event(world, number, &event.event(), moves),
            Row::Claim(_) | Row::Whole(_) => {}
        }
    }

    // Remembers the event of this row.
    fn feed_event(&mut self, world: &World, row: u32, event: &Event, moves: Moves)
        ensures count { vec_len self.new.nodes ≡ vec_len self.old.nodes }
        ensures taken { node_of event.now ≤ world.now.setup.nodes → self.new.nodes.items
            ≡ each_from 1 (behind_event (world_of world.now) event.now row moves) self.old.nodes.items }
    {
        let node = event.node();
        if node.number() > world.setup().nodes() {
            return;
        }
        let moved = has_moved(moves.own, world, node);
        let call = call_at(world, node);
        let what = what_of(event, call);
        self.note(node, &Note { row, what, moved });
        self.take_more(world, row, event, moves.callee);
    }

    // Remembers what the event of this row, which cuts a procedure off or not, changes beside its note.
    fn take_more(&mut self, world: &World, row: u32, event: &Event, cuts: bool)
        requires { node_of event.now ≤ world.now.setup.nodes }
        ensures count { vec_len self.new.nodes ≡ vec_len self.old.nodes }
        ensures more { self.new.nodes.items
            ≡ each_from 1 (with_more (world_of world.now) event.now row cuts) self.old.nodes.items }
    {
        match event {
            Event::Start(node) => self.start(*node, row),
            Event::Run(caller) => self.halt(*caller, call_at(world, *caller), row, cuts),
            Event::Plan(node, table) => self.plan(*node, table),
            _ => {}
        }
    }

    // The call of the caller, which is in its slot, ran in this row: a Halt stopped its callee, which it took to
    // another point or not.
    fn halt(&mut self, caller: Node, call: Option<Call>, row: u32, moved: bool)
        ensures count { vec_len self.new.nodes ≡ vec_len self.old.nodes }
        ensures halted { self.new.nodes.items ≡ each_from 1 (with_halt caller call row moved) self.old.nodes.items }
    {
        let Some(call) = call else {
            return;
        };
        if is_halt(call.kind) {
            let what = What::HaltedBy(caller);
            self.note(call.callee, &Note { row, what, moved });
        }
    }

    // One more row of the node.
    fn note(&mut self, node: Node, note: &Note)
        ensures count { vec_len self.new.nodes ≡ vec_len self.old.nodes }
        ensures noted { self.new.nodes.items ≡ each_from 1 (with_note node note.now) self.old.nodes.items }
    {
        let place = usize::from(node.number() - 1);
        if place < self.nodes.len() {
            self.nodes[place].note(note);
        }
    }

    // The node started a call in this row.
    fn start(&mut self, node: Node, row: u32)
        ensures count { vec_len self.new.nodes ≡ vec_len self.old.nodes }
        ensures started { self.new.nodes.items ≡ each_from 1 (with_start node row) self.old.nodes.items }
    {
        let place = usize::from(node.number() - 1);
        if place < self.nodes.len() {
            self.nodes[place].start(row);
        }
    }

    // The node planned this table in some row.
    fn plan(&mut self, node: Node, table: &Table)
        ensures count { vec_len self.new.nodes ≡ vec_len self.old.nodes }
        ensures planned { self.new.nodes.items ≡ each_from 1 (with_plan node table.now) self.old.nodes.items }
    {
        let place = usize::from(node.number() - 1);
        if place < self.nodes.len() {
            self.nodes[place].plan(table);
        }
    }
}

// Appends what is remembered of one more node before any row.
fn push_memory(alloc: Global, nodes: &mut Vec<Memory>, setup: &Setup) -> Result<(), OutOfMemory>
    ensures count { OnOk result (vec_len nodes.new ≡ vec_len nodes.old + 1) }
    ensures remembered { OnOk result (AreRemembered setup.now [] 1 nodes.old.items
        → AreRemembered setup.now [] 1 nodes.new.items) }
{
    nodes.push(Memory::new(alloc, setup)?)?;
    Ok(())
}
