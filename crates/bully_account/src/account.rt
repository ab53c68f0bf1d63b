ghost use Rattle.std.specs.Prelude.{◌≡◌, ◌-◌, ◌≤◌, None, IfSome, IsSomeAnd};
ghost use Rattle.bully_account.specs.Tail.{ends_line, start_line};
ghost use Rattle.bully_account.specs.Moving.{moves_in};
ghost use Rattle.bully_account.specs.RowsOf.{event_in};
ghost use Rattle.bully_calls.specs.Events.{node_of};
ghost use Rattle.bully_world.specs.State.{world_of};

use crate::memory::Memories;
use crate::moving::{Moves, moves_by, no_moves};
use crate::order::may_belong_after;
use crate::showing::node_sheets;
use crate::tail::{TailReader, line_of};
use crate::{Memory, NodeSheet};
use bully_base::{Node, OutOfMemory};
use bully_rows::{Header, Row, RowReader, Version};
use bully_trace::{Judge, Verdict};
use bully_world::World;
use csv::Position;
use std::alloc::Global;
use std::io::Read;
use std::marker::Model;

/// The row that decided: its number and the line at which it starts, both counted from 1, and what it says.
#[derive(Drop)]
pub struct Stop {
    pub number: u32,
    pub line: u64,
    pub row: Row,
}

/// What the rows of a trace came to: the judge that took them, the row that decided, where one did, and what is
/// remembered of each node's rows. And which later row may belong before that one.
#[derive(Drop)]
pub struct Account {
    judge: Judge,
    memories: Memories,
    stop: Option<Stop>,
    wanted: Option<u32>,
}

impl Model for Account {
    ghost use Rattle.bully_account.specs.Accounts.{AccountState, IsAccount};

    ghost Value = { AccountState };

    ghost view = { λ a. record { judge = a.judge; stop = a.stop; memories = a.memories.nodes.items } };

    ghost invariant = { λ a. IsAccount a.judge a.stop a.memories.nodes.items };
}

impl Account {
    ghost use Rattle.std.specs.Prelude.{◌≡◌, ◌↔◌, ◌+◌, ◌-◌, ◌<◌, ◌++◌, ◌∷◌, [], List, length, IfOk, IfSome, IsNone};
    ghost use Rattle.std.specs.Prelude.{slice_get};
    ghost use Rattle.std.specs.Option.{option_copied};
    ghost use Rattle.bully_account.specs.Accounts.{HasTaken, StopsAt, rows_before};
    ghost use Rattle.bully_account.specs.NodeSummary.{ShowsAll};
    ghost use Rattle.bully_account.specs.RowsOf.{IsRemembered, IsRowAt};
    ghost use Rattle.bully_base.specs.Setup.{Setup as SetupState};
    ghost use Rattle.bully_rows.specs.declared.trace.Row.{Row as RowState};
    ghost use Rattle.bully_trace.specs.Judging.{HasJudged};
    ghost use Rattle.bully_trace.specs.Verdict.{IsJudged};
    ghost use Rattle.bully_world.specs.World.{first_world};

    /// An account after this header, before any row. Refused where an allocation fails.
    pub fn new(alloc: Global, header: Header) -> Result<Account, OutOfMemory>
        ensures taken { IfOk result (HasTaken header.setup []) }
        ensures version { IfOk result (λ account. account.judge.version ≡ header.version) }
    {
        let memories = Memories::new(alloc, &header.setup)?;
        Ok(Account {
            judge: Judge::new(alloc, header)?,
            memories,
            stop: None,
            wanted: None,
        })
    }

    /// Takes the row that was read last. The first event that the world refuses, or the first claim or detail that is
    /// false of it, decides: that row is kept, and no later one changes anything.
    pub fn feed_row<R: Read + Drop>(&mut self, rows: &RowReader<TailReader<R>>, row: Row)
        ensures version { self.new.judge.version ≡ self.old.judge.version }
        ensures taken { (setup : SetupState) (before : List RowState) → length before + 2 ≡ rows.now.number
            → HasTaken setup before self.old → HasTaken setup (before ++ row ∷ []) self.new }
    {
        let number = rows.number();
        let moves = moves_of(self.judge.world(), &row);
        self.judge.feed_row(number, &row);
        if self.judge.stopped().is_some() {
            note_wanted(&mut self.wanted, &self.judge, &self.stop, number, &row);
            keep(&mut self.stop, rows, rows.source(), rows.end(), row);
        } else {
            self.memories
                .feed_row(self.judge.world(), number, &row, moves);
        }
    }

    /// The version of the trace.
    pub fn version(&self) -> Version
        ensures { result ≡ self.now.judge.version }
    {
        self.judge.version()
    }

    /// The verdict on the rows that were taken.
    pub fn verdict(&self) -> Verdict
        ensures { (setup : SetupState) (rows : List RowState) → HasJudged setup rows self.now.judge
            → IsJudged setup (first_world setup) 0 2 rows result (world_of self.now.judge.world) }
    {
        self.judge.verdict()
    }

    /// The world that the rows were taken to: where one decided, that before it.
    pub fn world(&self) -> &World
        ensures { result.now ≡ self.now.judge.world }
    {
        self.judge.world()
    }

    /// What the world that the rows were taken to has of each node, from node 1 on: where a row decided, the world
    /// before it. Refused where an allocation fails.
    pub fn nodes(&self, alloc: Global) -> Result<Vec<NodeSheet>, OutOfMemory>
        ensures { IfOk result (λ sheets. ShowsAll self.now.judge.world sheets.items) }
    {
        node_sheets(alloc, self.world())
    }

    /// The row that decided; none where the trace is lawful.
    pub fn stop(&self) -> Option<&Stop>
        ensures kept { option_copied result ≡ self.now.stop }
        ensures stops { StopsAt self.now.judge.stopped self.now.stop }
        ensures row { (setup : SetupState) (rows : List RowState) → HasTaken setup rows self.now
            → IfSome result (λ stop. IsRowAt rows stop.now.number stop.now.row) }
    {
        self.stop.as_ref()
    }

    /// The number of the first row after the refused one that may belong before it: that waits for such an event, which
    /// was possible there. So the rows may be out of order.
    pub fn wanted(&self) -> Option<u32> {
        self.wanted
    }

    /// What is remembered of the node's rows: of all that were taken, or of those before the one that decided. None of
    /// a node that the group doesn't have.
    pub fn memory(&self, node: Node) -> Option<&Memory>
        ensures memory { option_copied result ≡ slice_get self.now.memories (node - 1) }
        ensures none { IsNone result ↔ (self.now.judge.world.setup.nodes < node) }
        ensures rows { (setup : SetupState) (rows : List RowState) → HasTaken setup rows self.now
            → IfSome result (λ memory. IsRemembered setup (rows_before self.now.stop rows) node memory.now) }
    {
        self.memories.of(node)
    }
}

// Keeps the row that was read last as the one that decided, where none was kept yet. It ends at this place of what the
// source gave.
fn keep<R: Read + Drop>(
    stop: &mut Option<Stop>,
    rows: &RowReader<TailReader<R>>,
    source: &TailReader<R>,
    end: Position,
    row: Row,
)
    ensures kept { stop.old ≡ None → IsSomeAnd stop.new (λ s. (s.number ≡ rows.now.number) × (s.row ≡ row)) }
    ensures line { stop.old ≡ None
        → IsSomeAnd stop.new (λ s. s.line ≡ start_line end.line (ends_line source.now (end.byte - 1)) rows.now.fields) }
    ensures other { IfSome stop.old (λ s. stop.new ≡ stop.old) }
{
    if stop.is_some() {
        return;
    }
    let number = rows.number();
    let line = line_of(source, end, rows.fields());
    *stop = Some(Stop { number, line, row });
}

// Notes the number of this row after the one that decided, if it is the first that may belong before that.
fn note_wanted(
    wanted: &mut Option<u32>,
    judge: &Judge,
    stop: &Option<Stop>,
    number: u32,
    row: &Row,
) {
    if wanted.is_some() {
        return;
    }
    match (judge.stopped(), stop) {
        (Some(Verdict::Refused(_, cause)), Some(stop)) => {
            if may_belong_after(judge.world(), cause, &stop.row, row) {
                *wanted = Some(number);
            }
        }
        _ => {}
    }
}

// Which nodes the row takes to another point, where it doesn't decide.
fn moves_of(world: &World, row: &Row) -> Moves
    ensures { IfSome (event_in row.now) (λ e. node_of e ≤ world.now.setup.nodes
        → result ≡ moves_in (world_of world.now) e) }
{
    match row {
        Row::Event(event) => moves_by(world, event),
        Row::Detailed(event) => moves_by(world, &event.event()),
        Row::Claim(_) | Row::Whole(_) => no_moves(),
    }
}
