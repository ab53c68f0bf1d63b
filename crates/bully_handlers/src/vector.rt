ghost use Rattle.std.specs.Prelude.{◌≡◌, ◌≢◌, [], length, IfOk, Some, None};
ghost use Rattle.std.specs.Option.{option_copied};
ghost use Rattle.bully_base.specs.NodeSet.{with_node};
ghost use Rattle.bully_calls.specs.declared.call.CallKind.TheVariants.{AreYouUp, AreYouNormal, Halt, NewCoordinator};
ghost use Rattle.bully_calls.specs.declared.call.CallKind.TheVariants.{Ready};
ghost use Rattle.bully_handlers.specs.Handler.{callee_after, reply};
ghost use Rattle.bully_handlers.specs.Vector.{empty_vector, kept_task};

use bully_base::{Node, NodeSet, OutOfMemory, Setup, Status};
use bully_calls::{Answer, CallKind};
use bully_table::{Table, TableRoom};
use std::alloc::Global;
use std::marker::Model;

/// What a node believes: its status, its coordinator, who halted it last, which lower nodes answered its
/// halts, and its task. The fields are those of the 1982 paper's state vector, as docs/ALGORITHM.md has it.
#[derive(Drop, Debug)]
pub struct Vector {
    status: Status,
    coordinator: Option<Node>,
    halter: Option<Node>,
    up: NodeSet,
    task: TableRoom,
}

impl Model for Vector {
    ghost use Rattle.bully_handlers.specs.Vector.{StoredVector};

    ghost Value = { StoredVector };

    ghost view = { λ v. record {
      vector =
          record { status = v.status; coordinator = v.coordinator; halter = v.halter; up = v.up; task = v.task.table };
      room = v.task.size;
    } };
}

impl Vector {
    /// An empty vector with room for a task of the setup's partitions. Refused where an allocation fails.
    pub fn new(alloc: Global, setup: Setup) -> Result<Vector, OutOfMemory>
        ensures { IfOk result (λ v. v ≡ record { vector = empty_vector; room = setup.partitions }) }
    {
        Ok(Vector {
            status: Status::Down,
            coordinator: None,
            halter: None,
            up: NodeSet::new(),
            task: TableRoom::new(alloc, &setup)?,
        })
    }

    /// What the node believes of itself.
    pub fn status(&self) -> Status
        ensures { result ≡ self.now.vector.status }
    {
        self.status
    }

    /// The node that it obeys.
    pub fn coordinator(&self) -> Option<Node>
        ensures { result ≡ self.now.vector.coordinator }
    {
        self.coordinator
    }

    /// The node that halted it last.
    pub fn halter(&self) -> Option<Node>
        ensures { result ≡ self.now.vector.halter }
    {
        self.halter
    }

    /// The lower nodes that answered its halts.
    pub fn up(&self) -> &NodeSet
        ensures { result.now ≡ self.now.vector.up }
    {
        &self.up
    }

    /// Its part of the group's task, as the table of all owners.
    pub fn task(&self) -> Option<&Table>
        ensures { option_copied result ≡ self.now.vector.task }
    {
        self.task.table()
    }

    /// What a node of this vector, which may be Down, answers to a call of this kind where it runs.
    pub fn reply(&self, kind: CallKind) -> Answer
        ensures { result ≡ reply kind self.now.vector }
    {
        match kind {
            CallKind::AreYouNormal => match self.status {
                Status::Normal => Answer::Yes,
                _ => Answer::No,
            },
            _ => Answer::Yes,
        }
    }

    /// AreYouUp runs at this node, which isn't Down.
    pub fn are_you_up(&self) -> Answer
        requires { self.now.vector.status ≢ Status.Down }
        ensures { result ≡ reply AreYouUp self.now.vector }
    {
        self.reply(CallKind::AreYouUp)
    }

    /// AreYouNormal runs at this node, which isn't Down.
    pub fn are_you_normal(&self) -> Answer
        requires { self.now.vector.status ≢ Status.Down }
        ensures { result ≡ reply AreYouNormal self.now.vector }
    {
        self.reply(CallKind::AreYouNormal)
    }

    /// A Halt from the caller runs at this node, which isn't Down. To stop its procedure is the world's part.
    pub fn halt(&mut self, caller: Node) -> Answer
        requires { self.old.vector.status ≢ Status.Down }
        ensures after { self.new ≡ record self.old { vector = callee_after caller Halt None self.old.vector } }
        ensures answer { result ≡ reply Halt self.old.vector }
    {
        let answer = self.reply(CallKind::Halt);
        self.status = Status::Election;
        self.halter = Some(caller);
        answer
    }

    /// A NewCoordinator from the caller runs at this node, which isn't Down. It takes effect where the caller
    /// is the last that halted the node, which still is in Election.
    pub fn new_coordinator(&mut self, caller: Node) -> Answer
        requires { self.old.vector.status ≢ Status.Down }
        ensures after { self.new
            ≡ record self.old { vector = callee_after caller NewCoordinator None self.old.vector } }
        ensures answer { result ≡ reply NewCoordinator self.old.vector }
    {
        let answer = self.reply(CallKind::NewCoordinator);
        if self.halter == Some(caller) && self.status == Status::Election {
            self.coordinator = Some(caller);
            self.status = Status::Reorganization;
        }
        answer
    }

    /// A Ready from the caller runs at this node, which isn't Down. It takes effect where the caller is the
    /// node's coordinator and the node is in Reorganization. The table has as many partitions as there is room for.
    pub fn ready(&mut self, caller: Node, table: &Table) -> Answer
        requires up { self.old.vector.status ≢ Status.Down }
        requires fits { length table.now ≡ self.old.room }
        ensures after { self.new
            ≡ record self.old { vector = callee_after caller Ready (Some table.now) self.old.vector } }
        ensures answer { result ≡ reply Ready self.old.vector }
    {
        let answer = self.reply(CallKind::Ready);
        if self.coordinator == Some(caller) && self.status == Status::Reorganization {
            self.task.put(table);
            self.status = Status::Normal;
        }
        answer
    }

    /// The node crashed: its vector is empty, but for the task, where `keeps`.
    pub fn crash(&mut self, keeps: bool)
        ensures { self.new
            ≡ record self.old { vector = record empty_vector { task = kept_task keeps self.old.vector } } }
    {
        self.status = Status::Down;
        self.coordinator = None;
        self.halter = None;
        self.up = NodeSet::new();
        if !keeps {
            self.task.clear();
        }
    }

    /// The node recovered: its vector is empty, but for the status, which is Election, and for the task, where `keeps`.
    pub fn recover(&mut self, keeps: bool)
        ensures { self.new ≡ record self.old {
          vector = record empty_vector { status = Status.Election; task = kept_task keeps self.old.vector };
        } }
    {
        self.crash(keeps);
        self.status = Status::Election;
    }

    /// The node, which this is, halts itself as a candidate; nobody is up yet.
    pub fn become_candidate(&mut self, node: Node)
        ensures { self.new ≡ record self.old {
          vector = record self.old.vector { status = Status.Election; halter = Some node; up = [] };
        } }
    {
        self.status = Status::Election;
        self.halter = Some(node);
        self.up = NodeSet::new();
    }

    /// A lower node answered its halt.
    pub fn add_up(&mut self, node: Node)
        ensures { self.new
            ≡ record self.old { vector = record self.old.vector { up = with_node node self.old.vector.up } } }
    {
        self.up.insert(node);
    }

    /// The node, which this is, is the coordinator from now on.
    pub fn become_coordinator(&mut self, node: Node)
        ensures { self.new ≡ record self.old {
          vector = record self.old.vector { status = Status.Reorganization; coordinator = Some node };
        } }
    {
        self.status = Status::Reorganization;
        self.coordinator = Some(node);
    }

    /// The node has planned this table, which has as many partitions as there is room for.
    pub fn plan(&mut self, table: &Table)
        requires { length table.now ≡ self.old.room }
        ensures { self.new ≡ record self.old { vector = record self.old.vector { task = Some table.now } } }
    {
        self.task.put(table);
    }

    /// The reorganization is done.
    pub fn finish(&mut self)
        ensures { self.new ≡ record self.old { vector = record self.old.vector { status = Status.Normal } } }
    {
        self.status = Status::Normal;
    }
}
