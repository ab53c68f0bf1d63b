use bully_base::{Node, NodeSet, OutOfMemory, Setup, Status};
use bully_handlers::Vector;
use bully_table::TableRoom;
use bully_trace::same_task;
use std::alloc::Global;
use std::marker::Model;

/// A node's vector as it was seen last, with room for a task. Contracts see it as a vector that is kept.
#[derive(Drop)]
pub struct Seen {
    status: Status,
    coordinator: Option<Node>,
    halter: Option<Node>,
    up: NodeSet,
    task: TableRoom,
}

impl Model for Seen {
    ghost use Rattle.bully_handlers.specs.Vector.{StoredVector};

    ghost Value = { StoredVector };

    ghost view = { λ s. record {
      vector =
          record { status = s.status; coordinator = s.coordinator; halter = s.halter; up = s.up; task = s.task.table };
      room = s.task.size;
    } };
}

impl Seen {
    ghost use Rattle.std.specs.Prelude.{◌≡◌, length, IfOk, IfSome};
    ghost use Rattle.bully_annotate.specs.Annotated.{same_vector};

    /// The vector of a node before any event, with room for a task of this setup. Refused where an allocation fails.
    pub fn new(alloc: Global, setup: &Setup) -> Result<Seen, OutOfMemory>
        ensures { IfOk result (λ s. s.room ≡ setup.now.partitions) }
    {
        Ok(Seen {
            status: Status::Down,
            coordinator: None,
            halter: None,
            up: NodeSet::new(),
            task: TableRoom::new(alloc, setup)?,
        })
    }

    /// Sees this vector, whose task fits into the room.
    pub fn see(&mut self, vector: &Vector)
        requires { IfSome vector.now.vector.task (λ t. length t ≡ self.old.room) }
        ensures { self.new ≡ record self.old { vector = vector.now.vector } }
    {
        self.status = vector.status();
        self.coordinator = vector.coordinator();
        self.halter = vector.halter();
        self.up = *vector.up();
        match vector.task() {
            Some(table) => self.task.put(table),
            None => self.task.clear(),
        }
    }

    /// Whether this vector is the one that was seen.
    pub fn is_same(&self, vector: &Vector) -> bool
        ensures { result ≡ same_vector self.now.vector vector.now.vector }
    {
        self.status == vector.status()
            && self.coordinator == vector.coordinator()
            && self.halter == vector.halter()
            && self.up == *vector.up()
            && same_task(self.task.table(), vector.task())
    }
}
