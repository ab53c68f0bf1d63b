ghost use Rattle.std.specs.Prelude.{◌≡◌, length, IfOk, Some, None};
ghost use Rattle.std.specs.Option.{option_copied};

use crate::table::Table;
use bully_base::{Node, OutOfMemory, Setup};
use std::alloc::Global;
use std::marker::Model;
use std::mem;

/// Room that is reserved for one table, and the table in it, if any.
#[derive(Drop, Debug)]
pub struct TableRoom {
    /// What was put in last, also where the room was emptied since.
    table: Option<Table>,
    /// The memory of the first table, until that is put in: so memory that is never used is never touched.
    reserved: Vec<Node>,
    size: usize,
    is_full: bool,
}

impl Model for TableRoom {
    ghost use Rattle.std.specs.Prelude.{None, vec_capacity, if◌then◌else◌};
    ghost use Rattle.bully_table.specs.Room.{Room, IsRoom};

    ghost Value = { Room };

    ghost view = { λ r. record { table = if r.is_full then r.table else None; size = r.size } };

    ghost invariant = { λ r. IsRoom r.table r.reserved.items (vec_capacity r.reserved) r.size r.is_full };
}

impl TableRoom {
    /// Empty room for a table of the setup's partitions. Refused where an allocation fails.
    pub fn new(alloc: Global, setup: &Setup) -> Result<TableRoom, OutOfMemory>
        ensures { IfOk result (λ r. r ≡ record { table = None; size = setup.now.partitions }) }
    {
        let size = usize::from(setup.partitions());
        Ok(TableRoom {
            table: None,
            reserved: Vec::with_capacity(alloc, size)?,
            size,
            is_full: false,
        })
    }

    /// Puts the table in, in the place of what was there.
    pub fn put(&mut self, table: &Table)
        requires { length table.now ≡ self.old.size }
        ensures { self.new ≡ record self.old { table = Some table.now } }
    {
        self.is_full = true;
        if let Some(own) = &mut self.table {
            own.assign(table);
            return;
        }
        let alloc = *self.reserved.allocator();
        let reserved = mem::replace(&mut self.reserved, Vec::new(alloc));
        self.table = Some(table.copy_into(reserved));
    }

    /// Empties the room, which stays reserved.
    pub fn clear(&mut self)
        ensures { self.new ≡ record self.old { table = None } }
    {
        self.is_full = false;
    }

    /// The table in the room.
    pub fn table(&self) -> Option<&Table>
        ensures { option_copied result ≡ self.now.table }
    {
        if self.is_full {
            self.table.as_ref()
        } else {
            None
        }
    }
}
