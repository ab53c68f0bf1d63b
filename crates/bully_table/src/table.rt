ghost use Rattle.std.specs.Prelude.{◌≡◌, ◌↔◌, ◌<◌, ◌≤◌, [], length, slice_get, vec_capacity, bytes_eq, All, IsTrue};
ghost use Rattle.std.specs.Prelude.{IfOk, IfErr, Ok, Some};
ghost use Rattle.std.specs.Cmp.{partial_equiv_from_equiv};
ghost use Rattle.std.specs.Cmp.Lexicographic.{nat_list_eq_equiv};
ghost use Rattle.std.specs.Option.{option_copied};
ghost use Rattle.bully_base.specs.declared.TheConstants.{PARTITIONS_MAX};
ghost use Rattle.bully_table.specs.Balance.{IsBalanced};
ghost use Rattle.bully_table.specs.Planning.{moves};
ghost use Rattle.bully_table.specs.TableText.{IsRefusedFor, table_of_text};

use crate::balance::{are_fair, are_members};
use crate::moving::count_moves;
use crate::reading::{look_through, read_owners};
use bully_base::{Node, NodeSet, OutOfMemory, Setup};
use std::alloc::{AllocError, Global};
use std::fmt;
use std::marker::Model;

/// The owner of each partition, from partition 0 on.
#[derive(Drop, Debug)]
pub struct Table {
    owners: Vec<Node>,
}

impl Model for Table {
    ghost use Rattle.std.specs.Prelude.{◌≤◌, List, ℕ, length};
    ghost use Rattle.bully_base.specs.declared.TheConstants.{PARTITIONS_MAX};

    ghost Value = { List ℕ };

    ghost view = { λ t. t.owners.items };

    ghost invariant = { λ t. length t.owners.items ≤ PARTITIONS_MAX };
}

/// Two tables are equal where their owners are.
impl PartialEq for Table {
    ghost eq = { bytes_eq };

    ghost laws = { partial_equiv_from_equiv nat_list_eq_equiv };

    fn eq(&self, other: &Table) -> bool {
        self.owners == other.owners
    }
}

impl Eq for Table {
    ghost laws = { nat_list_eq_equiv };
}

/// Why a text is no table, the first that holds.
#[derive(Clone, Copy, PartialEq, Eq, Debug)]
pub enum TableFault {
    /// The number of pieces isn't that of the partitions.
    Length,
    /// A piece is a number, and of no node.
    Owner,
    /// A piece is no number: neither `0` nor decimal digits without a leading zero.
    Syntax,
    /// An allocation failed.
    OutOfMemory,
}

impl From<AllocError> for TableFault {
    ghost use Rattle.bully_table.specs.declared.table.TableFault.{TableFault};

    ghost from_gives = { λ _ fault. fault ≡ TableFault.OutOfMemory };

    fn from(_: AllocError) -> TableFault {
        TableFault::OutOfMemory
    }
}

/// The fault's name.
impl fmt::Display for TableFault {
    ghost use Rattle.std.specs.Prelude.{Some};
    ghost use Rattle.bully_table.specs.TableText.{table_fault_text};

    ghost output = { λ fault. Some (table_fault_text fault) };

    fn fmt<W: fmt::Write>(&self, f: &mut fmt::Formatter<W>) -> fmt::Result {
        f.write_str(match self {
            TableFault::Length => "Length",
            TableFault::Owner => "Owner",
            TableFault::Syntax => "Syntax",
            TableFault::OutOfMemory => "OutOfMemory",
        })
    }
}

impl std::error::Error for TableFault {}

impl Table {
    /// Reads the owners of the setup's partitions, parted by single spaces.
    /// Refused, in this order, as `Length`, `Owner`, `Syntax`, `OutOfMemory`. The rule: docs/ALGORITHM.md.
    pub fn read(alloc: Global, setup: Setup, text: &str) -> Result<Table, TableFault>
        ensures ok { IfOk result (λ t. table_of_text setup text.now ≡ Ok t) }
        ensures length { IfOk result (λ t. length t ≡ setup.partitions) }
        ensures err { IfErr result (IsRefusedFor setup text.now) }
    {
        Table::read_in(alloc, &setup, text.as_bytes())
    }

    /// Reads the owners from bytes, as [`Table::read`] does. Bytes that aren't UTF-8 spell no owners.
    pub fn read_in(alloc: Global, setup: &Setup, text: &[u8]) -> Result<Table, TableFault>
        ensures ok { IfOk result (λ t. table_of_text setup.now text.now ≡ Ok t) }
        ensures length { IfOk result (λ t. length t ≡ setup.now.partitions) }
        ensures err { IfErr result (IsRefusedFor setup.now text.now) }
    {
        let found = look_through(setup, text);
        if found.count != setup.partitions() {
            return Err(TableFault::Length);
        }
        if found.names_nobody {
            return Err(TableFault::Owner);
        }
        if found.has_no_number {
            return Err(TableFault::Syntax);
        }
        let owners = read_owners(alloc, setup, text)?;
        Ok(Table { owners })
    }

    // The table of these owners.
    pub(crate) fn of(owners: Vec<Node>) -> Table
        requires { length owners.items ≤ PARTITIONS_MAX }
        ensures { result ≡ owners.items }
    {
        Table { owners }
    }

    // The owners.
    pub(crate) fn owners(&self) -> &[Node]
        ensures { result.now ≡ self.now }
    {
        &self.owners
    }

    /// How many partitions the table has.
    pub fn len(&self) -> usize
        ensures { result ≡ length self.now }
    {
        self.owners.len()
    }

    /// The owner of the partition at this place, from 0.
    pub fn owner(&self, place: usize) -> Node
        requires { place < length self.now }
        ensures { slice_get self.now place ≡ Some result }
    {
        self.owners[place]
    }

    /// A table of the same owners.
    pub fn copy(&self) -> Result<Table, OutOfMemory>
        ensures { IfOk result (λ t. t ≡ self.now) }
    {
        let owners = Vec::from_slice(*self.owners.allocator(), &self.owners)?;
        Ok(Table { owners })
    }

    // A table of the same owners, in memory that is reserved for them.
    pub(crate) fn copy_into(&self, reserved: Vec<Node>) -> Table
        requires empty { reserved.items ≡ [] }
        requires room { length self.now ≤ vec_capacity reserved }
        ensures { result ≡ self.now }
    {
        let mut owners = reserved;
        owners.extend_from_slice(&self.owners).unwrap();
        Table { owners }
    }

    /// Takes over the owners of a table of the same length.
    pub fn assign(&mut self, other: &Table)
        requires { length self.old ≡ length other.now }
        ensures { self.new ≡ other.now }
    {
        self.owners.copy_from_slice(&other.owners);
    }

    /// At how many partitions the owner is another one than in the old table, which has the same length: from 0 to
    /// that. The rule: docs/ALGORITHM.md.
    pub fn moves(&self, old: &Table) -> u16
        requires { length old.now ≡ length self.now }
        ensures { result ≡ moves old.now self.now }
    {
        count_moves(&old.owners, &self.owners)
    }

    /// Whether the table, which has the setup's partitions, is balanced over the members, which are nodes of the setup:
    /// each owner is a member, and each member owns its base, or one more. The rule: docs/ALGORITHM.md.
    pub fn is_balanced(&self, setup: Setup, members: &NodeSet) -> bool
        requires length { length self.now ≡ setup.partitions }
        requires nodes { All (λ m. m ≤ setup.nodes) members.now }
        ensures { IsTrue result ↔ IsBalanced setup self.now members.now }
    {
        self.is_balanced_in(&setup, members)
    }

    /// [`Table::is_balanced`], with the setup by reference.
    pub fn is_balanced_in(&self, setup: &Setup, members: &NodeSet) -> bool
        requires length { length self.now ≡ setup.now.partitions }
        requires nodes { All (λ m. m ≤ setup.now.nodes) members.now }
        ensures { IsTrue result ↔ IsBalanced setup.now self.now members.now }
    {
        are_members(&self.owners, members) && are_fair(setup, &self.owners, members)
    }
}

/// A copy of the table, if there is one. Refused where an allocation fails.
pub fn copied(table: Option<&Table>) -> Result<Option<Table>, OutOfMemory>
    ensures { IfOk result (λ copy. copy ≡ option_copied table.entry) }
{
    match table {
        Some(table) => Ok(Some(table.copy()?)),
        None => Ok(None),
    }
}
