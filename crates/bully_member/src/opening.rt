ghost use Rattle.std.specs.Prelude.{◌≡◌};
ghost use Rattle.bully_member.specs.Opening.{is_other_length, terms_fault};

use bully_base::{Node, Setup};
use bully_table::Table;

/// The shortest ttl, a millisecond, in nanoseconds.
pub const TTL_MIN: u64 = 1_000_000;

/// The longest ttl, a day, in nanoseconds.
pub const TTL_MAX: u64 = 86_400_000_000_000;

/// The most events that rebalance a group, for each of its nodes.
pub const REBALANCE_MAX: u32 = 11;

/// What an epoch is for a member.
#[derive(Drop)]
pub struct Terms {
    /// Which epoch it is.
    pub epoch: u32,
    /// The member's node.
    pub node: Node,
    /// How many rows the log may have.
    pub rows_max: u32,
    /// The last table of the epoch before, if that had as many partitions. In the place of an owner that is gone it has
    /// a node that the group doesn't have.
    pub old: Option<Table>,
    /// Whether the group is cooperative: a change of it stops only the work that moves. Otherwise it is eager, and a
    /// change stops all work. All members of a group must agree on that. In a cooperative group a resource must keep
    /// the highest token of each partition.
    pub is_cooperative: bool,
}

/// Why no member is made.
#[derive(Clone, Copy, PartialEq, Eq, Debug)]
pub enum MemberFault {
    /// The node is above the group's last.
    BadNode,
    /// The old table has another number of partitions.
    TableLength,
    /// The bound on the log's rows has no room for two rebalances, 22 rows for each node, or is above the group's bound
    /// on events.
    BadRowsMax,
    /// The ttl is below [`TTL_MIN`] or above [`TTL_MAX`].
    BadTtl,
    /// An allocation failed.
    OutOfMemory,
}

/// The first fault of the terms, for a group with this setup.
pub fn terms_fault(setup: &Setup, terms: &Terms) -> Option<MemberFault>
    ensures { result ≡ terms_fault setup.now terms.now }
{
    if setup.nodes() < terms.node.number() {
        return Some(MemberFault::BadNode);
    }
    if is_other_length(&terms.old, setup.partitions()) {
        return Some(MemberFault::TableLength);
    }
    if terms.rows_max < 2 * REBALANCE_MAX * u32::from(setup.nodes())
        || setup.events_max() < terms.rows_max
    {
        return Some(MemberFault::BadRowsMax);
    }
    None
}

// Whether there is an old table with another number of partitions.
fn is_other_length(old: &Option<Table>, partitions: u16) -> bool
    ensures { result ≡ is_other_length old.now partitions }
{
    match old {
        Some(table) => table.len() != usize::from(partitions),
        None => false,
    }
}
