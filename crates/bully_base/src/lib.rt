//! The numbers of an election group: nodes, its setup, and sets of nodes.
//!
//! It builds on nothing but std. The crates above see a node as its number, a setup as its numbers and weights, and a
//! set of nodes as its members in falling order.
#![tactic(auto)]

ghost use Rattle.std.specs.Prelude.{◌≡◌};
ghost use Rattle.bully_base.specs.declared.TheConstants.{NODES_MAX, PARTITIONS_MAX, EVENTS_MAX, WEIGHT_MAX};

mod node;
mod node_set;
mod setup;

pub use node::{Node, Status};
pub use node_set::NodeSet;
pub use setup::{Limits, Setup, SetupFault};
use std::alloc::AllocError;

/// An allocation failed.
pub type OutOfMemory = AllocError;

/// The most nodes of a group. The rule: docs/ALGORITHM.md.
pub const NODES_MAX: u16 = 1024;

/// The most partitions of a group's task. The rule: docs/ALGORITHM.md.
pub const PARTITIONS_MAX: u16 = 4096;

/// The most events that a group may be bounded to. The rule: docs/ALGORITHM.md.
pub const EVENTS_MAX: u32 = 1_000_000;

/// The most that a node may weigh. The rule: docs/ALGORITHM.md.
pub const WEIGHT_MAX: u16 = 1000;

/// The law of the limits, which says their numbers. Every other contract and definition cites them by name.
pub fn limits()
    ensures nodes { NODES_MAX ≡ 1024 }
    ensures partitions { PARTITIONS_MAX ≡ 4096 }
    ensures events { EVENTS_MAX ≡ 1000000 }
    ensures weight { WEIGHT_MAX ≡ 1000 }
{}
