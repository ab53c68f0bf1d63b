ghost use Rattle.std.specs.Prelude.{◌≡◌, ◌+◌, ◌-◌, ◌<◌, ℕ, List, min, replicate, slice_index_or, count_by, nat_lt};
ghost use Rattle.bully_base.specs.NodeSet.{IsFallingBelow};
ghost use Rattle.bully_base.specs.declared.TheConstants.{NODES_MAX};
ghost use Rattle.bully_base.specs.Setup.{IsNodeNumber};
ghost use Rattle.bully_table.specs.Balance.{count_of, total_weight, base_of};
ghost use Rattle.bully_table.specs.Planning.{rest_of, quota};
ghost use Rattle.bully_table.specs.Takers.{base_share};

use crate::balance::{PLACES, base_of, node_at, total_weight};
use bully_base::{NodeSet, Setup};

/// Writes the quota of each member, that of node 1 first, where each node owned so many partitions. All quotas are 0
/// before, and those of other nodes stay so.
pub fn write_quotas(
    setup: &Setup,
    members: &NodeSet,
    counts: &[u16; PLACES],
    quotas: &mut [u16; PLACES],
)
    requires falling { IsFallingBelow (setup.now.nodes + 1) members.now }
    requires weighs { 0 < total_weight setup.now members.now }
    requires none { quotas.old ≡ replicate NODES_MAX 0 }
    ensures { (before : List ℕ) → ((m : ℕ) → IsNodeNumber m → slice_index_or counts.now (m - 1) 0 ≡ count_of m before)
        → (m : ℕ) → IsNodeNumber m → slice_index_or quotas.new (m - 1) 0 ≡ quota setup.now before members.now m }
{
    let beyond = write_bases(setup, members, counts, quotas);
    // What is left of the rest for the members that owned more than their base, and for the others.
    let mut first_rest = beyond.rest;
    let mut later_rest = beyond.rest.saturating_sub(beyond.above);
    for place in 0..usize::from(setup.nodes()) {
        if members.has(node_at(place)) {
            let base = quotas[place];
            let more = if counts[place] > base {
                spend_one(&mut first_rest)
            } else {
                spend_one(&mut later_rest)
            };
            quotas[place] = base + more;
        }
    }
}

// What goes beyond the bases.
#[derive(Clone, Copy)]
struct Beyond {
    /// How many partitions the bases leave.
    rest: u16,
    /// How many members owned more than their base.
    above: u16,
}

// Writes the base of each member, that of node 1 first, where each node owned so many partitions. All are 0 before, and
// those of other nodes stay so.
fn write_bases(
    setup: &Setup,
    members: &NodeSet,
    counts: &[u16; PLACES],
    bases: &mut [u16; PLACES],
) -> Beyond
    requires falling { IsFallingBelow (setup.now.nodes + 1) members.now }
    requires weighs { 0 < total_weight setup.now members.now }
    requires none { bases.old ≡ replicate NODES_MAX 0 }
    ensures bases { (m : ℕ) → IsNodeNumber m → slice_index_or bases.new (m - 1) 0 ≡ base_share setup.now members.now m }
    ensures rest { result.rest ≡ rest_of setup.now members.now }
    ensures above { result.above
        ≡ count_by (λ m. nat_lt (base_of setup.now members.now m) (slice_index_or counts.now (m - 1) 0)) members.now }
{
    let total = total_weight(setup, members);
    let mut beyond = Beyond {
        rest: setup.partitions(),
        above: 0,
    };
    for place in 0..usize::from(setup.nodes()) {
        let node = node_at(place);
        if members.has(node) {
            let base = base_of(setup, node, total);
            bases[place] = base;
            beyond.rest -= base;
            beyond.above += u16::from(counts[place] > base);
        }
    }
    beyond
}

// Spends one where any are left: how many it spent.
fn spend_one(left: &mut u16) -> u16
    ensures spent { result ≡ min left.old 1 }
    ensures left { left.new ≡ left.old - 1 }
{
    let spent = (*left).min(1);
    *left -= spent;
    spent
}
