ghost use Rattle.std.specs.Prelude.{◌≡◌, ◌↔◌, ◌+◌, ◌-◌, ◌<◌, ◌≤◌, ℕ, List, All, Contains, IsTrue, length, replicate};
ghost use Rattle.std.specs.Prelude.{slice_index_or};
ghost use Rattle.bully_base.specs.NodeSet.{IsFallingBelow};
ghost use Rattle.bully_base.specs.Setup.{IsNodeNumber, weight_of};
ghost use Rattle.bully_base.specs.declared.TheConstants.{NODES_MAX, PARTITIONS_MAX};
ghost use Rattle.bully_table.specs.Balance.{count_of, total_weight, base_of, IsFair, is_fair};

use bully_base::{NODES_MAX, Node, NodeSet, Setup};

/// How many counts there are: one for each node number.
pub const PLACES: usize = NODES_MAX as usize;

/// The node whose count stands at this place.
pub fn node_at(place: usize) -> Node
    requires { place < NODES_MAX }
    ensures { result ≡ place + 1 }
{
    Node::new(place as u16 + 1).unwrap()
}

/// Where the node's count stands.
pub fn place_of(node: Node) -> usize
    ensures place { result ≡ node - 1 }
    ensures within { IsNodeNumber node }
{
    usize::from(node.number()) - 1
}

/// Whether each owner is a member.
pub fn are_members(owners: &[Node], members: &NodeSet) -> bool
    ensures { IsTrue result ↔ All (Contains members.now) owners.now }
{
    for owner in owners {
        if !members.has(*owner) {
            return false;
        }
    }
    true
}

/// Whether each member owns its base, or one more.
pub fn are_fair(setup: &Setup, owners: &[Node], members: &NodeSet) -> bool
    requires few { length owners.now ≤ PARTITIONS_MAX }
    requires nodes { All (λ m. m ≤ setup.now.nodes) members.now }
    ensures { IsTrue result
        ↔ ((m : ℕ) → Contains members.now m → IsFair (base_of setup.now members.now m) (count_of m owners.now)) }
{
    // `highest` also shows the proof that the members fall.
    if members.highest().is_none() {
        return true;
    }
    let mut counts = [0; PLACES];
    count_owners(owners, &mut counts);
    let total = total_weight(setup, members);
    for place in 0..usize::from(setup.nodes()) {
        let node = node_at(place);
        if members.has(node) && !is_fair(base_of(setup, node, total), counts[place]) {
            return false;
        }
    }
    true
}

/// Counts the partitions of each node: that of node 1 comes first. All counts are 0 before.
pub fn count_owners(owners: &[Node], counts: &mut [u16; PLACES])
    requires few { length owners.now ≤ PARTITIONS_MAX }
    requires none { counts.old ≡ replicate NODES_MAX 0 }
    ensures { (node : ℕ) → IsNodeNumber node → slice_index_or counts.new (node - 1) 0 ≡ count_of node owners.now }
{
    for owner in owners {
        counts[place_of(*owner)] += 1;
    }
}

/// The node's count.
pub fn count_at(counts: &[u16; PLACES], node: Node) -> u16
    ensures { result ≡ slice_index_or counts.now (node - 1) 0 }
{
    counts[place_of(node)]
}

/// What the members weigh together.
pub fn total_weight(setup: &Setup, members: &NodeSet) -> u32
    requires { IsFallingBelow (setup.now.nodes + 1) members.now }
    ensures total { result ≡ total_weight setup.now members.now }
    ensures each { (m : ℕ) → Contains members.now m → (0 < weight_of setup.now m) × (weight_of setup.now m ≤ result) }
{
    let mut total = 0;
    for place in 0..usize::from(setup.nodes()) {
        let node = node_at(place);
        if members.has(node) {
            total += u32::from(setup.weight(node));
        }
    }
    total
}

/// What the node owns at least, where the members weigh so much together.
pub fn base_of(setup: &Setup, node: Node, total: u32) -> u16
    requires node { node ≤ setup.now.nodes }
    requires total { weight_of setup.now node ≤ total }
    ensures base { (members : List ℕ) → total ≡ total_weight setup.now members
        → result ≡ base_of setup.now members node }
    ensures within { result ≤ setup.now.partitions }
{
    (u32::from(setup.partitions()) * u32::from(setup.weight(node)) / total) as u16
}

// Whether so many partitions are the base, or one more.
fn is_fair(base: u16, count: u16) -> bool
    ensures { result ≡ is_fair base count }
{
    base <= count && count - base <= 1
}
