//! Plans over nobody, and each small plan beside a slow search. Plans that were worked out by hand stand in
//! `tests/cases/table.txt`.

ghost use Rattle.std.specs.Prelude.{◌≡◌, ◌≤◌, All, IfSome, length};
ghost use Rattle.std.specs.Option.{option_copied};

use bully_base::{Node, NodeSet, Setup, SetupFault};
use bully_table::{PlanFault, Table, plan};
use std::alloc::Global;

// A group of 1 to 3 nodes and 1 to 5 partitions, what its nodes weigh, and their shares: what each of them weighs as a
// member, and nothing where it is none.
#[derive(Clone, Copy)]
struct Case {
    nodes: u16,
    partitions: u16,
    weights: [u16; 3],
    shares: [u32; 3],
}

impl Case {
    fn setup(self) -> Option<Setup> {
        let weights = self.weights.get(..usize::from(self.nodes))?;
        Setup::weighted(self.nodes, self.partitions, 1, weights, false).ok()
    }

    fn share(self, node: u16) -> u32 {
        match node {
            1 => self.shares[0],
            2 => self.shares[1],
            3 => self.shares[2],
            _ => 0,
        }
    }

    // The node's part of the partitions by weight, rounded down.
    fn base(self, node: u16) -> u32 {
        let [first, second, third] = self.shares;
        let total = first.saturating_add(second).saturating_add(third);
        let parts = u32::from(self.partitions).saturating_mul(self.share(node));
        parts.checked_div(total).unwrap_or(0)
    }

    fn member_set(self) -> NodeSet {
        let mut set = NodeSet::new();
        for number in 1..=3 {
            if let Some(node) = Node::new(number) {
                if self.share(number) > 0 {
                    set.insert(node);
                }
            }
        }
        set
    }

    // How many lists of owners there are.
    fn lists(self) -> u32 {
        u32::from(self.nodes).wrapping_pow(u32::from(self.partitions))
    }

    // The number of the owner at the place in the list of this number: a digit of it, and one more.
    fn owner(self, list: u32, place: u16) -> u32 {
        let nodes = u32::from(self.nodes);
        let rest = list.checked_div(nodes.wrapping_pow(u32::from(place)));
        let digit = rest.unwrap_or(0).checked_rem(nodes);
        digit.unwrap_or(0).saturating_add(1)
    }

    // How many partitions the node owns in the list.
    fn owned(self, list: u32, node: u16) -> u32 {
        let mut count: u32 = 0;
        for place in 0..self.partitions {
            if self.owner(list, place) == u32::from(node) {
                count = count.saturating_add(1);
            }
        }
        count
    }

    // Whether the list is balanced: a member owns its base or one more, and any other node nothing.
    fn is_fair(self, list: u32) -> bool {
        for node in 1..=self.nodes {
            let (count, base) = (self.owned(list, node), self.base(node));
            let is_one_more = self.share(node) > 0 && count == base.saturating_add(1);
            if count != base && !is_one_more {
                return false;
            }
        }
        true
    }

    // At how many places the two lists have the same owner.
    fn kept(self, list: u32, other: u32) -> u16 {
        let mut count: u16 = 0;
        for place in 0..self.partitions {
            if self.owner(list, place) == self.owner(other, place) {
                count = count.saturating_add(1);
            }
        }
        count
    }

    // The most that a balanced list keeps of the old one, found by trying them all.
    fn most_kept(self, old: u32) -> u16 {
        let mut best = 0;
        for list in 0..self.lists() {
            if self.is_fair(list) {
                best = best.max(self.kept(list, old));
            }
        }
        best
    }

    // Adds the list of this number as a text, with a space after each owner.
    // (where there is no memory for it, the text is no such list)
    fn add_list(self, text: &mut String, list: u32) {
        for place in 0..self.partitions {
            let _ = text.push_str(match self.owner(list, place) {
                1 => "1 ",
                2 => "2 ",
                _ => "3 ",
            });
        }
    }
}

// Whether nothing is planned over nobody.
fn plans_nothing(alloc: Global, setup: Setup, old: Option<&Table>) -> bool
    requires { IfSome (option_copied old) (λ t. length t ≡ setup.partitions) }
{
    plan(alloc, setup, &NodeSet::new(), old).err() == Some(PlanFault::NoMember)
}

// The same by a setup that isn't refused, from the table of a text, or from none where it is empty.
fn plans_nothing_by(alloc: Global, setup: Result<Setup, SetupFault>, old: &str) -> bool {
    let Ok(setup) = setup else {
        return false;
    };
    if old.is_empty() {
        return plans_nothing(alloc, setup, None);
    }
    match Table::read(alloc, setup, old) {
        Ok(old) => plans_nothing(alloc, setup, Some(&old)),
        Err(_) => false,
    }
}

#[test]
fn plans_over_nobody(rt: HostRuntime) {
    let heavy = Setup::weighted(3, 7, 1, &[1, 2, 1], false);
    assert!(rt; plans_nothing_by(rt.alloc(), Setup::new(3, 2, 1), ""));
    assert!(rt; plans_nothing_by(rt.alloc(), Setup::new(3, 3, 1), "3 3 3"));
    assert!(rt; plans_nothing_by(rt.alloc(), heavy, ""));
}

// Whether the plan from the old table is as good as the best, which keeps so many.
fn is_best(alloc: Global, setup: Setup, members: &NodeSet, old: &Table, most: u16) -> bool
    requires covers { length old.now ≡ setup.partitions }
    requires members { All (λ m. m ≤ setup.nodes) members.now }
{
    match plan(alloc, setup, members, Some(old)) {
        Ok(found) => {
            found.table.is_balanced(setup, members)
                && found.bound == most
                && found.moves.saturating_add(most) == setup.partitions()
                && old.len() == found.table.len()
                && found.table.moves(old) == found.moves
        }
        Err(_) => false,
    }
}

// The same of the list of this number, which the old table was read of.
fn is_best_over(alloc: Global, setup: Setup, case: Case, list: u32, old: &Table) -> bool
    requires { length old.now ≡ setup.partitions }
{
    let members = case.member_set();
    let most = case.most_kept(list);
    setup.has_all(&members) && is_best(alloc, setup, &members, old, most)
}

// The same of the list alone.
fn is_best_from(alloc: Global, setup: Setup, case: Case, list: u32) -> bool {
    let mut text = String::new(alloc);
    case.add_list(&mut text, list);
    match Table::read(alloc, setup, text.as_str().trim_end()) {
        Ok(old) => is_best_over(alloc, setup, case, list, &old),
        Err(_) => false,
    }
}

// The plan from each old table is as good as what the search finds.
fn are_all_best(alloc: Global, case: Case) -> bool {
    let Some(setup) = case.setup() else {
        return false;
    };
    for list in 0..case.lists() {
        if !is_best_from(alloc, setup, case, list) {
            return false;
        }
    }
    true
}

// For each set of members among the nodes that isn't empty, the plans are as good as what the search finds.
fn are_best_for_all(alloc: Global, nodes: u16, partitions: u16, weights: [u16; 3]) -> bool {
    let sets: u32 = match nodes {
        1 => 2,
        2 => 4,
        _ => 8,
    };
    let [first, second, third] = weights;
    for marks in 1..sets {
        let case = Case {
            nodes,
            partitions,
            weights,
            shares: [
                u32::from(first).saturating_mul(marks % 2),
                u32::from(second).saturating_mul(marks / 2 % 2),
                u32::from(third).saturating_mul(marks / 4),
            ],
        };
        if !are_all_best(alloc, case) {
            return false;
        }
    }
    true
}

/// What the three nodes weigh.
const WEIGHTS: [[u16; 3]; 5] = [[1, 1, 1], [1, 2, 1], [3, 1, 2], [1, 1000, 1], [2, 3, 3]];

// The same of each group of up to three nodes and five partitions.
fn are_best_by(alloc: Global, weights: [u16; 3]) -> bool {
    for nodes in 1..=3 {
        for partitions in 1..=5 {
            if !are_best_for_all(alloc, nodes, partitions, weights) {
                return false;
            }
        }
    }
    true
}

#[test]
fn plans_beside_a_search(rt: HostRuntime) {
    for weights in WEIGHTS.iter() {
        assert!(rt; are_best_by(rt.alloc(), *weights), "{weights:?}");
    }
}
