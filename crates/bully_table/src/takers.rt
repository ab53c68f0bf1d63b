ghost use Rattle.std.specs.Prelude.{◌≡◌, ◌∷◌, []};
ghost use Rattle.std.specs.Option.{MatchOption};
ghost use Rattle.bully_base.specs.declared.TheConstants.{NODES_MAX};
ghost use Rattle.bully_table.specs.Takers.{spare, takers_from};

use crate::balance::{PLACES, count_at};
use bully_base::Node;
use std::marker::Model;

/// The nodes that are still to take a partition, in rising number: each as often as its count is below its quota.
#[derive(Drop)]
pub struct Takers<'a> {
    quotas: &'a [u16; PLACES],
    counts: &'a [u16; PLACES],
    /// Who takes the next ones.
    node: Node,
    /// How many of them.
    room: u16,
}

impl<'a> Model for Takers<'a> {
    ghost use Rattle.std.specs.Prelude.{List, ℕ};
    ghost use Rattle.bully_table.specs.Takers.{takers_left};

    ghost Value = { List ℕ };

    ghost view = { λ t. takers_left t.quotas.now t.counts.now t.node t.room };
}

impl<'a> Takers<'a> {
    /// All that take, where the nodes have these quotas and counts.
    pub fn of(quotas: &'a [u16; PLACES], counts: &'a [u16; PLACES]) -> Self
        ensures { result ≡ takers_from (spare quotas.now counts.now) NODES_MAX 1 }
    {
        let node = Node::new(1).unwrap();
        let room = room_of(quotas, counts, node);
        Takers {
            quotas,
            counts,
            node,
            room,
        }
    }

    /// The next one; none where all have taken.
    pub fn next(&mut self) -> Option<Node>
        ensures { MatchOption result ((self.old ≡ []) × (self.new ≡ [])) (λ node. self.old ≡ node ∷ self.new) }
    {
        while self.room == 0 {
            self.node = Node::new(self.node.number() + 1)?;
            self.room = room_of(self.quotas, self.counts, self.node);
        }
        self.room -= 1;
        Some(self.node)
    }
}

// How many partitions the node takes.
fn room_of(quotas: &[u16; PLACES], counts: &[u16; PLACES], node: Node) -> u16
    ensures { result ≡ spare quotas.now counts.now node }
{
    count_at(quotas, node).saturating_sub(count_at(counts, node))
}
