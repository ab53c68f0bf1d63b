ghost use Rattle.std.specs.Prelude.{◌≡◌, ◌<◌, ◌≤◌};
ghost use Rattle.std.specs.Option.{SomeIff};
ghost use Rattle.bully_base.specs.Setup.{IsNodeNumber};

use crate::NODES_MAX;
use std::marker::Model;

/// A node's number, from 1 to [`NODES_MAX`]. A larger number has priority.
#[derive(Clone, Copy, PartialEq, Eq, PartialOrd, Ord, Debug)]
pub struct Node {
    number: u16,
}

impl Model for Node {
    ghost use Rattle.std.specs.Prelude.{ℕ};
    ghost use Rattle.bully_base.specs.Setup.{IsNodeNumber};

    ghost Value = { ℕ };

    ghost view = { λ n. n.number };

    ghost invariant = { λ n. IsNodeNumber n.number };

    ghost inverse = { λ k. record { number = k } };
}

impl Node {
    /// The node of this number; none where it is outside 1 to [`NODES_MAX`].
    pub fn new(number: u16) -> Option<Node>
        ensures { SomeIff result (IsNodeNumber number) number }
    {
        if 0 < number && number <= NODES_MAX {
            Some(Node { number })
        } else {
            None
        }
    }

    /// The node's number, from 1 to [`NODES_MAX`].
    pub fn number(self) -> u16
        ensures number { result ≡ self }
        ensures within { IsNodeNumber self }
    {
        self.number
    }
}

/// What a node believes of itself, as in the 1982 paper.
#[derive(Clone, Copy, PartialEq, Eq, Debug)]
pub enum Status {
    Down,
    Election,
    Reorganization,
    Normal,
}
