ghost use Rattle.std.specs.Prelude.{◌≡◌, bytes_eq};
ghost use Rattle.std.specs.Cmp.{partial_equiv_from_equiv};
ghost use Rattle.std.specs.Cmp.Lexicographic.{nat_list_eq_equiv};

use std::marker::Model;

/// The partitions that a node owns, in rising order. The first partition of a group is 0.
#[derive(Drop, Debug)]
pub struct Partitions {
    partitions: Vec<u16>,
}

impl Model for Partitions {
    ghost use Rattle.std.specs.Prelude.{ℕ, List};

    ghost Value = { List ℕ };

    ghost view = { λ p. p.partitions.items };
}

/// Two of them are equal if they have the same partitions in the same order.
impl PartialEq for Partitions {
    ghost eq = { bytes_eq };

    ghost laws = { partial_equiv_from_equiv nat_list_eq_equiv };

    fn eq(&self, other: &Partitions) -> bool {
        self.partitions == other.partitions
    }
}

impl Eq for Partitions {
    ghost laws = { nat_list_eq_equiv };
}

impl Partitions {
    /// These partitions.
    pub fn from_vec(partitions: Vec<u16>) -> Partitions
        ensures { result ≡ partitions.items }
    {
        Partitions { partitions }
    }

    /// The partitions, in order.
    pub fn as_slice(&self) -> &[u16]
        ensures { result.now ≡ self.now }
    {
        &self.partitions
    }
}

/// What a node's process may work on, and by which token.
#[derive(Drop, Debug)]
pub struct Owned {
    /// The token of the log's last plan: the number of events up to and including it.
    pub token: u32,
    /// The node's partitions by that plan: at least one.
    pub partitions: Partitions,
}
