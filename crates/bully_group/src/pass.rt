ghost use Rattle.std.specs.Prelude.{◌≡◌, ◌+◌, ◌<◌, ◌^◌};

use crate::naming::Naming;
use std::marker::Model;
use std::sync::ledger::{Book, Share};

/// One part of a group's ledger, with which steps are taken. Contracts see it as the number of entries that were
/// answered with it.
#[derive(Drop)]
pub struct Pass<L: Naming> {
    count: u64,
    share: Share<L>,
}

impl<L: Naming> Model for Pass<L> {
    ghost use Rattle.std.specs.Prelude.{ℕ, ◌≡◌};

    ghost Value = { ℕ };

    ghost view = { λ p. p.count };

    ghost invariant = { λ p. (p.share.parts ≡ 1) × (p.share.amount ≡ p.count) };
}

impl<L: Naming> Pass<L> {
    /// How many entries were answered with it.
    pub fn amount(&self) -> u64
        ensures { result ≡ self.now }
    {
        self.count
    }

    // The pass of a part to which nothing was added.
    pub(crate) fn of(share: Share<L>) -> Pass<L>
        requires parts { share.parts ≡ 1 }
        requires amount { share.amount ≡ 0 }
        ensures { result ≡ 0 }
    {
        Pass { count: 0, share }
    }

    // One entry more.
    pub(crate) fn count(&mut self, book: &mut Book<L>)
        requires { book.old.total + 1 < 2 ^ 64 }
        ensures amount { self.new ≡ self.old + 1 }
        ensures total { book.new.total ≡ book.old.total + 1 }
    {
        book.audit(&mut self.share);
        book.add(&mut self.share, 1);
        self.count += 1;
    }

    // The part, with what was counted.
    pub(crate) fn into_share(self) -> Share<L>
        ensures parts { result.parts ≡ 1 }
        ensures amount { result.amount ≡ self }
    {
        let Pass { count: _, share } = self;
        share
    }
}
