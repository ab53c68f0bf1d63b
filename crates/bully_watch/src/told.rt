ghost use Rattle.std.specs.Prelude.{◌≡◌, length, true};
ghost use Rattle.left_right.specs.Sides.{view};
ghost use Rattle.bully_watch.specs.CopyRule.{prefix_of};

use crate::world_copy::CopyReader;
use std::marker::Model;

/// What a publish told: the history that was shown. Contracts see it as its publisher and those entries.
/// Dropped or learned, it makes room for one more (see [`Publisher::publish`](crate::Publisher::publish)).
#[derive(Drop)]
pub struct Told {
    reader: CopyReader,
    count: usize, // how many entries it stands for
}

impl Model for Told {
    ghost use Rattle.std.specs.Prelude.{◌≡◌, length, true};
    ghost use Rattle.left_right.specs.Sides.{view as seat_view};
    ghost use Rattle.bully_watch.specs.Observation.{Prefix};
    ghost use Rattle.bully_watch.specs.CopyRule.{prefix_of};

    ghost Value = { Prefix };

    ghost view = { λ t. prefix_of (seat_view t.reader.place) };

    ghost invariant = { λ t. ((seat_view t.reader.place).is_named ≡ true)
        × (t.count ≡ length (seat_view t.reader.place).seen) };
}

impl Told {
    // What the reader learned, which is so many entries.
    pub(crate) fn of(reader: CopyReader, count: usize) -> Told
        requires named { (view reader.place).is_named ≡ true }
        requires count { count ≡ length (view reader.place).seen }
        ensures { result ≡ prefix_of (view reader.place) }
    {
        Told { reader, count }
    }

    pub(crate) fn count(&self) -> usize
        ensures { result ≡ length self.now.entries }
    {
        self.count
    }

    pub(crate) fn into_reader(self) -> CopyReader
        ensures named { (view result.place).is_named ≡ true }
        ensures prefix { prefix_of (view result.place) ≡ self }
    {
        let Told { reader, count: _ } = self;
        reader
    }
}
