//! The two copies of the world, and the rule over the shown one and what each seat knows.
ghost use Rattle.std.specs.Prelude.{◌≡◌, IfOk};
ghost use Rattle.std.specs.Arc.{arc_value};
ghost use Rattle.left_right.specs.Sides.{view};
ghost use Rattle.bully_watch.specs.CopyRule.{applied_to, no_knowledge, copy_of};

use crate::Entry;
use crate::knowledge::Knowledge;
use atomic_table::{Join, Split};
use bully_world::World;
use crossbeam_utils::rule::{Outcome, Protocol};
use left_right::Absorb;
use left_right::reader::{Factory, Reader};
use left_right::writer::Writer;
use std::alloc::AllocError;
use std::marker::{Brand, Model, PhantomData};

/// One of the two copies.
#[derive(Drop)]
pub struct WorldCopy {
    pub world: World,
}

/// What both copies have in common. Contracts alone speak of it; no value is made.
pub struct Common {
    world: World,
}

impl Model for Common {
    ghost use Rattle.bully_watch.specs.CopyRule.{WorldCopyState, copy_of};

    ghost Value = { WorldCopyState };

    ghost view = { λ c. copy_of c.world };
}

impl Absorb<Entry> for WorldCopy {
    type State = Common;

    ghost use Rattle.bully_watch.specs.CopyRule.{applied_to, copy_of};

    ghost state = { λ p. copy_of p.world };

    ghost applied = { applied_to };

    ghost never_fails = { Unit {0} };

    fn absorb_first(&mut self, operation: &Entry, _other: &WorldCopy) -> Result<(), AllocError> {
        let _answer = self.world.apply(&operation.event);
        Ok(())
    }
}

/// The rule of a publisher and its observers.
pub struct Observing;

impl Protocol<WorldCopy, Knowledge> for Observing {
    ghost use Rattle.bully_watch.specs.CopyRule.{IsPublished, no_knowledge};

    ghost holds = { λ p. IsPublished p.world };

    ghost first = { no_knowledge };
}

/// A look: the reader then knows the whole history so far.
pub struct Look;

impl Outcome<WorldCopy, Knowledge> for Look {
    ghost use Rattle.bully_watch.specs.CopyRule.{SeesAll};

    ghost then = { λ v x y w. SeesAll v y.world w };
}

/// Names what the writer knows once it has shown more. Each publish picks it.
pub trait NextKnowledge {
    ghost use Rattle.bully_watch.specs.declared.knowledge.Knowledge.{Knowledge};

    ghost knowledge: { Knowledge };
}

impl NextKnowledge for Brand {
    ghost use Rattle.bully_watch.specs.CopyRule.{no_knowledge};

    ghost knowledge = { no_knowledge };
}

/// A publish: the writer then knows just what `N` names.
pub struct Publish<N> {
    next: PhantomData<N>,
}

impl<N: NextKnowledge> Outcome<WorldCopy, Knowledge> for Publish<N> {
    ghost use Rattle.std.specs.Prelude.{◌≡◌};

    ghost then = { λ v x y w. w ≡ N.knowledge };
}

/// Telling: both know what the writer knew.
pub struct Tell;

impl Split<Knowledge> for Tell {
    ghost left = { λ v. v };

    ghost right = { λ v. v };
}

/// Learning: a new reader knows what it is told, and the note is spent.
pub struct Learn;

impl Join<Knowledge> for Learn {
    ghost use Rattle.bully_watch.specs.CopyRule.{no_knowledge};

    ghost both = { λ v w. w };

    ghost spent = { no_knowledge };
}

/// A reader of the shown copy.
pub type CopyReader = Reader<WorldCopy, Knowledge, Observing>;

/// What makes readers of the shown copy.
pub type CopyFactory = Factory<WorldCopy, Knowledge, Observing>;

/// The writer of both copies.
pub type CopyWriter = Writer<WorldCopy, Entry, Knowledge, Observing>;

/// A new reader, which knows nothing yet. Refused where each place is in use.
pub fn new_reader(factory: &CopyFactory) -> Result<CopyReader, AllocError>
    ensures knowledge { IfOk result (λ r. view r.place ≡ no_knowledge) }
    ensures table { IfOk result (λ r. r.place.table_id ≡ (arc_value factory.now.board).shared.table_id) }
{
    factory.reader()
}
