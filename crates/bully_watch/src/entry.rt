ghost use Rattle.std.specs.Prelude.{◌≡◌, ◌↔◌, IsTrue, IfOk};

use bully_base::OutOfMemory;
use bully_calls::Answer;
use bully_world::Event;

/// One event of a group's history.
#[derive(Drop, Debug)]
pub struct Entry {
    /// Whose event it is: 0 is the operator, and else the number of a node. The rule: docs/ALGORITHM.md.
    pub actor: u16,
    /// What was applied.
    pub event: Event,
    /// What it was answered.
    pub answer: Answer,
}

impl Entry {
    /// The same entry. Only a plan takes memory, for its table; refused where an allocation fails.
    pub fn copy(&self) -> Result<Entry, OutOfMemory>
        ensures { IfOk result (λ entry. entry ≡ self.now) }
    {
        Ok(Entry {
            actor: self.actor,
            event: self.event.copy()?,
            answer: self.answer,
        })
    }

    /// Whether both are the same entry: of one actor, with one event and one answer.
    pub fn is_same(&self, other: &Entry) -> bool
        ensures { IsTrue result ↔ (self.now ≡ other.now) }
    {
        self.actor == other.actor && self.answer == other.answer && self.event.is_same(&other.event)
    }
}
