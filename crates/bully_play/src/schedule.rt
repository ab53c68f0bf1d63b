ghost use Rattle.std.specs.Prelude.{◌≡◌, ◌≤◌, ◌<◌, ◌∷◌, ℕ, All, IfOk, MatchOption};
ghost use Rattle.bully_play.specs.Schedule.{AreLeft};

use bully_base::OutOfMemory;
use bully_config::Fault;
use std::alloc::Global;
use std::marker::Model;

/// The faults of a configuration that are still to come, in the order of their turns, and those of one turn in the
/// order of the document. Contracts see it as their list.
#[derive(Drop)]
pub struct Schedule {
    faults: Vec<Fault>,
    next: usize,
}

impl Model for Schedule {
    ghost use Rattle.std.specs.Prelude.{List, drop, length, ◌≤◌};
    ghost use Rattle.std.specs.List.Sorted.{IsNonDecreasingBy};
    ghost use Rattle.bully_config.specs.declared.config.Fault.{Fault as AnyFault};
    ghost use Rattle.bully_play.specs.Schedule.{turn_of};

    ghost Value = { List AnyFault };

    ghost view = { λ s. drop s.next s.faults.items };

    ghost invariant = { λ s. IsNonDecreasingBy turn_of s.faults.items × (s.next ≤ length s.faults.items) };
}

impl Schedule {
    /// All of these faults. Refused where an allocation fails.
    pub fn new(alloc: Global, faults: &[Fault]) -> Result<Schedule, OutOfMemory>
        ensures { IfOk result (λ left. (number : ℕ) → AreLeft faults.now number left) }
    {
        let mut faults = Vec::from_slice(alloc, faults)?;
        faults.sort_by_key(|fault| fault.at)?;
        Ok(Schedule { faults, next: 0 })
    }

    /// Takes the next fault, where its turn is this one or an earlier one.
    pub fn take_until(&mut self, turn: u32) -> Option<Fault>
        ensures { MatchOption result
            ((self.new ≡ self.old) × All (λ fault. turn < fault.at) self.old)
            (λ fault. (self.old ≡ fault ∷ self.new) × (fault.at ≤ turn)) }
    {
        if self.next >= self.faults.len() {
            return None;
        }
        let fault = self.faults[self.next];
        if fault.at > turn {
            return None;
        }
        self.next += 1;
        Some(fault)
    }
}
