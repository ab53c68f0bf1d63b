use crate::saying::{begin, push_change, push_shown};
use crate::seen::Seen;
use bully_agree::Walk;
use bully_base::{Node, OutOfMemory, Setup};
use bully_rows::Row;
use bully_world::Event;
use std::alloc::Global;
use std::marker::Model;

/// What writes the rows of a lawful trace with everything said, one by one. Contracts see the world that they were
/// taken to.
#[derive(Drop)]
pub struct Annotator {
    walk: Walk,
    // The vector that an event may change, before it.
    seen: Seen,
}

impl Model for Annotator {
    ghost use Rattle.std.specs.Prelude.{◌≡◌};
    ghost use Rattle.bully_world.specs.State.{WorldState};

    ghost Value = { WorldState };

    ghost view = { λ a. a.walk };

    ghost invariant = { λ a. a.seen.room ≡ a.walk.setup.partitions };
}

impl Annotator {
    ghost use Rattle.std.specs.Prelude.{◌≡◌, ◌≤◌, ◌∷◌, ℕ, List, None, IfOk, string_bytes};
    ghost use Rattle.bully_annotate.specs.Says.{Adds, IsLawfulFrom, Says, Shows, Steps};
    ghost use Rattle.bully_rows.specs.declared.trace.Row.{Row as RowState};
    ghost use Rattle.bully_world.specs.State.{cause_in, world_of};
    ghost use Rattle.bully_world.specs.World.{World as WorldOf, first_world};

    /// Before any row. Refused where an allocation fails.
    pub fn new(alloc: Global, setup: &Setup) -> Result<Annotator, OutOfMemory>
        ensures setup { IfOk result (λ a. a.setup ≡ setup.now) }
        ensures first { IfOk result (λ a. world_of a ≡ first_world setup.now) }
        ensures none { IfOk result (λ a. a.events ≡ 0) }
    {
        Ok(Annotator {
            walk: Walk::new(alloc, *setup)?,
            seen: Seen::new(alloc, setup)?,
        })
    }

    /// Appends the row with everything said, and tells how many rows that is. Rows that aren't lawful are written up to
    /// there.
    pub fn say(&mut self, text: &mut String, row: &Row) -> Result<u32, OutOfMemory>
        ensures said { (number : ℕ) (more : List RowState) (after : ℕ) (w : WorldOf)
            → IsLawfulFrom self.old number (row.now ∷ more) after w
            → IfOk result (Says self.old self.new number row.now more after w
            (Adds (string_bytes text.old) (string_bytes text.new))) }
        ensures few { IfOk result (λ count. count ≤ 2) }
    {
        match row {
            Row::Event(event) => self.say_event(text, event),
            Row::Detailed(detailed) => self.say_event(text, &detailed.event()),
            Row::Claim(claim) => self.show(text, claim.node),
            Row::Whole(whole) => self.show(text, whole.claim().node),
        }
    }

    // Takes an event, where nothing refuses it, and appends what it leads to.
    fn say_event(&mut self, text: &mut String, event: &Event) -> Result<u32, OutOfMemory>
        ensures steps { cause_in self.old event.now ≡ None
            → IfOk result (Steps self.old self.new event.now (string_bytes text.old) (string_bytes text.new)) }
        ensures few { IfOk result (λ count. count ≤ 2) }
    {
        if self.walk.world().cause(event).is_some() {
            return Ok(0);
        }
        self.step(text, event)
    }

    // Takes an event that nothing refuses, and appends what it leads to.
    fn step(&mut self, text: &mut String, event: &Event) -> Result<u32, OutOfMemory>
        requires { cause_in self.old event.now ≡ None }
        ensures steps { IfOk result
            (Steps self.old self.new event.now (string_bytes text.old) (string_bytes text.new)) }
        ensures few { IfOk result (λ count. count ≤ 2) }
    {
        let place = begin(text, self.walk.world(), &mut self.seen, event)?;
        match self.walk.apply(event) {
            Ok(_) => push_change(text, self.walk.world(), &self.seen, place),
            Err(_) => Ok(0),
        }
    }

    // Appends the vector of the node, where the group has it.
    fn show(&self, text: &mut String, node: Node) -> Result<u32, OutOfMemory>
        ensures shows { IfOk result (Shows self.now node (string_bytes text.old) (string_bytes text.new)) }
        ensures few { IfOk result (λ count. count ≤ 2) }
    {
        let world = self.walk.world();
        if node.number() > world.setup().nodes() {
            return Ok(0);
        }
        push_shown(text, world, node)?;
        Ok(1)
    }
}
