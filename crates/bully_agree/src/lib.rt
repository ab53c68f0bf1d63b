//! What all nodes of a group agree on, whatever lawful list of events has happened; views of a group, and runs.
//!
//! It builds on bully_world and the crates below it. The crates above rely on the law of agreement, on the law of
//! causes, and on what runs give; and on this: every `View` agrees, and is of a world that a lawful list leads to.
#![tactic(auto)]

ghost use Rattle.std.specs.Prelude.{◌≡◌, ◌≢◌, ◌<◌, ◌≤◌, ◌↔◌, ◌++◌, ℕ, List, None};
ghost use Rattle.bully_agree.specs.Agreement.{Agreement};
ghost use Rattle.bully_agree.specs.Fencing.{Planned, IsLastPlan, GoesBy, GoAlike};
ghost use Rattle.bully_base.specs.declared.node.Status.TheVariants.{Normal};
ghost use Rattle.bully_base.specs.Setup.{Setup};
ghost use Rattle.bully_calls.specs.declared.call.Answer.{Answer};
ghost use Rattle.bully_world.specs.Cause.{cause};
ghost use Rattle.bully_world.specs.Lawful.{IsLawful};
ghost use Rattle.bully_world.specs.Step.{Step};
ghost use Rattle.bully_world.specs.World.{World, vector};
ghost use Rattle.bully_calls.specs.declared.event.Event.{Event};

mod leading;
mod runs;
mod views;
mod walks;
mod whole_calls;

pub use leading::leader;
pub use runs::{RunFault, run};
pub use views::View;
pub use views::making::view;
pub use walks::Walk;
pub use whole_calls::{WholeFault, run_whole};

/// The agreement law. Whatever lawful list of events leads to a world, its nodes agree there: all that are in
/// Reorganization or Normal have one coordinator, and all that are Normal have one task. Halts, crashes and
/// recoveries may stand between the start, the run and the return of any call, and an orphan may run late or be
/// dropped.
pub fn agreement()
    ensures { (setup : Setup) (events : List Event) (answers : List Answer) (w : World)
        → IsLawful setup events answers w → Agreement w }
{}

/// The law of causes. In a world that a lawful list leads to, an event has no cause exactly where it is
/// possible there and fewer events than the bound were applied.
pub fn causes()
    ensures { (setup : Setup) (events : List Event) (answers : List Answer) (w : World) (count : ℕ) (e : Event)
        → IsLawful setup events answers w
        → ((cause setup w count e ≡ None)
        ↔ ((count < setup.events_max) × (w' : World) × (a : Answer) × Step setup w e w' a)) }
{}

/// The law of plans. Where a node may plan, no node is Normal: nobody does its part by an older table then.
pub fn plans_alone()
    ensures { (setup : Setup) (events : List Event) (answers : List Answer) (w w' : World) (i j : ℕ) (table : List ℕ)
        (a : Answer)
        → IsLawful setup events answers w → Step setup w (Event.Plan i table) w' a → (vector w j).status ≢ Normal }
{}

/// The law of the last plan. Where a lawful list leads to a world and a node is Normal there, the list has a last plan,
/// whose planner is the node's coordinator, and whose table is its task. And a list has one last plan.
pub fn last_plan()
    ensures goes_by { (setup : Setup) (events : List Event) (answers : List Answer) (w : World) (i : ℕ)
        → IsLawful setup events answers w → (vector w i).status ≡ Normal
        → (p : Planned) × IsLastPlan events p × GoesBy w i p }
    ensures one { (events : List Event) (p q : Planned) → IsLastPlan events p → IsLastPlan events q → p ≡ q }
{}

/// The law of fencing, of the tokens of last plans. Of two Normal nodes, one in the world of a lawful list and one in
/// the world of a longer list that starts with it, the later one's token is no lower; and where the tokens are equal,
/// both have the same coordinator and the same task. So a resource that keeps the highest token it has seen, and
/// refuses lower ones, is used by one coordinator and one table under one token, and by no older plan after a newer
/// one.
pub fn tokens_fence()
    ensures { (setup : Setup) (events more : List Event) (answers others : List Answer) (w v : World) (i j : ℕ)
        (p q : Planned)
        → IsLawful setup events answers w → IsLawful setup (events ++ more) others v
        → (vector w i).status ≡ Normal → (vector v j).status ≡ Normal
        → IsLastPlan events p → IsLastPlan (events ++ more) q
        → (p.token ≤ q.token) × (p.token ≡ q.token → GoAlike w i v j) }
{}
