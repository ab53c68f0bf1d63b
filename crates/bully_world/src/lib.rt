//! The group: for each node a vector, a point and a call slot; what each event does, and why one is refused.
//!
//! It builds on bully_base, bully_table, bully_calls, bully_handlers and bully_steps. The crates above rely on two
//! things: `apply` is one step of the definitions, and every world is reached by a lawful list of events.
#![tactic(auto)]

ghost use Rattle.bully_world.specs.StepOf.{StepIsComputed, LeadIsComputed, StepIsOne, LawfulIsOne};

mod causes;
mod node_state;
mod serving;
mod steps;
mod take;
mod turn;
mod world;

pub use bully_calls::{Event, Refused};
pub use causes::{is_full_for, own_cause};
pub use node_state::NodeState;
pub use take::AppliedStep;
pub use turn::{Next, StepKind};
pub use world::World;

/// The laws of steps. The function of the definitions computes exactly the steps, and where a list of events leads.
/// So an event leads from a world to one world with one answer, and a lawful list to one world.
pub fn step_laws()
    ensures step { StepIsComputed }
    ensures lead { LeadIsComputed }
    ensures one_step { StepIsOne }
    ensures one_world { LawfulIsOne }
{}
