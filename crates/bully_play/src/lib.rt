//! A group that is played on one thread: `play` takes the turns of the operator and of each node, one after the other,
//! and writes the trace. What a turn is is defined here once, over any [`Backend`]: here that is a world whose events
//! are recorded.
//!
//! It builds on bully_steps, bully_world, bully_rows and bully_config, and needs no lock and no group. The program and
//! bully_nodes rely on two things: what is played is the text of a lawful trace, whose crashes and recoveries are
//! faults of the configuration; and a turn does on their backend what its contract says.
#![tactic(auto)]

ghost use Rattle.bully_play.specs.Play.{LawfulTold};

mod backend;
mod playing;
mod recording;
mod schedule;
mod trace;
mod turns;

pub use backend::Backend;
pub use playing::{PlayFault, play};
pub use schedule::Schedule;
pub use trace::trace_with;
pub use turns::{take_node_turn, take_operator_turn};

/// The law of what is played. The trace of each lawful list of events is one that a text can tell: what
/// [`bully_rows::write_trace`] writes of it means that very trace.
pub fn lawful_told()
    ensures { LawfulTold }
{}
