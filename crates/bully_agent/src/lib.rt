//! One node on its own: what a process keeps of it, without IO, lock, thread or clock. What it does is a step of the
//! group, whatever the other nodes are.
//!
//! It builds on bully_world, bully_agree, bully_calls and the crates below them. A program that uses it relies on four
//! things. Each call of an `Agent` is a step in every world that the agent may be a part of, under the premise that its
//! contract names. What agents give out meets the premises of `serve` and `replied`. Such a step leaves all other
//! agents parts of the same world (a law). And they agree (a law).
#![tactic(auto)]

ghost use Rattle.bully_agent.specs.Laws.{GroupGoesOn, KeepsOthers, PartsAgree, RunsStay};

mod agent;
mod applying;
mod due;
mod requests;
mod returns;

pub use agent::{Agent, FailedCall, Served};

/// The law of the others. Of every node but the one at which a step takes place (of a Run that is the callee), what is
/// kept is a part of the world that comes.
pub fn others_stay()
    ensures { KeepsOthers }
{}

/// The law of replies. A call that ran with an answer stays one that ran with it, whatever the others do and hear, and
/// until its caller loses it, takes its return, drops it or crashes. So a reply may be on its way for as long as it
/// takes.
pub fn runs_stay()
    ensures { RunsStay }
{}

/// The law of groups. Where all agents are parts of a world that a lawful list of events leads to, and one of them
/// takes a step from there, the list with that event is lawful as long as there is room for it, and all agents are
/// parts of the world to which it leads. So nothing else is needed for any number of agents than that each call meets
/// its premise.
pub fn group_goes_on()
    ensures { GroupGoesOn }
{}

/// The law of agents. Whatever lawful list of events leads to a world, any two agents that are parts of it agree: where
/// they are in Reorganization or Normal they have one coordinator, and where they are Normal they have one task.
pub fn agents_agree()
    ensures { PartsAgree }
{}
