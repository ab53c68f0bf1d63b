//! The words of the program `bully`: what they ask for, as `clap` reads them.
//!
//! It builds on clap alone. The program relies on this: what `action_of` gives is what clap finds in the words.
#![tactic(auto)]

mod action;
mod command;
mod help;
mod shells;

pub use action::{Action, DrawWords, ExplainWords, TableWords, TraceWords, action_of};
pub use shells::{Shell, completion};
