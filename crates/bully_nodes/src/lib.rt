//! The nodes of a group in threads: `run_nodes` takes the turns of the operator and of each node, each actor in a
//! thread of its own, and gives the finished group, whose history `write_history` writes.
//!
//! It builds on bully_play, which says what a turn is, and on bully_group, bully_rows and bully_config. The program
//! relies on this: the history is lawful, and its crashes and recoveries are faults of the configuration.
#![tactic(auto)]

mod access;
mod jobs;
mod running;
mod writing;

pub use bully_play::{PlayFault, play};
pub use running::{Gate, NodesFault, run_nodes};
pub use writing::write_history;
