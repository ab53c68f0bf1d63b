//! A trace that grows: each row is judged as it comes, and each change of what a node shows is printed at once.
//!
//! It builds on bully_account, which takes the rows, on bully_json, on the crates below these, and on the kit's jiff
//! for the time. Its caller explains a verdict that isn't lawful. The program relies on this: the verdict is that of
//! `check` on the rows that were read. Two things are proved of its parts: what is written last is the verdict's text
//! or what explains it, and a line of a change has what its node shows. That each change has one is tested.
#![tactic(auto)]

mod changes;
mod explainer;
mod followed;
mod following;
mod lines;

pub use explainer::Explainer;
pub use following::follow;
pub use lines::Telling;

/// From this row on it is told how many rows a trace has room for.
pub const ROOM_FROM: u32 = 900_000;

/// In how many rows that is told once.
pub const ROOM_STEP: u32 = 10_000;
