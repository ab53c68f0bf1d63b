//! A group under one lock: its world, its history, the book that counts the entries, and the publisher that shows them.
//!
//! It builds on bully_watch, bully_agree and the crates below them. The crates above rely on two things: each step is
//! one entry of the history and of its seat, answered as the definitions say, and the seats of a finished group have
//! all of the history.
#![tactic(auto)]

mod closed;
mod group;
mod locked;
mod naming;
mod pass;
mod seat;

pub use closed::Closed;
pub use group::Group;
pub use locked::Locked;
pub use locked::finish::FinishFault;
pub use locked::own_loop::Turn;
pub use locked::publish::PublishFault;
pub use locked::shown::ViewFault;
pub use locked::step::StepFault;
pub use locked::turn::NodeTurn;
pub use naming::Naming;
pub use pass::Pass;
pub use seat::Seat;
