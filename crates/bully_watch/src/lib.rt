//! The history of a group: what was taken in, entry by entry, who may take it, and observers of it that never wait.
//!
//! It builds on bully_world, bully_agree and the crates below them, and on the kit's `left_right`. The crates above
//! rely on three things. A history is as defined, with lawful events. Entries can be distinguished. And each look is
//! the view after a history of the publisher's setup, which goes on from what its observer saw or learned.
#![tactic(auto)]

mod entry;
mod glance;
mod knowledge;
mod observer;
mod publisher;
mod sight;
mod told;
mod world_copy;

pub use entry::Entry;
pub use glance::{Glance, GlanceFault, Leader};
pub use knowledge::PublisherId;
pub use observer::{LookFault, Observer};
pub use publisher::{OpenFault, Publisher};
pub use told::Told;
