//! Nodes on their own over simulated networks, and what is made of traces beside `bully check`.

mod agents;
pub mod following;
pub mod learning;
pub mod network;
mod random;
pub mod simulating;
