//! What C may call: each export is the call of bully_agent, bully_replica, bully_rebalance, bully_member, bully_config,
//! bully_trace or bully_table behind it, of arguments that it tests.
//!
//! It builds on these, on the crates below them, and on bully_lines for requests and replies. `include/bully.h` says
//! what each export does, and which statuses it returns, in their order. `bindings/c/bully.c` comes between the exports
//! and C.
#![tactic(auto)]

mod agent_handle;
pub mod agents;
pub mod configurations;
mod held_agent;
mod leases;
mod logs;
mod member_handle;
mod member_shown;
mod member_told;
pub mod members;
mod old_tables;
mod openings;
mod raw_box;
mod rebalances;
mod replica_handle;
pub mod replicas;
pub mod requests;
mod shown;
mod status;
mod tables;
pub mod traces;

pub use agent_handle::AgentHandle;
pub use leases::CLease;
pub use member_handle::MemberHandle;
pub use member_shown::{CMember, CStep};
pub use replica_handle::ReplicaHandle;
pub use replicas::CGroup;
pub use shown::CState;
pub use tables::CSetup;
pub use traces::CVerdict;
