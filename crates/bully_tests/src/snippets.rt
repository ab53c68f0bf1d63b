//! The Rust of README.md, docs/USING.md and docs/NODE.md, so that the check reads it. `tests/snippets/compare` compares
//! the texts: each file of this module stands there whole, or is named there.

pub mod agents;
pub mod coordinator;
pub mod logs;
pub mod status;
pub mod watching;
