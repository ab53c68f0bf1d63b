//! What the commands answer to tools: objects of JSON, each a line. docs/FORMATS.md lists their keys.
//!
//! It builds on bully_table, bully_rows, bully_world and bully_trace. The text of each object is proved byte for byte:
//! the verdict, and of each node what its vector has; the plan; the sheet in quotes. That tools read back what was
//! written is tested.
#![tactic(auto)]

mod changes;
mod plans;
mod values;
mod verdicts;

pub use changes::{push_change, push_room};
pub use plans::plan_line;
pub use verdicts::{sheet_line, verdict_line};
