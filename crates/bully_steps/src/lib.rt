//! The procedures of a node: the points that one may be at, what each offers, and where it goes on; and a procedure as
//! a value that is resumed, outcome by outcome.
//!
//! It builds on bully_base, bully_table, bully_calls and bully_handlers. The crates above rely on this: `next`, the
//! three first points, what a procedure wants, and where it is resumed are those of the definitions.
#![tactic(auto)]

mod driver;
mod plan_taking;
mod planning;
mod point;
mod point_kind;
mod procedure;
mod states;
mod stored_point;

pub use driver::{Choice, Driver};
pub use planning::planned_table;
pub use point::{Point, Want, begin_check, begin_recovery, begin_timeout};
pub use point_kind::PointKind;
pub use procedure::Procedure;
pub use states::{
    Announcing, Asking, Checking, Halting, Idle, Inquiring, Planned, Planning, Readying,
};
pub use stored_point::StoredPoint;
