//! The five remote calls, what they are answered, the one call slot of a node, and who waits for whom; the events of a
//! group, what is so of each kind of them, and why one is refused; and the requests and replies that nodes on their own
//! tell each other, as plain data.
//!
//! It builds on bully_base and bully_table. The crates above see a slot as the call in it, if any, with its phase and
//! with the caller's generation at its start, and the callers that wait as a set for each callee. bully_world, which
//! says what each event does and which cause refuses it, has the names of events, too.
#![tactic(auto)]

mod call;
mod event;
mod kind;
mod message;
mod slot;
mod waiting;
mod words;

pub use call::{Answer, Call, CallKind, Outcome, PendingCall, Phase, Tag};
pub use event::{Event, Refused};
pub use kind::{EVERY_EVENT_KIND, EventKind, KindFacts, NodeEventKind, Saying, Whose};
pub use message::{Reply, Request};
pub use slot::Slot;
pub use waiting::Waiting;
pub use words::is_word;
