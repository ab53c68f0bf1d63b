//! A line of text for each request and each reply.
//!
//! It builds on bully_calls, on bully_rows for the words of calls and answers, and on the crates below them. A program
//! that carries lines relies on two things: a line is read as the request or the reply that it spells, or refused by
//! its first fault, and what is written is read back.
#![tactic(auto)]

ghost use Rattle.bully_lines.specs.ReadBack.{ReadsReplyBack, ReadsRequestBack, RepliesAreTold, RequestsAreTold};

mod fault;
mod fields;
mod reading;
mod words;
mod writing;

pub use fault::{ReplyFault, RequestFault};
pub use reading::{read_reply, read_request};
pub use writing::{push_reply, push_request};

/// The law of what is written and read. What [`push_request`] writes of a request that a line can tell, one between
/// nodes of the setup, means that very request to [`read_request`], and so does what [`push_reply`] writes of such a
/// reply to [`read_reply`]. Each request and each reply that is read is one that a line can tell.
pub fn read_back()
    ensures request { ReadsRequestBack }
    ensures reply { ReadsReplyBack }
    ensures requests { RequestsAreTold }
    ensures replies { RepliesAreTold }
{}
