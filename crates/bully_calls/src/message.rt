use crate::call::{Answer, Call};
use bully_base::Node;
use bully_table::Table;

/// A call on its way from its caller to its callee.
#[derive(Drop, Debug)]
pub struct Request {
    pub caller: Node,
    /// Which of the caller's calls it is; a later one has a higher number.
    pub number: u32,
    pub call: Call,
    /// The table of a Ready; the other calls carry none.
    pub table: Option<Table>,
}

/// An answer on its way back to the caller.
#[derive(Clone, Copy)]
pub struct Reply {
    pub caller: Node,
    /// That of the request.
    pub number: u32,
    pub answer: Answer,
}
