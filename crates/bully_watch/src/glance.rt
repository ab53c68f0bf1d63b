use bully_base::{Node, Status};

/// What a glance shows of one node.
#[derive(Clone, Copy)]
pub struct Glance {
    /// How many events were applied.
    pub events: u32,
    /// The node's status.
    pub status: Status,
    /// The node that it takes as coordinator; none where it has none.
    pub coordinator: Option<Node>,
}

/// Who leads a group.
#[derive(Clone, Copy)]
pub struct Leader {
    /// How many events were applied.
    pub events: u32,
    /// The coordinator that all Normal nodes have; none where no node is Normal.
    pub node: Option<Node>,
}

/// Why a glance shows nothing, in the order of refusals.
#[derive(Clone, Copy, PartialEq, Eq, Debug)]
pub enum GlanceFault {
    /// The publisher was ended.
    Gone,
    /// The group has no such node.
    BadNode,
}
