//! Events that name a node and no more.
ghost use Rattle.std.specs.Prelude.{◌≡◌};
ghost use Rattle.bully_calls.specs.Events.{event_at};

use bully_base::Node;
use bully_calls::{Event, NodeEventKind};

/// An event that names a node and no more, as a row of two fields tells it.
#[derive(Clone, Copy)]
pub struct NodeEvent {
    pub kind: NodeEventKind,
    pub node: Node,
}

impl NodeEvent {
    /// The event.
    pub fn event(self) -> Event
        ensures { result ≡ event_at self.kind self.node }
    {
        self.kind.event(self.node)
    }
}
