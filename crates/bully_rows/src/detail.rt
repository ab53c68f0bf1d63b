//! What a row of version 3 may say beside an event of a call.
ghost use Rattle.std.specs.Prelude.{◌≡◌};
ghost use Rattle.bully_calls.specs.Events.{event_at};
ghost use Rattle.bully_rows.specs.EventsTold.{answered, event_of_detailed, unanswered};

use bully_base::Node;
use bully_calls::{Answer, Call, Event, NodeEventKind};

/// What is said beside an event of a call: the kind of the event, the call, and the answer, where the table of events
/// has one told. What that table doesn't have told isn't so of any world, and no row of a text means it.
#[derive(Clone, Copy, Debug)]
pub struct Detail {
    pub kind: NodeEventKind,
    pub call: Call,
    pub answer: Option<Answer>,
}

/// An event of a call of this node, and what is said beside it.
#[derive(Clone, Copy, Debug)]
pub struct DetailedEvent {
    pub node: Node,
    pub detail: Detail,
}

impl Detail {
    /// The call, and no answer.
    pub fn unanswered(kind: NodeEventKind, call: Call) -> Detail
        ensures { result ≡ unanswered kind call }
    {
        Detail {
            kind,
            call,
            answer: None,
        }
    }

    /// The call and the answer.
    pub fn answered(kind: NodeEventKind, call: Call, answer: Answer) -> Detail
        ensures { result ≡ answered kind call answer }
    {
        Detail {
            kind,
            call,
            answer: Some(answer),
        }
    }

    /// The event of this node of which it is said.
    pub fn event(&self, node: Node) -> Event
        ensures { result ≡ event_at self.now.kind node }
    {
        self.kind.event(node)
    }
}

impl DetailedEvent {
    /// The event.
    pub fn event(&self) -> Event
        ensures { result ≡ event_of_detailed self.now }
    {
        self.detail.event(self.node)
    }
}
