use crate::kind::{EventKind, NodeEventKind};
use bully_base::{Node, OutOfMemory};
use bully_table::Table;

/// One step of the group. Each names the node whose event it is, or, for `Run`, whose call runs.
#[derive(Drop, Debug)]
pub enum Event {
    Recover(Node),
    Crash(Node),
    Check(Node),
    Timeout(Node),
    Start(Node),
    Run(Node),
    Lose(Node),
    Return(Node),
    Drop(Node),
    Move(Node),
    Plan(Node, Table),
}

/// Why an event is refused, in the one order of refusals. The rule: docs/ALGORITHM.md.
#[derive(Clone, Copy, PartialEq, Eq, Debug)]
pub enum Refused {
    /// As many events as the setup bounds were applied.
    Full,
    /// The named node is above the setup's.
    BadNode,
    /// The named node is Down; of every event but Recover.
    IsDown,
    /// Recover of a node that isn't Down.
    IsUp,
    /// Check or Timeout at a point other than Idle.
    Busy,
    /// Start, Move or Plan where the point doesn't offer it.
    NoStep,
    /// Start, Move or Plan at a node whose slot is full.
    SlotBusy,
    /// Run without a sent call, Lose without a sent call or one that ran, Return without one that ran or failed,
    /// Drop without a call.
    NoCall,
    /// Run of a call whose callee is Down.
    CalleeDown,
    /// Lose of a call whose callee isn't Down.
    CalleeUp,
    /// Plan with a table of another number of partitions, or one that isn't balanced over the node and its up set.
    BadTable,
    /// Drop of a live call.
    NotOrphan,
}

impl Refused {
    ghost use Rattle.std.specs.Prelude.{◌≡◌};
    ghost use Rattle.bully_calls.specs.Events.{refusal_number, refusal_word};

    /// Its word, as a verdict spells it.
    pub fn word(self) -> &'static str
        ensures { result.now ≡ refusal_word self }
    {
        match self {
            Refused::Full => "Full",
            Refused::BadNode => "BadNode",
            Refused::IsDown => "IsDown",
            Refused::IsUp => "IsUp",
            Refused::Busy => "Busy",
            Refused::NoStep => "NoStep",
            Refused::SlotBusy => "SlotBusy",
            Refused::NoCall => "NoCall",
            Refused::CalleeDown => "CalleeDown",
            Refused::CalleeUp => "CalleeUp",
            Refused::BadTable => "BadTable",
            Refused::NotOrphan => "NotOrphan",
        }
    }

    /// Its number in the order of refusals, from 1.
    pub fn number(self) -> u32
        ensures { result ≡ refusal_number self }
    {
        match self {
            Refused::Full => 1,
            Refused::BadNode => 2,
            Refused::IsDown => 3,
            Refused::IsUp => 4,
            Refused::Busy => 5,
            Refused::NoStep => 6,
            Refused::SlotBusy => 7,
            Refused::NoCall => 8,
            Refused::CalleeDown => 9,
            Refused::CalleeUp => 10,
            Refused::BadTable => 11,
            Refused::NotOrphan => 12,
        }
    }
}

impl Event {
    ghost use Rattle.std.specs.Prelude.{◌≡◌, ◌↔◌, IsTrue, IfOk};
    ghost use Rattle.bully_calls.specs.Events.{kind_of, node_of};

    /// The node that the event names.
    pub fn node(&self) -> Node
        ensures { result ≡ node_of self.now }
    {
        match self {
            Event::Recover(node)
            | Event::Crash(node)
            | Event::Check(node)
            | Event::Timeout(node)
            | Event::Start(node)
            | Event::Run(node)
            | Event::Lose(node)
            | Event::Return(node)
            | Event::Drop(node)
            | Event::Move(node)
            | Event::Plan(node, _) => *node,
        }
    }

    /// What the event is, but for its node and for the table of a plan.
    #[inline(always)]
    pub fn kind(&self) -> EventKind
        ensures { result ≡ kind_of self.now }
    {
        let kind = match self {
            Event::Recover(_) => NodeEventKind::Recover,
            Event::Crash(_) => NodeEventKind::Crash,
            Event::Check(_) => NodeEventKind::Check,
            Event::Timeout(_) => NodeEventKind::Timeout,
            Event::Start(_) => NodeEventKind::Start,
            Event::Run(_) => NodeEventKind::Run,
            Event::Lose(_) => NodeEventKind::Lose,
            Event::Return(_) => NodeEventKind::Return,
            Event::Drop(_) => NodeEventKind::Drop,
            Event::Move(_) => NodeEventKind::Move,
            Event::Plan(_, _) => return EventKind::Plan,
        };
        EventKind::Node(kind)
    }

    /// The same event. Only a plan takes memory, for its table; refused where an allocation fails.
    pub fn copy(&self) -> Result<Event, OutOfMemory>
        ensures { IfOk result (λ event. event ≡ self.now) }
    {
        Ok(match self {
            Event::Recover(node) => Event::Recover(*node),
            Event::Crash(node) => Event::Crash(*node),
            Event::Check(node) => Event::Check(*node),
            Event::Timeout(node) => Event::Timeout(*node),
            Event::Start(node) => Event::Start(*node),
            Event::Run(node) => Event::Run(*node),
            Event::Lose(node) => Event::Lose(*node),
            Event::Return(node) => Event::Return(*node),
            Event::Drop(node) => Event::Drop(*node),
            Event::Move(node) => Event::Move(*node),
            Event::Plan(node, table) => Event::Plan(*node, table.copy()?),
        })
    }

    /// Whether both are the same event; plans, where their tables have the same owners.
    pub fn is_same(&self, other: &Event) -> bool
        ensures { IsTrue result ↔ (self.now ≡ other.now) }
    {
        match (self, other) {
            (Event::Recover(node), Event::Recover(same))
            | (Event::Crash(node), Event::Crash(same))
            | (Event::Check(node), Event::Check(same))
            | (Event::Timeout(node), Event::Timeout(same))
            | (Event::Start(node), Event::Start(same))
            | (Event::Run(node), Event::Run(same))
            | (Event::Lose(node), Event::Lose(same))
            | (Event::Return(node), Event::Return(same))
            | (Event::Drop(node), Event::Drop(same))
            | (Event::Move(node), Event::Move(same)) => node == same,
            (Event::Plan(node, table), Event::Plan(same, other)) => node == same && table == other,
            _ => false,
        }
    }
}
