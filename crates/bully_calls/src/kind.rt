//! What an event is, and the one table of events.
ghost use Rattle.std.specs.Prelude.{◌≡◌};
ghost use Rattle.bully_calls.specs.declared.kind.EventKind.{EventKind};
ghost use Rattle.bully_calls.specs.Events.{event_at, event_of_kind, kind_named, saying_of, whose_of, word_of};

use crate::Event;
use crate::words::is_word;
use bully_base::Node;

/// The kind of an event that names a node and no more.
#[derive(Clone, Copy, PartialEq, Eq, Debug)]
pub enum NodeEventKind {
    Recover,
    Crash,
    Check,
    Timeout,
    Start,
    Run,
    Lose,
    Return,
    Drop,
    Move,
}

/// What an event is, but for its node and for the table of a plan.
#[derive(Clone, Copy, PartialEq, Eq)]
pub enum EventKind {
    Node(NodeEventKind),
    Plan,
}

/// Whose an event is.
#[derive(Clone, Copy)]
pub enum Whose {
    /// The operator's.
    Operator,
    /// The node's that it names.
    Named,
    /// The callee's of the call in the slot of the node that it names.
    Callee,
}

/// What a row may say beside an event.
#[derive(Clone, Copy, PartialEq, Eq)]
pub enum Saying {
    /// Nothing: it is no event of a call.
    Nothing,
    /// The call that the node's point offers.
    Offered,
    /// The call in the node's slot.
    Held,
    /// The call in the slot, and what it is answered where it runs.
    Replied,
    /// The call in the slot, and what it brings where it returns.
    Brought,
}

/// What is so of all events of a kind: the word of their rows, whose they are, and what a row may say beside one.
#[derive(Clone, Copy)]
pub struct KindFacts {
    pub word: &'static str,
    pub whose: Whose,
    pub saying: Saying,
}

// These facts.
// (inlined, as `NodeEventKind::facts` is)
#[inline(always)]
fn facts(word: &'static str, whose: Whose, saying: Saying) -> KindFacts
    ensures word { result.word.now ≡ word.now }
    ensures whose { result.whose ≡ whose }
    ensures saying { result.saying ≡ saying }
{
    KindFacts {
        word,
        whose,
        saying,
    }
}

impl NodeEventKind {
    /// The table of events: what is so of those of this kind.
    // (inlined, so that what reads a word compares it with constants)
    #[inline(always)]
    pub fn facts(self) -> KindFacts
        ensures word { result.word.now ≡ word_of (EventKind.Node self) }
        ensures whose { result.whose ≡ whose_of (EventKind.Node self) }
        ensures saying { result.saying ≡ saying_of (EventKind.Node self) }
    {
        match self {
            NodeEventKind::Recover => facts("recover", Whose::Operator, Saying::Nothing),
            NodeEventKind::Crash => facts("crash", Whose::Operator, Saying::Nothing),
            NodeEventKind::Check => facts("check", Whose::Named, Saying::Nothing),
            NodeEventKind::Timeout => facts("timeout", Whose::Named, Saying::Nothing),
            NodeEventKind::Start => facts("start", Whose::Named, Saying::Offered),
            NodeEventKind::Run => facts("run", Whose::Callee, Saying::Replied),
            NodeEventKind::Lose => facts("lose", Whose::Named, Saying::Held),
            NodeEventKind::Return => facts("return", Whose::Named, Saying::Brought),
            NodeEventKind::Drop => facts("drop", Whose::Named, Saying::Held),
            NodeEventKind::Move => facts("move", Whose::Named, Saying::Nothing),
        }
    }

    /// The event of this kind at the node.
    #[inline(always)]
    pub fn event(self, node: Node) -> Event
        ensures { result ≡ event_at self node }
    {
        match self {
            NodeEventKind::Recover => Event::Recover(node),
            NodeEventKind::Crash => Event::Crash(node),
            NodeEventKind::Check => Event::Check(node),
            NodeEventKind::Timeout => Event::Timeout(node),
            NodeEventKind::Start => Event::Start(node),
            NodeEventKind::Run => Event::Run(node),
            NodeEventKind::Lose => Event::Lose(node),
            NodeEventKind::Return => Event::Return(node),
            NodeEventKind::Drop => Event::Drop(node),
            NodeEventKind::Move => Event::Move(node),
        }
    }

    /// The word of its row.
    #[inline(always)]
    pub fn word(self) -> &'static str
        ensures { result.now ≡ word_of (EventKind.Node self) }
    {
        self.facts().word
    }

    /// What its row may say beside it.
    #[inline(always)]
    pub fn saying(self) -> Saying
        ensures { result ≡ saying_of (EventKind.Node self) }
    {
        self.facts().saying
    }

    /// The kind of this word.
    // (the words that come most are tried first; inlined, so that each reader of rows has a copy of its own)
    #[inline(always)]
    pub fn named(word: &[u8]) -> Option<NodeEventKind>
        ensures { result ≡ kind_named word.now }
    {
        if is_word(word, NodeEventKind::Start.word()) {
            Some(NodeEventKind::Start)
        } else if is_word(word, NodeEventKind::Run.word()) {
            Some(NodeEventKind::Run)
        } else if is_word(word, NodeEventKind::Return.word()) {
            Some(NodeEventKind::Return)
        } else if is_word(word, NodeEventKind::Check.word()) {
            Some(NodeEventKind::Check)
        } else if is_word(word, NodeEventKind::Timeout.word()) {
            Some(NodeEventKind::Timeout)
        } else if is_word(word, NodeEventKind::Move.word()) {
            Some(NodeEventKind::Move)
        } else if is_word(word, NodeEventKind::Lose.word()) {
            Some(NodeEventKind::Lose)
        } else if is_word(word, NodeEventKind::Drop.word()) {
            Some(NodeEventKind::Drop)
        } else if is_word(word, NodeEventKind::Crash.word()) {
            Some(NodeEventKind::Crash)
        } else if is_word(word, NodeEventKind::Recover.word()) {
            Some(NodeEventKind::Recover)
        } else {
            None
        }
    }
}

impl EventKind {
    /// What is so of the events of this kind.
    #[inline(always)]
    pub fn facts(self) -> KindFacts
        ensures word { result.word.now ≡ word_of self }
        ensures whose { result.whose ≡ whose_of self }
        ensures saying { result.saying ≡ saying_of self }
    {
        match self {
            EventKind::Node(kind) => kind.facts(),
            EventKind::Plan => facts("plan", Whose::Named, Saying::Nothing),
        }
    }

    /// The event of this kind at the node; none for a plan, which has a table, too.
    pub fn event(self, node: Node) -> Option<Event>
        ensures { result ≡ event_of_kind self node }
    {
        match self {
            EventKind::Node(kind) => Some(kind.event(node)),
            EventKind::Plan => None,
        }
    }

    /// The word of its row.
    #[inline(always)]
    pub fn word(self) -> &'static str
        ensures { result.now ≡ word_of self }
    {
        self.facts().word
    }

    /// Whose it is.
    #[inline(always)]
    pub fn whose(self) -> Whose
        ensures { result ≡ whose_of self }
    {
        self.facts().whose
    }
}

/// All kinds of event, in the order of the table of rows in docs/FORMATS.md.
pub const EVERY_EVENT_KIND: [EventKind; 11] = [
    EventKind::Node(NodeEventKind::Recover),
    EventKind::Node(NodeEventKind::Crash),
    EventKind::Node(NodeEventKind::Check),
    EventKind::Node(NodeEventKind::Timeout),
    EventKind::Node(NodeEventKind::Start),
    EventKind::Node(NodeEventKind::Run),
    EventKind::Node(NodeEventKind::Lose),
    EventKind::Node(NodeEventKind::Return),
    EventKind::Node(NodeEventKind::Drop),
    EventKind::Node(NodeEventKind::Move),
    EventKind::Plan,
];
