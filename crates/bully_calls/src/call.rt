use bully_base::Node;

/// The five remote calls of the 1982 paper.
#[derive(Clone, Copy, PartialEq, Eq, Debug)]
pub enum CallKind {
    AreYouUp,
    AreYouNormal,
    Halt,
    NewCoordinator,
    Ready,
}

/// A call, and the node that it is made to.
#[derive(Clone, Copy, PartialEq, Eq, Debug)]
pub struct Call {
    pub callee: Node,
    pub kind: CallKind,
}

/// What an event is answered.
#[derive(Clone, Copy, PartialEq, Eq, Debug)]
pub enum Answer {
    Done,
    Yes,
    No,
    Failed,
    Discarded,
}

/// What moves a procedure on.
#[derive(Clone, Copy, PartialEq, Eq)]
pub enum Outcome {
    Started,
    Moved,
    Planned,
    Yes,
    No,
    Failed,
}

/// Who started a call, and at which of its generations.
#[derive(Clone, Copy, Debug)]
pub struct Tag {
    pub caller: Node,
    pub generation: u32,
}

/// How far a call has come: it was sent, it ran with an answer, or it failed.
#[derive(Clone, Copy, PartialEq, Eq, Debug)]
pub enum Phase {
    Sent,
    Ran(Answer),
    Failed,
}

/// The call in a slot, without its table: how far it came, and whether its caller wasn't stopped since it was started.
#[derive(Clone, Copy)]
pub struct PendingCall {
    pub call: Call,
    pub phase: Phase,
    pub is_live: bool,
}
