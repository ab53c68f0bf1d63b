//! What is kept of an agent behind its handle.
ghost use Rattle.std.specs.Prelude.{◌≡◌, ◌++◌, ◌∷◌, [], OnOk, string_bytes};
ghost use Rattle.bully_rows.specs.TraceText.{rows_text};
ghost use Rattle.bully_rows.specs.declared.trace.Row.{Row as RowState};
ghost use Rattle.bully_agent.specs.Agent.{IsAlone};
ghost use Rattle.bully_calls.specs.declared.event.Event.{Event as EventState};
ghost use Rattle.bully_calls.specs.declared.kind.EventKind.{EventKind};
ghost use Rattle.bully_calls.specs.Events.{event_at};
ghost use Rattle.bully_c.specs.HeldAgent.{ServesRequest, Takes, TakesFailure, TakesReply, TellsOwn, TellsPlan};
ghost use Rattle.bully_c.specs.HeldAgent.{detail_told, failure_told, own_told, rows_told};
ghost use Rattle.bully_c.specs.declared.held_agent.StepRows.{StepRows as StepRowsState};

use bully_agent::Agent;
use bully_base::{Node, OutOfMemory};
use bully_calls::{Answer, Call, NodeEventKind, Reply, Request, Saying};
use bully_rows::{Detail, DetailedEvent, push_detailed, push_event};
use bully_table::Table;
use bully_world::{Event, Refused};

/// The rows of an agent's last step.
#[derive(Drop)]
pub enum StepRows {
    /// It took none.
    Nothing,
    /// A row of this event.
    Event(Event),
    /// A row of this event of a call.
    Call(DetailedEvent),
    /// Two rows: the loss of this call of the node, and its return, which brings this.
    Failure(Node, Call, Answer),
}

/// The agent, and the rows of its last step.
#[derive(Drop)]
pub struct HeldAgent {
    pub agent: Agent,
    pub told: StepRows,
}

impl HeldAgent {
    /// An agent that took no step.
    pub fn new(agent: Agent) -> HeldAgent
        ensures { result ≡ record { agent = agent; told = StepRowsState.Nothing } }
    {
        HeldAgent {
            agent,
            told: StepRows::Nothing,
        }
    }

    /// [`Agent::apply`].
    pub fn apply(&mut self, kind: NodeEventKind) -> Result<Answer, Refused>
        requires { IsAlone (EventKind.Node kind) }
        ensures { Takes (event_at kind) (TellsOwn kind) self.old result self.new }
    {
        let before = self.agent.slot().call();
        let taken = self.agent.apply(kind)?;
        let after = self.agent.slot().call();
        self.told = own_told(kind, self.agent.node(), before, after);
        Ok(taken.answer)
    }

    /// [`Agent::plan`].
    pub fn plan(&mut self, table: Table) -> Result<Answer, Refused>
        ensures { Takes (λ i. EventState.Plan i table) (TellsPlan table) self.old result self.new }
    {
        let taken = self.agent.plan(table)?;
        self.told = StepRows::Event(taken.event);
        Ok(taken.answer)
    }

    /// [`Agent::serve`].
    pub fn serve(&mut self, request: &Request) -> Result<Reply, Refused>
        ensures { ServesRequest request.now self.old result self.new }
    {
        let served = self.agent.serve(request)?;
        let reply = served.reply;
        let detail = Detail::answered(NodeEventKind::Run, request.call, reply.answer);
        self.told = told_of(request.caller, Some(detail));
        Ok(reply)
    }

    /// [`Agent::replied`].
    pub fn replied(&mut self, reply: Reply) -> Result<Answer, Refused>
        ensures { TakesReply reply self.old result self.new }
    {
        let call = self.agent.slot().call();
        let answer = self.agent.replied(reply)?.answer;
        self.told = told_of(
            self.agent.node(),
            call.map(|call| Detail::answered(NodeEventKind::Return, call, answer)),
        );
        Ok(answer)
    }

    /// [`Agent::failed`].
    pub fn failed(&mut self, number: u32) -> Result<Answer, Refused>
        ensures { TakesFailure number self.old result self.new }
    {
        let call = self.agent.slot().call();
        let answer = self.agent.failed(number)?.returned.answer;
        self.told = failure_of(self.agent.node(), call, answer);
        Ok(answer)
    }

    /// Appends the rows of the last step. Refused if an allocation fails.
    pub fn push_rows(&self, text: &mut String) -> Result<(), OutOfMemory>
        ensures { OnOk result (string_bytes text.new ≡ string_bytes text.old ++ rows_text (rows_told self.now.told)) }
    {
        match &self.told {
            StepRows::Nothing => Ok(()),
            StepRows::Event(event) => push_event(text, event),
            StepRows::Call(event) => push_detailed(text, event),
            StepRows::Failure(node, call, answer) => push_failure(text, *node, *call, *answer),
        }
    }
}

// The rows of an event that the node takes by itself, with these calls in its slot before and after it.
fn own_told(kind: NodeEventKind, node: Node, before: Option<Call>, after: Option<Call>) -> StepRows
    ensures { result ≡ own_told kind node before after }
{
    match kind.saying() {
        Saying::Offered => told_of(node, after.map(|call| Detail::unanswered(kind, call))),
        Saying::Held => told_of(node, before.map(|call| Detail::unanswered(kind, call))),
        _ => StepRows::Event(kind.event(node)),
    }
}

// The row of an event of a call of this node.
fn told_of(node: Node, detail: Option<Detail>) -> StepRows
    ensures { result ≡ detail_told node detail }
{
    match detail {
        Some(detail) => StepRows::Call(DetailedEvent { node, detail }),
        None => StepRows::Nothing,
    }
}

// The rows of the failure of the node's call.
fn failure_of(node: Node, call: Option<Call>, answer: Answer) -> StepRows
    ensures { result ≡ failure_told node answer call }
{
    match call {
        Some(call) => StepRows::Failure(node, call, answer),
        None => StepRows::Nothing,
    }
}

// Appends the rows of a call that failed and returned.
fn push_failure(
    text: &mut String,
    node: Node,
    call: Call,
    answer: Answer,
) -> Result<(), OutOfMemory>
    ensures { OnOk result (string_bytes text.new ≡ string_bytes text.old
        ++ rows_text (rows_told (StepRowsState.Failure node call answer))) }
{
    let lost = Call {
        callee: call.callee,
        kind: call.kind,
    };
    push_detail(text, node, Detail::unanswered(NodeEventKind::Lose, lost))?;
    push_detail(
        text,
        node,
        Detail::answered(NodeEventKind::Return, call, answer),
    )
}

// Appends the row of an event of a call of this node.
fn push_detail(text: &mut String, node: Node, detail: Detail) -> Result<(), OutOfMemory>
    ensures { OnOk result (string_bytes text.new ≡ string_bytes text.old
        ++ rows_text (RowState.Detailed (record { node = node; detail = detail }) ∷ [])) }
{
    push_detailed(text, &DetailedEvent { node, detail })
}
