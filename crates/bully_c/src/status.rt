//! The numbers of include/bully.h.
ghost use Rattle.std.specs.Prelude.{◌≡◌};
ghost use Rattle.bully_calls.specs.declared.event.Refused.{Refused};
ghost use Rattle.bully_lines.specs.declared.fault.RequestFault.{RequestFault};
ghost use Rattle.bully_c.specs.declared.status.TheConstants.{BAD_ANSWER, BAD_CONFIG, BAD_EVENT, BAD_HEADER, BAD_NODE};
ghost use Rattle.bully_c.specs.declared.status.TheConstants.{BAD_ROW, BAD_ROWS_MAX, BAD_TTL, CLOSED, FULL, LINE_WORD};
ghost use Rattle.bully_c.specs.declared.status.TheConstants.{NO_MEMBER, OK, OPEN, OUT_OF_MEMORY, ROW_DIFFERS, ROW_END};
ghost use Rattle.bully_c.specs.declared.status.TheConstants.{SHORT, TABLE_LENGTH, TABLE_OWNER};
ghost use Rattle.bully_calls.specs.Events.{refusal_number};
ghost use Rattle.bully_c.specs.Numbers.{answer_number, event_numbered, learn_fault_number, kind_number, reply_number};
ghost use Rattle.bully_c.specs.Numbers.{request_number, setup_number, status_number, trace_number, want_number};

use bully_base::{Node, SetupFault, Status};
use bully_calls::{Answer, CallKind};
use bully_lines::{ReplyFault, RequestFault};
use bully_replica::LearnFault;
use bully_rows::TraceCause;
use bully_steps::Want;
use bully_table::TableFault;
use bully_trace::Violation;
use bully_world::{Event, Refused};

pub const OK: u32 = 0;

pub const FULL: u32 = 1;

pub const BAD_NODE: u32 = 2;

pub const CLOSED: u32 = 21;

pub const OPEN: u32 = 22;

pub const OUT_OF_MEMORY: u32 = 23;

pub const SHORT: u32 = 24;

pub const TABLE_LENGTH: u32 = 29;

pub const TABLE_OWNER: u32 = 30;

pub const NO_MEMBER: u32 = 31;

pub const BAD_EVENT: u32 = 32;

pub const BAD_ROWS_MAX: u32 = 33;

pub const BAD_TTL: u32 = 34;

pub const BAD_ANSWER: u32 = 35;
/// The leases keep more or fewer partitions than are given.
pub const BAD_KEPT: u32 = 36;

pub const LINE_WORD: u32 = 40;

pub const BAD_HEADER: u32 = 50;

pub const BAD_ROW: u32 = 51;

pub const ROW_DIFFERS: u32 = 53;

pub const ROW_END: u32 = 54;

pub const BAD_CONFIG: u32 = 55;

/// The numbers of the constants above.
pub fn numbers()
    ensures ok { OK ≡ 0 }
    ensures full { FULL ≡ refusal_number Refused.Full }
    ensures node { BAD_NODE ≡ refusal_number Refused.BadNode }
    ensures closed { CLOSED ≡ 21 }
    ensures open { OPEN ≡ 22 }
    ensures memory { OUT_OF_MEMORY ≡ 23 }
    ensures short { SHORT ≡ 24 }
    ensures length { TABLE_LENGTH ≡ 29 }
    ensures owner { TABLE_OWNER ≡ 30 }
    ensures member { NO_MEMBER ≡ 31 }
    ensures event { BAD_EVENT ≡ 32 }
    ensures rows { BAD_ROWS_MAX ≡ 33 }
    ensures ttl { BAD_TTL ≡ 34 }
    ensures answer { BAD_ANSWER ≡ 35 }
    ensures word { LINE_WORD ≡ 40 }
    ensures header { BAD_HEADER ≡ 50 }
    ensures row { BAD_ROW ≡ 51 }
    ensures differs { ROW_DIFFERS ≡ 53 }
    ensures end { ROW_END ≡ 54 }
    ensures config { BAD_CONFIG ≡ 55 }
{}

/// The status of an event that is refused.
pub fn status_of_refusal(why: Refused) -> u32
    ensures { result ≡ refusal_number why }
{
    why.number()
}

/// The status of a setup that is refused.
pub fn status_of_setup(fault: SetupFault) -> u32
    ensures { result ≡ setup_number fault }
{
    match fault {
        SetupFault::BadNodes => 25,
        SetupFault::BadPartitions => 26,
        SetupFault::BadLimit => 27,
        SetupFault::BadWeights => 28,
    }
}

/// The status of a line that is no request.
pub fn status_of_request(fault: RequestFault) -> u32
    ensures { result ≡ request_number fault }
{
    match fault {
        RequestFault::Word => LINE_WORD,
        RequestFault::Caller => 41,
        RequestFault::Number => 42,
        RequestFault::Callee => 43,
        RequestFault::Kind => 44,
        RequestFault::Table(fault) => status_of_table(fault),
    }
}

// The status of the table of a line that is no request.
fn status_of_table(fault: TableFault) -> u32
    ensures { result ≡ request_number (RequestFault.Table fault) }
{
    match fault {
        TableFault::OutOfMemory => OUT_OF_MEMORY,
        TableFault::Length | TableFault::Owner | TableFault::Syntax => 45,
    }
}

/// The status of a line that is no reply.
pub fn status_of_reply(fault: ReplyFault) -> u32
    ensures { result ≡ reply_number fault }
{
    match fault {
        ReplyFault::Word => LINE_WORD,
        ReplyFault::Caller => 41,
        ReplyFault::Number => 42,
        ReplyFault::Answer => 46,
    }
}

/// The status of a trace that isn't well-formed, or can't be judged. Its bytes are in memory, and so is its verdict, so
/// a read or a write fails only because an allocation failed.
pub fn status_of_trace(cause: TraceCause) -> u32
    ensures { result ≡ trace_number cause }
{
    match cause {
        TraceCause::BadHeader => BAD_HEADER,
        TraceCause::BadRow => BAD_ROW,
        TraceCause::TooManyRows => 52,
        TraceCause::OutOfMemory | TraceCause::Read | TraceCause::Write => OUT_OF_MEMORY,
    }
}

/// The status of a row of a log that isn't learned.
pub fn status_of_learning(fault: LearnFault) -> u32
    ensures { result ≡ learn_fault_number fault }
{
    match fault {
        LearnFault::Form(cause) => status_of_trace(cause),
        LearnFault::Violation(Violation::Refused(why)) => status_of_refusal(why),
        LearnFault::Violation(Violation::Differs) => ROW_DIFFERS,
    }
}

/// The event of the node of this number, if it is one.
pub fn event_of(number: u32, node: Node) -> Option<Event>
    ensures { result ≡ event_numbered number node }
{
    match number {
        1 => Some(Event::Crash(node)),
        2 => Some(Event::Recover(node)),
        3 => Some(Event::Check(node)),
        4 => Some(Event::Timeout(node)),
        5 => Some(Event::Drop(node)),
        _ => None,
    }
}

/// The number of what a call brought.
pub fn number_of_answer(answer: Answer) -> u32
    ensures { result ≡ answer_number answer }
{
    match answer {
        Answer::Done => 0,
        Answer::Yes => 1,
        Answer::No => 2,
        Answer::Failed => 3,
        Answer::Discarded => 4,
    }
}

/// The number of a node's status.
pub fn number_of_status(status: Status) -> u32
    ensures { result ≡ status_number status }
{
    match status {
        Status::Down => 0,
        Status::Election => 1,
        Status::Reorganization => 2,
        Status::Normal => 3,
    }
}

/// The number of what a node wants to do next.
pub fn number_of_want(want: Want) -> u32
    ensures { result ≡ want_number want }
{
    match want {
        Want::Nothing => 0,
        Want::Start(_) => 1,
        Want::Move => 2,
        Want::Plan => 3,
        Want::Await => 4,
    }
}

/// The number of the kind of a call.
pub fn number_of_kind(kind: CallKind) -> u32
    ensures { result ≡ kind_number kind }
{
    match kind {
        CallKind::AreYouUp => 1,
        CallKind::AreYouNormal => 2,
        CallKind::Halt => 3,
        CallKind::NewCoordinator => 4,
        CallKind::Ready => 5,
    }
}
