//! The words of a trace and of a verdict, each once: for reading and for writing. Those of events and refusals stand in
//! bully_calls.
ghost use Rattle.std.specs.Prelude.{◌≡◌};
ghost use Rattle.bully_rows.specs.Words.{answer_word, call_named, call_word, keeps_named, keeps_word, outcome_named};
ghost use Rattle.bully_rows.specs.Words.{reply_named, status_named, status_word};

use bully_base::Status;
use bully_calls::{Answer, CallKind, is_word};

/// The word of a claim.
pub const SAW: &str = "saw";

/// The status as a trace and a verdict spell it.
pub fn status_word(status: Status) -> &'static str
    ensures { result.now ≡ status_word status }
{
    match status {
        Status::Down => "down",
        Status::Election => "election",
        Status::Reorganization => "reorganization",
        Status::Normal => "normal",
    }
}

/// Whether tasks are kept over a crash, as a header says it.
pub fn keeps_word(keeps: bool) -> &'static str
    ensures { result.now ≡ keeps_word keeps }
{
    if keeps { "keep" } else { "clear" }
}

/// The kind of a call as a row spells it.
pub fn call_word(kind: CallKind) -> &'static str
    ensures { result.now ≡ call_word kind }
{
    match kind {
        CallKind::AreYouUp => "are-you-up",
        CallKind::AreYouNormal => "are-you-normal",
        CallKind::Halt => "halt",
        CallKind::NewCoordinator => "new-coordinator",
        CallKind::Ready => "ready",
    }
}

/// What a call is answered, or brings, as a row spells it.
pub fn answer_word(answer: Answer) -> &'static str
    ensures { result.now ≡ answer_word answer }
{
    match answer {
        Answer::Done => "done",
        Answer::Yes => "yes",
        Answer::No => "no",
        Answer::Failed => "failed",
        Answer::Discarded => "discarded",
    }
}

/// The status of this word.
pub fn status_named(word: &[u8]) -> Option<Status>
    ensures { result ≡ status_named word.now }
{
    if is_word(word, status_word(Status::Down)) {
        Some(Status::Down)
    } else if is_word(word, status_word(Status::Election)) {
        Some(Status::Election)
    } else if is_word(word, status_word(Status::Reorganization)) {
        Some(Status::Reorganization)
    } else if is_word(word, status_word(Status::Normal)) {
        Some(Status::Normal)
    } else {
        None
    }
}

/// The kind of call of this word.
pub fn call_named(word: &[u8]) -> Option<CallKind>
    ensures { result ≡ call_named word.now }
{
    if is_word(word, call_word(CallKind::AreYouUp)) {
        Some(CallKind::AreYouUp)
    } else if is_word(word, call_word(CallKind::AreYouNormal)) {
        Some(CallKind::AreYouNormal)
    } else if is_word(word, call_word(CallKind::Halt)) {
        Some(CallKind::Halt)
    } else if is_word(word, call_word(CallKind::NewCoordinator)) {
        Some(CallKind::NewCoordinator)
    } else if is_word(word, call_word(CallKind::Ready)) {
        Some(CallKind::Ready)
    } else {
        None
    }
}

/// What a call is answered where it runs, by its word.
pub fn reply_named(word: &[u8]) -> Option<Answer>
    ensures { result ≡ reply_named word.now }
{
    if is_word(word, answer_word(Answer::Done)) {
        Some(Answer::Done)
    } else if is_word(word, answer_word(Answer::Yes)) {
        Some(Answer::Yes)
    } else if is_word(word, answer_word(Answer::No)) {
        Some(Answer::No)
    } else {
        None
    }
}

/// What a call that returns brings, by its word.
pub fn outcome_named(word: &[u8]) -> Option<Answer>
    ensures { result ≡ outcome_named word.now }
{
    if is_word(word, answer_word(Answer::Failed)) {
        Some(Answer::Failed)
    } else if is_word(word, answer_word(Answer::Discarded)) {
        Some(Answer::Discarded)
    } else {
        reply_named(word)
    }
}

/// What this word says of the tasks: whether they are kept over a crash.
pub fn keeps_named(word: &[u8]) -> Option<bool>
    ensures { result ≡ keeps_named word.now }
{
    if is_word(word, keeps_word(true)) {
        Some(true)
    } else if is_word(word, keeps_word(false)) {
        Some(false)
    } else {
        None
    }
}
