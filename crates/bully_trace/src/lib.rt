//! The checker of traces, and what upgrades them.
//!
//! It builds on bully_rows, which reads and writes them and most of whose names are here, too, on bully_agree, and on
//! the crates below these. The crates above rely on three things. The verdict is that of the rows that the text means.
//! The nodes agree after each row of a lawful trace. And an upgraded trace has the same setup and the same rows. The
//! judge of single rows is public, too ([`Judge`]), so a crate that explains a verdict has it by the same rules.
#![tactic(auto)]

ghost use Rattle.std.specs.Prelude.{◌↔◌};
ghost use Rattle.bully_rows.specs.Trace.{Trace as TraceState, upgraded};
ghost use Rattle.bully_trace.specs.OneVerdict.{HasOneVerdict, JudgesLawful};
ghost use Rattle.bully_trace.specs.StepTold.{TellsTheStep};
ghost use Rattle.bully_trace.specs.Verdict.{IsVerdict};
ghost use Rattle.bully_trace.specs.declared.verdict.Verdict.{Verdict as VerdictState};
ghost use Rattle.bully_world.specs.World.{World};

mod checking;
mod details;
mod judging;
mod upgrading;
mod verdict;
mod verdict_text;

pub use bully_rows::{
    Claim, Detail, DetailedEvent, FIRST_NODES_MAX, FIRST_PARTITIONS_MAX, Header, NodeEvent,
    ROWS_MAX, Row, Rows, SAW, Trace, TraceCause, TraceFault, Version, WholeClaim, answer_word,
    call_named, call_word, limits, number_within, outcome_named, push_detailed, push_event,
    push_header, push_node, push_row, push_set, push_task, push_vector, read_coordinator,
    read_node, read_set, read_trace, read_weights, reply_named, status_named, status_word,
    write_trace,
};
pub use checking::{check, judge_text, verdict_lines};
pub use details::{call_at, offer_of, reached, said_of, same_task};
pub use judging::Judge;
pub use upgrading::upgrade;
pub use verdict::{Verdict, Violation};
pub use verdict_text::push_verdict_head;

/// The law of upgraded traces. The verdict on one, and the world that its rows were taken to, are those of the trace
/// that was upgraded.
pub fn same_verdict()
    ensures { (trace : TraceState) (verdict : VerdictState) (w : World)
        → IsVerdict (upgraded trace) verdict w ↔ IsVerdict trace verdict w }
{}

/// The law of rows that say more. What is said beside an event that is possible is so, as [`check`] asks, exactly where
/// the step of that event has it: of a start the call that it sends, of the others the call in the slot, and of a run
/// and a return also the answer; and where the group has the node and the callee.
pub fn step_told()
    ensures { TellsTheStep }
{}

/// The law of verdicts. No trace has two, nor are its rows taken to two worlds. The trace of a lawful list of events is
/// lawful, with as many.
pub fn one_verdict()
    ensures one { HasOneVerdict }
    ensures lawful { JudgesLawful }
{}
