ghost use Rattle.std.specs.Prelude.{◌≡◌, ◌≤◌, ◌⊎◌, ℕ, List, Option, IfSome, true};
ghost use Rattle.bully.specs.Answer.{IsCheckAnswer, verdict_status};
ghost use Rattle.bully_trace.specs.Judging.{AreAllJudged};

use crate::explaining::write_sheet;
use crate::telling::{Stop, answer_fault, answer_stop, finish};
use bully_json::verdict_line;
use bully_trace::{Judge, Verdict, check, judge_text};
use std::alloc::Global;
use std::io::{Read, Write};

/// Judges the trace on the input, with the verdict on the output, as text or as JSON, and tells the status.
pub fn answer_check<R: Read + Drop, W: Write, E: Write>(
    alloc: Global,
    is_json: bool,
    input: R,
    output: &mut W,
    errors: &mut E,
) -> u8
    ensures answer { IfSome (R.remaining input) (λ bytes. IsCheckAnswer is_json bytes (W.contents output.old)
        (W.contents output.new) (E.contents errors.old) (E.contents errors.new) result) }
    ensures silent { (result ≡ 2) ⊎ (result ≡ 3) → output.new ≡ output.old }
    ensures status { result ≤ 4 }
{
    if is_json {
        return check_for_tools(alloc, input, output, errors);
    }
    match check(alloc, input, output) {
        Ok(verdict) => finish(verdict_status(verdict), output, errors),
        Err(fault) => answer_fault(alloc, fault, errors),
    }
}

// The same with the verdict as JSON.
fn check_for_tools<R: Read + Drop, W: Write, E: Write>(
    alloc: Global,
    input: R,
    output: &mut W,
    errors: &mut E,
) -> u8
    ensures answer { IfSome (R.remaining input) (λ bytes. IsCheckAnswer true bytes (W.contents output.old)
        (W.contents output.new) (E.contents errors.old) (E.contents errors.new) result) }
    ensures silent { (result ≡ 2) ⊎ (result ≡ 3) → output.new ≡ output.old }
    ensures status { result ≤ 4 }
{
    match judge_text(alloc, input) {
        Ok(judge) => answer_judged(alloc, &judge, output, errors),
        Err(fault) => answer_fault(alloc, fault, errors),
    }
}

// The status of a judge's verdict, which stands on the output as JSON.
fn answer_judged<W: Write, E: Write>(
    alloc: Global,
    judge: &Judge,
    output: &mut W,
    errors: &mut E,
) -> u8
    ensures answer { (known : Option (List ℕ)) → AreAllJudged known judge.now
        → IfSome known (λ bytes. IsCheckAnswer true bytes (W.contents output.old) (W.contents output.new)
        (E.contents errors.old) (E.contents errors.new) result) }
    ensures status { (result ≤ 1) ⊎ (result ≡ 4) }
{
    let verdict = judge.verdict();
    match verdict_line(alloc, verdict, judge.world()) {
        Ok(line) => write_sheet(verdict_status(verdict), line.as_str(), output, errors),
        Err(_) => answer_stop(Stop::OutOfMemory, errors),
    }
}

/// The status of a verdict.
pub fn verdict_status(verdict: Verdict) -> u8
    ensures status { result ≡ verdict_status verdict }
    ensures range { result ≤ 1 }
{
    match verdict {
        Verdict::Lawful(_) => 0,
        Verdict::Refused(_, _) | Verdict::Differs(_) => 1,
    }
}
