ghost use Rattle.std.specs.Prelude.{◌≡◌, ◌≤◌, ◌⊎◌, IfOk, IfSome, string_bytes};
ghost use Rattle.bully.specs.Answer.{Tells, stop_line};
ghost use Rattle.bully.specs.AnnotateAnswer.{IsAnnotateAnswer, verdict_line};

use crate::telling::{Stop, answer_fault, answer_stop, finish, tell};
use bully_annotate::{Annotation, annotate};
use bully_base::OutOfMemory;
use bully_trace::{Verdict, push_verdict_head};
use std::alloc::Global;
use std::io::{Read, Write};

/// Annotates the trace on the input, with the one of version 3 in which everything is said on the output, and tells the
/// status. Of a trace that isn't lawful the verdict is told on the errors.
pub fn answer_annotate<R: Read + Drop, W: Write, E: Write>(
    alloc: Global,
    input: R,
    output: &mut W,
    errors: &mut E,
) -> u8
    ensures answer { IfSome (R.remaining input) (λ bytes. IsAnnotateAnswer bytes (W.contents output.old)
        (W.contents output.new) (E.contents errors.old) (E.contents errors.new) result) }
    ensures silent { (result ≡ 2) ⊎ (result ≡ 3) → output.new ≡ output.old }
    ensures status { result ≤ 4 }
{
    match annotate(alloc, input, output) {
        Ok(Annotation::Written(_)) => finish(0, output, errors),
        Ok(Annotation::Unlawful(verdict)) => answer_unlawful(alloc, verdict, errors),
        Ok(Annotation::TooLong) => {
            tell(errors, "bully: annotated trace: TooManyRows\n");
            3
        }
        Err(fault) => answer_fault(alloc, fault, errors),
    }
}

// Tells on the errors a verdict that isn't lawful. The status is 1, and 4 where there is no memory for the line.
fn answer_unlawful<E: Write>(alloc: Global, verdict: Verdict, errors: &mut E) -> u8
    ensures { ((result ≡ 1) × Tells (E.contents errors.old) (E.contents errors.new) (verdict_line verdict))
        ⊎ ((result ≡ 4) × Tells (E.contents errors.old) (E.contents errors.new) (stop_line Stop.OutOfMemory)) }
{
    match verdict_line(alloc, verdict) {
        Ok(line) => {
            tell(errors, line.as_str());
            1
        }
        Err(_) => answer_stop(Stop::OutOfMemory, errors),
    }
}

// The line of a verdict.
fn verdict_line(alloc: Global, verdict: Verdict) -> Result<String, OutOfMemory>
    ensures { IfOk result (λ line. string_bytes line ≡ verdict_line verdict) }
{
    let mut line = String::new(alloc);
    line.push_str("bully: ")?;
    push_verdict_head(&mut line, verdict)?;
    Ok(line)
}
