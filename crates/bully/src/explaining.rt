ghost use Rattle.std.specs.Prelude.{◌≡◌, ◌≤◌, ◌⊎◌, ◌++◌, ℕ, List, None, IfOk, IfSome, MatchOption, is_some};
ghost use Rattle.std.specs.Prelude.{string_bytes};
ghost use Rattle.std.specs.Io.KnownBytes.{Appends};
ghost use Rattle.bully.specs.Answer.{Tells, is_given, row_line, stop_line, verdict_status};
ghost use Rattle.bully.specs.ConfigAnswer.{IsStopped};
ghost use Rattle.bully_cli.specs.Words.{text_of};
ghost use Rattle.bully_text.specs.Bounded.{bounded_left};
ghost use Rattle.bully.specs.RefusalText.{refusal_line};
ghost use Rattle.std.specs.Str.{IsUtf8};
ghost use Rattle.bully.specs.ExplainAnswer.{IsConfigExplainAnswer, IsConfigExplained, IsExplainAnswer, sheet_told};

use crate::checking::verdict_status;
use crate::configs::bytes_at;
use crate::flags::is_given;
use crate::refusals::Refusal;
use crate::telling::{Stop, answer_fault, answer_stop, finish, row_line, tell};
use bully_base::OutOfMemory;
use bully_cli::ExplainWords;
use bully_config::ConfigFault;
use bully_draft::explain_config;
use bully_explain::explain;
use bully_json::sheet_line;
use bully_rows::TraceFault;
use bully_text::BoundedRows;
use bully_trace::Verdict;
use std::alloc::Global;
use std::io::{Read, Write};
use std::rt::Files;
use std::str;

/// Explains the verdict on the trace on the input, or the first fault of a configuration, as the words say, and tells
/// the status. Bad words are a FILE or `--json` beside `--config`.
pub fn answer_explain<H: Files + AllocGlobal, R: Read + Drop, W: Write, E: Write>(
    rt: &H,
    words: &ExplainWords<'_>,
    input: BoundedRows<R>,
    output: &mut W,
    errors: &mut E,
) -> u8
    ensures answer { MatchOption (text_of words.now.config)
        (IfSome (bounded_left R.remaining input) (λ bytes. IsExplainAnswer (is_given (text_of words.now.json)) bytes
        (W.contents output.old) (W.contents output.new) (E.contents errors.old) (E.contents errors.new) result)) (λ _.
        IsConfigExplained (is_some (text_of words.now.file)) (is_given (text_of words.now.json)) (W.contents output.old)
        (W.contents output.new) (E.contents errors.old) (E.contents errors.new) result) }
    ensures silent { (result ≡ 2) ⊎ (result ≡ 3) → output.new ≡ output.old }
    ensures status { result ≤ 4 }
{
    let is_json = is_given(words.json);
    let Some(path) = words.config else {
        return explain_trace(rt.alloc(), is_json, input, output, errors);
    };
    if words.file.is_some() {
        tell(
            errors,
            "bully: words: File: give FILE or --config, not both\n",
        );
        return 2;
    }
    if is_json {
        tell(
            errors,
            "bully: words: Json: give --config or --json, not both\n",
        );
        return 2;
    }
    answer_explain_config(rt, path, output, errors)
}

// Explains the verdict on the trace on the input, with its sheet on the output, as text or as JSON, and tells the
// status, which is that of `check`. The sheet of a fault of form stands on the errors, after the line of the fault.
fn explain_trace<R: Read + Drop, W: Write, E: Write>(
    alloc: Global,
    is_json: bool,
    input: BoundedRows<R>,
    output: &mut W,
    errors: &mut E,
) -> u8
    ensures answer { IfSome (bounded_left R.remaining input) (λ bytes. IsExplainAnswer is_json bytes
        (W.contents output.old) (W.contents output.new) (E.contents errors.old) (E.contents errors.new) result) }
    ensures silent { (result ≡ 2) ⊎ (result ≡ 3) → output.new ≡ output.old }
    ensures status { result ≤ 4 }
{
    match &explain(alloc, input) {
        Ok(sheet) => match sheet.told {
            Ok(verdict) => answer_sheet(
                alloc,
                is_json,
                verdict,
                sheet.text.as_str(),
                output,
                errors,
            ),
            Err(fault) => answer_form(alloc, fault, sheet.text.as_str(), errors),
        },
        Err(fault) => answer_fault(alloc, *fault, errors),
    }
}

// The status of a verdict, whose sheet stands on the output, as text or as JSON.
fn answer_sheet<W: Write, E: Write>(
    alloc: Global,
    is_json: bool,
    verdict: Verdict,
    sheet: &str,
    output: &mut W,
    errors: &mut E,
) -> u8
    ensures answer { ((result ≡ verdict_status verdict) × Appends (W.contents output.old) (W.contents output.new)
        (sheet_told is_json verdict sheet.now) × (errors.new ≡ errors.old))
        ⊎ IsStopped (W.contents output.old) (W.contents output.new) (E.contents errors.old)
        (E.contents errors.new) result }
    ensures status { (result ≤ 1) ⊎ (result ≡ 4) }
{
    let status = verdict_status(verdict);
    if !is_json {
        return write_sheet(status, sheet, output, errors);
    }
    match sheet_line(alloc, verdict, sheet) {
        Ok(line) => write_sheet(status, line.as_str(), output, errors),
        Err(_) => answer_stop(Stop::OutOfMemory, errors),
    }
}

/// Writes the text, and tells this status.
pub fn write_sheet<W: Write, E: Write>(
    status: u8,
    sheet: &str,
    output: &mut W,
    errors: &mut E,
) -> u8
    ensures { ((result ≡ status) × Appends (W.contents output.old) (W.contents output.new) sheet.now
        × (errors.new ≡ errors.old))
        ⊎ ((result ≡ 4) × Tells (E.contents errors.old) (E.contents errors.new) (stop_line Stop.Write)) }
{
    if output.write_all(sheet.as_bytes()).is_err() {
        return answer_stop(Stop::Write, errors);
    }
    finish(status, output, errors)
}

// Tells a fault of a trace's form on the errors, with its sheet after the line. The status is 3, and 4 where there is
// no memory for both.
fn answer_form<E: Write>(alloc: Global, fault: TraceFault, sheet: &str, errors: &mut E) -> u8
    ensures { ((result ≡ 3) × Tells (E.contents errors.old) (E.contents errors.new) (row_line fault ++ sheet.now))
        ⊎ ((result ≡ 4) × Tells (E.contents errors.old) (E.contents errors.new) (stop_line Stop.OutOfMemory)) }
{
    match form_lines(alloc, fault, sheet) {
        Ok(lines) => {
            tell(errors, lines.as_str());
            3
        }
        Err(_) => answer_stop(Stop::OutOfMemory, errors),
    }
}

// The line of a fault of form, and its sheet after it.
fn form_lines(alloc: Global, fault: TraceFault, sheet: &str) -> Result<String, OutOfMemory>
    ensures { IfOk result (λ lines. string_bytes lines ≡ row_line fault ++ sheet.now) }
{
    let mut lines = row_line(alloc, fault)?;
    lines.push_str(sheet)?;
    Ok(lines)
}

/// Explains the first fault of the configuration at the path, on the errors after its line, and tells the status;
/// where it has none, that stands on the output.
pub fn answer_explain_config<H: Files + AllocGlobal, W: Write, E: Write>(
    rt: &H,
    path: &str,
    output: &mut W,
    errors: &mut E,
) -> u8
    ensures answer { (bytes : List ℕ) × IsConfigExplainAnswer bytes (W.contents output.old) (W.contents output.new)
        (E.contents errors.old) (E.contents errors.new) result }
    ensures silent { (result ≡ 2) ⊎ (result ≡ 3) → output.new ≡ output.old }
    ensures status { result ≤ 4 }
{
    match bytes_at(rt, path) {
        Ok(bytes) => explain_bytes(rt.alloc(), bytes.as_slice(), output, errors),
        Err(stop) => answer_stop(stop, errors),
    }
}

/// Explains the first fault of the configuration that these bytes of a file are, and tells the status.
pub fn explain_bytes<W: Write, E: Write>(
    alloc: Global,
    bytes: &[u8],
    output: &mut W,
    errors: &mut E,
) -> u8
    ensures answer { IsConfigExplainAnswer bytes.now (W.contents output.old) (W.contents output.new)
        (E.contents errors.old) (E.contents errors.new) result }
    ensures silent { (result ≡ 2) ⊎ (result ≡ 3) → output.new ≡ output.old }
    ensures status { result ≤ 4 }
{
    match str::from_utf8(bytes) {
        Ok(text) => explain_text(alloc, text, output, errors),
        Err(_) => answer_fault_of(
            alloc,
            ConfigFault::Toml,
            "Toml: the file isn't UTF-8 text\n",
            errors,
        ),
    }
}

// Explains the first fault of the configuration that this text is, and tells the status.
fn explain_text<W: Write, E: Write>(alloc: Global, text: &str, output: &mut W, errors: &mut E) -> u8
    ensures answer { IsUtf8 text.now → IsConfigExplainAnswer text.now (W.contents output.old) (W.contents output.new)
        (E.contents errors.old) (E.contents errors.new) result }
    ensures silent { (result ≡ 2) ⊎ (result ≡ 3) → output.new ≡ output.old }
    ensures status { result ≤ 4 }
{
    match &explain_config(alloc, text) {
        Ok(sheet) => match sheet.told {
            None => write_sheet(0, sheet.text.as_str(), output, errors),
            Some(fault) => answer_fault_of(alloc, fault, sheet.text.as_str(), errors),
        },
        Err(_) => answer_stop(Stop::OutOfMemory, errors),
    }
}

// Tells the fault of a configuration on the errors, with its sheet after the line.
fn answer_fault_of<E: Write>(alloc: Global, fault: ConfigFault, sheet: &str, errors: &mut E) -> u8
    ensures { ((result ≡ 3)
        × Tells (E.contents errors.old) (E.contents errors.new) (refusal_line (Refusal.Config fault) ++ sheet.now))
        ⊎ ((result ≡ 4) × Tells (E.contents errors.old) (E.contents errors.new) (stop_line Stop.OutOfMemory)) }
{
    match fault_lines(alloc, fault, sheet) {
        Ok(lines) => {
            tell(errors, lines.as_str());
            3
        }
        Err(_) => answer_stop(Stop::OutOfMemory, errors),
    }
}

// The line of a configuration's fault, and its sheet after it.
fn fault_lines(alloc: Global, fault: ConfigFault, sheet: &str) -> Result<String, OutOfMemory>
    ensures { IfOk result (λ lines. string_bytes lines ≡ refusal_line (Refusal.Config fault) ++ sheet.now) }
{
    let mut lines = String::new(alloc);
    writeln!(lines, "bully: config: {fault}")?;
    lines.push_str(sheet)?;
    Ok(lines)
}
