ghost use Rattle.std.specs.Prelude.{◌≡◌, ◌≤◌, ◌⊎◌, ◌∷◌, [], Some, true, false, codes, map, IfSome};
ghost use Rattle.clap.specs.Words.{kind_of};
ghost use Rattle.bully_cli.specs.Words.{Asked, ParsesAs, asked_for, asks_for_help, is_help, is_mistake, text_of};
ghost use Rattle.bully_cli.specs.Words.{texts_of};
ghost use Rattle.bully.specs.Answer.{IsAnswer, Tells, stop_line};
ghost use Rattle.bully.specs.AskedAnswer.{IsAnswerFrom, IsAnswerTo, follows, path_asked};
ghost use Rattle.bully.specs.Inputs.{bounded_in, remaining_in};

use crate::annotating::answer_annotate;
use crate::checking::answer_check;
use crate::completing::answer_completion;
use crate::drawing::answer_draw;
use crate::explaining::answer_explain;
use crate::flags::is_given;
use crate::following::answer_follow;
use crate::input::{Input, answer_unopened};
use crate::playing::answer_play;
use crate::running::answer_run;
use crate::tables::answer_table;
use crate::telling::{Stop, answer_stop, finish};
use crate::upgrading::answer_upgrade;
use bully_cli::{Action, action_of};
use bully_text::BoundedRows;
use clap::Error;
use clap::error::ErrorKind;
use std::convert::AsStr;
use std::fs::{File, OpenFile};
use std::io::{Read, Write};
use std::rt::{Clock, Files};
use std::sync::Wait;
use std::thread::Threads;

/// Does what the words ask for, those after the program's name, and tells the status.
///
/// 0: done, the trace is lawful, the configuration has no fault, an upgraded or annotated trace, a group's trace or the
/// table is written, or help was asked for and stands on the output. 1: an event of the trace is refused, or a claim or
/// a detail of it differs. 2: bad words, a member that is no name, or owners that are no table; the message stands on
/// `errors` and nothing on the output. 3: a fault of form in the trace or in the configuration, or an annotated trace
/// that would be too long; its line stands on `errors` and nothing on the output, but for the changes that `follow`
/// told before. 4: a trace's file that can't be opened, Read, Write, Spawn, Finish or OutOfMemory, which a line on
/// `errors` tells. A line on `errors` that can't be written changes no status. The words are looked at first; then the
/// trace, or the configuration, the members and the old owners. Only words of `run` wait, for the group's threads, and
/// those of `follow`, for more of a file. The rule: docs/FORMATS.md.
pub fn answer<
    H: Files + AllocGlobal + Clock + Threads + Wait + Sync,
    S: AsStr,
    R: Read + Drop,
    W: Write,
    E: Write,
>(rt: &H, words: &[S], input: R, output: &mut W, errors: &mut E) -> u8
    ensures check { map S.text words.now ≡ codes "check" ∷ []
        → IfSome (bounded_in (R.remaining input)) (λ bytes. IsAnswer bytes (W.contents output.old)
        (W.contents output.new) (E.contents errors.old) (E.contents errors.new) result) }
    ensures asked { (what : Asked) → ParsesAs (map S.text words.now) what → IsAnswerFrom (λ known. (file : H.File)
        × (known ≡ bounded_in (H.File.remaining file))) what (bounded_in (R.remaining input)) (W.contents output.old)
        (W.contents output.new) (E.contents errors.old) (E.contents errors.new) result }
    ensures mistake { is_mistake (map S.text words.now) ≡ true → ((result ≡ 2) ⊎ ((result ≡ 4) × Tells
        (E.contents errors.old) (E.contents errors.new) (stop_line Stop.OutOfMemory))) × (output.new ≡ output.old) }
    ensures help { asks_for_help (map S.text words.now) ≡ true → ((result ≡ 0) × (errors.new ≡ errors.old))
        ⊎ ((result ≡ 4) × (stop : Stop) × Tells (E.contents errors.old) (E.contents errors.new) (stop_line stop)) }
    ensures silent { result ≡ 2 → output.new ≡ output.old }
    ensures unwritten { result ≡ 3 → (output.new ≡ output.old) ⊎ follows (asked_for (map S.text words.now)) }
    ensures status { result ≤ 4 }
{
    match action_of(rt.alloc(), words) {
        Ok(action) => act(rt, &action, input, output, errors),
        Err(error) => answer_words(&error, output, errors),
    }
}

// Does this, and tells the status. Its trace stands on the input, or in the file that its words name.
fn act<H: Files + AllocGlobal + Clock + Threads + Wait + Sync, R: Read + Drop, W: Write, E: Write>(
    rt: &H,
    action: &Action<'_>,
    input: R,
    output: &mut W,
    errors: &mut E,
) -> u8
    ensures answer { IsAnswerFrom (λ known. (file : H.File)
        × (known ≡ bounded_in (H.File.remaining file))) (texts_of action.now) (bounded_in (R.remaining input))
        (W.contents output.old) (W.contents output.new) (E.contents errors.old) (E.contents errors.new) result }
    ensures silent { result ≡ 2 → output.new ≡ output.old }
    ensures unwritten { result ≡ 3 → (output.new ≡ output.old) ⊎ follows (Some (texts_of action.now)) }
    ensures status { result ≤ 4 }
{
    let Some(path) = path_of(action) else {
        return act_on::<H, R, H::File, W, E>(rt, action, Input::Given(input), output, errors);
    };
    match File::open(rt, path) {
        Ok(file) => act_on(
            rt,
            action,
            Input::<R, H::File>::Opened(file),
            output,
            errors,
        ),
        Err(error) => answer_unopened(rt.alloc(), path, &error, errors),
    }
}

// The path of the trace, where it doesn't stand on the input.
fn path_of<'a>(action: &Action<'a>) -> Option<&'a str>
    ensures path { text_of result ≡ path_asked (texts_of action.now) }
{
    let path = match action {
        Action::Check(words) | Action::Follow(words) => words.file,
        Action::Explain(words) if words.config.is_none() => words.file,
        Action::Upgrade(file) | Action::Annotate(file) => *file,
        Action::Draw(words) => words.file,
        Action::Explain(_)
        | Action::Play(_)
        | Action::Run(_)
        | Action::Table(_)
        | Action::Completion(_) => None,
    }?;
    if path == "-" { None } else { Some(path) }
}

// Does this with the trace on the input, whose rows are bounded, and tells the status.
fn act_on<
    H: Files + AllocGlobal + Clock + Threads + Wait + Sync,
    R: Read + Drop,
    F: Read + OpenFile + Drop,
    W: Write,
    E: Write,
>(rt: &H, action: &Action<'_>, input: Input<R, F>, output: &mut W, errors: &mut E) -> u8
    ensures answer { IsAnswerTo (texts_of action.now) (bounded_in (remaining_in R.remaining F.remaining input))
        (W.contents output.old) (W.contents output.new) (E.contents errors.old) (E.contents errors.new) result }
    ensures silent { result ≡ 2 → output.new ≡ output.old }
    ensures unwritten { result ≡ 3 → (output.new ≡ output.old) ⊎ follows (Some (texts_of action.now)) }
    ensures status { result ≤ 4 }
{
    let alloc = rt.alloc();
    match action {
        Action::Check(words) => {
            answer_check(
                alloc,
                is_given(words.json),
                BoundedRows::new(input),
                output,
                errors,
            )
        }
        Action::Explain(words) => {
            answer_explain(rt, words, BoundedRows::new(input), output, errors)
        }
        Action::Follow(words) => {
            answer_follow(rt, alloc, is_given(words.json), input, output, errors)
        }
        Action::Upgrade(_) => answer_upgrade(alloc, BoundedRows::new(input), output, errors),
        Action::Annotate(_) => answer_annotate(alloc, BoundedRows::new(input), output, errors),
        Action::Draw(words) => answer_draw(rt, words, BoundedRows::new(input), output, errors),
        Action::Play(path) => answer_play(rt, path, output, errors),
        Action::Run(path) => answer_run(rt, path, output, errors),
        Action::Table(words) => answer_table(rt, words, output, errors),
        Action::Completion(shell) => answer_completion(alloc, shell, output, errors),
    }
}

// The status of words that clap doesn't parse to an action, with its help on the output or its message on
// the errors.
fn answer_words<W: Write, E: Write>(error: &Error, output: &mut W, errors: &mut E) -> u8
    ensures memory { kind_of error.now ≡ ErrorKind.OutOfMemory → (result ≡ 4) × (output.new ≡ output.old)
        × Tells (E.contents errors.old) (E.contents errors.new) (stop_line Stop.OutOfMemory) }
    ensures help { is_help (kind_of error.now) ≡ true → ((result ≡ 0) × (errors.new ≡ errors.old))
        ⊎ ((result ≡ 4) × Tells (E.contents errors.old) (E.contents errors.new) (stop_line Stop.Write)) }
    ensures mistake { is_help (kind_of error.now) ≡ false → ((result ≡ 2) ⊎ ((result ≡ 4) × Tells
        (E.contents errors.old) (E.contents errors.new) (stop_line Stop.OutOfMemory))) × (output.new ≡ output.old) }
    ensures silent { (result ≡ 2) ⊎ (result ≡ 3) → output.new ≡ output.old }
    ensures status { result ≤ 4 }
{
    match error.kind() {
        ErrorKind::OutOfMemory => answer_stop(Stop::OutOfMemory, errors),
        ErrorKind::DisplayHelp | ErrorKind::DisplayVersion => answer_help(error, output, errors),
        _ => {
            let _ = write!(errors, "{error}");
            2
        }
    }
}

// The status of a request for help, whose text stands on the output.
fn answer_help<W: Write, E: Write>(error: &Error, output: &mut W, errors: &mut E) -> u8
    ensures { ((result ≡ 0) × (errors.new ≡ errors.old))
        ⊎ ((result ≡ 4) × Tells (E.contents errors.old) (E.contents errors.new) (stop_line Stop.Write)) }
{
    if write!(output, "{error}").is_err() {
        return answer_stop(Stop::Write, errors);
    }
    finish(0, output, errors)
}
