ghost use Rattle.std.specs.Prelude.{◌≡◌, ◌≢◌, ◌⊎◌, [], codes, true, None, Some, map, option_map, IfOk, IfErr, IsErrAnd};
ghost use Rattle.std.specs.Prelude.{MatchResult};
ghost use Rattle.clap.specs.Words.{fault_of, first_of, found_of, kind_of, rows_of, subcommand_of, subcommand_rows_of};
ghost use Rattle.clap.specs.Words.{takes, FailsBy, HasKind};
ghost use Rattle.bully_cli.specs.Words.{Asked, asked_by, asked_for, asked_in, drawn_in, drawn_of, planning_in, program};
ghost use Rattle.bully_cli.specs.Words.{text_of, texts_of, ParsesAs};

use crate::command::command_line;
use clap::error::ErrorKind;
use clap::{ArgMatches, Error};
use std::alloc::{AllocError, Global};
use std::convert::AsStr;

/// What the words ask the program to do. The path of a trace is none where it stands on the input.
#[derive(Drop)]
pub enum Action<'a> {
    /// Judge the trace.
    Check(TraceWords<'a>),
    /// Explain the verdict on the trace; or, where there is the path of one, a configuration.
    Explain(ExplainWords<'a>),
    /// Judge the trace row by row while it grows.
    Follow(TraceWords<'a>),
    /// Write the trace at the path as one of version 2, or of version 3 where its rows say more.
    Upgrade(Option<&'a str>),
    /// Write the lawful trace at the path as one of version 3, with everything said.
    Annotate(Option<&'a str>),
    /// Draw the trace.
    Draw(DrawWords<'a>),
    /// Play the group of the configuration at this path.
    Play(&'a str),
    /// Run the group of the configuration at this path in threads.
    Run(&'a str),
    /// Plan a table.
    Table(TableWords<'a>),
    /// Write what this shell completes the program's words by.
    Completion(&'a str),
}

/// What the words of `check` and `follow` name: the path of a trace, and whether the answer is JSON; each as it stands
/// there, where it does. A flag stands as `true` or `false`.
#[derive(Drop)]
pub struct TraceWords<'a> {
    pub file: Option<&'a str>,
    pub json: Option<&'a str>,
}

/// What the words of `explain` name, in the same way: the path of a trace, that of a configuration, and whether the
/// answer is JSON.
#[derive(Drop)]
pub struct ExplainWords<'a> {
    pub file: Option<&'a str>,
    pub config: Option<&'a str>,
    pub json: Option<&'a str>,
}

/// What the words of `draw` name, in the same way: the path of a trace, which rows are drawn, whether it is as text,
/// whether it is as a page, the path of a configuration with names, and whether claims are left out.
#[derive(Drop)]
pub struct DrawWords<'a> {
    pub file: Option<&'a str>,
    pub rows: Option<&'a str>,
    pub text: Option<&'a str>,
    pub html: Option<&'a str>,
    pub names: Option<&'a str>,
    pub without_claims: Option<&'a str>,
}

/// What the words of `table` name: the path of a configuration, the names of the members, the owners of the
/// old table, where there is one, and whether the answer is JSON.
#[derive(Drop)]
pub struct TableWords<'a> {
    pub config: &'a str,
    pub members: Vec<&'a str>,
    pub old: Option<&'a str>,
    pub json: Option<&'a str>,
}

/// What the words ask for, those after the program's name. Refused with clap's error: a mistake in the words, a
/// request for help, or want of memory. The rule: docs/FORMATS.md.
pub fn action_of<'a, S: AsStr>(alloc: Global, words: &'a [S]) -> Result<Action<'a>, Error>
    ensures asked { IfOk result (λ action. asked_for (map S.text words.now) ≡ Some (texts_of action)) }
    ensures parsed { (what : Asked) → ParsesAs (map S.text words.now) what
        → MatchResult result (λ action. texts_of action ≡ what) (λ error. kind_of error ≡ ErrorKind.OutOfMemory) }
    ensures fault { fault_of program (map S.text words.now) ≢ []
        → IsErrAnd result (HasKind (fault_of program (map S.text words.now))) }
{
    match matches_of(alloc, words) {
        Ok(matches) => action_in(alloc, &matches),
        Err(error) => Err(error),
    }
}

// What clap finds in the words.
fn matches_of<'a, S: AsStr>(alloc: Global, words: &'a [S]) -> Result<ArgMatches<'a>, Error>
    ensures rows { IfOk result (λ matches. subcommand_rows_of matches ≡ subcommand_of program (map S.text words.now)) }
    ensures passes { IfErr result (λ error. takes program (map S.text words.now) ≡ true
        → kind_of error ≡ ErrorKind.OutOfMemory) }
    ensures kinds { FailsBy (fault_of program (map S.text words.now)) result }
{
    command_line(alloc)?.try_get_matches_from(words)
}

// What clap's matches ask for, or a mistake where that is nothing.
fn action_in<'a>(alloc: Global, matches: &ArgMatches<'a>) -> Result<Action<'a>, Error>
    ensures asked { IfOk result (λ action. asked_in (subcommand_rows_of matches.now) ≡ Some (texts_of action)) }
    ensures nothing { IfErr result (λ error. (kind_of error ≡ ErrorKind.OutOfMemory)
        ⊎ (asked_in (subcommand_rows_of matches.now) ≡ None)) }
{
    match chosen(alloc, matches)? {
        Some(action) => Ok(action),
        None => Err(no_command(alloc)?),
    }
}

// The mistake of words that ask for nothing.
fn no_command(alloc: Global) -> Result<Error, AllocError> {
    command_line(alloc)?.error(ErrorKind::MissingSubcommand, "no command was given")
}

// The command that was chosen, with its words.
fn chosen<'a>(alloc: Global, matches: &ArgMatches<'a>) -> Result<Option<Action<'a>>, AllocError>
    ensures { IfOk result (λ action. option_map texts_of action ≡ asked_in (subcommand_rows_of matches.now)) }
{
    match matches.subcommand() {
        Some((name, found)) => named(alloc, name, found),
        None => Ok(None),
    }
}

// The command of this name, with the words that were found after it.
fn named<'a>(
    alloc: Global,
    name: &str,
    found: &ArgMatches<'a>,
) -> Result<Option<Action<'a>>, AllocError>
    ensures { IfOk result (λ action. option_map texts_of action ≡ asked_by name.now (rows_of (found_of found.now))) }
{
    match name {
        "check" => Ok(Some(Action::Check(trace_words(found)))),
        "explain" => Ok(Some(Action::Explain(explain_words(found)))),
        "follow" => Ok(Some(Action::Follow(trace_words(found)))),
        "upgrade" => Ok(Some(Action::Upgrade(value(found, "FILE")))),
        "annotate" => Ok(Some(Action::Annotate(value(found, "FILE")))),
        "draw" => Ok(Some(Action::Draw(draw_words(found)))),
        "play" => Ok(value(found, "CONFIG").map(Action::Play)),
        "run" => Ok(value(found, "CONFIG").map(Action::Run)),
        "table" => table_words(alloc, found),
        "completion" => Ok(value(found, "SHELL").map(Action::Completion)),
        _ => Ok(None),
    }
}

// The value of the argument of this name, where it has one.
fn value<'a>(found: &ArgMatches<'a>, name: &str) -> Option<&'a str>
    ensures { text_of result ≡ first_of name.now (rows_of (found_of found.now)) }
{
    found.get_str(name)
}

// The words of `check` and of `follow`.
fn trace_words<'a>(found: &ArgMatches<'a>) -> TraceWords<'a>
    ensures file { text_of result.file ≡ first_of (codes "FILE") (rows_of (found_of found.now)) }
    ensures json { text_of result.json ≡ first_of (codes "json") (rows_of (found_of found.now)) }
{
    TraceWords {
        file: value(found, "FILE"),
        json: value(found, "json"),
    }
}

// The words of `explain`.
fn explain_words<'a>(found: &ArgMatches<'a>) -> ExplainWords<'a>
    ensures file { text_of result.file ≡ first_of (codes "FILE") (rows_of (found_of found.now)) }
    ensures config { text_of result.config ≡ first_of (codes "config") (rows_of (found_of found.now)) }
    ensures json { text_of result.json ≡ first_of (codes "json") (rows_of (found_of found.now)) }
{
    ExplainWords {
        file: value(found, "FILE"),
        config: value(found, "config"),
        json: value(found, "json"),
    }
}

// The words of `draw`.
fn draw_words<'a>(found: &ArgMatches<'a>) -> DrawWords<'a>
    ensures { drawn_of result ≡ drawn_in (rows_of (found_of found.now)) }
{
    DrawWords {
        file: value(found, "FILE"),
        rows: value(found, "rows"),
        text: value(found, "text"),
        html: value(found, "html"),
        names: value(found, "names"),
        without_claims: value(found, "without-claims"),
    }
}

// The words of `table`.
fn table_words<'a>(alloc: Global, found: &ArgMatches<'a>) -> Result<Option<Action<'a>>, AllocError>
    ensures { IfOk result (λ action. option_map texts_of action ≡ planning_in (rows_of (found_of found.now))) }
{
    let Some(config) = value(found, "CONFIG") else {
        return Ok(None);
    };
    let Some(members) = found.get_strs("MEMBER") else {
        return Ok(None);
    };
    Ok(Some(Action::Table(TableWords {
        config,
        members: Vec::from_slice(alloc, members)?,
        old: value(found, "old"),
        json: value(found, "json"),
    })))
}
