ghost use Rattle.std.specs.Prelude.{◌≡◌, codes, false, IfOk, IsOkAnd, Ok};
ghost use Rattle.clap.specs.Words.{app_of, new_app, rule_of, with_rule};
ghost use Rattle.clap.specs.declared.builder.command.Command.TheViews.{out-Command as fields_of};
ghost use Rattle.bully_cli.specs.Words.{annotate_app, bare, check_app, claims_rule, completion_app, config_rule};
ghost use Rattle.bully_cli.specs.Words.{draw_app, explain_app, explained_rule, file_rule, flag_rule, follow_app};
ghost use Rattle.bully_cli.specs.Words.{html_rule, json_rule, member_rule, names_rule, old_rule, option_rule, play_app};
ghost use Rattle.bully_cli.specs.Words.{program, rows_rule, run_app, shell_rule, table_app, text_rule, trace_app};
ghost use Rattle.bully_cli.specs.Words.{upgrade_app, IsLocalCommand, ReadsAs};

use crate::help;
use clap::{Arg, ArgAction, Command};
use std::alloc::{AllocError, Global};

/// The program's command line.
pub fn command_line<'a>(alloc: Global) -> Result<Command<'a>, AllocError>
    ensures { ReadsAs program result }
{
    let command = joined(
        bare_command(alloc),
        check_command(alloc),
        Command::subcommand,
    );
    let command = joined(command, explain_command(alloc), Command::subcommand);
    let command = joined(command, follow_command(alloc), Command::subcommand);
    let command = joined(command, upgrade_command(alloc), Command::subcommand);
    let command = joined(command, annotate_command(alloc), Command::subcommand);
    let command = joined(command, draw_command(alloc), Command::subcommand);
    let command = joined(command, play_command(alloc), Command::subcommand);
    let command = joined(command, run_command(alloc), Command::subcommand);
    let command = joined(command, table_command(alloc), Command::subcommand);
    joined(command, completion_command(alloc), Command::subcommand)
}

// What the function makes of the two, where memory sufficed for both.
fn joined<A: Drop, B: Drop, C, F: FnOnce(A, B) -> Result<C, AllocError> + Drop>(
    one: Result<A, AllocError>,
    other: Result<B, AllocError>,
    join: F,
) -> Result<C, AllocError>
    requires { IfOk one (λ a. IfOk other (λ b. F.pre join a b)) }
    ensures { IfOk result (λ c. IsOkAnd one (λ a. IsOkAnd other (λ b. F.post join a b (Ok c)))) }
{
    match (one, other) {
        (Ok(one), Ok(other)) => join(one, other),
        _ => Err(AllocError),
    }
}

// A command with no arguments.
fn described_command<'a>(
    alloc: Global,
    name: &'a str,
    about: &'a str,
    after_help: &'a str,
) -> Command<'a>
    ensures reads { app_of result ≡ new_app name.entry.now }
    ensures local { (fields_of result).has_globals ≡ false }
{
    Command::new(alloc, name)
        .about(about)
        .after_help(after_help)
}

// The command line without its commands, of which one is required.
fn bare_command<'a>(alloc: Global) -> Result<Command<'a>, AllocError>
    ensures { ReadsAs bare result }
{
    let about = "Checks recorded runs of the Bully election algorithm";
    described_command(alloc, "bully", about, help::PROGRAM)
        .version(help::VERSION)
        .no_binary_name(true)
        .subcommand_required(true)
        .bin_name("bully")
}

// A command that reads a trace.
fn trace_command<'a>(
    alloc: Global,
    name: &'a str,
    about: &'a str,
    after_help: &'a str,
) -> Result<Command<'a>, AllocError>
    ensures { IsLocalCommand (trace_app name.entry.now) result }
{
    described_command(alloc, name, about, after_help).arg(file_arg(alloc))
}

// The command that judges a trace.
fn check_command<'a>(alloc: Global) -> Result<Command<'a>, AllocError>
    ensures { IsLocalCommand check_app result }
{
    let command = trace_command(alloc, "check", "Judges a trace", help::CHECK);
    joined(command, Ok(json_arg(alloc)), Command::arg)
}

// The command that explains a verdict, or a configuration's fault.
fn explain_command<'a>(alloc: Global) -> Result<Command<'a>, AllocError>
    ensures { IsLocalCommand explain_app result }
{
    let about = "Explains the verdict on a trace";
    let command = trace_command(alloc, "explain", about, help::EXPLAIN);
    let command = joined(command, Ok(explained_arg(alloc)), Command::arg);
    joined(command, Ok(json_arg(alloc)), Command::arg)
}

// The command that judges a trace that grows.
fn follow_command<'a>(alloc: Global) -> Result<Command<'a>, AllocError>
    ensures { IsLocalCommand follow_app result }
{
    let about = "Judges a trace row by row while it grows";
    let command = trace_command(alloc, "follow", about, help::FOLLOW);
    joined(command, Ok(json_arg(alloc)), Command::arg)
}

// The command that upgrades a trace.
fn upgrade_command<'a>(alloc: Global) -> Result<Command<'a>, AllocError>
    ensures { IsLocalCommand upgrade_app result }
{
    let about = "Upgrades a trace to version 2 or 3";
    trace_command(alloc, "upgrade", about, help::UPGRADE)
}

// The command that annotates a trace.
fn annotate_command<'a>(alloc: Global) -> Result<Command<'a>, AllocError>
    ensures { IsLocalCommand annotate_app result }
{
    let about = "Annotates a lawful trace: each call, answer and vector";
    trace_command(alloc, "annotate", about, help::ANNOTATE)
}

// The command that draws a trace.
fn draw_command<'a>(alloc: Global) -> Result<Command<'a>, AllocError>
    ensures { IsLocalCommand draw_app result }
{
    let about = "Draws a trace as an SVG picture, a page or text";
    let command = trace_command(alloc, "draw", about, help::DRAW);
    let command = joined(command, Ok(rows_arg(alloc)), Command::arg);
    let command = joined(command, Ok(text_arg(alloc)), Command::arg);
    let command = joined(command, Ok(html_arg(alloc)), Command::arg);
    let command = joined(command, Ok(names_arg(alloc)), Command::arg);
    joined(command, Ok(claims_arg(alloc)), Command::arg)
}

// The command that plays a group.
fn play_command<'a>(alloc: Global) -> Result<Command<'a>, AllocError>
    ensures { IsLocalCommand play_app result }
{
    let about = "Plays a group and writes its trace";
    config_command(alloc, "play", about, help::PLAY)
}

// The command that runs a group in threads.
fn run_command<'a>(alloc: Global) -> Result<Command<'a>, AllocError>
    ensures { IsLocalCommand run_app result }
{
    let about = "Runs a group in threads and writes its history as a trace";
    config_command(alloc, "run", about, help::RUN)
}

// The command that plans a table.
fn table_command<'a>(alloc: Global) -> Result<Command<'a>, AllocError>
    ensures { IsLocalCommand table_app result }
{
    let about = "Plans a table with the fewest moves";
    let command = config_command(alloc, "table", about, help::TABLE);
    let command = joined(command, Ok(member_arg(alloc)), Command::arg);
    let command = joined(command, Ok(old_arg(alloc)), Command::arg);
    joined(command, Ok(json_arg(alloc)), Command::arg)
}

// The command that writes the completion of a shell.
fn completion_command<'a>(alloc: Global) -> Result<Command<'a>, AllocError>
    ensures { IsLocalCommand completion_app result }
{
    let about = "Writes the completion of a shell";
    described_command(alloc, "completion", about, help::COMPLETION).arg(shell_arg(alloc))
}

// A command with the path of a configuration.
fn config_command<'a>(
    alloc: Global,
    name: &'a str,
    about: &'a str,
    after_help: &'a str,
) -> Result<Command<'a>, AllocError>
    ensures { IsLocalCommand (with_rule (new_app name.entry.now) config_rule) result }
{
    described_command(alloc, name, about, after_help).arg(config_arg(alloc))
}

// An option with a value.
fn option_arg<'a>(alloc: Global, name: &'a str, value_name: &'a str, help: &'a str) -> Arg<'a>
    ensures rule { rule_of result ≡ option_rule name.entry.now }
    ensures local { result.global ≡ false }
{
    Arg::new(alloc, name)
        .long(name)
        .value_name(value_name)
        .action(ArgAction::Set)
        .help(help)
}

fn explained_arg<'a>(alloc: Global) -> Arg<'a>
    ensures rule { rule_of result ≡ explained_rule }
    ensures local { result.global ≡ false }
{
    let help = "The path of a configuration, to explain its first fault in place of a trace";
    option_arg(alloc, "config", "CONFIG", help)
}

fn rows_arg<'a>(alloc: Global) -> Arg<'a>
    ensures rule { rule_of result ≡ rows_rule }
    ensures local { result.global ≡ false }
{
    let help = "The rows to draw, at most 2000; row 1 is the header";
    option_arg(alloc, "rows", "FROM-TO", help)
}

fn names_arg<'a>(alloc: Global) -> Arg<'a>
    ensures rule { rule_of result ≡ names_rule }
    ensures local { result.global ≡ false }
{
    let help = "The path of a configuration, whose names are drawn over the lanes";
    option_arg(alloc, "names", "CONFIG", help)
}

fn old_arg<'a>(alloc: Global) -> Arg<'a>
    ensures rule { rule_of result ≡ old_rule }
    ensures local { result.global ≡ false }
{
    let help = "The owners in the old table, separated by single spaces";
    option_arg(alloc, "old", "OWNERS", help)
}

// An option without a value.
fn flag_arg<'a>(alloc: Global, name: &'a str, help: &'a str) -> Arg<'a>
    ensures rule { rule_of result ≡ flag_rule name.entry.now }
    ensures local { result.global ≡ false }
{
    Arg::new(alloc, name)
        .long(name)
        .action(ArgAction::SetTrue)
        .help(help)
}

fn text_arg<'a>(alloc: Global) -> Arg<'a>
    ensures rule { rule_of result ≡ text_rule }
    ensures local { result.global ≡ false }
{
    flag_arg(alloc, "text", "Draws the trace as text, for a terminal")
}

fn html_arg<'a>(alloc: Global) -> Arg<'a>
    ensures rule { rule_of result ≡ html_rule }
    ensures local { result.global ≡ false }
{
    let help = "Draws the trace as a page, with its rows below the picture";
    flag_arg(alloc, "html", help)
}

fn claims_arg<'a>(alloc: Global) -> Arg<'a>
    ensures rule { rule_of result ≡ claims_rule }
    ensures local { result.global ≡ false }
{
    let help = "Leaves claims out, except one at which the trace differs";
    flag_arg(alloc, "without-claims", help)
}

fn json_arg<'a>(alloc: Global) -> Arg<'a>
    ensures rule { rule_of result ≡ json_rule }
    ensures local { result.global ≡ false }
{
    flag_arg(alloc, "json", "Writes JSON, for tools")
}

fn file_arg<'a>(alloc: Global) -> Arg<'a>
    ensures rule { rule_of result ≡ file_rule }
    ensures local { result.global ≡ false }
{
    Arg::new(alloc, "FILE").help("The path of the trace; without it, or as -, standard input")
}

fn shell_arg<'a>(alloc: Global) -> Arg<'a>
    ensures rule { rule_of result ≡ shell_rule }
    ensures local { result.global ≡ false }
{
    Arg::new(alloc, "SHELL")
        .required(true)
        .help("The shell: bash, zsh or fish")
}

fn config_arg<'a>(alloc: Global) -> Arg<'a>
    ensures rule { rule_of result ≡ config_rule }
    ensures local { result.global ≡ false }
{
    Arg::new(alloc, "CONFIG")
        .required(true)
        .help("The path of the configuration")
}

fn member_arg<'a>(alloc: Global) -> Arg<'a>
    ensures rule { rule_of result ≡ member_rule }
    ensures local { result.global ≡ false }
{
    Arg::new(alloc, "MEMBER")
        .required(true)
        .action(ArgAction::Append)
        .help("The name of a member")
}
