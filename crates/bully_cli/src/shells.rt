//! What shells complete the program's words by, made from its command line.
ghost use Rattle.std.specs.Prelude.{◌≡◌};
ghost use Rattle.bully_cli.specs.Shells.{shell_named};

use crate::command::command_line;
use clap::{Arg, ArgAction, Command};
use std::alloc::{AllocError, Global};

/// A shell that completes words.
#[derive(Clone, Copy)]
pub enum Shell {
    Bash,
    Zsh,
    Fish,
}

impl Shell {
    /// The shell of this name.
    pub fn named(name: &str) -> Option<Shell>
        ensures { result ≡ shell_named name.now }
    {
        match name {
            "bash" => Some(Shell::Bash),
            "zsh" => Some(Shell::Zsh),
            "fish" => Some(Shell::Fish),
            _ => None,
        }
    }
}

/// The names of the shells, separated by single spaces.
const SHELLS: &str = "bash zsh fish";

/// The same as zsh takes them.
const SHELL_CHOICE: &str = "(bash zsh fish)";

/// What the shell reads to complete the program's commands and options, and the paths after them. Refused where an
/// allocation fails.
pub fn completion(alloc: Global, shell: Shell) -> Result<String, AllocError> {
    let command = command_line(alloc)?;
    completion_by(alloc, shell, command.get_subcommands())
}

// The same, from the commands of the command line.
fn completion_by(
    alloc: Global,
    shell: Shell,
    commands: &[Command<'_>],
) -> Result<String, AllocError> {
    let mut text = String::new(alloc);
    push_completion(&mut text, shell, commands)?;
    Ok(text)
}

// Appends the same to a text.
fn push_completion(
    text: &mut String,
    shell: Shell,
    commands: &[Command<'_>],
) -> Result<(), AllocError> {
    match shell {
        Shell::Bash => push_bash(text, commands),
        Shell::Zsh => push_zsh(text, commands),
        Shell::Fish => push_fish(text, commands),
    }
}

// Whether the argument is the name of a shell.
fn is_shell(arg: &Arg<'_>) -> bool {
    arg.get_id() == "SHELL"
}

// Whether the value of the argument is the path of a file.
fn is_path(arg: &Arg<'_>) -> bool {
    match arg.get_id() {
        "FILE" | "CONFIG" | "config" | "names" => true,
        _ => false,
    }
}

// Whether the argument comes after its name, as `--rows 2-50` does.
fn has_value(arg: &Arg<'_>) -> bool {
    !arg.is_positional() && arg.get_action() != ArgAction::SetTrue
}

// Appends the names of the commands, each after a space.
fn push_names(text: &mut String, commands: &[Command<'_>]) -> Result<(), AllocError> {
    for command in commands {
        text.push_str(" ")?;
        text.push_str(command.get_name())?;
    }
    Ok(())
}

// ---- bash

fn push_bash(text: &mut String, commands: &[Command<'_>]) -> Result<(), AllocError> {
    text.push_str(
        "# What bash completes the words of bully by: bully completion bash > FILE, and then source FILE.\n\
         _bully() {\n    \
         local word=${COMP_WORDS[COMP_CWORD]} before=${COMP_WORDS[COMP_CWORD - 1]} words='--help' paths= values= \
         is_file=\n    \
         case ${COMP_WORDS[1]} in\n",
    )?;
    for command in commands {
        push_bash_command(text, command)?;
    }
    text.push_str("        help) words='")?;
    push_bash_names(text, commands)?;
    text.push_str(
        "' ;;\n    esac\n    if ((COMP_CWORD == 1)); then\n        words='--help --version help",
    )?;
    push_names(text, commands)?;
    text.push_str(
        "'\n    elif [[ \" $values \" == *\" $before \"* ]]; then\n        words=\n    \
         elif [[ \" $paths \" == *\" $before \"* || ( $is_file && $word != -* ) ]]; then\n        \
         compopt -o filenames 2>/dev/null\n        mapfile -t COMPREPLY < <(compgen -f -- \"$word\")\n        \
         return\n    fi\n    \
         mapfile -t COMPREPLY < <(compgen -W \"$words\" -- \"$word\")\n}\ncomplete -F _bully bully\n",
    )?;
    Ok(())
}

// Appends the names of the commands, the first of them without a space before it.
fn push_bash_names(text: &mut String, commands: &[Command<'_>]) -> Result<(), AllocError> {
    let mut gap = "";
    for command in commands {
        text.push_str(gap)?;
        text.push_str(command.get_name())?;
        gap = " ";
    }
    Ok(())
}

// Appends which words may come after a command, and which of its options have a path after them, or another value.
fn push_bash_command(text: &mut String, command: &Command<'_>) -> Result<(), AllocError> {
    text.push_str("        ")?;
    text.push_str(command.get_name())?;
    text.push_str(") words='--help")?;
    for arg in command.get_arguments() {
        push_bash_word(text, arg)?;
    }
    text.push_str("' paths='")?;
    push_bash_options(text, command, true)?;
    text.push_str("' values='")?;
    push_bash_options(text, command, false)?;
    text.push_str("'")?;
    if command
        .get_arguments()
        .iter()
        .any(|arg| arg.is_positional() && is_path(arg))
    {
        text.push_str(" is_file=1")?;
    }
    text.push_str(" ;;\n")
}

// Appends the words that an argument has at its place, each after a space; none of a path.
fn push_bash_word(text: &mut String, arg: &Arg<'_>) -> Result<(), AllocError> {
    match arg.get_long() {
        Some(name) => write!(text, " --{name}"),
        None if is_shell(arg) => write!(text, " {SHELLS}"),
        None => Ok(()),
    }
}

// Appends the options with a value that is a path, or isn't one, each before a space.
fn push_bash_options(
    text: &mut String,
    command: &Command<'_>,
    are_paths: bool,
) -> Result<(), AllocError> {
    for arg in command.get_arguments() {
        if let Some(name) = arg.get_long()
            && has_value(arg)
            && is_path(arg) == are_paths
        {
            write!(text, "--{name} ")?;
        }
    }
    Ok(())
}

// ---- zsh

fn push_zsh(text: &mut String, commands: &[Command<'_>]) -> Result<(), AllocError> {
    text.push_str(
        "#compdef bully\n# What zsh completes the words of bully by: a file _bully in a folder of fpath.\n\
         _bully() {\n    local -a commands\n    commands=(\n",
    )?;
    for command in commands {
        push_zsh_name(text, command)?;
    }
    text.push_str(
        "        'help:Prints help of a command'\n    )\n    if ((CURRENT == 2)); then\n        _describe command \
         commands\n        \
         _arguments '--help[Prints help]' '--version[Prints the version]'\n        return\n    fi\n    shift \
         words\n    ((CURRENT--))\n    case $words[1] in\n",
    )?;
    for command in commands {
        push_zsh_command(text, command)?;
    }
    text.push_str(
        "        help) _describe command commands ;;\n    esac\n}\n\
         if [[ $funcstack[1] == _bully ]]; then\n    _bully \"$@\"\nelse\n    compdef _bully bully\nfi\n",
    )
}

// Appends the name of a command and what it does.
fn push_zsh_name(text: &mut String, command: &Command<'_>) -> Result<(), AllocError> {
    text.push_str("        '")?;
    text.push_str(command.get_name())?;
    text.push_str(":")?;
    text.push_str(command.get_about().unwrap_or(""))?;
    text.push_str("'\n")
}

// Appends which words may come after a command.
fn push_zsh_command(text: &mut String, command: &Command<'_>) -> Result<(), AllocError> {
    text.push_str("        ")?;
    text.push_str(command.get_name())?;
    text.push_str(") _arguments '--help[Prints help]'")?;
    for arg in command.get_arguments() {
        push_zsh_arg(text, arg)?;
    }
    text.push_str(" ;;\n")
}

// Appends an argument, with what may stand there.
fn push_zsh_arg(text: &mut String, arg: &Arg<'_>) -> Result<(), AllocError> {
    let values = if is_path(arg) {
        "_files"
    } else if is_shell(arg) {
        SHELL_CHOICE
    } else {
        ""
    };
    text.push_str(" '")?;
    match arg.get_long() {
        Some(name) => {
            text.push_str("--")?;
            text.push_str(name)?;
            text.push_str("[")?;
            text.push_str(arg.get_help().unwrap_or(""))?;
            text.push_str("]")?;
        }
        None if arg.get_action() == ArgAction::Append => text.push_str("*")?,
        None => {}
    }
    if arg.is_positional() || has_value(arg) {
        text.push_str(":")?;
        text.push_str(arg.get_id())?;
        text.push_str(":")?;
        text.push_str(values)?;
    }
    text.push_str("'")
}

// ---- fish

fn push_fish(text: &mut String, commands: &[Command<'_>]) -> Result<(), AllocError> {
    text.push_str(
        "# What fish completes the words of bully by: ~/.config/fish/completions/bully.fish.\ncomplete -c bully -f\n",
    )?;
    text.push_str(
        "complete -c bully -n __fish_use_subcommand -l help -d 'Prints help'\n\
         complete -c bully -n __fish_use_subcommand -l version -d 'Prints the version'\n",
    )?;
    text.push_str(
        "complete -c bully -n __fish_use_subcommand -a help -d 'Prints help of a command'\n",
    )?;
    for command in commands {
        push_fish_command(text, command)?;
    }
    text.push_str("complete -c bully -n '__fish_seen_subcommand_from help' -a '")?;
    push_bash_names(text, commands)?;
    text.push_str("'\n")
}

// Appends a command, and which words may come after it.
fn push_fish_command(text: &mut String, command: &Command<'_>) -> Result<(), AllocError> {
    let name = command.get_name();
    let about = command.get_about().unwrap_or("");
    write!(
        text,
        "complete -c bully -n __fish_use_subcommand -a {name} -d '{about}'\n"
    )?;
    write!(
        text,
        "complete -c bully -n '__fish_seen_subcommand_from {name}' -l help -d 'Prints help'\n"
    )?;
    for arg in command.get_arguments() {
        push_fish_arg(text, name, arg)?;
    }
    Ok(())
}

// Appends an argument of the command of this name.
fn push_fish_arg(text: &mut String, name: &str, arg: &Arg<'_>) -> Result<(), AllocError> {
    let about = arg.get_help().unwrap_or("");
    write!(
        text,
        "complete -c bully -n '__fish_seen_subcommand_from {name}'"
    )?;
    if let Some(long) = arg.get_long() {
        write!(text, " -l {long} -d '{about}'")?;
    }
    if is_path(arg) {
        text.push_str(" -F")?;
    } else if is_shell(arg) {
        write!(text, " -a '{SHELLS}'")?;
    }
    match has_value(arg) {
        true if is_path(arg) => text.push_str(" -r\n"),
        true => text.push_str(" -x\n"),
        false => text.push_str("\n"),
    }
}
