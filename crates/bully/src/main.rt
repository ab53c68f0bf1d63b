//! The program `bully`: it judges, follows, explains, draws, upgrades and annotates recorded traces, plays groups, runs
//! them in threads, plans tables, and completes its own words.
//!
//! It stands on bully_nodes, bully_follow, bully_explain, bully_draft, bully_page, bully_picture, bully_annotate,
//! bully_json, bully_config, bully_table, the crates below them, bully_paint and bully_cli. No crate stands on it; its
//! callers rely on the statuses: 0 done, lawful or help asked for; 1 refused or differs; 2 bad words; 3 a fault of form
//! in a trace or a configuration, or a trace too long to annotate; 4 what stops it from outside, as Read, Write, Spawn,
//! Finish or OutOfMemory.
#![tactic(auto)]

mod annotating;
mod answering;
mod checking;
mod colours;
mod completing;
mod configs;
mod drawing;
mod explaining;
mod filming;
mod flags;
mod following;
mod growing;
mod input;
mod pipes;
mod playing;
mod refusals;
mod running;
mod tables;
mod telling;
mod upgrading;

use crate::answering::answer;
use crate::colours::{are_wanted, ask_for_people};
use crate::telling::{Stop, answer_stop, answer_unread};
use bully_paint::Painted;
use std::io::{BufWriter, IsTerminal};
use std::process::ExitCode;
use std::{env, io};

fn main(rt: HostRuntime) -> ExitCode {
    let mut errors = Painted::new(rt.stderr(), rt.stderr().is_terminal() && are_wanted(&rt));
    let words = match words_after_name(&rt) {
        Ok(words) => words,
        Err(error) => return ExitCode::from(answer_unread(&error, &mut errors)),
    };
    let words = words.as_slice();
    let Ok(output) = BufWriter::new(rt.alloc(), rt.stdout()) else {
        return ExitCode::from(answer_stop(Stop::OutOfMemory, &mut errors));
    };
    let is_coloured = rt.stdout().is_terminal()
        && are_wanted(&rt)
        && ask_for_people(rt.alloc(), words);
    let mut output = Painted::new(output, is_coloured);
    ExitCode::from(answer(&rt, words, rt.stdin(), &mut output, &mut errors))
}

// The words after the program's name.
fn words_after_name(rt: &HostRuntime) -> io::Result<Vec<String>> {
    Ok(env::args(rt)?.skip(1).collect(rt.alloc())?)
}
