//! Which answers have colours.
ghost use Rattle.std.specs.Prelude.{◌≡◌};
ghost use Rattle.bully_cli.specs.Words.{texts_of};
ghost use Rattle.bully.specs.People.{is_for_people};

use crate::flags::is_given;
use bully_cli::{Action, action_of};
use bully_paint::wants_colours;
use std::alloc::Global;
use std::env;
use std::env::{Env, VarError};

/// Whether the words, those after the program's name, ask for an answer to people.
pub fn ask_for_people(alloc: Global, words: &[String]) -> bool {
    match action_of(alloc, words) {
        Ok(action) => is_for_people(&action),
        Err(_) => false,
    }
}

/// Whether the answer to this is for people, and not for programs.
pub fn is_for_people(action: &Action<'_>) -> bool
    ensures { result ≡ is_for_people (texts_of action.now) }
{
    match action {
        Action::Check(words) | Action::Follow(words) => !is_given(words.json),
        Action::Explain(words) => !is_given(words.json),
        Action::Draw(words) => is_given(words.text),
        Action::Upgrade(_)
        | Action::Annotate(_)
        | Action::Play(_)
        | Action::Run(_)
        | Action::Table(_)
        | Action::Completion(_) => false,
    }
}

/// Whether the environment has terminals show colours. A variable that can't be read has a value.
pub fn are_wanted<H: Env + AllocGlobal>(rt: &H) -> bool {
    let no_color = env::var(rt, "NO_COLOR");
    let term = env::var(rt, "TERM");
    wants_colours(value_of(&no_color), value_of(&term))
}

// The value of a variable, if it is set.
fn value_of(variable: &Result<String, VarError>) -> Option<&str> {
    match variable {
        Ok(text) => Some(text.as_str()),
        Err(VarError::NotPresent) => None,
        Err(_) => Some("dumb"),
    }
}
