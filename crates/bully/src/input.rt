//! Where a trace comes from: standard input, or a file.
ghost use Rattle.std.specs.Prelude.{◌≡◌, ℕ, List, IfOk, string_bytes};
ghost use Rattle.bully.specs.AskedAnswer.{IsUnopened, unopened_line};

use crate::telling::{Stop, answer_stop, tell};
use bully_base::OutOfMemory;
use bully_draft::push_shown;
use std::alloc::Global;
use std::io;
use std::io::{ErrorKind, Read, Write};

/// What a trace is read from: what was given, or a file that was opened.
#[derive(Drop)]
pub enum Input<R: Read, F: Read> {
    Given(R),
    Opened(F),
}

impl<R: Read, F: Read> Read for Input<R, F> {
    ghost use Rattle.bully.specs.Inputs.{remaining_in};

    ghost remaining = { remaining_in R.remaining F.remaining };

    fn read(&mut self, buf: &mut [u8]) -> io::Result<usize> {
        match self {
            Input::Given(reader) => reader.read(buf),
            Input::Opened(file) => file.read(buf),
        }
    }
}

/// Tells on the errors why the file at the path can't be opened: want of memory as ever, else the path and the reason.
/// The status is 4.
pub fn answer_unopened<E: Write>(alloc: Global, path: &str, error: &io::Error, errors: &mut E) -> u8
    ensures { IsUnopened path.now (E.contents errors.old) (E.contents errors.new) result }
{
    if error.kind() == ErrorKind::OutOfMemory {
        return answer_stop(Stop::OutOfMemory, errors);
    }
    match unopened_line(alloc, path, error) {
        Ok(line) => {
            tell(errors, line.as_str());
            4
        }
        Err(_) => answer_stop(Stop::OutOfMemory, errors),
    }
}

// The line of a file that can't be opened: its path, as all that comes from outside is shown, and the system's reason.
fn unopened_line(alloc: Global, path: &str, error: &io::Error) -> Result<String, OutOfMemory>
    ensures { IfOk result (λ line. (reason : List ℕ) × (string_bytes line ≡ unopened_line path.now reason)) }
{
    let mut reason = String::new(alloc);
    write!(reason, "{error}")?;
    let mut line = String::new(alloc);
    line.push_str("bully: ")?;
    push_shown(&mut line, path)?;
    line.push_str(": ")?;
    line.push_str(reason.as_str())?;
    line.push_str("\n")?;
    Ok(line)
}
