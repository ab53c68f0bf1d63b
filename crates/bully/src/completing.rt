ghost use Rattle.std.specs.Prelude.{◌≡◌, ◌≤◌, ◌⊎◌};
ghost use Rattle.bully.specs.FollowAnswer.{IsCompletionAnswer};

use crate::explaining::write_sheet;
use crate::telling::{Stop, answer_stop, tell};
use bully_cli::{Shell, completion};
use std::alloc::Global;
use std::io::Write;

/// Writes what the shell of this name completes the program's words by, and tells the status.
pub fn answer_completion<W: Write, E: Write>(
    alloc: Global,
    shell: &str,
    output: &mut W,
    errors: &mut E,
) -> u8
    ensures answer { IsCompletionAnswer shell.now (W.contents output.old) (W.contents output.new)
        (E.contents errors.old) (E.contents errors.new) result }
    ensures silent { (result ≡ 2) ⊎ (result ≡ 3) → output.new ≡ output.old }
    ensures status { result ≤ 4 }
{
    let Some(shell) = Shell::named(shell) else {
        tell(
            errors,
            "bully: words: Shell: the shell has to be bash, zsh or fish\n",
        );
        return 2;
    };
    match completion(alloc, shell) {
        Ok(text) => write_sheet(0, text.as_str(), output, errors),
        Err(_) => answer_stop(Stop::OutOfMemory, errors),
    }
}
