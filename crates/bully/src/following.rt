ghost use Rattle.std.specs.Prelude.{◌≢◌, ◌≤◌, IfSome};
ghost use Rattle.bully.specs.FollowAnswer.{IsFollowAnswer};
ghost use Rattle.bully.specs.Inputs.{bounded_in, remaining_in};

use crate::checking::verdict_status;
use crate::growing::Growing;
use crate::input::Input;
use crate::telling::answer_fault;
use bully_account::Account;
use bully_base::OutOfMemory;
use bully_explain::account_sheet;
use bully_follow::{Explainer, Telling, follow};
use bully_text::BoundedRows;
use std::alloc::Global;
use std::fs::OpenFile;
use std::io::{Read, Write};
use std::rt::Clock;

// Explains a verdict by the sheet that `explain` writes of it.
struct SheetExplainer;

impl Explainer for SheetExplainer {
    ghost use Rattle.bully_explain.specs.SheetText.{BeginsSheet};

    ghost explains = { BeginsSheet };

    fn explain(&self, alloc: Global, account: &Account) -> Result<String, OutOfMemory> {
        account_sheet(alloc, account)
    }
}

/// Follows the trace on the input, with what changes on the output, and tells the status. A regular file is one that
/// grows.
pub fn answer_follow<C: Clock, R: Read + Drop, F: Read + OpenFile + Drop, W: Write, E: Write>(
    clock: &C,
    alloc: Global,
    is_json: bool,
    input: Input<R, F>,
    output: &mut W,
    errors: &mut E,
) -> u8
    ensures answer { IfSome (bounded_in (remaining_in R.remaining F.remaining input)) (λ bytes.
        IsFollowAnswer bytes (E.contents errors.old) (E.contents errors.new) result) }
    ensures words { result ≢ 2 }
    ensures status { result ≤ 4 }
{
    match input {
        Input::Given(reader) => follow_input(
            clock,
            alloc,
            is_json,
            BoundedRows::new(reader),
            output,
            errors,
        ),
        Input::Opened(file) => {
            let file = BoundedRows::new(Growing::new(clock, file));
            follow_input(clock, alloc, is_json, file, output, errors)
        }
    }
}

// Follows what this reader gives.
fn follow_input<C: Clock, R: Read + Drop, W: Write, E: Write>(
    clock: &C,
    alloc: Global,
    is_json: bool,
    input: R,
    output: &mut W,
    errors: &mut E,
) -> u8
    ensures answer { IfSome (R.remaining input) (λ bytes.
        IsFollowAnswer bytes (E.contents errors.old) (E.contents errors.new) result) }
    ensures words { result ≢ 2 }
    ensures status { result ≤ 4 }
{
    let telling = if is_json {
        Telling::Json
    } else {
        Telling::Words
    };
    match follow(clock, &SheetExplainer, alloc, telling, input, &mut *output) {
        Ok(verdict) => verdict_status(verdict),
        Err(fault) => answer_fault(alloc, fault, errors),
    }
}
