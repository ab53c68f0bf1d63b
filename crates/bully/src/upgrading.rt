ghost use Rattle.std.specs.Prelude.{◌≡◌, ◌≤◌, ◌⊎◌, IfSome};
ghost use Rattle.bully.specs.Answer.{IsUpgradeAnswer};

use crate::telling::{answer_fault, finish};
use bully_trace::upgrade;
use std::alloc::Global;
use std::io::{Read, Write};

/// Upgrades the trace on the input, with the one of version 2, or 3 where a row says more, on the output, and tells the
/// status. The number of its rows isn't told.
pub fn answer_upgrade<R: Read + Drop, W: Write, E: Write>(
    alloc: Global,
    input: R,
    output: &mut W,
    errors: &mut E,
) -> u8
    ensures answer { IfSome (R.remaining input) (λ bytes. IsUpgradeAnswer bytes (W.contents output.old)
        (W.contents output.new) (E.contents errors.old) (E.contents errors.new) result) }
    ensures silent { (result ≡ 2) ⊎ (result ≡ 3) → output.new ≡ output.old }
    ensures status { result ≤ 4 }
{
    match upgrade(alloc, input, output) {
        Ok(_) => finish(0, output, errors),
        Err(fault) => answer_fault(alloc, fault, errors),
    }
}
