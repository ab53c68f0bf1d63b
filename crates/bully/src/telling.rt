ghost use Rattle.std.specs.Prelude.{◌≡◌, ◌≢◌, ◌⊎◌, codes, None, Some, IfOk, string_bytes, take};
ghost use Rattle.std.specs.IoError.{error_kind};
ghost use Rattle.std.specs.Io.KnownBytes.{Appends, Keeps};
ghost use Rattle.bully.specs.Answer.{Tells, stop_of, stop_line, row_line};

use bully_base::OutOfMemory;
use bully_play::PlayFault;
use bully_rows::{TraceCause, TraceFault};
use std::alloc::Global;
use std::io;
use std::io::{ErrorKind, Write};

/// What stops the program from outside: the faults of status 4.
#[derive(Clone, Copy)]
pub enum Stop {
    /// The input failed.
    Read,
    /// The output failed.
    Write,
    /// An allocation failed.
    OutOfMemory,
}

impl From<PlayFault> for Stop {
    ghost use Rattle.bully.specs.ConfigAnswer.{stop_of_trace};

    ghost from_gives = { λ fault stop. stop ≡ stop_of_trace fault };

    fn from(fault: PlayFault) -> Stop {
        match fault {
            PlayFault::Write => Stop::Write,
            PlayFault::OutOfMemory => Stop::OutOfMemory,
        }
    }
}

/// Ends what was done with this status: flushes the output. Where that fails the status is 4.
pub fn finish<W: Write, E: Write>(status: u8, output: &mut W, errors: &mut E) -> u8
    ensures { ((result ≡ status) × Keeps (W.contents output.old) (W.contents output.new) × (errors.new ≡ errors.old))
        ⊎ ((result ≡ 4) × Tells (E.contents errors.old) (E.contents errors.new) (stop_line Stop.Write)) }
{
    if output.flush().is_err() {
        return answer_stop(Stop::Write, errors);
    }
    status
}

/// Tells a fault of a trace on the errors. The status is 3 for a fault of form, and 4 for each other one and
/// where there is no memory for the line.
pub fn answer_fault<E: Write>(alloc: Global, fault: TraceFault, errors: &mut E) -> u8
    ensures form { stop_of fault.cause ≡ None
        → ((result ≡ 3) × Tells (E.contents errors.old) (E.contents errors.new) (row_line fault))
        ⊎ ((result ≡ 4) × Tells (E.contents errors.old) (E.contents errors.new) (stop_line Stop.OutOfMemory)) }
    ensures other { (stop : Stop) → stop_of fault.cause ≡ Some stop
        → (result ≡ 4) × Tells (E.contents errors.old) (E.contents errors.new) (stop_line stop) }
{
    if let Some(stop) = stop_of(fault.cause) {
        return answer_stop(stop, errors);
    }
    match row_line(alloc, fault) {
        Ok(line) => {
            tell(errors, line.as_str());
            3
        }
        Err(_) => answer_stop(Stop::OutOfMemory, errors),
    }
}

/// Tells on the errors what stopped the program. The status is 4.
pub fn answer_stop<E: Write>(stop: Stop, errors: &mut E) -> u8
    ensures status { result ≡ 4 }
    ensures line { Tells (E.contents errors.old) (E.contents errors.new) (stop_line stop) }
{
    tell(errors, stop_line(stop));
    4
}

/// Tells on the errors why the words can't be read, and the status: 4 for want of memory, and 2 where a word is no
/// text.
pub fn answer_unread<E: Write>(error: &io::Error, errors: &mut E) -> u8
    ensures memory { error_kind error.now ≡ ErrorKind.OutOfMemory
        → (result ≡ 4) × Tells (E.contents errors.old) (E.contents errors.new) (stop_line Stop.OutOfMemory) }
    ensures other { error_kind error.now ≢ ErrorKind.OutOfMemory
        → (result ≡ 2) × Tells (E.contents errors.old) (E.contents errors.new) (codes "error: a word isn't UTF-8\n") }
{
    if error.kind() == ErrorKind::OutOfMemory {
        return answer_stop(Stop::OutOfMemory, errors);
    }
    tell(errors, "error: a word isn't UTF-8\n");
    2
}

/// Writes the text up to its end or to the first write that fails: so some part from its front.
pub fn tell<E: Write>(errors: &mut E, text: &str)
    ensures { Tells (E.contents errors.old) (E.contents errors.new) text.now }
{
    put(errors, text.as_bytes());
}

// Writes the bytes up to their end or to the first write that fails, and tells how many were written.
fn put<E: Write>(errors: &mut E, bytes: &[u8]) -> usize
    ensures { Appends (E.contents errors.old) (E.contents errors.new) (take result bytes.now) }
{
    let mut written = 0;
    while written < bytes.len() {
        match errors.write(&bytes[written..]) {
            Ok(0) | Err(_) => return written,
            Ok(count) => written += count,
        }
    }
    written
}

// What stops the program, where the cause is no fault of form.
fn stop_of(cause: TraceCause) -> Option<Stop>
    ensures { result ≡ stop_of cause }
{
    match cause {
        TraceCause::BadHeader | TraceCause::BadRow | TraceCause::TooManyRows => None,
        TraceCause::Read => Some(Stop::Read),
        TraceCause::Write => Some(Stop::Write),
        TraceCause::OutOfMemory => Some(Stop::OutOfMemory),
    }
}

// The line of what stopped the program.
fn stop_line(stop: Stop) -> &'static str
    ensures { result.now ≡ stop_line stop }
{
    match stop {
        Stop::Read => "bully: Read\n",
        Stop::Write => "bully: Write\n",
        Stop::OutOfMemory => "bully: OutOfMemory\n",
    }
}

/// The line of a fault of form.
pub fn row_line(alloc: Global, fault: TraceFault) -> Result<String, OutOfMemory>
    ensures { IfOk result (λ line. string_bytes line ≡ row_line fault) }
{
    let mut line = String::new(alloc);
    let row = fault.row;
    let cause = fault.cause;
    writeln!(line, "bully: trace row {row}: {cause}")?;
    Ok(line)
}
