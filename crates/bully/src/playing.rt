ghost use Rattle.std.specs.Prelude.{◌≡◌, ◌≢◌, ◌≤◌, ◌⊎◌, ℕ, List};
ghost use Rattle.std.specs.Io.KnownBytes.{Appends};
ghost use Rattle.bully.specs.Answer.{Tells, stop_line};
ghost use Rattle.bully.specs.ConfigAnswer.{IsPlayAnswer};
ghost use Rattle.bully_play.specs.Play.{IsPlay, trace_with};
ghost use Rattle.bully_play.specs.Turns.{IsScheduled};
ghost use Rattle.bully_rows.specs.TraceText.{trace_text};
ghost use Rattle.bully_calls.specs.declared.event.Event.{Event};

use crate::configs::{bytes_at, config_of};
use crate::refusals::{Refusal, answer_refusal};
use crate::telling::{Stop, answer_stop, finish};
use bully_config::Config;
use bully_play::play;
use std::alloc::Global;
use std::io::Write;
use std::rt::Files;

/// Plays the group of the configuration at the path, with the trace on the output, and tells the status.
pub fn answer_play<H: Files + AllocGlobal, W: Write, E: Write>(
    rt: &H,
    path: &str,
    output: &mut W,
    errors: &mut E,
) -> u8
    ensures answer { (bytes : List ℕ) × IsPlayAnswer bytes (W.contents output.old) (W.contents output.new)
        (E.contents errors.old) (E.contents errors.new) result }
    ensures silent { (result ≡ 2) ⊎ (result ≡ 3) → output.new ≡ output.old }
    ensures status { result ≤ 4 }
{
    match bytes_at(rt, path) {
        Ok(bytes) => play_bytes(rt.alloc(), bytes.as_slice(), output, errors),
        Err(stop) => answer_stop(stop, errors),
    }
}

/// Plays the group of the configuration that these bytes of a file are, with the trace on the output, and tells
/// the status.
pub fn play_bytes<W: Write, E: Write>(
    alloc: Global,
    bytes: &[u8],
    output: &mut W,
    errors: &mut E,
) -> u8
    ensures answer { IsPlayAnswer bytes.now (W.contents output.old) (W.contents output.new) (E.contents errors.old)
        (E.contents errors.new) result }
    ensures silent { (result ≡ 2) ⊎ (result ≡ 3) → output.new ≡ output.old }
    ensures status { result ≤ 4 }
{
    match config_of(alloc, bytes) {
        Ok(config) => answer_config(alloc, &config, output, errors),
        Err(fault) => answer_refusal(alloc, Refusal::from(fault), errors),
    }
}

// The status of what is played, whose trace stands on the output.
fn answer_config<W: Write, E: Write>(
    alloc: Global,
    config: &Config,
    output: &mut W,
    errors: &mut E,
) -> u8
    ensures { ((result ≡ 0) × (errors.new ≡ errors.old)
        × ((events : List Event) × IsPlay config.now events × IsScheduled config.now events
        × Appends (W.contents output.old) (W.contents output.new) (trace_text (trace_with config.now.setup events))))
        ⊎ ((result ≡ 4) × (stop : Stop) × (stop ≢ Stop.Write → output.new ≡ output.old)
        × Tells (E.contents errors.old) (E.contents errors.new) (stop_line stop)) }
{
    match play(alloc, config, output) {
        Ok(()) => finish(0, output, errors),
        Err(fault) => answer_stop(Stop::from(fault), errors),
    }
}
