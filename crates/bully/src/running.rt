ghost use Rattle.std.specs.Prelude.{◌≡◌, ◌≢◌, ◌≤◌, ◌⊎◌, ℕ, List, map};
ghost use Rattle.std.specs.Io.KnownBytes.{Appends};
ghost use Rattle.bully.specs.Answer.{Tells, stop_line};
ghost use Rattle.bully.specs.ConfigAnswer.{IsRunAnswer, nodes_line};
ghost use Rattle.bully_play.specs.Play.{IsPlay, trace_with};
ghost use Rattle.bully_nodes.specs.Run.{IsNodesFault};
ghost use Rattle.bully_nodes.specs.declared.running.NodesFault.{NodesFault};
ghost use Rattle.bully_rows.specs.TraceText.{trace_text};
ghost use Rattle.bully_watch.specs.History.{event_of};
ghost use Rattle.bully_calls.specs.declared.event.Event.{Event};

use crate::configs::{bytes_at, config_of};
use crate::refusals::{Refusal, answer_refusal};
use crate::telling::{Stop, answer_stop, finish, tell};
use bully_config::Config;
use bully_group::Closed;
use bully_nodes::{Gate, NodesFault, run_nodes, write_history};
use std::alloc::Global;
use std::io::Write;
use std::rt::Files;
use std::sync::Wait;
use std::thread::Threads;

/// Runs the group of the configuration at the path in threads, with its history as a trace on the output, and tells
/// the status.
pub fn answer_run<H: Files + AllocGlobal + Threads + Wait + Sync, W: Write, E: Write>(
    rt: &H,
    path: &str,
    output: &mut W,
    errors: &mut E,
) -> u8
    ensures answer { (bytes : List ℕ) × IsRunAnswer bytes (W.contents output.old) (W.contents output.new)
        (E.contents errors.old) (E.contents errors.new) result }
    ensures silent { (result ≡ 2) ⊎ (result ≡ 3) → output.new ≡ output.old }
    ensures status { result ≤ 4 }
{
    match bytes_at(rt, path) {
        Ok(bytes) => run_bytes(rt, bytes.as_slice(), output, errors),
        Err(stop) => answer_stop(stop, errors),
    }
}

/// Runs the group of the configuration that these bytes of a file are in threads, with its history as a trace on the
/// output, and tells the status.
pub fn run_bytes<H: AllocGlobal + Threads + Wait + Sync, W: Write, E: Write>(
    rt: &H,
    bytes: &[u8],
    output: &mut W,
    errors: &mut E,
) -> u8
    ensures answer { IsRunAnswer bytes.now (W.contents output.old) (W.contents output.new) (E.contents errors.old)
        (E.contents errors.new) result }
    ensures silent { (result ≡ 2) ⊎ (result ≡ 3) → output.new ≡ output.old }
    ensures status { result ≤ 4 }
{
    match config_of(rt.alloc(), bytes) {
        Ok(config) => run_config(rt, &config, output, errors),
        Err(fault) => answer_refusal(rt.alloc(), Refusal::from(fault), errors),
    }
}

// The status of what is run, whose trace stands on the output.
fn run_config<H: AllocGlobal + Threads + Wait + Sync, W: Write, E: Write>(
    rt: &H,
    config: &Config,
    output: &mut W,
    errors: &mut E,
) -> u8
    ensures { ((result ≡ 0) × (errors.new ≡ errors.old)
        × ((events : List Event) × IsPlay config.now events
        × Appends (W.contents output.old) (W.contents output.new) (trace_text (trace_with config.now.setup events))))
        ⊎ ((result ≡ 4) × (fault : NodesFault) × IsNodesFault fault × (output.new ≡ output.old)
        × Tells (E.contents errors.old) (E.contents errors.new) (nodes_line fault))
        ⊎ ((result ≡ 4) × (stop : Stop) × (stop ≢ Stop.Write → output.new ≡ output.old)
        × Tells (E.contents errors.old) (E.contents errors.new) (stop_line stop)) }
{
    match run_nodes(rt, rt.alloc(), config, &OpenGate) {
        Ok(closed) => {
            let status = answer_history(rt.alloc(), &closed, output, errors);
            closed.end(rt);
            status
        }
        Err(fault) => answer_unfinished(fault, errors),
    }
}

// The gate of the program: no turn waits at it.
struct OpenGate;

impl Gate for OpenGate {
    fn before(&self, _actor: u16, _turn: u32) {}

    fn after(&self, _actor: u16, _turn: u32) {}
}

// The status of a finished group, whose history stands on the output as a trace.
fn answer_history<W: Write, E: Write>(
    alloc: Global,
    closed: &Closed,
    output: &mut W,
    errors: &mut E,
) -> u8
    ensures { ((result ≡ 0) × (errors.new ≡ errors.old)
        × Appends (W.contents output.old) (W.contents output.new)
        (trace_text (trace_with closed.now.view.setup (map event_of closed.now.history))))
        ⊎ ((result ≡ 4) × (stop : Stop) × (stop ≢ Stop.Write → output.new ≡ output.old)
        × Tells (E.contents errors.old) (E.contents errors.new) (stop_line stop)) }
{
    match write_history(alloc, output, closed) {
        Ok(()) => finish(0, output, errors),
        Err(fault) => answer_stop(Stop::from(fault), errors),
    }
}

// Tells on the errors why a run ends without its history. The status is 4.
fn answer_unfinished<E: Write>(fault: NodesFault, errors: &mut E) -> u8
    ensures status { result ≡ 4 }
    ensures line { Tells (E.contents errors.old) (E.contents errors.new) (nodes_line fault) }
{
    tell(errors, nodes_line(fault));
    4
}

// The line of a run that ends without its history.
fn nodes_line(fault: NodesFault) -> &'static str
    ensures { result.now ≡ nodes_line fault }
{
    match fault {
        NodesFault::Spawn => "bully: Spawn\n",
        NodesFault::Finish(_) => "bully: Finish\n",
        NodesFault::OutOfMemory => "bully: OutOfMemory\n",
    }
}
