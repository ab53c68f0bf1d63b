ghost use Rattle.std.specs.Prelude.{◌≡◌, ◌+◌, ◌<◌, List, [], Err, Some, All, map, IfOk, OnOk};
ghost use Rattle.std.specs.Io.KnownBytes.{Appends};
ghost use Rattle.bully_play.specs.Play.{IsPlay, trace_with, fault_of};
ghost use Rattle.bully_play.specs.Recording.{IsRecorded, Continues};
ghost use Rattle.bully_play.specs.Schedule.{AreLeft};
ghost use Rattle.bully_play.specs.Turns.{IsTurn, IsRound, IsScheduled, idle_first};
ghost use Rattle.bully_steps.specs.Procedure.{state_of};
ghost use Rattle.bully_steps.specs.ProcedureState.{HasSameNode};
ghost use Rattle.bully_rows.specs.ReadBack.{IsTold};
ghost use Rattle.bully_rows.specs.Rows.{IsTraceOf};
ghost use Rattle.bully_rows.specs.TraceText.{trace_text};
ghost use Rattle.bully_calls.specs.declared.event.Event.{Event};

use crate::recording::Recording;
use crate::schedule::Schedule;
use crate::turns::{take_node_turn, take_operator_turn};
use bully_base::{Node, OutOfMemory, Setup};
use bully_config::Config;
use bully_rows::{Trace, TraceCause, TraceFault, write_trace};
use bully_steps::Procedure;
use std::alloc::Global;
use std::io::Write;

/// Why a play ends without its trace.
#[derive(Clone, Copy, PartialEq, Eq, Debug)]
pub enum PlayFault {
    /// The writer failed.
    Write,
    /// An allocation failed.
    OutOfMemory,
}

impl From<OutOfMemory> for PlayFault {
    ghost use Rattle.bully_play.specs.declared.playing.PlayFault.{PlayFault};

    ghost from_gives = { λ _ fault. fault ≡ PlayFault.OutOfMemory };

    fn from(_: OutOfMemory) -> PlayFault {
        PlayFault::OutOfMemory
    }
}

impl From<TraceFault> for PlayFault {
    ghost from_gives = { λ trace fault. fault ≡ fault_of trace.cause };

    fn from(fault: TraceFault) -> PlayFault {
        match fault.cause {
            TraceCause::OutOfMemory => PlayFault::OutOfMemory,
            _ => PlayFault::Write,
        }
    }
}

/// Plays the configuration on one thread, and writes the trace of what happened, in version 1 where that can tell the
/// setup, and else in version 2. In each of the configuration's turns the operator comes first, and then the nodes in
/// rising order. Where nothing stood before, what is written means that very trace. Refused as `OutOfMemory` where an
/// allocation fails, and then nothing was written; as `Write` where the writer fails, and then a prefix of the trace
/// may have been written. The rule: docs/ALGORITHM.md.
pub fn play<W: Write>(alloc: Global, config: &Config, writer: &mut W) -> Result<(), PlayFault>
    ensures played { OnOk result ((events : List Event) × IsPlay config.now events × IsScheduled config.now events
        × Appends (W.contents writer.old) (W.contents writer.new) (trace_text (trace_with config.now.setup events))) }
    ensures read_back { OnOk result (W.contents writer.old ≡ Some [] → (events : List Event) × IsPlay config.now events
        × IsTraceOf (W.contents writer.new) (trace_with config.now.setup events)) }
    ensures memory { result ≡ Err PlayFault.OutOfMemory → writer.new ≡ writer.old }
{
    let trace = trace_of(alloc, config)?;
    Ok(write_trace(alloc, writer, &trace)?)
}

// The trace of a play.
fn trace_of(alloc: Global, config: &Config) -> Result<Trace, OutOfMemory>
    ensures told { IfOk result IsTold }
    ensures played { IfOk result (λ trace. (events : List Event) × IsPlay config.now events
        × IsScheduled config.now events × (trace ≡ trace_with config.now.setup events)) }
{
    let setup = config.setup();
    let mut schedule = Schedule::new(alloc, config.faults())?;
    let mut recording = Recording::new(alloc, *setup)?;
    let mut procedures = idle_procedures(alloc, setup)?;
    for before in 0..config.turns() {
        take_round(
            config,
            before + 1,
            &mut schedule,
            &mut recording,
            &mut procedures,
        )?;
    }
    Ok(recording.into_trace())
}

// The procedures that the nodes hold at first.
fn idle_procedures(alloc: Global, setup: &Setup) -> Result<Vec<Procedure>, OutOfMemory>
    ensures idle { IfOk result (λ procedures. map state_of procedures.items ≡ idle_first setup.now setup.now.nodes) }
    ensures setups { IfOk result (λ procedures. All (λ p. (state_of p).setup ≡ setup.now) procedures.items) }
{
    let mut procedures = Vec::with_capacity(alloc, usize::from(setup.nodes()))?;
    for before in 0..setup.nodes() {
        let node = Node::new(before + 1).unwrap();
        procedures.push(Procedure::idle_in(setup, node, 0))?;
    }
    Ok(procedures)
}

// A round: the operator's turn, and then each node's.
fn take_round(
    config: &Config,
    turn: u32,
    schedule: &mut Schedule,
    recording: &mut Recording,
    procedures: &mut [Procedure],
) -> Result<(), OutOfMemory>
    requires left { AreLeft config.now.faults turn schedule.old }
    requires recorded { IsRecorded config.now recording.old }
    requires setups { All (λ p. (state_of p).setup ≡ config.now.setup) procedures.old }
    ensures round { OnOk result (IsRound config.now.faults config.now.period turn recording.old
        (map state_of procedures.old) recording.new (map state_of procedures.new)) }
    ensures left { OnOk result (AreLeft config.now.faults (turn + 1) schedule.new) }
    ensures recorded { OnOk result (IsRecorded config.now recording.new) }
    ensures setups { OnOk result (All (λ p. (state_of p).setup ≡ config.now.setup) procedures.new) }
{
    take_operator_turn(recording, schedule, turn)?;
    let period = config.period();
    for procedure in procedures.iter_mut() {
        record_node_turn(recording, period, turn, procedure)?;
    }
    Ok(())
}

// The turn of the node that holds the procedure.
fn record_node_turn(
    recording: &mut Recording,
    period: u32,
    turn: u32,
    procedure: &mut Procedure,
) -> Result<(), OutOfMemory>
    requires setup { (state_of procedure.old).setup ≡ recording.old.world.setup }
    requires period { 0 < period }
    ensures turn { OnOk result
        (IsTurn period turn recording.old (state_of procedure.old) recording.new (state_of procedure.new)) }
    ensures recorded { OnOk result (Continues recording.old recording.new) }
    ensures same_node { OnOk result (HasSameNode (state_of procedure.old) (state_of procedure.new)) }
{
    take_node_turn(recording, period, turn, procedure)
}
