ghost use Rattle.std.specs.Prelude.{◌≡◌, Some, None, length, true, false, IfErr, IfOk, IfNone, IfSome, OnOk};
ghost use Rattle.std.specs.Prelude.{if◌then◌else◌};
ghost use Rattle.bully_agree.specs.Runs.{CanRun, IsWholeFault, RunsTo};
ghost use Rattle.bully_agree.specs.Progress.{may_stand, progress_after, whole_fault};
ghost use Rattle.bully_agree.specs.View.{ViewAgrees, view_of};
ghost use Rattle.bully_agree.specs.WholeCalls.{BreaksAt, is_whole, settles, gives_back};
ghost use Rattle.bully_world.specs.State.{world_of};

use crate::runs::{RunFault, run};
use crate::views::View;
use bully_base::{Node, Setup};
use bully_world::{Event, Refused, World};
use std::alloc::Global;

/// Why a list of whole calls isn't run to its end, in this order.
#[derive(Clone, Copy, PartialEq, Eq, Debug)]
pub enum WholeFault {
    /// The event at this index, from 0, is the first that breaks the rule of whole calls; where the list ends in
    /// the middle of a call, it is the list's length.
    NotWhole { index: usize },
    /// The event at this index, from 0, is the first that is refused, and this is why.
    Stop { index: usize, cause: Refused },
    /// An allocation failed.
    OutOfMemory,
}

impl From<RunFault> for WholeFault {
    ghost from_gives = { λ fault whole. whole ≡ whole_fault fault };

    fn from(fault: RunFault) -> WholeFault {
        match fault {
            RunFault::Stop { index, cause } => WholeFault::Stop { index, cause },
            RunFault::OutOfMemory => WholeFault::OutOfMemory,
        }
    }
}

/// How far the call at hand has come: there is none, the node's was started, or the node's ran or was lost.
#[derive(Clone, Copy)]
enum Progress {
    Between,
    Started(Node),
    Over(Node),
}

/// Runs the events, as [`run`] does, where each call is whole: its Start is followed at once by its Run or Lose,
/// and that at once by its Return, and no other Run, Lose or Return stands in the list.
/// Refused, in this order, as `NotWhole`, `Stop`, `OutOfMemory`. `NotWhole` is found before any memory is taken; a
/// world that can't be made is told before any `Stop`. The rule: docs/ALGORITHM.md.
pub fn run_whole(alloc: Global, setup: Setup, events: &[Event]) -> Result<(World, View), WholeFault>
    ensures whole { OnOk result (is_whole events.now ≡ true) }
    ensures lawful { IfOk result (λ done. RunsTo setup events.now (world_of done.0)) }
    ensures setup { IfOk result (λ done. done.0.setup ≡ setup) }
    ensures counted { IfOk result (λ done. done.0.events ≡ length events.now) }
    ensures view { IfOk result (λ done. done.1 ≡ view_of setup (length events.now) (world_of done.0)) }
    ensures agrees { IfOk result (λ done. ViewAgrees done.1) }
    ensures fault { IfErr result (IsWholeFault setup events.now) }
    ensures lawful_runs { is_whole events.now ≡ true → CanRun setup events.now
        → IfErr result (λ why. why ≡ WholeFault.OutOfMemory) }
{
    if let Some(index) = first_break(events) {
        return Err(WholeFault::NotWhole { index });
    }
    Ok(run(alloc, setup, events)?)
}

// The index of the first event that breaks the rule of whole calls, or the length of a list that ends in the
// middle of a call; none where each call is whole.
fn first_break(events: &[Event]) -> Option<usize>
    ensures breaks { IfSome result (λ index. BreaksAt events.now index × (is_whole events.now ≡ false)) }
    ensures whole { IfNone result (is_whole events.now ≡ true) }
{
    let mut progress = Progress::Between;
    for (index, event) in events.iter().enumerate() {
        match progress.after(event) {
            Some(next) => progress = next,
            None => return Some(index),
        }
    }
    match progress {
        Progress::Between => None,
        _ => Some(events.len()),
    }
}

impl Progress {
    // The progress after the event; none where it may not stand here.
    fn after(self, event: &Event) -> Option<Progress>
        ensures { result ≡ (if may_stand self event.now then Some (progress_after self event.now) else None) }
    {
        match self {
            Progress::Between => after_no_call(event),
            Progress::Started(caller) => is_settled(event, caller).then_some(Progress::Over(
                caller,
            )),
            Progress::Over(caller) => is_returned(event, caller).then_some(Progress::Between),
        }
    }
}

// The progress after an event while no call is at hand.
fn after_no_call(event: &Event) -> Option<Progress>
    ensures { result ≡ (if may_stand Progress.Between event.now then Some (progress_after Progress.Between event.now)
        else None) }
{
    match event {
        Event::Start(caller) => Some(Progress::Started(*caller)),
        Event::Run(_) | Event::Lose(_) | Event::Return(_) => None,
        _ => Some(Progress::Between),
    }
}

// Whether the caller's call runs or is lost.
fn is_settled(event: &Event, caller: Node) -> bool
    ensures { result ≡ settles caller event.now }
{
    match event {
        Event::Run(node) | Event::Lose(node) => *node == caller,
        _ => false,
    }
}

// Whether the caller's call returns.
fn is_returned(event: &Event, caller: Node) -> bool
    ensures { result ≡ gives_back caller event.now }
{
    match event {
        Event::Return(node) => *node == caller,
        _ => false,
    }
}
