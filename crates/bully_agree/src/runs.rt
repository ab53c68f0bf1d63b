ghost use Rattle.std.specs.Prelude.{◌≡◌, length, IfErr, IfOk};
ghost use Rattle.bully_agree.specs.Runs.{CanRun, IsRunFault, RunsTo};
ghost use Rattle.bully_agree.specs.View.{ViewAgrees, view_of};
ghost use Rattle.bully_world.specs.State.{world_of};

use crate::views::View;
use crate::views::making::view;
use bully_base::{OutOfMemory, Setup};
use bully_world::{Event, Refused, World};
use std::alloc::Global;

/// Why a list of events isn't run to its end, in this order.
#[derive(Clone, Copy, PartialEq, Eq, Debug)]
pub enum RunFault {
    /// The event at this index, from 0, is the first that is refused, and this is why.
    Stop { index: usize, cause: Refused },
    /// An allocation failed.
    OutOfMemory,
}

impl From<OutOfMemory> for RunFault {
    ghost use Rattle.bully_agree.specs.declared.runs.RunFault.{RunFault};

    ghost from_gives = { λ _ fault. fault ≡ RunFault.OutOfMemory };

    fn from(_: OutOfMemory) -> RunFault {
        RunFault::OutOfMemory
    }
}

/// Applies the events in order to a new world, and gives that world and its view.
/// Refused, in this order, as `Stop` at the first event that has a cause, and as `OutOfMemory`. A world that
/// can't be made is told at once, whatever the events are. The rule: docs/ALGORITHM.md.
pub fn run(alloc: Global, setup: Setup, events: &[Event]) -> Result<(World, View), RunFault>
    ensures lawful { IfOk result (λ done. RunsTo setup events.now (world_of done.0)) }
    ensures setup { IfOk result (λ done. done.0.setup ≡ setup) }
    ensures counted { IfOk result (λ done. done.0.events ≡ length events.now) }
    ensures view { IfOk result (λ done. done.1 ≡ view_of setup (length events.now) (world_of done.0)) }
    ensures agrees { IfOk result (λ done. ViewAgrees done.1) }
    ensures stop { IfErr result (IsRunFault setup events.now) }
    ensures lawful_runs { IfErr result (λ why. CanRun setup events.now → why ≡ RunFault.OutOfMemory) }
{
    let mut world = World::new(alloc, setup)?;
    for (index, event) in events.iter().enumerate() {
        if let Err(cause) = world.apply(event) {
            return Err(RunFault::Stop { index, cause });
        }
    }
    let shown = view(alloc, &world)?;
    Ok((world, shown))
}
