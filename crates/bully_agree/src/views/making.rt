ghost use Rattle.std.specs.Prelude.{◌≡◌, IfOk};
ghost use Rattle.bully_agree.specs.View.{IsViewed, ViewAgrees, view_of};
ghost use Rattle.bully_world.specs.State.{world_of};

use super::View;
use super::kept_setup::KeptSetup;
use super::node_views::NodeViews;
use bully_base::OutOfMemory;
use bully_world::World;
use std::alloc::Global;

/// The view of the world as it is now. Refused where an allocation fails.
/// Every `World` is reached by a lawful list, so there is no other condition. The rule: docs/ALGORITHM.md.
pub fn view(alloc: Global, world: &World) -> Result<View, OutOfMemory>
    ensures view { IfOk result (λ v. v ≡ view_of world.now.setup world.now.events (world_of world.now)) }
    ensures agrees { IfOk result ViewAgrees }
    ensures viewed { IfOk result IsViewed }
{
    let events = world.events();
    Ok(View {
        setup: KeptSetup::of(alloc, world.setup())?,
        events,
        nodes: NodeViews::of(alloc, world)?,
    })
}
