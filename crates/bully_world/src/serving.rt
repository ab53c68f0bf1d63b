ghost use Rattle.std.specs.Prelude.{◌≡◌, IfSome, IfNone};
ghost use Rattle.bully_world.specs.Cause.{is_down_at};
ghost use Rattle.bully_world.specs.Serving.{IsServed, NoneServed};
ghost use Rattle.bully_world.specs.State.{world_of};

use crate::World;
use bully_base::{Node, Status};

impl World {
    /// Whose call the node serves: that of the lowest caller that waits for it. None where no call waits or the node is
    /// Down, as one above the setup's last is. The rule: docs/ALGORITHM.md.
    pub fn caller_to_serve(&self, node: Node) -> Option<Node>
        ensures served { IfSome result (IsServed self.now node) }
        ensures none { IfNone result (NoneServed self.now node) }
    {
        let caller = self.waiting_for(node)?;
        if self.is_down(node) {
            None
        } else {
            Some(caller)
        }
    }

    // Whether the node is Down, as one above the setup's last is.
    #[tactic(auto, using(crate::proofs::ServingLemmas::down_beyond))]
    fn is_down(&self, node: Node) -> bool
        ensures { result ≡ is_down_at (world_of self.now) node }
    {
        node.number() > self.setup().nodes() || self.vector(node).status() == Status::Down
    }
}
