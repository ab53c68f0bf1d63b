ghost use Rattle.std.specs.Prelude.{◌≡◌, Some};

use bully_base::Node;
use bully_group::{Group, Naming, Seat};
use bully_watch::Observer;
use std::sync::{MutexGuard, Wait};

/// The coordinator of the node, as an observer sees it that has learned of the whole history.
pub fn coordinator_of<L: Naming, R: Wait>(
    rt: &R,
    group: &Group<L>,
    seat: &Seat,
    observer: &mut Observer,
    node: Node,
) -> Option<Node>
    requires { L.publisher ≡ Some observer.old.publisher }
{
    let mut guard = group.locked.lock(rt); // whoever takes a turn holds it, too
    let told = guard.publish(rt, seat); // shows the whole history
    MutexGuard::unlock(guard);
    observer.learn(told.ok()?); // from now on it sees no less
    let glance = observer.glance(node).ok()?; // takes no lock and no memory, and never waits
    glance.coordinator
}
