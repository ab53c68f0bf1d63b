ghost use Rattle.std.specs.Prelude.{◌≡◌, ◌≤◌};
ghost use Rattle.bully_base.specs.Setup.{IsSetup, IsNode, IsNodeNumber};

use bully_base::{Node, Setup};
use std::marker::Model;

/// Which node's procedure it is, and which of its generations.
#[derive(Clone, Copy, Debug)]
pub struct Identity {
    pub setup: Setup,
    pub node: Node,
    pub generation: u32,
}

impl Model for Identity {
    ghost use Rattle.bully_steps.specs.States.{Identity as IdentityState};

    ghost Value = { IdentityState };

    ghost view = { λ s. record { setup = s.setup; node = s.node; generation = s.generation } };

    ghost inverse = { λ v. record { setup = v.setup; node = v.node; generation = v.generation } };
}

impl Identity {
    /// The identity of a procedure of the node, which is at most the setup's last, in this of its generations.
    pub(crate) fn new(setup: &Setup, node: Node, generation: u32) -> Identity
        requires { node ≤ setup.now.nodes }
        ensures identity { result ≡ record { setup = setup.now; node = node; generation = generation } }
        ensures setup { IsSetup setup.now }
        ensures node { IsNode setup.now node }
    {
        within_limits(setup, node);
        Identity {
            setup: *setup,
            node,
            generation,
        }
    }
}

// What the types of the two say of them: a proof learns it of their readers alone.
fn within_limits(setup: &Setup, node: Node)
    ensures setup { IsSetup setup.now }
    ensures node { IsNodeNumber node }
{
    let _ = (setup.nodes(), node.number());
}
