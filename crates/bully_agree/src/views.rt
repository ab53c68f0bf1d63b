ghost use Rattle.std.specs.Prelude.{◌≡◌, ◌≤◌};
ghost use Rattle.std.specs.Option.{option_copied};
ghost use Rattle.bully_agree.specs.View.{ViewAgrees, IsViewed, shown};

mod kept_setup;
pub mod making;
mod node_views;

use bully_base::{Node, Setup, Status};
use bully_table::Table;
use kept_setup::KeptSetup;
use node_views::NodeViews;
use std::marker::Model;

/// What a world shows: how many events were applied, and each node's status, coordinator and task.
/// Its type keeps that the nodes agree, and that a lawful list of so many events leads to such a world.
#[derive(Drop, Debug)]
pub struct View {
    setup: KeptSetup,
    events: u32,
    nodes: NodeViews,
}

impl Model for View {
    ghost use Rattle.bully_agree.specs.View.{View as ViewState, IsView};

    ghost Value = { ViewState };

    ghost view = { λ v. record { setup = v.setup; events = v.events; nodes = v.nodes } };

    ghost invariant = { λ v. IsView (record { setup = v.setup; events = v.events; nodes = v.nodes }) };
}

impl View {
    /// What the group was set up with.
    pub fn setup(&self) -> Setup
        ensures { result ≡ self.now.setup }
    {
        self.setup.setup()
    }

    /// How many events were applied, from 0 to the setup's bound. Every view agrees, and is of a world that a lawful
    /// list of so many events leads to.
    pub fn events(&self) -> u32
        ensures events { result ≡ self.now.events }
        ensures agrees { ViewAgrees self.now }
        ensures viewed { IsViewed self.now }
    {
        self.events
    }

    /// How many nodes the group has.
    pub fn nodes(&self) -> u16
        ensures { result ≡ self.now.setup.nodes }
    {
        self.setup.nodes()
    }

    /// The node's status. The node is at most the setup's last.
    pub fn status(&self, node: Node) -> Status
        requires { node ≤ self.now.setup.nodes }
        ensures { result ≡ (shown self.now node).status }
    {
        self.nodes.status(node)
    }

    /// The node that it takes as coordinator; none where it has none. The node is at most the setup's last.
    pub fn coordinator(&self, node: Node) -> Option<Node>
        requires { node ≤ self.now.setup.nodes }
        ensures { result ≡ (shown self.now node).coordinator }
    {
        self.nodes.coordinator(node)
    }

    /// The task that it holds, a table of the owner of each partition; none where it has none. The node is at most the
    /// setup's last.
    pub fn task(&self, node: Node) -> Option<&Table>
        requires { node ≤ self.now.setup.nodes }
        ensures { option_copied result ≡ (shown self.now node).task }
    {
        self.nodes.task(node)
    }
}
