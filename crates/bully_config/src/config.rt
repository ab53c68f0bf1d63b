use bully_base::{Node, Setup};
use indexmap::IndexSet;
use std::marker::Model;

/// What a fault does to its node.
#[derive(Clone, Copy, PartialEq, Eq)]
pub enum FaultKind {
    /// The node goes down.
    Crash,
    /// The node comes back.
    Recover,
}

/// A fault that the operator brings about.
#[derive(Clone, Copy)]
pub struct Fault {
    /// The turn, from 1 to the configuration's turns.
    pub at: u32,
    /// The node, one of the setup's.
    pub node: Node,
    /// What happens to it.
    pub kind: FaultKind,
}

/// A configuration: its setup, its turns (1 to [`crate::TURNS_MAX`]), its period ([`crate::PERIOD_MIN`] to
/// [`crate::PERIOD_MAX`] turns), a name for each node, and at most [`crate::FAULTS_MAX`] faults in the order of the
/// document.
#[derive(Drop)]
pub struct Config {
    setup: Setup,
    turns: u32,
    period: u32,
    names: IndexSet<String>,
    faults: Vec<Fault>,
}

impl Model for Config {
    ghost use Rattle.std.specs.Prelude.{map, string_bytes};
    ghost use Rattle.bully_config.specs.Configuration.{Configuration, IsConfiguration};

    ghost Value = { Configuration };

    ghost view = { λ c. record {
      setup = c.setup;
      turns = c.turns;
      period = c.period;
      names = map (λ s. string_bytes s) c.names.keys;
      faults = c.faults.items;
    } };

    ghost invariant = { λ c. IsConfiguration (record {
      setup = c.setup;
      turns = c.turns;
      period = c.period;
      names = map (λ s. string_bytes s) c.names.keys;
      faults = c.faults.items;
    }) };
}

impl Config {
    ghost use Rattle.std.specs.Prelude.{◌≡◌, ◌≤◌, [], map, string_bytes};
    ghost use Rattle.bully_base.specs.Places.{at_node};
    ghost use Rattle.bully_config.specs.Configuration.{IsConfiguration, node_named};

    /// The configuration of these parts, which are within the limits.
    pub(crate) fn from_parts(
        setup: Setup,
        turns: u32,
        period: u32,
        names: IndexSet<String>,
        faults: Vec<Fault>,
    ) -> Config
        requires { IsConfiguration (record {
          setup = setup;
          turns = turns;
          period = period;
          names = map (λ s. string_bytes s) names.keys;
          faults = faults.items;
        }) }
        ensures { result ≡ record {
          setup = setup;
          turns = turns;
          period = period;
          names = map (λ s. string_bytes s) names.keys;
          faults = faults.items;
        } }
    {
        Config {
            setup,
            turns,
            period,
            names,
            faults,
        }
    }

    /// The setup: its nodes are as many as the names.
    pub fn setup(&self) -> &Setup
        ensures setup { result.now ≡ self.now.setup }
        ensures within { IsConfiguration self.now }
    {
        &self.setup
    }

    /// How many turns each thread has, from 1 to [`crate::TURNS_MAX`].
    pub fn turns(&self) -> u32
        ensures turns { result ≡ self.now.turns }
        ensures within { IsConfiguration self.now }
    {
        self.turns
    }

    /// How often an idle node checks, in turns: from [`crate::PERIOD_MIN`] to [`crate::PERIOD_MAX`], and
    /// [`crate::PERIOD`] where the document doesn't tell it.
    pub fn period(&self) -> u32
        ensures period { result ≡ self.now.period }
        ensures within { IsConfiguration self.now }
    {
        self.period
    }

    /// The name of a node of the setup.
    pub fn name(&self, node: Node) -> &str
        requires { node ≤ self.now.setup.nodes }
        ensures { result.now ≡ at_node [] self.now.names node }
    {
        let index = usize::from(node.number() - 1);
        self.names[index].as_str()
    }

    /// The node of this name; none where no node has it.
    pub fn node(&self, name: &str) -> Option<Node>
        ensures { result ≡ node_named self.now.names name.now }
    {
        let index = self.names.get_index_of(name)?;
        Node::new(index as u16 + 1)
    }

    /// The faults, in the order of the document: at most [`crate::FAULTS_MAX`], each in a turn from 1 to the
    /// configuration's turns and at a node of its setup.
    pub fn faults(&self) -> &[Fault]
        ensures faults { result.now ≡ self.now.faults }
        ensures within { IsConfiguration self.now }
    {
        &self.faults
    }
}
