ghost use Rattle.std.specs.Prelude.{◌≡◌, ◌≢◌, ◌↔◌, ◌≤◌, ◌==◌, All, IfOk, Err, IsTrue};
ghost use Rattle.std.specs.List.{list_all};
ghost use Rattle.bully_base.specs.Setup.{AreLimits, IsSetup, IsNodeNumber, IsPartitionCount, IsEventsBound, IsWeight};
ghost use Rattle.bully_base.specs.Setup.{AreWeights, limits_of, setup_of, even_setup, is_even, weight_of};

use crate::{EVENTS_MAX, NODES_MAX, Node, NodeSet, PARTITIONS_MAX, WEIGHT_MAX};
use std::marker::Model;

/// The numbers that a group is set up with, without its weights: how many nodes (1 to [`NODES_MAX`]), how many
/// partitions its task has (1 to [`PARTITIONS_MAX`]), and how many events are applied at most (1 to [`EVENTS_MAX`]).
#[derive(Clone, Copy, PartialEq, Eq, Debug)]
pub struct Limits {
    nodes: u16,
    partitions: u16,
    events_max: u32,
}

impl Model for Limits {
    ghost use Rattle.bully_base.specs.Setup.{Limits as LimitsState, AreLimits};

    ghost Value = { LimitsState };

    ghost view = { λ l. record { nodes = l.nodes; partitions = l.partitions; events_max = l.events_max } };

    ghost invariant = { λ l.
        AreLimits (record { nodes = l.nodes; partitions = l.partitions; events_max = l.events_max }) };

    ghost inverse = { λ v. record { nodes = v.nodes; partitions = v.partitions; events_max = v.events_max } };
}

/// What a group is set up with: its [`Limits`], the weight of each node (1 to [`WEIGHT_MAX`]), by which partitions are
/// shared out, and whether a node keeps its task over a crash.
#[derive(Clone, Copy, Debug)]
pub struct Setup {
    limits: Limits,
    keeps: bool,
    weights: [u16; NODES_MAX as usize], // that of node 1 first; 0 behind the group's nodes
}

impl Model for Setup {
    ghost use Rattle.std.specs.Prelude.{◌≡◌, take};
    ghost use Rattle.bully_base.specs.Setup.{Setup as SetupState, IsSetup, setup_of, limits_of, padded};

    ghost Value = { SetupState };

    ghost view = { λ s. setup_of s.limits s.keeps (take s.limits.nodes s.weights) };

    ghost invariant = { λ s. IsSetup (setup_of s.limits s.keeps (take s.limits.nodes s.weights))
        × (s.weights ≡ padded s.limits.nodes (take s.limits.nodes s.weights)) };

    ghost inverse = { λ v. record { limits = limits_of v; keeps = v.keeps; weights = padded v.nodes v.weights } };

    ghost use Rattle.bully_base.specs.SetupView.{inverse_of_view};

    ghost inverse_ok = { inverse_of_view };
}

/// Two setups are equal where their numbers, weights and flags are.
impl PartialEq for Setup {
    ghost use Rattle.std.specs.Cmp.{partial_equiv_from_equiv};
    ghost use Rattle.bully_base.specs.SetupEq.{same_setup, same_setup_equiv};

    ghost eq = { same_setup };

    ghost laws = { partial_equiv_from_equiv same_setup_equiv };

    fn eq(&self, other: &Setup) -> bool {
        let same = self.limits == other.limits && self.keeps == other.keeps;
        same && self.weights() == other.weights()
    }
}

impl Eq for Setup {
    ghost use Rattle.bully_base.specs.SetupEq.{same_setup_equiv};

    ghost laws = { same_setup_equiv };
}

/// Why there is no such setup, the first that holds.
#[derive(Clone, Copy, PartialEq, Eq, Debug)]
pub enum SetupFault {
    /// The nodes aren't 1 to [`NODES_MAX`].
    BadNodes,
    /// The partitions aren't 1 to [`PARTITIONS_MAX`].
    BadPartitions,
    /// The bound on events isn't 1 to [`EVENTS_MAX`].
    BadLimit,
    /// There isn't a weight for each node, or one isn't 1 to [`WEIGHT_MAX`].
    BadWeights,
}

impl Limits {
    // The limits of these numbers. Refused, in this order, as `BadNodes`, `BadPartitions`, `BadLimit`.
    fn new(nodes: u16, partitions: u16, events_max: u32) -> Result<Limits, SetupFault>
        ensures numbers { IfOk result (λ l.
            l ≡ record { nodes = nodes; partitions = partitions; events_max = events_max }) }
        ensures within { IfOk result AreLimits }
        ensures bad_nodes { (result ≡ Err SetupFault.BadNodes) ↔ ¬ IsNodeNumber nodes }
        ensures bad_partitions { (result ≡ Err SetupFault.BadPartitions)
            ↔ (IsNodeNumber nodes × ¬ IsPartitionCount partitions) }
        ensures bad_limit { (result ≡ Err SetupFault.BadLimit)
            ↔ (IsNodeNumber nodes × IsPartitionCount partitions × ¬ IsEventsBound events_max) }
        ensures no_other { result ≢ Err SetupFault.BadWeights }
    {
        if nodes == 0 || nodes > NODES_MAX {
            return Err(SetupFault::BadNodes);
        }
        if partitions == 0 || partitions > PARTITIONS_MAX {
            return Err(SetupFault::BadPartitions);
        }
        if events_max == 0 || events_max > EVENTS_MAX {
            return Err(SetupFault::BadLimit);
        }
        Ok(Limits {
            nodes,
            partitions,
            events_max,
        })
    }

    /// How many nodes the group has.
    pub fn nodes(&self) -> u16
        ensures nodes { result ≡ self.now.nodes }
        ensures within { AreLimits self.now }
    {
        self.nodes
    }

    /// How many partitions the task has.
    pub fn partitions(&self) -> u16
        ensures partitions { result ≡ self.now.partitions }
        ensures within { AreLimits self.now }
    {
        self.partitions
    }

    /// How many events are applied at most.
    pub fn events_max(&self) -> u32
        ensures events_max { result ≡ self.now.events_max }
        ensures within { AreLimits self.now }
    {
        self.events_max
    }

    // The same limits, but for how many events are applied at most.
    fn with_events_max(&self, events_max: u32) -> Limits
        requires { IsEventsBound events_max }
        ensures after { result ≡ record self.now { events_max = events_max } }
        ensures within { AreLimits result }
    {
        Limits {
            nodes: self.nodes,
            partitions: self.partitions,
            events_max,
        }
    }
}

impl Setup {
    /// The setup of these numbers, in which all nodes weigh 1 and no task is kept over a crash. Refused, in this order,
    /// as `BadNodes`, `BadPartitions`, `BadLimit`.
    pub fn new(nodes: u16, partitions: u16, events_max: u32) -> Result<Setup, SetupFault>
        ensures numbers { IfOk result (λ s. s ≡ even_setup nodes partitions events_max) }
        ensures within { IfOk result IsSetup }
        ensures bad_nodes { (result ≡ Err SetupFault.BadNodes) ↔ ¬ IsNodeNumber nodes }
        ensures bad_partitions { (result ≡ Err SetupFault.BadPartitions)
            ↔ (IsNodeNumber nodes × ¬ IsPartitionCount partitions) }
        ensures bad_limit { (result ≡ Err SetupFault.BadLimit)
            ↔ (IsNodeNumber nodes × IsPartitionCount partitions × ¬ IsEventsBound events_max) }
        ensures no_other { result ≢ Err SetupFault.BadWeights }
    {
        let limits = Limits::new(nodes, partitions, events_max)?;
        let ones = [1; NODES_MAX as usize];
        Ok(Setup::of(limits, false, &ones[..usize::from(nodes)]))
    }

    /// The setup of these numbers and of these weights, that of node 1 first; `keeps` says whether a node keeps its
    /// task over a crash. Refused, in this order, as `BadNodes`, `BadPartitions`, `BadLimit`, `BadWeights`.
    pub fn weighted(
        nodes: u16,
        partitions: u16,
        events_max: u32,
        weights: &[u16],
        keeps: bool,
    ) -> Result<Setup, SetupFault>
        ensures numbers { IfOk result (λ s. s ≡ record {
          nodes = nodes;
          partitions = partitions;
          events_max = events_max;
          keeps = keeps;
          weights = weights.now;
        }) }
        ensures within { IfOk result IsSetup }
        ensures bad_nodes { (result ≡ Err SetupFault.BadNodes) ↔ ¬ IsNodeNumber nodes }
        ensures bad_partitions { (result ≡ Err SetupFault.BadPartitions)
            ↔ (IsNodeNumber nodes × ¬ IsPartitionCount partitions) }
        ensures bad_limit { (result ≡ Err SetupFault.BadLimit)
            ↔ (IsNodeNumber nodes × IsPartitionCount partitions × ¬ IsEventsBound events_max) }
        ensures bad_weights { (result ≡ Err SetupFault.BadWeights) ↔ (IsNodeNumber nodes × IsPartitionCount partitions
            × IsEventsBound events_max × ¬ AreWeights nodes weights.now) }
    {
        let limits = Limits::new(nodes, partitions, events_max)?;
        if weights.len() != usize::from(nodes) || !are_within(weights) {
            return Err(SetupFault::BadWeights);
        }
        Ok(Setup::of(limits, keeps, weights))
    }

    // The setup of these limits and weights.
    fn of(limits: Limits, keeps: bool, weights: &[u16]) -> Setup
        requires { AreWeights limits.nodes weights.now }
        ensures numbers { result ≡ setup_of limits keeps weights.now }
        ensures within { IsSetup result }
    {
        // `nodes` also shows the proof that these are limits.
        let nodes = usize::from(limits.nodes());
        let mut all = [0; NODES_MAX as usize];
        all[..nodes].copy_from_slice(weights);
        Setup {
            limits,
            keeps,
            weights: all,
        }
    }

    /// The same setup, but for how many events are applied at most.
    pub fn with_events_max(&self, events_max: u32) -> Setup
        requires { IsEventsBound events_max }
        ensures { result ≡ record self.now { events_max = events_max } }
    {
        Setup {
            limits: self.limits.with_events_max(events_max),
            keeps: self.keeps,
            weights: self.weights,
        }
    }

    /// The numbers, without the weights.
    pub fn limits(&self) -> &Limits
        ensures limits { result.now ≡ limits_of self.now }
    {
        &self.limits
    }

    /// How many nodes the group has.
    pub fn nodes(&self) -> u16
        ensures nodes { result ≡ self.now.nodes }
        ensures within { IsSetup self.now }
    {
        self.limits.nodes()
    }

    /// How many partitions the task has.
    pub fn partitions(&self) -> u16
        ensures partitions { result ≡ self.now.partitions }
        ensures within { IsSetup self.now }
    {
        self.limits.partitions()
    }

    /// How many events are applied at most.
    pub fn events_max(&self) -> u32
        ensures events_max { result ≡ self.now.events_max }
        ensures within { IsSetup self.now }
    {
        self.limits.events_max()
    }

    /// How much the node weighs, from 1 to [`WEIGHT_MAX`].
    pub fn weight(&self, node: Node) -> u16
        requires { node ≤ self.now.nodes }
        ensures weight { result ≡ weight_of self.now node }
        ensures within { IsWeight result }
    {
        self.weights[usize::from(node.number() - 1)]
    }

    /// Whether all of these are nodes of the group.
    pub fn has_all(&self, nodes: &NodeSet) -> bool
        ensures { IsTrue result ↔ All (λ m. m ≤ self.now.nodes) nodes.now }
    {
        match nodes.highest() {
            Some(highest) => highest.number() <= self.nodes(),
            None => true,
        }
    }

    /// Whether a node keeps its task over a crash.
    pub fn keeps(&self) -> bool
        ensures { result ≡ self.now.keeps }
    {
        self.keeps
    }

    /// Whether all nodes weigh 1 and no task is kept over a crash.
    pub fn is_even(&self) -> bool
        ensures { result ≡ is_even self.now }
    {
        !self.keeps && are_ones(self.weights())
    }

    /// The weights of the group's nodes, that of node 1 first.
    pub fn weights(&self) -> &[u16]
        ensures weights { result.now ≡ self.now.weights }
        ensures within { IsSetup self.now }
    {
        &self.weights[..usize::from(self.nodes())]
    }
}

// Whether each of these weighs from 1 to the most.
fn are_within(weights: &[u16]) -> bool
    ensures { IsTrue result ↔ All IsWeight weights.now }
{
    for weight in weights {
        if *weight == 0 || *weight > WEIGHT_MAX {
            return false;
        }
    }
    true
}

// Whether each of these is 1.
fn are_ones(weights: &[u16]) -> bool
    ensures { result ≡ list_all (λ w. w == 1) weights.now }
{
    weights.iter().all(|weight| *weight == 1)
}
