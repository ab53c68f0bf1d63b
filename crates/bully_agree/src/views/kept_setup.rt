ghost use Rattle.std.specs.Prelude.{◌≡◌, IfOk};
ghost use Rattle.bully_base.specs.Setup.{IsSetup};

use bully_base::{Limits, OutOfMemory, Setup};
use std::alloc::Global;
use std::marker::Model;

/// What a group was set up with, in no more memory than it needs: a [`Setup`] has room for the weight of each node that
/// a group may have, and a view of few nodes would be copied with all of it.
#[derive(Drop, Debug)]
pub(super) struct KeptSetup {
    limits: Limits,
    keeps: bool,
    is_even: bool,
    weights: Vec<u16>, // none where it is even
}

impl Model for KeptSetup {
    ghost use Rattle.bully_base.specs.Setup.{Setup as SetupState, IsSetup};
    ghost use Rattle.bully_agree.specs.KeptSetup.{kept_setup};

    ghost Value = { SetupState };

    ghost view = { λ k. kept_setup k.limits k.keeps k.is_even k.weights.items };

    ghost invariant = { λ k. IsSetup (kept_setup k.limits k.keeps k.is_even k.weights.items) };
}

impl KeptSetup {
    /// Keeps the setup. Refused where an allocation fails.
    pub(super) fn of(alloc: Global, setup: &Setup) -> Result<KeptSetup, OutOfMemory>
        ensures { IfOk result (λ k. k ≡ setup.now) }
    {
        // `weights` also shows the proof that this is a setup.
        let weights = setup.weights();
        let limits = *setup.limits();
        let keeps = setup.keeps();
        if setup.is_even() {
            return Ok(KeptSetup {
                limits,
                keeps,
                is_even: true,
                weights: Vec::new(alloc),
            });
        }
        Ok(KeptSetup {
            limits,
            keeps,
            is_even: false,
            weights: Vec::from_slice(alloc, weights)?,
        })
    }

    /// The setup.
    pub(super) fn setup(&self) -> Setup
        ensures { result ≡ self.now }
    {
        let nodes = self.limits.nodes();
        let partitions = self.limits.partitions();
        let events_max = self.limits.events_max();
        if self.is_even {
            return Setup::new(nodes, partitions, events_max).unwrap();
        }
        Setup::weighted(nodes, partitions, events_max, &self.weights, self.keeps).unwrap()
    }

    /// How many nodes the group has.
    pub(super) fn nodes(&self) -> u16
        ensures { result ≡ self.now.nodes }
    {
        self.limits.nodes()
    }
}
