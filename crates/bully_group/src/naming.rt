use std::marker::Brand;
use std::sync::ledger::Ledger;

/// Names one group: its ledger, of one part for the operator and one for each node, its setup and, where it is watched,
/// its publisher. A group is opened and used inside a function over `L: Naming` that is called with `Brand`; that call
/// picks all three.
pub trait Naming: Ledger {
    ghost use Rattle.std.specs.Prelude.{Option};
    ghost use Rattle.bully_base.specs.Setup.{Setup};
    ghost use Rattle.bully_watch.specs.declared.knowledge.PublisherId.{PublisherId};

    ghost setup: { Setup };

    ghost publisher: { Option PublisherId };
}

impl Naming for Brand {
    ghost use Rattle.std.specs.Prelude.{None};
    ghost use Rattle.bully_group.specs.Names.{no_setup};

    ghost setup = { no_setup };

    ghost publisher = { None };
}
