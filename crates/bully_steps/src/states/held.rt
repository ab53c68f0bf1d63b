//! The procedures that call one node after another. Halting is in a file of its own.
ghost use Rattle.std.specs.Prelude.{Some};
ghost use Rattle.bully_steps.specs.declared.point.Point.{Point};

use crate::Procedure;
use crate::states::{Begins, Calling, Held};
use bully_base::{Node, NodeSet};

/// An election has started, as in the 1982 paper: the node asks each higher node in rising order whether it is up.
pub type Asking = Calling<Asked>;

/// Which higher node is asked next: one above the last where none is left.
#[derive(Drop, Debug)]
pub struct Asked {
    pub(crate) next: u16,
}

impl Held for Asked {
    ghost point = { λ s. Point.Asking s.next };
}

impl Begins for Asked {
    #[inline(never)]
    fn begin(self, procedure: &mut Procedure, awaits: bool) {
        *procedure = Procedure::Asking(Calling {
            identity: *procedure.identity(),
            held: self,
            awaits,
        });
    }
}

/// The lower nodes that are up were halted, and the node announces itself to them as their coordinator, as in
/// the 1982 paper.
pub type Announcing = Calling<Announced>;

/// Those that are up, and those that are left of them.
#[derive(Drop, Debug)]
pub struct Announced {
    pub(crate) rest: NodeSet,
    pub(crate) up: NodeSet,
}

impl Held for Announced {
    ghost point = { λ s. Point.Announcing s.rest };

    ghost up = { λ s. s.up };
}

impl Begins for Announced {
    #[inline(never)]
    fn begin(self, procedure: &mut Procedure, awaits: bool) {
        *procedure = Procedure::Announcing(Calling {
            identity: *procedure.identity(),
            held: self,
            awaits,
        });
    }
}

/// The node has taken a new table as its task, and hands it to the nodes that are up, as in the 1982 paper.
pub type Readying = Calling<Readied>;

/// Those that are left.
#[derive(Drop, Debug)]
pub struct Readied {
    pub(crate) rest: NodeSet,
}

impl Held for Readied {
    ghost point = { λ s. Point.Readying s.rest };
}

impl Begins for Readied {
    #[inline(never)]
    fn begin(self, procedure: &mut Procedure, awaits: bool) {
        *procedure = Procedure::Readying(Calling {
            identity: *procedure.identity(),
            held: self,
            awaits,
        });
    }
}

/// The coordinator asks each other node in rising order whether it is normal, as in the 1982 paper's check.
pub type Checking = Calling<Checked>;

/// Which other node is asked next.
#[derive(Drop, Debug)]
pub struct Checked {
    pub(crate) callee: Node,
}

impl Held for Checked {
    ghost point = { λ s. Point.Checking s.callee };
}

impl Begins for Checked {
    #[inline(never)]
    fn begin(self, procedure: &mut Procedure, awaits: bool) {
        *procedure = Procedure::Checking(Calling {
            identity: *procedure.identity(),
            held: self,
            awaits,
        });
    }
}

/// After a timeout the node asks its coordinator, which is another node, whether it is up, as in the 1982 paper.
pub type Inquiring = Calling<Inquired>;

/// Whom it asks.
#[derive(Drop, Debug)]
pub struct Inquired {
    pub(crate) coordinator: Node,
}

impl Held for Inquired {
    ghost point = { λ _. Point.Inquiring };

    ghost coordinator = { λ s. Some s.coordinator };
}

impl Begins for Inquired {
    #[inline(never)]
    fn begin(self, procedure: &mut Procedure, awaits: bool) {
        *procedure = Procedure::Inquiring(Calling {
            identity: *procedure.identity(),
            held: self,
            awaits,
        });
    }
}
