ghost use Rattle.std.specs.Prelude.{◌≡◌, ◌<◌, Some};
ghost use Rattle.bully_base.specs.NodeSet.{with_node};
ghost use Rattle.bully_calls.specs.declared.call.Outcome.TheVariants.{Yes};
ghost use Rattle.bully_steps.specs.declared.point.Point.{Point};
ghost use Rattle.bully_steps.specs.ProcedureState.{CanResume, next_of, resumed};
ghost use Rattle.bully_steps.specs.Procedure.{halting};

use crate::Procedure;
use crate::states::{Begins, Calling, Held};
use bully_base::{Node, NodeSet};
use bully_calls::Outcome;

/// No higher node is up, so the node halts each lower one in falling order, as in the 1982 paper.
pub type Halting = Calling<Halted>;

/// The node that comes next, and 0 where none is left; and those that answered.
#[derive(Drop, Debug)]
pub struct Halted {
    pub(crate) next: u16,
    pub(crate) up: NodeSet,
}

impl Held for Halted {
    ghost point = { λ s. Point.Halting s.next };

    ghost up = { λ s. s.up };
}

impl Begins for Halted {
    #[inline(never)]
    fn begin(self, procedure: &mut Procedure, awaits: bool) {
        *procedure = Procedure::Halting(Calling {
            identity: *procedure.identity(),
            held: self,
            awaits,
        });
    }
}

impl Calling<Halted> {
    /// Goes on to halt this node next, by the outcome: a node that answered joins those that did.
    pub(crate) fn halt_next(&mut self, next: u16, outcome: Outcome)
        requires can { CanResume (halting self.old) outcome }
        requires next { next_of (halting self.old) outcome ≡ Some (Point.Halting next) }
        ensures { halting self.new ≡ resumed (halting self.old) outcome }
    {
        if outcome == Outcome::Yes {
            self.held.up = self.joined();
        }
        self.held.next = next;
        self.awaits = outcome == Outcome::Started;
    }

    /// Those that answered, with the node whose answer has come now.
    pub(crate) fn joined(&self) -> NodeSet
        requires { CanResume (halting self.now) Yes }
        ensures joined { result ≡ with_node self.now.held.next self.now.held.up }
        ensures positive { 0 < self.now.held.next }
    {
        let mut up = self.held.up;
        up.insert(Node::new(self.held.next).unwrap());
        up
    }
}
