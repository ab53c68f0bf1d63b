ghost use Rattle.std.specs.Prelude.{◌≡◌, true};
ghost use Rattle.bully_base.specs.NodeSet.{IsFallingBelow};
ghost use Rattle.bully_steps.specs.Point.{offered, IsPointOf};
ghost use Rattle.bully_steps.specs.Procedure.{state_of};
ghost use Rattle.bully_steps.specs.ProcedureState.{IsCall, SuitsInquiry};
ghost use Rattle.bully_steps.specs.States.{identity_of, state_at};

use crate::Procedure;
use crate::states::Identity;
use std::fmt::Debug;
use std::marker::Model;

/// What the procedure of a node that calls others holds, beside whose it is and whether its call is under way.
pub trait Held: Drop + Debug {
    ghost use Rattle.std.specs.Prelude.{ℕ, List, [], Option, None};
    ghost use Rattle.bully_steps.specs.declared.point.Point.{Point};

    // The point where it stands.
    ghost point: { Self → Point };

    // The lower nodes that are up.
    ghost up: { Self → List ℕ } = { λ _. [] };

    // Whom the node inquires of.
    ghost coordinator: { Self → Option ℕ } = { λ _. None };
}

/// The procedure of a node that calls others, one at a time.
#[derive(Drop, Debug)]
pub struct Calling<T: Held> {
    pub(crate) identity: Identity,
    pub(crate) held: T,
    pub(crate) awaits: bool,
}

impl<T: Held> Model for Calling<T> {
    ghost use Rattle.bully_steps.specs.ProcedureState.{IsProcedureState};
    ghost use Rattle.bully_steps.specs.States.{CallingState, state_at};

    ghost Value = { CallingState T };

    ghost view = { λ s. record { identity = s.identity; held = s.held; awaits = s.awaits } };

    ghost invariant = { λ s.
        IsProcedureState (state_at s.identity (T.point s.held) (T.up s.held) (T.coordinator s.held) s.awaits) };
}

/// What starts as the state of a procedure.
pub trait Begins: Held {
    /// Makes the procedure its node's that holds this.
    fn begin(self, procedure: &mut Procedure, awaits: bool)
        requires up { IsFallingBelow (state_of procedure.old).node (Self.up self) }
        requires point { IsPointOf (state_of procedure.old).setup (state_of procedure.old).node (Self.point self) }
        requires inquiry { SuitsInquiry (state_of procedure.old).setup (state_of procedure.old).node
            (Self.coordinator self) (Self.point self) }
        requires call { awaits ≡ true
            → IsCall (offered (state_of procedure.old).setup (Self.coordinator self) (Self.point self)) }
        ensures { state_of procedure.new ≡ state_at (identity_of (state_of procedure.old)) (Self.point self)
            (Self.up self) (Self.coordinator self) awaits };
}
