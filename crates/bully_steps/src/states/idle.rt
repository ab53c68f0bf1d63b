ghost use Rattle.std.specs.Prelude.{◌≡◌, [], None, false};
ghost use Rattle.bully_steps.specs.declared.point.Point.{Point};
ghost use Rattle.bully_steps.specs.Procedure.{state_of};
ghost use Rattle.bully_steps.specs.ProcedureState.{procedure_state};

use crate::Procedure;
use crate::states::Identity;
use std::marker::Model;

/// No procedure runs at the node. The rule: docs/ALGORITHM.md.
#[derive(Drop, Debug)]
pub struct Idle {
    pub(crate) identity: Identity,
    // No call is under way, so it is of no meaning. With a field after the identity, that stays where it lies when a
    // procedure ends, and isn't copied out and in.
    pub(crate) awaits: bool,
}

impl Model for Idle {
    ghost use Rattle.bully_steps.specs.ProcedureState.{IsProcedureState};
    ghost use Rattle.bully_steps.specs.States.{IdleState, idle};

    ghost Value = { IdleState };

    ghost view = { λ s. record { identity = s.identity } };

    ghost invariant = { λ s. IsProcedureState (idle (record { identity = s.identity })) };
}

impl Idle {
    /// Makes the procedure its node's idle one.
    #[inline(never)]
    pub(crate) fn begin(procedure: &mut Procedure)
        ensures { state_of procedure.new ≡ procedure_state (state_of procedure.old).setup (state_of procedure.old).node
            (state_of procedure.old).generation Point.Idle [] None false }
    {
        *procedure = Procedure::Idle(Idle {
            identity: *procedure.identity(),
            awaits: false,
        });
    }
}
