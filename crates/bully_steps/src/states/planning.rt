ghost use Rattle.std.specs.Prelude.{◌≡◌, length, false, IfOk, IfErr, IfSome, Some, None};
ghost use Rattle.std.specs.Option.{option_copied};
ghost use Rattle.bully_base.specs.NodeSet.{with_node, IsFallingBelow};
ghost use Rattle.bully_steps.specs.declared.point.Point.{Point};
ghost use Rattle.bully_steps.specs.Procedure.{state_of};
ghost use Rattle.bully_steps.specs.ProcedureState.{IsPlannedOver, procedure_state};
ghost use Rattle.bully_steps.specs.States.{planning, planned};
ghost use Rattle.bully_table.specs.Planning.{planned as planned_over};

use crate::Procedure;
use crate::planning::planned_table;
use crate::states::Identity;
use bully_base::NodeSet;
use bully_table::{PlanFault, Table};
use std::alloc::Global;
use std::marker::Model;

/// The coordinator knows who takes part, itself and `up`, and has no table for them yet. What a table is, and how
/// it is planned: docs/ALGORITHM.md.
#[derive(Drop, Debug)]
pub struct Planning {
    pub(crate) identity: Identity,
    pub(crate) up: NodeSet,
}

impl Model for Planning {
    ghost use Rattle.bully_steps.specs.ProcedureState.{IsProcedureState};
    ghost use Rattle.bully_steps.specs.States.{PlanningState, planning};

    ghost Value = { PlanningState };

    ghost view = { λ s. record { identity = s.identity; up = s.up } };

    ghost invariant = { λ s. IsProcedureState (planning (record { identity = s.identity; up = s.up })) };
}

/// The coordinator has a table that is balanced over itself and `up`, which it hasn't taken as its task yet.
/// The rule: docs/ALGORITHM.md.
#[derive(Drop, Debug)]
pub struct Planned {
    pub(crate) identity: Identity,
    pub(crate) up: NodeSet,
    pub(crate) table: Table,
}

impl Model for Planned {
    ghost use Rattle.bully_steps.specs.ProcedureState.{IsProcedureState};
    ghost use Rattle.bully_steps.specs.States.{PlannedState, planned};

    ghost Value = { PlannedState };

    ghost view = { λ s. record { identity = s.identity; up = s.up; table = s.table } };

    ghost invariant = { λ s.
        IsProcedureState (planned (record { identity = s.identity; up = s.up; table = s.table })) };
}

impl Planning {
    /// Makes the procedure its node's that plans for itself and these.
    #[inline(never)]
    pub(crate) fn begin(procedure: &mut Procedure, up: &NodeSet)
        requires up { IsFallingBelow (state_of procedure.old).node up.now }
        ensures { state_of procedure.new ≡ procedure_state (state_of procedure.old).setup (state_of procedure.old).node
            (state_of procedure.old).generation Point.Planning up.now None false }
    {
        *procedure = Procedure::Planning(Planning {
            identity: *procedure.identity(),
            up: *up,
        });
    }

    /// Plans the table over the node and those that are up, with the fewest moves from the old table, which has
    /// the setup's partitions. Refused as `OutOfMemory`, and then the planning is handed back as it was;
    /// `NoMember` never comes, since the node is a member. It is for a caller's own loop, which holds the planning by
    /// value. The rule: docs/ALGORITHM.md.
    pub fn prepare(
        self,
        alloc: Global,
        old: Option<&Table>,
    ) -> Result<Planned, (Planning, PlanFault)>
        requires { IfSome (option_copied old) (λ t. length t ≡ self.identity.setup.partitions) }
        ensures prepared { IfOk result (λ p. planned p ≡ record (planning self) {
          table =
              Some (planned_over self.identity.setup (option_copied old.entry) (with_node self.identity.node self.up));
        }) }
        ensures same { IfErr result (λ back. back.0 ≡ self) }
        ensures fault { IfErr result (λ back. back.1 ≡ PlanFault.OutOfMemory) }
    {
        match self.planned_table(alloc, old) {
            Ok(table) => Ok(Planned {
                identity: self.identity,
                up: self.up,
                table,
            }),
            Err(fault) => Err((self, fault)),
        }
    }

    /// The table that [`Planning::prepare`] plans, and its refusal.
    pub(crate) fn planned_table(
        &self,
        alloc: Global,
        old: Option<&Table>,
    ) -> Result<Table, PlanFault>
        requires { IfSome (option_copied old) (λ t. length t ≡ self.now.identity.setup.partitions) }
        ensures planned { IfOk result (λ table. table ≡ planned_over self.now.identity.setup (option_copied old.entry)
            (with_node self.now.identity.node self.now.up)) }
        ensures balanced { IfOk result (IsPlannedOver self.now.identity.setup self.now.identity.node self.now.up) }
        ensures fault { IfErr result (λ fault. fault ≡ PlanFault.OutOfMemory) }
    {
        planned_table(
            alloc,
            &self.identity.setup,
            self.identity.node,
            &self.up,
            old,
        )
    }
}
