//! The table that a node plans.
ghost use Rattle.std.specs.Prelude.{◌≡◌, ◌≤◌, length, IfOk, IfErr, IfSome};
ghost use Rattle.std.specs.Option.{option_copied};
ghost use Rattle.bully_base.specs.NodeSet.{with_node, IsFallingBelow};
ghost use Rattle.bully_steps.specs.ProcedureState.{IsPlannedOver};
ghost use Rattle.bully_table.specs.Planning.{planned};

use bully_base::{Node, NodeSet, Setup};
use bully_table::{PlanFault, Table, TablePlan, plan_in};
use std::alloc::Global;

/// The planned table over the node and its up set, with the fewest moves from the old one, which has the setup's
/// partitions. Refused as `OutOfMemory`; `NoMember` never comes, since the node is a member. The rule:
/// docs/ALGORITHM.md.
pub fn planned_table(
    alloc: Global,
    setup: &Setup,
    node: Node,
    up: &NodeSet,
    old: Option<&Table>,
) -> Result<Table, PlanFault>
    requires node { node ≤ setup.now.nodes }
    requires up { IsFallingBelow node up.now }
    requires old { IfSome (option_copied old) (λ t. length t ≡ setup.now.partitions) }
    ensures planned { IfOk result (λ table.
        table ≡ planned setup.now (option_copied old.entry) (with_node node up.now)) }
    ensures balanced { IfOk result (IsPlannedOver setup.now node up.now) }
    ensures fault { IfErr result (λ fault. fault ≡ PlanFault.OutOfMemory) }
{
    let mut members = *up;
    members.insert(node);
    match plan_in(alloc, setup, &members, old) {
        Ok(TablePlan { table, .. }) => Ok(table),
        Err(fault) => Err(fault),
    }
}
