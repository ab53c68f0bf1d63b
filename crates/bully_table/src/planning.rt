ghost use Rattle.std.specs.Prelude.{◌≡◌, ◌≢◌, ◌↔◌, ◌+◌, ◌-◌, ◌<◌, ◌≤◌, ℕ, List, [], All, Contains, Some, None, length};
ghost use Rattle.std.specs.Prelude.{IfOk, IfErr, if◌then◌else◌};
ghost use Rattle.std.specs.Option.{IfSome, option_copied};
ghost use Rattle.bully_base.specs.NodeSet.{IsFallingBelow};
ghost use Rattle.bully_base.specs.declared.TheConstants.{NODES_MAX};
ghost use Rattle.bully_table.specs.Balance.{total_weight};
ghost use Rattle.bully_table.specs.Planning.{IsFewest, IsMostKept, moves_from, owners_before, quota, planned_by};
ghost use Rattle.bully_table.specs.Planning.{planned, owner_at, stays};
ghost use Rattle.bully_table.specs.Takers.{AreLeft};

use crate::balance::{PLACES, count_owners, place_of};
use crate::quotas::write_quotas;
use crate::table::Table;
use crate::takers::Takers;
use bully_base::{Node, NodeSet, OutOfMemory, Setup};
use std::alloc::{AllocError, Global};

/// A planned table, with the certificate that no balanced table keeps more partitions where they are.
#[derive(Drop, Debug)]
pub struct TablePlan {
    pub table: Table,
    /// How many partitions have another owner than in the old table; all of them where there is none.
    pub moves: u16,
    /// The most partitions that any balanced table keeps. `moves` is the number of partitions less this one.
    pub bound: u16,
}

/// Why there is no plan, the first that holds.
#[derive(Clone, Copy, PartialEq, Eq, Debug)]
pub enum PlanFault {
    /// The set of members is empty.
    NoMember,
    /// An allocation failed.
    OutOfMemory,
}

impl From<AllocError> for PlanFault {
    ghost use Rattle.bully_table.specs.declared.planning.PlanFault.{PlanFault};

    ghost from_gives = { λ _ fault. fault ≡ PlanFault.OutOfMemory };

    fn from(_: AllocError) -> PlanFault {
        PlanFault::OutOfMemory
    }
}

/// Plans a table that is balanced over the members, which are nodes of the setup, and has the fewest moves from the old
/// table, if there is one. The old table has the setup's partitions. Refused, in this order, as `NoMember`,
/// `OutOfMemory`. The rule: docs/ALGORITHM.md.
///
/// A member's base is the number of partitions times its weight, divided by what the members weigh together, and
/// rounded down. What the bases leave goes to the members one by one: first to those that own more than their base in
/// the old table, in rising number, and then to the others. That makes each member's quota. A partition stays where its
/// owner is a member, until the quota of that member is full. The others, in rising order, fill the members up to their
/// quotas, in rising number.
pub fn plan(
    alloc: Global,
    setup: Setup,
    members: &NodeSet,
    old: Option<&Table>,
) -> Result<TablePlan, PlanFault>
    requires nodes { All (λ m. m ≤ setup.nodes) members.now }
    requires old { IfSome (option_copied old) (λ t. length t ≡ setup.partitions) }
    ensures member { IfOk result (λ _. members.now ≢ []) }
    ensures no_member { IfErr result (λ fault. (fault ≡ PlanFault.NoMember) ↔ (members.now ≡ [])) }
    ensures planned { IfOk result (λ plan.
        plan.table ≡ planned setup (option_copied old.entry) members.now) }
    ensures fewest { IfOk result (λ plan.
        IsFewest setup (option_copied old.entry) plan.table members.now) }
    ensures bound { IfOk result (λ plan.
        IsMostKept setup (option_copied old.entry) members.now plan.bound) }
    ensures moves { IfOk result (λ plan.
        plan.moves ≡ moves_from setup (option_copied old.entry) plan.table) }
    ensures certificate { IfOk result (λ plan. plan.moves ≡ setup.partitions - plan.bound) }
{
    plan_in(alloc, &setup, members, old)
}

/// [`plan`], with the setup by reference.
pub fn plan_in(
    alloc: Global,
    setup: &Setup,
    members: &NodeSet,
    old: Option<&Table>,
) -> Result<TablePlan, PlanFault>
    requires nodes { All (λ m. m ≤ setup.now.nodes) members.now }
    requires old { IfSome (option_copied old) (λ t. length t ≡ setup.now.partitions) }
    ensures member { IfOk result (λ _. members.now ≢ []) }
    ensures no_member { IfErr result (λ fault. (fault ≡ PlanFault.NoMember) ↔ (members.now ≡ [])) }
    ensures planned { IfOk result (λ plan.
        plan.table ≡ planned setup.now (option_copied old.entry) members.now) }
    ensures fewest { IfOk result (λ plan.
        IsFewest setup.now (option_copied old.entry) plan.table members.now) }
    ensures bound { IfOk result (λ plan.
        IsMostKept setup.now (option_copied old.entry) members.now plan.bound) }
    ensures moves { IfOk result (λ plan.
        plan.moves ≡ moves_from setup.now (option_copied old.entry) plan.table) }
    ensures certificate { IfOk result (λ plan. plan.moves ≡ setup.now.partitions - plan.bound) }
{
    // `highest` also shows the proof that the members fall.
    if members.highest().is_none() {
        return Err(PlanFault::NoMember);
    }
    let partitions = setup.partitions();
    let owners = planned_owners(alloc, setup, members, owners_before(old))?;
    let table = Table::of(owners);
    let moves = moves_from(setup, old, &table);
    Ok(TablePlan {
        table,
        moves,
        bound: partitions - moves,
    })
}

// The owners in the old table, and nobody where there is none.
fn owners_before(old: Option<&Table>) -> &[Node]
    ensures { result.now ≡ owners_before (option_copied old.entry) }
{
    match old {
        Some(table) => table.owners(),
        None => &[],
    }
}

// How many partitions move; all of them where there is no old table.
fn moves_from(setup: &Setup, old: Option<&Table>, table: &Table) -> u16
    requires { IfSome (option_copied old) (λ t. length t ≡ length table.now) }
    ensures { result ≡ moves_from setup.now (option_copied old.entry) table.now }
{
    match old {
        Some(old) => table.moves(old),
        None => setup.partitions(),
    }
}

// The owners of the planned table. Refused where an allocation fails.
fn planned_owners(
    alloc: Global,
    setup: &Setup,
    members: &NodeSet,
    before: &[Node],
) -> Result<Vec<Node>, OutOfMemory>
    requires falling { IsFallingBelow (setup.now.nodes + 1) members.now }
    requires weighs { 0 < total_weight setup.now members.now }
    requires covers { length before.now ≤ setup.now.partitions }
    ensures { IfOk result (λ owners. owners.items
        ≡ planned_by (quota setup.now before.now members.now) setup.now.partitions before.now members.now) }
{
    let partitions = usize::from(setup.partitions());
    let mut counts = [0; PLACES];
    count_owners(before, &mut counts);
    let mut quotas = [0; PLACES];
    write_quotas(setup, members, &counts, &mut quotas);
    let mut takers = Takers::of(&quotas, &counts);
    let mut left = quotas;
    let mut owners = Vec::with_capacity(alloc, partitions)?;
    for place in 0..partitions {
        let owner = match staying_owner(before, place, &mut left) {
            Some(owner) => owner,
            None => takers.next().unwrap(),
        };
        owners.push_reserved(owner);
    }
    Ok(owners)
}

// The owner of the partition at this place, if it stays there. `left` has what is left of each quota once the places
// before are counted, and then once this one is, too.
fn staying_owner(before: &[Node], place: usize, left: &mut [u16; PLACES]) -> Option<Node>
    ensures left { (quotas : ℕ → ℕ) → AreLeft quotas before.now place left.old
        → AreLeft quotas before.now (place + 1) left.new }
    ensures owner { (quotas : ℕ → ℕ) (members : List ℕ) → IsFallingBelow (NODES_MAX + 1) members
        → ((m : ℕ) → ¬ Contains members m → quotas m ≡ 0) → AreLeft quotas before.now place left.old
        → result ≡ (if stays quotas before.now members place then Some (owner_at before.now place) else None) }
{
    let owner = *before.get(place)?;
    let left = &mut left[place_of(owner)];
    if *left == 0 {
        return None;
    }
    *left -= 1;
    Some(owner)
}
