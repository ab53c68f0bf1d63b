//! Traces and tables.
ghost use Rattle.std.specs.Prelude.{◌≡◌, All, IfErr, IfOk, length};
ghost use Rattle.bully_base.specs.Setup.{IsNode};
ghost use Rattle.bully_c.specs.Arguments.{setup_given};
ghost use Rattle.bully_c.specs.Judged.{IsCheck, IsPlannedTable, IsSetOf, IsTable, RefusesTable, verdict_numbers};
ghost use Rattle.bully_c.specs.declared.status.TheConstants.{BAD_NODE as BadNode};

use crate::status::{
    NO_MEMBER, OK, OUT_OF_MEMORY, TABLE_LENGTH, status_of_refusal, status_of_trace,
};
use crate::tables::{CSetup, node_of, put_owners, setup_of, table_of};
use bully_base::{NodeSet, Setup};
use bully_table::{PlanFault, TablePlan, plan_in};
use bully_trace::{Verdict, check};
use std::alloc::Global;

/// The verdict on a trace.
#[repr(C)]
#[derive(Clone, Copy)]
pub struct CVerdict {
    pub kind: u32,
    pub number: u32,
    pub cause: u32,
}

/// Judges a trace: [`bully_trace::check`]. If the trace has a fault of form, the verdict's number is its row.
#[unsafe(no_mangle)]
pub extern "C" fn bully_c_check(alloc: Global, trace: &[u8], verdict: &mut CVerdict) -> u32
    ensures { IsCheck trace.now verdict.old result verdict.new }
{
    let mut text = Vec::new(alloc);
    match check(alloc, trace, &mut text) {
        Ok(found) => {
            *verdict = verdict_of(found);
            OK
        }
        Err(fault) => {
            let status = status_of_trace(fault.cause);
            verdict.number = if status == OUT_OF_MEMORY {
                0
            } else {
                fault.row
            };
            status
        }
    }
}

// The verdict, in numbers.
fn verdict_of(verdict: Verdict) -> CVerdict
    ensures { result ≡ verdict_numbers verdict }
{
    let (kind, number, cause) = match verdict {
        Verdict::Lawful(count) => (0, count, OK),
        Verdict::Refused(row, why) => (1, row, status_of_refusal(why)),
        Verdict::Differs(row) => (2, row, OK),
    };
    CVerdict {
        kind,
        number,
        cause,
    }
}

/// Plans a table over these members, from the table of these owners, or from none: [`plan_in`].
#[unsafe(no_mangle)]
pub extern "C" fn bully_c_table(
    alloc: Global,
    setup: &CSetup,
    weights: &[u16],
    members: &[u16],
    old: &[u16],
    owners: &mut [u16],
    moves: &mut u16,
) -> u32
    ensures { IsTable (setup_given setup.now weights.now) members.now old.now owners.old moves.old result owners.new
        moves.new }
{
    match planned(alloc, setup, weights, members, old, owners.len()) {
        Ok(plan) => {
            put_owners(&plan.table, owners);
            *moves = plan.moves;
            OK
        }
        Err(status) => status,
    }
}

// The table of these arguments, which has this many owners.
fn planned(
    alloc: Global,
    setup: &CSetup,
    weights: &[u16],
    members: &[u16],
    old: &[u16],
    count: usize,
) -> Result<TablePlan, u32>
    ensures ok { IfOk result (λ plan.
        IsPlannedTable (setup_given setup.now weights.now) members.now old.now plan.table plan.moves) }
    ensures count { IfOk result (λ plan. length plan.table ≡ count) }
    ensures err { IfErr result (RefusesTable (setup_given setup.now weights.now) members.now old.now count) }
{
    let setup = setup_of(setup, weights)?;
    let members = members_of(&setup, members)?;
    if count != usize::from(setup.partitions()) {
        return Err(TABLE_LENGTH);
    }
    let old = table_of(alloc, &setup, old)?;
    match plan_in(alloc, &setup, &members, old.as_ref()) {
        Ok(plan) => Ok(plan),
        Err(PlanFault::NoMember) => Err(NO_MEMBER),
        Err(PlanFault::OutOfMemory) => Err(OUT_OF_MEMORY),
    }
}

/// The set of the nodes of these numbers. Refused if the setup lacks one.
pub fn members_of(setup: &Setup, numbers: &[u16]) -> Result<NodeSet, u32>
    ensures set { IfOk result (IsSetOf numbers.now) }
    ensures nodes { IfOk result (λ set. All (IsNode setup.now) set) }
    ensures all { IfOk result (λ _. All (IsNode setup.now) numbers.now) }
    ensures err { IfErr result (λ status. (status ≡ BadNode) × ¬ All (IsNode setup.now) numbers.now) }
{
    let mut members = NodeSet::new();
    for number in numbers {
        members.insert(node_of(setup, *number)?);
    }
    // (shows the proof that the members fall)
    let _count = members.len();
    Ok(members)
}
