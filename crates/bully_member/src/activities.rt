//! What a member's process does on each partition.
ghost use Rattle.std.specs.Prelude.{◌≡◌, ◌≤◌, ◌++◌, ◌∷◌, [], if◌then◌else◌, IfOk, OnOk, bytes_eq, length};
ghost use Rattle.std.specs.Option.{option_copied};
ghost use Rattle.bully_base.specs.declared.TheConstants.{PARTITIONS_MAX};
ghost use Rattle.bully_member.specs.Activities.{all_idle, any_stopping, any_working, begin_at, busy, changed, end_at};
ghost use Rattle.bully_member.specs.Activities.{ended_at, is_idle, is_stopping, is_working, stop_at, work_of, works_at};

use crate::values::{Activity, Work};
use bully_base::{Node, OutOfMemory};
use bully_rebalance::is_left;
use bully_table::Table;
use std::alloc::Global;

/// Whether the process works on nothing. It works on a partition that it was asked to stop, until it has reported that
/// the work has ended.
pub fn all_idle(works: &[Activity]) -> bool
    ensures { result ≡ all_idle works.now }
{
    works.iter().all(|activity| is_idle(*activity))
}

pub fn any_working(works: &[Activity]) -> bool
    ensures { result ≡ any_working works.now }
{
    works.iter().any(|activity| is_working(*activity))
}

pub fn any_stopping(works: &[Activity]) -> bool
    ensures { result ≡ any_stopping works.now }
{
    works.iter().any(|activity| is_stopping(*activity))
}

fn is_idle(activity: Activity) -> bool
    ensures { result ≡ is_idle activity }
{
    matches!(activity, Activity::Idle)
}

fn is_working(activity: Activity) -> bool
    ensures { result ≡ is_working activity }
{
    matches!(activity, Activity::Working)
}

fn is_stopping(activity: Activity) -> bool
    ensures { result ≡ is_stopping activity }
{
    matches!(activity, Activity::Stopping)
}

/// Whether the process works on this partition, and wasn't asked to stop that.
pub fn works_at(works: &[Activity], partition: usize) -> bool
    ensures { result ≡ works_at works.now partition }
{
    match works.get(partition) {
        Some(activity) => is_working(*activity),
        None => false,
    }
}

/// The state of the work over all partitions, which began by this token last, and may have ended by itself.
pub fn work_of(works: &[Activity], token: u32, is_lost: bool) -> Work
    ensures { result ≡ work_of works.now token is_lost }
{
    if all_idle(works) {
        Work::Idle
    } else if is_lost {
        Work::Lost(token)
    } else if any_stopping(works) {
        Work::Stopping(token)
    } else {
        Work::Working(token)
    }
}

/// The partitions on which the process works, in rising order. Refused if an allocation fails.
pub fn busy(alloc: Global, works: &[Activity]) -> Result<Vec<u16>, OutOfMemory>
    requires { length works.now ≤ PARTITIONS_MAX }
    ensures { IfOk result (λ partitions. partitions.items ≡ busy works.now) }
{
    let mut partitions = Vec::new(alloc);
    for index in 0..works.len() {
        push_unless(is_idle(works[index]), index as u16, &mut partitions)?;
    }
    Ok(partitions)
}

fn push_unless(is_idle: bool, partition: u16, partitions: &mut Vec<u16>) -> Result<(), OutOfMemory>
    ensures { OnOk result (partitions.new.items ≡ partitions.old.items ++ (if is_idle then [] else partition ∷ [])) }
{
    if !is_idle {
        partitions.push(partition)?;
    }
    Ok(())
}

/// Whether these are exactly the partitions on which the process works, in rising order.
pub fn keeps_exactly(works: &[Activity], kept: &[u16]) -> bool
    requires { length works.now ≤ PARTITIONS_MAX }
    ensures { result ≡ bytes_eq (busy works.now) kept.now }
{
    let mut rest = kept;
    for index in 0..works.len() {
        if !is_idle(works[index]) {
            match rest.split_first() {
                Some((partition, more)) if *partition == index as u16 => rest = more,
                _ => return false,
            }
        }
    }
    rest.is_empty()
}

/// Asks it to stop all work that this table, if there is one, doesn't leave the node.
pub fn stop_all_but(works: &mut [Activity], table: Option<&Table>, node: Node)
    ensures { works.new ≡ changed (stop_at (option_copied table.entry) node) works.old }
{
    for index in 0..works.len() {
        works[index] = stop_at(table, node, index, works[index]);
    }
}

fn stop_at(table: Option<&Table>, node: Node, partition: usize, activity: Activity) -> Activity
    ensures { result ≡ stop_at (option_copied table.entry) node partition activity }
{
    match activity {
        Activity::Working if !is_left(table, node, partition) => Activity::Stopping,
        _ => activity,
    }
}

/// Asks it to work on all that this table, if there is one, gives the node, beside what it works on already.
pub fn begin_all(works: &mut [Activity], table: Option<&Table>, node: Node)
    ensures { works.new ≡ changed (begin_at (option_copied table.entry) node) works.old }
{
    for index in 0..works.len() {
        works[index] = begin_at(table, node, index, works[index]);
    }
}

fn begin_at(table: Option<&Table>, node: Node, partition: usize, activity: Activity) -> Activity
    ensures { result ≡ begin_at (option_copied table.entry) node partition activity }
{
    if is_left(table, node, partition) {
        Activity::Working
    } else {
        activity
    }
}

/// All work has ended.
pub fn end_all(works: &mut [Activity])
    ensures { works.new ≡ changed end_at works.old }
{
    for index in 0..works.len() {
        works[index] = Activity::Idle;
    }
}

/// The work on this partition has ended.
pub fn end_one(works: &mut [Activity], partition: u16)
    ensures { works.new ≡ changed (ended_at partition) works.old }
{
    let index = usize::from(partition);
    if index < works.len() {
        works[index] = Activity::Idle;
    }
}
