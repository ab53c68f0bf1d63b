//! Members behind their handles.
ghost use Rattle.std.specs.Prelude.{◌≡◌, ◌==◌, None, IfErr, IfOk, map, not, string_bytes, true};
ghost use Rattle.bully_c.specs.Arguments.{IsCopied, IsMadeAndCopied};
ghost use Rattle.bully_c.specs.Exports.{IsClosing};
ghost use Rattle.bully_c.specs.MemberNumbers.{activity_number};
ghost use Rattle.bully_c.specs.MemberShown.{member_shown};
ghost use Rattle.bully_c.specs.Members.{AtMember, Becomes, IsAnswer, IsFollow, IsSnapshotRead, IsMemberLearning};
ghost use Rattle.bully_c.specs.Members.{IsMemberOpening, IsMemberRebalance, IsNextStep, IsOwnedOfShown, IsMemberStable};
ghost use Rattle.bully_c.specs.Members.{IsAffectedShown, NeedsPromises, RefusesMemberRebalance, ShowsMember};
ghost use Rattle.bully_c.specs.Replicas.{IsStateShown, IsWritten, group_shown, table_shown};
ghost use Rattle.bully_c.specs.RebalanceRows.{IsOwnedMade};
ghost use Rattle.bully_c.specs.declared.status.TheConstants.{OK as OkNumber};
ghost use Rattle.bully_member.specs.Activities.{busy};
ghost use Rattle.bully_member.specs.Learned.{not_there};
ghost use Rattle.bully_member.specs.Member.{replica_of};
ghost use Rattle.bully_member.specs.Told.{end_for, lost, stopped, stopped_on, to_snapshot};
ghost use Rattle.bully_member.specs.declared.values.Ending.{Ending};
ghost use Rattle.bully_rebalance.specs.Owning.{owned_by};

use crate::leases::{CLease, lease_at};
use crate::member_handle::MemberHandle;
use crate::member_shown::{CMember, CStep, copy_activities, member_state};
use crate::member_told::{learn, tell_answer, tell_follow, tell_next, tell_snapshot};
use crate::openings::{TermsTold, opened_member};
use crate::rebalances::{copy_numbers, copy_owned, events_rows, status_of_rebalance};
use crate::replicas::{CGroup, group_of, show_node};
use crate::shown::{CState, copy_owners, copy_text};
use crate::status::{CLOSED, OK, OPEN, OUT_OF_MEMORY};
use crate::tables::node_of;
use bully_member::Member;
use bully_rebalance::Partitions;
use std::alloc::Global;

/// Opens the handle: [`Member::new`].
#[unsafe(no_mangle)]
pub extern "C" fn bully_c_member_open(
    alloc: Global,
    member: &mut MemberHandle,
    header: &[u8],
    epoch: u32,
    node: u16,
    rows_max: u32,
    old: &[u16],
    is_cooperative: u32,
    process: u64,
    ttl: u64,
) -> u32
    ensures { IsMemberOpening header.now (record {
      epoch = epoch;
      node = node;
      rows_max = rows_max;
      is_cooperative = not (is_cooperative == 0);
    }) old.now process ttl member.old.value result member.new.value }
{
    if let Some(held) = member.take(alloc) {
        member.put(alloc, held);
        return OPEN;
    }
    let told = TermsTold {
        epoch,
        node,
        rows_max,
        is_cooperative: is_cooperative != 0,
    };
    match opened_member(alloc, header, told, old, process, ttl) {
        Ok(held) => {
            member.put(alloc, held);
            OK
        }
        Err(status) => status,
    }
}

/// Closes the handle, and gives back what it kept.
#[unsafe(no_mangle)]
pub extern "C" fn bully_c_member_close(alloc: Global, member: &mut MemberHandle) -> u32
    ensures { IsClosing member.old.value result member.new.value }
{
    match member.take(alloc) {
        Some(_) => OK,
        None => CLOSED,
    }
}

/// What it does now: [`Member::next`].
#[unsafe(no_mangle)]
pub extern "C" fn bully_c_member_next(
    alloc: Global,
    member: &mut MemberHandle,
    now: u64,
    step: &mut CStep,
) -> u32
    ensures open { AtMember (IsNextStep now step.new) member.old.value result member.new.value }
    ensures closed { member.old.value ≡ None → step.new ≡ step.old }
{
    let Some(mut held) = member.take(alloc) else {
        return CLOSED;
    };
    let status = tell_next(&mut held, now, step);
    member.put(alloc, held);
    status
}

/// What became of its last request: [`Member::answered`].
#[unsafe(no_mangle)]
pub extern "C" fn bully_c_member_answered(
    alloc: Global,
    member: &mut MemberHandle,
    now: u64,
    answer: u32,
) -> u32
    ensures { AtMember (IsAnswer now answer) member.old.value result member.new.value }
{
    let Some(mut held) = member.take(alloc) else {
        return CLOSED;
    };
    let status = tell_answer(&mut held, now, answer);
    member.put(alloc, held);
    status
}

/// Learns the rows that come next in the log: [`Member::learn`].
#[unsafe(no_mangle)]
pub extern "C" fn bully_c_member_learn(
    alloc: Global,
    member: &mut MemberHandle,
    rows: &[u8],
    taken: &mut usize,
) -> u32
    ensures open { AtMember (IsMemberLearning rows.now taken.new) member.old.value result member.new.value }
    ensures closed { member.old.value ≡ None → taken.new ≡ taken.old }
{
    let Some(mut held) = member.take(alloc) else {
        return CLOSED;
    };
    let status = learn(alloc, &mut held, rows, taken);
    member.put(alloc, held);
    status
}

/// What a snapshot found beside the rows: [`Member::snapshot_read`].
#[unsafe(no_mangle)]
pub extern "C" fn bully_c_member_snapshot_read(
    alloc: Global,
    member: &mut MemberHandle,
    now: u64,
    epoch: u32,
    leases: &[CLease],
    kept: &[u16],
    has_unknown: u32,
    has_request: u32,
) -> u32
    ensures { AtMember (IsSnapshotRead now epoch leases.now kept.now (not (has_unknown == 0))
        (not (has_request == 0))) member.old.value result member.new.value }
{
    let Some(mut held) = member.take(alloc) else {
        return CLOSED;
    };
    let status = tell_snapshot(
        alloc,
        &mut held,
        now,
        epoch,
        leases,
        kept,
        has_unknown != 0,
        has_request != 0,
    );
    member.put(alloc, held);
    status
}

/// The epoch is over, and its log was removed: [`Member::passed`].
#[unsafe(no_mangle)]
pub extern "C" fn bully_c_member_passed(alloc: Global, member: &mut MemberHandle) -> u32
    ensures { AtMember (Becomes (λ m. record m { is_past = true; asked = None })) member.old.value result
        member.new.value }
{
    let Some(mut held) = member.take(alloc) else {
        return CLOSED;
    };
    held.member.passed();
    member.put(alloc, held);
    OK
}

/// What the current epoch starts with: [`Member::followed`].
#[unsafe(no_mangle)]
pub extern "C" fn bully_c_member_followed(
    alloc: Global,
    member: &mut MemberHandle,
    now: u64,
    header: &[u8],
    epoch: u32,
    node: u16,
    rows_max: u32,
    old: &[u16],
    is_cooperative: u32,
) -> u32
    ensures { AtMember (IsFollow now header.now (record {
      epoch = epoch;
      node = node;
      rows_max = rows_max;
      is_cooperative = not (is_cooperative == 0);
    }) old.now) member.old.value result member.new.value }
{
    let Some(mut held) = member.take(alloc) else {
        return CLOSED;
    };
    let told = TermsTold {
        epoch,
        node,
        rows_max,
        is_cooperative: is_cooperative != 0,
    };
    let status = tell_follow(alloc, &mut held, now, header, told, old);
    member.put(alloc, held);
    status
}

/// The current epoch's group has no node of its name: [`Member::not_there`].
#[unsafe(no_mangle)]
pub extern "C" fn bully_c_member_not_there(alloc: Global, member: &mut MemberHandle) -> u32
    ensures { AtMember (Becomes (λ m. not_there m)) member.old.value result member.new.value }
{
    let Some(mut held) = member.take(alloc) else {
        return CLOSED;
    };
    held.member.not_there();
    member.put(alloc, held);
    OK
}

/// A wait is over: [`Member::woke`].
#[unsafe(no_mangle)]
pub extern "C" fn bully_c_member_woke(alloc: Global, member: &mut MemberHandle) -> u32
    ensures { AtMember (Becomes (λ m. to_snapshot m)) member.old.value result member.new.value }
{
    let Some(mut held) = member.take(alloc) else {
        return CLOSED;
    };
    held.member.woke();
    member.put(alloc, held);
    OK
}

/// The member must leave in an orderly way: [`Member::leave`].
#[unsafe(no_mangle)]
pub extern "C" fn bully_c_member_leave(alloc: Global, member: &mut MemberHandle) -> u32
    ensures { AtMember (Becomes (λ m. end_for m Ending.Left m.ending)) member.old.value result member.new.value }
{
    let Some(mut held) = member.take(alloc) else {
        return CLOSED;
    };
    held.member.leave();
    member.put(alloc, held);
    OK
}

/// The work that was started by this token has ended by itself: [`Member::lost`].
#[unsafe(no_mangle)]
pub extern "C" fn bully_c_member_lost(alloc: Global, member: &mut MemberHandle, token: u32) -> u32
    ensures { AtMember (Becomes (λ m. lost m token)) member.old.value result member.new.value }
{
    let Some(mut held) = member.take(alloc) else {
        return CLOSED;
    };
    held.member.lost(token);
    member.put(alloc, held);
    OK
}

/// All work has ended: [`Member::stopped`].
#[unsafe(no_mangle)]
pub extern "C" fn bully_c_member_stopped(alloc: Global, member: &mut MemberHandle) -> u32
    ensures { AtMember (Becomes (λ m. stopped m)) member.old.value result member.new.value }
{
    let Some(mut held) = member.take(alloc) else {
        return CLOSED;
    };
    held.member.stopped();
    member.put(alloc, held);
    OK
}

/// The work on this partition has ended: [`Member::stopped_on`].
#[unsafe(no_mangle)]
pub extern "C" fn bully_c_member_stopped_on(
    alloc: Global,
    member: &mut MemberHandle,
    partition: u16,
) -> u32
    ensures { AtMember (Becomes (λ m. stopped_on m partition)) member.old.value result member.new.value }
{
    let Some(mut held) = member.take(alloc) else {
        return CLOSED;
    };
    held.member.stopped_on(partition);
    member.put(alloc, held);
    OK
}

/// The rows that it appends: [`Member::rebalance`].
#[unsafe(no_mangle)]
pub extern "C" fn bully_c_member_rebalance(
    alloc: Global,
    member: &mut MemberHandle,
    rows: &mut [u8],
    length: &mut usize,
) -> u32
    ensures open { AtMember (ShowsMember (λ held status. IsWritten (IsMemberRebalance held.member)
        (RefusesMemberRebalance held.member) rows.old length.old status rows.new length.new)) member.old.value result
        member.new.value }
    ensures closed { member.old.value ≡ None → (rows.new ≡ rows.old) × (length.new ≡ length.old) }
{
    let Some(held) = member.take(alloc) else {
        return CLOSED;
    };
    let status = write_rows(alloc, &held.member, rows, length);
    member.put(alloc, held);
    status
}

// Writes the rows that the member appends.
fn write_rows(alloc: Global, member: &Member, rows: &mut [u8], length: &mut usize) -> u32
    ensures { IsWritten (IsMemberRebalance member.now)
        (RefusesMemberRebalance member.now) rows.old length.old result rows.new length.new }
{
    match member_rows(alloc, member) {
        Ok(text) => copy_text(&text, rows, length),
        Err(status) => status,
    }
}

// The rows that the member appends.
fn member_rows(alloc: Global, member: &Member) -> Result<String, u32>
    ensures ok { IfOk result (λ text. IsMemberRebalance member.now (string_bytes text)) }
    ensures err { IfErr result (RefusesMemberRebalance member.now) }
{
    match member.rebalance(alloc) {
        Ok(events) => match events_rows(alloc, &events) {
            Ok(text) => Ok(text),
            Err(_) => Err(OUT_OF_MEMORY),
        },
        Err(fault) => Err(status_of_rebalance(fault)),
    }
}

/// What its node owns, by a plan after all that its session has promised: [`Member::owned`].
#[unsafe(no_mangle)]
pub extern "C" fn bully_c_member_owned(
    alloc: Global,
    member: &mut MemberHandle,
    token: &mut u32,
    partitions: &mut [u16],
    count: &mut usize,
) -> u32
    ensures open { AtMember (ShowsMember (λ held status. let m = held.member in
        IsOwnedMade (owned_by (replica_of m) m.terms.node m.promised) token.old partitions.old count.old status
        token.new partitions.new count.new)) member.old.value result member.new.value }
    ensures closed { member.old.value ≡ None → (token.new ≡ token.old) × (partitions.new ≡ partitions.old)
        × (count.new ≡ count.old) }
{
    let Some(held) = member.take(alloc) else {
        return CLOSED;
    };
    let status = write_own(alloc, &held.member, token, partitions, count);
    member.put(alloc, held);
    status
}

// Writes what the member's node owns.
fn write_own(
    alloc: Global,
    member: &Member,
    token: &mut u32,
    partitions: &mut [u16],
    count: &mut usize,
) -> u32
    ensures { IsOwnedMade (owned_by (replica_of member.now) member.now.terms.node member.now.promised) token.old
        partitions.old count.old result token.new partitions.new count.new }
{
    match member.owned(alloc) {
        Ok(owned) => copy_owned(&owned, token, partitions, count),
        Err(_) => OUT_OF_MEMORY,
    }
}

/// What the holder of this lease owns: [`Member::owned_of`].
#[unsafe(no_mangle)]
pub extern "C" fn bully_c_member_owned_of(
    alloc: Global,
    member: &mut MemberHandle,
    lease: &CLease,
    token: &mut u32,
    partitions: &mut [u16],
    count: &mut usize,
) -> u32
    ensures open { AtMember (ShowsMember (λ held status. IsOwnedOfShown held.member lease.now token.old partitions.old
        count.old status token.new partitions.new count.new)) member.old.value result member.new.value }
    ensures closed { member.old.value ≡ None → (token.new ≡ token.old) × (partitions.new ≡ partitions.old)
        × (count.new ≡ count.old) }
{
    let Some(held) = member.take(alloc) else {
        return CLOSED;
    };
    let status = write_owned_of(alloc, &held.member, lease, token, partitions, count);
    member.put(alloc, held);
    status
}

// Writes what the holder of this lease owns.
fn write_owned_of(
    alloc: Global,
    member: &Member,
    lease: &CLease,
    token: &mut u32,
    partitions: &mut [u16],
    count: &mut usize,
) -> u32
    ensures { IsOwnedOfShown member.now lease.now token.old partitions.old count.old result token.new partitions.new
        count.new }
{
    match node_of(member.replica().world().setup(), lease.node) {
        Ok(node) => {
            let lease = lease_at(node, lease, Partitions::from_vec(Vec::new(alloc)));
            match member.owned_of(alloc, &lease) {
                Ok(owned) => copy_owned(&owned, token, partitions, count),
                Err(_) => OUT_OF_MEMORY,
            }
        }
        Err(status) => status,
    }
}

/// The partitions on which it works: [`Member::works`].
#[unsafe(no_mangle)]
pub extern "C" fn bully_c_member_works(
    alloc: Global,
    member: &mut MemberHandle,
    partitions: &mut [u16],
    count: &mut usize,
) -> u32
    ensures open { AtMember (ShowsMember (λ held status. IsMadeAndCopied (busy held.member.works) partitions.old
        count.old status partitions.new count.new)) member.old.value result member.new.value }
    ensures closed { member.old.value ≡ None → (partitions.new ≡ partitions.old) × (count.new ≡ count.old) }
{
    let Some(held) = member.take(alloc) else {
        return CLOSED;
    };
    let status = write_works(alloc, &held.member, partitions, count);
    member.put(alloc, held);
    status
}

// Writes the partitions on which the member works.
fn write_works(alloc: Global, member: &Member, partitions: &mut [u16], count: &mut usize) -> u32
    ensures { IsMadeAndCopied (busy member.now.works) partitions.old count.old result partitions.new count.new }
{
    match member.works(alloc) {
        Ok(works) => copy_numbers(works.as_slice(), partitions, count),
        Err(_) => OUT_OF_MEMORY,
    }
}

/// What its process does on each partition: [`Member::activities`].
#[unsafe(no_mangle)]
pub extern "C" fn bully_c_member_activities(
    alloc: Global,
    member: &mut MemberHandle,
    activities: &mut [u16],
    count: &mut usize,
) -> u32
    ensures open { AtMember (ShowsMember (λ held status. IsCopied (map activity_number held.member.works) activities.old
        status activities.new count.new)) member.old.value result member.new.value }
    ensures closed { member.old.value ≡ None → (activities.new ≡ activities.old) × (count.new ≡ count.old) }
{
    let Some(held) = member.take(alloc) else {
        return CLOSED;
    };
    let status = copy_activities(held.member.activities(), activities, count);
    member.put(alloc, held);
    status
}

/// Whether a change affects this node: [`Member::is_affected`].
#[unsafe(no_mangle)]
pub extern "C" fn bully_c_member_is_affected(
    alloc: Global,
    member: &mut MemberHandle,
    node: u16,
    is_affected: &mut u32,
) -> u32
    ensures open { AtMember (ShowsMember (λ held status. IsAffectedShown held.member node is_affected.old status
        is_affected.new)) member.old.value result member.new.value }
    ensures closed { member.old.value ≡ None → is_affected.new ≡ is_affected.old }
{
    let Some(held) = member.take(alloc) else {
        return CLOSED;
    };
    let status = write_affected(&held.member, node, is_affected);
    member.put(alloc, held);
    status
}

// Writes whether a change affects the node of this number.
fn write_affected(member: &Member, node: u16, is_affected: &mut u32) -> u32
    ensures { IsAffectedShown member.now node is_affected.old result is_affected.new }
{
    match node_of(member.replica().world().setup(), node) {
        Ok(node) => {
            *is_affected = u32::from(member.is_affected(node));
            OK
        }
        Err(status) => status,
    }
}

/// Whether the group is stable for it: [`Member::is_stable`].
#[unsafe(no_mangle)]
pub extern "C" fn bully_c_member_is_stable(
    alloc: Global,
    member: &mut MemberHandle,
    is_stable: &mut u32,
) -> u32
    ensures open { AtMember (ShowsMember (λ held status. (status ≡ OkNumber)
        × IsMemberStable held.member is_stable.new)) member.old.value result member.new.value }
    ensures closed { member.old.value ≡ None → is_stable.new ≡ is_stable.old }
{
    let Some(held) = member.take(alloc) else {
        return CLOSED;
    };
    *is_stable = stable_told(&held.member);
    member.put(alloc, held);
    OK
}

// Whether the group is stable for the member, as a number for C.
fn stable_told(member: &Member) -> u32
    ensures { IsMemberStable member.now result }
{
    u32::from(member.is_stable())
}

/// Whether its next snapshot must show what others have promised: [`Member::needs_promises`].
#[unsafe(no_mangle)]
pub extern "C" fn bully_c_member_needs_promises(
    alloc: Global,
    member: &mut MemberHandle,
    now: u64,
    needs_promises: &mut u32,
) -> u32
    ensures open { AtMember (ShowsMember (λ held status. (status ≡ OkNumber)
        × NeedsPromises held.member now needs_promises.new)) member.old.value result member.new.value }
    ensures closed { member.old.value ≡ None → needs_promises.new ≡ needs_promises.old }
{
    let Some(held) = member.take(alloc) else {
        return CLOSED;
    };
    *needs_promises = promises_needed(&held.member, now);
    member.put(alloc, held);
    OK
}

// Whether the member's next snapshot must show what others have promised, as a number for C.
fn promises_needed(member: &Member, now: u64) -> u32
    ensures { NeedsPromises member.now now result }
{
    u32::from(member.needs_promises(now))
}

/// The state of the member now.
#[unsafe(no_mangle)]
pub extern "C" fn bully_c_member_show(
    alloc: Global,
    member: &mut MemberHandle,
    now: u64,
    shown: &mut CMember,
) -> u32
    ensures open { AtMember (ShowsMember (λ held status. (status ≡ OkNumber)
        × (shown.new ≡ member_shown held.member now))) member.old.value result member.new.value }
    ensures closed { member.old.value ≡ None → shown.new ≡ shown.old }
{
    let Some(held) = member.take(alloc) else {
        return CLOSED;
    };
    *shown = member_state(&held.member, now);
    member.put(alloc, held);
    OK
}

/// The state of a node, by what the member has learned.
#[unsafe(no_mangle)]
pub extern "C" fn bully_c_member_node(
    alloc: Global,
    member: &mut MemberHandle,
    node: u16,
    state: &mut CState,
) -> u32
    ensures open { AtMember (ShowsMember (λ held status. IsStateShown held.member.learned.replica.world node state.old
        status state.new)) member.old.value result member.new.value }
    ensures closed { member.old.value ≡ None → state.new ≡ state.old }
{
    let Some(held) = member.take(alloc) else {
        return CLOSED;
    };
    let status = show_node(held.member.replica().world(), node, state);
    member.put(alloc, held);
    status
}

/// The state of its group, by what the member has learned.
#[unsafe(no_mangle)]
pub extern "C" fn bully_c_member_group(
    alloc: Global,
    member: &mut MemberHandle,
    group: &mut CGroup,
) -> u32
    ensures open { AtMember (ShowsMember (λ held status. (status ≡ OkNumber)
        × (group.new ≡ group_shown held.member.learned))) member.old.value result member.new.value }
    ensures closed { member.old.value ≡ None → group.new ≡ group.old }
{
    let Some(held) = member.take(alloc) else {
        return CLOSED;
    };
    *group = group_of(held.member.learned());
    member.put(alloc, held);
    OK
}

/// The owners of the last plan's table, by what the member has learned, or none without a plan.
#[unsafe(no_mangle)]
pub extern "C" fn bully_c_member_planned(
    alloc: Global,
    member: &mut MemberHandle,
    owners: &mut [u16],
    count: &mut usize,
) -> u32
    ensures open { AtMember (ShowsMember (λ held status. IsCopied (table_shown held.member.learned.replica) owners.old
        status owners.new count.new)) member.old.value result member.new.value }
    ensures closed { member.old.value ≡ None → (owners.new ≡ owners.old) × (count.new ≡ count.old) }
{
    let Some(held) = member.take(alloc) else {
        return CLOSED;
    };
    let status = copy_owners(held.member.replica().last_table(), owners, count);
    member.put(alloc, held);
    status
}
