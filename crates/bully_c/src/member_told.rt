//! What a member does next, and what is reported to it: the rows of its log, who holds a lease, and what its next epoch
//! starts with.
ghost use Rattle.std.specs.Prelude.{◌≡◌, ◌<◌, ◌≤◌, All};
ghost use Rattle.bully_c.specs.MemberNumbers.{answer_numbered};
ghost use Rattle.bully_c.specs.Members.{IsAnswer, IsFollow, IsFollowOf, IsSnapshotRead, IsMemberLearning, IsNextStep};
ghost use Rattle.bully_c.specs.Members.{IsRead, LearnsRows, last_node};
ghost use Rattle.bully_member.specs.declared.values.Lease.{Lease as LeaseState};

use crate::leases::{CLease, leases_of};
use crate::logs::{has_end, has_mark, status_of_mark};
use crate::member_shown::{CStep, step_of};
use crate::openings::{HeldMember, Opening, TermsTold, opening_of, status_of_member};
use crate::status::{BAD_ANSWER, OK, OUT_OF_MEMORY, ROW_END, status_of_learning};
use bully_base::NODES_MAX;
use bully_member::{Lease, Member, StoreAnswer};
use bully_rows::RowReader;
use std::alloc::Global;

/// Writes what the member does now.
pub fn tell_next(held: &mut HeldMember, now: u64, step: &mut CStep) -> u32
    ensures { IsNextStep now step.new held.old result held.new }
{
    let next = held.member.next(now);
    *step = step_of(next);
    OK
}

/// Reports the answer of this number to the member.
pub fn tell_answer(held: &mut HeldMember, now: u64, number: u32) -> u32
    ensures { IsAnswer now number held.old result held.new }
{
    match answer_of(number) {
        Some(answer) => {
            held.member.answered(now, answer);
            OK
        }
        None => BAD_ANSWER,
    }
}

// The answer of this number, if it is one.
fn answer_of(number: u32) -> Option<StoreAnswer>
    ensures { result ≡ answer_numbered number }
{
    match number {
        1 => Some(StoreAnswer::Done),
        2 => Some(StoreAnswer::Refused),
        3 => Some(StoreAnswer::Unanswered),
        _ => None,
    }
}

/// Has the member learn the rows of the text. Writes how many it learned, and returns why it didn't learn the next one.
/// The member ends if the text starts with a byte-order mark, and learns nothing if the text lacks its last line end.
pub fn learn(alloc: Global, held: &mut HeldMember, text: &[u8], taken: &mut usize) -> u32
    ensures { IsMemberLearning text.now taken.new held.old result held.new }
{
    *taken = 0;
    if !has_end(text) {
        return ROW_END;
    }
    if has_mark(text) {
        let status = status_of_mark(held.member.learned());
        held.member.broken();
        return status;
    }
    let before = held.member.learned().rows();
    let status = learn_rows(alloc, &mut held.member, text);
    *taken = (held.member.learned().rows() - before) as usize;
    status
}

// Has the member learn the rows of the text up to the first that isn't learned, and returns why it isn't.
fn learn_rows(alloc: Global, member: &mut Member, text: &[u8]) -> u32
    ensures learned { LearnsRows text.now member.old result member.new }
    ensures counted { member.old.learned.rows ≤ member.new.learned.rows }
{
    let mut reader = RowReader::open(alloc, text);
    match member.learn(alloc, &mut reader) {
        Ok(()) => OK,
        Err(fault) => status_of_learning(fault),
    }
}

/// Reports to the member what a snapshot found.
pub fn tell_snapshot(
    alloc: Global,
    held: &mut HeldMember,
    now: u64,
    epoch: u32,
    leases: &[CLease],
    kept: &[u16],
    has_unknown: bool,
    has_request: bool,
) -> u32
    ensures { IsSnapshotRead now epoch leases.now kept.now has_unknown has_request held.old result held.new }
{
    let last = last_node(&held.member, epoch);
    match leases_of(alloc, last, leases, kept) {
        Ok(found) => read(
            alloc,
            &mut held.member,
            now,
            epoch,
            found,
            has_unknown,
            has_request,
        ),
        Err(status) => status,
    }
}

// The same, of these leases.
fn read(
    alloc: Global,
    member: &mut Member,
    now: u64,
    epoch: u32,
    leases: Vec<Lease>,
    has_unknown: bool,
    has_request: bool,
) -> u32
    requires { All (λ (p : LeaseState). (0 < p.node) × (p.node ≤ last_node member.old epoch)) leases.items }
    ensures { IsRead now epoch leases.items has_unknown has_request member.old result member.new }
{
    match member.snapshot_read(alloc, now, epoch, leases, has_unknown, has_request) {
        Ok(()) => OK,
        Err(_) => OUT_OF_MEMORY,
    }
}

// The last node of this epoch's group, or of any group if the epoch isn't the member's.
fn last_node(member: &Member, epoch: u32) -> u16
    ensures { result ≡ last_node member.now epoch }
{
    if epoch == member.terms().epoch {
        member.replica().world().setup().nodes()
    } else {
        NODES_MAX
    }
}

/// Reports to the member what the current epoch starts with.
pub fn tell_follow(
    alloc: Global,
    held: &mut HeldMember,
    now: u64,
    text: &[u8],
    told: TermsTold,
    old: &[u16],
) -> u32
    ensures { IsFollow now text.now told old.now held.old result held.new }
{
    match opening_of(alloc, text, told, old) {
        Ok(opening) => follow(alloc, held, now, opening),
        Err(status) => status,
    }
}

// The same, of what it starts with.
fn follow(alloc: Global, held: &mut HeldMember, now: u64, opening: Opening) -> u32
    ensures { IsFollowOf now opening held.old result held.new }
{
    let Opening { header, terms } = opening;
    match held.member.followed(alloc, now, header, terms) {
        Ok(()) => OK,
        Err(fault) => status_of_member(fault),
    }
}
