//! What a handle of a member keeps, and what the member starts with.
ghost use Rattle.std.specs.Prelude.{◌≡◌, IfErr, IfOk, IfSome, length};
ghost use Rattle.bully_c.specs.Members.{AreTerms, IsMemberOpened, IsOpeningOf, RefusesMemberOpening, RefusesOpeningOf};
ghost use Rattle.bully_c.specs.Members.{RefusesTermsGiven, terms_given};
ghost use Rattle.bully_c.specs.MemberNumbers.{member_number};

use crate::logs::header_in;
use crate::old_tables::old_table;
use crate::status::{BAD_NODE, BAD_ROWS_MAX, BAD_TTL, OUT_OF_MEMORY, TABLE_LENGTH};
use crate::tables::node_of;
use bully_base::{OutOfMemory, Setup};
use bully_member::{Member, MemberFault, Terms};
use bully_rows::Header;
use std::alloc::Global;

/// A member.
#[derive(Drop)]
pub struct HeldMember {
    pub member: Member,
}

/// What an epoch is for a member, as C gives it, beside the header of its log.
#[derive(Clone, Copy)]
pub struct TermsTold {
    pub epoch: u32,
    pub node: u16,
    pub rows_max: u32,
    pub is_cooperative: bool,
}

/// What an epoch starts with, for a member.
#[derive(Drop)]
pub struct Opening {
    pub header: Header,
    pub terms: Terms,
}

/// What an epoch with this header and this old table starts with.
pub fn opening_of(alloc: Global, text: &[u8], told: TermsTold, old: &[u16]) -> Result<Opening, u32>
    ensures ok { IfOk result (IsOpeningOf text.now told old.now) }
    ensures err { IfErr result (RefusesOpeningOf text.now told old.now) }
{
    let header = header_in(alloc, text)?;
    let terms = terms_of(alloc, &header.setup, told, old)?;
    Ok(Opening { header, terms })
}

// The same beside the header.
fn terms_of(alloc: Global, setup: &Setup, told: TermsTold, old: &[u16]) -> Result<Terms, u32>
    ensures ok { IfOk result (λ terms. terms ≡ terms_given setup.now told old.now) }
    ensures are { IfOk result (λ _. AreTerms setup.now told old.now) }
    ensures err { IfErr result (RefusesTermsGiven setup.now told old.now) }
{
    let node = node_of(setup, told.node)?;
    let old = old_table(alloc, setup, old)?;
    Ok(Terms {
        epoch: told.epoch,
        node,
        rows_max: told.rows_max,
        old,
        is_cooperative: told.is_cooperative,
    })
}

/// The member that starts with this, on the heap.
pub fn opened_member(
    alloc: Global,
    text: &[u8],
    told: TermsTold,
    old: &[u16],
    process: u64,
    ttl: u64,
) -> Result<Box<HeldMember>, u32>
    ensures ok { IfOk result (λ held. IsMemberOpened text.now told old.now process ttl held.value) }
    ensures err { IfErr result (RefusesMemberOpening text.now told old.now ttl) }
{
    let Opening { header, terms } = opening_of(alloc, text, told, old)?;
    match Member::new(alloc, header, terms, process, ttl) {
        Ok(member) => match boxed(alloc, member) {
            Ok(held) => Ok(held),
            Err(_) => Err(OUT_OF_MEMORY),
        },
        Err(fault) => Err(status_of_member(fault)),
    }
}

// The member on the heap.
fn boxed(alloc: Global, member: Member) -> Result<Box<HeldMember>, OutOfMemory>
    ensures { IfOk result (λ held. held.value ≡ record { member = member }) }
{
    Ok(Box::new(alloc, HeldMember { member })?)
}

/// The status of a member that doesn't start.
pub fn status_of_member(fault: MemberFault) -> u32
    ensures { result ≡ member_number fault }
{
    match fault {
        MemberFault::BadNode => BAD_NODE,
        MemberFault::TableLength => TABLE_LENGTH,
        MemberFault::BadRowsMax => BAD_ROWS_MAX,
        MemberFault::BadTtl => BAD_TTL,
        MemberFault::OutOfMemory => OUT_OF_MEMORY,
    }
}
