//! What a member finds when it reads a snapshot.
ghost use Rattle.bully_member.specs.declared.opening.TheConstants.{TTL_MAX};
ghost use Rattle.std.specs.Prelude.{◌≤◌, ◌≡◌, None, Some, true, false, IfErr, IfOk, OnOk};
ghost use Rattle.std.specs.Option.{option_copied};
ghost use Rattle.bully_member.specs.Member.{AreNodes, Foresees, IsForeseen, lease_of, replica_of};
ghost use Rattle.bully_member.specs.Told.{alike, arrivals_then, arrived, found, found_here, awaits_snapshot};
ghost use Rattle.bully_member.specs.Told.{TakesIn, own_promise, same_leases, snapshot_lost, snapshot_read, stay_of};
ghost use Rattle.bully_member.specs.Told.{is_passed, last_change_then, passed_among, with_arrival, with_arrivals};
ghost use Rattle.bully_member.specs.Told.{with_own};

use super::Member;
use super::outlook::{Outlook, has};
use crate::activities::keeps_exactly;
use crate::times::{first_stay, longer_stay, remembered_for};
use crate::values::{Arrival, Asked, LastChange, Lease, Promise, Request, SessionId, SessionState};
use bully_base::{NodeSet, OutOfMemory};
use std::alloc::Global;

impl Member {
    /// What the last snapshot found beside the rows, which [`Member::learn`] was given first: which epoch is the
    /// current one; who holds a lease, in rising order of the nodes; whether an unknown process holds one, whose name
    /// no node of the epoch has; and whether other settings are requested. In the member's epoch each lease is that of
    /// a node of the group. Nothing changes if no snapshot is awaited. If an allocation fails the member reads another
    /// one after a pause.
    pub fn snapshot_read(
        &mut self,
        alloc: Global,
        now: u64,
        epoch: u32,
        leases: Vec<Lease>,
        has_unknown: bool,
        has_request: bool,
    ) -> Result<(), OutOfMemory>
        requires { epoch ≡ self.old.terms.epoch → AreNodes self.old.learned leases.items }
        ensures read { OnOk result (self.new
            ≡ snapshot_read self.old now epoch leases.items has_unknown has_request self.new.coming self.new.affected) }
        ensures foresees { OnOk result (TakesIn self.old epoch → Foresees self.new) }
        ensures refused { IfErr result (λ _. TakesIn self.old epoch) }
        ensures lost { IfErr result (λ _. self.new ≡ snapshot_lost self.old now leases.items) }
    {
        if !awaits_snapshot(self.asked) {
            return Ok(());
        }
        if epoch != self.terms.epoch {
            self.asked = None;
            self.is_past = true;
            return Ok(());
        }
        self.note_arrivals(now, &leases);
        self.note_here(alloc, now, leases, has_unknown, has_request)
    }

    // What was found in its epoch, once the sessions are noted.
    fn note_here(
        &mut self,
        alloc: Global,
        now: u64,
        leases: Vec<Lease>,
        has_unknown: bool,
        has_request: bool,
    ) -> Result<(), OutOfMemory>
        requires { AreNodes self.old.learned leases.items }
        ensures found { OnOk result (self.new
            ≡ found_here self.old now leases.items has_unknown has_request self.new.coming self.new.affected) }
        ensures foresees { OnOk result (Foresees self.new) }
        ensures lost { IfErr result (λ _.
            self.new ≡ record self.old { needs_snapshot = true; asked = None; paused = Some now }) }
    {
        match self.outlook(alloc, now, &leases, has_request) {
            Ok(outlook) => {
                self.note_found(now, leases, has_unknown, has_request, outlook);
                self.note_own();
                Ok(())
            }
            Err(fault) => {
                self.needs_snapshot = true;
                self.asked = None;
                self.paused = Some(now);
                Err(fault)
            }
        }
    }

    // What was found, and what that foresees.
    fn note_found(
        &mut self,
        now: u64,
        leases: Vec<Lease>,
        has_unknown: bool,
        has_request: bool,
        outlook: Outlook,
    )
        requires nodes { AreNodes self.old.learned leases.items }
        requires foreseen { IsForeseen (replica_of self.old) self.old.terms leases.items has_request
            outlook.group outlook.coming outlook.affected }
        ensures { self.new ≡ found self.old now leases.items has_unknown has_request
            outlook.group outlook.coming outlook.affected }
    {
        self.last_change = self.last_change_then(now, &leases, has_request);
        self.leases = leases;
        self.group = outlook.group;
        self.coming = outlook.coming;
        self.affected = outlook.affected;
        self.has_unknown = has_unknown;
        self.has_request = has_request;
        self.needs_snapshot = false;
        self.asked = None;
    }

    // Notes the sessions that are seen for the first time, or were passed over.
    fn note_arrivals(&mut self, now: u64, leases: &[Lease])
        ensures { self.new ≡ with_arrivals self.old now leases.now }
    {
        let passed = self.passed_among(leases);
        note_arrivals(&mut self.arrivals, leases, &passed, self.ttl, now);
    }

    // The nodes of those of these leases that the last rebalance passed over.
    fn passed_among(&self, leases: &[Lease]) -> NodeSet
        ensures { result ≡ passed_among self.now leases.now }
    {
        let mut passed = NodeSet::new();
        for lease in leases {
            if self.is_passed(lease) {
                passed.insert(lease.node);
            }
        }
        passed
    }

    // Whether the last rebalance of a cooperative group passed over the node of this lease, which was admitted at the
    // last snapshot: so its writer hadn't admitted it.
    fn is_passed(&self, lease: &Lease) -> bool
        ensures { result ≡ is_passed self.now lease.now }
    {
        self.terms.is_cooperative
            && self.last_change.offset < self.learned.replica().token()
            && self.is_in_group(lease.node)
            && self.is_down(lease.node)
    }

    // Since when nothing of this has changed: where the log ends, who holds a lease with which promise, and whether
    // other settings are requested.
    fn last_change_then(&self, now: u64, leases: &[Lease], has_request: bool) -> LastChange
        ensures { result ≡ last_change_then self.now now leases.now has_request }
    {
        let offset = self.offset();
        if offset == self.last_change.offset
            && same_leases(&self.leases, leases, self.terms.is_cooperative)
            && self.has_request == has_request
        {
            self.last_change
        } else {
            LastChange { at: now, offset }
        }
    }

    // Its session is over if somebody else holds the lease of its node, or nobody.
    fn note_own(&mut self)
        ensures { self.new ≡ with_own self.old }
    {
        let SessionState::Live(session, _) = self.session else {
            return;
        };
        match self.own_promise(session) {
            Some((promise, is_exact)) => {
                self.own = promise;
                self.is_exact = is_exact;
            }
            None => self.end_session(),
        }
    }

    // What this session has promised, and whether that keeps exactly what it works on, if it holds the lease of its
    // node.
    fn own_promise(&self, session: SessionId) -> Option<(Promise, bool)>
        ensures { result ≡ own_promise self.now session (lease_of self.now.terms.node self.now.leases) }
    {
        let lease = self.own_lease()?;
        if lease.session != session {
            return None;
        }
        Some((
            lease.promise,
            keeps_exactly(&self.works, lease.kept.as_slice()),
        ))
    }

    // Who holds the lease of its node.
    pub(super) fn own_lease(&self) -> Option<&Lease>
        ensures { option_copied result ≡ lease_of self.now.terms.node self.now.leases }
    {
        let node = self.terms.node;
        self.leases.iter().find(|lease| lease.node == node)
    }
}

fn same_leases(before: &[Lease], after: &[Lease], is_cooperative: bool) -> bool
    ensures { result ≡ same_leases is_cooperative before.now after.now }
{
    before.len() == after.len() && alike(before, after, is_cooperative)
}

// Whether nothing is new about each lease of both lists, as far as both go. A promise is in an eager group alone.
fn alike(before: &[Lease], after: &[Lease], is_cooperative: bool) -> bool
    ensures { result ≡ alike is_cooperative before.now after.now }
{
    before.iter().zip(after.iter()).all(|(one, other)| {
        one.node == other.node
            && one.session == other.session
            && one.is_leaving == other.is_leaving
            && (is_cooperative || (one.promise == other.promise && one.kept == other.kept))
    })
}

// Notes the sessions that are seen for the first time, or were passed over.
fn note_arrivals(arrivals: &mut [Arrival], leases: &[Lease], passed: &NodeSet, ttl: u64, now: u64)
    requires { ttl ≤ TTL_MAX }
    ensures { arrivals.new ≡ arrivals_then ttl now passed.now arrivals.old leases.now }
{
    for lease in leases {
        note_arrival(arrivals, lease, passed, ttl, now);
    }
}

fn note_arrival(arrivals: &mut [Arrival], lease: &Lease, passed: &NodeSet, ttl: u64, now: u64)
    requires { ttl ≤ TTL_MAX }
    ensures { arrivals.new ≡ with_arrival ttl now passed.now arrivals.old lease.now }
{
    let index = usize::from(lease.node.number() - 1);
    if index < arrivals.len() {
        let is_passed = has(passed, lease.node);
        arrivals[index] = arrived(arrivals[index], lease.session, is_passed, ttl, now);
    }
}

// What is noted of a session that holds the lease of a node, after this was noted for that node: if it is known, and
// was passed over, it must stay longer from now on.
fn arrived(before: Arrival, session: SessionId, is_passed: bool, ttl: u64, now: u64) -> Arrival
    requires { ttl ≤ TTL_MAX }
    ensures { result ≡ arrived before session is_passed ttl now }
{
    if before.session != Some(session) {
        return Arrival {
            session: Some(session),
            at: now,
            stay: stay_of(before, ttl, now),
        };
    }
    if is_passed {
        return Arrival {
            session: before.session,
            at: now,
            stay: longer_stay(before.stay, ttl),
        };
    }
    before
}

// How long a new session must stay.
fn stay_of(before: Arrival, ttl: u64, now: u64) -> u64
    requires { ttl ≤ TTL_MAX }
    ensures { result ≡ stay_of before ttl now }
{
    if before.session.is_some() && now.saturating_sub(before.at) < remembered_for(ttl) {
        longer_stay(before.stay, ttl)
    } else {
        first_stay(ttl)
    }
}

// Whether a snapshot is awaited.
fn awaits_snapshot(asked: Option<Asked>) -> bool
    ensures { result ≡ awaits_snapshot asked }
{
    match asked {
        Some(
            Asked {
                request: Request::Snapshot,
                ..
            },
        ) => true,
        _ => false,
    }
}
