ghost use Rattle.std.specs.Prelude.{◌≡◌, ◌≤◌, [], None, true, false, IfOk, IfErr, length, replicate};
ghost use Rattle.bully_base.specs.declared.TheConstants.{PARTITIONS_MAX};
ghost use Rattle.bully_member.specs.Activities.{work_of};
ghost use Rattle.bully_member.specs.Member.{IsMember, member_with, new_member, nobody_yet, offset_of, replica_of};
ghost use Rattle.bully_member.specs.Opening.{RefusesMember, member_fault};
ghost use Rattle.bully_member.specs.Times.{sure_left};
ghost use Rattle.bully_member.specs.declared.values.Activity.{Activity as ActivityState};
ghost use Rattle.bully_replica.specs.Replica.{first_replica};

mod answers;
mod learning;
mod outlook;
mod owning;
mod rules;
mod snapshots;

use crate::activities::work_of;
use crate::opening::{MemberFault, TTL_MAX, TTL_MIN, Terms, terms_fault};
use crate::times::sure_left;
use crate::values::{
    Activity, Arrival, Asked, Ending, LastChange, Lease, Promise, SessionState, Work,
};
use bully_base::{NodeSet, OutOfMemory};
use bully_replica::{Replica, RowReplica};
use bully_rows::Header;
use bully_table::Table;
use std::alloc::Global;
use std::marker::Model;

/// A process that acts for one node of a group: what it knows, and what it does next.
#[derive(Drop)]
pub struct Member {
    learned: RowReplica,
    terms: Terms,
    process: u64,
    ttl: u64,
    session: SessionState,
    tries: u64,
    promised: u32,
    own: Promise,
    is_exact: bool,
    leases: Vec<Lease>,
    arrivals: Vec<Arrival>, // of each node
    group: NodeSet,
    coming: Option<Table>,
    affected: NodeSet,
    has_unknown: bool,
    has_request: bool,
    needs_snapshot: bool,
    last_change: LastChange,
    is_past: bool,
    has_closed: bool,
    works: Vec<Activity>, // on each partition
    token: u32,
    is_lost: bool,
    ending: Option<Ending>,
    paused: Option<u64>,
    asked: Option<Asked>,
    is_asked_exact: bool,
}

impl Model for Member {
    ghost use Rattle.std.specs.Prelude.{◌≤◌};
    ghost use Rattle.bully_member.specs.Member.{MemberState, IsMember, SeesAhead};

    ghost Value = { MemberState };

    ghost view = { λ m. record {
      learned = m.learned;
      terms = m.terms;
      process = m.process;
      ttl = m.ttl;
      session = m.session;
      tries = m.tries;
      promised = m.promised;
      own = m.own;
      is_exact = m.is_exact;
      leases = m.leases.items;
      arrivals = m.arrivals.items;
      group = m.group;
      coming = m.coming;
      affected = m.affected;
      has_unknown = m.has_unknown;
      has_request = m.has_request;
      needs_snapshot = m.needs_snapshot;
      last_change = m.last_change;
      is_past = m.is_past;
      has_closed = m.has_closed;
      works = m.works.items;
      token = m.token;
      is_lost = m.is_lost;
      ending = m.ending;
      paused = m.paused;
      asked = m.asked;
      is_asked_exact = m.is_asked_exact;
    } };

    ghost invariant = { λ m. IsMember m.learned m.terms m.ttl m.leases.items m.arrivals.items m.group m.works.items
        × SeesAhead m.needs_snapshot m.learned.replica m.terms m.leases.items m.has_request m.group m.coming
        m.affected };
}

// What a member starts an epoch with: it has learned nothing of the log, and has seen no session.
#[derive(Drop)]
struct Beginning {
    learned: RowReplica,
    arrivals: Vec<Arrival>,
    works: Vec<Activity>,
}

impl Beginning {
    fn new(alloc: Global, header: Header) -> Result<Beginning, OutOfMemory>
        ensures learned { IfOk result (λ b. b.learned ≡ record { replica = first_replica header; rows = 0 }) }
        ensures arrivals { IfOk result (λ b. b.arrivals.items ≡ replicate header.setup.nodes nobody_yet) }
        ensures works { IfOk result (λ b. b.works.items ≡ replicate header.setup.partitions ActivityState.Idle) }
        ensures few { IfOk result (λ b. length b.works.items ≤ PARTITIONS_MAX) }
    {
        let nodes = usize::from(header.setup.nodes());
        let partitions = usize::from(header.setup.partitions());
        let arrivals = vec![in alloc; NOBODY_YET; nodes]?;
        let works = vec![in alloc; Activity::Idle; partitions]?;
        let learned = RowReplica::new(alloc, header)?;
        Ok(Beginning {
            learned,
            arrivals,
            works,
        })
    }
}

// No session was seen for a node.
const NOBODY_YET: Arrival = Arrival {
    session: None,
    at: 0,
    stay: 0,
};

impl Member {
    /// A member that acts for the node of these terms, of a group whose log has this header. The process is a number
    /// that no other process of the group ever has. The ttl is in nanoseconds, from [`TTL_MIN`] to [`TTL_MAX`]. Refused
    /// as the first of these that holds: `BadNode`, `TableLength`, `BadRowsMax`, `BadTtl`, `OutOfMemory`.
    pub fn new(
        alloc: Global,
        header: Header,
        terms: Terms,
        process: u64,
        ttl: u64,
    ) -> Result<Member, MemberFault>
        ensures ok { IfOk result (λ m. m ≡ new_member header terms process ttl) }
        ensures can { IfOk result (λ m. member_fault header.setup terms ttl ≡ None) }
        ensures fault { IfErr result (λ fault. RefusesMember (member_fault header.setup terms ttl) fault) }
    {
        if let Some(fault) = terms_fault(&header.setup, &terms) {
            return Err(fault);
        }
        if !(TTL_MIN..=TTL_MAX).contains(&ttl) {
            return Err(MemberFault::BadTtl);
        }
        match Beginning::new(alloc, header) {
            Ok(beginning) => Ok(Member::with(alloc, beginning, terms, process, ttl)),
            Err(_) => Err(MemberFault::OutOfMemory),
        }
    }

    // The same for an epoch of whose log nothing was learned, if nothing is wrong with the terms.
    fn with(alloc: Global, beginning: Beginning, terms: Terms, process: u64, ttl: u64) -> Member
        requires { IsMember beginning.learned terms ttl [] beginning.arrivals.items [] beginning.works.items }
        ensures { result
            ≡ member_with beginning.learned beginning.arrivals.items beginning.works.items terms process ttl }
    {
        Member {
            learned: beginning.learned,
            terms,
            process,
            ttl,
            session: SessionState::Absent,
            tries: 0,
            promised: 0,
            own: Promise {
                epoch: 0,
                offset: 0,
            },
            is_exact: false,
            leases: Vec::new(alloc),
            arrivals: beginning.arrivals,
            group: NodeSet::new(),
            coming: None,
            affected: NodeSet::new(),
            has_unknown: false,
            has_request: false,
            needs_snapshot: true,
            last_change: LastChange { at: 0, offset: 0 },
            is_past: false,
            has_closed: false,
            works: beginning.works,
            token: 0,
            is_lost: false,
            ending: None,
            paused: None,
            asked: None,
            is_asked_exact: false,
        }
    }

    /// What it has learned, and from how many rows.
    pub fn learned(&self) -> &RowReplica
        ensures { result.now ≡ self.now.learned }
    {
        &self.learned
    }

    /// What it has learned.
    pub fn replica(&self) -> &Replica
        ensures { result.now ≡ replica_of self.now }
    {
        self.learned.replica()
    }

    /// The end of the log, as far as it was learned: the number of rows after the header.
    pub fn offset(&self) -> u32
        ensures { result ≡ offset_of self.now }
    {
        self.learned.replica().events()
    }

    /// Which epoch it is in, for which node, and what else the epoch started with.
    pub fn terms(&self) -> &Terms
        ensures { result.now ≡ self.now.terms }
    {
        &self.terms
    }

    /// Whether its process has the lease of its node.
    pub fn session(&self) -> SessionState
        ensures { result ≡ self.now.session }
    {
        self.session
    }

    /// For how many nanoseconds its lease is still sure. For that long it may work on what it was asked to start.
    pub fn sure_left(&self, now: u64) -> u64
        ensures { result ≡ sure_left self.now.session self.now.ttl now }
    {
        sure_left(self.session, self.ttl, now)
    }

    /// The last offset of this epoch that its session has promised, whether or not the store knows of that.
    pub fn promised(&self) -> u32
        ensures { result ≡ self.now.promised }
    {
        self.promised
    }

    /// The state of its work over all partitions.
    pub fn work(&self) -> Work
        ensures { result ≡ work_of self.now.works self.now.token self.now.is_lost }
    {
        work_of(&self.works, self.token, self.is_lost)
    }

    /// What its process does on each partition, in their order.
    pub fn activities(&self) -> &[Activity]
        ensures activities { result.now ≡ self.now.works }
        ensures within { length result.now ≤ PARTITIONS_MAX }
    {
        &self.works
    }

    /// Why it ends, if it does.
    pub fn ending(&self) -> Option<Ending>
        ensures { result ≡ self.now.ending }
    {
        self.ending
    }

    /// Whether its last snapshot found that other settings are requested.
    pub fn has_request(&self) -> bool
        ensures { result ≡ self.now.has_request }
    {
        self.has_request
    }
}
