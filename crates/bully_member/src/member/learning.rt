//! What a member learns of its epoch's log, and how it goes on in the next one.
ghost use Rattle.std.specs.Prelude.{◌≡◌, ◌≤◌, IfErr, IfOk, List, None, OnOk, Some, [], true, false, length, replicate};
ghost use Rattle.bully_base.specs.declared.TheConstants.{PARTITIONS_MAX};
ghost use Rattle.bully_member.specs.Learned.{RefusesTerms, after_learning, ending_behind, followed, in_epoch};
ghost use Rattle.bully_member.specs.Learned.{is_broken, is_following, is_of_log, not_there};
ghost use Rattle.bully_member.specs.Member.{nobody_yet};
ghost use Rattle.bully_member.specs.Opening.{terms_fault};
ghost use Rattle.bully_member.specs.declared.values.Activity.{Activity as ActivityState};
ghost use Rattle.bully_replica.specs.RowReplica.{FollowsUpTo, Stops};
ghost use Rattle.bully_rows.specs.Headers.{Record};
ghost use Rattle.bully_rows.specs.declared.TheConstants.{ROWS_MAX};
ghost use Rattle.bully_member.specs.Told.{end_for, to_pause};
ghost use Rattle.bully_member.specs.declared.values.Ending.{Ending as EndingState};

use super::{Beginning, Member};
use crate::activities::all_idle;
use crate::opening::{MemberFault, Terms, terms_fault};
use crate::values::{Asked, Ending, LastChange, Promise, Request};
use bully_base::NodeSet;
use bully_replica::{LearnFault, RowReplica};
use bully_rows::{Header, RowReader, TraceCause};
use std::alloc::Global;
use std::io::Read;

impl Member {
    /// Learns the rows that a snapshot found after all that the member has learned, as [`RowReplica::learn_all`] does.
    /// The member ends as `Broken` if a row has no event, or if one isn't learned, unless that is because an allocation
    /// failed or the row can't be read.
    pub fn learn<R: Read + Drop>(
        &mut self,
        alloc: Global,
        reader: &mut RowReader<R>,
    ) -> Result<(), LearnFault>
        ensures all { OnOk result ((records : List Record) → reader.old.records ≡ Some records
            → FollowsUpTo records self.old.learned self.new.learned []) }
        ensures part { IfErr result (λ fault. (records : List Record) → reader.old.records ≡ Some records
            → (left : List Record) × FollowsUpTo records self.old.learned self.new.learned left
            × Stops reader.old self.old.learned left self.new.learned fault) }
        ensures rest { self.new ≡ after_learning self.old self.new.learned result }
        ensures counted { self.old.learned.rows ≤ self.new.learned.rows }
        ensures within { self.new.learned.rows ≤ ROWS_MAX }
    {
        let taken = self.learned.learn_all(alloc, reader);
        self.ending = ending_behind(self.ending, is_broken(&self.learned, &taken));
        self.needs_snapshot = true;
        taken
    }

    /// The text that a snapshot found can't be read as rows: the member ends as `Broken`.
    pub fn broken(&mut self)
        ensures { self.new ≡ end_for self.old EndingState.Broken self.old.ending }
    {
        self.end_for(Ending::Broken);
    }

    /// What the current epoch starts with: the member goes on there with its session, and has learned nothing of the
    /// log. Nothing changes if no `Follow` is awaited. If the epoch is no later one than the member's, or if the member
    /// works on something, it stays in its epoch, and reads a snapshot again after a pause. Refused, and then nothing
    /// changes, as the first of these that holds: `BadNode`, `TableLength`, `BadRowsMax`, `OutOfMemory`.
    pub fn followed(
        &mut self,
        alloc: Global,
        now: u64,
        header: Header,
        terms: Terms,
    ) -> Result<(), MemberFault>
        ensures ok { OnOk result (self.new ≡ followed self.old now header terms) }
        ensures can { OnOk result (terms_fault header.setup terms ≡ None) }
        ensures fault { IfErr result (RefusesTerms (terms_fault header.setup terms)) }
        ensures unchanged { IfErr result (λ _. self.new ≡ self.old) }
    {
        if let Some(fault) = terms_fault(&header.setup, &terms) {
            return Err(fault);
        }
        if !is_following(self.asked) {
            return Ok(());
        }
        if terms.epoch <= self.terms.epoch || !all_idle(&self.works) {
            self.stay_in_epoch(now);
            return Ok(());
        }
        match Beginning::new(alloc, header) {
            Ok(beginning) => {
                self.begin_epoch(alloc, now, beginning, terms);
                Ok(())
            }
            Err(_) => Err(MemberFault::OutOfMemory),
        }
    }

    // The epoch isn't over, though it seemed to be.
    fn stay_in_epoch(&mut self, now: u64)
        ensures { self.new ≡ to_pause (record self.old { asked = None; is_past = false; needs_snapshot = true }) now }
    {
        self.asked = None;
        self.is_past = false;
        self.needs_snapshot = true;
        self.paused = Some(now);
    }

    /// The current epoch's group has no node of the member's name: the member ends. Nothing changes if no `Follow` is
    /// awaited.
    pub fn not_there(&mut self)
        ensures { self.new ≡ not_there self.old }
    {
        if is_following(self.asked) {
            self.asked = None;
            self.end_for(Ending::NotThere);
        }
    }

    // It goes on in this epoch, and has learned nothing of its log.
    fn begin_epoch(&mut self, alloc: Global, now: u64, beginning: Beginning, terms: Terms)
        requires fits { terms_fault beginning.learned.replica.world.setup terms ≡ None }
        requires nobody { beginning.arrivals.items ≡ replicate beginning.learned.replica.world.setup.nodes nobody_yet }
        requires idle { beginning.works.items
            ≡ replicate beginning.learned.replica.world.setup.partitions ActivityState.Idle }
        requires few { length beginning.works.items ≤ PARTITIONS_MAX }
        ensures { self.new ≡ in_epoch self.old now beginning.learned terms }
    {
        self.learned = beginning.learned;
        self.arrivals = beginning.arrivals;
        self.terms = terms;
        self.promised = 0;
        self.own = Promise {
            epoch: 0,
            offset: 0,
        };
        self.is_exact = false;
        self.leases = Vec::new(alloc);
        self.group = NodeSet::new();
        self.coming = None;
        self.affected = NodeSet::new();
        self.has_unknown = false;
        self.has_request = false;
        self.needs_snapshot = true;
        self.last_change = LastChange { at: now, offset: 0 };
        self.is_past = false;
        self.has_closed = false;
        self.works = beginning.works;
        self.asked = None;
    }
}

// Whether no member can go on after what was learned.
fn is_broken(learned: &RowReplica, taken: &Result<(), LearnFault>) -> bool
    ensures { result ≡ is_broken learned.now taken.now }
{
    match taken {
        Ok(()) => learned.rows() != learned.replica().events(),
        Err(fault) => is_of_log(*fault),
    }
}

// Why a member ends, if its log may be broken.
fn ending_behind(ending: Option<Ending>, is_broken: bool) -> Option<Ending>
    ensures { result ≡ ending_behind ending is_broken }
{
    match ending {
        None if is_broken => Some(Ending::Broken),
        _ => ending,
    }
}

// Whether the fault is the log's.
fn is_of_log(fault: LearnFault) -> bool
    ensures { result ≡ is_of_log fault }
{
    match fault {
        LearnFault::Form(TraceCause::OutOfMemory | TraceCause::Read) => false,
        LearnFault::Form(_) | LearnFault::Violation(_) => true,
    }
}

// Whether a follow is awaited.
fn is_following(asked: Option<Asked>) -> bool
    ensures { result ≡ is_following asked }
{
    match asked {
        Some(asked) => matches!(asked.request, Request::Follow),
        None => false,
    }
}
