//! What a member does next: the first rule of the table in docs/REBALANCING.md that applies.
ghost use Rattle.std.specs.Prelude.{◌≡◌, ◌↔◌, ◌≤◌, ℕ, IsTrue, Bool, None, length, Some};
ghost use Rattle.std.specs.List.{list_all, list_any};
ghost use Rattle.std.specs.Option.{option_copied};
ghost use Rattle.bully_base.specs.declared.TheConstants.{NODES_MAX};
ghost use Rattle.bully_member.specs.Due.{HasAll, HasAllOf, MayGoOn, Sees, absent_step, acquiring_step, ahead};
ghost use Rattle.bully_member.specs.Due.{asked_for};
ghost use Rattle.bully_member.specs.Due.{begun, change_step, due, ending_step, going_step, goes_on, goes_on_by, is_due};
ghost use Rattle.bully_member.specs.Due.{admission_wait, is_admitted_since, is_outdated, is_to_come};
ghost use Rattle.bully_member.specs.Due.{is_newcomer, last_table, leaving_step, live_step, live_stopping_step};
ghost use Rattle.bully_member.specs.Due.{looks_ahead, noted, rebalance_left, session_step, stable_step};
ghost use Rattle.bully_member.specs.Due.{step_by_work, step_of_session, step_unless_awaiting, step_without_session};
ghost use Rattle.bully_member.specs.Due.{stopping, stopping_step, table_ahead, table_by, token_now, turn_step};
ghost use Rattle.bully_member.specs.Due.{unstable_step, until_ready};
ghost use Rattle.bully_member.specs.Keeping.{Awaits, Keeps, WorksOnlyIfSure};
ghost use Rattle.bully_member.specs.Member.{AllAreDown, SeesStable, above, all_ready, are_of, closes, has_promised};
ghost use Rattle.bully_member.specs.Member.{has_room};
ghost use Rattle.bully_member.specs.Member.{heeded, heeds_promises, here, is_alone, is_closing, is_down, is_ready};
ghost use Rattle.bully_member.specs.Member.{is_ready_itself, lease_of};
ghost use Rattle.bully_member.specs.Member.{is_held_off, is_kept_out, is_returning, most_promised, offset_in};
ghost use Rattle.bully_member.specs.Member.{replica_of, stay_left};
ghost use Rattle.bully_member.specs.Roles.{needs_promises};
ghost use Rattle.bully_member.specs.Told.{SeesIfFound};
ghost use Rattle.bully_member.specs.Times.{turn_left};
ghost use Rattle.bully_member.specs.Waiting.{WaitsFor};
ghost use Rattle.bully_member.specs.declared.values.Sight.{Sight as SightState};
ghost use Rattle.bully_member.specs.declared.values.Step.{Step as StepState};
ghost use Rattle.bully_rebalance.specs.Leaving.{is_left};

use super::Member;
use crate::activities::{any_stopping, any_working, begin_all, stop_all_but, works_at};
use crate::opening::REBALANCE_MAX;
use crate::times::{
    awaiting_backoff, first_stay, left, pause_left, paused_backoff, renewal_left, stopping_backoff,
    sure, turn_left,
};
use crate::values::{
    Ahead, Arrival, Asked, Ending, Lease, Promise, Reason, Request, SessionId, SessionState, Sight,
    Step, Until,
};
use bully_base::{NODES_MAX, Node, NodeSet, Status};
use bully_rebalance::{is_left, is_stable, may_work};
use bully_table::Table;

impl Member {
    /// What it does now: the first rule of docs/REBALANCING.md that applies. The member notes that it does this. As
    /// long as its last request isn't answered, it asks for nothing else: if no other call reports the answer,
    /// [`Member::answered`] must.
    pub fn next(&mut self, now: u64) -> Step
        ensures sees { (s : SightState) × Sees self.old now s }
        ensures due { (s : SightState) → Sees self.old now s → result ≡ due self.old now s }
        ensures noted { (is_stable : Bool) → (IsTrue is_stable ↔ SeesStable self.old)
            → self.new ≡ noted self.old now is_stable result }
        ensures keeps { Keeps self.old now result }
        ensures waits { WaitsFor self.old now result }
        ensures awaits { Awaits now self.old.asked result self.new.asked }
        ensures stops { WorksOnlyIfSure self.old now self.new.works }
    {
        let sight = self.sight(now);
        let step = self.due(now, sight);
        self.note(now, sight.is_stable, step);
        step
    }

    // What it sees now.
    fn sight(&self, now: u64) -> Sight
        ensures sees { Sees self.now now result }
        ensures ahead { SeesIfFound self.now }
    {
        let is_stable = self.is_stable();
        Sight {
            is_stable,
            are_down: self.are_down(),
            may_go_on: self.may_go_on(now, is_stable),
            has_all: self.has_all(),
        }
    }

    // Notes that this is done now.
    fn note(&mut self, now: u64, is_stable: bool, step: Step)
        ensures { self.new ≡ noted self.old now is_stable step }
    {
        match step {
            Step::Ask(request) => self.note_request(now, request),
            Step::Begin(token) => self.note_begun(token),
            Step::Stop => self.note_stop(now, is_stable),
            Step::Wait(..) | Step::BackOff(..) | Step::End(_) => {}
        }
    }

    // Notes that this is asked for now.
    fn note_request(&mut self, now: u64, request: Request)
        ensures { self.new ≡ asked_for self.old now request }
    {
        match request {
            Request::Acquire(session, offset) => {
                self.tries = session.number;
                self.promised = offset;
                self.is_asked_exact = true;
            }
            Request::Promise(_, offset) => {
                self.promised = offset;
                self.is_asked_exact = true;
            }
            Request::Append(_) => self.has_closed = self.ending.is_some(),
            _ => {}
        }
        self.asked = Some(Asked { request, at: now });
    }

    // Notes that it begins all that its node owns by this token.
    fn note_begun(&mut self, token: u32)
        ensures { self.new ≡ begun self.old token }
    {
        let node = self.terms.node;
        begin_all(&mut self.works, self.learned.replica().last_table(), node);
        self.is_exact = false;
        self.is_asked_exact = false;
        self.is_lost = false;
        self.token = token;
    }

    // Notes that it stops all that it may not go on with.
    fn note_stop(&mut self, now: u64, is_stable: bool)
        ensures { self.new ≡ stopping self.old (table_ahead self.old now is_stable) }
    {
        let ahead = self.ahead(now, is_stable);
        let last = self.learned.replica().last_table();
        let table = table_by(ahead, last, self.coming.as_ref());
        stop_all_but(&mut self.works, table, self.terms.node);
        self.is_lost = false;
    }

    // What is due now. Rule 1: it stops what it may not go on with.
    fn due(&self, now: u64, s: Sight) -> Step
        ensures { result ≡ due self.now now s }
    {
        if !s.may_go_on {
            return Step::Stop;
        }
        self.step_unless_awaiting(now, s)
    }

    // Rule 2: no work must stop.
    fn step_unless_awaiting(&self, now: u64, s: Sight) -> Step
        ensures { result ≡ step_unless_awaiting self.now now s self.now.asked }
    {
        match self.asked {
            Some(_) => Step::BackOff(
                awaiting_backoff(any_working(&self.works), self.session, self.ttl, now),
                Reason::Answer,
            ),
            None => self.step_by_work(now, s),
        }
    }

    // No work must stop, and nothing is awaited.
    fn step_by_work(&self, now: u64, s: Sight) -> Step
        ensures { result ≡ step_by_work self.now now s }
    {
        if any_stopping(&self.works) {
            self.stopping_step(now)
        } else {
            self.going_step(now, s)
        }
    }

    // Rule 3: some work must end. Meanwhile the lease is renewed.
    fn stopping_step(&self, now: u64) -> Step
        ensures { result ≡ stopping_step self.now now self.now.session }
    {
        match self.session {
            SessionState::Live(session, _) => self.live_stopping_step(now, session),
            SessionState::Absent | SessionState::Unknown(_) => {
                Step::BackOff(self.ttl, Reason::Stop)
            }
        }
    }

    fn live_stopping_step(&self, now: u64, session: SessionId) -> Step
        ensures { result ≡ live_stopping_step self.now now session }
    {
        let backoff = stopping_backoff(
            any_working(&self.works),
            self.session,
            self.ttl,
            now,
            self.paused,
        );
        if backoff == 0 {
            return Step::Ask(Request::Renew(session));
        }
        if !self.looks_ahead(now) {
            return Step::BackOff(backoff, Reason::Stop);
        }
        if self.needs_snapshot {
            return Step::Ask(Request::Snapshot);
        }
        Step::Wait(
            renewal_left(self.session, self.ttl, now),
            Until::News,
            Reason::Stop,
        )
    }

    // Whether it reads a snapshot while some work must end, so that it finds what else it must stop.
    fn looks_ahead(&self, now: u64) -> bool
        ensures { result ≡ looks_ahead self.now now }
    {
        self.terms.is_cooperative && !self.is_past && !(0 < pause_left(self.paused, self.ttl, now))
    }

    // Rule 4: no work must end.
    fn going_step(&self, now: u64, s: Sight) -> Step
        ensures { result ≡ going_step self.now now s }
    {
        if 0 < pause_left(self.paused, self.ttl, now) {
            let backoff = paused_backoff(
                any_working(&self.works),
                self.session,
                self.ttl,
                now,
                self.paused,
            );
            return Step::BackOff(backoff, Reason::Pause);
        }
        self.session_step(now, s)
    }

    // Whether it may go on with all that it works on, and wasn't asked to stop.
    fn may_go_on(&self, now: u64, is_stable: bool) -> bool
        ensures goes_on { IsTrue result ↔ MayGoOn self.now (table_ahead self.now now is_stable) }
        ensures ahead { SeesIfFound self.now }
    {
        let last = self.learned.replica().last_table();
        self.are_left(table_by(self.ahead(now, is_stable), last, self.coming.as_ref()))
    }

    // Whether this table, if there is one, leaves its node all that it works on, and wasn't asked to stop.
    fn are_left(&self, table: Option<&Table>) -> bool
        ensures { IsTrue result ↔ MayGoOn self.now (option_copied table.entry) }
    {
        for partition in 0..self.works.len() {
            if works_at(&self.works, partition) && !is_left(table, self.terms.node, partition) {
                return false;
            }
        }
        true
    }

    // Which table says on what it may go on.
    fn ahead(&self, now: u64, is_stable: bool) -> Ahead
        ensures { result ≡ ahead self.now now is_stable }
    {
        if !self.goes_on(now) {
            Ahead::Nothing
        } else if !is_stable {
            Ahead::Coming
        } else if self.goes_on_by(self.token_now()) {
            Ahead::Last
        } else {
            Ahead::Nothing
        }
    }

    // Whether any work may go on.
    fn goes_on(&self, now: u64) -> bool
        ensures { result ≡ goes_on self.now now }
    {
        sure(self.session, self.ttl, now) && self.ending.is_none() && !self.is_past && !self.is_lost
    }

    // Whether work goes on by the token of what the node owns.
    fn goes_on_by(&self, token: Option<u32>) -> bool
        ensures { result ≡ goes_on_by self.now token }
    {
        match token {
            Some(token) => self.terms.is_cooperative || token == self.token,
            None => false,
        }
    }

    // Whether it works on all that the last plan gives its node.
    fn has_all(&self) -> bool
        ensures { IsTrue result ↔ HasAllOf self.now (last_table self.now) }
    {
        match self.learned.replica().last_table() {
            Some(table) => self.works_on_all(table),
            None => true,
        }
    }

    fn works_on_all(&self, table: &Table) -> bool
        ensures { IsTrue result ↔ HasAll self.now table.now }
    {
        for partition in 0..table.len() {
            if table.owner(partition) == self.terms.node && !works_at(&self.works, partition) {
                return false;
            }
        }
        true
    }

    // The token by which it may work, if its node owns anything.
    fn token_now(&self) -> Option<u32>
        ensures { result ≡ token_now self.now }
    {
        may_work(self.learned.replica(), self.terms.node, self.promised)
    }

    // Rules 5 to 7: no work must stop, and something may be asked for.
    fn session_step(&self, now: u64, s: Sight) -> Step
        ensures { result ≡ session_step self.now now s self.now.session }
    {
        match self.session {
            SessionState::Unknown(session) => Step::Ask(Request::Release(session)),
            SessionState::Absent => self.step_without_session(now),
            SessionState::Live(session, _) => {
                if self.is_due(now) {
                    Step::Ask(Request::Renew(session))
                } else {
                    self.step_of_session(now, s, session)
                }
            }
        }
    }

    // Whether a renewal is due. A member that ends doesn't renew a lease that isn't sure any more, so it ends even if
    // nothing is answered.
    fn is_due(&self, now: u64) -> bool
        ensures { result ≡ is_due self.now now }
    {
        renewal_left(self.session, self.ttl, now) == 0
            && (self.ending.is_none() || sure(self.session, self.ttl, now))
    }

    fn step_without_session(&self, now: u64) -> Step
        ensures { result ≡ step_without_session self.now now self.now.ending }
    {
        match self.ending {
            Some(ending) => Step::End(ending),
            None => self.absent_step(now),
        }
    }

    fn step_of_session(&self, now: u64, s: Sight, session: SessionId) -> Step
        ensures { result ≡ step_of_session self.now now s session self.now.ending }
    {
        match self.ending {
            Some(ending) => self.ending_step(now, s.are_down, session, ending),
            None => self.live_step(now, s, session),
        }
    }

    // It doesn't have its lease, and goes on.
    fn absent_step(&self, now: u64) -> Step
        ensures { result ≡ absent_step self.now now }
    {
        if self.is_past {
            return Step::Ask(Request::Follow);
        }
        if self.needs_snapshot {
            return Step::Ask(Request::Snapshot);
        }
        self.acquiring_step(now)
    }

    // Rules 10 to 13, by who holds the lease of its node: an earlier session of its own, which was acquired late;
    // another process; or nobody.
    fn acquiring_step(&self, now: u64) -> Step
        ensures { result ≡ acquiring_step self.now now (lease_of self.now.terms.node self.now.leases) }
    {
        match self.own_lease() {
            Some(lease) if lease.session.process == self.process => {
                Step::Ask(Request::Release(lease.session))
            }
            Some(_) => Step::Wait(self.ttl, Until::News, Reason::Held),
            None => self.free_step(now),
        }
    }

    // Nobody holds the lease of its node.
    fn free_step(&self, now: u64) -> Step
        ensures { result ≡ acquiring_step self.now now None }
    {
        let wait = self.rebalance_left(now);
        if 0 < wait {
            return Step::Wait(wait, Until::News, Reason::Rebalance);
        }
        let session = SessionId {
            process: self.process,
            number: self.tries.saturating_add(1),
        };
        Step::Ask(Request::Acquire(session, self.offset()))
    }

    // How long it waits until the others have rebalanced the group without the session before it, a ttl at most: only
    // if its node is up in the log, and others hold leases.
    fn rebalance_left(&self, now: u64) -> u64
        ensures { result ≡ rebalance_left self.now now }
    {
        if self.is_down(self.terms.node) || self.leases.is_empty() {
            0
        } else {
            left(now, self.ttl, self.last_change.at)
        }
    }

    // Rules 8 and 15: it has its lease, and goes on.
    fn live_step(&self, now: u64, s: Sight, session: SessionId) -> Step
        ensures { result ≡ live_step self.now now s session }
    {
        if self.is_past {
            return Step::Ask(Request::Follow);
        }
        if self.is_outdated(now) {
            return Step::Ask(Request::Snapshot);
        }
        if s.is_stable {
            self.stable_step(now, s.has_all)
        } else {
            self.unstable_step(now, session)
        }
    }

    // Whether another snapshot is due: the last one is out of date, or a lease has been admitted since.
    fn is_outdated(&self, now: u64) -> bool
        ensures { result ≡ is_outdated self.now now }
    {
        self.needs_snapshot || self.is_one_admitted_since(now)
    }

    fn is_one_admitted_since(&self, now: u64) -> bool
        ensures { result ≡ list_any (is_admitted_since self.now now) self.now.leases }
    {
        self.leases
            .iter()
            .any(|lease| self.is_admitted_since(now, lease))
    }

    // Whether a lease is admitted by now that wasn't when the last snapshot was read.
    fn is_admitted_since(&self, now: u64, lease: &Lease) -> bool
        ensures { result ≡ is_admitted_since self.now now lease.now }
    {
        self.is_to_come(lease) && self.stay_left(now, lease.node) == 0
    }

    // Whether a lease that wasn't admitted when the last snapshot was read will be, since its holder doesn't leave.
    fn is_to_come(&self, lease: &Lease) -> bool
        ensures { result ≡ is_to_come self.now lease.now }
    {
        !lease.is_leaving && !self.is_in_group(lease.node)
    }

    // Rules 14 and 15: it ends, and still has its lease.
    fn ending_step(&self, now: u64, are_down: bool, session: SessionId, ending: Ending) -> Step
        ensures { result ≡ ending_step self.now now are_down session ending }
    {
        if ending != Ending::Left || self.is_past || !sure(self.session, self.ttl, now) {
            return Step::Ask(Request::Release(session));
        }
        if self.needs_snapshot {
            return Step::Ask(Request::Snapshot);
        }
        self.leaving_step(are_down, session)
    }

    // Rule 16: it was told to leave: if it is the last one, it has all nodes crash before it goes.
    fn leaving_step(&self, are_down: bool, session: SessionId) -> Step
        ensures { result ≡ leaving_step self.now are_down session }
    {
        if !(self.is_alone() && !are_down && self.has_room() && !self.has_closed) {
            return Step::Ask(Request::Release(session));
        }
        if self.has_promised() {
            Step::Ask(Request::Append(self.offset()))
        } else {
            Step::Ask(Request::Promise(session, self.offset()))
        }
    }

    // Rules 17 and 18: the group is stable, and it works on all that its node owns, by the last plan's token.
    fn stable_step(&self, now: u64, has_all: bool) -> Step
        ensures { result ≡ stable_step self.now now has_all (token_now self.now) }
    {
        match self.token_now() {
            Some(token) if !(has_all && token == self.token) => Step::Begin(token),
            _ => Step::Wait(self.admission_wait(now), Until::AnyIdle, Reason::Stable),
        }
    }

    // Rules 19 and 20: the group isn't stable.
    fn unstable_step(&self, now: u64, session: SessionId) -> Step
        ensures { result ≡ unstable_step self.now now session }
    {
        if self.is_newcomer() {
            return Step::Wait(self.admission_wait(now), Until::News, Reason::Admission);
        }
        if !self.is_ready_itself() {
            return Step::Ask(Request::Promise(session, self.offset()));
        }
        self.turn_step(now)
    }

    // Rule 21: until its turn.
    fn turn_step(&self, now: u64) -> Step
        ensures { result ≡ turn_step self.now now }
    {
        let turn = self.turn_left(now);
        if 0 < turn {
            let renewal = renewal_left(self.session, self.ttl, now);
            return Step::Wait(renewal.min(turn), Until::News, Reason::Turn);
        }
        self.change_step(now)
    }

    // How long until it is its turn to change the log.
    fn turn_left(&self, now: u64) -> u64
        ensures { result ≡ turn_left (above self.now) self.now.ttl now self.now.last_change.at }
    {
        turn_left(self.above(), self.ttl, now, self.last_change.at)
    }

    // Rules 22 to 24: it is its turn to roll the epoch over or to rebalance the group, once all are ready.
    fn change_step(&self, now: u64) -> Step
        ensures { result ≡ change_step self.now now }
    {
        if !self.all_ready() {
            let renewal = renewal_left(self.session, self.ttl, now);
            return Step::Wait(renewal, self.until_ready(), Reason::Others);
        }
        if self.is_closing() {
            Step::Ask(Request::RollOver(self.offset()))
        } else {
            Step::Ask(Request::Append(self.offset()))
        }
    }

    // What ends the wait for the others.
    fn until_ready(&self) -> Until
        ensures { result ≡ until_ready self.now }
    {
        if self.terms.is_cooperative {
            Until::Promises
        } else {
            Until::AllIdle
        }
    }

    // Whether a cooperative group is rebalanced without it, since it isn't admitted yet.
    fn is_newcomer(&self) -> bool
        ensures { result ≡ is_newcomer self.now }
    {
        self.terms.is_cooperative && !self.is_in_group(self.terms.node)
    }

    /// Whether the group is stable for the member, by its last snapshot: it is stable among the nodes that were
    /// admitted, by a plan after all that the member's own session has promised; and the epoch needn't roll over. In an
    /// eager group, and for the highest live node of a cooperative one, the plan is at or after each offset that one of
    /// the others has promised, too.
    pub fn is_stable(&self) -> bool
        ensures { IsTrue result ↔ SeesStable self.now }
    {
        is_stable(self.learned.replica(), &self.group, self.heeded())
            && self.promised < self.learned.replica().token()
            && !self.is_closing()
    }

    /// Whether the next snapshot must show what others have promised. In an eager group it must. In a cooperative one
    /// it must if no higher node is live, or if the group isn't stable for the member and its turn to change the log
    /// has come, or if somebody came again whom it admits only while a change is under way. Otherwise a snapshot may
    /// leave promises of others out, as if nobody had promised anything: the member does the same
    /// ([`needs_no_promises`](crate::needs_no_promises)). A snapshot may change what this returns. If it returns true
    /// after one that left promises out, the member needs another one.
    pub fn needs_promises(&self, now: u64) -> bool
        ensures { (is_stable : Bool) → (IsTrue is_stable ↔ SeesStable self.now)
            → result ≡ needs_promises self.now now is_stable }
    {
        self.heeds_promises()
            || (!self.is_stable() && self.turn_left(now) == 0)
            || self.is_one_held_off(now)
    }

    fn is_one_held_off(&self, now: u64) -> bool
        ensures { result ≡ list_any (is_held_off self.now now) self.now.leases }
    {
        self.leases.iter().any(|lease| self.is_held_off(now, lease))
    }

    // Whether a lease is admitted only while a change is under way, since its session came soon after another one.
    fn is_held_off(&self, now: u64, lease: &Lease) -> bool
        ensures { result ≡ is_held_off self.now now lease.now }
    {
        self.is_kept_out(now, lease) && self.is_returning(lease.node)
    }

    // Whether a lease is admitted only while a change is under way.
    fn is_kept_out(&self, now: u64, lease: &Lease) -> bool
        ensures { result ≡ is_kept_out self.now now lease.now }
    {
        !lease.is_leaving && self.is_down(lease.node) && 0 < self.stay_left(now, lease.node)
    }

    // Whether all nodes of the group are Down.
    fn are_down(&self) -> bool
        ensures { IsTrue result ↔ AllAreDown self.now }
    {
        is_stable(self.learned.replica(), &NodeSet::new(), 0)
    }

    // The end of the log, as far as it was learned.
    pub(super) fn here(&self) -> Promise
        ensures { result ≡ here self.now }
    {
        Promise {
            epoch: self.terms.epoch,
            offset: self.offset(),
        }
    }

    // Whether a node is Down, or none of the group's.
    pub(super) fn is_down(&self, node: Node) -> bool
        ensures { result ≡ is_down self.now node }
    {
        let world = self.learned.replica().world();
        world.setup().nodes() < node.number() || world.vector(node).status() == Status::Down
    }

    // Whether it goes by what others have promised when it finds whether the group is stable: in a cooperative group
    // only the highest live node does, whose turn comes first.
    fn heeds_promises(&self) -> bool
        ensures { result ≡ heeds_promises self.now }
    {
        !self.terms.is_cooperative || self.above() == 0
    }

    // The offset after which the last plan must be in a stable group.
    fn heeded(&self) -> u32
        ensures { result ≡ heeded self.now }
    {
        if self.heeds_promises() {
            self.most_promised()
        } else {
            offset_in(self.terms.epoch, self.own)
        }
    }

    // The highest offset of this epoch that a session of the group has promised, or the member's own.
    fn most_promised(&self) -> u32
        ensures { result ≡ most_promised self.now }
    {
        let epoch = self.terms.epoch;
        self.leases
            .iter()
            .filter(|lease| self.is_in_group(lease.node))
            .fold(offset_in(epoch, self.own), |most, lease| {
                most.max(offset_in(epoch, lease.promise))
            })
    }

    // How long it waits while nothing is new: until the next renewal is due, or one more lease is admitted.
    fn admission_wait(&self, now: u64) -> u64
        ensures { result ≡ admission_wait self.now now }
    {
        self.leases
            .iter()
            .filter(|lease| self.is_to_come(lease))
            .fold(renewal_left(self.session, self.ttl, now), |least, lease| {
                least.min(self.stay_left(now, lease.node))
            })
    }

    // Whether the log has room for one more rebalance.
    fn has_room(&self) -> bool
        ensures { result ≡ has_room self.now }
    {
        let nodes = u32::from(self.learned.replica().world().setup().nodes());
        self.offset() + REBALANCE_MAX * nodes <= self.terms.rows_max
    }

    // Whether the epoch must roll over.
    fn is_closing(&self) -> bool
        ensures { result ≡ is_closing self.now }
    {
        self.closes(self.has_request)
    }

    // ... if other settings are requested or not.
    pub(super) fn closes(&self, has_request: bool) -> bool
        ensures { result ≡ closes (replica_of self.now) self.now.terms has_request }
    {
        has_request || !self.has_room()
    }

    // Whether the store is known to have its promise of the log's end, keeping exactly what it works on.
    fn has_promised(&self) -> bool
        ensures { result ≡ has_promised self.now }
    {
        self.own == self.here() && self.is_exact
    }

    // Whether a change may be made as far as it affects the member itself.
    fn is_ready_itself(&self) -> bool
        ensures { result ≡ is_ready_itself self.now }
    {
        !self.is_affected(self.terms.node) || self.has_promised()
    }

    // Whether a change may be made.
    fn all_ready(&self) -> bool
        ensures { result ≡ all_ready self.now }
    {
        (self.terms.is_cooperative || !self.has_unknown)
            && self.is_ready_itself()
            && self.others_ready()
    }

    fn others_ready(&self) -> bool
        ensures { result ≡ list_all (is_ready self.now) self.now.leases }
    {
        self.leases.iter().all(|lease| self.is_ready(lease))
    }

    // Whether a change may be made as far as it affects the holder of this lease.
    fn is_ready(&self, lease: &Lease) -> bool
        ensures { result ≡ is_ready self.now lease.now }
    {
        lease.node == self.terms.node
            || !self.is_affected(lease.node)
            || (lease.promise == self.here() && self.is_left_to(lease.node, lease.kept.as_slice()))
    }

    // Whether the coming table leaves the node what it keeps.
    fn is_left_to(&self, node: Node, kept: &[u16]) -> bool
        ensures { result ≡ list_all (is_left self.now.coming node) kept.now }
    {
        kept.iter().all(|partition| is_left(self.coming.as_ref(), node, usize::from(*partition)))
    }

    // How much longer the session that holds the lease of a node must stay until it is admitted.
    pub(super) fn stay_left(&self, now: u64, node: Node) -> u64
        ensures { result ≡ stay_left self.now.arrivals now node }
    {
        stay_left(&self.arrivals, now, node)
    }

    // Whether the session that holds the lease of a node came soon after another one, so that it must stay longer.
    fn is_returning(&self, node: Node) -> bool
        ensures { result ≡ is_returning self.now.arrivals self.now.ttl node }
    {
        match self.arrivals.get(usize::from(node.number() - 1)) {
            Some(arrival) => first_stay(self.ttl) < arrival.stay,
            None => false,
        }
    }

    // Whether nobody else holds a lease.
    fn is_alone(&self) -> bool
        ensures { result ≡ is_alone self.now }
    {
        !self.has_unknown && are_of(&self.leases, self.terms.node)
    }

    // How many higher nodes are live.
    fn above(&self) -> u16
        ensures above { result ≡ above self.now }
        ensures within { result ≤ NODES_MAX }
    {
        let node = self.terms.node;
        let above = self.leases.iter().filter(|lease| node < lease.node).count();
        above.min(usize::from(NODES_MAX)) as u16
    }
}

// The table that this names.
fn table_by<'a>(
    ahead: Ahead,
    last: Option<&'a Table>,
    coming: Option<&'a Table>,
) -> Option<&'a Table>
    ensures { option_copied result ≡ table_by ahead (option_copied last.entry) (option_copied coming.entry) }
{
    match ahead {
        Ahead::Nothing => None,
        Ahead::Last => last,
        Ahead::Coming => coming,
    }
}

// The offset of a promise, if it is of this epoch, or else 0.
pub(super) fn offset_in(epoch: u32, promise: Promise) -> u32
    ensures { result ≡ offset_in epoch promise }
{
    if promise.epoch == epoch {
        promise.offset
    } else {
        0
    }
}

// Whether all leases are of this node.
fn are_of(leases: &[Lease], node: Node) -> bool
    ensures { result ≡ are_of node leases.now }
{
    leases.iter().all(|lease| lease.node == node)
}

// How much longer the session that holds the lease of a node must stay until it is admitted.
fn stay_left(arrivals: &[Arrival], now: u64, node: Node) -> u64
    ensures { result ≡ stay_left arrivals.now now node }
{
    match arrivals.get(usize::from(node.number() - 1)) {
        Some(arrival) => left(now, arrival.stay, arrival.at),
        None => 0,
    }
}
