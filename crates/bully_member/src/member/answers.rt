//! How a member takes in the answers of the store, and what is reported to it of its work and its end.
ghost use Rattle.std.specs.Prelude.{◌≡◌, None, Some, true};
ghost use Rattle.bully_member.specs.Due.{with_works};
ghost use Rattle.bully_member.specs.Told.{answered, end_for, lost, renewed_by, acquired_by, stopped, stopped_on};
ghost use Rattle.bully_member.specs.Told.{to_end_session};
ghost use Rattle.bully_member.specs.Told.{to_snapshot, to_pause, when_answered, when_appended, when_rolled_over};
ghost use Rattle.bully_member.specs.Told.{when_promised, when_released, when_renewed, when_acquired};

use super::Member;
use crate::activities::{all_idle, any_working, end_all, end_one};
use crate::values::{Asked, Ending, Promise, Request, SessionId, SessionState, StoreAnswer};

impl Member {
    /// What became of the last request. Nothing changes if none is awaited. A `Snapshot` or a `Follow` whose result
    /// doesn't come counts as not answered.
    pub fn answered(&mut self, now: u64, answer: StoreAnswer)
        ensures { self.new ≡ answered self.old now answer }
    {
        if let Some(Asked { request, at }) = self.asked {
            self.asked = None;
            self.note_answer(now, answer, request, at);
        }
    }

    // What became of a request that was asked for then.
    fn note_answer(&mut self, now: u64, answer: StoreAnswer, request: Request, at: u64)
        ensures { self.new ≡ when_answered self.old now answer request at }
    {
        match request {
            Request::Acquire(session, offset) => self.note_acquired(
                now, answer, session, offset, at,
            ),
            Request::Renew(session) => self.note_renewed(now, answer, session, at),
            Request::Release(_) => self.note_released(now, answer),
            Request::Promise(_, offset) => self.note_promised(now, answer, offset),
            Request::Append(_) => self.note_appended(now, answer),
            Request::RollOver(_) => self.note_rolled_over(now, answer),
            Request::Snapshot | Request::Follow => self.pause(now),
        }
    }

    fn note_acquired(
        &mut self,
        now: u64,
        answer: StoreAnswer,
        session: SessionId,
        offset: u32,
        at: u64,
    )
        ensures { self.new
            ≡ acquired_by self.old.session self.old (when_acquired self.old now answer session offset at) }
    {
        if self.session != SessionState::Absent {
            return;
        }
        self.needs_snapshot = true;
        match answer {
            StoreAnswer::Done => {
                self.session = SessionState::Live(session, at);
                self.own = Promise {
                    epoch: self.terms.epoch,
                    offset,
                };
                self.is_exact = all_idle(&self.works);
            }
            StoreAnswer::Refused => {}
            StoreAnswer::Unanswered => {
                self.session = SessionState::Unknown(session);
                self.pause(now);
            }
        }
    }

    // The lease counts from when its renewal was asked for.
    fn note_renewed(&mut self, now: u64, answer: StoreAnswer, session: SessionId, at: u64)
        ensures { self.new ≡ renewed_by self.old.session self.old (when_renewed self.old now answer session at) }
    {
        if let SessionState::Live(..) = self.session {
            match answer {
                StoreAnswer::Done => self.session = SessionState::Live(session, at),
                StoreAnswer::Refused => self.end_session(),
                StoreAnswer::Unanswered => self.pause(now),
            }
        }
    }

    fn note_released(&mut self, now: u64, answer: StoreAnswer)
        ensures { self.new ≡ when_released self.old now answer }
    {
        self.end_session();
        if answer == StoreAnswer::Unanswered {
            self.pause(now);
        }
    }

    fn note_promised(&mut self, now: u64, answer: StoreAnswer, offset: u32)
        ensures { self.new ≡ when_promised self.old now answer offset }
    {
        if answer == StoreAnswer::Done {
            self.own = Promise {
                epoch: self.terms.epoch,
                offset,
            };
            self.is_exact = self.is_asked_exact;
        } else {
            self.note_appended(now, answer);
        }
    }

    fn note_appended(&mut self, now: u64, answer: StoreAnswer)
        ensures { self.new ≡ when_appended self.old now answer }
    {
        self.needs_snapshot = true;
        if answer == StoreAnswer::Unanswered {
            self.pause(now);
        }
    }

    fn note_rolled_over(&mut self, now: u64, answer: StoreAnswer)
        ensures { self.new ≡ when_rolled_over self.old now answer }
    {
        if answer == StoreAnswer::Done {
            self.is_past = true;
        } else {
            self.note_appended(now, answer);
        }
    }

    // It asks for nothing during a pause.
    fn pause(&mut self, now: u64)
        ensures { self.new ≡ to_pause self.old now }
    {
        self.paused = Some(now);
    }

    // Its session is over.
    pub(super) fn end_session(&mut self)
        ensures { self.new ≡ to_end_session self.old }
    {
        self.session = SessionState::Absent;
        self.needs_snapshot = true;
    }

    /// Instead of any other answer of the store: the epoch is over, and its log was removed.
    pub fn passed(&mut self)
        ensures { self.new ≡ record self.old { is_past = true; asked = None } }
    {
        self.is_past = true;
        self.asked = None;
    }

    /// A wait is over.
    pub fn woke(&mut self)
        ensures { self.new ≡ to_snapshot self.old }
    {
        self.needs_snapshot = true;
    }

    /// The member must leave in an orderly way.
    pub fn leave(&mut self)
        ensures { self.new ≡ end_for self.old Ending.Left self.old.ending }
    {
        self.end_for(Ending::Left);
    }

    // It ends for this reason, unless it ends for another one already.
    pub(super) fn end_for(&mut self, why: Ending)
        ensures { self.new ≡ end_for self.old why self.old.ending }
    {
        if self.ending.is_none() {
            self.ending = Some(why);
        }
    }

    /// All work has ended by itself. The token is that of the last `Step::Begin`, also for work that was started
    /// before. Nothing changes with another one, or if the member works on nothing that it wasn't asked to stop.
    pub fn lost(&mut self, token: u32)
        ensures { self.new ≡ lost self.old token }
    {
        if token == self.token && any_working(&self.works) {
            self.is_lost = true;
        }
    }

    /// All work has ended. Even if there was none, the member promises again before a change that affects it.
    pub fn stopped(&mut self)
        ensures { self.new ≡ stopped self.old }
    {
        end_all(&mut self.works);
        self.note_work_changed();
        self.is_lost = false;
    }

    /// The work on this partition has ended, whether or not the member was asked to stop it. If the node still owns the
    /// partition, the member begins again there. Even if there was no such work or partition, the member promises again
    /// before a change that affects it.
    pub fn stopped_on(&mut self, partition: u16)
        ensures { self.new ≡ stopped_on self.old partition }
    {
        end_one(&mut self.works, partition);
        self.note_work_changed();
    }

    // What a promise must keep has changed.
    pub(super) fn note_work_changed(&mut self)
        ensures { self.new ≡ with_works self.old self.old.works }
    {
        self.is_exact = false;
        self.is_asked_exact = false;
    }
}
