ghost use Rattle.std.specs.Prelude.{◌≡◌, ◌+◌, ◌++◌, ◌∷◌, [], List, length, IfErr, IfOk, IfSome, IsOk, None, OnOk, Some};
ghost use Rattle.std.specs.Prelude.{◌↔◌};
ghost use Rattle.std.specs.Option.{option_and_then, option_map};
ghost use Rattle.bully_base.specs.Setup.{Setup as SetupState};
ghost use Rattle.bully_rows.specs.declared.trace.Row.{Row as RowState};
ghost use Rattle.bully_trace.specs.Judging.{HasJudged};
ghost use Rattle.bully_trace.specs.OneRow.{IsRowTaken, IsTakenBy, verdict_at, violation_in, violation_of};
ghost use Rattle.bully_calls.specs.Events.{event_at};
ghost use Rattle.bully_trace.specs.Verdict.{IsJudged};
ghost use Rattle.bully_world.specs.State.{IsApplied, cause_in, first_state, world_of};
ghost use Rattle.bully_world.specs.World.{first_world};

use crate::details::{holds, holds_whole, is_so};
use crate::{Verdict, Violation};
use bully_agree::Walk;
use bully_base::OutOfMemory;
use bully_calls::{Answer, NodeEventKind};
use bully_rows::{Claim, DetailedEvent, Header, NodeEvent, Row, Version, WholeClaim};
use bully_world::{Event, Refused, World};
use std::alloc::Global;
use std::marker::Model;

/// The judge of rows that come one by one.
#[derive(Drop)]
pub struct Judge {
    version: Version,
    walk: Walk,
    // The first verdict that isn't lawful.
    stopped: Option<Verdict>,
}

impl Model for Judge {
    ghost use Rattle.bully_trace.specs.Judging.{JudgeState};

    ghost Value = { JudgeState };

    ghost view = { λ j. record { version = j.version; world = j.walk; stopped = j.stopped } };
}

impl Judge {
    /// A judge after this header, before any row. Refused where an allocation fails.
    pub fn new(alloc: Global, header: Header) -> Result<Judge, OutOfMemory>
        ensures judged { IfOk result (HasJudged header.setup []) }
        ensures version { IfOk result (λ judge. judge.version ≡ header.version) }
        ensures state { IfOk result (λ judge.
            judge ≡ record { version = header.version; world = first_state header.setup; stopped = None }) }
    {
        Ok(Judge {
            version: header.version,
            walk: Walk::new(alloc, header.setup)?,
            stopped: None,
        })
    }

    /// The version of the trace.
    pub fn version(&self) -> Version
        ensures { result ≡ self.now.version }
    {
        self.version
    }

    /// Takes the row of this number. The first event that the world refuses, or the first claim or detail that is false
    /// of it, decides, and no later row changes anything.
    pub fn feed_row(&mut self, number: u32, row: &Row)
        ensures version { self.new.version ≡ self.old.version }
        ensures taken { IsTakenBy number row.now self.old self.new }
        ensures judged { (setup : SetupState) (rows : List RowState) → length rows + 2 ≡ number
            → HasJudged setup rows self.old → HasJudged setup (rows ++ row.now ∷ []) self.new }
    {
        match row {
            Row::Event(event) => self.judge_event(number, event),
            Row::Detailed(event) => self.judge_detailed(number, event),
            Row::Claim(claim) => self.judge_claim(number, claim),
            Row::Whole(whole) => self.judge_whole(number, whole),
        }
    }

    /// Takes the row of this number, which tells this event, as `feed_row` does.
    // (the arms are alike, and those of the kinds that come most are kept apart for speed: each has a copy of the step
    // of its own, in which the kind is known, so what reads a word goes on right to what its event needs, and none of
    // it chooses by the kind once more)
    pub fn feed_node_event(&mut self, number: u32, event: NodeEvent)
        ensures version { self.new.version ≡ self.old.version }
        ensures taken { IsTakenBy number (Row.Event (event_at event.kind event.node)) self.old self.new }
        ensures judged { (setup : SetupState) (rows : List RowState) → length rows + 2 ≡ number
            → HasJudged setup rows self.old
            → HasJudged setup (rows ++ Row.Event (event_at event.kind event.node) ∷ []) self.new }
    {
        let node = event.node;
        match event.kind {
            NodeEventKind::Check => self.judge_event(number, &Event::Check(node)),
            NodeEventKind::Timeout => self.judge_event(number, &Event::Timeout(node)),
            NodeEventKind::Start => self.judge_event(number, &Event::Start(node)),
            NodeEventKind::Run => self.judge_event(number, &Event::Run(node)),
            NodeEventKind::Lose => self.judge_event(number, &Event::Lose(node)),
            NodeEventKind::Return => self.judge_event(number, &Event::Return(node)),
            NodeEventKind::Move => self.judge_event(number, &Event::Move(node)),
            _ => self.judge_event(number, &event.event()),
        }
    }

    // Judges the event of this row, where no row before it decided.
    // (inlined, as `feed_node_event` says)
    #[inline(always)]
    fn judge_event(&mut self, number: u32, event: &Event)
        ensures version { self.new.version ≡ self.old.version }
        ensures taken { IsTakenBy number (Row.Event event.now) self.old self.new }
    {
        if self.stopped.is_none() {
            if let Some(verdict) = refusal(&mut self.walk, number, event) {
                self.stopped = Some(verdict);
            }
        }
    }

    // Judges the claim of this row, where no row before it decided.
    fn judge_claim(&mut self, number: u32, claim: &Claim)
        ensures version { self.new.version ≡ self.old.version }
        ensures taken { IsTakenBy number (Row.Claim claim.now) self.old self.new }
    {
        if self.stopped.is_none() && !holds(self.walk.world(), claim) {
            self.stopped = Some(Verdict::Differs(number));
        }
    }

    // Judges the event of this row and what is said beside it, where no row before it decided.
    fn judge_detailed(&mut self, number: u32, event: &DetailedEvent)
        ensures version { self.new.version ≡ self.old.version }
        ensures taken { IsTakenBy number (Row.Detailed event.now) self.old self.new }
    {
        if self.stopped.is_some() {
            return;
        }
        self.stopped = detail_stop(&mut self.walk, number, event);
    }

    // Judges the claim of this row that tells all of a vector, where no row before it decided.
    fn judge_whole(&mut self, number: u32, whole: &WholeClaim)
        ensures version { self.new.version ≡ self.old.version }
        ensures taken { IsTakenBy number (Row.Whole whole.now) self.old self.new }
    {
        if self.stopped.is_none() && !holds_whole(self.walk.world(), whole) {
            self.stopped = Some(Verdict::Differs(number));
        }
    }

    /// The first verdict that isn't lawful; none where no row so far decided.
    pub fn stopped(&self) -> Option<Verdict>
        ensures { result ≡ self.now.stopped }
    {
        self.stopped
    }

    /// The verdict on the rows that were taken: lawful with the number of their events, where no other one came first.
    pub fn verdict(&self) -> Verdict
        ensures { (setup : SetupState) (rows : List RowState) → HasJudged setup rows self.now
            → IsJudged setup (first_world setup) 0 2 rows result (world_of self.now.world) }
    {
        match self.stopped {
            Some(verdict) => verdict,
            None => Verdict::Lawful(self.world().events()),
        }
    }

    /// Takes the next row, where nothing is wrong with it; no row decided before. What is wrong with it else is told,
    /// and then nothing changes: it decides nothing.
    pub fn try_row(&mut self, row: &Row) -> Option<Violation>
        requires { self.old.stopped ≡ None }
        ensures violation { result ≡ violation_of self.old.world row.now }
        ensures taken { result ≡ None → IsRowTaken self.old.world row.now self.new.world }
        ensures unchanged { IfSome result (λ _. self.new ≡ self.old) }
        ensures going { (self.new.stopped ≡ None) × (self.new.version ≡ self.old.version) }
    {
        self.feed_row(0, row);
        self.pass_over()
    }

    /// The same of a row that tells this event.
    pub fn try_node_event(&mut self, event: NodeEvent) -> Option<Violation>
        requires { self.old.stopped ≡ None }
        ensures violation { result ≡ violation_of self.old.world (Row.Event (event_at event.kind event.node)) }
        ensures taken { result ≡ None
            → IsRowTaken self.old.world (Row.Event (event_at event.kind event.node)) self.new.world }
        ensures unchanged { IfSome result (λ _. self.new ≡ self.old) }
        ensures going { (self.new.stopped ≡ None) × (self.new.version ≡ self.old.version) }
    {
        self.feed_node_event(0, event);
        self.pass_over()
    }

    // What is wrong with the row that decided, if one did. From then on it is as if that row hadn't been there.
    fn pass_over(&mut self) -> Option<Violation>
        ensures violation { result ≡ option_and_then violation_in self.old.stopped }
        ensures going { self.new ≡ record self.old { stopped = None } }
    {
        match self.stopped {
            Some(verdict) => {
                self.stopped = None;
                verdict.violation()
            }
            None => None,
        }
    }

    /// Takes an event to the world, as a row that tells it, and answers it, as [`Walk::apply`] does; no row decided
    /// before. Refused with its cause, and then nothing changes, and it decides nothing.
    #[inline(always)]
    pub fn apply(&mut self, event: &Event) -> Result<Answer, Refused>
        requires { self.old.stopped ≡ None }
        ensures applied { IfOk result (IsApplied self.old.world event.now self.new.world) }
        ensures exact { IsOk result ↔ (cause_in self.old.world event.now ≡ None) }
        ensures why { IfErr result (λ why. cause_in self.old.world event.now ≡ Some why) }
        ensures unchanged { IfErr result (λ _. self.new ≡ self.old) }
        ensures going { (self.new.stopped ≡ None) × (self.new.version ≡ self.old.version) }
        ensures judged { (setup : SetupState) (rows : List RowState) → HasJudged setup rows self.old
            → OnOk result (HasJudged setup (rows ++ Row.Event event.now ∷ []) self.new) }
    {
        self.walk.apply(event)
    }

    /// The world that the rows were taken to.
    pub fn world(&self) -> &World
        ensures { result.now ≡ self.now.world }
    {
        self.walk.world()
    }
}

// Takes the event of the row of this number to the world: the verdict, where that isn't lawful.
// (inlined, as `feed_node_event` says)
#[inline(always)]
fn refusal(walk: &mut Walk, number: u32, event: &Event) -> Option<Verdict>
    ensures decides { result ≡ option_map (verdict_at number) (violation_of walk.old (Row.Event event.now)) }
    ensures taken { result ≡ None → IsRowTaken walk.old (Row.Event event.now) walk.new }
    ensures stays { IfSome result (λ _. walk.new ≡ walk.old) }
{
    match walk.apply(event) {
        Ok(_) => None,
        Err(why) => Some(Verdict::Refused(number, why)),
    }
}

// Takes an event to the world, where what is said beside it is so: the verdict, where that isn't lawful.
fn detail_stop(walk: &mut Walk, number: u32, event: &DetailedEvent) -> Option<Verdict>
    ensures decides { result ≡ option_map (verdict_at number) (violation_of walk.old (Row.Detailed event.now)) }
    ensures taken { result ≡ None → IsRowTaken walk.old (Row.Detailed event.now) walk.new }
    ensures stays { IfSome result (λ _. walk.new ≡ walk.old) }
{
    let plain = event.event();
    if let Some(why) = walk.world().cause(&plain) {
        return Some(Verdict::Refused(number, why));
    }
    if !is_so(walk.world(), event) {
        return Some(Verdict::Differs(number));
    }
    refusal(walk, number, &plain)
}
