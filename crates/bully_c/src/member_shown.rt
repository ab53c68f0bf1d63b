//! What a member does next, and what it shows, as C has it.
ghost use Rattle.std.specs.Prelude.{◌≡◌, ◌≤◌, ◌++◌, drop, length, map};
ghost use Rattle.bully_c.specs.Arguments.{IsCopied};
ghost use Rattle.bully_c.specs.MemberNumbers.{activity_number, until_number, ending_number, ending_or_none};
ghost use Rattle.bully_c.specs.MemberNumbers.{reason_number, session_count};
ghost use Rattle.bully_c.specs.MemberNumbers.{session_number, session_process, session_since, work_number, work_token};
ghost use Rattle.bully_c.specs.MemberShown.{member_shown, no_step, of_session, request_shown, step_shown};

use crate::status::{OK, SHORT};
use bully_member::{
    Activity, Ending, Member, Reason, Request, SessionId, SessionState, Step, Until, Work,
};

/// What a member does next. A field that a kind of step or request doesn't have is 0.
#[repr(C)]
#[derive(Clone, Copy)]
pub struct CStep {
    pub at_most: u64,
    pub process: u64,
    pub number: u64,
    pub kind: u32,
    pub request: u32,
    pub until: u32,
    pub reason: u32,
    pub offset: u32,
    pub token: u32,
    pub ending: u32,
}

/// The state of a member.
#[repr(C)]
#[derive(Clone, Copy)]
pub struct CMember {
    pub process: u64,
    pub number: u64,
    pub since: u64,
    pub sure_left: u64,
    pub session: u32,
    pub promised: u32,
    pub work: u32,
    pub token: u32,
    pub ending: u32,
    pub epoch: u32,
    pub offset: u32,
    pub node: u16,
    pub has_request: u16,
}

/// The step.
pub fn step_of(step: Step) -> CStep
    ensures { result ≡ step_shown step }
{
    let mut shown = no_step();
    match step {
        Step::Ask(request) => shown = request_of(request),
        Step::Begin(token) => {
            shown.kind = 2;
            shown.token = token;
        }
        Step::Stop => shown.kind = 3,
        Step::Wait(at_most, until, reason) => {
            shown.kind = 4;
            shown.at_most = at_most;
            shown.until = of_until(until);
            shown.reason = of_reason(reason);
        }
        Step::BackOff(at_most, reason) => {
            shown.kind = 5;
            shown.at_most = at_most;
            shown.reason = of_reason(reason);
        }
        Step::End(ending) => {
            shown.kind = 6;
            shown.ending = of_ending(ending);
        }
    }
    shown
}

// The step of this request.
fn request_of(request: Request) -> CStep
    ensures { result ≡ request_shown request }
{
    match request {
        Request::Acquire(session, offset) => asking(1, Some(session), offset),
        Request::Renew(session) => asking(2, Some(session), 0),
        Request::Release(session) => asking(3, Some(session), 0),
        Request::Snapshot => asking(4, None, 0),
        Request::Promise(session, offset) => asking(5, Some(session), offset),
        Request::Append(offset) => asking(6, None, offset),
        Request::RollOver(offset) => asking(7, None, offset),
        Request::Follow => asking(8, None, 0),
    }
}

// The step of the request with this number, of this session, at this offset.
fn asking(request: u32, session: Option<SessionId>, offset: u32) -> CStep
    ensures { result ≡ of_session request session offset }
{
    let mut shown = no_step();
    shown.kind = 1;
    shown.request = request;
    shown.offset = offset;
    if let Some(session) = session {
        shown.process = session.process;
        shown.number = session.number;
    }
    shown
}

fn no_step() -> CStep
    ensures { result ≡ no_step }
{
    CStep {
        at_most: 0,
        process: 0,
        number: 0,
        kind: 0,
        request: 0,
        until: 0,
        reason: 0,
        offset: 0,
        token: 0,
        ending: 0,
    }
}

fn of_until(until: Until) -> u32
    ensures { result ≡ until_number until }
{
    match until {
        Until::News => 1,
        Until::AnyIdle => 2,
        Until::AllIdle => 3,
        Until::Promises => 4,
    }
}

fn of_reason(reason: Reason) -> u32
    ensures { result ≡ reason_number reason }
{
    match reason {
        Reason::Answer => 2,
        Reason::Stop => 3,
        Reason::Pause => 4,
        Reason::Held => 11,
        Reason::Rebalance => 12,
        Reason::Stable => 18,
        Reason::Admission => 19,
        Reason::Turn => 21,
        Reason::Others => 22,
    }
}

fn of_ending(ending: Ending) -> u32
    ensures { result ≡ ending_number ending }
{
    match ending {
        Ending::Left => 1,
        Ending::NotThere => 2,
        Ending::Broken => 3,
    }
}

/// The state of the member now.
pub fn member_state(member: &Member, now: u64) -> CMember
    ensures { result ≡ member_shown member.now now }
{
    let (process, number) = session_of(member.session());
    CMember {
        process,
        number,
        since: since_of(member.session()),
        sure_left: member.sure_left(now),
        session: of_session(member.session()),
        promised: member.promised(),
        work: of_work(member.work()),
        token: token_of(member.work()),
        ending: ending_of(member.ending()),
        epoch: member.terms().epoch,
        offset: member.offset(),
        node: member.terms().node.number(),
        has_request: u16::from(member.has_request()),
    }
}

// Its process and its number, or two zeros.
fn session_of(session: SessionState) -> (u64, u64)
    ensures { result ≡ (session_process session, session_count session) }
{
    match session {
        SessionState::Absent => (0, 0),
        SessionState::Unknown(session) | SessionState::Live(session, _) => (
            session.process,
            session.number,
        ),
    }
}

fn since_of(session: SessionState) -> u64
    ensures { result ≡ session_since session }
{
    match session {
        SessionState::Absent | SessionState::Unknown(_) => 0,
        SessionState::Live(_, since) => since,
    }
}

fn of_session(session: SessionState) -> u32
    ensures { result ≡ session_number session }
{
    match session {
        SessionState::Absent => 0,
        SessionState::Unknown(_) => 1,
        SessionState::Live(..) => 2,
    }
}

fn of_work(work: Work) -> u32
    ensures { result ≡ work_number work }
{
    match work {
        Work::Idle => 0,
        Work::Working(_) => 1,
        Work::Lost(_) => 2,
        Work::Stopping(_) => 3,
    }
}

fn token_of(work: Work) -> u32
    ensures { result ≡ work_token work }
{
    match work {
        Work::Idle => 0,
        Work::Working(token) | Work::Lost(token) | Work::Stopping(token) => token,
    }
}

/// Writes what a process does on each partition, and their count. Refused if there isn't room for them, and then the
/// count alone is written.
pub fn copy_activities(activities: &[Activity], room: &mut [u16], count: &mut usize) -> u32
    ensures { IsCopied (map activity_number activities.now) room.old result room.new count.new }
{
    *count = activities.len();
    if room.len() < activities.len() {
        return SHORT;
    }
    put_activities(activities, room);
    OK
}

// Writes what a process does on each partition at the front of the room, which has room for each.
fn put_activities(activities: &[Activity], room: &mut [u16])
    requires { length activities.now ≤ length room.old }
    ensures { room.new ≡ map activity_number activities.now ++ drop (length activities.now) room.old }
{
    for partition in 0..activities.len() {
        room[partition] = of_activity(activities[partition]);
    }
}

fn of_activity(activity: Activity) -> u16
    ensures { result ≡ activity_number activity }
{
    match activity {
        Activity::Idle => 0,
        Activity::Working => 1,
        Activity::Stopping => 2,
    }
}

fn ending_of(ending: Option<Ending>) -> u32
    ensures { result ≡ ending_or_none ending }
{
    match ending {
        Some(ending) => of_ending(ending),
        None => 0,
    }
}
