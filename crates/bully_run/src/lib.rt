//! Members that run: what holds over lists of calls on a member's value.
//!
//! It builds on bully_member. Its laws tie the values that a member's calls give to the model of bully_work.
#![tactic(auto)]

ghost use Rattle.std.specs.Prelude.{◌≡◌, ◌≤◌, ◌<◌, ◌⊎◌, ℕ, Contains, List, Some, false, length, true};
ghost use Rattle.bully_member.specs.Activities.{busy};
ghost use Rattle.bully_member.specs.Asking.{ActsBy};
ghost use Rattle.bully_member.specs.Keeping.{HasSession};
ghost use Rattle.bully_member.specs.Member.{MemberState, replica_of};
ghost use Rattle.bully_member.specs.Times.{sure};
ghost use Rattle.bully_member.specs.declared.values.Request.{Request as RequestState};
ghost use Rattle.bully_member.specs.declared.values.SessionId.{SessionId as SessionIdState};
ghost use Rattle.bully_member.specs.declared.values.SessionState.{SessionState};
ghost use Rattle.bully_member.specs.declared.values.Step.{Step as StepState};
ghost use Rattle.bully_rebalance.specs.Acting.{IsReachedBy};
ghost use Rattle.bully_run.specs.Calls.{Call, GoesNext, GoesOnLearning, HasLived, IsBehind, IsGranted, IsMadeFor};
ghost use Rattle.bully_run.specs.Calls.{IsSameTime, Made, NumbersLast, Takes, session_now};
ghost use Rattle.bully_run.specs.Run.{AllEager, BeginsWhileSure, Deed, Goes, Happening, Happens, HasRun, Process, Run};
ghost use Rattle.bully_run.specs.Run.{WorksNow};
ghost use Rattle.bully_run.specs.Run.{id_of, piece_of, session_by};
ghost use Rattle.bully_work.specs.Working.{GivesTo};
ghost use Rattle.bully_agree.specs.Fencing.{Planned};
ghost use Rattle.bully_rows.specs.Headers.{Record};
ghost use Rattle.bully_work.specs.Store.{Act, AllAsked, HasWork, IsLive, IsReached, KeepsNothing, OwnsNow, Piece};

use bully_member::{Member, Step};
use bully_replica::LearnFault;
use bully_rows::RowReader;
use std::alloc::Global;
use std::io::Read;

/// The law of a member's promises. Whatever calls are made on a member's value, in whatever order and with whatever
/// arguments:
///
/// - `kept`: no promise that it has asked for, for its session, whether or not the store answered, reaches further than
///   the member knows.
/// - `only`: what it takes for its last promise is one that it has asked for, for its session in its epoch; or it has
///   promised nothing, as in a new epoch. So no promise of an epoch before keeps it from working by a plan.
/// - `begins`: it begins to work only by a plan after each of these promises.
/// - `session`: it begins only while it has its lease by the session that it asked for last.
/// - `rises`: within a session and an epoch what it knows of its promises doesn't fall.
/// - `asks`: it asks for a promise only for that session, and for no lower offset than it has promised; and then it has
///   promised that.
/// - `starts`: a new session has promised nothing before, and then the offset at which its lease is asked for.
/// - `counts`: if it has its lease, that counts from a call at which it asked for it, or to renew it, and not from the
///   answer. The answer to that request was that it is done: it is the first after it, before any other request.
///
/// The one premise is that no number of a session is used twice (`NumbersLast`): a process has 2^64 of them.
pub fn forgets_no_promise()
    ensures kept { (calls : List Call) (m : MemberState) (made : List Made) (p : Made)
        → HasLived calls m made → NumbersLast m → Contains made p → p.session ≡ session_now m
        → IsReachedBy p.promised m.terms.epoch m.promised }
    ensures only { (calls : List Call) (m : MemberState) (made : List Made) → HasLived calls m made
        → (m.promised ≡ 0)
        ⊎ ((p : Made) × Contains made p × IsMadeFor (session_now m) m.terms.epoch m.promised p) }
    ensures begins { (calls : List Call) (m after : MemberState) (made : List Made) (p : Made) (now token : ℕ)
        → HasLived calls m made → NumbersLast m → GoesNext m now (StepState.Begin token) after
        → Contains made p → p.session ≡ session_now m → IsBehind p.promised m.terms.epoch token }
    ensures session { (calls : List Call) (m after : MemberState) (made : List Made) (now token : ℕ)
        → HasLived calls m made → GoesNext m now (StepState.Begin token) after → HasSession m (session_now m) }
    ensures rises { (calls : List Call) (call : Call) (m after : MemberState) (made : List Made)
        → HasLived calls m made → Takes m call after → IsSameTime m after → m.promised ≤ after.promised }
    ensures asks { (calls : List Call) (m after : MemberState) (made : List Made) (session : SessionIdState)
        (now offset : ℕ)
        → HasLived calls m made → GoesNext m now (StepState.Ask (RequestState.Promise session offset)) after
        → (session ≡ session_now m) × (m.promised ≤ offset) × (after.promised ≡ offset) }
    ensures starts { (calls : List Call) (m after : MemberState) (made : List Made) (session : SessionIdState)
        (now offset : ℕ)
        → HasLived calls m made → GoesNext m now (StepState.Ask (RequestState.Acquire session offset)) after
        → NumbersLast after
        → (session ≡ session_now after) × (after.promised ≡ offset)
        × ((p : Made) → Contains made p → p.session ≡ session → ⊥) }
    ensures counts { (calls : List Call) (m : MemberState) (made : List Made) (session : SessionIdState) (since : ℕ)
        → HasLived calls m made → m.session ≡ SessionState.Live session since → IsGranted calls session since }
{}

/// The law of members that run. A *run* is a list of what happens to processes with members and to the store that they
/// share (`Happens`): calls on members' values, which change them as the contracts of `Member` say; what the driver
/// does then, on its premises, which `specs/Run` names; and what the store does by its own tests of requests that were
/// sent: late, again, or never. Nothing is assumed about which answers, leases and times are reported to a member, but
/// that a member whose lease is sure has it when it begins (`BeginsWhileSure`).
///
/// - `reached`: each run is a list of acts of bully_work. So all laws there hold of its store.
/// - `knows`: a member that needs no snapshot knows its session (`ActsBy`).
/// - `works`: all that a process works on, by whichever of its sessions, its member has among what it works on.
/// - `owner`: a process that works, and has its lease, owns that by the whole log of the current epoch.
/// - `now`: no two processes that have their leases work on one partition.
/// - `sure`: no two processes whose leases are sure by their clocks work on one partition, if the store keeps these.
/// - `eager`: if all groups are eager, no act passes over anybody, and no promise keeps anything. So `asked_apart` and
///   `eager_apart` of bully_work hold, too.
/// - `begins`: a member that is to begin, and has its lease, may: the run may go on so that its process works on any
///   partition that the last plan gives its node.
/// - `some`: there are runs. In one a process gets its lease, and is told so.
pub fn members_apart()
    ensures reached { (happenings : List Happening) (R : Run) → HasRun happenings R
        → (acts : List Act) × IsReached acts R.store }
    ensures knows { (happenings : List Happening) (R : Run) (p : ℕ) (q : Process) → HasRun happenings R
        → R.processes p ≡ Some q → q.member.needs_snapshot ≡ false
        → ActsBy q.member R.store q.name (id_of (session_now q.member)) }
    ensures works { (happenings : List Happening) (R : Run) (p number : ℕ) (q : Process) (x : Piece)
        → HasRun happenings R → R.processes p ≡ Some q → number ≤ q.member.tries
        → HasWork R.store q.name (id_of (session_by p number)) x → Contains (busy q.member.works) x.partition }
    ensures owner { (happenings : List Happening) (R : Run) (p : ℕ) (x : Piece) → HasRun happenings R
        → (w : WorksNow R p x) → (x.epoch ≡ R.store.epoch) × OwnsNow R.store w.process.name x.partition }
    ensures now { (happenings : List Happening) (R : Run) (p q : ℕ) (x y : Piece) → HasRun happenings R
        → WorksNow R p x → WorksNow R q y → x.partition ≡ y.partition → p ≡ q }
    ensures sure { (happenings : List Happening) (R : Run) (p q now later : ℕ) (a b : Process) (x y : Piece)
        → HasRun happenings R → R.processes p ≡ Some a → R.processes q ≡ Some b
        → BeginsWhileSure R.store a.name a.member now → BeginsWhileSure R.store b.name b.member later
        → sure a.member.session a.member.ttl now ≡ true → sure b.member.session b.member.ttl later ≡ true
        → HasWork R.store a.name (id_of (session_now a.member)) x
        → HasWork R.store b.name (id_of (session_now b.member)) y
        → x.partition ≡ y.partition → p ≡ q }
    ensures eager { (happenings : List Happening) (R : Run) → HasRun happenings R → AllEager happenings
        → (acts : List Act) × IsReached acts R.store × AllAsked acts × KeepsNothing R.store }
    ensures begins { (happenings : List Happening) (R : Run) (p now token k : ℕ) (q : Process) (after : MemberState)
        (plan : Planned)
        → HasRun happenings R → R.processes p ≡ Some q → GoesNext q.member now (StepState.Begin token) after
        → IsLive R.store q.name (id_of (session_now q.member)) → (replica_of q.member).last ≡ Some plan
        → GivesTo plan.table k q.member.terms.node → k < length q.member.works
        → (deed : Deed) × (R' : Run) × Happens R (Goes p now (StepState.Begin token) deed) R'
        × WorksNow R' p (piece_of q.member plan k) }
    ensures some { (happenings : List Happening) × (R : Run) × (q : Process) × HasRun happenings R
        × (R.processes 0 ≡ Some q) × IsLive R.store q.name (id_of (session_now q.member))
        × HasSession q.member (session_now q.member) }
{}

/// What a member does next, as [`Member::next`] gives it: a call of a run. So such calls are possible wherever there is
/// a member.
pub fn next(member: &mut Member, now: u64) -> Step
    ensures { GoesNext member.old now result member.new }
{
    member.next(now)
}

/// What a member learns, as [`Member::learn`] does: a call of a run.
pub fn learn<R: Read + Drop>(
    member: &mut Member,
    alloc: Global,
    reader: &mut RowReader<R>,
) -> Result<(), LearnFault>
    ensures { (records : List Record) → reader.old.records ≡ Some records
        → GoesOnLearning member.old records result member.new }
{
    member.learn(alloc, reader)
}
